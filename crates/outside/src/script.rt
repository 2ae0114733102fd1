//! A script of readings.
ghost use Rattle.std.specs.Prelude.{◌≡◌, ◌<◌, length};
ghost use Rattle.outside.specs.Links.{Gives, coming};

use crate::link::Heard;
use stanza_tree::Several;
use std::collections::VecDeque;
use std::marker::Model;

/// The readings that a link is to hear, of which the first may be taken in part.
#[derive(Drop)]
pub(crate) struct Script {
    readings: VecDeque<Several<u8>>,
    from: usize,
}

impl Model for Script {
    ghost use Rattle.std.specs.Prelude.{List, ℕ};
    ghost use Rattle.outside.specs.Scripts.{rest_from, IsWithin};

    ghost Value = { List (List ℕ) };

    ghost view = { λ s. rest_from s.from s.readings.items };

    ghost invariant = { λ s. IsWithin s.from s.readings.items };
}

impl Script {
    /// Takes no memory.
    pub fn new(readings: Vec<Several<u8>>) -> Script
        ensures { result ≡ readings.items }
    {
        Script {
            readings: VecDeque::from_vec(readings),
            from: 0,
        }
    }

    /// How many bytes come next through a buffer for so many.
    pub fn coming(&self, most: usize) -> usize
        ensures { result ≡ coming self.now most }
    {
        match self.readings.front() {
            Some(reading) => reading.slice()[self.from..].len().min(most),
            None => 0,
        }
    }

    /// Gives what comes next.
    pub fn hear(&mut self, into: &mut [u8]) -> Heard
        requires { 0 < length into.old }
        ensures gives { Gives self.old self.new result into.new }
        ensures len { length into.new ≡ length into.old }
    {
        let Some(reading) = self.readings.front() else {
            return Heard::End;
        };
        let rest = &reading.slice()[self.from..];
        let all = rest.len();
        let count = all.min(into.len());
        into[..count].copy_from_slice(&rest[..count]);
        if count < all {
            self.from += count;
            return Heard::Bytes(count);
        }
        self.from = 0;
        self.readings.pop_front();
        if count == 0 {
            Heard::Quiet
        } else {
            Heard::Bytes(count)
        }
    }
}
