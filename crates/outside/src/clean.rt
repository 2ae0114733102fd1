//! A source and a sink that never fail.
ghost use Rattle.std.specs.Prelude.{◌≡◌, Some, None};

use crate::bytes::{Got, Put, Sink, Source, copy_front};
use std::marker::Model;

/// Bytes in memory, whose reading never fails.
#[derive(Drop)]
pub struct CleanSource {
    bytes: Vec<u8>,
    at: usize,
}

impl Model for CleanSource {
    ghost use Rattle.std.specs.Prelude.{List, ℕ, drop, length, ◌≤◌};

    ghost Value = { List ℕ };

    ghost view = { λ s. drop s.at s.bytes.items };

    ghost invariant = { λ s. s.at ≤ length s.bytes.items };
}

impl CleanSource {
    /// A source of these bytes, of which none was read yet. Takes no memory.
    pub fn new(bytes: Vec<u8>) -> CleanSource
        ensures { result ≡ bytes.items }
    {
        CleanSource { bytes, at: 0 }
    }
}

impl Source for CleanSource {
    ghost left = { λ s. Some s };

    ghost faults = { λ _. 0 };

    #[tactic(auto, using(crate::proofs::Fronts::front_taken))]
    fn read(&mut self, into: &mut [u8]) -> Got {
        let rest = &self.bytes.as_slice()[self.at..];
        let count = copy_front(rest, into, usize::MAX);
        if count == 0 {
            return Got::End;
        }
        self.at += count;
        Got::Bytes(count)
    }
}

/// A sink that takes all that it is given, and neither keeps nor tells it.
#[derive(Clone, Copy, Debug, PartialEq, Eq)]
pub struct CleanSink;

impl Sink for CleanSink {
    ghost took = { λ _. None };

    ghost faults = { λ _. 0 };

    fn write(&mut self, from: &[u8]) -> Put {
        Put::Taken(from.len())
    }
}
