//! What was read of a link and is still to be heard.

ghost use Rattle.std.specs.Prelude.{true, false, ◌≡◌, ◌≢◌, ◌≤◌, [], length, drop, IfOk, OnErr, Ok};
ghost use Rattle.outside.specs.Devices.{Rose};
ghost use Rattle.conn_serve.specs.Reading.{Refilled};

use outside::{Heard, Link};
use stanza_tree::NoMemory;
use std::alloc::Global;
use std::marker::Model;

/// How many bytes are read at once: a page, which most stanzas fit.
const ROOM: usize = 4096;

/// The bytes that were read and are still to be heard.
#[derive(Drop)]
pub struct Ears {
    buffer: Vec<u8>,
    from: usize,
    to: usize,
}

impl Model for Ears {
    ghost use Rattle.std.specs.Prelude.{List, ℕ, ◌-◌, ◌≤◌, ◌<◌, length, take, drop};

    ghost Value = { List ℕ };

    ghost view = { λ e. take (e.to - e.from) (drop e.from e.buffer.items) };

    ghost invariant = { λ e. (e.from ≤ e.to) × (e.to ≤ length e.buffer.items) };
}

impl Ears {
    /// Nothing. Takes no memory: a reading takes what it needs.
    pub fn new(alloc: Global) -> Ears
        ensures { result ≡ [] }
    {
        Ears {
            buffer: Vec::new(alloc),
            from: 0,
            to: 0,
        }
    }

    pub(crate) fn ahead(&self) -> &[u8]
        ensures { result.now ≡ self.now }
    {
        &self.buffer[self.from..self.to]
    }

    pub(crate) fn is_empty(&self) -> bool
        ensures none { result ≡ true → self.now ≡ [] }
        ensures some { result ≡ false → self.now ≢ [] }
    {
        self.from == self.to
    }

    /// So many bytes were heard.
    pub(crate) fn skip(&mut self, n: usize)
        requires { n ≤ length self.old }
        ensures { self.new ≡ drop n self.old }
    {
        self.from += n;
    }

    /// What was read is not to be heard.
    pub(crate) fn clear(&mut self)
        ensures { self.new ≡ [] }
    {
        self.from = 0;
        self.to = 0;
    }

    /// Gives its memory back, where nothing is left to be heard.
    pub(crate) fn rest(&mut self, alloc: Global)
        ensures { self.new ≡ self.old }
    {
        if self.is_empty() {
            self.buffer = Vec::new(alloc);
            self.from = 0;
            self.to = 0;
        }
    }

    /// Reads what comes next, where all that was read was heard. Nothing is read where there is no memory for it.
    pub(crate) fn refill<L: Link>(&mut self, link: &mut L) -> Result<Heard, NoMemory>
        ensures told { IfOk result (λ heard. Refilled (L.tape link.old) (L.tape link.new) self.new heard) }
        ensures kept { L.faults link.old ≤ L.faults link.new }
        ensures cause { result ≡ Ok Heard.Failed → Rose (L.faults link.old) (L.faults link.new) }
        ensures ends_kept { L.ends link.old ≤ L.ends link.new }
        ensures ended { result ≡ Ok Heard.End → Rose (L.ends link.old) (L.ends link.new) }
        ensures laters { L.laters link.new ≡ L.laters link.old }
        ensures unread { OnErr result (link.new ≡ link.old) }
    {
        self.from = 0;
        self.to = 0;
        self.buffer.resize(ROOM, 0)?;
        let heard = link.recv(self.buffer.as_mut_slice());
        if let Heard::Bytes(n) = heard {
            self.to = n;
        }
        Ok(heard)
    }
}
