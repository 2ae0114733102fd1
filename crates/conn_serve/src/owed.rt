//! What is still to be sent.

ghost use Rattle.std.specs.Prelude.{true, false, ◌≡◌, ◌≢◌, ◌≤◌, [], ◌++◌, length, drop, IfOk, OnOk};
ghost use Rattle.turn_lock.specs.Histories.{StartsWith};
ghost use Rattle.house_model.specs.Histories.{Meets, line_of};
ghost use Rattle.conn_serve.specs.Entering.{GivesIf, marked_if};

use crate::enter::enter;
use hall::{Desk, DeskFault};
use house_core::MOST_FRAME;
use house_model::{Event, Reply};
use stanza_tree::NoMemory;
use std::alloc::Global;
use std::marker::Model;
use std::sync::Wait;

/// So many bytes are sent before more are gathered: as many as a record of TLS holds (RFC 8446, 5.1), and more than most rounds say.
const MANY: usize = 16_384;

/// Bytes that are to be sent, and how many of them were.
#[derive(Drop)]
pub struct Owed {
    bytes: Vec<u8>,
    sent: usize,
}

impl Model for Owed {
    ghost use Rattle.std.specs.Prelude.{List, ℕ, ◌≤◌, length, drop};

    ghost Value = { List ℕ };

    ghost view = { λ o. drop o.sent o.bytes.items };

    ghost invariant = { λ o. o.sent ≤ length o.bytes.items };
}

impl Owed {
    /// Nothing. Takes no memory.
    pub fn new(alloc: Global) -> Owed
        ensures { result ≡ [] }
    {
        Owed {
            bytes: Vec::new(alloc),
            sent: 0,
        }
    }

    /// Nothing, with room for what is gathered before it is sent.
    pub fn with_room(alloc: Global) -> Result<Owed, NoMemory>
        ensures { IfOk result (λ owed. owed ≡ []) }
    {
        let mut bytes = Vec::new(alloc);
        bytes.reserve(MANY + MOST_FRAME)?;
        Ok(Owed { bytes, sent: 0 })
    }

    pub(crate) fn rest(&self) -> &[u8]
        ensures { result.now ≡ self.now }
    {
        &self.bytes[self.sent..]
    }

    pub fn is_empty(&self) -> bool
        ensures none { result ≡ true → self.now ≡ [] }
        ensures some { result ≡ false → self.now ≢ [] }
    {
        self.sent >= self.bytes.len()
    }

    /// Whether it is time to send.
    pub(crate) fn is_many(&self) -> bool {
        self.bytes.len() - self.sent >= MANY
    }

    pub(crate) fn add(&mut self, text: &[u8]) -> Result<(), NoMemory>
        ensures { OnOk result (self.new ≡ self.old ++ text.now) }
    {
        self.bytes.extend_from_slice(text)?;
        Ok(())
    }

    /// Enters an event of the pass's line, and adds the text of a frame that was pulled. None where there was no memory for one: then the
    /// event was not entered.
    pub(crate) fn enter<W: Wait, D: Desk>(
        &mut self,
        rt: &W,
        desk: &D,
        pass: &mut D::Pass,
        event: &Event,
    ) -> Option<Result<Reply, DeskFault>>
        requires pass { D.came_from desk.now pass.old }
        requires line { line_of event.now ≡ D.line pass.old }
        requires meets { Meets event.now }
        ensures pass { D.came_from desk.now pass.new }
        ensures line { D.line pass.new ≡ D.line pass.old }
        ensures history { StartsWith (D.seen pass.new) (D.seen pass.old) }
        ensures gives { GivesIf (D.line pass.old) event.now self.old self.new result (D.seen pass.old) (D.seen pass.new) }
        ensures mark { D.marked pass.new ≡ marked_if result (D.marked pass.old) }
    {
        match self.bytes.reserve(MOST_FRAME) {
            Ok(()) => Some(enter(rt, desk, pass, event, &mut self.bytes)),
            Err(_) => None,
        }
    }

    /// So many bytes were sent.
    pub(crate) fn skip(&mut self, n: usize)
        requires { n ≤ length self.old }
        ensures { self.new ≡ drop n self.old }
    {
        self.sent += n;
    }

    /// Nothing is owed any more. Keeps the memory.
    pub(crate) fn clear(&mut self)
        ensures { self.new ≡ [] }
    {
        self.bytes.clear();
        self.sent = 0;
    }

    /// What is left, in memory of its own.
    pub(crate) fn keep(&self, alloc: Global) -> Result<Owed, NoMemory>
        ensures { IfOk result (λ owed. owed ≡ self.now) }
    {
        Ok(Owed {
            bytes: Vec::from_slice(alloc, self.rest())?,
            sent: 0,
        })
    }
}
