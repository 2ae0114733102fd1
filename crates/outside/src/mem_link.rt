//! Links in memory.
ghost use Rattle.std.specs.Prelude.{◌≡◌, ◌≢◌, ◌<◌, ◌≤◌, ℕ, [], ◌∷◌, Some, None, IfOk, length};
ghost use Rattle.outside.specs.Devices.{Rose};
ghost use Rattle.outside.specs.Links.{Gives, HeardFits, Recvs, Sends, SentFits, broken, ends_after, laters_after, mark_heard, marks_sent, overrun};
ghost use Rattle.outside.specs.Plans.{planned};
ghost use Rattle.outside.specs.Tapes.{Mark, Tells};

use crate::link::{Heard, Link, Sent};
use crate::plan::Plan;
use crate::script::Script;
use crate::tape::{Kind, Tape};
use stanza_tree::Several;
use std::alloc::{AllocError, Global};
use std::marker::Model;

/// A link in memory, which tells its tape. It hears its readings in turn, and then End. A sending takes at most `piece`
/// bytes. The calls whose numbers, from 1, are among `fails` fail, and so does one that finds no room for its mark.
#[derive(Drop)]
pub struct MemLink {
    plan: Plan,
    /// The sendings, of which those that are to fail by it are answered `Later`.
    sendings: Plan,
    script: Script,
    piece: usize,
    tape: Tape,
    ends: u64,
}

impl Model for MemLink {
    ghost use Rattle.std.specs.Prelude.{◌<◌};
    ghost use Rattle.outside.specs.Links.{LinkState};

    ghost Value = { LinkState };

    ghost view = { λ l. record { plan = l.plan; sendings = l.sendings; left = l.script; piece = l.piece; tape = l.tape; ends = l.ends } };

    ghost invariant = { λ l. 0 < l.piece };
}

impl MemLink {
    /// A link that is to hear these readings, of which one without bytes is Quiet. Its tape has room for so many marks,
    /// one a call, and for so many bytes.
    pub fn new(
        alloc: Global,
        readings: Vec<Several<u8>>,
        piece: usize,
        fails: Vec<u64>,
        calls: usize,
        bytes: usize,
    ) -> Result<MemLink, AllocError>
        requires { 0 < piece }
        ensures { IfOk result (λ l. l ≡ record {
          plan = planned fails.items;
          sendings = planned [];
          left = readings.items;
          piece = piece;
          ends = 0;
          tape = record { told = Some []; calls = calls; bytes = bytes };
        }) }
    {
        Ok(MemLink {
            plan: Plan::new(fails),
            sendings: Plan::new(Vec::new(alloc)),
            script: Script::new(readings),
            piece,
            tape: Tape::new(alloc, calls, bytes)?,
            ends: 0,
        })
    }

    /// The same link, which answers `Later` at the sendings of these numbers, from 1.
    pub fn later_at(self, sendings: Vec<u64>) -> MemLink
        ensures { result ≡ record self { sendings = planned sendings.items } }
    {
        let mut link = self;
        link.sendings = Plan::new(sendings);
        link
    }

    /// What was heard and said.
    pub fn tape(&self) -> &Tape
        ensures { result.now ≡ self.now.tape }
    {
        &self.tape
    }

    /// How often it failed.
    pub fn faults(&self) -> u64
        ensures { result ≡ self.now.plan.faults }
    {
        self.plan.faults()
    }

    /// Its tape, to be kept.
    pub(crate) fn into_tape(self) -> Tape
        ensures { result ≡ self.tape }
    {
        self.tape
    }

    fn fail_planned(&mut self)
        ensures state { self.new ≡ broken self.old }
        ensures kept { self.old.plan.faults ≤ self.new.plan.faults }
        ensures rose { Rose self.old.plan.faults self.new.plan.faults }
    {
        self.plan.fail();
        self.tape.note(Kind::Failed, &[]);
    }

    fn fail_for_room(&mut self)
        ensures state { self.new ≡ overrun self.old }
        ensures kept { self.old.plan.faults ≤ self.new.plan.faults }
        ensures rose { Rose self.old.plan.faults self.new.plan.faults }
    {
        self.plan.fail();
        self.tape.silence();
    }
}

impl Link for MemLink {
    ghost tape = { λ l. l.tape.told };

    ghost faults = { λ l. l.plan.faults };

    ghost ends = { λ l. l.ends };

    ghost laters = { λ l. l.sendings.faults };

    fn recv(&mut self, into: &mut [u8]) -> Heard
        requires { 0 < length into.old }
        ensures fits { HeardFits result into.new }
        ensures tape { Tells Mark self.old.tape.told self.new.tape.told (mark_heard result into.new ∷ []) }
        ensures kept { self.old.plan.faults ≤ self.new.plan.faults }
        ensures cause { result ≡ Heard.Failed → Rose self.old.plan.faults self.new.plan.faults }
        ensures ends_kept { self.old.ends ≤ self.new.ends }
        ensures ended { result ≡ Heard.End → Rose self.old.ends self.new.ends }
        ensures laters { self.new.sendings.faults ≡ self.old.sendings.faults }
        ensures recvs { Recvs self.old self.new result into.new }
    {
        if self.plan.fails_next() {
            self.fail_planned();
            return Heard::Failed;
        }
        if !self.tape.has_room(self.script.coming(into.len())) {
            self.fail_for_room();
            return Heard::Failed;
        }
        self.plan.call();
        let heard = self.script.hear(into);
        match heard {
            Heard::Bytes(n) => self.tape.note(Kind::Heard(n), &into[..n]),
            Heard::Quiet => self.tape.note(Kind::Quiet, &[]),
            Heard::End => {
                self.ends = self.ends.saturating_add(1);
                self.tape.note(Kind::End, &[]);
            }
            Heard::Failed => self.tape.note(Kind::Failed, &[]),
        }
        heard
    }

    fn send(&mut self, from: &[u8]) -> Sent
        requires { 0 < length from.now }
        ensures fits { SentFits result from.now }
        ensures tape { Tells Mark self.old.tape.told self.new.tape.told (marks_sent result from.now) }
        ensures kept { self.old.plan.faults ≤ self.new.plan.faults }
        ensures cause { result ≡ Sent.Failed → Rose self.old.plan.faults self.new.plan.faults }
        ensures ends_kept { self.old.ends ≤ self.new.ends }
        ensures laters { self.new.sendings.faults ≡ laters_after result self.old.sendings.faults }
        ensures sends { Sends self.old self.new result from.now }
    {
        if self.plan.fails_next() {
            self.fail_planned();
            return Sent::Failed;
        }
        if self.sendings.fails_next() {
            self.plan.call();
            self.sendings.fail();
            return Sent::Later;
        }
        let count = from.len().min(self.piece);
        if !self.tape.has_room(count) {
            self.fail_for_room();
            return Sent::Failed;
        }
        self.plan.call();
        self.sendings.call();
        self.tape.note(Kind::Said(count), &from[..count]);
        Sent::Taken(count)
    }

    fn ring(&mut self, _line: u32)
        ensures { self.new ≡ self.old }
    {}
}

/// A link that never fails. It hears its readings in turn, and then End; what it is given to send it neither keeps nor
/// tells.
#[derive(Drop)]
pub struct CleanLink {
    script: Script,
    ends: u64,
}

impl Model for CleanLink {
    ghost use Rattle.outside.specs.Links.{CleanLinkState};

    ghost Value = { CleanLinkState };

    ghost view = { λ l. record { left = l.script; ends = l.ends } };
}

impl CleanLink {
    /// A link that is to hear these readings, of which one without bytes is Quiet. Takes no memory.
    pub fn new(readings: Vec<Several<u8>>) -> CleanLink
        ensures { result ≡ record { left = readings.items; ends = 0 } }
    {
        CleanLink {
            script: Script::new(readings),
            ends: 0,
        }
    }
}

impl Link for CleanLink {
    ghost tape = { λ _. None };

    ghost faults = { λ _. 0 };

    ghost ends = { λ l. l.ends };

    ghost laters = { λ _. 0 };

    fn recv(&mut self, into: &mut [u8]) -> Heard
        requires { 0 < length into.old }
        ensures fits { HeardFits result into.new }
        ensures cause { result ≢ Heard.Failed }
        ensures ends_kept { self.old.ends ≤ self.new.ends }
        ensures ended { result ≡ Heard.End → Rose self.old.ends self.new.ends }
        ensures ends { self.new.ends ≡ ends_after result self.old.ends }
        ensures gives { Gives self.old.left self.new.left result into.new }
    {
        let heard = self.script.hear(into);
        if heard == Heard::End {
            self.ends = self.ends.saturating_add(1);
        }
        heard
    }

    fn send(&mut self, from: &[u8]) -> Sent
        requires { 0 < length from.now }
        ensures taken { result ≡ Sent.Taken (length from.now) }
        ensures kept { self.new ≡ self.old }
    {
        Sent::Taken(from.len())
    }

    fn ring(&mut self, _line: u32)
        ensures { self.new ≡ self.old }
    {}
}
