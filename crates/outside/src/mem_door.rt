//! Doors in memory.
ghost use Rattle.std.specs.Prelude.{◌≡◌, ◌≢◌, ◌≤◌, ℕ, [], List, Some, None, IfOk, is_some, map};
ghost use Rattle.outside.specs.Devices.{Rose};
ghost use Rattle.outside.specs.Doors.{Accepts, CleanAccepts, Comes, ComesUnmarked, TakesBack, Unmarked, took_back};
ghost use Rattle.outside.specs.Links.{CleanLinkState, LinkState};
ghost use Rattle.outside.specs.Plans.{planned};
ghost use Rattle.outside.specs.Tapes.{Mark, marks_told, shown};

use crate::door::{Came, Door, is_reached};
use crate::mem_link::{CleanLink, MemLink};
use crate::plan::Plan;
use crate::tape::Tape;
use std::alloc::{AllocError, Global};
use std::collections::VecDeque;
use std::marker::Model;
use std::sync::Wait;

/// A door in memory, which hands out its links in turn and tells the tapes of those that came back. The calls of `accept`
/// whose numbers, from 1, are among `fails` fail, and so does one after the last link.
#[derive(Drop)]
pub struct MemDoor {
    plan: Plan,
    links: VecDeque<MemLink>,
    handed_out: u64,
    quota: u64,
    back: Vec<Tape>,
    tells: bool,
}

impl Model for MemDoor {
    ghost use Rattle.std.specs.Prelude.{List, map, ◌-◌, vec_capacity, vec_len};
    ghost use Rattle.outside.specs.Doors.{DoorState, Unmarked};
    ghost use Rattle.outside.specs.Tapes.{Mark, marks_told, told_where};

    ghost Value = { DoorState };

    ghost view = { λ d. record {
      plan = d.plan;
      left = d.links.items;
      links = d.handed_out;
      quota = d.quota;
      tapes = told_where (List Mark) d.tells (map marks_told d.back.items);
      room = vec_capacity d.back - vec_len d.back;
    } };

    ghost invariant = { λ d. Unmarked d.links.items };
}

impl MemDoor {
    /// A door without a quota that is to hand out these links, with room for the tapes of so many. The links have no
    /// marks yet.
    pub fn new(
        alloc: Global,
        links: Vec<MemLink>,
        fails: Vec<u64>,
        tapes: usize,
    ) -> Result<MemDoor, AllocError>
        requires { Unmarked links.items }
        ensures { IfOk result (λ d. d ≡ record {
          plan = planned fails.items;
          left = links.items;
          links = 0;
          quota = 0;
          tapes = Some [];
          room = tapes;
        }) }
    {
        Ok(MemDoor {
            plan: Plan::new(fails),
            links: VecDeque::from_vec(links),
            handed_out: 0,
            quota: 0,
            back: Vec::with_capacity(alloc, tapes)?,
            tells: true,
        })
    }

    /// Sets the number of links that it hands out; 0 is without end.
    pub fn set_quota(&mut self, quota: u64)
        ensures { self.new ≡ record self.old { quota = quota } }
    {
        self.quota = quota;
    }

    /// How often it failed.
    pub fn faults(&self) -> u64
        ensures { result ≡ self.now.plan.faults }
    {
        self.plan.faults()
    }

    /// How many links it handed out.
    pub fn links(&self) -> u64
        ensures { result ≡ self.now.links }
    {
        self.handed_out
    }

    /// Whether it tells the tapes of the links that came back.
    pub(crate) fn tells(&self) -> bool
        ensures { result ≡ is_some self.now.tapes }
    {
        self.tells
    }

    /// The tapes of the links that came back, or none where it doesn't tell them.
    pub fn tapes(&self) -> &[Tape]
        ensures { map marks_told result.now ≡ shown (List Mark) self.now.tapes }
    {
        if self.tells {
            self.back.as_slice()
        } else {
            &[]
        }
    }
}

impl Door for MemDoor {
    type Link = MemLink;

    ghost tapes = { λ d. d.tapes };

    ghost faults = { λ d. d.plan.faults };

    ghost links = { λ d. d.links };

    ghost quota = { λ d. d.quota };

    fn accept<R: Wait>(&mut self, _rt: &R) -> Came<MemLink>
        ensures comes { Comes LinkState self.old.quota self.old.links self.new.links result }
        ensures unmarked { ComesUnmarked LinkState (λ l. l.tape.told) result }
        ensures quota { self.new.quota ≡ self.old.quota }
        ensures tapes { self.new.tapes ≡ self.old.tapes }
        ensures kept { self.old.plan.faults ≤ self.new.plan.faults }
        ensures cause { result ≡ Came.Failed → Rose self.old.plan.faults self.new.plan.faults }
        ensures accepts { Accepts self.old self.new result }
    {
        if is_reached(self.quota, self.handed_out) {
            self.plan.call();
            return Came::Shut;
        }
        if self.plan.fails_next() {
            self.plan.fail();
            return Came::Failed;
        }
        match self.links.pop_front() {
            Some(link) => {
                self.plan.call();
                self.handed_out = self.handed_out.saturating_add(1);
                Came::Link(link)
            }
            None => {
                self.plan.fail();
                Came::Failed
            }
        }
    }

    fn done(&mut self, link: MemLink)
        ensures tapes { TakesBack self.old.tapes link.tape.told self.new.tapes }
        ensures state { self.new ≡ took_back self.old link.tape.told }
    {
        let tape = link.into_tape();
        if self.back.len() == self.back.capacity() {
            self.tells = false;
            return;
        }
        self.tells = self.tells && tape.tells();
        self.back.push_reserved(tape);
    }
}

/// A door that never fails. It hands out its links in turn, and then links that have ended; those that come back it
/// neither keeps nor tells.
#[derive(Drop)]
pub struct CleanDoor {
    links: VecDeque<CleanLink>,
    handed_out: u64,
    quota: u64,
}

impl Model for CleanDoor {
    ghost use Rattle.outside.specs.Doors.{CleanDoorState};

    ghost Value = { CleanDoorState };

    ghost view = { λ d. record { left = d.links.items; links = d.handed_out; quota = d.quota } };
}

impl CleanDoor {
    /// A door without a quota that is to hand out these links. Takes no memory.
    pub fn new(links: Vec<CleanLink>) -> CleanDoor
        ensures { result ≡ record { left = links.items; links = 0; quota = 0 } }
    {
        CleanDoor {
            links: VecDeque::from_vec(links),
            handed_out: 0,
            quota: 0,
        }
    }

    /// Sets the number of links that it hands out; 0 is without end.
    pub fn set_quota(&mut self, quota: u64)
        ensures { self.new ≡ record self.old { quota = quota } }
    {
        self.quota = quota;
    }

    /// How many links it handed out.
    pub fn links(&self) -> u64
        ensures { result ≡ self.now.links }
    {
        self.handed_out
    }
}

impl Door for CleanDoor {
    type Link = CleanLink;

    ghost tapes = { λ _. None };

    ghost faults = { λ _. 0 };

    ghost links = { λ d. d.links };

    ghost quota = { λ d. d.quota };

    fn accept<R: Wait>(&mut self, _rt: &R) -> Came<CleanLink>
        ensures comes { Comes CleanLinkState self.old.quota self.old.links self.new.links result }
        ensures quota { self.new.quota ≡ self.old.quota }
        ensures never { result ≢ Came.Failed }
        ensures accepts { CleanAccepts self.old self.new result }
    {
        if is_reached(self.quota, self.handed_out) {
            return Came::Shut;
        }
        self.handed_out = self.handed_out.saturating_add(1);
        match self.links.pop_front() {
            Some(link) => Came::Link(link),
            None => Came::Link(CleanLink::new(Vec::new(*self.links.allocator()))),
        }
    }

    fn done(&mut self, _link: CleanLink)
        ensures { self.new ≡ self.old }
    {}
}
