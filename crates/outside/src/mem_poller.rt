//! A poller in memory.
ghost use Rattle.std.specs.Prelude.{◌≡◌, ◌≤◌, [], ◌∷◌, ℕ, true, false, length, nat_eq, replicate, List, Some, IfOk, map};
ghost use Rattle.outside.specs.Devices.{Rose};
ghost use Rattle.outside.specs.Doors.{Unmarked};
ghost use Rattle.outside.specs.Links.{LinkState};
ghost use Rattle.outside.specs.Plans.{called, planned};
ghost use Rattle.outside.specs.Polls.{Breaks, HandsTo, IsFresh, Plays, PollerState, Rings, RingsUnmarked, SeatState, Waits, all_free, all_tell, gave_back};
ghost use Rattle.outside.specs.Polls.{gave_up, is_free_at, is_taken_at, may_come, rung_of, seat_at, seats_of, told_ring, took_up, unused};
ghost use Rattle.outside.specs.Posts.{Each};
ghost use Rattle.outside.specs.Tapes.{Mark, Tells, marks_told, shown};
ghost use Rattle.outside.specs.declared.poller.Rung.{Rung};

use crate::door::is_reached;
use crate::mem_link::MemLink;
use crate::plan::Plan;
use crate::poller::{Poller, Ring, Rung};
use crate::seat::{Seat, all_free, all_tell, free_seats};
use crate::tape::Tape;
use std::alloc::{AllocError, Global};
use std::collections::VecDeque;
use std::marker::Model;
use std::sync::Wait;

/// A poller in memory, which rings by its script: `New` with the next of its links, where the place is free, and `Ready` where it is taken. A wait
/// that can't ring so fails, as do those whose numbers, from 1, are among `fails`. Once its quota came and was given back, it shuts. It tells its
/// rings, and the tapes of the links that came back.
#[derive(Drop)]
pub struct MemPoller {
    plan: Plan,
    script: VecDeque<Rung>,
    links: VecDeque<MemLink>,
    seats: Vec<Seat>,
    handed_out: u64,
    quota: u64,
    rung: Vec<Rung>,
    tells: bool,
}

impl Model for MemPoller {
    ghost use Rattle.std.specs.Prelude.{◌-◌, vec_capacity, vec_len};
    ghost use Rattle.outside.specs.Doors.{Unmarked};
    ghost use Rattle.outside.specs.Polls.{PollerState};
    ghost use Rattle.outside.specs.Tapes.{told_where};
    ghost use Rattle.outside.specs.declared.poller.Rung.{Rung};

    ghost Value = { PollerState };

    ghost view = { λ p. record {
      plan = p.plan;
      script = p.script.items;
      left = p.links.items;
      places = p.seats.items;
      links = p.handed_out;
      quota = p.quota;
      rung = told_where Rung p.tells p.rung.items;
      room = vec_capacity p.rung - vec_len p.rung;
    } };

    ghost invariant = { λ p. Unmarked p.links.items };
}

impl MemPoller {
    /// A poller without a quota, of so many places, that is to ring so and to hand out these links, with room for so many tapes at each place and
    /// for so many rings. The links have no marks yet.
    #[tactic(auto, using(crate::proofs::PollLemmas::fresh_places))]
    pub fn new(
        alloc: Global,
        places: u32,
        script: Vec<Rung>,
        links: Vec<MemLink>,
        fails: Vec<u64>,
        tapes: usize,
        rings: usize,
    ) -> Result<MemPoller, AllocError>
        requires { Unmarked links.items }
        ensures state { IfOk result (λ p. p ≡ record {
          plan = planned fails.items;
          script = script.items;
          left = links.items;
          places = replicate places (unused tapes);
          links = 0;
          quota = 0;
          rung = Some [];
          room = rings;
        }) }
        ensures unused { IfOk result (λ p. Each SeatState IsFresh p.places) }
    {
        let seats = free_seats(alloc, places, tapes)?;
        Ok(MemPoller {
            plan: Plan::new(fails),
            script: VecDeque::from_vec(script),
            links: VecDeque::from_vec(links),
            seats,
            handed_out: 0,
            quota: 0,
            rung: Vec::with_capacity(alloc, rings)?,
            tells: true,
        })
    }

    /// Sets the number of links that it hands out; 0 is without end.
    pub fn set_quota(&mut self, quota: u64)
        ensures { self.new ≡ record self.old { quota = quota } }
    {
        self.quota = quota;
    }

    /// How often it failed.
    pub fn faults(&self) -> u64
        ensures { result ≡ self.now.plan.faults }
    {
        self.plan.faults()
    }

    /// How many links it handed out.
    pub fn links(&self) -> u64
        ensures { result ≡ self.now.links }
    {
        self.handed_out
    }

    /// The rings that were, or none where it doesn't tell them.
    pub fn rung(&self) -> &[Rung]
        ensures { result.now ≡ shown Rung self.now.rung }
    {
        if self.tells {
            self.rung.as_slice()
        } else {
            &[]
        }
    }

    /// The tapes of the links that came back at a place, or none where it doesn't tell them.
    pub fn tapes(&self, k: u32) -> &[Tape]
        ensures { map marks_told result.now ≡ shown (List Mark) (seat_at self.now.places k).tapes }
    {
        match self.seats.get(k as usize) {
            Some(seat) => seat.tapes(),
            None => &[],
        }
    }

    /// Whether it has so many places.
    pub(crate) fn has_places(&self, places: u32) -> bool
        ensures { result ≡ nat_eq (length self.now.places) places }
    {
        self.seats.len() == places as usize
    }

    /// Whether it tells the tapes of each place.
    pub(crate) fn tells(&self) -> bool
        ensures { result ≡ all_tell self.now.places }
    {
        all_tell(self.seats.as_slice())
    }

    fn is_free_at(&self, k: u32) -> bool
        ensures { result ≡ is_free_at self.now.places k }
    {
        (k as usize) < self.seats.len() && !self.seats[k as usize].is_taken()
    }

    fn is_taken_at(&self, k: u32) -> bool
        ensures { result ≡ is_taken_at self.now.places k }
    {
        (k as usize) < self.seats.len() && self.seats[k as usize].is_taken()
    }

    fn fail(&mut self) -> Ring<MemLink>
        ensures breaks { Breaks self.old self.new result }
        ensures kept { self.old.plan.faults ≤ self.new.plan.faults }
        ensures rose { Rose self.old.plan.faults self.new.plan.faults }
    {
        self.plan.fail();
        Ring::Failed
    }

    /// The next link comes to a place.
    fn bring(&mut self, k: u32) -> Ring<MemLink>
        ensures played { (may_come self.old k ≡ true → HandsTo self.old.left k self.old self.new result)
            × (may_come self.old k ≡ false → Breaks self.old self.new result) }
        ensures rings { Rings LinkState (length self.old.places) self.old.quota (seats_of self.old) (seats_of self.new) result }
        ensures unmarked { RingsUnmarked LinkState (λ l. l.tape.told) result }
        ensures kept { self.old.plan.faults ≤ self.new.plan.faults }
        ensures cause { result ≡ Ring.Failed → Rose self.old.plan.faults self.new.plan.faults }
    {
        if is_reached(self.quota, self.handed_out) || !self.is_free_at(k) {
            return self.fail();
        }
        match self.links.pop_front() {
            Some(link) => {
                self.plan.call();
                self.handed_out = self.handed_out.saturating_add(1);
                self.seats[k as usize].take_up();
                Ring::New(k, link)
            }
            None => self.fail(),
        }
    }

    /// The place is ready.
    fn ring_at(&mut self, k: u32) -> Ring<MemLink>
        ensures played { (is_taken_at self.old.places k ≡ true → (result ≡ Ring.Ready k) × (self.new ≡ record self.old { plan = called self.old.plan }))
            × (is_taken_at self.old.places k ≡ false → Breaks self.old self.new result) }
        ensures rings { Rings LinkState (length self.old.places) self.old.quota (seats_of self.old) (seats_of self.new) result }
        ensures unmarked { RingsUnmarked LinkState (λ l. l.tape.told) result }
        ensures kept { self.old.plan.faults ≤ self.new.plan.faults }
        ensures cause { result ≡ Ring.Failed → Rose self.old.plan.faults self.new.plan.faults }
    {
        if !self.is_taken_at(k) {
            return self.fail();
        }
        self.plan.call();
        Ring::Ready(k)
    }

    /// What stands next in the script.
    fn play(&mut self) -> Ring<MemLink>
        ensures plays { Plays self.old.script self.old self.new result }
        ensures rings { Rings LinkState (length self.old.places) self.old.quota (seats_of self.old) (seats_of self.new) result }
        ensures unmarked { RingsUnmarked LinkState (λ l. l.tape.told) result }
        ensures kept { self.old.plan.faults ≤ self.new.plan.faults }
        ensures cause { result ≡ Ring.Failed → Rose self.old.plan.faults self.new.plan.faults }
    {
        match self.script.pop_front() {
            Some(Rung::New(k)) => self.bring(k),
            Some(Rung::Ready(k)) => self.ring_at(k),
            Some(Rung::Shut) => self.fail(),
            Some(Rung::Failed) => self.fail(),
            None => self.fail(),
        }
    }

    /// What a wait comes to.
    fn next_ring(&mut self) -> Ring<MemLink>
        ensures waits { Waits self.old self.new result }
        ensures rings { Rings LinkState (length self.old.places) self.old.quota (seats_of self.old) (seats_of self.new) result }
        ensures unmarked { RingsUnmarked LinkState (λ l. l.tape.told) result }
        ensures kept { self.old.plan.faults ≤ self.new.plan.faults }
        ensures cause { result ≡ Ring.Failed → Rose self.old.plan.faults self.new.plan.faults }
    {
        if is_reached(self.quota, self.handed_out) && all_free(self.seats.as_slice()) {
            self.plan.call();
            return Ring::Shut;
        }
        if self.plan.fails_next() {
            return self.fail();
        }
        self.play()
    }

    /// Tells a ring, where there is room for it.
    fn tell(&mut self, rung: Rung)
        ensures state { self.new ≡ told_ring self.old rung }
        ensures tells { Tells Rung self.old.rung self.new.rung (rung ∷ []) }
        ensures places { self.new.places ≡ self.old.places }
        ensures links { self.new.links ≡ self.old.links }
        ensures quota { self.new.quota ≡ self.old.quota }
        ensures faults { self.new.plan.faults ≡ self.old.plan.faults }
    {
        if self.rung.len() < self.rung.capacity() {
            self.rung.push_reserved(rung);
        } else {
            self.tells = false;
        }
    }
}

/// What is told of a ring.
fn rung_of(ring: &Ring<MemLink>) -> Rung
    ensures { result ≡ rung_of LinkState ring.now }
{
    match ring {
        Ring::New(k, _) => Rung::New(*k),
        Ring::Ready(k) => Rung::Ready(*k),
        Ring::Shut => Rung::Shut,
        Ring::Failed => Rung::Failed,
    }
}

impl Poller for MemPoller {
    type Link = MemLink;

    ghost places = { λ p. length p.places };

    ghost taken = { λ p k. (seat_at p.places k).taken };

    ghost came = { λ p k. (seat_at p.places k).came };

    ghost links = { λ p. p.links };

    ghost quota = { λ p. p.quota };

    ghost tapes = { λ p k. (seat_at p.places k).tapes };

    ghost rung = { λ p. p.rung };

    ghost faults = { λ p. p.plan.faults };

    fn wait<R: Wait>(&mut self, _rt: &R) -> Ring<MemLink>
        ensures rings { Rings LinkState (length self.old.places) self.old.quota (seats_of self.old) (seats_of self.new) result }
        ensures unmarked { RingsUnmarked LinkState (λ l. l.tape.told) result }
        ensures rung { Tells Rung self.old.rung self.new.rung (rung_of LinkState result ∷ []) }
        ensures places { length self.new.places ≡ length self.old.places }
        ensures quota { self.new.quota ≡ self.old.quota }
        ensures tapes { (k : ℕ) → (seat_at self.new.places k).tapes ≡ (seat_at self.old.places k).tapes }
        ensures kept { self.old.plan.faults ≤ self.new.plan.faults }
        ensures cause { result ≡ Ring.Failed → Rose self.old.plan.faults self.new.plan.faults }
        ensures waits { (w : PollerState) × Waits self.old w result × (self.new ≡ told_ring w (rung_of LinkState result)) }
    {
        let ring = self.next_ring();
        self.tell(rung_of(&ring));
        ring
    }

    fn done(&mut self, k: u32, link: MemLink)
        ensures state { self.new ≡ gave_back self.old k link.tape.told }
    {
        let tape = link.into_tape();
        if (k as usize) < self.seats.len() {
            self.seats[k as usize].give_up(tape);
        }
    }

    /// Notes are not kept.
    fn note(&mut self, _text: &str)
        ensures { self.new ≡ self.old }
    {}
}
