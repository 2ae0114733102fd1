//! A poller that never fails.
ghost use Rattle.std.specs.Prelude.{◌≡◌, ◌≢◌, ◌<◌, true, false, length, not, nat_eq, position, replicate, None, Some, IfOk};
ghost use Rattle.outside.specs.Doors.{links_after, next_link};
ghost use Rattle.outside.specs.Links.{CleanLinkState};
ghost use Rattle.outside.specs.Polls.{CleanPollerState, CleanRings, CleanWaits, IsFresh, Rings, SeatState, can_ring, first_taken, freed, next_taken};
ghost use Rattle.outside.specs.Polls.{open_place, seat_at, seats_in, took_up, untold_seat};
ghost use Rattle.outside.specs.Posts.{Each};

use crate::door::is_reached;
use crate::mem_link::CleanLink;
use crate::poller::{Poller, Ring};
use std::alloc::{AllocError, Global};
use std::collections::VecDeque;
use std::marker::Model;
use std::sync::Wait;

/// A place of a poller that never fails.
#[derive(Drop)]
struct CleanSeat {
    taken: bool,
    came: u64,
}

impl Model for CleanSeat {
    ghost use Rattle.std.specs.Prelude.{None};
    ghost use Rattle.outside.specs.Polls.{SeatState};

    ghost Value = { SeatState };

    ghost view = { λ s. record { taken = s.taken; came = s.came; tapes = None; room = 0 } };
}

impl CleanSeat {
    fn new() -> CleanSeat
        ensures { result ≡ untold_seat }
    {
        CleanSeat {
            taken: false,
            came: 0,
        }
    }

    fn take_up(&mut self)
        ensures { self.new ≡ took_up self.old }
    {
        self.taken = true;
        self.came = self.came.saturating_add(1);
    }

    fn free(&mut self)
        ensures { self.new ≡ record self.old { taken = false } }
    {
        self.taken = false;
    }
}

/// So many free places.
fn free_seats(alloc: Global, places: u32) -> Result<Vec<CleanSeat>, AllocError>
    ensures { IfOk result (λ v. v.items ≡ replicate places untold_seat) }
{
    let mut seats = Vec::with_capacity(alloc, places as usize)?;
    for _k in 0..places {
        seats.push_reserved(CleanSeat::new());
    }
    Ok(seats)
}

/// The first place that is taken.
fn first_taken(seats: &[CleanSeat]) -> Option<usize>
    ensures { result ≡ first_taken seats.now }
{
    seats.iter().position(|seat| seat.taken)
}

/// A poller that never fails. It hands out its links in turn, and then links that have ended, each for the first free place. Where no place is free,
/// or the quota is reached, it says that the taken places are ready, one after the other. Those that come back it neither keeps nor tells. Where it
/// has no place, it waits for ever.
#[derive(Drop)]
pub struct CleanPoller {
    links: VecDeque<CleanLink>,
    seats: Vec<CleanSeat>,
    handed_out: u64,
    quota: u64,
    turn: usize,
}

impl Model for CleanPoller {
    ghost use Rattle.std.specs.Prelude.{◌<◌, ◌≤◌, ◌^◌, length};
    ghost use Rattle.outside.specs.Polls.{CleanPollerState};

    ghost Value = { CleanPollerState };

    ghost view = { λ p. record { left = p.links.items; places = p.seats.items; links = p.handed_out; quota = p.quota; turn = p.turn } };

    ghost invariant = { λ p. (length p.seats.items < 2 ^ 32) × (p.turn ≤ length p.seats.items) };
}

impl CleanPoller {
    /// A poller without a quota, of so many places, that is to hand out these links.
    #[tactic(auto, using(crate::proofs::CleanPollLemmas::fresh_untold))]
    pub fn new(alloc: Global, places: u32, links: Vec<CleanLink>) -> Result<CleanPoller, AllocError>
        ensures state { IfOk result (λ p. p ≡ record { left = links.items; places = replicate places untold_seat; links = 0; quota = 0; turn = 0 }) }
        ensures unused { IfOk result (λ p. Each SeatState IsFresh p.places) }
    {
        let seats = free_seats(alloc, places)?;
        Ok(CleanPoller {
            links: VecDeque::from_vec(links),
            seats,
            handed_out: 0,
            quota: 0,
            turn: 0,
        })
    }

    /// Sets the number of links that it hands out; 0 is without end.
    pub fn set_quota(&mut self, quota: u64)
        ensures { self.new ≡ record self.old { quota = quota } }
    {
        self.quota = quota;
    }

    /// How many links it handed out.
    pub fn links(&self) -> u64
        ensures { result ≡ self.now.links }
    {
        self.handed_out
    }

    /// Whether it has so many places.
    pub(crate) fn has_places(&self, places: u32) -> bool
        ensures { result ≡ nat_eq (length self.now.places) places }
    {
        self.seats.len() == places as usize
    }

    /// Whether there is something to wait for.
    fn can_ring(&self) -> bool
        ensures { result ≡ can_ring self.now }
    {
        is_reached(self.quota, self.handed_out) || 0 < self.seats.len()
    }

    fn first_free(&self) -> Option<usize>
        ensures { result ≡ position (λ s. not s.taken) self.now.places }
    {
        self.seats.iter().position(|seat| !seat.taken)
    }

    /// The place for the next link.
    fn open_place(&self) -> Option<usize>
        ensures { result ≡ open_place self.now }
    {
        if is_reached(self.quota, self.handed_out) {
            None
        } else {
            self.first_free()
        }
    }

    /// The taken place whose turn it is.
    fn next_taken(&self) -> Option<usize>
        ensures { result ≡ next_taken self.now }
    {
        match first_taken(&self.seats.as_slice()[self.turn..]) {
            Some(n) => Some(self.turn + n),
            None => first_taken(self.seats.as_slice()),
        }
    }

    /// The next link.
    fn next_link(&mut self) -> CleanLink
        ensures link { result ≡ next_link self.old.left }
        ensures state { self.new ≡ record self.old { left = links_after self.old.left } }
    {
        match self.links.pop_front() {
            Some(link) => link,
            None => CleanLink::new(Vec::new(*self.links.allocator())),
        }
    }

    /// The next link comes to a place.
    fn bring(&mut self, k: usize) -> Ring<CleanLink>
        requires { k < length self.old.places }
        ensures { CleanRings (Some k) None self.old self.new result }
    {
        let link = self.next_link();
        self.handed_out = self.handed_out.saturating_add(1);
        self.seats[k].take_up();
        Ring::New(k as u32, link)
    }

    /// A place is ready, and then it is the next one's turn.
    fn ring_at(&mut self, k: usize) -> Ring<CleanLink>
        requires { k < length self.old.places }
        ensures { CleanRings None (Some k) self.old self.new result }
    {
        let _ = &self.seats;
        self.turn = k + 1;
        Ring::Ready(k as u32)
    }

    /// What comes of a wait.
    fn ring(&mut self) -> Ring<CleanLink>
        requires { can_ring self.old ≡ true }
        ensures waits { CleanWaits self.old self.new result }
        ensures rings { Rings CleanLinkState (length self.old.places) self.old.quota (seats_in self.old.places self.old.links)
            (seats_in self.new.places self.new.links) result }
        ensures never { result ≢ Ring.Failed }
        ensures places { length self.new.places ≡ length self.old.places }
        ensures quota { self.new.quota ≡ self.old.quota }
    {
        match self.open_place() {
            Some(k) => self.bring(k),
            None => match self.next_taken() {
                Some(k) => self.ring_at(k),
                None => Ring::Shut,
            },
        }
    }
}

impl Poller for CleanPoller {
    type Link = CleanLink;

    ghost places = { λ p. length p.places };

    ghost taken = { λ p k. (seat_at p.places k).taken };

    ghost came = { λ p k. (seat_at p.places k).came };

    ghost links = { λ p. p.links };

    ghost quota = { λ p. p.quota };

    ghost tapes = { λ _ _. None };

    ghost rung = { λ _. None };

    ghost faults = { λ _. 0 };

    fn wait<R: Wait>(&mut self, rt: &R) -> Ring<CleanLink>
        ensures waits { CleanWaits self.old self.new result }
        ensures rings { Rings CleanLinkState (length self.old.places) self.old.quota (seats_in self.old.places self.old.links)
            (seats_in self.new.places self.new.links) result }
        ensures never { result ≢ Ring.Failed }
        ensures places { length self.new.places ≡ length self.old.places }
        ensures quota { self.new.quota ≡ self.old.quota }
    {
        if !self.can_ring() {
            for _ in rt.forever() {}
            unreachable!()
        }
        self.ring()
    }

    fn done(&mut self, k: u32, _link: CleanLink)
        ensures { self.new ≡ freed self.old k }
    {
        if (k as usize) < self.seats.len() {
            self.seats[k as usize].free();
        }
    }

    /// Notes are not kept.
    fn note(&mut self, _text: &str)
        ensures { self.new ≡ self.old }
    {}
}
