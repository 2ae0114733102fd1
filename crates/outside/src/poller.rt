//! What waits for many links at once. Each poller counts its faults and the links that it hands out.
ghost use Rattle.std.specs.Prelude.{◌≡◌, ◌≢◌, ℕ, ◌≤◌, Bool, true, List, Option, [], ◌∷◌};
ghost use Rattle.outside.specs.Devices.{Rose};
ghost use Rattle.outside.specs.Doors.{TakesBack};
ghost use Rattle.outside.specs.Polls.{AreSame, IsBack, Rings, RingsUnmarked, rung_of, seats};
ghost use Rattle.outside.specs.Tapes.{Mark, Tells};

use crate::link::Link;
use std::sync::Wait;

/// What came of waiting.
#[derive(Drop)]
pub enum Ring<L> {
    /// A link for a place that was free, which is to be given back by `done`.
    New(u32, L),
    /// The link at a taken place has bytes or room, or it is its turn to be looked at.
    Ready(u32),
    /// As many links as the quota came, and none is left.
    Shut,
    Failed,
}

/// A ring, without its link.
#[derive(Clone, Copy, Debug, PartialEq, Eq)]
pub enum Rung {
    New(u32),
    Ready(u32),
    Shut,
    Failed,
}

/// A poller has a number of places, and hands out links by value, each for a place that is free until the link is given back: as many links as its
/// quota, or without end where that is 0. It may tell its rings, and for each place the tapes of the links that were given back, in that order.
pub trait Poller {
    type Link: Link;

    ghost use Rattle.outside.specs.declared.poller.Rung.{Rung};

    ghost places: { Self → ℕ };

    ghost taken: { Self → ℕ → Bool };

    /// How many links came to a place.
    ghost came: { Self → ℕ → ℕ };

    ghost links: { Self → ℕ };

    ghost quota: { Self → ℕ };

    ghost tapes: { Self → ℕ → Option (List (List Mark)) };

    ghost rung: { Self → Option (List Rung) };

    ghost faults: { Self → ℕ };

    /// Waits until there is something to do at one of the places.
    fn wait<R: Wait>(&mut self, rt: &R) -> Ring<Self::Link>
        ensures rings { Rings Self.Link (places self.old) (quota self.old) (seats (taken self.old) (came self.old) (links self.old))
            (seats (taken self.new) (came self.new) (links self.new)) result }
        ensures unmarked { RingsUnmarked Self.Link Self.Link.tape result }
        ensures rung { Tells Rung (rung self.old) (rung self.new) (rung_of Self.Link result ∷ []) }
        ensures places { places self.new ≡ places self.old }
        ensures quota { quota self.new ≡ quota self.old }
        ensures tapes { (k : ℕ) → tapes self.new k ≡ tapes self.old k }
        ensures kept { faults self.old ≤ faults self.new }
        ensures cause { result ≡ Ring.Failed → Rose (faults self.old) (faults self.new) };

    /// Takes the link of a taken place back once it was served, and closes it. Takes no memory.
    fn done(&mut self, k: u32, link: Self::Link)
        requires { taken self.old k ≡ true }
        ensures back { IsBack k (seats (taken self.old) (came self.old) (links self.old)) (seats (taken self.new) (came self.new) (links self.new)) }
        ensures tape { TakesBack (tapes self.old k) (Self.Link.tape link) (tapes self.new k) }
        ensures tapes { (j : ℕ) → j ≢ k → tapes self.new j ≡ tapes self.old j }
        ensures rung { rung self.new ≡ rung self.old }
        ensures places { places self.new ≡ places self.old }
        ensures quota { quota self.new ≡ quota self.old }
        ensures faults { faults self.new ≡ faults self.old };

    /// Tells whoever runs the server: a line of its own, written at once and whole. Whether it can be written changes nothing.
    fn note(&mut self, text: &str)
        ensures seats { AreSame (seats (taken self.old) (came self.old) (links self.old)) (seats (taken self.new) (came self.new) (links self.new)) }
        ensures tapes { (k : ℕ) → tapes self.new k ≡ tapes self.old k }
        ensures rung { rung self.new ≡ rung self.old }
        ensures places { places self.new ≡ places self.old }
        ensures quota { quota self.new ≡ quota self.old }
        ensures faults { faults self.new ≡ faults self.old };
}

/// The clock and the dice of a place.
#[derive(Drop)]
pub struct Sources<C, I> {
    pub clock: C,
    pub dice: I,
}

/// What a worker has of the world: what waits for its links, and the sources of each place.
#[derive(Drop)]
pub struct PollPost<P, C, I> {
    pub poller: P,
    pub sources: Vec<Sources<C, I>>,
}
