//! Where connections come from. Each door counts its faults and the links that it hands out.
ghost use Rattle.std.specs.Prelude.{◌≡◌, ℕ, ◌≤◌, List, Option};
ghost use Rattle.outside.specs.Devices.{Rose};
ghost use Rattle.outside.specs.Doors.{Comes, ComesUnmarked, TakesBack, reached};
ghost use Rattle.outside.specs.Tapes.{Mark};

use crate::link::Link;
use std::sync::Wait;

/// What came of waiting for a connection.
#[derive(Drop)]
pub enum Came<L> {
    /// A connection, which is to be given back by `done`.
    Link(L),
    /// As many connections as the quota came.
    Shut,
    Failed,
}

/// What a worker at a door has of the world.
#[derive(Drop)]
pub struct Post<D, C, I> {
    pub door: D,
    pub clock: C,
    pub dice: I,
}

/// A door hands out links, as many as its quota, or without end where that is 0. It may tell the tapes of the links that
/// were given back, in that order.
pub trait Door {
    type Link: Link;

    ghost tapes: { Self → Option (List (List Mark)) };

    ghost faults: { Self → ℕ };

    ghost links: { Self → ℕ };

    ghost quota: { Self → ℕ };

    /// Waits for the next connection.
    fn accept<R: Wait>(&mut self, rt: &R) -> Came<Self::Link>
        ensures comes { Comes Self.Link (quota self.old) (links self.old) (links self.new) result }
        ensures unmarked { ComesUnmarked Self.Link Self.Link.tape result }
        ensures quota { quota self.new ≡ quota self.old }
        ensures tapes { tapes self.new ≡ tapes self.old }
        ensures kept { faults self.old ≤ faults self.new }
        ensures cause { result ≡ Came.Failed → Rose (faults self.old) (faults self.new) };

    /// Takes a link back once it was served. Takes no memory.
    fn done(&mut self, link: Self::Link)
        ensures tapes { TakesBack (tapes self.old) (Self.Link.tape link) (tapes self.new) }
        ensures faults { faults self.new ≡ faults self.old }
        ensures links { links self.new ≡ links self.old }
        ensures quota { quota self.new ≡ quota self.old };
}

/// Whether as many links as the quota came.
pub(crate) fn is_reached(quota: u64, links: u64) -> bool
    ensures { result ≡ reached quota links }
{
    quota != 0 && links >= quota
}
