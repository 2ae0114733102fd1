//! What tells the time.
ghost use Rattle.std.specs.Prelude.{◌≡◌, ℕ, ◌≤◌, [], ◌∷◌, List, Some, Option, IfOk};
ghost use Rattle.outside.specs.Tapes.{Tells, shown};
ghost use Rattle.outside.specs.Times.{gave, next_moment};

use std::alloc::{AllocError, Global};
use std::collections::VecDeque;
use std::marker::Model;

/// A clock, which has no faults. It may tell the moments that it gave.
pub trait Clock {
    ghost told: { Self → Option (List ℕ) };

    /// The moment, in milliseconds since 1970-01-01T00:00:00Z. It may be any number.
    fn moment(&mut self) -> u64
        ensures told { Tells ℕ (told self.old) (told self.new) (result ∷ []) };
}

/// A clock in memory, which gives its moments in turn, and then the last of them. It tells those that it gave, until one
/// finds no room.
#[derive(Drop)]
pub struct MemClock {
    moments: VecDeque<u64>,
    last: u64,
    given: Vec<u64>,
    tells: bool,
}

impl Model for MemClock {
    ghost use Rattle.std.specs.Prelude.{ℕ, ◌-◌, vec_capacity, vec_len};
    ghost use Rattle.outside.specs.Tapes.{told_where};
    ghost use Rattle.outside.specs.Times.{ClockState};

    ghost Value = { ClockState };

    ghost view = { λ c. record {
      left = c.moments.items;
      last = c.last;
      told = told_where ℕ c.tells c.given.items;
      room = vec_capacity c.given - vec_len c.given;
    } };
}

impl MemClock {
    /// A clock that is to give these moments, or 0 where there are none, with room for so many that it gave.
    pub fn new(alloc: Global, moments: Vec<u64>, calls: usize) -> Result<MemClock, AllocError>
        ensures { IfOk result (λ c. c ≡ record { left = moments.items; last = 0; told = Some []; room = calls }) }
    {
        Ok(MemClock {
            moments: VecDeque::from_vec(moments),
            last: 0,
            given: Vec::with_capacity(alloc, calls)?,
            tells: true,
        })
    }

    /// A clock that says 0 and has no room. Takes no memory.
    pub(crate) fn blank(alloc: Global) -> MemClock
        ensures { result ≡ record { left = []; last = 0; told = Some []; room = 0 } }
    {
        MemClock {
            moments: VecDeque::new(alloc),
            last: 0,
            given: Vec::new(alloc),
            tells: true,
        }
    }

    /// The moments that it gave, or none where it doesn't tell them.
    pub fn given(&self) -> &[u64]
        ensures { result.now ≡ shown ℕ self.now.told }
    {
        if self.tells {
            self.given.as_slice()
        } else {
            &[]
        }
    }
}

impl Clock for MemClock {
    ghost told = { λ c. c.told };

    fn moment(&mut self) -> u64
        ensures told { Tells ℕ self.old.told self.new.told (result ∷ []) }
        ensures next { result ≡ next_moment self.old.left self.old.last }
        ensures state { self.new ≡ gave self.old result }
    {
        if let Some(moment) = self.moments.pop_front() {
            self.last = moment;
        }
        if self.given.len() < self.given.capacity() {
            self.given.push_reserved(self.last);
        } else {
            self.tells = false;
        }
        self.last
    }
}
