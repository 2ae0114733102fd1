//! Which places of a worker are taken, and how many links came.
ghost use Rattle.std.specs.Prelude.{◌≡◌, ◌<◌, ℕ, true, false, not, length, IfOk, IfSome, replicate};
ghost use Rattle.std.specs.List.{list_all};
ghost use Rattle.outside.specs.Doors.{reached};
ghost use Rattle.outside.specs.Polls.{IsBack, IsNew};
ghost use Rattle.outside_net.specs.Counts.{is_taken, seats_of, unused};

use std::alloc::{AllocError, Global};
use std::marker::Model;

/// A place: whether it is taken, and how many links came to it.
#[derive(Clone, Copy)]
pub(crate) struct Seat {
    taken: bool,
    came: u64,
}

/// The places of a worker, with its count of links and its quota.
#[derive(Drop)]
pub(crate) struct Places {
    seats: Vec<Seat>,
    // The places that are free. There is room for all.
    free: Vec<u32>,
    links: u64,
    quota: u64,
}

impl Model for Places {
    ghost use Rattle.outside_net.specs.Counts.{PlacesCounts};

    ghost Value = { PlacesCounts };

    ghost view = { λ p. record { seats = p.seats.items; links = p.links; quota = p.quota } };
}

impl Places {
    /// So many places, all free. No more links are to come than the quota; 0 is without end.
    pub(crate) fn new(alloc: Global, places: u32, quota: u64) -> Result<Places, AllocError>
        ensures { IfOk result (λ p. p ≡ record { seats = replicate places unused; links = 0; quota = quota }) }
    {
        let mut seats = Vec::new(alloc);
        seats.resize(
            places as usize,
            Seat {
                taken: false,
                came: 0,
            },
        )?;
        let mut free = Vec::with_capacity(alloc, places as usize)?;
        for place in (0..places).rev() {
            free.push(place)?;
        }
        Ok(Places {
            seats,
            free,
            links: 0,
            quota,
        })
    }

    /// How many links came.
    pub(crate) fn links(&self) -> u64
        ensures { result ≡ self.now.links }
    {
        self.links
    }

    /// Whether as many links as the quota came.
    fn is_reached(&self) -> bool
        ensures { result ≡ reached self.now.quota self.now.links }
    {
        self.quota != 0 && self.links >= self.quota
    }

    fn are_free(&self) -> bool
        ensures { result ≡ list_all (λ s. not s.taken) self.now.seats }
    {
        self.seats.iter().all(|seat| !seat.taken)
    }

    /// Whether as many links as the quota came, and all were given back.
    pub(crate) fn is_done(&self) -> bool
        ensures reached { result ≡ true → reached self.now.quota self.now.links ≡ true }
        ensures free { result ≡ true → (j : ℕ) → is_taken self.now j ≡ false }
    {
        self.is_reached() && self.are_free()
    }

    /// A place for one more link: the first of those that none came to, or the one that was given up last.
    pub(crate) fn vacant(&self) -> Option<u32>
        ensures more { IfSome result (λ k. reached self.now.quota self.now.links ≡ false) }
        ensures place { IfSome result (λ k. k < length self.now.seats) }
        ensures free { IfSome result (λ k. is_taken self.now k ≡ false) }
    {
        if self.is_reached() {
            return None;
        }
        self.if_free(*self.free.last()?)
    }

    fn if_free(&self, k: u32) -> Option<u32>
        ensures place { IfSome result (λ n. n < length self.now.seats) }
        ensures free { IfSome result (λ n. is_taken self.now n ≡ false) }
    {
        if (k as usize) < self.seats.len() && !self.seats[k as usize].taken {
            Some(k)
        } else {
            None
        }
    }

    /// Whether a link is at this place.
    pub(crate) fn is_taken(&self, k: u32) -> bool
        ensures place { result ≡ true → k < length self.now.seats }
        ensures taken { result ≡ true → is_taken self.now k ≡ true }
    {
        (k as usize) < self.seats.len() && self.seats[k as usize].taken
    }

    /// A link comes to a free place.
    pub(crate) fn take_up(&mut self, k: u32)
        requires place { k < length self.old.seats }
        requires more { reached self.old.quota self.old.links ≡ false }
        requires free { is_taken self.old k ≡ false }
        ensures new { IsNew (length self.old.seats) self.old.quota k (seats_of self.old) (seats_of self.new) }
        ensures places { length self.new.seats ≡ length self.old.seats }
        ensures quota { self.new.quota ≡ self.old.quota }
    {
        let came = self.seats[k as usize].came.saturating_add(1);
        self.seats[k as usize] = Seat { taken: true, came };
        self.links = self.links.saturating_add(1);
        if self.free.last().copied() == Some(k) {
            self.free.pop();
        }
    }

    /// The link of a place is gone.
    pub(crate) fn give_up(&mut self, k: u32)
        requires { is_taken self.old k ≡ true }
        ensures back { IsBack k (seats_of self.old) (seats_of self.new) }
        ensures places { length self.new.seats ≡ length self.old.seats }
        ensures quota { self.new.quota ≡ self.old.quota }
    {
        if (k as usize) < self.seats.len() {
            let came = self.seats[k as usize].came;
            self.seats[k as usize] = Seat { taken: false, came };
            // There is room, so this doesn't fail.
            let _kept = self.free.push(k);
        }
    }
}
