//! Where passes sleep until their turn comes. What is said here is in no contract: whoever sleeps looks
//! again afterwards, whatever woke it.

use std::alloc::{AllocError, Global};
use std::sync::Wait;
use std::sync::atomic::{AtomicU64, Ordering};
use std::time::Duration;

// How many spots there are: as many as a server has workers, so that a wake wakes one. Tickets that differ by a multiple of it share one.
const SPOTS: u64 = 64;

// The longest sleep, in milliseconds. Each turn that comes wakes those at its spot, so this only bounds
// what a lost wake would cost.
const LONGEST_SLEEP: u64 = 20;

/// A word to sleep on, which counts the wakes, and how many are there.
#[derive(Drop)]
struct Spot {
    wakes: AtomicU64,
    parked: AtomicU64,
}

#[derive(Drop)]
pub struct ParkingLot {
    spots: Vec<Spot>,
}

impl ParkingLot {
    /// A lot where nobody is.
    pub fn new(alloc: Global) -> Result<ParkingLot, AllocError> {
        let mut spots = Vec::new(alloc);
        for _number in 0..SPOTS {
            spots.push(Spot {
                wakes: AtomicU64::new(0),
                parked: AtomicU64::new(0),
            })?;
        }
        Ok(ParkingLot { spots })
    }

    /// The holder of a ticket comes to its spot. The number of wakes there so far is for `park`, and the
    /// holder looks once more for its turn before that.
    pub fn arrive(&self, ticket: u64) -> u64 {
        match self.spots.get(place_of(ticket)) {
            Some(spot) => {
                spot.parked.fetch_add(1, Ordering::SeqCst);
                spot.wakes.load(Ordering::SeqCst)
            }
            None => 0,
        }
    }

    /// Sleeps unless there were more wakes since.
    pub fn park<W: Wait>(&self, rt: &W, ticket: u64, wakes: u64) {
        if let Some(spot) = self.spots.get(place_of(ticket)) {
            let longest = Duration::from_millis(LONGEST_SLEEP);
            spot.wakes
                .park_timeout(rt, (wakes & 0xffff_ffff) as u32, longest);
        }
    }

    /// The holder of a ticket goes away from its spot.
    pub fn depart(&self, ticket: u64) {
        if let Some(spot) = self.spots.get(place_of(ticket)) {
            spot.parked.fetch_sub(1, Ordering::SeqCst);
        }
    }

    /// Wakes those at the spot of a ticket, where there are some.
    pub fn unpark(&self, ticket: u64) {
        if let Some(spot) = self.spots.get(place_of(ticket))
            && spot.parked.load(Ordering::SeqCst) > 0
        {
            spot.wakes.fetch_add(1, Ordering::SeqCst);
            spot.wakes.wake_all();
        }
    }
}

fn place_of(ticket: u64) -> usize {
    (ticket % SPOTS) as usize
}
