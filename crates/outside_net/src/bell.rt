//! How a worker that waits is woken for one of its places. No contract speaks of it: a place that nobody rings is looked at
//! within ten seconds.

use mark_sets::{Marks, SharedMarks};
use mio::{Poll, Token, Waker};
use std::alloc::Global;
use std::io;
use std::sync::atomic::{AtomicU64, Ordering};

/// What the waker of a worker is reported under.
pub(crate) const BELL: Token = Token(usize::MAX);

// What the worker does: it doesn't wait, it waits, or it was rung since it last began to.
const BUSY: u64 = 0;

const WAITING: u64 = 1;

const RUNG: u64 = 2;

/// The bell of one worker, which any thread may ring for one of its places.
#[derive(Drop)]
pub(crate) struct Bell {
    state: AtomicU64,
    // The places that were rung.
    rung: SharedMarks,
    waker: Waker,
}

impl Bell {
    /// A bell for so many places that ends the waits of this poll.
    pub(crate) fn new(alloc: Global, poll: &Poll, places: u32) -> io::Result<Bell> {
        Ok(Bell {
            state: AtomicU64::new(BUSY),
            rung: SharedMarks::new(alloc, places)?,
            waker: Waker::new(poll.registry(), BELL)?,
        })
    }

    /// Rings for a place: ends the wait that is under way, or else the next one at its beginning. Where the worker was rung
    /// already, only notes the place.
    pub(crate) fn ring(&self, place: u32) {
        self.rung.add(place);
        if self.state.swap(RUNG, Ordering::SeqCst) == WAITING {
            // Where it fails, the wait ends by its own bound.
            let _woken = self.waker.wake();
        }
    }

    /// Whether the worker may wait: not where it was rung since it last did. `end_wait` comes after either.
    pub(crate) fn begin_wait(&self) -> bool {
        self.state
            .compare_exchange(BUSY, WAITING, Ordering::SeqCst, Ordering::SeqCst)
            .is_ok()
    }

    /// The worker goes on, with the places that were rung until now.
    pub(crate) fn end_wait(&self, marks: &mut Marks) {
        self.state.store(BUSY, Ordering::SeqCst);
        self.rung.move_to(marks);
    }
}
