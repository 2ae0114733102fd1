//! When a poller looks at places to which nothing comes. No contract speaks of when a wait ends.

use std::time::{Clock, Duration};

// From one look to the next, in milliseconds.
const BEAT: u64 = 1000;

/// The moments of looking, a second apart.
#[derive(Drop)]
pub(crate) struct Beat<R: Clock + Drop> {
    rt: R,
    next: u64,
}

impl<R: Clock + Drop> Beat<R> {
    /// The first look comes at once.
    pub(crate) fn new(rt: R) -> Beat<R> {
        Beat { rt, next: 0 }
    }

    // Milliseconds of a clock that isn't set; where it can't be read, nothing goes by.
    fn now(&self) -> u64 {
        match self.rt.monotonic() {
            Ok(since_start) => u64::try_from(since_start.as_millis()).unwrap_or(u64::MAX),
            Err(_) => 0,
        }
    }

    /// Whether it is time to look. Then the next look is a second from now.
    pub(crate) fn is_due(&mut self) -> bool {
        let now = self.now();
        if now < self.next {
            return false;
        }
        self.next = now.saturating_add(BEAT);
        true
    }

    /// How long it is until the next look: at most a second.
    pub(crate) fn rest(&self) -> Duration {
        Duration::from_millis(self.next.saturating_sub(self.now()).min(BEAT))
    }
}
