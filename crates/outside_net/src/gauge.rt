//! What a poller and a link that it handed out know of one socket. Both are one worker's. No contract speaks of it.

use std::sync::atomic::{AtomicU64, Ordering};

// There may be bytes to read.
const READABLE: u64 = 1;

// The peer sends no more, so there is an end to be read.
const CLOSED: u64 = 2;

// A sending was answered `Later`, and no room was reported since.
const BLOCKED: u64 = 4;

// Some bytes were taken since the poller last looked.
const MOVED: u64 = 8;

// It could take no byte for so long that the next sending fails.
const STUCK: u64 = 16;

/// The state of one socket.
#[derive(Drop)]
pub(crate) struct Gauge {
    flags: AtomicU64,
}

impl Gauge {
    pub(crate) fn new() -> Gauge {
        Gauge {
            flags: AtomicU64::new(0),
        }
    }

    fn set(&self, flags: u64) {
        self.flags.fetch_or(flags, Ordering::Relaxed);
    }

    fn unset(&self, flags: u64) {
        self.flags.fetch_and(!flags, Ordering::Relaxed);
    }

    fn has(&self, flags: u64) -> bool {
        self.flags.load(Ordering::Relaxed) & flags != 0
    }

    /// Another socket came to the place.
    pub(crate) fn reset(&self) {
        self.flags.store(READABLE, Ordering::Relaxed);
    }

    pub(crate) fn is_readable(&self) -> bool {
        self.has(READABLE)
    }

    pub(crate) fn is_blocked(&self) -> bool {
        self.has(BLOCKED)
    }

    pub(crate) fn is_stuck(&self) -> bool {
        self.has(STUCK)
    }

    /// There may be bytes.
    pub(crate) fn fill(&self) {
        self.set(READABLE);
    }

    /// The peer sends no more, or the socket failed.
    pub(crate) fn close(&self) {
        self.set(READABLE | CLOSED);
    }

    /// Nothing more is there to read, unless the peer is at its end.
    pub(crate) fn drain(&self) {
        if !self.has(CLOSED) {
            self.unset(READABLE);
        }
    }

    /// No byte was taken.
    pub(crate) fn block(&self) {
        self.set(BLOCKED);
    }

    /// There is room again.
    pub(crate) fn unblock(&self) {
        self.unset(BLOCKED);
    }

    /// Some bytes were taken.
    pub(crate) fn give(&self) {
        self.unset(BLOCKED);
        self.set(MOVED);
    }

    /// Whether no byte was taken since this was last asked, though some were to be.
    pub(crate) fn stays_blocked(&self) -> bool {
        let before = self.flags.fetch_and(!MOVED, Ordering::Relaxed);
        before & BLOCKED != 0 && before & MOVED == 0
    }

    /// The next sending is to fail.
    pub(crate) fn give_up(&self) {
        self.set(STUCK);
    }
}
