//! A link whose second reading returns once that of another link has begun.

ghost use Rattle.std.specs.Prelude.{◌≡◌, ◌≢◌, ◌<◌, ◌≤◌, None, length};
ghost use Rattle.outside.specs.Devices.{Rose};
ghost use Rattle.outside.specs.Links.{HeardFits, SentFits};

use outside::{Heard, Link, Sent};
use std::alloc::Global;
use std::marker::Model;
use std::sync::Arc;
use std::sync::atomic::{AtomicU64, Ordering};
use std::thread;

const HEADER: &[u8] =
    b"<stream:stream xmlns='jabber:client' xmlns:stream='http://etherx.jabber.org/streams' to='example.org' version='1.0'>";

const CLOSE_TAG: &[u8] = b"</stream:stream>";

/// How often a reading looks for the other.
const LOOKS: u32 = 1_000_000;

/// A link of two readings: a stream's header, and its close tag if the other link's second reading begins in time.
#[derive(Drop)]
pub struct MeetLink {
    own: Arc<AtomicU64, Global>,
    other: Arc<AtomicU64, Global>,
    readings: u64,
    said: Vec<u8>,
    faults: u64,
    ends: u64,
}

impl Model for MeetLink {
    ghost use Rattle.meeting_ports.specs.Meetings.{LinkCounts};

    ghost Value = { LinkCounts };

    ghost view = { λ l. record { faults = l.faults; ends = l.ends } };
}

// As many of the bytes as there is room for.
fn give(bytes: &[u8], into: &mut [u8]) -> usize
    requires some { 0 < length bytes.now }
    requires room { 0 < length into.old }
    ensures some { 0 < result }
    ensures fits { result ≤ length into.new }
{
    let count = bytes.len().min(into.len());
    into[..count].copy_from_slice(&bytes[..count]);
    count
}

// Whether the other's second reading has begun, or begins in time.
fn meets(other: &AtomicU64) -> bool {
    for _look in 0..LOOKS {
        if other.load(Ordering::SeqCst) != 0 {
            return true;
        }
        thread::yield_now();
    }
    false
}

impl MeetLink {
    /// A link that sets its own word to 1 when its second reading begins, and waits for the other's.
    pub fn new(
        alloc: Global,
        own: Arc<AtomicU64, Global>,
        other: Arc<AtomicU64, Global>,
    ) -> MeetLink {
        MeetLink {
            own,
            other,
            readings: 0,
            said: Vec::new(alloc),
            faults: 0,
            ends: 0,
        }
    }

    /// What was said on it.
    pub fn said(&self) -> &[u8] {
        self.said.as_slice()
    }

    fn end(&mut self) -> Heard
        ensures end { result ≡ Heard.End }
        ensures rose { Rose self.old.ends self.new.ends }
        ensures kept { self.old.ends ≤ self.new.ends }
        ensures faults { self.new.faults ≡ self.old.faults }
    {
        self.ends = self.ends.saturating_add(1);
        Heard::End
    }
}

impl Link for MeetLink {
    ghost tape = { λ _. None };

    ghost faults = { λ l. l.faults };

    ghost ends = { λ l. l.ends };

    ghost laters = { λ _. 0 };

    fn recv(&mut self, into: &mut [u8]) -> Heard
        requires { 0 < length into.old }
        ensures fits { HeardFits result into.new }
        ensures kept { self.old.faults ≤ self.new.faults }
        ensures cause { result ≡ Heard.Failed → Rose self.old.faults self.new.faults }
        ensures ends_kept { self.old.ends ≤ self.new.ends }
        ensures ended { result ≡ Heard.End → Rose self.old.ends self.new.ends }
    {
        self.readings = self.readings.saturating_add(1);
        if self.readings == 1 {
            return Heard::Bytes(give(HEADER, into));
        }
        if self.readings == 2 {
            self.own.store(1, Ordering::SeqCst);
            if meets(&self.other) {
                return Heard::Bytes(give(CLOSE_TAG, into));
            }
        }
        self.end()
    }

    fn send(&mut self, from: &[u8]) -> Sent
        requires { 0 < length from.now }
        ensures fits { SentFits result from.now }
        ensures kept { self.old.faults ≤ self.new.faults }
        ensures cause { result ≡ Sent.Failed → Rose self.old.faults self.new.faults }
        ensures ends_kept { self.old.ends ≤ self.new.ends }
        ensures waits { result ≢ Sent.Later }
    {
        match self.said.extend_from_slice(from) {
            Ok(()) => Sent::Taken(from.len()),
            Err(_) => {
                self.faults = self.faults.saturating_add(1);
                Sent::Failed
            }
        }
    }

    fn ring(&mut self, _line: u32)
        ensures faults { self.new.faults ≡ self.old.faults }
        ensures ends { self.new.ends ≡ self.old.ends }
    {}
}
