//! A link over TCP.
ghost use Rattle.std.specs.Prelude.{◌≡◌, ◌<◌, ◌≤◌, length, None};
ghost use Rattle.outside.specs.Devices.{Rose};
ghost use Rattle.outside.specs.Links.{HeardFits, SentFits, laters_after};
ghost use Rattle.outside.specs.Plans.{raised};

use crate::bell::Bell;
use crate::gauge::Gauge;
use mio::net::TcpStream;
use outside::{Heard, Link, Sent};
use std::alloc::Global;
use std::io::{Error, ErrorKind, Read, Write};
use std::marker::Model;
use std::net::Shutdown;
use std::sync::Arc;

// What has come is read away before a link is closed: so many times so many bytes, 262,144 in all.
const LAST_READINGS: u32 = 64;

const LAST_READING: usize = 4096;

/// The bells of all workers, and how many places each has: line L is place L % places of worker L / places.
#[derive(Drop)]
pub(crate) struct Bells {
    pub(crate) bells: Vec<Bell>,
    pub(crate) places: u32,
}

impl Bells {
    /// Rings the worker of a line, if there is one.
    fn ring(&self, line: u32) {
        if self.places == 0 {
            return;
        }
        if let Some(bell) = self.bells.get((line / self.places) as usize) {
            bell.ring(line % self.places);
        }
    }
}

/// A TCP connection to a client, which a `TcpPoller` hands out. It counts its errors, its Ends and its Laters, and tells no tape.
#[derive(Drop)]
pub struct TcpLink {
    stream: TcpStream,
    gauge: Arc<Gauge, Global>,
    bells: Arc<Bells, Global>,
    faults: u64,
    ends: u64,
    laters: u64,
}

impl Model for TcpLink {
    ghost use Rattle.outside_net.specs.Counts.{LinkCounts};

    ghost Value = { LinkCounts };

    ghost view = { λ l. record { faults = l.faults; ends = l.ends; laters = l.laters } };
}

impl TcpLink {
    pub(crate) fn new(
        stream: TcpStream,
        gauge: Arc<Gauge, Global>,
        bells: Arc<Bells, Global>,
    ) -> TcpLink
        ensures { result ≡ record { faults = 0; ends = 0; laters = 0 } }
    {
        TcpLink {
            stream,
            gauge,
            bells,
            faults: 0,
            ends: 0,
            laters: 0,
        }
    }

    /// Closes the connection. Its writing side is shut and what has come is read away before, since else the system may reset the
    /// connection, and what was said last is lost.
    pub(crate) fn close(self) {
        let TcpLink { mut stream, .. } = self;
        let _shut = stream.shutdown(Shutdown::Write);
        let mut bytes = [0u8; LAST_READING];
        for _reading in 0..LAST_READINGS {
            match stream.read(&mut bytes) {
                Ok(count) if count > 0 => {}
                _ => return,
            }
        }
    }

    fn count_fault(&mut self)
        ensures kept { self.old.faults ≤ self.new.faults }
        ensures rose { Rose self.old.faults self.new.faults }
        ensures ends { self.new.ends ≡ self.old.ends }
        ensures laters { self.new.laters ≡ self.old.laters }
    {
        self.faults = self.faults.saturating_add(1);
    }

    fn end(&mut self) -> Heard
        ensures end { result ≡ Heard.End }
        ensures rose { Rose self.old.ends self.new.ends }
        ensures kept { self.old.ends ≤ self.new.ends }
        ensures faults { self.new.faults ≡ self.old.faults }
        ensures laters { self.new.laters ≡ self.old.laters }
    {
        self.ends = self.ends.saturating_add(1);
        Heard::End
    }

    /// No byte was taken. Where a signal was the cause the place is to be looked at again at once.
    fn postpone(&mut self, kind: ErrorKind) -> Sent
        ensures later { result ≡ Sent.Later }
        ensures laters { self.new.laters ≡ raised self.old.laters }
        ensures ends { self.new.ends ≡ self.old.ends }
        ensures faults { self.new.faults ≡ self.old.faults }
    {
        if kind == ErrorKind::WouldBlock {
            self.gauge.block();
        } else {
            self.gauge.fill();
        }
        self.laters = self.laters.saturating_add(1);
        Sent::Later
    }
}

impl Link for TcpLink {
    ghost tape = { λ _. None };

    ghost faults = { λ l. l.faults };

    ghost ends = { λ l. l.ends };

    ghost laters = { λ l. l.laters };

    /// `Quiet` at once where nothing is known to have come; the system isn't asked then. `End` where the peer closed its side, `Failed`
    /// at any error. Takes no memory.
    fn recv(&mut self, into: &mut [u8]) -> Heard
        requires { 0 < length into.old }
        ensures fits { HeardFits result into.new }
        ensures kept { self.old.faults ≤ self.new.faults }
        ensures cause { result ≡ Heard.Failed → Rose self.old.faults self.new.faults }
        ensures ends_kept { self.old.ends ≤ self.new.ends }
        ensures ended { result ≡ Heard.End → Rose self.old.ends self.new.ends }
        ensures laters { self.new.laters ≡ self.old.laters }
    {
        if !self.gauge.is_readable() {
            return Heard::Quiet;
        }
        match self.stream.read(into) {
            Ok(0) => self.end(),
            Ok(count) => {
                if count < into.len() {
                    self.gauge.drain();
                }
                Heard::Bytes(count)
            }
            Err(error) if is_pending(&error) => {
                if error.kind() == ErrorKind::WouldBlock {
                    self.gauge.drain();
                }
                Heard::Quiet
            }
            Err(_) => {
                self.count_fault();
                Heard::Failed
            }
        }
    }

    /// `Later` where the system takes no byte now. `Failed` where it took none for 30 seconds, and at any error: a peer that went away
    /// is one, and no signal. Takes no memory.
    fn send(&mut self, from: &[u8]) -> Sent
        requires { 0 < length from.now }
        ensures fits { SentFits result from.now }
        ensures kept { self.old.faults ≤ self.new.faults }
        ensures cause { result ≡ Sent.Failed → Rose self.old.faults self.new.faults }
        ensures ends { self.new.ends ≡ self.old.ends }
        ensures laters { self.new.laters ≡ laters_after result self.old.laters }
    {
        if self.gauge.is_stuck() {
            self.count_fault();
            return Sent::Failed;
        }
        match self.stream.write(from) {
            Ok(count) if count > 0 => {
                self.gauge.give();
                Sent::Taken(count)
            }
            Err(error) if is_pending(&error) => self.postpone(error.kind()),
            _ => {
                self.count_fault();
                Sent::Failed
            }
        }
    }

    /// Wakes the worker of that line for it. Where none is there, does nothing. Takes no memory.
    fn ring(&mut self, line: u32)
        ensures { self.new ≡ self.old }
    {
        self.bells.ring(line);
    }
}

/// Whether a call did nothing since it would have waited.
pub(crate) fn is_pending(error: &Error) -> bool {
    matches!(error.kind(), ErrorKind::WouldBlock | ErrorKind::Interrupted)
}
