//! A poller over TCP.
ghost use Rattle.std.specs.Prelude.{◌≡◌, ◌<◌, ◌≤◌, true, false, length, IfOk, IfSome, None};
ghost use Rattle.outside.specs.Devices.{Rose};
ghost use Rattle.outside.specs.Doors.{reached};
ghost use Rattle.outside.specs.Polls.{IsBack, Rings};
ghost use Rattle.outside_net.specs.Counts.{LinkCounts, RingsIf, came_at, is_taken, seats_of};

use crate::places::Places;
use crate::tcp_link::{TcpLink, is_pending};
use crate::watch::Watch;
use mio::net::{TcpListener, TcpStream};
use mio::unix::SourceFd;
use outside::{Poller, Ring};
use std::alloc::Global;
use std::io::{Eprint, Error, ErrorKind, Result};
use std::marker::Model;
use std::net::SocketAddr;
use std::os::fd::AsRawFd;
use std::sync::{Arc, Wait};
use std::time::Clock;

// Errors of accept(2) that have no kind. There is no descriptor for the connection, in the system or in this process, or no buffer.
const ENFILE: i32 = 23;

const EMFILE: i32 = 24;

const ENOBUFS: i32 = 105;

// And these are of a connection that is gone by now.
const EPROTO: i32 = 71;

/// A poller at a listening socket, which all workers' pollers share: a connection comes to a place of one of them. It counts its errors and
/// its links, and tells neither its rings nor tapes.
#[derive(Drop)]
pub struct TcpPoller<R: Clock + Eprint + Drop> {
    rt: R,
    listener: Arc<TcpListener, Global>,
    watch: Watch<R>,
    places: Places,
    faults: u64,
}

impl<R: Clock + Eprint + Drop> Model for TcpPoller<R> {
    ghost use Rattle.outside_net.specs.Counts.{PollerCounts};

    ghost Value = { PollerCounts };

    ghost view = { λ p. record { faults = p.faults; places = p.places } };
}

impl<R: Clock + Eprint + Drop> TcpPoller<R> {
    /// A poller with so many places that waits by this watch, and is to hand out so many links; 0 is without end.
    pub(crate) fn new(
        rt: R,
        listener: Arc<TcpListener, Global>,
        watch: Watch<R>,
        places: Places,
    ) -> Result<TcpPoller<R>>
        ensures { IfOk result (λ p. p ≡ record { faults = 0; places = places }) }
    {
        watch.watch_arrivals(&mut SourceFd(&listener.as_raw_fd()))?;
        Ok(TcpPoller {
            rt,
            listener,
            watch,
            places,
            faults: 0,
        })
    }

    /// The address that it stands at.
    pub fn local_addr(&self) -> Result<SocketAddr> {
        self.listener.local_addr()
    }

    /// How often it failed.
    pub fn faults(&self) -> u64
        ensures { result ≡ self.now.faults }
    {
        self.faults
    }

    /// How many links it handed out.
    pub fn links(&self) -> u64
        ensures { result ≡ self.now.places.links }
    {
        self.places.links()
    }

    fn fail(&mut self) -> Ring<TcpLink>
        ensures result { result ≡ Ring.Failed }
        ensures kept { self.old.faults ≤ self.new.faults }
        ensures rose { Rose self.old.faults self.new.faults }
        ensures places { self.new.places ≡ self.old.places }
    {
        self.faults = self.faults.saturating_add(1);
        Ring::Failed
    }

    /// A link of a stream, for a place.
    fn link_of(&mut self, stream: TcpStream, k: u32) -> Result<TcpLink>
        ensures same { self.new ≡ self.old }
    {
        let mut stream = stream;
        stream.set_nodelay(true)?;
        let (gauge, bells) = self.watch.watch(&mut stream, k)?;
        Ok(TcpLink::new(stream, gauge, bells))
    }

    /// The next connection, if one waits. One that is gone by now or can't be watched is let go, and isn't counted. A want of descriptors is waited out.
    fn arrival(&mut self, k: u32) -> Result<Option<TcpLink>>
        ensures same { self.new ≡ self.old }
    {
        match self.listener.accept() {
            Ok((stream, _address)) => Ok(self.link_of(stream, k).ok()),
            Err(error) if is_gone(&error) => Ok(None),
            Err(error) if may_pass(&error) => {
                self.watch.await_arrival();
                Ok(None)
            }
            Err(error) => Err(error),
        }
    }

    /// A connection for a free place, if one waits.
    fn receive(&mut self, k: u32) -> Option<Ring<TcpLink>>
        requires place { k < length self.old.places.seats }
        requires more { reached self.old.places.quota self.old.places.links ≡ false }
        requires free { is_taken self.old.places k ≡ false }
        ensures { RingsIf LinkCounts self.old self.new result }
    {
        match self.arrival(k) {
            Ok(Some(link)) => {
                self.places.take_up(k);
                Some(Ring::New(k, link))
            }
            Ok(None) => None,
            Err(_) => Some(self.fail()),
        }
    }

    /// Where a connection may have arrived, and there is a place for it.
    fn awaited(&self) -> Option<u32>
        ensures more { IfSome result (λ k. reached self.now.places.quota self.now.places.links ≡ false) }
        ensures place { IfSome result (λ k. k < length self.now.places.seats) }
        ensures free { IfSome result (λ k. is_taken self.now.places k ≡ false) }
    {
        if self.watch.may_arrive() {
            self.places.vacant()
        } else {
            None
        }
    }

    /// A place that is ready.
    fn ready(&mut self) -> Option<Ring<TcpLink>>
        ensures { RingsIf LinkCounts self.old self.new result }
    {
        match self.watch.next() {
            Some(k) => {
                if self.places.is_taken(k) {
                    Some(Ring::Ready(k))
                } else {
                    None
                }
            }
            None => None,
        }
    }

    /// What there is to do now: a connection for a free place comes before places that are ready.
    fn next_ring(&mut self) -> Option<Ring<TcpLink>>
        ensures { RingsIf LinkCounts self.old self.new result }
    {
        if self.places.is_done() {
            return Some(Ring::Shut);
        }
        match self.awaited() {
            Some(k) => match self.receive(k) {
                Some(ring) => Some(ring),
                None => self.ready(),
            },
            None => self.ready(),
        }
    }
}

impl<R: Clock + Eprint + Drop> Poller for TcpPoller<R> {
    type Link = TcpLink;

    ghost places = { λ p. length p.places.seats };

    ghost taken = { λ p k. is_taken p.places k };

    ghost came = { λ p k. came_at p.places k };

    ghost links = { λ p. p.places.links };

    ghost quota = { λ p. p.places.quota };

    ghost tapes = { λ _ _. None };

    ghost rung = { λ _. None };

    ghost faults = { λ p. p.faults };

    /// A connection for a free place; a place whose socket has bytes or has room again, that was rung, or that is looked at: one taken place each
    /// second, and each in ten seconds. `Failed` where the listener or the poll does.
    fn wait<W: Wait>(&mut self, rt: &W) -> Ring<TcpLink>
        ensures rings { Rings LinkCounts (length self.old.places.seats) self.old.places.quota (seats_of self.old.places) (seats_of self.new.places) result }
        ensures places { length self.new.places.seats ≡ length self.old.places.seats }
        ensures quota { self.new.places.quota ≡ self.old.places.quota }
        ensures kept { self.old.faults ≤ self.new.faults }
        ensures cause { result ≡ Ring.Failed → Rose self.old.faults self.new.faults }
    {
        for _ in rt.forever() {
            match self.next_ring() {
                Some(ring) => return ring,
                None => {}
            }
            let is_ready = self.awaited().is_some();
            if self.watch.wait(is_ready).is_err() {
                return self.fail();
            }
        }
        unreachable!()
    }

    fn done(&mut self, k: u32, link: TcpLink)
        requires { is_taken self.old.places k ≡ true }
        ensures back { IsBack k (seats_of self.old.places) (seats_of self.new.places) }
        ensures places { length self.new.places.seats ≡ length self.old.places.seats }
        ensures quota { self.new.places.quota ≡ self.old.places.quota }
        ensures faults { self.new.faults ≡ self.old.faults }
    {
        link.close();
        self.watch.leave(k);
        self.places.give_up(k);
    }

    /// On standard error.
    fn note(&mut self, text: &str)
        ensures { self.new ≡ self.old }
    {
        let _told = eprint!(self.rt; "{text}");
    }
}

/// Whether an error of accept(2) is of a connection, and not of the listener.
fn is_gone(error: &Error) -> bool {
    matches!(
        error.kind(),
        ErrorKind::ConnectionAborted
            | ErrorKind::ConnectionReset
            | ErrorKind::TimedOut
            | ErrorKind::NetworkDown
            | ErrorKind::NetworkUnreachable
            | ErrorKind::HostUnreachable
            | ErrorKind::PermissionDenied
    ) || error.raw_os_error() == Some(EPROTO)
}

/// Whether no connection waits, or there is no room for one now.
fn may_pass(error: &Error) -> bool {
    is_pending(error)
        || error.kind() == ErrorKind::OutOfMemory
        || matches!(error.raw_os_error(), Some(ENFILE | EMFILE | ENOBUFS))
}
