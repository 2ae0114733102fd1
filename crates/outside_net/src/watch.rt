//! What a worker waits with for all its places. No contract speaks of what a wait reports.

use crate::beat::Beat;
use crate::bell::BELL;
use crate::gauge::Gauge;
use crate::tcp_link::Bells;
use mark_sets::Marks;
use mio::event::{Event, Source};
use mio::net::TcpStream;
use mio::{Events, Interest, Poll, Token};
use std::alloc::{AllocError, Global};
use std::io;
use std::sync::Arc;
use std::time::{Clock, Duration};

// What the listener is reported under.
const ARRIVALS: Token = Token(usize::MAX - 1);

// So many events come with one wait, and more with the next.
const MOST_EVENTS: usize = 256;

// A place that can take no byte for so many looks is stuck: 30 seconds.
const PATIENCE: u32 = 30;

// Each place is looked at once in so many looks: in ten seconds.
const ROUND: u32 = 10;

/// A place as its worker sees it: the state of its socket, for how many looks it was blocked, and whether there is one.
#[derive(Drop)]
struct Seen {
    gauge: Arc<Gauge, Global>,
    blocked: u32,
    taken: bool,
}

/// The poll of a worker, with what it reported.
#[derive(Drop)]
pub(crate) struct Watch<R: Clock + Drop> {
    poll: Poll,
    events: Events<Global>,
    bells: Arc<Bells, Global>,
    worker: u32,
    seen: Vec<Seen>,
    // Places that are ready now, and those that are ready again after them.
    ready: Marks,
    again: Marks,
    last: Option<u32>,
    arrives: bool,
    beat: Beat<R>,
    looked: u32,
}

impl<R: Clock + Drop> Watch<R> {
    /// The watch of a worker, whose bell ends the waits of the poll.
    pub(crate) fn new(
        alloc: Global,
        poll: Poll,
        bells: Arc<Bells, Global>,
        worker: u32,
        beat: Beat<R>,
    ) -> Result<Watch<R>, AllocError> {
        let mut seen = Vec::with_capacity(alloc, bells.places as usize)?;
        for _place in 0..bells.places {
            let gauge = Arc::new(alloc, Gauge::new())?;
            seen.push(Seen {
                gauge,
                blocked: 0,
                taken: false,
            })?;
        }
        Ok(Watch {
            poll,
            events: Events::with_capacity(alloc, MOST_EVENTS)?,
            worker,
            seen,
            ready: Marks::new(alloc, bells.places)?,
            again: Marks::new(alloc, bells.places)?,
            bells,
            last: None,
            arrives: true,
            beat,
            looked: 0,
        })
    }

    /// From now on arrivals at the listener end a wait.
    pub(crate) fn watch_arrivals<S: Source>(&self, listener: &mut S) -> io::Result<()> {
        self.poll
            .registry()
            .register(listener, ARRIVALS, Interest::READABLE)
    }

    /// From now on what comes at this stream, and room at it, make its place ready: the state that it shares with its link.
    pub(crate) fn watch(
        &mut self,
        stream: &mut TcpStream,
        place: u32,
    ) -> io::Result<(Arc<Gauge, Global>, Arc<Bells, Global>)> {
        let Some(seen) = self.seen.get_mut(place as usize) else {
            return Err(io::Error::from(io::ErrorKind::InvalidInput));
        };
        self.poll.registry().register(
            stream,
            Token(place as usize),
            Interest::READABLE | Interest::WRITABLE,
        )?;
        seen.gauge.reset();
        seen.blocked = 0;
        seen.taken = true;
        Ok((Arc::try_clone(&seen.gauge)?, Arc::try_clone(&self.bells)?))
    }

    /// The stream of a place is closed.
    pub(crate) fn leave(&mut self, place: u32) {
        if let Some(seen) = self.seen.get_mut(place as usize) {
            seen.taken = false;
        }
    }

    /// Whether a connection may have arrived.
    pub(crate) fn may_arrive(&self) -> bool {
        self.arrives
    }

    /// The listener had none. It is asked again when one is reported, and at the next look.
    pub(crate) fn await_arrival(&mut self) {
        self.arrives = false;
    }

    /// The next place that is ready, if one is, but for those that can take no byte. One that was ready before, and has more to be read, comes after the others.
    pub(crate) fn next(&mut self) -> Option<u32> {
        let mut from = 0;
        if let Some(place) = self.last.take() {
            if self.has_more(place) {
                self.again.add(place);
            }
            from = place.saturating_add(1);
        }
        for _place in 0..self.bells.places {
            let place = self.ready.take(from)?;
            if self.may_go_on(place) {
                self.last = Some(place);
                return Some(place);
            }
        }
        None
    }

    fn may_go_on(&self, place: u32) -> bool {
        match self.seen.get(place as usize) {
            Some(seen) => seen.taken && !seen.gauge.is_blocked(),
            None => false,
        }
    }

    fn has_more(&self, place: u32) -> bool {
        match self.seen.get(place as usize) {
            Some(seen) => seen.taken && seen.gauge.is_readable() && !seen.gauge.is_blocked(),
            None => false,
        }
    }

    /// Waits until something is ready, at most until the next look; not at all where something is.
    pub(crate) fn wait(&mut self, is_ready: bool) -> io::Result<()> {
        self.ready.take_all(&mut self.again);
        let longest = if is_ready || !self.ready.is_empty() {
            Duration::ZERO
        } else {
            self.beat.rest()
        };
        self.wait_for_ring(longest)?;
        self.note_events();
        if self.beat.is_due() {
            self.look();
        }
        Ok(())
    }

    fn wait_for_ring(&mut self, longest: Duration) -> io::Result<()> {
        let Some(bell) = self.bells.bells.get(self.worker as usize) else {
            return self.poll.poll(&mut self.events, Some(longest));
        };
        let longest = if bell.begin_wait() {
            longest
        } else {
            Duration::ZERO
        };
        let waited = self.poll.poll(&mut self.events, Some(longest));
        bell.end_wait(&mut self.ready);
        waited
    }

    fn note_events(&mut self) {
        for event in self.events.iter() {
            match event.token() {
                BELL => {}
                ARRIVALS => self.arrives = true,
                Token(place) => {
                    if let Some(seen) = self.seen.get(place) {
                        note(&seen.gauge, event);
                    }
                    if let Ok(place) = u32::try_from(place) {
                        self.ready.add(place);
                    }
                }
            }
        }
    }

    /// A second went by: places that take no byte for too long are stuck, and some are looked at though nothing came.
    fn look(&mut self) {
        self.arrives = true;
        let mut place: u32 = 0;
        for seen in self.seen.as_mut_slice() {
            if seen.gauge.stays_blocked() {
                seen.blocked = seen.blocked.saturating_add(1);
                if seen.blocked >= PATIENCE {
                    seen.gauge.give_up();
                    seen.gauge.unblock();
                    self.ready.add(place);
                }
            } else {
                seen.blocked = 0;
            }
            place = place.saturating_add(1);
        }
        self.look_around();
    }

    /// A tenth of the places, in turn, and more where none of these is taken.
    fn look_around(&mut self) {
        let places = self.bells.places;
        if places == 0 {
            return;
        }
        let mut found = false;
        for step in 0..places {
            if found && step >= places.div_ceil(ROUND) {
                return;
            }
            self.looked = self.looked.saturating_add(1) % places;
            if self.may_go_on(self.looked) {
                self.ready.add(self.looked);
                found = true;
            }
        }
    }
}

/// Bytes, an end or a fault can be read, and room or a fault was met.
fn note(gauge: &Gauge, event: &Event) {
    if event.is_read_closed() || event.is_error() {
        gauge.close();
    } else if event.is_readable() {
        gauge.fill();
    }
    if event.is_writable() || event.is_error() {
        gauge.unblock();
    }
}
