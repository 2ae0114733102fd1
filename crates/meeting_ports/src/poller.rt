//! A poller with one link.

ghost use Rattle.std.specs.Prelude.{◌≡◌, ◌<◌, ◌≤◌, None, true};
ghost use Rattle.outside.specs.Devices.{Rose};
ghost use Rattle.outside.specs.Polls.{IsBack, Rings};
ghost use Rattle.meeting_ports.specs.Meetings.{LinkCounts, came_at, fresh, seats_of, takes};

use crate::link::MeetLink;
use outside::{Poller, Ring};
use std::marker::Model;
use std::sync::Wait;

/// A poller that hands its one link out for its first place, again and again.
#[derive(Drop)]
pub struct MeetPoller {
    link: Option<MeetLink>,
    places: u32,
    taken: bool,
    faults: u64,
    links: u64,
    quota: u64,
}

impl Model for MeetPoller {
    ghost use Rattle.std.specs.Prelude.{◌<◌};
    ghost use Rattle.meeting_ports.specs.Meetings.{PollerCounts};

    ghost Value = { PollerCounts };

    ghost view = { λ p. record { places = p.places; taken = p.taken; faults = p.faults; links = p.links; quota = p.quota } };

    ghost invariant = { λ p. 0 < p.places };
}

impl MeetPoller {
    /// A poller of so many places with this link, which it is to hand out so often; 0 is without end.
    pub fn new(link: MeetLink, places: u32, quota: u64) -> MeetPoller
        requires { 0 < places }
        ensures { result ≡ fresh places quota }
    {
        MeetPoller {
            link: Some(link),
            places,
            taken: false,
            faults: 0,
            links: 0,
            quota,
        }
    }

    /// How often it failed.
    pub fn faults(&self) -> u64
        ensures { result ≡ self.now.faults }
    {
        self.faults
    }

    /// How many links it handed out.
    pub fn links(&self) -> u64
        ensures { result ≡ self.now.links }
    {
        self.links
    }

    /// Its link, where it isn't handed out.
    pub fn link(&self) -> Option<&MeetLink> {
        self.link.as_ref()
    }
}

impl Poller for MeetPoller {
    type Link = MeetLink;

    ghost places = { λ p. p.places };

    ghost taken = { takes };

    ghost came = { came_at };

    ghost links = { λ p. p.links };

    ghost quota = { λ p. p.quota };

    ghost tapes = { λ _ _. None };

    ghost rung = { λ _. None };

    ghost faults = { λ p. p.faults };

    fn wait<R: Wait>(&mut self, _rt: &R) -> Ring<MeetLink>
        ensures rings { Rings LinkCounts self.old.places self.old.quota (seats_of self.old) (seats_of self.new) result }
        ensures places { self.new.places ≡ self.old.places }
        ensures quota { self.new.quota ≡ self.old.quota }
        ensures kept { self.old.faults ≤ self.new.faults }
        ensures cause { result ≡ Ring.Failed → Rose self.old.faults self.new.faults }
    {
        if self.taken {
            return Ring::Ready(0);
        }
        if self.quota != 0 && self.links >= self.quota {
            return Ring::Shut;
        }
        match self.link.take() {
            Some(link) => {
                self.taken = true;
                self.links = self.links.saturating_add(1);
                Ring::New(0, link)
            }
            None => {
                self.faults = self.faults.saturating_add(1);
                Ring::Failed
            }
        }
    }

    fn done(&mut self, k: u32, link: MeetLink)
        requires { takes self.old k ≡ true }
        ensures back { IsBack k (seats_of self.old) (seats_of self.new) }
        ensures places { self.new.places ≡ self.old.places }
        ensures quota { self.new.quota ≡ self.old.quota }
        ensures faults { self.new.faults ≡ self.old.faults }
    {
        self.taken = false;
        self.link = Some(link);
    }

    /// Notes are not kept.
    fn note(&mut self, _text: &str)
        ensures { self.new ≡ self.old }
    {}
}
