//! A session, as the table keeps it.

ghost use Rattle.std.specs.Prelude.{◌≡◌, ℕ, ◌||◌, ◌==◌, Some, is_some, nat_eq};
ghost use Rattle.std.specs.Borrow.{sem};
ghost use Rattle.std.specs.Option.{option_copied};
ghost use Rattle.jid_core.specs.Addresses.{Address, same_address, same_part};

use crate::life::Life;
use jid_core::Jid;
use sm_queue::SmQueue;
use sm_resume::{Cause, ResumeId};
use stanza_tree::{Several, Text};
use std::alloc::Global;
use std::marker::Model;

/// What a session's owner sees to.
#[derive(Drop)]
pub struct Own {
    /// The stanzas that wait for its client.
    pub queue: SmQueue,
    /// The place of the queue's first stanza in the list of all stanzas of the session.
    pub given_up: u64,
    /// The place in that list up to which an acknowledgement was asked for.
    pub asked_at: u64,
    /// Whether stream management is enabled (XEP-0198, 3).
    pub counts: bool,
    /// The id by which it is resumed, where the client asked for one.
    pub resume_id: Option<ResumeId>,
    /// How many of the client's stanzas were acted on.
    pub acted: u64,
    /// How many of these came before stream management was enabled.
    pub base_in: u64,
    /// The stanza of its presence, while it is available (RFC 6121, 4).
    pub presence: Option<Text>,
    /// The priority in that presence (RFC 6121, 4.7.2.3).
    pub priority: i16,
    /// To whom it sent directed presence (RFC 6121, 4.6).
    pub directed: Several<Jid>,
    /// Whether it asked for its roster, so that changes are pushed to it (RFC 6121, 2.1.6).
    pub wants_roster: bool,
    /// How many pushes were queued for it.
    pub pushes: u64,
}

impl Model for Own {
    ghost use Rattle.session_table.specs.Sessions.{OwnRecord};

    ghost Value = { OwnRecord };

    ghost view = { λ o. record {
      queue = o.queue;
      given_up = o.given_up;
      asked_at = o.asked_at;
      counts = o.counts;
      resume_id = o.resume_id;
      acted = o.acted;
      base_in = o.base_in;
      presence = o.presence;
      priority = o.priority;
      directed = o.directed;
      wants_roster = o.wants_roster;
      pushes = o.pushes;
    } };
}

impl Own {
    ghost use Rattle.session_table.specs.Sessions.{begun, own_of};

    // What a session's owner has when it begins.
    fn begin(alloc: Global) -> Own
        ensures { (number w : ℕ) (address : Address) → result ≡ own_of (begun number address w) }
    {
        Own {
            queue: SmQueue::new(alloc),
            given_up: 0,
            asked_at: 0,
            counts: false,
            resume_id: None,
            acted: 0,
            base_in: 0,
            presence: None,
            priority: 0,
            directed: Several::of(Vec::new(alloc)),
            wants_roster: false,
            pushes: 0,
        }
    }
}

/// A session, which a binding makes (RFC 6120, 7). The table sees to its number, address, holder, state
/// and deadline; the rest is its owner's.
#[derive(Drop)]
pub struct Session {
    number: u64,
    address: Jid,
    holder: Option<u32>,
    state: Life,
    deadline: Option<u64>,
    /// What its owner sees to.
    pub own: Own,
}

impl Model for Session {
    ghost use Rattle.session_table.specs.Sessions.{SessionRecord};

    ghost Value = { SessionRecord };

    ghost view = { λ s. record {
      number = s.number;
      address = s.address;
      holder = s.holder;
      state = s.state;
      deadline = s.deadline;
      queue = s.own.queue;
      given_up = s.own.given_up;
      asked_at = s.own.asked_at;
      counts = s.own.counts;
      resume_id = s.own.resume_id;
      acted = s.own.acted;
      base_in = s.own.base_in;
      presence = s.own.presence;
      priority = s.own.priority;
      directed = s.own.directed;
      wants_roster = s.own.wants_roster;
      pushes = s.own.pushes;
    } };
}

/// What the table changes of a session.
#[derive(Clone, Copy, Debug, PartialEq, Eq)]
pub(crate) enum Change {
    /// This line holds it.
    Held(u32),
    /// No line holds it, and it can be resumed until this moment.
    Left(u64),
    /// It has ended.
    Ended(Cause),
}

/// The bytes of an address's local part, where it has one.
pub(crate) fn local_of(address: &Jid) -> Option<&[u8]>
    ensures { option_copied result ≡ address.now.local }
{
    match &address.local {
        Some(local) => Some(local.bytes()),
        None => None,
    }
}

impl Session {
    ghost use Rattle.session_table.specs.Changes.{change_of};
    ghost use Rattle.session_table.specs.Waking.{wake_of};
    ghost use Rattle.session_table.specs.Lending.{LendsItsOwn};
    ghost use Rattle.session_table.specs.Sessions.{begun, own_of};

    /// The session of this number that line w has bound.
    pub(crate) fn begin(alloc: Global, number: u64, address: Jid, w: u32) -> Session
        ensures { result ≡ begun number address w }
    {
        Session {
            number,
            address,
            holder: Some(w),
            state: Life::Live,
            deadline: None,
            own: Own::begin(alloc),
        }
    }

    /// Its number.
    pub fn number(&self) -> u64
        ensures { result ≡ self.now.number }
    {
        self.number
    }

    /// Its full address.
    pub fn address(&self) -> &Jid
        ensures { result.now ≡ self.now.address }
    {
        &self.address
    }

    /// The line that holds it.
    pub fn holder(&self) -> Option<u32>
        ensures { result ≡ self.now.holder }
    {
        self.holder
    }

    /// Whether it has ended, and why.
    pub fn state(&self) -> Life
        ensures { result ≡ self.now.state }
    {
        self.state
    }

    /// The moment until which it can be resumed, in milliseconds since 1970, where no line holds it.
    pub fn deadline(&self) -> Option<u64>
        ensures { result ≡ self.now.deadline }
    {
        self.deadline
    }

    pub(crate) fn is_at(&self, address: &Jid) -> bool
        ensures { result ≡ same_address self.now.address address.now }
    {
        self.address.is_same(address)
    }

    /// Whether it is of the user whose addresses have a local part of these bytes.
    pub(crate) fn is_of(&self, local: Option<&[u8]>) -> bool
        ensures { result ≡ same_part self.now.address.local (option_copied local.entry) }
    {
        match (&self.address.local, local) {
            (None, None) => true,
            (Some(own), Some(local)) => own.bytes() == local,
            _ => false,
        }
    }

    /// The moment from which it is due.
    pub(crate) fn wake(&self) -> Option<u64>
        ensures { result ≡ wake_of self.now.state self.now.deadline }
    {
        match self.state {
            Life::Live => self.deadline,
            Life::Over(_) => Some(0),
        }
    }

    /// What its owner sees to, to be changed.
    pub(crate) fn own_mut(&mut self) -> &mut Own
        ensures* lends { sem 𝓛 (LendsItsOwn self.entry result) }
        ensures there { result.now ≡ own_of self.old }
    {
        &mut self.own
    }

    pub(crate) fn change(&mut self, change: Change)
        ensures { self.new ≡ change_of change self.old }
    {
        match change {
            Change::Held(w) => {
                self.holder = Some(w);
                self.deadline = None;
            }
            Change::Left(deadline) => {
                self.holder = None;
                self.deadline = Some(deadline);
            }
            Change::Ended(cause) => {
                self.state = Life::Over(cause);
                self.holder = None;
                self.deadline = None;
            }
        }
    }
}
