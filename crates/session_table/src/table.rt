//! The table.

ghost use Rattle.std.specs.Prelude.{◌≡◌, ◌<◌, ◌≤◌, ◌+◌, ◌-◌, ◌^◌, ◌++◌, ◌∷◌, [], length, min, true, false, Some, IfOk, IsOk, OnOk};
ghost use Rattle.std.specs.Borrow.{sem};
ghost use Rattle.std.specs.Option.{option_copied, option_copied_mut, option_map};

use crate::chains::{Heads, bridge, join};
use crate::line::Line;
use crate::room::grow;
use crate::session::{Change, Own, Session, local_of};
use crate::slots::{Slots, add, change, empty, find, number_at, session_at, visit};
use crate::users::{OfUser, find_at};
use crate::wakes::Wakes;
use hash_keys::HashKey;
use indexmap::IndexMap;
use jid_core::{Jid, Part};
use sm_resume::Cause;
use stanza_tree::NoMemory;
use std::alloc::Global;
use std::marker::Model;

/// The lines, and the sessions that are there.
#[derive(Drop)]
pub struct Table {
    lines: Vec<Line>,
    opened: u64,
    made: u64,
    there: usize,
    slots: Slots,
    wakes: Wakes,
    heads: Heads,
}

impl Model for Table {
    ghost use Rattle.std.specs.Prelude.{◌-◌, ◌^◌, length, min};
    ghost use Rattle.indexmap.specs.IndexMap.{spare};
    ghost use Rattle.session_table.specs.Indexes.{IsIndexed, present};
    ghost use Rattle.session_table.specs.Tables.{TableRecord};

    ghost Value = { TableRecord };

    // There is room where both maps have room, a place is left, and a number is.
    ghost view = { λ t. record {
      lines = t.lines.items;
      opened = t.opened;
      made = t.made;
      sessions = present t.slots.entries;
      spare = min (min (spare t.slots) (spare t.heads.firsts)) (min (length t.wakes - length t.slots.entries) (2 ^ 64 - 1 - t.made));
    } };

    ghost invariant = { λ t. IsIndexed t.heads.key t.slots.entries t.wakes t.heads.firsts.entries t.made t.there };
}

impl Table {
    ghost use Rattle.session_table.specs.Changes.{change_of};
    ghost use Rattle.session_table.specs.Lending.{LendsOwn};
    ghost use Rattle.session_table.specs.Sessions.{begun, ended, held_by, is_due, left_until, own_of};
    ghost use Rattle.session_table.specs.Tables.{IsFirst, IsLive, Rises, attached, bound, bound_at, changed, first_due, holds, is_empty};
    ghost use Rattle.session_table.specs.Tables.{is_fresh, is_logged, is_there, line_ended, line_of, logged_in, new_table};
    ghost use Rattle.session_table.specs.Tables.{number_at, of_user, session_of, with_conn, with_line, without};

    /// A table of so many lines, all without a connection, and no session. Users are found by this key.
    pub fn new(alloc: Global, lines: u32, key: HashKey) -> Result<Table, NoMemory>
        ensures { IfOk result (λ t. t ≡ new_table lines t.spare) }
    {
        let mut places = Vec::new(alloc);
        places.resize(lines as usize, Line::Empty)?;
        Ok(Table {
            lines: places,
            opened: 0,
            made: 0,
            there: 0,
            slots: IndexMap::new(alloc),
            wakes: Wakes::new(alloc),
            heads: Heads {
                key,
                firsts: IndexMap::new(alloc),
            },
        })
    }

    /// Takes the room for one session more, and a number for it, where they are not there. Nothing else changes,
    /// whatever the answer is. Takes, all in all, time logarithmic in the sessions for each one that is made.
    pub fn reserve(&mut self) -> Result<(), NoMemory>
        ensures room { OnOk result (0 < self.new.spare) }
        ensures succeeds { 0 < self.old.spare → IsOk result }
        ensures keeps_room { self.old.spare ≤ self.new.spare }
        ensures same { self.new ≡ record self.old { spare = self.new.spare } }
    {
        if self.made == u64::MAX {
            return Err(NoMemory);
        }
        self.slots.reserve(1)?;
        self.heads.firsts.reserve(1)?;
        if self.slots.len() == self.wakes.len() {
            let alloc = *self.lines.allocator();
            grow(alloc, &mut self.slots, &mut self.wakes, self.there)?;
        }
        Ok(())
    }

    /// The next connection is at line w, whatever was there. Answers its number, which stays at 2^64 - 1 once
    /// it is there.
    pub fn open_conn(&mut self, w: u32) -> u64
        requires { w < length self.old.lines }
        ensures number { result ≡ min (self.old.opened + 1) (2 ^ 64 - 1) }
        ensures table { self.new ≡ with_conn w result self.old }
    {
        self.opened = self.opened.saturating_add(1);
        self.lines[w as usize] = Line::Fresh { conn: self.opened };
        self.opened
    }

    /// The connection at line w, which is Fresh, is the user's at this place in the list of users.
    pub fn login(&mut self, w: u32, user: u32)
        requires line { w < length self.old.lines }
        requires fresh { is_fresh (line_of w self.old) ≡ true }
        ensures { self.new ≡ logged_in w user self.old }
    {
        let conn = self.lines[w as usize].conn();
        self.lines[w as usize] = Line::Logged { conn, user };
    }

    /// Makes the next session, at this address and held by line w, which is Logged. Answers its number. There is
    /// room for it. Takes time linear in the sessions of the user.
    pub fn bind(&mut self, w: u32, address: Jid) -> u64
        requires line { w < length self.old.lines }
        requires logged { is_logged (line_of w self.old) ≡ true }
        requires room { 0 < self.old.spare }
        ensures number { result ≡ self.old.made + 1 }
        ensures table { self.new ≡ record (bound w address self.old) { spare = self.new.spare } }
        ensures keeps_room { self.old.spare ≤ self.new.spare + 1 }
    {
        let s = self.make(w, address);
        self.hold(w, s);
        s
    }

    /// Line w, which is Logged, holds the session from now on, which is Live. Another line that held it is left
    /// as it is. Takes time logarithmic in the sessions, as do `detach` and `mark_over`.
    pub fn attach(&mut self, s: u64, w: u32)
        requires line { w < length self.old.lines }
        requires logged { is_logged (line_of w self.old) ≡ true }
        requires live { IsLive s self.old }
        ensures { self.new ≡ attached s w self.old }
    {
        self.change(s, Change::Held(w));
        self.hold(w, s);
    }

    /// No line holds the session any more, and it can be resumed until this moment, in milliseconds since 1970.
    pub fn detach(&mut self, s: u64, deadline: u64)
        requires { is_there s self.old ≡ true }
        ensures { self.new ≡ changed s (left_until deadline) self.old }
    {
        self.change(s, Change::Left(deadline));
    }

    /// The session has ended: no line holds it, and no deadline runs. Its line is left as it is.
    pub fn mark_over(&mut self, s: u64, cause: Cause)
        requires { is_there s self.old ≡ true }
        ensures { self.new ≡ changed s (ended cause) self.old }
    {
        self.change(s, Change::Ended(cause));
    }

    /// The connection at line w has ended. There is one, and no session has the line as its holder.
    pub fn line_over(&mut self, w: u32, cause: Cause)
        requires line { w < length self.old.lines }
        requires conn { is_empty (line_of w self.old) ≡ false }
        requires free { holds w self.old ≡ false }
        ensures { self.new ≡ line_ended w cause self.old }
    {
        let conn = self.lines[w as usize].conn();
        self.lines[w as usize] = Line::Over { conn, cause };
    }

    /// The session is there no more. Takes time linear in the sessions of its user and logarithmic in all.
    pub fn remove(&mut self, s: u64)
        requires { is_there s self.old ≡ true }
        ensures table { self.new ≡ record (without s self.old) { spare = self.new.spare } }
        ensures keeps_room { self.old.spare ≤ self.new.spare }
    {
        let Some((place, slot)) = visit(&self.slots, s) else {
            return;
        };
        let Some(session) = &slot.session else {
            return;
        };
        let hash = self.heads.hash_of(local_of(session.address()));
        let next = slot.next;
        bridge(&mut self.slots, &mut self.heads, hash, s, next);
        empty(&mut self.slots, place);
        self.wakes.set(place, None);
        self.there -= 1;
    }

    /// No connection is at line w any more. No session has the line as its holder.
    pub fn clear(&mut self, w: u32)
        requires line { w < length self.old.lines }
        requires free { holds w self.old ≡ false }
        ensures { self.new ≡ with_line w Line.Empty self.old }
    {
        self.lines[w as usize] = Line::Empty;
    }

    /// How many sessions were made.
    pub fn made(&self) -> u64
        ensures { result ≡ self.now.made }
    {
        self.made
    }

    /// How many sessions are there.
    pub fn count(&self) -> usize
        ensures { result ≡ length self.now.sessions }
    {
        self.there
    }

    /// How many connections were opened.
    pub fn opened(&self) -> u64
        ensures { result ≡ self.now.opened }
    {
        self.opened
    }

    /// What is at line w.
    pub fn line(&self, w: u32) -> &Line
        requires { w < length self.now.lines }
        ensures { result.now ≡ line_of w self.now }
    {
        &self.lines[w as usize]
    }

    /// The session of this number, if it is there.
    pub fn session(&self, s: u64) -> Option<&Session>
        ensures session { option_copied result ≡ session_of s self.now }
        ensures rises { Rises 0 self.now.sessions self.now.made }
    {
        session_at(&self.slots, s)
    }

    /// What the owner of the session of this number sees to, to be changed, if the session is there.
    pub fn own_mut(&mut self, s: u64) -> Option<&mut Own>
        ensures* lends { sem 𝓛 (LendsOwn self.entry s result) }
        ensures there { option_copied_mut result ≡ option_map own_of (session_of s self.old) }
        ensures rises { Rises 0 self.old.sessions self.old.made }
    {
        let Some(place) = find(&self.slots, s) else {
            return None;
        };
        let Some(slot) = self.slots.get_index_mut(place) else {
            return None;
        };
        let Some(session) = slot.session.as_mut() else {
            return None;
        };
        Some(session.own_mut())
    }

    /// The sessions of the user whose addresses have this local part, with their numbers, in the order of these. One
    /// that is over is among them. Takes no memory, and time linear in what it answers.
    pub fn of_user<'a>(&'a self, local: &'a Part) -> OfUser<'a>
        ensures { result ≡ of_user (Some local.now) self.now.sessions }
    {
        OfUser::new(&self.slots, &self.heads, Some(local.bytes()))
    }

    /// As `of_user`, by the bytes of the local part.
    pub fn of_name<'a>(&'a self, local: &'a [u8]) -> OfUser<'a>
        ensures { result ≡ of_user (Some local.now) self.now.sessions }
    {
        OfUser::new(&self.slots, &self.heads, Some(local))
    }

    /// As `of_user`, by an address of the user. Where it has no local part, these are the sessions whose addresses have none.
    pub fn of_user_at<'a>(&'a self, address: &'a Jid) -> OfUser<'a>
        ensures { result ≡ of_user address.now.local self.now.sessions }
    {
        OfUser::new(&self.slots, &self.heads, local_of(address))
    }

    /// The session at this address; of several the first. Takes no memory, and time linear in the sessions of its user.
    pub fn at(&self, address: &Jid) -> Option<u64>
        ensures number { result ≡ number_at address.now self.now.sessions }
        ensures first { IsFirst (λ x. x.address ≡ address.now) self.now result }
    {
        find_at(&self.slots, &self.heads, address)
    }

    /// The session of the least number that is over or has a deadline of at most `now`. Takes time logarithmic in the
    /// sessions.
    pub fn due(&self, now: u64) -> Option<u64>
        ensures number { result ≡ first_due now self.now.sessions }
        ensures first { IsFirst (λ x. is_due now x ≡ true) self.now result }
    {
        match self.wakes.first(now) {
            Some(place) => number_at(&self.slots, place),
            None => None,
        }
    }

    // Makes the next session, at this address and held by line w.
    fn make(&mut self, w: u32, address: Jid) -> u64
        requires room { 0 < self.old.spare }
        ensures number { result ≡ self.old.made + 1 }
        ensures table { self.new ≡ record self.old {
          made = result;
          sessions = self.old.sessions ++ (result, begun result address w) ∷ [];
          spare = self.new.spare;
        } }
        ensures keeps_room { self.old.spare ≤ self.new.spare + 1 }
    {
        self.made += 1;
        self.there += 1;
        let alloc = *self.lines.allocator();
        let hash = self.heads.hash_of(local_of(&address));
        join(&mut self.slots, &mut self.heads, hash, self.made);
        let session = Session::begin(alloc, self.made, address, w);
        add(&mut self.slots, self.made, session);
        self.made
    }

    // Line w holds the session of this number.
    fn hold(&mut self, w: u32, s: u64)
        requires { w < length self.old.lines }
        ensures { self.new ≡ bound_at w s self.old }
    {
        let conn = self.lines[w as usize].conn();
        self.lines[w as usize] = Line::Bound { conn, session: s };
    }

    // Changes the session of a number, where it is there.
    fn change(&mut self, s: u64, to: Change)
        ensures { self.new ≡ changed s (change_of to) self.old }
    {
        if let Some(place) = find(&self.slots, s) {
            let wake = change(&mut self.slots, place, to);
            self.wakes.set(place, wake);
        }
    }
}
