//! How sessions begin, go on at another line, are pushed to, end and depart.
ghost use Rattle.std.specs.Prelude.{◌≡◌, ℕ, ◌+◌, ◌-◌, ◌^◌, ◌<◌, ◌≤◌, ◌==◌, [], ◌∷◌, length, true, Some, slice_index_or, unwrap_or, if◌then◌else◌};
ghost use Rattle.stanza_tree.specs.Entries.{frame};
ghost use Rattle.sm_queue.specs.Queues.{acknowledged, has_room, pushed, spare};
ghost use Rattle.session_table.specs.Sessions.{SessionRecord};
ghost use Rattle.session_table.specs.Tables.{IsLive, changed, conn_of, is_logged, is_there, line_of, session_of};
ghost use Rattle.archive_table.specs.Tables.{archives_of};
ghost use Rattle.house_model.specs.Effects.{Begin, On};
ghost use Rattle.house_model.specs.Fitting.{AreSmall};
ghost use Rattle.house_model.specs.Routing.{departure};
ghost use Rattle.house_model.specs.Sessions.{End, Part, Push, Resume};
ghost use Rattle.house_model.specs.Steps.{departs};
ghost use Rattle.house_model.specs.Traffic.{kept_inward};
ghost use Rattle.house_world.specs.Hosting.{Archived, IsCast};
ghost use Rattle.house_world.specs.Readiness.{AreNotable, AreReady};
ghost use Rattle.house_world.specs.Wholes.{HasSpare, IsFew, IsTied};
ghost use Rattle.house_world.specs.Worlds.{Counts, Did, Handles, IsOver, KeepsLogged, Stays, rewound, rewound_to, seen};

use crate::casting::Cast;
use crate::deeds::inward;
use crate::lengths::know_short;
use crate::world::World;
use jid_core::Jid;
use session_table::{Life, Own};
use sm_counters::Count;
use sm_resume::Cause;
use stanza_tree::Entry;

// The client handled the first n stanzas that were given; the others are given again.
fn rewind(own: &mut Own, h: u32, n: u32)
    requires handled { acknowledged h own.old.queue ≡ Some n }
    requires within { n ≤ own.old.queue.given }
    requires small { own.old.given_up + own.old.queue.given < 2 ^ 64 }
    ensures { own.new ≡ rewound n own.old }
{
    match own.queue.rewind(Count(h)) {
        Ok(()) => {
            own.given_up += n as u64;
            own.asked_at = own.given_up;
        }
        Err(_) => {}
    }
}

// An entry more waits, whose frame has so many bytes.
fn add(own: &mut Own, entry: Entry, bytes: u64)
    requires spare { 0 < spare own.old.queue }
    requires room { has_room own.old.queue.waiting entry ≡ true }
    requires bytes { bytes ≡ length (frame entry) }
    ensures { own.new ≡ record own.old { queue = pushed entry own.old.queue } }
{
    own.queue.push(entry, bytes);
}

impl World {
    /// The session ends, unless it is over already; so does the connection that holds it.
    pub(crate) fn end(&mut self, s: u64, cause: Cause)
        requires answered { length self.old.answers.items ≡ length self.old.table.lines }
        requires tied { IsTied self.old.table }
        requires there { is_there s self.old.table ≡ true }
        ensures did { Did (On s (End cause) ∷ []) 0 self.old self.new }
        ensures stays { Stays self.old self.new }
        ensures book { self.new.book ≡ self.old.book }
        ensures rooms { self.new.rooms ≡ self.old.rooms }
        ensures archives { self.new.archives ≡ self.old.archives }
        ensures queues { (n r : ℕ) → HasSpare n r self.old.table → HasSpare n r self.new.table }
    {
        let Some(session) = self.table.session(s) else {
            return;
        };
        let Life::Live = session.state() else {
            return;
        };
        match session.holder() {
            Some(w) => {
                self.end_held(w, s, cause);
                self.stirred.note(Some(w));
            }
            None => self.table.mark_over(s, cause),
        }
    }

    /// The session ends, others are told, it leaves its rooms, and it is there no more. Costs what is told. Takes no memory.
    pub fn depart(&mut self, s: u64, cause: Cause, told: Cast)
        requires answered { length self.old.answers.items ≡ length self.old.table.lines }
        requires tied { IsTied self.old.table }
        requires small { IsFew (2 ^ 64 - 5001) self.old.table }
        requires there { is_there s self.old.table ≡ true }
        requires told { IsCast (departure (seen self.old) s) self.old.rooms told }
        requires ready { AreReady told.effects.items self.old.table }
        requires short { AreSmall told.effects.items }
        requires places { AreNotable told.effects.items self.old.book }
        ensures did { Did (departs (seen self.old) s cause) 0 self.old self.new }
        ensures rooms { self.new.rooms ≡ unwrap_or told.rooms self.old.rooms }
        ensures archives { Archived (archives_of self.old.archives) (archives_of self.new.archives) }
        ensures others { KeepsLogged self.old self.new }
        ensures room { self.old.table.spare ≤ self.new.table.spare }
    {
        self.end(s, cause);
        self.run(told);
        self.remove(s);
    }

    // The session, which is over, is there no more.
    fn remove(&mut self, s: u64)
        requires tied { IsTied self.old.table }
        requires over { IsOver s self.old.table }
        ensures did { Did (On s Part ∷ []) 0 self.old self.new }
        ensures rooms { self.new.rooms ≡ self.old.rooms }
        ensures archives { self.new.archives ≡ self.old.archives }
        ensures others { KeepsLogged self.old self.new }
        ensures room { self.old.table.spare ≤ self.new.table.spare }
    {
        let _ = self.table.session(s);
        self.table.remove(s);
    }

    /// Queues an entry for a session that goes on; where that passes a limit of its queue, it ends.
    pub(crate) fn push(&mut self, s: u64, entry: Entry)
        requires answered { length self.old.answers.items ≡ length self.old.table.lines }
        requires tied { IsTied self.old.table }
        requires small { IsFew (2 ^ 64 - 5001) self.old.table }
        requires room { (x : SessionRecord) → session_of s self.old.table ≡ Some x → 0 < spare x.queue }
        requires short { length (frame entry) ≤ 524288 }
        ensures did { Did (On s (Push entry) ∷ []) 0 self.old self.new }
        ensures stays { Stays self.old self.new }
        ensures book { self.new.book ≡ self.old.book }
        ensures archives { self.new.archives ≡ self.old.archives }
        ensures queues { (n r : ℕ) → HasSpare n r self.old.table
            → HasSpare (n - (if r == s then 1 else 0)) r self.new.table }
    {
        let Some(session) = self.table.session(s) else {
            return;
        };
        let Life::Live = session.state() else {
            return;
        };
        if let Some(bytes) = session.own.queue.room_for(&entry) {
            let line = session.holder();
            self.queue(s, entry, bytes);
            self.stirred.note(line);
            return;
        }
        let kept = session.own.given_up;
        let queued = kept + session.own.queue.len() as u64;
        self.end(s, Cause::Overfull { kept, queued });
    }

    // Queues an entry, whose frame has so many bytes, for a session that goes on and has room for it.
    fn queue(&mut self, s: u64, entry: Entry, bytes: u64)
        requires tied { IsTied self.old.table }
        requires live { IsLive s self.old.table }
        requires spare { (x : SessionRecord) → session_of s self.old.table ≡ Some x → 0 < spare x.queue }
        requires room { (x : SessionRecord) → session_of s self.old.table ≡ Some x
            → has_room x.queue.waiting entry ≡ true }
        requires bytes { bytes ≡ length (frame entry) }
        requires short { length (frame entry) ≤ 524288 }
        ensures did { Did (On s (Push entry) ∷ []) 0 self.old self.new }
        ensures stays { Stays self.old self.new }
        ensures book { self.new.book ≡ self.old.book }
        ensures archives { self.new.archives ≡ self.old.archives }
        ensures queues { (n r : ℕ) → HasSpare n r self.old.table
            → HasSpare (n - (if r == s then 1 else 0)) r self.new.table }
    {
        if let Some(own) = self.table.own_mut(s) {
            add(own, entry, bytes);
        }
    }

    /// The session, which counts and goes on, does so at a line, where the client handled so many of what waits. Answers the inward count.
    /// Costs the number of those handled. Takes no memory.
    pub fn resume(&mut self, w: u32, conn: u64, s: u64, h: u32, n: u32) -> u32
        requires line { w < length self.old.table.lines }
        requires logged { is_logged (line_of w self.old.table) ≡ true }
        requires conn { conn ≡ conn_of (line_of w self.old.table) }
        requires answered { length self.old.answers.items ≡ length self.old.table.lines }
        requires tied { IsTied self.old.table }
        requires small { IsFew (2 ^ 64 - 2) self.old.table }
        requires live { IsLive s self.old.table }
        requires counts { Counts true s self.old.table }
        requires handled { Handles h n s self.old.table }
        ensures count { result ≡ kept_inward ((seen self.old).sessions s).traffic }
        ensures did { Did (On s (Resume w conn h) ∷ []) 0 self.old self.new }
        ensures answers { slice_index_or self.new.answers.items w [] ≡ slice_index_or self.old.answers.items w [] }
    {
        let Some(session) = self.table.session(s) else {
            return 0;
        };
        let old = session.holder();
        let count = inward(&session.own);
        self.rewind(s, h, n);
        self.table.attach(s, w);
        if let Some(v) = old {
            self.table.line_over(v, Cause::Moved(conn));
            self.answers[v as usize].clear();
            self.stirred.note(Some(v));
        }
        count
    }

    // The client of the session handled so many of the stanzas that were given; the others are given again.
    fn rewind(&mut self, s: u64, h: u32, n: u32)
        requires small { IsFew (2 ^ 64 - 2) self.old.table }
        requires there { is_there s self.old.table ≡ true }
        requires handled { Handles h n s self.old.table }
        ensures table { self.new.table ≡ changed s (rewound_to n) self.old.table }
        ensures answers { self.new.answers ≡ self.old.answers }
        ensures book { self.new.book ≡ self.old.book }
        ensures rooms { self.new.rooms ≡ self.old.rooms }
        ensures archives { self.new.archives ≡ self.old.archives }
    {
        if let Some(own) = self.table.own_mut(s) {
            rewind(own, h, n);
        }
    }

    /// The next session is held at a line. Takes no memory.
    pub fn begin(&mut self, w: u32, address: Jid)
        requires line { w < length self.old.table.lines }
        requires logged { is_logged (line_of w self.old.table) ≡ true }
        requires room { 0 < self.old.table.spare }
        requires tied { IsTied self.old.table }
        ensures did { Did (Begin w (conn_of (line_of w self.old.table)) address ∷ []) 1 self.old self.new }
        ensures answers { self.new.answers ≡ self.old.answers }
    {
        let _ = self.table.session(0);
        know_short(&address);
        self.table.bind(w, address);
    }
}
