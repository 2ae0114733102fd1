//! A client asks for its session (XEP-0198, 5).
ghost use Rattle.std.specs.Prelude.{◌≡◌, ◌<◌, ◌≤◌, ◌+◌, ◌^◌, ◌-◌, ◌++◌, ◌∷◌, [], ℕ, List, length, slice_index_or, true, Some, IsSome};
ghost use Rattle.std.specs.Option.{option_copied};
ghost use Rattle.jid_core.specs.Addresses.{same_bare};
ghost use Rattle.session_table.specs.Sessions.{SessionRecord, is_over};
ghost use Rattle.session_table.specs.Tables.{conn_of, is_logged, line_of, session_of};
ghost use Rattle.house_model.specs.declared.event.Event.{Event};
ghost use Rattle.house_model.specs.States.{Kept, State};
ghost use Rattle.house_model.specs.Steps.{last_moment, resumes_by, verdict};
ghost use Rattle.house_model.specs.Histories.{Turn, StandsFor, kept_step, made};
ghost use Rattle.house_core.specs.Houses.{held};
ghost use Rattle.house_core.specs.Resumes.{IsNarrow, facts_by, facts_with, is_known_to, users_address};
ghost use Rattle.house_world.specs.Wholes.{AreUsers, IsFew, IsTied};
ghost use Rattle.house_world.specs.Worlds.{Ends, seen};

use crate::counting::TO_MANAGE;
use crate::gate::{Pass, check};
use crate::house::House;
use house_model::{Answer, Reply};
use house_routing::Users;
use house_world::World;
use jid_core::{Jid, Part};
use session_table::{Life, Session};
use sm_counters::Count;
use sm_resume::{Cause, Decision, Facts, ResumeId, decide};

fn is_users(address: &Jid, user: &Part, domain: &Jid) -> bool
    ensures { result ≡ same_bare address.now (users_address user.now domain.now.domain) }
{
    match &address.local {
        Some(local) => local.bytes() == user.bytes()
            && address.domain.bytes() == domain.domain.bytes(),
        None => false,
    }
}

fn is_over(session: &Session) -> bool
    ensures { result ≡ is_over session.now.state }
{
    match session.state() {
        Life::Live => false,
        Life::Over(_) => true,
    }
}

/// What is known of a session, for a user. None where it can't be resumed.
fn facts_of(session: &Session, user: &Part, domain: &Jid) -> Option<Facts>
    requires { session.now.queue.given ≤ length session.now.queue.waiting }
    ensures facts { result ≡ facts_with user.now domain.now.domain session.now session.now.resume_id }
    ensures narrow { IsSome session.now.resume_id → IsNarrow session.now }
{
    let id = session.own.resume_id?;
    let digits = id.digits;
    let _ = session.own.queue.len();
    Some(Facts {
        digits,
        yours: is_users(session.address(), user, domain),
        ended: is_over(session),
        kept: session.own.queue.kept(),
        sent: session.own.queue.sent(),
    })
}

impl House {
    fn apply_resume(&mut self, w: u32, id: Option<&ResumeId>, h: u32, t: u64) -> Reply
        requires line { w < length self.old.table.lines }
        requires turns { self.old.turns < 2 ^ 63 + 2 ^ 62 }
        ensures state { held self.new ≡ (kept_step (held self.old) (Event.Resume w (option_copied id.entry) h t)).state }
        ensures reply { result ≡ (kept_step (held self.old) (Event.Resume w (option_copied id.entry) h t)).reply }
    {
        self.turns += 1;
        self.moment = self.later(t);
        go_on(
            &mut self.world,
            w,
            id,
            h,
            self.moment,
            &self.users,
            &self.domain,
        )
    }

    /// The connection asks for the session of this id, of which it handled `h` stanzas (XEP-0198, 5). Takes no memory.
    pub fn resume(&mut self, w: u32, id: Option<&ResumeId>, h: u32, t: u64) -> Reply
        requires line { w < length self.old.table.lines }
        requires turns { self.old.turns < 2 ^ 63 + 2 ^ 62 }
        ensures state { held self.new ≡ (kept_step (held self.old) (Event.Resume w (option_copied id.entry) h t)).state }
        ensures reply { result ≡ (kept_step (held self.old) (Event.Resume w (option_copied id.entry) h t)).reply }
        ensures history { (o : State) (h' : List Turn) → StandsFor o h' (held self.old)
            → StandsFor o (h' ++ made (Event.Resume w (option_copied id.entry) h t) result [] ∷ []) (held self.new) }
    {
        self.apply_resume(w, id, h, t)
    }
}

fn facts(world: &World, s: u64, user: &Part, domain: &Jid) -> Option<Facts>
    requires { IsTied world.now.table }
    ensures facts { result ≡ facts_by user.now domain.now.domain (session_of s world.now.table) }
    ensures narrow { (x : SessionRecord) → session_of s world.now.table ≡ Some x → IsSome x.resume_id → IsNarrow x }
{
    match world.table.session(s) {
        Some(session) => facts_of(session, user, domain),
        None => None,
    }
}

// The client of a user, at a line without a session, asks for the session of an id.
fn take_up(
    world: &mut World,
    w: u32,
    conn: u64,
    id: &ResumeId,
    h: u32,
    user: &Part,
    domain: &Jid,
) -> Reply
    requires line { w < length world.old.table.lines }
    requires logged { is_logged (line_of w world.old.table) ≡ true }
    requires conn { conn ≡ conn_of (line_of w world.old.table) }
    requires answered { length world.old.answers.items ≡ length world.old.table.lines }
    requires room { length (slice_index_or world.old.answers.items w []) < 8 }
    requires tied { IsTied world.old.table }
    requires small { IsFew (2 ^ 64 - 2) world.old.table }
    ensures { Ends (resumes_by (is_known_to user.now domain.now.domain id.now ((seen world.old).sessions id.now.session))
        ((seen world.old).sessions id.now.session).hold w conn id.now.session h id.now
        ((seen world.old).sessions id.now.session).traffic) 0 result world.old world.new }
{
    let facts = facts(world, id.session, user, domain);
    match decide(id, facts.as_ref(), Count(h)) {
        Decision::Take(n) => {
            let count = world.resume(w, conn, id.session, h, n);
            world.say(w, Answer::Resumed { h: count, id: *id });
            Reply::Resumed
        }
        Decision::TooHigh { h, kept, sent } => {
            let cause = Cause::TooHigh { h, kept, sent };
            world.close_free(w, cause);
            Reply::Over(cause)
        }
        _ => {
            world.say(w, Answer::NotFound);
            Reply::Done
        }
    }
}

// A client asks for the session of an id, once that is checked.
fn go_on(
    world: &mut World,
    w: u32,
    id: Option<&ResumeId>,
    h: u32,
    moment: u64,
    users: &Users,
    domain: &Jid,
) -> Reply
    requires line { w < length world.old.table.lines }
    requires answered { length world.old.answers.items ≡ length world.old.table.lines }
    requires moment { moment ≤ last_moment }
    requires tied { IsTied world.old.table }
    requires small { IsFew (2 ^ 64 - 2) world.old.table }
    requires users { AreUsers (length users.now) world.old.table }
    ensures { (k : Kept) → k.world ≡ seen world.old → k.head.moment ≡ moment → k.head.users ≡ users.now → k.head.domain ≡ domain.now
        → (t : ℕ) → Ends (verdict k (Event.Resume w (option_copied id.entry) h t)) 0 result world.old world.new }
{
    match check(world, &TO_MANAGE, w, moment) {
        Pass::Stop(reply) => reply,
        Pass::Knows { conn, user } => match id {
            Some(id) => take_up(world, w, conn, id, h, &users.parts()[user as usize], domain),
            None => {
                world.say(w, Answer::NotFound);
                Reply::Done
            }
        },
        Pass::Holds { .. } => {
            world.say(w, Answer::Unexpected);
            Reply::Done
        }
        Pass::Waits => Reply::Unready,
    }
}
