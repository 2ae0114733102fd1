//! Frames go to a connection.
ghost use Rattle.std.specs.Prelude.{◌≡◌, ℕ, ◌+◌, ◌-◌, ◌^◌, ◌<◌, ◌≤◌, ◌&&◌, ◌++◌, ◌∷◌, [], List, length, nat_lt, true, Some};
ghost use Rattle.std.specs.Prelude.{IfSome, is_some, slice_get, slice_index_or, vec_len, vec_capacity};
ghost use Rattle.session_table.specs.Sessions.{SessionRecord};
ghost use Rattle.session_table.specs.Tables.{session_of};
ghost use Rattle.house_model.specs.declared.event.Event.{Event};
ghost use Rattle.house_model.specs.Histories.{Turn, StandsFor, kept_step, made};
ghost use Rattle.house_model.specs.States.{Kept, State};
ghost use Rattle.house_model.specs.Steps.{due, last_moment, nothing, pulls, pulls_from, verdict};
ghost use Rattle.house_core.specs.Houses.{held};
ghost use Rattle.house_core.specs.Pulls.{Framed, GaveAt, Gives, pass_of};
ghost use Rattle.house_world.specs.Wholes.{AreShort, IsFew, IsTied};
ghost use Rattle.house_world.specs.Worlds.{HasNext, IsHeld, seen};

use crate::gate::{Needs, Pass, check};
use crate::house::House;
use house_model::Reply;
use house_world::{World, given, push_request};
use session_table::Session;
use stanza_tree::push_frame;

const TO_PULL: Needs = Needs {
    fresh: true,
    logged: true,
    bound: true,
    answers: false,
};

// Appends the frame of a session's next entry. False where there is none.
fn push_unsent(session: &Session, out: &mut Vec<u8>) -> bool
    requires short { AreShort session.now.queue.waiting }
    requires room { vec_len out.old + 524288 ≤ vec_capacity out.old }
    ensures frame { Framed (slice_get session.now.queue.waiting session.now.queue.given) result out.old.items out.new.items }
    ensures next { result ≡ true → session.now.queue.given < length session.now.queue.waiting }
    ensures capacity { vec_capacity out.old ≤ vec_capacity out.new }
{
    match session.own.queue.next_unsent() {
        Some(entry) => {
            push_frame(entry, out);
            true
        }
        None => false,
    }
}

// Whether a session's client is to be asked for its count.
fn is_unasked(session: &Session) -> bool
    requires given { session.now.queue.given ≤ length session.now.queue.waiting }
    requires small { session.now.given_up + session.now.queue.given < 2 ^ 64 }
    ensures { result ≡ (session.now.counts && nat_lt session.now.asked_at (session.now.given_up + session.now.queue.given)) }
{
    let own = &session.own;
    own.counts && own.asked_at < own.given_up + given(own) as u64
}

// Appends the oldest answer of a line, which then waits no more. False where none waits.
fn give_answer(world: &mut World, w: u32, out: &mut Vec<u8>) -> bool
    requires line { w < length world.old.answers.items }
    requires tied { IsTied world.old.table }
    requires room { vec_len out.old + 524288 ≤ vec_capacity out.old }
    ensures given { GaveAt w (slice_index_or world.old.answers.items w []) world.old world.new result out.old.items out.new.items }
    ensures capacity { vec_capacity out.old ≤ vec_capacity out.new }
{
    world.answers[w as usize].give(out)
}

// Appends the frame of a session's next entry. False where there is none.
fn push_next(world: &World, s: u64, out: &mut Vec<u8>) -> bool
    requires tied { IsTied world.now.table }
    requires held { IsHeld s world.now.table }
    requires room { vec_len out.old + 524288 ≤ vec_capacity out.old }
    ensures frame { (x : SessionRecord) → session_of s world.now.table ≡ Some x
        → Framed (slice_get x.queue.waiting x.queue.given) result out.old.items out.new.items }
    ensures next { result ≡ true → HasNext s world.now.table }
    ensures capacity { vec_capacity out.old ≤ vec_capacity out.new }
{
    match world.table.session(s) {
        Some(session) => push_unsent(session, out),
        None => false,
    }
}

// Whether a session's client is to be asked for its count.
fn is_to_ask(world: &World, s: u64) -> bool
    requires tied { IsTied world.now.table }
    requires held { IsHeld s world.now.table }
    requires small { IsFew (2 ^ 64 - 2) world.now.table }
    ensures { (x : SessionRecord) → session_of s world.now.table ≡ Some x
        → result ≡ (x.counts && nat_lt x.asked_at (x.given_up + x.queue.given)) }
{
    match world.table.session(s) {
        Some(session) => is_unasked(session),
        None => false,
    }
}

// Whether a session is over or past its deadline.
fn has_due(world: &World, moment: u64) -> bool
    ensures { (k : Kept) → k.world ≡ seen world.now → k.head.moment ≡ moment → result ≡ is_some (due k) }
{
    match world.table.due(moment) {
        Some(s) => world.table.session(s).is_some(),
        None => false,
    }
}

// What a line gets for which nothing waits.
fn give_nothing(world: &World, moment: u64) -> Reply
    ensures { (k : Kept) → k.world ≡ seen world.now → k.head.moment ≡ moment → result ≡ (nothing k).reply }
{
    Reply::Nothing {
        due: has_due(world, moment),
    }
}

// What a session gives: its next entry, else a request for the client's count.
fn give_next(world: &mut World, s: u64, moment: u64, out: &mut Vec<u8>) -> Reply
    requires tied { IsTied world.old.table }
    requires held { IsHeld s world.old.table }
    requires small { IsFew (2 ^ 64 - 2) world.old.table }
    requires room { vec_len out.old + 524288 ≤ vec_capacity out.old }
    ensures gives { (k : Kept) → k.world ≡ seen world.old → k.head.moment ≡ moment
        → Gives (pulls_from k (pass_of (Some s))) result world.old world.new out.old.items out.new.items }
    ensures capacity { vec_capacity out.old ≤ vec_capacity out.new }
{
    if push_next(world, s, out) {
        world.mark(s);
        return Reply::Frame;
    }
    if is_to_ask(world, s) {
        push_request(out);
        world.request(s);
        return Reply::Frame;
    }
    give_nothing(world, moment)
}

// What a line gets: the oldest answer, else what its session gives.
fn give(world: &mut World, w: u32, session: Option<u64>, moment: u64, out: &mut Vec<u8>) -> Reply
    requires line { w < length world.old.answers.items }
    requires tied { IsTied world.old.table }
    requires held { IfSome session (λ s. IsHeld s world.old.table) }
    requires small { IsFew (2 ^ 64 - 2) world.old.table }
    requires room { vec_len out.old + 524288 ≤ vec_capacity out.old }
    ensures gives { (k : Kept) → k.world ≡ seen world.old → k.head.moment ≡ moment
        → Gives (pulls k w (slice_index_or world.old.answers.items w []) (pass_of session)) result world.old world.new out.old.items out.new.items }
    ensures capacity { vec_capacity out.old ≤ vec_capacity out.new }
{
    if give_answer(world, w, out) {
        return Reply::Frame;
    }
    match session {
        Some(s) => give_next(world, s, moment, out),
        None => give_nothing(world, moment),
    }
}

// What a line gets, once it is checked.
fn pull(world: &mut World, w: u32, moment: u64, out: &mut Vec<u8>) -> Reply
    requires line { w < length world.old.table.lines }
    requires answered { length world.old.answers.items ≡ length world.old.table.lines }
    requires moment { moment ≤ last_moment }
    requires tied { IsTied world.old.table }
    requires small { IsFew (2 ^ 64 - 2) world.old.table }
    requires room { vec_len out.old + 524288 ≤ vec_capacity out.old }
    ensures gives { (k : Kept) (t : ℕ) → k.world ≡ seen world.old → k.head.moment ≡ moment
        → Gives (verdict k (Event.Pull w t)) result world.old world.new out.old.items out.new.items }
    ensures capacity { vec_capacity out.old ≤ vec_capacity out.new }
{
    match check(world, &TO_PULL, w, moment) {
        Pass::Stop(reply) => reply,
        Pass::Holds { session, .. } => give(world, w, Some(session), moment, out),
        Pass::Knows { .. } => give(world, w, None, moment, out),
        Pass::Waits => give(world, w, None, moment, out),
    }
}

impl House {
    fn apply_pull(&mut self, w: u32, t: u64, out: &mut Vec<u8>) -> Reply
        requires line { w < length self.old.table.lines }
        requires turns { self.old.turns < 2 ^ 63 + 2 ^ 62 }
        requires room { vec_len out.old + 524288 ≤ vec_capacity out.old }
        ensures state { held self.new ≡ (kept_step (held self.old) (Event.Pull w t)).state }
        ensures reply { result ≡ (kept_step (held self.old) (Event.Pull w t)).reply }
        ensures text { out.new.items ≡ out.old.items ++ (kept_step (held self.old) (Event.Pull w t)).text }
        ensures capacity { vec_capacity out.old ≤ vec_capacity out.new }
    {
        self.turns += 1;
        self.moment = self.later(t);
        pull(&mut self.world, w, self.moment, out)
    }

    /// The connection takes its next frame, which is appended: the oldest answer, else the next entry, else a request for the
    /// client's count. Takes no memory.
    pub fn pull(&mut self, w: u32, t: u64, out: &mut Vec<u8>) -> Reply
        requires line { w < length self.old.table.lines }
        requires turns { self.old.turns < 2 ^ 63 + 2 ^ 62 }
        requires room { vec_len out.old + 524288 ≤ vec_capacity out.old }
        ensures state { held self.new ≡ (kept_step (held self.old) (Event.Pull w t)).state }
        ensures reply { result ≡ (kept_step (held self.old) (Event.Pull w t)).reply }
        ensures text { out.new.items ≡ out.old.items ++ (kept_step (held self.old) (Event.Pull w t)).text }
        ensures capacity { vec_capacity out.old ≤ vec_capacity out.new }
        ensures history { (o : State) (h : List Turn) (text : List ℕ) → out.new.items ≡ out.old.items ++ text → StandsFor o h (held self.old)
            → StandsFor o (h ++ made (Event.Pull w t) result text ∷ []) (held self.new) }
    {
        self.apply_pull(w, t, out)
    }
}
