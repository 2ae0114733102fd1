//! What a client says of the stanzas that it handled (XEP-0198, 4).
ghost use Rattle.std.specs.Prelude.{◌≡◌, ◌<◌, ◌≤◌, ◌^◌, ◌-◌, ℕ, Some, IfSome, length};
ghost use Rattle.session_table.specs.Sessions.{SessionRecord};
ghost use Rattle.session_table.specs.Tables.{session_of};
ghost use Rattle.sm_queue.specs.Queues.{acknowledged};
ghost use Rattle.house_model.specs.declared.event.Event.{Event};
ghost use Rattle.house_model.specs.States.{Kept};
ghost use Rattle.house_model.specs.Steps.{acks, last_moment, verdict};
ghost use Rattle.house_model.specs.Traffic.{brief};
ghost use Rattle.house_world.specs.Wholes.{IsFew, IsHeldBy, IsTied};
ghost use Rattle.house_world.specs.Worlds.{Ends, IsHeld, seen};

use crate::counting::counts;
use crate::gate::{Needs, Pass, check};
use house_model::Reply;
use house_world::{World, given};
use session_table::Session;
use sm_counters::{Count, within};
use sm_resume::Cause;

const TO_ACK: Needs = Needs {
    fresh: false,
    logged: false,
    bound: true,
    answers: false,
};

// How many of the stanzas that were given a count acknowledges.
fn handled_of(session: &Session, h: u32) -> Option<u32>
    requires { session.now.queue.given ≤ length session.now.queue.waiting }
    ensures handled { result ≡ acknowledged h session.now.queue }
    ensures within { IfSome result (λ n. n ≤ session.now.queue.given) }
{
    within(session.own.queue.kept(), given(&session.own), Count(h))
}

fn handled(world: &World, s: u64, h: u32) -> Option<u32>
    requires tied { IsTied world.now.table }
    requires held { IsHeld s world.now.table }
    ensures handled { (x : SessionRecord) → session_of s world.now.table ≡ Some x → result ≡ acknowledged h x.queue }
    ensures within { (x : SessionRecord) → session_of s world.now.table ≡ Some x → IfSome result (λ n. n ≤ x.queue.given) }
{
    match world.table.session(s) {
        Some(session) => handled_of(session, h),
        None => None,
    }
}

fn too_high(world: &World, s: u64, h: u32) -> Cause
    requires { IsHeld s world.now.table }
    ensures { result ≡ brief.too_high ((seen world.now).sessions s).traffic h }
{
    match world.table.session(s) {
        Some(session) => Cause::TooHigh {
            h,
            kept: session.own.queue.kept().0,
            sent: session.own.queue.sent().0,
        },
        None => Cause::Lost,
    }
}

fn hear(world: &mut World, w: u32, s: u64, h: u32) -> Reply
    requires line { w < length world.old.table.lines }
    requires answered { length world.old.answers.items ≡ length world.old.table.lines }
    requires tied { IsTied world.old.table }
    requires small { IsFew (2 ^ 64 - 2) world.old.table }
    requires held { IsHeldBy w s world.old.table }
    ensures { Ends (acks ((seen world.old).sessions s).counts s h ((seen world.old).sessions s).traffic) 0 result world.old world.new }
{
    if !counts(world, s) {
        return Reply::Done;
    }
    match handled(world, s, h) {
        Some(n) => {
            world.ack(s, h, n);
            Reply::Done
        }
        None => {
            let cause = too_high(world, s, h);
            world.end_held(w, s, cause);
            Reply::Over(cause)
        }
    }
}

/// What the client says of the stanzas that it handled, once it is checked.
pub(crate) fn acknowledge(world: &mut World, w: u32, h: u32, moment: u64) -> Reply
    requires line { w < length world.old.table.lines }
    requires answered { length world.old.answers.items ≡ length world.old.table.lines }
    requires moment { moment ≤ last_moment }
    requires tied { IsTied world.old.table }
    requires small { IsFew (2 ^ 64 - 2) world.old.table }
    ensures { (k : Kept) → k.world ≡ seen world.old → k.head.moment ≡ moment → Ends (verdict k (Event.Ack w h)) 0 result world.old world.new }
{
    match check(world, &TO_ACK, w, moment) {
        Pass::Stop(reply) => reply,
        Pass::Holds { session, .. } => hear(world, w, session, h),
        _ => Reply::Unready,
    }
}
