//! The checks before an event: no connection, one that is over, one that is not at the stage for this, or one for which too
//! many answers wait already.
ghost use Rattle.std.specs.Prelude.{◌≡◌, ℕ, ◌<◌, ◌≤◌, ◌&&◌, ◌++◌, [], ◌∷◌, length, true, false, nat_le, slice_index_or};
ghost use Rattle.sm_resume.specs.declared.decision.Cause.{Cause};
ghost use Rattle.archive_table.specs.Tables.{archives_of};
ghost use Rattle.session_table.specs.Tables.{conn_of, is_empty, line_of};
ghost use Rattle.house_model.specs.Effects.{At, Close};
ghost use Rattle.house_model.specs.Gate.{gate_at};
ghost use Rattle.house_model.specs.States.{Kept};
ghost use Rattle.house_model.specs.Steps.{last_moment};
ghost use Rattle.house_core.specs.Gates.{Found, Passes, look_at, looks, needs_of};
ghost use Rattle.house_world.specs.Wholes.{IsFew, IsTied};
ghost use Rattle.house_world.specs.Worlds.{Did, left_at, seen};

use house_model::Reply;
use house_world::{MOST_ANSWERS, World};
use session_table::Line;
use sm_resume::Cause;

/// What comes of the checks: the reply, or what the event goes on with.
#[derive(Clone, Copy)]
pub(crate) enum Pass {
    Stop(Reply),
    /// A connection that has not logged in.
    Waits,
    /// One of the user at this place.
    Knows { conn: u64, user: u32 },
    /// One that holds this session.
    Holds { conn: u64, session: u64 },
}

/// The stages that an event may come at, and whether it may add an answer.
#[derive(Clone, Copy)]
pub(crate) struct Needs {
    pub(crate) fresh: bool,
    pub(crate) logged: bool,
    pub(crate) bound: bool,
    pub(crate) answers: bool,
}

fn looks(fits: bool, full: bool, pass: Pass) -> Option<Pass>
    ensures { result ≡ looks fits full pass }
{
    if !fits {
        return Some(Pass::Stop(Reply::Unready));
    }
    if full { None } else { Some(pass) }
}

// What the checks of a line find; none where too many answers wait.
fn look(world: &World, needs: &Needs, w: u32) -> Option<Pass>
    requires line { w < length world.now.table.lines }
    requires answered { length world.now.answers.items ≡ length world.now.table.lines }
    ensures { result ≡ look_at needs.now (line_of w world.now.table) (needs.now.answers && nat_le 8 (length (slice_index_or world.now.answers.items w []))) }
{
    let full = needs.answers && world.answers[w as usize].is_full();
    match *world.table.line(w) {
        Line::Empty => Some(Pass::Stop(Reply::Absent)),
        Line::Over { cause, .. } => Some(Pass::Stop(Reply::Over(cause))),
        Line::Fresh { .. } => looks(needs.fresh, full, Pass::Waits),
        Line::Logged { conn, user } => looks(needs.logged, full, Pass::Knows { conn, user }),
        Line::Bound { conn, session } => looks(needs.bound, full, Pass::Holds { conn, session }),
    }
}

// A connection for which too many answers wait is over, and its session is left.
fn flood(world: &mut World, w: u32, moment: u64)
    requires line { w < length world.old.table.lines }
    requires conn { is_empty (line_of w world.old.table) ≡ false }
    requires answered { length world.old.answers.items ≡ length world.old.table.lines }
    requires moment { moment ≤ last_moment }
    requires tied { IsTied world.old.table }
    ensures { Did (left_at (seen world.old) moment (line_of w world.old.table) ++ At w
        (Close (conn_of (line_of w world.old.table)) (Cause.Flood 8)) ∷ []) 0 world.old world.new }
{
    match *world.table.line(w) {
        Line::Bound { session, .. } => world.close_bound(
            w,
            session,
            moment,
            Cause::Flood(MOST_ANSWERS),
        ),
        _ => world.close_free(w, Cause::Flood(MOST_ANSWERS)),
    }
}

/// Checks a line. A connection for which too many answers wait is over, and its session is left.
pub(crate) fn check(world: &mut World, needs: &Needs, w: u32, moment: u64) -> Pass
    requires line { w < length world.old.table.lines }
    requires answered { length world.old.answers.items ≡ length world.old.table.lines }
    requires moment { moment ≤ last_moment }
    requires tied { IsTied world.old.table }
    ensures tied { IsTied world.new.table }
    ensures lines { length world.new.table.lines ≡ length world.old.table.lines }
    ensures answered { length world.new.answers.items ≡ length world.old.answers.items }
    ensures few { (turns : ℕ) → IsFew turns world.old.table → IsFew turns world.new.table }
    ensures rooms { world.new.rooms ≡ world.old.rooms }
    ensures archives { archives_of world.new.archives ≡ archives_of world.old.archives }
    ensures found { Found needs.now result world.new w }
    ensures passes { (k : Kept) → k.world ≡ seen world.old → k.head.moment ≡ moment
        → Passes result (gate_at (needs_of needs.now) k w (k.world.lines w) (k.world.lines w).stage) world.old world.new }
{
    match look(world, needs, w) {
        Some(pass) => pass,
        None => {
            flood(world, w, moment);
            Pass::Stop(Reply::Over(Cause::Flood(MOST_ANSWERS)))
        }
    }
}
