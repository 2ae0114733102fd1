//! How a session loses its line, and how a line changes that no session holds.
ghost use Rattle.std.specs.Prelude.{◌≡◌, ℕ, ◌+◌, ◌-◌, ◌^◌, ◌<◌, ◌≤◌, ◌++◌, [], ◌∷◌, length, true, false, Some};
ghost use Rattle.session_table.specs.Sessions.{SessionRecord};
ghost use Rattle.session_table.specs.Tables.{changed, conn_of, is_empty, is_there, line_of, session_of};
ghost use Rattle.house_model.specs.Effects.{At, Close, Leave, On, Open};
ghost use Rattle.house_model.specs.Gate.{closed, left_by};
ghost use Rattle.house_model.specs.Sessions.{End};
ghost use Rattle.house_model.specs.Steps.{last_moment};
ghost use Rattle.house_world.specs.Wholes.{HasSpare, IsFew, IsFreeLine, IsHeldBy, IsTied};
ghost use Rattle.house_world.specs.Worlds.{Did, left_at, released, seen};

use crate::world::World;
use session_table::Line;
use sm_resume::Cause;

/// How long a session that lost its connection can be resumed, in seconds: the five minutes that the answer to `enable` tells (XEP-0198, 3).
pub(crate) const PATIENCE_SECONDS: u64 = 300;

/// The same, in milliseconds.
const PATIENCE: u64 = 1000 * PATIENCE_SECONDS;

impl World {
    /// The session ends, and so does the connection that holds it. Costs the answers that wait.
    pub fn end_held(&mut self, w: u32, s: u64, cause: Cause)
        requires line { w < length self.old.table.lines }
        requires answered { length self.old.answers.items ≡ length self.old.table.lines }
        requires tied { IsTied self.old.table }
        requires held { IsHeldBy w s self.old.table }
        ensures did { Did (On s (End cause) ∷ []) 0 self.old self.new }
        ensures free { IsFreeLine w self.new.table }
        ensures book { self.new.book ≡ self.old.book }
        ensures rooms { self.new.rooms ≡ self.old.rooms }
        ensures archives { self.new.archives ≡ self.old.archives }
        ensures room { self.new.table.spare ≡ self.old.table.spare }
        ensures queues { (n r : ℕ) → HasSpare n r self.old.table → HasSpare n r self.new.table }
    {
        let _ = self.table.session(s);
        self.table.mark_over(s, cause);
        self.table.line_over(w, cause);
        self.answers[w as usize].clear();
    }

    // The session's connection is lost: with an id it can be resumed until the deadline (XEP-0198, 5). Its line is the caller's.
    fn release(&mut self, s: u64, moment: u64)
        requires moment { moment ≤ last_moment }
        requires there { is_there s self.old.table ≡ true }
        ensures table { self.new.table ≡ changed s (released moment) self.old.table }
        ensures answers { self.new.answers ≡ self.old.answers }
        ensures book { self.new.book ≡ self.old.book }
        ensures rooms { self.new.rooms ≡ self.old.rooms }
        ensures archives { self.new.archives ≡ self.old.archives }
    {
        let Some(session) = self.table.session(s) else {
            return;
        };
        if session.own.resume_id.is_some() {
            self.table.detach(s, moment + PATIENCE);
        } else {
            self.table.mark_over(s, Cause::Lost);
        }
    }

    /// The connection of the session is lost, and none is at its line.
    pub(crate) fn leave_bound(&mut self, w: u32, s: u64, moment: u64)
        requires line { w < length self.old.table.lines }
        requires answered { length self.old.answers.items ≡ length self.old.table.lines }
        requires moment { moment ≤ last_moment }
        requires tied { IsTied self.old.table }
        requires held { IsHeldBy w s self.old.table }
        ensures { Did (On s (left_by ((seen self.old).sessions s).rest.resume_id moment) ∷ At w Leave ∷ []) 0 self.old self.new }
    {
        let _ = self.table.session(s);
        self.release(s, moment);
        self.table.clear(w);
        self.answers[w as usize].clear();
    }

    /// The session is left, and its connection is over. Costs the answers that wait.
    pub fn close_bound(&mut self, w: u32, s: u64, moment: u64, cause: Cause)
        requires line { w < length self.old.table.lines }
        requires answered { length self.old.answers.items ≡ length self.old.table.lines }
        requires moment { moment ≤ last_moment }
        requires tied { IsTied self.old.table }
        requires held { IsHeldBy w s self.old.table }
        ensures { Did (On s (left_by ((seen self.old).sessions s).rest.resume_id moment) ∷ At w
            (Close (conn_of (line_of w self.old.table)) cause) ∷ []) 0 self.old self.new }
    {
        let _ = self.table.session(s);
        self.release(s, moment);
        self.table.line_over(w, cause);
        self.answers[w as usize].clear();
    }

    /// The session is left, and the next connection is at its line.
    pub(crate) fn open_bound(&mut self, w: u32, s: u64, moment: u64) -> u64
        requires line { w < length self.old.table.lines }
        requires answered { length self.old.answers.items ≡ length self.old.table.lines }
        requires moment { moment ≤ last_moment }
        requires few { IsFew (2 ^ 64 - 2) self.old.table }
        requires tied { IsTied self.old.table }
        requires held { IsHeldBy w s self.old.table }
        ensures number { result ≡ self.old.table.opened + 1 }
        ensures did { Did (On s (left_by ((seen self.old).sessions s).rest.resume_id moment) ∷ Open w ∷ []) 1 self.old self.new }
    {
        let _ = self.table.session(s);
        self.release(s, moment);
        self.answers[w as usize].clear();
        self.table.open_conn(w)
    }
}

impl World {
    /// The next connection is at the line; what was there is left. Costs the answers that wait.
    pub fn open(&mut self, w: u32, moment: u64) -> u64
        requires line { w < length self.old.table.lines }
        requires answered { length self.old.answers.items ≡ length self.old.table.lines }
        requires moment { moment ≤ last_moment }
        requires few { IsFew (2 ^ 64 - 2) self.old.table }
        requires tied { IsTied self.old.table }
        ensures number { result ≡ self.old.table.opened + 1 }
        ensures did { Did (left_at (seen self.old) moment (line_of w self.old.table) ++ Open w ∷ []) 1 self.old self.new }
    {
        match *self.table.line(w) {
            Line::Bound { session, .. } => self.open_bound(w, session, moment),
            _ => self.open_free(w),
        }
    }

    /// The connection at the line is lost. Costs the answers that wait.
    pub fn leave(&mut self, w: u32, moment: u64)
        requires line { w < length self.old.table.lines }
        requires answered { length self.old.answers.items ≡ length self.old.table.lines }
        requires moment { moment ≤ last_moment }
        requires tied { IsTied self.old.table }
        ensures { Did (left_at (seen self.old) moment (line_of w self.old.table) ++ At w Leave ∷ []) 0 self.old self.new }
    {
        match *self.table.line(w) {
            Line::Bound { session, .. } => self.leave_bound(w, session, moment),
            _ => self.leave_free(w),
        }
    }

    /// The client closed its stream: the session ends, and no connection is at the line. Costs the answers that wait.
    pub fn quit(&mut self, w: u32)
        requires line { w < length self.old.table.lines }
        requires answered { length self.old.answers.items ≡ length self.old.table.lines }
        requires tied { IsTied self.old.table }
        ensures { Did (closed (line_of w self.old.table) ++ At w Leave ∷ []) 0 self.old self.new }
    {
        match *self.table.line(w) {
            Line::Bound { session, .. } => {
                self.end_held(w, session, Cause::Closed);
                self.leave_free(w);
            }
            _ => self.leave_free(w),
        }
    }
}
