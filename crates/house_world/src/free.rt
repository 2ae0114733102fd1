//! How a line changes that no session holds.
ghost use Rattle.std.specs.Prelude.{◌≡◌, ℕ, ◌+◌, ◌-◌, ◌^◌, ◌<◌, ◌≤◌, [], ◌∷◌, length, true, false};
ghost use Rattle.session_table.specs.declared.line.Line.{Line};
ghost use Rattle.session_table.specs.Tables.{conn_of, is_empty, line_of};
ghost use Rattle.house_model.specs.Effects.{At, Close, Leave, Open};
ghost use Rattle.house_world.specs.Wholes.{IsFew, IsFreeLine, IsTied};
ghost use Rattle.house_world.specs.Worlds.{Did};

use crate::world::World;
use sm_resume::Cause;

impl World {
    /// No connection is at the line any more.
    pub(crate) fn leave_free(&mut self, w: u32)
        requires line { w < length self.old.table.lines }
        requires answered { length self.old.answers.items ≡ length self.old.table.lines }
        requires tied { IsTied self.old.table }
        requires free { IsFreeLine w self.old.table }
        ensures { Did (At w Leave ∷ []) 0 self.old self.new }
    {
        let _ = self.table.session(0);
        self.table.clear(w);
        self.answers[w as usize].clear();
    }

    /// The connection is over. There is one. Costs the answers that wait.
    pub fn close_free(&mut self, w: u32, cause: Cause)
        requires line { w < length self.old.table.lines }
        requires conn { is_empty (line_of w self.old.table) ≡ false }
        requires answered { length self.old.answers.items ≡ length self.old.table.lines }
        requires tied { IsTied self.old.table }
        requires free { IsFreeLine w self.old.table }
        ensures { Did (At w (Close (conn_of (line_of w self.old.table)) cause) ∷ []) 0 self.old self.new }
    {
        let _ = self.table.session(0);
        self.table.line_over(w, cause);
        self.answers[w as usize].clear();
    }

    /// The next connection is at the line.
    pub(crate) fn open_free(&mut self, w: u32) -> u64
        requires line { w < length self.old.table.lines }
        requires answered { length self.old.answers.items ≡ length self.old.table.lines }
        requires few { IsFew (2 ^ 64 - 2) self.old.table }
        requires tied { IsTied self.old.table }
        requires free { IsFreeLine w self.old.table }
        ensures number { result ≡ self.old.table.opened + 1 }
        ensures did { Did (Open w ∷ []) 1 self.old self.new }
    {
        self.answers[w as usize].clear();
        self.table.open_conn(w)
    }
}
