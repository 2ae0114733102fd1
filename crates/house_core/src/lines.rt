//! Connections come, log in and go.
ghost use Rattle.std.specs.Prelude.{◌≡◌, ◌<◌, ◌≤◌, ◌+◌, ◌^◌, ◌++◌, ◌∷◌, [], ℕ, List, length, true};
ghost use Rattle.session_table.specs.Tables.{is_fresh, line_of};
ghost use Rattle.house_model.specs.declared.event.Event.{Event};
ghost use Rattle.house_model.specs.States.{Kept, State};
ghost use Rattle.house_model.specs.Lookups.{user_place};
ghost use Rattle.house_model.specs.Steps.{last_moment, logs_in, verdict};
ghost use Rattle.house_model.specs.Histories.{Turn, StandsFor, kept_step, made};
ghost use Rattle.house_core.specs.Houses.{held};
ghost use Rattle.house_core.specs.Logins.{Enters};
ghost use Rattle.house_world.specs.Wholes.{IsTied};
ghost use Rattle.house_world.specs.Worlds.{seen};

use crate::gate::{Needs, Pass, check};
use crate::house::House;
use house_model::Reply;
use house_routing::Users;
use house_world::World;
use jid_core::Part;
use session_table::Line;

const TO_LOGIN: Needs = Needs {
    fresh: true,
    logged: false,
    bound: false,
    answers: false,
};

impl House {
    fn apply_open(&mut self, w: u32) -> Reply
        requires line { w < length self.old.table.lines }
        requires turns { self.old.turns < 2 ^ 63 + 2 ^ 62 }
        ensures state { held self.new ≡ (kept_step (held self.old) (Event.OpenLine w)).state }
        ensures reply { result ≡ (kept_step (held self.old) (Event.OpenLine w)).reply }
    {
        self.turns += 1;
        Reply::Opened(self.world.open(w, self.moment))
    }

    /// A connection came to a line. What is there is left.
    pub fn open_line(&mut self, w: u32) -> Reply
        requires line { w < length self.old.table.lines }
        requires turns { self.old.turns < 2 ^ 63 + 2 ^ 62 }
        ensures state { held self.new ≡ (kept_step (held self.old) (Event.OpenLine w)).state }
        ensures reply { result ≡ (kept_step (held self.old) (Event.OpenLine w)).reply }
        ensures history { (o : State) (h : List Turn) → StandsFor o h (held self.old)
            → StandsFor o (h ++ made (Event.OpenLine w) result [] ∷ []) (held self.new) }
    {
        self.apply_open(w)
    }

    fn apply_login(&mut self, w: u32, user: &Part) -> Reply
        requires line { w < length self.old.table.lines }
        requires turns { self.old.turns < 2 ^ 63 + 2 ^ 62 }
        ensures state { held self.new ≡ (kept_step (held self.old) (Event.Login w user.now)).state }
        ensures reply { result ≡ (kept_step (held self.old) (Event.Login w user.now)).reply }
    {
        self.turns += 1;
        login(&mut self.world, w, &self.users, user, self.moment)
    }

    /// The connection proved that it is this user's. Costs one look in a hash table.
    pub fn login(&mut self, w: u32, user: &Part) -> Reply
        requires line { w < length self.old.table.lines }
        requires turns { self.old.turns < 2 ^ 63 + 2 ^ 62 }
        ensures state { held self.new ≡ (kept_step (held self.old) (Event.Login w user.now)).state }
        ensures reply { result ≡ (kept_step (held self.old) (Event.Login w user.now)).reply }
        ensures history { (o : State) (h : List Turn) → StandsFor o h (held self.old)
            → StandsFor o (h ++ made (Event.Login w user.now) result [] ∷ []) (held self.new) }
    {
        self.apply_login(w, user)
    }

    fn apply_drop(&mut self, w: u32, t: u64) -> Reply
        requires line { w < length self.old.table.lines }
        requires turns { self.old.turns < 2 ^ 63 + 2 ^ 62 }
        ensures state { held self.new ≡ (kept_step (held self.old) (Event.DropLine w t)).state }
        ensures reply { result ≡ (kept_step (held self.old) (Event.DropLine w t)).reply }
    {
        self.turns += 1;
        self.moment = self.later(t);
        match *self.world.table.line(w) {
            Line::Empty => Reply::Absent,
            _ => {
                self.world.leave(w, self.moment);
                Reply::Done
            }
        }
    }

    /// The connection was lost.
    pub fn drop_line(&mut self, w: u32, t: u64) -> Reply
        requires line { w < length self.old.table.lines }
        requires turns { self.old.turns < 2 ^ 63 + 2 ^ 62 }
        ensures state { held self.new ≡ (kept_step (held self.old) (Event.DropLine w t)).state }
        ensures reply { result ≡ (kept_step (held self.old) (Event.DropLine w t)).reply }
        ensures history { (o : State) (h : List Turn) → StandsFor o h (held self.old)
            → StandsFor o (h ++ made (Event.DropLine w t) result [] ∷ []) (held self.new) }
    {
        self.apply_drop(w, t)
    }

    fn apply_close(&mut self, w: u32, t: u64) -> Reply
        requires line { w < length self.old.table.lines }
        requires turns { self.old.turns < 2 ^ 63 + 2 ^ 62 }
        ensures state { held self.new ≡ (kept_step (held self.old) (Event.CloseLine w t)).state }
        ensures reply { result ≡ (kept_step (held self.old) (Event.CloseLine w t)).reply }
    {
        self.turns += 1;
        self.moment = self.later(t);
        match *self.world.table.line(w) {
            Line::Empty => Reply::Absent,
            _ => {
                self.world.quit(w);
                Reply::Done
            }
        }
    }

    /// The client closed its stream (RFC 6120, 4.4). Its session ends.
    pub fn close_line(&mut self, w: u32, t: u64) -> Reply
        requires line { w < length self.old.table.lines }
        requires turns { self.old.turns < 2 ^ 63 + 2 ^ 62 }
        ensures state { held self.new ≡ (kept_step (held self.old) (Event.CloseLine w t)).state }
        ensures reply { result ≡ (kept_step (held self.old) (Event.CloseLine w t)).reply }
        ensures history { (o : State) (h : List Turn) → StandsFor o h (held self.old)
            → StandsFor o (h ++ made (Event.CloseLine w t) result [] ∷ []) (held self.new) }
    {
        self.apply_close(w, t)
    }
}

// The connection at a line is the user's of this name, where there is one.
fn log_among(world: &mut World, w: u32, users: &Users, user: &Part) -> Reply
    requires line { w < length world.old.table.lines }
    requires fresh { is_fresh (line_of w world.old.table) ≡ true }
    requires tied { IsTied world.old.table }
    requires few { length users.now ≤ 65536 }
    ensures { Enters (logs_in w (user_place user.now users.now)) (length users.now) result world.old world.new }
{
    match users.place_of(user) {
        Some(place) => {
            world.log(w, place as u32);
            Reply::Done
        }
        None => Reply::NoUser,
    }
}

// The login of a user, once it is checked.
fn login(world: &mut World, w: u32, users: &Users, user: &Part, moment: u64) -> Reply
    requires line { w < length world.old.table.lines }
    requires answered { length world.old.answers.items ≡ length world.old.table.lines }
    requires moment { moment ≤ last_moment }
    requires tied { IsTied world.old.table }
    requires few { length users.now ≤ 65536 }
    ensures { (k : Kept) → k.world ≡ seen world.old → k.head.moment ≡ moment → k.head.users ≡ users.now
        → Enters (verdict k (Event.Login w user.now)) (length users.now) result world.old world.new }
{
    match check(world, &TO_LOGIN, w, moment) {
        Pass::Stop(reply) => reply,
        Pass::Waits => log_among(world, w, users, user),
        _ => Reply::Unready,
    }
}
