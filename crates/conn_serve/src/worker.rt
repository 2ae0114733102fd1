//! A worker: it serves the links of a door, one after the other.

ghost use Rattle.std.specs.Prelude.{◌≡◌, ◌≤◌, ◌++◌};
ghost use Rattle.turn_lock.specs.Histories.{StartsWith};
ghost use Rattle.outside.specs.Doors.{reached};
ghost use Rattle.house_model.specs.Promises.{Safe};
ghost use Rattle.hall.specs.Desks.{turns_of};
ghost use Rattle.conn_serve.specs.Connections.{site_of};
ghost use Rattle.conn_serve.specs.Serving.{Attended, EndsNow};
ghost use Rattle.conn_serve.specs.Shifts.{Attends, Ends, IsWithin, shift};

use crate::service::serve;
use account_book::Accounts;
use hall::Desk;
use outside::{Came, Clock, Dice, Door, Post};
use std::alloc::Global;
use std::sync::Wait;

/// Why a worker has no more links to serve.
#[derive(Clone, Copy, Debug, PartialEq, Eq)]
pub enum Worked {
    /// As many links as the door's quota came.
    Shut,
    /// The door failed.
    DoorFault,
}

/// Serves the next link, or says why there is none.
fn attend<W: Wait, D: Desk, G: Door, C: Clock, I: Dice>(
    rt: &W,
    alloc: Global,
    desk: &D,
    pass: &mut D::Pass,
    accounts: &Accounts,
    post: &mut Post<G, C, I>,
) -> Option<Worked>
    requires pass { D.came_from desk.now pass.old }
    ensures pass { D.came_from desk.now pass.new }
    ensures line { D.line pass.new ≡ D.line pass.old }
    ensures history { StartsWith (D.seen pass.new) (D.seen pass.old) }
    ensures quota { G.quota post.new.door ≡ G.quota post.old.door }
    ensures within { IsWithin (G.quota post.old.door) (G.links post.old.door) → IsWithin (G.quota post.new.door) (G.links post.new.door) }
    ensures kept { G.faults post.old.door ≤ G.faults post.new.door }
    ensures ends { EndsNow result (reached (G.quota post.new.door) (G.links post.new.door)) (G.faults post.old.door) (G.faults post.new.door) }
    ensures attended { Attended (site_of (D.line pass.old) (D.opening desk.now).head.domain.domain accounts.now)
        (shift (G.tapes post.old.door) (turns_of (D.line pass.old) (D.seen pass.old)) (C.told post.old.clock) (I.drawn post.old.dice) (G.links post.old.door)
        (I.faults post.old.dice) (D.marked pass.old))
        (shift (G.tapes post.new.door) (turns_of (D.line pass.old) (D.seen pass.new)) (C.told post.new.clock) (I.drawn post.new.dice) (G.links post.new.door)
        (I.faults post.new.dice) (D.marked pass.new)) result }
{
    match post.door.accept(rt) {
        Came::Link(mut link) => {
            let clock = &mut post.clock;
            let dice = &mut post.dice;
            serve(rt, alloc, desk, pass, accounts, &mut link, clock, dice);
            post.door.done(link);
            None
        }
        Came::Shut => Some(Worked::Shut),
        Came::Failed => Some(Worked::DoorFault),
    }
}

/// Serves the links of the post's door at the line of the pass, one after the other, until the door shuts or fails: each came without marks, went
/// as a connection may and ended with a cause, and was given back. Where no turn was refused to the pass, its line gained one piece of turns for
/// each link, and where the door tells its tapes each piece goes with its tape. What the pass has seen is legal, and all that is promised of legal
/// histories holds of it. Never returns if the door hands out links for ever, or a link goes on for ever.
pub fn work<W: Wait, D: Desk, G: Door, C: Clock, I: Dice>(
    rt: &W,
    alloc: Global,
    desk: &D,
    pass: &mut D::Pass,
    accounts: &Accounts,
    post: &mut Post<G, C, I>,
) -> Worked
    requires pass { D.came_from desk.now pass.old }
    ensures pass { D.came_from desk.now pass.new }
    ensures line { D.line pass.new ≡ D.line pass.old }
    ensures history { StartsWith (D.seen pass.new) (D.seen pass.old) }
    ensures quota { G.quota post.new.door ≡ G.quota post.old.door }
    ensures within { IsWithin (G.quota post.old.door) (G.links post.old.door) → IsWithin (G.quota post.new.door) (G.links post.new.door) }
    ensures kept { G.faults post.old.door ≤ G.faults post.new.door }
    ensures ends { Ends result (reached (G.quota post.new.door) (G.links post.new.door)) (G.faults post.old.door) (G.faults post.new.door) }
    ensures serves { Attends (site_of (D.line pass.old) (D.opening desk.now).head.domain.domain accounts.now)
        (shift (G.tapes post.old.door) (turns_of (D.line pass.old) (D.seen pass.old)) (C.told post.old.clock) (I.drawn post.old.dice) (G.links post.old.door)
        (I.faults post.old.dice) (D.marked pass.old))
        (shift (G.tapes post.new.door) (turns_of (D.line pass.old) (D.seen pass.new)) (C.told post.new.clock) (I.drawn post.new.dice) (G.links post.new.door)
        (I.faults post.new.dice) (D.marked pass.new)) }
    ensures safe { ∥ Safe (D.opening desk.now) (D.earlier desk.now ++ D.seen pass.new) ∥₁ }
{
    for _ in rt.forever() {
        match attend(rt, alloc, desk, pass, accounts, post) {
            Some(worked) => return worked,
            None => {}
        }
    }
    unreachable!()
}
