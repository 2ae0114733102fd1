//! The loop of a connection.

ghost use Rattle.std.specs.Prelude.{◌≡◌, []};
ghost use Rattle.turn_lock.specs.Histories.{StartsWith};
ghost use Rattle.hall.specs.Desks.{turns_of};
ghost use Rattle.conn_flow.specs.Duties.{Site};
ghost use Rattle.flow_laws.specs.Standing.{Place, duty};
ghost use Rattle.conn_serve.specs.Serving.{Concluded, IsAt, IsStanding, marked_end, tale};

use crate::owed::Owed;
use crate::round::Conn;
use crate::turn::{End, Round};
use account_book::Accounts;
use hall::Desk;
use outside::{Clock, Dice, Link};
use std::alloc::Global;
use std::sync::Wait;

/// Serves a connection until it ends, round after round.
pub(crate) fn converse<W: Wait, D: Desk, L: Link, C: Clock, I: Dice>(
    rt: &W,
    alloc: Global,
    desk: &D,
    pass: &mut D::Pass,
    accounts: &Accounts,
    link: &mut L,
    clock: &mut C,
    dice: &mut I,
    conn: &mut Conn,
    said: &mut Owed,
) -> End
    requires pass { D.came_from desk.now pass.old }
    requires stands { IsStanding (D.line pass.old) accounts.now conn.old.flow conn.old.ears conn.old.left }
    requires said { said.old ≡ [] }
    ensures pass { D.came_from desk.now pass.new }
    ensures line { D.line pass.new ≡ D.line pass.old }
    ensures history { StartsWith (D.seen pass.new) (D.seen pass.old) }
    ensures mark { D.marked pass.new ≡ marked_end result (D.marked pass.old) }
    ensures ended { (o : Site) (p : Place) → o.line ≡ D.line pass.old → o.accounts ≡ accounts.now
        → IsAt o p conn.old.flow conn.old.ears conn.old.left
        → Concluded o (tale (L.tape link.old) (turns_of (D.line pass.old) (D.seen pass.old)) (C.told clock.old) (I.drawn dice.old) (L.faults link.old)
        (L.ends link.old) (I.faults dice.old)) (duty o p)
        (tale (L.tape link.new) (turns_of (D.line pass.old) (D.seen pass.new)) (C.told clock.new) (I.drawn dice.new) (L.faults link.new)
        (L.ends link.new) (I.faults dice.new)) result }
{
    for _ in rt.forever() {
        match conn.round(rt, alloc, desk, pass, accounts, link, clock, dice, said) {
            Round::Goes => {}
            Round::Later => {}
            Round::More => {}
            Round::Ends(ended, moment) => return End::Over(ended, moment),
            Round::Exhausts => return End::NoTurn,
        }
    }
    unreachable!()
}
