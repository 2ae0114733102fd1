//! Serves a connection.

ghost use Rattle.std.specs.Prelude.{◌≡◌, ℕ, List, Option, [], ◌++◌, IfOk};
ghost use Rattle.account_book.specs.Lists.{Book};
ghost use Rattle.turn_lock.specs.Histories.{StartsWith};
ghost use Rattle.house_model.specs.Promises.{Safe};
ghost use Rattle.hall.specs.Desks.{Served, marked_by, turns_of};
ghost use Rattle.conn_flow.specs.Duties.{Duty, Site};
ghost use Rattle.conn_flow.specs.Flows.{fresh};
ghost use Rattle.conn_serve.specs.Connections.{Caused, Went, counts_of, marked_at, site_of, told};
ghost use Rattle.conn_serve.specs.Serving.{Concluded, Gone, IsOpened, MarkedLeaving, Tale, last_of, marked_end, tale};

use crate::converse::converse;
use crate::ears::Ears;
use crate::enter::ring_stirred;
use crate::owed::Owed;
use crate::round::Conn;
use crate::turn::End;
use account_book::Accounts;
use conn_asks::Ended;
use conn_flow::Flow;
use hall::{Desk, DeskFault};
use house_model::Reply;
use jid_core::Part;
use outside::{Clock, Dice, Filled, Link};
use stanza_tree::NoMemory;
use std::alloc::Global;
use std::sync::Wait;

/// What serves a connection: its flow with what is read, and what gathers what is said.
fn equip(
    alloc: Global,
    line: u32,
    domain: &Part,
    dice: [u8; 16],
    moment: u64,
) -> Result<(Conn, Owed), NoMemory>
    ensures flow { IfOk result (λ made. made.0.flow ≡ fresh line domain.now dice moment) }
    ensures ears { IfOk result (λ made. made.0.ears ≡ []) }
    ensures left { IfOk result (λ made. made.0.left ≡ []) }
    ensures said { IfOk result (λ made. made.1 ≡ []) }
{
    let said = Owed::with_room(alloc)?;
    let ears = Ears::new(alloc);
    let flow = Flow::new(alloc, line, domain, dice, moment)?;
    let left = Owed::new(alloc);
    Ok((Conn { flow, ears, left }, said))
}

/// Serves a connection of which the house was told, from its first stream on.
fn begin<W: Wait, D: Desk, L: Link, C: Clock, I: Dice>(
    rt: &W,
    alloc: Global,
    desk: &D,
    pass: &mut D::Pass,
    accounts: &Accounts,
    link: &mut L,
    clock: &mut C,
    dice: &mut I,
    opened: u64,
) -> End
    requires pass { D.came_from desk.now pass.old }
    ensures pass { D.came_from desk.now pass.new }
    ensures line { D.line pass.new ≡ D.line pass.old }
    ensures history { StartsWith (D.seen pass.new) (D.seen pass.old) }
    ensures mark { D.marked pass.new ≡ marked_end result (D.marked pass.old) }
    ensures ended { (o : Site) (v : Duty) → o ≡ site_of (D.line pass.old) (D.opening desk.now).head.domain.domain accounts.now → IsOpened o opened v
        → Concluded o (tale (L.tape link.old) (turns_of (D.line pass.old) (D.seen pass.old)) (C.told clock.old) (I.drawn dice.old) (L.faults link.old)
        (L.ends link.old) (I.faults dice.old)) v
        (tale (L.tape link.new) (turns_of (D.line pass.old) (D.seen pass.new)) (C.told clock.new) (I.drawn dice.new) (L.faults link.new) (L.ends link.new)
        (I.faults dice.new)) result }
{
    let mut first = [0u8; 16];
    match dice.fill(&mut first) {
        Filled::Full => {}
        Filled::Failed => return End::Over(Ended::DiceFault, opened),
    }
    match equip(alloc, D::number(pass), &desk.domain().domain, first, opened) {
        Ok((mut conn, mut said)) => converse(
            rt, alloc, desk, pass, accounts, link, clock, dice, &mut conn, &mut said,
        ),
        Err(_) => End::Over(Ended::NoMemory, opened),
    }
}

/// The line is left, closed where the client closed its stream and else dropped.
fn leave<W: Wait, D: Desk>(
    rt: &W,
    desk: &D,
    pass: &mut D::Pass,
    ended: Ended,
    moment: u64,
) -> Result<Reply, DeskFault>
    requires pass { D.came_from desk.now pass.old }
    ensures pass { D.came_from desk.now pass.new }
    ensures line { D.line pass.new ≡ D.line pass.old }
    ensures history { StartsWith (D.seen pass.new) (D.seen pass.old) }
    ensures served { Served (D.line pass.old) (last_of (D.line pass.old) ended moment) [] result (D.seen pass.old) (D.seen pass.new) }
    ensures mark { D.marked pass.new ≡ marked_by result (D.marked pass.old) }
{
    match ended {
        Ended::Closed => desk.close_line(rt, pass, moment),
        _ => desk.drop_line(rt, pass, moment),
    }
}

/// The line is left, if the connection ended while turns were left: how it ended then.
pub fn conclude<W: Wait, D: Desk, L: Link>(
    rt: &W,
    desk: &D,
    pass: &mut D::Pass,
    link: &mut L,
    end: End,
) -> Ended
    requires pass { D.came_from desk.now pass.old }
    ensures pass { D.came_from desk.now pass.new }
    ensures line { D.line pass.new ≡ D.line pass.old }
    ensures history { StartsWith (D.seen pass.new) (D.seen pass.old) }
    ensures mark { MarkedLeaving end result (D.marked pass.old) (D.marked pass.new) }
    ensures gone { (domain : List ℕ) (accounts : Book) (a : Tale) (v : Duty) (moments : Option (List ℕ)) (drawn : Option (List (List ℕ))) (dice : ℕ)
        → Concluded (site_of (D.line pass.old) domain accounts) a v
        (tale (L.tape link.old) (turns_of (D.line pass.old) (D.seen pass.old)) moments drawn (L.faults link.old) (L.ends link.old) dice) end
        → Gone (site_of (D.line pass.old) domain accounts) a v
        (tale (L.tape link.new) (turns_of (D.line pass.old) (D.seen pass.new)) moments drawn (L.faults link.new) (L.ends link.new) dice) result }
{
    match end {
        End::NoTurn => Ended::Spent,
        End::Over(ended, moment) => match leave(rt, desk, pass, ended, moment) {
            Ok(_) => {
                ring_stirred(desk, link);
                ended
            }
            Err(_) => Ended::Spent,
        },
    }
}

/// Serves the connection of a link at the line of the pass, from its coming to its end: what was heard, said, entered, drawn and timed is a
/// connection as it may go (`Went`), the turns that the pass saw are legal after it, and all that is promised of legal histories holds of
/// them. The answer has its cause: a move of the connection made it. An end by the link or the dice comes only where their counts rose, and
/// `Spent` exactly where a turn was refused to the pass, which has its mark then. Never returns if the link goes on for ever.
pub fn serve<W: Wait, D: Desk, L: Link, C: Clock, I: Dice>(
    rt: &W,
    alloc: Global,
    desk: &D,
    pass: &mut D::Pass,
    accounts: &Accounts,
    link: &mut L,
    clock: &mut C,
    dice: &mut I,
) -> Ended
    requires pass { D.came_from desk.now pass.old }
    ensures pass { D.came_from desk.now pass.new }
    ensures line { D.line pass.new ≡ D.line pass.old }
    ensures history { StartsWith (D.seen pass.new) (D.seen pass.old) }
    ensures went { Went (site_of (D.line pass.old) (D.opening desk.now).head.domain.domain accounts.now)
        (told (L.tape link.old) (turns_of (D.line pass.old) (D.seen pass.old)) (C.told clock.old) (I.drawn dice.old))
        (told (L.tape link.new) (turns_of (D.line pass.old) (D.seen pass.new)) (C.told clock.new) (I.drawn dice.new)) result }
    ensures mark { D.marked pass.new ≡ marked_at result (D.marked pass.old) }
    ensures cause { Caused result (counts_of (L.faults link.old) (L.ends link.old) (I.faults dice.old))
        (counts_of (L.faults link.new) (L.ends link.new) (I.faults dice.new)) }
    ensures safe { ∥ Safe (D.opening desk.now) (D.earlier desk.now ++ D.seen pass.new) ∥₁ }
{
    let opened = clock.moment();
    match desk.open_line(rt, pass) {
        Ok(_) => {
            let end = begin(rt, alloc, desk, pass, accounts, link, clock, dice, opened);
            conclude(rt, desk, pass, link, end)
        }
        Err(_) => Ended::Spent,
    }
}
