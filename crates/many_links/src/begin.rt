//! How a connection begins and goes on, at whatever place.

ghost use Rattle.std.specs.Prelude.{◌≡◌, [], ℕ, List, Bool, Option, IfOk, is_none};
ghost use Rattle.account_book.specs.Lists.{Book};
ghost use Rattle.outside.specs.Tapes.{Mark};
ghost use Rattle.turn_lock.specs.Histories.{StartsWith};
ghost use Rattle.house_model.specs.Histories.{Turn};
ghost use Rattle.hall.specs.Desks.{turns_of};
ghost use Rattle.conn_flow.specs.Duties.{Duty, Site};
ghost use Rattle.conn_flow.specs.Flows.{fresh};
ghost use Rattle.flow_laws.specs.Standing.{Place, duty};
ghost use Rattle.conn_serve.specs.Connections.{site_of};
ghost use Rattle.conn_serve.specs.Serving.{Concluded, IsAt, IsOpened, IsStanding, Tale, marked_end, tale};
ghost use Rattle.many_links.specs.Beginning.{Began, EndsWanting, GoesOrEnds, Named, marked_round, marked_start};
ghost use Rattle.many_links.specs.Ringing.{OneRound};

use account_book::Accounts;
use conn_asks::Ended;
use conn_flow::{Flow, Want};
use conn_serve::{Conn, Ears, End, Owed, Round};
use hall::Desk;
use jid_core::Part;
use outside::{Clock, Dice, Filled, Link};
use stanza_tree::NoMemory;
use std::alloc::Global;
use std::sync::Wait;

/// A connection with its flow, of which nothing was read yet.
fn equip(
    alloc: Global,
    line: u32,
    domain: &Part,
    dice: [u8; 16],
    moment: u64,
) -> Result<Conn, NoMemory>
    ensures flow { IfOk result (λ conn. conn.flow ≡ fresh line domain.now dice moment) }
    ensures ears { IfOk result (λ conn. conn.ears ≡ []) }
    ensures left { IfOk result (λ conn. conn.left ≡ []) }
{
    let flow = Flow::new(alloc, line, domain, dice, moment)?;
    let ears = Ears::new(alloc);
    let left = Owed::new(alloc);
    Ok(Conn { flow, ears, left })
}

/// A connection of which the house was told, with the id of its first stream; or how it was over.
fn name<D: Desk, I: Dice>(
    alloc: Global,
    desk: &D,
    pass: &D::Pass,
    dice: &mut I,
    opened: u64,
) -> Result<Conn, End>
    ensures mark { (marked : Bool) → marked_start result marked ≡ marked }
    ensures named { (o : Site) (accounts : Book) (v : Duty) (tape : Option (List Mark)) (turns : List Turn) (moments : Option (List ℕ)) (faults ends : ℕ)
        → o ≡ site_of (D.line pass.now) (D.opening desk.now).head.domain.domain accounts → IsOpened o opened v
        → Named o (tale tape turns moments (I.drawn dice.old) faults ends (I.faults dice.old)) v
        (tale tape turns moments (I.drawn dice.new) faults ends (I.faults dice.new)) result }
{
    let mut first = [0u8; 16];
    match dice.fill(&mut first) {
        Filled::Full => {}
        Filled::Failed => return Err(End::Over(Ended::DiceFault, opened)),
    }
    match equip(alloc, D::number(pass), &desk.domain().domain, first, opened) {
        Ok(conn) => Ok(conn),
        Err(_) => Err(End::Over(Ended::NoMemory, opened)),
    }
}

/// The house is told of a connection at the line of the pass, which begins; or how it was over at once.
pub(crate) fn start<W: Wait, D: Desk, C: Clock, I: Dice>(
    rt: &W,
    alloc: Global,
    desk: &D,
    pass: &mut D::Pass,
    clock: &mut C,
    dice: &mut I,
) -> Result<Conn, End>
    requires pass { D.came_from desk.now pass.old }
    ensures pass { D.came_from desk.now pass.new }
    ensures line { D.line pass.new ≡ D.line pass.old }
    ensures history { StartsWith (D.seen pass.new) (D.seen pass.old) }
    ensures mark { D.marked pass.new ≡ marked_start result (D.marked pass.old) }
    ensures began { (accounts : Book) (tape : Option (List Mark)) (faults ends : ℕ)
        → Began (site_of (D.line pass.old) (D.opening desk.now).head.domain.domain accounts) (C.told clock.old)
        (tale tape (turns_of (D.line pass.old) (D.seen pass.old)) (C.told clock.new) (I.drawn dice.old) faults ends (I.faults dice.old))
        (tale tape (turns_of (D.line pass.old) (D.seen pass.new)) (C.told clock.new) (I.drawn dice.new) faults ends (I.faults dice.new)) result }
{
    let opened = clock.moment();
    match desk.open_line(rt, pass) {
        Ok(_) => name(alloc, desk, pass, dice, opened),
        Err(_) => Err(End::NoTurn),
    }
}

/// A round of a connection: how it was over, where it was. One that has more to do rings its own line.
pub(crate) fn go_on<W: Wait, D: Desk, L: Link, C: Clock, I: Dice>(
    rt: &W,
    alloc: Global,
    desk: &D,
    pass: &mut D::Pass,
    accounts: &Accounts,
    link: &mut L,
    clock: &mut C,
    dice: &mut I,
    conn: &mut Conn,
    said: &mut Owed,
) -> Option<End>
    requires pass { D.came_from desk.now pass.old }
    requires stands { IsStanding (D.line pass.old) accounts.now conn.old.flow conn.old.ears conn.old.left }
    requires said { said.old ≡ [] }
    ensures pass { D.came_from desk.now pass.new }
    ensures line { D.line pass.new ≡ D.line pass.old }
    ensures history { StartsWith (D.seen pass.new) (D.seen pass.old) }
    ensures said { said.new ≡ [] }
    ensures mark { D.marked pass.new ≡ marked_round result (D.marked pass.old) }
    ensures round { OneRound (C.told clock.old) (C.told clock.new) (is_none result) }
    ensures went { (o : Site) (p : Place) → o.line ≡ D.line pass.old → o.accounts ≡ accounts.now
        → IsAt o p conn.old.flow conn.old.ears conn.old.left
        → GoesOrEnds o (tale (L.tape link.old) (turns_of (D.line pass.old) (D.seen pass.old)) (C.told clock.old) (I.drawn dice.old) (L.faults link.old)
        (L.ends link.old) (I.faults dice.old)) (duty o p)
        (tale (L.tape link.new) (turns_of (D.line pass.old) (D.seen pass.new)) (C.told clock.new) (I.drawn dice.new) (L.faults link.new)
        (L.ends link.new) (I.faults dice.new)) conn.new.flow conn.new.ears conn.new.left result }
{
    match conn.round(rt, alloc, desk, pass, accounts, link, clock, dice, said) {
        Round::Goes => None,
        Round::Later => None,
        Round::More => {
            link.ring(D::number(pass));
            None
        }
        Round::Ends(ended, moment) => Some(End::Over(ended, moment)),
        Round::Exhausts => Some(End::NoTurn),
    }
}

/// How a connection ends that wanted this and goes on no more.
fn end_of(want: Want) -> Ended
    ensures { EndsWanting want result }
{
    match want {
        Want::Say(_) => Ended::NoMemory,
        Want::Submit(_) => Ended::NoMemory,
        Want::NeedDice => Ended::NoMemory,
        Want::Await => Ended::NoMemory,
        Want::Finish(ended) => ended,
    }
}

/// How a connection ends that goes on no more: as its flow wants, where it is over; and else as where memory is wanting. What is owed stays unsaid.
pub(crate) fn give_notice(conn: &mut Conn, accounts: &Accounts) -> End
    ensures mark { (marked : Bool) → marked_end result marked ≡ marked }
    ensures ended { (o : Site) (p : Place) (a : Tale) → o.accounts ≡ accounts.now → IsAt o p conn.old.flow conn.old.ears conn.old.left
        → Concluded o a (duty o p) a result }
{
    let moment = conn.flow.moment();
    if !conn.left.is_empty() {
        return End::Over(Ended::NoMemory, moment);
    }
    match conn.flow.next(accounts) {
        Ok(want) => End::Over(end_of(want), conn.flow.moment()),
        Err(_) => End::Over(Ended::NoMemory, moment),
    }
}
