//! The rounds of a connection.

ghost use Rattle.std.specs.Prelude.{◌≡◌, ◌+◌, ℕ, List, [], Option};
ghost use Rattle.outside.specs.Tapes.{Mark};
ghost use Rattle.turn_lock.specs.Histories.{StartsWith};
ghost use Rattle.hall.specs.Desks.{turns_of};
ghost use Rattle.conn_flow.specs.Duties.{Site};
ghost use Rattle.flow_laws.specs.Standing.{Place, duty};
ghost use Rattle.flow_laws.specs.Steps.{handling};
ghost use Rattle.conn_serve.specs.Rounds.{Counts, CountsIf, Passed, ReadOnce, Resumes, Stepped, Turned, Unread, UnreadIf};
ghost use Rattle.conn_serve.specs.Rounds.{marked_next, marked_round, marked_step};
ghost use Rattle.conn_serve.specs.Serving.{IsAt, IsStanding, tale};

use crate::ears::Ears;
use crate::flush::flush;
use crate::listen::{hear_on, read};
use crate::owed::Owed;
use crate::submit::{draw, submit};
use crate::turn::{Next, Round};
use account_book::Accounts;
use conn_asks::Ended;
use conn_flow::{Flow, Want};
use hall::Desk;
use outside::{Clock, Dice, Link};
use std::alloc::Global;
use std::sync::Wait;

/// So many wants are answered before another connection's, of which the last move may still be due. They are so many that what waits for a busy
/// client is given within a round, so that it is then asked for its count.
const STEPS: u64 = 513;

/// What a connection keeps between its rounds.
pub struct Conn {
    pub flow: Flow,
    /// What was read and is still to be heard.
    pub ears: Ears,
    /// What a `Later` left of what is owed, in memory of its own.
    pub left: Owed,
}

impl Drop for Conn {
    fn drop(self) {
        let Conn { flow, ears, left } = self;
        drop(flow);
        drop(ears);
        drop(left);
    }
}

/// One want, and what answers it; the link isn't touched.
fn answer<W: Wait, D: Desk, I: Dice>(
    rt: &W,
    desk: &D,
    pass: &mut D::Pass,
    accounts: &Accounts,
    dice: &mut I,
    flow: &mut Flow,
    ears: &mut Ears,
    owed: &mut Owed,
) -> Next
    requires pass { D.came_from desk.now pass.old }
    requires stands { IsStanding (D.line pass.old) accounts.now flow.old ears.old owed.old }
    ensures pass { D.came_from desk.now pass.new }
    ensures line { D.line pass.new ≡ D.line pass.old }
    ensures history { StartsWith (D.seen pass.new) (D.seen pass.old) }
    ensures mark { D.marked pass.new ≡ marked_next result (D.marked pass.old) }
    ensures turned { (o : Site) (p : Place) (tape : Option (List Mark)) (moments : Option (List ℕ)) (faults ends : ℕ)
        → o.line ≡ D.line pass.old → o.accounts ≡ accounts.now → IsAt o p flow.old ears.old owed.old
        → Turned (handling flow.old.talk.phase + 1) o
        (tale tape (turns_of (D.line pass.old) (D.seen pass.old)) moments (I.drawn dice.old) faults ends (I.faults dice.old)) (duty o p)
        (tale tape (turns_of (D.line pass.old) (D.seen pass.new)) moments (I.drawn dice.new) faults ends (I.faults dice.new))
        flow.new ears.new owed.new result }
{
    let moment = flow.moment();
    match flow.next(accounts) {
        Ok(Want::Say(text)) => match owed.add(text.as_slice()) {
            Ok(()) => Next::Goes,
            Err(_) => Next::Finishes(Ended::NoMemory, flow.moment()),
        },
        Ok(Want::Submit(event)) => submit(rt, desk, pass, flow, owed, &event),
        Ok(Want::NeedDice) => draw(dice, flow),
        Ok(Want::Await) => hear_on(flow, ears),
        Ok(Want::Finish(ended)) => Next::Over(ended),
        Err(_) => Next::Finishes(Ended::NoMemory, moment),
    }
}

/// One want. Much that is owed is sent, and so is all that is owed where the flow waits or is over.
fn step<W: Wait, D: Desk, L: Link, C: Clock, I: Dice>(
    rt: &W,
    desk: &D,
    pass: &mut D::Pass,
    accounts: &Accounts,
    link: &mut L,
    clock: &mut C,
    dice: &mut I,
    flow: &mut Flow,
    ears: &mut Ears,
    owed: &mut Owed,
) -> Option<Round>
    requires pass { D.came_from desk.now pass.old }
    requires stands { IsStanding (D.line pass.old) accounts.now flow.old ears.old owed.old }
    ensures pass { D.came_from desk.now pass.new }
    ensures line { D.line pass.new ≡ D.line pass.old }
    ensures history { StartsWith (D.seen pass.new) (D.seen pass.old) }
    ensures mark { D.marked pass.new ≡ marked_step result (D.marked pass.old) }
    ensures stepped { (o : Site) (p : Place) → o.line ≡ D.line pass.old → o.accounts ≡ accounts.now → IsAt o p flow.old ears.old owed.old
        → Stepped (handling flow.old.talk.phase + 1) o
        (tale (L.tape link.old) (turns_of (D.line pass.old) (D.seen pass.old)) (C.told clock.old) (I.drawn dice.old) (L.faults link.old)
        (L.ends link.old) (I.faults dice.old)) (duty o p)
        (tale (L.tape link.new) (turns_of (D.line pass.old) (D.seen pass.new)) (C.told clock.new) (I.drawn dice.new) (L.faults link.new)
        (L.ends link.new) (I.faults dice.new)) flow.new ears.new owed.new result }
    ensures unread { UnreadIf (C.told clock.old) (C.told clock.new) result }
    ensures counts { CountsIf (L.laters link.old) (L.laters link.new) result }
{
    match answer(rt, desk, pass, accounts, dice, flow, ears, owed) {
        Next::Goes => {
            if owed.is_many() {
                flush(desk, link, clock, owed)
            } else {
                None
            }
        }
        Next::Rests => match flush(desk, link, clock, owed) {
            None => Some(Round::Goes),
            Some(round) => Some(round),
        },
        Next::Over(ended) => match flush(desk, link, clock, owed) {
            None => Some(Round::Ends(ended, flow.moment())),
            Some(round) => Some(round),
        },
        Next::Finishes(ended, moment) => Some(Round::Ends(ended, moment)),
        Next::Exhausts => Some(Round::Exhausts),
    }
}

/// Handles what was read, until the flow waits, the link can take no byte, or many wants were answered.
fn handle<W: Wait, D: Desk, L: Link, C: Clock, I: Dice>(
    rt: &W,
    desk: &D,
    pass: &mut D::Pass,
    accounts: &Accounts,
    link: &mut L,
    clock: &mut C,
    dice: &mut I,
    flow: &mut Flow,
    ears: &mut Ears,
    owed: &mut Owed,
) -> Round
    requires pass { D.came_from desk.now pass.old }
    requires stands { IsStanding (D.line pass.old) accounts.now flow.old ears.old owed.old }
    ensures pass { D.came_from desk.now pass.new }
    ensures line { D.line pass.new ≡ D.line pass.old }
    ensures history { StartsWith (D.seen pass.new) (D.seen pass.old) }
    ensures mark { D.marked pass.new ≡ marked_round result (D.marked pass.old) }
    ensures passed { (o : Site) (p : Place) → o.line ≡ D.line pass.old → o.accounts ≡ accounts.now → IsAt o p flow.old ears.old owed.old
        → Passed o (tale (L.tape link.old) (turns_of (D.line pass.old) (D.seen pass.old)) (C.told clock.old) (I.drawn dice.old) (L.faults link.old)
        (L.ends link.old) (I.faults dice.old)) (duty o p)
        (tale (L.tape link.new) (turns_of (D.line pass.old) (D.seen pass.new)) (C.told clock.new) (I.drawn dice.new) (L.faults link.new)
        (L.ends link.new) (I.faults dice.new)) flow.new ears.new owed.new result }
    ensures unread { Unread (C.told clock.old) (C.told clock.new) result }
    ensures counts { Counts (L.laters link.old) (L.laters link.new) result }
{
    for _step in 0..STEPS {
        match step(
            rt, desk, pass, accounts, link, clock, dice, flow, ears, owed,
        ) {
            None => {}
            Some(round) => return round,
        }
    }
    match flush(desk, link, clock, owed) {
        None => Round::More,
        Some(round) => round,
    }
}

/// Finishes an earlier round, reads once, and handles what came.
fn advance<W: Wait, D: Desk, L: Link, C: Clock, I: Dice>(
    rt: &W,
    desk: &D,
    pass: &mut D::Pass,
    accounts: &Accounts,
    link: &mut L,
    clock: &mut C,
    dice: &mut I,
    flow: &mut Flow,
    ears: &mut Ears,
    owed: &mut Owed,
) -> Round
    requires pass { D.came_from desk.now pass.old }
    requires stands { IsStanding (D.line pass.old) accounts.now flow.old ears.old owed.old }
    ensures pass { D.came_from desk.now pass.new }
    ensures line { D.line pass.new ≡ D.line pass.old }
    ensures history { StartsWith (D.seen pass.new) (D.seen pass.old) }
    ensures mark { D.marked pass.new ≡ marked_round result (D.marked pass.old) }
    ensures passed { (o : Site) (p : Place) → o.line ≡ D.line pass.old → o.accounts ≡ accounts.now → IsAt o p flow.old ears.old owed.old
        → Passed o (tale (L.tape link.old) (turns_of (D.line pass.old) (D.seen pass.old)) (C.told clock.old) (I.drawn dice.old) (L.faults link.old)
        (L.ends link.old) (I.faults dice.old)) (duty o p)
        (tale (L.tape link.new) (turns_of (D.line pass.old) (D.seen pass.new)) (C.told clock.new) (I.drawn dice.new) (L.faults link.new)
        (L.ends link.new) (I.faults dice.new)) flow.new ears.new owed.new result }
    ensures once { ReadOnce (C.told clock.old) (C.told clock.new) result }
    ensures counts { Counts (L.laters link.old) (L.laters link.new) result }
{
    match handle(
        rt, desk, pass, accounts, link, clock, dice, flow, ears, owed,
    ) {
        Round::Goes => {}
        Round::Later => return Round::Later,
        Round::More => return Round::More,
        Round::Ends(ended, moment) => return Round::Ends(ended, moment),
        Round::Exhausts => return Round::Exhausts,
    }
    match read(link, clock, flow, ears) {
        Some(round) => return round,
        None => {}
    }
    handle(
        rt, desk, pass, accounts, link, clock, dice, flow, ears, owed,
    )
}

impl Conn {
    /// Sends what an earlier round left and finishes that round, then reads once and handles what comes. `said` gathers what is said, and is empty
    /// before and after. At rest the connection owns no memory for readings. Where the link can take no byte, nothing more is handled, and the rest of what is owed is kept; memory may be wanting for
    /// that. `More` comes so that others may have their round.
    pub fn round<W: Wait, D: Desk, L: Link, C: Clock, I: Dice>(
        &mut self,
        rt: &W,
        alloc: Global,
        desk: &D,
        pass: &mut D::Pass,
        accounts: &Accounts,
        link: &mut L,
        clock: &mut C,
        dice: &mut I,
        said: &mut Owed,
    ) -> Round
        requires pass { D.came_from desk.now pass.old }
        requires stands { IsStanding (D.line pass.old) accounts.now self.old.flow self.old.ears self.old.left }
        requires said { said.old ≡ [] }
        ensures pass { D.came_from desk.now pass.new }
        ensures line { D.line pass.new ≡ D.line pass.old }
        ensures history { StartsWith (D.seen pass.new) (D.seen pass.old) }
        ensures said { said.new ≡ [] }
        ensures mark { D.marked pass.new ≡ marked_round result (D.marked pass.old) }
        ensures passed { (o : Site) (p : Place) → o.line ≡ D.line pass.old → o.accounts ≡ accounts.now
            → IsAt o p self.old.flow self.old.ears self.old.left
            → Passed o (tale (L.tape link.old) (turns_of (D.line pass.old) (D.seen pass.old)) (C.told clock.old) (I.drawn dice.old) (L.faults link.old)
            (L.ends link.old) (I.faults dice.old)) (duty o p)
            (tale (L.tape link.new) (turns_of (D.line pass.old) (D.seen pass.new)) (C.told clock.new) (I.drawn dice.new) (L.faults link.new)
            (L.ends link.new) (I.faults dice.new)) self.new.flow self.new.ears self.new.left result }
        ensures resumes { (o : Site) (p : Place) → o.line ≡ D.line pass.old → o.accounts ≡ accounts.now
            → IsAt o p self.old.flow self.old.ears self.old.left
            → Resumes o (tale (L.tape link.old) (turns_of (D.line pass.old) (D.seen pass.old)) (C.told clock.old) (I.drawn dice.old) (L.faults link.old)
            (L.ends link.old) (I.faults dice.old)) (duty o p) self.old.flow self.old.ears
            (tale (L.tape link.new) (turns_of (D.line pass.old) (D.seen pass.new)) (C.told clock.new) (I.drawn dice.new) (L.faults link.new)
            (L.ends link.new) (I.faults dice.new)) self.new.flow self.new.ears self.new.left result }
        ensures once { ReadOnce (C.told clock.old) (C.told clock.new) result }
        ensures counts { Counts (L.laters link.old) (L.laters link.new) result }
    {
        let flow = &mut self.flow;
        let ears = &mut self.ears;
        match flush(desk, link, clock, &mut self.left) {
            Some(round) => return round,
            None => {}
        }
        self.left = Owed::new(alloc);
        match advance(
            rt, desk, pass, accounts, link, clock, dice, flow, ears, said,
        ) {
            Round::Goes => {
                ears.rest(alloc);
                Round::Goes
            }
            Round::More => Round::More,
            Round::Later => match said.keep(alloc) {
                Ok(left) => {
                    said.clear();
                    self.left = left;
                    Round::Later
                }
                Err(_) => {
                    said.clear();
                    Round::Ends(Ended::NoMemory, flow.moment())
                }
            },
            Round::Ends(ended, moment) => {
                said.clear();
                Round::Ends(ended, moment)
            }
            Round::Exhausts => {
                said.clear();
                Round::Exhausts
            }
        }
    }
}
