//! A place, where one link after the other is served.

ghost use Rattle.std.specs.Prelude.{◌≡◌, [], Option, None};
ghost use Rattle.outside.specs.Doors.{Untold};
ghost use Rattle.outside.specs.Tapes.{Mark};
ghost use Rattle.conn_serve.specs.Rounds.{Asked};
ghost use Rattle.many_links.specs.Ringing.{HadRound};
ghost use Rattle.many_links.specs.Visits.{AttendedAt, IsOpenAt, TakenUpAt, spot_of};

use crate::begin::{give_notice, go_on, start};
use crate::farewell::Farewell;
use account_book::Accounts;
use conn_serve::{Conn, Owed, conclude};
use hall::Desk;
use outside::{Clock, Dice, Link};
use std::alloc::Global;
use std::sync::Wait;

/// A link that is served, and its connection.
#[derive(Drop)]
pub struct Line<L> {
    pub link: L,
    pub conn: Conn,
}

/// What a place has of its own, and the link that is served there.
#[derive(Drop)]
pub struct Place<A, L, C, I> {
    pub pass: A,
    pub clock: C,
    pub dice: I,
    pub busy: Option<Line<L>>,
}

/// A link came to a free place. It comes back where its connection was over at once.
pub(crate) fn take_up<W: Wait, D: Desk, L: Link, C: Clock, I: Dice>(
    rt: &W,
    alloc: Global,
    desk: &D,
    accounts: &Accounts,
    place: &mut Place<D::Pass, L, C, I>,
    link: L,
    farewell: &mut Farewell,
) -> Option<L>
    requires pass { D.came_from desk.now place.old.pass }
    requires free { place.old.busy ≡ None }
    requires unmarked { Untold Mark (L.tape link) }
    ensures pass { D.came_from desk.now place.new.pass }
    ensures open_at { IsOpenAt (D.line place.new.pass) accounts.now
        (spot_of D.Pass L C I D.line D.seen D.marked L.tape L.faults L.ends C.told I.drawn I.faults place.new).busy }
    ensures asked { Asked (C.told place.old.clock) (C.told place.new.clock) }
    ensures taken_up { TakenUpAt (D.opening desk.now).head.domain.domain accounts.now L L.tape
        (spot_of D.Pass L C I D.line D.seen D.marked L.tape L.faults L.ends C.told I.drawn I.faults place.old)
        (spot_of D.Pass L C I D.line D.seen D.marked L.tape L.faults L.ends C.told I.drawn I.faults place.new) result }
{
    let mut link = link;
    match start(
        rt,
        alloc,
        desk,
        &mut place.pass,
        &mut place.clock,
        &mut place.dice,
    ) {
        Ok(conn) => {
            match place.busy.replace(Line { link, conn }) {
                None => {}
                Some(_) => unreachable!(),
            }
            None
        }
        Err(end) => {
            let ended = conclude(rt, desk, &mut place.pass, &mut link, end);
            farewell.write(D::number(&place.pass), None, ended);
            Some(link)
        }
    }
}

/// A round of the link, if there is one: the link, where its connection ended.
pub(crate) fn attend<W: Wait, D: Desk, L: Link, C: Clock, I: Dice>(
    rt: &W,
    alloc: Global,
    desk: &D,
    accounts: &Accounts,
    place: &mut Place<D::Pass, L, C, I>,
    said: &mut Owed,
    farewell: &mut Farewell,
) -> Option<L>
    requires pass { D.came_from desk.now place.old.pass }
    requires open_at { IsOpenAt (D.line place.old.pass) accounts.now
        (spot_of D.Pass L C I D.line D.seen D.marked L.tape L.faults L.ends C.told I.drawn I.faults place.old).busy }
    requires said { said.old ≡ [] }
    ensures pass { D.came_from desk.now place.new.pass }
    ensures open_at { IsOpenAt (D.line place.new.pass) accounts.now
        (spot_of D.Pass L C I D.line D.seen D.marked L.tape L.faults L.ends C.told I.drawn I.faults place.new).busy }
    ensures said { said.new ≡ [] }
    ensures round { HadRound (spot_of D.Pass L C I D.line D.seen D.marked L.tape L.faults L.ends C.told I.drawn I.faults place.old)
        (spot_of D.Pass L C I D.line D.seen D.marked L.tape L.faults L.ends C.told I.drawn I.faults place.new) }
    ensures attended { AttendedAt (D.opening desk.now).head.domain.domain accounts.now L L.tape
        (spot_of D.Pass L C I D.line D.seen D.marked L.tape L.faults L.ends C.told I.drawn I.faults place.old)
        (spot_of D.Pass L C I D.line D.seen D.marked L.tape L.faults L.ends C.told I.drawn I.faults place.new) result }
{
    let Some(line) = place.busy.take() else {
        return None;
    };
    let Line { mut link, mut conn } = line;
    let pass = &mut place.pass;
    let clock = &mut place.clock;
    let dice = &mut place.dice;
    match go_on(
        rt, alloc, desk, pass, accounts, &mut link, clock, dice, &mut conn, said,
    ) {
        None => {
            match place.busy.replace(Line { link, conn }) {
                None => {}
                Some(_) => unreachable!(),
            }
            None
        }
        Some(end) => {
            let ended = conclude(rt, desk, pass, &mut link, end);
            farewell.write(D::number(pass), conn.flow.user(), ended);
            Some(link)
        }
    }
}

/// The link of a place is let go, if there is one: its connection ends here.
pub(crate) fn let_go<W: Wait, D: Desk, L: Link, C: Clock, I: Dice>(
    rt: &W,
    desk: &D,
    accounts: &Accounts,
    place: &mut Place<D::Pass, L, C, I>,
    farewell: &mut Farewell,
) -> Option<L>
    requires pass { D.came_from desk.now place.old.pass }
    requires open_at { IsOpenAt (D.line place.old.pass) accounts.now
        (spot_of D.Pass L C I D.line D.seen D.marked L.tape L.faults L.ends C.told I.drawn I.faults place.old).busy }
    ensures pass { D.came_from desk.now place.new.pass }
    ensures asked { C.told place.new.clock ≡ C.told place.old.clock }
    ensures free { (spot_of D.Pass L C I D.line D.seen D.marked L.tape L.faults L.ends C.told I.drawn I.faults place.new).busy ≡ None }
    ensures attended { AttendedAt (D.opening desk.now).head.domain.domain accounts.now L L.tape
        (spot_of D.Pass L C I D.line D.seen D.marked L.tape L.faults L.ends C.told I.drawn I.faults place.old)
        (spot_of D.Pass L C I D.line D.seen D.marked L.tape L.faults L.ends C.told I.drawn I.faults place.new) result }
{
    let Some(line) = place.busy.take() else {
        return None;
    };
    let Line { mut link, mut conn } = line;
    let end = give_notice(&mut conn, accounts);
    let ended = conclude(rt, desk, &mut place.pass, &mut link, end);
    farewell.write(D::number(&place.pass), conn.flow.user(), ended);
    Some(link)
}
