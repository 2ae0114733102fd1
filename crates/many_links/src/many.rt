//! A worker that serves the links of a poller, each at its place.

ghost use Rattle.std.specs.Prelude.{◌≡◌, ◌≢◌, ◌+◌, ◌<◌, ◌≤◌, ◌^◌, ◌++◌, [], ℕ, List, All, true, false, None, Option, length, map};
ghost use Rattle.outside.specs.Doors.{TakesBack, reached};
ghost use Rattle.outside.specs.Polls.{IsBack, seats};
ghost use Rattle.outside.specs.declared.poller.Rung.{Rung};
ghost use Rattle.house_model.specs.Promises.{Safe};
ghost use Rattle.conn_serve.specs.Shifts.{IsWithin};
ghost use Rattle.many_links.specs.Ringing.{AllRang};
ghost use Rattle.many_links.specs.Visits.{AddsUp, AllFree, AllHeld, AllServed, AllStand, AreSameButOne, Ends, EndsNow, FreeBefore, Links, Spot, Tapes, spot_of};

use crate::farewell::Farewell;
use crate::place::{Place, attend, let_go, take_up};
use account_book::Accounts;
use conn_serve::Owed;
use hall::Desk;
use outside::{Clock, Dice, Poller, Ring};
use std::alloc::Global;
use std::sync::Wait;

/// Why a worker has no more links to serve.
#[derive(Clone, Copy, Debug, PartialEq, Eq)]
pub enum ManyEnded {
    /// As many links as the poller's quota came, and all were given back.
    Shut,
    /// The poller failed. Each link that was under way was let go.
    PollFault,
}

/// Gives a link back whose connection ended, and notes how.
fn give_back<P: Poller>(poller: &mut P, k: u32, link: P::Link, farewell: &Farewell)
    requires { P.taken poller.old k ≡ true }
    ensures back { IsBack k (seats (P.taken poller.old) (P.came poller.old) (P.links poller.old))
        (seats (P.taken poller.new) (P.came poller.new) (P.links poller.new)) }
    ensures tape { TakesBack (P.tapes poller.old k) (P.Link.tape link) (P.tapes poller.new k) }
    ensures tapes { (j : ℕ) → j ≢ k → P.tapes poller.new j ≡ P.tapes poller.old j }
    ensures rung { P.rung poller.new ≡ P.rung poller.old }
    ensures places { P.places poller.new ≡ P.places poller.old }
    ensures quota { P.quota poller.new ≡ P.quota poller.old }
    ensures faults { P.faults poller.new ≡ P.faults poller.old }
{
    poller.done(k, link);
    let text = farewell.text();
    if !text.is_empty() {
        poller.note(text);
    }
}

/// What comes next at one of the places; or why nothing more does.
fn serve_next<W: Wait, D: Desk, P: Poller, C: Clock, I: Dice>(
    rt: &W,
    alloc: Global,
    desk: &D,
    places: &mut Vec<Place<D::Pass, P::Link, C, I>>,
    accounts: &Accounts,
    poller: &mut P,
    said: &mut Owed,
    farewell: &mut Farewell,
) -> Option<ManyEnded>
    requires pass { All (λ p. D.came_from desk.now p.pass) places.old.items }
    requires places { P.places poller.old ≡ length places.old.items }
    requires held { AllHeld accounts.now (P.taken poller.old)
        (map (spot_of D.Pass P.Link C I D.line D.seen D.marked P.Link.tape P.Link.faults P.Link.ends C.told I.drawn I.faults) places.old.items) }
    requires said { said.old ≡ [] }
    ensures pass { All (λ p. D.came_from desk.now p.pass) places.new.items }
    ensures places { P.places poller.new ≡ length places.new.items }
    ensures count { length places.new.items ≡ length places.old.items }
    ensures held { AllHeld accounts.now (P.taken poller.new)
        (map (spot_of D.Pass P.Link C I D.line D.seen D.marked P.Link.tape P.Link.faults P.Link.ends C.told I.drawn I.faults) places.new.items) }
    ensures stand { (olds : List Spot) (tapes : Tapes) (links : Links) → length olds ≡ length places.old.items
        → AllStand (D.opening desk.now).head.domain.domain accounts.now olds tapes links
        (map (spot_of D.Pass P.Link C I D.line D.seen D.marked P.Link.tape P.Link.faults P.Link.ends C.told I.drawn I.faults) places.old.items)
        (P.tapes poller.old) (P.came poller.old)
        → AllStand (D.opening desk.now).head.domain.domain accounts.now olds tapes links
        (map (spot_of D.Pass P.Link C I D.line D.seen D.marked P.Link.tape P.Link.faults P.Link.ends C.told I.drawn I.faults) places.new.items)
        (P.tapes poller.new) (P.came poller.new) }
    ensures rings { (olds : List Spot) (rung : Option (List Rung)) → length olds ≡ length places.old.items
        → AllRang olds rung
        (map (spot_of D.Pass P.Link C I D.line D.seen D.marked P.Link.tape P.Link.faults P.Link.ends C.told I.drawn I.faults) places.old.items)
        (P.rung poller.old)
        → AllRang olds rung
        (map (spot_of D.Pass P.Link C I D.line D.seen D.marked P.Link.tape P.Link.faults P.Link.ends C.told I.drawn I.faults) places.new.items)
        (P.rung poller.new) }
    ensures said { said.new ≡ [] }
    ensures quota { P.quota poller.new ≡ P.quota poller.old }
    ensures within { IsWithin (P.quota poller.old) (P.links poller.old) → IsWithin (P.quota poller.new) (P.links poller.new) }
    ensures sum { AddsUp (P.places poller.old) (P.came poller.old) (P.links poller.old) → AddsUp (P.places poller.new) (P.came poller.new) (P.links poller.new) }
    ensures kept { P.faults poller.old ≤ P.faults poller.new }
    ensures one { AreSameButOne (map (spot_of D.Pass P.Link C I D.line D.seen D.marked P.Link.tape P.Link.faults P.Link.ends C.told I.drawn I.faults) places.old.items)
        (map (spot_of D.Pass P.Link C I D.line D.seen D.marked P.Link.tape P.Link.faults P.Link.ends C.told I.drawn I.faults) places.new.items) }
    ensures ends { EndsNow result (reached (P.quota poller.new) (P.links poller.new)) (P.faults poller.old) (P.faults poller.new) }
{
    match poller.wait(rt) {
        Ring::New(k, link) => {
            let place = &mut places[k as usize];
            match take_up(rt, alloc, desk, accounts, place, link, farewell) {
                Some(link) => give_back(poller, k, link, farewell),
                None => {}
            }
            None
        }
        Ring::Ready(k) => {
            let place = &mut places[k as usize];
            match attend(rt, alloc, desk, accounts, place, said, farewell) {
                Some(link) => give_back(poller, k, link, farewell),
                None => {}
            }
            None
        }
        Ring::Shut => Some(ManyEnded::Shut),
        Ring::Failed => Some(ManyEnded::PollFault),
    }
}

/// Lets go of the link of one place.
fn let_go_at<W: Wait, D: Desk, P: Poller, C: Clock, I: Dice>(
    rt: &W,
    desk: &D,
    places: &mut Vec<Place<D::Pass, P::Link, C, I>>,
    accounts: &Accounts,
    poller: &mut P,
    k: usize,
    farewell: &mut Farewell,
)
    requires few { length places.old.items < 2 ^ 32 }
    requires place { k < length places.old.items }
    requires pass { All (λ p. D.came_from desk.now p.pass) places.old.items }
    requires places { P.places poller.old ≡ length places.old.items }
    requires held { AllHeld accounts.now (P.taken poller.old)
        (map (spot_of D.Pass P.Link C I D.line D.seen D.marked P.Link.tape P.Link.faults P.Link.ends C.told I.drawn I.faults) places.old.items) }
    ensures pass { All (λ p. D.came_from desk.now p.pass) places.new.items }
    ensures places { P.places poller.new ≡ length places.new.items }
    ensures count { length places.new.items ≡ length places.old.items }
    ensures held { AllHeld accounts.now (P.taken poller.new)
        (map (spot_of D.Pass P.Link C I D.line D.seen D.marked P.Link.tape P.Link.faults P.Link.ends C.told I.drawn I.faults) places.new.items) }
    ensures stand { (olds : List Spot) (tapes : Tapes) (links : Links) → length olds ≡ length places.old.items
        → AllStand (D.opening desk.now).head.domain.domain accounts.now olds tapes links
        (map (spot_of D.Pass P.Link C I D.line D.seen D.marked P.Link.tape P.Link.faults P.Link.ends C.told I.drawn I.faults) places.old.items)
        (P.tapes poller.old) (P.came poller.old)
        → AllStand (D.opening desk.now).head.domain.domain accounts.now olds tapes links
        (map (spot_of D.Pass P.Link C I D.line D.seen D.marked P.Link.tape P.Link.faults P.Link.ends C.told I.drawn I.faults) places.new.items)
        (P.tapes poller.new) (P.came poller.new) }
    ensures rings { (olds : List Spot) (rung : Option (List Rung)) → length olds ≡ length places.old.items
        → AllRang olds rung
        (map (spot_of D.Pass P.Link C I D.line D.seen D.marked P.Link.tape P.Link.faults P.Link.ends C.told I.drawn I.faults) places.old.items)
        (P.rung poller.old)
        → AllRang olds rung
        (map (spot_of D.Pass P.Link C I D.line D.seen D.marked P.Link.tape P.Link.faults P.Link.ends C.told I.drawn I.faults) places.new.items)
        (P.rung poller.new) }
    ensures free { FreeBefore k (map (spot_of D.Pass P.Link C I D.line D.seen D.marked P.Link.tape P.Link.faults P.Link.ends C.told I.drawn I.faults) places.old.items)
        → FreeBefore (k + 1) (map (spot_of D.Pass P.Link C I D.line D.seen D.marked P.Link.tape P.Link.faults P.Link.ends C.told I.drawn I.faults) places.new.items) }
    ensures quota { P.quota poller.new ≡ P.quota poller.old }
    ensures came { (j : ℕ) → P.came poller.new j ≡ P.came poller.old j }
    ensures links { P.links poller.new ≡ P.links poller.old }
    ensures faults { P.faults poller.new ≡ P.faults poller.old }
{
    let place = &mut places[k];
    match let_go(rt, desk, accounts, place, farewell) {
        Some(link) => give_back(poller, k as u32, link, farewell),
        None => {}
    }
}

/// Lets go of each link that is under way.
fn let_go_all<W: Wait, D: Desk, P: Poller, C: Clock, I: Dice>(
    rt: &W,
    desk: &D,
    places: &mut Vec<Place<D::Pass, P::Link, C, I>>,
    accounts: &Accounts,
    poller: &mut P,
    farewell: &mut Farewell,
)
    requires few { length places.old.items < 2 ^ 32 }
    requires pass { All (λ p. D.came_from desk.now p.pass) places.old.items }
    requires places { P.places poller.old ≡ length places.old.items }
    requires held { AllHeld accounts.now (P.taken poller.old)
        (map (spot_of D.Pass P.Link C I D.line D.seen D.marked P.Link.tape P.Link.faults P.Link.ends C.told I.drawn I.faults) places.old.items) }
    ensures pass { All (λ p. D.came_from desk.now p.pass) places.new.items }
    ensures places { P.places poller.new ≡ length places.new.items }
    ensures count { length places.new.items ≡ length places.old.items }
    ensures held { AllHeld accounts.now (P.taken poller.new)
        (map (spot_of D.Pass P.Link C I D.line D.seen D.marked P.Link.tape P.Link.faults P.Link.ends C.told I.drawn I.faults) places.new.items) }
    ensures stand { (olds : List Spot) (tapes : Tapes) (links : Links) → length olds ≡ length places.old.items
        → AllStand (D.opening desk.now).head.domain.domain accounts.now olds tapes links
        (map (spot_of D.Pass P.Link C I D.line D.seen D.marked P.Link.tape P.Link.faults P.Link.ends C.told I.drawn I.faults) places.old.items)
        (P.tapes poller.old) (P.came poller.old)
        → AllStand (D.opening desk.now).head.domain.domain accounts.now olds tapes links
        (map (spot_of D.Pass P.Link C I D.line D.seen D.marked P.Link.tape P.Link.faults P.Link.ends C.told I.drawn I.faults) places.new.items)
        (P.tapes poller.new) (P.came poller.new) }
    ensures rings { (olds : List Spot) (rung : Option (List Rung)) → length olds ≡ length places.old.items
        → AllRang olds rung
        (map (spot_of D.Pass P.Link C I D.line D.seen D.marked P.Link.tape P.Link.faults P.Link.ends C.told I.drawn I.faults) places.old.items)
        (P.rung poller.old)
        → AllRang olds rung
        (map (spot_of D.Pass P.Link C I D.line D.seen D.marked P.Link.tape P.Link.faults P.Link.ends C.told I.drawn I.faults) places.new.items)
        (P.rung poller.new) }
    ensures free { AllFree (map (spot_of D.Pass P.Link C I D.line D.seen D.marked P.Link.tape P.Link.faults P.Link.ends C.told I.drawn I.faults) places.new.items) }
    ensures quota { P.quota poller.new ≡ P.quota poller.old }
    ensures came { (j : ℕ) → P.came poller.new j ≡ P.came poller.old j }
    ensures links { P.links poller.new ≡ P.links poller.old }
    ensures faults { P.faults poller.new ≡ P.faults poller.old }
{
    for k in 0..places.len() {
        let_go_at(rt, desk, places, accounts, poller, k, farewell);
    }
}

/// Serves the links of a poller, each at its place, in rounds, until the poller shuts or fails; then each link that is under way is let go. At each
/// place the links were served one after the other: each came without marks, went as a connection may and ended with a cause, and was given back,
/// whatever happened at the other places. Where no turn was refused to its pass, its line gained one piece of turns for each link, and where the
/// poller tells the tapes of the place each piece goes with its tape. Where the poller tells its rings and the clock of a place its moments, each
/// `Ready` of the place had one round, with as many readings as the round's answer says. What each pass has seen is legal, and all that is promised
/// of legal histories holds of it. Where the poller's count of links was the sum of its places' counts, up to the greatest number, it still is. `said`
/// gathers what is said, and is empty before and after. Unless it is to be quiet, the poller notes how each connection ended, where there is memory
/// for the line. Never returns if the poller hands out links for ever, or a link goes on for ever.
pub fn serve_many<W: Wait, D: Desk, P: Poller, C: Clock, I: Dice>(
    rt: &W,
    alloc: Global,
    desk: &D,
    places: &mut Vec<Place<D::Pass, P::Link, C, I>>,
    accounts: &Accounts,
    poller: &mut P,
    said: &mut Owed,
    is_quiet: bool,
) -> ManyEnded
    requires pass { All (λ p. D.came_from desk.now p.pass) places.old.items }
    requires busy { All (λ p. p.busy ≡ None) places.old.items }
    requires places { P.places poller.old ≡ length places.old.items }
    requires few { length places.old.items < 2 ^ 32 }
    requires none { (k : ℕ) → P.taken poller.old k ≡ false }
    requires said { said.old ≡ [] }
    ensures pass { All (λ p. D.came_from desk.now p.pass) places.new.items }
    ensures places { P.places poller.new ≡ P.places poller.old }
    ensures count { length places.new.items ≡ length places.old.items }
    ensures said { said.new ≡ [] }
    ensures free { AllFree (map (spot_of D.Pass P.Link C I D.line D.seen D.marked P.Link.tape P.Link.faults P.Link.ends C.told I.drawn I.faults) places.new.items) }
    ensures served { AllServed (D.opening desk.now).head.domain.domain accounts.now
        (map (spot_of D.Pass P.Link C I D.line D.seen D.marked P.Link.tape P.Link.faults P.Link.ends C.told I.drawn I.faults) places.old.items)
        (P.tapes poller.old) (P.came poller.old)
        (map (spot_of D.Pass P.Link C I D.line D.seen D.marked P.Link.tape P.Link.faults P.Link.ends C.told I.drawn I.faults) places.new.items)
        (P.tapes poller.new) (P.came poller.new) }
    ensures rings { AllRang
        (map (spot_of D.Pass P.Link C I D.line D.seen D.marked P.Link.tape P.Link.faults P.Link.ends C.told I.drawn I.faults) places.old.items)
        (P.rung poller.old)
        (map (spot_of D.Pass P.Link C I D.line D.seen D.marked P.Link.tape P.Link.faults P.Link.ends C.told I.drawn I.faults) places.new.items)
        (P.rung poller.new) }
    ensures quota { P.quota poller.new ≡ P.quota poller.old }
    ensures within { IsWithin (P.quota poller.old) (P.links poller.old) → IsWithin (P.quota poller.new) (P.links poller.new) }
    ensures sum { AddsUp (P.places poller.old) (P.came poller.old) (P.links poller.old) → AddsUp (P.places poller.new) (P.came poller.new) (P.links poller.new) }
    ensures kept { P.faults poller.old ≤ P.faults poller.new }
    ensures ends { Ends result (reached (P.quota poller.new) (P.links poller.new)) (P.faults poller.old) (P.faults poller.new) }
    ensures safe { All (λ p. ∥ Safe (D.opening desk.now) (D.earlier desk.now ++ D.seen p.pass) ∥₁) places.new.items }
{
    let mut farewell = Farewell::new(alloc, is_quiet);
    for _ in rt.forever() {
        match serve_next(
            rt,
            alloc,
            desk,
            places,
            accounts,
            poller,
            said,
            &mut farewell,
        ) {
            Some(ended) => {
                let_go_all(rt, desk, places, accounts, poller, &mut farewell);
                return ended;
            }
            None => {}
        }
    }
    unreachable!()
}
