//! Does what a flow wants of the house and of the dice.

ghost use Rattle.std.specs.Prelude.{◌≡◌, ℕ, Bool, List, Option};
ghost use Rattle.outside.specs.Tapes.{Mark};
ghost use Rattle.turn_lock.specs.Histories.{StartsWith};
ghost use Rattle.house_model.specs.Histories.{Meets, Turn, line_of};
ghost use Rattle.hall.specs.Desks.{turns_of};
ghost use Rattle.conn_flow.specs.declared.phase.Phase.TheVariants as phase;
ghost use Rattle.conn_flow.specs.Duties.{Site};
ghost use Rattle.conn_flow.specs.Flows.{IsTold, ToDraw, ToSubmit, wish_of};
ghost use Rattle.flow_laws.specs.Standing.{IsServed, Place, duty};
ghost use Rattle.flow_laws.specs.Steps.{wishes_at};
ghost use Rattle.conn_serve.specs.Rounds.{Turned, marked_next};
ghost use Rattle.conn_serve.specs.Serving.{tale};

use crate::owed::Owed;
use crate::turn::Next;
use conn_asks::{DRAW, Ended};
use conn_flow::Flow;
use hall::{Desk, DeskFault};
use house_model::Event;
use outside::{Dice, Filled};
use std::sync::Wait;

/// Enters an event, and tells the flow what was answered; the frame is owed.
pub(crate) fn submit<W: Wait, D: Desk>(
    rt: &W,
    desk: &D,
    pass: &mut D::Pass,
    flow: &mut Flow,
    owed: &mut Owed,
    event: &Event,
) -> Next
    requires pass { D.came_from desk.now pass.old }
    requires line { line_of event.now ≡ D.line pass.old }
    requires meets { Meets event.now }
    requires told { IsTold flow.old.talk.phase }
    ensures pass { D.came_from desk.now pass.new }
    ensures line { D.line pass.new ≡ D.line pass.old }
    ensures history { StartsWith (D.seen pass.new) (D.seen pass.old) }
    ensures mark { D.marked pass.new ≡ marked_next result (D.marked pass.old) }
    ensures turned { (o : Site) (p : Place) (ahead : List ℕ) (tape : Option (List Mark)) (moments : Option (List ℕ)) (drawn : Option (List (List ℕ)))
        (faults ends dice : ℕ)
        → IsServed o p → p.ahead ≡ ahead → p.owed ≡ owed.old → wish_of p.flow ≡ ToSubmit event.now → flow.old ≡ wishes_at p.flow → o.line ≡ D.line pass.old
        → Turned 1 o (tale tape (turns_of (D.line pass.old) (D.seen pass.old)) moments drawn faults ends dice) (duty o p)
        (tale tape (turns_of (D.line pass.old) (D.seen pass.new)) moments drawn faults ends dice) flow.new ahead owed.new result }
{
    match owed.enter(rt, desk, pass, event) {
        Some(Ok(reply)) => {
            flow.told(reply);
            Next::Goes
        }
        Some(Err(DeskFault::NoMemory)) => {
            flow.short();
            Next::Goes
        }
        Some(Err(DeskFault::Spent)) => Next::Exhausts,
        None => Next::Finishes(Ended::NoMemory, flow.moment()),
    }
}

/// Draws the random bytes that the flow needs.
pub(crate) fn draw<I: Dice>(dice: &mut I, flow: &mut Flow) -> Next
    requires { flow.old.talk.phase ≡ phase.Drawing }
    ensures mark { (marked : Bool) → marked_next result marked ≡ marked }
    ensures turned { (o : Site) (p : Place) (ahead owed : List ℕ) (tape : Option (List Mark)) (turns : List Turn) (moments : Option (List ℕ))
        (faults ends : ℕ)
        → IsServed o p → p.ahead ≡ ahead → p.owed ≡ owed → wish_of p.flow ≡ ToDraw → flow.old ≡ p.flow
        → Turned 1 o (tale tape turns moments (I.drawn dice.old) faults ends (I.faults dice.old)) (duty o p)
        (tale tape turns moments (I.drawn dice.new) faults ends (I.faults dice.new)) flow.new ahead owed result }
{
    let mut bytes = [0u8; DRAW];
    match dice.fill(&mut bytes) {
        Filled::Full => {
            flow.gave(bytes);
            Next::Goes
        }
        Filled::Failed => Next::Finishes(Ended::DiceFault, flow.moment()),
    }
}
