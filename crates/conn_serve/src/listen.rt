//! Reads a link, and has what was read heard.

ghost use Rattle.std.specs.Prelude.{◌≡◌, ℕ, Bool, List, [], Option, OnOk};
ghost use Rattle.outside.specs.Tapes.{Mark};
ghost use Rattle.house_model.specs.Histories.{Turn};
ghost use Rattle.conn_flow.specs.declared.phase.Phase.TheVariants as phase;
ghost use Rattle.conn_flow.specs.Duties.{Site};
ghost use Rattle.flow_laws.specs.Standing.{Place, duty};
ghost use Rattle.conn_serve.specs.Rounds.{AskedIf, CountsIf, Turned, WasRead, marked_next, marked_step};
ghost use Rattle.conn_serve.specs.Serving.{HearsOn, IsAt, tale};

use crate::ears::Ears;
use crate::turn::{Next, Round};
use conn_asks::Ended;
use conn_flow::Flow;
use outside::{Clock, Heard, Link};
use stream_frames::Short;

/// What was read is heard up to the end of its first item.
fn hear(flow: &mut Flow, ears: &mut Ears, moment: u64) -> Result<(), Short>
    requires { flow.old.talk.phase ≡ phase.Resting }
    ensures { OnOk result (HearsOn flow.old ears.old moment flow.new ears.new) }
{
    match flow.hear(ears.ahead(), moment) {
        Ok(taken) => {
            ears.skip(taken);
            Ok(())
        }
        Err(short) => Err(short),
    }
}

/// Has the next of what was read heard, if something is left of it.
pub(crate) fn hear_on(flow: &mut Flow, ears: &mut Ears) -> Next
    requires { flow.old.talk.phase ≡ phase.Resting }
    ensures mark { (marked : Bool) → marked_next result marked ≡ marked }
    ensures turned { (o : Site) (p : Place) (owed : List ℕ) (tape : Option (List Mark)) (turns : List Turn) (moments : Option (List ℕ))
        (drawn : Option (List (List ℕ))) (faults ends dice : ℕ) → IsAt o p flow.old ears.old owed
        → Turned 1 o (tale tape turns moments drawn faults ends dice) (duty o p) (tale tape turns moments drawn faults ends dice)
        flow.new ears.new owed result }
{
    if ears.is_empty() {
        return Next::Rests;
    }
    let moment = flow.moment();
    match hear(flow, ears, moment) {
        Ok(()) => Next::Goes,
        Err(_) => Next::Finishes(Ended::NoMemory, moment),
    }
}

/// Reads once, where all that was read was heard and there is memory for a reading, and has what comes heard. What comes too late for a login is not.
pub(crate) fn read<L: Link, C: Clock>(
    link: &mut L,
    clock: &mut C,
    flow: &mut Flow,
    ears: &mut Ears,
) -> Option<Round>
    requires rests { flow.old.talk.phase ≡ phase.Resting }
    requires none { ears.old ≡ [] }
    ensures read { (o : Site) (p : Place) (turns : List Turn) (drawn : Option (List (List ℕ))) (dice : ℕ) → IsAt o p flow.old ears.old []
        → WasRead o (tale (L.tape link.old) turns (C.told clock.old) drawn (L.faults link.old) (L.ends link.old) dice) (duty o p)
        (tale (L.tape link.new) turns (C.told clock.new) drawn (L.faults link.new) (L.ends link.new) dice) flow.new ears.new [] result }
    ensures once { AskedIf (C.told clock.old) (C.told clock.new) result }
    ensures counts { CountsIf (L.laters link.old) (L.laters link.new) result }
    ensures mark { (marked : Bool) → marked_step result marked ≡ marked }
{
    let Ok(heard) = ears.refill(link) else {
        return Some(Round::Ends(Ended::NoMemory, flow.moment()));
    };
    let moment = clock.moment();
    match heard {
        Heard::Bytes(_) => {
            if flow.is_late(moment) {
                ears.clear();
                flow.late(moment);
                return None;
            }
            match hear(flow, ears, moment) {
                Ok(()) => None,
                Err(_) => Some(Round::Ends(Ended::NoMemory, moment)),
            }
        }
        Heard::Quiet => {
            flow.quiet(moment);
            None
        }
        Heard::End => {
            flow.hung(moment);
            None
        }
        Heard::Failed => Some(Round::Ends(Ended::LinkFault, moment)),
    }
}
