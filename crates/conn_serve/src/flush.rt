//! Sends what is owed.

ghost use Rattle.std.specs.Prelude.{◌≡◌, ℕ, Bool, List, Option};
ghost use Rattle.house_model.specs.Histories.{Turn};
ghost use Rattle.conn_flow.specs.Duties.{Duty, Site};
ghost use Rattle.conn_serve.specs.Rounds.{CountsIf, Flushed, UnreadIf, marked_step};
ghost use Rattle.conn_serve.specs.Serving.{tale};

use crate::enter::ring_stirred;
use crate::owed::Owed;
use crate::turn::Round;
use conn_asks::Ended;
use hall::Desk;
use outside::{Clock, Link, Sent};

/// Rings who may have something to pull, and sends what is owed: all of it, or the round stops where the link can take no byte. A fault of the
/// link ends the connection at the moment after it.
pub(crate) fn flush<D: Desk, L: Link, C: Clock>(
    desk: &D,
    link: &mut L,
    clock: &mut C,
    owed: &mut Owed,
) -> Option<Round>
    ensures flushed { (o : Site) (v : Duty) (turns : List Turn) (drawn : Option (List (List ℕ))) (dice : ℕ) → v.owed ≡ owed.old
        → Flushed o (tale (L.tape link.old) turns (C.told clock.old) drawn (L.faults link.old) (L.ends link.old) dice) v
        (tale (L.tape link.new) turns (C.told clock.new) drawn (L.faults link.new) (L.ends link.new) dice) owed.new result }
    ensures unread { UnreadIf (C.told clock.old) (C.told clock.new) result }
    ensures counts { CountsIf (L.laters link.old) (L.laters link.new) result }
    ensures mark { (marked : Bool) → marked_step result marked ≡ marked }
{
    ring_stirred(desk, link);
    while !owed.is_empty() {
        match link.send(owed.rest()) {
            Sent::Taken(n) => owed.skip(n),
            Sent::Later => return Some(Round::Later),
            Sent::Failed => return Some(Round::Ends(Ended::LinkFault, clock.moment())),
        }
    }
    owed.clear();
    None
}
