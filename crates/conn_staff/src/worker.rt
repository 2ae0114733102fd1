//! One worker.

ghost use Rattle.std.specs.Prelude.{◌≡◌, ℕ};
ghost use Rattle.outside.specs.Polls.{AreSame, seats};
ghost use Rattle.conn_staff.specs.Workers.{HasWorked, IsFit, IsReady, crew_of};

use account_book::Accounts;
use conn_serve::Owed;
use hall::{Hall, Pass};
use many_links::{ManyEnded, Place, serve_many};
use outside::{Clock, Dice, Poller, Sources};
use std::alloc::Global;
use std::sync::Wait;

/// A worker, with its poller and the places of its links, with room for their sources when it is done, and with what it is saying; and whether its
/// poller failed.
#[derive(Drop)]
pub(crate) struct Worker<P, L, C, I> {
    pub(crate) poller: P,
    pub(crate) places: Vec<Place<Pass, L, C, I>>,
    pub(crate) sources: Vec<Sources<C, I>>,
    pub(crate) said: Owed,
    pub(crate) failed: bool,
}

/// Tells that the poller of a worker failed, where there is memory for it.
fn tell_fault<P: Poller>(alloc: Global, number: usize, poller: &mut P)
    ensures seats { AreSame (seats (P.taken poller.old) (P.came poller.old) (P.links poller.old))
        (seats (P.taken poller.new) (P.came poller.new) (P.links poller.new)) }
    ensures tapes { (k : ℕ) → P.tapes poller.new k ≡ P.tapes poller.old k }
    ensures places { P.places poller.new ≡ P.places poller.old }
    ensures quota { P.quota poller.new ≡ P.quota poller.old }
    ensures faults { P.faults poller.new ≡ P.faults poller.old }
{
    if let Ok(text) = format!(in alloc; "xmppd: worker {number} ended: listen fault\n") {
        poller.note(text.as_str());
    }
}

/// Serves the links of a worker's poller until there are no more, and tells at once where the poller failed.
pub(crate) fn tend<R: Wait, P: Poller, C: Clock, I: Dice>(
    rt: &R,
    alloc: Global,
    hall: &Hall,
    accounts: &Accounts,
    is_quiet: bool,
    number: usize,
    worker: &mut Worker<P, P::Link, C, I>,
)
    requires ready { IsReady P P.Link C I P.places P.taken hall.now worker.old }
    ensures fit { IsFit P P.Link C I P.places worker.new }
    ensures worked { HasWorked hall.now accounts.now
        (crew_of P P.Link C I P.tapes P.came P.links P.faults P.quota C.told I.drawn I.faults worker.old)
        (crew_of P P.Link C I P.tapes P.came P.links P.faults P.quota C.told I.drawn I.faults worker.new) }
{
    let places = &mut worker.places;
    let said = &mut worker.said;
    match serve_many(
        rt,
        alloc,
        hall,
        places,
        accounts,
        &mut worker.poller,
        said,
        is_quiet,
    ) {
        ManyEnded::Shut => worker.failed = false,
        ManyEnded::PollFault => {
            worker.failed = true;
            tell_fault(alloc, number, &mut worker.poller);
        }
    }
}
