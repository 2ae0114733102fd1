//! The hall: it is opened round a house, gives turns, and is closed.
ghost use Rattle.std.specs.Prelude.{◌≡◌, ◌<◌, ◌≤◌, ◌+◌, ◌++◌, ◌∷◌, [], ℕ, List, length, map, false, vec_len, vec_capacity, All, IfOk, IfErr};
ghost use Rattle.turn_lock.specs.Histories.{StartsWith, counted};
ghost use Rattle.turn_lock.specs.Passes.{number_of, seen, mine, refused, root_of, passes_of};
ghost use Rattle.house_model.specs.States.{State};
ghost use Rattle.house_model.specs.Histories.{StandsFor};
ghost use Rattle.house_core.specs.Houses.{HouseRecord, held};
ghost use Rattle.hall.specs.Turns.{text_in};
ghost use Rattle.hall.specs.Stories.{line, root};

use crate::call::{Call, Made, make_noted};
use crate::recorded::Recorded;
use ghost_log::GhostLog;
use house_core::House;
use jid_core::Jid;
use mark_sets::SharedMarks;
use stanza_tree::NoMemory;
use std::alloc::Global;
use std::snapshot::Snapshot;
use std::sync::Wait;
use turn_lock::{Spent, Turn, Turnstile};

/// The right to ask for turns. Its number is the line at which its calls are made.
pub type Pass = turn_lock::Pass<Recorded>;

/// Why a call has no reply.
#[derive(Clone, Copy, Debug, PartialEq, Eq)]
pub enum HallFault {
    /// Memory was wanting. The turn is counted, and nothing else happened.
    NoMemory,
    /// No turn is left: 2^63 were drawn.
    Spent,
}

/// A house under a counted lock.
#[derive(Drop)]
pub struct Hall {
    pub(crate) lock: Turnstile<Recorded>,
    domain: Jid,
    stirred: SharedMarks,
    pub(crate) alloc: Global,
    ghost agreed: { passes_of lock ≡ (root_of root lock).workers },
    ghost named: { domain ≡ (root_of root lock).domain },
}

impl Hall {
    ghost use Rattle.hall.specs.Halls.{opening_state, lines_of, CameFrom, Took, WasRefused, Closed};

    /// A hall round a house to which nothing has come yet, and a pass for each line. A call that waits while at most `near` others come first looks
    /// again and again instead of sleeping: one fewer than the threads, where each has a processor. Costs the domain and the passes.
    pub fn start(
        alloc: Global,
        house: House,
        passes: u32,
        near: u32,
    ) -> Result<(Hall, Vec<Pass>), NoMemory>
        requires some { 0 < passes }
        requires lines { passes ≡ length house.table.lines }
        requires new { (o : State) × StandsFor o [] (held house) }
        ensures opening { IfOk result (λ r. (o : State) → StandsFor o [] (held house) → opening_state r.0 ≡ o) }
        ensures lines { IfOk result (λ r. lines_of r.0 ≡ passes) }
        ensures count { IfOk result (λ r. vec_len r.1 ≡ passes) }
        ensures numbers { IfOk result (λ r. map number_of r.1.items ≡ counted 0 passes) }
        ensures passes { IfOk result (λ r. All (CameFrom r.0) r.1.items) }
        ensures fresh { IfOk result (λ r. All (λ p. (seen p ≡ []) × (refused p ≡ false)) r.1.items) }
    {
        let domain = house.domain().copy(alloc)?;
        let stirred = SharedMarks::new(alloc, passes)?;
        let value = Recorded {
            house: Box::new(alloc, house)?,
            log: GhostLog::empty(),
        };
        let (lock, all) = Turnstile::start(alloc, value, passes, near)?;
        let hall = Hall {
            lock,
            domain,
            stirred,
            alloc,
        };
        Ok((hall, all))
    }

    /// The domain that the house serves. No turn is taken.
    pub fn domain(&self) -> &Jid
        ensures { result.now ≡ (opening_state self.now).head.domain }
    {
        &self.domain
    }

    /// A line that may have something to pull, because of an event of another line, and of which that was not told since. No turn is taken,
    /// and nothing is promised of it.
    pub fn next_stirred(&self) -> Option<u32> {
        self.stirred.take()
    }

    // One turn, in which a call is made.
    #[tactic(auto, using(crate::proofs::TurnLaws::was_refused))]
    pub(crate) fn turn<W: Wait, C: Call>(
        &self,
        rt: &W,
        pass: &mut Pass,
        call: &C,
        out: &mut Vec<u8>,
    ) -> Result<C::Answer, Spent>
        requires pass { CameFrom self.now pass.old }
        requires fits { C.fits call.now }
        requires room { vec_len out.old + C.room call.now ≤ vec_capacity out.old }
        ensures pass { CameFrom self.now pass.new }
        ensures number { number_of pass.new ≡ number_of pass.old }
        ensures took { IfOk result (λ answer. (k : HouseRecord)
            × (out.new.items ≡ out.old.items ++ text_in (C.turn call.now (number_of pass.old) k answer).outcome)
            × Took (C.turn call.now (number_of pass.old) k answer) pass.old pass.new) }
        ensures refused { IfErr result (λ _. WasRefused pass.old pass.new) }
        ensures same { IfErr result (λ _. out.new.items ≡ out.old.items) }
        ensures capacity { vec_capacity out.old ≤ vec_capacity out.new }
    {
        let Turn { value } = self.lock.enter(rt, pass)?;
        let Recorded { mut house, log } = value;
        let line = pass.number();
        let lent = &mut *house;
        let before = Snapshot::of(lent);
        let answer = make_noted(call, lent, line, out, &self.stirred);
        let made = Made {
            call: Snapshot::of(call),
            line,
            before,
            answer: Snapshot::of(&answer),
        };
        let log = log.with(&made);
        let value = Recorded { house, log };
        self.lock.leave(Turn { value }, pass);
        Ok(answer)
    }

    /// Lets `into` know what `from` has seen. No turn is taken.
    pub fn meet(&self, from: &mut Pass, into: &mut Pass)
        requires from { CameFrom self.now from.old }
        requires into { CameFrom self.now into.old }
        ensures from { from.new ≡ from.old }
        ensures into { CameFrom self.now into.new }
        ensures number { number_of into.new ≡ number_of into.old }
        ensures met { StartsWith (seen into.new) (seen from.old) }
        ensures history { StartsWith (seen into.new) (seen into.old) }
        ensures mine { mine line into.new ≡ mine line into.old }
        ensures refused { refused into.new ≡ refused into.old }
    {
        self.lock.meet(from, into)
    }

    /// Ends the hall, with all its passes, and gives the house back.
    pub fn close(self, passes: Vec<Pass>) -> House
        requires all { vec_len passes ≡ lines_of self }
        requires passes { All (CameFrom self) passes.items }
        ensures { Closed self passes.items (held result) }
    {
        let Hall {
            lock,
            domain: _,
            stirred: _,
            alloc: _,
        } = self;
        let Recorded { house, log: _ } = lock.close(passes);
        Box::into_inner(house)
    }
}
