//! Which section of a drill comes next, as a key draws it.
ghost use Rattle.std.specs.Prelude.{◌≡◌, ◌<◌, ◌≤◌, ◌++◌};
ghost use Rattle.replay_script.specs.Drills.{after_round, draws, drawn, orders, round, stirred};
ghost use Rattle.replay_script.specs.DrillSections.{IsCut, last_moment, orders_in, task_for, to_come};

use crate::drill_section::{CLIENTS, Client, Section, Task};

/// How many milliseconds a round lasts.
const ROUND: u64 = 1000;

/// The next number of a linear congruential generator modulo 2^64, as Knuth gives it for MMIX.
pub(crate) fn stirred(x: u64) -> u64
    ensures { result ≡ stirred x }
{
    x.wrapping_mul(6_364_136_223_846_793_005)
        .wrapping_add(1_442_695_040_888_963_407)
}

/// A number below `k`, from the upper bits.
pub(crate) fn drawn(k: u64, x: u64) -> u64
    requires { 0 < k }
    ensures drawn { result ≡ drawn k x }
    ensures small { result < k }
{
    (x >> 33) % k
}

/// Whether a number is drawn for this operation.
fn draws(op: u64) -> bool
    ensures { result ≡ draws op }
{
    op == 3 || op == 7
}

/// The first task of an operation by its number.
fn task_for(op: u64) -> Task
    ensures { result ≡ task_for op }
{
    if op < 3 {
        Task::SayInRoom
    } else if op == 3 {
        Task::SayToClient
    } else if op < 6 {
        Task::PullAll
    } else if op == 6 {
        Task::AckAll
    } else {
        Task::DropLine
    }
}

/// The section that round `k` is, after x.
#[tactic(auto, using(crate::proofs::DrillOrders::round_orders))]
fn section_of_round(k: u32, x: u64) -> Section
    ensures { orders_in result ≡ round k x }
{
    let who = stirred(x);
    let what = stirred(who);
    Section {
        client: Client::of(drawn(8, who) as u32),
        round: k,
        moment: ROUND * u64::from(k),
        drawn: stirred(what),
        task: task_for(drawn(8, what)),
    }
}

/// What was drawn last in a round, after x.
fn after_round(x: u64) -> u64
    ensures { result ≡ after_round x }
{
    let what = stirred(stirred(x));
    if draws(drawn(8, what)) {
        stirred(what)
    } else {
        what
    }
}

/// How far a drill has come: how many clients have come, how many rounds were played of how many, how many clients have pulled all
/// at the end and how many have closed their streams, and what was drawn last.
#[derive(Clone, Copy)]
pub struct Schedule {
    pub entered: u32,
    pub rounds: u32,
    pub played: u32,
    pub pulled: u32,
    pub closed: u32,
    pub drawn: u64,
}

impl Schedule {
    /// The sections of a drill of `rounds` rounds by a key.
    pub(crate) fn new(rounds: u32, key: u64) -> Schedule
        ensures { to_come result ≡ orders rounds key }
    {
        Schedule {
            entered: 0,
            rounds,
            played: 0,
            pulled: 0,
            closed: 0,
            drawn: key,
        }
    }

    /// The next section.
    pub(crate) fn next(&mut self) -> Option<Section>
        ensures { IsCut (to_come self.old) result (to_come self.new) }
    {
        if self.entered < CLIENTS {
            Some(self.start())
        } else if self.played < self.rounds {
            Some(self.round())
        } else if self.pulled < CLIENTS {
            Some(self.pull())
        } else if self.closed < CLIENTS {
            Some(self.close())
        } else {
            None
        }
    }

    /// The next client comes.
    fn start(&mut self) -> Section
        requires { self.old.entered < 8 }
        ensures { orders_in result ++ to_come self.new ≡ to_come self.old }
    {
        let client = Client::of(self.entered);
        self.entered += 1;
        Section {
            client,
            round: 0,
            moment: 0,
            drawn: 0,
            task: Task::Open,
        }
    }

    /// The next round.
    fn round(&mut self) -> Section
        requires { (8 ≤ self.old.entered) × (self.old.played < self.old.rounds) }
        ensures { orders_in result ++ to_come self.new ≡ to_come self.old }
    {
        let section = section_of_round(self.played + 1, self.drawn);
        self.played += 1;
        self.drawn = after_round(self.drawn);
        section
    }

    fn last_moment(&self) -> u64
        ensures { result ≡ last_moment self.now }
    {
        ROUND * (u64::from(self.rounds) + 1)
    }

    /// The next client pulls all that waits.
    fn pull(&mut self) -> Section
        requires { (8 ≤ self.old.entered) × (self.old.rounds ≤ self.old.played) × (self.old.pulled < 8) }
        ensures { orders_in result ++ to_come self.new ≡ to_come self.old }
    {
        let client = Client::of(self.pulled);
        self.pulled += 1;
        Section {
            client,
            round: 0,
            moment: self.last_moment(),
            drawn: 0,
            task: Task::PullAll,
        }
    }

    /// The next client closes its stream.
    fn close(&mut self) -> Section
        requires { (8 ≤ self.old.entered) × (self.old.rounds ≤ self.old.played) × (8 ≤ self.old.pulled) × (self.old.closed < 8) }
        ensures { orders_in result ++ to_come self.new ≡ to_come self.old }
    {
        let client = Client::of(self.closed);
        self.closed += 1;
        Section {
            client,
            round: 0,
            moment: self.last_moment(),
            drawn: 0,
            task: Task::CloseLine,
        }
    }
}
