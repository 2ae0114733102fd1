//! Which calls of a memory form are to fail.
ghost use Rattle.std.specs.Prelude.{◌≡◌, ◌≤◌};
ghost use Rattle.outside.specs.Devices.{Rose};
ghost use Rattle.outside.specs.Plans.{called, failed, fails_next, planned};
ghost use Rattle.outside.specs.Posts.{plus};

use std::marker::Model;

/// The numbers, from 1, of the calls that are to fail; how many calls there were; and how many faults.
#[derive(Drop)]
pub(crate) struct Plan {
    fails: Vec<u64>,
    calls: u64,
    faults: u64,
}

impl Model for Plan {
    ghost use Rattle.outside.specs.Plans as plans;

    ghost Value = { plans.Plan };

    ghost view = { λ p. record { fails = p.fails.items; calls = p.calls; faults = p.faults } };
}

impl Plan {
    pub fn new(fails: Vec<u64>) -> Plan
        ensures { result ≡ planned fails.items }
    {
        Plan {
            fails,
            calls: 0,
            faults: 0,
        }
    }

    /// Whether the next call is to fail.
    pub fn fails_next(&self) -> bool
        ensures { result ≡ fails_next self.now }
    {
        self.fails.contains(&self.calls.saturating_add(1))
    }

    /// Counts a call that was answered.
    pub fn call(&mut self)
        ensures { self.new ≡ called self.old }
    {
        self.calls = self.calls.saturating_add(1);
    }

    /// Counts a call that failed.
    pub fn fail(&mut self)
        ensures state { self.new ≡ failed self.old }
        ensures kept { self.old.faults ≤ self.new.faults }
        ensures rose { Rose self.old.faults self.new.faults }
    {
        self.calls = self.calls.saturating_add(1);
        self.faults = self.faults.saturating_add(1);
    }

    /// Adds faults of another.
    pub fn add(&mut self, faults: u64)
        ensures state { self.new ≡ record self.old { faults = plus self.old.faults faults } }
        ensures kept { self.old.faults ≤ self.new.faults }
    {
        self.faults = self.faults.saturating_add(faults);
    }

    pub fn faults(&self) -> u64
        ensures { result ≡ self.now.faults }
    {
        self.faults
    }
}
