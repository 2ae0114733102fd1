//! The system's clock and its random bytes.
ghost use Rattle.std.specs.Prelude.{◌≡◌, ◌≤◌, None};
ghost use Rattle.outside.specs.Devices.{Rose};

use outside::{Clock, Dice, Filled};
use std::marker::Model;
use std::random::RandomSource;
use std::time;

/// The system's clock: the wall's time at the start, and what went by since by a clock that nobody sets. Where one of them can't be read, the
/// moment stays what it was. It tells no moments.
#[derive(Drop)]
pub struct SystemClock<R: time::Clock + Drop> {
    rt: R,
    // The wall's time at the start less that of the other clock, both in milliseconds, once both were read.
    ahead: Option<u64>,
    last: u64,
}

impl<R: time::Clock + Drop> Model for SystemClock<R> {
    ghost use Rattle.std.specs.Prelude.{ℕ};

    ghost Value = { ℕ };

    ghost view = { λ c. c.last };
}

impl<R: time::Clock + Drop> SystemClock<R> {
    /// A clock that gave no moment yet.
    pub fn new(rt: R) -> SystemClock<R>
        ensures { result ≡ 0 }
    {
        let ahead = read_ahead(&rt);
        SystemClock { rt, ahead, last: 0 }
    }

    // In milliseconds since 1970-01-01T00:00:00Z.
    fn read(&self) -> Option<u64> {
        let since_start = millis(self.rt.monotonic().ok()?);
        Some(self.ahead?.saturating_add(since_start))
    }
}

fn read_ahead<R: time::Clock>(rt: &R) -> Option<u64> {
    let wall = millis(rt.since_1970().ok()?);
    let since_start = millis(rt.monotonic().ok()?);
    Some(wall.saturating_sub(since_start))
}

fn millis(time: time::Duration) -> u64 {
    u64::try_from(time.as_millis()).unwrap_or(u64::MAX)
}

impl<R: time::Clock + Drop> Clock for SystemClock<R> {
    ghost told = { λ _. None };

    fn moment(&mut self) -> u64
        ensures kept { self.old ≤ result }
        ensures last { self.new ≡ result }
    {
        if let Some(moment) = self.read() {
            self.last = self.last.max(moment);
        }
        self.last
    }
}

/// The system's random bytes. They count their failures, and tell no draws.
#[derive(Drop)]
pub struct SystemDice<R: RandomSource + Drop> {
    rt: R,
    faults: u64,
}

impl<R: RandomSource + Drop> Model for SystemDice<R> {
    ghost use Rattle.std.specs.Prelude.{ℕ};

    ghost Value = { ℕ };

    ghost view = { λ d. d.faults };
}

impl<R: RandomSource + Drop> SystemDice<R> {
    /// Dice that never failed.
    pub fn new(rt: R) -> SystemDice<R>
        ensures { result ≡ 0 }
    {
        SystemDice { rt, faults: 0 }
    }

    /// How often they failed.
    pub fn faults(&self) -> u64
        ensures { result ≡ self.now }
    {
        self.faults
    }
}

impl<R: RandomSource + Drop> Dice for SystemDice<R> {
    ghost drawn = { λ _. None };

    ghost faults = { λ d. d };

    fn fill(&mut self, into: &mut [u8]) -> Filled
        ensures kept { self.old ≤ self.new }
        ensures cause { result ≡ Filled.Failed → Rose self.old self.new }
    {
        match self.rt.fill_bytes(into) {
            Ok(()) => Filled::Full,
            Err(_) => {
                self.faults = self.faults.saturating_add(1);
                Filled::Failed
            }
        }
    }
}
