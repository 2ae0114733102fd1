//! Random bytes. Dice count their faults.
ghost use Rattle.std.specs.Prelude.{◌≡◌, ℕ, ◌<◌, ◌≤◌, [], List, length, take, drop, replicate, Some, None, Option, IfOk};
ghost use Rattle.outside.specs.Devices.{Rose};
ghost use Rattle.outside.specs.Draws.{Draws, Fills, drew, filled_up};
ghost use Rattle.outside.specs.Plans.{failed, planned};

use crate::plan::Plan;
use std::alloc::{AllocError, Global};
use std::marker::Model;

/// What came of a filling.
#[derive(Clone, Copy, Debug, PartialEq, Eq)]
pub enum Filled {
    /// Every byte was drawn.
    Full,
    Failed,
}

/// A source of random bytes. Dice may tell what was drawn.
pub trait Dice {
    ghost drawn: { Self → Option (List (List ℕ)) };

    ghost faults: { Self → ℕ };

    fn fill(&mut self, into: &mut [u8]) -> Filled
        ensures drawn { Draws (drawn self.old) (drawn self.new) result into.new }
        ensures kept { faults self.old ≤ faults self.new }
        ensures cause { result ≡ Filled.Failed → Rose (faults self.old) (faults self.new) };
}

/// Dice in memory, which give their bytes in turn and tell what was drawn. The calls whose numbers, from 1, are among
/// `fails` fail, and so does one for which too few bytes are left, or no room to keep it.
#[derive(Drop)]
pub struct MemDice {
    plan: Plan,
    bytes: Vec<u8>,
    at: usize,
    draws: Vec<usize>,
    tells: bool,
}

impl Model for MemDice {
    ghost use Rattle.std.specs.Prelude.{◌≡◌, ◌≤◌, ℕ, ◌-◌, List, length, take, drop, vec_capacity, vec_len};
    ghost use Rattle.outside.specs.Draws.{DiceState, pieces, total};
    ghost use Rattle.outside.specs.Tapes.{told_where};

    ghost Value = { DiceState };

    ghost view = { λ d. record {
      plan = d.plan;
      left = drop d.at d.bytes.items;
      drawn = told_where (List ℕ) d.tells (pieces d.draws.items (take d.at d.bytes.items));
      room = vec_capacity d.draws - vec_len d.draws;
    } };

    ghost invariant = { λ d. (d.at ≤ length d.bytes.items) × (total d.draws.items ≡ d.at) };
}

impl MemDice {
    /// Dice that are to give these bytes, with room for so many draws.
    pub fn new(
        alloc: Global,
        bytes: Vec<u8>,
        fails: Vec<u64>,
        calls: usize,
    ) -> Result<MemDice, AllocError>
        ensures { IfOk result (λ d. d ≡ record { plan = planned fails.items; left = bytes.items; drawn = Some []; room = calls }) }
    {
        Ok(MemDice {
            plan: Plan::new(fails),
            bytes,
            at: 0,
            draws: Vec::with_capacity(alloc, calls)?,
            tells: true,
        })
    }

    /// How often they failed.
    pub fn faults(&self) -> u64
        ensures { result ≡ self.now.plan.faults }
    {
        self.plan.faults()
    }

    fn fail(&mut self) -> Filled
        ensures result { result ≡ Filled.Failed }
        ensures state { self.new ≡ record self.old { plan = failed self.old.plan } }
        ensures kept { self.old.plan.faults ≤ self.new.plan.faults }
        ensures rose { Rose self.old.plan.faults self.new.plan.faults }
    {
        self.plan.fail();
        Filled::Failed
    }

    /// Draws as many bytes as there are places.
    #[tactic(auto, using(crate::proofs::DrawLemmas::drawn_more, crate::proofs::DrawLemmas::total_and_last))]
    fn draw(&mut self, into: &mut [u8])
        requires enough { length into.old ≤ length self.old.left }
        requires room { 0 < self.old.room }
        ensures bytes { into.new ≡ take (length into.old) self.old.left }
        ensures state { self.new ≡ drew self.old into.new }
    {
        let count = into.len();
        self.plan.call();
        into.copy_from_slice(&self.bytes[self.at..self.at + count]);
        self.draws.push_reserved(count);
        self.at += count;
    }
}

impl Dice for MemDice {
    ghost drawn = { λ d. d.drawn };

    ghost faults = { λ d. d.plan.faults };

    fn fill(&mut self, into: &mut [u8]) -> Filled
        ensures drawn { Draws self.old.drawn self.new.drawn result into.new }
        ensures kept { self.old.plan.faults ≤ self.new.plan.faults }
        ensures cause { result ≡ Filled.Failed → Rose self.old.plan.faults self.new.plan.faults }
        ensures fills { Fills self.old self.new result into.new }
    {
        if self.plan.fails_next() {
            return self.fail();
        }
        let count = into.len();
        if self.bytes.len() - self.at < count {
            return self.fail();
        }
        if self.draws.len() == self.draws.capacity() {
            self.tells = false;
            return self.fail();
        }
        self.draw(into);
        Filled::Full
    }
}

/// Dice that never fail: they give their bytes in turn, and then zeros. What was drawn they don't tell.
#[derive(Drop)]
pub struct CleanDice {
    bytes: Vec<u8>,
    at: usize,
}

impl Model for CleanDice {
    ghost use Rattle.std.specs.Prelude.{List, ℕ, drop, length, ◌≤◌};

    ghost Value = { List ℕ };

    ghost view = { λ d. drop d.at d.bytes.items };

    ghost invariant = { λ d. d.at ≤ length d.bytes.items };
}

impl CleanDice {
    /// Dice that are to give these bytes, and then zeros. Takes no memory.
    pub fn new(bytes: Vec<u8>) -> CleanDice
        ensures { result ≡ bytes.items }
    {
        CleanDice { bytes, at: 0 }
    }
}

fn zero(into: &mut [u8])
    ensures { into.new ≡ replicate (length into.old) 0 }
{
    into.fill(0);
}

impl Dice for CleanDice {
    ghost drawn = { λ _. None };

    ghost faults = { λ _. 0 };

    #[tactic(auto, using(crate::proofs::DrawLemmas::then_zeros, crate::proofs::DrawLemmas::then_left))]
    fn fill(&mut self, into: &mut [u8]) -> Filled
        ensures full { result ≡ Filled.Full }
        ensures bytes { into.new ≡ filled_up self.old (length into.old) }
        ensures left { self.new ≡ drop (length into.old) self.old }
    {
        let rest = &self.bytes.as_slice()[self.at..];
        let count = rest.len().min(into.len());
        zero(into);
        into[..count].copy_from_slice(&rest[..count]);
        self.at += count;
        Filled::Full
    }
}
