//! Counts of stanzas as XEP-0198 sends them: numbers modulo 2^32, and what can be said of the true
//! numbers behind them.
//!
//! No call takes memory and none can fail.
#![tactic(auto)]

ghost use Rattle.std.specs.Prelude.{◌≡◌, ℕ, ◌+◌, ◌-◌, ◌^◌, ◌<◌, ◌≤◌, ◌↔◌, Option, IfSome, IsNone};
ghost use Rattle.std.specs.Option.{option_map};
ghost use Rattle.sm_counters.specs.Numbers.{count_of, distance, number};

use std::marker::Model;

pub mod laws;

/// A count of stanzas: the number of those handled or sent, modulo 2^32 (XEP-0198, 4). Contracts see
/// it as that remainder.
#[derive(Clone, Copy, Debug, PartialEq, Eq)]
pub struct Count(pub u32);

impl Model for Count {
    ghost Value = { ℕ };

    ghost view = { λ count. count.0 };

    ghost inverse = { λ count. record { 0 = count } };

    ghost invariant = { λ count. count.0 < 2 ^ 32 };
}

impl Count {
    /// The count after one stanza more, where 0 follows 2^32 - 1.
    pub fn plus_one(self) -> Count
        ensures next { result ≡ count_of (self + 1) }
        ensures counts { (n : ℕ) → self ≡ count_of n → result ≡ count_of (n + 1) }
    {
        Count(self.0.wrapping_add(1))
    }
}

/// How many stanzas one count is ahead of another: the one number below 2^32 by which `from` has to
/// be raised to reach `to`.
pub fn ahead(from: Count, to: Count) -> u32
    ensures distance { result ≡ distance from to }
    ensures reaches { count_of (from + result) ≡ to }
    ensures numbers { (a n : ℕ) → from ≡ count_of a → to ≡ count_of n → a ≤ n → n < a + 2 ^ 32
        → result ≡ n - a }
    ensures itself { result ≡ 0 ↔ (from ≡ to) }
{
    to.0.wrapping_sub(from.0)
}

/// The place of the count `h` in a window of `length` stanzas that begins after `base`: how many of
/// these stanzas `h` counts. None where `h` counts none that the window has.
pub fn within(base: Count, length: u32, h: Count) -> Option<u32>
    ensures number { (a : ℕ) → base ≡ count_of a
        → result ≡ option_map (λ n. n - a) (number a (a + length) h) }
    ensures place { IfSome result (λ place. (place ≡ distance base h) × (place ≤ length)) }
    ensures outside { IsNone result ↔ (length < distance base h) }
{
    let place = ahead(base, h);
    if place <= length { Some(place) } else { None }
}
