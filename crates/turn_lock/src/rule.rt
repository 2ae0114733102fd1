//! The rule that ties the lock's words, its slot and what the passes know, and the kinds of atomic
//! step that keep it. Nothing here exists when the program runs.
//!
//! Of the eight kinds `Peek`, `Draw`, `Look` and `PassOn` are steps on a word, `CopySeen` and
//! `DealNumber` are splits, and `TakeIn` is the join. The slot is taken and put by plain exchanges.
ghost use Rattle.std.specs.Prelude.{ℕ, List};

use crate::story::Storied;
use atomic_table::{Join, Play, Split, TableRule};
use std::collections::LinkedList;
use std::marker::PhantomData;
use std::snapshot::Snapshot;

/// How far a pass is on its way to a turn.
pub enum Stage {
    /// It wants no turn.
    Idle,
    /// It may draw a ticket.
    MayDraw,
    /// It waits with this ticket.
    Waits(u64),
    /// The turn of this ticket is its own, and the value is out with it.
    Works(u64),
}

/// A number that a pass has, with the places of that number's entries in the history.
pub struct Claim {
    pub number: u64,
    pub places: LinkedList<u64>,
}

/// What a pass knows. No value of it is ever made.
pub struct View<E, R> {
    /// The lock's root. A view that was taken in by another has none.
    pub root: Option<R>,
    pub stage: Stage,
    /// The mark of a pass with which a turn was refused.
    pub refused: bool,
    /// How many turns were drawn, as the pass last found it.
    pub drawn: u64,
    /// The numbers that the pass has: its own, and in `close` those that it took over.
    pub claims: LinkedList<Claim>,
    /// The history as far as the pass has seen it.
    pub seen: LinkedList<E>,
    /// What the views that it took in had seen, until it looks again.
    pub met: LinkedList<LinkedList<E>>,
}

/// What is fixed when the lock is made.
#[derive(Drop)]
pub struct Terms<T> {
    pub first: Snapshot<T>,
    pub passes: u32,
}

/// The rule. Word 0 is the next ticket, word 1 the turn being served, and slot 0 holds the value.
pub struct OneHistory<T> {
    marker: PhantomData<T>,
}

impl<T: Storied> TableRule<Option<T>, View<T::Entry, T::Root>, Terms<T>> for OneHistory<T> {
    ghost use Rattle.std.specs.Prelude.{Some, false, []};
    ghost use Rattle.turn_lock.specs.Views.{fresh, resting};
    ghost use Rattle.turn_lock.specs.Histories.{Kept};

    ghost holds = { λ k. Kept T.story T.line T.root (T.root k.first.value) k.passes };

    ghost first = { λ k. resting (Some (T.root k.first.value)) false 0 (fresh 0 k.passes) [] };
}

/// A load of the next ticket.
pub struct Peek<T> {
    marker: PhantomData<T>,
}

impl<T: Storied> Play<Option<T>, View<T::Entry, T::Root>> for Peek<T> {
    ghost use Rattle.turn_lock.specs.Steps.{peeked};

    ghost then = { peeked T.story T.root };
}

/// One more turn is drawn.
pub struct Draw<T> {
    marker: PhantomData<T>,
}

impl<T: Storied> Play<Option<T>, View<T::Entry, T::Root>> for Draw<T> {
    ghost use Rattle.turn_lock.specs.Steps.{drew};

    ghost then = { drew };
}

/// A load of the turn being served.
pub struct Look<T> {
    marker: PhantomData<T>,
}

impl<T: Storied> Play<Option<T>, View<T::Entry, T::Root>> for Look<T> {
    ghost use Rattle.turn_lock.specs.Steps.{looked};

    ghost then = { looked T.story T.line T.root };
}

/// The next turn is served.
pub struct PassOn<T> {
    marker: PhantomData<T>,
}

impl<T: Storied> Play<Option<T>, View<T::Entry, T::Root>> for PassOn<T> {
    ghost use Rattle.turn_lock.specs.Steps.{passed_on};

    ghost then = { passed_on T.story T.line };
}

/// A new view without a number or a mark, which has seen what this one has.
pub struct CopySeen;

impl<E, R> Split<View<E, R>> for CopySeen {
    ghost use Rattle.std.specs.Prelude.{false, []};
    ghost use Rattle.turn_lock.specs.Views.{resting};

    ghost left = { λ v. v };

    ghost right = { λ v. resting v.root false v.drawn [] v.seen };
}

/// A new view with the first of the numbers.
pub struct DealNumber;

impl<E, R> Split<View<E, R>> for DealNumber {
    ghost use Rattle.std.specs.Prelude.{false, drop, take};
    ghost use Rattle.turn_lock.specs.Views.{resting};

    ghost left = { λ v. record v { claims = drop 1 v.claims } };

    ghost right = { λ v. resting v.root false v.drawn (take 1 v.claims) v.seen };
}

/// A view takes in another, which is spent.
pub struct TakeIn;

impl<E, R> Join<View<E, R>> for TakeIn {
    ghost use Rattle.turn_lock.specs.Views.{spent, taken_in};

    ghost both = { taken_in };

    ghost spent = { spent };
}
