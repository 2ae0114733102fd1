//! What a caller of the lock has in hand.
use crate::rule::View;
use crate::story::Storied;
use atomic_table::Seat;
use std::alloc::AllocError;

/// The refusal of a call that found no memory.
pub type NoMemory = AllocError;

/// The right to ask for turns. Its number is the line of its entries. In proofs it has what its caller
/// has seen of the history, the places of the caller's own entries, and the mark that it gets where a
/// turn is refused.
#[derive(Drop)]
pub struct Pass<T: Storied> {
    pub(crate) seat: Seat<Option<T>, View<T::Entry, T::Root>>,
    pub(crate) number: u32,
}

impl<T: Storied> Pass<T> {
    ghost use Rattle.std.specs.Prelude.{◌≡◌};
    ghost use Rattle.turn_lock.specs.Passes.{number_of};

    /// The place of the pass among those that `start` made, counted from 0.
    pub fn number(&self) -> u32
        ensures { result ≡ number_of self.now }
    {
        self.number
    }
}

/// A turn: the value is out with its caller until `leave`.
#[derive(Drop)]
pub struct Turn<T> {
    pub value: T,
}

/// No turn is left: 2^63 were drawn.
#[derive(Clone, Copy, Debug, PartialEq, Eq)]
pub struct Spent;
