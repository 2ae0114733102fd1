//! The log, and what its entries are made of.
ghost use Rattle.std.specs.Prelude.{◌≡◌, List, [], ◌∷◌, ◌++◌};
ghost use Rattle.std.specs.Borrow.{ftrue};
ghost use Rattle.std.specs.Coded.{coded_list};

use std::marker::{Model, PhantomData};

/// A value that tells an entry.
pub trait Tells<E> {
    ghost entry: { Self → E };
}

/// A list of entries that only clauses read. It owns nothing and has no bytes.
#[derive(Drop)]
pub struct GhostLog<E> {
    of: PhantomData<E>,
    pub ghost entries: { List E } by { coded_list E.code },
}

impl<E> Model for GhostLog<E> {
    ghost also_owns = { λ _. ftrue };
}

// It owns nothing.
unsafe impl<E> Send for GhostLog<E> {}

impl<E> GhostLog<E> {
    /// The log without an entry.
    pub fn empty() -> GhostLog<E>
        ensures { result.entries ≡ [] }
    {
        GhostLog { of: PhantomData }
    }

    /// The log with one entry more, the one that this value tells.
    pub fn with<A: Tells<E>>(&self, told: &A) -> GhostLog<E>
        ensures { result.entries ≡ self.now.entries ++ A.entry told.now ∷ [] }
    {
        GhostLog { of: PhantomData }
    }
}
