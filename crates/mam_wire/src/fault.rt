//! Why a query is refused.
ghost use Rattle.std.specs.Prelude.{◌≡◌};

use stanza_tree::NoMemory;

/// Why an element was not read as a query (XEP-0313, 4.1).
#[derive(Clone, Copy, Debug, PartialEq, Eq)]
pub enum QueryFault {
    /// There was no memory for it.
    NoMemory,
    /// A part of it can't be read.
    BadRequest,
    /// It asks for what archives here don't do.
    NotImplemented,
}

impl From<NoMemory> for QueryFault {
    ghost use Rattle.mam_wire.specs.declared.fault.QueryFault.TheVariants as fault;

    ghost from_gives = { λ _ f. f ≡ fault.NoMemory };

    fn from(_error: NoMemory) -> QueryFault {
        QueryFault::NoMemory
    }
}
