//! Why bytes were not read as an address or a part of one.
ghost use Rattle.std.specs.Prelude.{◌≡◌};

use std::alloc::AllocError;
pub use std::alloc::AllocError as NoMemory;

/// A part of an address.
#[derive(Clone, Copy, Debug, PartialEq, Eq)]
pub enum Which {
    Local,
    Domain,
    Resource,
}

/// Why bytes were not read. Parts are tried in the order local part, domain, resource, and the first fault is told.
#[derive(Clone, Copy, Debug, PartialEq, Eq)]
pub enum JidFault {
    /// There was no memory for the address.
    NoMemory,
    /// The part has no bytes (RFC 7622, 3.2 to 3.4).
    Empty(Which),
    /// The prepared part has more than 1,023 bytes.
    Long(Which),
    /// The byte at this place of the part is not allowed there. A domain is refused as a whole, at 0, and so is a local part that is not
    /// in Normalization Form C.
    Bad(Which, usize),
}

impl From<AllocError> for JidFault {
    ghost use Rattle.jid_core.specs.declared.fault.JidFault.TheVariants as fault;

    ghost from_gives = { λ _ f. f ≡ fault.NoMemory };

    fn from(_error: AllocError) -> JidFault {
        JidFault::NoMemory
    }
}
