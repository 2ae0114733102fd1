//! Why posts could not be made.
ghost use Rattle.std.specs.Prelude.{◌≡◌};

use std::alloc::{AllocError, AllocFailed};
use std::io;

#[derive(Clone, Copy, Debug)]
pub(crate) enum OpenFault {
    NoMemory,
    /// The address is none of this machine's own, or the system refused it.
    System,
}

impl From<AllocError> for OpenFault {
    ghost use Rattle.outside_net.specs.declared.open_fault.OpenFault.TheVariants as fault;

    ghost from_gives = { λ _ f. f ≡ fault.NoMemory };

    fn from(_error: AllocError) -> OpenFault {
        OpenFault::NoMemory
    }
}

impl<T: Drop> From<AllocFailed<T>> for OpenFault {
    ghost use Rattle.outside_net.specs.declared.open_fault.OpenFault.TheVariants as fault;

    ghost from_gives = { λ _ f. f ≡ fault.NoMemory };

    fn from(_error: AllocFailed<T>) -> OpenFault {
        OpenFault::NoMemory
    }
}

impl From<io::Error> for OpenFault {
    ghost use Rattle.outside_net.specs.declared.open_fault.OpenFault.TheVariants as fault;

    ghost from_gives = { λ _ f. f ≡ fault.System };

    fn from(_error: io::Error) -> OpenFault {
        OpenFault::System
    }
}
