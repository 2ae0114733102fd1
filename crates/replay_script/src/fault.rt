//! Why a line was not read.
ghost use Rattle.std.specs.Prelude.{◌≡◌};

use jid_core::JidFault;
use stanza_model::StanzaFault;
use stanza_tree::{NoMemory, TextFault};
use std::alloc::AllocFailed;
use stream_frames::Short;

/// Why a line was not read.
#[derive(Clone, Copy, Debug, PartialEq, Eq)]
pub enum LineFault {
    /// There was no memory for the step.
    NoMemory,
    /// It is of no grammar.
    Bad,
}

impl From<NoMemory> for LineFault {
    ghost use Rattle.replay_script.specs.declared.fault.LineFault.TheVariants as fault;

    ghost from_gives = { λ _ f. f ≡ fault.NoMemory };

    fn from(_error: NoMemory) -> LineFault {
        LineFault::NoMemory
    }
}

impl<T: Drop> From<AllocFailed<T>> for LineFault {
    ghost use Rattle.replay_script.specs.declared.fault.LineFault.TheVariants as fault;

    ghost from_gives = { λ _ f. f ≡ fault.NoMemory };

    fn from(_error: AllocFailed<T>) -> LineFault {
        LineFault::NoMemory
    }
}

impl From<TextFault> for LineFault {
    ghost use Rattle.replay_script.specs.Readings.{of_text};

    ghost from_gives = { λ e f. f ≡ of_text e };

    fn from(fault: TextFault) -> LineFault {
        match fault {
            TextFault::NoMemory => LineFault::NoMemory,
            TextFault::NotUtf8(_) => LineFault::Bad,
        }
    }
}

impl From<JidFault> for LineFault {
    ghost use Rattle.replay_script.specs.Readings.{of_address};

    ghost from_gives = { λ e f. f ≡ of_address e };

    fn from(fault: JidFault) -> LineFault {
        match fault {
            JidFault::NoMemory => LineFault::NoMemory,
            JidFault::Empty(_) => LineFault::Bad,
            JidFault::Long(_) => LineFault::Bad,
            JidFault::Bad(_, _) => LineFault::Bad,
        }
    }
}

impl From<StanzaFault> for LineFault {
    ghost use Rattle.replay_script.specs.Readings.{of_stanza};

    ghost from_gives = { λ e f. f ≡ of_stanza e };

    fn from(fault: StanzaFault) -> LineFault {
        match fault {
            StanzaFault::NoMemory => LineFault::NoMemory,
            StanzaFault::Unsupported => LineFault::Bad,
        }
    }
}

impl From<Short> for LineFault {
    ghost use Rattle.replay_script.specs.declared.fault.LineFault.TheVariants as fault;

    ghost from_gives = { λ _ f. f ≡ fault.NoMemory };

    fn from(_short: Short) -> LineFault {
        LineFault::NoMemory
    }
}
