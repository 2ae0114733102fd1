//! How a run of the program ends.
ghost use Rattle.std.specs.Prelude.{◌≡◌};

use stanza_tree::NoMemory;
use std::alloc::AllocFailed;

/// The end of a run. Each has a number for the system, and all but `Done` a line for people.
#[derive(Clone, Copy, Debug, PartialEq, Eq)]
pub enum Status {
    /// The command did its work.
    Done,
    /// The words are no command.
    Usage,
    /// That line of the accounts is not of its grammar.
    Accounts(u64),
    /// That line of the script is not of its grammar, or passes its limit.
    Script(u64),
    /// The source failed.
    ReadFault,
    /// The sink failed.
    WriteFault,
    /// No connections can be listened for.
    ListenFault,
    NoMemory,
}

impl Status {
    ghost use Rattle.script_play.specs.Statuses.{number_of};

    /// The number that the program ends with.
    pub fn number(self) -> u8
        ensures { result ≡ number_of self }
    {
        match self {
            Status::Done => 0,
            Status::Usage => 2,
            Status::Accounts(_) => 3,
            Status::Script(_) => 4,
            Status::ReadFault => 5,
            Status::WriteFault => 6,
            Status::ListenFault => 7,
            Status::NoMemory => 8,
        }
    }
}

impl From<NoMemory> for Status {
    ghost use Rattle.script_play.specs.declared.status.Status.TheVariants as status;

    ghost from_gives = { λ _ s. s ≡ status.NoMemory };

    fn from(_error: NoMemory) -> Status {
        Status::NoMemory
    }
}

impl<T: Drop> From<AllocFailed<T>> for Status {
    ghost use Rattle.script_play.specs.declared.status.Status.TheVariants as status;

    ghost from_gives = { λ _ s. s ≡ status.NoMemory };

    fn from(_error: AllocFailed<T>) -> Status {
        Status::NoMemory
    }
}
