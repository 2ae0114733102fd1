//! Why a list of accounts was not read.

use jid_core::JidFault;
use std::alloc::{AllocError, AllocFailed};

/// What is at fault in an account line. The kinds are tried in this order, and the first that fits is told.
#[derive(Clone, Copy, Debug, PartialEq, Eq)]
pub enum LineKind {
    /// It has not seven fields with one space between, or no LF at its end.
    Fields,
    /// The name is no prepared local part.
    Name,
    /// The rounds are no decimal from 4096 to 1000000 without leading zeros.
    Rounds,
    /// The salt is no base64 of 8 to 64 bytes.
    Salt,
    /// A key is no base64 of 20 bytes, over SHA-1, or of 32, over SHA-256.
    Key,
    /// An earlier line has the same name.
    Twice,
    /// As many lines stand before it as the list may have.
    TooMany,
}

/// Why a list of accounts was not read.
#[derive(Clone, Copy, Debug, PartialEq, Eq)]
pub enum BookFault {
    /// There was no memory for the accounts.
    NoMemory,
    /// The first line that is at fault, counted from 1, and the first kind that fits it.
    Line { line: u64, kind: LineKind },
}

/// Why a line was not read.
pub(crate) enum LineFault {
    NoMemory,
    Faulty(LineKind),
}

impl From<LineKind> for LineFault {
    ghost use Rattle.std.specs.Prelude.{◌≡◌};
    ghost use Rattle.account_book.specs.declared.fault.LineFault.TheVariants as fault;

    ghost from_gives = { λ kind f. f ≡ fault.Faulty kind };

    fn from(kind: LineKind) -> LineFault {
        LineFault::Faulty(kind)
    }
}

impl From<AllocError> for LineFault {
    ghost use Rattle.std.specs.Prelude.{◌≡◌};
    ghost use Rattle.account_book.specs.declared.fault.LineFault.TheVariants as fault;

    ghost from_gives = { λ _ f. f ≡ fault.NoMemory };

    fn from(_error: AllocError) -> LineFault {
        LineFault::NoMemory
    }
}

impl From<AllocError> for BookFault {
    ghost use Rattle.std.specs.Prelude.{◌≡◌};
    ghost use Rattle.account_book.specs.declared.fault.BookFault.TheVariants as fault;

    ghost from_gives = { λ _ f. f ≡ fault.NoMemory };

    fn from(_error: AllocError) -> BookFault {
        BookFault::NoMemory
    }
}
