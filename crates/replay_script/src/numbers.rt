//! Numbers, dice, ids and bytes, as a script writes them.
ghost use Rattle.std.specs.Prelude.{◌≡◌, IfSome, ◌<◌};
ghost use Rattle.std.specs.Char.{is_ascii_uppercase};
ghost use Rattle.std.specs.List.{list_any};
ghost use Rattle.replay_script.specs.Numbers.{line_number_of, count_in, dice_of, id_spelt, may_be_bytes, bytes_of};
ghost use Rattle.replay_script.specs.Readings.{Gives};

use crate::fault::LineFault;
use hex::FromHexError;
use sm_resume::{ResumeId, read_digits, read_number};
use stanza_tree::Several;
use std::alloc::Global;

/// How many lines for connections a house may have: those that it notes.
pub(crate) const MOST_WORKERS: u64 = 1024;

/// The number of a line for a connection, below 1024.
pub(crate) fn read_line_number(field: &[u8]) -> Option<u32>
    ensures { result ≡ line_number_of field.now }
{
    let number = read_number(field)?;
    if number < MOST_WORKERS {
        Some(number as u32)
    } else {
        None
    }
}

/// A count of stanzas, below 2^32.
pub(crate) fn read_count(field: &[u8]) -> Option<u32>
    ensures { result ≡ count_in field.now }
{
    u32::try_from(read_number(field)?).ok()
}

/// Sixteen bytes as 32 lower-case hexadecimal digits.
pub(crate) fn read_dice(field: &[u8]) -> Option<[u8; 16]>
    ensures { result ≡ dice_of field.now }
{
    read_digits(field)
}

/// The id of a session that a token spells, or None where it spells none.
pub(crate) fn read_resume_id(token: &[u8]) -> Option<ResumeId>
    ensures { result ≡ id_spelt token.now }
{
    ResumeId::read(token)
}

fn has_upper(field: &[u8]) -> bool
    ensures { result ≡ list_any is_ascii_uppercase field.now }
{
    field.iter().any(|b| b.is_ascii_uppercase())
}

fn may_be_bytes(field: &[u8]) -> bool
    ensures { result ≡ may_be_bytes field.now }
{
    !field.is_empty() && !has_upper(field)
}

/// One or more bytes as pairs of lower-case hexadecimal digits.
pub(crate) fn read_bytes(alloc: Global, field: &[u8]) -> Result<Several<u8>, LineFault>
    ensures { Gives (bytes_of field.now) result }
{
    if !may_be_bytes(field) {
        return Err(LineFault::Bad);
    }
    match hex::decode(alloc, field) {
        Ok(bytes) => Ok(Several::of(bytes)),
        Err(FromHexError::OutOfMemory) => Err(LineFault::NoMemory),
        Err(FromHexError::OddLength) => Err(LineFault::Bad),
        Err(FromHexError::InvalidHexCharacter { .. }) => Err(LineFault::Bad),
        Err(FromHexError::InvalidStringLength) => Err(LineFault::Bad),
    }
}
