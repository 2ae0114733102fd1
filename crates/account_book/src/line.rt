//! The account of a line.

ghost use Rattle.std.specs.Prelude.{◌≡◌, Some, IfOk, IfErr, IsTrue};
ghost use Rattle.jid_core.specs.Preparation.{is_local};
ghost use Rattle.account_book.specs.declared.fault.LineKind.TheVariants as kind;
ghost use Rattle.account_book.specs.Fields.{texts_of, on, bytes_in, sized, name_in, key_in};
ghost use Rattle.account_book.specs.Lines.{entry_in, line_of, IsFault, Reads};

use crate::account::Account;
use crate::fault::{LineFault, LineKind};
use crate::fields::{Fields, fields_of_line, read_rounds};
use base64::DecodeAllocError;
use base64::engine::general_purpose::STANDARD;
use jid_core::{JidFault, Part};
use scram_core::Keys;
use std::alloc::Global;

/// A local part that is written as it is prepared.
fn read_name(alloc: Global, text: &[u8]) -> Result<Part, LineFault>
    ensures ok { IfOk result (λ name. name_in text.now ≡ Some name) }
    ensures local { IfOk result (λ name. IsTrue (is_local name)) }
    ensures fault { IfErr result (IsFault kind.Name (name_in text.now)) }
{
    let name = match Part::local(alloc, text) {
        Ok(name) => name,
        Err(JidFault::NoMemory) => return Err(LineFault::NoMemory),
        Err(_) => return Err(LineFault::Faulty(LineKind::Name)),
    };
    if name.bytes() == text {
        Ok(name)
    } else {
        Err(LineFault::Faulty(LineKind::Name))
    }
}

/// The bytes that a text is the base64 of.
#[tactic(auto, unfolding(crate::specs::Fields::bytes_in))]
fn decode(alloc: Global, text: &[u8], kind: LineKind) -> Result<Vec<u8>, LineFault>
    ensures ok { IfOk result (λ bytes. bytes_in text.now ≡ Some bytes.items) }
    ensures fault { IfErr result (IsFault kind (bytes_in text.now)) }
{
    match STANDARD.decode(alloc, text) {
        Ok(bytes) => Ok(bytes),
        Err(DecodeAllocError::OutOfMemory) => Err(LineFault::NoMemory),
        Err(DecodeAllocError::DecodeError(_)) => Err(LineFault::Faulty(kind)),
    }
}

/// Base64 of so many bytes.
fn read_base64(
    alloc: Global,
    text: &[u8],
    least: usize,
    most: usize,
    kind: LineKind,
) -> Result<Vec<u8>, LineFault>
    ensures ok { IfOk result (λ bytes. on (bytes_in text.now) (sized least most) ≡ Some bytes.items) }
    ensures fault { IfErr result (IsFault kind (on (bytes_in text.now) (sized least most))) }
{
    let bytes = decode(alloc, text, kind)?;
    if least <= bytes.len() && bytes.len() <= most {
        Ok(bytes)
    } else {
        Err(LineFault::Faulty(kind))
    }
}

/// Base64 of a key.
fn read_key<const N: usize>(alloc: Global, text: &[u8]) -> Result<[u8; N], LineFault>
    ensures ok { IfOk result (λ key. key_in N text.now ≡ Some key) }
    ensures fault { IfErr result (IsFault kind.Key (key_in N text.now)) }
{
    let bytes = read_base64(alloc, text, N, N, LineKind::Key)?;
    let mut key = [0u8; N];
    key.copy_from_slice(bytes.as_slice());
    Ok(key)
}

/// The fewest bytes of a salt: so many tell 2^64 accounts apart.
pub const LEAST_SALT: usize = 8;

/// The most bytes of a salt: the block of both hashes. More would add nothing.
pub const MOST_SALT: usize = 64;

fn read_fields(alloc: Global, fields: &Fields) -> Result<Account, LineFault>
    ensures read { Reads (entry_in (texts_of fields.now)) result }
    ensures local { IfOk result (λ account. IsTrue (is_local account.name)) }
{
    let name = read_name(alloc, fields.name)?;
    let rounds = read_rounds(fields.rounds).ok_or(LineKind::Rounds)?;
    let salt = read_base64(alloc, fields.salt, LEAST_SALT, MOST_SALT, LineKind::Salt)?;
    let keys = Keys {
        rounds,
        salt,
        stored1: read_key(alloc, fields.stored1)?,
        server1: read_key(alloc, fields.server1)?,
        stored256: read_key(alloc, fields.stored256)?,
        server256: read_key(alloc, fields.server256)?,
    };
    Ok(Account { name, keys })
}

/// The account of a line.
pub(crate) fn read_line(alloc: Global, line: &[u8]) -> Result<Account, LineFault>
    ensures read { Reads (line_of line.now) result }
    ensures local { IfOk result (λ account. IsTrue (is_local account.name)) }
{
    let fields = fields_of_line(line).ok_or(LineKind::Fields)?;
    read_fields(alloc, &fields)
}
