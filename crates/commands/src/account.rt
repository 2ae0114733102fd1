//! `account`: makes the account line of a name and a password.
ghost use Rattle.std.specs.Prelude.{◌≡◌, ◌≤◌, nat_lt, ◌&&◌, [], length, IfOk, IfErr};
ghost use Rattle.outside.specs.Devices.{Rose};
ghost use Rattle.commands.specs.Accounts.{Accounted, GivesByte, IsPassword, IsRead, ReadsAtMost, Refuses, is_printable};

use account_book::make_line;
use jid_core::Part;
use outside::{Got, Sink, Source};
use script_play::{Status, write_all};
use std::alloc::Global;

/// How many bytes a password may have: more than anyone types, and few enough for one reading.
const MOST_PASSWORD: usize = 256;

/// Reads a password line and writes the account line of this name with this salt, of 4096 rounds (RFC 5802, section 3; RFC 7677).
/// It reads no further than the first byte that no password line has there, and at most 258 bytes.
pub fn account<S: Source, K: Sink>(
    alloc: Global,
    name: &Part,
    salt: &[u8],
    source: &mut S,
    sink: &mut K,
) -> Status
    ensures accounted { Accounted K.took name.now salt.now (S.left source.old) (S.left source.new) sink.old sink.new result }
    ensures few { ReadsAtMost 258 (S.left source.old) (S.left source.new) }
    ensures read { result ≡ Status.ReadFault → Rose (S.faults source.old) (S.faults source.new) }
    ensures written { result ≡ Status.WriteFault → Rose (K.faults sink.old) (K.faults sink.new) }
{
    let password = match read_password(alloc, source) {
        Ok(password) => password,
        Err(status) => return status,
    };
    let Ok(line) = make_line(alloc, name, password.as_slice(), salt) else {
        return Status::NoMemory;
    };
    match write_all(sink, line.as_slice()) {
        Ok(()) => Status::Done,
        Err(status) => status,
    }
}

/// Reads a password line and the end of the source after it.
fn read_password<S: Source>(alloc: Global, source: &mut S) -> Result<Vec<u8>, Status>
    ensures falls { S.faults source.old ≤ S.faults source.new }
    ensures failed { IfErr result (λ s. s ≡ Status.ReadFault → Rose (S.faults source.old) (S.faults source.new)) }
    ensures valid { IfOk result (λ password. IsPassword password.items) }
    ensures read { IfOk result (λ password. IsRead password.items (S.left source.old) (S.left source.new)) }
    ensures refused { IfErr result (Refuses (S.left source.old)) }
    ensures few { ReadsAtMost 258 (S.left source.old) (S.left source.new) }
{
    let mut password = Vec::new(alloc);
    for _count in 0..=MOST_PASSWORD {
        let byte = match read_byte(source)? {
            Some(byte) => byte,
            None => return unless_empty(password),
        };
        if byte == b'\n' {
            return match read_byte(source)? {
                Some(_) => Err(Status::Accounts(1)),
                None => unless_empty(password),
            };
        }
        if !fits(password.as_slice(), byte) {
            return Err(Status::Accounts(1));
        }
        password.push(byte)?;
    }
    unreachable!()
}

/// Whether a password may go on with this byte: it is printable ASCII, and fewer than 256 bytes are before it.
fn fits(password: &[u8], byte: u8) -> bool
    ensures { result ≡ (nat_lt (length password.now) 256 && is_printable byte) }
{
    password.len() < MOST_PASSWORD && (32..=126).contains(&byte)
}

/// The password of a line that ended, if it has any bytes.
fn unless_empty(password: Vec<u8>) -> Result<Vec<u8>, Status>
    ensures some { IfOk result (λ kept. (kept.items ≡ password.items) × (1 ≤ length kept.items)) }
    ensures none { IfErr result (λ s. (s ≡ Status.Accounts 1) × (password.items ≡ [])) }
{
    if password.is_empty() {
        Err(Status::Accounts(1))
    } else {
        Ok(password)
    }
}

/// Reads one byte. None where the source is at its end.
fn read_byte<S: Source>(source: &mut S) -> Result<Option<u8>, Status>
    ensures falls { S.faults source.old ≤ S.faults source.new }
    ensures failed { IfErr result (λ s. (s ≡ Status.ReadFault) × Rose (S.faults source.old) (S.faults source.new)) }
    ensures gives { GivesByte (S.left source.old) (S.left source.new) result }
{
    let mut byte = [0u8; 1];
    match source.read(&mut byte) {
        Got::Bytes(_) => Ok(Some(byte[0])),
        Got::End => Ok(None),
        Got::Failed => Err(Status::ReadFault),
    }
}
