//! The list of accounts.

ghost use Rattle.std.specs.Prelude.{◌≡◌, ◌⊎◌, ◌≤◌, IfErr, IfOk};
ghost use Rattle.outside.specs.Devices.{Rose};
ghost use Rattle.serve_run.specs.Services.{ReadsList};

use crate::limits::most_list;
use outside::{Got, Source};
use script_play::Status;
use std::alloc::Global;

/// How many bytes one reading of the list asks for: a page.
const PIECE: usize = 4096;

/// What the source has, to its end or past as many bytes as a list for so many sessions may have.
pub(crate) fn read_list<S: Source>(
    alloc: Global,
    source: &mut S,
    sessions: u32,
) -> Result<Vec<u8>, Status>
    ensures read { IfOk result (λ list. ReadsList sessions (S.left source.old) (S.left source.new) list.items) }
    ensures falls { S.faults source.old ≤ S.faults source.new }
    ensures failed { IfErr result (λ s. s ≡ Status.ReadFault → Rose (S.faults source.old) (S.faults source.new)) }
    ensures others { IfErr result (λ s. (s ≡ Status.ReadFault) ⊎ (s ≡ Status.NoMemory)) }
{
    let most = most_list(sessions);
    let mut list = Vec::new(alloc);
    let mut buffer = [0u8; PIECE];
    while list.len() <= most {
        match source.read(&mut buffer) {
            Got::Bytes(count) => list.extend_from_slice(&buffer[..count])?,
            Got::End => return Ok(list),
            Got::Failed => return Err(Status::ReadFault),
        }
    }
    Ok(list)
}
