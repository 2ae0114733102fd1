//! Writing to a sink that takes bytes in pieces.
ghost use Rattle.std.specs.Prelude.{◌≡◌, ℕ, ◌≤◌, ◌++◌, List, Some, IfErr, OnOk, OnErr};
ghost use Rattle.outside.specs.Devices.{Rose};
ghost use Rattle.script_play.specs.Runs.{Front};

use crate::status::Status;
use outside::{Put, Sink};

/// Writes all of these bytes. Takes no memory.
pub fn write_all<K: Sink>(sink: &mut K, bytes: &[u8]) -> Result<(), Status>
    ensures falls { K.faults sink.old ≤ K.faults sink.new }
    ensures failed { OnErr result (Rose (K.faults sink.old) (K.faults sink.new)) }
    ensures told { IfErr result (λ s. s ≡ Status.WriteFault) }
    ensures added { (taken : List ℕ) → K.took sink.old ≡ Some taken → OnOk result (K.took sink.new ≡ Some (taken ++ bytes.now)) }
    ensures front { (taken : List ℕ) → K.took sink.old ≡ Some taken → OnErr result (Front taken bytes.now (K.took sink.new)) }
{
    let mut rest = bytes;
    for _turn in 0..=bytes.len() {
        if rest.is_empty() {
            return Ok(());
        }
        match sink.write(rest) {
            Put::Taken(count) => rest = &rest[count..],
            Put::Failed => return Err(Status::WriteFault),
        }
    }
    Ok(())
}
