//! `drill`: runs a drill and writes its line.
ghost use Rattle.std.specs.Prelude.{◌≡◌, IfOk};
ghost use Rattle.outside.specs.Devices.{Rose};
ghost use Rattle.drill_run.specs.Endings.{Drilled, Ends};

use crate::course::Course;
use outside::Sink;
use script_play::{Status, write_all};
use stanza_tree::NoMemory;
use std::alloc::Global;

/// Runs the drill of `n` rounds by a key, and writes its line. Costs its turns, and memory for the house and one frame. It reads nothing, and takes
/// no moments from a clock: the same `n` and `key` give the same line.
pub fn drill<K: Sink>(alloc: Global, n: u32, key: u64, sink: &mut K) -> Status
    ensures drilled { Ends K.took n key sink.old sink.new result }
    ensures written { result ≡ Status.WriteFault → Rose (K.faults sink.old) (K.faults sink.new) }
{
    let Ok(line) = line_of(alloc, n, key) else {
        return Status::NoMemory;
    };
    match write_all(sink, line.as_slice()) {
        Ok(()) => Status::Done,
        Err(status) => status,
    }
}

/// The line of a drill, once it was run.
fn line_of(alloc: Global, n: u32, key: u64) -> Result<Vec<u8>, NoMemory>
    ensures { IfOk result (λ line. Drilled n key line.items) }
{
    let mut course = Course::new(alloc, n, key)?;
    course.run(alloc, n)
}
