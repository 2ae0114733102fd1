//! What follows from the contract of [`serve`].

ghost use Rattle.std.specs.Prelude.{◌≡◌, ◌⊎◌, ◌<◌, ◌≤◌, ◌*◌, List, Ok, length};
ghost use Rattle.account_book.specs.Entries.{Entry};
ghost use Rattle.serve_run.specs.Limits.{most_list};
ghost use Rattle.serve_run.specs.Services.{entries_for};

use crate::serving::{Serving, serve};
use outside::{CleanPorts, CleanSink, CleanSource};
use script_play::Status;
use std::alloc::Global;
use std::sync::Wait;
use std::thread::Threads;

/// Over a source, a sink and ports that never fail, a list of accounts without a fault is served to the end, but for want of memory.
pub fn valid_lists_are_served<R: Threads + Wait + Sync>(
    rt: &R,
    alloc: Global,
    serving: &Serving,
    source: &mut CleanSource,
    sink: &mut CleanSink,
    ports: &mut CleanPorts,
) -> Status
    requires some { (0 < serving.now.workers) × (0 < serving.now.links) }
    requires few { serving.now.workers * serving.now.links ≤ 16384 }
    requires short { length source.old ≤ most_list serving.now.sessions }
    requires valid { (entries : List Entry) × (entries_for serving.now.sessions source.old ≡ Ok entries) }
    ensures ends { (result ≡ Status.Done) ⊎ (result ≡ Status.NoMemory) }
{
    serve(rt, alloc, serving, source, sink, ports)
}
