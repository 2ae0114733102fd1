//! What is printed at the end.

ghost use Rattle.std.specs.Prelude.{◌≡◌, ◌⊎◌, ◌≤◌, ◌++◌, ℕ, List, IfErr, IfOk, OnOk, Some, length};
ghost use Rattle.hall.specs.Stories.{Stands};
ghost use Rattle.house_core.specs.Houses.{held};
ghost use Rattle.house_model.specs.Histories.{StandsFor, Turn, openings};
ghost use Rattle.house_model.specs.States.{State};
ghost use Rattle.outside.specs.Devices.{Rose};
ghost use Rattle.script_play.specs.Runs.{Front};
ghost use Rattle.serve_run.specs.Services.{report};

use house_core::House;
use outside::Sink;
use script_play::{Status, write_all};
use stanza_tree::NoMemory;
use std::alloc::Global;

/// How many connections came to a house and how many turns it had.
fn report_of(alloc: Global, house: &House) -> Result<Vec<u8>, NoMemory>
    ensures numbers { (o : State) (h : List Turn) → StandsFor o h (held house.now) → (house.now.table.opened ≡ openings h) × (house.now.turns ≡ length h) }
    ensures line { IfOk result (λ line. line.items ≡ report house.now.table.opened house.now.turns) }
{
    let links = house.opened();
    let turns = house.turns();
    let line = format!(in alloc; "links {} turns {}\n", links, turns)?;
    Ok(line.into_bytes())
}

/// Writes that.
pub(crate) fn print_report<K: Sink>(
    alloc: Global,
    house: &House,
    sink: &mut K,
) -> Result<(), Status>
    ensures falls { K.faults sink.old ≤ K.faults sink.new }
    ensures failed { IfErr result (λ s. s ≡ Status.WriteFault → Rose (K.faults sink.old) (K.faults sink.new)) }
    ensures others { IfErr result (λ s. (s ≡ Status.WriteFault) ⊎ (s ≡ Status.NoMemory)) }
    ensures numbers { (o : State) (h : List Turn) → Stands o h (held house.now) → (house.now.table.opened ≡ openings h) × (house.now.turns ≡ length h) }
    ensures written { (taken : List ℕ) → K.took sink.old ≡ Some taken
        → OnOk result (K.took sink.new ≡ Some (taken ++ report house.now.table.opened house.now.turns)) }
    ensures cut { (taken : List ℕ) → K.took sink.old ≡ Some taken
        → IfErr result (λ s. s ≡ Status.WriteFault → Front taken (report house.now.table.opened house.now.turns) (K.took sink.new)) }
    ensures silent { IfErr result (λ s. s ≡ Status.NoMemory → sink.new ≡ sink.old) }
{
    let line = report_of(alloc, house)?;
    write_all(sink, line.as_slice())
}
