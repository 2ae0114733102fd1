//! Room for more sessions.

ghost use Rattle.std.specs.Prelude.{◌≡◌, ℕ, ◌<◌, ◌≤◌, ◌+◌, ◌*◌, ◌^◌, filter, is_some, length, [], IfSome, IfOk, OnOk, OnErr};
ghost use Rattle.indexmap.specs.IndexMap.{spare};
ghost use Rattle.session_table.specs.Indexes.{AreWakes, is_filled, present};

use crate::slots::{Slot, Slots};
use crate::wakes::Wakes;
use stanza_tree::NoMemory;
use std::alloc::Global;

// So many levels that there are places for twice as many.
fn levels_for(many: usize) -> Option<u32>
    ensures { IfSome result (λ levels. (levels ≤ 40) × (2 * many < 2 ^ levels)) }
{
    for levels in 5..41 {
        if many < 1usize << (levels - 1) {
            return Some(levels);
        }
    }
    None
}

// Sets the moments of the places, of which none has one yet.
fn fill(wakes: &mut Wakes, slots: &Slots)
    requires none { AreWakes [] wakes.old }
    requires room { length slots.now.entries ≤ length wakes.old }
    ensures moments { AreWakes slots.now.entries wakes.new }
    ensures length { length wakes.new ≡ length wakes.old }
{
    let mut place = 0;
    for (_number, slot) in slots.iter() {
        wakes.set(place, slot.wake());
        place += 1;
    }
}

// Takes the places that are empty away.
fn clear(slots: &mut Slots)
    ensures entries { slots.new.entries ≡ filter is_filled slots.old.entries }
    ensures room { spare slots.old ≤ spare slots.new }
{
    slots.retain(
        |_number: &u64, slot: &mut Slot| -> bool
            ensures { (result ≡ is_some slot.old.session) × (slot.new ≡ slot.old) }
        { slot.session.is_some() },
    );
}

/// Takes room for more sessions than these, which are there, and for sixteen at least. Takes time linear in the sessions
/// times their logarithm, and so logarithmic time for each one that is made until there is no room again.
pub(crate) fn grow(
    alloc: Global,
    slots: &mut Slots,
    wakes: &mut Wakes,
    there: usize,
) -> Result<(), NoMemory>
    requires { there ≡ length (present slots.old.entries) }
    ensures entries { OnOk result (slots.new.entries ≡ filter is_filled slots.old.entries) }
    ensures moments { OnOk result (AreWakes slots.new.entries wakes.new) }
    ensures places { OnOk result (length slots.new.entries < length wakes.new) }
    ensures room { spare slots.old ≤ spare slots.new }
    ensures same { OnErr result ((slots.new.entries ≡ slots.old.entries) × (wakes.new ≡ wakes.old)) }
{
    let Some(levels) = levels_for(there) else {
        return Err(NoMemory);
    };
    let mut places = Wakes::of(alloc, levels)?;
    clear(slots);
    fill(&mut places, slots);
    *wakes = places;
    Ok(())
}
