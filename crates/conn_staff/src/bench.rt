//! Room for the places of one worker, and what goes there.

ghost use Rattle.std.specs.Prelude.{◌≡◌, ◌≤◌, ◌++◌, ◌+◌, [], All, IfOk, None, length, map, vec_capacity, vec_len};
ghost use Rattle.conn_staff.specs.Workers.{HasRoom, source_of};

use conn_serve::Owed;
use hall::Pass;
use many_links::Place;
use outside::Sources;
use stanza_tree::NoMemory;
use std::alloc::Global;
use std::vec::IntoIter;

/// Room for the places of a worker, for their sources when it is done, and for what it is saying.
#[derive(Drop)]
pub(crate) struct Bench<L, C, I> {
    pub(crate) places: Vec<Place<Pass, L, C, I>>,
    pub(crate) sources: Vec<Sources<C, I>>,
    pub(crate) said: Owed,
}

fn bench_for<L: Drop, C: Drop, I: Drop>(
    alloc: Global,
    count: usize,
) -> Result<Bench<L, C, I>, NoMemory>
    ensures { IfOk result (HasRoom L C I count) }
{
    Ok(Bench {
        places: Vec::with_capacity(alloc, count)?,
        sources: Vec::with_capacity(alloc, count)?,
        said: Owed::with_room(alloc)?,
    })
}

/// As many benches as workers, each with so many places.
pub(crate) fn benches_for<L: Drop, C: Drop, I: Drop>(
    alloc: Global,
    workers: usize,
    places: usize,
) -> Result<Vec<Bench<L, C, I>>, NoMemory>
    ensures count { IfOk result (λ v. length v.items ≡ workers) }
    ensures room { IfOk result (λ v. All (HasRoom L C I places) v.items) }
{
    let mut benches = Vec::with_capacity(alloc, workers)?;
    for _worker in 0..workers {
        benches.push_reserved(bench_for(alloc, places)?);
    }
    Ok(benches)
}

/// Each source takes a place, with the next pass.
pub(crate) fn take_places<L: Drop, C: Drop, I: Drop>(
    left: &mut IntoIter<Pass>,
    sources: Vec<Sources<C, I>>,
    places: &mut Vec<Place<Pass, L, C, I>>,
)
    requires passes { length sources.items ≤ length left.old.rest.items }
    requires none { places.old.items ≡ [] }
    requires room { length sources.items ≤ vec_capacity places.old }
    ensures passes { map (λ p. p.pass) places.new.items ++ left.new.rest.items ≡ left.old.rest.items }
    ensures sources { map source_of places.new.items ≡ sources.items }
    ensures busy { All (λ p. p.busy ≡ None) places.new.items }
{
    for Sources { clock, dice } in sources {
        match left.next() {
            Some(pass) => places.push_reserved(Place {
                pass,
                clock,
                dice,
                busy: None,
            }),
            None => unreachable!(),
        }
    }
}

/// Each pass and each source leaves its place.
pub(crate) fn leave_places<L: Drop, C: Drop, I: Drop>(
    places: Vec<Place<Pass, L, C, I>>,
    passes: &mut Vec<Pass>,
    sources: &mut Vec<Sources<C, I>>,
)
    requires none { sources.old.items ≡ [] }
    requires room { length places.items ≤ vec_capacity sources.old }
    requires passes_room { vec_len passes.old + length places.items ≤ vec_capacity passes.old }
    ensures passes { passes.new.items ≡ passes.old.items ++ map (λ p. p.pass) places.items }
    ensures room { vec_capacity passes.new ≡ vec_capacity passes.old }
    ensures sources { sources.new.items ≡ map source_of places.items }
{
    for place in places {
        let Place {
            pass,
            clock,
            dice,
            busy: _,
        } = place;
        passes.push_reserved(pass);
        sources.push_reserved(Sources { clock, dice });
    }
}
