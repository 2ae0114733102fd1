//! Who works: passes and posts go together, and apart again.

ghost use Rattle.std.specs.Prelude.{◌≡◌, ◌≤◌, [], All, IfOk, None, length, map, vec_capacity};
ghost use Rattle.std.specs.List.{list_any};
ghost use Rattle.outside.specs.Posts.{all_of};
ghost use Rattle.conn_staff.specs.Staffs.{worked_by};
ghost use Rattle.conn_staff.specs.Workers.{AllHaveRoom, HasRoom, outfit_at, outfit_of, passes_at};

use crate::bench::{Bench, benches_for, leave_places, take_places};
use crate::worker::Worker;
use hall::Pass;
use outside::{PollPost, Poller};
use stanza_tree::NoMemory;
use std::alloc::Global;

/// Why all workers have no more links to serve.
#[derive(Clone, Copy, Debug, PartialEq, Eq)]
pub enum Worked {
    /// As many links as its quota came to each poller, and all were given back.
    Shut,
    /// A poller failed.
    PollFault,
}

/// Room for workers and their places, and for their passes and posts when they are done.
#[derive(Drop)]
pub(crate) struct Room<P, L, C, I> {
    pub(crate) benches: Vec<Bench<L, C, I>>,
    pub(crate) workers: Vec<Worker<P, L, C, I>>,
    pub(crate) passes: Vec<Pass>,
    pub(crate) posts: Vec<PollPost<P, C, I>>,
}

pub(crate) fn room_for<P: Drop, L: Drop, C: Drop, I: Drop>(
    alloc: Global,
    workers: usize,
    places: usize,
    lines: usize,
) -> Result<Room<P, L, C, I>, NoMemory>
    ensures count { IfOk result (λ r. length r.benches.items ≡ workers) }
    ensures benches { IfOk result (λ r. All (HasRoom L C I places) r.benches.items) }
    ensures workers { IfOk result (λ r. (r.workers.items ≡ []) × (workers ≤ vec_capacity r.workers)) }
    ensures passes { IfOk result (λ r. (r.passes.items ≡ []) × (lines ≤ vec_capacity r.passes)) }
    ensures posts { IfOk result (λ r. (r.posts.items ≡ []) × (workers ≤ vec_capacity r.posts)) }
{
    Ok(Room {
        benches: benches_for(alloc, workers, places)?,
        workers: Vec::with_capacity(alloc, workers)?,
        passes: Vec::with_capacity(alloc, lines)?,
        posts: Vec::with_capacity(alloc, workers)?,
    })
}

/// A worker for each post, with a pass for each of its places.
pub(crate) fn hire<P: Poller + Drop, C: Drop, I: Drop>(
    passes: Vec<Pass>,
    posts: Vec<PollPost<P, C, I>>,
    benches: Vec<Bench<P::Link, C, I>>,
    workers: &mut Vec<Worker<P, P::Link, C, I>>,
)
where
    P::Link: Drop,
    requires passes { length passes.items ≡ length (all_of (map (λ p. p.sources.items) posts.items)) }
    requires benches { AllHaveRoom P P.Link C I benches.items posts.items }
    requires none { workers.old.items ≡ [] }
    requires room { length posts.items ≤ vec_capacity workers.old }
    ensures passes { all_of (map passes_at workers.new.items) ≡ passes.items }
    ensures posts { map outfit_at workers.new.items ≡ map outfit_of posts.items }
    ensures busy { All (λ w. All (λ p. p.busy ≡ None) w.places.items) workers.new.items }
    ensures said { All (λ w. w.said ≡ []) workers.new.items }
    ensures sources { All (λ w. (w.sources.items ≡ []) × (length w.places.items ≤ vec_capacity w.sources)) workers.new.items }
{
    let mut left = passes.into_iter();
    let mut free = benches.into_iter();
    for PollPost { poller, sources } in posts {
        match free.next() {
            Some(bench) => {
                let Bench {
                    mut places,
                    sources: back,
                    said,
                } = bench;
                take_places(&mut left, sources, &mut places);
                workers.push_reserved(Worker {
                    poller,
                    places,
                    sources: back,
                    said,
                    failed: false,
                });
            }
            None => unreachable!(),
        }
    }
}

/// The workers' passes and posts, and whether a poller failed.
pub(crate) fn dismiss<P: Poller + Drop, C: Drop, I: Drop>(
    workers: Vec<Worker<P, P::Link, C, I>>,
    passes: &mut Vec<Pass>,
    posts: &mut Vec<PollPost<P, C, I>>,
) -> Worked
where
    P::Link: Drop,
    requires none { (passes.old.items ≡ []) × (posts.old.items ≡ []) }
    requires room { (length (all_of (map passes_at workers.items)) ≤ vec_capacity passes.old) × (length workers.items ≤ vec_capacity posts.old) }
    requires sources { All (λ w. (w.sources.items ≡ []) × (length w.places.items ≤ vec_capacity w.sources)) workers.items }
    ensures passes { passes.new.items ≡ all_of (map passes_at workers.items) }
    ensures posts { map outfit_of posts.new.items ≡ map outfit_at workers.items }
    ensures worked { result ≡ worked_by (list_any (λ w. w.failed) workers.items) }
{
    let mut failed = false;
    for worker in workers {
        let Worker {
            poller,
            places,
            mut sources,
            said: _,
            failed: fails,
        } = worker;
        leave_places(places, passes, &mut sources);
        posts.push_reserved(PollPost { poller, sources });
        failed = failed || fails;
    }
    if failed {
        Worked::PollFault
    } else {
        Worked::Shut
    }
}
