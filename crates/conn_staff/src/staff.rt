//! All workers of a server.

ghost use Rattle.std.specs.Prelude.{◌≡◌, ◌<◌, ◌≤◌, ◌*◌, ◌^◌, ℕ, [], false, length, map, All, IfErr, IfOk, vec_capacity};
ghost use Rattle.house_core.specs.Houses.{held};
ghost use Rattle.house_model.specs.Histories.{StandsFor};
ghost use Rattle.house_model.specs.States.{State};
ghost use Rattle.outside.specs.Posts.{all_of};
ghost use Rattle.turn_lock.specs.Histories.{counted};
ghost use Rattle.turn_lock.specs.Passes.{number_of, refused, seen};
ghost use Rattle.hall.specs.Halls.{CameFrom, lines_of, opening_state};
ghost use Rattle.conn_staff.specs.Staffs.{Staffed, post_told};
ghost use Rattle.conn_staff.specs.Workers.{AllHaveRoom, AllWorked, HasWorked, IsFit, IsReady, crew_of};

use crate::roster::{Room, Worked, dismiss, hire, room_for};
use crate::worker::{Worker, tend};
use account_book::Accounts;
use hall::{Hall, Pass};
use house_core::House;
use outside::{Clock, Dice, PollPost, Poller};
use stanza_tree::NoMemory;
use std::alloc::Global;
use std::sync::Wait;
use std::thread;
use std::thread::Threads;

/// Where each worker has a processor, at least so many turns are near: they are over sooner than a thread sleeps and is woken.
const SOME_TURNS: u32 = 2;

/// So many are where threads are more than processors.
const FEW_TURNS: u32 = 1;

/// Each worker serves the links of its poller, in a thread of its own.
fn tend_all<R: Threads + Wait + Sync, P: Poller + Send, C: Clock + Send, I: Dice + Send>(
    rt: &R,
    alloc: Global,
    hall: &Hall,
    accounts: &Accounts,
    is_quiet: bool,
    workers: &mut [Worker<P, P::Link, C, I>],
)
where
    P::Link: Send,
    requires some { 0 < length workers.old }
    requires ready { All (IsReady P P.Link C I P.places P.taken hall.now) workers.old }
    ensures fit { All (IsFit P P.Link C I P.places) workers.new }
    ensures worked { AllWorked hall.now accounts.now
        (map (crew_of P P.Link C I P.tapes P.came P.links P.faults P.quota C.told I.drawn I.faults) workers.old)
        (map (crew_of P P.Link C I P.tapes P.came P.links P.faults P.quota C.told I.drawn I.faults) workers.new) }
{
    let threads = workers.len();
    thread::for_each_mut(
        rt,
        workers,
        threads,
        &|number, worker: &mut Worker<P, P::Link, C, I>|
            requires { IsReady P P.Link C I P.places P.taken hall.now worker.old }
            ensures fit { IsFit P P.Link C I P.places worker.new }
            ensures worked { HasWorked hall.entry.now accounts.entry.now
                (crew_of P P.Link C I P.tapes P.came P.links P.faults P.quota C.told I.drawn I.faults worker.old)
                (crew_of P P.Link C I P.tapes P.came P.links P.faults P.quota C.told I.drawn I.faults worker.new) }
        { tend(rt, alloc, hall, accounts, is_quiet, number, worker) },
    );
}

/// How many turns before its own a worker looks again and again: as many as there are others, where each worker has a processor, and else few.
fn near_turns<R: Threads>(rt: &R, workers: u32) -> u32 {
    match thread::available_parallelism(rt) {
        Ok(processors) if processors.get() >= workers as usize => {
            workers.saturating_sub(1).max(SOME_TURNS)
        }
        _ => FEW_TURNS,
    }
}

/// Serves the links of each post at a hall, and closes it.
fn serve_at<
    R: Threads + Wait + Sync,
    P: Poller + Send + Drop,
    C: Clock + Send + Drop,
    I: Dice + Send + Drop,
>(
    rt: &R,
    alloc: Global,
    hall: Hall,
    passes: Vec<Pass>,
    accounts: &Accounts,
    posts: Vec<PollPost<P, C, I>>,
    room: Room<P, P::Link, C, I>,
    is_quiet: bool,
) -> (Vec<PollPost<P, C, I>>, House, Worked)
where
    P::Link: Send + Drop,
    requires some { 0 < length posts.items }
    requires wide { All (λ p. P.places p.poller ≡ length p.sources.items) posts.items }
    requires few { All (λ p. length p.sources.items < 2 ^ 32) posts.items }
    requires free { All (λ p. (k : ℕ) → P.taken p.poller k ≡ false) posts.items }
    requires pairs { length passes.items ≡ length (all_of (map (λ p. p.sources.items) posts.items)) }
    requires lines { lines_of hall ≡ length passes.items }
    requires numbers { map number_of passes.items ≡ counted 0 (length passes.items) }
    requires came { All (CameFrom hall) passes.items }
    requires fresh { All (λ p. (seen p ≡ []) × (refused p ≡ false)) passes.items }
    requires benches { AllHaveRoom P P.Link C I room.benches.items posts.items }
    requires workers { (room.workers.items ≡ []) × (length posts.items ≤ vec_capacity room.workers) }
    requires done { (room.passes.items ≡ []) × (length passes.items ≤ vec_capacity room.passes) }
    requires back { (room.posts.items ≡ []) × (length posts.items ≤ vec_capacity room.posts) }
    ensures staffed { Staffed (opening_state hall) accounts.now
        (map (post_told P C I P.tapes P.came P.links P.faults P.quota C.told I.drawn I.faults) posts.items)
        (map (post_told P C I P.tapes P.came P.links P.faults P.quota C.told I.drawn I.faults) result.0.items) result.2 (held result.1) }
    ensures wide { All (λ p. P.places p.poller ≡ length p.sources.items) result.0.items }
{
    let Room {
        benches,
        mut workers,
        passes: mut left,
        posts: mut back,
    } = room;
    hire(passes, posts, benches, &mut workers);
    tend_all(rt, alloc, &hall, accounts, is_quiet, workers.as_mut_slice());
    let worked = dismiss(workers, &mut left, &mut back);
    (back, hall.close(left), worked)
}

/// Serves the links of each post at a house, each link at a place of its own, until each poller shut or failed, in as many threads as there are
/// posts. Place k of worker i has the line i * places + k. The posts come back, with the house as all left it, and `PollFault` where a poller failed,
/// of which that poller notes at once; or as they were where there was no memory to begin. What was done at each place stands in one legal history,
/// for which the house stands. Unless it is to be quiet, the pollers note how each connection ended. Never returns if a poller hands out links for
/// ever, or a link goes on for ever.
pub fn serve_posts<
    R: Threads + Wait + Sync,
    P: Poller + Send + Drop,
    C: Clock + Send + Drop,
    I: Dice + Send + Drop,
>(
    rt: &R,
    alloc: Global,
    house: House,
    accounts: &Accounts,
    posts: Vec<PollPost<P, C, I>>,
    workers: u32,
    places: u32,
    is_quiet: bool,
) -> (Vec<PollPost<P, C, I>>, Result<(House, Worked), NoMemory>)
where
    P::Link: Send + Drop,
    requires some { (0 < workers) × (0 < places) }
    requires few { workers * places < 2 ^ 32 }
    requires posts { length posts.items ≡ workers }
    requires pollers { All (λ p. P.places p.poller ≡ places) posts.items }
    requires sources { All (λ p. length p.sources.items ≡ places) posts.items }
    requires free { All (λ p. (k : ℕ) → P.taken p.poller k ≡ false) posts.items }
    requires lines { workers * places ≡ length house.table.lines }
    requires new { (o : State) × StandsFor o [] (held house) }
    ensures staffed { IfOk result.1 (λ left. (o : State) → StandsFor o [] (held house) → Staffed o accounts.now
        (map (post_told P C I P.tapes P.came P.links P.faults P.quota C.told I.drawn I.faults) posts.items)
        (map (post_told P C I P.tapes P.came P.links P.faults P.quota C.told I.drawn I.faults) result.0.items) left.1 (held left.0)) }
    ensures back { IfErr result.1 (λ _. result.0.items ≡ posts.items) }
    ensures wide { All (λ p. P.places p.poller ≡ length p.sources.items) result.0.items }
{
    let lines = workers * places;
    let Ok(room) = room_for(alloc, posts.len(), places as usize, lines as usize) else {
        return (posts, Err(NoMemory));
    };
    match Hall::start(alloc, house, lines, near_turns(rt, workers)) {
        Ok((hall, passes)) => {
            let (back, left, worked) = serve_at(
                rt, alloc, hall, passes, accounts, posts, room, is_quiet,
            );
            (back, Ok((left, worked)))
        }
        Err(_) => (posts, Err(NoMemory)),
    }
}
