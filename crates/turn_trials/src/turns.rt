//! Threads that take turns at a tally.

ghost use Rattle.std.specs.Prelude.{◌≡◌, ◌++◌, ◌∷◌, [], ◌<◌, All, IfOk, vec_len};
ghost use Rattle.turn_lock.specs.Histories.{StartsWith};
ghost use Rattle.turn_lock.specs.Passes.{number_of, seen, IsIdle, passes_of, root_of};
ghost use Rattle.turn_lock.specs.Calls.{OneTurn, Closes};

use std::alloc::Global;
use std::sync::Wait;
use std::test::Fail;
use std::thread;
use std::thread::Threads;
use turn_lock::*;

// A counter with its entries: the line of each turn, with that line's own count.
#[derive(Drop)]
struct Tally {
    base: u64,
    entries: Vec<(u32, u32)>,
}

impl Storied for Tally {
    type Entry = (u32, u32);

    type Root = u64;

    ghost root = { λ t. t.base };

    ghost story = { λ t. t.entries.items };

    ghost line = { λ e. e.0 };
}

// One entry more, as soon as there is memory for it.
fn add<W: Wait>(rt: &W, tally: &mut Tally, entry: (u32, u32))
    ensures base { tally.new.base ≡ tally.old.base }
    ensures entries { tally.new.entries.items ≡ tally.old.entries.items ++ entry ∷ [] }
{
    for _ in rt.forever() {
        if tally.entries.push(entry).is_ok() {
            return;
        }
    }
    unreachable!()
}

// One turn, in which the line's count is added.
fn count<W: Wait>(
    rt: &W,
    lock: &Turnstile<Tally>,
    pass: &mut Pass<Tally>,
    count: u32,
) -> Result<(), Spent>
    requires { IsIdle (λ e. e.0) (λ t. t.base) lock.now pass.old }
    ensures idle { IsIdle (λ e. e.0) (λ t. t.base) lock.now pass.new }
    ensures number { number_of pass.new ≡ number_of pass.old }
    ensures seen { StartsWith (seen pass.new) (seen pass.old) }
    ensures last { IfOk result (λ _.
        (before : _) × (seen pass.new ≡ before ++ (number_of pass.new, count) ∷ [])) }
    ensures turn { IfOk result (λ _. (before : _) × OneTurn (λ e. e.0) pass.old pass.new before (seen pass.new)) }
{
    let Turn { mut value } = lock.enter(rt, pass)?;
    add(rt, &mut value, (pass.number(), count));
    lock.leave(Turn { value }, pass);
    Ok(())
}

// A thousand turns.
fn count_on<W: Wait>(rt: &W, lock: &Turnstile<Tally>, pass: &mut Pass<Tally>)
    requires { IsIdle (λ e. e.0) (λ t. t.base) lock.now pass.old }
    ensures { IsIdle (λ e. e.0) (λ t. t.base) lock.now pass.new }
{
    for n in 0..1000 {
        let _ = count(rt, lock, pass, n);
    }
}

// A thousand turns of each pass, in threads of their own.
fn count_side_by_side<R: Threads + Wait + Sync>(
    rt: &R,
    lock: &Turnstile<Tally>,
    passes: &mut [Pass<Tally>],
)
    requires { All (IsIdle (λ e. e.0) (λ t. t.base) lock.now) passes.old }
    ensures { All (IsIdle (λ e. e.0) (λ t. t.base) lock.now) passes.new }
{
    thread::for_each_mut(rt, passes, 8, &|_, pass| count_on(rt, lock, pass));
}

// The tally of so many passes with a thousand turns each.
fn counted_by<R: Threads + Wait + Sync>(
    rt: &R,
    alloc: Global,
    passes: u32,
) -> Result<Tally, NoMemory>
    requires { 0 < passes }
    ensures { IfOk result (λ t. t.base ≡ 7) }
{
    let tally = Tally {
        base: 7,
        entries: Vec::new(alloc),
    };
    let (lock, mut all) = Turnstile::start(alloc, tally, passes, 3)?;
    count_side_by_side(rt, &lock, all.as_mut_slice());
    Ok(closed(lock, all))
}

// The end of a lock, in the words of the laws.
fn closed(lock: Turnstile<Tally>, passes: Vec<Pass<Tally>>) -> Tally
    requires all { vec_len passes ≡ passes_of lock }
    requires idle { All (IsIdle (λ e. e.0) (λ t. t.base) lock) passes.items }
    ensures base { result.base ≡ root_of (λ t. t.base) lock }
    ensures closes { Closes (λ e. e.0) passes.items result.entries.items }
{
    lock.close(passes)
}

#[test]
fn all_turns_are_in_the_history(rt: HostRuntime) -> Result<(), Fail> {
    for passes in [2u32, 8] {
        let tally = counted_by(&rt, rt.alloc(), passes)?;
        for line in 0..passes {
            let mut next = 0u32;
            for (by, count) in &tally.entries {
                if *by == line {
                    assert_eq!(rt; *count, next, "line {line} of {passes}");
                    next = next.saturating_add(1);
                }
            }
            assert_eq!(rt; next, 1000, "line {line} of {passes}");
        }
    }
    Ok(())
}

// A turn of each of two passes, and a meeting between them.
fn hand_on<W: Wait>(
    rt: &W,
    lock: &Turnstile<Tally>,
    first: &mut Pass<Tally>,
    second: &mut Pass<Tally>,
) -> Result<(), Spent>
    requires first { IsIdle (λ e. e.0) (λ t. t.base) lock.now first.old }
    requires second { IsIdle (λ e. e.0) (λ t. t.base) lock.now second.old }
    ensures first { IsIdle (λ e. e.0) (λ t. t.base) lock.now first.new }
    ensures second { IsIdle (λ e. e.0) (λ t. t.base) lock.now second.new }
    ensures handed { IfOk result (λ _. StartsWith (seen second.new) (seen first.new)) }
{
    count(rt, lock, first, 5)?;
    lock.meet(first, second);
    count(rt, lock, second, 6)
}

#[test]
fn what_was_seen_is_handed_on(rt: HostRuntime) -> Result<(), Fail> {
    let tally = Tally {
        base: 3,
        entries: Vec::new(rt.alloc()),
    };
    let (lock, mut passes) = Turnstile::start(rt.alloc(), tally, 2, 1)?;
    let (Some(mut second), Some(mut first)) = (passes.pop(), passes.pop()) else {
        unreachable!()
    };
    let done = hand_on(&rt, &lock, &mut first, &mut second);
    assert!(rt; done.is_ok());
    let tally = lock.close(Vec::from_array(rt.alloc(), [first, second])?);
    assert!(rt; tally.entries.as_slice() == [(0u32, 5u32), (1, 6)].as_slice());
    Ok(())
}

#[test]
fn a_number_is_a_place(rt: HostRuntime) -> Result<(), Fail> {
    let tally = Tally {
        base: 0,
        entries: Vec::new(rt.alloc()),
    };
    let (_, passes) = Turnstile::start(rt.alloc(), tally, 5, 2)?;
    for (place, pass) in (0u32..5).zip(&passes) {
        assert_eq!(rt; pass.number(), place);
    }
    assert_eq!(rt; passes.len(), 5);
    Ok(())
}
