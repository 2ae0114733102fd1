//! Queues by hand, on either side of a wrap (XEP-0198, 4 and 5).

use sm_counters::Count;
use sm_queue::{MAX_WAITING_ENTRIES, SmQueue, TooHigh};
use stanza_tree::{Entry, Origin, Text};
use std::alloc::Global;
use std::process::Abort;
use std::test::Fail;

const LAST: u32 = 4294967295;

// What is done with a queue.
#[derive(Clone, Copy)]
enum Step {
    Push(u8),
    Sent,
    Ack(u32),
    Rewind(u32),
    Forget,
    Begin,
}

use Step::{Ack, Begin, Forget, Push, Rewind, Sent};

// A step; whether it was refused; how many wait afterwards, which is to be sent next, and the counts of
// what is kept and of what was sent.
type Case = (Step, bool, usize, Option<u8>, u32, u32);

// An entry whose text is this byte, and whose frame has eight.
fn entry_of(alloc: Global, name: u8) -> Result<Entry, Fail> {
    Ok(Entry {
        to: Text::of(alloc, b"a")?,
        rest: Text::of(alloc, &[name])?,
        origin: Origin::Direct,
    })
}

fn push<R: Abort>(rt: &R, queue: &mut SmQueue, entry: Entry) -> Result<(), Fail> {
    queue.reserve(1)?;
    let room = queue.room_for(&entry);
    assert!(rt; room.is_some());
    if let Some(bytes) = room {
        queue.push(entry, bytes);
    }
    Ok(())
}

// Does the step, and answers its refusal.
fn take<R: Abort>(
    rt: &R,
    alloc: Global,
    queue: &mut SmQueue,
    step: Step,
) -> Result<Option<TooHigh>, Fail> {
    match step {
        Push(name) => push(rt, queue, entry_of(alloc, name)?)?,
        Sent => {
            assert!(rt; queue.next_unsent().is_some());
            queue.mark_sent();
        }
        Ack(h) => return Ok(queue.ack(Count(h)).err()),
        Rewind(h) => return Ok(queue.rewind(Count(h)).err()),
        Forget => queue.forget_sent(),
        Begin => queue.begin_count(),
    }
    Ok(None)
}

// The refusal that tells these counts.
fn refusal(step: Step, kept: u32, sent: u32) -> Option<TooHigh> {
    match step {
        Ack(h) => Some(TooHigh { h, kept, sent }),
        Rewind(h) => Some(TooHigh { h, kept, sent }),
        _ => None,
    }
}

fn next_of(queue: &SmQueue) -> Option<u8> {
    queue.next_unsent()?.rest.bytes().first().copied()
}

fn check<R: Abort>(
    rt: &R,
    alloc: Global,
    queue: &mut SmQueue,
    i: usize,
    case: &Case,
) -> Result<(), Fail> {
    let (step, refused, len, next, kept, sent) = *case;
    let want = if refused {
        refusal(step, kept, sent)
    } else {
        None
    };
    assert!(rt; take(rt, alloc, queue, step)? == want, "step {i}");
    assert!(rt;
        queue.len() == len && queue.bytes() == 8 * len as u64,
        "step {i}"
    );
    assert!(rt; next_of(queue) == next, "step {i}");
    assert!(rt;
        queue.kept() == Count(kept) && queue.sent() == Count(sent),
        "step {i}"
    );
    Ok(())
}

const ACROSS_THE_WRAP: &[Case] = &[
    (Push(b'1'), false, 1, Some(b'1'), LAST - 1, LAST - 1),
    (Push(b'2'), false, 2, Some(b'1'), LAST - 1, LAST - 1),
    (Push(b'3'), false, 3, Some(b'1'), LAST - 1, LAST - 1),
    (Push(b'4'), false, 4, Some(b'1'), LAST - 1, LAST - 1),
    (Ack(LAST), true, 4, Some(b'1'), LAST - 1, LAST - 1),
    (Sent, false, 4, Some(b'2'), LAST - 1, LAST),
    (Sent, false, 4, Some(b'3'), LAST - 1, 0),
    (Ack(1), true, 4, Some(b'3'), LAST - 1, 0),
    (Sent, false, 4, Some(b'4'), LAST - 1, 1),
    (Sent, false, 4, None, LAST - 1, 2),
    (Ack(3), true, 4, None, LAST - 1, 2),
    (Ack(LAST - 2), true, 4, None, LAST - 1, 2),
    (Ack(LAST - 1), false, 4, None, LAST - 1, 2),
    (Ack(1), false, 1, None, 1, 2),
    (Ack(0), true, 1, None, 1, 2),
    (Ack(2), false, 0, None, 2, 2),
    (Ack(2), false, 0, None, 2, 2),
];

const SENT_AGAIN: &[Case] = &[
    (Push(b'1'), false, 1, Some(b'1'), LAST, LAST),
    (Sent, false, 1, None, LAST, 0),
    (Push(b'2'), false, 2, Some(b'2'), LAST, 0),
    (Sent, false, 2, None, LAST, 1),
    (Push(b'3'), false, 3, Some(b'3'), LAST, 1),
    (Rewind(2), true, 3, Some(b'3'), LAST, 1),
    (Rewind(0), false, 2, Some(b'2'), 0, 0),
    (Rewind(1), true, 2, Some(b'2'), 0, 0),
    (Sent, false, 2, Some(b'3'), 0, 1),
    (Sent, false, 2, None, 0, 2),
    (Rewind(0), false, 2, Some(b'2'), 0, 0),
    (Sent, false, 2, Some(b'3'), 0, 1),
    (Rewind(1), false, 1, Some(b'3'), 1, 1),
];

const NOT_COUNTED: &[Case] = &[
    (Push(b'1'), false, 1, Some(b'1'), 0, 0),
    (Push(b'2'), false, 2, Some(b'1'), 0, 0),
    (Sent, false, 2, Some(b'2'), 0, 1),
    (Forget, false, 1, Some(b'2'), 1, 1),
    (Push(b'3'), false, 2, Some(b'2'), 1, 1),
    (Sent, false, 2, Some(b'3'), 1, 2),
    (Begin, false, 1, Some(b'3'), 0, 0),
    (Ack(1), true, 1, Some(b'3'), 0, 0),
    (Sent, false, 1, None, 0, 1),
    (Ack(1), false, 0, None, 1, 1),
];

#[test]
fn queues_follow_counts(rt: HostRuntime) -> Result<(), Fail> {
    let stories = [
        (LAST - 1, ACROSS_THE_WRAP),
        (LAST, SENT_AGAIN),
        (0, NOT_COUNTED),
    ];
    for (start, cases) in stories {
        let mut queue = SmQueue::starting(rt.alloc(), Count(start));
        queue.reserve(4)?;
        for (i, case) in cases.iter().enumerate() {
            check(&rt, rt.alloc(), &mut queue, i, case)?;
        }
    }
    Ok(())
}

#[test]
fn five_thousand_wait(rt: HostRuntime) -> Result<(), Fail> {
    let mut queue = SmQueue::new(rt.alloc());
    for _sent in 0..MAX_WAITING_ENTRIES {
        push(&rt, &mut queue, entry_of(rt.alloc(), b'1')?)?;
    }
    assert_eq!(rt; queue.len(), 5000);
    assert!(rt; queue.room_for(&entry_of(rt.alloc(), b'1')?).is_none());
    Ok(())
}

// The frames of `to='a'` and a text have the text's bytes and seven more.
#[test]
fn four_mebibytes_wait(rt: HostRuntime) -> Result<(), Fail> {
    let cases = [(4_194_289, true), (4_194_290, false)];
    for (rest, fits) in cases {
        let mut queue = SmQueue::new(rt.alloc());
        push(&rt, &mut queue, entry_of(rt.alloc(), b'1')?)?;
        let mut bytes = Vec::new(rt.alloc());
        bytes.resize(rest, b'x')?;
        let entry = Entry {
            to: Text::of(rt.alloc(), b"a")?,
            rest: Text::of(rt.alloc(), bytes.as_slice())?,
            origin: Origin::Direct,
        };
        assert_eq!(rt; queue.room_for(&entry).is_some(), fits);
    }
    Ok(())
}
