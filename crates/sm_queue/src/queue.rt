//! The queue, and how it moves on by counts (XEP-0198, 4 and 5).

ghost use Rattle.std.specs.Prelude.{◌≡◌, ℕ, ◌+◌, ◌-◌, ◌^◌, ◌<◌, ◌≤◌, ◌++◌, ◌∷◌, [], true, false, List, length, min};
ghost use Rattle.std.specs.Prelude.{drop, slice_get, IsSome, ◌↔◌, IsOk, OnOk, IfSome, IfNone, IfOk, IfErr};
ghost use Rattle.std.specs.Option.{option_copied};
ghost use Rattle.std.specs.Result.{result_ok};
ghost use Rattle.std.specs.VecDeque.{deque_capacity};
ghost use Rattle.stanza_tree.specs.declared.frame.Entry.{Entry};
ghost use Rattle.stanza_tree.specs.Entries.{frame};
ghost use Rattle.sm_counters.specs.Numbers.{count_of};
ghost use Rattle.sm_queue.specs.Queues.{acked, acknowledged, answer, counted_anew, empty, frames_length, has_room, marked_sent};
ghost use Rattle.sm_queue.specs.Queues.{most_bytes, most_waiting, pushed, rewound, sent_count, spare, without, without_sent};
ghost use Rattle.sm_queue.specs.Wholes.{Acks, IsPlaceOf, Rewinds, StandsFor};

use sm_counters::{Count, within};
use stanza_tree::{Entry, NoMemory, frame_length};
use std::alloc::Global;
use std::collections::VecDeque;
use std::marker::Model;

/// How many stanzas may wait: a client that acknowledges nothing for so long is given up.
pub const MAX_WAITING_ENTRIES: usize = 5000;

/// How many bytes the frames of those that wait may have, 4 MiB: 512 full queues take 2 GiB.
pub const MAX_WAITING_BYTES: u64 = 4_194_304;

// How many stanzas an empty queue keeps room for, 7 KiB: more than a client that keeps up needs between
// two acknowledgements.
const MAX_IDLE_ROOM: usize = 64;

/// Why a client's count was refused: it is none of those from `kept` to `sent` (XEP-0198, 4). All three
/// are counts modulo 2^32.
#[derive(Clone, Copy, Debug, PartialEq, Eq)]
pub struct TooHigh {
    /// The client's count.
    pub h: u32,
    /// The count of the stanzas that are done with.
    pub kept: u32,
    /// The count of the stanzas that were sent.
    pub sent: u32,
}

/// The stanzas that wait for a client: first those that were sent and not acknowledged, then those that
/// were not sent yet. The bytes of their frames are counted as they come and go.
#[derive(Drop)]
pub struct SmQueue {
    waiting: VecDeque<Entry>,
    given: u32,
    kept: Count,
    bytes: u64,
}

impl Model for SmQueue {
    ghost use Rattle.std.specs.VecDeque.{deque_capacity};
    ghost use Rattle.sm_queue.specs.Queues.{Queue};
    ghost use Rattle.sm_queue.specs.Counting.{IsCounted};

    ghost Value = { Queue };

    ghost view = { λ q. record { waiting = q.waiting.items; given = q.given; kept = q.kept; room = deque_capacity q.waiting } };

    ghost invariant = { λ q. IsCounted q.waiting.items q.given q.bytes };
}

impl SmQueue {
    /// An empty queue whose count begins at 0. Takes no memory.
    pub fn new(alloc: Global) -> SmQueue
        ensures queue { result ≡ empty 0 }
        ensures whole { (all : List Entry) → StandsFor all (length all) (length all) (length all) result }
    {
        SmQueue::starting(alloc, Count(0))
    }

    /// An empty queue whose count goes on from this one. Takes no memory.
    pub fn starting(alloc: Global, count: Count) -> SmQueue
        ensures queue { result ≡ empty count }
        ensures whole { (all : List Entry) (base : ℕ) → base ≤ length all
            → count ≡ count_of (length all - base) → StandsFor all base (length all) (length all) result }
    {
        SmQueue {
            waiting: VecDeque::from_vec(Vec::new(alloc)),
            given: 0,
            kept: count,
            bytes: 0,
        }
    }

    /// Takes the memory for so many stanzas more, where it isn't there. Nothing else changes, whatever
    /// the answer is.
    pub fn reserve(&mut self, entries: usize) -> Result<(), NoMemory>
        ensures spare { OnOk result (entries ≤ spare self.new) }
        ensures succeeds { entries ≤ spare self.old → IsOk result }
        ensures keeps_room { self.old.room ≤ self.new.room }
        ensures same { self.new ≡ record self.old { room = self.new.room } }
        ensures whole { (all : List Entry) (base kept sent : ℕ) → StandsFor all base kept sent self.old
            → StandsFor all base kept sent self.new }
    {
        self.waiting.reserve(entries)
    }

    /// How many bytes the frame of a stanza has, where one more may wait; none where it may not.
    pub fn room_for(&self, entry: &Entry) -> Option<u64>
        ensures room { IfSome result (λ bytes. (bytes ≡ length (frame entry.now)) × (has_room self.now.waiting entry.now ≡ true)) }
        ensures none { IfNone result (has_room self.now.waiting entry.now ≡ false) }
    {
        let bytes = length_of(entry);
        if self.waiting.len() < MAX_WAITING_ENTRIES && bytes <= MAX_WAITING_BYTES - self.bytes {
            Some(bytes)
        } else {
            None
        }
    }

    /// Adds a stanza at the end, whose frame has so many bytes, in room that was reserved.
    pub fn push(&mut self, entry: Entry, bytes: u64)
        requires spare { 0 < spare self.old }
        requires room { has_room self.old.waiting entry ≡ true }
        requires bytes { bytes ≡ length (frame entry) }
        ensures queue { self.new ≡ pushed entry self.old }
        ensures whole { (all : List Entry) (base kept sent : ℕ) → StandsFor all base kept sent self.old
            → StandsFor (all ++ entry ∷ []) base kept sent self.new }
    {
        self.bytes += bytes;
        self.waiting.push_back_reserved(entry);
    }

    /// The first stanza that was not sent yet.
    pub fn next_unsent(&self) -> Option<&Entry>
        ensures queue { option_copied result ≡ slice_get self.now.waiting self.now.given }
        ensures there { IsSome result ↔ (self.now.given < length self.now.waiting) }
        ensures whole { (all : List Entry) (base kept sent : ℕ) → StandsFor all base kept sent self.now
            → option_copied result ≡ slice_get all sent }
    {
        self.waiting.get(self.given as usize)
    }

    /// The first stanza that was not sent yet was sent. There is one.
    pub fn mark_sent(&mut self)
        requires { self.old.given < length self.old.waiting }
        ensures queue { self.new ≡ marked_sent self.old }
        ensures whole { (all : List Entry) (base kept sent : ℕ) → StandsFor all base kept sent self.old
            → StandsFor all base kept (sent + 1) self.new }
    {
        self.given += 1;
    }

    /// What was sent is done with, as where the client counts nothing.
    pub fn forget_sent(&mut self)
        ensures queue { self.new ≡ without_sent self.old }
        ensures whole { (all : List Entry) (base kept sent : ℕ) → StandsFor all base kept sent self.old
            → StandsFor all base sent sent self.new }
    {
        self.give_up(self.given);
    }

    /// What was sent is done with, and the count begins at 0 (XEP-0198, 4: when stream management is
    /// enabled).
    pub fn begin_count(&mut self)
        ensures queue { self.new ≡ counted_anew self.old }
        ensures whole { (all : List Entry) (base kept sent : ℕ) → StandsFor all base kept sent self.old
            → StandsFor all sent sent sent self.new }
    {
        self.give_up(self.given);
        self.kept = Count(0);
    }

    /// The client has handled the stanzas up to this count, which are then done with (XEP-0198, 4). Costs
    /// a step for each. A count that is none of those sent changes nothing.
    pub fn ack(&mut self, h: Count) -> Result<(), TooHigh>
        ensures answer { result ≡ answer h self.old }
        ensures queue { self.new ≡ acked h self.old }
        ensures whole { (all : List Entry) (base kept sent : ℕ) → StandsFor all base kept sent self.old
            → Acks all base kept sent h self.old self.new result }
    {
        let n = self.handled(h)?;
        self.give_up(n);
        Ok(())
    }

    /// The client that resumes has handled the stanzas up to this count, which are then done with; those
    /// after them are to be sent again (XEP-0198, 5). A count that is none of those sent changes nothing.
    pub fn rewind(&mut self, h: Count) -> Result<(), TooHigh>
        ensures answer { result ≡ answer h self.old }
        ensures queue { self.new ≡ rewound h self.old }
        ensures whole { (all : List Entry) (base kept sent : ℕ) → StandsFor all base kept sent self.old
            → Rewinds all base kept sent h self.old self.new result }
    {
        let n = self.handled(h)?;
        self.give_up(n);
        self.given = 0;
        Ok(())
    }

    /// How many stanzas wait.
    pub fn len(&self) -> usize
        ensures queue { result ≡ length self.now.waiting }
        ensures most { result ≤ most_waiting }
        ensures whole { (all : List Entry) (base kept sent : ℕ) → StandsFor all base kept sent self.now
            → result ≡ length all - kept }
    {
        self.waiting.len()
    }

    /// How many bytes the frames of the waiting stanzas have.
    pub fn bytes(&self) -> u64
        ensures queue { result ≡ frames_length self.now.waiting }
        ensures most { result ≤ most_bytes }
        ensures whole { (all : List Entry) (base kept sent : ℕ) → StandsFor all base kept sent self.now
            → result ≡ frames_length (drop kept all) }
    {
        self.bytes
    }

    /// The count of the stanzas that are done with.
    pub fn kept(&self) -> Count
        ensures queue { result ≡ self.now.kept }
        ensures whole { (all : List Entry) (base kept sent : ℕ) → StandsFor all base kept sent self.now
            → result ≡ count_of (kept - base) }
    {
        self.kept
    }

    /// The count of the stanzas that were sent.
    pub fn sent(&self) -> Count
        ensures queue { result ≡ sent_count self.now }
        ensures whole { (all : List Entry) (base kept sent : ℕ) → StandsFor all base kept sent self.now
            → result ≡ count_of (sent - base) }
    {
        Count(self.kept.0.wrapping_add(self.given))
    }

    // How many of the stanzas sent this count acknowledges.
    fn handled(&self, h: Count) -> Result<u32, TooHigh>
        ensures place { result_ok result ≡ acknowledged h self.now }
        ensures within { IfOk result (λ n. n ≤ self.now.given) }
        ensures refusal { IfErr result (λ refusal. refusal ≡ record { h = h; kept = self.now.kept; sent = sent_count self.now }) }
        ensures whole { (base kept sent : ℕ) → self.now.kept ≡ count_of (kept - base) → self.now.given ≡ sent - kept
            → base ≤ kept → kept ≤ sent → IsPlaceOf base kept sent h (result_ok result) }
    {
        match within(self.kept, self.given, h) {
            Some(n) => Ok(n),
            None => Err(TooHigh {
                h: h.0,
                kept: self.kept.0,
                sent: self.sent().0,
            }),
        }
    }

    // The first n stanzas, which were sent, are done with.
    fn give_up(&mut self, n: u32)
        requires { n ≤ self.old.given }
        ensures { self.new ≡ without n self.old }
    {
        self.bytes = drop_front(&mut self.waiting, n, self.bytes);
        self.given -= n;
        self.kept = Count(self.kept.0.wrapping_add(n));
        if self.waiting.is_empty() && self.waiting.capacity() > MAX_IDLE_ROOM {
            self.waiting.shrink_to_fit();
        }
    }
}

// The length of the entry's frame; 2^64 - 1 stands for more.
fn length_of(entry: &Entry) -> u64
    ensures { result ≡ min (length (frame entry.now)) (2 ^ 64 - 1) }
{
    frame_length(entry.to.bytes(), entry.rest.bytes().len() as u64)
}

// Drops the first n entries, where the frames of all have so many bytes, and answers the bytes of those that are left. No entry moves.
fn drop_front(waiting: &mut VecDeque<Entry>, n: u32, bytes: u64) -> u64
    requires there { n ≤ length waiting.old.items }
    requires bytes { bytes ≡ frames_length waiting.old.items }
    ensures rest { waiting.new.items ≡ drop n waiting.old.items }
    ensures bytes { result ≡ frames_length waiting.new.items }
    ensures fewer { result ≤ bytes }
    ensures capacity { deque_capacity waiting.new ≡ deque_capacity waiting.old }
{
    // Most often all are dropped, and none has to be counted again.
    if n as usize == waiting.len() {
        waiting.clear();
        return 0;
    }
    let mut left = bytes;
    for _dropped in 0..n {
        if let Some(entry) = waiting.pop_front() {
            left -= length_of(&entry);
        }
    }
    left
}
