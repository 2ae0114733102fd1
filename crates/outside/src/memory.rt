//! A source and a sink in memory, which tell their bytes and fail at the calls that their maker names.
ghost use Rattle.std.specs.Prelude.{◌≡◌, [], Some, ◌≤◌, ◌<◌, IfOk, ℕ, length};
ghost use Rattle.outside.specs.Devices.{ReadFaults, Reads, SinkWrites, SourceReads, WriteFaults, Writes};
ghost use Rattle.outside.specs.Plans.{planned};
ghost use Rattle.outside.specs.Tapes.{shown};

use crate::bytes::{Got, Put, Sink, Source, copy_front};
use crate::plan::Plan;
use std::alloc::{AllocError, Global};
use std::marker::Model;

/// Bytes in memory. A reading gives at most `piece` of them. The calls whose numbers, from 1, are among `fails` fail.
#[derive(Drop)]
pub struct MemSource {
    plan: Plan,
    bytes: Vec<u8>,
    at: usize,
    piece: usize,
}

impl Model for MemSource {
    ghost use Rattle.std.specs.Prelude.{drop, length, ◌≤◌, ◌<◌};
    ghost use Rattle.outside.specs.Devices.{SourceState};

    ghost Value = { SourceState };

    ghost view = { λ s. record { plan = s.plan; left = drop s.at s.bytes.items; piece = s.piece } };

    ghost invariant = { λ s. (s.at ≤ length s.bytes.items) × (0 < s.piece) };
}

impl MemSource {
    /// A source of these bytes, of which none was read yet. Takes no memory.
    pub fn new(bytes: Vec<u8>, piece: usize, fails: Vec<u64>) -> MemSource
        requires { 0 < piece }
        ensures { result ≡ record { plan = planned fails.items; left = bytes.items; piece = piece } }
    {
        MemSource {
            plan: Plan::new(fails),
            bytes,
            at: 0,
            piece,
        }
    }
}

impl Source for MemSource {
    ghost left = { λ s. Some s.left };

    ghost faults = { λ s. s.plan.faults };

    #[tactic(auto, using(crate::proofs::Fronts::front_taken))]
    fn read(&mut self, into: &mut [u8]) -> Got
        requires { 0 < length into.old }
        ensures reads { Reads (Some self.old.left) (Some self.new.left) result into.new }
        ensures faults { ReadFaults self.old.plan.faults self.new.plan.faults result }
        ensures source_reads { SourceReads self.old self.new result into.new }
    {
        if self.plan.fails_next() {
            self.plan.fail();
            return Got::Failed;
        }
        self.plan.call();
        let rest = &self.bytes.as_slice()[self.at..];
        let count = copy_front(rest, into, self.piece);
        if count == 0 {
            return Got::End;
        }
        self.at += count;
        Got::Bytes(count)
    }
}

/// What was written, in memory. A writing takes at most `piece` bytes. The calls whose numbers, from 1, are among `fails`
/// fail, and so does one that finds no room, after which nothing is told.
#[derive(Drop)]
pub struct MemSink {
    plan: Plan,
    bytes: Vec<u8>,
    most: usize,
    piece: usize,
    tells: bool,
}

impl Model for MemSink {
    ghost use Rattle.std.specs.Prelude.{◌<◌, ◌≤◌, ◌-◌, ℕ, vec_capacity, vec_len};
    ghost use Rattle.outside.specs.Devices.{SinkState};
    ghost use Rattle.outside.specs.Tapes.{told_where};

    ghost Value = { SinkState };

    ghost view = { λ s. record {
      plan = s.plan;
      took = told_where ℕ s.tells s.bytes.items;
      piece = s.piece;
      room = s.most - vec_len s.bytes;
    } };

    ghost invariant = { λ s. (0 < s.piece) × (vec_len s.bytes ≤ s.most) × (s.most ≤ vec_capacity s.bytes) };
}

impl MemSink {
    /// A sink with room for so many bytes, to which nothing was written yet.
    pub fn new(
        alloc: Global,
        room: usize,
        piece: usize,
        fails: Vec<u64>,
    ) -> Result<MemSink, AllocError>
        requires { 0 < piece }
        ensures { IfOk result (λ s. s ≡ record { plan = planned fails.items; took = Some []; piece = piece; room = room }) }
    {
        Ok(MemSink {
            plan: Plan::new(fails),
            bytes: Vec::with_capacity(alloc, room)?,
            most: room,
            piece,
            tells: true,
        })
    }

    /// What was written so far, or nothing once a writing found no room.
    pub fn bytes(&self) -> &[u8]
        ensures { result.now ≡ shown ℕ self.now.took }
    {
        if self.tells {
            self.bytes.as_slice()
        } else {
            &[]
        }
    }
}

impl Sink for MemSink {
    ghost took = { λ s. s.took };

    ghost faults = { λ s. s.plan.faults };

    fn write(&mut self, from: &[u8]) -> Put
        requires { 0 < length from.now }
        ensures writes { Writes self.old.took self.new.took result from.now }
        ensures faults { WriteFaults self.old.plan.faults self.new.plan.faults result }
        ensures sink_writes { SinkWrites self.old self.new result from.now }
    {
        if self.plan.fails_next() {
            self.plan.fail();
            return Put::Failed;
        }
        let count = from.len().min(self.piece);
        if self.most - self.bytes.len() < count {
            self.plan.fail();
            self.tells = false;
            return Put::Failed;
        }
        self.plan.call();
        match self.bytes.extend_from_slice(&from[..count]) {
            Ok(()) => Put::Taken(count),
            Err(_) => unreachable!(),
        }
    }
}
