//! A tape in memory: what was heard and said on a link, call by call.
ghost use Rattle.std.specs.Prelude.{◌≡◌, [], Some, IfOk, is_some, length, map};
ghost use Rattle.outside.specs.Tapes.{all_bytes, has_room, kind_of, mark_of, marks_told, noted, shown, silent, size, sizes, marks};

use std::alloc::{AllocError, Global};
use std::marker::Model;

/// A mark of a tape, with the number of its bytes.
#[derive(Clone, Copy, Debug, PartialEq, Eq)]
pub enum Kind {
    Heard(usize),
    Quiet,
    End,
    Failed,
    Said(usize),
}

/// Marks, and the bytes of all of them one after the other. A tape that found no room tells nothing from then on.
#[derive(Drop)]
pub struct Tape {
    kinds: Vec<Kind>,
    bytes: Vec<u8>,
    most: usize,
    tells: bool,
}

impl Model for Tape {
    ghost use Rattle.std.specs.Prelude.{◌≡◌, ◌≤◌, ◌-◌, vec_capacity, vec_len};
    ghost use Rattle.outside.specs.Tapes as tapes;

    ghost Value = { tapes.Tape };

    ghost view = { λ t. record {
      told = tapes.told_where tapes.Mark t.tells (tapes.marks t.kinds.items t.bytes.items);
      calls = vec_capacity t.kinds - vec_len t.kinds;
      bytes = t.most - vec_len t.bytes;
    } };

    ghost invariant = { λ t. (tapes.sizes t.kinds.items ≡ vec_len t.bytes) × (vec_len t.bytes ≤ t.most) × (t.most ≤ vec_capacity t.bytes)
        × (vec_len t.kinds ≤ vec_capacity t.kinds) };
}

impl Tape {
    /// A tape without marks, with room for so many marks and so many bytes.
    pub(crate) fn new(alloc: Global, calls: usize, bytes: usize) -> Result<Tape, AllocError>
        ensures { IfOk result (λ t. t ≡ record { told = Some []; calls = calls; bytes = bytes }) }
    {
        Ok(Tape {
            kinds: Vec::with_capacity(alloc, calls)?,
            bytes: Vec::with_capacity(alloc, bytes)?,
            most: bytes,
            tells: true,
        })
    }

    /// Whether there is room for one more mark of so many bytes.
    pub(crate) fn has_room(&self, count: usize) -> bool
        ensures { result ≡ has_room self.now count }
    {
        let calls = self.kinds.capacity() - self.kinds.len();
        let bytes = self.most - self.bytes.len();
        0 < calls && count <= bytes
    }

    /// Adds a mark, or tells nothing from now on where there is no room for it.
    #[tactic(auto, using(crate::proofs::TapeLemmas::marks_and_last, crate::proofs::TapeLemmas::sizes_and_last))]
    pub(crate) fn note(&mut self, kind: Kind, bytes: &[u8])
        requires { size kind ≡ length bytes.now }
        ensures { self.new ≡ noted self.old (mark_of kind bytes.now) (length bytes.now) }
    {
        if !self.has_room(bytes.len()) {
            self.silence();
            return;
        }
        self.kinds.push_reserved(kind);
        match self.bytes.extend_from_slice(bytes) {
            Ok(()) => {}
            Err(_) => unreachable!(),
        }
    }

    /// The kinds of its marks, or none where it doesn't tell them.
    #[tactic(auto, using(crate::proofs::TapeLemmas::kinds_of_marks))]
    pub fn kinds(&self) -> &[Kind]
        ensures { result.now ≡ map kind_of (marks_told self.now) }
    {
        if self.tells {
            self.kinds.as_slice()
        } else {
            &[]
        }
    }

    /// The bytes of its marks, one after the other, or none where it doesn't tell them.
    #[tactic(auto, using(crate::proofs::TapeLemmas::bytes_of_marks))]
    pub fn bytes(&self) -> &[u8]
        ensures { result.now ≡ all_bytes (marks_told self.now) }
    {
        if self.tells {
            self.bytes.as_slice()
        } else {
            &[]
        }
    }

    /// Whether it tells its marks.
    pub(crate) fn tells(&self) -> bool
        ensures { result ≡ is_some self.now.told }
    {
        self.tells
    }

    /// Tells nothing from now on.
    pub(crate) fn silence(&mut self)
        ensures { self.new ≡ silent self.old }
    {
        self.tells = false;
    }
}
