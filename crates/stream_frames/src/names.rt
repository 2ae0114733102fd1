//! The names of the elements that are open.

ghost use Rattle.std.specs.Prelude.{◌≡◌, ◌≤◌, ◌+◌, [], ◌∷◌, ◌++◌, take, length, cond, nat_lt, None, Some, OnOk, OnErr};
ghost use Rattle.stream_frames.specs.Stacks.{raw, outer, begins_so, left_of, next_is, is_all};
ghost use Rattle.stream_frames.specs.Moves.{is_none, is_one};

use stanza_tree::NoMemory;
use std::alloc::Global;
use std::marker::Model;
use std::mem;

/// A name as it stands in a tag: its first byte and the others.
#[derive(Drop)]
pub(crate) struct OpenName {
    pub(crate) first: u8,
    pub(crate) rest: Vec<u8>,
}

impl OpenName {
    /// A name of one byte. Takes no memory.
    pub(crate) fn beginning(alloc: Global, first: u8) -> OpenName
        ensures { raw result ≡ (first, []) }
    {
        OpenName {
            first,
            rest: Vec::new(alloc),
        }
    }

    /// Adds a byte.
    pub(crate) fn add(&mut self, byte: u8) -> Result<(), NoMemory>
        ensures ok { OnOk result (raw self.new ≡ (self.old.first, self.old.rest.items ++ byte ∷ [])) }
        ensures err { OnErr result (raw self.new ≡ raw self.old) }
    {
        self.rest.push(byte)?;
        Ok(())
    }
}

/// The names of the elements that are open, seen as a list, the innermost first.
#[derive(Drop)]
pub(crate) struct Names {
    alloc: Global,
    innermost: Option<OpenName>,
    others: Vec<OpenName>,
}

impl Model for Names {
    ghost use Rattle.std.specs.Prelude.{List};
    ghost use Rattle.stream_grammar.specs.grammar.Trees.{RawName};
    ghost use Rattle.stream_frames.specs.Stacks.{stacked, AreStacked};

    ghost Value = { List RawName };

    ghost view = { λ n. stacked n.innermost n.others.items };

    ghost invariant = { λ n. AreStacked n.innermost n.others.items };
}

impl Names {
    /// No names. Takes no memory.
    pub(crate) fn new(alloc: Global) -> Names
        ensures { result ≡ [] }
    {
        Names {
            alloc,
            innermost: None,
            others: Vec::new(alloc),
        }
    }

    /// Adds a name, which is then the innermost. The name is taken out, and an empty one left.
    pub(crate) fn push(&mut self, name: &mut OpenName) -> Result<(), NoMemory>
        ensures ok { OnOk result (self.new ≡ raw name.old ∷ self.old) }
        ensures err { OnErr result ((self.new ≡ self.old) × (raw name.new ≡ raw name.old)) }
    {
        let Some(before) = self.innermost.take() else {
            self.innermost = Some(mem::replace(name, OpenName::beginning(self.alloc, 0)));
            return Ok(());
        };
        match self.others.push(before) {
            Ok(()) => {
                self.innermost = Some(mem::replace(name, OpenName::beginning(self.alloc, 0)));
                Ok(())
            }
            Err(failed) => {
                self.innermost = Some(failed.value);
                Err(NoMemory)
            }
        }
    }

    /// Takes the innermost name away, where there is one.
    pub(crate) fn pop(&mut self)
        ensures { self.new ≡ outer self.old }
    {
        self.innermost = self.others.pop();
    }

    /// Keeps no room for names where there is none but one.
    pub(crate) fn release(&mut self)
        ensures { self.new ≡ self.old }
    {
        if self.others.is_empty() {
            self.others = Vec::new(self.alloc);
        }
    }

    /// How many names there are.
    pub(crate) fn count(&self) -> usize
        ensures { result ≡ length self.now }
    {
        match &self.innermost {
            Some(_) => self.others.len() + 1,
            None => 0,
        }
    }

    /// Whether there are none.
    pub(crate) fn is_none(&self) -> bool
        ensures { result ≡ is_none self.now }
    {
        self.innermost.is_none()
    }

    /// Whether there is one.
    pub(crate) fn is_one(&self) -> bool
        ensures { result ≡ is_one self.now }
    {
        self.count() == 1
    }

    /// Whether there are two.
    pub(crate) fn is_two(&self) -> bool
        ensures { result ≡ is_one (outer self.now) }
    {
        self.count() == 2
    }

    /// Whether there are more than two.
    pub(crate) fn has_outer_two(&self) -> bool
        ensures { result ≡ nat_lt 1 (length (outer self.now)) }
    {
        self.count() > 2
    }

    /// Whether the innermost name begins with the byte.
    pub(crate) fn begins_with(&self, byte: u8) -> bool
        ensures { result ≡ begins_so self.now byte }
    {
        match &self.innermost {
            Some(name) => name.first == byte,
            None => false,
        }
    }

    /// Where the byte goes on with the innermost name, after so many of its further bytes: how many there are then.
    pub(crate) fn goes_on(&self, at: usize, byte: u8) -> Option<usize>
        ensures { result ≡ cond (next_is (left_of self.now at) byte) (Some (at + 1)) None }
    {
        let Some(name) = &self.innermost else {
            return None;
        };
        if at < name.rest.len() && name.rest[at] == byte {
            Some(at + 1)
        } else {
            None
        }
    }

    /// How many of the bytes go on with the innermost name, after so many of its further bytes, and how many of these there are
    /// then.
    #[tactic(auto, using(crate::proofs::RunEnds::goes_on_more))]
    pub(crate) fn goes_on_by(&self, at: usize, bytes: &[u8]) -> (usize, usize)
        ensures fits { result.0 ≤ length bytes.now }
        ensures same { left_of self.now at ≡ take result.0 bytes.now ++ left_of self.now result.1 }
    {
        let mut next = at;
        for (i, byte) in bytes.iter().enumerate() {
            match self.goes_on(next, *byte) {
                Some(after) => next = after,
                None => return (i, next),
            }
        }
        (bytes.len(), next)
    }

    /// Whether so many further bytes are the whole innermost name.
    pub(crate) fn is_whole(&self, at: usize) -> bool
        ensures { result ≡ is_all (left_of self.now at) }
    {
        match &self.innermost {
            Some(name) => at >= name.rest.len(),
            None => true,
        }
    }
}
