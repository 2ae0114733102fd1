//! What holds the bytes of a text: few of them stand in place, and more in a block.
ghost use Rattle.std.specs.Prelude.{◌≡◌, ◌≤◌, [], length, IfOk, IsUtf8, string_bytes};
ghost use Rattle.stanza_tree.specs.Texts.{bytes_of};

use crate::text::NoMemory;
use std::alloc::Global;
use std::marker::Model;
use std::sync::Arc;

/// So many bytes stand in place: more than most names and addresses have.
pub const FEW: usize = 30;

/// UTF-8 in place.
#[derive(Drop)]
pub(crate) struct Few {
    bytes: [u8; FEW],
    count: u8,
}

impl Model for Few {
    ghost use Rattle.std.specs.Prelude.{List, ℕ, ◌≡◌, ◌≤◌, take, true};
    ghost use Rattle.std.specs.Str.{is_utf8};

    ghost Value = { List ℕ };

    ghost view = { λ f. take f.count f.bytes };

    ghost invariant = { λ f. (f.count ≤ 30) × (is_utf8 (take f.count f.bytes) ≡ true) };
}

impl Few {
    fn empty() -> Few
        ensures { result ≡ [] }
    {
        Few {
            bytes: [0; FEW],
            count: 0,
        }
    }

    fn of(text: &str) -> Few
        requires { length text.now ≤ 30 }
        ensures { result ≡ text.now }
    {
        let bytes = text.as_bytes();
        let count = bytes.len();
        let mut few = [0; FEW];
        few[..count].copy_from_slice(bytes);
        Few {
            bytes: few,
            count: count as u8,
        }
    }

    fn bytes(&self) -> &[u8]
        ensures bytes { result.now ≡ self.now }
        ensures utf8 { IsUtf8 self.now }
    {
        &self.bytes[..self.count as usize]
    }

    fn copy(&self) -> Few
        ensures { result ≡ self.now }
    {
        Few {
            bytes: self.bytes,
            count: self.count,
        }
    }
}

/// The bytes of a text.
#[derive(Drop)]
pub(crate) enum Held {
    Few(Few),
    /// This text's alone.
    Own(String),
    /// Its own and those of its copies.
    Shared(Arc<String, Global>),
}

impl Held {
    pub(crate) fn empty() -> Held
        ensures { bytes_of result ≡ [] }
    {
        Held::Few(Few::empty())
    }

    /// What holds the string's bytes. Takes no memory.
    pub(crate) fn of(text: String) -> Held
        ensures { bytes_of result ≡ string_bytes text }
    {
        if text.len() <= FEW {
            Held::Few(Few::of(text.as_str()))
        } else {
            Held::Own(text)
        }
    }

    /// What holds a copy of the bytes. Takes no memory for few.
    pub(crate) fn of_str(alloc: Global, text: &str) -> Result<Held, NoMemory>
        ensures { IfOk result (λ h. bytes_of h ≡ text.now) }
    {
        if text.len() <= FEW {
            Ok(Held::Few(Few::of(text)))
        } else {
            Ok(Held::Own(String::from_str(alloc, text)?))
        }
    }

    pub(crate) fn bytes(&self) -> &[u8]
        ensures bytes { result.now ≡ bytes_of self.now }
        ensures utf8 { IsUtf8 (bytes_of self.now) }
    {
        match self {
            Held::Few(few) => few.bytes(),
            Held::Own(text) => text.as_str().as_bytes(),
            Held::Shared(text) => text.as_str().as_bytes(),
        }
    }

    /// Another that holds the same bytes. Takes no memory for few, nor where they are shared.
    pub(crate) fn copy(&self, alloc: Global) -> Result<Held, NoMemory>
        ensures { IfOk result (λ h. bytes_of h ≡ bytes_of self.now) }
    {
        match self {
            Held::Few(few) => Ok(Held::Few(few.copy())),
            Held::Own(text) => Ok(Held::Own(String::from_str(alloc, text.as_str())?)),
            Held::Shared(text) => Ok(Held::Shared(Arc::try_clone(text)?)),
        }
    }

    /// The same bytes, in a block that copies can share; few, or where there was no memory for the block, as they were.
    pub(crate) fn shared(self, alloc: Global) -> (Held, Result<(), NoMemory>)
        ensures { bytes_of result.0 ≡ bytes_of self }
    {
        match self {
            Held::Few(few) => (Held::Few(few), Ok(())),
            Held::Own(mut text) => {
                text.shrink_to_fit();
                match Arc::new(alloc, text) {
                    Ok(block) => (Held::Shared(block), Ok(())),
                    Err(failed) => (Held::Own(failed.value), Err(NoMemory)),
                }
            }
            Held::Shared(text) => (Held::Shared(text), Ok(())),
        }
    }
}
