//! What holds the bytes of a part: few of them stand in place, and more in a block.
ghost use Rattle.std.specs.Prelude.{◌≡◌, ◌≤◌, length, IfOk};
ghost use Rattle.jid_core.specs.Held.{bytes_of};

use crate::fault::NoMemory;
use std::alloc::Global;
use std::marker::Model;

/// So many bytes stand in place: more than most parts have.
const FEW: usize = 30;

/// Bytes in place.
#[derive(Drop)]
pub(crate) struct Few {
    bytes: [u8; FEW],
    count: u8,
}

impl Model for Few {
    ghost use Rattle.std.specs.Prelude.{List, ℕ, ◌≤◌, take};

    ghost Value = { List ℕ };

    ghost view = { λ f. take f.count f.bytes };

    ghost invariant = { λ f. f.count ≤ 30 };
}

impl Few {
    fn of(bytes: &[u8]) -> Few
        requires { length bytes.now ≤ 30 }
        ensures { result ≡ bytes.now }
    {
        let count = bytes.len();
        let mut few = [0; FEW];
        few[..count].copy_from_slice(bytes);
        Few {
            bytes: few,
            count: count as u8,
        }
    }

    fn slice(&self) -> &[u8]
        ensures { result.now ≡ self.now }
    {
        &self.bytes[..self.count as usize]
    }

    fn copy(&self) -> Few
        ensures { result ≡ self.now }
    {
        Few {
            bytes: self.bytes,
            count: self.count,
        }
    }
}

/// The bytes of a part.
#[derive(Drop)]
pub(crate) enum Held {
    Few(Few),
    Many(Vec<u8>),
}

impl Held {
    /// What holds these bytes. Takes no memory.
    pub(crate) fn of(bytes: Vec<u8>) -> Held
        ensures { bytes_of result ≡ bytes.items }
    {
        if bytes.len() <= FEW {
            Held::Few(Few::of(bytes.as_slice()))
        } else {
            Held::Many(bytes)
        }
    }

    pub(crate) fn slice(&self) -> &[u8]
        ensures { result.now ≡ bytes_of self.now }
    {
        match self {
            Held::Few(few) => few.slice(),
            Held::Many(bytes) => bytes.as_slice(),
        }
    }

    /// Another that holds the same bytes. Takes no memory for few.
    pub(crate) fn copy(&self, alloc: Global) -> Result<Held, NoMemory>
        ensures { IfOk result (λ h. bytes_of h ≡ bytes_of self.now) }
    {
        match self {
            Held::Few(few) => Ok(Held::Few(few.copy())),
            Held::Many(bytes) => Ok(Held::Many(bytes.as_slice().to_vec(alloc)?)),
        }
    }
}
