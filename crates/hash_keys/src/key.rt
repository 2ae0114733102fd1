//! A key.
ghost use Rattle.std.specs.Prelude.{◌≡◌};
ghost use Rattle.hash_keys.specs.Keyed.{begun, fixed_key, hashed, key_of, seeded};

use crate::words::WordHasher;
use std::hash::{BuildHasher, DefaultHasher, Hasher};

/// The key by which a table hashes what others choose: names, addresses. Who doesn't know it can't choose names that a table would keep in one place.
///
/// What is hashed is the key's bytes, and then the name's, by SipHash-1-3. The key is read once, when it is made.
#[derive(Clone, Copy)]
pub struct HashKey {
    started: DefaultHasher,
}

impl HashKey {
    /// The key of these bytes. Where others choose what is hashed, nobody may be able to guess them.
    #[tactic(auto, unfolding(crate::specs::Keyed::key_of))]
    pub fn of(bytes: [u8; 16]) -> HashKey
        ensures { result ≡ key_of bytes }
    {
        let mut started = DefaultHasher::new();
        started.write(&bytes);
        HashKey { started }
    }

    /// A key that everybody knows, for runs that are to be the same each time.
    pub fn fixed() -> HashKey
        ensures { result ≡ fixed_key }
    {
        HashKey::of([0; 16])
    }

    /// The hash of some bytes.
    #[tactic(auto, unfolding(crate::specs::Keyed::hashed))]
    pub fn hash_bytes(&self, bytes: &[u8]) -> u64
        ensures { result ≡ hashed self.now bytes.now }
    {
        let mut hasher = self.hasher();
        hasher.write(bytes);
        hasher.finish()
    }

    /// The hasher that has read the key.
    #[tactic(auto, unfolding(crate::specs::Keyed::seeded))]
    pub fn hasher(&self) -> DefaultHasher
        ensures { result ≡ seeded self.now }
    {
        self.started
    }
}

impl BuildHasher for HashKey {
    type Hasher = WordHasher;

    ghost build_hasher = { begun };

    #[tactic(auto, unfolding(crate::specs::Keyed::begun))]
    fn build_hasher(&self) -> WordHasher {
        WordHasher {
            words: self.hasher(),
            rest: 0,
            count: 0,
        }
    }
}
