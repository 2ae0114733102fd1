//! A hasher that gathers words.
ghost use Rattle.std.specs.Prelude.{◌≡◌};
ghost use Rattle.std.specs.List.{fold};
ghost use Rattle.hash_keys.specs.Words.{finished, pushed, written};

use std::hash::{DefaultHasher, Hasher};

/// SipHash-1-3 over words of eight bytes that are gathered from what is written, since the hash of a vector writes each byte by itself.
#[derive(Clone, Copy)]
pub struct WordHasher {
    pub(crate) words: DefaultHasher,
    /// The bytes since the last whole word, the last of them lowest.
    pub(crate) rest: u64,
    /// How many these are: at most seven.
    pub(crate) count: u8,
}

impl WordHasher {
    #[tactic(auto, unfolding(crate::specs::Words::pushed))]
    fn push(&mut self, byte: u8)
        ensures { self.new ≡ pushed self.old byte }
    {
        self.rest = self.rest << 8 | byte as u64;
        if self.count < 7 {
            self.count += 1;
            return;
        }
        self.words.write_u64(self.rest);
        self.rest = 0;
        self.count = 0;
    }

    fn push_all(&mut self, bytes: &[u8])
        ensures { self.new ≡ fold pushed self.old bytes.now }
    {
        for byte in bytes {
            self.push(*byte);
        }
    }
}

impl Hasher for WordHasher {
    ghost write = { written };

    ghost finish = { finished };

    #[tactic(auto, unfolding(crate::specs::Words::finished))]
    fn finish(&self) -> u64 {
        let mut words = self.words;
        words.write_u64((self.count as u64) << 56 | self.rest);
        words.finish()
    }

    #[tactic(auto, unfolding(crate::specs::Words::written))]
    fn write(&mut self, bytes: &[u8]) {
        if self.count == 0 && bytes.len() == 8 {
            self.words.write(bytes);
            return;
        }
        self.push_all(bytes);
    }

    #[tactic(auto, unfolding(crate::specs::Words::written))]
    fn write_u8(&mut self, i: u8) {
        self.push(i);
    }
}
