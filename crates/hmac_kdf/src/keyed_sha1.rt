//! HMAC-SHA-1 under one key, many times.

ghost use Rattle.std.specs.Prelude.{◌≡◌, ◌++◌, ℕ, List};
ghost use Rattle.sha1.specs.Sha1.{Holds, sha1};
ghost use Rattle.hmac_kdf.specs.Hi.{u_of};
ghost use Rattle.hmac_kdf.specs.Hmac.{block_of, hmac, masked};
ghost use Rattle.hmac_kdf.specs.Keyed.{IsKeyed1};

use crate::block;
use sha1::Sha1;

/// The states of SHA-1 after the key's inner and its outer block. RFC 2104, 4, tells of keeping them:
/// each HMAC under the key then begins with a copy, and costs no compression for the key.
#[derive(Drop)]
pub struct KeyedSha1 {
    inner: Sha1,
    outer: Sha1,
}

impl KeyedSha1 {
    /// The states for a key of any length.
    pub fn new(key: &[u8]) -> KeyedSha1
        ensures { IsKeyed1 result key.now }
    {
        let block = key_block(key);
        let mut inner = Sha1::new();
        inner.update(&block::mask(&block, block::INNER_PAD));
        let mut outer = Sha1::new();
        outer.update(&block::mask(&block, block::OUTER_PAD));
        KeyedSha1 { inner, outer }
    }

    /// The HMAC of a text.
    pub fn mac(&self, text: &[u8]) -> [u8; 20]
        ensures { (key : List ℕ) → IsKeyed1 self.now key → result ≡ hmac sha1 key text.now }
    {
        let mut message = copy(&self.inner);
        message.update(text);
        self.finish(message)
    }

    /// U1 of RFC 5802, 2.2: the HMAC of the salt and INT(1).
    #[tactic(auto, unfolding(crate::specs::Hi::u_of))]
    pub fn first(&self, salt: &[u8]) -> [u8; 20]
        ensures { (key : List ℕ) → IsKeyed1 self.now key → result ≡ u_of (hmac sha1) key salt.now 1 }
    {
        let mut message = copy(&self.inner);
        message.update(salt);
        message.update(&block::FIRST_BLOCK);
        self.finish(message)
    }

    // The HMAC of the text that was added to a copy of the inner state.
    #[tactic(auto, unfolding(crate::specs::Hmac::hmac))]
    fn finish(&self, message: Sha1) -> [u8; 20]
        ensures { (key text : List ℕ) → IsKeyed1 self.now key
            → Holds message (masked 0x36 (block_of sha1 key) ++ text) → result ≡ hmac sha1 key text }
    {
        let digest = message.finalize();
        let mut outer = copy(&self.outer);
        outer.update(&digest);
        outer.finalize()
    }
}

// The key as one block: a longer key is hashed first.
#[tactic(auto, unfolding(crate::specs::Hmac::block_of))]
fn key_block(key: &[u8]) -> [u8; 64]
    ensures { result ≡ block_of sha1 key.now }
{
    if key.len() > block::BLOCK_LEN {
        block::fill(&Sha1::digest(key))
    } else {
        block::fill(key)
    }
}

// The same state once more. The copy of a hasher takes no memory.
fn copy(state: &Sha1) -> Sha1
    ensures { result ≡ state.now }
{
    match state.clone() {
        Ok(copied) => copied,
        Err(_) => unreachable!(),
    }
}
