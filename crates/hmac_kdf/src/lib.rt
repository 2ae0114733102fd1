//! The keyed hashes that a SCRAM login stands on: HMAC (RFC 2104) and `Hi` (RFC 5802, 2.2), which is
//! PBKDF2 (RFC 8018, 5.2) for one block of output, each over SHA-1 and over SHA-256.
//!
//! No call takes memory and none can fail.
#![tactic(auto)]

ghost use Rattle.std.specs.Prelude.{◌≡◌, ◌<◌};
ghost use Rattle.sha1.specs.Sha1.{sha1};
ghost use Rattle.sha2.specs.Sha256.{sha256};
ghost use Rattle.hmac_kdf.specs.Hi.{hi};
ghost use Rattle.hmac_kdf.specs.Hmac.{hmac};

use keyed_sha1::KeyedSha1;
use keyed_sha256::KeyedSha256;

mod block;
mod keyed_sha1;
mod keyed_sha256;

/// HMAC-SHA-1 (RFC 2104) of a text under a key of any length.
pub fn hmac_sha1(key: &[u8], words: &[u8]) -> [u8; 20]
    ensures { result ≡ hmac sha1 key.now words.now }
{
    KeyedSha1::new(key).mac(words)
}

/// HMAC-SHA-256 (RFC 2104) of a text under a key of any length.
pub fn hmac_sha256(key: &[u8], words: &[u8]) -> [u8; 32]
    ensures { result ≡ hmac sha256 key.now words.now }
{
    KeyedSha256::new(key).mac(words)
}

/// `Hi(password, salt, rounds)` of RFC 5802, 2.2, over HMAC-SHA-1.
///
/// The first round costs as much as one HMAC, and each further one two compressions: the key's two
/// blocks are hashed once, and their states are copied in each round.
#[tactic(auto, using(crate::proofs::Rounds::one_round_more))]
pub fn hi_sha1(password: &[u8], salt: &[u8], rounds: u32) -> [u8; 20]
    requires { 0 < rounds }
    ensures { result ≡ hi (hmac sha1) password.now salt.now rounds }
{
    let keyed = KeyedSha1::new(password);
    let mut u = keyed.first(salt);
    let mut sum = u;
    for _round in 1..rounds {
        u = keyed.mac(&u);
        block::xor_into(&mut sum, &u);
    }
    sum
}

/// `Hi(password, salt, rounds)` of RFC 5802, 2.2, over HMAC-SHA-256. It costs as [`hi_sha1`] does.
#[tactic(auto, using(crate::proofs::Rounds::one_round_more))]
pub fn hi_sha256(password: &[u8], salt: &[u8], rounds: u32) -> [u8; 32]
    requires { 0 < rounds }
    ensures { result ≡ hi (hmac sha256) password.now salt.now rounds }
{
    let keyed = KeyedSha256::new(password);
    let mut u = keyed.first(salt);
    let mut sum = u;
    for _round in 1..rounds {
        u = keyed.mac(&u);
        block::xor_into(&mut sum, &u);
    }
    sum
}
