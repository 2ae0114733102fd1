//! The proof of a client (RFC 5802, section 3).

ghost use Rattle.std.specs.Prelude.{◌≡◌, length, bytes_eq, IfOk, MatchOption};
ghost use Rattle.std.specs.Bool.{MatchBool};
ghost use Rattle.sha1.specs.Sha1.{sha1};
ghost use Rattle.sha2.specs.Sha256.{sha256};
ghost use Rattle.hmac_kdf.specs.Hi.{exclusive_or};
ghost use Rattle.scram_core.specs.Login.{IsProof, IsProofText, IsDecoded, IsNoBase64};

use base64::DecodeAllocError;
use base64::engine::general_purpose::STANDARD;
use hmac_kdf::{hmac_sha1, hmac_sha256};
use sha1::Sha1;
use sha2::{Digest, Sha256};
use std::alloc::{AllocError, Global};

/// The account of an exchange as contracts see it: its keys under the mechanism.
pub enum Account {
    Sha1 { stored: [u8; 20], server: [u8; 20] },
    Sha256 { stored: [u8; 32], server: [u8; 32] },
    /// There is no account of the name.
    Unknown,
}

/// Whether the value of `p=` is a proof by a key, over SHA-1.
pub fn is_proof_sha1(
    alloc: Global,
    stored: &[u8; 20],
    message: &[u8],
    value: &[u8],
) -> Result<bool, AllocError>
    ensures { IfOk result (λ yes. MatchBool yes (IsProofText sha1 stored.now message.now value.now)
        (IsProofText sha1 stored.now message.now value.now → ⊥)) }
{
    match decoded(alloc, value)? {
        Some(proof) => Ok(proves_sha1(stored, message, proof.as_slice())),
        None => Ok(false),
    }
}

/// The same over SHA-256.
pub fn is_proof_sha256(
    alloc: Global,
    stored: &[u8; 32],
    message: &[u8],
    value: &[u8],
) -> Result<bool, AllocError>
    ensures { IfOk result (λ yes. MatchBool yes (IsProofText sha256 stored.now message.now value.now)
        (IsProofText sha256 stored.now message.now value.now → ⊥)) }
{
    match decoded(alloc, value)? {
        Some(proof) => Ok(proves_sha256(stored, message, proof.as_slice())),
        None => Ok(false),
    }
}

fn proves_sha1(stored: &[u8; 20], message: &[u8], proof: &[u8]) -> bool
    ensures { MatchBool result (IsProof sha1 stored.now message.now proof.now)
        (IsProof sha1 stored.now message.now proof.now → ⊥) }
{
    let mut key = hmac_sha1(stored, message);
    if proof.len() != key.len() {
        return false;
    }
    xor_into(proof, &mut key);
    is_same(&Sha1::digest(&key), stored)
}

fn proves_sha256(stored: &[u8; 32], message: &[u8], proof: &[u8]) -> bool
    ensures { MatchBool result (IsProof sha256 stored.now message.now proof.now)
        (IsProof sha256 stored.now message.now proof.now → ⊥) }
{
    let mut key = hmac_sha256(stored, message);
    if proof.len() != key.len() {
        return false;
    }
    xor_into(proof, &mut key);
    is_same(&Sha256::digest(&key), stored)
}

// XORs a string into another of the same length.
fn xor_into(string: &[u8], sum: &mut [u8])
    requires { length string.now ≡ length sum.old }
    ensures { sum.new ≡ exclusive_or string.now sum.old }
{
    for i in 0..sum.len() {
        sum[i] = string[i] ^ sum[i];
    }
}

// Whether two digests are the same. It looks at every byte, whatever it finds.
fn is_same(one: &[u8], other: &[u8]) -> bool
    requires { length one.now ≡ length other.now }
    ensures { result ≡ bytes_eq one.now other.now }
{
    let mut differing = 0;
    for i in 0..one.len() {
        differing |= one[i] ^ other[i];
    }
    differing == 0
}

// The bytes that a value stands for; None where it is not base64.
fn decoded(alloc: Global, value: &[u8]) -> Result<Option<Vec<u8>>, AllocError>
    ensures { IfOk result (λ found. MatchOption found (IsNoBase64 value.now)
        (λ bytes. IsDecoded value.now bytes.items)) }
{
    match STANDARD.decode(alloc, value) {
        Ok(bytes) => Ok(Some(bytes)),
        Err(DecodeAllocError::DecodeError(_)) => Ok(None),
        Err(DecodeAllocError::OutOfMemory) => Err(AllocError),
    }
}
