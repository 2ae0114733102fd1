//! What the proof of a client is tried by (RFC 5802, section 3).

ghost use Rattle.std.specs.Prelude.{◌≡◌, ◌++◌, codes, IfOk};
ghost use Rattle.std.specs.Bool.{MatchBool};
ghost use Rattle.scram_core.specs.Login.{base64_of};
ghost use Rattle.scram_core.specs.Exchange.{IsKnown, IsSuccess, ProofTextTo, account_of, known};
ghost use Rattle.scram_core.specs.Verifiers.{known_with, mechanism_with};

use crate::proof::{is_proof_sha1, is_proof_sha256};
use crate::{Found, Keys, Mechanism};
use base64::engine::general_purpose::STANDARD;
use hmac_kdf::{hmac_sha1, hmac_sha256};
use std::alloc::{AllocError, Global};
use std::marker::Model;

/// StoredKey and ServerKey under one mechanism.
#[derive(Clone, Copy)]
pub enum KeyPair {
    Sha1 { stored: [u8; 20], server: [u8; 20] },
    Sha256 { stored: [u8; 32], server: [u8; 32] },
}

/// A pair of keys, seen as the account that they are of. Where a name has no account the pair is nobody's: a proof is
/// tried by it in the same steps, and refused whatever comes of that.
#[derive(Drop)]
pub struct Verifier {
    keys: KeyPair,
    is_known: bool,
}

impl Model for Verifier {
    ghost use Rattle.scram_core.specs.declared.proof.Account.{Account};
    ghost use Rattle.scram_core.specs.Verifiers.{account_with};

    ghost Value = { Account };

    ghost view = { λ v. account_with v.is_known v.keys };
}

impl Verifier {
    /// The keys of what was found of a name.
    pub fn of(mechanism: Mechanism, found: Found) -> Verifier
        ensures { result ≡ account_of mechanism found.entry }
    {
        match found {
            Found::Known(keys) => Verifier {
                keys: keys_under(mechanism, keys),
                is_known: true,
            },
            Found::Unknown(_) => Verifier {
                keys: decoy_keys(mechanism),
                is_known: false,
            },
        }
    }

    /// Whether the value of `p=` is a proof by the account.
    pub fn is_proof(&self, alloc: Global, message: &[u8], value: &[u8]) -> Result<bool, AllocError>
        ensures { IfOk result (λ yes. MatchBool yes (ProofTextTo self.now message.now value.now)
            (ProofTextTo self.now message.now value.now → ⊥)) }
    {
        let fits = is_proof_by(alloc, &self.keys, message, value)?;
        Ok(fits & self.is_known)
    }

    /// The server-final-message.
    pub fn final_text(&self, alloc: Global, message: &[u8]) -> Result<Vec<u8>, AllocError>
        requires { IsKnown self.now }
        ensures { IfOk result (λ text. IsSuccess self.now message.now text.items) }
    {
        match &self.keys {
            KeyPair::Sha1 { server, .. } => signature_text(alloc, &hmac_sha1(server, message)),
            KeyPair::Sha256 { server, .. } => signature_text(alloc, &hmac_sha256(server, message)),
        }
    }
}

fn keys_under(mechanism: Mechanism, keys: &Keys) -> KeyPair
    ensures { known_with result ≡ known mechanism keys.now }
{
    match mechanism {
        Mechanism::Sha1 => KeyPair::Sha1 {
            stored: keys.stored1,
            server: keys.server1,
        },
        Mechanism::Sha256 => KeyPair::Sha256 {
            stored: keys.stored256,
            server: keys.server256,
        },
    }
}

// Keys in place of those of an account.
fn decoy_keys(mechanism: Mechanism) -> KeyPair
    ensures { mechanism_with result ≡ mechanism }
{
    match mechanism {
        Mechanism::Sha1 => KeyPair::Sha1 {
            stored: [0; 20],
            server: [0; 20],
        },
        Mechanism::Sha256 => KeyPair::Sha256 {
            stored: [0; 32],
            server: [0; 32],
        },
    }
}

fn is_proof_by(
    alloc: Global,
    keys: &KeyPair,
    message: &[u8],
    value: &[u8],
) -> Result<bool, AllocError>
    ensures { IfOk result (λ yes. MatchBool yes (ProofTextTo (known_with keys.now) message.now value.now)
        (ProofTextTo (known_with keys.now) message.now value.now → ⊥)) }
{
    match keys {
        KeyPair::Sha1 { stored, .. } => is_proof_sha1(alloc, stored, message, value),
        KeyPair::Sha256 { stored, .. } => is_proof_sha256(alloc, stored, message, value),
    }
}

// A signature in base64, with its `v=`.
fn signature_text(alloc: Global, signature: &[u8]) -> Result<Vec<u8>, AllocError>
    ensures { IfOk result (λ text. text.items ≡ codes "v=" ++ base64_of signature.now) }
{
    let mut text = Vec::from_slice(alloc, b"v=")?;
    text.extend_from_slice(STANDARD.encode(alloc, signature)?.as_bytes())?;
    Ok(text)
}
