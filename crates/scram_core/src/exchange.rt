//! An exchange: the server's first text, and its answer to the client's last (RFC 5802, section 5).

ghost use Rattle.std.specs.Prelude.{◌≡◌, ◌++◌, codes, IfOk, OnOk, IfErr, IsTrue, IsOkUnless};
ghost use Rattle.scram_core.specs.Attributes.{header_of, bare_of, nonce_of_first};
ghost use Rattle.scram_core.specs.Login.{is_server_nonce, IsServerFirst, server_first, auth_message};
ghost use Rattle.scram_core.specs.Exchange.{challenge_of, account_of, salt_of, rounds_of, ProvesTo, IsSuccess, IsLastFault, IsOfExchange};

use crate::attributes::{before_last, cut_at_comma, from_place, value_of_first};
use crate::place::place_of;
use crate::stage::Message;
use crate::verifier::Verifier;
use crate::{Found, Hello, Mechanism, NoMemory, ScramFault};
use base64::engine::general_purpose::STANDARD;
use std::alloc::{AllocError, Global};
use std::marker::Model;

/// The rounds that are told where there is no account.
const DECOY_ROUNDS: u32 = 4096;

/// A server-first-message, seen as its bytes.
#[derive(Drop)]
pub struct Challenge {
    text: Vec<u8>,
}

impl Model for Challenge {
    ghost use Rattle.std.specs.Prelude.{List, ℕ};

    ghost Value = { List ℕ };

    ghost view = { λ c. c.text.items };
}

impl Challenge {
    pub fn bytes(&self) -> &[u8]
        ensures { result.now ≡ self.now }
    {
        self.text.as_slice()
    }
}

/// A server-final-message of a login that succeeded, seen as its bytes.
#[derive(Drop)]
pub struct Success {
    text: Vec<u8>,
}

impl Model for Success {
    ghost use Rattle.std.specs.Prelude.{List, ℕ};

    ghost Value = { List ℕ };

    ghost view = { λ s. s.text.items };
}

impl Success {
    pub fn bytes(&self) -> &[u8]
        ensures { result.now ≡ self.now }
    {
        self.text.as_slice()
    }
}

/// An exchange that waits for the client's last text.
#[derive(Drop)]
pub struct Scram {
    hello: Hello,
    /// The server's part of the nonce, which with the salt and the rounds makes its first text.
    own: Vec<u8>,
    salt: Vec<u8>,
    rounds: u32,
    verifier: Verifier,
    /// The server's first text.
    server: Vec<u8>,
}

impl Model for Scram {
    ghost use Rattle.std.specs.Prelude.{◌≡◌, ◌++◌, IsTrue};
    ghost use Rattle.scram_core.specs.Attributes.{nonce_of_first};
    ghost use Rattle.scram_core.specs.Login.{is_server_nonce, server_first};
    ghost use Rattle.scram_core.specs.Exchange.{Exchange};

    ghost Value = { Exchange };

    ghost view = { λ s. record { first = s.hello; own = s.own.items; salt = s.salt.items; rounds = s.rounds; account = s.verifier } };

    ghost invariant = { λ s. IsTrue (is_server_nonce s.own.items)
        × (s.server.items ≡ server_first (nonce_of_first s.hello ++ s.own.items) s.salt.items s.rounds) };
}

impl Hello {
    /// The server's answer to the first text: the nonce of both sides, and the salt and the rounds of the account.
    /// The server's part of the nonce has 1 to 256 bytes, each from 33 to 126 and no comma.
    pub fn challenge(
        self,
        alloc: Global,
        mechanism: Mechanism,
        server_nonce: &[u8],
        found: Found,
    ) -> Result<(Scram, Challenge), NoMemory>
        requires { IsTrue (is_server_nonce server_nonce.now) }
        ensures exchange { IfOk result (λ made. made.0 ≡ record {
          first = self;
          own = server_nonce.now;
          salt = salt_of found.entry;
          rounds = rounds_of found.entry;
          account = account_of mechanism found.entry;
        }) }
        ensures text { IfOk result (λ made. made.1 ≡ challenge_of made.0) }
    {
        let own = server_nonce.to_vec(alloc)?;
        let salt = salt_found(alloc, found)?;
        let rounds = rounds_found(found);
        let server = server_text(alloc, self.text(), own.as_slice(), salt.as_slice(), rounds)?;
        let text = server.as_slice().to_vec(alloc)?;
        let verifier = Verifier::of(mechanism, found);
        let scram = Scram {
            hello: self,
            own,
            salt,
            rounds,
            verifier,
            server,
        };
        Ok((scram, Challenge { text }))
    }
}

impl Scram {
    /// Judges the client's last text. The exchange is spent either way.
    ///
    /// Refused by the first of these that fits: Malformed where the bytes are no client-final-message, at the
    /// length of their longest front that begins one; BindingDiffers where `c=` is not the opening of the first
    /// text in base64; NonceDiffers where `r=` is not the nonce of the server's text; ProofDiffers where `p=` is
    /// no proof by the keys of the account (RFC 5802, section 3), and always where the name has none.
    pub fn last(self, alloc: Global, bytes: &[u8]) -> Result<Success, ScramFault>
        ensures proved { OnOk result (ProvesTo self.account self.first (challenge_of self) bytes.now) }
        ensures success { IfOk result (λ answer. IsSuccess self.account (auth_message self.first (challenge_of self) bytes.now) answer) }
        ensures proven { ProvesTo self.account self.first (challenge_of self) bytes.now → IsOkUnless result ScramFault.NoMemory }
        ensures refused { IfErr result (IsLastFault self bytes.now) }
    {
        self.check(alloc, bytes)?;
        let without_proof = before_last(bytes);
        let value = from_place(bytes, without_proof.len() + 3);
        let message = message_of(alloc, self.hello.text(), self.server(), without_proof)?;
        if !self.verifier.is_proof(alloc, message.as_slice(), value)? {
            return Err(ScramFault::ProofDiffers);
        }
        let text = self.verifier.final_text(alloc, message.as_slice())?;
        Ok(Success { text })
    }

    // The server-first-message.
    fn server(&self) -> &[u8]
        ensures text { result.now ≡ challenge_of self.now }
        ensures form { IsServerFirst self.now.first (challenge_of self.now) }
    {
        self.server.as_slice()
    }

    // Whether the last text is one of the grammar, and has the binding and the nonce of the other two.
    fn check(&self, alloc: Global, last: &[u8]) -> Result<(), ScramFault>
        ensures ok { OnOk result (IsOfExchange self.now last.now) }
        ensures refused { IfErr result (IsLastFault self.now last.now) }
    {
        if let Some(place) = place_of(Message::Last, last) {
            return Err(ScramFault::Malformed(place));
        }
        let header = header_text(alloc, self.hello.text())?;
        let (binding, rest) = cut_at_comma(last);
        if from_place(binding, 2) != STANDARD.encode(alloc, header.as_slice())?.as_bytes() {
            return Err(ScramFault::BindingDiffers);
        }
        if value_of_first(rest) != value_of_first(self.server()) {
            return Err(ScramFault::NonceDiffers);
        }
        Ok(())
    }
}

fn salt_found(alloc: Global, found: Found) -> Result<Vec<u8>, AllocError>
    ensures { IfOk result (λ salt. salt.items ≡ salt_of found.entry) }
{
    match found {
        Found::Known(keys) => keys.salt.as_slice().to_vec(alloc),
        Found::Unknown(salt) => salt.to_vec(alloc),
    }
}

fn rounds_found(found: Found) -> u32
    ensures { result ≡ rounds_of found.entry }
{
    match found {
        Found::Known(keys) => keys.rounds,
        Found::Unknown(_) => DECOY_ROUNDS,
    }
}

// The server-first-message that answers a first text.
fn server_text(
    alloc: Global,
    first: &[u8],
    own: &[u8],
    salt: &[u8],
    rounds: u32,
) -> Result<Vec<u8>, AllocError>
    ensures { IfOk result (λ text. text.items ≡ server_first (nonce_of_first first.now ++ own.now) salt.now rounds) }
{
    let (_, bare) = cut_at_comma(cut_at_comma(first).1);
    let mut text = Vec::from_slice(alloc, b"r=")?;
    text.extend_from_slice(value_of_first(cut_at_comma(bare).1))?;
    text.extend_from_slice(own)?;
    text.extend_from_slice(b",s=")?;
    text.extend_from_slice(STANDARD.encode(alloc, salt)?.as_bytes())?;
    text.extend_from_slice(b",i=")?;
    text.extend_from_slice(format!(in alloc; "{rounds}")?.as_bytes())?;
    Ok(text)
}

// The opening of a first text.
fn header_text(alloc: Global, first: &[u8]) -> Result<Vec<u8>, AllocError>
    ensures { IfOk result (λ header. header.items ≡ header_of first.now) }
{
    let (flag, after_flag) = cut_at_comma(first);
    let (authzid, _) = cut_at_comma(after_flag);
    let mut header = flag.to_vec(alloc)?;
    header.push(b',')?;
    header.extend_from_slice(authzid)?;
    header.push(b',')?;
    Ok(header)
}

// AuthMessage of RFC 5802, section 3.
fn message_of(
    alloc: Global,
    first: &[u8],
    server: &[u8],
    without_proof: &[u8],
) -> Result<Vec<u8>, AllocError>
    ensures { IfOk result (λ message. message.items ≡ bare_of first.now ++ codes "," ++ server.now ++ codes "," ++ without_proof.now) }
{
    let (_, bare) = cut_at_comma(cut_at_comma(first).1);
    let mut message = bare.to_vec(alloc)?;
    message.push(b',')?;
    message.extend_from_slice(server)?;
    message.push(b',')?;
    message.extend_from_slice(without_proof)?;
    Ok(message)
}
