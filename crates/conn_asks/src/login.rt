//! A login: the elements of SASL (RFC 6120, 6.4) and what comes of them by SCRAM (RFC 5802).

ghost use Rattle.std.specs.Prelude.{◌≡◌, IfOk, IsTrue, MatchOption, Some, length};
ghost use Rattle.std.specs.Option.{option_copied};
ghost use Rattle.jid_core.specs.Preparation.{local_of};
ghost use Rattle.scram_core.specs.Login.{IsDecoded, IsNoBase64, base64_of, is_server_nonce};
ghost use Rattle.scram_core.specs.Exchange.{challenge_of};
ghost use Rattle.conn_asks.specs.Logins.{Closes, Decodes, IsOutOfTurn, Judged, JudgedAuth, JudgedResponse, Opens, exchange_known, exchange_of};
ghost use Rattle.conn_asks.specs.Logins.{exchange_unknown, failure_of, mechanism_in, mechanism_named, sasl_named, sasl_of};
ghost use Rattle.conn_asks.specs.Users.{prepared_or, user_of};

use crate::challenged::Challenged;
use crate::failure::Failure;
use account_book::{Account, Accounts};
use base64::DecodeAllocError;
use base64::engine::general_purpose::STANDARD;
use jid_core::{JidFault, Part};
use scram_core::{Challenge, Found, Hello, Mechanism, Scram, ScramFault, Success};
use stanza_tree::{Element, NoMemory, Text};
use std::alloc::Global;

/// The namespace of SASL (RFC 6120, 6.4.1).
const SASL_SPACE: &[u8] = b"urn:ietf:params:xml:ns:xmpp-sasl";

/// An element of SASL that a client sends.
#[derive(Drop)]
pub enum Sasl {
    /// The start of a login by a mechanism, where that is one of those offered, with the words of the element.
    Auth(Option<Mechanism>, Text),
    /// The words of a response.
    Response(Text),
    /// The end of a login.
    Aborts,
}

/// Where the exchange of a login stands.
#[derive(Drop)]
pub enum Exchanging {
    /// There is none.
    Outside,
    /// A mechanism was named, and its first text is to come.
    Invited(Mechanism),
    /// The first text was answered.
    Challenged(Challenged),
}

/// What comes of an element of SASL.
#[derive(Drop)]
pub enum Verdict {
    /// An empty challenge asks for the first text of the mechanism.
    Invites(Mechanism),
    /// The first text is to be answered by a challenge.
    Greets(Mechanism, Hello),
    /// The user is logged in, and this goes with the success.
    Succeeds(Part, Success),
    Fails(Failure),
}

/// The element of SASL that an element is, if it is one.
pub fn sasl_of(alloc: Global, e: &Element) -> Result<Option<Sasl>, NoMemory>
    ensures { IfOk result (λ s. s ≡ sasl_of e.now) }
{
    if e.name.space.bytes() == SASL_SPACE {
        sasl_named(alloc, e)
    } else {
        Ok(None)
    }
}

fn sasl_named(alloc: Global, e: &Element) -> Result<Option<Sasl>, NoMemory>
    ensures { IfOk result (λ s. s ≡ sasl_named e.now.name.local e.now) }
{
    let local = e.name.local.bytes();
    if local == b"auth".as_slice() {
        let words = e.words(alloc)?;
        return Ok(Some(Sasl::Auth(mechanism_in(e.attr(b"mechanism")), words)));
    }
    if local == b"response".as_slice() {
        return Ok(Some(Sasl::Response(e.words(alloc)?)));
    }
    if local == b"abort".as_slice() {
        return Ok(Some(Sasl::Aborts));
    }
    Ok(None)
}

fn mechanism_in(name: Option<&Text>) -> Option<Mechanism>
    ensures { result ≡ mechanism_in (option_copied name.entry) }
{
    mechanism_named(name?.bytes())
}

/// The mechanism of a name (RFC 5802, 4; RFC 7677, 1).
fn mechanism_named(name: &[u8]) -> Option<Mechanism>
    ensures { result ≡ mechanism_named name.now }
{
    if name == b"SCRAM-SHA-256".as_slice() {
        Some(Mechanism::Sha256)
    } else if name == b"SCRAM-SHA-1".as_slice() {
        Some(Mechanism::Sha1)
    } else {
        None
    }
}

/// The bytes that words are in base64, if they are that.
fn decoded(alloc: Global, words: &[u8]) -> Result<Option<Vec<u8>>, NoMemory>
    ensures { IfOk result (λ found. MatchOption found (IsNoBase64 words.now) (λ bytes. IsDecoded words.now bytes.items)) }
{
    match STANDARD.decode(alloc, words) {
        Ok(bytes) => Ok(Some(bytes)),
        Err(DecodeAllocError::OutOfMemory) => Err(NoMemory),
        Err(DecodeAllocError::DecodeError(_)) => Ok(None),
    }
}

/// What comes of an element of SASL, where the exchange stands so.
pub fn judge(
    alloc: Global,
    domain: &[u8],
    exchanging: Exchanging,
    sasl: &Sasl,
) -> Result<Verdict, NoMemory>
    ensures { IfOk result (Judged domain.now exchanging sasl.now) }
{
    match sasl {
        Sasl::Auth(None, _) => Ok(Verdict::Fails(Failure::InvalidMechanism)),
        Sasl::Auth(Some(mechanism), words) => {
            begin(alloc, domain, exchanging, *mechanism, words.bytes())
        }
        Sasl::Response(words) => respond(alloc, domain, exchanging, words.bytes()),
        Sasl::Aborts => Ok(Verdict::Fails(Failure::Aborted)),
    }
}

/// A start of a login: outside an exchange it is answered, and inside one it is out of turn.
fn begin(
    alloc: Global,
    domain: &[u8],
    exchanging: Exchanging,
    mechanism: Mechanism,
    words: &[u8],
) -> Result<Verdict, NoMemory>
    ensures { IfOk result (JudgedAuth domain.now exchanging mechanism words.now) }
{
    match exchanging {
        Exchanging::Outside => {
            if words.is_empty() {
                return Ok(Verdict::Invites(mechanism));
            }
            open(alloc, domain, mechanism, words)
        }
        Exchanging::Invited(_) => refuse(alloc, words),
        Exchanging::Challenged(_) => refuse(alloc, words),
    }
}

fn respond(
    alloc: Global,
    domain: &[u8],
    exchanging: Exchanging,
    words: &[u8],
) -> Result<Verdict, NoMemory>
    ensures { IfOk result (JudgedResponse domain.now exchanging words.now) }
{
    match exchanging {
        Exchanging::Outside => refuse(alloc, words),
        Exchanging::Invited(mechanism) => open(alloc, domain, mechanism, words),
        Exchanging::Challenged(challenged) => close(alloc, challenged, words),
    }
}

/// Words that come out of turn: they are malformed, if they are base64.
#[tactic(auto, using(crate::proofs::Decoding::decodes_ok, crate::proofs::Decoding::decodes_some, crate::proofs::Decoding::decodes_none))]
fn refuse(alloc: Global, words: &[u8]) -> Result<Verdict, NoMemory>
    ensures { IfOk result (Decodes words.now IsOutOfTurn) }
{
    match decoded(alloc, words)? {
        Some(_) => Ok(Verdict::Fails(Failure::MalformedRequest)),
        None => Ok(Verdict::Fails(Failure::IncorrectEncoding)),
    }
}

#[tactic(auto, using(crate::proofs::Decoding::decodes_ok, crate::proofs::Decoding::decodes_some, crate::proofs::Decoding::decodes_none))]
fn open(
    alloc: Global,
    domain: &[u8],
    mechanism: Mechanism,
    words: &[u8],
) -> Result<Verdict, NoMemory>
    ensures { IfOk result (Decodes words.now (Opens domain.now mechanism)) }
{
    match decoded(alloc, words)? {
        Some(first) => greet(alloc, domain, mechanism, first.as_slice()),
        None => Ok(Verdict::Fails(Failure::IncorrectEncoding)),
    }
}

/// A first text of a client (RFC 5802, 5).
fn greet(
    alloc: Global,
    domain: &[u8],
    mechanism: Mechanism,
    first: &[u8],
) -> Result<Verdict, NoMemory>
    ensures { IfOk result (Opens domain.now mechanism first.now) }
{
    match Hello::read(alloc, first, domain) {
        Ok(hello) => Ok(Verdict::Greets(mechanism, hello)),
        Err(fault) => Ok(Verdict::Fails(failure_of(fault)?)),
    }
}

#[tactic(auto, using(crate::proofs::Decoding::decodes_ok, crate::proofs::Decoding::decodes_some, crate::proofs::Decoding::decodes_none))]
fn close(alloc: Global, challenged: Challenged, words: &[u8]) -> Result<Verdict, NoMemory>
    ensures { IfOk result (Decodes words.now (Closes challenged)) }
{
    match decoded(alloc, words)? {
        Some(last) => conclude(alloc, challenged, last.as_slice()),
        None => Ok(Verdict::Fails(Failure::IncorrectEncoding)),
    }
}

/// A last text of a client (RFC 5802, 5).
fn conclude(alloc: Global, challenged: Challenged, last: &[u8]) -> Result<Verdict, NoMemory>
    ensures { IfOk result (Closes challenged last.now) }
{
    let (scram, user) = challenged.into_parts();
    match scram.last(alloc, last) {
        Ok(success) => match user {
            Some(user) => Ok(Verdict::Succeeds(user, success)),
            None => unreachable!(),
        },
        Err(fault) => Ok(Verdict::Fails(failure_of(fault)?)),
    }
}

/// The failure that a fault of a text is (RFC 6120, 6.5).
fn failure_of(fault: ScramFault) -> Result<Failure, NoMemory>
    ensures { IfOk result (λ f. failure_of fault ≡ Some f) }
{
    match fault {
        ScramFault::NoMemory => Err(NoMemory),
        ScramFault::Malformed(_) => Ok(Failure::MalformedRequest),
        ScramFault::BadAuthzid => Ok(Failure::InvalidAuthzid),
        ScramFault::NonceDiffers => Ok(Failure::NotAuthorized),
        ScramFault::BindingDiffers => Ok(Failure::NotAuthorized),
        ScramFault::ProofDiffers => Ok(Failure::NotAuthorized),
    }
}

/// How many random bytes a draw has: base64 makes 24 characters of them for a nonce, and the first sixteen are those of an id.
pub const DRAW: usize = 18;

/// The challenge that answers a first text, and the exchange that it begins. Without an account it is one that tells nothing of that.
pub fn challenge(
    alloc: Global,
    accounts: &Accounts,
    mechanism: Mechanism,
    hello: Hello,
    dice: [u8; DRAW],
) -> Result<(Challenged, Challenge), NoMemory>
    ensures exchange { IfOk result (λ made. made.0 ≡ exchange_of accounts.now mechanism hello dice) }
    ensures text { IfOk result (λ made. made.1 ≡ challenge_of made.0) }
{
    let nonce = nonce_of(alloc, &dice)?;
    let user = prepared(alloc, hello.name())?;
    // Made for every name, so that one with an account takes no less time.
    let salt = accounts.decoy(user.as_slice());
    match accounts.find(user.as_slice()) {
        Some(account) => known(alloc, mechanism, hello, nonce.as_slice(), account),
        None => unknown(alloc, mechanism, hello, nonce.as_slice(), salt),
    }
}

/// The server's part of a nonce: random bytes in base64.
fn nonce_of(alloc: Global, dice: &[u8]) -> Result<Vec<u8>, NoMemory>
    requires { length dice.now ≡ 18 }
    ensures text { IfOk result (λ nonce. nonce.items ≡ base64_of dice.now) }
    ensures nonce { IfOk result (λ nonce. IsTrue (is_server_nonce nonce.items)) }
{
    Ok(STANDARD.encode(alloc, dice)?.into_bytes())
}

/// A name as accounts have it: prepared (RFC 7622, 3.3), or as it is where it can't be.
fn prepared(alloc: Global, name: &[u8]) -> Result<Vec<u8>, NoMemory>
    ensures { IfOk result (λ user. user.items ≡ prepared_or name.now (local_of name.now)) }
{
    match Part::local(alloc, name) {
        Ok(part) => part.bytes().to_vec(alloc),
        Err(JidFault::NoMemory) => Err(NoMemory),
        Err(_) => name.to_vec(alloc),
    }
}

fn known(
    alloc: Global,
    mechanism: Mechanism,
    hello: Hello,
    nonce: &[u8],
    account: &Account,
) -> Result<(Challenged, Challenge), NoMemory>
    requires nonce { IsTrue (is_server_nonce nonce.now) }
    requires name { account.now.name ≡ user_of hello }
    ensures exchange { IfOk result (λ made. made.0 ≡ exchange_known mechanism hello nonce.now account.now) }
    ensures text { IfOk result (λ made. made.1 ≡ challenge_of made.0) }
{
    let user = account.name.copy(alloc)?;
    let (scram, text) = hello.challenge(alloc, mechanism, nonce, Found::Known(&account.keys))?;
    Ok((Challenged::new(scram, Some(user)), text))
}

fn unknown(
    alloc: Global,
    mechanism: Mechanism,
    hello: Hello,
    nonce: &[u8],
    salt: [u8; 16],
) -> Result<(Challenged, Challenge), NoMemory>
    requires { IsTrue (is_server_nonce nonce.now) }
    ensures exchange { IfOk result (λ made. made.0 ≡ exchange_unknown hello nonce.now salt) }
    ensures text { IfOk result (λ made. made.1 ≡ challenge_of made.0) }
{
    let (scram, text) = hello.challenge(alloc, mechanism, nonce, Found::Unknown(salt))?;
    Ok((Challenged::new(scram, None), text))
}
