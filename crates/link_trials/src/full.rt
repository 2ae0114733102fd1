//! A server whose house is full: clients come one after another to the one place of its worker, make a session that can be resumed, and go.

ghost use Rattle.std.specs.Prelude.{◌≡◌, IfOk, Some, []};
ghost use Rattle.outside.specs.Doors.{Unmarked};
ghost use Rattle.outside.specs.Polls.{IsFresh, SeatState};
ghost use Rattle.outside.specs.Posts.{Each, IsUnused};

use base64::engine::general_purpose::STANDARD;
use hmac_kdf::hmac_sha1;
use jid_core::Jid;
use outside::{
    MemClock, MemDice, MemLink, MemPoller, MemPorts, MemSink, MemSource, PollPost, Rung, Sources,
};
use script_play::Status;
use serve_run::{Serving, serve};
use stanza_tree::Several;
use std::alloc::{AllocError, Global};
use std::sync::Wait;
use std::test::Fail;
use std::thread::Threads;

/// The most sessions that a house can have, of which a user can have so many.
const SESSIONS: u32 = 16_384;

const OF_USER: u32 = 16;

/// One more than the sessions, which is of a user of its own.
const CLIENTS: u32 = SESSIONS + 1;

const USERS: u32 = SESSIONS / OF_USER + 1;

/// What comes after the name in each account: the keys of RFC 5802, 5, so that all users have one password.
const KEYS: &[u8] =
    b" 4096 QSXCR+Q6sek8bf92 6dlGYMOdZcOPutkcNY8U2g7vK9Y= D+CSWLOshSulAsxiupA+qs2/fTE= FO+9jBb3MUukt6jJnzjPZOWc5ow/Pu6JtPyju0aqaE8= qxJ1SbmSAi5EcS0J5Ck/cKAm/+Ixa+Kwp63f4OHDgzo=\n";

const CLIENT_KEY: [u8; 20] =
    *b"\xe2\x34\xc4\x7b\xf6\xc3\x66\x96\xdd\x6d\x85\x2b\x99\xaa\xa2\xba\x26\x55\x57\x28";

const STORED_KEY: &[u8] =
    b"\xe9\xd9\x46\x60\xc3\x9d\x65\xc3\x8f\xba\xd9\x1c\x35\x8f\x14\xda\x0e\xef\x2b\xd6";

/// The client's nonce, and after it that of a server whose random bytes are zeros.
const OWN_NONCE: &[u8] = b"fyko+d2lbbFgONRv9qkxdawL";

const NONCE: &[u8] = b"fyko+d2lbbFgONRv9qkxdawLAAAAAAAAAAAAAAAAAAAAAAAA";

const HEADER: &[u8] =
    b"<stream:stream xmlns='jabber:client' xmlns:stream='http://etherx.jabber.org/streams' to='example.org' version='1.0'>";

const BIND: &[u8] =
    b"<iq id='b1' type='set'><bind xmlns='urn:ietf:params:xml:ns:xmpp-bind'><resource>";

const BOUND: &[u8] = b"</resource></bind></iq>";

const ENABLE: &[u8] = b"<enable xmlns='urn:xmpp:sm:3' resume='true'/>";

/// The readings of a client, and the end.
const READINGS: u32 = 7;

fn joined(alloc: Global, parts: &[&[u8]]) -> Result<Vec<u8>, AllocError> {
    let mut whole = Vec::new(alloc);
    for part in parts {
        whole.extend_from_slice(part)?;
    }
    Ok(whole)
}

/// An element with the base64 of a text.
fn element(
    alloc: Global,
    open: &[u8],
    text: &[u8],
    close: &[u8],
) -> Result<Several<u8>, AllocError> {
    let encoded = STANDARD.encode(alloc, text)?;
    Ok(Several::of(joined(alloc, &[open, encoded.as_bytes(), close])?))
}

fn hello(alloc: Global, name: &[u8]) -> Result<Several<u8>, AllocError> {
    element(
        alloc,
        b"<auth xmlns='urn:ietf:params:xml:ns:xmpp-sasl' mechanism='SCRAM-SHA-1'>",
        joined(alloc, &[b"n,,n=", name, b",r=", OWN_NONCE])?.as_slice(),
        b"</auth>",
    )
}

/// The client's key, masked by its signature of what was said (RFC 5802, 3).
fn proof_of(alloc: Global, name: &[u8]) -> Result<[u8; 20], AllocError> {
    let said = joined(
        alloc,
        &[
            b"n=",
            name,
            b",r=",
            OWN_NONCE,
            b",r=",
            NONCE,
            b",s=QSXCR+Q6sek8bf92,i=4096,c=biws,r=",
            NONCE,
        ],
    )?;
    let mut proof = CLIENT_KEY;
    for (byte, mask) in proof.iter_mut().zip(hmac_sha1(STORED_KEY, said.as_slice())) {
        *byte ^= mask;
    }
    Ok(proof)
}

fn response(alloc: Global, name: &[u8]) -> Result<Several<u8>, AllocError> {
    let proof = STANDARD.encode(alloc, &proof_of(alloc, name)?)?;
    element(
        alloc,
        b"<response xmlns='urn:ietf:params:xml:ns:xmpp-sasl'>",
        joined(alloc, &[b"c=biws,r=", NONCE, b",p=", proof.as_bytes()])?.as_slice(),
        b"</response>",
    )
}

fn plain(alloc: Global, bytes: &[u8]) -> Result<Several<u8>, AllocError> {
    Ok(Several::of(Vec::from_slice(alloc, bytes)?))
}

/// What a client says, whose resource is its number.
fn link_of(alloc: Global, client: u32) -> Result<MemLink, AllocError>
    ensures { IfOk result (λ l. l.tape.told ≡ Some []) }
{
    let name = format!(in alloc; "u{}", client / OF_USER)?;
    let resource = format!(in alloc; "{}", client)?;
    let bind = joined(alloc, &[BIND, resource.as_bytes(), BOUND])?;
    let mut script = Vec::new(alloc);
    script.push(plain(alloc, HEADER)?)?;
    script.push(hello(alloc, name.as_bytes())?)?;
    script.push(response(alloc, name.as_bytes())?)?;
    script.push(plain(alloc, HEADER)?)?;
    script.push(Several::of(bind))?;
    script.push(plain(alloc, ENABLE)?)?;
    MemLink::new(alloc, script, 10_000, Vec::new(alloc), 40, 4000)
}

#[tactic(auto, using(crate::proofs::FullLemmas::one_more))]
fn links(alloc: Global) -> Result<Vec<MemLink>, AllocError>
    ensures { IfOk result (λ v. Unmarked v.items) }
{
    let mut links = Vec::new(alloc);
    for client in 0..CLIENTS {
        links.push(link_of(alloc, client)?)?;
    }
    Ok(links)
}

fn rings(alloc: Global) -> Result<Vec<Rung>, AllocError> {
    let mut rings = Vec::new(alloc);
    for _client in 0..CLIENTS {
        rings.push(Rung::New(0))?;
        for _reading in 0..READINGS {
            rings.push(Rung::Ready(0))?;
        }
    }
    Ok(rings)
}

/// Dice that give zeros, for so many draws.
fn zeros(alloc: Global, draws: usize) -> Result<MemDice, AllocError> {
    let mut bytes = Vec::new(alloc);
    bytes.resize(draws.saturating_mul(32), 0u8)?;
    MemDice::new(alloc, bytes, Vec::new(alloc), draws)
}

fn post(alloc: Global) -> Result<PollPost<MemPoller, MemClock, MemDice>, AllocError>
    ensures { IfOk result IsUnused }
{
    let links = links(alloc)?;
    let poller = MemPoller::new(
        alloc,
        1,
        rings(alloc)?,
        links,
        Vec::new(alloc),
        CLIENTS as usize,
        10,
    )?;
    let source = Sources {
        clock: MemClock::new(alloc, Vec::new(alloc), 100)?,
        dice: zeros(alloc, 5 * CLIENTS as usize)?,
    };
    let sources = Vec::from_array(alloc, [source])?;
    Ok(PollPost { poller, sources })
}

fn accounts(alloc: Global) -> Result<Vec<u8>, AllocError> {
    let mut list = Vec::new(alloc);
    for user in 0..USERS {
        let name = format!(in alloc; "u{}", user)?;
        list.extend_from_slice(name.as_bytes())?;
        list.extend_from_slice(KEYS)?;
    }
    Ok(list)
}

fn serving_of(alloc: Global) -> Result<Serving, Fail>
    ensures { IfOk result (λ s. (s.workers ≡ 1) × (s.links ≡ 1)) }
{
    Ok(Serving {
        domain: Jid::read(alloc, b"example.org")?,
        port: 5222,
        workers: 1,
        links: 1,
        connections: CLIENTS as u64,
        quiet: true,
        sessions: SESSIONS,
    })
}

/// The ports after a run.
fn run<R: Threads + Wait + Sync>(rt: &R, alloc: Global) -> Result<Option<MemPorts>, Fail> {
    let posts = Vec::from_array(alloc, [post(alloc)?])?;
    let mut ports = MemPorts::new(alloc, posts, zeros(alloc, 1)?, Vec::new(alloc), 2)?;
    let mut source = MemSource::new(accounts(alloc)?, 4096, Vec::new(alloc));
    let mut sink = MemSink::new(alloc, 100, 100, Vec::new(alloc))?;
    let serving = serving_of(alloc)?;
    match serve(rt, alloc, &serving, &mut source, &mut sink, &mut ports) {
        Status::Done => Ok(Some(ports)),
        _ => Ok(None),
    }
}

fn is_told(bytes: &[u8], word: &[u8]) -> bool {
    bytes.windows(word.len().max(1)).any(|part| part == word)
}

/// How many clients were told that they can resume their session, and whether the last was refused one, and no other.
fn told(ports: &MemPorts) -> Option<(u32, bool)> {
    let tapes = ports.pollers_back().first()?.tapes(0);
    let mut made: u32 = 0;
    for tape in tapes {
        if is_told(tape.bytes(), b"<enabled ") {
            made = made.saturating_add(1);
        }
    }
    let (last, others) = tapes.split_last()?;
    let refused = is_told(last.bytes(), b"<resource-constraint ");
    let more = others
        .iter()
        .any(|tape| is_told(tape.bytes(), b"<resource-constraint "));
    Some((made, refused && !more))
}

#[test]
fn one_session_too_many_is_refused(rt: HostRuntime) -> Result<(), Fail> {
    let Some(ports) = run(&rt, rt.alloc())? else {
        return Err(Fail::new("a run that ends"));
    };
    assert_eq!(rt; told(&ports), Some((SESSIONS, true)));
    Ok(())
}
