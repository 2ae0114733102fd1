//! Two places of one worker: whatever fails at the second, the first is served as ever.

ghost use Rattle.std.specs.Prelude.{◌≡◌, IfOk, Some, []};
ghost use Rattle.outside.specs.Polls.{IsFresh, SeatState};
ghost use Rattle.outside.specs.Posts.{Each, IsUnused, MemPost};

use jid_core::Jid;
use outside::{
    Kind, MemClock, MemDice, MemLink, MemPoller, MemPorts, MemSink, MemSource, PollPost, Rung,
    Sources,
};
use script_play::Status;
use serve_run::{Serving, serve};
use stanza_tree::Several;
use std::alloc::Global;
use std::sync::Wait;
use std::test::Fail;
use std::thread::Threads;

/// The account of RFC 5802, 5.
const ACCOUNT: &[u8] =
    b"user 4096 QSXCR+Q6sek8bf92 6dlGYMOdZcOPutkcNY8U2g7vK9Y= D+CSWLOshSulAsxiupA+qs2/fTE= FO+9jBb3MUukt6jJnzjPZOWc5ow/Pu6JtPyju0aqaE8= qxJ1SbmSAi5EcS0J5Ck/cKAm/+Ixa+Kwp63f4OHDgzo=\n";

pub(crate) const HEADER: &[u8] =
    b"<stream:stream xmlns='jabber:client' xmlns:stream='http://etherx.jabber.org/streams' to='example.org' version='1.0'>";

pub(crate) const HELLO: &[u8] =
    b"<auth xmlns='urn:ietf:params:xml:ns:xmpp-sasl' mechanism='SCRAM-SHA-1'>biwsbj11c2VyLHI9ZnlrbytkMmxiYkZnT05Sdjlxa3hkYXdM</auth>";

pub(crate) const PROOF: &[u8] =
    b"<response xmlns='urn:ietf:params:xml:ns:xmpp-sasl'>Yz1iaXdzLHI9ZnlrbytkMmxiYkZnT05Sdjlxa3hkYXdMQUFBQUFBQUFBQUFBQUFBQUFBQUFBQUFBLHA9d3A3V3ZvQmNHeW53cWJmejRXZmtBNzU5R0xNPQ==</response>";

const WORDS: &[u8] = b"<message to='user@example.org/q' type='chat'><body>hello</body></message>";

/// The link at the first place, which talks to itself: 13 readings and its end.
const TALK: [&[u8]; 13] = [
    HEADER,
    HELLO,
    PROOF,
    HEADER,
    b"<iq id='b1' type='set'><bind xmlns='urn:ietf:params:xml:ns:xmpp-bind'><resource>q</resource></bind></iq>",
    WORDS,
    WORDS,
    WORDS,
    WORDS,
    WORDS,
    WORDS,
    WORDS,
    WORDS,
];

const TALKS: u32 = 14;

/// The link at the second place at which something fails: a reading, and then a sending, for each item, and the end.
const WHOLE: [&[u8]; 11] = [
    HEADER,
    HELLO,
    PROOF,
    HEADER,
    b"<iq id='b1' type='set'><bind xmlns='urn:ietf:params:xml:ns:xmpp-bind'><resource>r</resource></bind></iq>",
    b"<enable xmlns='urn:xmpp:sm:3' resume='true'/>",
    b"<iq id='ro' type='get'><query xmlns='jabber:iq:roster'/></iq>",
    b"<iq id='d1' to='example.org' type='get'><query xmlns='http://jabber.org/protocol/disco#info'/></iq>",
    b"<iq id='d2' to='user@example.org' type='get'><query xmlns='http://jabber.org/protocol/disco#info'/></iq>",
    b"<presence/>",
    b"<r xmlns='urn:xmpp:sm:3'/>",
];

const WHOLE_BYTES: u32 = 990;

/// So many of them are what comes before the session can be resumed.
const RESUMABLE_BYTES: u32 = 689;

const WHOLE_READINGS: u32 = 12;

/// The link that comes there next, to resume the session: five readings and its end.
const BACK: [&[u8]; 5] = [
    HEADER,
    HELLO,
    PROOF,
    HEADER,
    b"<resume xmlns='urn:xmpp:sm:3' previd='2-00000000000000000000000000000000' h='0'/>",
];

const BACKS: u32 = 6;

/// What happens at the second place's first link.
#[derive(Clone, Copy, Debug)]
enum Change {
    None,
    /// The call of this number fails.
    Call(u32),
    /// The draw of random bytes of this number fails.
    Draw(u32),
    /// It ends after so many bytes.
    Cut(u32),
}

/// How many readings it takes to end. The first draw is made when it comes.
fn readings_until(change: Change) -> u32 {
    match change {
        Change::None => WHOLE_READINGS,
        Change::Call(call) => call.div_ceil(2).min(WHOLE_READINGS),
        Change::Draw(1) => 0,
        Change::Draw(2) => 2,
        Change::Draw(3) => 5,
        Change::Draw(_) => 6,
        Change::Cut(bytes) => begun_before(bytes).saturating_add(1),
    }
}

/// How many readings begin before so many bytes are read.
fn begun_before(bytes: u32) -> u32 {
    let mut begin: usize = 0;
    let mut begun: u32 = 0;
    for reading in WHOLE {
        if begin < bytes as usize {
            begun = begun.saturating_add(1);
        }
        begin = begin.saturating_add(reading.len());
    }
    begun
}

/// Whether the session can be resumed afterwards.
fn is_resumable(change: Change) -> bool {
    match change {
        Change::None => true,
        Change::Call(call) => call >= 12,
        Change::Draw(_) => false,
        Change::Cut(bytes) => bytes >= RESUMABLE_BYTES,
    }
}

fn readings_of(alloc: Global, readings: &[&[u8]], most: usize) -> Result<Vec<Several<u8>>, Fail> {
    let mut script = Vec::new(alloc);
    let mut left = most;
    for reading in readings {
        let (front, _) = reading.split_at(left.min(reading.len()));
        if !front.is_empty() || reading.is_empty() {
            script.push(Several::of(Vec::from_slice(alloc, front)?))?;
        }
        left = left.saturating_sub(reading.len());
    }
    Ok(script)
}

pub(crate) fn link_of(
    alloc: Global,
    readings: &[&[u8]],
    most: usize,
    fails: u64,
) -> Result<MemLink, Fail>
    ensures { IfOk result (λ l. l.tape.told ≡ Some []) }
{
    let script = readings_of(alloc, readings, most)?;
    let fails = Vec::from_array(alloc, [fails])?;
    Ok(MemLink::new(alloc, script, 10_000, fails, 100, 100_000)?)
}

/// Both places are ready in turn; the second link at the second place comes once the first ended there.
fn rings_of(alloc: Global, change: Change) -> Result<Vec<Rung>, Fail> {
    let mut rings = Vec::from_array(alloc, [Rung::New(0), Rung::New(1)])?;
    let first = readings_until(change);
    for reading in 0..first {
        if reading < TALKS {
            rings.push(Rung::Ready(0))?;
        }
        rings.push(Rung::Ready(1))?;
    }
    rings.push(Rung::New(1))?;
    for _reading in 0..BACKS {
        rings.push(Rung::Ready(1))?;
    }
    for _reading in first..TALKS {
        rings.push(Rung::Ready(0))?;
    }
    Ok(rings)
}

fn poller_of(alloc: Global, change: Change) -> Result<MemPoller, Fail>
    ensures faults { IfOk result (λ p. p.plan.faults ≡ 0) }
    ensures links { IfOk result (λ p. p.links ≡ 0) }
    ensures unused { IfOk result (λ p. Each SeatState IsFresh p.places) }
{
    let (call, most) = match change {
        Change::Call(call) => (call as u64, usize::MAX),
        Change::Cut(bytes) => (0, bytes as usize),
        Change::None => (0, usize::MAX),
        Change::Draw(_) => (0, usize::MAX),
    };
    let links = Vec::from_array(
        alloc,
        [
            link_of(alloc, &TALK, usize::MAX, 0)?,
            link_of(alloc, &WHOLE, most, call)?,
            link_of(alloc, &BACK, usize::MAX, 0)?,
        ],
    )?;
    let rings = rings_of(alloc, change)?;
    Ok(MemPoller::new(alloc, 2, rings, links, Vec::new(alloc), 2, 50)?)
}

pub(crate) fn source_of(alloc: Global, fails: u64) -> Result<Sources<MemClock, MemDice>, Fail> {
    let dice = Vec::from_array(alloc, [0u8; 1000])?;
    let fails = Vec::from_array(alloc, [fails])?;
    Ok(Sources {
        clock: MemClock::new(alloc, Vec::new(alloc), 100)?,
        dice: MemDice::new(alloc, dice, fails, 10)?,
    })
}

fn post_of(alloc: Global, change: Change) -> Result<PollPost<MemPoller, MemClock, MemDice>, Fail>
    ensures { IfOk result IsUnused }
{
    let draw = match change {
        Change::Draw(draw) => draw as u64,
        Change::None => 0,
        Change::Call(_) => 0,
        Change::Cut(_) => 0,
    };
    let poller = poller_of(alloc, change)?;
    let sources = Vec::from_array(alloc, [source_of(alloc, 0)?, source_of(alloc, draw)?])?;
    Ok(PollPost { poller, sources })
}

fn serving_of(alloc: Global, connections: u64) -> Result<Serving, Fail>
    ensures { IfOk result (λ s. (s.workers ≡ 1) × (s.links ≡ 2)) }
{
    Ok(Serving {
        domain: Jid::read(alloc, b"example.org")?,
        port: 5222,
        workers: 1,
        links: 2,
        connections,
        quiet: true,
        sessions: 512,
    })
}

/// The ports after so many connections came to these posts, where all went well.
pub(crate) fn serve_posts<R: Threads + Wait + Sync>(
    rt: &R,
    alloc: Global,
    posts: Vec<PollPost<MemPoller, MemClock, MemDice>>,
    connections: u64,
) -> Result<Option<MemPorts>, Fail>
    requires { Each MemPost IsUnused posts.items }
{
    let secret = MemDice::new(
        alloc,
        Vec::from_array(alloc, [0u8; 32])?,
        Vec::new(alloc),
        1,
    )?;
    let mut ports = MemPorts::new(alloc, posts, secret, Vec::new(alloc), 2)?;
    let mut source = MemSource::new(Vec::from_slice(alloc, ACCOUNT)?, 4096, Vec::new(alloc));
    let mut sink = MemSink::new(alloc, 100, 100, Vec::new(alloc))?;
    let serving = serving_of(alloc, connections)?;
    match serve(rt, alloc, &serving, &mut source, &mut sink, &mut ports) {
        Status::Done => Ok(Some(ports)),
        _ => Ok(None),
    }
}

/// The ports after a run.
fn run<R: Threads + Wait + Sync>(
    rt: &R,
    alloc: Global,
    change: Change,
) -> Result<Option<MemPorts>, Fail> {
    let posts = Vec::from_array(alloc, [post_of(alloc, change)?])?;
    serve_posts(rt, alloc, posts, 3)
}

/// The marks and the bytes of a place's link that came so many before.
pub(crate) fn told_at(ports: &MemPorts, place: u32, link: usize) -> Option<(&[Kind], &[u8])> {
    let poller = ports.pollers_back().first()?;
    let tape = poller.tapes(place).get(link)?;
    Some((tape.kinds(), tape.bytes()))
}

fn is_resumed(bytes: &[u8]) -> bool {
    let word = b"<resumed ";
    bytes.windows(9).any(|part| part == word.as_slice())
}

/// Whether the first place was served as it is where nothing fails, and the second was resumed where it can be.
fn is_undisturbed(plain: &MemPorts, changed: &MemPorts, change: Change) -> bool {
    let (Some(talk), Some(same)) = (told_at(plain, 0, 0), told_at(changed, 0, 0)) else {
        return false;
    };
    let Some((_, back)) = told_at(changed, 1, 1) else {
        return false;
    };
    talk == same && is_resumed(back) == is_resumable(change)
}

/// The first of these changes at which that isn't so.
fn first_wrong<R: Threads + Wait + Sync>(
    rt: &R,
    alloc: Global,
    changes: &[Change],
) -> Result<Option<Change>, Fail> {
    let Some(plain) = run(rt, alloc, Change::None)? else {
        return Err(Fail::new("a run that ends"));
    };
    for change in changes {
        match run(rt, alloc, *change)? {
            Some(changed) if is_undisturbed(&plain, &changed, *change) => {}
            _ => return Ok(Some(*change)),
        }
    }
    Ok(None)
}

// The first place's link hears its own words eight times.
#[test]
fn the_first_place_talks(rt: HostRuntime) -> Result<(), Fail> {
    let Some(ports) = run(&rt, rt.alloc(), Change::None)? else {
        return Err(Fail::new("a run that ends"));
    };
    let Some((kinds, bytes)) = told_at(&ports, 0, 0) else {
        return Err(Fail::new("a tape"));
    };
    let heard = b"<message to='user@example.org/q' type='chat' from='user@example.org/q'>";
    let count = bytes
        .windows(heard.len())
        .filter(|part| *part == heard.as_slice())
        .count();
    assert_eq!(rt; count, 8);
    assert_eq!(rt; kinds.last(), Some(&Kind::End));
    assert!(rt; is_undisturbed(&ports, &ports, Change::None));
    Ok(())
}

#[test]
fn each_call_at_the_second_place_fails(rt: HostRuntime) -> Result<(), Fail> {
    let mut changes = Vec::new(rt.alloc());
    for call in 1..24 {
        changes.push(Change::Call(call))?;
    }
    let wrong = first_wrong(&rt, rt.alloc(), changes.as_slice())?;
    assert!(rt; wrong.is_none(), "{wrong:?}");
    Ok(())
}

#[test]
fn each_draw_at_the_second_place_fails(rt: HostRuntime) -> Result<(), Fail> {
    let mut changes = Vec::new(rt.alloc());
    for draw in 1..5 {
        changes.push(Change::Draw(draw))?;
    }
    let wrong = first_wrong(&rt, rt.alloc(), changes.as_slice())?;
    assert!(rt; wrong.is_none(), "{wrong:?}");
    Ok(())
}

#[test]
fn the_second_place_is_cut_after_each_byte(rt: HostRuntime) -> Result<(), Fail> {
    let mut changes = Vec::new(rt.alloc());
    for bytes in 0..WHOLE_BYTES {
        changes.push(Change::Cut(bytes))?;
    }
    let wrong = first_wrong(&rt, rt.alloc(), changes.as_slice())?;
    assert!(rt; wrong.is_none(), "{wrong:?}");
    Ok(())
}
