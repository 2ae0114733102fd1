//! Runs of a server over ports in memory, which have two posts with a link for each place.

ghost use Rattle.std.specs.Prelude.{◌≡◌, IfOk, Some, []};
ghost use Rattle.outside.specs.Polls.{IsFresh, SeatState};
ghost use Rattle.outside.specs.Posts.{Each, IsUnused};

use jid_core::Jid;
use outside::{
    MemClock, MemDice, MemLink, MemPoller, MemPorts, MemSink, MemSource, PollPost, Rung, Sources,
};
use script_play::Status;
use serve_run::{Serving, serve};
use stanza_tree::Several;
use std::alloc::Global;
use std::process::Abort;
use std::sync::Wait;
use std::test::Fail;
use std::thread::Threads;

const HEADER: &[u8] =
    b"<stream:stream xmlns='jabber:client' xmlns:stream='http://etherx.jabber.org/streams' to='example.org' version='1.0'>";

const CLOSE_TAG: &[u8] = b"</stream:stream>";

/// Both in one reading.
const WHOLE: &[u8] =
    b"<stream:stream xmlns='jabber:client' xmlns:stream='http://etherx.jabber.org/streams' to='example.org' version='1.0'></stream:stream>";

/// The account of RFC 5802, 5.
const ACCOUNT: &[u8] =
    b"user 4096 QSXCR+Q6sek8bf92 6dlGYMOdZcOPutkcNY8U2g7vK9Y= D+CSWLOshSulAsxiupA+qs2/fTE= FO+9jBb3MUukt6jJnzjPZOWc5ow/Pu6JtPyju0aqaE8= qxJ1SbmSAi5EcS0J5Ck/cKAm/+Ixa+Kwp63f4OHDgzo=\n";

/// What fails, by the number of its call, from 1; 0 is none: a reading of the list, the writing of the line, a call of the ports (opening them is the
/// first, drawing the secret the second), a wait of the first poller, a call of the link at its first place, and, answered `Later`, a sending there.
#[derive(Clone, Copy)]
struct Faults {
    reading: u64,
    writing: u64,
    ports: u64,
    poller: u64,
    link: u64,
    later: u64,
}

const NONE: Faults = Faults {
    reading: 0,
    writing: 0,
    ports: 0,
    poller: 0,
    link: 0,
    later: 0,
};

/// How each poller of one place rings where its link is read once, and twice.
const ONCE: &[Rung] = &[Rung::New(0), Rung::Ready(0)];

const TWICE: &[Rung] = &[Rung::New(0), Rung::Ready(0), Rung::Ready(0)];

/// And one of two places: place 1 is ready first.
const BOTH: &[Rung] = &[Rung::New(0), Rung::New(1), Rung::Ready(1), Rung::Ready(0)];

/// The same, where place 1 can take no byte at first.
const AGAIN: &[Rung] = &[
    Rung::New(1),
    Rung::New(0),
    Rung::Ready(1),
    Rung::Ready(0),
    Rung::Ready(1),
];

/// The same, where the reading of place 1 is to fail.
const BROKEN: &[Rung] = &[Rung::New(1), Rung::New(0), Rung::Ready(1), Rung::Ready(0)];

/// How many workers, and places of each, which are its connections too; the list of accounts, the readings of each link, how pollers ring, what fails; the
/// status, and what is printed.
type Case = (
    u32,
    u32,
    &'static [u8],
    &'static [&'static [u8]],
    &'static [Rung],
    Faults,
    Status,
    &'static [u8],
);

const CASES: [Case; 13] = [
    (
        1,
        1,
        b"",
        &[WHOLE],
        ONCE,
        NONE,
        Status::Done,
        b"links 1 turns 2\n",
    ),
    (
        2,
        1,
        b"",
        &[HEADER, CLOSE_TAG],
        TWICE,
        NONE,
        Status::Done,
        b"links 2 turns 6\n",
    ),
    (
        1,
        1,
        ACCOUNT,
        &[WHOLE],
        ONCE,
        NONE,
        Status::Done,
        b"links 1 turns 2\n",
    ),
    (
        1,
        2,
        b"",
        &[WHOLE],
        BOTH,
        NONE,
        Status::Done,
        b"links 2 turns 4\n",
    ),
    (
        1,
        2,
        b"",
        &[WHOLE],
        AGAIN,
        Faults { later: 1, ..NONE },
        Status::Done,
        b"links 2 turns 4\n",
    ),
    (
        1,
        2,
        b"",
        &[WHOLE],
        BROKEN,
        Faults { link: 1, ..NONE },
        Status::Done,
        b"links 2 turns 4\n",
    ),
    (
        1,
        1,
        b"alice 4096",
        &[WHOLE],
        ONCE,
        NONE,
        Status::Accounts(1),
        b"",
    ),
    (
        2,
        1,
        b"",
        &[WHOLE],
        ONCE,
        Faults { poller: 1, ..NONE },
        Status::ListenFault,
        b"",
    ),
    (
        1,
        1,
        b"",
        &[WHOLE],
        ONCE,
        Faults { ports: 1, ..NONE },
        Status::ListenFault,
        b"",
    ),
    (
        1,
        1,
        b"",
        &[WHOLE],
        ONCE,
        Faults { ports: 2, ..NONE },
        Status::ListenFault,
        b"",
    ),
    (
        1,
        1,
        ACCOUNT,
        &[WHOLE],
        ONCE,
        Faults { reading: 1, ..NONE },
        Status::ReadFault,
        b"",
    ),
    (
        1,
        1,
        ACCOUNT,
        &[WHOLE],
        ONCE,
        Faults { reading: 2, ..NONE },
        Status::ReadFault,
        b"",
    ),
    (
        1,
        1,
        b"",
        &[WHOLE],
        ONCE,
        Faults { writing: 1, ..NONE },
        Status::WriteFault,
        b"",
    ),
];

fn link_of(alloc: Global, readings: &[&[u8]], fails: u64, later: u64) -> Result<MemLink, Fail>
    ensures { IfOk result (λ l. l.tape.told ≡ Some []) }
{
    let mut script = Vec::new(alloc);
    for reading in readings {
        script.push(Several::of(Vec::from_slice(alloc, reading)?))?;
    }
    let fails = Vec::from_array(alloc, [fails])?;
    let link = MemLink::new(alloc, script, 10_000, fails, 100, 10_000)?;
    Ok(link.later_at(Vec::from_array(alloc, [later])?))
}

fn poller_of(
    alloc: Global,
    places: u32,
    readings: &[&[u8]],
    rings: &[Rung],
    faults: Faults,
) -> Result<MemPoller, Fail>
    ensures faults { IfOk result (λ p. p.plan.faults ≡ 0) }
    ensures links { IfOk result (λ p. p.links ≡ 0) }
    ensures unused { IfOk result (λ p. Each SeatState IsFresh p.places) }
{
    let first = link_of(alloc, readings, faults.link, faults.later)?;
    let links = Vec::from_array(alloc, [first, link_of(alloc, readings, 0, 0)?])?;
    let script = Vec::from_slice(alloc, rings)?;
    let fails = Vec::from_array(alloc, [faults.poller])?;
    Ok(MemPoller::new(alloc, places, script, links, fails, 1, 10)?)
}

fn sources_of(alloc: Global, places: u32) -> Result<Vec<Sources<MemClock, MemDice>>, Fail> {
    let mut sources = Vec::new(alloc);
    for _place in 0..places {
        let dice = Vec::from_array(alloc, [0u8; 100])?;
        sources.push(Sources {
            clock: MemClock::new(alloc, Vec::new(alloc), 100)?,
            dice: MemDice::new(alloc, dice, Vec::new(alloc), 10)?,
        })?;
    }
    Ok(sources)
}

fn post_of(
    alloc: Global,
    places: u32,
    readings: &[&[u8]],
    rings: &[Rung],
    faults: Faults,
) -> Result<PollPost<MemPoller, MemClock, MemDice>, Fail>
    ensures { IfOk result IsUnused }
{
    let poller = poller_of(alloc, places, readings, rings, faults)?;
    let sources = sources_of(alloc, places)?;
    Ok(PollPost { poller, sources })
}

fn ports_of(alloc: Global, case: &Case) -> Result<MemPorts, Fail> {
    let (_, places, _, readings, rings, faults, _, _) = *case;
    let first = post_of(alloc, places, readings, rings, faults)?;
    let second = post_of(alloc, places, readings, rings, NONE)?;
    let posts = Vec::from_array(alloc, [first, second])?;
    let secret = Vec::from_array(alloc, [0u8; 32])?;
    let dice = MemDice::new(alloc, secret, Vec::new(alloc), 1)?;
    let fails = Vec::from_array(alloc, [faults.ports])?;
    Ok(MemPorts::new(alloc, posts, dice, fails, 2)?)
}

fn serving_of(alloc: Global, workers: u32, links: u32) -> Result<Serving, Fail>
    ensures { IfOk result (λ s. (s.workers ≡ workers) × (s.links ≡ links)) }
{
    Ok(Serving {
        domain: Jid::read(alloc, b"example.org")?,
        port: 5222,
        workers,
        links,
        connections: links as u64,
        quiet: false,
        sessions: 512,
    })
}

/// How a case ended, whether what it must print was printed and no more, and the ports afterwards.
#[derive(Drop)]
struct Ended {
    status: Status,
    is_printed: bool,
    ports: MemPorts,
}

fn run<R: Threads + Wait + Sync>(rt: &R, alloc: Global, case: &Case) -> Result<Ended, Fail> {
    let (workers, links, list, _, _, faults, _, printed) = *case;
    if workers == 0 || workers > 2 || links == 0 || links > 2 {
        return Err(Fail::new("one or two workers, with one or two places each"));
    }
    let reading = Vec::from_array(alloc, [faults.reading])?;
    let mut source = MemSource::new(Vec::from_slice(alloc, list)?, 4096, reading);
    let mut sink = MemSink::new(alloc, 100, 100, Vec::from_array(alloc, [faults.writing])?)?;
    let serving = serving_of(alloc, workers, links)?;
    let mut ports = ports_of(alloc, case)?;
    let status = serve(rt, alloc, &serving, &mut source, &mut sink, &mut ports);
    Ok(Ended {
        status,
        is_printed: sink.bytes() == printed,
        ports,
    })
}

#[test]
fn each_run_ends_as_it_must(rt: HostRuntime) -> Result<(), Fail> {
    for (i, case) in CASES.iter().enumerate() {
        let ended = run(&rt, rt.alloc(), case)?;
        assert_eq!(rt; ended.status, case.6, "case {i}");
        assert!(rt; ended.is_printed, "case {i}");
    }
    Ok(())
}

// Where a poller fails, the other worker has served its link to the end when the status comes: its tape has the close tag twice, heard and said.
#[test]
fn a_fault_is_told_when_all_have_ended(rt: HostRuntime) -> Result<(), Fail> {
    let Some(case) = CASES.iter().find(|case| case.5.poller == 1) else {
        return Err(Fail::new("a case whose poller fails"));
    };
    let ended = run(&rt, rt.alloc(), case)?;
    assert_eq!(rt; ended.status, Status::ListenFault);
    assert_eq!(rt; ended.ports.links(), 1);
    let Some(other) = ended.ports.pollers_back().last() else {
        return Err(Fail::new("the other poller"));
    };
    let Some(tape) = other.tapes(0).last() else {
        return Err(Fail::new("the tape of its link"));
    };
    let closed = tape
        .bytes()
        .windows(CLOSE_TAG.len())
        .filter(|part| *part == CLOSE_TAG)
        .count();
    assert_eq!(rt; closed, 2);
    Ok(())
}
