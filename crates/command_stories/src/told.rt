//! Stories. A story is a line `== TITLE` and the lines up to the next such line.
ghost use Rattle.std.specs.Prelude.{◌≡◌, ◌<◌, IfOk};
ghost use Rattle.outside.specs.Polls.{IsFresh, SeatState};
ghost use Rattle.outside.specs.Posts.{Each, IsUnused};

use crate::story::Story;
use commands::run::run;
use commands::status_line::StatusLine;
use outside::{
    CleanDice, CleanPorts, MemClock, MemDice, MemLink, MemPoller, MemPorts, MemSink, MemSource,
    PollPost, Rung, Sources,
};
use script_play::Status;
use std::alloc::{AllocError, Global};
use std::io::{self, ErrorKind, Write};
use std::sync::Wait;
use std::thread::Threads;

const TITLE: &str = "== ";

/// Runs each story and writes what comes of it. The lines before the first story are passed over.
pub fn tell_all<R: Threads + Wait + Sync, W: Write>(
    rt: &R,
    alloc: Global,
    text: &str,
    out: &mut W,
) -> io::Result<()> {
    let mut story: Option<Story> = None;
    for line in text.lines() {
        if line.starts_with(TITLE) {
            if let Some(told) = &story {
                tell(rt, alloc, told, out)?;
            }
            writeln!(out, "{line}")?;
            story = Some(Story::new(alloc));
        } else if let Some(told) = &mut story {
            told.add(alloc, line)?;
        }
    }
    match &story {
        Some(told) => tell(rt, alloc, told, out),
        None => Ok(()),
    }
}

/// Runs a story's command and writes what it wrote, and how it ended.
fn tell<R: Threads + Wait + Sync, W: Write>(
    rt: &R,
    alloc: Global,
    story: &Story,
    out: &mut W,
) -> io::Result<()> {
    if story.piece == 0 {
        return Err(io::Error::from(ErrorKind::InvalidInput));
    }
    let mut sink = MemSink::new(
        alloc,
        story.room,
        story.piece,
        Vec::from_array(alloc, [story.writing])?,
    )?;
    let status = run_story(rt, alloc, story, &mut sink)?;
    write_end(sink.bytes(), status, out)
}

/// Runs a story's command over its input.
fn run_story<R: Threads + Wait + Sync>(
    rt: &R,
    alloc: Global,
    story: &Story,
    sink: &mut MemSink,
) -> io::Result<Status>
    requires { 0 < story.now.piece }
{
    let input = Vec::from_slice(alloc, story.input.as_slice())?;
    let reading = Vec::from_array(alloc, [story.reading])?;
    let mut source = MemSource::new(input, story.piece, reading);
    match story.ports {
        None => Ok(run_clean(rt, alloc, story, &mut source, sink)),
        Some(call) => Ok(run(
            rt,
            alloc,
            story.words.as_slice(),
            &mut source,
            sink,
            &mut ports_of(alloc, call)?,
        )),
    }
}

/// Runs a story's command at ports that never fail, and whose links have ended.
fn run_clean<R: Threads + Wait + Sync>(
    rt: &R,
    alloc: Global,
    story: &Story,
    source: &mut MemSource,
    sink: &mut MemSink,
) -> Status {
    let mut ports = CleanPorts::new(Vec::new(alloc), CleanDice::new(Vec::new(alloc)));
    run(rt, alloc, story.words.as_slice(), source, sink, &mut ports)
}

/// A poller with one place and one link, which has ended.
fn poller_of(alloc: Global) -> Result<MemPoller, AllocError>
    ensures faults { IfOk result (λ p. p.plan.faults ≡ 0) }
    ensures links { IfOk result (λ p. p.links ≡ 0) }
    ensures unused { IfOk result (λ p. Each SeatState IsFresh p.places) }
{
    let link = MemLink::new(alloc, Vec::new(alloc), 100, Vec::new(alloc), 100, 1000)?;
    let links = Vec::from_array(alloc, [link])?;
    let script = Vec::from_array(alloc, [Rung::New(0), Rung::Ready(0)])?;
    MemPoller::new(alloc, 1, script, links, Vec::new(alloc), 1, 10)
}

/// A post with that poller.
fn post_of(alloc: Global) -> Result<PollPost<MemPoller, MemClock, MemDice>, AllocError>
    ensures { IfOk result IsUnused }
{
    let dice = Vec::from_array(alloc, [0u8; 100])?;
    let source = Sources {
        clock: MemClock::new(alloc, Vec::new(alloc), 100)?,
        dice: MemDice::new(alloc, dice, Vec::new(alloc), 10)?,
    };
    Ok(PollPost {
        poller: poller_of(alloc)?,
        sources: Vec::from_array(alloc, [source])?,
    })
}

/// Ports with two posts, whose call of this number fails.
fn ports_of(alloc: Global, call: u64) -> Result<MemPorts, AllocError> {
    let posts = Vec::from_array(alloc, [post_of(alloc)?, post_of(alloc)?])?;
    let dice = MemDice::new(
        alloc,
        Vec::from_array(alloc, [0u8; 32])?,
        Vec::new(alloc),
        1,
    )?;
    MemPorts::new(alloc, posts, dice, Vec::from_array(alloc, [call])?, 2)
}

/// Writes what a run wrote, a mark where that ends within a line, and the run's number with what people are told. A run that found no memory is an error.
fn write_end<W: Write>(written: &[u8], status: Status, out: &mut W) -> io::Result<()> {
    out.write_all(written)?;
    if written.last().is_some_and(|byte| *byte != b'\n') {
        out.write_all(b"\n-- within a line\n")?;
    }
    let (number, line) = (status.number(), StatusLine(status));
    match status {
        Status::NoMemory => Err(io::Error::from(ErrorKind::OutOfMemory)),
        Status::Done => writeln!(out, "-- {number}"),
        _ => write!(out, "-- {number} {line}"),
    }
}
