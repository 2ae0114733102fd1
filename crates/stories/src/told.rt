//! Stories. A story is a line `== TITLE` and the lines up to the next such line: lines of words for people that begin with `# `, and
//! then a script, in which a line `times N LINE` stands for so many of the line.
ghost use Rattle.std.specs.Prelude.{◌<◌};

use outside::{MemSink, MemSource};
use script_play::Status;
use script_play::replay::replay;
use std::alloc::Global;
use std::io::{self, Write};

const TITLE: &[u8] = b"== ";

const COMMENT: &[u8] = b"# ";

const TIMES: &[u8] = b"times ";

/// How many bytes a reading or a writing moves at most in a story's first play.
const PIECE: usize = 4096;

/// How many it moves in the other plays.
const SMALL_PIECES: [usize; 2] = [7, 1];

/// How many bytes a play may print: for one that prints more, writing fails.
const ROOM: usize = 1_048_576;

/// What a play of a script printed, and how it ended.
#[derive(Drop)]
struct Played {
    sink: MemSink,
    status: Status,
}

/// How often a line stands there, and which, where it is one that says so.
fn repeated(line: &[u8]) -> Option<(usize, &[u8])> {
    let said = line.strip_prefix(TIMES)?;
    let mut words = said.splitn(2, |byte| *byte == b' ');
    let digits = str::from_utf8(words.next()?).ok()?;
    Some((digits.parse().ok()?, words.next()?))
}

/// Adds a line of a story to its script.
fn add(script: &mut Vec<u8>, line: &[u8]) -> io::Result<()> {
    let (times, line) = repeated(line).unwrap_or((1, line));
    for _time in 0..times {
        script.extend_from_slice(line)?;
    }
    Ok(())
}

/// Plays each story and writes what comes of it. The lines before the first story are passed over.
pub fn tell_all<W: Write>(alloc: Global, text: &[u8], out: &mut W) -> io::Result<()> {
    let mut told: Option<Vec<u8>> = None;
    for line in text.split_inclusive(|byte| *byte == b'\n') {
        if line.starts_with(TITLE) {
            if let Some(script) = told {
                tell(alloc, script.as_slice(), out)?;
            }
            out.write_all(line)?;
            told = Some(Vec::new(alloc));
        } else if let Some(script) = &mut told {
            if !script.is_empty() || !line.starts_with(COMMENT) {
                add(script, line)?;
            }
        }
    }
    match told {
        Some(script) => tell(alloc, script.as_slice(), out),
        None => Ok(()),
    }
}

/// Plays a script in pieces of each size, and writes what it printed, at which sizes that was not the same, and how it ended.
fn tell<W: Write>(alloc: Global, script: &[u8], out: &mut W) -> io::Result<()> {
    let first = play(alloc, script, PIECE)?;
    out.write_all(first.sink.bytes())?;
    for piece in SMALL_PIECES {
        let again = play(alloc, script, piece)?;
        if again.status != first.status || again.sink.bytes() != first.sink.bytes() {
            writeln!(out, "differs at {piece}")?;
        }
    }
    write_end(first.status, out)
}

/// Plays a script of which a reading gives, and of whose prints a writing takes, so many bytes at most. A play that finds no memory is an error.
fn play(alloc: Global, script: &[u8], piece: usize) -> io::Result<Played>
    requires { 0 < piece }
{
    let bytes = Vec::from_slice(alloc, script)?;
    let mut source = MemSource::new(bytes, piece, Vec::new(alloc));
    let mut sink = MemSink::new(alloc, ROOM, piece, Vec::new(alloc))?;
    match replay(alloc, &mut source, &mut sink) {
        Status::NoMemory => Err(io::Error::from(io::ErrorKind::OutOfMemory)),
        status => Ok(Played { sink, status }),
    }
}

/// Writes how a play ended, in the words of the server. It is an error to have ended as no play does.
fn write_end<W: Write>(status: Status, out: &mut W) -> io::Result<()> {
    match status {
        Status::Done => writeln!(out, "-- done"),
        Status::Script(line) => writeln!(out, "-- script line {line}"),
        Status::WriteFault => writeln!(out, "-- write fault"),
        _ => Err(io::Error::from(io::ErrorKind::Other)),
    }
}
