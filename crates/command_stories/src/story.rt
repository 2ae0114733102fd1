//! What a story says of a run: a line each.
ghost use Rattle.std.specs.Prelude.{◌<◌};

use stanza_tree::{Text, TextFault};
use std::alloc::Global;
use std::io::{self, ErrorKind};

/// How many bytes a reading gives and a writing takes at most, where a story doesn't say.
const PIECE: usize = 4096;

/// How many bytes the sink takes in all, where a story doesn't say.
const ROOM: usize = 65_536;

/// The words and the input of a run, and what fails of it. The calls of the source and the sink are numbered from 1, and 0 is none.
#[derive(Drop)]
pub struct Story {
    pub words: Vec<Text>,
    pub input: Vec<u8>,
    /// How many bytes a reading gives and a writing takes at most.
    pub piece: usize,
    /// How many bytes the sink takes in all.
    pub room: usize,
    pub reading: u64,
    pub writing: u64,
    /// The call that fails of ports that two have come to, or none where the ports never fail and each door's link has ended.
    pub ports: Option<u64>,
}

impl Story {
    /// No words, no input, and nothing that fails.
    pub fn new(alloc: Global) -> Story {
        Story {
            words: Vec::new(alloc),
            input: Vec::new(alloc),
            piece: PIECE,
            room: ROOM,
            reading: 0,
            writing: 0,
            ports: None,
        }
    }

    /// Takes in what a line says. One that says nothing known is an error.
    pub fn add(&mut self, alloc: Global, line: &str) -> io::Result<()> {
        let (name, value) = line.split_once(' ').unwrap_or((line, ""));
        match name {
            "#" => Ok(()),
            "word" => add_word(alloc, &mut self.words, value),
            "line" => add_line(&mut self.input, value),
            "text" => add_text(&mut self.input, value),
            "times" => add_times(&mut self.input, value),
            "hex" => add_hex(alloc, &mut self.input, value),
            _ => self.plan(name, count_of(value)?),
        }
    }

    /// Takes in a count.
    fn plan(&mut self, name: &str, count: u64) -> io::Result<()> {
        match name {
            "piece" => self.piece = size_of(count)?,
            "room" => self.room = size_of(count)?,
            "reading" => self.reading = count,
            "writing" => self.writing = count,
            "ports" => self.ports = Some(count),
            _ => return Err(unknown()),
        }
        Ok(())
    }
}

fn unknown() -> io::Error {
    io::Error::from(ErrorKind::InvalidInput)
}

fn count_of(value: &str) -> io::Result<u64> {
    value.parse().map_err(|_| unknown())
}

fn size_of(count: u64) -> io::Result<usize> {
    usize::try_from(count).map_err(|_| unknown())
}

fn add_word(alloc: Global, words: &mut Vec<Text>, word: &str) -> io::Result<()> {
    match Text::of(alloc, word.as_bytes()) {
        Ok(text) => Ok(words.push(text)?),
        Err(TextFault::NoMemory) => Err(io::Error::from(ErrorKind::OutOfMemory)),
        Err(TextFault::NotUtf8(_)) => Err(unknown()),
    }
}

/// A line of the input with its line feed.
fn add_line(input: &mut Vec<u8>, line: &str) -> io::Result<()> {
    add_text(input, line)?;
    Ok(input.push(b'\n')?)
}

fn add_text(input: &mut Vec<u8>, text: &str) -> io::Result<()> {
    Ok(input.extend_from_slice(text.as_bytes())?)
}

/// A count and a text, which comes so many times.
fn add_times(input: &mut Vec<u8>, value: &str) -> io::Result<()> {
    let Some((count, text)) = value.split_once(' ') else {
        return Err(unknown());
    };
    for _time in 0..count_of(count)? {
        add_text(input, text)?;
    }
    Ok(())
}

/// Bytes as hexadecimal digits.
fn add_hex(alloc: Global, input: &mut Vec<u8>, digits: &str) -> io::Result<()> {
    match hex::decode(alloc, digits) {
        Ok(bytes) => Ok(input.extend_from_slice(bytes.as_slice())?),
        Err(_) => Err(unknown()),
    }
}
