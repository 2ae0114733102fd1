//! What a link is to hear, and when.
ghost use Rattle.std.specs.Prelude.{◌<◌};

use crate::lines::{after_word, number_of, second_word};
use stanza_tree::{NoMemory, Several};
use std::alloc::Global;

/// The readings of a link, the moments of its clock, of which the first is that of opening, the present moment, and after how many
/// readings the client came as far as the story's link says.
#[derive(Drop)]
pub(crate) struct Script {
    pub(crate) readings: Vec<Several<u8>>,
    pub(crate) moments: Vec<u64>,
    pub(crate) moment: u64,
    pub(crate) front: usize,
}

impl Script {
    fn new(alloc: Global) -> Result<Script, NoMemory> {
        Ok(Script {
            readings: Vec::new(alloc),
            moments: Vec::from_array(alloc, [0u64])?,
            moment: 0,
            front: 0,
        })
    }

    /// The lines of how far a client came and those of its link, of which so many bytes are heard, in pieces.
    pub(crate) fn read(
        alloc: Global,
        front: &[u8],
        body: &[u8],
        piece: usize,
        heard: usize,
    ) -> Result<Script, NoMemory>
        requires { 0 < piece }
    {
        let mut script = Script::new(alloc)?;
        script.read_both(alloc, front, body, piece, heard)?;
        Ok(script)
    }

    fn read_both(
        &mut self,
        alloc: Global,
        front: &[u8],
        body: &[u8],
        piece: usize,
        heard: usize,
    ) -> Result<(), NoMemory>
        requires { 0 < piece }
    {
        let mut left = heard;
        self.read_lines(alloc, front, piece, &mut left)?;
        self.front = self.readings.len();
        self.read_lines(alloc, body, piece, &mut left)
    }

    fn read_lines(
        &mut self,
        alloc: Global,
        text: &[u8],
        piece: usize,
        left: &mut usize,
    ) -> Result<(), NoMemory>
        requires { 0 < piece }
    {
        for line in text.split(|byte| *byte == b'\n') {
            self.read_line(alloc, line, piece, left)?;
        }
        Ok(())
    }

    /// One line: a text, a text that comes again and again, a moment, or that nothing comes for a while.
    fn read_line(
        &mut self,
        alloc: Global,
        line: &[u8],
        piece: usize,
        left: &mut usize,
    ) -> Result<(), NoMemory>
        requires { 0 < piece }
    {
        if let Some(text) = after_word(line, b"hears ") {
            return self.hear(alloc, text, piece, left);
        }
        if let Some(text) = after_word(line, b"times ") {
            for _time in 0..number_of(text) {
                self.hear(alloc, second_word(text), piece, left)?;
            }
        }
        if let Some(moment) = after_word(line, b"at ") {
            self.moment = number_of(moment);
        }
        if line == b"quiet".as_slice() {
            self.add(Vec::new(alloc))?;
        }
        Ok(())
    }

    /// A text is heard in pieces, as far as there are bytes left to be heard.
    fn hear(
        &mut self,
        alloc: Global,
        text: &[u8],
        piece: usize,
        left: &mut usize,
    ) -> Result<(), NoMemory>
        requires { 0 < piece }
    {
        let (front, _) = text.split_at((*left).min(text.len()));
        for part in front.chunks(piece) {
            self.add(Vec::from_slice(alloc, part)?)?;
        }
        *left = (*left).saturating_sub(front.len());
        Ok(())
    }

    fn add(&mut self, reading: Vec<u8>) -> Result<(), NoMemory> {
        self.readings.push(Several::of(reading))?;
        self.moments.push(self.moment)?;
        Ok(())
    }
}
