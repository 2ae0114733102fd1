//! What a story shows of the links that were served.

use conn_asks::Ended;
use outside::{Kind, Tape};
use stanza_tree::NoMemory;
use std::alloc::Global;

/// The lines that are shown, the bytes that the first link said, where in the lines its end stands, how many connections came to the
/// house, and how many turns it had.
#[derive(Drop)]
pub(crate) struct Shown {
    pub(crate) lines: Vec<u8>,
    pub(crate) said: Vec<u8>,
    first_end: usize,
    pub(crate) links: u64,
    pub(crate) turns: u64,
}

impl Shown {
    pub(crate) fn new(alloc: Global) -> Shown {
        Shown {
            lines: Vec::new(alloc),
            said: Vec::new(alloc),
            first_end: 0,
            links: 0,
            turns: 0,
        }
    }

    /// The end of the first link, and what is shown of the others.
    pub(crate) fn after_first(&self) -> &[u8] {
        let (_, after) = self
            .lines
            .as_slice()
            .split_at(self.first_end.min(self.lines.len()));
        after
    }

    /// The lines without their ends.
    pub(crate) fn joined(&self, alloc: Global) -> Result<Vec<u8>, NoMemory> {
        let mut joined = Vec::new(alloc);
        for line in self.lines.split(|byte| *byte == b'\n') {
            joined.extend_from_slice(line)?;
        }
        Ok(joined)
    }

    /// What a link said after so many readings, a line for each sending, and how it ended. Of the first link all that it said is kept.
    pub(crate) fn add_link(
        &mut self,
        alloc: Global,
        tape: &Tape,
        ended: Ended,
        front: usize,
    ) -> Result<(), NoMemory> {
        let is_first = self.lines.is_empty();
        self.add_tape(tape, is_first, front)?;
        if is_first {
            self.first_end = self.lines.len();
        }
        let text = format!(in alloc; "-- {:?}\n", ended)?;
        self.lines.extend_from_slice(text.as_bytes())?;
        Ok(())
    }

    fn add_tape(&mut self, tape: &Tape, is_first: bool, front: usize) -> Result<(), NoMemory> {
        let mut readings = 0usize;
        let mut rest = tape.bytes();
        for kind in tape.kinds() {
            let count = size_of(*kind);
            let (bytes, more) = rest.split_at(count.min(rest.len()));
            match kind {
                Kind::Said(_) => self.add_said(bytes, is_first, readings > front || front == 0)?,
                _ => readings = readings.saturating_add(1),
            }
            rest = more;
        }
        Ok(())
    }

    fn add_said(&mut self, bytes: &[u8], is_first: bool, is_shown: bool) -> Result<(), NoMemory> {
        if is_first {
            self.said.extend_from_slice(bytes)?;
        }
        if is_shown {
            self.lines.extend_from_slice(bytes)?;
            self.lines.push(b'\n')?;
        }
        Ok(())
    }
}

fn size_of(kind: Kind) -> usize {
    match kind {
        Kind::Heard(count) | Kind::Said(count) => count,
        Kind::Quiet | Kind::End | Kind::Failed => 0,
    }
}
