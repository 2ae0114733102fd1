//! Lines of a source, which is read in pieces.
ghost use Rattle.std.specs.Prelude.{◌≡◌, ◌<◌, ◌≤◌, ◌+◌, ◌∷◌, [], length, take, nat_lt, IfOk, OnOk};
ghost use Rattle.outside.specs.Devices.{Rose};
ghost use Rattle.replay_script.specs.Scripts.{text_of};
ghost use Rattle.script_play.specs.Readings.{unread, Fills, GivesNext, MovesRun, Takes};

use memchr::memchr;
use outside::{Got, Source};
use stanza_tree::NoMemory;
use std::marker::Model;

/// How many bytes a line may have, without its line feed: two digits for each byte of an item of a stream, and more.
const MOST_LINE: usize = 200_000;
/// How many bytes a script may have, 1 GiB: so it has far fewer lines than the house counts turns.
const MOST_SCRIPT: u64 = 1_073_741_824;

/// How many bytes one reading asks for: a page.
const PIECE: usize = 4096;

/// What came of reading a line.
#[derive(Clone, Copy, Debug, PartialEq, Eq)]
pub enum Taken {
    Line,
    /// There is none.
    End,
    /// It passes a limit: that of a line, or that of the script.
    TooLong,
    Failed,
}

#[derive(Clone, Copy)]
enum Next {
    Byte(u8),
    End,
    Failed,
}

#[derive(Clone, Copy)]
enum Filled {
    Ready,
    End,
    Failed,
}

/// How many bytes come before the first line feed; no more than `most` are looked at.
fn run_length(bytes: &[u8], most: usize) -> usize
    ensures fits { result ≤ length bytes.now }
    ensures few { result ≤ most }
    ensures plain { text_of (take result bytes.now) ≡ take result bytes.now }
{
    let near = &bytes[..bytes.len().min(most)];
    memchr(b'\n', near).unwrap_or(near.len())
}

/// A piece of a source, how much of it was given on, and how many bytes were given on in all.
#[derive(Drop)]
pub struct Reader {
    piece: [u8; PIECE],
    from: usize,
    to: usize,
    given: u64,
}

impl Model for Reader {
    ghost use Rattle.std.specs.Prelude.{◌-◌, ◌≤◌, take, drop};
    ghost use Rattle.script_play.specs.Readings.{Reading};

    ghost Value = { Reading };

    ghost view = { λ r. record { held = take (r.to - r.from) (drop r.from r.piece); given = r.given } };

    ghost invariant = { λ r. (r.from ≤ r.to) × (r.to ≤ 4096) × (r.given ≤ 1073741824) };
}

impl Reader {
    /// A reader that has taken nothing yet.
    pub fn new() -> Reader
        ensures held { result.held ≡ [] }
        ensures given { result.given ≡ 0 }
    {
        Reader {
            piece: [0; PIECE],
            from: 0,
            to: 0,
            given: 0,
        }
    }

    /// Reads a piece where nothing is held.
    fn fill<S: Source>(&mut self, source: &mut S) -> Filled
        ensures falls { S.faults source.old ≤ S.faults source.new }
        ensures failed { result ≡ Filled.Failed → Rose (S.faults source.old) (S.faults source.new) }
        ensures given { self.new.given ≡ self.old.given }
        ensures most { self.new.given ≤ 1073741824 }
        ensures fills { Fills (unread self.old.held (S.left source.old)) (unread self.new.held (S.left source.new)) self.new.held result }
    {
        if self.from < self.to {
            return Filled::Ready;
        }
        match source.read(&mut self.piece) {
            Got::Bytes(count) => {
                self.from = 0;
                self.to = count;
                Filled::Ready
            }
            Got::End => Filled::End,
            Got::Failed => Filled::Failed,
        }
    }

    /// Gives on the first byte that is held.
    fn give(&mut self) -> u8
        requires { 0 < length self.old.held }
        ensures held { self.old.held ≡ result ∷ self.new.held }
        ensures given { self.new.given ≡ self.old.given }
        ensures most { self.new.given ≤ 1073741824 }
    {
        let byte = self.piece[self.from];
        self.from += 1;
        byte
    }

    /// Whether another byte is within the limit of a script.
    fn has_room(&self) -> bool
        ensures { result ≡ nat_lt self.now.given 1073741824 }
    {
        self.given < MOST_SCRIPT
    }

    /// Counts a byte that was given on.
    fn count(&mut self)
        requires { self.old.given < 1073741824 }
        ensures held { self.new.held ≡ self.old.held }
        ensures given { self.new.given ≡ self.old.given + 1 }
    {
        self.given += 1;
    }

    /// Moves the bytes before the next line feed to the line, as many as are held and are within the limits.
    fn take_run(&mut self, line: &mut Vec<u8>) -> Result<(), NoMemory>
        requires { length line.old.items ≤ 200000 }
        ensures moves { OnOk result (MovesRun self.old self.new line.old.items line.new.items) }
        ensures short { OnOk result (length line.new.items ≤ 200000) }
    {
        let most = (MOST_LINE - line.len()).min((MOST_SCRIPT - self.given) as usize);
        let held = &self.piece[self.from..self.to];
        let count = run_length(held, most);
        line.extend_from_slice(&held[..count])?;
        self.from += count;
        self.given += count as u64;
        Ok(())
    }

    fn next<S: Source>(&mut self, source: &mut S) -> Next
        ensures falls { S.faults source.old ≤ S.faults source.new }
        ensures failed { result ≡ Next.Failed → Rose (S.faults source.old) (S.faults source.new) }
        ensures given { self.new.given ≡ self.old.given }
        ensures most { self.new.given ≤ 1073741824 }
        ensures gives { GivesNext (unread self.old.held (S.left source.old)) (unread self.new.held (S.left source.new)) result }
    {
        match self.fill(source) {
            Filled::Ready => Next::Byte(self.give()),
            Filled::End => Next::End,
            Filled::Failed => Next::Failed,
        }
    }

    /// Reads the next line, without its line feed. The last line may have none. Costs the line.
    pub fn take_line<S: Source>(
        &mut self,
        source: &mut S,
        line: &mut Vec<u8>,
    ) -> Result<Taken, NoMemory>
        ensures falls { S.faults source.old ≤ S.faults source.new }
        ensures failed { IfOk result (λ taken. taken ≡ Taken.Failed → Rose (S.faults source.old) (S.faults source.new)) }
        ensures takes { IfOk result (λ taken. Takes (unread self.old.held (S.left source.old))
            (unread self.new.held (S.left source.new)) self.old.given self.new.given line.new.items taken) }
    {
        line.clear();
        while line.len() <= MOST_LINE {
            self.take_run(line)?;
            let byte = match self.next(source) {
                Next::Byte(byte) => byte,
                Next::End => {
                    if line.is_empty() {
                        return Ok(Taken::End);
                    }
                    return Ok(Taken::Line);
                }
                Next::Failed => return Ok(Taken::Failed),
            };
            if !self.has_room() {
                return Ok(Taken::TooLong);
            }
            self.count();
            if byte == b'\n' {
                return Ok(Taken::Line);
            }
            line.push(byte)?;
        }
        Ok(Taken::TooLong)
    }
}
