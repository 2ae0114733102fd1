//! Reading a line of a script.
ghost use Rattle.std.specs.Prelude.{◌≡◌, IfOk, IfSome};
ghost use Rattle.replay_script.specs.Lines.{StepFits, step_of, feed_of, fresh_of};
ghost use Rattle.replay_script.specs.Readings.{Gives};

use crate::event::read_event;
use crate::fault::LineFault;
use crate::fields::first_field;
use crate::numbers::{read_bytes, read_line_number};
use crate::opening::read_house;
use crate::stanza::read_stanza;
use crate::step::Step;
use std::alloc::Global;

/// The step of a line, which has no line feed: `house DOMAIN USER,USER WORKERS`, `open W`, `login W USER`,
/// `bind W T DICE ID RESOURCE`, `enable W yes DICE`, `enable W no DICE`, `resume W T H TOKEN`, `note W T ADDRESS WORDS`,
/// `stanza W T XML`, `ack W H`, `ask W`, `pull W T`, `drop W T`, `close W T`, `sweep W T`, `feed W HEX` or `fresh W`. Costs the line,
/// of a `house` line the square of its users, and of a `stanza` line the square of the attributes of each tag.
pub fn read_line(alloc: Global, line: &[u8]) -> Result<Step, LineFault>
    ensures read { Gives (step_of line.now) result }
    ensures fits { IfOk result StepFits }
{
    let (word, rest) = first_field(line).ok_or(LineFault::Bad)?;
    if word == b"house".as_slice() {
        return read_house(alloc, rest);
    }
    if word == b"feed".as_slice() {
        return read_feed(alloc, rest);
    }
    if word == b"fresh".as_slice() {
        return read_fresh(rest).ok_or(LineFault::Bad);
    }
    if word == b"stanza".as_slice() {
        return read_stanza(alloc, rest);
    }
    Ok(Step::Event(read_event(alloc, word, rest)?))
}

fn read_feed(alloc: Global, rest: &[u8]) -> Result<Step, LineFault>
    ensures read { Gives (feed_of rest.now) result }
    ensures fits { IfOk result StepFits }
{
    let (w, hex) = first_field(rest).ok_or(LineFault::Bad)?;
    let w = read_line_number(w).ok_or(LineFault::Bad)?;
    let bytes = read_bytes(alloc, hex)?;
    Ok(Step::Feed { w, bytes })
}

fn read_fresh(rest: &[u8]) -> Option<Step>
    ensures read { result ≡ fresh_of rest.now }
    ensures fits { IfSome result StepFits }
{
    let w = read_line_number(rest)?;
    Some(Step::Fresh { w })
}
