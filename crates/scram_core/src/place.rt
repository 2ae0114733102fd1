//! Where a client's text departs from the grammar.

ghost use Rattle.std.specs.Prelude.{MatchOption};
ghost use Rattle.scram_core.specs.Expressions.{IsText};
ghost use Rattle.scram_core.specs.Grammar.{client_message};
ghost use Rattle.scram_core.specs.Places.{IsPlace};

use crate::stage::Message;
use crate::step;

/// The length of the longest front that begins a text of the grammar; None exactly where the bytes are one.
pub fn place_of(message: Message, bytes: &[u8]) -> Option<usize>
    ensures { MatchOption result (IsText (client_message message) bytes.now)
        (λ place. IsPlace (client_message message) bytes.now place) }
{
    let mut at = step::start_of(message);
    for (i, byte) in bytes.iter().enumerate() {
        match step::next_stage(at, *byte) {
            Some(to) => at = to,
            None => return Some(i),
        }
    }
    if step::may_end(at) {
        None
    } else {
        Some(bytes.len())
    }
}
