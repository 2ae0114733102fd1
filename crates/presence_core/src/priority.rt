//! The priority of a presence (RFC 6121, 4.7.2.3).
ghost use Rattle.std.specs.Prelude.{◌≡◌, false, IfOk};
ghost use Rattle.presence_core.specs.Priorities.{has_plus, priority_in, priority_of};

use stanza_tree::{Element, NoMemory, Text};
use std::alloc::Global;
use std::str;

/// The namespace of stanzas (RFC 6120, 4.8.2).
const CLIENT_SPACE: &[u8] = b"jabber:client";

/// The priority of a presence: the words of its child `priority`, or 0 without the child. None where the words are no integer from
/// -128 to 127; zeros may stand in front, and a `+` or a blank may not.
pub(crate) fn priority_in(alloc: Global, presence: &Element) -> Result<Option<i16>, NoMemory>
    ensures { IfOk result (λ p. p ≡ priority_in presence.now) }
{
    match presence.child(CLIENT_SPACE, b"priority") {
        Some(child) => Ok(priority_of(&child.words(alloc)?)),
        None => Ok(Some(0)),
    }
}

/// The priority that words write.
fn priority_of(words: &Text) -> Option<i16>
    ensures { result ≡ priority_of words.now }
{
    if has_plus(words.bytes()) {
        return None;
    }
    match str::from_utf8(words.bytes()) {
        Ok(digits) => parsed(digits).map(i16::from),
        Err(_) => None,
    }
}

/// The number of 8 bits that they write.
#[tactic(auto, using(crate::proofs::PriorityLemmas::priority_parsed))]
fn parsed(words: &str) -> Option<i8>
    requires { has_plus words.now ≡ false }
    ensures { result ≡ priority_of words.now }
{
    words.parse().ok()
}

fn has_plus(words: &[u8]) -> bool
    ensures { result ≡ has_plus words.now }
{
    match words {
        [first, ..] => *first == b'+',
        [] => false,
    }
}
