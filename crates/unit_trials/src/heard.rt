//! The elements of a client's stream, for the tests.

ghost use Rattle.std.specs.Prelude.{◌≡◌, true, IfOk};
ghost use Rattle.stream_grammar.specs.machine.Reading.{is_ready};

use stanza_tree::{Element, NoMemory};
use std::alloc::Global;
use std::test::Fail;
use stream_frames::{Framer, LIMITS};
use stream_grammar::Item;

/// A header for the domain `example.org`.
const HEADER: &[u8] =
    b"<stream:stream xmlns='jabber:client' xmlns:stream='http://etherx.jabber.org/streams' to='example.org' version='1.0'>";

/// The item that ends with the bytes.
pub(crate) fn feed(framer: &mut Framer, bytes: &[u8]) -> Result<Option<Item>, Fail>
    requires { is_ready framer.old.reading ≡ true }
    ensures { IfOk result (λ i. is_ready framer.new.reading ≡ true) }
{
    match framer.feed(bytes) {
        Ok(_) => Ok(framer.next()),
        Err(_) => Err(Fail::from(NoMemory)),
    }
}

fn feed_both(framer: &mut Framer, front: &[u8], bytes: &[u8]) -> Result<Option<Item>, Fail>
    requires { is_ready framer.old.reading ≡ true }
{
    feed(framer, front)?;
    feed(framer, bytes)
}

/// The item that ends with the bytes, after those in front.
fn item(alloc: Global, front: &[u8], bytes: &[u8]) -> Result<Option<Item>, Fail> {
    let mut framer = Framer::new(alloc, LIMITS)?;
    feed_both(&mut framer, front, bytes)
}

/// The top element that bytes are, if they are one.
pub(crate) fn top(alloc: Global, bytes: &[u8]) -> Result<Option<Element>, Fail> {
    match item(alloc, HEADER, bytes)? {
        Some(Item::Top(element)) => Ok(Some(element)),
        _ => Ok(None),
    }
}
