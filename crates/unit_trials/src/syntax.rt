//! The syntax of a stream under other limits than those of the server.

ghost use Rattle.std.specs.Prelude.{◌≡◌, true};
ghost use Rattle.stream_grammar.specs.machine.Reading.{is_ready};

use crate::heard::feed;
use std::test::Fail;
use stream_frames::{FrameFault, Framer, Item, Limits};
use stream_grammar::FrameFault::{NotWellFormed, TooDeep, TooManyAttrs};

/// The fault of the bytes, and how many come up to it.
fn fault_of(framer: &mut Framer, text: &[u8]) -> Result<Option<(u64, FrameFault)>, Fail>
    requires { is_ready framer.old.reading ≡ true }
{
    for byte in text {
        if let Some(Item::Broken(fault, offset)) = feed(framer, &[*byte])? {
            return Ok(Some((offset, fault)));
        }
    }
    Ok(None)
}

/// Limits of so many levels and attributes.
fn limits(depth: u32, attrs: u32) -> Limits {
    Limits {
        bytes: 1000,
        depth,
        attrs,
        canonical: 1000,
    }
}

#[test]
fn a_stream_has_the_limits_of_its_framer(rt: HostRuntime) -> Result<(), Fail> {
    let cases: [(u32, u32, &[u8], Option<(u64, FrameFault)>); 9] = [
        (2, 1, b"<s><a><b><c", Some((11, TooDeep))),
        (2, 1, b"<s><a><b><1", Some((11, NotWellFormed))),
        (2, 1, b"<s><a><b/><c/><d><e", Some((19, TooDeep))),
        (2, 1, b"<s><a b='' c", Some((12, TooManyAttrs))),
        (2, 1, b"<s><a b=''c", Some((11, NotWellFormed))),
        (2, 1, b"<s><a b='' 1", Some((12, NotWellFormed))),
        (2, 1, b"<s b=''><a><b c=''/></a></s> ", None),
        (0, 0, b"<s><a", Some((5, TooDeep))),
        (0, 0, b"<s a", Some((4, TooManyAttrs))),
    ];
    for (depth, attrs, text, fault) in cases {
        let mut framer = Framer::new(rt.alloc(), limits(depth, attrs))?;
        let found = fault_of(&mut framer, text)?;
        assert!(&rt; found == fault, "{text:?}: {found:?}");
    }
    Ok(())
}
