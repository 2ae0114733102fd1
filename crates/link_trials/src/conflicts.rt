//! A session that another connection of its user takes: its own connection is told of the conflict (RFC 6120, 4.9.3.3).

ghost use Rattle.std.specs.Prelude.{◌≡◌, IfOk};
ghost use Rattle.outside.specs.Posts.{IsUnused};

use crate::places::{HEADER, HELLO, PROOF, link_of, serve_posts, source_of, told_at};
use outside::{MemClock, MemDice, MemPoller, PollPost, Rung};
use std::alloc::Global;
use std::sync::Wait;
use std::test::Fail;
use std::thread::Threads;

/// At the first place; the last reading is Quiet.
const FIRST: [&[u8]; 7] = [
    HEADER,
    HELLO,
    PROOF,
    HEADER,
    b"<iq id='b1' type='set'><bind xmlns='urn:ietf:params:xml:ns:xmpp-bind'><resource>q</resource></bind></iq>",
    b"<enable xmlns='urn:xmpp:sm:3' resume='true'/>",
    b"",
];

/// What the connection at the second place asks for: the same address, the session itself, and another address.
const ASKED: [(&[u8], bool); 3] = [
    (
        b"<iq id='b1' type='set'><bind xmlns='urn:ietf:params:xml:ns:xmpp-bind'><resource>q</resource></bind></iq>",
        true,
    ),
    (
        b"<resume xmlns='urn:xmpp:sm:3' previd='1-00000000000000000000000000000000' h='0'/>",
        true,
    ),
    (
        b"<iq id='b1' type='set'><bind xmlns='urn:ietf:params:xml:ns:xmpp-bind'><resource>r</resource></bind></iq>",
        false,
    ),
];

const CONFLICT: &[u8] =
    b"<stream:error><conflict xmlns='urn:ietf:params:xml:ns:xmpp-streams'/></stream:error></stream:stream>";

/// Both come; the first has its session; the second asks; the first is ready again, and again at its end, and so is the second.
fn rings(alloc: Global, is_taken: bool) -> Result<Vec<Rung>, Fail> {
    let mut rings = Vec::from_array(alloc, [Rung::New(0), Rung::New(1)])?;
    for _reading in 0..6 {
        rings.push(Rung::Ready(0))?;
    }
    for _reading in 0..5 {
        rings.push(Rung::Ready(1))?;
    }
    rings.push(Rung::Ready(0))?;
    if !is_taken {
        rings.push(Rung::Ready(0))?;
    }
    rings.push(Rung::Ready(1))?;
    Ok(rings)
}

fn post_of(
    alloc: Global,
    asked: &[u8],
    is_taken: bool,
) -> Result<PollPost<MemPoller, MemClock, MemDice>, Fail>
    ensures { IfOk result IsUnused }
{
    let second = [HEADER, HELLO, PROOF, HEADER, asked];
    let links = Vec::from_array(
        alloc,
        [
            link_of(alloc, &FIRST, usize::MAX, 0)?,
            link_of(alloc, &second, usize::MAX, 0)?,
        ],
    )?;
    let rings = rings(alloc, is_taken)?;
    let poller = MemPoller::new(alloc, 2, rings, links, Vec::new(alloc), 2, 50)?;
    let sources = Vec::from_array(alloc, [source_of(alloc, 0)?, source_of(alloc, 0)?])?;
    Ok(PollPost { poller, sources })
}

/// Whether the first connection ends by the conflict, or none where nothing is to be read of it.
fn is_conflict<R: Threads + Wait + Sync>(
    rt: &R,
    alloc: Global,
    asked: &[u8],
    is_taken: bool,
) -> Result<Option<bool>, Fail> {
    let posts = Vec::from_array(alloc, [post_of(alloc, asked, is_taken)?])?;
    let Some(ports) = serve_posts(rt, alloc, posts, 2)? else {
        return Ok(None);
    };
    Ok(told_at(&ports, 0, 0).map(|(_, bytes)| bytes.ends_with(CONFLICT)))
}

#[test]
fn a_session_that_is_taken_ends_its_connection(rt: HostRuntime) -> Result<(), Fail> {
    for (i, (asked, is_taken)) in ASKED.iter().enumerate() {
        let conflict = is_conflict(&rt, rt.alloc(), asked, *is_taken)?;
        assert_eq!(rt; conflict, Some(*is_taken), "case {i}");
    }
    Ok(())
}
