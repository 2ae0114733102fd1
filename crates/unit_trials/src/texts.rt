//! What is said where no connection by itself comes to it, by values of the standards.

use conn_asks::{Ended, push_error, stream_id};
use sm_resume::Cause;
use std::alloc::Global;
use std::process::Abort;
use std::test::Fail;

fn expect(rt: &impl Abort, said: &Vec<u8>, text: &[u8]) {
    assert!(rt;
        said.as_slice() == text,
        "{:?} for {text:?}",
        said.as_slice()
    );
}

/// RFC 9562, 5.4: the version and the variant are set, and the other bits are those drawn.
const IDS: [([u8; 16], &[u8]); 3] = [
    ([0; 16], b"00000000-0000-4000-8000-000000000000"),
    ([255; 16], b"ffffffff-ffff-4fff-bfff-ffffffffffff"),
    (
        [0, 1, 2, 3, 4, 5, 6, 7, 8, 9, 10, 11, 12, 13, 14, 15],
        b"00010203-0405-4607-8809-0a0b0c0d0e0f",
    ),
];

#[test]
fn ids_of_streams(rt: HostRuntime) -> Result<(), Fail> {
    for (dice, text) in IDS {
        let id = stream_id(rt.alloc(), dice)?;
        expect(&rt, &id, text);
    }
    Ok(())
}

/// The condition that is said, or nothing, at an end to which no connection comes by itself: another connection, want of memory or
/// the last turn brings it.
const ENDS: [(Ended, &[u8]); 7] = [
    (Ended::Over(Cause::Moved(3)), b"conflict"),
    (Ended::Over(Cause::Replaced(2)), b"conflict"),
    (Ended::Over(Cause::Flood(8)), b"policy-violation"),
    (Ended::Over(Cause::Closed), b""),
    (Ended::Over(Cause::Lost), b""),
    (Ended::Spent, b""),
    (Ended::NoMemory, b""),
];

fn push_end(alloc: Global, ended: Ended, out: &mut Vec<u8>) -> Result<(), Fail> {
    if let Some(error) = ended.error() {
        push_error(alloc, error, out)?;
    }
    Ok(())
}

fn push_condition(name: &[u8], out: &mut Vec<u8>) -> Result<(), Fail> {
    if !name.is_empty() {
        out.extend_from_slice(b"<stream:error><")?;
        out.extend_from_slice(name)?;
        out.extend_from_slice(b" xmlns='urn:ietf:params:xml:ns:xmpp-streams'/></stream:error>")?;
    }
    Ok(())
}

#[test]
fn errors_of_streams(rt: HostRuntime) -> Result<(), Fail> {
    for (ended, name) in ENDS {
        let mut text = Vec::new(rt.alloc());
        push_condition(name, &mut text)?;
        let mut said = Vec::new(rt.alloc());
        push_end(rt.alloc(), ended, &mut said)?;
        expect(&rt, &said, text.as_slice());
    }
    Ok(())
}
