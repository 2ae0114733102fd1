//! Addresses as they are read, and why bytes are none (RFC 7622, 3): calls of `jid_core`, whose faults no line of a script tells with their places.

use jid_core::{Jid, JidFault, Which};
use std::alloc::Global;
use std::process::Abort;
use std::test::Fail;

// Bytes, and the address that they spell, or the first part at fault and the place in it.
const ADDRESSES: [(&[u8], Result<&[u8], JidFault>); 14] = [
    (b"Alice@Example.ORG/Desk", Ok(b"alice@example.org/Desk")),
    (b"u@b\xC3\xBCcher.example", Ok(b"u@xn--bcher-kva.example")),
    (b"example.org", Ok(b"example.org")),
    (b"example.org/a@b/c", Ok(b"example.org/a@b/c")),
    (b"@example.org", Err(JidFault::Empty(Which::Local))),
    (b"alice@", Err(JidFault::Empty(Which::Domain))),
    (b"", Err(JidFault::Empty(Which::Domain))),
    (b"alice@example.org/", Err(JidFault::Empty(Which::Resource))),
    (b"a b@example.org", Err(JidFault::Bad(Which::Local, 1))),
    (b"ab\"@example.org", Err(JidFault::Bad(Which::Local, 2))),
    (b"alice@-x.org", Err(JidFault::Bad(Which::Domain, 0))),
    (b"alice@a@b", Err(JidFault::Bad(Which::Domain, 0))),
    (
        b"alice@example.org/d\x7Fsk",
        Err(JidFault::Bad(Which::Resource, 1)),
    ),
    (b"@/", Err(JidFault::Empty(Which::Local))),
];

fn expect_read<R: Abort>(
    rt: &R,
    alloc: Global,
    bytes: &[u8],
    want: Result<&[u8], JidFault>,
) -> Result<(), Fail> {
    match (Jid::read(alloc, bytes), want) {
        (Ok(address), Ok(want)) => {
            let mut text = Vec::new(alloc);
            address.write(&mut text)?;
            assert!(rt; text.as_slice() == want, "{bytes:?}");
        }
        (Err(fault), Err(want)) => assert!(rt; fault == want, "{bytes:?}"),
        _ => assert!(rt; false, "{bytes:?}"),
    }
    Ok(())
}

#[test]
fn addresses_are_read(rt: HostRuntime) -> Result<(), Fail> {
    for (bytes, want) in ADDRESSES {
        expect_read(&rt, rt.alloc(), bytes, want)?;
    }
    Ok(())
}

// A text of so many letters, followed by `rest`.
fn letters(alloc: Global, count: u64, rest: &[u8]) -> Result<Vec<u8>, Fail> {
    let mut text = Vec::new(alloc);
    for _ in 0..count {
        text.push(b'a')?;
    }
    text.extend_from_slice(rest)?;
    Ok(text)
}

#[test]
fn a_part_has_at_most_1023_bytes(rt: HostRuntime) -> Result<(), Fail> {
    let long = letters(rt.alloc(), 1024, b"@example.org")?;
    let want = Err(JidFault::Long(Which::Local));
    expect_read(&rt, rt.alloc(), long.as_slice(), want)?;
    let most = letters(rt.alloc(), 1023, b"@example.org")?;
    expect_read(&rt, rt.alloc(), most.as_slice(), Ok(most.as_slice()))
}
