//! Words in the forms that are taken, and words in none of them.

use script_play::Status;
use serve_run::Serving;
use serve_words::read_serve;
use stanza_tree::Text;
use std::alloc::Global;
use std::process::Abort;
use std::test::Fail;

/// Words; the domain, and the port, workers, links, connections, whether it is quiet, and the sessions.
type Taken = (
    &'static [&'static [u8]],
    &'static [u8],
    (u16, u32, u32, u64, bool, u32),
);

const TAKEN: [Taken; 15] = [
    (&[], b"localhost", (5222, 4, 256, 0, false, 512)),
    (
        &[b"--port", b"15222"],
        b"localhost",
        (15222, 4, 256, 0, false, 512),
    ),
    (
        &[b"--port=15222", b"--workers=2"],
        b"localhost",
        (15222, 2, 256, 0, false, 512),
    ),
    (
        &[b"--connections", b"1000000", b"--domain=example.org"],
        b"example.org",
        (5222, 4, 256, 1_000_000, false, 512),
    ),
    (
        &[b"--workers", b"064", b"--port=0000000000000000000000001"],
        b"localhost",
        (1, 64, 16, 0, false, 512),
    ),
    (
        &[b"--workers=5"],
        b"localhost",
        (5222, 5, 204, 0, false, 512),
    ),
    (
        &[b"--quiet", b"--links", b"1", b"--workers", b"64"],
        b"localhost",
        (5222, 64, 1, 0, true, 512),
    ),
    (
        &[b"--links=256", b"--quiet"],
        b"localhost",
        (5222, 4, 256, 0, true, 512),
    ),
    (
        &[
            b"--domain",
            b"example.org",
            b"--connections=7",
            b"--workers",
            b"1",
            b"--port",
            b"65535",
        ],
        b"example.org",
        (65535, 1, 256, 7, false, 512),
    ),
    (
        &[b"--sessions", b"1"],
        b"localhost",
        (5222, 4, 256, 0, false, 1),
    ),
    (
        &[b"--sessions=513", b"--workers=64"],
        b"localhost",
        (5222, 64, 16, 0, false, 513),
    ),
    (
        &[b"--sessions=10000", b"--workers", b"1"],
        b"localhost",
        (5222, 1, 16384, 0, false, 10000),
    ),
    (
        &[b"--sessions", b"16384"],
        b"localhost",
        (5222, 4, 4096, 0, false, 16384),
    ),
    (
        &[b"--links=4096", b"--sessions=16384"],
        b"localhost",
        (5222, 4, 4096, 0, false, 16384),
    ),
    (
        &[b"--links=257", b"--sessions=513"],
        b"localhost",
        (5222, 4, 257, 0, false, 513),
    ),
];

const REFUSED: [&[&[u8]]; 33] = [
    &[b"5222"],
    &[b"--"],
    &[b"--port"],
    &[b"--port="],
    &[b"--port", b""],
    &[b"--port", b"-1"],
    &[b"--port", b"+5"],
    &[b"--port", b"0"],
    &[b"--port", b"65536"],
    &[b"--port", b"18446744073709556838"],
    &[b"--port", b"1", b"--port=2"],
    &[b"--workers", b"65"],
    &[b"--links", b"0"],
    &[b"--links", b"257"],
    &[b"--links", b"256", b"--workers", b"5"],
    &[b"--links", b"1", b"--links", b"1"],
    &[b"--quiet", b"--quiet"],
    &[b"--quiet", b"yes"],
    &[b"--quiet=yes"],
    &[b"--port", b"--quiet"],
    &[b"--connections", b"1000001"],
    &[b"--domain", b"Example.org"],
    &[b"--domain", b"alice@example.org"],
    &[b"--domain=[::1]"],
    &[b"--listen", b"1"],
    &[b"--sessions"],
    &[b"--sessions", b"0"],
    &[b"--sessions=16385"],
    &[b"--sessions=600", b"--sessions=600"],
    &[b"--links=4096"],
    &[b"--links", b"257", b"--sessions", b"512"],
    &[b"--links=4097", b"--sessions=16384"],
    &[b"--links=16385", b"--workers=1", b"--sessions=16384"],
];

fn read(alloc: Global, words: &[&[u8]]) -> Result<Result<Serving, Status>, Fail> {
    let mut texts = Vec::new(alloc);
    for word in words {
        texts.push(Text::of(alloc, word)?)?;
    }
    Ok(read_serve(alloc, texts.as_slice()))
}

fn takes<R: Abort>(
    rt: &R,
    alloc: Global,
    words: &[&[u8]],
    domain: &[u8],
    numbers: (u16, u32, u32, u64, bool, u32),
) -> Result<(), Fail> {
    match read(alloc, words)? {
        Ok(serving) => {
            assert!(rt; serving.domain.domain.bytes() == domain);
            assert_eq!(rt;
                (
                    serving.port,
                    serving.workers,
                    serving.links,
                    serving.connections,
                    serving.quiet,
                    serving.sessions
                ),
                numbers
            );
        }
        Err(_) => panic!(rt; "words that are taken"),
    }
    Ok(())
}

#[test]
fn words_are_read(rt: HostRuntime) -> Result<(), Fail> {
    for (words, domain, numbers) in TAKEN {
        takes(&rt, rt.alloc(), words, domain, numbers)?;
    }
    for words in REFUSED {
        match read(rt.alloc(), words)? {
            Ok(_) => panic!(rt; "words that are refused"),
            Err(status) => assert!(rt; status == Status::Usage),
        }
    }
    Ok(())
}
