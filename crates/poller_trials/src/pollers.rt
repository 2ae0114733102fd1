//! Each form as it is, over loopback.

use outside::{
    Clock, Dice, Filled, Got, Link, ListenFault, Poller, Ports, Put, Ring, Sink, Source,
};
use outside_net::{
    NetPorts, ReaderSource, SystemClock, SystemDice, TcpPoller, TcpPost, WriterSink,
};
use stanza_tree::Text;
use std::io::{ErrorKind, Read, Write};
use std::net::TcpStream;
use std::random::RandomSource;
use std::sync::Wait;
use std::test::Fail;
use std::thread::Threads;
use std::time::Duration;
use std::{io, thread};

type HostPost = TcpPost<HostRuntime>;

type HostPoller = TcpPoller<HostRuntime>;

// Posts at a port that the system chooses.
fn posts_of(
    rt: &HostRuntime,
    workers: u32,
    places: u32,
    quota: u64,
) -> Result<Vec<HostPost>, Fail> {
    let address = Text::of(rt.alloc(), b"127.0.0.1:0")?;
    Ok(NetPorts::new(rt.clone()?).pollers(rt.alloc(), &address, workers, places, quota)?)
}

// Greets the next link with the byte of its place, and gives it back.
fn greet<R: Wait>(rt: &R, poller: &mut HostPoller) {
    for _wait in 0..100 {
        match poller.wait(rt) {
            Ring::New(k, link) => {
                let mut link = link;
                let _said = link.send(b"hello");
                poller.done(k, link);
                return;
            }
            Ring::Ready(_) => {}
            Ring::Shut | Ring::Failed => return,
        }
    }
}

fn greet_side_by_side<R: Threads + Wait + Sync>(rt: &R, posts: &mut [HostPost]) {
    thread::for_each_mut(rt, posts, 8, &|_, post| greet(rt, &mut post.poller));
}

fn is_shut<R: Wait>(rt: &R, poller: &mut HostPoller) -> bool {
    matches!(poller.wait(rt), Ring::Shut) && poller.links() == 1 && poller.faults() == 0
}

// Whether the peer was greeted, and then its connection was closed.
fn is_greeted(peer: &mut TcpStream) -> io::Result<bool> {
    let mut said = [0u8; 5];
    peer.read_exact(&mut said)?;
    let end = peer.read(&mut said)?;
    Ok(said == *b"hello" && end == 0)
}

#[test]
fn each_poller_is_shut_at_its_quota(rt: HostRuntime) -> Result<(), Fail> {
    let mut posts = posts_of(&rt, 2, 3, 1)?;
    let address = match posts.first() {
        Some(post) => post.poller.local_addr()?,
        None => return Err(Fail::new("no post")),
    };
    let mut first = TcpStream::connect(&rt, address)?;
    let mut second = TcpStream::connect(&rt, address)?;
    greet_side_by_side(&rt, posts.as_mut_slice());
    let greeted = is_greeted(&mut first)? && is_greeted(&mut second)?;
    assert!(rt; greeted);
    for post in posts.as_mut_slice() {
        assert!(rt; is_shut(&rt, &mut post.poller));
    }
    Ok(())
}

// What was said before a link is given back arrives, though bytes of its peer weren't read.
#[test]
fn the_last_bytes_arrive(rt: HostRuntime) -> Result<(), Fail> {
    let Some(mut post) = posts_of(&rt, 1, 1, 0)?.pop() else {
        return Err(Fail::new("no post"));
    };
    let mut peer = TcpStream::connect(&rt, post.poller.local_addr()?)?;
    peer.write_all(&[1u8; 10_000])?;
    thread::sleep(&rt, Duration::from_millis(50));
    greet(&rt, &mut post.poller);
    assert!(rt; is_greeted(&mut peer)?);
    Ok(())
}

fn is_refused(rt: &HostRuntime, address: &[u8]) -> Result<bool, Fail> {
    let address = Text::of(rt.alloc(), address)?;
    let listened = NetPorts::new(rt.clone()?).pollers(rt.alloc(), &address, 1, 1, 0);
    Ok(listened.err() == Some(ListenFault::Failed))
}

#[test]
fn other_addresses_are_refused(rt: HostRuntime) -> Result<(), Fail> {
    let cases: [&[u8]; 5] = [
        b"0.0.0.0:0",
        b"[::1]:0",
        b"localhost:5222",
        b"127.0.0.1",
        b"127.0.0.1:65536",
    ];
    for (i, address) in cases.iter().enumerate() {
        assert!(rt; is_refused(&rt, address)?, "case {i}");
    }
    Ok(())
}

// 2020-01-01 and 2200-01-01, in milliseconds.
#[test]
fn the_clock_does_not_fall(rt: HostRuntime) -> Result<(), Fail> {
    let mut clock = SystemClock::new(rt.clone()?);
    let mut last = 1_577_836_800_000;
    for reading in 0..1000 {
        let moment = clock.moment();
        assert!(rt; moment >= last, "reading {reading}");
        last = moment;
    }
    assert!(rt; last < 7_258_118_400_000);
    Ok(())
}

#[derive(Drop)]
struct NoBytes;

impl RandomSource for NoBytes {
    fn fill_bytes(&self, _buf: &mut [u8]) -> io::Result<()> {
        Err(io::Error::from(ErrorKind::Other))
    }
}

// What two fillings answer, and whether their bytes differ.
fn fill_twice<R: RandomSource + Drop>(dice: &mut SystemDice<R>) -> (Filled, Filled, bool) {
    let (mut first, mut second) = ([0u8; 300], [0u8; 300]);
    let filled = (dice.fill(&mut first), dice.fill(&mut second));
    (filled.0, filled.1, first[256..] != second[256..])
}

#[test]
fn dice_fill_or_fail(rt: HostRuntime) -> Result<(), Fail> {
    let mut dice = SystemDice::new(rt.clone()?);
    assert!(rt; fill_twice(&mut dice) == (Filled::Full, Filled::Full, true));
    assert_eq!(rt; dice.faults(), 0);
    let mut broken = SystemDice::new(NoBytes);
    assert!(rt; fill_twice(&mut broken) == (Filled::Failed, Filled::Failed, false));
    assert_eq!(rt; broken.faults(), 2);
    Ok(())
}

// A reader gives its bytes and then the end; a writer that is full takes nothing, which is a fault.
#[test]
fn bytes_go_through(rt: HostRuntime) {
    let mut into = [0u8; 2];
    let mut source = ReaderSource::new(b"abc".as_slice());
    for got in [Got::Bytes(2), Got::Bytes(1), Got::End] {
        assert_eq!(rt; source.read(&mut into), got);
    }
    let mut room = [0u8; 3];
    let mut sink = WriterSink::new(room.as_mut_slice());
    for put in [Put::Taken(2), Put::Taken(1), Put::Failed] {
        assert_eq!(rt; sink.write(b"ab"), put);
    }
}
