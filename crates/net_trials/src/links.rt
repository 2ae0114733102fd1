//! Links as they are, over loopback.

use outside::{Heard, Link, Poller, Ports, Ring, Sent};
use outside_net::{NetPorts, TcpLink, TcpPoller, TcpPost};
use stanza_tree::Text;
use std::io::{Read, Write};
use std::net::{Net, Shutdown, TcpStream};
use std::sync::Wait;
use std::test::Fail;
use std::time::{Duration, Instant};
use std::{io, thread, time};

type HostPost = TcpPost<HostRuntime>;

type HostPoller = TcpPoller<HostRuntime>;

// Posts at a port that the system chooses.
fn posts_of(
    rt: &HostRuntime,
    workers: u32,
    places: u32,
    quota: u64,
) -> Result<Vec<HostPost>, Fail> {
    let address = Text::of(rt.alloc(), b"127.0.0.1:0")?;
    Ok(NetPorts::new(rt.clone()?).pollers(rt.alloc(), &address, workers, places, quota)?)
}

// One poller with so many places.
fn poller_of(rt: &HostRuntime, places: u32) -> Result<HostPoller, Fail> {
    match posts_of(rt, 1, places, 0)?.pop() {
        Some(post) => Ok(post.poller),
        None => Err(Fail::new("no post")),
    }
}

fn two_pollers(rt: &HostRuntime) -> Result<(HostPoller, HostPoller), Fail> {
    let mut posts = posts_of(rt, 2, 2, 0)?;
    match (posts.pop(), posts.pop()) {
        (Some(second), Some(first)) => Ok((first.poller, second.poller)),
        _ => Err(Fail::new("two posts")),
    }
}

// The next link that comes.
fn next_link<R: Wait>(rt: &R, poller: &mut HostPoller) -> Result<(u32, TcpLink), Fail> {
    for _wait in 0..100 {
        match poller.wait(rt) {
            Ring::New(k, link) => return Ok((k, link)),
            Ring::Ready(_) => {}
            Ring::Shut | Ring::Failed => return Err(Fail::new("no link")),
        }
    }
    Err(Fail::new("no link comes"))
}

// A link of the poller with its place, and its peer.
fn connect<R: Wait + Net<Stream = TcpStream>>(
    rt: &R,
    poller: &mut HostPoller,
) -> Result<(u32, TcpLink, TcpStream), Fail> {
    let peer = TcpStream::connect(rt, poller.local_addr()?)?;
    let (k, link) = next_link(rt, poller)?;
    Ok((k, link, peer))
}

// What a reading answers, and the buffer then.
fn hear_once(link: &mut TcpLink) -> (Heard, [u8; 2]) {
    let mut into = [b'.'; 2];
    let heard = link.recv(&mut into);
    (heard, into)
}

// The same, where what comes may still be on its way.
fn hear<R: Wait>(rt: &R, poller: &mut HostPoller, link: &mut TcpLink) -> (Heard, [u8; 2]) {
    for _reading in 0..20 {
        let (heard, into) = hear_once(link);
        if heard != Heard::Quiet {
            return (heard, into);
        }
        let _ring = poller.wait(rt);
    }
    hear_once(link)
}

// Four readings; the peer says three bytes before them and ends its side after two.
fn hear_to_the_end<R: Wait>(
    rt: &R,
    poller: &mut HostPoller,
    link: &mut TcpLink,
    peer: &mut TcpStream,
) -> io::Result<[(Heard, [u8; 2]); 4]> {
    peer.write_all(b"abc")?;
    let first = hear(rt, poller, link);
    let second = hear(rt, poller, link);
    peer.shutdown(Shutdown::Write)?;
    let third = hear(rt, poller, link);
    Ok([first, second, third, hear(rt, poller, link)])
}

#[test]
fn a_link_hears_and_ends(rt: HostRuntime) -> Result<(), Fail> {
    let mut poller = poller_of(&rt, 1)?;
    let (_, mut link, mut peer) = connect(&rt, &mut poller)?;
    let heard = hear_to_the_end(&rt, &mut poller, &mut link, &mut peer)?;
    let expected = [
        (Heard::Bytes(2), *b"ab"),
        (Heard::Bytes(1), *b"c."),
        (Heard::End, *b".."),
        (Heard::End, *b".."),
    ];
    assert!(rt; heard == expected);
    Ok(())
}

// Readings of a link to which nothing comes, and how long they take.
fn quiet_readings<R: time::Clock>(rt: &R, link: &mut TcpLink) -> io::Result<(bool, Duration)> {
    let start = Instant::now(rt)?;
    let mut quiet = true;
    for _reading in 0..1000 {
        quiet = quiet && hear_once(link).0 == Heard::Quiet;
    }
    Ok((quiet, start.elapsed(rt)?))
}

#[test]
fn a_link_is_quiet_at_once(rt: HostRuntime) -> Result<(), Fail> {
    let mut poller = poller_of(&rt, 1)?;
    let (_, mut link, _peer) = connect(&rt, &mut poller)?;
    let (quiet, took) = quiet_readings(&rt, &mut link)?;
    assert!(rt; quiet && took < Duration::from_secs(5), "{took:?}");
    Ok(())
}

// Rings line 3, place 1 of worker 1, again and again for some seconds.
fn ring_on<R: time::Clock>(rt: &R, ringing: &mut TcpLink) {
    for _ring in 0..3000 {
        ringing.ring(3);
        thread::sleep(rt, Duration::from_millis(1));
    }
}

// So many waits at which a place is ready: whether each was of this place, and how long they took.
fn ready_waits<R: Wait + time::Clock>(
    rt: &R,
    poller: &mut HostPoller,
    place: u32,
    waits: u32,
) -> io::Result<(bool, Duration)> {
    let start = Instant::now(rt)?;
    let mut own = true;
    for _wait in 0..waits {
        own = own && matches!(poller.wait(rt), Ring::Ready(k) if k == place);
    }
    Ok((own, start.elapsed(rt)?))
}

// A place to which nothing comes is looked at once a second; one that another thread rings is ready at once. Without rings 200 waits would take as
// many seconds.
#[test]
fn another_thread_rings(rt: HostRuntime) -> Result<(), Fail> {
    let (mut first, mut second) = two_pollers(&rt)?;
    let _peer = TcpStream::connect(&rt, first.local_addr()?)?;
    let (_, mut ringing) = next_link(&rt, &mut first)?;
    let _other_peer = TcpStream::connect(&rt, second.local_addr()?)?;
    let (k, _waiting) = next_link(&rt, &mut second)?;
    let _third_peer = TcpStream::connect(&rt, second.local_addr()?)?;
    let (place, _also) = next_link(&rt, &mut second)?;
    assert!(rt; (k, place) == (0, 1));
    let (waited, ()) = thread::join(
        &rt,
        || ready_waits(&rt, &mut second, 1, 200),
        || ring_on(&rt, &mut ringing),
    );
    let (_, took) = waited?;
    assert!(rt; took < Duration::from_secs(60), "{took:?}");
    Ok(())
}

// Sends until the link takes no byte: how many it took.
fn send_until_later(link: &mut TcpLink) -> Option<usize> {
    let piece = [7u8; 4096];
    let mut sent: usize = 0;
    for _sending in 0..100_000 {
        match link.send(&piece) {
            Sent::Taken(count) => sent = sent.saturating_add(count),
            Sent::Later => return Some(sent),
            Sent::Failed => return None,
        }
    }
    None
}

// Whether the peer reads so many bytes.
fn read_many(peer: &mut TcpStream, most: usize) -> bool {
    let mut into = [0u8; 4096];
    let mut came: usize = 0;
    for _reading in 0..most {
        if came >= most {
            return true;
        }
        match peer.read(&mut into) {
            Ok(count) if count > 0 => came = came.saturating_add(count),
            _ => return false,
        }
    }
    false
}

// A link that takes no byte is ready once its peer made room, takes bytes again, and hears.
#[test]
fn a_link_has_room_again(rt: HostRuntime) -> Result<(), Fail> {
    let mut poller = poller_of(&rt, 1)?;
    let (_, mut link, mut peer) = connect(&rt, &mut poller)?;
    let sent = send_until_later(&mut link);
    assert!(rt; sent.is_some_and(|sent| sent > 0 && read_many(&mut peer, sent)));
    assert!(rt; matches!(poller.wait(&rt), Ring::Ready(0)));
    assert!(rt; matches!(link.send(b"a"), Sent::Taken(1)));
    peer.write_all(b"a")?;
    assert!(rt; hear(&rt, &mut poller, &mut link) == (Heard::Bytes(1), *b"a."));
    Ok(())
}

// Whether a sending fails at last. The first may be taken, since the system learns by it that nobody is there.
fn fails_to_send<R: time::Clock>(rt: &R, link: &mut TcpLink) -> bool {
    for _sending in 0..1000 {
        if link.send(b"a") == Sent::Failed {
            return true;
        }
        thread::sleep(rt, Duration::from_millis(10));
    }
    false
}

// A peer that goes away with a byte unread: that is a fault or an End, and no signal.
#[test]
fn a_peer_goes_away(rt: HostRuntime) -> Result<(), Fail> {
    let mut poller = poller_of(&rt, 1)?;
    let (_, mut link, peer) = connect(&rt, &mut poller)?;
    assert!(rt; link.send(b"a") == Sent::Taken(1));
    drop(peer);
    let (heard, _) = hear(&rt, &mut poller, &mut link);
    assert!(rt; matches!(heard, Heard::Failed | Heard::End));
    assert!(rt; fails_to_send(&rt, &mut link));
    Ok(())
}

// A poller hands out a link for each place, and the next when one was given back.
#[test]
fn a_poller_has_its_places(rt: HostRuntime) -> Result<(), Fail> {
    let mut poller = poller_of(&rt, 2)?;
    let (first, link, _peer) = connect(&rt, &mut poller)?;
    let (second, _other, _other_peer) = connect(&rt, &mut poller)?;
    assert!(rt; (first, second) == (0, 1));
    let _third = TcpStream::connect(&rt, poller.local_addr()?)?;
    for _wait in 0..2 {
        assert!(rt; matches!(poller.wait(&rt), Ring::Ready(_)));
    }
    drop(link);
    assert_eq!(rt; poller.links(), 2);
    Ok(())
}
