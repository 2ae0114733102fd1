//! Runs of `serve`: at ports whose links wait for one another, and over TCP.

use commands::run::run;
use meeting_ports::MeetPorts;
use outside::{MemSink, MemSource};
use outside_net::NetPorts;
use script_play::Status;
use stanza_tree::Text;
use std::alloc::Global;
use std::io::{Read, Write};
use std::net::{IpAddr, Ipv4Addr, Net, SocketAddr, TcpStream};
use std::sync::Wait;
use std::test::Fail;
use std::thread::Threads;
use std::time::Duration;
use std::{io, thread, time};

const HEADER: &[u8] =
    b"<stream:stream xmlns='jabber:client' xmlns:stream='http://etherx.jabber.org/streams' to='localhost' version='1.0'>";

const FEATURES: &[u8] = b"</stream:features>";

const CLOSE_TAG: &[u8] = b"</stream:stream>";

fn words_of(alloc: Global, words: &[&[u8]]) -> Result<Vec<Text>, Fail> {
    let mut texts = Vec::new(alloc);
    for word in words {
        texts.push(Text::of(alloc, word)?)?;
    }
    Ok(texts)
}

// Each link's second reading returns once that of the other has begun: a server that serves one after the other, or holds the house's turn
// while it reads, says no close tag to one of them.
#[test]
fn links_that_meet_are_served(rt: HostRuntime) -> Result<(), Fail> {
    let words: [&[u8]; 9] = [
        b"serve",
        b"--domain",
        b"example.org",
        b"--workers",
        b"2",
        b"--links",
        b"1",
        b"--connections",
        b"1",
    ];
    let words = words_of(rt.alloc(), &words)?;
    let mut source = MemSource::new(Vec::new(rt.alloc()), 1, Vec::new(rt.alloc()));
    let mut sink = MemSink::new(rt.alloc(), 100, 100, Vec::new(rt.alloc()))?;
    let mut ports = MeetPorts::new(rt.alloc())?;
    let words = words.as_slice();
    let status = run(&rt, rt.alloc(), words, &mut source, &mut sink, &mut ports);
    assert_eq!(rt; status, Status::Done);
    assert_eq!(rt; ports.back().len(), 2);
    for post in ports.back() {
        let said = post
            .poller
            .link()
            .map(|link| link.said().ends_with(CLOSE_TAG));
        assert_eq!(rt; said, Some(true));
    }
    Ok(())
}

// A connection, as soon as somebody listens there.
fn connect<R: Net<Stream = TcpStream> + time::Clock>(rt: &R, port: u16) -> io::Result<TcpStream> {
    let address = SocketAddr::new(IpAddr::V4(Ipv4Addr::LOCALHOST), port);
    for _attempt in 0..1000 {
        if let Ok(peer) = TcpStream::connect(rt, address) {
            return Ok(peer);
        }
        thread::sleep(rt, Duration::from_millis(10));
    }
    TcpStream::connect(rt, address)
}

// Whether the server says these bytes, before it says 4,096 others or nothing more.
fn hears(alloc: Global, peer: &mut TcpStream, end: &[u8]) -> io::Result<bool> {
    let mut said = Vec::new(alloc);
    for _byte in 0..4096 {
        let mut byte = [0u8];
        if peer.read(&mut byte)? == 0 || said.push(byte[0]).is_err() {
            return Ok(false);
        }
        if said.as_slice().ends_with(end) {
            return Ok(true);
        }
    }
    Ok(false)
}

// A client that begins a stream and ends it.
fn visit<R: Net<Stream = TcpStream> + time::Clock>(rt: &R, alloc: Global) -> io::Result<bool> {
    let mut peer = connect(rt, 15222)?;
    peer.write_all(HEADER)?;
    peer.write_all(CLOSE_TAG)?;
    hears(alloc, &mut peer, CLOSE_TAG)
}

// Two clients, each of which ends its stream when both were answered.
fn meet<R: Net<Stream = TcpStream> + time::Clock>(
    rt: &R,
    alloc: Global,
    port: u16,
) -> io::Result<bool> {
    let mut first = connect(rt, port)?;
    let mut second = connect(rt, port)?;
    first.write_all(HEADER)?;
    second.write_all(HEADER)?;
    let first_hears = hears(alloc, &mut first, FEATURES)?;
    let second_hears = hears(alloc, &mut second, FEATURES)?;
    first.write_all(CLOSE_TAG)?;
    second.write_all(CLOSE_TAG)?;
    let first_ends = hears(alloc, &mut first, CLOSE_TAG)?;
    let second_ends = hears(alloc, &mut second, CLOSE_TAG)?;
    Ok(first_hears && second_hears && first_ends && second_ends)
}

#[test]
fn serves_a_client_over_tcp(rt: HostRuntime) -> Result<(), Fail> {
    let words: [&[u8]; 7] = [
        b"serve",
        b"--port",
        b"15222",
        b"--workers",
        b"1",
        b"--connections",
        b"1",
    ];
    let words = words_of(rt.alloc(), &words)?;
    let mut source = MemSource::new(Vec::new(rt.alloc()), 1, Vec::new(rt.alloc()));
    let mut sink = MemSink::new(rt.alloc(), 100, 100, Vec::new(rt.alloc()))?;
    let mut ports = NetPorts::new(rt.clone()?);
    let (status, visited) = thread::join(
        &rt,
        || {
            let words = words.as_slice();
            run(&rt, rt.alloc(), words, &mut source, &mut sink, &mut ports)
        },
        || visit(&rt, rt.alloc()),
    );
    assert!(rt; visited?);
    assert_eq!(rt; status, Status::Done);
    assert!(rt; sink.bytes().starts_with(b"links 1 turns "));
    Ok(())
}

// Whether two clients that meet at a server of these words are served, each to its end.
fn serves_two<R: Threads + Wait + Sync + Net<Stream = TcpStream> + time::Clock>(
    rt: &R,
    alloc: Global,
    ports: &mut NetPorts<HostRuntime>,
    words: &[&[u8]],
    port: u16,
) -> Result<bool, Fail> {
    let words = words_of(alloc, words)?;
    let mut source = MemSource::new(Vec::new(alloc), 1, Vec::new(alloc));
    let mut sink = MemSink::new(alloc, 100, 100, Vec::new(alloc))?;
    let (status, met) = thread::join(
        rt,
        || run(rt, alloc, words.as_slice(), &mut source, &mut sink, ports),
        || meet(rt, alloc, port),
    );
    Ok(met? && status == Status::Done && sink.bytes().starts_with(b"links 2 turns "))
}

#[test]
fn two_workers_serve_two_clients_at_once(rt: HostRuntime) -> Result<(), Fail> {
    let words: [&[u8]; 5] = [
        b"serve",
        b"--port=15223",
        b"--workers=2",
        b"--links=1",
        b"--connections=1",
    ];
    let mut ports = NetPorts::new(rt.clone()?);
    assert!(rt; serves_two(&rt, rt.alloc(), &mut ports, &words, 15223)?);
    Ok(())
}

#[test]
fn one_worker_serves_two_clients_at_once(rt: HostRuntime) -> Result<(), Fail> {
    let words: [&[u8]; 6] = [
        b"serve",
        b"--port=15224",
        b"--workers=1",
        b"--links=2",
        b"--connections=2",
        b"--quiet",
    ];
    let mut ports = NetPorts::new(rt.clone()?);
    assert!(rt; serves_two(&rt, rt.alloc(), &mut ports, &words, 15224)?);
    Ok(())
}
