//! Each form in memory, call by call, with a fault in the middle.
ghost use Rattle.std.specs.Prelude.{◌≡◌, Some, [], IfOk};
ghost use Rattle.outside.specs.Polls.{IsFresh, SeatState};
ghost use Rattle.outside.specs.Posts.{Each, IsUnused};

use outside::*;
use stanza_tree::{Several, Text};
use std::alloc::Global;
use std::sync::Wait;
use std::test::Fail;

// The second reading fails; each gives at most three bytes.
#[test]
fn a_source_gives_its_bytes_in_pieces(rt: HostRuntime) -> Result<(), Fail> {
    let alloc = rt.alloc();
    let bytes = Vec::from_slice(alloc, b"abcde")?;
    let mut source = MemSource::new(bytes, 3, Vec::from_array(alloc, [2u64])?);
    let cases: [(Got, &[u8]); 5] = [
        (Got::Bytes(3), b"abc."),
        (Got::Failed, b"abc."),
        (Got::Bytes(2), b"dec."),
        (Got::End, b"dec."),
        (Got::End, b"dec."),
    ];
    let mut into = [b'.'; 4];
    for (i, (got, bytes)) in cases.iter().enumerate() {
        assert_eq!(rt; source.read(&mut into), *got, "case {i}");
        assert!(rt; into.as_slice() == *bytes, "case {i}");
    }
    Ok(())
}

// The second writing fails; the fourth finds no room, and from then on nothing is told.
#[test]
fn a_sink_takes_pieces(rt: HostRuntime) -> Result<(), Fail> {
    let alloc = rt.alloc();
    let mut sink = MemSink::new(alloc, 8, 3, Vec::from_array(alloc, [2u64])?)?;
    let cases: [(Put, &[u8]); 4] = [
        (Put::Taken(3), b"abc"),
        (Put::Failed, b"abc"),
        (Put::Taken(3), b"abcabc"),
        (Put::Failed, b""),
    ];
    for (i, (put, bytes)) in cases.iter().enumerate() {
        assert_eq!(rt; sink.write(b"abcd"), *put, "case {i}");
        assert!(rt; sink.bytes() == *bytes, "case {i}");
    }
    Ok(())
}

fn link_of(alloc: Global, calls: usize, bytes: usize) -> Result<MemLink, Fail>
    ensures { IfOk result (λ l. l.tape.told ≡ Some []) }
{
    let first = Several::of(Vec::from_slice(alloc, b"abc")?);
    let quiet = Several::of(Vec::new(alloc));
    let readings = Vec::from_array(alloc, [first, quiet])?;
    let fails = Vec::from_array(alloc, [3u64])?;
    Ok(MemLink::new(alloc, readings, 2, fails, calls, bytes)?)
}

// The third call fails; the last finds no room, and from then on nothing is told.
#[test]
fn a_link_keeps_its_tape(rt: HostRuntime) -> Result<(), Fail> {
    let mut link = link_of(rt.alloc(), 7, 6)?;
    let mut into = [0u8; 2];
    let cases = [
        Heard::Bytes(2),
        Heard::Bytes(1),
        Heard::Failed,
        Heard::Quiet,
        Heard::End,
    ];
    for (i, heard) in cases.iter().enumerate() {
        assert_eq!(rt; link.recv(&mut into), *heard, "case {i}");
    }
    link.ring(3);
    assert_eq!(rt; link.send(b"xyz"), Sent::Taken(2));
    let kinds = [
        Kind::Heard(2),
        Kind::Heard(1),
        Kind::Failed,
        Kind::Quiet,
        Kind::End,
        Kind::Said(2),
    ];
    assert!(rt; link.tape().kinds() == kinds.as_slice());
    assert!(rt; link.tape().bytes() == b"abcxy".as_slice());
    assert_eq!(rt; link.send(b"xyz"), Sent::Failed);
    assert!(rt; link.tape().kinds().is_empty());
    assert_eq!(rt; link.faults(), 2);
    Ok(())
}

// The first sending and the third are answered Later, which leaves no mark.
#[test]
fn a_link_takes_no_byte_for_now(rt: HostRuntime) -> Result<(), Fail> {
    let alloc = rt.alloc();
    let mut link = link_of(alloc, 7, 6)?.later_at(Vec::from_array(alloc, [1u64, 3])?);
    let cases = [
        Sent::Later,
        Sent::Taken(2),
        Sent::Failed,
        Sent::Later,
        Sent::Taken(2),
    ];
    for (i, sent) in cases.iter().enumerate() {
        assert_eq!(rt; link.send(b"xyz"), *sent, "case {i}");
    }
    assert!(rt; link.tape().kinds() == [Kind::Said(2), Kind::Failed, Kind::Said(2)].as_slice());
    assert!(rt; link.tape().bytes() == b"xyxy".as_slice());
    Ok(())
}

// The third filling fails by the plan, the fourth for want of bytes.
#[test]
fn a_clock_and_dice_tell_what_they_gave(rt: HostRuntime) -> Result<(), Fail> {
    let alloc = rt.alloc();
    let mut clock = MemClock::new(alloc, Vec::from_array(alloc, [5u64, 7])?, 3)?;
    for (i, moment) in [5u64, 7, 7].iter().enumerate() {
        assert_eq!(rt; clock.moment(), *moment, "case {i}");
    }
    assert!(rt; clock.given() == [5u64, 7, 7].as_slice());
    assert_eq!(rt; clock.moment(), 7);
    assert!(rt; clock.given().is_empty());
    let bytes = Vec::from_slice(alloc, b"abcde")?;
    let mut dice = MemDice::new(alloc, bytes, Vec::from_array(alloc, [3u64])?, 4)?;
    let cases: [(Filled, &[u8]); 4] = [
        (Filled::Full, b"ab"),
        (Filled::Full, b"cd"),
        (Filled::Failed, b"cd"),
        (Filled::Failed, b"cd"),
    ];
    let mut into = [0u8; 2];
    for (i, (filled, bytes)) in cases.iter().enumerate() {
        assert_eq!(rt; dice.fill(&mut into), *filled, "case {i}");
        assert!(rt; into.as_slice() == *bytes, "case {i}");
    }
    assert_eq!(rt; dice.faults(), 2);
    Ok(())
}

fn door_of(alloc: Global) -> Result<MemDoor, Fail>
    ensures { IfOk result (λ d. (d.plan.faults ≡ 0) × (d.links ≡ 0) × (d.tapes ≡ Some [])) }
{
    let links = Vec::from_array(alloc, [link_of(alloc, 4, 8)?, link_of(alloc, 4, 8)?])?;
    Ok(MemDoor::new(alloc, links, Vec::from_array(alloc, [2u64])?, 2)?)
}

fn serve<D: Door, R: Wait>(rt: &R, door: &mut D) -> &'static str {
    match door.accept(rt) {
        Came::Link(link) => {
            let mut link = link;
            link.send(b"x");
            door.done(link);
            "link"
        }
        Came::Shut => "shut",
        Came::Failed => "failed",
    }
}

// The second call fails; the fourth finds the quota reached.
#[test]
fn a_door_hands_out_links(rt: HostRuntime) -> Result<(), Fail> {
    let mut door = door_of(rt.alloc())?;
    door.set_quota(2);
    for (i, came) in ["link", "failed", "link", "shut"].iter().enumerate() {
        assert!(rt; serve(&rt, &mut door) == *came, "case {i}");
    }
    assert_eq!(rt; door.links(), 2);
    assert_eq!(rt; door.faults(), 1);
    assert_eq!(rt; door.tapes().len(), 2);
    for tape in door.tapes() {
        assert!(rt; tape.kinds() == [Kind::Said(1)].as_slice());
    }
    door.set_quota(0);
    assert!(rt; serve(&rt, &mut door) == "failed");
    Ok(())
}

// What a wait comes to, where a link that comes is said a byte to and given back.
fn attend<R: Wait, P: Poller>(rt: &R, poller: &mut P) -> &'static str {
    match poller.wait(rt) {
        Ring::New(k, link) => {
            let mut link = link;
            link.send(b"x");
            poller.done(k, link);
            "new"
        }
        Ring::Ready(_) => "ready",
        Ring::Shut => "shut",
        Ring::Failed => "failed",
    }
}

fn poller_of(alloc: Global) -> Result<MemPoller, Fail>
    ensures faults { IfOk result (λ p. p.plan.faults ≡ 0) }
    ensures links { IfOk result (λ p. p.links ≡ 0) }
    ensures fresh { IfOk result (λ p. Each SeatState IsFresh p.places) }
{
    let script = Vec::from_array(
        alloc,
        [Rung::New(1), Rung::New(0), Rung::Ready(0), Rung::New(0)],
    )?;
    let links = Vec::from_array(alloc, [link_of(alloc, 4, 8)?, link_of(alloc, 4, 8)?])?;
    let fails = Vec::from_array(alloc, [2u64])?;
    Ok(MemPoller::new(alloc, 2, script, links, fails, 1, 10)?)
}

// The second wait fails by the plan, and the next ones follow the script: at a place that isn't taken nothing is ready, and once the quota came
// the poller is shut.
#[test]
fn a_poller_rings_by_its_script(rt: HostRuntime) -> Result<(), Fail> {
    let mut poller = poller_of(rt.alloc())?;
    poller.set_quota(2);
    for (i, came) in ["new", "failed", "new", "shut"].iter().enumerate() {
        assert!(rt; attend(&rt, &mut poller) == *came, "case {i}");
    }
    assert_eq!(rt; poller.links(), 2);
    assert_eq!(rt; poller.faults(), 1);
    for k in 0..2 {
        assert_eq!(rt; poller.tapes(k).len(), 1, "place {k}");
    }
    assert!(rt; poller.rung() == [Rung::New(1), Rung::Failed, Rung::New(0), Rung::Shut].as_slice());
    poller.set_quota(0);
    assert!(rt; attend(&rt, &mut poller) == "failed");
    Ok(())
}

fn sources_of(alloc: Global) -> Result<Vec<Sources<MemClock, MemDice>>, Fail> {
    let mut sources = Vec::new(alloc);
    for _place in 0..2 {
        sources.push(Sources {
            clock: MemClock::new(alloc, Vec::new(alloc), 0)?,
            dice: MemDice::new(alloc, Vec::new(alloc), Vec::new(alloc), 0)?,
        })?;
    }
    Ok(sources)
}

fn post_of(alloc: Global) -> Result<PollPost<MemPoller, MemClock, MemDice>, Fail>
    ensures { IfOk result IsUnused }
{
    let poller = poller_of(alloc)?;
    let sources = sources_of(alloc)?;
    Ok(PollPost { poller, sources })
}

fn ports_of(alloc: Global) -> Result<MemPorts, Fail> {
    let posts = Vec::from_array(alloc, [post_of(alloc)?, post_of(alloc)?])?;
    let bytes = Vec::from_slice(alloc, b"abcd")?;
    let dice = MemDice::new(alloc, bytes, Vec::new(alloc), 2)?;
    let fails = Vec::from_array(alloc, [2u64])?;
    Ok(MemPorts::new(alloc, posts, dice, fails, 2)?)
}

// The second call, a filling, fails; so does asking for more pollers than there are.
#[test]
fn ports_gather_what_their_pollers_counted(rt: HostRuntime) -> Result<(), Fail> {
    let alloc = rt.alloc();
    let address = Text::of(alloc, b"127.0.0.1:5222")?;
    let mut ports = ports_of(alloc)?;
    let mut posts = ports.pollers(alloc, &address, 2, 2, 1)?;
    let mut into = [0u8; 2];
    assert_eq!(rt; ports.fill(&mut into), Filled::Failed);
    assert_eq!(rt; ports.fill(&mut into), Filled::Full);
    for post in posts.iter_mut() {
        assert!(rt; attend(&rt, &mut post.poller) == "new");
        assert!(rt; attend(&rt, &mut post.poller) == "shut");
    }
    ports.gather_pollers(posts);
    assert_eq!(rt; ports.links(), 2);
    assert_eq!(rt; ports.faults(), 1);
    assert_eq!(rt; ports.dice_faults(), 0);
    assert_eq!(rt; ports.pollers_back().len(), 2);
    assert!(rt;
        ports
            .address()
            .is_some_and(|at| at.bytes() == address.bytes())
    );
    assert!(rt;
        matches!(
            ports.pollers(alloc, &address, 1, 2, 0),
            Err(ListenFault::Failed)
        )
    );
    Ok(())
}

// Nothing fails, and what has no script left ends, says 0 or gives zeros.
#[test]
fn clean_forms_never_fail(rt: HostRuntime) -> Result<(), Fail> {
    let alloc = rt.alloc();
    let mut source = CleanSource::new(Vec::from_slice(alloc, b"abcde")?);
    let mut into = [b'.'; 4];
    for (i, got) in [Got::Bytes(4), Got::Bytes(1), Got::End].iter().enumerate() {
        assert_eq!(rt; source.read(&mut into), *got, "case {i}");
    }
    assert_eq!(rt; CleanSink.write(b"abcd"), Put::Taken(4));
    let address = Text::of(alloc, b"127.0.0.1:5222")?;
    let mut ports = CleanPorts::new(
        Vec::new(alloc),
        CleanDice::new(Vec::from_slice(alloc, b"ab")?),
    );
    assert_eq!(rt; ports.fill(&mut into), Filled::Full);
    assert!(rt; into == *b"ab\0\0");
    let mut posts = ports.pollers(alloc, &address, 2, 3, 1)?;
    for post in posts.iter_mut() {
        assert!(rt; attend(&rt, &mut post.poller) == "new");
        assert!(rt; attend(&rt, &mut post.poller) == "shut");
        assert_eq!(rt; post.sources.len(), 3);
        for place in post.sources.iter_mut() {
            assert_eq!(rt; place.clock.moment(), 0);
            assert_eq!(rt; place.dice.fill(&mut into), Filled::Full);
        }
    }
    ports.gather_pollers(posts);
    assert_eq!(rt; ports.links(), 2);
    Ok(())
}

#[test]
fn a_clean_link_hears_its_readings(rt: HostRuntime) -> Result<(), Fail> {
    let alloc = rt.alloc();
    let reading = Several::of(Vec::from_slice(alloc, b"abc")?);
    let mut link = CleanLink::new(Vec::from_array(alloc, [reading])?);
    let mut into = [0u8; 2];
    for (i, heard) in [Heard::Bytes(2), Heard::Bytes(1), Heard::End]
        .iter()
        .enumerate()
    {
        assert_eq!(rt; link.recv(&mut into), *heard, "case {i}");
    }
    link.ring(3);
    assert_eq!(rt; link.send(b"xyz"), Sent::Taken(3));
    Ok(())
}
