//! Threads at a hall, and a message between two passes.
ghost use Rattle.std.specs.Prelude.{◌≡◌, ◌+◌, ◌<◌, ◌≤◌, vec_len, vec_capacity, All, IfOk, IfSome};
ghost use Rattle.turn_lock.specs.Histories.{StartsWith};
ghost use Rattle.turn_lock.specs.Passes.{seen};
ghost use Rattle.house_model.specs.Histories.{IdFits, StanzaFits};
ghost use Rattle.hall.specs.Greetings.{greeting, plain_attr};
ghost use Rattle.hall.specs.Halls.{CameFrom, lines_of};

use hall::*;
use house_core::House;
use house_model::{MessageForm, Reply, Stanza};
use jid_core::{Jid, Part};
use sm_resume::ResumeId;
use stanza_tree::{Attr, Element, Name, Several, Text, length};
use std::alloc::Global;
use std::process::Abort;
use std::sync::Wait;
use std::test::Fail;
use std::thread;
use std::thread::Threads;

/// What Bob takes.
const MESSAGE: &[u8] =
    b"<message to='bob@example.org/home' type='headline' from='alice@example.org/desk'/>";

/// How many canonical bytes a stanza may have.
const MOST_STANZA: u64 = 196_608;

/// Twice the room for a frame.
const ROOM: usize = 1_048_576;

// A hall round a house of two users.
fn hall_of(alloc: Global, lines: u32) -> Result<(Hall, Vec<Pass>), Fail>
    requires { 0 < lines }
    ensures here { IfOk result (λ r. All (CameFrom r.0) r.1.items) }
    ensures all { IfOk result (λ r. vec_len r.1 ≡ lines_of r.0) }
    ensures lines { IfOk result (λ r. lines_of r.0 ≡ lines) }
{
    let domain = Jid::read(alloc, b"example.org")?;
    let users = [Part::local(alloc, b"alice")?, Part::local(alloc, b"bob")?];
    if users[0].bytes() == users[1].bytes() {
        return Err(Fail::new("two users"));
    }
    let house = House::new(alloc, &domain, &users, lines)?;
    Ok(Hall::start(alloc, house, lines, 3)?)
}

// A hall of two lines, and the pass of each.
fn two_passes(alloc: Global) -> Result<(Hall, Pass, Pass), Fail>
    ensures first { IfOk result (λ r. CameFrom r.0 r.1) }
    ensures second { IfOk result (λ r. CameFrom r.0 r.2) }
    ensures lines { IfOk result (λ r. lines_of r.0 ≡ 2) }
{
    let (hall, mut passes) = hall_of(alloc, 2)?;
    let (Some(second), Some(first)) = (passes.pop(), passes.pop()) else {
        return Err(Fail::new("two passes"));
    };
    Ok((hall, first, second))
}

// A connection comes, logs in and binds. Whether all went well.
fn come<W: Wait>(
    rt: &W,
    hall: &Hall,
    pass: &mut Pass,
    user: &Part,
    resource: Option<&Part>,
    id: &Text,
) -> bool
    requires pass { CameFrom hall.now pass.old }
    requires id { IdFits id.now }
    ensures { CameFrom hall.now pass.new }
{
    let dice = [(pass.number() % 256) as u8; 16];
    let opened = hall.open_line(rt, pass);
    let logged = hall.login(rt, pass, user);
    let bound = hall.bind(rt, pass, id, resource, 0, dice);
    opened.is_ok() && logged == Ok(Reply::Done) && bound == Ok(Reply::Bound)
}

// A connection comes, and takes two frames. Where there is no memory for them it does nothing.
fn visit<W: Wait>(rt: &W, alloc: Global, hall: &Hall, pass: &mut Pass, user: &Part, id: &Text)
    requires pass { CameFrom hall.now pass.old }
    requires id { IdFits id.now }
    ensures { CameFrom hall.now pass.new }
{
    let Ok(mut out) = Vec::with_capacity(alloc, ROOM) else {
        return;
    };
    let _ = come(rt, hall, pass, user, None, id);
    let _ = hall.pull(rt, pass, 0, &mut out);
    out.clear();
    let _ = hall.pull(rt, pass, 0, &mut out);
}

fn visit_side_by_side<R: Threads + Wait + Sync>(
    rt: &R,
    alloc: Global,
    hall: &Hall,
    passes: &mut [Pass],
    user: &Part,
    id: &Text,
)
    requires passes { All (CameFrom hall.now) passes.old }
    requires id { IdFits id.now }
    ensures { All (CameFrom hall.now) passes.new }
{
    thread::for_each_mut(
        rt,
        passes,
        8,
        &|_, pass| visit(rt, alloc, hall, pass, user, id),
    );
}

// The house after a visit at each of so many lines, each in a thread of its own.
fn house_after<R: Threads + Wait + Sync>(rt: &R, alloc: Global, lines: u32) -> Result<House, Fail>
    requires { 0 < lines }
{
    let (hall, mut passes) = hall_of(alloc, lines)?;
    let user = Part::local(alloc, b"alice")?;
    let id = id_of(alloc)?;
    visit_side_by_side(rt, alloc, &hall, passes.as_mut_slice(), &user, &id);
    Ok(hall.close(passes))
}

#[test]
fn every_call_is_one_turn(rt: HostRuntime) -> Result<(), Fail> {
    for lines in [2u32, 8] {
        let house = house_after(&rt, rt.alloc(), lines)?;
        assert_eq!(rt; house.turns(), lines as u64 * 5);
        assert_eq!(rt; house.opened(), lines as u64);
    }
    Ok(())
}

// The id of a request.
fn id_of(alloc: Global) -> Result<Text, Fail>
    ensures { IfOk result IdFits }
{
    Ok(Text::of(alloc, b"b1")?)
}

fn name_of(alloc: Global, space: &[u8], local: &[u8]) -> Result<Name, Fail>
    ensures { IfOk result (λ n. n ≡ record { space = space.now; local = local.now }) }
{
    Ok(Name {
        space: Text::of(alloc, space)?,
        local: Text::of(alloc, local)?,
    })
}

fn attr_of(alloc: Global, local: &[u8], value: &[u8]) -> Result<Attr, Fail>
    ensures { IfOk result (λ a. a ≡ plain_attr local.now value.now) }
{
    Ok(Attr {
        name: name_of(alloc, b"", local)?,
        value: Text::of(alloc, value)?,
    })
}

// `<message to='..' type='headline'/>`
fn element_of(alloc: Global, to: &[u8]) -> Result<Element, Fail>
    ensures { IfOk result (λ e. e ≡ greeting to.now) }
{
    let mut attrs = Vec::new(alloc);
    attrs.push(attr_of(alloc, b"to", to)?)?;
    attrs.push(attr_of(alloc, b"type", b"headline")?)?;
    Ok(Element {
        name: name_of(alloc, b"jabber:client", b"message")?,
        attrs: Several::of(attrs),
        children: Several::of(Vec::new(alloc)),
    })
}

fn stanza_of(alloc: Global) -> Result<Stanza, Fail>
    ensures { IfOk result StanzaFits }
{
    let to = Jid::read(alloc, b"bob@example.org/home")?;
    let element = element_of(alloc, b"bob@example.org/home")?;
    if length(&element) > MOST_STANZA {
        return Err(Fail::new("a small stanza"));
    }
    Ok(Stanza::Message {
        to: Some(to),
        form: MessageForm::Headline,
        element,
    })
}

// Alice sends a message to Bob, whose pass then knows of it, and Bob takes what came.
fn hand_on<W: Wait>(
    rt: &W,
    hall: &Hall,
    alice: &mut Pass,
    bob: &mut Pass,
    stanza: &Stanza,
    out: &mut Vec<u8>,
) -> bool
    requires alice { CameFrom hall.now alice.old }
    requires bob { CameFrom hall.now bob.old }
    requires fits { StanzaFits stanza.now }
    requires room { vec_len out.old + 524288 ≤ vec_capacity out.old }
    ensures alice { CameFrom hall.now alice.new }
    ensures bob { CameFrom hall.now bob.new }
    ensures met { StartsWith (seen bob.new) (seen alice.new) }
{
    let sent = hall.act(rt, alice, stanza, 0);
    hall.meet(alice, bob);
    let taken = hall.pull(rt, bob, 0, out);
    sent == Ok(Reply::Done) && taken == Ok(Reply::Frame)
}

// Who stands at a line.
#[derive(Drop)]
struct Guest {
    user: Part,
    resource: Part,
}

fn guest_of(alloc: Global, user: &[u8], resource: &[u8]) -> Result<Guest, Fail> {
    Ok(Guest {
        user: Part::local(alloc, user)?,
        resource: Part::resource(alloc, resource)?,
    })
}

// Both come, Bob takes the answer that he is bound, and then what Alice sends. Whether all went well.
fn meet<W: Wait>(
    rt: &W,
    alloc: Global,
    hall: &Hall,
    alice: &mut Pass,
    bob: &mut Pass,
    out: &mut Vec<u8>,
) -> Result<bool, Fail>
    requires alice { CameFrom hall.now alice.old }
    requires bob { CameFrom hall.now bob.old }
    requires room { vec_len out.old + 524288 ≤ vec_capacity out.old }
    ensures alice { CameFrom hall.now alice.new }
    ensures bob { CameFrom hall.now bob.new }
{
    let desk = guest_of(alloc, b"alice", b"desk")?;
    let home = guest_of(alloc, b"bob", b"home")?;
    let id = id_of(alloc)?;
    let stanza = stanza_of(alloc)?;
    let first = come(rt, hall, alice, &desk.user, Some(&desk.resource), &id);
    let second = come(rt, hall, bob, &home.user, Some(&home.resource), &id);
    let bound = hall.pull(rt, bob, 0, out);
    out.clear();
    let handed = hand_on(rt, hall, alice, bob, &stanza, out);
    Ok(first && second && bound == Ok(Reply::Frame) && handed)
}

fn closed(alloc: Global, hall: Hall, first: Pass, second: Pass) -> Result<House, Fail>
    requires first { CameFrom hall first }
    requires second { CameFrom hall second }
    requires all { lines_of hall ≡ 2 }
{
    let passes = Vec::from_array(alloc, [first, second])?;
    Ok(hall.close(passes))
}

#[test]
fn what_one_pass_sends_another_takes(rt: HostRuntime) -> Result<(), Fail> {
    let alloc = rt.alloc();
    let mut out = Vec::with_capacity(alloc, ROOM)?;
    let (hall, mut alice, mut bob) = two_passes(alloc)?;
    let sent = meet(&rt, alloc, &hall, &mut alice, &mut bob, &mut out)?;
    let house = closed(alloc, hall, alice, bob)?;
    assert!(rt; sent);
    assert!(rt; out.as_slice() == MESSAGE);
    assert_eq!(rt; house.turns(), 9);
    Ok(())
}

// The last two passes, which are taken out.
fn last_two(hall: &Hall, passes: &mut Vec<Pass>) -> Option<(Pass, Pass)>
    requires { All (CameFrom hall.now) passes.old.items }
    ensures first { IfSome result (λ r. CameFrom hall.now r.0) }
    ensures second { IfSome result (λ r. CameFrom hall.now r.1) }
    ensures rest { All (CameFrom hall.now) passes.new.items }
{
    match (passes.pop(), passes.pop()) {
        (Some(last), Some(before)) => Some((before, last)),
        _ => None,
    }
}

// A hall of four lines, and the passes of the first and of the last two.
fn three_passes(alloc: Global) -> Result<(Hall, Pass, Pass, Pass), Fail>
    ensures first { IfOk result (λ r. CameFrom r.0 r.1) }
    ensures third { IfOk result (λ r. CameFrom r.0 r.2) }
    ensures fourth { IfOk result (λ r. CameFrom r.0 r.3) }
{
    let (hall, mut passes) = hall_of(alloc, 4)?;
    let Some((third, fourth)) = last_two(&hall, &mut passes) else {
        return Err(Fail::new("the last passes"));
    };
    let Some((first, _second)) = last_two(&hall, &mut passes) else {
        return Err(Fail::new("the first passes"));
    };
    Ok((hall, first, third, fourth))
}

// The lines that were stirred since this was last asked, at most two of them.
fn stirred(hall: &Hall) -> (Option<u32>, Option<u32>) {
    (hall.next_stirred(), hall.next_stirred())
}

// So many stanzas are sent. Whether each was acted on.
fn send<W: Wait>(rt: &W, hall: &Hall, pass: &mut Pass, stanza: &Stanza, times: u32) -> bool
    requires pass { CameFrom hall.now pass.old }
    requires fits { StanzaFits stanza.now }
    ensures { CameFrom hall.now pass.new }
{
    let mut done = true;
    for _number in 0..times {
        done = done && hall.act(rt, pass, stanza, 0) == Ok(Reply::Done);
    }
    done
}

// The client of a user asks for a session at another line. Whether it goes on there.
fn go_on<W: Wait>(rt: &W, hall: &Hall, pass: &mut Pass, user: &Part, id: &ResumeId) -> bool
    requires pass { CameFrom hall.now pass.old }
    ensures { CameFrom hall.now pass.new }
{
    let opened = hall.open_line(rt, pass);
    let logged = hall.login(rt, pass, user);
    let resumed = hall.resume(rt, pass, Some(id), 0, 0);
    opened.is_ok() && logged == Ok(Reply::Done) && resumed == Ok(Reply::Resumed)
}

// Alice at line 0 sends Bob at line 3 something; Bob goes on at line 2, which is over once more waits for him than may.
fn stir<W: Wait>(
    rt: &W,
    alloc: Global,
    hall: &Hall,
    alice: &mut Pass,
    third: &mut Pass,
    bob: &mut Pass,
) -> Result<bool, Fail>
    requires alice { CameFrom hall.now alice.old }
    requires third { CameFrom hall.now third.old }
    requires bob { CameFrom hall.now bob.old }
{
    let desk = guest_of(alloc, b"alice", b"desk")?;
    let home = guest_of(alloc, b"bob", b"home")?;
    let id = id_of(alloc)?;
    let stanza = stanza_of(alloc)?;
    let came = come(rt, hall, alice, &desk.user, Some(&desk.resource), &id)
        && come(rt, hall, bob, &home.user, Some(&home.resource), &id);
    let counted = hall.enable(rt, bob, true, [7; 16]) == Ok(Reply::Done);
    let first = stirred(hall) == (None, None);
    let sent = send(rt, hall, alice, &stanza, 1) && stirred(hall) == (Some(3), None);
    let session = ResumeId {
        session: 2,
        digits: [7; 16],
    };
    let moved = go_on(rt, hall, third, &home.user, &session) && stirred(hall) == (Some(3), None);
    let full = send(rt, hall, alice, &stanza, 4999) && stirred(hall) == (Some(2), None);
    let over = send(rt, hall, alice, &stanza, 1) && stirred(hall) == (Some(2), None);
    Ok(came && counted && first && sent && moved && full && over)
}

#[test]
fn a_turn_stirs_the_line_that_it_gives_something(rt: HostRuntime) -> Result<(), Fail> {
    let alloc = rt.alloc();
    let (hall, mut alice, mut third, mut bob) = three_passes(alloc)?;
    assert!(rt; stir(&rt, alloc, &hall, &mut alice, &mut third, &mut bob)?);
    Ok(())
}
