//! Sessions that enter a room, leave it, and change their nick and their presence there (XEP-0045, 7.2, 7.6, 7.7 and 7.14).
ghost use Rattle.std.specs.Prelude.{◌≡◌, ◌==◌, [], map, not, IfOk, OnOk, if◌then◌else◌};
ghost use Rattle.std.specs.List.{filter, list_any};
ghost use Rattle.muc_room.specs.Seats.{has_nick};
ghost use Rattle.muc_service.specs.Rooms.{enters, first_or, has_seats, joined_if, leaves, newcomer, renamed_if, renames, shown_if, shows, without_seat};

use jid_core::Part;
use muc_room::{affiliation_of, copy_seat, has_nick, has_seat};
use stanza_model::{Occupant, Role, Room, Seat};
use stanza_tree::{NoMemory, Several, Text};
use std::alloc::Global;
use std::mem;

/// Takes the occupants out of a room, to be changed and put back.
fn taken(alloc: Global, room: &mut Room) -> Vec<Occupant>
    ensures occupants { result.items ≡ room.old.occupants }
    ensures rest { room.new ≡ record room.old { occupants = [] } }
{
    mem::replace(&mut room.occupants, Several::of(Vec::new(alloc))).into_vec()
}

// Entering.

fn join_if(alloc: Global, seat: &Seat, nick: &Part, occupant: &mut Occupant) -> Result<(), NoMemory>
    ensures { OnOk result (occupant.new ≡ joined_if seat.now nick.now occupant.old) }
{
    if has_nick(nick, occupant) {
        let mut seats = mem::replace(&mut occupant.seats, Several::of(Vec::new(alloc))).into_vec();
        seats.push(copy_seat(alloc, seat)?)?;
        occupant.seats = Several::of(seats);
    }
    Ok(())
}

fn join_all(
    alloc: Global,
    seat: &Seat,
    nick: &Part,
    occupants: Vec<Occupant>,
) -> Result<Vec<Occupant>, NoMemory>
    ensures { IfOk result (λ v. v.items ≡ map (joined_if seat.now nick.now) occupants.items) }
{
    let mut all = Vec::new(alloc);
    for mut occupant in occupants {
        join_if(alloc, seat, nick, &mut occupant)?;
        all.push(occupant)?;
    }
    Ok(all)
}

fn newcomer(
    alloc: Global,
    room: &Room,
    seat: &Seat,
    nick: &Part,
    role: Role,
) -> Result<Occupant, NoMemory>
    ensures { IfOk result (λ o. o ≡ newcomer room.now seat.now nick.now role) }
{
    let mut seats = Vec::new(alloc);
    seats.push(copy_seat(alloc, seat)?)?;
    Ok(Occupant {
        seats: Several::of(seats),
        nick: nick.copy(alloc)?,
        affiliation: affiliation_of(&seat.address, room.affiliations.slice()),
        role,
        presence: Text::empty(alloc),
        spoke: seat.session,
    })
}

/// Whether an occupant has this nick.
fn is_held(nick: &Part, occupants: &[Occupant]) -> bool
    ensures { result ≡ list_any (has_nick nick.now) occupants.now }
{
    occupants.iter().any(|o| has_nick(nick, o))
}

/// A session enters: a seat more of the occupant that has its nick, or an occupant more (XEP-0045, 7.2).
pub(crate) fn enters(
    alloc: Global,
    room: &mut Room,
    seat: &Seat,
    nick: &Part,
    role: Role,
) -> Result<(), NoMemory>
    ensures { OnOk result (room.new ≡ enters seat.now nick.now role room.old) }
{
    if is_held(nick, room.occupants.slice()) {
        let occupants = taken(alloc, room);
        room.occupants = Several::of(join_all(alloc, seat, nick, occupants)?);
        return Ok(());
    }
    let occupant = newcomer(alloc, room, seat, nick, role)?;
    let mut occupants = taken(alloc, room);
    occupants.push(occupant)?;
    room.occupants = Several::of(occupants);
    Ok(())
}

// Leaving.

fn first_or(session: u64, seats: &[Seat]) -> u64
    ensures { result ≡ first_or session seats.now }
{
    match seats.first() {
        Some(seat) => seat.session,
        None => session,
    }
}

/// The session whose presence is shown, once one has left and these seats are there.
fn spoke_after(session: u64, spoke: u64, left: &[Seat]) -> u64
    ensures { result ≡ (if spoke == session then first_or spoke left.now else spoke) }
{
    if spoke == session {
        first_or(spoke, left)
    } else {
        spoke
    }
}

fn drop_seat(session: u64, seats: &mut Vec<Seat>)
    ensures { seats.new.items ≡ filter (λ seat. not (seat.session == session)) seats.old.items }
{
    seats.retain(|seat| seat.session != session);
}

fn leave_seat(alloc: Global, session: u64, occupant: &mut Occupant)
    ensures { occupant.new ≡ without_seat session occupant.old }
{
    let mut seats = mem::replace(&mut occupant.seats, Several::of(Vec::new(alloc))).into_vec();
    drop_seat(session, &mut seats);
    occupant.spoke = spoke_after(session, occupant.spoke, seats.as_slice());
    occupant.seats = Several::of(seats);
}

fn has_seats(occupant: &Occupant) -> bool
    ensures { result ≡ has_seats occupant.now }
{
    occupant.seats.slice().len() != 0
}

fn leave_all(
    alloc: Global,
    session: u64,
    occupants: Vec<Occupant>,
) -> Result<Vec<Occupant>, NoMemory>
    ensures { IfOk result (λ v. v.items ≡ filter has_seats (map (without_seat session) occupants.items)) }
{
    let mut kept = Vec::new(alloc);
    for mut occupant in occupants {
        leave_seat(alloc, session, &mut occupant);
        if has_seats(&occupant) {
            kept.push(occupant)?;
        }
    }
    Ok(kept)
}

/// A session leaves, and with its last one the occupant (XEP-0045, 7.14).
pub(crate) fn leaves(alloc: Global, room: &mut Room, session: u64) -> Result<(), NoMemory>
    ensures { OnOk result (room.new ≡ leaves session room.old) }
{
    let occupants = taken(alloc, room);
    room.occupants = Several::of(leave_all(alloc, session, occupants)?);
    Ok(())
}

// Nicks and presence.

fn rename_if(
    alloc: Global,
    session: u64,
    nick: &Part,
    occupant: &mut Occupant,
) -> Result<(), NoMemory>
    ensures { OnOk result (occupant.new ≡ renamed_if session nick.now occupant.old) }
{
    if has_seat(session, occupant) {
        occupant.nick = nick.copy(alloc)?;
    }
    Ok(())
}

fn rename_all(
    alloc: Global,
    session: u64,
    nick: &Part,
    occupants: Vec<Occupant>,
) -> Result<Vec<Occupant>, NoMemory>
    ensures { IfOk result (λ v. v.items ≡ map (renamed_if session nick.now) occupants.items) }
{
    let mut all = Vec::new(alloc);
    for mut occupant in occupants {
        rename_if(alloc, session, nick, &mut occupant)?;
        all.push(occupant)?;
    }
    Ok(all)
}

/// The occupant that this session is has this nick (XEP-0045, 7.6).
pub(crate) fn renames(
    alloc: Global,
    room: &mut Room,
    session: u64,
    nick: &Part,
) -> Result<(), NoMemory>
    ensures { OnOk result (room.new ≡ renames session nick.now room.old) }
{
    let occupants = taken(alloc, room);
    room.occupants = Several::of(rename_all(alloc, session, nick, occupants)?);
    Ok(())
}

fn show_if(
    alloc: Global,
    session: u64,
    presence: &Text,
    occupant: &mut Occupant,
) -> Result<(), NoMemory>
    ensures { OnOk result (occupant.new ≡ shown_if session presence.now occupant.old) }
{
    if has_seat(session, occupant) {
        occupant.presence = presence.copy(alloc)?;
        occupant.spoke = session;
    }
    Ok(())
}

fn show_all(
    alloc: Global,
    session: u64,
    presence: &Text,
    occupants: Vec<Occupant>,
) -> Result<Vec<Occupant>, NoMemory>
    ensures { IfOk result (λ v. v.items ≡ map (shown_if session presence.now) occupants.items) }
{
    let mut all = Vec::new(alloc);
    for mut occupant in occupants {
        show_if(alloc, session, presence, &mut occupant)?;
        all.push(occupant)?;
    }
    Ok(all)
}

/// The occupant that this session is is shown by the presence that this session sent (XEP-0045, 7.7).
pub(crate) fn shows(
    alloc: Global,
    room: &mut Room,
    session: u64,
    presence: &Text,
) -> Result<(), NoMemory>
    ensures { OnOk result (room.new ≡ shows session presence.now room.old) }
{
    let occupants = taken(alloc, room);
    room.occupants = Several::of(show_all(alloc, session, presence, occupants)?);
    Ok(())
}
