//! The rooms that the rules on stanzas see, and how they see them (XEP-0045).
ghost use Rattle.std.specs.Prelude.{◌≡◌, ◌^◌, ◌+◌, IfOk, OnOk};
ghost use Rattle.std.specs.Option.{option_and_then, option_copied};
ghost use Rattle.contact_table.specs.Books.{local_user};
ghost use Rattle.muc_owner.specs.Invitations.{invitation_of};
ghost use Rattle.muc_room.specs.Seats as muc;
ghost use Rattle.muc_service.specs.Rooms.{is_in};
ghost use Rattle.house_model.specs.Presences.{available_of};
ghost use Rattle.house_model.specs.RoomLookups.{available_if, called, listed, listed_as, numbers_for, placed, room_for, rooms_of, stay_by, stay_in};
ghost use Rattle.house_routing.specs.Placings.{place_in};
ghost use Rattle.house_world.specs.Hosting.{AreHosted};
ghost use Rattle.house_world.specs.Wholes.{IsTied};
ghost use Rattle.house_world.specs.Worlds.{seen};

use crate::listing::sessions_of;
use contact_table::local_user;
use house_world::World;
use jid_core::{Jid, Part};
use muc_owner::{invitation_of, x_in};
use muc_room::{Numbers, copy_config, occupant_of};
use muc_service::Hosted;
use stanza_model::{Here, Seat};
use stanza_router::Listed;
use stanza_tree::{Element, NoMemory};
use std::alloc::Global;

/// The room of an address, whatever the nick.
pub(crate) fn room_for<'a>(world: &'a World, to: Option<&Jid>) -> Option<&'a Hosted>
    ensures { option_copied result ≡ room_for world.now.rooms (option_copied to.entry) }
{
    match to {
        Some(to) => world.rooms.hosted_at(to),
        None => None,
    }
}

/// What the rules on entering a room read of the others.
pub(crate) fn numbers_for(world: &World, s: u64) -> Numbers
    requires hosted { AreHosted (2 ^ 63 + 2 ^ 62) world.now.rooms }
    ensures { result ≡ numbers_for world.now.rooms s }
{
    Numbers {
        rooms: world.rooms.count(),
        mine: world.rooms.entered_by(s),
        next_room: world.rooms.made() + 1,
        next_stay: world.rooms.stays() + 1,
    }
}

// The rooms that are told of.

fn listed_as(alloc: Global, h: &Hosted) -> Result<Listed, NoMemory>
    ensures { IfOk result (λ x. x ≡ listed_as h.now) }
{
    let room = h.room();
    Ok(Listed {
        address: room.address.copy(alloc)?,
        title: room.config.title.copy(alloc)?,
        config: copy_config(alloc, &room.config)?,
    })
}

/// The rooms that the service lists, in the order of making; one that isn't configured yet isn't among them (XEP-0045, 6.3).
pub(crate) fn listed(world: &World, alloc: Global) -> Result<Vec<Listed>, NoMemory>
    ensures { IfOk result (λ found. found.items ≡ listed world.now.rooms) }
{
    let mut found = Vec::new(alloc);
    for h in world.rooms.hosted() {
        if !h.room().locked {
            found.push(listed_as(alloc, h)?)?;
        }
    }
    Ok(found)
}

// Those who are invited.

/// The available sessions of a user.
fn available_of(world: &World, alloc: Global, user: &Part) -> Result<Vec<Here>, NoMemory>
    requires tied { IsTied world.now.table }
    ensures { IfOk result (λ found. found.items ≡ available_of (seen world.now) user.now) }
{
    let mut found = sessions_of(world, alloc, user)?;
    found.retain(|h| h.available);
    Ok(found)
}

fn available_if(world: &World, alloc: Global, user: Option<&Part>) -> Result<Vec<Here>, NoMemory>
    requires tied { IsTied world.now.table }
    ensures { IfOk result (λ found. found.items ≡ available_if (seen world.now) (option_copied user.entry)) }
{
    match user {
        Some(user) => available_of(world, alloc, user),
        None => Ok(Vec::new(alloc)),
    }
}

/// Those whom an `x` is for.
fn called_by(
    world: &World,
    alloc: Global,
    domain: &Part,
    x: &Element,
) -> Result<Vec<Here>, NoMemory>
    requires tied { IsTied world.now.table }
    ensures { IfOk result (λ found. found.items
        ≡ available_if (seen world.now) (option_and_then (λ i. local_user domain.now i.address) (invitation_of x.now))) }
{
    match invitation_of(alloc, x)? {
        Some(invitation) => { available_if(world, alloc, local_user(domain, &invitation.address)) }
        None => Ok(Vec::new(alloc)),
    }
}

/// The available sessions of the user who is invited, or is told that an invitation is declined (XEP-0045, 7.8.2).
pub(crate) fn called(
    world: &World,
    alloc: Global,
    domain: &Part,
    message: &Element,
) -> Result<Vec<Here>, NoMemory>
    requires tied { IsTied world.now.table }
    ensures { IfOk result (λ found. found.items ≡ called domain.now (seen world.now) message.now) }
{
    match x_in(message) {
        Some(x) => called_by(world, alloc, domain, x),
        None => Ok(Vec::new(alloc)),
    }
}

// The rooms of a session.

fn seat_of(s: u64, seats: &[Seat]) -> Option<&Seat>
    ensures { option_copied result ≡ muc.seat_of s seats.now }
{
    seats.iter().find(|seat| seat.session == s)
}

fn stay_by(seat: Option<&Seat>) -> u64
    ensures { result ≡ stay_by (option_copied seat.entry) }
{
    match seat {
        Some(seat) => seat.stay,
        None => 0,
    }
}

/// The number of a session's stay in a room.
fn stay_in(s: u64, h: &Hosted) -> u64
    ensures { result ≡ stay_in s h.now }
{
    match occupant_of(s, h.room().occupants.slice()) {
        Some(occupant) => stay_by(seat_of(s, occupant.seats.slice())),
        None => 0,
    }
}

/// Whether a session is in a room.
pub(crate) fn is_in(s: u64, h: &Hosted) -> bool
    ensures { result ≡ is_in s h.now }
{
    occupant_of(s, h.room().occupants.slice()).is_some()
}

/// How many of these rooms the session entered before this stay.
fn place_in(s: u64, stay: u64, rooms: &[Hosted]) -> usize
    ensures { result ≡ place_in s stay rooms.now }
{
    let mut place = 0;
    for h in rooms {
        if stay_in(s, h) >= stay {
            return place;
        }
        place += 1;
    }
    place
}

/// Puts a room before those that the session entered later.
fn put(s: u64, h: &Hosted, rooms: &mut Vec<Hosted>) -> Result<(), NoMemory>
    ensures { OnOk result (rooms.new.items ≡ placed s h.now rooms.old.items) }
{
    let place = place_in(s, stay_in(s, h), rooms.as_slice());
    rooms.insert(place, h.copy()?)?;
    Ok(())
}

/// The rooms that a session is in, in the order of entering. Costs a look at each room.
pub(crate) fn rooms_of(world: &World, alloc: Global, s: u64) -> Result<Vec<Hosted>, NoMemory>
    ensures { IfOk result (λ found. found.items ≡ rooms_of s world.now.rooms) }
{
    let hosted = world.rooms.hosted();
    let mut found = Vec::new(alloc);
    for i in (0..hosted.len()).rev() {
        let h = &hosted[i];
        if is_in(s, h) {
            put(s, h, &mut found)?;
        }
    }
    Ok(found)
}
