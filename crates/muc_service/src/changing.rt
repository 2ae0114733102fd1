//! The change of one room among all, and of what is counted (XEP-0045, 5 to 10).
ghost use Rattle.std.specs.Prelude.{◌≡◌, ◌==◌, ◌<◌, ◌+◌, ◌^◌, not, IfOk, OnOk};
ghost use Rattle.std.specs.List.{filter, position};
ghost use Rattle.muc_service.specs.Changing.{most_items, set_in};
ghost use Rattle.muc_service.specs.Rooms.{changed_in, configured, counted_in, enters, has_subject, leaves, made_room};

use crate::hosted::Hosted;
use crate::seating::{enters, leaves, renames, shows};
use jid_core::{Jid, Part};
use muc_room::{copy_config, copy_room, default_config, set_affiliation, set_role};
use stanza_model::{Affiliated, Affiliation, Change, Config, Delayed, Role, Room, Seat};
use stanza_tree::{NoMemory, Several, Text};
use std::alloc::Global;

fn configured(alloc: Global, room: &mut Room, config: &Config) -> Result<(), NoMemory>
    ensures { OnOk result (room.new ≡ configured config.now room.old) }
{
    room.config = copy_config(alloc, config)?;
    Ok(())
}

fn has_subject(alloc: Global, room: &mut Room, text: &Text, stamp: &Text) -> Result<(), NoMemory>
    ensures { OnOk result (room.new ≡ has_subject text.now stamp.now room.old) }
{
    let text = text.copy(alloc)?;
    let stamp = stamp.copy(alloc)?;
    room.subject = Some(Delayed { text, stamp });
    Ok(())
}

/// What is set in a room.
fn set_in(alloc: Global, change: &Change, room: &mut Room) -> Result<(), NoMemory>
    ensures { OnOk result (room.new ≡ set_in change.now room.old) }
{
    match change {
        Change::Unlocked { .. } => {
            room.locked = false;
            Ok(())
        }
        Change::Configured { config, .. } => configured(alloc, room, config),
        Change::Affiliated {
            address,
            affiliation,
            ..
        } => set_affiliation(alloc, room, address, *affiliation),
        Change::RoleSet { session, role, .. } => set_role(alloc, room, *session, *role),
        Change::Renamed { session, nick, .. } => renames(alloc, room, *session, nick),
        Change::OccupantShown {
            session,
            presence,
            ..
        } => shows(alloc, room, *session, presence),
        Change::Subject { text, stamp, .. } => has_subject(alloc, room, text, stamp),
        _ => Ok(()),
    }
}

fn place_of(n: u64, hosted: &[Hosted]) -> Option<usize>
    ensures { result ≡ position (λ h. h.room.number == n) hosted.now }
{
    hosted.iter().position(|h| h.room().number == n)
}

/// A session enters the room at a place.
fn enter_at(
    alloc: Global,
    seat: &Seat,
    nick: &Part,
    role: Role,
    h: &mut Hosted,
) -> Result<(), NoMemory>
    ensures { OnOk result (h.new ≡ record h.old { room = enters seat.now nick.now role h.old.room }) }
{
    let mut room = copy_room(alloc, h.room())?;
    enters(alloc, &mut room, seat, nick, role)?;
    h.set_room(alloc, room)
}

/// A session enters the room of this number, if it is one of these.
pub(crate) fn enter(
    alloc: Global,
    n: u64,
    seat: &Seat,
    nick: &Part,
    role: Role,
    hosted: &mut Vec<Hosted>,
) -> Result<(), NoMemory>
    ensures { OnOk result (hosted.new.items ≡ changed_in n (enters seat.now nick.now role) hosted.old.items) }
{
    if let Some(place) = place_of(n, hosted.as_slice()) {
        enter_at(alloc, seat, nick, role, &mut hosted[place])?;
    }
    Ok(())
}

/// A session leaves the room at a place.
fn leave_at(alloc: Global, session: u64, h: &mut Hosted) -> Result<(), NoMemory>
    ensures { OnOk result (h.new ≡ record h.old { room = leaves session h.old.room }) }
{
    let mut room = copy_room(alloc, h.room())?;
    leaves(alloc, &mut room, session)?;
    h.set_room(alloc, room)
}

/// A session leaves the room of this number, if it is one of these.
pub(crate) fn leave(
    alloc: Global,
    n: u64,
    session: u64,
    hosted: &mut Vec<Hosted>,
) -> Result<(), NoMemory>
    ensures { OnOk result (hosted.new.items ≡ changed_in n (leaves session) hosted.old.items) }
{
    if let Some(place) = place_of(n, hosted.as_slice()) {
        leave_at(alloc, session, &mut hosted[place])?;
    }
    Ok(())
}

/// What is set in the room at a place.
fn set_at(alloc: Global, change: &Change, h: &mut Hosted) -> Result<(), NoMemory>
    ensures { OnOk result (h.new ≡ record h.old { room = set_in change.now h.old.room }) }
{
    let mut room = copy_room(alloc, h.room())?;
    set_in(alloc, change, &mut room)?;
    h.set_room(alloc, room)
}

/// What is set in the room of this number, if it is one of these.
pub(crate) fn set(
    alloc: Global,
    n: u64,
    change: &Change,
    hosted: &mut Vec<Hosted>,
) -> Result<(), NoMemory>
    ensures { OnOk result (hosted.new.items ≡ changed_in n (set_in change.now) hosted.old.items) }
{
    if let Some(place) = place_of(n, hosted.as_slice()) {
        set_at(alloc, change, &mut hosted[place])?;
    }
    Ok(())
}

/// The room of this number has broadcast one item more.
pub(crate) fn count(n: u64, hosted: &mut Vec<Hosted>)
    requires { most_items hosted.old.items + 1 < 2 ^ 128 }
    ensures { hosted.new.items ≡ counted_in n hosted.old.items }
{
    if let Some(place) = place_of(n, hosted.as_slice()) {
        hosted[place].count();
    }
}

/// The room of this number is there no more.
pub(crate) fn remove(n: u64, hosted: &mut Vec<Hosted>)
    ensures { hosted.new.items ≡ filter (λ h. not (h.room.number == n)) hosted.old.items }
{
    hosted.retain(|h| h.room().number != n);
}

/// A room as it is made (XEP-0045, 10.1).
pub(crate) fn made_room(
    alloc: Global,
    number: u64,
    address: &Jid,
    owner: &Jid,
) -> Result<Room, NoMemory>
    ensures { IfOk result (λ r. r ≡ made_room number address.now owner.now) }
{
    let mut affiliations = Vec::new(alloc);
    affiliations.push(Affiliated {
        address: owner.copy(alloc)?,
        affiliation: Affiliation::Owner,
    })?;
    Ok(Room {
        number,
        address: address.copy(alloc)?,
        config: default_config(alloc),
        locked: true,
        affiliations: Several::of(affiliations),
        occupants: Several::of(Vec::new(alloc)),
        subject: None,
    })
}
