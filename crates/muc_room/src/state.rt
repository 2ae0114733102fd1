//! A room that is copied, and what becomes of it by a change (XEP-0045, 5.1, 5.2 and 7.14).
ghost use Rattle.std.specs.Prelude.{◌≡◌, map, not, IfOk, OnOk};
ghost use Rattle.std.specs.List.{filter};
ghost use Rattle.muc_room.specs.Seats.{has_seat};
ghost use Rattle.muc_room.specs.States.{affiliated_if, is_listed, is_of, others, role_if, set_affiliation, set_role};
ghost use Rattle.muc_room.specs.States.{with_affiliation, without_occupant};

use crate::seats::has_seat;
use jid_core::Jid;
use stanza_model::{Affiliated, Affiliation, Config, Delayed, Occupant, Role, Room, Seat};
use stanza_tree::{NoMemory, Several};
use std::alloc::Global;

/// Another configuration that is the same.
pub fn copy_config(alloc: Global, config: &Config) -> Result<Config, NoMemory>
    ensures { IfOk result (λ c. c ≡ config.now) }
{
    Ok(Config {
        persistent: config.persistent,
        members_only: config.members_only,
        moderated: config.moderated,
        anyone: config.anyone,
        secret: config.secret.copy(alloc)?,
        max: config.max,
        title: config.title.copy(alloc)?,
        change_subject: config.change_subject,
    })
}

fn copy_affiliated(alloc: Global, known: &Affiliated) -> Result<Affiliated, NoMemory>
    ensures { IfOk result (λ x. x ≡ known.now) }
{
    Ok(Affiliated {
        address: known.address.copy(alloc)?,
        affiliation: known.affiliation,
    })
}

fn copy_affiliations(alloc: Global, known: &[Affiliated]) -> Result<Vec<Affiliated>, NoMemory>
    ensures { IfOk result (λ v. v.items ≡ known.now) }
{
    let mut copies = Vec::new(alloc);
    for x in known {
        copies.push(copy_affiliated(alloc, x)?)?;
    }
    Ok(copies)
}

/// Another seat that is the same.
pub fn copy_seat(alloc: Global, seat: &Seat) -> Result<Seat, NoMemory>
    ensures { IfOk result (λ s. s ≡ seat.now) }
{
    Ok(Seat {
        session: seat.session,
        address: seat.address.copy(alloc)?,
        stay: seat.stay,
    })
}

fn copy_seats(alloc: Global, seats: &[Seat]) -> Result<Vec<Seat>, NoMemory>
    ensures { IfOk result (λ v. v.items ≡ seats.now) }
{
    let mut copies = Vec::new(alloc);
    for seat in seats {
        copies.push(copy_seat(alloc, seat)?)?;
    }
    Ok(copies)
}

/// A copy of an occupant, with this affiliation and this role.
fn occupant_as(
    alloc: Global,
    occupant: &Occupant,
    affiliation: Affiliation,
    role: Role,
) -> Result<Occupant, NoMemory>
    ensures { IfOk result (λ o. o ≡ record occupant.now { affiliation = affiliation; role = role }) }
{
    Ok(Occupant {
        seats: Several::of(copy_seats(alloc, occupant.seats.slice())?),
        nick: occupant.nick.copy(alloc)?,
        affiliation,
        role,
        presence: occupant.presence.copy(alloc)?,
        spoke: occupant.spoke,
    })
}

fn copy_occupant(alloc: Global, occupant: &Occupant) -> Result<Occupant, NoMemory>
    ensures { IfOk result (λ o. o ≡ occupant.now) }
{
    occupant_as(alloc, occupant, occupant.affiliation, occupant.role)
}

fn copy_occupants(alloc: Global, occupants: &[Occupant]) -> Result<Vec<Occupant>, NoMemory>
    ensures { IfOk result (λ v. v.items ≡ occupants.now) }
{
    let mut copies = Vec::new(alloc);
    for occupant in occupants {
        copies.push(copy_occupant(alloc, occupant)?)?;
    }
    Ok(copies)
}

fn copy_subject(alloc: Global, subject: &Option<Delayed>) -> Result<Option<Delayed>, NoMemory>
    ensures { IfOk result (λ s. s ≡ subject.now) }
{
    match subject {
        Some(subject) => {
            let stamp = subject.stamp.copy(alloc)?;
            let text = subject.text.copy(alloc)?;
            Ok(Some(Delayed { text, stamp }))
        }
        None => Ok(None),
    }
}

/// Another room that is the same. Costs a copy of all its lists; what its texts share stays shared.
pub fn copy_room(alloc: Global, room: &Room) -> Result<Room, NoMemory>
    ensures { IfOk result (λ r. r ≡ room.now) }
{
    Ok(Room {
        number: room.number,
        address: room.address.copy(alloc)?,
        config: copy_config(alloc, &room.config)?,
        locked: room.locked,
        affiliations: Several::of(copy_affiliations(alloc, room.affiliations.slice())?),
        occupants: Several::of(copy_occupants(alloc, room.occupants.slice())?),
        subject: copy_subject(alloc, &room.subject)?,
    })
}

/// Whether it is an affiliation that a room lists (XEP-0045, 5.2).
pub fn is_listed(affiliation: Affiliation) -> bool
    ensures { result ≡ is_listed affiliation }
{
    !matches!(affiliation, Affiliation::Neither)
}

fn others(alloc: Global, address: &Jid, known: &[Affiliated]) -> Result<Vec<Affiliated>, NoMemory>
    ensures { IfOk result (λ v. v.items ≡ others address.now known.now) }
{
    let mut kept = Vec::new(alloc);
    for x in known {
        if !x.address.is_same_bare(address) {
            kept.push(copy_affiliated(alloc, x)?)?;
        }
    }
    Ok(kept)
}

/// The affiliations of a room once that of a bare address is set: it stands last, or nowhere where it is none.
pub fn with_affiliation(
    alloc: Global,
    address: &Jid,
    affiliation: Affiliation,
    known: &[Affiliated],
) -> Result<Vec<Affiliated>, NoMemory>
    ensures { IfOk result (λ v. v.items ≡ with_affiliation address.now affiliation known.now) }
{
    let mut kept = others(alloc, address, known)?;
    if is_listed(affiliation) {
        kept.push(Affiliated {
            address: address.copy(alloc)?,
            affiliation,
        })?;
    }
    Ok(kept)
}

/// Whether an occupant is of the user of this address.
pub fn is_of(address: &Jid, occupant: &Occupant) -> bool
    ensures { result ≡ is_of address.now occupant.now }
{
    occupant
        .seats
        .slice()
        .iter()
        .any(|seat| seat.address.is_same_bare(address))
}

fn affiliated_if(
    alloc: Global,
    address: &Jid,
    affiliation: Affiliation,
    occupant: &Occupant,
) -> Result<Occupant, NoMemory>
    ensures { IfOk result (λ o. o ≡ affiliated_if address.now affiliation occupant.now) }
{
    if is_of(address, occupant) {
        occupant_as(alloc, occupant, affiliation, occupant.role)
    } else {
        copy_occupant(alloc, occupant)
    }
}

fn affiliated_all(
    alloc: Global,
    address: &Jid,
    affiliation: Affiliation,
    occupants: &[Occupant],
) -> Result<Vec<Occupant>, NoMemory>
    ensures { IfOk result (λ v. v.items ≡ map (affiliated_if address.now affiliation) occupants.now) }
{
    let mut all = Vec::new(alloc);
    for occupant in occupants {
        all.push(affiliated_if(alloc, address, affiliation, occupant)?)?;
    }
    Ok(all)
}

/// The user of this bare address has this affiliation in the room, and so has each occupant that is of it.
pub fn set_affiliation(
    alloc: Global,
    room: &mut Room,
    address: &Jid,
    affiliation: Affiliation,
) -> Result<(), NoMemory>
    ensures { OnOk result (room.new ≡ set_affiliation address.now affiliation room.old) }
{
    let known = with_affiliation(alloc, address, affiliation, room.affiliations.slice())?;
    let occupants = affiliated_all(alloc, address, affiliation, room.occupants.slice())?;
    room.affiliations = Several::of(known);
    room.occupants = Several::of(occupants);
    Ok(())
}

fn role_if(
    alloc: Global,
    session: u64,
    role: Role,
    occupant: &Occupant,
) -> Result<Occupant, NoMemory>
    ensures { IfOk result (λ o. o ≡ role_if session role occupant.now) }
{
    if has_seat(session, occupant) {
        occupant_as(alloc, occupant, occupant.affiliation, role)
    } else {
        copy_occupant(alloc, occupant)
    }
}

fn role_all(
    alloc: Global,
    session: u64,
    role: Role,
    occupants: &[Occupant],
) -> Result<Vec<Occupant>, NoMemory>
    ensures { IfOk result (λ v. v.items ≡ map (role_if session role) occupants.now) }
{
    let mut all = Vec::new(alloc);
    for occupant in occupants {
        all.push(role_if(alloc, session, role, occupant)?)?;
    }
    Ok(all)
}

/// The occupant that this session is has this role.
pub fn set_role(alloc: Global, room: &mut Room, session: u64, role: Role) -> Result<(), NoMemory>
    ensures { OnOk result (room.new ≡ set_role session role room.old) }
{
    let occupants = role_all(alloc, session, role, room.occupants.slice())?;
    room.occupants = Several::of(occupants);
    Ok(())
}

fn all_but(alloc: Global, session: u64, occupants: &[Occupant]) -> Result<Vec<Occupant>, NoMemory>
    ensures { IfOk result (λ v. v.items ≡ filter (λ o. not (has_seat session o)) occupants.now) }
{
    let mut kept = Vec::new(alloc);
    for occupant in occupants {
        if !has_seat(session, occupant) {
            kept.push(copy_occupant(alloc, occupant)?)?;
        }
    }
    Ok(kept)
}

/// The occupant that this session is isn't in the room any more, by none of its sessions.
pub fn without_occupant(alloc: Global, room: &mut Room, session: u64) -> Result<(), NoMemory>
    ensures { OnOk result (room.new ≡ without_occupant session room.old) }
{
    let occupants = all_but(alloc, session, room.occupants.slice())?;
    room.occupants = Several::of(occupants);
    Ok(())
}
