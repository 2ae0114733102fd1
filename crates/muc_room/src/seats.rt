//! Who is in a room, and what it is to the room.
ghost use Rattle.std.specs.Prelude.{◌≡◌, nat_le, IfOk};
ghost use Rattle.std.specs.Option.{option_copied};
ghost use Rattle.muc_room.specs.Entering.{most_seats};
ghost use Rattle.muc_room.specs.Seats.{address_by, affiliation_in, affiliation_of, has_nick, has_seat, holder_of, known_of, occupant_of, seat_count};
ghost use Rattle.muc_room.specs.Seats.{seat_of, sessions_of, spoken_from};

use jid_core::{Jid, Part};
use stanza_model::{Affiliated, Affiliation, Here, Occupant, Room, Seat};
use stanza_tree::NoMemory;
use std::alloc::Global;

/// The most sessions of a room.
const MOST_SEATS: usize = 256;

/// Whether a session is this occupant.
pub fn has_seat(session: u64, occupant: &Occupant) -> bool
    ensures { result ≡ has_seat session occupant.now }
{
    occupant
        .seats
        .slice()
        .iter()
        .any(|seat| seat.session == session)
}

/// The occupant that a session is.
pub fn occupant_of(session: u64, occupants: &[Occupant]) -> Option<&Occupant>
    ensures { option_copied result ≡ occupant_of session occupants.now }
{
    occupants.iter().find(|o| has_seat(session, o))
}

/// Whether an occupant has this nick.
pub fn has_nick(nick: &Part, occupant: &Occupant) -> bool
    ensures { result ≡ has_nick nick.now occupant.now }
{
    occupant.nick.bytes() == nick.bytes()
}

/// The occupant that has a nick.
pub fn holder_of<'a>(nick: &Part, occupants: &'a [Occupant]) -> Option<&'a Occupant>
    ensures { option_copied result ≡ holder_of nick.now occupants.entry.now }
{
    occupants.iter().find(|o| has_nick(nick, o))
}

/// What is known of an address's user.
fn known_of<'a>(address: &Jid, known: &'a [Affiliated]) -> Option<&'a Affiliated>
    ensures { option_copied result ≡ known_of address.now known.entry.now }
{
    known.iter().find(|x| x.address.is_same_bare(address))
}

/// The affiliation of an address's user.
pub fn affiliation_of(address: &Jid, known: &[Affiliated]) -> Affiliation
    ensures { result ≡ affiliation_of address.now known.now }
{
    match known_of(address, known) {
        Some(x) => x.affiliation,
        None => Affiliation::Neither,
    }
}

/// What the user of a session is to the room.
pub(crate) fn affiliation_in(room: &Room, who: &Here) -> Affiliation
    ensures { result ≡ affiliation_in room.now who.now }
{
    affiliation_of(&who.address, room.affiliations.slice())
}

pub fn sessions_of(alloc: Global, occupant: &Occupant) -> Result<Vec<u64>, NoMemory>
    ensures { IfOk result (λ sessions. sessions.items ≡ sessions_of occupant.now) }
{
    let mut sessions = Vec::new(alloc);
    for seat in occupant.seats.slice() {
        sessions.push(seat.session)?;
    }
    Ok(sessions)
}

fn seat_of(session: u64, seats: &[Seat]) -> Option<&Seat>
    ensures { option_copied result ≡ seat_of session seats.now }
{
    seats.iter().find(|seat| seat.session == session)
}

/// The address of a session of the occupant, or else the other one.
pub(crate) fn address_of<'a>(other: &'a Jid, session: u64, occupant: &'a Occupant) -> &'a Jid
    ensures { result.now ≡ address_by other.entry.now (seat_of session occupant.entry.now.seats) }
{
    match seat_of(session, occupant.seats.slice()) {
        Some(seat) => &seat.address,
        None => other,
    }
}

/// The address of the session whose presence is shown of the occupant, which has a seat; else the other address.
pub fn spoken_from<'a>(other: &'a Jid, occupant: &'a Occupant) -> &'a Jid
    ensures { result.now ≡ spoken_from other.entry.now occupant.entry.now }
{
    address_of(other, occupant.spoke, occupant)
}

/// Whether the room has as many sessions as it may have.
pub(crate) fn has_all_seats(occupants: &[Occupant]) -> bool
    ensures { result ≡ nat_le most_seats (seat_count occupants.now) }
{
    let mut count = 0usize;
    for occupant in occupants {
        count = count.saturating_add(occupant.seats.slice().len());
    }
    count >= MOST_SEATS
}
