//! Entering a room (XEP-0045, 7.2 and 10.1).
ghost use Rattle.std.specs.Prelude.{◌≡◌, IfOk};
ghost use Rattle.std.specs.Option.{option_copied};
ghost use Rattle.muc_room.specs.Entering.{barred, crowded, default_config, enter, enters, enters_by, is_crowded, is_full, is_mine};
ghost use Rattle.muc_room.specs.Entering.{is_neither, is_taken, lacks_secret, new_room, password_of, refusal};

use crate::entry::entered;
use crate::histories::wanted_of;
use crate::seats::{affiliation_in, has_all_seats, holder_of};
use crate::views::{MUC_SPACE, shown_children};
use jid_core::{Jid, Part};
use muc_roles::{governs, is_outcast, is_owner};
use stanza_model::{
    Affiliated, Affiliation, Condition, Config, Delayed, Effect, Here, Occupant, PresenceForm,
    Room, Stanza, refuse,
};
use stanza_tree::{Element, NoMemory, Several, Text};
use std::alloc::Global;

/// The most rooms that there may be.
const MOST_ROOMS: usize = 256;

/// The most rooms that a session may be in.
const MOST_ENTERED: usize = 50;

/// The most occupants of a room.
const MOST_OCCUPANTS: usize = 256;

/// What the rules on entering have to know of the other rooms.
#[derive(Clone, Copy, Debug, PartialEq, Eq)]
pub struct Numbers {
    /// How many rooms there are.
    pub rooms: usize,
    /// How many of them the session is in.
    pub mine: usize,
    /// The number of the next room that is made.
    pub next_room: u64,
    /// The number of the next stay.
    pub next_stay: u64,
}

/// How a room is configured when it is made (XEP-0045, 10.1.2).
pub fn default_config(alloc: Global) -> Config
    ensures { result ≡ default_config }
{
    Config {
        persistent: false,
        members_only: false,
        moderated: false,
        anyone: false,
        secret: Text::empty(alloc),
        max: 256,
        title: Text::empty(alloc),
        change_subject: false,
    }
}

/// A room that is made by entering it (XEP-0045, 10.1).
fn new_room(alloc: Global, number: u64, to: &Jid, who: &Here) -> Result<Room, NoMemory>
    ensures { IfOk result (λ room. room ≡ new_room number to.now who.now) }
{
    let mut affiliations = Vec::new(alloc);
    affiliations.push(Affiliated {
        address: who.address.bare(alloc)?,
        affiliation: Affiliation::Owner,
    })?;
    Ok(Room {
        number,
        address: to.bare(alloc)?,
        config: default_config(alloc),
        locked: true,
        affiliations: Several::of(affiliations),
        occupants: Several::of(Vec::new(alloc)),
        subject: None,
    })
}

fn is_neither(affiliation: Affiliation) -> bool
    ensures { result ≡ is_neither affiliation }
{
    matches!(affiliation, Affiliation::Neither)
}

/// The words of the password that a presence has (XEP-0045, 7.2.5).
fn password_of(alloc: Global, presence: &Element) -> Result<Text, NoMemory>
    ensures { IfOk result (λ t. t ≡ password_of presence.now) }
{
    let Some(x) = presence.child(MUC_SPACE, b"x") else {
        return Ok(Text::empty(alloc));
    };
    match x.child(MUC_SPACE, b"password") {
        Some(password) => password.words(alloc),
        None => Ok(Text::empty(alloc)),
    }
}

fn lacks_secret(alloc: Global, secret: &Text, presence: &Element) -> Result<bool, NoMemory>
    ensures { IfOk result (λ lacks. lacks ≡ lacks_secret secret.now presence.now) }
{
    if secret.bytes().is_empty() {
        return Ok(false);
    }
    let password = password_of(alloc, presence)?;
    Ok(password.bytes() != secret.bytes())
}

/// Why one of this affiliation may not enter, whatever its nick (XEP-0045, 7.2.4 to 7.2.7).
fn barred(
    alloc: Global,
    room: &Room,
    affiliation: Affiliation,
    presence: &Element,
) -> Result<Option<Condition>, NoMemory>
    ensures { IfOk result (λ c. c ≡ barred room.now affiliation presence.now) }
{
    if room.locked && !is_owner(affiliation) {
        Ok(Some(Condition::ItemNotFound))
    } else if is_outcast(affiliation) {
        Ok(Some(Condition::Forbidden))
    } else if room.config.members_only && is_neither(affiliation) {
        Ok(Some(Condition::RegistrationRequired))
    } else if lacks_secret(alloc, &room.config.secret, presence)? {
        Ok(Some(Condition::NotAuthorized))
    } else {
        Ok(None)
    }
}

/// Whether an occupant is of the same user.
fn is_mine(who: &Here, occupant: &Occupant) -> bool
    ensures { result ≡ is_mine who.now occupant.now }
{
    occupant
        .seats
        .slice()
        .iter()
        .any(|seat| seat.address.is_same_bare(&who.address))
}

fn is_taken(who: &Here, holder: Option<&Occupant>) -> bool
    ensures { result ≡ is_taken who.now (option_copied holder.entry) }
{
    match holder {
        Some(occupant) => !is_mine(who, occupant),
        None => false,
    }
}

/// Whether the room can take no more occupants, but for owners and admins up to the most of any room.
fn is_crowded(room: &Room, affiliation: Affiliation) -> bool
    ensures { result ≡ is_crowded room.now affiliation }
{
    let occupants = room.occupants.slice().len();
    occupants >= MOST_OCCUPANTS || occupants >= room.config.max as usize && !governs(affiliation)
}

fn is_full(room: &Room, affiliation: Affiliation, holder: Option<&Occupant>) -> bool
    ensures { result ≡ is_full room.now affiliation (option_copied holder.entry) }
{
    match holder {
        Some(_) => has_all_seats(room.occupants.slice()),
        None => is_crowded(room, affiliation) || has_all_seats(room.occupants.slice()),
    }
}

/// Why one may not enter under a nick that this occupant has (XEP-0045, 7.2.8 and 7.2.9).
fn crowded(
    room: &Room,
    affiliation: Affiliation,
    numbers: &Numbers,
    who: &Here,
    holder: Option<&Occupant>,
) -> Option<Condition>
    ensures { result ≡ crowded room.now affiliation numbers.now who.now (option_copied holder.entry) }
{
    if is_taken(who, holder) {
        Some(Condition::Conflict)
    } else if numbers.mine >= MOST_ENTERED {
        Some(Condition::ResourceConstraint)
    } else if is_full(room, affiliation, holder) {
        Some(Condition::ServiceUnavailable)
    } else {
        None
    }
}

/// Why a session may not enter under this nick.
fn refusal(
    alloc: Global,
    room: &Room,
    numbers: &Numbers,
    who: &Here,
    presence: &Element,
    nick: &Part,
) -> Result<Option<Condition>, NoMemory>
    ensures { IfOk result (λ c. c ≡ refusal room.now numbers.now who.now presence.now nick.now) }
{
    let affiliation = affiliation_in(room, who);
    match barred(alloc, room, affiliation, presence)? {
        Some(condition) => Ok(Some(condition)),
        None => {
            let holder = holder_of(nick, room.occupants.slice());
            Ok(crowded(room, affiliation, numbers, who, holder))
        }
    }
}

fn enters(
    alloc: Global,
    room: &Room,
    made: bool,
    numbers: &Numbers,
    who: &Here,
    stanza: &Stanza,
    presence: &Element,
    nick: &Part,
    past: &[Delayed],
) -> Result<Vec<Effect>, NoMemory>
    ensures { IfOk result (λ effects. effects.items
        ≡ enters room.now made numbers.now who.now stanza.now presence.now nick.now past.now) }
{
    match refusal(alloc, room, numbers, who, presence, nick)? {
        Some(condition) => refuse(alloc, who, stanza, condition),
        None => {
            let children = shown_children(alloc, presence.children.slice())?;
            let holder = holder_of(nick, room.occupants.slice());
            let past = wanted_of(presence, past);
            entered(
                alloc, room, made, numbers, who, children, nick, holder, past,
            )
        }
    }
}

fn enters_by(
    alloc: Global,
    room: Option<&Room>,
    numbers: &Numbers,
    who: &Here,
    stanza: &Stanza,
    to: &Jid,
    presence: &Element,
    nick: &Part,
    past: &[Delayed],
) -> Result<Vec<Effect>, NoMemory>
    ensures { IfOk result (λ effects. effects.items
        ≡ enters_by (option_copied room.entry) numbers.now who.now stanza.now to.now presence.now nick.now past.now) }
{
    match room {
        Some(room) => enters(
            alloc, room, false, numbers, who, stanza, presence, nick, past,
        ),
        None if numbers.rooms >= MOST_ROOMS => {
            refuse(alloc, who, stanza, Condition::ResourceConstraint)
        }
        None => {
            let room = new_room(alloc, numbers.next_room, to, who)?;
            enters(
                alloc,
                &room,
                true,
                numbers,
                who,
                stanza,
                presence,
                nick,
                &[],
            )
        }
    }
}

/// What comes of available presence to a room and a nick, by a session that has no seat in it (XEP-0045, 7.2). `room` is the room of that
/// address, where it is there, and `past` what was said last in it; else it is made, locked, with the user as its owner. The effects are, in
/// this order: the room is made; each other occupant's presence is queued for the newcomer; it enters, and its presence is broadcast; what
/// was said last is queued, as much as it asks for; the subject is queued. Costs a spelling for each occupant and for each message.
pub fn enter(
    alloc: Global,
    room: Option<&Room>,
    numbers: &Numbers,
    who: &Here,
    stanza: &Stanza,
    past: &[Delayed],
) -> Result<Vec<Effect>, NoMemory>
    ensures { IfOk result (λ effects. effects.items ≡ enter (option_copied room.entry) numbers.now who.now stanza.now past.now) }
{
    let Stanza::Presence {
        to: Some(to),
        form: PresenceForm::Available,
        element,
    } = stanza
    else {
        return Ok(Vec::new(alloc));
    };
    match &to.resource {
        Some(nick) => enters_by(alloc, room, numbers, who, stanza, to, element, nick, past),
        None => refuse(alloc, who, stanza, Condition::JidMalformed),
    }
}
