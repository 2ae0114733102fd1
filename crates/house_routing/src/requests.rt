//! Requests and their answers (RFC 6120, 8.2.3): what the server, the service of rooms and its rooms answer, and what goes to a session.
ghost use Rattle.std.specs.Prelude.{◌≡◌, ℕ, List, [], ◌∷◌, Some, IfOk, true};
ghost use Rattle.std.specs.Option.{option_copied};
ghost use Rattle.stanza_model.specs.Replies.{may_be_answered};
ghost use Rattle.house_model.specs.Requests.{asks_a_room, begins_session, binds_resource, discovers, gets, has_child, pings, queries, sets};
ghost use Rattle.house_model.specs.RoomLookups.{listed};
ghost use Rattle.house_model.specs.Routing.{asked_of, discovered, done, iq, to_room, to_server, to_service, to_session};
ghost use Rattle.house_world.specs.Wholes.{IsTied};
ghost use Rattle.house_world.specs.Worlds.{seen};

use crate::archives::{ARCHIVE_SPACE, archived};
use crate::listing::live_for;
use crate::rooms::{listed, room_for};
use crate::rosters::to_account;
use house_model::Stanza;
use house_world::World;
use jid_core::{Jid, Part};
use muc_admin::admin;
use muc_owner::owner;
use muc_service::Hosted;
use stanza_model::{Condition, Effect, Here, IqForm, refuse, result_of, say_to};
use stanza_router::{Listed, Place, copy_to, discover};
use stanza_tree::{Element, NoMemory};
use std::alloc::Global;

/// Whether a request of this type has this child.
pub(crate) fn gets(space: &str, local: &str, stanza: &Stanza) -> bool
    ensures { result ≡ gets space.now local.now stanza.now }
{
    match stanza {
        Stanza::Iq {
            form: IqForm::Get,
            element,
            ..
        } => element.child(space.as_bytes(), local.as_bytes()).is_some(),
        _ => false,
    }
}

pub(crate) fn sets(space: &str, local: &str, stanza: &Stanza) -> bool
    ensures { result ≡ sets space.now local.now stanza.now }
{
    match stanza {
        Stanza::Iq {
            form: IqForm::Set,
            element,
            ..
        } => element.child(space.as_bytes(), local.as_bytes()).is_some(),
        _ => false,
    }
}

/// A ping (XEP-0199).
fn pings(stanza: &Stanza) -> bool
    ensures { result ≡ pings stanza.now }
{
    gets("urn:xmpp:ping", "ping", stanza)
}

/// The beginning of a session (RFC 3921, 3), which is nothing any more.
fn begins_session(stanza: &Stanza) -> bool
    ensures { result ≡ begins_session stanza.now }
{
    sets("urn:ietf:params:xml:ns:xmpp-session", "session", stanza)
}

/// A binding (RFC 6120, 7).
fn binds_resource(stanza: &Stanza) -> bool
    ensures { result ≡ binds_resource stanza.now }
{
    sets("urn:ietf:params:xml:ns:xmpp-bind", "bind", stanza)
}

/// Discovery (XEP-0030).
fn discovers(stanza: &Stanza) -> bool
    ensures { result ≡ discovers stanza.now }
{
    gets("http://jabber.org/protocol/disco#info", "query", stanza)
        || gets("http://jabber.org/protocol/disco#items", "query", stanza)
}

/// A request of either type for this namespace.
pub(crate) fn queries(space: &str, stanza: &Stanza) -> bool
    ensures { result ≡ queries space.now stanza.now }
{
    gets(space, "query", stanza) || sets(space, "query", stanza)
}

/// A request for a room's occupants or its configuration (XEP-0045, 9 and 10).
fn asks_a_room(stanza: &Stanza) -> bool
    ensures { result ≡ asks_a_room stanza.now }
{
    queries("http://jabber.org/protocol/muc#admin", stanza)
        || queries("http://jabber.org/protocol/muc#owner", stanza)
}

/// What is said to a session.
pub(crate) fn one(alloc: Global, effect: Effect) -> Result<Vec<Effect>, NoMemory>
    ensures { IfOk result (λ effects. effects.items ≡ effect ∷ []) }
{
    let mut effects = Vec::with_capacity(alloc, 1)?;
    effects.push(effect)?;
    Ok(effects)
}

/// The result that has nothing in it.
fn done(alloc: Global, who: &Here, stanza: &Stanza) -> Result<Vec<Effect>, NoMemory>
    ensures { IfOk result (λ effects. effects.items ≡ done who.now stanza.now) }
{
    let result = result_of(alloc, stanza, Vec::new(alloc))?;
    one(alloc, say_to(alloc, who, &result)?)
}

/// What is known of a place, where these rooms are told of (XEP-0030).
fn discovered(
    alloc: Global,
    rooms: &[Listed],
    who: &Here,
    stanza: &Stanza,
    place: &Place,
) -> Result<Vec<Effect>, NoMemory>
    requires { discovers stanza.now ≡ true }
    ensures { IfOk result (λ effects. effects.items ≡ discovered rooms.now who.now stanza.now place.now) }
{
    let reply = discover(alloc, place, stanza, rooms)?;
    one(alloc, say_to(alloc, who, &reply)?)
}

/// What is known of the service of rooms, or of a room.
fn discovered_among(
    world: &World,
    alloc: Global,
    who: &Here,
    stanza: &Stanza,
    place: &Place,
) -> Result<Vec<Effect>, NoMemory>
    requires { discovers stanza.now ≡ true }
    ensures { IfOk result (λ effects. effects.items ≡ discovered (listed world.now.rooms) who.now stanza.now place.now) }
{
    let rooms = listed(world, alloc)?;
    discovered(alloc, rooms.as_slice(), who, stanza, place)
}

/// A request for the sender's account or the server (RFC 6120, 10.3 and 10.5.1).
pub(crate) fn to_server(
    alloc: Global,
    who: &Here,
    stanza: &Stanza,
    place: &Place,
) -> Result<Vec<Effect>, NoMemory>
    ensures { IfOk result (λ effects. effects.items ≡ to_server who.now stanza.now place.now) }
{
    if begins_session(stanza) || pings(stanza) {
        done(alloc, who, stanza)
    } else if discovers(stanza) {
        discovered(alloc, &[], who, stanza, place)
    } else if binds_resource(stanza) {
        refuse(alloc, who, stanza, Condition::NotAllowed)
    } else {
        refuse(alloc, who, stanza, Condition::ServiceUnavailable)
    }
}

/// A request for the service of rooms (XEP-0045, 6.2 and 6.3).
fn to_service(
    world: &World,
    alloc: Global,
    who: &Here,
    stanza: &Stanza,
    place: &Place,
) -> Result<Vec<Effect>, NoMemory>
    ensures { IfOk result (λ effects. effects.items ≡ to_service world.now.rooms who.now stanza.now place.now) }
{
    if discovers(stanza) {
        discovered_among(world, alloc, who, stanza, place)
    } else if pings(stanza) {
        done(alloc, who, stanza)
    } else {
        refuse(alloc, who, stanza, Condition::ServiceUnavailable)
    }
}

/// What a room that is there is asked of those who are in it, and of its settings.
fn asked_here(
    alloc: Global,
    who: &Here,
    stanza: &Stanza,
    h: &Hosted,
) -> Result<Vec<Effect>, NoMemory>
    ensures { IfOk result (λ effects. effects.items ≡ asked_of who.now stanza.now (Some h.now)) }
{
    if queries("http://jabber.org/protocol/muc#admin", stanza) {
        admin(alloc, h.room(), who, stanza)
    } else if queries("http://jabber.org/protocol/muc#owner", stanza) {
        owner(alloc, h.room(), who, stanza)
    } else {
        refuse(alloc, who, stanza, Condition::ServiceUnavailable)
    }
}

/// A request about who is in a room and what they are to it, or about its settings (XEP-0045, 9 and 10).
fn asked_of(
    alloc: Global,
    who: &Here,
    stanza: &Stanza,
    found: Option<&Hosted>,
) -> Result<Vec<Effect>, NoMemory>
    ensures { IfOk result (λ effects. effects.items ≡ asked_of who.now stanza.now (option_copied found.entry)) }
{
    match found {
        Some(h) => asked_here(alloc, who, stanza, h),
        None if asks_a_room(stanza) => refuse(alloc, who, stanza, Condition::ItemNotFound),
        None => refuse(alloc, who, stanza, Condition::ServiceUnavailable),
    }
}

/// A request for a room (XEP-0045, 6.4 and 6.5; XEP-0313, 4).
fn to_room(
    world: &World,
    alloc: Global,
    who: &Here,
    stanza: &Stanza,
    place: &Place,
    found: Option<&Hosted>,
) -> Result<Vec<Effect>, NoMemory>
    ensures { IfOk result (λ effects. effects.items
        ≡ to_room (seen world.now) who.now stanza.now place.now (option_copied found.entry)) }
{
    if discovers(stanza) {
        discovered_among(world, alloc, who, stanza, place)
    } else if pings(stanza) {
        done(alloc, who, stanza)
    } else if queries(ARCHIVE_SPACE, stanza) {
        archived(world, alloc, who, stanza, found)
    } else {
        asked_of(alloc, who, stanza, found)
    }
}

/// An iq for a session of a user, which goes on or isn't there (RFC 6121, 8.5.3).
fn to_session(
    world: &World,
    alloc: Global,
    who: &Here,
    stanza: &Stanza,
    to: Option<&Jid>,
    element: &Element,
    live: Option<u64>,
) -> Result<Vec<Effect>, NoMemory>
    ensures { IfOk result (λ effects. effects.items
        ≡ to_session (seen world.now) who.now stanza.now (option_copied to.entry) element.now live) }
{
    match live {
        Some(s) => one(alloc, copy_to(alloc, who, to, element, s)?),
        None => refuse(alloc, who, stanza, Condition::ServiceUnavailable),
    }
}

/// What comes of an iq.
pub(crate) fn iq(
    world: &World,
    alloc: Global,
    domain: &Part,
    own: &Part,
    who: &Here,
    stanza: &Stanza,
    to: Option<&Jid>,
    element: &Element,
    place: &Place,
) -> Result<Vec<Effect>, NoMemory>
    requires tied { IsTied world.now.table }
    requires domain { world.now.book.domain ≡ domain.now }
    ensures { (users : List (List ℕ)) (moment : ℕ) → IfOk result (λ effects. effects.items
        ≡ iq (record { domain = domain.now; users = users; world = seen world.now; moment = moment }) own.now who.now stanza.now (option_copied to.entry)
        element.now place.now) }
{
    match place {
        Place::Account => to_account(world, alloc, domain, own, who, stanza),
        Place::Server => to_server(alloc, who, stanza, place),
        Place::UserAt(_, _) => {
            let live = live_for(world, place, to);
            to_session(world, alloc, who, stanza, to, element, live)
        }
        Place::Service => to_service(world, alloc, who, stanza, place),
        Place::Room(_) => to_room(world, alloc, who, stanza, place, room_for(world, to)),
        Place::User(_) | Place::RoomAt(_, _) => {
            refuse(alloc, who, stanza, Condition::ServiceUnavailable)
        }
        Place::Foreign => refuse(alloc, who, stanza, Condition::RemoteServerNotFound),
    }
}
