//! Messages (RFC 6121, 8.5; XEP-0045, 7.4 to 7.8).
ghost use Rattle.std.specs.Prelude.{◌≡◌, ◌+◌, ◌^◌, ℕ, List, Some, IfOk};
ghost use Rattle.std.specs.List.{filter};
ghost use Rattle.std.specs.Option.{option_copied};
ghost use Rattle.muc_owner.specs.Inviting.{invite};
ghost use Rattle.house_model.specs.RoomLookups.{called};
ghost use Rattle.house_model.specs.Routing.{choosable, chosen, delivered, has_account, is_invitation, message, receivers, to_all_in, to_no_room};
ghost use Rattle.house_model.specs.Routing.{to_one_in, to_users, user_in};
ghost use Rattle.house_routing.specs.Listings.{is_elsewhere};
ghost use Rattle.archive_table.specs.Tables.{archives_of};
ghost use Rattle.house_world.specs.Hosting.{AreArchived};
ghost use Rattle.house_world.specs.Wholes.{IsTied};
ghost use Rattle.house_world.specs.Worlds.{seen};

use crate::keeping::{keeping_for, keeping_in};
use crate::listing::{live_for, sessions_of};
use crate::rooms::{called, room_for};
use crate::users::Users;
use house_model::{MessageForm, Stanza};
use house_world::World;
use jid_core::Part;
use mam_wire::stamp_text;
use muc_owner::invite;
use muc_room::{direct, say};
use muc_service::Hosted;
use stanza_model::{Condition, Effect, Here, refuse};
use stanza_router::{Place, deliver, deliver_to, keep_receivers};
use stanza_tree::{Element, NoMemory};
use std::alloc::Global;

/// The namespace of what occupants and others say of rooms (XEP-0045, 7.8).
const ROOM_USER_SPACE: &[u8] = b"http://jabber.org/protocol/muc#user";

/// Whether a message is an invitation to a room, or a decline of one (XEP-0045, 7.8).
fn is_invitation(message: &Element) -> bool
    ensures { result ≡ is_invitation message.now }
{
    match message.child(ROOM_USER_SPACE, b"x") {
        Some(x) => {
            x.child(ROOM_USER_SPACE, b"invite").is_some()
                || x.child(ROOM_USER_SPACE, b"decline").is_some()
        }
        None => false,
    }
}

/// Why a message for a room is refused that isn't there.
fn to_no_room(form: MessageForm, message: &Element) -> Condition
    ensures { result ≡ to_no_room form message.now }
{
    match form {
        MessageForm::Groupchat => Condition::ItemNotFound,
        _ if is_invitation(message) => Condition::ItemNotFound,
        _ => Condition::BadRequest,
    }
}

/// An invitation to a room, or a decline of one (XEP-0045, 7.8.2).
fn called_in(
    world: &World,
    alloc: Global,
    domain: &Part,
    who: &Here,
    stanza: &Stanza,
    element: &Element,
    h: &Hosted,
) -> Result<Vec<Effect>, NoMemory>
    requires tied { IsTied world.now.table }
    ensures { IfOk result (λ effects. effects.items
        ≡ invite h.now.room who.now stanza.now (called domain.now (seen world.now) element.now)) }
{
    let receivers = called(world, alloc, domain, element)?;
    invite(alloc, h.room(), who, stanza, receivers.as_slice())
}

/// What comes of a message to a room that is there.
fn to_all_of(
    world: &World,
    alloc: Global,
    domain: &Part,
    who: &Here,
    stanza: &Stanza,
    form: MessageForm,
    element: &Element,
    moment: u64,
    h: &Hosted,
) -> Result<Vec<Effect>, NoMemory>
    requires tied { IsTied world.now.table }
    requires archived { AreArchived (2 ^ 63 + 2 ^ 62) (archives_of world.now.archives) }
    ensures { (users : List (List ℕ)) → IfOk result (λ effects. effects.items
        ≡ to_all_in (record { domain = domain.now; users = users; world = seen world.now; moment = moment }) who.now stanza.now form element.now (Some h.now)) }
{
    match form {
        MessageForm::Groupchat => {
            let keeping = keeping_in(world, h, moment);
            let stamp = stamp_text(alloc, moment)?;
            say(alloc, h.room(), who, stanza, &keeping, &stamp)
        }
        _ if is_invitation(element) => called_in(world, alloc, domain, who, stanza, element, h),
        _ => refuse(alloc, who, stanza, Condition::BadRequest),
    }
}

/// What comes of a message to a room: what is said in it, an invitation to it or a decline of one (XEP-0045, 7.4, 7.8.2 and 8.1).
fn to_all_in(
    world: &World,
    alloc: Global,
    domain: &Part,
    who: &Here,
    stanza: &Stanza,
    form: MessageForm,
    element: &Element,
    moment: u64,
    found: Option<&Hosted>,
) -> Result<Vec<Effect>, NoMemory>
    requires tied { IsTied world.now.table }
    requires archived { AreArchived (2 ^ 63 + 2 ^ 62) (archives_of world.now.archives) }
    ensures { (users : List (List ℕ)) → IfOk result (λ effects. effects.items
        ≡ to_all_in (record { domain = domain.now; users = users; world = seen world.now; moment = moment }) who.now stanza.now form element.now
        (option_copied found.entry)) }
{
    match found {
        Some(h) => to_all_of(world, alloc, domain, who, stanza, form, element, moment, h),
        None => refuse(alloc, who, stanza, to_no_room(form, element)),
    }
}

/// What comes of a message to one who is in a room (XEP-0045, 7.5).
fn to_one_in(
    alloc: Global,
    who: &Here,
    stanza: &Stanza,
    found: Option<&Hosted>,
) -> Result<Vec<Effect>, NoMemory>
    ensures { IfOk result (λ effects. effects.items ≡ to_one_in who.now stanza.now (option_copied found.entry)) }
{
    match found {
        Some(h) => direct(alloc, h.room(), who, stanza),
        None => refuse(alloc, who, stanza, Condition::ItemNotFound),
    }
}

/// The user whose a place is, where `own` is the sender.
pub(crate) fn user_in<'a>(own: &'a Part, place: &'a Place) -> Option<&'a Part>
    ensures { option_copied result ≡ user_in own.now place.now }
{
    match place {
        Place::Account => Some(own),
        Place::User(user) | Place::UserAt(user, _) => Some(user),
        _ => None,
    }
}

/// Whether a place's user has an account, as one has whose session a stanza finds.
pub(crate) fn has_account(users: &Users, user: Option<&Part>, found: &[Here]) -> bool
    ensures { result ≡ has_account users.now (option_copied user.entry) found.now }
{
    if !found.is_empty() {
        return true;
    }
    match user {
        Some(user) => users.place_of(user).is_some(),
        None => false,
    }
}

fn is_elsewhere(resource: &Part, session: &Here) -> bool
    ensures { result ≡ is_elsewhere resource.now session.now }
{
    match &session.address.resource {
        Some(own) => own.bytes() != resource.bytes(),
        None => true,
    }
}

fn keep_elsewhere(resource: &Part, sessions: &mut Vec<Here>)
    ensures { sessions.new.items ≡ filter (is_elsewhere resource.now) sessions.old.items }
{
    sessions.retain(|h| is_elsewhere(resource, h));
}

/// Takes out the session of an address, which is over where none that goes on has it.
fn keep_choosable(place: &Place, sessions: &mut Vec<Here>)
    ensures { sessions.new.items ≡ choosable place.now sessions.old.items }
{
    match place {
        Place::UserAt(_, resource) => keep_elsewhere(resource, sessions),
        Place::Account
        | Place::Server
        | Place::User(_)
        | Place::Service
        | Place::Room(_)
        | Place::RoomAt(_, _)
        | Place::Foreign => {}
    }
}

/// Those whom RFC 6121 chooses among a user's sessions.
fn chosen(
    world: &World,
    alloc: Global,
    form: MessageForm,
    place: &Place,
    user: Option<&Part>,
) -> Result<Vec<Here>, NoMemory>
    requires tied { IsTied world.now.table }
    ensures { IfOk result (λ found. found.items ≡ chosen (seen world.now) form place.now (option_copied user.entry)) }
{
    let Some(user) = user else {
        return Ok(Vec::new(alloc));
    };
    let mut sessions = sessions_of(world, alloc, user)?;
    keep_choosable(place, &mut sessions);
    keep_receivers(form, place, &mut sessions);
    Ok(sessions)
}

/// What comes of a message for users: a copy for the session at its address, or what RFC 6121 says of the user's sessions.
fn to_users(
    world: &World,
    alloc: Global,
    users: &Users,
    who: &Here,
    stanza: &Stanza,
    form: MessageForm,
    place: &Place,
    user: Option<&Part>,
    moment: u64,
) -> Result<Vec<Effect>, NoMemory>
    requires tied { IsTied world.now.table }
    requires archived { AreArchived (2 ^ 63 + 2 ^ 62) (archives_of world.now.archives) }
    ensures { (domain : List ℕ) → IfOk result (λ effects. effects.items
        ≡ to_users (record { domain = domain; users = users.now; world = seen world.now; moment = moment }) who.now stanza.now form place.now
        (option_copied user.entry)) }
{
    let keeping = keeping_for(world, who, stanza.to(), moment);
    if let Some(s) = live_for(world, place, stanza.to()) {
        return deliver_to(alloc, who, stanza, s, &keeping);
    }
    let found = chosen(world, alloc, form, place, user)?;
    let known = has_account(users, user, found.as_slice());
    deliver(alloc, who, stanza, place, known, found.as_slice(), &keeping)
}

/// What comes of a message at this moment.
pub(crate) fn message(
    world: &World,
    alloc: Global,
    domain: &Part,
    users: &Users,
    own: &Part,
    who: &Here,
    stanza: &Stanza,
    form: MessageForm,
    element: &Element,
    place: &Place,
    moment: u64,
) -> Result<Vec<Effect>, NoMemory>
    requires tied { IsTied world.now.table }
    requires archived { AreArchived (2 ^ 63 + 2 ^ 62) (archives_of world.now.archives) }
    ensures { IfOk result (λ effects. effects.items
        ≡ message (record { domain = domain.now; users = users.now; world = seen world.now; moment = moment }) own.now who.now stanza.now form
        element.now place.now) }
{
    match place {
        Place::Room(_) => {
            let found = room_for(world, stanza.to());
            to_all_in(
                world, alloc, domain, who, stanza, form, element, moment, found,
            )
        }
        Place::RoomAt(_, _) => to_one_in(alloc, who, stanza, room_for(world, stanza.to())),
        _ => to_users(
            world,
            alloc,
            users,
            who,
            stanza,
            form,
            place,
            user_in(own, place),
            moment,
        ),
    }
}
