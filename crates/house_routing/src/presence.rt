//! Presence (RFC 6121, 4; XEP-0045, 7): whom it reaches, and what comes of it.
ghost use Rattle.std.specs.Prelude.{◌≡◌, ◌∷◌, ◌+◌, ◌-◌, ◌^◌, ℕ, [], IfOk, Some, min, nat_lt};
ghost use Rattle.std.specs.Option.{option_copied};
ghost use Rattle.house_model.specs.Presences.{asking, length_sent, most_of_presence, named, shown, watchers};
ghost use Rattle.presence_core.specs.Broadcasts.{available};
ghost use Rattle.house_model.specs.Routing.{broadcast, directed_to, error_to, live_for, presence, presence_to, to_address, to_user};
ghost use Rattle.house_world.specs.Hosting.{AreHosted};
ghost use Rattle.house_world.specs.Wholes.{IsTied};
ghost use Rattle.house_world.specs.Worlds.{seen};

use crate::attending::{leaves_rooms, to_be_in};
use crate::listing::{directed_by, live_for, named};
use crate::messages::{has_account, user_in};
use crate::requests::one;
use crate::rooms::room_for;
use crate::rosters::subscribed;
use crate::sight::{shown, watchers};
use crate::users::Users;
use house_model::Stanza;
use house_world::World;
use jid_core::{Jid, Part};
use presence_core::{available, directed, unavailable};
use stanza_model::make::written;
use stanza_model::{Condition, Effect, Here, PresenceForm, refuse};
use stanza_router::{Place, copy_to};
use stanza_tree::{Element, NoMemory, frame_length, sent_length};
use std::alloc::Global;

/// The most bytes of a presence as it is sent: it is kept, and shown to each session that becomes available.
const MOST_OF_PRESENCE: u64 = 16_384;

/// How long a presence is as it is sent, with its sender's address and its own; a number of 2^64 - 1 stands for any that is greater.
fn length_sent(
    alloc: Global,
    who: &Here,
    to: Option<&Jid>,
    element: &Element,
) -> Result<u64, NoMemory>
    ensures { IfOk result (λ n. n ≡ min (length_sent who.now (option_copied to.entry) element.now) (2 ^ 64 - 1)) }
{
    let rest = sent_length(element, written(alloc, &who.address)?.bytes());
    match to {
        Some(to) => Ok(frame_length(written(alloc, to)?.bytes(), rest)),
        None => Ok(rest),
    }
}

/// Whether a presence is too long.
fn is_too_long(
    alloc: Global,
    who: &Here,
    to: Option<&Jid>,
    element: &Element,
) -> Result<bool, NoMemory>
    ensures { IfOk result (λ long. long ≡ nat_lt most_of_presence (length_sent who.now (option_copied to.entry) element.now)) }
{
    Ok(length_sent(alloc, who, to, element)? > MOST_OF_PRESENCE)
}

/// What comes of available presence without an address. A session that is available already is shown nothing, so no list of that is made.
#[tactic(auto, using(crate::proofs::AvailableLemmas::no_newcomer))]
fn announced(
    world: &World,
    alloc: Global,
    own: &Part,
    who: &Here,
    stanza: &Stanza,
) -> Result<Vec<Effect>, NoMemory>
    requires tied { IsTied world.now.table }
    ensures { IfOk result (λ effects. effects.items ≡ available who.now stanza.now (watchers (seen world.now) own.now who.now)
        (shown (seen world.now) own.now who.now) (asking world.now.book.domain (seen world.now) own.now)) }
{
    let watchers = watchers(world, alloc, own, who)?;
    if who.available {
        return available(alloc, who, stanza, watchers.as_slice(), &[], &[]);
    }
    let shown = shown(world, alloc, own, who)?;
    let asking = world.book.asking(alloc, own)?;
    available(
        alloc,
        who,
        stanza,
        watchers.as_slice(),
        shown.as_slice(),
        asking.as_slice(),
    )
}

/// What comes of presence without an address.
fn broadcast(
    world: &World,
    alloc: Global,
    domain: &Part,
    users: &Users,
    own: &Part,
    who: &Here,
    stanza: &Stanza,
    form: PresenceForm,
) -> Result<Vec<Effect>, NoMemory>
    requires tied { IsTied world.now.table }
    requires domain { world.now.book.domain ≡ domain.now }
    ensures { (moment : ℕ) → IfOk result (λ effects. effects.items
        ≡ broadcast (record { domain = domain.now; users = users.now; world = seen world.now; moment = moment }) own.now who.now stanza.now form) }
{
    match form {
        PresenceForm::Available => announced(world, alloc, own, who, stanza),
        PresenceForm::Unavailable => {
            let watchers = watchers(world, alloc, own, who)?;
            let named = named(world, alloc, directed_by(world, who))?;
            let mut effects = unavailable(
                alloc,
                who,
                Some(stanza),
                watchers.as_slice(),
                named.as_slice(),
            )?;
            let mut more = leaves_rooms(world, alloc, who.session, Some(stanza))?;
            effects.append(&mut more)?;
            Ok(effects)
        }
        _ => refuse(alloc, who, stanza, Condition::BadRequest),
    }
}

/// What comes of presence that is sent to a user alone. The receivers are the sessions that its address names.
fn directed_to(
    world: &World,
    alloc: Global,
    domain: &Part,
    users: &Users,
    own: &Part,
    who: &Here,
    stanza: &Stanza,
    place: &Place,
    receivers: &[Here],
) -> Result<Vec<Effect>, NoMemory>
    ensures { (moment : ℕ) → IfOk result (λ effects. effects.items
        ≡ directed_to (record { domain = domain.now; users = users.now; world = seen world.now; moment = moment })
        own.now who.now stanza.now place.now receivers.now) }
{
    if has_account(users, user_in(own, place), receivers) {
        directed(alloc, who, stanza, receivers, directed_by(world, who))
    } else {
        Ok(Vec::new(alloc))
    }
}

/// An error goes to the session at its address.
fn error_to(
    world: &World,
    alloc: Global,
    who: &Here,
    to: &Jid,
    element: &Element,
    place: &Place,
) -> Result<Vec<Effect>, NoMemory>
    requires tied { IsTied world.now.table }
    ensures { IfOk result (λ effects. effects.items
        ≡ error_to (seen world.now) who.now to.now element.now (live_for (seen world.now) place.now (Some to.now))) }
{
    match live_for(world, place, Some(to)) {
        Some(s) => one(alloc, copy_to(alloc, who, Some(to), element, s)?),
        None => Ok(Vec::new(alloc)),
    }
}

/// The sessions that an address names.
fn named_by(world: &World, alloc: Global, to: &Jid) -> Result<Vec<Here>, NoMemory>
    requires { IsTied world.now.table }
    ensures { IfOk result (λ found. found.items ≡ named (seen world.now) (to.now ∷ [])) }
{
    let address = to.copy(alloc)?;
    named(world, alloc, &[address])
}

/// What comes of presence, available or unavailable, that is sent to a user alone.
fn directed_at(
    world: &World,
    alloc: Global,
    domain: &Part,
    users: &Users,
    own: &Part,
    who: &Here,
    stanza: &Stanza,
    to: &Jid,
    place: &Place,
) -> Result<Vec<Effect>, NoMemory>
    requires tied { IsTied world.now.table }
    ensures { (moment : ℕ) → IfOk result (λ effects. effects.items
        ≡ directed_to (record { domain = domain.now; users = users.now; world = seen world.now; moment = moment }) own.now who.now stanza.now place.now
        (named (seen world.now) (to.now ∷ []))) }
{
    let receivers = named_by(world, alloc, to)?;
    directed_to(
        world,
        alloc,
        domain,
        users,
        own,
        who,
        stanza,
        place,
        receivers.as_slice(),
    )
}

/// What comes of presence for a user.
fn to_user(
    world: &World,
    alloc: Global,
    domain: &Part,
    users: &Users,
    own: &Part,
    who: &Here,
    stanza: &Stanza,
    to: &Jid,
    form: PresenceForm,
    element: &Element,
    place: &Place,
) -> Result<Vec<Effect>, NoMemory>
    requires tied { IsTied world.now.table }
    requires domain { world.now.book.domain ≡ domain.now }
    ensures { (moment : ℕ) → IfOk result (λ effects. effects.items
        ≡ to_user (record { domain = domain.now; users = users.now; world = seen world.now; moment = moment })
        own.now who.now stanza.now to.now form element.now place.now) }
{
    match form {
        PresenceForm::Available | PresenceForm::Unavailable => {
            directed_at(world, alloc, domain, users, own, who, stanza, to, place)
        }
        PresenceForm::Error => error_to(world, alloc, who, to, element, place),
        PresenceForm::Probe => Ok(Vec::new(alloc)),
        _ => {
            let user = user_in(own, place);
            subscribed(world, alloc, domain, users, own, who, stanza, form, user)
        }
    }
}

fn to_address(
    world: &World,
    alloc: Global,
    domain: &Part,
    users: &Users,
    own: &Part,
    who: &Here,
    stanza: &Stanza,
    to: &Jid,
    form: PresenceForm,
    element: &Element,
    place: &Place,
) -> Result<Vec<Effect>, NoMemory>
    requires tied { IsTied world.now.table }
    requires domain { world.now.book.domain ≡ domain.now }
    requires hosted { AreHosted (2 ^ 63 + 2 ^ 62) world.now.rooms }
    ensures { (moment : ℕ) → IfOk result (λ effects. effects.items
        ≡ to_address (record { domain = domain.now; users = users.now; world = seen world.now; moment = moment })
        own.now who.now stanza.now to.now form element.now place.now) }
{
    match place {
        Place::Account | Place::User(_) | Place::UserAt(_, _) => {
            to_user(
                world, alloc, domain, users, own, who, stanza, to, form, element, place,
            )
        }
        Place::Room(_) | Place::RoomAt(_, _) => {
            let found = room_for(world, Some(to));
            to_be_in(world, alloc, who, stanza, form, found)
        }
        Place::Server | Place::Service | Place::Foreign => Ok(Vec::new(alloc)),
    }
}

fn presence_to(
    world: &World,
    alloc: Global,
    domain: &Part,
    users: &Users,
    own: &Part,
    who: &Here,
    stanza: &Stanza,
    to: Option<&Jid>,
    form: PresenceForm,
    element: &Element,
    place: &Place,
) -> Result<Vec<Effect>, NoMemory>
    requires tied { IsTied world.now.table }
    requires domain { world.now.book.domain ≡ domain.now }
    requires hosted { AreHosted (2 ^ 63 + 2 ^ 62) world.now.rooms }
    ensures { (moment : ℕ) → IfOk result (λ effects. effects.items
        ≡ presence_to (record { domain = domain.now; users = users.now; world = seen world.now; moment = moment })
        own.now who.now stanza.now (option_copied to.entry)
        form element.now place.now) }
{
    match to {
        Some(to) => to_address(
            world, alloc, domain, users, own, who, stanza, to, form, element, place,
        ),
        None => broadcast(world, alloc, domain, users, own, who, stanza, form),
    }
}

/// What comes of presence.
pub(crate) fn presence(
    world: &World,
    alloc: Global,
    domain: &Part,
    users: &Users,
    own: &Part,
    who: &Here,
    stanza: &Stanza,
    to: Option<&Jid>,
    form: PresenceForm,
    element: &Element,
    place: &Place,
) -> Result<Vec<Effect>, NoMemory>
    requires tied { IsTied world.now.table }
    requires domain { world.now.book.domain ≡ domain.now }
    requires hosted { AreHosted (2 ^ 63 + 2 ^ 62) world.now.rooms }
    ensures { (moment : ℕ) → IfOk result (λ effects. effects.items
        ≡ presence (record { domain = domain.now; users = users.now; world = seen world.now; moment = moment })
        own.now who.now stanza.now (option_copied to.entry)
        form element.now place.now) }
{
    if is_too_long(alloc, who, to, element)? {
        return refuse(alloc, who, stanza, Condition::NotAcceptable);
    }
    presence_to(
        world, alloc, domain, users, own, who, stanza, to, form, element, place,
    )
}
