//! What comes of a stanza, by its kind and the place that it is for.
ghost use Rattle.std.specs.Prelude.{◌≡◌, ◌<◌, ◌+◌, ◌^◌, true, unwrap_or, IfOk};
ghost use Rattle.std.specs.Option.{option_copied};
ghost use Rattle.house_model.specs.Fitting.{AreSmall};
ghost use Rattle.house_model.specs.Histories.{StanzaFits};
ghost use Rattle.house_model.specs.Routing.{departure, departure_by, effects_at, effects_in};
ghost use Rattle.roster_laws.specs.Keeping.{AreKept};
ghost use Rattle.session_table.specs.Tables.{is_there};
ghost use Rattle.archive_table.specs.Tables.{archives_of};
ghost use Rattle.house_model.specs.Archiving.{AddsFew, KeepsNothing};
ghost use Rattle.house_world.specs.Hosting.{Archived, AreArchived, AreHosted, Hosts, IsCast, filed_all};
ghost use Rattle.house_world.specs.Keeping.{AreShortNames};
ghost use Rattle.house_world.specs.Wholes.{IsTied};
ghost use Rattle.house_world.specs.Worlds.{IsHeld, seen};

use crate::attending::leaves_rooms;
use crate::listing::{directed_by, here, named};
use crate::messages::message;
use crate::presence::presence;
use crate::requests::iq;
use crate::sight::watchers;
use crate::users::Users;
use house_model::Stanza;
use house_world::{Cast, World, know_part, know_to};
use jid_core::Part;
use presence_core::unavailable;
use stanza_model::{Effect, Here, refuse};
use stanza_router::{Place, place};
use stanza_tree::NoMemory;
use std::alloc::Global;

/// What comes of a stanza of `who`, whose local part is `own`, at a place.
fn effects_at(
    world: &World,
    alloc: Global,
    domain: &Part,
    users: &Users,
    own: &Part,
    who: &Here,
    stanza: &Stanza,
    place: &Place,
    moment: u64,
) -> Result<Vec<Effect>, NoMemory>
    requires tied { IsTied world.now.table }
    requires domain { world.now.book.domain ≡ domain.now }
    requires hosted { AreHosted (2 ^ 63 + 2 ^ 62) world.now.rooms }
    requires archived { AreArchived (2 ^ 63 + 2 ^ 62) (archives_of world.now.archives) }
    ensures { IfOk result (λ effects. effects.items
        ≡ effects_at (record { domain = domain.now; users = users.now; world = seen world.now; moment = moment }) own.now who.now stanza.now place.now) }
{
    match stanza {
        Stanza::Message { form, element, .. } => {
            message(
                world, alloc, domain, users, own, who, stanza, *form, element, place, moment,
            )
        }
        Stanza::Presence { to, form, element } => {
            presence(
                world,
                alloc,
                domain,
                users,
                own,
                who,
                stanza,
                to.as_ref(),
                *form,
                element,
                place,
            )
        }
        Stanza::Iq { to, element, .. } => {
            iq(
                world,
                alloc,
                domain,
                own,
                who,
                stanza,
                to.as_ref(),
                element,
                place,
            )
        }
        Stanza::Faulty { condition, .. } => refuse(alloc, who, stanza, *condition),
    }
}

fn effects_in(
    world: &World,
    alloc: Global,
    domain: &Part,
    users: &Users,
    s: u64,
    stanza: &Stanza,
    moment: u64,
) -> Result<Vec<Effect>, NoMemory>
    requires tied { IsTied world.now.table }
    requires held { IsHeld s world.now.table }
    requires domain { world.now.book.domain ≡ domain.now }
    requires hosted { AreHosted (2 ^ 63 + 2 ^ 62) world.now.rooms }
    requires archived { AreArchived (2 ^ 63 + 2 ^ 62) (archives_of world.now.archives) }
    ensures { IfOk result (λ effects. effects.items ≡ effects_in (record { domain = domain.now; users = users.now; world = seen world.now; moment = moment })
        s stanza.now) }
{
    let Some(who) = here(world, alloc, s)? else {
        return Ok(Vec::new(alloc));
    };
    let Some(own) = &who.address.local else {
        return Ok(Vec::new(alloc));
    };
    let place = place(alloc, stanza.to(), own, domain)?;
    effects_at(
        world, alloc, domain, users, own, &who, stanza, &place, moment,
    )
}

// A list has fewer than 2^64 places.
fn know_length(_length: usize)
    ensures { _length < 2 ^ 64 }
{}

/// The effects of a stanza of a session at this moment, as they are queued, and the rooms after them. What they queue is short, and so is what
/// is kept of the rooms and of messages. Costs the size of the stanza and of the effects, and a look at each session of the
/// users whom it reaches; and a copy of the rooms, where they change.
pub fn effects_of(
    world: &World,
    alloc: Global,
    domain: &Part,
    users: &Users,
    s: u64,
    stanza: &Stanza,
    moment: u64,
) -> Result<Cast, NoMemory>
    requires tied { IsTied world.now.table }
    requires held { IsHeld s world.now.table }
    requires domain { world.now.book.domain ≡ domain.now }
    requires names { AreShortNames world.now.book.book.asked }
    requires rosters { AreKept domain.now world.now.book.book }
    requires hosted { AreHosted (2 ^ 63 + 2 ^ 62) world.now.rooms }
    requires archived { AreArchived (2 ^ 63 + 2 ^ 62) (archives_of world.now.archives) }
    requires fits { StanzaFits stanza.now }
    ensures effects { IfOk result (λ c. IsCast (effects_in
        (record { domain = domain.now; users = users.now; world = seen world.now; moment = moment }) s stanza.now) world.now.rooms c) }
    ensures short { IfOk result (λ c. AreSmall c.effects.items) }
    ensures hosts { IfOk result (λ c. Hosts world.now.rooms (unwrap_or c.rooms world.now.rooms)) }
    ensures few { IfOk result (λ c. AddsFew c.effects.items) }
    ensures archives { IfOk result (λ c. Archived (archives_of world.now.archives) (filed_all c.effects.items (archives_of world.now.archives))) }
{
    know_part(domain);
    know_to(stanza);
    let effects = effects_in(world, alloc, domain, users, s, stanza, moment)?;
    know_length(effects.len());
    let cast = world.cast(effects)?;
    Ok(cast)
}

/// What others are told of a session that departs.
fn departure_of(
    world: &World,
    alloc: Global,
    own: Option<&Part>,
    who: &Here,
) -> Result<Vec<Effect>, NoMemory>
    requires tied { IsTied world.now.table }
    ensures { IfOk result (λ effects. effects.items ≡ departure_by (option_copied own.entry) (seen world.now) who.now) }
{
    let Some(own) = own else {
        return Ok(Vec::new(alloc));
    };
    let watchers = watchers(world, alloc, own, who)?;
    let named = named(world, alloc, directed_by(world, who))?;
    unavailable(alloc, who, None, watchers.as_slice(), named.as_slice())
}

fn departure_in(world: &World, alloc: Global, s: u64) -> Result<Vec<Effect>, NoMemory>
    requires tied { IsTied world.now.table }
    requires there { is_there s world.now.table ≡ true }
    ensures { IfOk result (λ effects. effects.items ≡ departure (seen world.now) s) }
{
    let Some(who) = here(world, alloc, s)? else {
        return Ok(Vec::new(alloc));
    };
    let mut effects = departure_of(world, alloc, who.address.local.as_ref(), &who)?;
    let mut more = leaves_rooms(world, alloc, s, None)?;
    effects.append(&mut more)?;
    Ok(effects)
}

/// What others are told of a session that departs, and leaves its rooms, as it is queued, and the rooms after it. It is short, and so is what is
/// kept of the rooms. Costs a look at each session of those who see the user and at each room, and the size of what is told; and a copy of the rooms,
/// where it leaves any.
pub fn departure(world: &World, alloc: Global, s: u64) -> Result<Cast, NoMemory>
    requires tied { IsTied world.now.table }
    requires there { is_there s world.now.table ≡ true }
    requires hosted { AreHosted (2 ^ 63 + 2 ^ 62) world.now.rooms }
    ensures effects { IfOk result (λ c. IsCast (departure (seen world.now) s) world.now.rooms c) }
    ensures short { IfOk result (λ c. AreSmall c.effects.items) }
    ensures hosts { IfOk result (λ c. Hosts world.now.rooms (unwrap_or c.rooms world.now.rooms)) }
    ensures nothing { IfOk result (λ c. KeepsNothing c.effects.items) }
    ensures archives { IfOk result (λ c. Archived (archives_of world.now.archives) (filed_all c.effects.items (archives_of world.now.archives))) }
{
    let effects = departure_in(world, alloc, s)?;
    know_length(effects.len());
    let cast = world.cast(effects)?;
    Ok(cast)
}
