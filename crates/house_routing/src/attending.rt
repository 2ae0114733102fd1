//! Presence in rooms (XEP-0045, 7): sessions that enter them, are shown there, and leave them.
ghost use Rattle.std.specs.Prelude.{◌≡◌, ◌^◌, ◌+◌, Some, IfOk};
ghost use Rattle.std.specs.Option.{option_copied};
ghost use Rattle.house_model.specs.Routing.{absent_from, leaves_rooms, present_in, to_be_in};
ghost use Rattle.house_world.specs.Hosting.{AreHosted};
ghost use Rattle.house_world.specs.Worlds.{seen};

use crate::keeping::past_in;
use crate::rooms::{is_in, numbers_for, rooms_of};
use house_model::Stanza;
use house_world::World;
use muc_room::{enter, leave, rename};
use muc_service::Hosted;
use stanza_model::{Effect, Here, PresenceForm};
use stanza_tree::NoMemory;
use std::alloc::Global;

/// What comes of available presence in a room that is there: its sender enters it, is shown otherwise or takes another nick.
fn present_at(
    world: &World,
    alloc: Global,
    who: &Here,
    stanza: &Stanza,
    h: &Hosted,
) -> Result<Vec<Effect>, NoMemory>
    requires hosted { AreHosted (2 ^ 63 + 2 ^ 62) world.now.rooms }
    ensures { IfOk result (λ effects. effects.items ≡ present_in (seen world.now) who.now stanza.now (Some h.now)) }
{
    if is_in(who.session, h) {
        return rename(alloc, h.room(), who, stanza);
    }
    let numbers = numbers_for(world, who.session);
    let past = past_in(world, alloc, h)?;
    enter(
        alloc,
        Some(h.room()),
        &numbers,
        who,
        stanza,
        past.as_slice(),
    )
}

/// What comes of available presence for a room (XEP-0045, 7.2, 7.6 and 7.7).
fn present_in(
    world: &World,
    alloc: Global,
    who: &Here,
    stanza: &Stanza,
    found: Option<&Hosted>,
) -> Result<Vec<Effect>, NoMemory>
    requires hosted { AreHosted (2 ^ 63 + 2 ^ 62) world.now.rooms }
    ensures { IfOk result (λ effects. effects.items ≡ present_in (seen world.now) who.now stanza.now (option_copied found.entry)) }
{
    match found {
        Some(h) => present_at(world, alloc, who, stanza, h),
        None => {
            let numbers = numbers_for(world, who.session);
            enter(alloc, None, &numbers, who, stanza, &[])
        }
    }
}

/// What comes of unavailable presence for a room (XEP-0045, 7.14).
fn absent_from(
    alloc: Global,
    who: &Here,
    stanza: &Stanza,
    found: Option<&Hosted>,
) -> Result<Vec<Effect>, NoMemory>
    ensures { IfOk result (λ effects. effects.items ≡ absent_from who.now stanza.now (option_copied found.entry)) }
{
    match found {
        Some(h) => leave(alloc, h.room(), who.session, Some(stanza)),
        None => Ok(Vec::new(alloc)),
    }
}

/// What comes of presence for a room.
pub(crate) fn to_be_in(
    world: &World,
    alloc: Global,
    who: &Here,
    stanza: &Stanza,
    form: PresenceForm,
    found: Option<&Hosted>,
) -> Result<Vec<Effect>, NoMemory>
    requires hosted { AreHosted (2 ^ 63 + 2 ^ 62) world.now.rooms }
    ensures { IfOk result (λ effects. effects.items ≡ to_be_in (seen world.now) who.now stanza.now form (option_copied found.entry)) }
{
    match form {
        PresenceForm::Available => present_in(world, alloc, who, stanza, found),
        PresenceForm::Unavailable => absent_from(alloc, who, stanza, found),
        _ => Ok(Vec::new(alloc)),
    }
}

/// A session leaves its rooms, in the order in which it entered them (XEP-0045, 7.14). Costs a look at each room.
pub(crate) fn leaves_rooms(
    world: &World,
    alloc: Global,
    s: u64,
    stanza: Option<&Stanza>,
) -> Result<Vec<Effect>, NoMemory>
    ensures { IfOk result (λ effects. effects.items ≡ leaves_rooms world.now.rooms s (option_copied stanza.entry)) }
{
    let rooms = rooms_of(world, alloc, s)?;
    let mut effects = Vec::new(alloc);
    for h in rooms.as_slice() {
        let mut more = leave(alloc, h.room(), s, stanza)?;
        effects.append(&mut more)?;
    }
    Ok(effects)
}
