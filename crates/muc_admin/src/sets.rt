//! A set of items, each of which is judged in the room as it is after those before it (XEP-0045, 8 to 10).
ghost use Rattle.std.specs.Prelude.{◌≡◌, ◌++◌, IfOk, OnOk};
ghost use Rattle.muc_admin.specs.Sets.{after_all, all_effects, done, first_refusal, gone_if_left, has_occupants};

use crate::afterwards::carry_out;
use crate::item::Wanted;
use crate::refusal::refusal;
use crate::telling::push_effects;
use muc_room::copy_room;
use stanza_model::{Change, Condition, Effect, Here, Room, Stanza, result_of, say_to};
use stanza_tree::NoMemory;
use std::alloc::Global;

/// Why the first of these items that is refused is refused; the room is changed by those before it.
fn refusal_in(
    alloc: Global,
    room: &mut Room,
    who: &Here,
    wanted: &[Wanted],
) -> Result<Option<Condition>, NoMemory>
    ensures { IfOk result (λ c. c ≡ first_refusal room.old who.now wanted.now) }
{
    for one in wanted {
        match refusal(alloc, room, who, one)? {
            Some(condition) => return Ok(Some(condition)),
            None => carry_out(alloc, room, one)?,
        }
    }
    Ok(None)
}

/// Why the first of these items that is refused is refused. Costs a copy of the room, and copies of parts of it for each item.
pub(crate) fn first_refusal(
    alloc: Global,
    room: &Room,
    who: &Here,
    wanted: &[Wanted],
) -> Result<Option<Condition>, NoMemory>
    ensures { IfOk result (λ c. c ≡ first_refusal room.now who.now wanted.now) }
{
    let mut after = copy_room(alloc, room)?;
    refusal_in(alloc, &mut after, who, wanted)
}

/// What comes of each of these items, by which the room is changed.
fn push_all(
    alloc: Global,
    room: &mut Room,
    wanted: &[Wanted],
    effects: &mut Vec<Effect>,
) -> Result<(), NoMemory>
    ensures effects { OnOk result (effects.new.items ≡ effects.old.items ++ all_effects room.old wanted.now) }
    ensures room { OnOk result (room.new ≡ after_all wanted.now room.old) }
{
    for one in wanted {
        push_effects(alloc, room, one, effects)?;
        carry_out(alloc, room, one)?;
    }
    Ok(())
}

fn has_occupants(room: &Room) -> bool
    ensures { result ≡ has_occupants room.now }
{
    !room.occupants.slice().is_empty()
}

/// The room goes where it had an occupant, has none any more and isn't persistent (XEP-0045, 10.1.2).
fn push_gone(had: bool, room: &Room, effects: &mut Vec<Effect>) -> Result<(), NoMemory>
    ensures { OnOk result (effects.new.items ≡ effects.old.items ++ gone_if_left had room.now) }
{
    if had && !has_occupants(room) && !room.config.persistent {
        effects.push(Effect::Set(Change::RoomGone { room: room.number }))?;
    }
    Ok(())
}

fn done_in(
    alloc: Global,
    room: &mut Room,
    who: &Here,
    request: &Stanza,
    wanted: &[Wanted],
) -> Result<Vec<Effect>, NoMemory>
    ensures { IfOk result (λ effects. effects.items ≡ done room.old who.now request.now wanted.now) }
{
    let result = result_of(alloc, request, Vec::new(alloc))?;
    let had = has_occupants(room);
    let mut effects = Vec::new(alloc);
    push_all(alloc, room, wanted, &mut effects)?;
    push_gone(had, room, &mut effects)?;
    effects.push(say_to(alloc, who, &result)?)?;
    Ok(effects)
}

/// What comes of a set of which no item is refused.
pub(crate) fn done(
    alloc: Global,
    room: &Room,
    who: &Here,
    request: &Stanza,
    wanted: &[Wanted],
) -> Result<Vec<Effect>, NoMemory>
    ensures { IfOk result (λ effects. effects.items ≡ done room.now who.now request.now wanted.now) }
{
    let mut after = copy_room(alloc, room)?;
    done_in(alloc, &mut after, who, request, wanted)
}
