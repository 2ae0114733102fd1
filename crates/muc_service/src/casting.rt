//! Broadcasts as they are queued: each session in the room gets its view of the item (XEP-0045, 7).
ghost use Rattle.std.specs.Prelude.{◌≡◌, ◌++◌, ◌∷◌, [], IfOk, OnOk};
ghost use Rattle.muc_room.specs.Views.{shared_views};
ghost use Rattle.muc_service.specs.Casting.{after, cast, copies, copies_for, copies_in, copy_for, heard};
ghost use Rattle.muc_service.specs.Changing.{HasRoomFor, HasRoomForAll};
ghost use Rattle.muc_service.specs.Rooms as spec;

use crate::hosted::Hosted;
use crate::rooms::Rooms;
use muc_roles::sees_addresses;
use muc_room::{SharedViews, shared_views, view};
use stanza_model::{Effect, Occupant, RoomItem, Seat};
use stanza_tree::{NoMemory, Origin};
use std::alloc::Global;

/// The view of a session (XEP-0045, 7.2.2).
fn copy_for(
    alloc: Global,
    h: &Hosted,
    item: &RoomItem,
    shared: &SharedViews,
    occupant: &Occupant,
    seat: &Seat,
) -> Result<Effect, NoMemory>
    requires { shared.now ≡ shared_views item.now h.now.room.address }
    ensures { IfOk result (λ e. e ≡ copy_for h.now item.now occupant.now seat.now) }
{
    let room = h.room();
    let sees = sees_addresses(occupant.role, room.config.anyone);
    let shown = view(
        alloc,
        item,
        shared,
        sees,
        &room.address,
        seat.session,
        &seat.address,
    )?;
    Ok(Effect::Queue {
        session: seat.session,
        to: shown.to,
        rest: shown.rest,
        origin: Origin::Live {
            room: room.number,
            stay: seat.stay,
            number: h.items(),
        },
    })
}

fn push_copies_for(
    alloc: Global,
    h: &Hosted,
    item: &RoomItem,
    shared: &SharedViews,
    occupant: &Occupant,
    effects: &mut Vec<Effect>,
) -> Result<(), NoMemory>
    requires { shared.now ≡ shared_views item.now h.now.room.address }
    ensures { OnOk result (effects.new.items ≡ effects.old.items ++ copies_for h.now item.now occupant.now) }
{
    for seat in occupant.seats.slice() {
        effects.push(copy_for(alloc, h, item, shared, occupant, seat)?)?;
    }
    Ok(())
}

/// Appends the views of an item, in the order of entering and of joining. Those that are nobody's own are spelt once, and shared.
fn push_copies(
    alloc: Global,
    h: &Hosted,
    item: &RoomItem,
    effects: &mut Vec<Effect>,
) -> Result<(), NoMemory>
    ensures { OnOk result (effects.new.items ≡ effects.old.items ++ copies h.now item.now) }
{
    let shared = shared_views(alloc, item, &h.room().address)?;
    for occupant in h.room().occupants.slice() {
        push_copies_for(alloc, h, item, &shared, occupant, effects)?;
    }
    Ok(())
}

/// Appends the views of an item that the room of this number broadcasts, if it is one of these.
fn push_heard_in(
    alloc: Global,
    rooms: &Rooms,
    n: u64,
    item: &RoomItem,
    effects: &mut Vec<Effect>,
) -> Result<(), NoMemory>
    ensures { OnOk result (effects.new.items ≡ effects.old.items ++ copies_in (spec.hosted_as n rooms.now) item.now) }
{
    match rooms.hosted_as(n) {
        Some(h) => push_copies(alloc, h, item, effects),
        None => Ok(()),
    }
}

/// Appends the views of an effect, which a broadcast has alone.
fn push_heard(
    alloc: Global,
    rooms: &Rooms,
    effect: &Effect,
    effects: &mut Vec<Effect>,
) -> Result<(), NoMemory>
    ensures { OnOk result (effects.new.items ≡ effects.old.items ++ heard rooms.now effect.now) }
{
    match effect {
        Effect::Broadcast { room, item } => push_heard_in(alloc, rooms, *room, item, effects),
        _ => Ok(()),
    }
}

/// Appends the views of an effect, and carries it out in the rooms.
fn carry_out(
    alloc: Global,
    rooms: &mut Rooms,
    effect: &Effect,
    out: &mut Vec<Effect>,
) -> Result<(), NoMemory>
    requires { HasRoomFor 1 rooms.old }
    ensures cast { OnOk result (out.new.items ≡ out.old.items ++ heard rooms.old effect.now) }
    ensures after { OnOk result (rooms.new ≡ spec.step effect.now rooms.old) }
{
    push_heard(alloc, rooms, effect, out)?;
    rooms.step(alloc, effect)
}

/// Appends an effect behind its views, and carries it out in the rooms.
fn cast_one(
    alloc: Global,
    rooms: &mut Rooms,
    effect: Effect,
    out: &mut Vec<Effect>,
) -> Result<(), NoMemory>
    requires { HasRoomFor 1 rooms.old }
    ensures cast { OnOk result (out.new.items ≡ out.old.items ++ heard rooms.old effect ++ effect ∷ []) }
    ensures after { OnOk result (rooms.new ≡ spec.step effect rooms.old) }
{
    // The effect is handed over on every path.
    let carried_out = carry_out(alloc, rooms, &effect, out);
    out.push(effect)?;
    carried_out
}

/// The effects, with the views of each broadcast before it, by the rooms as they are when its turn comes; the rooms become what they are
/// afterwards. Costs a copy of a room for each effect that changes one, and a text for each view that is a session's own; the others share
/// two. Where there was no memory, what is left of the rooms is of no use.
pub fn cast(alloc: Global, rooms: &mut Rooms, effects: Vec<Effect>) -> Result<Vec<Effect>, NoMemory>
    requires { HasRoomForAll effects.items rooms.old }
    ensures cast { IfOk result (λ v. v.items ≡ cast rooms.old effects.items) }
    ensures after { OnOk result (rooms.new ≡ after rooms.old effects.items) }
{
    let mut out = Vec::new(alloc);
    for effect in effects {
        cast_one(alloc, rooms, effect, &mut out)?;
    }
    Ok(out)
}
