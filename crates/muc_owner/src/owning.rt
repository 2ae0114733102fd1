//! Requests of a room's owners: how it is configured, and its end (XEP-0045, 10.1 to 10.2 and 10.9).
ghost use Rattle.std.specs.Prelude.{◌≡◌, ◌++◌, map, IfOk, OnOk};
ghost use Rattle.std.specs.Option.{option_copied};
ghost use Rattle.stanza_model.specs.Forms.{form_of};
ghost use Rattle.muc_owner.specs.Owning.{cancels, configured_so, configures, configures_by, destroy_in, destroys, destroys_by, form_query};
ghost use Rattle.muc_owner.specs.Owning.{granted, is_cancel, nicks_in, nicks_of, owner, owner_as, owner_by, query_in, reason_in, seat_nick, set_as};
ghost use Rattle.muc_owner.specs.Owning.{form_shown, set_by, set_form, x_in};

use crate::reason::{copy_reason, told_if};
use muc_roles::is_owner;
use muc_room::affiliation_of;
use muc_settings::{
    Draft, FORM_SPACE, config_form, config_of, has_wrong, lacks_password, lacks_type, put_all,
};
use stanza_model::make::{element_of, one_child};
use stanza_model::{
    Change, Condition, Config, DataForm, Effect, Field, FormFault, Here, IqForm, Nicked, Occupant,
    Room, RoomItem, Seat, Stanza, refuse, result_of, say_to,
};
use stanza_tree::{Element, NoMemory, Several};
use std::alloc::Global;

/// The namespace of the requests of owners (XEP-0045, 15.1).
const OWNER_SPACE: &str = "http://jabber.org/protocol/muc#owner";

/// The empty result.
fn granted(alloc: Global, who: &Here, request: &Stanza) -> Result<Effect, NoMemory>
    ensures { IfOk result (λ effect. effect ≡ granted who.now request.now) }
{
    let result = result_of(alloc, request, Vec::new(alloc))?;
    say_to(alloc, who, &result)
}

fn form_query(alloc: Global, config: &Config) -> Result<Element, NoMemory>
    ensures { IfOk result (λ e. e ≡ form_query config.now) }
{
    let content = one_child(alloc, config_form(alloc, config)?)?;
    element_of(alloc, OWNER_SPACE, "query", Vec::new(alloc), content)
}

/// The form by which the room is configured (XEP-0045, 10.2).
fn form_shown(
    alloc: Global,
    room: &Room,
    who: &Here,
    request: &Stanza,
) -> Result<Vec<Effect>, NoMemory>
    ensures { IfOk result (λ effects. effects.items ≡ form_shown room.now who.now request.now) }
{
    let query = form_query(alloc, &room.config)?;
    let result = result_of(alloc, request, one_child(alloc, query)?)?;
    let mut effects = Vec::new(alloc);
    effects.push(say_to(alloc, who, &result)?)?;
    Ok(effects)
}

/// The room has this configuration, and is locked no more.
fn configured_so(
    alloc: Global,
    room: &Room,
    who: &Here,
    request: &Stanza,
    config: Config,
) -> Result<Vec<Effect>, NoMemory>
    ensures { IfOk result (λ effects. effects.items ≡ configured_so room.now who.now request.now config) }
{
    let mut effects = Vec::new(alloc);
    effects.push(Effect::Set(Change::Configured {
        room: room.number,
        config,
    }))?;
    effects.push(Effect::Set(Change::Unlocked { room: room.number }))?;
    effects.push(granted(alloc, who, request)?)?;
    Ok(effects)
}

fn configures_by(
    alloc: Global,
    room: &Room,
    who: &Here,
    request: &Stanza,
    draft: Draft,
) -> Result<Vec<Effect>, NoMemory>
    ensures { IfOk result (λ effects. effects.items ≡ configures_by room.now who.now request.now draft) }
{
    if lacks_password(&draft) {
        return refuse(alloc, who, request, Condition::NotAcceptable);
    }
    let config = config_of(alloc, draft);
    configured_so(alloc, room, who, request, config)
}

/// The room is configured by these fields, unless one has a wrong value or none says the form's type.
fn configures(
    alloc: Global,
    room: &Room,
    who: &Here,
    request: &Stanza,
    fields: &[Field],
) -> Result<Vec<Effect>, NoMemory>
    ensures { IfOk result (λ effects. effects.items ≡ configures room.now who.now request.now fields.now) }
{
    if has_wrong(fields) || lacks_type(fields) {
        return refuse(alloc, who, request, Condition::BadRequest);
    }
    let draft = put_all(alloc, &room.config, fields)?;
    configures_by(alloc, room, who, request, draft)
}

fn seat_nick(alloc: Global, occupant: &Occupant, seat: &Seat) -> Result<Nicked, NoMemory>
    ensures { IfOk result (λ n. n ≡ seat_nick occupant.now.nick seat.now) }
{
    Ok(Nicked {
        session: seat.session,
        nick: occupant.nick.copy(alloc)?,
    })
}

fn push_nicks(
    alloc: Global,
    occupant: &Occupant,
    seats: &[Seat],
    nicks: &mut Vec<Nicked>,
) -> Result<(), NoMemory>
    ensures { OnOk result (nicks.new.items ≡ nicks.old.items ++ map (seat_nick occupant.now.nick) seats.now) }
{
    for seat in seats {
        nicks.push(seat_nick(alloc, occupant, seat)?)?;
    }
    Ok(())
}

fn push_nicks_in(
    alloc: Global,
    occupant: &Occupant,
    nicks: &mut Vec<Nicked>,
) -> Result<(), NoMemory>
    ensures { OnOk result (nicks.new.items ≡ nicks.old.items ++ nicks_in occupant.now) }
{
    push_nicks(alloc, occupant, occupant.seats.slice(), nicks)
}

/// The nick of each session in a room.
fn nicks_of(alloc: Global, occupants: &[Occupant]) -> Result<Vec<Nicked>, NoMemory>
    ensures { IfOk result (λ nicks. nicks.items ≡ nicks_of occupants.now) }
{
    let mut nicks = Vec::new(alloc);
    for occupant in occupants {
        push_nicks_in(alloc, occupant, &mut nicks)?;
    }
    Ok(nicks)
}

/// The room is destroyed (XEP-0045, 10.9).
fn destroys(
    alloc: Global,
    room: &Room,
    who: &Here,
    request: &Stanza,
    reason: Option<&Element>,
) -> Result<Vec<Effect>, NoMemory>
    ensures { IfOk result (λ effects. effects.items ≡ destroys room.now who.now request.now (option_copied reason.entry)) }
{
    let reason = copy_reason(alloc, reason)?;
    let nicks = Several::of(nicks_of(alloc, room.occupants.slice())?);
    let mut effects = Vec::new(alloc);
    effects.push(Effect::Broadcast {
        room: room.number,
        item: RoomItem::Destroyed { reason, nicks },
    })?;
    effects.push(Effect::Set(Change::RoomGone { room: room.number }))?;
    effects.push(granted(alloc, who, request)?)?;
    Ok(effects)
}

/// The form isn't submitted: a room that is still locked isn't made (XEP-0045, 10.1.3).
fn cancels(
    alloc: Global,
    room: &Room,
    who: &Here,
    request: &Stanza,
) -> Result<Vec<Effect>, NoMemory>
    ensures { IfOk result (λ effects. effects.items ≡ cancels room.now who.now request.now) }
{
    if room.locked {
        return destroys(alloc, room, who, request, None);
    }
    let mut effects = Vec::new(alloc);
    effects.push(granted(alloc, who, request)?)?;
    Ok(effects)
}

fn is_cancel(x: &Element) -> bool
    ensures { result ≡ is_cancel x.now }
{
    match x.attr(b"type") {
        Some(value) => value.bytes() == b"cancel".as_slice(),
        None => false,
    }
}

/// The form that an element submits, if it does.
fn form_in(alloc: Global, x: &Element) -> Result<Option<DataForm>, NoMemory>
    ensures { IfOk result (λ form. form ≡ form_of x.now) }
{
    match DataForm::read(alloc, x) {
        Ok(form) => Ok(Some(form)),
        Err(FormFault::NoMemory) => Err(NoMemory),
        Err(FormFault::NotSubmit) => Ok(None),
    }
}

fn reason_in(destroy: &Element) -> Option<&Element>
    ensures { option_copied result ≡ reason_in destroy.now }
{
    destroy.child(OWNER_SPACE.as_bytes(), b"reason")
}

/// The room is destroyed where the query says so, with the reason that it has.
fn destroys_by(
    alloc: Global,
    room: &Room,
    who: &Here,
    request: &Stanza,
    destroy: Option<&Element>,
) -> Result<Vec<Effect>, NoMemory>
    ensures { IfOk result (λ effects. effects.items ≡ destroys_by room.now who.now request.now (option_copied destroy.entry)) }
{
    match destroy {
        Some(destroy) => {
            let told = told_if(alloc, reason_in(destroy))?;
            destroys(alloc, room, who, request, told.as_ref())
        }
        None => refuse(alloc, who, request, Condition::BadRequest),
    }
}

fn set_form(
    alloc: Global,
    room: &Room,
    who: &Here,
    request: &Stanza,
    x: &Element,
    form: Option<&DataForm>,
    destroy: Option<&Element>,
) -> Result<Vec<Effect>, NoMemory>
    ensures { IfOk result (λ effects. effects.items
        ≡ set_form room.now who.now request.now x.now (option_copied form.entry) (option_copied destroy.entry)) }
{
    if let Some(form) = form {
        return configures(alloc, room, who, request, form.fields.slice());
    }
    if is_cancel(x) {
        cancels(alloc, room, who, request)
    } else {
        destroys_by(alloc, room, who, request, destroy)
    }
}

fn set_as(
    alloc: Global,
    room: &Room,
    who: &Here,
    request: &Stanza,
    x: Option<&Element>,
    destroy: Option<&Element>,
) -> Result<Vec<Effect>, NoMemory>
    ensures { IfOk result (λ effects. effects.items
        ≡ set_as room.now who.now request.now (option_copied x.entry) (option_copied destroy.entry)) }
{
    match x {
        Some(x) => {
            let form = form_in(alloc, x)?;
            set_form(alloc, room, who, request, x, form.as_ref(), destroy)
        }
        None => destroys_by(alloc, room, who, request, destroy),
    }
}

fn x_in(query: &Element) -> Option<&Element>
    ensures { option_copied result ≡ x_in query.now }
{
    query.child(FORM_SPACE.as_bytes(), b"x")
}

fn destroy_in(query: &Element) -> Option<&Element>
    ensures { option_copied result ≡ destroy_in query.now }
{
    query.child(OWNER_SPACE.as_bytes(), b"destroy")
}

/// What comes of a set with this query.
fn set_by(
    alloc: Global,
    room: &Room,
    who: &Here,
    request: &Stanza,
    query: &Element,
) -> Result<Vec<Effect>, NoMemory>
    ensures { IfOk result (λ effects. effects.items ≡ set_by room.now who.now request.now query.now) }
{
    set_as(alloc, room, who, request, x_in(query), destroy_in(query))
}

fn owner_as(
    alloc: Global,
    room: &Room,
    who: &Here,
    request: &Stanza,
    form: IqForm,
    query: &Element,
) -> Result<Vec<Effect>, NoMemory>
    ensures { IfOk result (λ effects. effects.items ≡ owner_as room.now who.now request.now form query.now) }
{
    match form {
        IqForm::Get => form_shown(alloc, room, who, request),
        IqForm::Set => set_by(alloc, room, who, request, query),
        IqForm::Result | IqForm::Error => Ok(Vec::new(alloc)),
    }
}

fn owner_by(
    alloc: Global,
    room: &Room,
    who: &Here,
    request: &Stanza,
    form: IqForm,
    query: Option<&Element>,
) -> Result<Vec<Effect>, NoMemory>
    ensures { IfOk result (λ effects. effects.items
        ≡ owner_by room.now who.now request.now form (option_copied query.entry)) }
{
    let Some(query) = query else {
        return Ok(Vec::new(alloc));
    };
    if is_owner(affiliation_of(&who.address, room.affiliations.slice())) {
        owner_as(alloc, room, who, request, form, query)
    } else {
        refuse(alloc, who, request, Condition::Forbidden)
    }
}

fn query_in(request: &Element) -> Option<&Element>
    ensures { option_copied result ≡ query_in request.now }
{
    request.child(OWNER_SPACE.as_bytes(), b"query")
}

/// What comes of a request of an owner to a room. A get shows the form by which the room is configured (XEP-0045, 10.2). A set with that form
/// configures it, so that others may enter it (10.1.2 and 10.1.3); one with a cancelled form gives up a room that is still locked; one
/// with `destroy` ends the room (10.9). Nobody is removed by a new configuration.
pub fn owner(
    alloc: Global,
    room: &Room,
    who: &Here,
    request: &Stanza,
) -> Result<Vec<Effect>, NoMemory>
    ensures { IfOk result (λ effects. effects.items ≡ owner room.now who.now request.now) }
{
    let Stanza::Iq { form, element, .. } = request else {
        return Ok(Vec::new(alloc));
    };
    owner_by(alloc, room, who, request, *form, query_in(element))
}
