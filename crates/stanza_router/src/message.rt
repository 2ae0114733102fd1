//! What comes of a message (RFC 6121, 8.5).
ghost use Rattle.std.specs.Prelude.{◌≡◌, [], map, IfOk};
ghost use Rattle.std.specs.List.{filter, list_any};
ghost use Rattle.std.specs.Option.{option_copied};
ghost use Rattle.jid_core.specs.Addresses.{same_part, address_text};
ghost use Rattle.stanza_model.specs.declared.here.Here.{Here};
ghost use Rattle.stanza_router.specs.Messages.{addressed, at_address, copied_to, deliveries, else_of_user, given_to, is_reached, of_full};
ghost use Rattle.stanza_router.specs.Messages.{of_user, receivers_of, route_of, to_full, to_no_session, to_user};

use crate::giving::{address_of, given};
use crate::places::Place;
use jid_core::{Jid, Part};
use stanza_model::make::written;
use stanza_model::{Condition, Effect, Here, Keeping, MessageForm, Stanza, refuse};
use stanza_tree::{Element, NoMemory, Origin, sent_text};
use std::alloc::Global;

/// What is done with a message.
#[derive(Clone, Copy, Debug, PartialEq, Eq)]
enum Route {
    /// It goes to its receivers, who may be none.
    Deliver,
    /// The sender is told this condition, unless the message is of the type `error`.
    Refuse(Condition),
    Drop,
}

/// The numbers of those among a user's sessions who get a message of this type to that place. `sessions` are the sessions of the
/// place's user that go on.
pub fn message_receivers(
    alloc: Global,
    form: MessageForm,
    place: &Place,
    sessions: &[Here],
) -> Result<Vec<u64>, NoMemory>
    ensures { IfOk result (λ numbers. numbers.items ≡ map (λ h. h.session) (receivers_of form place.now sessions.now)) }
{
    match place {
        Place::Account | Place::User(_) => of_user(alloc, form, sessions),
        Place::UserAt(_, resource) => of_full(alloc, form, resource, sessions),
        _ => Ok(Vec::new(alloc)),
    }
}

/// Whether a message to its user reaches a session (RFC 6121, 8.5.2.1.1).
fn is_reached(session: &Here) -> bool
    ensures { result ≡ is_reached session.now }
{
    session.available && session.priority >= 0
}

/// The numbers of the sessions that a message to their user reaches.
fn reached(alloc: Global, sessions: &[Here]) -> Result<Vec<u64>, NoMemory>
    ensures { IfOk result (λ numbers. numbers.items ≡ map (λ h. h.session) (filter is_reached sessions.now)) }
{
    let mut numbers = Vec::new(alloc);
    for h in sessions {
        if is_reached(h) {
            numbers.push(h.session)?;
        }
    }
    Ok(numbers)
}

fn of_user(alloc: Global, form: MessageForm, sessions: &[Here]) -> Result<Vec<u64>, NoMemory>
    ensures { IfOk result (λ numbers. numbers.items ≡ map (λ h. h.session) (of_user form sessions.now)) }
{
    match form {
        MessageForm::Chat | MessageForm::Normal | MessageForm::Headline => reached(alloc, sessions),
        MessageForm::Groupchat | MessageForm::Error => Ok(Vec::new(alloc)),
    }
}

/// Whether a session has this resource.
fn has_resource(session: &Here, resource: &Part) -> bool
    ensures { result ≡ same_part session.now.address.resource (Some resource.now) }
{
    match &session.address.resource {
        Some(own) => own.bytes() == resource.bytes(),
        None => false,
    }
}

/// The numbers of the sessions that have this resource.
fn at_address(alloc: Global, resource: &Part, sessions: &[Here]) -> Result<Vec<u64>, NoMemory>
    ensures { IfOk result (λ numbers. numbers.items ≡ map (λ h. h.session) (at_address resource.now sessions.now)) }
{
    sessions
        .iter()
        .filter(|h| has_resource(h, resource))
        .map(|h| h.session)
        .collect(alloc)
}

/// The numbers of those who get a message to an address that no session has.
fn of_nobody(alloc: Global, form: MessageForm, sessions: &[Here]) -> Result<Vec<u64>, NoMemory>
    ensures { IfOk result (λ numbers. numbers.items ≡ map (λ h. h.session) (else_of_user form sessions.now [])) }
{
    match form {
        MessageForm::Chat => reached(alloc, sessions),
        _ => Ok(Vec::new(alloc)),
    }
}

fn of_full(
    alloc: Global,
    form: MessageForm,
    resource: &Part,
    sessions: &[Here],
) -> Result<Vec<u64>, NoMemory>
    ensures { IfOk result (λ numbers. numbers.items ≡ map (λ h. h.session) (of_full form resource.now sessions.now)) }
{
    let numbers = at_address(alloc, resource, sessions)?;
    if numbers.is_empty() {
        return of_nobody(alloc, form, sessions);
    }
    Ok(numbers)
}

/// Keeps those among a user's sessions who get a message of this type to that place, as `message_receivers` tells their numbers.
pub fn keep_receivers(form: MessageForm, place: &Place, sessions: &mut Vec<Here>)
    ensures { sessions.new.items ≡ receivers_of form place.now sessions.old.items }
{
    match place {
        Place::Account | Place::User(_) => keep_of_user(form, sessions),
        Place::UserAt(_, resource) => keep_of_full(form, resource, sessions),
        _ => sessions.clear(),
    }
}

fn keep_reached(sessions: &mut Vec<Here>)
    ensures { sessions.new.items ≡ filter is_reached sessions.old.items }
{
    sessions.retain(|h| is_reached(h));
}

fn keep_of_user(form: MessageForm, sessions: &mut Vec<Here>)
    ensures { sessions.new.items ≡ of_user form sessions.old.items }
{
    match form {
        MessageForm::Chat | MessageForm::Normal | MessageForm::Headline => keep_reached(sessions),
        MessageForm::Groupchat | MessageForm::Error => sessions.clear(),
    }
}

fn keep_at_address(resource: &Part, sessions: &mut Vec<Here>)
    ensures { sessions.new.items ≡ at_address resource.now sessions.old.items }
{
    sessions.retain(|h| has_resource(h, resource));
}

/// Whether some session has this resource.
fn is_at_address(resource: &Part, sessions: &[Here]) -> bool
    ensures { result ≡ list_any (λ h. same_part h.address.resource (Some resource.now)) sessions.now }
{
    sessions.iter().any(|h| has_resource(h, resource))
}

fn keep_of_nobody(form: MessageForm, sessions: &mut Vec<Here>)
    ensures { sessions.new.items ≡ else_of_user form sessions.old.items [] }
{
    match form {
        MessageForm::Chat => keep_reached(sessions),
        _ => sessions.clear(),
    }
}

fn keep_of_full(form: MessageForm, resource: &Part, sessions: &mut Vec<Here>)
    ensures { sessions.new.items ≡ of_full form resource.now sessions.old.items }
{
    if is_at_address(resource, sessions.as_slice()) {
        keep_at_address(resource, sessions);
    } else {
        keep_of_nobody(form, sessions);
    }
}

/// What comes of a message of `who` to that place: a copy for each of `receivers`, whom `message_receivers` gave, or an error for the
/// sender. `known` says whether the place's user has an account. A chat or normal message with a body is kept for both users, and its copies
/// tell the id that it has in the receiver's archive; where there is no room for it, nothing is delivered. Messages to rooms and occupants are
/// not this call's: nothing comes of them here. Costs a spelling of the message and two copies of that, whatever the number of receivers.
/// One that comes with an id, or whose namespace isn't that of stanzas, is copied and spelt once more.
pub fn deliver(
    alloc: Global,
    who: &Here,
    stanza: &Stanza,
    place: &Place,
    known: bool,
    receivers: &[Here],
    keeping: &Keeping,
) -> Result<Vec<Effect>, NoMemory>
    ensures { IfOk result (λ effects. effects.items ≡ deliveries who.now stanza.now place.now known receivers.now keeping.now) }
{
    let Stanza::Message { to, form, element } = stanza else {
        return Ok(Vec::new(alloc));
    };
    match route_of(place, known, *form, receivers) {
        Route::Deliver => {
            let sessions = numbers(alloc, receivers)?;
            given(
                alloc,
                who,
                stanza,
                to.as_ref(),
                *form,
                element,
                keeping,
                sessions.as_slice(),
            )
        }
        Route::Refuse(condition) => refuse(alloc, who, stanza, condition),
        Route::Drop => Ok(Vec::new(alloc)),
    }
}

/// What comes of a message of `who` to the address of a session that goes on: a copy for it. It is kept as `deliver` has it.
pub fn deliver_to(
    alloc: Global,
    who: &Here,
    stanza: &Stanza,
    session: u64,
    keeping: &Keeping,
) -> Result<Vec<Effect>, NoMemory>
    ensures { IfOk result (λ effects. effects.items ≡ given_to who.now stanza.now session keeping.now) }
{
    let Stanza::Message { to, form, element } = stanza else {
        return Ok(Vec::new(alloc));
    };
    let sessions = [session];
    given(
        alloc,
        who,
        stanza,
        to.as_ref(),
        *form,
        element,
        keeping,
        &sessions,
    )
}

/// The numbers of sessions.
fn numbers(alloc: Global, sessions: &[Here]) -> Result<Vec<u64>, NoMemory>
    ensures { IfOk result (λ numbers. numbers.items ≡ map (λ h. h.session) sessions.now) }
{
    let mut numbers = Vec::new(alloc);
    for h in sessions {
        numbers.push(h.session)?;
    }
    Ok(numbers)
}

fn route_of(place: &Place, known: bool, form: MessageForm, receivers: &[Here]) -> Route
    ensures { result ≡ route_of place.now known form receivers.now }
{
    match place {
        Place::Foreign => Route::Refuse(Condition::RemoteServerNotFound),
        Place::Server | Place::Service => Route::Refuse(Condition::ServiceUnavailable),
        Place::Room(_) | Place::RoomAt(_, _) => Route::Drop,
        _ if !known => Route::Refuse(Condition::ServiceUnavailable),
        Place::Account | Place::User(_) => to_user(form),
        Place::UserAt(_, _) if receivers.is_empty() => to_no_session(form),
        Place::UserAt(_, _) => Route::Deliver,
    }
}

fn to_user(form: MessageForm) -> Route
    ensures { result ≡ to_user form }
{
    match form {
        MessageForm::Chat | MessageForm::Normal | MessageForm::Headline => Route::Deliver,
        MessageForm::Groupchat => Route::Refuse(Condition::ServiceUnavailable),
        MessageForm::Error => Route::Drop,
    }
}

/// A message to the address of a session that isn't there.
fn to_no_session(form: MessageForm) -> Route
    ensures { result ≡ to_no_session form }
{
    match form {
        MessageForm::Chat => Route::Deliver,
        MessageForm::Normal | MessageForm::Headline | MessageForm::Groupchat => {
            Route::Refuse(Condition::ServiceUnavailable)
        }
        MessageForm::Error => Route::Drop,
    }
}

/// A copy of a stanza for one session.
pub fn copy_to(
    alloc: Global,
    who: &Here,
    to: Option<&Jid>,
    element: &Element,
    session: u64,
) -> Result<Effect, NoMemory>
    ensures { IfOk result (λ effect. effect ≡ copied_to who.now (option_copied to.entry) element.now session) }
{
    let from = written(alloc, &who.address)?;
    Ok(Effect::Queue {
        session,
        to: address_of(alloc, who, to)?,
        rest: sent_text(alloc, element, from.bytes())?,
        origin: Origin::Direct,
    })
}
