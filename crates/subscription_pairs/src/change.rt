//! What comes of a subscription's stanza, as effects: first what changes, then what is pushed, delivered and shown (RFC 6121, 3).
ghost use Rattle.std.specs.Prelude.{◌≡◌, ◌<◌, ◌-◌, ◌^◌, ◌++◌, true, All, IfOk, OnOk};
ghost use Rattle.std.specs.Option.{option_map};
ghost use Rattle.subscription_pairs.specs.Changes.{asked, effects_of, is_made, made, pushed, pushed_mine, pushed_theirs};
ghost use Rattle.subscription_pairs.specs.Changes.{row_back, row_subscribe, row_subscribed, row_unsubscribe};
ghost use Rattle.subscription_pairs.specs.Changes.{row_unsubscribed, sees, subscription, unless_full};

use crate::delivery::{deliver, show};
use crate::limit::fits;
use crate::outcome::outbound;
use crate::party::{Party, item_by, new_contact, side_of, user_of};
use jid_core::Jid;
use stanza_model::{Change, Effect, Outcome, PresenceForm, Side, push_all};
use stanza_tree::{NoMemory, Several, Text};
use std::alloc::Global;

/// What comes of it that a user sends this to another. Nothing comes of it between a user and itself. None where a contact would
/// be made that the user's roster has no room for.
pub fn subscription(
    alloc: Global,
    mine: &Party,
    theirs: &Party,
    form: PresenceForm,
) -> Result<Option<Vec<Effect>>, NoMemory>
    requires mine { All (λ h. h.pushes < 2 ^ 64 - 1) mine.now.sessions }
    requires theirs { All (λ h. h.pushes < 2 ^ 64 - 1) theirs.now.sessions }
    ensures { IfOk result (λ effects. option_map (λ v. v.items) effects ≡ subscription mine.now theirs.now form) }
{
    if mine.bare.is_same_bare(theirs.bare) {
        return Ok(Some(Vec::new(alloc)));
    }
    let before = side_of(mine, theirs);
    let outcome = outbound(before, side_of(theirs, mine), form);
    unless_full(alloc, mine, theirs, before, &outcome)
}

fn unless_full(
    alloc: Global,
    mine: &Party,
    theirs: &Party,
    before: Side,
    outcome: &Outcome,
) -> Result<Option<Vec<Effect>>, NoMemory>
    requires mine { All (λ h. h.pushes < 2 ^ 64 - 1) mine.now.sessions }
    requires theirs { All (λ h. h.pushes < 2 ^ 64 - 1) theirs.now.sessions }
    ensures { IfOk result (λ effects. option_map (λ v. v.items) effects ≡ unless_full mine.now theirs.now before outcome.now) }
{
    if is_made(before, outcome) {
        let contact = new_contact(alloc, theirs.bare, outcome.mine)?;
        if !fits(alloc, mine.contacts, &contact)? {
            return Ok(None);
        }
    }
    Ok(Some(effects_of(alloc, mine, theirs, before, outcome)?))
}

/// Whether a contact is made.
fn is_made(before: Side, outcome: &Outcome) -> bool
    ensures { result ≡ is_made before outcome.now }
{
    outcome.mine.listed && !before.listed
}

pub(crate) fn effects_of(
    alloc: Global,
    mine: &Party,
    theirs: &Party,
    before: Side,
    outcome: &Outcome,
) -> Result<Vec<Effect>, NoMemory>
    requires mine { All (λ h. h.pushes < 2 ^ 64 - 1) mine.now.sessions }
    requires theirs { All (λ h. h.pushes < 2 ^ 64 - 1) theirs.now.sessions }
    ensures { IfOk result (λ effects. effects.items ≡ effects_of mine.now theirs.now before outcome.now) }
{
    match (outcome.back, outcome.deliver) {
        (true, Some(form)) => row_back(alloc, mine, theirs, form),
        (false, Some(PresenceForm::Subscribe)) => {
            row_subscribe(alloc, mine, theirs, before, outcome)
        }
        (false, Some(PresenceForm::Subscribed)) => {
            row_subscribed(alloc, mine, theirs, before, outcome)
        }
        (false, Some(PresenceForm::Unsubscribe)) => row_unsubscribe(alloc, mine, theirs, outcome),
        (false, Some(PresenceForm::Unsubscribed)) => row_unsubscribed(alloc, mine, theirs, outcome),
        _ => Ok(Vec::new(alloc)),
    }
}

fn row_back(
    alloc: Global,
    mine: &Party,
    theirs: &Party,
    form: PresenceForm,
) -> Result<Vec<Effect>, NoMemory>
    ensures { IfOk result (λ effects. effects.items ≡ row_back mine.now theirs.now form) }
{
    let mut effects = Vec::new(alloc);
    deliver(alloc, &mut effects, form, theirs.bare, mine.sessions)?;
    Ok(effects)
}

fn row_subscribe(
    alloc: Global,
    mine: &Party,
    theirs: &Party,
    before: Side,
    outcome: &Outcome,
) -> Result<Vec<Effect>, NoMemory>
    requires { All (λ h. h.pushes < 2 ^ 64 - 1) mine.now.sessions }
    ensures { IfOk result (λ effects. effects.items ≡ row_subscribe mine.now theirs.now before outcome.now) }
{
    let mut effects = Vec::new(alloc);
    make(alloc, &mut effects, mine, theirs, before, outcome)?;
    effects.push(asked(alloc, mine.bare, theirs.bare, true)?)?;
    push_mine(alloc, &mut effects, mine, theirs, outcome)?;
    let form = PresenceForm::Subscribe;
    deliver(alloc, &mut effects, form, mine.bare, theirs.sessions)?;
    Ok(effects)
}

fn row_subscribed(
    alloc: Global,
    mine: &Party,
    theirs: &Party,
    before: Side,
    outcome: &Outcome,
) -> Result<Vec<Effect>, NoMemory>
    requires mine { All (λ h. h.pushes < 2 ^ 64 - 1) mine.now.sessions }
    requires theirs { All (λ h. h.pushes < 2 ^ 64 - 1) theirs.now.sessions }
    ensures { IfOk result (λ effects. effects.items ≡ row_subscribed mine.now theirs.now before outcome.now) }
{
    let mut effects = Vec::new(alloc);
    effects.push(asked(alloc, theirs.bare, mine.bare, false)?)?;
    effects.push(sees(alloc, theirs.bare, mine.bare, true)?)?;
    make(alloc, &mut effects, mine, theirs, before, outcome)?;
    let form = PresenceForm::Subscribed;
    deliver(alloc, &mut effects, form, mine.bare, theirs.sessions)?;
    push_theirs(alloc, &mut effects, mine, theirs, outcome)?;
    push_mine(alloc, &mut effects, mine, theirs, outcome)?;
    show(alloc, &mut effects, outcome.show, mine, theirs)?;
    Ok(effects)
}

fn row_unsubscribe(
    alloc: Global,
    mine: &Party,
    theirs: &Party,
    outcome: &Outcome,
) -> Result<Vec<Effect>, NoMemory>
    requires mine { All (λ h. h.pushes < 2 ^ 64 - 1) mine.now.sessions }
    requires theirs { All (λ h. h.pushes < 2 ^ 64 - 1) theirs.now.sessions }
    ensures { IfOk result (λ effects. effects.items ≡ row_unsubscribe mine.now theirs.now outcome.now) }
{
    let mut effects = Vec::new(alloc);
    effects.push(sees(alloc, mine.bare, theirs.bare, false)?)?;
    effects.push(asked(alloc, mine.bare, theirs.bare, false)?)?;
    let form = PresenceForm::Unsubscribe;
    deliver(alloc, &mut effects, form, mine.bare, theirs.sessions)?;
    push_mine(alloc, &mut effects, mine, theirs, outcome)?;
    push_theirs(alloc, &mut effects, mine, theirs, outcome)?;
    show(alloc, &mut effects, outcome.show, mine, theirs)?;
    Ok(effects)
}

fn row_unsubscribed(
    alloc: Global,
    mine: &Party,
    theirs: &Party,
    outcome: &Outcome,
) -> Result<Vec<Effect>, NoMemory>
    requires mine { All (λ h. h.pushes < 2 ^ 64 - 1) mine.now.sessions }
    requires theirs { All (λ h. h.pushes < 2 ^ 64 - 1) theirs.now.sessions }
    ensures { IfOk result (λ effects. effects.items ≡ row_unsubscribed mine.now theirs.now outcome.now) }
{
    let mut effects = Vec::new(alloc);
    effects.push(sees(alloc, theirs.bare, mine.bare, false)?)?;
    effects.push(asked(alloc, theirs.bare, mine.bare, false)?)?;
    let form = PresenceForm::Unsubscribed;
    deliver(alloc, &mut effects, form, mine.bare, theirs.sessions)?;
    push_theirs(alloc, &mut effects, mine, theirs, outcome)?;
    push_mine(alloc, &mut effects, mine, theirs, outcome)?;
    show(alloc, &mut effects, outcome.show, mine, theirs)?;
    Ok(effects)
}

fn sees(alloc: Global, a: &Jid, b: &Jid, yes: bool) -> Result<Effect, NoMemory>
    ensures { IfOk result (λ effect. effect ≡ sees a.now b.now yes) }
{
    let (a, b) = (a.copy(alloc)?, b.copy(alloc)?);
    Ok(Effect::Set(Change::Sees { a, b, yes }))
}

fn asked(alloc: Global, a: &Jid, b: &Jid, yes: bool) -> Result<Effect, NoMemory>
    ensures { IfOk result (λ effect. effect ≡ asked a.now b.now yes) }
{
    let (a, b) = (a.copy(alloc)?, b.copy(alloc)?);
    Ok(Effect::Set(Change::Asked { a, b, yes }))
}

/// The contact is made where it is not there yet.
fn make(
    alloc: Global,
    effects: &mut Vec<Effect>,
    mine: &Party,
    theirs: &Party,
    before: Side,
    outcome: &Outcome,
) -> Result<(), NoMemory>
    ensures { OnOk result (effects.new.items ≡ effects.old.items ++ made mine.now theirs.now before outcome.now) }
{
    if is_made(before, outcome) {
        effects.push(Effect::Set(Change::Contact {
            user: user_of(mine.bare).copy(alloc)?,
            address: theirs.bare.copy(alloc)?,
            name: Text::empty(alloc),
            groups: Several::of(Vec::new(alloc)),
        }))?;
    }
    Ok(())
}

/// The sessions of a user are told of the contact of that address, as it is by this side.
fn push_contact(
    alloc: Global,
    effects: &mut Vec<Effect>,
    party: &Party,
    address: &Jid,
    side: Side,
) -> Result<(), NoMemory>
    requires { All (λ h. h.pushes < 2 ^ 64 - 1) party.now.sessions }
    ensures { OnOk result (effects.new.items ≡ effects.old.items ++ pushed party.now address.now side) }
{
    let item = item_by(alloc, party, address, side)?;
    push_all(alloc, effects, party.sessions, &item)
}

fn push_mine(
    alloc: Global,
    effects: &mut Vec<Effect>,
    mine: &Party,
    theirs: &Party,
    outcome: &Outcome,
) -> Result<(), NoMemory>
    requires { All (λ h. h.pushes < 2 ^ 64 - 1) mine.now.sessions }
    ensures { OnOk result (effects.new.items ≡ effects.old.items ++ pushed_mine mine.now theirs.now outcome.now) }
{
    if outcome.push_mine {
        push_contact(alloc, effects, mine, theirs.bare, outcome.mine)?;
    }
    Ok(())
}

fn push_theirs(
    alloc: Global,
    effects: &mut Vec<Effect>,
    mine: &Party,
    theirs: &Party,
    outcome: &Outcome,
) -> Result<(), NoMemory>
    requires { All (λ h. h.pushes < 2 ^ 64 - 1) theirs.now.sessions }
    ensures { OnOk result (effects.new.items ≡ effects.old.items ++ pushed_theirs mine.now theirs.now outcome.now) }
{
    if outcome.push_theirs {
        push_contact(alloc, effects, theirs, mine.bare, outcome.theirs)?;
    }
    Ok(())
}
