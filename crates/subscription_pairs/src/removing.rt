//! What comes of it for a contact that its owner removes it (RFC 6121, 2.5.2).
ghost use Rattle.std.specs.Prelude.{◌≡◌, ◌<◌, ◌-◌, ◌^◌, map, All, IfOk};
ghost use Rattle.subscription_pairs.specs.Changes.{both_ended, removal, then_cancelled, told, untold};

use crate::change::effects_of;
use crate::outcome::outbound;
use crate::party::{Party, side_of};
use stanza_model::{Effect, Here, Outcome, PresenceForm, Side};
use stanza_tree::NoMemory;
use std::alloc::Global;

/// What comes of it that a user removes another from its roster, but for the removal itself: the effects of `unsubscribe` and then
/// of `unsubscribed`, without pushes to the user's own sessions.
pub fn removal(alloc: Global, mine: &Party, theirs: &Party) -> Result<Vec<Effect>, NoMemory>
    requires mine { All (λ h. h.pushes < 2 ^ 64 - 1) mine.now.sessions }
    requires theirs { All (λ h. h.pushes < 2 ^ 64 - 2) theirs.now.sessions }
    ensures { IfOk result (λ effects. effects.items ≡ removal mine.now theirs.now) }
{
    if mine.bare.is_same_bare(theirs.bare) {
        return Ok(Vec::new(alloc));
    }
    let before = side_of(mine, theirs);
    let first = outbound(before, side_of(theirs, mine), PresenceForm::Unsubscribe);
    both_ended(alloc, mine, theirs, before, first)
}

fn both_ended(
    alloc: Global,
    mine: &Party,
    theirs: &Party,
    before: Side,
    first: Outcome,
) -> Result<Vec<Effect>, NoMemory>
    requires mine { All (λ h. h.pushes < 2 ^ 64 - 1) mine.now.sessions }
    requires theirs { All (λ h. h.pushes < 2 ^ 64 - 2) theirs.now.sessions }
    ensures { IfOk result (λ effects. effects.items ≡ both_ended mine.now theirs.now before first) }
{
    let mut effects = effects_of(alloc, mine, theirs, before, &untold(first))?;
    let mut more = then_cancelled(alloc, mine, theirs, first)?;
    effects.append(&mut more)?;
    Ok(effects)
}

fn then_cancelled(
    alloc: Global,
    mine: &Party,
    theirs: &Party,
    first: Outcome,
) -> Result<Vec<Effect>, NoMemory>
    requires mine { All (λ h. h.pushes < 2 ^ 64 - 1) mine.now.sessions }
    requires theirs { All (λ h. h.pushes < 2 ^ 64 - 2) theirs.now.sessions }
    ensures { IfOk result (λ effects. effects.items ≡ then_cancelled mine.now theirs.now first) }
{
    let second = outbound(first.mine, first.theirs, PresenceForm::Unsubscribed);
    if !first.push_theirs {
        return effects_of(alloc, mine, theirs, first.mine, &untold(second));
    }
    let sessions = told_all(alloc, theirs.sessions)?;
    let theirs = Party {
        bare: theirs.bare,
        contacts: theirs.contacts,
        sessions: sessions.as_slice(),
        presences: theirs.presences,
    };
    effects_of(alloc, mine, &theirs, first.mine, &untold(second))
}

/// The same without pushes to the sender's sessions.
fn untold(outcome: Outcome) -> Outcome
    ensures { result ≡ untold outcome }
{
    Outcome {
        push_mine: false,
        ..outcome
    }
}

/// A session after a push, where it is told of changes.
fn told(alloc: Global, session: &Here) -> Result<Here, NoMemory>
    requires { session.now.pushes < 2 ^ 64 - 2 }
    ensures told { IfOk result (λ h. h ≡ told session.now) }
    ensures few { IfOk result (λ h. h.pushes < 2 ^ 64 - 1) }
{
    Ok(Here {
        session: session.session,
        address: session.address.copy(alloc)?,
        available: session.available,
        priority: session.priority,
        wants_roster: session.wants_roster,
        pushes: session.pushes + session.wants_roster as u64,
    })
}

fn told_all(alloc: Global, sessions: &[Here]) -> Result<Vec<Here>, NoMemory>
    requires { All (λ h. h.pushes < 2 ^ 64 - 2) sessions.now }
    ensures told { IfOk result (λ v. v.items ≡ map told sessions.now) }
    ensures few { IfOk result (λ v. All (λ h. h.pushes < 2 ^ 64 - 1) v.items) }
{
    let mut all = Vec::new(alloc);
    for h in sessions {
        all.push(told(alloc, h)?)?;
    }
    Ok(all)
}
