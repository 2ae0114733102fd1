//! What comes of a subscription's stanza, by the two sides (RFC 6121, 3 and appendix A).
ghost use Rattle.std.specs.Prelude.{◌≡◌};
ghost use Rattle.stanza_model.specs.Subscriptions.{answered, approved, cancelled, outbound, requested, state, unchanged, withdrawn};

use stanza_model::{Outcome, PresenceForm, Show, Side, Subscription};

/// The state of a contact's item, by its owner's side (RFC 6121, 2.1.2.5).
pub fn state(side: Side) -> Subscription
    ensures { result ≡ state side }
{
    match (side.sees, side.seen) {
        (true, true) => Subscription::Both,
        (true, false) => Subscription::To,
        (false, true) => Subscription::From,
        (false, false) => Subscription::Neither,
    }
}

/// What comes of it that a user sends this to another. `mine` is the sender's side, `theirs` is the other's.
pub fn outbound(mine: Side, theirs: Side, form: PresenceForm) -> Outcome
    ensures { result ≡ outbound mine theirs form }
{
    match form {
        PresenceForm::Subscribe if mine.sees => answered(mine, theirs),
        PresenceForm::Subscribe => requested(mine, theirs),
        PresenceForm::Subscribed if mine.asked_by => approved(mine, theirs),
        PresenceForm::Unsubscribe if mine.sees || mine.asked => withdrawn(mine, theirs),
        PresenceForm::Unsubscribed if mine.seen || mine.asked_by => cancelled(mine, theirs),
        _ => unchanged(mine, theirs),
    }
}

fn unchanged(mine: Side, theirs: Side) -> Outcome
    ensures { result ≡ unchanged mine theirs }
{
    Outcome {
        mine,
        theirs,
        deliver: None,
        back: false,
        push_mine: false,
        push_theirs: false,
        show: Show::Nothing,
    }
}

/// The sender is subscribed already, and is told so on behalf of the other.
fn answered(mine: Side, theirs: Side) -> Outcome
    ensures { result ≡ answered mine theirs }
{
    Outcome {
        deliver: Some(PresenceForm::Subscribed),
        back: true,
        ..unchanged(mine, theirs)
    }
}

/// A subscription is requested.
fn requested(mine: Side, theirs: Side) -> Outcome
    ensures { result ≡ requested mine theirs }
{
    Outcome {
        mine: Side {
            asked: true,
            listed: true,
            ..mine
        },
        theirs: Side {
            asked_by: true,
            ..theirs
        },
        deliver: Some(PresenceForm::Subscribe),
        push_mine: true,
        ..unchanged(mine, theirs)
    }
}

/// The other's request is approved.
fn approved(mine: Side, theirs: Side) -> Outcome
    ensures { result ≡ approved mine theirs }
{
    Outcome {
        mine: Side {
            asked_by: false,
            seen: true,
            listed: true,
            ..mine
        },
        theirs: Side {
            asked: false,
            sees: true,
            ..theirs
        },
        deliver: Some(PresenceForm::Subscribed),
        back: false,
        push_mine: true,
        push_theirs: theirs.listed,
        show: Show::MineAvailable,
    }
}

/// The sender unsubscribes, or takes its request back.
fn withdrawn(mine: Side, theirs: Side) -> Outcome
    ensures { result ≡ withdrawn mine theirs }
{
    Outcome {
        mine: Side {
            sees: false,
            asked: false,
            ..mine
        },
        theirs: Side {
            seen: false,
            asked_by: false,
            ..theirs
        },
        deliver: Some(PresenceForm::Unsubscribe),
        back: false,
        push_mine: mine.listed,
        push_theirs: mine.sees && theirs.listed,
        show: if mine.sees {
            Show::TheirsUnavailable
        } else {
            Show::Nothing
        },
    }
}

/// The other's subscription is cancelled, or its request denied.
fn cancelled(mine: Side, theirs: Side) -> Outcome
    ensures { result ≡ cancelled mine theirs }
{
    Outcome {
        mine: Side {
            seen: false,
            asked_by: false,
            ..mine
        },
        theirs: Side {
            sees: false,
            asked: false,
            ..theirs
        },
        deliver: Some(PresenceForm::Unsubscribed),
        back: false,
        push_mine: mine.seen && mine.listed,
        push_theirs: theirs.listed,
        show: if mine.seen {
            Show::MineUnavailable
        } else {
            Show::Nothing
        },
    }
}
