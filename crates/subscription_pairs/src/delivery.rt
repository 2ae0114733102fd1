//! The presence that is queued because of a subscription (RFC 6121, 3).
ghost use Rattle.std.specs.Prelude.{◌≡◌, ◌++◌, [], IfOk, OnOk};
ghost use Rattle.std.specs.Option.{option_map};
ghost use Rattle.jid_core.specs.Addresses.{address_text};
ghost use Rattle.stanza_tree.specs.Spelling.{text};
ghost use Rattle.stanza_tree.specs.declared.frame.Origin.TheVariants.{Direct};
ghost use Rattle.subscription_pairs.specs.Deliveries.{all_sent_to, delivered, form_name, presence_from, receives, sent_to, shown, unavailable_of};

use crate::party::Party;
use jid_core::Jid;
use stanza_model::make::{element_of, push_attr, spelt, text_of, written};
use stanza_model::{Effect, Here, PresenceForm, Show};
use stanza_tree::{Element, NoMemory, Origin, Text};
use std::alloc::Global;

/// The type of a presence; an available one has none (RFC 6121, 4.7.1).
fn form_name(form: PresenceForm) -> Option<&'static str>
    ensures { option_map (λ name. name.now) result ≡ form_name form }
{
    match form {
        PresenceForm::Available => None,
        PresenceForm::Unavailable => Some("unavailable"),
        PresenceForm::Subscribe => Some("subscribe"),
        PresenceForm::Subscribed => Some("subscribed"),
        PresenceForm::Unsubscribe => Some("unsubscribe"),
        PresenceForm::Unsubscribed => Some("unsubscribed"),
        PresenceForm::Probe => Some("probe"),
        PresenceForm::Error => Some("error"),
    }
}

/// A presence without its `to`.
fn presence_from(alloc: Global, address: &Jid, form: PresenceForm) -> Result<Element, NoMemory>
    ensures { IfOk result (λ e. e ≡ presence_from address.now form) }
{
    let mut attrs = Vec::new(alloc);
    push_attr(&mut attrs, alloc, "from", written(alloc, address)?)?;
    if let Some(name) = form_name(form) {
        push_attr(&mut attrs, alloc, "type", text_of(alloc, name)?)?;
    }
    element_of(alloc, "jabber:client", "presence", attrs, Vec::new(alloc))
}

fn presence_text(alloc: Global, address: &Jid, form: PresenceForm) -> Result<Text, NoMemory>
    ensures { IfOk result (λ t. t ≡ text (presence_from address.now form)) }
{
    let presence = presence_from(alloc, address, form)?;
    spelt(alloc, &presence)
}

/// Whether a session gets a presence of this type that is for its user.
fn receives(form: PresenceForm, session: &Here) -> bool
    ensures { result ≡ receives form session.now }
{
    match form {
        PresenceForm::Subscribe => session.available,
        _ => session.wants_roster,
    }
}

fn queued(alloc: Global, session: &Here, rest: &Text) -> Result<Effect, NoMemory>
    ensures { IfOk result (λ effect. effect ≡ Effect.Queue session.now.session (address_text session.now.address) rest.now Direct) }
{
    Ok(Effect::Queue {
        session: session.session,
        to: written(alloc, &session.address)?,
        rest: rest.copy(alloc)?,
        origin: Origin::Direct,
    })
}

/// A presence of this type is delivered to a user, from that bare address.
pub(crate) fn deliver(
    alloc: Global,
    effects: &mut Vec<Effect>,
    form: PresenceForm,
    address: &Jid,
    sessions: &[Here],
) -> Result<(), NoMemory>
    ensures { OnOk result (effects.new.items ≡ effects.old.items ++ delivered form address.now sessions.now) }
{
    let mut presence = presence_text(alloc, address, form)?;
    presence.share(alloc)?;
    for h in sessions {
        if receives(form, h) {
            effects.push(queued(alloc, h, &presence)?)?;
        }
    }
    Ok(())
}

/// A presence is sent to each available session.
fn send(
    alloc: Global,
    effects: &mut Vec<Effect>,
    sessions: &[Here],
    presence: &Text,
) -> Result<(), NoMemory>
    ensures { OnOk result (effects.new.items ≡ effects.old.items ++ sent_to sessions.now presence.now) }
{
    for h in sessions {
        if h.available {
            effects.push(queued(alloc, h, presence)?)?;
        }
    }
    Ok(())
}

fn send_all(
    alloc: Global,
    effects: &mut Vec<Effect>,
    sessions: &[Here],
    presences: &[Text],
) -> Result<(), NoMemory>
    ensures { OnOk result (effects.new.items ≡ effects.old.items ++ all_sent_to sessions.now presences.now) }
{
    for presence in presences {
        send(alloc, effects, sessions, presence)?;
    }
    Ok(())
}

/// That each available session is unavailable, from its full address.
fn unavailable_of(alloc: Global, sessions: &[Here]) -> Result<Vec<Text>, NoMemory>
    ensures { IfOk result (λ texts. texts.items ≡ unavailable_of sessions.now) }
{
    let mut texts = Vec::new(alloc);
    for h in sessions {
        if h.available {
            texts.push(presence_text(alloc, &h.address, PresenceForm::Unavailable)?)?;
        }
    }
    Ok(texts)
}

fn send_unavailable(
    alloc: Global,
    effects: &mut Vec<Effect>,
    sessions: &[Here],
    gone: &[Here],
) -> Result<(), NoMemory>
    ensures { OnOk result (effects.new.items ≡ effects.old.items ++ all_sent_to sessions.now (unavailable_of gone.now)) }
{
    let texts = unavailable_of(alloc, gone)?;
    send_all(alloc, effects, sessions, texts.as_slice())
}

/// The presence that is shown because a subscription changed.
pub(crate) fn show(
    alloc: Global,
    effects: &mut Vec<Effect>,
    what: Show,
    mine: &Party,
    theirs: &Party,
) -> Result<(), NoMemory>
    ensures { OnOk result (effects.new.items ≡ effects.old.items ++ shown what mine.now theirs.now) }
{
    match what {
        Show::Nothing => Ok(()),
        Show::MineAvailable => send_all(alloc, effects, theirs.sessions, mine.presences),
        Show::MineUnavailable => send_unavailable(alloc, effects, theirs.sessions, mine.sessions),
        Show::TheirsUnavailable => send_unavailable(alloc, effects, mine.sessions, theirs.sessions),
    }
}
