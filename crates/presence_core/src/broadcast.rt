//! Presence without an address, available and unavailable (RFC 6121, 4.2 to 4.5).
ghost use Rattle.std.specs.Prelude.{◌≡◌, ◌++◌, map, not, ◌&&◌, IfOk, OnOk};
ghost use Rattle.std.specs.Option.{option_copied};
ghost use Rattle.stanza_tree.specs.Spelling.{text};
ghost use Rattle.presence_core.specs.Broadcasts.{announced, asked_by, available, departure, is_among, is_sent, leaves, others};
ghost use Rattle.presence_core.specs.Broadcasts.{presence_from, request_from, seen_by, set_unavailable, shown_to, unavailable};
ghost use Rattle.presence_core.specs.Copies.{copies};

use crate::copies::{copy_to, presence_text, push_copies};
use crate::priority::priority_in;
use jid_core::Jid;
use stanza_model::make::{element_of, push_attr, spelt, text_of, written};
use stanza_model::{Change, Condition, Effect, Here, PresenceForm, Shown, Stanza, refuse, say_to};
use stanza_tree::{Element, NoMemory, Origin, Several, Text};
use std::alloc::Global;

/// `<presence from='ADDRESS' type='FORM'/>`.
fn presence_from(alloc: Global, from: &Jid, form: &str) -> Result<Element, NoMemory>
    ensures { IfOk result (λ e. e ≡ presence_from from.now form.now) }
{
    let mut attrs = Vec::new(alloc);
    push_attr(&mut attrs, alloc, "from", written(alloc, from)?)?;
    push_attr(&mut attrs, alloc, "type", text_of(alloc, form)?)?;
    element_of(alloc, "jabber:client", "presence", attrs, Vec::new(alloc))
}

/// What comes of available presence of `who` without an address (RFC 6121, 4.2.2 and 4.4.2). `watchers` are the available sessions of
/// those who see the presence of its user, and then those of the user, `who` too. `shown` are the presences that `who` sees, and
/// `asking` the addresses that have asked for the user's presence: only a session that was unavailable is told of them. Costs one
/// spelling of the presence, whatever the number of watchers.
pub fn available(
    alloc: Global,
    who: &Here,
    stanza: &Stanza,
    watchers: &[Here],
    shown: &[Shown],
    asking: &[Jid],
) -> Result<Vec<Effect>, NoMemory>
    ensures { IfOk result (λ effects. effects.items ≡ available who.now stanza.now watchers.now shown.now asking.now) }
{
    let Stanza::Presence {
        to: None,
        form: PresenceForm::Available,
        element,
    } = stanza
    else {
        return Ok(Vec::new(alloc));
    };
    let Some(priority) = priority_in(alloc, element)? else {
        return refuse(alloc, who, stanza, Condition::BadRequest);
    };
    let mut effects = announced(alloc, who, element, priority, watchers)?;
    if !who.available {
        push_welcome(alloc, who, shown, asking, &mut effects)?;
    }
    Ok(effects)
}

/// The session is available with this presence, and each of `watchers` is sent it.
fn announced(
    alloc: Global,
    who: &Here,
    element: &Element,
    priority: i16,
    watchers: &[Here],
) -> Result<Vec<Effect>, NoMemory>
    ensures { IfOk result (λ effects. effects.items ≡ announced priority who.now element.now watchers.now) }
{
    let rest = presence_text(alloc, who, element)?;
    let mut effects = Vec::with_capacity(alloc, watchers.len().saturating_add(1))?;
    effects.push(Effect::Set(Change::Available {
        session: who.session,
        stanza: rest.copy(alloc)?,
        priority,
    }))?;
    push_copies(alloc, &rest, watchers, &mut effects)?;
    Ok(effects)
}

/// What a session is told as it becomes available: the presences that it sees, and then who asks for its user's.
fn push_welcome(
    alloc: Global,
    who: &Here,
    shown: &[Shown],
    asking: &[Jid],
    effects: &mut Vec<Effect>,
) -> Result<(), NoMemory>
    ensures { OnOk result (effects.new.items ≡ effects.old.items ++ (map (shown_to who.now) shown.now ++ map (asked_by who.now) asking.now)) }
{
    for presence in shown {
        effects.push(shown_to(alloc, who, presence)?)?;
    }
    for from in asking {
        effects.push(asked_by(alloc, who, from)?)?;
    }
    Ok(())
}

fn shown_to(alloc: Global, who: &Here, presence: &Shown) -> Result<Effect, NoMemory>
    ensures { IfOk result (λ effect. effect ≡ shown_to who.now presence.now) }
{
    Ok(Effect::Queue {
        session: who.session,
        to: presence.to.copy(alloc)?,
        rest: presence.rest.copy(alloc)?,
        origin: Origin::Direct,
    })
}

fn request_from(alloc: Global, from: &Jid) -> Result<Element, NoMemory>
    ensures { IfOk result (λ e. e ≡ request_from from.now) }
{
    presence_from(alloc, from, "subscribe")
}

fn asked_by(alloc: Global, who: &Here, from: &Jid) -> Result<Effect, NoMemory>
    ensures { IfOk result (λ effect. effect ≡ asked_by who.now from.now) }
{
    let request = request_from(alloc, from)?;
    say_to(alloc, who, &request)
}

/// What comes of unavailable presence of `who` without an address (RFC 6121, 4.5.2), or, where there is no stanza, of its departure, of
/// which it is told nothing itself. `watchers` are those of `available`; they get it where `who` was available. `directed` are the
/// sessions that the addresses of its directed list now name, each once; those who got it as watchers don't get it again. Costs one
/// spelling of the presence, and for each session of `directed` a search of `watchers`.
pub fn unavailable(
    alloc: Global,
    who: &Here,
    stanza: Option<&Stanza>,
    watchers: &[Here],
    directed: &[Here],
) -> Result<Vec<Effect>, NoMemory>
    ensures { IfOk result (λ effects. effects.items ≡ unavailable who.now (option_copied stanza.entry) watchers.now directed.now) }
{
    match stanza {
        None => {
            let rest = departure_text(alloc, who)?;
            leaves(alloc, Some(who.session), who, &rest, watchers, directed)
        }
        Some(
            Stanza::Presence {
                to: None,
                form: PresenceForm::Unavailable,
                element,
            },
        ) => {
            let rest = presence_text(alloc, who, element)?;
            leaves(alloc, None, who, &rest, watchers, directed)
        }
        Some(_) => Ok(Vec::new(alloc)),
    }
}

fn departure(alloc: Global, who: &Here) -> Result<Element, NoMemory>
    ensures { IfOk result (λ e. e ≡ departure who.now) }
{
    presence_from(alloc, &who.address, "unavailable")
}

/// The text of the presence that the server sends for a session that departs, which its copies share.
fn departure_text(alloc: Global, who: &Here) -> Result<Text, NoMemory>
    ensures { IfOk result (λ t. t ≡ text (departure who.now)) }
{
    let presence = departure(alloc, who)?;
    let mut rest = spelt(alloc, &presence)?;
    rest.share(alloc)?;
    Ok(rest)
}

/// Unavailable presence of this text. `departing` is the number of the session where it departs.
fn leaves(
    alloc: Global,
    departing: Option<u64>,
    who: &Here,
    rest: &Text,
    watchers: &[Here],
    directed: &[Here],
) -> Result<Vec<Effect>, NoMemory>
    ensures { IfOk result (λ effects. effects.items ≡ leaves departing who.now rest.now watchers.now directed.now) }
{
    let mut effects = Vec::new(alloc);
    let got = seen_by(who, watchers);
    push_others(alloc, departing, rest, &[], got, &mut effects)?;
    push_unavailable(who, &mut effects)?;
    push_others(alloc, departing, rest, got, directed, &mut effects)?;
    effects.push(Effect::Set(Change::Directed {
        session: who.session,
        addresses: Several::of(Vec::new(alloc)),
    }))?;
    Ok(effects)
}

/// Those who see that a session is available no more.
fn seen_by<'a>(who: &Here, watchers: &'a [Here]) -> &'a [Here]
    ensures { result.now ≡ seen_by who.now watchers.now }
{
    if who.available { watchers } else { &[] }
}

/// The session is unavailable, where it was available.
fn push_unavailable(who: &Here, effects: &mut Vec<Effect>) -> Result<(), NoMemory>
    ensures { OnOk result (effects.new.items ≡ effects.old.items ++ set_unavailable who.now) }
{
    if who.available {
        effects.push(Effect::Set(Change::Unavailable {
            session: who.session,
        }))?;
    }
    Ok(())
}

/// Adds a copy of a presence for each receiver but for those who got it.
fn push_others(
    alloc: Global,
    departing: Option<u64>,
    rest: &Text,
    got: &[Here],
    receivers: &[Here],
    effects: &mut Vec<Effect>,
) -> Result<(), NoMemory>
    ensures { OnOk result (effects.new.items ≡ effects.old.items ++ copies rest.now (others departing got.now receivers.now)) }
{
    for receiver in receivers {
        if is_sent(departing, receiver) && !is_among(got, receiver) {
            effects.push(copy_to(alloc, rest, receiver)?)?;
        }
    }
    Ok(())
}

fn is_sent(departing: Option<u64>, receiver: &Here) -> bool
    ensures { result ≡ is_sent departing receiver.now }
{
    match departing {
        Some(session) => receiver.session != session,
        None => true,
    }
}

fn is_among(sessions: &[Here], receiver: &Here) -> bool
    ensures { result ≡ is_among sessions.now receiver.now }
{
    sessions
        .iter()
        .any(|other| other.session == receiver.session)
}
