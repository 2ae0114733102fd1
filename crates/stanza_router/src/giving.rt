//! What goes to the sessions that a message finds, and what is kept of it (RFC 6121, 8.5; XEP-0313, 2).
ghost use Rattle.std.specs.Prelude.{◌≡◌, ◌++◌, ◌*◌, ◌^◌, ◌-◌, length, map, min, nat_lt, IfOk, OnOk, if◌then◌else◌};
ghost use Rattle.std.specs.Option.{option_copied};
ghost use Rattle.jid_core.specs.Addresses.{address_text};
ghost use Rattle.stanza_tree.specs.Entries.{frame};
ghost use Rattle.stanza_tree.specs.declared.frame.Origin.TheVariants.{Direct};
ghost use Rattle.stanza_router.specs.Messages.{addressed, given, is_kept, is_to_oneself, plain_text, queued_as, receiver, row_of, rows_for, told, told_text};

use jid_core::{Jid, Part};
use stanza_model::make::written;
use stanza_model::{
    Condition, Effect, Here, Keeping, MessageForm, Stanza, has_body, refuse, sent_without_ids,
    spelt_with_id,
};
use stanza_tree::{Element, Entry, NoMemory, Origin, Text, frame_length, push_frame};
use std::alloc::Global;

/// How many rows a message between two users becomes: one for each.
const MOST_ROWS: usize = 2;

/// The text of a message's address, or of the sender's bare one.
pub(crate) fn address_of(alloc: Global, who: &Here, to: Option<&Jid>) -> Result<Text, NoMemory>
    ensures { IfOk result (λ t. t ≡ address_text (addressed who.now (option_copied to.entry))) }
{
    match to {
        Some(to) => written(alloc, to),
        None => written(alloc, &who.address.bare(alloc)?),
    }
}

/// Whether a message is kept (XEP-0313, 2).
fn is_kept(form: MessageForm, message: &Element) -> bool
    ensures { result ≡ is_kept form message.now }
{
    match form {
        MessageForm::Chat | MessageForm::Normal => has_body(message),
        MessageForm::Headline | MessageForm::Groupchat | MessageForm::Error => false,
    }
}

/// A copy of the message for each session.
pub(crate) fn given(
    alloc: Global,
    who: &Here,
    stanza: &Stanza,
    to: Option<&Jid>,
    form: MessageForm,
    message: &Element,
    keeping: &Keeping,
    sessions: &[u64],
) -> Result<Vec<Effect>, NoMemory>
    ensures { IfOk result (λ effects. effects.items
        ≡ given who.now stanza.now (option_copied to.entry) form message.now keeping.now sessions.now) }
{
    let owner = receiver(alloc, who, to)?;
    let from = written(alloc, &who.address)?;
    let plain = sent_without_ids(alloc, &owner, message, &from)?;
    if is_kept(form, message) {
        told(
            alloc, who, stanza, to, message, keeping, sessions, &owner, &from, plain,
        )
    } else {
        copies(alloc, who, to, plain, sessions)
    }
}

/// A message that is kept: its copies, and a row for each of both users.
fn told(
    alloc: Global,
    who: &Here,
    stanza: &Stanza,
    to: Option<&Jid>,
    message: &Element,
    keeping: &Keeping,
    sessions: &[u64],
    owner: &Jid,
    from: &Text,
    plain: Text,
) -> Result<Vec<Effect>, NoMemory>
    requires owner { owner.now ≡ receiver who.now (option_copied to) }
    requires from { from.now ≡ address_text who.now.address }
    requires plain { plain ≡ plain_text who.now (option_copied to) message.now }
    ensures { IfOk result (λ effects. effects.items
        ≡ told who.now stanza.now (option_copied to.entry) message.now keeping.now sessions.now) }
{
    let oneself = is_to_oneself(who, to);
    let entry = Entry {
        to: address_of(alloc, who, to)?,
        rest: plain,
        origin: Origin::Direct,
    };
    let size = size_of(&entry)?;
    if is_too_much(oneself, size, keeping.free) {
        return refuse(alloc, who, stanza, Condition::ResourceConstraint);
    }
    let (row, plain) = (keeping.row, &entry.rest);
    let mut effects = told_copies(alloc, who, to, message, row, sessions, owner, from, plain)?;
    let text = framed(alloc, &entry, size)?;
    push_rows(alloc, who, to, oneself, text, keeping.moment, &mut effects)?;
    Ok(effects)
}

/// A copy with its id for each session.
fn told_copies(
    alloc: Global,
    who: &Here,
    to: Option<&Jid>,
    message: &Element,
    row: u64,
    sessions: &[u64],
    owner: &Jid,
    from: &Text,
    plain: &Text,
) -> Result<Vec<Effect>, NoMemory>
    requires owner { owner.now ≡ receiver who.now (option_copied to) }
    requires from { from.now ≡ address_text who.now.address }
    requires plain { plain.now ≡ plain_text who.now (option_copied to) message.now }
    ensures { IfOk result (λ effects. effects.items
        ≡ map (queued_as who.now (option_copied to.entry) (told_text who.now (option_copied to.entry) message.now row)) sessions.now) }
{
    if sessions.is_empty() {
        return Ok(Vec::new(alloc));
    }
    let told = spelt_with_id(alloc, owner, row, message, from, plain)?;
    copies(alloc, who, to, told, sessions)
}

/// A message with its address, as it is kept.
fn framed(alloc: Global, entry: &Entry, size: u64) -> Result<Text, NoMemory>
    requires { size ≡ length (frame entry.now) }
    ensures { IfOk result (λ t. t ≡ frame entry.now) }
{
    let mut out = Vec::with_capacity(alloc, size as usize)?;
    push_frame(entry, &mut out);
    Ok(Text::of_vec(out))
}

/// The number of bytes of an entry's frame. There is no memory for a frame of 2^64 - 1 bytes or more.
fn size_of(entry: &Entry) -> Result<u64, NoMemory>
    ensures { IfOk result (λ n. n ≡ length (frame entry.now)) }
{
    let size = length_of(entry);
    if size == u64::MAX {
        return Err(NoMemory);
    }
    Ok(size)
}

/// The number of bytes of an entry's frame; 2^64 - 1 stands for more.
fn length_of(entry: &Entry) -> u64
    ensures { result ≡ min (length (frame entry.now)) (2 ^ 64 - 1) }
{
    frame_length(entry.to.bytes(), entry.rest.bytes().len() as u64)
}

/// Whether a message is for its sender, where both are users of this server.
pub fn is_to_oneself(who: &Here, to: Option<&Jid>) -> bool
    ensures { result ≡ is_to_oneself who.now (option_copied to.entry) }
{
    let Some(to) = to else {
        return true;
    };
    match (&to.local, &who.address.local) {
        (Some(user), Some(own)) => user.bytes() == own.bytes(),
        (None, None) => true,
        _ => false,
    }
}

/// Whether a text of this size, kept once or twice, passes the room that there is.
fn is_too_much(once: bool, size: u64, free: u64) -> bool
    ensures { result ≡ nat_lt free ((if once then 1 else 2) * size) }
{
    if once { free < size } else { free / 2 < size }
}

/// A row for a user, if it is one.
fn push_row(
    alloc: Global,
    user: Option<&Part>,
    peer: Jid,
    text: Text,
    moment: u64,
    effects: &mut Vec<Effect>,
) -> Result<(), NoMemory>
    ensures { OnOk result (effects.new.items ≡ effects.old.items ++ row_of (option_copied user.entry) peer text moment) }
{
    if let Some(user) = user {
        effects.push(Effect::Keep {
            user: user.copy(alloc)?,
            peer,
            text,
            moment,
        })?;
    }
    Ok(())
}

/// The address of a message, or the sender's bare one.
fn addressed(alloc: Global, who: &Here, to: Option<&Jid>) -> Result<Jid, NoMemory>
    ensures { IfOk result (λ a. a ≡ addressed who.now (option_copied to.entry)) }
{
    match to {
        Some(to) => to.copy(alloc),
        None => who.address.bare(alloc),
    }
}

/// The bare address of whom a message is for.
fn receiver(alloc: Global, who: &Here, to: Option<&Jid>) -> Result<Jid, NoMemory>
    ensures { IfOk result (λ a. a ≡ receiver who.now (option_copied to.entry)) }
{
    match to {
        Some(to) => to.bare(alloc),
        None => who.address.bare(alloc),
    }
}

/// The sender's row, and the receiver's where it is another user. They share the text.
fn push_rows(
    alloc: Global,
    who: &Here,
    to: Option<&Jid>,
    oneself: bool,
    mut text: Text,
    moment: u64,
    effects: &mut Vec<Effect>,
) -> Result<(), NoMemory>
    requires { oneself ≡ is_to_oneself who.now (option_copied to) }
    ensures { OnOk result (effects.new.items ≡ effects.old.items ++ rows_for who.now (option_copied to.entry) text moment) }
{
    let to = addressed(alloc, who, to)?;
    let user = who.address.local.as_ref();
    if oneself {
        return push_row(alloc, user, to, text, moment, effects);
    }
    text.share(alloc)?;
    let peer = who.address.copy(alloc)?;
    push_row(
        alloc,
        user,
        to.copy(alloc)?,
        text.copy(alloc)?,
        moment,
        effects,
    )?;
    push_row(alloc, to.local.as_ref(), peer, text, moment, effects)
}

/// A copy of a message for each session. They share its text.
fn copies(
    alloc: Global,
    who: &Here,
    to: Option<&Jid>,
    mut rest: Text,
    sessions: &[u64],
) -> Result<Vec<Effect>, NoMemory>
    ensures { IfOk result (λ effects. effects.items ≡ map (queued_as who.now (option_copied to.entry) rest) sessions.now) }
{
    let mut effects = Vec::with_capacity(alloc, sessions.len().saturating_add(MOST_ROWS))?;
    let Some((last, others)) = sessions.split_last() else {
        return Ok(effects);
    };
    let mut to = address_of(alloc, who, to)?;
    if !others.is_empty() {
        to.share(alloc)?;
        rest.share(alloc)?;
    }
    for other in others {
        let (to, rest) = (to.copy(alloc)?, rest.copy(alloc)?);
        effects.push(queued(*other, to, rest))?;
    }
    effects.push(queued(*last, to, rest))?;
    Ok(effects)
}

fn queued(session: u64, to: Text, rest: Text) -> Effect
    ensures { result ≡ Effect.Queue session to rest Direct }
{
    Effect::Queue {
        session,
        to,
        rest,
        origin: Origin::Direct,
    }
}
