//! Messages to a room and to an occupant (XEP-0045, 7.4, 7.5 and 8.1).
ghost use Rattle.std.specs.Prelude.{◌≡◌, ◌++◌, map, Some, IfOk, OnOk, if◌then◌else◌};
ghost use Rattle.std.specs.Option.{option_copied};
ghost use Rattle.jid_core.specs.Addresses.{address_text};
ghost use Rattle.stanza_tree.specs.Spelling.{text};
ghost use Rattle.stanza_tree.specs.Stamps.{sent_by};
ghost use Rattle.stanza_model.specs.Replies.{one_child, refused};
ghost use Rattle.stanza_model.specs.declared.condition.Condition.TheVariants.{ResourceConstraint};
ghost use Rattle.muc_room.specs.Saying.{direct, has_child, is_marked, is_silent, is_subject, is_too_much, marked, may_change_subject, private_text};
ghost use Rattle.muc_room.specs.Saying.{private_to, row_if, said, said_as, say, says, subject_if, whispers, whispers_as, with_row_id};
ghost use Rattle.muc_room.specs.Seats.{occupant_of};
ghost use Rattle.muc_room.specs.Views.{at};

use crate::seats::{holder_of, occupant_of};
use crate::views::{CLIENT_SPACE, USER_SPACE, at, x_of};
use jid_core::{Jid, Part};
use stanza_model::make::written;
use stanza_model::{
    Change, Condition, Effect, Here, Keeping, MessageForm, Occupant, Role, Room, RoomItem, Seat,
    Stanza, has_body, refuse, sent_with_id, sent_without_ids,
};
use stanza_tree::{Element, NoMemory, Node, Origin, Several, Text, sent_text};
use std::alloc::Global;
use std::mem;

/// Whether an occupant in this role has no voice (XEP-0045, 5.1.1).
fn is_silent(role: Role, moderated: bool) -> bool
    ensures { result ≡ is_silent role moderated }
{
    moderated && matches!(role, Role::Visitor)
}

fn has_child(message: &Element, local: &[u8]) -> bool
    ensures { result ≡ has_child local.now message.now }
{
    message.child(CLIENT_SPACE.as_bytes(), local).is_some()
}

/// Whether a message sets the subject: it has one, and neither a body nor a thread (XEP-0045, 8.1).
fn is_subject(message: &Element) -> bool
    ensures { result ≡ is_subject message.now }
{
    has_child(message, b"subject") && !has_child(message, b"body") && !has_child(message, b"thread")
}

fn may_change_subject(role: Role, change_subject: bool) -> bool
    ensures { result ≡ may_change_subject role change_subject }
{
    match role {
        Role::Moderator => true,
        Role::Participant => change_subject,
        Role::Visitor | Role::Nobody => false,
    }
}

/// The address of an occupant.
fn address_of(alloc: Global, room: &Room, occupant: &Occupant) -> Result<Jid, NoMemory>
    ensures { IfOk result (λ a. a ≡ at room.now.address (Some occupant.now.nick)) }
{
    at(alloc, &room.address, Some(&occupant.nick))
}

/// A message as the room hands it on, which its copies share: from the occupant's address, and with the id of this row where it has a body.
fn message_text(
    alloc: Global,
    room: &Room,
    from: &Jid,
    row: u64,
    message: &Element,
) -> Result<Text, NoMemory>
    ensures { IfOk result (λ t. t ≡ text (sent_by (address_text from.now) (with_row_id room.now row message.now))) }
{
    let from = written(alloc, from)?;
    let mut text = if has_body(message) {
        sent_with_id(alloc, &room.address, row, message, &from)?
    } else {
        sent_without_ids(alloc, &room.address, message, &from)?
    };
    text.share(alloc)?;
    Ok(text)
}

fn push_row(
    alloc: Global,
    body: bool,
    room: u64,
    peer: &Jid,
    text: &Text,
    moment: u64,
    effects: &mut Vec<Effect>,
) -> Result<(), NoMemory>
    ensures { OnOk result (effects.new.items ≡ effects.old.items ++ row_if body room peer.now text.now moment) }
{
    if body {
        effects.push(Effect::Set(Change::RoomRow {
            room,
            peer: peer.copy(alloc)?,
            text: text.copy(alloc)?,
            moment,
        }))?;
    }
    Ok(())
}

fn push_subject(
    alloc: Global,
    subject: bool,
    room: u64,
    text: &Text,
    stamp: &Text,
    effects: &mut Vec<Effect>,
) -> Result<(), NoMemory>
    ensures { OnOk result (effects.new.items ≡ effects.old.items ++ subject_if subject room text.now stamp.now) }
{
    if subject {
        effects.push(Effect::Set(Change::Subject {
            room,
            text: text.copy(alloc)?,
            stamp: stamp.copy(alloc)?,
        }))?;
    }
    Ok(())
}

fn said_as(
    alloc: Global,
    room: &Room,
    from: &Jid,
    keeping: &Keeping,
    stamp: &Text,
    message: &Element,
    text: &Text,
) -> Result<Vec<Effect>, NoMemory>
    ensures { IfOk result (λ effects. effects.items ≡ said_as room.now from.now keeping.now stamp.now message.now text.now) }
{
    let body = has_body(message);
    let mut effects = Vec::new(alloc);
    effects.push(Effect::Broadcast {
        room: room.number,
        item: RoomItem::Message {
            text: text.copy(alloc)?,
            body,
            from: from.copy(alloc)?,
            moment: keeping.moment,
        },
    })?;
    push_row(
        alloc,
        body,
        room.number,
        from,
        text,
        keeping.moment,
        &mut effects,
    )?;
    let subject = is_subject(message);
    push_subject(alloc, subject, room.number, text, stamp, &mut effects)?;
    Ok(effects)
}

/// What an occupant with a voice says: it is handed on, where there is room for what is to be kept of it.
fn said(
    alloc: Global,
    room: &Room,
    who: &Here,
    stanza: &Stanza,
    keeping: &Keeping,
    stamp: &Text,
    message: &Element,
    occupant: &Occupant,
) -> Result<Vec<Effect>, NoMemory>
    ensures { IfOk result (λ effects. effects.items
        ≡ (if is_too_much room.now occupant.now keeping.now message.now then refused who.now stanza.now ResourceConstraint
        else said room.now occupant.now keeping.now stamp.now message.now)) }
{
    let from = address_of(alloc, room, occupant)?;
    let text = message_text(alloc, room, &from, keeping.row, message)?;
    if has_body(message) && keeping.free < text.bytes().len() as u64 {
        return refuse(alloc, who, stanza, Condition::ResourceConstraint);
    }
    said_as(alloc, room, &from, keeping, stamp, message, &text)
}

fn says(
    alloc: Global,
    room: &Room,
    who: &Here,
    stanza: &Stanza,
    keeping: &Keeping,
    stamp: &Text,
    message: &Element,
    occupant: &Occupant,
) -> Result<Vec<Effect>, NoMemory>
    ensures { IfOk result (λ effects. effects.items
        ≡ says room.now who.now stanza.now keeping.now stamp.now message.now occupant.now) }
{
    if is_silent(occupant.role, room.config.moderated) {
        refuse(alloc, who, stanza, Condition::Forbidden)
    } else if is_subject(message)
        && !may_change_subject(occupant.role, room.config.change_subject)
    {
        refuse(alloc, who, stanza, Condition::Forbidden)
    } else {
        said(alloc, room, who, stanza, keeping, stamp, message, occupant)
    }
}

/// What comes of a groupchat message to a room (XEP-0045, 7.4): it is broadcast, is kept where it has a body (XEP-0313, 2), and is the room's
/// subject where it sets one (8.1). One who isn't in the room, or has no voice in it, is refused, and so is what there is no room for.
/// `keeping` is of the room's archive, and `stamp` its moment as it is written. Costs one spelling of the message, whatever the number of
/// occupants.
pub fn say(
    alloc: Global,
    room: &Room,
    who: &Here,
    stanza: &Stanza,
    keeping: &Keeping,
    stamp: &Text,
) -> Result<Vec<Effect>, NoMemory>
    ensures { IfOk result (λ effects. effects.items ≡ say room.now who.now stanza.now keeping.now stamp.now) }
{
    let Stanza::Message {
        form: MessageForm::Groupchat,
        element,
        ..
    } = stanza
    else {
        return Ok(Vec::new(alloc));
    };
    match occupant_of(who.session, room.occupants.slice()) {
        Some(occupant) => says(alloc, room, who, stanza, keeping, stamp, element, occupant),
        None => refuse(alloc, who, stanza, Condition::NotAcceptable),
    }
}

/// Adds a child last.
fn add_child(alloc: Global, element: &mut Element, child: Element) -> Result<(), NoMemory>
    ensures { OnOk result (element.new ≡ record element.old { children = element.old.children ++ one_child child }) }
{
    let mut children = mem::replace(&mut element.children, Several::of(Vec::new(alloc))).into_vec();
    let done = children.push(Node::Child(child));
    element.children = Several::of(children);
    Ok(done?)
}

fn is_marked(message: &Element) -> bool
    ensures { result ≡ is_marked message.now }
{
    message.child(USER_SPACE.as_bytes(), b"x").is_some()
}

/// A private message, which has an `x` of the room's.
fn marked(alloc: Global, message: &Element) -> Result<Element, NoMemory>
    ensures { IfOk result (λ e. e ≡ marked message.now) }
{
    let mut marked = message.copy(alloc)?;
    if is_marked(message) {
        return Ok(marked);
    }
    let x = x_of(alloc, Vec::new(alloc))?;
    add_child(alloc, &mut marked, x)?;
    Ok(marked)
}

/// A private message as the room hands it on.
fn private_text(
    alloc: Global,
    room: &Room,
    occupant: &Occupant,
    message: &Element,
) -> Result<Text, NoMemory>
    ensures { IfOk result (λ t. t ≡ private_text room.now occupant.now message.now) }
{
    let from = written(alloc, &at(alloc, &room.address, Some(&occupant.nick))?)?;
    let marked = marked(alloc, message)?;
    let mut text = sent_text(alloc, &marked, from.bytes())?;
    text.share(alloc)?;
    Ok(text)
}

fn private_to(alloc: Global, rest: &Text, seat: &Seat) -> Result<Effect, NoMemory>
    ensures { IfOk result (λ effect. effect ≡ private_to rest.now seat.now) }
{
    Ok(Effect::Queue {
        session: seat.session,
        to: written(alloc, &seat.address)?,
        rest: rest.copy(alloc)?,
        origin: Origin::Direct,
    })
}

fn private_to_all(alloc: Global, rest: &Text, seats: &[Seat]) -> Result<Vec<Effect>, NoMemory>
    ensures { IfOk result (λ effects. effects.items ≡ map (private_to rest.now) seats.now) }
{
    let mut effects = Vec::new(alloc);
    for seat in seats {
        effects.push(private_to(alloc, rest, seat)?)?;
    }
    Ok(effects)
}

fn whispers(
    alloc: Global,
    room: &Room,
    who: &Here,
    stanza: &Stanza,
    message: &Element,
    occupant: &Occupant,
    other: Option<&Occupant>,
) -> Result<Vec<Effect>, NoMemory>
    ensures { IfOk result (λ effects. effects.items
        ≡ whispers room.now who.now stanza.now message.now occupant.now (option_copied other.entry)) }
{
    match other {
        Some(other) => {
            let rest = private_text(alloc, room, occupant, message)?;
            private_to_all(alloc, &rest, other.seats.slice())
        }
        None => refuse(alloc, who, stanza, Condition::ItemNotFound),
    }
}

fn whispers_as(
    alloc: Global,
    room: &Room,
    who: &Here,
    stanza: &Stanza,
    form: MessageForm,
    message: &Element,
    nick: &Part,
) -> Result<Vec<Effect>, NoMemory>
    ensures { IfOk result (λ effects. effects.items
        ≡ whispers_as room.now who.now stanza.now form message.now nick.now (occupant_of who.now.session room.now.occupants)) }
{
    let Some(occupant) = occupant_of(who.session, room.occupants.slice()) else {
        return refuse(alloc, who, stanza, Condition::NotAcceptable);
    };
    if form == MessageForm::Groupchat {
        return refuse(alloc, who, stanza, Condition::BadRequest);
    }
    let other = holder_of(nick, room.occupants.slice());
    whispers(alloc, room, who, stanza, message, occupant, other)
}

/// What comes of a message to an occupant (XEP-0045, 7.5): each session that has the nick gets it, from the sender's nick. One who isn't in
/// the room is refused, and so are a groupchat message and a nick that nobody has.
pub fn direct(
    alloc: Global,
    room: &Room,
    who: &Here,
    stanza: &Stanza,
) -> Result<Vec<Effect>, NoMemory>
    ensures { IfOk result (λ effects. effects.items ≡ direct room.now who.now stanza.now) }
{
    let Stanza::Message {
        to: Some(to),
        form,
        element,
    } = stanza
    else {
        return Ok(Vec::new(alloc));
    };
    match &to.resource {
        Some(nick) => whispers_as(alloc, room, who, stanza, *form, element, nick),
        None => Ok(Vec::new(alloc)),
    }
}
