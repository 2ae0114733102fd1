//! Invitations to a room, and how they are declined (XEP-0045, 7.8.2).
ghost use Rattle.std.specs.Prelude.{◌≡◌, ◌++◌, IfOk, OnOk};
ghost use Rattle.std.specs.Option.{option_copied};
ghost use Rattle.stanza_tree.specs.Spelling.{text};
ghost use Rattle.muc_owner.specs.Inviting.{becomes_member, call_element, called, called_by, called_in, copies, copy_to, decline_nodes, declines};
ghost use Rattle.muc_owner.specs.Inviting.{invite, invite_nodes, invite_refusal, invites, made_member, may_call, message_with, x_in};
ghost use Rattle.muc_owner.specs.Inviting.{password_element, password_nodes};

use crate::invitation::{Invitation, USER_SPACE, has_call, invitation_of, is_decline};
use jid_core::Jid;
use muc_admin::too_large;
use muc_roles::governs;
use muc_room::{affiliation_of, is_listed, occupant_of};
use stanza_model::make::{element_of, one_child, push_attr, spelt, written};
use stanza_model::{Affiliation, Change, Condition, Effect, Here, Room, Stanza, refuse};
use stanza_tree::{Element, NoMemory, Node, Origin, Text};
use std::alloc::Global;

/// The namespace of stanzas (RFC 6120, 4.8.2).
const CLIENT_SPACE: &str = "jabber:client";

/// Whether the session is in the room, or only declines.
fn may_call(room: &Room, who: &Here, x: &Element) -> bool
    ensures { result ≡ may_call room.now who.now x.now }
{
    occupant_of(who.session, room.occupants.slice()).is_some() || is_decline(x)
}

/// Whether a user becomes a member by being invited.
fn becomes_member(room: &Room, address: &Jid) -> bool
    ensures { result ≡ becomes_member room.now address.now }
{
    room.config.members_only && !is_listed(affiliation_of(address, room.affiliations.slice()))
}

/// Why the session may not invite this user.
fn invite_refusal(
    alloc: Global,
    room: &Room,
    who: &Here,
    address: &Jid,
) -> Result<Option<Condition>, NoMemory>
    ensures { IfOk result (λ c. c ≡ invite_refusal room.now who.now address.now) }
{
    let known = room.affiliations.slice();
    if room.config.members_only && !governs(affiliation_of(&who.address, known)) {
        Ok(Some(Condition::Forbidden))
    } else if becomes_member(room, address) {
        too_large(alloc, address, Affiliation::Member, known)
    } else {
        Ok(None)
    }
}

fn push_member(
    alloc: Global,
    room: &Room,
    address: &Jid,
    effects: &mut Vec<Effect>,
) -> Result<(), NoMemory>
    ensures { OnOk result (effects.new.items ≡ effects.old.items ++ made_member room.now address.now) }
{
    if becomes_member(room, address) {
        effects.push(Effect::Set(Change::Affiliated {
            room: room.number,
            address: address.copy(alloc)?,
            affiliation: Affiliation::Member,
        }))?;
    }
    Ok(())
}

/// `<invite from='USER'>` or `<decline from='USER'>` with the reason.
fn call_element(
    alloc: Global,
    local: &str,
    who: &Here,
    reason: Option<&Element>,
) -> Result<Element, NoMemory>
    ensures { IfOk result (λ e. e ≡ call_element local.now who.now (option_copied reason.entry)) }
{
    let from = who.address.bare(alloc)?;
    let mut attrs = Vec::new(alloc);
    push_attr(&mut attrs, alloc, "from", written(alloc, &from)?)?;
    let mut nodes = Vec::new(alloc);
    if let Some(reason) = reason {
        nodes.push(Node::Child(reason.copy(alloc)?))?;
    }
    element_of(alloc, USER_SPACE, local, attrs, nodes)
}

fn password_element(alloc: Global, secret: &Text) -> Result<Element, NoMemory>
    ensures { IfOk result (λ e. e ≡ password_element secret.now) }
{
    let mut words = Vec::new(alloc);
    words.push(Node::Words(secret.copy(alloc)?))?;
    element_of(alloc, USER_SPACE, "password", Vec::new(alloc), words)
}

fn push_password(alloc: Global, secret: &Text, nodes: &mut Vec<Node>) -> Result<(), NoMemory>
    ensures { OnOk result (nodes.new.items ≡ nodes.old.items ++ password_nodes secret.now) }
{
    if !secret.bytes().is_empty() {
        nodes.push(Node::Child(password_element(alloc, secret)?))?;
    }
    Ok(())
}

fn invite_nodes(
    alloc: Global,
    room: &Room,
    who: &Here,
    reason: Option<&Element>,
) -> Result<Vec<Node>, NoMemory>
    ensures { IfOk result (λ nodes. nodes.items ≡ invite_nodes room.now who.now (option_copied reason.entry)) }
{
    let mut nodes = one_child(alloc, call_element(alloc, "invite", who, reason)?)?;
    push_password(alloc, &room.config.secret, &mut nodes)?;
    Ok(nodes)
}

fn decline_nodes(alloc: Global, who: &Here, reason: Option<&Element>) -> Result<Vec<Node>, NoMemory>
    ensures { IfOk result (λ nodes. nodes.items ≡ decline_nodes who.now (option_copied reason.entry)) }
{
    one_child(alloc, call_element(alloc, "decline", who, reason)?)
}

/// `<message from='ROOM'>` with an `x` of these.
fn message_with(alloc: Global, room: &Jid, nodes: Vec<Node>) -> Result<Element, NoMemory>
    ensures { IfOk result (λ e. e ≡ message_with room.now nodes.items) }
{
    let x = element_of(alloc, USER_SPACE, "x", Vec::new(alloc), nodes)?;
    let mut attrs = Vec::new(alloc);
    push_attr(&mut attrs, alloc, "from", written(alloc, room)?)?;
    element_of(alloc, CLIENT_SPACE, "message", attrs, one_child(alloc, x)?)
}

/// The text of that message, which its copies share.
fn message_text(alloc: Global, room: &Jid, nodes: Vec<Node>) -> Result<Text, NoMemory>
    ensures { IfOk result (λ t. t ≡ text (message_with room.now nodes.items)) }
{
    let message = message_with(alloc, room, nodes)?;
    let mut rest = spelt(alloc, &message)?;
    rest.share(alloc)?;
    Ok(rest)
}

fn copy_to(alloc: Global, rest: &Text, receiver: &Here) -> Result<Effect, NoMemory>
    ensures { IfOk result (λ effect. effect ≡ copy_to rest.now receiver.now) }
{
    Ok(Effect::Queue {
        session: receiver.session,
        to: written(alloc, &receiver.address)?,
        rest: rest.copy(alloc)?,
        origin: Origin::Direct,
    })
}

fn push_copies(
    alloc: Global,
    rest: &Text,
    receivers: &[Here],
    effects: &mut Vec<Effect>,
) -> Result<(), NoMemory>
    ensures { OnOk result (effects.new.items ≡ effects.old.items ++ copies rest.now receivers.now) }
{
    for receiver in receivers {
        effects.push(copy_to(alloc, rest, receiver)?)?;
    }
    Ok(())
}

fn invites(
    alloc: Global,
    room: &Room,
    who: &Here,
    receivers: &[Here],
    invitation: &Invitation,
) -> Result<Vec<Effect>, NoMemory>
    ensures { IfOk result (λ effects. effects.items ≡ invites room.now who.now receivers.now invitation.now) }
{
    let nodes = invite_nodes(alloc, room, who, invitation.reason.as_ref())?;
    let rest = message_text(alloc, &room.address, nodes)?;
    let mut effects = Vec::new(alloc);
    push_member(alloc, room, &invitation.address, &mut effects)?;
    push_copies(alloc, &rest, receivers, &mut effects)?;
    Ok(effects)
}

fn declines(
    alloc: Global,
    room: &Room,
    who: &Here,
    receivers: &[Here],
    invitation: &Invitation,
) -> Result<Vec<Effect>, NoMemory>
    ensures { IfOk result (λ effects. effects.items ≡ declines room.now who.now receivers.now invitation.now) }
{
    let nodes = decline_nodes(alloc, who, invitation.reason.as_ref())?;
    let rest = message_text(alloc, &room.address, nodes)?;
    let mut effects = Vec::new(alloc);
    push_copies(alloc, &rest, receivers, &mut effects)?;
    Ok(effects)
}

fn called_by(
    alloc: Global,
    room: &Room,
    who: &Here,
    stanza: &Stanza,
    receivers: &[Here],
    invitation: Option<&Invitation>,
) -> Result<Vec<Effect>, NoMemory>
    ensures { IfOk result (λ effects. effects.items
        ≡ called_by room.now who.now stanza.now receivers.now (option_copied invitation.entry)) }
{
    let Some(i) = invitation else {
        return refuse(alloc, who, stanza, Condition::BadRequest);
    };
    if i.declined {
        return declines(alloc, room, who, receivers, i);
    }
    match invite_refusal(alloc, room, who, &i.address)? {
        Some(condition) => refuse(alloc, who, stanza, condition),
        None => invites(alloc, room, who, receivers, i),
    }
}

fn called(
    alloc: Global,
    room: &Room,
    who: &Here,
    stanza: &Stanza,
    receivers: &[Here],
    x: &Element,
) -> Result<Vec<Effect>, NoMemory>
    ensures { IfOk result (λ effects. effects.items ≡ called room.now who.now stanza.now receivers.now x.now) }
{
    if !may_call(room, who, x) {
        return refuse(alloc, who, stanza, Condition::NotAcceptable);
    }
    let invitation = invitation_of(alloc, x)?;
    called_by(alloc, room, who, stanza, receivers, invitation.as_ref())
}

fn called_in(
    alloc: Global,
    room: &Room,
    who: &Here,
    stanza: &Stanza,
    receivers: &[Here],
    x: Option<&Element>,
) -> Result<Vec<Effect>, NoMemory>
    ensures { IfOk result (λ effects. effects.items
        ≡ called_in room.now who.now stanza.now receivers.now (option_copied x.entry)) }
{
    let Some(x) = x else {
        return Ok(Vec::new(alloc));
    };
    if !has_call(x) {
        return Ok(Vec::new(alloc));
    }
    called(alloc, room, who, stanza, receivers, x)
}

/// The child by which somebody is invited, or declines.
pub fn x_in(message: &Element) -> Option<&Element>
    ensures { option_copied result ≡ x_in message.now }
{
    message.child(USER_SPACE.as_bytes(), b"x")
}

/// What comes of a message to a room by which somebody is invited to it, or declines (XEP-0045, 7.8.2). `receivers` are the available sessions
/// of the user whom it is for: each gets it from the room, with the password where there is one. A members-only room lets owners and
/// admins invite, and makes those members who had no affiliation. Costs one spelling, whatever the number of receivers.
pub fn invite(
    alloc: Global,
    room: &Room,
    who: &Here,
    stanza: &Stanza,
    receivers: &[Here],
) -> Result<Vec<Effect>, NoMemory>
    ensures { IfOk result (λ effects. effects.items ≡ invite room.now who.now stanza.now receivers.now) }
{
    let Stanza::Message { element, .. } = stanza else {
        return Ok(Vec::new(alloc));
    };
    called_in(alloc, room, who, stanza, receivers, x_in(element))
}
