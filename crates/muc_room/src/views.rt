//! What a session sees of an item that its room broadcasts (XEP-0045, 7.2.2, 7.4, 7.6, 7.14 and 10.9).
ghost use Rattle.std.specs.Prelude.{◌≡◌, ◌∷◌, ◌++◌, [], map, IfOk, IsUtf8, OnOk};
ghost use Rattle.std.specs.Option.{option_copied};
ghost use Rattle.stanza_tree.specs.declared.node.Node.TheViews.{out-Node};
ghost use Rattle.stanza_tree.specs.Spelling.{text};
ghost use Rattle.muc_room.specs.Views.{at, child_node, codes_for, destroy, destroyed, is_among, is_shown, item, jid_for, nick_of, presence_from};
ghost use Rattle.muc_room.specs.Views.{presence_as, presence_text, reason_nodes, seen, shown_children, speaks_of_rooms, status, status_node, x_of};

use jid_core::{Jid, Part};
use stanza_model::make::{element_of, push_attr, text_of, written};
use stanza_model::{Affiliation, Nicked, Role, RoomItem};
use stanza_tree::{Element, NoMemory, Node, Text, write, write_nodes, write_with};
use std::alloc::Global;
use std::slice;

/// The namespace of stanzas (RFC 6120, 4.8.2).
pub(crate) const CLIENT_SPACE: &str = "jabber:client";

/// What a client says of a room (XEP-0045, 15.5).
pub(crate) const MUC_SPACE: &[u8] = b"http://jabber.org/protocol/muc";

/// What a room says of its users (XEP-0045, 15.5).
pub(crate) const USER_SPACE: &str = "http://jabber.org/protocol/muc#user";

/// The room's address with a nick, which is an occupant's (XEP-0045, 4.2).
pub(crate) fn at(alloc: Global, room: &Jid, nick: Option<&Part>) -> Result<Jid, NoMemory>
    ensures { IfOk result (λ a. a ≡ at room.now (option_copied nick.entry)) }
{
    let mut address = room.bare(alloc)?;
    if let Some(nick) = nick {
        address.resource = Some(nick.copy(alloc)?);
    }
    Ok(address)
}

fn speaks_of_rooms(e: &Element) -> bool
    ensures { result ≡ speaks_of_rooms e.now }
{
    let space = e.name.space.bytes();
    e.name.local.bytes() == b"x".as_slice()
        && (space == MUC_SPACE || space == USER_SPACE.as_bytes())
}

fn is_shown(node: &Node) -> bool
    ensures { result ≡ is_shown node.now }
{
    match node {
        Node::Child(e) => !speaks_of_rooms(e),
        Node::Words(_) => true,
    }
}

/// Appends the spelling of a child of a presence, if it is one that others are shown.
fn push_shown(node: &Node, bytes: &mut Vec<u8>) -> Result<(), NoMemory>
    ensures shown { OnOk result (bytes.new.items ≡ bytes.old.items ++ shown_children (node.now ∷ [])) }
    ensures utf8 { OnOk result (IsUtf8 bytes.old.items → IsUtf8 bytes.new.items) }
{
    if is_shown(node) {
        write_nodes(slice::from_ref(node), bytes)?;
    }
    Ok(())
}

/// The spelling of those children of a presence that others are shown, which its copies share.
pub(crate) fn shown_children(alloc: Global, nodes: &[Node]) -> Result<Text, NoMemory>
    ensures { IfOk result (λ t. t ≡ shown_children nodes.now) }
{
    let mut bytes = Vec::new(alloc);
    for node in nodes {
        push_shown(node, &mut bytes)?;
    }
    let mut text = Text::of_vec(bytes);
    text.share(alloc)?;
    Ok(text)
}

/// `<item affiliation='A' jid='J' nick='N' role='R'/>`.
fn item(
    alloc: Global,
    affiliation: Affiliation,
    jid: Option<&Jid>,
    nick: Option<&Part>,
    role: Role,
) -> Result<Element, NoMemory>
    ensures { IfOk result (λ e. e ≡ item affiliation (option_copied jid.entry) (option_copied nick.entry) role) }
{
    let mut attrs = Vec::new(alloc);
    push_attr(
        &mut attrs,
        alloc,
        "affiliation",
        text_of(alloc, affiliation.name())?,
    )?;
    if let Some(jid) = jid {
        push_attr(&mut attrs, alloc, "jid", written(alloc, jid)?)?;
    }
    if let Some(nick) = nick {
        push_attr(&mut attrs, alloc, "nick", part_text(alloc, nick)?)?;
    }
    push_attr(&mut attrs, alloc, "role", text_of(alloc, role.name())?)?;
    element_of(alloc, USER_SPACE, "item", attrs, Vec::new(alloc))
}

fn part_text(alloc: Global, part: &Part) -> Result<Text, NoMemory>
    ensures { IfOk result (λ t. t ≡ part.now) }
{
    let mut bytes = Vec::new(alloc);
    bytes.extend_from_slice(part.bytes())?;
    Ok(Text::of_vec(bytes))
}

fn status(alloc: Global, code: u16) -> Result<Element, NoMemory>
    ensures { IfOk result (λ e. e ≡ status code) }
{
    let mut attrs = Vec::new(alloc);
    let value = Text::of_string(format!(in alloc; "{}", code)?);
    push_attr(&mut attrs, alloc, "code", value)?;
    element_of(alloc, USER_SPACE, "status", attrs, Vec::new(alloc))
}

fn push_statuses(alloc: Global, codes: &[u16], nodes: &mut Vec<Node>) -> Result<(), NoMemory>
    ensures { OnOk result (nodes.new.items ≡ nodes.old.items ++ map status_node codes.now) }
{
    for code in codes {
        nodes.push(Node::Child(status(alloc, *code)?))?;
    }
    Ok(())
}

/// The room's words.
pub(crate) fn x_of(alloc: Global, nodes: Vec<Node>) -> Result<Element, NoMemory>
    ensures { IfOk result (λ e. e ≡ x_of nodes.items) }
{
    element_of(alloc, USER_SPACE, "x", Vec::new(alloc), nodes)
}

fn presence_from(alloc: Global, from: &Jid, gone: bool) -> Result<Element, NoMemory>
    ensures { IfOk result (λ e. e ≡ presence_from from.now gone) }
{
    let mut attrs = Vec::new(alloc);
    push_attr(&mut attrs, alloc, "from", written(alloc, from)?)?;
    if gone {
        push_attr(&mut attrs, alloc, "type", text_of(alloc, "unavailable")?)?;
    }
    element_of(alloc, CLIENT_SPACE, "presence", attrs, Vec::new(alloc))
}

/// What is shown of an occupant's own presence, and then the room's words.
fn content_of(alloc: Global, children: &[u8], x: &Element) -> Result<Vec<u8>, NoMemory>
    requires { IsUtf8 children.now }
    ensures content { IfOk result (λ content. content.items ≡ children.now ++ text x.now) }
    ensures utf8 { IfOk result (λ content. IsUtf8 content.items) }
{
    let mut content = Vec::new(alloc);
    content.extend_from_slice(children)?;
    write(x, &mut content)?;
    Ok(content)
}

/// A presence from an occupant's address with that content.
fn presence_text(
    alloc: Global,
    from: &Jid,
    gone: bool,
    children: &[u8],
    x: &Element,
) -> Result<Text, NoMemory>
    requires { IsUtf8 children.now }
    ensures { IfOk result (λ t. t ≡ presence_text from.now gone children.now x.now) }
{
    let content = content_of(alloc, children, x)?;
    let presence = presence_from(alloc, from, gone)?;
    let mut rest = Vec::new(alloc);
    write_with(&presence, content.as_slice(), &mut rest)?;
    Ok(Text::of_vec(rest))
}

pub(crate) fn is_among(session: u64, sessions: &[u64]) -> bool
    ensures { result ≡ is_among session sessions.now }
{
    sessions.iter().any(|s| *s == session)
}

/// The address that a session sees: its own in its own view, and that of another where it may.
fn jid_for<'a>(own: bool, sees: bool, to: &'a Jid, address: &'a Jid) -> Option<&'a Jid>
    ensures { option_copied result ≡ jid_for own sees to.entry.now address.entry.now }
{
    match (own, sees) {
        (true, _) => Some(to),
        (false, true) => Some(address),
        (false, false) => None,
    }
}

/// An item and the status codes of a view.
fn x_with(
    alloc: Global,
    item: Element,
    own: bool,
    statuses: &[u16],
    own_statuses: &[u16],
) -> Result<Element, NoMemory>
    ensures { IfOk result (λ e. e ≡ x_of (child_node item ∷ map status_node (codes_for own statuses.now own_statuses.now))) }
{
    let mut nodes = Vec::new(alloc);
    nodes.push(Node::Child(item))?;
    if own {
        push_statuses(alloc, own_statuses, &mut nodes)?;
    }
    push_statuses(alloc, statuses, &mut nodes)?;
    x_of(alloc, nodes)
}

/// `<destroy>` with the reason alone (XEP-0045, 10.9).
fn destroy(alloc: Global, reason: Option<&Element>) -> Result<Element, NoMemory>
    ensures { IfOk result (λ e. e ≡ destroy (option_copied reason.entry)) }
{
    let mut nodes = Vec::new(alloc);
    if let Some(reason) = reason {
        nodes.push(Node::Child(reason.copy(alloc)?))?;
    }
    element_of(alloc, USER_SPACE, "destroy", Vec::new(alloc), nodes)
}

fn destroyed(alloc: Global, reason: Option<&Element>) -> Result<Element, NoMemory>
    ensures { IfOk result (λ e. e ≡ destroyed (option_copied reason.entry)) }
{
    let mut nodes = Vec::new(alloc);
    let item = item(alloc, Affiliation::Neither, None, None, Role::Nobody)?;
    nodes.push(Node::Child(item))?;
    nodes.push(Node::Child(destroy(alloc, reason)?))?;
    nodes.push(Node::Child(status(alloc, 110)?))?;
    x_of(alloc, nodes)
}

/// The nick that a session has in the room.
fn nick_of(session: u64, nicks: &[Nicked]) -> Option<&Part>
    ensures { option_copied result ≡ nick_of session nicks.now }
{
    match nicks.iter().find(|n| n.session == session) {
        Some(n) => Some(&n.nick),
        None => None,
    }
}

/// What is shown of a presence: the occupant's address with this nick, the children that others see, and the room's own words. `jid` is the
/// address that is told. Nothing for another item.
pub(crate) fn presence_as(
    alloc: Global,
    item: &RoomItem,
    own: bool,
    jid: Option<&Jid>,
    room: &Jid,
) -> Result<Text, NoMemory>
    ensures { IfOk result (λ t. t ≡ presence_as item.now own (option_copied jid.entry) room.now) }
{
    let RoomItem::Presence {
        nick,
        affiliation,
        role,
        gone,
        renamed,
        children,
        statuses,
        own_statuses,
        ..
    } = item
    else {
        return Ok(Text::empty(alloc));
    };
    let item = self::item(alloc, *affiliation, jid, renamed.as_ref(), *role)?;
    let x = x_with(alloc, item, own, statuses.slice(), own_statuses.slice())?;
    let from = at(alloc, room, Some(nick))?;
    presence_text(alloc, &from, *gone, children.bytes(), &x)
}

/// The text of an item's view without its `to`, as `view` has it.
pub(crate) fn seen(
    alloc: Global,
    item: &RoomItem,
    sees: bool,
    room: &Jid,
    session: u64,
    to: &Jid,
) -> Result<Text, NoMemory>
    ensures { IfOk result (λ t. t ≡ seen item.now sees room.now session to.now) }
{
    match item {
        RoomItem::Presence {
            sessions,
            address,
            ..
        } => {
            let own = is_among(session, sessions.slice());
            presence_as(alloc, item, own, jid_for(own, sees, to, address), room)
        }
        RoomItem::Message { text, .. } => text.copy(alloc),
        RoomItem::Destroyed { reason, nicks } => {
            let x = destroyed(alloc, reason.as_ref())?;
            let from = at(alloc, room, nick_of(session, nicks.slice()))?;
            presence_text(alloc, &from, true, b"", &x)
        }
    }
}
