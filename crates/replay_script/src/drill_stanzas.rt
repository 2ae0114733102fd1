//! What the clients of a drill send: elements and stanzas.
ghost use Rattle.std.specs.Prelude.{◌≡◌, ◌<◌, [], ◌∷◌, IfOk, codes};
ghost use Rattle.std.specs.Fmt.{decimal};
ghost use Rattle.stanza_tree.specs.Spelling.{client_space};
ghost use Rattle.stanza_tree.specs.declared.node.Node.TheOpen.{Words};
ghost use Rattle.stanza_tree.specs.declared.node.Node.TheViews.{roll-Node};
ghost use Rattle.stanza_model.specs.Errors.{element_of};
ghost use Rattle.replay_script.specs.DrillStanzas.{child, enter, message, owner_space, submit, to, to_client, to_room, unlock};

use crate::drill_names::{client, room, seat};
use jid_core::Jid;
use stanza_model::make::{element_of, one_child, push_attr, text_of, written};
use stanza_model::{IqForm, MessageForm, PresenceForm, Stanza};
use stanza_tree::{Attr, Element, NoMemory, Node, Text};
use std::alloc::Global;

/// The namespace of stanzas (RFC 6120, 4.8.2).
const CLIENT_SPACE: &str = "jabber:client";

/// What an owner asks of a room (XEP-0045, 15.5).
const OWNER_SPACE: &str = "http://jabber.org/protocol/muc#owner";

/// The attribute `to` alone.
fn to(alloc: Global, address: &Jid) -> Result<Vec<Attr>, NoMemory>
    ensures { IfOk result (λ attrs. attrs.items ≡ to address.now []) }
{
    let mut attrs = Vec::new(alloc);
    push_attr(&mut attrs, alloc, "to", written(alloc, address)?)?;
    Ok(attrs)
}

/// `<presence to='drill@rooms.example.org/uI'/>`.
pub(crate) fn enter(alloc: Global, i: u32) -> Result<Stanza, NoMemory>
    requires { i < 8 }
    ensures { IfOk result (λ st. st ≡ enter i) }
{
    let seat = seat(alloc, i)?;
    let attrs = to(alloc, &seat)?;
    let element = element_of(alloc, CLIENT_SPACE, "presence", attrs, Vec::new(alloc))?;
    Ok(Stanza::Presence {
        to: Some(seat),
        form: PresenceForm::Available,
        element,
    })
}

/// `<x xmlns='jabber:x:data' type='submit'/>`.
fn submit(alloc: Global) -> Result<Element, NoMemory>
    ensures { IfOk result (λ e. e ≡ submit) }
{
    let mut attrs = Vec::new(alloc);
    push_attr(&mut attrs, alloc, "type", text_of(alloc, "submit")?)?;
    element_of(alloc, "jabber:x:data", "x", attrs, Vec::new(alloc))
}

/// The form as an owner sends it, with nothing changed (XEP-0045, 10.1.2).
fn query(alloc: Global) -> Result<Element, NoMemory>
    ensures { IfOk result (λ e. e ≡ element_of owner_space (codes "query") [] (child submit ∷ [])) }
{
    let children = one_child(alloc, submit(alloc)?)?;
    element_of(alloc, OWNER_SPACE, "query", Vec::new(alloc), children)
}

/// An iq to the room that has it as it is (XEP-0045, 10.1.2).
pub(crate) fn unlock(alloc: Global) -> Result<Stanza, NoMemory>
    ensures { IfOk result (λ st. st ≡ unlock) }
{
    let room = room(alloc)?;
    let mut attrs = to(alloc, &room)?;
    push_attr(&mut attrs, alloc, "id", text_of(alloc, "c")?)?;
    push_attr(&mut attrs, alloc, "type", text_of(alloc, "set")?)?;
    let children = one_child(alloc, query(alloc)?)?;
    let element = element_of(alloc, CLIENT_SPACE, "iq", attrs, children)?;
    Ok(Stanza::Iq {
        to: Some(room),
        id: text_of(alloc, "c")?,
        form: IqForm::Set,
        element,
    })
}

/// `<body>K</body>`.
fn body(alloc: Global, k: u32) -> Result<Element, NoMemory>
    ensures { IfOk result (λ e. e ≡ element_of client_space (codes "body") [] (roll-Node (Words (decimal k)) ∷ [])) }
{
    let mut words = Vec::new(alloc);
    words.push(Node::Words(Text::of_string(format!(in alloc; "{}", k)?)))?;
    element_of(alloc, CLIENT_SPACE, "body", Vec::new(alloc), words)
}

/// `<message to='TO' type='TYPE'><body>K</body></message>`.
fn message(alloc: Global, address: &Jid, form: &str, k: u32) -> Result<Element, NoMemory>
    ensures { IfOk result (λ e. e ≡ message address.now form.now k) }
{
    let mut attrs = to(alloc, address)?;
    push_attr(&mut attrs, alloc, "type", text_of(alloc, form)?)?;
    let children = one_child(alloc, body(alloc, k)?)?;
    element_of(alloc, CLIENT_SPACE, "message", attrs, children)
}

/// The number is said in the room.
pub(crate) fn to_room(alloc: Global, k: u32) -> Result<Stanza, NoMemory>
    ensures { IfOk result (λ st. st ≡ to_room k) }
{
    let room = room(alloc)?;
    let element = message(alloc, &room, "groupchat", k)?;
    Ok(Stanza::Message {
        to: Some(room),
        form: MessageForm::Groupchat,
        element,
    })
}

/// The number is said to a client.
pub(crate) fn to_client(alloc: Global, j: u32, k: u32) -> Result<Stanza, NoMemory>
    requires { j < 8 }
    ensures { IfOk result (λ st. st ≡ to_client j k) }
{
    let client = client(alloc, j)?;
    let element = message(alloc, &client, "chat", k)?;
    Ok(Stanza::Message {
        to: Some(client),
        form: MessageForm::Chat,
        element,
    })
}
