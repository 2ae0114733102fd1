//! Contacts as the server writes them, and how a session is told of a change (RFC 6121, 2.1).
ghost use Rattle.std.specs.Prelude.{◌≡◌, ◌<◌, ◌+◌, ◌-◌, ◌^◌, ◌++◌, [], codes, map, All, IfOk, OnOk};
ghost use Rattle.stanza_model.specs.Errors.{element_of};
ghost use Rattle.stanza_model.specs.Rosters.{ask_attr, group_node, item, item_node, name_attr, push, pushed_to, pushes};
ghost use Rattle.stanza_model.specs.Rosters.{pushes_if, removed_item, roster_space, subscription_name};

use crate::effect::{Change, Effect};
use crate::here::Here;
use crate::make::{CLIENT_SPACE, element_of, one_child, push_attr, text_of, written};
use crate::reply::say_to;
use crate::shared::{Contact, Subscription};
use jid_core::Jid;
use stanza_tree::{Attr, Element, NoMemory, Node, Text};
use std::alloc::Global;

/// The namespace of rosters (RFC 6121, 2.1).
const ROSTER_SPACE: &str = "jabber:iq:roster";

/// A session is told of a contact, in its next push (RFC 6121, 2.1.6).
pub fn roster_push(alloc: Global, contact: &Contact, receiver: &Here) -> Result<Effect, NoMemory>
    requires { receiver.now.pushes < 2 ^ 64 - 1 }
    ensures { IfOk result (λ effect. effect ≡ pushed_to receiver.now (item contact.now)) }
{
    push_to(alloc, receiver, item(alloc, contact)?)
}

/// Each of a user's sessions that asked for its roster is told of an item, and the push is counted.
pub fn push_all(
    alloc: Global,
    effects: &mut Vec<Effect>,
    sessions: &[Here],
    item: &Element,
) -> Result<(), NoMemory>
    requires { All (λ h. h.pushes < 2 ^ 64 - 1) sessions.now }
    ensures { OnOk result (effects.new.items ≡ effects.old.items ++ pushes sessions.now item.now) }
{
    for h in sessions {
        push_if(alloc, effects, h, item)?;
    }
    Ok(())
}

fn push_if(
    alloc: Global,
    effects: &mut Vec<Effect>,
    receiver: &Here,
    item: &Element,
) -> Result<(), NoMemory>
    requires { receiver.now.pushes < 2 ^ 64 - 1 }
    ensures { OnOk result (effects.new.items ≡ effects.old.items ++ pushes_if receiver.now.wants_roster receiver.now item.now) }
{
    if receiver.wants_roster {
        effects.push(push_to(alloc, receiver, item.copy(alloc)?)?)?;
        effects.push(Effect::Set(Change::Pushed {
            session: receiver.session,
            pushes: receiver.pushes + 1,
        }))?;
    }
    Ok(())
}

fn push_to(alloc: Global, receiver: &Here, item: Element) -> Result<Effect, NoMemory>
    requires { receiver.now.pushes < 2 ^ 64 - 1 }
    ensures { IfOk result (λ effect. effect ≡ pushed_to receiver.now item) }
{
    let push = push(alloc, receiver.pushes + 1, item)?;
    say_to(alloc, receiver, &push)
}

fn push(alloc: Global, number: u64, item: Element) -> Result<Element, NoMemory>
    ensures { IfOk result (λ e. e ≡ push number item) }
{
    let mut attrs = Vec::new(alloc);
    let id = Text::of_string(format!(in alloc; "push{}", number)?);
    push_attr(&mut attrs, alloc, "id", id)?;
    push_attr(&mut attrs, alloc, "type", text_of(alloc, "set")?)?;
    let query = query_of(alloc, one_child(alloc, item)?)?;
    element_of(alloc, CLIENT_SPACE, "iq", attrs, one_child(alloc, query)?)
}

/// The `query` with these items.
pub fn query_of(alloc: Global, items: Vec<Node>) -> Result<Element, NoMemory>
    ensures { IfOk result (λ e. e ≡ element_of roster_space (codes "query") [] items.items) }
{
    element_of(alloc, ROSTER_SPACE, "query", Vec::new(alloc), items)
}

/// The item of a contact (RFC 6121, 2.1.2).
pub fn item(alloc: Global, contact: &Contact) -> Result<Element, NoMemory>
    ensures { IfOk result (λ e. e ≡ item contact.now) }
{
    item_as(alloc, contact, contact.subscription, contact.asked)
}

/// The item of a contact as it is with this subscription, and with an `ask` or without.
pub fn item_as(
    alloc: Global,
    contact: &Contact,
    subscription: Subscription,
    asked: bool,
) -> Result<Element, NoMemory>
    ensures { IfOk result (λ e. e ≡ item (record contact.now { subscription = subscription; asked = asked })) }
{
    let mut attrs = Vec::new(alloc);
    push_ask(&mut attrs, alloc, asked)?;
    push_attr(&mut attrs, alloc, "jid", written(alloc, &contact.address)?)?;
    push_name(&mut attrs, alloc, &contact.name)?;
    let subscription = text_of(alloc, subscription_name(subscription))?;
    push_attr(&mut attrs, alloc, "subscription", subscription)?;
    let groups = group_nodes(alloc, contact.groups.slice())?;
    element_of(alloc, ROSTER_SPACE, "item", attrs, groups)
}

fn push_ask(attrs: &mut Vec<Attr>, alloc: Global, asked: bool) -> Result<(), NoMemory>
    ensures { OnOk result (attrs.new.items ≡ attrs.old.items ++ ask_attr asked) }
{
    if asked {
        let value = text_of(alloc, "subscribe")?;
        push_attr(attrs, alloc, "ask", value)?;
    }
    Ok(())
}

fn push_name(attrs: &mut Vec<Attr>, alloc: Global, name: &Text) -> Result<(), NoMemory>
    ensures { OnOk result (attrs.new.items ≡ attrs.old.items ++ name_attr name.now) }
{
    if !name.bytes().is_empty() {
        push_attr(attrs, alloc, "name", name.copy(alloc)?)?;
    }
    Ok(())
}

/// The state of a contact as its item says it (RFC 6121, 2.1.2.5).
fn subscription_name(subscription: Subscription) -> &'static str
    ensures { result.now ≡ subscription_name subscription }
{
    match subscription {
        Subscription::Neither => "none",
        Subscription::To => "to",
        Subscription::From => "from",
        Subscription::Both => "both",
    }
}

fn group_nodes(alloc: Global, groups: &[Text]) -> Result<Vec<Node>, NoMemory>
    ensures { IfOk result (λ nodes. nodes.items ≡ map group_node groups.now) }
{
    let mut nodes = Vec::new(alloc);
    for group in groups {
        nodes.push(Node::Child(group_element(alloc, group)?))?;
    }
    Ok(nodes)
}

fn group_element(alloc: Global, group: &Text) -> Result<Element, NoMemory>
    ensures { IfOk result (λ e. item_node e ≡ group_node group.now) }
{
    let mut words = Vec::new(alloc);
    words.push(Node::Words(group.copy(alloc)?))?;
    element_of(alloc, ROSTER_SPACE, "group", Vec::new(alloc), words)
}

/// The item that says that a contact is there no more (RFC 6121, 2.1.2.5).
pub fn removed_item(alloc: Global, address: &Jid) -> Result<Element, NoMemory>
    ensures { IfOk result (λ e. e ≡ removed_item address.now) }
{
    let mut attrs = Vec::new(alloc);
    push_attr(&mut attrs, alloc, "jid", written(alloc, address)?)?;
    push_attr(&mut attrs, alloc, "subscription", text_of(alloc, "remove")?)?;
    element_of(alloc, ROSTER_SPACE, "item", attrs, Vec::new(alloc))
}
