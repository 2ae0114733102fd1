//! What was said earlier, as a newcomer is told it (XEP-0045, 7.2.13 to 7.2.15, with XEP-0203).
ghost use Rattle.std.specs.Prelude.{◌≡◌, ◌++◌, ◌-◌, ◌≤◌, length, IfOk, OnOk};
ghost use Rattle.std.specs.Option.{option_copied};
ghost use Rattle.stanza_tree.specs.Spelling.{text};
ghost use Rattle.muc_room.specs.Histories.{delay, delayed_text, history, history_in, is_ended, is_zero, limit_by, limit_in, limited, told_again};
ghost use Rattle.muc_room.specs.Histories.{wanted_of, with_last};

use crate::views::MUC_SPACE;
use jid_core::Jid;
use stanza_model::make::{element_of, push_attr, spelt, written};
use stanza_model::nonza::read_count;
use stanza_model::{Delayed, Effect, Here, Room};
use stanza_tree::{Element, NoMemory, Origin, Text};
use std::alloc::Global;

/// The namespace of delays (XEP-0203, 2).
const DELAY_SPACE: &str = "urn:xmpp:delay";

/// How the spelling of a message ends that has children.
const MESSAGE_END: &[u8] = b"</message>";

fn delay(alloc: Global, room: &Jid, stamp: &Text) -> Result<Element, NoMemory>
    ensures { IfOk result (λ e. e ≡ delay room.now stamp.now) }
{
    let mut attrs = Vec::new(alloc);
    push_attr(&mut attrs, alloc, "from", written(alloc, room)?)?;
    push_attr(&mut attrs, alloc, "stamp", stamp.copy(alloc)?)?;
    element_of(alloc, DELAY_SPACE, "delay", attrs, Vec::new(alloc))
}

/// Where the end of a message stands that has children.
fn end_place(text: &[u8]) -> usize
    ensures place { result ≡ length text.now - 10 }
    ensures within { result ≤ length text.now }
{
    text.len().saturating_sub(MESSAGE_END.len())
}

fn is_ended(text: &[u8]) -> bool
    ensures { result ≡ is_ended text.now }
{
    let end = &text[end_place(text)..];
    end == MESSAGE_END
}

/// The text of a message with one child more, the last.
fn with_last(alloc: Global, child: &Text, message: &Text) -> Result<Text, NoMemory>
    ensures { IfOk result (λ t. t ≡ with_last child.now message.now) }
{
    let text = message.bytes();
    if !is_ended(text) {
        return message.copy(alloc);
    }
    let mut out = Vec::new(alloc);
    out.extend_from_slice(&text[..end_place(text)])?;
    out.extend_from_slice(child.bytes())?;
    out.extend_from_slice(MESSAGE_END)?;
    Ok(Text::of_vec(out))
}

/// A message of a room with when it was said.
pub(crate) fn delayed_text(alloc: Global, room: &Jid, message: &Delayed) -> Result<Text, NoMemory>
    ensures { IfOk result (λ t. t ≡ delayed_text room.now message.now) }
{
    let delay = spelt(alloc, &delay(alloc, room, &message.stamp)?)?;
    with_last(alloc, &delay, &message.text)
}

fn history_in(presence: &Element) -> Option<&Element>
    ensures { option_copied result ≡ history_in presence.now }
{
    presence
        .child(MUC_SPACE, b"x")?
        .child(MUC_SPACE, b"history")
}

/// What an attribute counts, where it can be read.
fn limit_in(local: &[u8], history: &Element) -> Option<u32>
    ensures { result ≡ limit_in local.now history.now }
{
    read_count(history.attr(local)?)
}

fn is_zero(limit: Option<u32>) -> bool
    ensures { result ≡ is_zero limit }
{
    match limit {
        Some(most) => most == 0,
        None => false,
    }
}

/// How many messages are asked for at most (XEP-0045, 7.2.13).
fn limit_by(history: Option<&Element>) -> Option<u32>
    ensures { result ≡ limit_by (option_copied history.entry) }
{
    match history {
        Some(history) if is_zero(limit_in(b"maxchars", history)) => Some(0),
        Some(history) => limit_in(b"maxstanzas", history),
        None => None,
    }
}

fn limited(limit: Option<u32>, past: &[Delayed]) -> &[Delayed]
    ensures { result.now ≡ limited limit past.now }
{
    match limit {
        Some(most) => &past[past.len().saturating_sub(most as usize)..],
        None => past,
    }
}

/// The last of what was said, as many as a presence asks for.
pub(crate) fn wanted_of<'a>(presence: &Element, past: &'a [Delayed]) -> &'a [Delayed]
    ensures { result.now ≡ wanted_of presence.now past.now }
{
    limited(limit_by(history_in(presence)), past)
}

fn told_again(
    alloc: Global,
    room: &Room,
    stay: u64,
    who: &Here,
    message: &Delayed,
) -> Result<Effect, NoMemory>
    ensures { IfOk result (λ effect. effect ≡ told_again room.now stay who.now message.now) }
{
    Ok(Effect::Queue {
        session: who.session,
        to: written(alloc, &who.address)?,
        rest: delayed_text(alloc, &room.address, message)?,
        origin: Origin::Opening {
            room: room.number,
            stay,
        },
    })
}

/// A newcomer is told what was said.
pub(crate) fn push_history(
    alloc: Global,
    room: &Room,
    stay: u64,
    who: &Here,
    past: &[Delayed],
    effects: &mut Vec<Effect>,
) -> Result<(), NoMemory>
    ensures { OnOk result (effects.new.items ≡ effects.old.items ++ history room.now stay who.now past.now) }
{
    for message in past {
        effects.push(told_again(alloc, room, stay, who, message)?)?;
    }
    Ok(())
}
