//! A row as it is shown (XEP-0313, 4.2).
ghost use Rattle.std.specs.Prelude.{◌≡◌, ◌++◌, ◌≤◌, drop, length, take, IfOk, OnOk};
ghost use Rattle.std.specs.Fmt.{decimal};
ghost use Rattle.std.specs.Option.{option_copied};
ghost use Rattle.stanza_tree.specs.Entries.{name_end};
ghost use Rattle.stanza_tree.specs.Spelling.{text, text_with};
ghost use Rattle.stanza_model.specs.Errors.{attr_if, plain_attr};
ghost use Rattle.mam_wire.specs.Results.{delay_element, forwarded_element, in_client_space, message_from, result_element, result_message, result_text};
ghost use Rattle.mam_wire.specs.Stamps.{stamp_text};

use crate::make::{MAM_SPACE, decimal_text};
use crate::stamp::write_stamp;
use jid_core::Jid;
use rsm_paging::Row;
use stanza_model::make::{element_of, push_attr, written};
use stanza_tree::{Attr, Element, NoMemory, Text, write, write_with};
use std::alloc::Global;

/// The namespace of forwarded stanzas (XEP-0297, 3).
const FORWARD_SPACE: &str = "urn:xmpp:forward:0";

/// The namespace of stanzas (RFC 6120, 4.8.2).
const CLIENT_SPACE: &str = "jabber:client";

/// The namespace of delays (XEP-0203, 2).
const DELAY_SPACE: &str = "urn:xmpp:delay";

fn push_attr_if(
    alloc: Global,
    local: &str,
    value: Option<&Text>,
    attrs: &mut Vec<Attr>,
) -> Result<(), NoMemory>
    ensures { OnOk result (attrs.new.items ≡ attrs.old.items ++ attr_if local.now (option_copied value.entry)) }
{
    match value {
        Some(value) => push_attr(attrs, alloc, local, value.copy(alloc)?),
        None => Ok(()),
    }
}

fn result_element(alloc: Global, id: u64, queryid: Option<&Text>) -> Result<Element, NoMemory>
    ensures { IfOk result (λ e. e ≡ result_element id (option_copied queryid.entry)) }
{
    let mut attrs = Vec::new(alloc);
    push_attr(&mut attrs, alloc, "id", decimal_text(alloc, id)?)?;
    push_attr_if(alloc, "queryid", queryid, &mut attrs)?;
    element_of(alloc, MAM_SPACE, "result", attrs, Vec::new(alloc))
}

fn forwarded_element(alloc: Global) -> Result<Element, NoMemory>
    ensures { IfOk result (λ e. e ≡ forwarded_element) }
{
    element_of(
        alloc,
        FORWARD_SPACE,
        "forwarded",
        Vec::new(alloc),
        Vec::new(alloc),
    )
}

fn delay_element(alloc: Global, stamp: Text) -> Result<Element, NoMemory>
    ensures { IfOk result (λ e. e ≡ delay_element stamp) }
{
    let mut attrs = Vec::new(alloc);
    push_attr(&mut attrs, alloc, "stamp", stamp)?;
    element_of(alloc, DELAY_SPACE, "delay", attrs, Vec::new(alloc))
}

/// The length of `<` and the name at the front of a text: up to the first space, `/` or `>`.
fn name_length(text: &[u8]) -> usize
    ensures place { result ≡ name_end text.now }
    ensures within { result ≤ length text.now }
{
    for (i, byte) in text.iter().enumerate() {
        if matches!(*byte, b' ' | b'/' | b'>') {
            return i;
        }
    }
    text.len()
}

/// Appends a text with another in it, at this place.
fn push_with(text: &[u8], at: usize, other: &str, out: &mut Vec<u8>) -> Result<(), NoMemory>
    requires { at ≤ length text.now }
    ensures { OnOk result (out.new.items ≡ out.old.items ++ (take at text.now ++ other.now ++ drop at text.now)) }
{
    out.extend_from_slice(&text[..at])?;
    out.extend_from_slice(other.as_bytes())?;
    out.extend_from_slice(&text[at..])?;
    Ok(())
}

fn push_in_client_space(stanza: &[u8], out: &mut Vec<u8>) -> Result<(), NoMemory>
    ensures { OnOk result (out.new.items ≡ out.old.items ++ in_client_space stanza.now) }
{
    push_with(stanza, name_length(stanza), " xmlns='jabber:client'", out)
}

/// What `forwarded` holds: when the message was kept, and the message.
fn content(alloc: Global, stamp: Text, message: &Text) -> Result<Text, NoMemory>
    ensures { IfOk result (λ t. t ≡ text (delay_element stamp) ++ in_client_space message.now) }
{
    let delay = delay_element(alloc, stamp)?;
    let mut out = Vec::new(alloc);
    write(&delay, &mut out)?;
    push_in_client_space(message.bytes(), &mut out)?;
    Ok(Text::of_vec(out))
}

/// The spelling of an element around this content.
fn around(alloc: Global, element: &Element, content: &Text) -> Result<Text, NoMemory>
    ensures { IfOk result (λ t. t ≡ text_with element.now content.now) }
{
    let mut out = Vec::new(alloc);
    write_with(element, content.bytes(), &mut out)?;
    Ok(Text::of_vec(out))
}

/// How a moment is written (XEP-0082, 3.2), as text.
pub fn stamp_text(alloc: Global, moment: u64) -> Result<Text, NoMemory>
    ensures { IfOk result (λ t. t ≡ stamp_text moment) }
{
    let stamp = write_stamp(moment);
    Ok(Text::of_vec(stamp.to_vec(alloc)?))
}

/// A row as a query's answer shows it, under `jabber:client` (XEP-0313, 4.2): its number in the archive, when it was kept, and the message. Costs the
/// length of the message.
pub fn result(alloc: Global, row: &Row, queryid: Option<&Text>) -> Result<Text, NoMemory>
    ensures { IfOk result (λ t. t ≡ result_text row.now (option_copied queryid.entry) (stamp_text row.now.stamp)) }
{
    let stamp = stamp_text(alloc, row.stamp)?;
    let content = content(alloc, stamp, &row.text)?;
    let forwarded = around(alloc, &forwarded_element(alloc)?, &content)?;
    around(alloc, &result_element(alloc, row.id, queryid)?, &forwarded)
}

fn message_from(alloc: Global, from: Option<&Jid>) -> Result<Element, NoMemory>
    ensures { IfOk result (λ e. e ≡ message_from (option_copied from.entry)) }
{
    let mut attrs = Vec::new(alloc);
    if let Some(from) = from {
        push_attr(&mut attrs, alloc, "from", written(alloc, from)?)?;
    }
    element_of(alloc, CLIENT_SPACE, "message", attrs, Vec::new(alloc))
}

/// The message that shows a row to the one who asked, without its `to`: from a room, or, of the client's own archive, from nobody. Costs the
/// length of the row's message.
pub fn result_message(
    alloc: Global,
    from: Option<&Jid>,
    queryid: Option<&Text>,
    row: &Row,
) -> Result<Text, NoMemory>
    ensures { IfOk result (λ t. t ≡ result_message (option_copied from.entry) (option_copied queryid.entry) row.now) }
{
    let result = result(alloc, row, queryid)?;
    around(alloc, &message_from(alloc, from)?, &result)
}
