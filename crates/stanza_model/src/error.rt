//! Error replies (RFC 6120, 8.3).
ghost use Rattle.std.specs.Prelude.{◌≡◌, [], ◌∷◌, ◌++◌, codes, IfOk, OnOk};
ghost use Rattle.std.specs.Option.{option_copied, option_map};
ghost use Rattle.jid_core.specs.Addresses.{address_text};
ghost use Rattle.stanza_model.specs.Errors.{plain_attr, attr_if, condition_element, error_child, error_element, reply_attrs};

use crate::condition::Condition;
use crate::make::{CLIENT_SPACE, element_of, one_child, push_attr, text_of, written};
use crate::stanza::Stanza;
use jid_core::Jid;
use stanza_tree::{Attr, Element, NoMemory, Text};
use std::alloc::Global;

/// The namespace of conditions (RFC 6120, 8.3.2).
const CONDITION_SPACE: &str = "urn:ietf:params:xml:ns:xmpp-stanzas";

/// The error that answers a stanza. `sender` is the full address of the one who sent the stanza. Whether a stanza may be
/// answered at all is the caller's to ask: one of the type `error` and an iq of the type `result` never are.
pub fn error_reply(
    alloc: Global,
    st: &Stanza,
    sender: &Jid,
    condition: Condition,
) -> Result<Element, NoMemory>
    ensures { IfOk result (λ e. e ≡ error_element st.now sender.now condition) }
{
    let content = one_child(alloc, error_child(alloc, condition)?)?;
    let mut attrs = Vec::new(alloc);
    let to = written(alloc, sender)?;
    push_attr(&mut attrs, alloc, "to", to)?;
    push_reply_attrs(&mut attrs, alloc, st, "error")?;
    element_of(alloc, CLIENT_SPACE, st.kind().name(), attrs, content)
}

/// Adds the one that the stanza was for, where that is known.
fn push_from(attrs: &mut Vec<Attr>, alloc: Global, to: Option<&Jid>) -> Result<(), NoMemory>
    ensures { OnOk result (attrs.new.items ≡ attrs.old.items ++ attr_if (codes "from") (option_map address_text (option_copied to.entry))) }
{
    match to {
        Some(to) => {
            let value = written(alloc, to)?;
            push_attr(attrs, alloc, "from", value)
        }
        None => Ok(()),
    }
}

fn push_id(attrs: &mut Vec<Attr>, alloc: Global, id: Option<&Text>) -> Result<(), NoMemory>
    ensures { OnOk result (attrs.new.items ≡ attrs.old.items ++ attr_if (codes "id") (option_copied id.entry)) }
{
    match id {
        Some(id) => {
            let value = id.copy(alloc)?;
            push_attr(attrs, alloc, "id", value)
        }
        None => Ok(()),
    }
}

/// Adds the attributes of a reply of this type but for its `to`.
pub(crate) fn push_reply_attrs(
    attrs: &mut Vec<Attr>,
    alloc: Global,
    st: &Stanza,
    form: &str,
) -> Result<(), NoMemory>
    ensures { OnOk result (attrs.new.items ≡ attrs.old.items ++ reply_attrs st.now form.now) }
{
    push_from(attrs, alloc, st.to())?;
    push_id(attrs, alloc, st.id())?;
    let form = text_of(alloc, form)?;
    push_attr(attrs, alloc, "type", form)
}

fn condition_element(alloc: Global, condition: Condition) -> Result<Element, NoMemory>
    ensures { IfOk result (λ e. e ≡ condition_element condition) }
{
    let (attrs, children) = (Vec::new(alloc), Vec::new(alloc));
    element_of(alloc, CONDITION_SPACE, condition.name(), attrs, children)
}

/// `<error type='TYPE'>` with the condition in it.
pub(crate) fn error_child(alloc: Global, condition: Condition) -> Result<Element, NoMemory>
    ensures { IfOk result (λ e. e ≡ error_child condition) }
{
    let content = one_child(alloc, condition_element(alloc, condition)?)?;
    let form = text_of(alloc, condition.error_type())?;
    let mut attrs = Vec::new(alloc);
    push_attr(&mut attrs, alloc, "type", form)?;
    element_of(alloc, CLIENT_SPACE, "error", attrs, content)
}
