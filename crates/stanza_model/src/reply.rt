//! What the server itself says to the sender of a stanza (RFC 6120, 8.2.3 and 8.3.1). Whether a stanza may be answered at all is asked
//! by `refuse`, and else by the caller.
ghost use Rattle.std.specs.Prelude.{◌≡◌, IfOk};
ghost use Rattle.stanza_model.specs.Replies.{may_be_answered, reply, result_of, error_of, said_to, refused};

use crate::condition::Condition;
use crate::effect::Effect;
use crate::error::{error_child, push_reply_attrs};
use crate::here::Here;
use crate::kinds::{IqForm, MessageForm, PresenceForm};
use crate::make::{CLIENT_SPACE, element_of, one_child, spelt, written};
use crate::stanza::Stanza;
use stanza_tree::{Element, NoMemory, Node, Origin};
use std::alloc::Global;

/// Whether a stanza is ever answered: not one of the type `error`, and not an iq of the type `result`.
pub fn may_be_answered(st: &Stanza) -> bool
    ensures { result ≡ may_be_answered st.now }
{
    match st {
        Stanza::Message { form, .. } => *form != MessageForm::Error,
        Stanza::Presence { form, .. } => *form != PresenceForm::Error,
        Stanza::Iq { form, .. } => matches!(form, IqForm::Get | IqForm::Set),
        Stanza::Faulty { answered, .. } => *answered,
    }
}

fn reply(alloc: Global, st: &Stanza, form: &str, content: Vec<Node>) -> Result<Element, NoMemory>
    ensures { IfOk result (λ e. e ≡ reply st.now form.now content.items) }
{
    let mut attrs = Vec::new(alloc);
    push_reply_attrs(&mut attrs, alloc, st, form)?;
    element_of(alloc, CLIENT_SPACE, st.kind().name(), attrs, content)
}

/// The reply of the type `result` with this content, without its `to`.
pub fn result_of(alloc: Global, st: &Stanza, content: Vec<Node>) -> Result<Element, NoMemory>
    ensures { IfOk result (λ e. e ≡ result_of st.now content.items) }
{
    reply(alloc, st, "result", content)
}

/// The reply of the type `error` with this condition, without its `to`.
pub fn error_of(alloc: Global, st: &Stanza, condition: Condition) -> Result<Element, NoMemory>
    ensures { IfOk result (λ e. e ≡ error_of st.now condition) }
{
    let content = one_child(alloc, error_child(alloc, condition)?)?;
    reply(alloc, st, "error", content)
}

/// An element without a `to` is queued for a session, to its full address.
pub fn say_to(alloc: Global, who: &Here, element: &Element) -> Result<Effect, NoMemory>
    ensures { IfOk result (λ effect. effect ≡ said_to who.now element.now) }
{
    Ok(Effect::Queue {
        session: who.session,
        to: written(alloc, &who.address)?,
        rest: spelt(alloc, element)?,
        origin: Origin::Direct,
    })
}

/// A stanza of that session is refused with this condition: the error is queued for it, unless the stanza is one that is never answered.
pub fn refuse(
    alloc: Global,
    who: &Here,
    st: &Stanza,
    condition: Condition,
) -> Result<Vec<Effect>, NoMemory>
    ensures { IfOk result (λ effects. effects.items ≡ refused who.now st.now condition) }
{
    let mut effects = Vec::new(alloc);
    if may_be_answered(st) {
        let error = error_of(alloc, st, condition)?;
        effects.push(say_to(alloc, who, &error)?)?;
    }
    Ok(effects)
}
