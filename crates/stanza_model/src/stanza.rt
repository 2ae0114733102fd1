//! Stanzas: messages, presences and iqs, and those that are faulty (RFC 6120, section 8).
ghost use Rattle.std.specs.Prelude.{◌≡◌, ◌==◌, ◌↔◌, None, Some, Err, IfOk};
ghost use Rattle.std.specs.Option.{option_copied};
ghost use Rattle.stanza_model.specs.Kinds.{message_form, presence_form, iq_form};
ghost use Rattle.stanza_model.specs.declared.stanza.StanzaFault.TheVariants.{Unsupported};
ghost use Rattle.stanza_model.specs.Stanzas.{kind_of, type_of, id_of, address_in, is_unreadable, element_count, has_value};
ghost use Rattle.stanza_model.specs.Stanzas.{is_answered, faulty, message_of, presence_by, iq_by, stanza_of};
ghost use Rattle.stanza_model.specs.Stanzas.{has_wrong_content, kind_in, to_in, element_in, id_in};

use crate::condition::Condition;
use crate::kinds::{IqForm, Kind, MessageForm, PresenceForm};
use jid_core::{Jid, JidFault};
use stanza_tree::{Element, NoMemory, Node, Text};
use std::alloc::{AllocError, Global};

/// Why an element is no stanza.
#[derive(Clone, Copy, Debug, PartialEq, Eq)]
pub enum StanzaFault {
    /// There was no memory for the stanza's address or its id.
    NoMemory,
    /// Its name is none of `message`, `presence` and `iq` in `jabber:client`.
    Unsupported,
}

impl From<AllocError> for StanzaFault {
    ghost use Rattle.stanza_model.specs.declared.stanza.StanzaFault.TheVariants as fault;

    ghost from_gives = { λ _ f. f ≡ fault.NoMemory };

    fn from(_error: AllocError) -> StanzaFault {
        StanzaFault::NoMemory
    }
}

/// A stanza: its address, its form and its element.
#[derive(Drop)]
pub enum Stanza {
    /// A message (RFC 6121, section 5).
    Message {
        to: Option<Jid>,
        form: MessageForm,
        element: Element,
    },
    /// A presence (RFC 6121, section 4).
    Presence {
        to: Option<Jid>,
        form: PresenceForm,
        element: Element,
    },
    /// An iq (RFC 6120, 8.2.3). A `Get` and a `Set` have one child element.
    Iq {
        to: Option<Jid>,
        id: Text,
        form: IqForm,
        element: Element,
    },
    /// A stanza that is not acted on. `to` is its address where that can be read, `id` is its id where it has one, and
    /// `answered` says whether the sender is told the condition.
    Faulty {
        kind: Kind,
        to: Option<Jid>,
        id: Option<Text>,
        answered: bool,
        condition: Condition,
    },
}

/// The kind by an element's name.
fn kind_of(e: &Element) -> Option<Kind>
    ensures { result ≡ kind_of e.now }
{
    if e.name.space.bytes() != b"jabber:client".as_slice() {
        return None;
    }
    let local = e.name.local.bytes();
    if local == b"message".as_slice() {
        Some(Kind::Message)
    } else if local == b"presence".as_slice() {
        Some(Kind::Presence)
    } else if local == b"iq".as_slice() {
        Some(Kind::Iq)
    } else {
        None
    }
}

/// The type of a message (RFC 6121, 5.2.2).
fn message_form(e: &Element) -> MessageForm
    ensures { result ≡ message_form (type_of e.now) }
{
    let Some(value) = e.attr(b"type") else {
        return MessageForm::Normal;
    };
    let value = value.bytes();
    if value == b"chat".as_slice() {
        MessageForm::Chat
    } else if value == b"headline".as_slice() {
        MessageForm::Headline
    } else if value == b"groupchat".as_slice() {
        MessageForm::Groupchat
    } else if value == b"error".as_slice() {
        MessageForm::Error
    } else {
        MessageForm::Normal
    }
}

/// The type of a presence, if it is known (RFC 6121, 4.7.1).
fn presence_form(e: &Element) -> Option<PresenceForm>
    ensures { result ≡ presence_form (type_of e.now) }
{
    let Some(value) = e.attr(b"type") else {
        return Some(PresenceForm::Available);
    };
    let value = value.bytes();
    if value == b"unavailable".as_slice() {
        Some(PresenceForm::Unavailable)
    } else if value == b"subscribe".as_slice() {
        Some(PresenceForm::Subscribe)
    } else if value == b"subscribed".as_slice() {
        Some(PresenceForm::Subscribed)
    } else if value == b"unsubscribe".as_slice() {
        Some(PresenceForm::Unsubscribe)
    } else if value == b"unsubscribed".as_slice() {
        Some(PresenceForm::Unsubscribed)
    } else if value == b"probe".as_slice() {
        Some(PresenceForm::Probe)
    } else if value == b"error".as_slice() {
        Some(PresenceForm::Error)
    } else {
        None
    }
}

/// The type of an iq, if it is one of the four (RFC 6120, 8.2.3).
fn iq_form(e: &Element) -> Option<IqForm>
    ensures { result ≡ iq_form (type_of e.now) }
{
    let value = e.attr(b"type")?.bytes();
    if value == b"get".as_slice() {
        Some(IqForm::Get)
    } else if value == b"set".as_slice() {
        Some(IqForm::Set)
    } else if value == b"result".as_slice() {
        Some(IqForm::Result)
    } else if value == b"error".as_slice() {
        Some(IqForm::Error)
    } else {
        None
    }
}

/// Whether exactly one child is an element.
fn has_one_element(children: &[Node]) -> bool
    ensures { result ≡ (element_count children.now == 1) }
{
    let mut count = 0usize;
    for node in children {
        if let Node::Child(_) = node {
            count += 1;
        }
    }
    count == 1
}

/// Whether it is a request without exactly one child element.
fn has_wrong_content(form: IqForm, e: &Element) -> bool
    ensures { result ≡ has_wrong_content form e.now }
{
    matches!(form, IqForm::Get | IqForm::Set) && !has_one_element(e.children.slice())
}

/// Whether its type is this text.
fn is_of_type(text: &[u8], e: &Element) -> bool
    ensures { result ≡ has_value text.now (type_of e.now) }
{
    match e.attr(b"type") {
        Some(value) => value.bytes() == text,
        None => false,
    }
}

/// Whether an error tells its sender of a fault: not where it is itself an error or a result.
fn is_answered(kind: Kind, e: &Element) -> bool
    ensures { result ≡ is_answered kind e.now }
{
    !is_of_type(b"error", e) && (kind != Kind::Iq || !is_of_type(b"result", e))
}

/// The address in its `to`, where that can be read.
fn address_in(alloc: Global, e: &Element) -> Result<Option<Jid>, NoMemory>
    ensures { IfOk result (λ to. to ≡ address_in e.now) }
{
    let Some(value) = e.attr(b"to") else {
        return Ok(None);
    };
    match Jid::read(alloc, value.bytes()) {
        Ok(to) => Ok(Some(to)),
        Err(JidFault::NoMemory) => Err(NoMemory),
        Err(JidFault::Empty(_)) => Ok(None),
        Err(JidFault::Long(_)) => Ok(None),
        Err(JidFault::Bad(_, _)) => Ok(None),
    }
}

/// Whether it has a `to` that could not be read.
fn is_unreadable(to: &Option<Jid>, e: &Element) -> bool
    requires { to.now ≡ address_in e.now }
    ensures { result ≡ is_unreadable e.now }
{
    to.is_none() && e.attr(b"to").is_some()
}

/// A copy of its id, where it has one.
fn id_of(alloc: Global, e: &Element) -> Result<Option<Text>, NoMemory>
    ensures { IfOk result (λ id. id ≡ id_of e.now) }
{
    match e.attr(b"id") {
        Some(id) => Ok(Some(id.copy(alloc)?)),
        None => Ok(None),
    }
}

/// The faulty stanza that an element is, with the address and the id that were read of it.
fn faulty(
    kind: Kind,
    to: Option<Jid>,
    id: Option<Text>,
    condition: Condition,
    e: &Element,
) -> Stanza
    requires { (to ≡ address_in e.now) × (id ≡ id_of e.now) }
    ensures { result ≡ faulty kind condition e.now }
{
    Stanza::Faulty {
        kind,
        to,
        id,
        answered: is_answered(kind, e),
        condition,
    }
}

/// The message that an element is, with the address that was read of it.
fn message_of(alloc: Global, to: Option<Jid>, e: Element) -> Result<Stanza, NoMemory>
    requires { to ≡ address_in e }
    ensures { IfOk result (λ st. st ≡ message_of e) }
{
    if is_unreadable(&to, &e) {
        let id = id_of(alloc, &e)?;
        return Ok(faulty(Kind::Message, to, id, Condition::JidMalformed, &e));
    }
    Ok(Stanza::Message {
        to,
        form: message_form(&e),
        element: e,
    })
}

/// The presence that an element is, with the address that was read of it.
fn presence_of(alloc: Global, to: Option<Jid>, e: Element) -> Result<Stanza, NoMemory>
    requires { to ≡ address_in e }
    ensures { IfOk result (λ st. st ≡ presence_by (presence_form (type_of e)) e) }
{
    let Some(form) = presence_form(&e) else {
        let id = id_of(alloc, &e)?;
        return Ok(faulty(Kind::Presence, to, id, Condition::BadRequest, &e));
    };
    if is_unreadable(&to, &e) {
        let id = id_of(alloc, &e)?;
        return Ok(faulty(Kind::Presence, to, id, Condition::JidMalformed, &e));
    }
    Ok(Stanza::Presence {
        to,
        form,
        element: e,
    })
}

/// The iq that an element is, with the address and the id that were read of it. Takes no memory.
fn iq_of(to: Option<Jid>, id: Option<Text>, e: Element) -> Stanza
    requires { (to ≡ address_in e) × (id ≡ id_of e) }
    ensures { result ≡ iq_by (id_of e) (iq_form (type_of e)) e }
{
    let Some(id) = id else {
        return faulty(Kind::Iq, to, None, Condition::BadRequest, &e);
    };
    let Some(form) = iq_form(&e) else {
        return faulty(Kind::Iq, to, Some(id), Condition::BadRequest, &e);
    };
    if has_wrong_content(form, &e) {
        return faulty(Kind::Iq, to, Some(id), Condition::BadRequest, &e);
    }
    if is_unreadable(&to, &e) {
        return faulty(Kind::Iq, to, Some(id), Condition::JidMalformed, &e);
    }
    Stanza::Iq {
        to,
        id,
        form,
        element: e,
    }
}

impl Stanza {
    /// The stanza that an element is. Costs a copy of its address and its id.
    pub fn of(alloc: Global, e: Element) -> Result<Stanza, StanzaFault>
        ensures ok { IfOk result (λ st. stanza_of e ≡ Some st) }
        ensures unsupported { (result ≡ Err Unsupported) ↔ (kind_of e ≡ None) }
    {
        let Some(kind) = kind_of(&e) else {
            return Err(StanzaFault::Unsupported);
        };
        let to = address_in(alloc, &e)?;
        match kind {
            Kind::Message => Ok(message_of(alloc, to, e)?),
            Kind::Presence => Ok(presence_of(alloc, to, e)?),
            Kind::Iq => {
                let id = id_of(alloc, &e)?;
                Ok(iq_of(to, id, e))
            }
        }
    }

    /// The stanza's kind.
    pub fn kind(&self) -> Kind
        ensures { result ≡ kind_in self.now }
    {
        match self {
            Stanza::Message { .. } => Kind::Message,
            Stanza::Presence { .. } => Kind::Presence,
            Stanza::Iq { .. } => Kind::Iq,
            Stanza::Faulty { kind, .. } => *kind,
        }
    }

    /// The stanza's address, where it has one that can be read.
    pub fn to(&self) -> Option<&Jid>
        ensures { option_copied result ≡ to_in self.now }
    {
        match self {
            Stanza::Message { to, .. } => to.as_ref(),
            Stanza::Presence { to, .. } => to.as_ref(),
            Stanza::Iq { to, .. } => to.as_ref(),
            Stanza::Faulty { to, .. } => to.as_ref(),
        }
    }

    /// The stanza's element. A faulty stanza has none.
    pub fn element(&self) -> Option<&Element>
        ensures { option_copied result ≡ element_in self.now }
    {
        match self {
            Stanza::Message { element, .. } => Some(element),
            Stanza::Presence { element, .. } => Some(element),
            Stanza::Iq { element, .. } => Some(element),
            Stanza::Faulty { .. } => None,
        }
    }

    /// The stanza's id, where it has one.
    pub fn id(&self) -> Option<&Text>
        ensures { option_copied result ≡ id_in self.now }
    {
        match self {
            Stanza::Message { element, .. } => element.attr(b"id"),
            Stanza::Presence { element, .. } => element.attr(b"id"),
            Stanza::Iq { id, .. } => Some(id),
            Stanza::Faulty { id, .. } => id.as_ref(),
        }
    }
}
