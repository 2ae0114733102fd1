//! Calls of `stanza_model` and `stanza_router` that no line of a script shows: submitted forms, which no request reads yet
//! (XEP-0004, 3), an error by itself (RFC 6120, 8.3), one push (RFC 6121, 2.1.6), and the receivers of a message by their numbers
//! (RFC 6121, 8.5).

ghost use Rattle.std.specs.Prelude.{◌<◌, ◌-◌, ◌^◌, IfOk};

use crate::heard::top;
use jid_core::{Jid, Part};
use stanza_model::{
    Condition, Contact, DataForm, Effect, FormFault, Here, MessageForm, Stanza, Subscription,
    error_reply, roster_push,
};
use stanza_router::{Place, message_receivers};
use stanza_tree::{Element, Several, Text, write};
use std::alloc::Global;
use std::process::Abort;
use std::test::Fail;

// An element, and what is read of it where it is a submitted form: a line for each field, with its name and its values.
const FORMS: [(&[u8], Option<&[u8]>); 7] = [
    (
        b"<x xmlns='jabber:x:data' type='submit'>no<title>Bot</title><field xmlns='jabber:client'><value>x</value></field> <field var='FORM_TYPE'><value>jabber:bot<x xmlns='urn:example:x'>no</x></value></field> <field var='features'><value>news</value><value xmlns='jabber:client'>x</value><desc>y</desc><value>search</value></field> <field var='features'><value/></field><field var='public'/><field label='Name'><value>bot</value></field></x>",
        Some(b"FORM_TYPE=jabber:bot|\nfeatures=news|search|\nfeatures=|\npublic=\n=bot|\n"),
    ),
    (b"<x xmlns='jabber:x:data' type='submit'/>", Some(b"")),
    (b"<x xmlns='jabber:x:data' type='form'/>", None),
    (b"<x xmlns='jabber:x:data' type='cancel'/>", None),
    (b"<x xmlns='jabber:x:data'/>", None),
    (b"<y xmlns='jabber:x:data' type='submit'/>", None),
    (b"<x type='submit'/>", None),
];

fn fields_of(alloc: Global, form: &DataForm) -> Result<Vec<u8>, Fail> {
    let mut told = Vec::new(alloc);
    for field in form.fields.slice() {
        told.extend_from_slice(field.name.bytes())?;
        told.push(b'=')?;
        for value in field.values.slice() {
            told.extend_from_slice(value.bytes())?;
            told.push(b'|')?;
        }
        told.push(b'\n')?;
    }
    Ok(told)
}

fn element_of(alloc: Global, xml: &[u8]) -> Result<Element, Fail> {
    match top(alloc, xml)? {
        Some(element) => Ok(element),
        None => Err(Fail::new("no element")),
    }
}

fn expect_form<R: Abort>(
    rt: &R,
    alloc: Global,
    xml: &[u8],
    want: Option<&[u8]>,
) -> Result<(), Fail> {
    match (DataForm::read(alloc, &element_of(alloc, xml)?), want) {
        (Ok(form), Some(want)) => assert!(rt; fields_of(alloc, &form)?.as_slice() == want),
        (Err(FormFault::NotSubmit), None) => {}
        _ => assert!(rt; false, "{xml:?}"),
    }
    Ok(())
}

#[test]
fn submitted_forms_are_read(rt: HostRuntime) -> Result<(), Fail> {
    for (xml, want) in FORMS {
        expect_form(&rt, rt.alloc(), xml, want)?;
    }
    Ok(())
}

// A stanza, a condition, and the error that answers it.
const ERRORS: [(&[u8], Condition, &[u8]); 3] = [
    (
        b"<iq type='get' id='p1' to='carol@example.org/x'><ping xmlns='urn:xmpp:ping'/></iq>",
        Condition::ServiceUnavailable,
        b"<iq to='alice@example.org/desk' from='carol@example.org/x' id='p1' type='error'><error type='cancel'><service-unavailable xmlns='urn:ietf:params:xml:ns:xmpp-stanzas'/></error></iq>",
    ),
    (
        b"<message to='Bob@example.net'/>",
        Condition::RemoteServerNotFound,
        b"<message to='alice@example.org/desk' from='bob@example.net' type='error'><error type='cancel'><remote-server-not-found xmlns='urn:ietf:params:xml:ns:xmpp-stanzas'/></error></message>",
    ),
    (
        b"<presence to='' id=\"it's\"/>",
        Condition::JidMalformed,
        b"<presence to='alice@example.org/desk' id='it&apos;s' type='error'><error type='modify'><jid-malformed xmlns='urn:ietf:params:xml:ns:xmpp-stanzas'/></error></presence>",
    ),
];

fn error_text(
    alloc: Global,
    sender: &Jid,
    xml: &[u8],
    condition: Condition,
) -> Result<Vec<u8>, Fail> {
    let stanza = Stanza::of(alloc, element_of(alloc, xml)?)?;
    let mut text = Vec::new(alloc);
    write(&error_reply(alloc, &stanza, sender, condition)?, &mut text)?;
    Ok(text)
}

#[test]
fn errors_are_replied(rt: HostRuntime) -> Result<(), Fail> {
    let sender = Jid::read(rt.alloc(), b"alice@example.org/desk")?;
    for (xml, condition, want) in ERRORS {
        let text = error_text(rt.alloc(), &sender, xml, condition)?;
        assert!(rt; text.as_slice() == want, "{xml:?}");
    }
    Ok(())
}

// A session of alice's.
fn session_of(alloc: Global, session: u64, priority: i16) -> Result<Here, Fail>
    ensures { IfOk result (λ h. h.pushes < 2 ^ 64 - 1) }
{
    Ok(Here {
        session,
        address: Jid::read(alloc, b"alice@example.org/desk")?,
        available: true,
        priority,
        wants_roster: true,
        pushes: 9,
    })
}

fn contact_of(alloc: Global) -> Result<Contact, Fail> {
    let group = Text::of(alloc, b"A & B")?;
    Ok(Contact {
        address: Jid::read(alloc, b"example.net")?,
        name: Text::of(alloc, b"It's")?,
        groups: Several::of(Vec::from_array(alloc, [group])?),
        subscription: Subscription::To,
        asked: true,
    })
}

#[test]
fn a_contact_is_pushed(rt: HostRuntime) -> Result<(), Fail> {
    let want: &[u8] =
        b"<iq id='push10' type='set'><query xmlns='jabber:iq:roster'><item ask='subscribe' jid='example.net' name='It&apos;s' subscription='to'><group>A &amp; B</group></item></query></iq>";
    let receiver = session_of(rt.alloc(), 7, 0)?;
    match roster_push(rt.alloc(), &contact_of(rt.alloc())?, &receiver)? {
        Effect::Queue { session, rest, .. } => {
            assert!(rt; session == 7 && rest.bytes() == want);
        }
        _ => assert!(rt; false),
    }
    Ok(())
}

#[test]
fn messages_have_receivers(rt: HostRuntime) -> Result<(), Fail> {
    let alloc = rt.alloc();
    let (first, second) = (session_of(alloc, 3, 0)?, session_of(alloc, 4, -1)?);
    let sessions = Vec::from_array(alloc, [first, second])?;
    let place = Place::User(Part::local(alloc, b"alice")?);
    let reached = message_receivers(alloc, MessageForm::Headline, &place, sessions.as_slice())?;
    assert!(rt; reached.as_slice() == [3u64].as_slice());
    Ok(())
}
