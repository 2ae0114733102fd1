//! Writes what a server itself says on a stream. Each call appends its text; where memory is wanting, a part of it.

ghost use Rattle.std.specs.Prelude.{◌≡◌, ◌++◌, IfOk, OnOk};
ghost use Rattle.std.specs.Fmt.{decimal};
ghost use Rattle.scram_core.specs.Login.{base64_of};
ghost use Rattle.stanza_tree.specs.Spelling.{value_text};
ghost use Rattle.conn_asks.specs.Texts.{stream_id, header_text, login_features_text, features_text, challenge_text};
ghost use Rattle.conn_asks.specs.Texts.{invitation_text, success_text, failure_text, close_tag, refused_resource_text};
ghost use Rattle.conn_asks.specs.StreamErrors.{application_text, error_text, too_high_text};

use crate::failure::Failure;
use crate::stream_error::StreamError;
use base64::engine::general_purpose::STANDARD;
use stanza_tree::{NoMemory, append_value};
use std::alloc::Global;
use uuid::{Builder, Uuid};

/// The most bytes that stand for one byte in a value: those of `&apos;`.
const LONGEST_REFERENCE: usize = 6;

/// The id of a stream: a UUID of random bytes (RFC 6120, 4.7.3; RFC 9562, 5.4).
pub fn stream_id(alloc: Global, dice: [u8; 16]) -> Result<Vec<u8>, NoMemory>
    ensures { IfOk result (λ id. id.items ≡ stream_id dice) }
{
    let mut buffer = Uuid::encode_buffer();
    let uuid = Builder::from_random_bytes(dice).into_uuid();
    let text = uuid.hyphenated().encode_lower(&mut buffer);
    Vec::from_slice(alloc, text.as_bytes())
}

/// The header of the stream from the server (RFC 6120, 4.7).
pub fn push_header(domain: &[u8], id: &[u8], out: &mut Vec<u8>) -> Result<(), NoMemory>
    ensures { OnOk result (out.new.items ≡ out.old.items ++ header_text domain.now id.now) }
{
    push(
        b"<?xml version='1.0'?><stream:stream xmlns='jabber:client' xmlns:stream='http://etherx.jabber.org/streams' from='",
        out,
    )?;
    push(domain, out)?;
    push(b"' id='", out)?;
    push(id, out)?;
    push(b"' version='1.0' xml:lang='en'>", out)?;
    Ok(())
}

/// The features before login: the mechanisms (RFC 6120, 6.4.1).
#[tactic(auto, unfolding(crate::specs::Texts::login_features_text))]
pub fn push_login_features(out: &mut Vec<u8>) -> Result<(), NoMemory>
    ensures { OnOk result (out.new.items ≡ out.old.items ++ login_features_text) }
{
    push(
        b"<stream:features><mechanisms xmlns='urn:ietf:params:xml:ns:xmpp-sasl'><mechanism>SCRAM-SHA-256</mechanism><mechanism>SCRAM-SHA-1</mechanism></mechanisms></stream:features>",
        out,
    )
}

/// The features after login: binding (RFC 6120, 7.4), sessions (RFC 3921, 3) and stream management (XEP-0198, 2).
#[tactic(auto, unfolding(crate::specs::Texts::features_text))]
pub fn push_features(out: &mut Vec<u8>) -> Result<(), NoMemory>
    ensures { OnOk result (out.new.items ≡ out.old.items ++ features_text) }
{
    push(
        b"<stream:features><bind xmlns='urn:ietf:params:xml:ns:xmpp-bind'/><session xmlns='urn:ietf:params:xml:ns:xmpp-session'><optional/></session><sm xmlns='urn:xmpp:sm:3'/></stream:features>",
        out,
    )
}

/// The empty challenge, which asks for the first text of a mechanism (RFC 6120, 6.4.2).
#[tactic(auto, unfolding(crate::specs::Texts::invitation_text))]
pub fn push_invitation(out: &mut Vec<u8>) -> Result<(), NoMemory>
    ensures { OnOk result (out.new.items ≡ out.old.items ++ invitation_text) }
{
    push(
        b"<challenge xmlns='urn:ietf:params:xml:ns:xmpp-sasl'/>",
        out,
    )
}

/// A challenge that carries these bytes (RFC 6120, 6.4.3).
pub fn push_challenge(alloc: Global, bytes: &[u8], out: &mut Vec<u8>) -> Result<(), NoMemory>
    ensures { OnOk result (out.new.items ≡ out.old.items ++ challenge_text bytes.now) }
{
    push(b"<challenge xmlns='urn:ietf:params:xml:ns:xmpp-sasl'>", out)?;
    push_base64(alloc, bytes, out)?;
    push(b"</challenge>", out)?;
    Ok(())
}

/// The success of a login, with these bytes (RFC 6120, 6.4.6).
pub fn push_success(alloc: Global, bytes: &[u8], out: &mut Vec<u8>) -> Result<(), NoMemory>
    ensures { OnOk result (out.new.items ≡ out.old.items ++ success_text bytes.now) }
{
    push(b"<success xmlns='urn:ietf:params:xml:ns:xmpp-sasl'>", out)?;
    push_base64(alloc, bytes, out)?;
    push(b"</success>", out)?;
    Ok(())
}

/// The failure of a login (RFC 6120, 6.4.5).
pub fn push_failure(failure: Failure, out: &mut Vec<u8>) -> Result<(), NoMemory>
    ensures { OnOk result (out.new.items ≡ out.old.items ++ failure_text failure) }
{
    push(b"<failure xmlns='urn:ietf:params:xml:ns:xmpp-sasl'><", out)?;
    push(failure.name(), out)?;
    push(b"/></failure>", out)?;
    Ok(())
}

/// The answer to a binding whose resource can't be read (RFC 6120, 7.7.2.1).
pub fn push_refused_resource(id: &[u8], out: &mut Vec<u8>) -> Result<(), NoMemory>
    ensures { OnOk result (out.new.items ≡ out.old.items ++ refused_resource_text id.now) }
{
    push(b"<iq id='", out)?;
    push_value(id, out)?;
    push(
        b"' type='error'><error type='modify'><bad-request xmlns='urn:ietf:params:xml:ns:xmpp-stanzas'/></error></iq>",
        out,
    )?;
    Ok(())
}

/// Appends bytes as they stand in a value that is quoted by `'`.
fn push_value(bytes: &[u8], out: &mut Vec<u8>) -> Result<(), NoMemory>
    ensures { OnOk result (out.new.items ≡ out.old.items ++ value_text bytes.now) }
{
    let Some(room) = bytes.len().checked_mul(LONGEST_REFERENCE) else {
        return Err(NoMemory);
    };
    out.reserve(room)?;
    append_value(bytes, out);
    Ok(())
}

/// A stream error (RFC 6120, 4.9.2).
pub fn push_error(alloc: Global, error: StreamError, out: &mut Vec<u8>) -> Result<(), NoMemory>
    ensures { OnOk result (out.new.items ≡ out.old.items ++ error_text error) }
{
    push(b"<stream:error><", out)?;
    push(error.name(), out)?;
    push(b" xmlns='urn:ietf:params:xml:ns:xmpp-streams'/>", out)?;
    push_application(alloc, error, out)?;
    push(b"</stream:error>", out)?;
    Ok(())
}

/// The condition of an application, where an error has one (RFC 6120, 4.9.4).
fn push_application(alloc: Global, error: StreamError, out: &mut Vec<u8>) -> Result<(), NoMemory>
    ensures { OnOk result (out.new.items ≡ out.old.items ++ application_text error) }
{
    match error {
        StreamError::HandledCountTooHigh { h, sent } => push_too_high(alloc, h, sent, out),
        _ => Ok(()),
    }
}

fn push_too_high(alloc: Global, h: u32, sent: u32, out: &mut Vec<u8>) -> Result<(), NoMemory>
    ensures { OnOk result (out.new.items ≡ out.old.items ++ too_high_text h sent) }
{
    push(b"<handled-count-too-high xmlns='urn:xmpp:sm:3' h='", out)?;
    push_decimal(alloc, h, out)?;
    push(b"' send-count='", out)?;
    push_decimal(alloc, sent, out)?;
    push(b"'/>", out)?;
    Ok(())
}

/// The end of the stream from the server (RFC 6120, 4.4).
#[tactic(auto, unfolding(crate::specs::Texts::close_tag))]
pub fn push_close_tag(out: &mut Vec<u8>) -> Result<(), NoMemory>
    ensures { OnOk result (out.new.items ≡ out.old.items ++ close_tag) }
{
    push(b"</stream:stream>", out)
}

fn push_decimal(alloc: Global, number: u32, out: &mut Vec<u8>) -> Result<(), NoMemory>
    ensures { OnOk result (out.new.items ≡ out.old.items ++ decimal number) }
{
    push(format!(in alloc; "{}", number)?.as_bytes(), out)
}

fn push_base64(alloc: Global, bytes: &[u8], out: &mut Vec<u8>) -> Result<(), NoMemory>
    ensures { OnOk result (out.new.items ≡ out.old.items ++ base64_of bytes.now) }
{
    push(STANDARD.encode(alloc, bytes)?.as_bytes(), out)
}

fn push(bytes: &[u8], out: &mut Vec<u8>) -> Result<(), NoMemory>
    ensures { OnOk result (out.new.items ≡ out.old.items ++ bytes.now) }
{
    out.extend_from_slice(bytes)
}
