//! What the header and the top elements of a client's stream ask for.

ghost use Rattle.std.specs.Prelude.{◌≡◌, IfOk};
ghost use Rattle.std.specs.Char.{is_ascii_digit};
ghost use Rattle.std.specs.List.{list_all};
ghost use Rattle.std.specs.Option.{option_copied};
ghost use Rattle.jid_core.specs.Addresses.{address_of, same_address, same_bare};
ghost use Rattle.stanza_model.specs.Stanzas.{address_if};
ghost use Rattle.conn_asks.specs.Requests.{are_digits, has_stream_names, header_fault, host_at, is_from, is_major};
ghost use Rattle.conn_asks.specs.Requests.{is_minor, is_version, is_zero_digit, names_host, user_at};

use crate::ended::HeaderFault;
use jid_core::{Jid, JidFault, Part, cut_at};
use stanza_tree::{Element, NoMemory, Text};
use std::alloc::Global;

/// The namespace of streams (RFC 6120, 4.8.1).
const STREAMS_SPACE: &[u8] = b"http://etherx.jabber.org/streams";

/// The namespace of what is in a stream (RFC 6120, 4.8.2).
const CLIENT_SPACE: &[u8] = b"jabber:client";

/// The first fault of a header, if it has one (RFC 6120, 4.7 and 4.8). Takes memory for the address in its `to`.
pub fn header_fault(
    alloc: Global,
    domain: &Part,
    root: &Element,
    default_space: &Text,
) -> Result<Option<HeaderFault>, NoMemory>
    ensures { IfOk result (λ fault. fault ≡ header_fault (host_at domain.now) root.now default_space.now) }
{
    if !has_stream_names(root, default_space) {
        return Ok(Some(HeaderFault::InvalidNamespace));
    }
    if !is_version(root.attr(b"version")) {
        return Ok(Some(HeaderFault::UnsupportedVersion));
    }
    if !names_host(alloc, domain, root.attr(b"to"))? {
        return Ok(Some(HeaderFault::HostUnknown));
    }
    Ok(None)
}

fn has_stream_names(root: &Element, default_space: &Text) -> bool
    ensures { result ≡ has_stream_names root.now default_space.now }
{
    root.name.space.bytes() == STREAMS_SPACE
        && root.name.local.bytes() == b"stream".as_slice()
        && default_space.bytes() == CLIENT_SPACE
}

/// Whether a version is one of XMPP 1.0 or later (RFC 6120, 4.7.5).
fn is_version(version: Option<&Text>) -> bool
    ensures { result ≡ is_version (option_copied version.entry) }
{
    let Some(version) = version else {
        return false;
    };
    let (major, minor) = cut_at(b'.', version.bytes());
    is_major(major) && is_minor(minor)
}

fn is_major(text: &[u8]) -> bool
    ensures { result ≡ is_major text.now }
{
    are_digits(text) && !are_zeros(text)
}

fn are_zeros(text: &[u8]) -> bool
    ensures { result ≡ list_all is_zero_digit text.now }
{
    text.iter().all(|b| *b == b'0')
}

fn is_minor(text: Option<&[u8]>) -> bool
    ensures { result ≡ is_minor (option_copied text.entry) }
{
    match text {
        Some(text) => are_digits(text),
        None => false,
    }
}

fn are_digits(text: &[u8]) -> bool
    ensures { result ≡ are_digits text.now }
{
    text.len() > 0 && are_all_digits(text)
}

fn are_all_digits(text: &[u8]) -> bool
    ensures { result ≡ list_all is_ascii_digit text.now }
{
    text.iter().all(|b| b.is_ascii_digit())
}

/// The address that bytes are, if they are one.
fn read(alloc: Global, bytes: &[u8]) -> Result<Option<Jid>, NoMemory>
    ensures { IfOk result (λ a. a ≡ address_if (address_of bytes.now)) }
{
    match Jid::read(alloc, bytes) {
        Ok(address) => Ok(Some(address)),
        Err(JidFault::NoMemory) => Err(NoMemory),
        Err(_) => Ok(None),
    }
}

/// Whether a `to` that is there is the server's address.
fn names_host(alloc: Global, domain: &Part, to: Option<&Text>) -> Result<bool, NoMemory>
    ensures { IfOk result (λ same. same ≡ names_host (host_at domain.now) (option_copied to.entry)) }
{
    let Some(to) = to else {
        return Ok(true);
    };
    match read(alloc, to.bytes())? {
        Some(address) => Ok(is_host(domain, &address)),
        None => Ok(false),
    }
}

fn is_host(domain: &Part, address: &Jid) -> bool
    ensures { result ≡ same_address address.now (host_at domain.now) }
{
    address.local.is_none()
        && address.domain.bytes() == domain.bytes()
        && address.resource.is_none()
}

/// Whether a `from` that is there is an address of the user at the domain (RFC 6120, 8.1.2.1).
pub fn is_from(
    alloc: Global,
    user: &Part,
    domain: &Part,
    from: Option<&Text>,
) -> Result<bool, NoMemory>
    ensures { IfOk result (λ own. own ≡ is_from (user_at domain.now user.now) (option_copied from.entry)) }
{
    let Some(from) = from else {
        return Ok(true);
    };
    match read(alloc, from.bytes())? {
        Some(address) => Ok(is_user(user, domain, &address)),
        None => Ok(false),
    }
}

fn is_user(user: &Part, domain: &Part, address: &Jid) -> bool
    ensures { result ≡ same_bare address.now (user_at domain.now user.now) }
{
    match &address.local {
        Some(local) => { local.bytes() == user.bytes() && address.domain.bytes() == domain.bytes() }
        None => false,
    }
}
