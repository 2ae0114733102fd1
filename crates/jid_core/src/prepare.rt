//! The preparation of the parts of an address (RFC 7622, section 3).
ghost use Rattle.std.specs.Prelude.{◌≡◌, ◌<◌, not, ◌&&◌, Ok, length, chars, string_bytes, IfOk, IfErr, OnOk};
ghost use Rattle.std.specs.Str.{is_utf8};
ghost use Rattle.unicode_normalization.specs.Forms.{is_nfc};
ghost use Rattle.idna.specs.Errors.{Gives};
ghost use Rattle.jid_core.specs.declared.fault.JidFault.TheVariants.{Long};
ghost use Rattle.jid_core.specs.Preparation.{local_of, resource_of, domain_of, unless_none, without_final_dot, has_labels, ascii_form, in_labels, IsCause};

use crate::ascii::{are_labels, is_plain_local, is_plain_resource, lowered};
use crate::fault::{JidFault, NoMemory, Which};
use crate::refuse::fit_text;
use idna::uts46::{DnsLength, Hyphens, Uts46};
use idna::{AsciiDenyList, Errors};
use std::alloc::Global;
use std::str;
use unicode_normalization::{is_nfc, to_nfc};

/// The most bytes that a prepared part has (RFC 7622, 3.2 to 3.4).
const MOST_BYTES: usize = 1023;

/// A prepared part has at most 1,023 bytes.
fn has_size(which: Which, part: &[u8]) -> Result<(), JidFault>
    ensures ok { OnOk result (length part.now < 1024) }
    ensures long { IfErr result (λ fault. (fault ≡ Long which) × (1023 < length part.now)) }
{
    if part.len() > MOST_BYTES {
        return Err(JidFault::Long(which));
    }
    Ok(())
}

/// A local part (RFC 7622, 3.3): its letters of ASCII are lowered.
#[tactic(auto, using(crate::proofs::PreparationLemmas::local_of_short, crate::proofs::PreparationLemmas::local_of_long))]
pub(crate) fn prepared_local(alloc: Global, bytes: &[u8]) -> Result<Vec<u8>, JidFault>
    ensures ok { IfOk result (λ p. local_of bytes.now ≡ Ok p.items) }
    ensures fault { IfErr result (IsCause (local_of bytes.now)) }
{
    if bytes.is_empty() {
        return Err(JidFault::Empty(Which::Local));
    }
    if !is_plain_local(bytes) {
        return local_in_unicode(alloc, bytes);
    }
    has_size(Which::Local, bytes)?;
    Ok(lowered(alloc, bytes)?)
}

/// Whether the bytes are in Normalization Form C, where they are UTF-8; other bytes pass.
#[tactic(auto, using(crate::proofs::PreparationLemmas::nfc_of_text, crate::proofs::PreparationLemmas::nfc_of_bytes))]
fn is_normal(alloc: Global, bytes: &[u8]) -> Result<bool, NoMemory>
    ensures { IfOk result (λ normal. not normal ≡ (is_utf8 bytes.now && not (is_nfc (chars bytes.now)))) }
{
    match str::from_utf8(bytes) {
        Ok(text) => Ok(is_nfc(alloc, text)?),
        Err(_) => Ok(true),
    }
}

fn local_in_unicode(alloc: Global, bytes: &[u8]) -> Result<Vec<u8>, JidFault>
    requires { 0 < length bytes.now }
    ensures ok { IfOk result (λ p. local_of bytes.now ≡ Ok p.items) }
    ensures fault { IfErr result (IsCause (local_of bytes.now)) }
{
    let lower = lowered(alloc, bytes)?;
    if !is_normal(alloc, lower.as_slice())? {
        return Err(JidFault::Bad(Which::Local, 0));
    }
    match fit_text(Which::Local, bytes) {
        Err(place) => Err(JidFault::Bad(Which::Local, place)),
        Ok(_) => {
            has_size(Which::Local, lower.as_slice())?;
            Ok(lower)
        }
    }
}

/// A resource (RFC 7622, 3.4): it is brought to Normalization Form C.
#[tactic(auto, using(crate::proofs::PreparationLemmas::resource_of_short, crate::proofs::PreparationLemmas::resource_of_long))]
pub(crate) fn prepared_resource(alloc: Global, bytes: &[u8]) -> Result<Vec<u8>, JidFault>
    ensures ok { IfOk result (λ p. resource_of bytes.now ≡ Ok p.items) }
    ensures fault { IfErr result (IsCause (resource_of bytes.now)) }
{
    if bytes.is_empty() {
        return Err(JidFault::Empty(Which::Resource));
    }
    if !is_plain_resource(bytes) {
        return resource_in_unicode(alloc, bytes);
    }
    has_size(Which::Resource, bytes)?;
    Ok(bytes.to_vec(alloc)?)
}

fn resource_in_unicode(alloc: Global, bytes: &[u8]) -> Result<Vec<u8>, JidFault>
    requires { 0 < length bytes.now }
    ensures ok { IfOk result (λ p. resource_of bytes.now ≡ Ok p.items) }
    ensures fault { IfErr result (IsCause (resource_of bytes.now)) }
{
    match fit_text(Which::Resource, bytes) {
        Err(place) => Err(JidFault::Bad(Which::Resource, place)),
        Ok(text) => {
            let text = to_nfc(alloc, text)?;
            has_size(Which::Resource, text.as_bytes())?;
            Ok(text.into_bytes())
        }
    }
}

/// The domain without its final dot, if it has one.
fn without_final_dot(bytes: &[u8]) -> &[u8]
    requires { 0 < length bytes.now }
    ensures { result.now ≡ without_final_dot bytes.now }
{
    let last = bytes.len() - 1;
    if bytes[last] == b'.' {
        &bytes[..last]
    } else {
        bytes
    }
}

/// A domain (RFC 7622, 3.2): it loses one final dot, and ToASCII gives labels of 1 to 63 bytes.
#[tactic(auto, using(crate::proofs::PreparationLemmas::domain_of_short, crate::proofs::PreparationLemmas::domain_of_long))]
pub(crate) fn prepared_domain(alloc: Global, bytes: &[u8]) -> Result<Vec<u8>, JidFault>
    ensures ok { IfOk result (λ p. domain_of bytes.now ≡ Ok p.items) }
    ensures fault { IfErr result (IsCause (domain_of bytes.now)) }
{
    if bytes.is_empty() {
        return Err(JidFault::Empty(Which::Domain));
    }
    let name = without_final_dot(bytes);
    if !are_labels(name) {
        return name_in_unicode(alloc, name);
    }
    has_size(Which::Domain, name)?;
    Ok(lowered(alloc, name)?)
}

fn name_in_unicode(alloc: Global, name: &[u8]) -> Result<Vec<u8>, JidFault>
    ensures ok { IfOk result (λ p. unless_none (in_labels name.now) ≡ Ok p.items) }
    ensures fault { IfErr result (IsCause (unless_none (in_labels name.now))) }
{
    match ascii_form(alloc, name) {
        Ok(text) => {
            if !has_labels(text.as_bytes()) {
                return Err(JidFault::Bad(Which::Domain, 0));
            }
            has_size(Which::Domain, text.as_bytes())?;
            Ok(text.into_bytes())
        }
        Err(Errors::Invalid) => Err(JidFault::Bad(Which::Domain, 0)),
        Err(Errors::OutOfMemory) => Err(JidFault::NoMemory),
    }
}

/// The name by UTS 46, 4.2, ToASCII.
fn ascii_form(alloc: Global, name: &[u8]) -> Result<String, Errors>
    ensures { Gives string_bytes result (ascii_form name.now) }
{
    let text = Uts46::new().to_ascii(
        alloc,
        name,
        AsciiDenyList::STD3,
        Hyphens::Check,
        DnsLength::Ignore,
    )?;
    Ok(text.into_owned(alloc)?)
}

/// The most bytes of a label (RFC 1035, 2.3.4).
pub(crate) const MOST_LABEL: usize = 63;

/// Whether each label has a byte, and no more than may be.
fn has_labels(name: &[u8]) -> bool
    ensures { result ≡ has_labels name.now }
{
    name.split(|byte| *byte == b'.')
        .all(|label| matches!(label.len(), 1..=MOST_LABEL))
}
