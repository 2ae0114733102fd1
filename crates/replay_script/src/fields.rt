//! Fields of a line, separated by one space, and the characters in them.
ghost use Rattle.std.specs.Prelude.{◌≡◌, Some, None, IfSome, IfNone, IfOk, IsUtf8};
ghost use Rattle.std.specs.List.{list_all};
ghost use Rattle.std.specs.Str.{chars};
ghost use Rattle.jid_core.specs.Cuts.{before, after};
ghost use Rattle.replay_script.specs.Characters.{is_low, is_xml_char, is_xml, is_token_char, is_token};

use jid_core::cut_at;
use stanza_tree::{NoMemory, Text};
use std::alloc::Global;
use std::str;

/// The first field, and what stands after its space. None where there is no space.
pub(crate) fn first_field(text: &[u8]) -> Option<(&[u8], &[u8])>
    ensures some { IfSome result (λ p. (p.0.now ≡ before 32 text.now) × (after 32 text.now ≡ Some p.1.now)) }
    ensures none { IfNone result (after 32 text.now ≡ None) }
{
    let (field, rest) = cut_at(b' ', text);
    Some((field, rest?))
}

/// Whether a character may stand in XML (XML 1.0, production 2).
#[tactic(auto, unfolding(crate::specs::Characters::is_xml_char))]
fn is_xml_char(c: char) -> bool
    ensures { result ≡ is_xml_char c }
{
    matches!(c as u32, 9 | 10 | 13 | 32..=0xD7FF | 0xE000..=0xFFFD | 0x10000..=0x10FFFF)
}

#[tactic(auto, unfolding(crate::specs::Characters::is_token_char))]
fn is_token_char(c: char) -> bool
    ensures { result ≡ is_token_char c }
{
    c != ' ' && !c.is_control() && is_xml_char(c)
}

fn are_xml(text: &str) -> bool
    ensures { result ≡ list_all is_xml_char (chars text.now) }
{
    text.chars().all(is_xml_char)
}

fn are_of_token(text: &str) -> bool
    ensures { result ≡ list_all is_token_char (chars text.now) }
{
    text.chars().all(is_token_char)
}

/// Whether a byte is a character of ASCII, from this one to the tilde.
fn is_low(from: u8, byte: u8) -> bool
    ensures { result ≡ is_low from byte }
{
    // Without branches, so that a test of many bytes looks at several at a time.
    (from <= byte) & (byte < 127)
}

/// Whether all bytes are such characters.
fn are_low(from: u8, bytes: &[u8]) -> bool
    ensures { result ≡ list_all (is_low from) bytes.now }
{
    let mut others = 0u8;
    for byte in bytes {
        others = others.max(!is_low(from, *byte) as u8);
    }
    others == 0
}

/// Whether all are characters of XML.
#[tactic(auto, using(crate::proofs::CharacterLemmas::xml_low, crate::proofs::CharacterLemmas::xml_read, crate::proofs::CharacterLemmas::xml_refused))]
pub(crate) fn is_xml(text: &[u8]) -> bool
    ensures { result ≡ is_xml text.now }
{
    if are_low(b' ', text) {
        return true;
    }
    match str::from_utf8(text) {
        Ok(written) => are_xml(written),
        Err(_) => false,
    }
}

/// Whether these are characters of XML, at least one, and none is a space or a control character.
#[tactic(auto, using(crate::proofs::CharacterLemmas::token_low, crate::proofs::CharacterLemmas::token_read, crate::proofs::CharacterLemmas::token_refused))]
pub(crate) fn is_token(text: &[u8]) -> bool
    ensures { result ≡ is_token text.now }
{
    if are_low(b'!', text) {
        return !text.is_empty();
    }
    match str::from_utf8(text) {
        Ok(written) => !text.is_empty() && are_of_token(written),
        Err(_) => false,
    }
}

/// The text of bytes that are known to be UTF-8.
pub(crate) fn text_of(alloc: Global, bytes: &[u8]) -> Result<Text, NoMemory>
    requires { IsUtf8 bytes.now }
    ensures { IfOk result (λ t. t ≡ bytes.now) }
{
    Ok(Text::of_vec(bytes.to_vec(alloc)?))
}
