//! The stanza of a `note` line.
ghost use Rattle.std.specs.Prelude.{◌≡◌, ◌<◌, ◌≤◌, [], ◌∷◌, codes, true, false, length as list_length, IfOk, IsUtf8};
ghost use Rattle.stanza_tree.specs.Spelling.{text};
ghost use Rattle.house_model.specs.Histories.{StanzaFits};
ghost use Rattle.replay_script.specs.Notices.{plain_attr, body_of, notice, notice_of};
ghost use Rattle.replay_script.specs.Readings.{Gives};

use crate::fault::LineFault;
use crate::fields::{is_token, is_xml, text_of};
use jid_core::Jid;
use stanza_model::make::{self, element_of, one_child, push_attr};
use stanza_model::{MessageForm, Stanza};
use stanza_tree::{Attr, Element, NoMemory, Node, length};
use std::alloc::Global;

/// The namespace of stanzas (RFC 6120, 4.8.2).
const CLIENT_SPACE: &str = "jabber:client";

/// How many canonical bytes a stanza may have: as many as one of a stream.
const MOST_STANZA: u64 = 196_608;

/// So many bytes of an address and so many of words are few enough, however they are escaped.
const SHORT: usize = 16_000;

/// `<message to='ADDRESS' type='headline'><body>WORDS</body></message>`. Costs the bytes of both.
#[tactic(auto, using(crate::proofs::CharacterLemmas::token_utf8, crate::proofs::CharacterLemmas::xml_utf8))]
pub(crate) fn read_notice(alloc: Global, address: &[u8], words: &[u8]) -> Result<Stanza, LineFault>
    ensures read { Gives (notice_of address.now words.now) result }
    ensures fits { IfOk result StanzaFits }
{
    if !is_token(address) || !is_xml(words) || words.is_empty() {
        return Err(LineFault::Bad);
    }
    let to = Jid::read(alloc, address)?;
    let element = message_of(alloc, address, words)?;
    if is_too_long(address, words, &element) {
        return Err(LineFault::Bad);
    }
    Ok(Stanza::Message {
        to: Some(to),
        form: MessageForm::Headline,
        element,
    })
}

/// Whether a stanza has more bytes than it may. That of a short address and few words isn't counted.
#[tactic(auto, using(crate::proofs::NoticeSizes::notice_small))]
fn is_too_long(address: &[u8], words: &[u8], message: &Element) -> bool
    requires { message.now ≡ notice address.now words.now }
    ensures long { result ≡ true → 196608 < list_length (text message.now) }
    ensures short { result ≡ false → list_length (text message.now) ≤ 196608 }
{
    if address.len() <= SHORT && words.len() <= SHORT {
        return false;
    }
    length(message) > MOST_STANZA
}

fn attrs_of(alloc: Global, address: &[u8]) -> Result<Vec<Attr>, NoMemory>
    requires { IsUtf8 address.now }
    ensures { IfOk result (λ attrs. attrs.items ≡ plain_attr (codes "to") address.now ∷ plain_attr (codes "type") (codes "headline") ∷ []) }
{
    let mut attrs = Vec::with_capacity(alloc, 2)?;
    push_attr(&mut attrs, alloc, "to", text_of(alloc, address)?)?;
    push_attr(&mut attrs, alloc, "type", make::text_of(alloc, "headline")?)?;
    Ok(attrs)
}

fn body_of(alloc: Global, words: &[u8]) -> Result<Element, NoMemory>
    requires { IsUtf8 words.now }
    ensures { IfOk result (λ e. e ≡ body_of words.now) }
{
    let mut children = Vec::new(alloc);
    children.push(Node::Words(text_of(alloc, words)?))?;
    element_of(alloc, CLIENT_SPACE, "body", Vec::new(alloc), children)
}

fn message_of(alloc: Global, address: &[u8], words: &[u8]) -> Result<Element, NoMemory>
    requires { IsUtf8 address.now × IsUtf8 words.now }
    ensures { IfOk result (λ e. e ≡ notice address.now words.now) }
{
    let attrs = attrs_of(alloc, address)?;
    let children = one_child(alloc, body_of(alloc, words)?)?;
    element_of(alloc, CLIENT_SPACE, "message", attrs, children)
}
