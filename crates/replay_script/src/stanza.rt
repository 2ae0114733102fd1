//! The stanza of a `stanza` line.
ghost use Rattle.std.specs.Prelude.{◌≡◌, ◌≤◌, length, IfOk};
ghost use Rattle.stanza_tree.specs.Spelling.{text};
ghost use Rattle.stream_grammar.specs.grammar.Proper.{IsProper};
ghost use Rattle.house_model.specs.Histories.{StanzaFits};
ghost use Rattle.replay_script.specs.Lines.{StepFits, stanza_line_of};
ghost use Rattle.replay_script.specs.Readings.{Gives};
ghost use Rattle.stream_frames.specs.Limits.{limits};
ghost use Rattle.replay_script.specs.Stanzas.{client_header, in_client_stream, begins_with_tag, item_of, element_of, stanza_in};

use crate::fault::LineFault;
use crate::fields::first_field;
use crate::numbers::read_line_number;
use crate::step::Step;
use house_model::Event;
use sm_resume::read_number;
use stanza_model::Stanza;
use stanza_tree::{Element, NoMemory};
use std::alloc::Global;
use stream_frames::{Framer, Item, LIMITS};

/// How many bytes the text of a stanza may have: as many as an item of a stream.
const MOST_XML: usize = 65_536;

/// The step of a `stanza` line by what stands after its word.
pub(crate) fn read_stanza(alloc: Global, rest: &[u8]) -> Result<Step, LineFault>
    ensures read { Gives (stanza_line_of rest.now) result }
    ensures fits { IfOk result StepFits }
{
    let (w, rest) = first_field(rest).ok_or(LineFault::Bad)?;
    let w = read_line_number(w).ok_or(LineFault::Bad)?;
    let (t, xml) = first_field(rest).ok_or(LineFault::Bad)?;
    let t = read_number(t).ok_or(LineFault::Bad)?;
    let stanza = stanza_in(alloc, xml)?;
    Ok(Step::Event(Event::Act { w, stanza, t }))
}

/// The stanza that a text spells (RFC 6120, section 8).
#[tactic(auto, using(crate::proofs::StanzaLemmas::stanza_fits))]
fn stanza_in(alloc: Global, xml: &[u8]) -> Result<Stanza, LineFault>
    ensures read { Gives (stanza_in xml.now) result }
    ensures fits { IfOk result StanzaFits }
{
    let element = element_of(alloc, xml)?;
    Ok(Stanza::of(alloc, element)?)
}

/// The header of a stream whose default namespace is `jabber:client`, and which declares no prefix.
#[tactic(auto, unfolding(crate::specs::Stanzas::client_header))]
fn client_header() -> &'static [u8]
    ensures { result.now ≡ client_header }
{
    b"<stream xmlns='jabber:client'>"
}

/// A framer inside that stream.
#[tactic(auto, using(crate::proofs::StanzaLemmas::handed_is_ready))]
fn client_framer(alloc: Global) -> Result<Framer, NoMemory>
    ensures { IfOk result (λ f. f ≡ record { limits = limits; reading = in_client_stream }) }
{
    let mut framer = Framer::new(alloc, LIMITS)?;
    if framer.feed(client_header()).is_err() {
        return Err(NoMemory);
    }
    let _header = framer.next();
    Ok(framer)
}

/// Whether a text begins with a tag, and with neither words nor a CDATA section.
fn begins_with_tag(xml: &[u8]) -> bool
    ensures { result ≡ begins_with_tag xml.now }
{
    xml.len() > 1 && xml[0] == b'<' && xml[1] != b'!'
}

/// The item that ends with the last byte of a text in that stream.
#[tactic(auto, using(crate::proofs::StanzaLemmas::handed_is_ready, crate::proofs::StanzaLemmas::take_whole))]
fn item_of(alloc: Global, xml: &[u8]) -> Result<Option<Item>, NoMemory>
    ensures { IfOk result (λ item. item ≡ item_of xml.now) }
{
    let mut framer = client_framer(alloc)?;
    let Ok(taken) = framer.feed(xml) else {
        return Err(NoMemory);
    };
    if taken != xml.len() {
        return Ok(None);
    }
    Ok(framer.next())
}

/// The one element that a text spells within the limits, in the default namespace `jabber:client`.
#[tactic(auto, using(crate::proofs::StanzaLemmas::element_fits, crate::proofs::StanzaLemmas::element_proper))]
fn element_of(alloc: Global, xml: &[u8]) -> Result<Element, LineFault>
    ensures read { Gives (element_of xml.now) result }
    ensures fits { IfOk result (λ e. length (text e) ≤ 196608) }
    ensures proper { IfOk result IsProper }
{
    if xml.len() > MOST_XML || !begins_with_tag(xml) {
        return Err(LineFault::Bad);
    }
    match item_of(alloc, xml)? {
        Some(Item::Top(element)) => Ok(element),
        _ => Err(LineFault::Bad),
    }
}
