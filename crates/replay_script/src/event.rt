//! The lines of a script, but for its first, and the event that each is.
ghost use Rattle.std.specs.Prelude.{◌≡◌, IfOk, IfSome, IsTrue};
ghost use Rattle.jid_core.specs.Preparation.{is_local};
ghost use Rattle.house_model.specs.Histories.{IdFits, Meets};
ghost use Rattle.replay_script.specs.Lines.{open_of, pull_of, user_of, login_of, id_of, resource_in, bind_of, note_of, yes_of};
ghost use Rattle.replay_script.specs.Lines.{enable_of, resume_of, ack_of, going_by, counting_by, event_by};
ghost use Rattle.replay_script.specs.Readings.{Gives};

use crate::fault::LineFault;
use crate::fields::{first_field, is_token, text_of};
use crate::notice::read_notice;
use crate::numbers::{read_count, read_dice, read_line_number, read_resume_id};
use house_model::Event;
use jid_core::Part;
use sm_resume::read_number;
use stanza_tree::Text;
use std::alloc::Global;

/// How many bytes the id of a request may have: as many as an item of a stream.
const MOST_ID: usize = 65_536;

/// The event of a line by its word and what stands after it.
pub(crate) fn read_event(alloc: Global, word: &[u8], rest: &[u8]) -> Result<Event, LineFault>
    ensures read { Gives (event_by word.now rest.now) result }
    ensures meets { IfOk result Meets }
{
    if word == b"open".as_slice() {
        return read_open(rest).ok_or(LineFault::Bad);
    }
    if word == b"pull".as_slice() {
        return read_pull(rest).ok_or(LineFault::Bad);
    }
    if word == b"login".as_slice() {
        return read_login(alloc, rest);
    }
    if word == b"bind".as_slice() {
        return read_bind(alloc, rest);
    }
    if word == b"note".as_slice() {
        return read_note(alloc, rest);
    }
    read_counting(word, rest).ok_or(LineFault::Bad)
}

/// The event of a line of stream management (XEP-0198), or of a connection that goes.
fn read_counting(word: &[u8], rest: &[u8]) -> Option<Event>
    ensures read { result ≡ counting_by word.now rest.now }
    ensures meets { IfSome result Meets }
{
    if word == b"enable".as_slice() {
        return read_enable(rest);
    }
    if word == b"resume".as_slice() {
        return read_resume(rest);
    }
    if word == b"ack".as_slice() {
        return read_ack(rest);
    }
    if word == b"ask".as_slice() {
        let w = read_line_number(rest)?;
        return Some(Event::Ask { w });
    }
    read_going(word, rest)
}

fn read_going(word: &[u8], rest: &[u8]) -> Option<Event>
    ensures read { result ≡ going_by word.now rest.now }
    ensures meets { IfSome result Meets }
{
    let (w, t) = first_field(rest)?;
    let w = read_line_number(w)?;
    let t = read_number(t)?;
    if word == b"drop".as_slice() {
        return Some(Event::DropLine { w, t });
    }
    if word == b"close".as_slice() {
        return Some(Event::CloseLine { w, t });
    }
    if word == b"sweep".as_slice() {
        return Some(Event::Sweep { w, t });
    }
    None
}

/// Whether a session that is enabled is to be resumed: `yes` or `no`.
fn read_yes(field: &[u8]) -> Option<bool>
    ensures { result ≡ yes_of field.now }
{
    if field == b"yes".as_slice() {
        Some(true)
    } else if field == b"no".as_slice() {
        Some(false)
    } else {
        None
    }
}

fn read_enable(rest: &[u8]) -> Option<Event>
    ensures read { result ≡ enable_of rest.now }
    ensures meets { IfSome result Meets }
{
    let (w, rest) = first_field(rest)?;
    let w = read_line_number(w)?;
    let (resume, dice) = first_field(rest)?;
    let resume = read_yes(resume)?;
    let dice = read_dice(dice)?;
    Some(Event::Enable { w, resume, dice })
}

fn read_resume(rest: &[u8]) -> Option<Event>
    ensures read { result ≡ resume_of rest.now }
    ensures meets { IfSome result Meets }
{
    let (w, rest) = first_field(rest)?;
    let w = read_line_number(w)?;
    let (t, rest) = first_field(rest)?;
    let t = read_number(t)?;
    let (h, token) = first_field(rest)?;
    let h = read_count(h)?;
    if !is_token(token) {
        return None;
    }
    let id = read_resume_id(token);
    Some(Event::Resume { w, id, h, t })
}

fn read_ack(rest: &[u8]) -> Option<Event>
    ensures read { result ≡ ack_of rest.now }
    ensures meets { IfSome result Meets }
{
    let (w, h) = first_field(rest)?;
    let w = read_line_number(w)?;
    let h = read_count(h)?;
    Some(Event::Ack { w, h })
}

fn read_open(rest: &[u8]) -> Option<Event>
    ensures read { result ≡ open_of rest.now }
    ensures meets { IfSome result Meets }
{
    let w = read_line_number(rest)?;
    Some(Event::OpenLine { w })
}

fn read_pull(rest: &[u8]) -> Option<Event>
    ensures read { result ≡ pull_of rest.now }
    ensures meets { IfSome result Meets }
{
    let (w, t) = first_field(rest)?;
    let w = read_line_number(w)?;
    let t = read_number(t)?;
    Some(Event::Pull { w, t })
}

/// A prepared local part without a comma.
pub(crate) fn read_user(alloc: Global, bytes: &[u8]) -> Result<Part, LineFault>
    ensures read { Gives (user_of bytes.now) result }
    ensures prepared { IfOk result (λ user. IsTrue (is_local user)) }
{
    let user = Part::local(alloc, bytes)?;
    if user.bytes() == bytes && !bytes.contains(&b',') {
        Ok(user)
    } else {
        Err(LineFault::Bad)
    }
}

fn read_login(alloc: Global, rest: &[u8]) -> Result<Event, LineFault>
    ensures read { Gives (login_of rest.now) result }
    ensures meets { IfOk result Meets }
{
    let (w, user) = first_field(rest).ok_or(LineFault::Bad)?;
    let w = read_line_number(w).ok_or(LineFault::Bad)?;
    let user = read_user(alloc, user)?;
    Ok(Event::Login { w, user })
}

#[tactic(auto, using(crate::proofs::CharacterLemmas::token_utf8))]
fn read_id(alloc: Global, bytes: &[u8]) -> Result<Text, LineFault>
    ensures read { Gives (id_of bytes.now) result }
    ensures fits { IfOk result IdFits }
{
    if bytes.len() > MOST_ID || !is_token(bytes) {
        return Err(LineFault::Bad);
    }
    Ok(text_of(alloc, bytes)?)
}

/// The resource that is asked for, or `*` for none.
fn read_resource(alloc: Global, bytes: &[u8]) -> Result<Option<Part>, LineFault>
    ensures { Gives (resource_in bytes.now) result }
{
    if bytes == b"*".as_slice() {
        return Ok(None);
    }
    if !is_token(bytes) {
        return Err(LineFault::Bad);
    }
    Ok(Some(Part::resource(alloc, bytes)?))
}

fn read_bind(alloc: Global, rest: &[u8]) -> Result<Event, LineFault>
    ensures read { Gives (bind_of rest.now) result }
    ensures meets { IfOk result Meets }
{
    let (w, rest) = first_field(rest).ok_or(LineFault::Bad)?;
    let w = read_line_number(w).ok_or(LineFault::Bad)?;
    let (t, rest) = first_field(rest).ok_or(LineFault::Bad)?;
    let t = read_number(t).ok_or(LineFault::Bad)?;
    let (dice, rest) = first_field(rest).ok_or(LineFault::Bad)?;
    let dice = read_dice(dice).ok_or(LineFault::Bad)?;
    let (id, resource) = first_field(rest).ok_or(LineFault::Bad)?;
    let id = read_id(alloc, id)?;
    let resource = read_resource(alloc, resource)?;
    Ok(Event::Bind {
        w,
        id,
        resource,
        t,
        dice,
    })
}

fn read_note(alloc: Global, rest: &[u8]) -> Result<Event, LineFault>
    ensures read { Gives (note_of rest.now) result }
    ensures meets { IfOk result Meets }
{
    let (w, rest) = first_field(rest).ok_or(LineFault::Bad)?;
    let w = read_line_number(w).ok_or(LineFault::Bad)?;
    let (t, rest) = first_field(rest).ok_or(LineFault::Bad)?;
    let t = read_number(t).ok_or(LineFault::Bad)?;
    let (address, words) = first_field(rest).ok_or(LineFault::Bad)?;
    let stanza = read_notice(alloc, address, words)?;
    Ok(Event::Act { w, stanza, t })
}
