//! The answers that wait at a line, and how they are spelt.
ghost use Rattle.std.specs.Prelude.{◌≡◌, ◌≤◌, ◌<◌, ◌+◌, ◌++◌, ◌∷◌, [], IfOk, length, nat_le, vec_len, vec_capacity};
ghost use Rattle.std.specs.Fmt.{decimal};
ghost use Rattle.std.specs.Option.{option_copied};
ghost use Rattle.sm_resume.specs.Spelling.{spelling};
ghost use Rattle.house_model.specs.Answers.{answer_text, bound_text, counted_text, enabled_text, failed_text, refused_text, request_text, resumed_text};
ghost use Rattle.house_world.specs.Oldest.{Gave};

use crate::leaving::PATIENCE_SECONDS;
use house_model::Answer;
use itoa::Buffer;
use sm_resume::{ResumeId, digits_of};
use stanza_tree::{NoMemory, append, append_value, append_words};
use std::alloc::Global;
use std::marker::Model;

/// The most bytes of a frame: of a stanza of 196,608 bytes with what is added to it, and of any answer.
pub const MOST_FRAME: usize = 524_288;

/// How many answers may wait for a connection: a client that asks for more reads what it was answered first.
pub const MOST_ANSWERS: u32 = 8;

/// The answers that wait, the oldest first. The room for them is taken once.
#[derive(Drop)]
pub struct Answers {
    waiting: Vec<Answer>,
}

impl Model for Answers {
    ghost use Rattle.std.specs.Prelude.{List, vec_capacity};
    ghost use Rattle.house_world.specs.Wholes.{AreReady};
    ghost use Rattle.house_model.specs.declared.answer.Answer.{Answer};

    ghost Value = { List Answer };

    ghost view = { λ a. a.waiting.items };

    ghost invariant = { λ a. AreReady a.waiting.items (vec_capacity a.waiting) };
}

impl Answers {
    /// None waits. Takes the room for the most.
    pub fn new(alloc: Global) -> Result<Answers, NoMemory>
        ensures { IfOk result (λ a. a ≡ []) }
    {
        Ok(Answers {
            waiting: Vec::with_capacity(alloc, MOST_ANSWERS as usize)?,
        })
    }

    /// Whether no more may wait. Costs a step.
    pub fn is_full(&self) -> bool
        ensures { result ≡ nat_le 8 (length self.now) }
    {
        self.waiting.len() >= MOST_ANSWERS as usize
    }

    pub(crate) fn say(&mut self, answer: Answer)
        requires room { length self.old < 8 }
        requires short { length (answer_text answer) ≤ 524288 }
        ensures { self.new ≡ self.old ++ answer ∷ [] }
    {
        self.waiting.push_reserved(answer);
    }

    pub(crate) fn clear(&mut self)
        ensures { self.new ≡ [] }
    {
        self.waiting.clear();
    }

    /// Appends the oldest answer, which then waits no more. False where none waits. Costs its bytes, and a step for each other.
    pub fn give(&mut self, out: &mut Vec<u8>) -> bool
        requires { vec_len out.old + 524288 ≤ vec_capacity out.old }
        ensures given { Gave self.old self.new result out.old.items out.new.items }
        ensures capacity { vec_capacity out.old ≤ vec_capacity out.new }
    {
        if self.waiting.is_empty() {
            return false;
        }
        let answer = self.waiting.remove(0);
        push_answer(&answer, out);
        true
    }
}

fn push_answer(answer: &Answer, out: &mut Vec<u8>)
    requires { vec_len out.old + length (answer_text answer.now) ≤ vec_capacity out.old }
    ensures bytes { out.new.items ≡ out.old.items ++ answer_text answer.now }
    ensures capacity { vec_capacity out.old ≤ vec_capacity out.new }
{
    match answer {
        Answer::Bound { id, jid } => push_bound(id.bytes(), jid.bytes(), out),
        Answer::Refused { id } => push_refused(id.bytes(), out),
        Answer::Unexpected => push_failed(b"unexpected-request", out),
        Answer::NotFound => push_failed(b"item-not-found", out),
        Answer::Enabled { id } => push_enabled(id.as_ref(), out),
        Answer::Resumed { h, id } => push_resumed(*h, id, out),
        Answer::Counted { h } => push_counted(*h, out),
    }
}

fn push_bound(id: &[u8], jid: &[u8], out: &mut Vec<u8>)
    requires { vec_len out.old + length (bound_text id.now jid.now) ≤ vec_capacity out.old }
    ensures bytes { out.new.items ≡ out.old.items ++ bound_text id.now jid.now }
    ensures capacity { vec_capacity out.old ≤ vec_capacity out.new }
{
    append(b"<iq id='", out);
    append_value(id, out);
    append(
        b"' type='result'><bind xmlns='urn:ietf:params:xml:ns:xmpp-bind'><jid>",
        out,
    );
    append_words(jid, out);
    append(b"</jid></bind></iq>", out);
}

fn push_refused(id: &[u8], out: &mut Vec<u8>)
    requires { vec_len out.old + length (refused_text id.now) ≤ vec_capacity out.old }
    ensures bytes { out.new.items ≡ out.old.items ++ refused_text id.now }
    ensures capacity { vec_capacity out.old ≤ vec_capacity out.new }
{
    append(b"<iq id='", out);
    append_value(id, out);
    append(
        b"' type='error'><error type='wait'><resource-constraint xmlns='urn:ietf:params:xml:ns:xmpp-stanzas'/></error></iq>",
        out,
    );
}

fn push_enabled(id: Option<&ResumeId>, out: &mut Vec<u8>)
    requires { vec_len out.old + length (enabled_text (option_copied id)) ≤ vec_capacity out.old }
    ensures bytes { out.new.items ≡ out.old.items ++ enabled_text (option_copied id.entry) }
    ensures capacity { vec_capacity out.old ≤ vec_capacity out.new }
{
    match id {
        None => append(b"<enabled xmlns='urn:xmpp:sm:3'/>", out),
        Some(id) => {
            append(b"<enabled xmlns='urn:xmpp:sm:3' id='", out);
            push_id(id, out);
            append(b"' max='", out);
            push_decimal(PATIENCE_SECONDS, out);
            append(b"' resume='true'/>", out);
        }
    }
}

fn push_resumed(h: u32, id: &ResumeId, out: &mut Vec<u8>)
    requires { vec_len out.old + length (resumed_text h id.now) ≤ vec_capacity out.old }
    ensures bytes { out.new.items ≡ out.old.items ++ resumed_text h id.now }
    ensures capacity { vec_capacity out.old ≤ vec_capacity out.new }
{
    append(b"<resumed xmlns='urn:xmpp:sm:3' h='", out);
    push_decimal(h as u64, out);
    append(b"' previd='", out);
    push_id(id, out);
    append(b"'/>", out);
}

fn push_counted(h: u32, out: &mut Vec<u8>)
    requires { vec_len out.old + length (counted_text h) ≤ vec_capacity out.old }
    ensures bytes { out.new.items ≡ out.old.items ++ counted_text h }
    ensures capacity { vec_capacity out.old ≤ vec_capacity out.new }
{
    append(b"<a xmlns='urn:xmpp:sm:3' h='", out);
    push_decimal(h as u64, out);
    append(b"'/>", out);
}

/// The request for an acknowledgement (XEP-0198, 4). Costs its bytes.
pub fn push_request(out: &mut Vec<u8>)
    requires { vec_len out.old + length request_text ≤ vec_capacity out.old }
    ensures bytes { out.new.items ≡ out.old.items ++ request_text }
    ensures capacity { vec_capacity out.old ≤ vec_capacity out.new }
{
    append(b"<r xmlns='urn:xmpp:sm:3'/>", out);
}

fn push_failed(condition: &[u8], out: &mut Vec<u8>)
    requires { vec_len out.old + length (failed_text condition.now) ≤ vec_capacity out.old }
    ensures bytes { out.new.items ≡ out.old.items ++ failed_text condition.now }
    ensures capacity { vec_capacity out.old ≤ vec_capacity out.new }
{
    append(b"<failed xmlns='urn:xmpp:sm:3'><", out);
    append(condition, out);
    append(
        b" xmlns='urn:ietf:params:xml:ns:xmpp-stanzas'/></failed>",
        out,
    );
}

#[tactic(auto, unfolding(sm_resume::specs::Spelling::spelling))]
fn push_id(id: &ResumeId, out: &mut Vec<u8>)
    requires { vec_len out.old + length (spelling id.now) ≤ vec_capacity out.old }
    ensures bytes { out.new.items ≡ out.old.items ++ spelling id.now }
    ensures capacity { vec_capacity out.old ≤ vec_capacity out.new }
{
    push_decimal(id.session, out);
    append(b"-", out);
    let digits = digits_of(&id.digits);
    append(&digits, out);
}

fn push_decimal(number: u64, out: &mut Vec<u8>)
    requires { vec_len out.old + length (decimal number) ≤ vec_capacity out.old }
    ensures bytes { out.new.items ≡ out.old.items ++ decimal number }
    ensures capacity { vec_capacity out.old ≤ vec_capacity out.new }
{
    append(Buffer::new().format(number).as_bytes(), out);
}
