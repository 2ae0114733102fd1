//! What one more byte does.

ghost use Rattle.std.specs.Prelude.{◌≡◌};
ghost use Rattle.scram_core.specs.Machine.{opens, equals_in, begins, end_byte, end_stage, goes, within, authzid};
ghost use Rattle.scram_core.specs.Machine.{further_limit, is_printable, nonce, is_attr_letter, proof_key, letter};
ghost use Rattle.scram_core.specs.Machine.{is_base64, is_third, is_second, third, quad_goes, is_whole, coded_ends, coded, next, is_end, start};
ghost use Rattle.scram_core.specs.declared.stage.Stage.TheVariants as stage;

use crate::stage::{Coded, Message, Missing, Quad, Run, Stage};

/// What a byte is as the first of a character that is neither NUL nor `=` nor a comma.
#[derive(Clone, Copy)]
pub enum Opens {
    /// The whole character.
    Whole,
    /// Its first byte.
    Part(Missing),
    /// No byte of one.
    Nothing,
}

/// Where the byte leads; None where no text goes on with it.
pub fn next_stage(at: Stage, byte: u8) -> Option<Stage>
    ensures { result ≡ next at byte }
{
    match at {
        Stage::Flag => matches!(byte, b'n' | b'y').then_some(Stage::FlagEnds),
        Stage::FlagEnds => (byte == b',').then_some(Stage::Authzid),
        Stage::Authzid => after_flag(byte),
        Stage::AuthzidEquals => (byte == b'=').then_some(Stage::Begins(Run::Local)),
        Stage::NameKey => (byte == b'n').then_some(Stage::NameEquals),
        Stage::NameEquals => (byte == b'=').then_some(Stage::Begins(Run::Name)),
        Stage::Begins(run) => begin_character(run, byte),
        Stage::Goes(run) => go_on(run, byte),
        Stage::Within(run, missing) => finish_character(run, missing, byte),
        Stage::NonceKey(message) => (byte == b'r').then_some(Stage::NonceEquals(message)),
        Stage::NonceEquals(message) => (byte == b'=').then_some(Stage::NonceBegins(message)),
        Stage::NonceBegins(message) => is_nonce_byte(byte).then_some(begun_nonce(message)),
        Stage::Nonce(message, left) => go_on_in_nonce(message, left, byte),
        Stage::Letter(message) => begin_attribute(message, byte),
        Stage::LetterEquals(message) => {
            (byte == b'=').then_some(Stage::Begins(Run::Value(message)))
        }
        Stage::BindingKey => (byte == b'c').then_some(Stage::BindingEquals),
        Stage::BindingEquals => {
            (byte == b'=').then_some(Stage::Base64(Coded::Binding, Quad::Start))
        }
        Stage::ProofEquals => (byte == b'=').then_some(Stage::Base64(Coded::Proof, Quad::Start)),
        Stage::Base64(attribute, quad) => go_on_in_base64(attribute, quad, byte),
    }
}

/// Whether a text may end there.
pub fn may_end(at: Stage) -> bool
    ensures { result ≡ is_end at }
{
    match at {
        Stage::Nonce(Message::First, _) | Stage::Goes(Run::Value(Message::First)) => true,
        Stage::Base64(Coded::Proof, quad) => is_whole_quad(quad),
        _ => false,
    }
}

/// Where a text begins.
pub fn start_of(message: Message) -> Stage
    ensures { result ≡ start message }
{
    match message {
        Message::First => Stage::Flag,
        Message::Last => Stage::BindingKey,
    }
}

// ["a=" authzid] ","
fn after_flag(byte: u8) -> Option<Stage>
    ensures { result ≡ authzid byte }
{
    if byte == b'a' {
        Some(Stage::AuthzidEquals)
    } else {
        (byte == b',').then_some(Stage::NameKey)
    }
}

// value-safe-char of RFC 5802, 7, by its first byte.
#[tactic(auto, unfolding(crate::specs::Machine::opens))]
fn opens_by(byte: u8) -> Opens
    ensures { result ≡ opens byte }
{
    match byte {
        0 | b',' | b'=' => Opens::Nothing,
        0x01..=0x7F => Opens::Whole,
        0x80..=0xC1 => Opens::Nothing,
        0xC2..=0xDF => Opens::Part(Missing::OneTail),
        0xE0 => Opens::Part(Missing::AfterE0),
        0xED => Opens::Part(Missing::AfterEd),
        0xE1..=0xEF => Opens::Part(Missing::TwoTails),
        0xF0 => Opens::Part(Missing::AfterF0),
        0xF1..=0xF3 => Opens::Part(Missing::ThreeTails),
        0xF4 => Opens::Part(Missing::AfterF4),
        _ => Opens::Nothing,
    }
}

// An `=` stands for itself in a value, and begins an escape in a name.
fn equals_stage(run: Run) -> Stage
    ensures { result ≡ equals_in run }
{
    match run {
        Run::Value(_) => Stage::Goes(run),
        _ => Stage::Within(run, Missing::Escape),
    }
}

fn begin_character(run: Run, byte: u8) -> Option<Stage>
    ensures { result ≡ begins run byte }
{
    if byte == b'=' {
        return Some(equals_stage(run));
    }
    match opens_by(byte) {
        Opens::Whole => Some(Stage::Goes(run)),
        Opens::Part(missing) => Some(Stage::Within(run, missing)),
        Opens::Nothing => None,
    }
}

// The byte that ends a run.
fn end_of(run: Run) -> u8
    ensures { result ≡ end_byte run }
{
    match run {
        Run::Local => b'@',
        _ => b',',
    }
}

// Where that byte leads.
fn after_run(run: Run) -> Stage
    ensures { result ≡ end_stage run }
{
    match run {
        Run::Local => Stage::Begins(Run::Host),
        Run::Host => Stage::NameKey,
        Run::Name => Stage::NonceKey(Message::First),
        Run::Value(message) => Stage::Letter(message),
    }
}

fn go_on(run: Run, byte: u8) -> Option<Stage>
    ensures { result ≡ goes run byte }
{
    if byte == end_of(run) {
        Some(after_run(run))
    } else {
        begin_character(run, byte)
    }
}

fn finish_character(run: Run, missing: Missing, byte: u8) -> Option<Stage>
    ensures { result ≡ within run missing byte }
{
    let goes_on = Stage::Goes(run);
    let one_tail = Stage::Within(run, Missing::OneTail);
    let two_tails = Stage::Within(run, Missing::TwoTails);
    match missing {
        Missing::OneTail => matches!(byte, 0x80..=0xBF).then_some(goes_on),
        Missing::TwoTails => matches!(byte, 0x80..=0xBF).then_some(one_tail),
        Missing::ThreeTails => matches!(byte, 0x80..=0xBF).then_some(two_tails),
        Missing::AfterE0 => matches!(byte, 0xA0..=0xBF).then_some(one_tail),
        Missing::AfterEd => matches!(byte, 0x80..=0x9F).then_some(one_tail),
        Missing::AfterF0 => matches!(byte, 0x90..=0xBF).then_some(two_tails),
        Missing::AfterF4 => matches!(byte, 0x80..=0x8F).then_some(two_tails),
        Missing::Escape if byte == b'2' => Some(Stage::Within(run, Missing::EscapeC)),
        Missing::Escape => (byte == b'3').then_some(Stage::Within(run, Missing::EscapeD)),
        Missing::EscapeC => (byte == b'C').then_some(goes_on),
        Missing::EscapeD => (byte == b'D').then_some(goes_on),
    }
}

// `printable` of RFC 5802, 7.
#[tactic(auto, unfolding(crate::specs::Machine::is_printable))]
fn is_nonce_byte(byte: u8) -> bool
    ensures { result ≡ is_printable byte }
{
    matches!(byte, 0x21..=0x2B | 0x2D..=0x7E)
}

// How many bytes of a nonce may follow its first in a client's first text: RFC 5802 sets no limit, and 256 bytes are far more than
// clients draw.
const MORE_IN_FIRST: u16 = 255;

// And in its last, where the server's part follows the client's.
const MORE_IN_LAST: u16 = 511;

// After the first byte of a nonce.
fn begun_nonce(message: Message) -> Stage
    ensures { result ≡ stage.Nonce message (further_limit message) }
{
    match message {
        Message::First => Stage::Nonce(message, MORE_IN_FIRST),
        Message::Last => Stage::Nonce(message, MORE_IN_LAST),
    }
}

fn go_on_in_nonce(message: Message, left: u16, byte: u8) -> Option<Stage>
    ensures { result ≡ nonce message left byte }
{
    if byte == b',' {
        Some(Stage::Letter(message))
    } else if left == 0 {
        None
    } else {
        is_nonce_byte(byte).then_some(Stage::Nonce(message, left - 1))
    }
}

// ALPHA without a c e i m n p r s v.
#[tactic(auto, unfolding(crate::specs::Machine::is_attr_letter))]
fn is_free_letter(byte: u8) -> bool
    ensures { result ≡ is_attr_letter byte }
{
    matches!(
        byte,
        b'A'..=b'Z' | b'b' | b'd' | b'f'..=b'h' | b'j'..=b'l' | b'o' | b'q' | b't'..=b'u' | b'w'..=b'z'
    )
}

fn after_proof_letter(message: Message) -> Option<Stage>
    ensures { result ≡ proof_key message }
{
    match message {
        Message::First => None,
        Message::Last => Some(Stage::ProofEquals),
    }
}

fn begin_attribute(message: Message, byte: u8) -> Option<Stage>
    ensures { result ≡ letter message byte }
{
    if byte == b'p' {
        after_proof_letter(message)
    } else {
        is_free_letter(byte).then_some(Stage::LetterEquals(message))
    }
}

// base64-char of RFC 5802, 7.
#[tactic(auto, unfolding(crate::specs::Machine::is_base64))]
fn is_base64_char(byte: u8) -> bool
    ensures { result ≡ is_base64 byte }
{
    matches!(byte, b'A'..=b'Z' | b'a'..=b'z' | b'0'..=b'9' | b'/' | b'+')
}

// One whose last two bits are zero.
#[tactic(auto, unfolding(crate::specs::Machine::is_third))]
fn is_third_char(byte: u8) -> bool
    ensures { result ≡ is_third byte }
{
    matches!(
        byte,
        b'A' | b'E'
            | b'I'
            | b'M'
            | b'Q'
            | b'U'
            | b'Y'
            | b'c'
            | b'g'
            | b'k'
            | b'o'
            | b's'
            | b'w'
            | b'0'
            | b'4'
            | b'8'
    )
}

// One whose last four bits are zero.
#[tactic(auto, unfolding(crate::specs::Machine::is_second))]
fn is_second_char(byte: u8) -> bool
    ensures { result ≡ is_second byte }
{
    matches!(byte, b'A' | b'Q' | b'g' | b'w')
}

fn third_of_quad(byte: u8) -> Option<Quad>
    ensures { result ≡ third byte }
{
    if is_third_char(byte) {
        Some(Quad::ThreeEndable)
    } else {
        is_base64_char(byte).then_some(Quad::Three)
    }
}

fn go_on_in_quad(quad: Quad, byte: u8) -> Option<Quad>
    ensures { result ≡ quad_goes quad byte }
{
    match quad {
        Quad::Start => is_base64_char(byte).then_some(Quad::One),
        Quad::One if is_second_char(byte) => Some(Quad::TwoEndable),
        Quad::One => is_base64_char(byte).then_some(Quad::Two),
        Quad::TwoEndable if byte == b'=' => Some(Quad::Padding),
        Quad::Two | Quad::TwoEndable => third_of_quad(byte),
        Quad::ThreeEndable if byte == b'=' => Some(Quad::Padded),
        Quad::Three | Quad::ThreeEndable => is_base64_char(byte).then_some(Quad::Start),
        Quad::Padding => (byte == b'=').then_some(Quad::Padded),
        Quad::Padded => None,
    }
}

fn is_whole_quad(quad: Quad) -> bool
    ensures { result ≡ is_whole quad }
{
    matches!(quad, Quad::Start | Quad::Padded)
}

fn end_base64(attribute: Coded, quad: Quad, byte: u8) -> Option<Stage>
    ensures { result ≡ coded_ends attribute quad byte }
{
    match attribute {
        Coded::Binding => {
            (is_whole_quad(quad) && byte == b',').then_some(Stage::NonceKey(Message::Last))
        }
        Coded::Proof => None,
    }
}

fn go_on_in_base64(attribute: Coded, quad: Quad, byte: u8) -> Option<Stage>
    ensures { result ≡ coded attribute quad (quad_goes quad byte) byte }
{
    match go_on_in_quad(quad, byte) {
        Some(to) => Some(Stage::Base64(attribute, to)),
        None => end_base64(attribute, quad, byte),
    }
}
