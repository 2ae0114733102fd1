//! The bytes that a run is made of: those below 128 that no markup begins with and that stand for themselves, and in words and
//! values whole characters from 128 on.

ghost use Rattle.std.specs.Prelude.{◌≡◌, ◌≤◌, take, length, true};
ghost use Rattle.stream_frames.specs.Runs.{is_plain_word, is_plain_value, is_name_byte, are_plain, Spells, is_word_character, is_value_character};

use crate::wide::wide_length;
use stream_lex::Quote;

/// Whether a byte is a character of words that is no markup and no line end (XML 1.0, 2.4).
fn is_of_words(byte: u8) -> bool
    ensures { result ≡ is_plain_word byte }
{
    (32 <= byte && byte < 128) && (byte != b'&' && (byte != b'<' && byte != b']'))
}

/// Whether a byte is a character of a value in these quotes that is no markup, and no white space but a space (XML 1.0, 2.3 and 3.3.3).
fn is_of_value(quote: Quote, byte: u8) -> bool
    ensures { result ≡ is_plain_value quote byte }
{
    let end = match quote {
        Quote::Double => b'"',
        Quote::Single => b'\'',
    };
    (32 <= byte && byte < 128) && (byte != b'&' && (byte != b'<' && byte != end))
}

/// Whether a byte is a further character of a name and no colon (Namespaces in XML 1.0, 3).
fn is_of_name(byte: u8) -> bool
    ensures { result ≡ is_name_byte byte }
{
    ((97 <= byte && byte <= 122) || (65 <= byte && byte <= 90))
        || ((48 <= byte && byte <= 57) || (byte == 45 || (byte == 46 || byte == 95)))
}

/// How many plain bytes of words come first.
#[tactic(auto, using(crate::proofs::RunWords::word_more))]
fn low_words(bytes: &[u8]) -> usize
    ensures fits { result ≤ length bytes.now }
    ensures plain { are_plain is_plain_word (take result bytes.now) ≡ true }
{
    for (i, byte) in bytes.iter().enumerate() {
        if !is_of_words(*byte) {
            return i;
        }
    }
    bytes.len()
}

/// How many bytes of plain characters of words come first.
#[tactic(auto, using(crate::proofs::PlainLemmas::none_spelt, crate::proofs::PlainLemmas::words_then, crate::proofs::PlainLemmas::wide_word_then))]
pub(crate) fn plain_words(bytes: &[u8]) -> usize
    ensures fits { result ≤ length bytes.now }
    ensures plain { Spells is_word_character (take result bytes.now) }
{
    let mut at = 0;
    while at < bytes.len() {
        at += low_words(&bytes[at..]);
        let wide = wide_length(&bytes[at..]);
        if wide == 0 {
            return at;
        }
        at += wide;
    }
    at
}

/// How many plain bytes of a value come first.
#[tactic(auto, using(crate::proofs::RunValues::value_more))]
fn low_value(quote: Quote, bytes: &[u8]) -> usize
    ensures fits { result ≤ length bytes.now }
    ensures plain { are_plain (is_plain_value quote) (take result bytes.now) ≡ true }
{
    for (i, byte) in bytes.iter().enumerate() {
        if !is_of_value(quote, *byte) {
            return i;
        }
    }
    bytes.len()
}

/// How many bytes of plain characters of a value come first.
#[tactic(auto, using(crate::proofs::PlainLemmas::none_spelt, crate::proofs::PlainLemmas::value_then, crate::proofs::PlainLemmas::wide_value_then))]
pub(crate) fn plain_value(quote: Quote, bytes: &[u8]) -> usize
    ensures fits { result ≤ length bytes.now }
    ensures plain { Spells (is_value_character quote) (take result bytes.now) }
{
    let mut at = 0;
    while at < bytes.len() {
        at += low_value(quote, &bytes[at..]);
        let wide = wide_length(&bytes[at..]);
        if wide == 0 {
            return at;
        }
        at += wide;
    }
    at
}

/// How many plain bytes of a name come first.
#[tactic(auto, using(crate::proofs::RunNames::name_more))]
pub(crate) fn plain_name(bytes: &[u8]) -> usize
    ensures fits { result ≤ length bytes.now }
    ensures plain { are_plain is_name_byte (take result bytes.now) ≡ true }
{
    for (i, byte) in bytes.iter().enumerate() {
        if !is_of_name(*byte) {
            return i;
        }
    }
    bytes.len()
}
