//! The attributes of a text (RFC 5802, section 5.1).

ghost use Rattle.std.specs.Prelude.{◌≡◌, drop, IfOk};
ghost use Rattle.scram_core.specs.Attributes.{before_comma, after_comma, before_last_comma, first_value, unescaped};

use std::alloc::{AllocError, Global};

/// What stands before the first comma, and what stands after it.
pub fn cut_at_comma(text: &[u8]) -> (&[u8], &[u8])
    ensures before { result.0.now ≡ before_comma text.now }
    ensures after { result.1.now ≡ after_comma text.now }
{
    for (i, byte) in text.iter().enumerate() {
        if *byte == b',' {
            return (&text[..i], &text[i + 1..]);
        }
    }
    (text, &[])
}

/// What stands before the last comma.
pub fn before_last(text: &[u8]) -> &[u8]
    ensures { result.now ≡ before_last_comma text.now }
{
    let mut at = 0;
    for (i, byte) in text.iter().enumerate() {
        if *byte == b',' {
            at = i;
        }
    }
    &text[..at]
}

/// The bytes from a place on: none where there are fewer.
pub fn from_place(text: &[u8], place: usize) -> &[u8]
    ensures { result.now ≡ drop place text.now }
{
    if place < text.len() {
        &text[place..]
    } else {
        &[]
    }
}

/// The value of the first attribute.
pub fn value_of_first(text: &[u8]) -> &[u8]
    ensures { result.now ≡ first_value text.now }
{
    from_place(cut_at_comma(text).0, 2)
}

/// A name without its escapes.
pub fn unescape(alloc: Global, text: &[u8]) -> Result<Vec<u8>, AllocError>
    ensures { IfOk result (λ name. name.items ≡ unescaped text.now) }
{
    let mut name = Vec::new(alloc);
    let mut rest = text;
    while let [first, others @ ..] = rest {
        let (byte, after) = match rest {
            [b'=', b'2', b'C', after @ ..] => (b',', after),
            [b'=', b'3', b'D', after @ ..] => (b'=', after),
            _ => (*first, others),
        };
        name.push(byte)?;
        rest = after;
    }
    Ok(name)
}
