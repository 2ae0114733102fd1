//! What a part may not have: bytes that are no text, and characters that its place refuses.
ghost use Rattle.std.specs.Prelude.{◌≡◌, ◌<◌, length, take, chars, None, Some, IsTrue, IfOk, IfErr};
ghost use Rattle.std.specs.Str.Lossy.{utf8_valid_len};
ghost use Rattle.jid_core.specs.Preparation.{is_refused, fit_len, refused_at};

use crate::fault::Which;
use std::str;

fn is_refused(which: Which, c: char) -> bool
    ensures { result ≡ is_refused which c }
{
    c.is_control()
        || (which == Which::Local
            && matches!(c, ' ' | '"' | '&' | '\'' | '/' | ':' | '<' | '>' | '@'))
}

/// How many bytes come before the first refused character.
fn fit_len(which: Which, text: &str) -> usize
    ensures { result ≡ fit_len (is_refused which) (chars text.now) }
{
    let mut len = 0;
    for c in text.chars() {
        if is_refused(which, c) {
            return len;
        }
        len += c.len_utf8();
    }
    len
}

/// The longest front that is UTF-8.
fn front(bytes: &[u8]) -> &str
    ensures { result.now ≡ take (utf8_valid_len bytes.now) bytes.now }
{
    match str::from_utf8(bytes) {
        Ok(text) => text,
        Err(fault) => str::from_utf8(&bytes[..fault.valid_up_to()]).unwrap(),
    }
}

/// The bytes as text, or the place of the first byte that begins no character that the part may have.
pub(crate) fn fit_text(which: Which, bytes: &[u8]) -> Result<&str, usize>
    ensures text { IfOk result (λ text. text.now ≡ bytes.now) }
    ensures fit { IfOk result (λ text. refused_at which bytes.now ≡ None) }
    ensures place { IfErr result (λ place. refused_at which bytes.now ≡ Some place) }
{
    let text = front(bytes);
    let len = fit_len(which, text);
    if len == bytes.len() {
        Ok(text)
    } else {
        Err(len)
    }
}
