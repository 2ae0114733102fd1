//! The lines of a list.

ghost use Rattle.std.specs.Prelude.{◌≡◌, ◌<◌, ◌∷◌, length};
ghost use Rattle.account_book.specs.Lists.{lines_of};

use jid_core::cut_at;

/// The first line with its LF, and what stands after it. Without an LF it is all.
pub(crate) fn first_line(bytes: &[u8]) -> (&[u8], &[u8])
    requires { 0 < length bytes.now }
    ensures lines { lines_of bytes.now ≡ result.0.now ∷ lines_of result.1.now }
    ensures shorter { length result.1.now < length bytes.now }
{
    let (text, end) = cut_at(b'\n', bytes);
    match end {
        Some(_) => bytes.split_at(text.len() + 1),
        None => (bytes, &[]),
    }
}
