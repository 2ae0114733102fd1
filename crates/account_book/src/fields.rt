//! The fields of an account line.

ghost use Rattle.std.specs.Prelude.{◌≡◌, ◌≤◌, IfSome, IfNone, Some, None, length};
ghost use Rattle.jid_core.specs.Cuts.{before, after};
ghost use Rattle.account_book.specs.Fields.{fields_of, texts_in, rounds_in, Splits};

use jid_core::cut_at;
use sm_resume::read_number;

/// The fields of a line, as they are written.
#[derive(Clone, Copy)]
pub(crate) struct Fields<'a> {
    pub name: &'a [u8],
    pub rounds: &'a [u8],
    pub salt: &'a [u8],
    pub stored1: &'a [u8],
    pub server1: &'a [u8],
    pub stored256: &'a [u8],
    pub server256: &'a [u8],
}

/// The first field, and what stands after its space. None where there is no space.
fn first_field(text: &[u8]) -> Option<(&[u8], &[u8])>
    ensures some { IfSome result (λ p. (p.0.now ≡ before 32 text.now) × (after 32 text.now ≡ Some p.1.now)) }
    ensures none { IfNone result (after 32 text.now ≡ None) }
{
    let (field, rest) = cut_at(b' ', text);
    Some((field, rest?))
}

/// Seven fields with one space between.
fn split(text: &[u8]) -> Option<Fields<'_>>
    ensures { Splits (texts_in text.now) result }
{
    let (name, rest) = first_field(text)?;
    let (rounds, rest) = first_field(rest)?;
    let (salt, rest) = first_field(rest)?;
    let (stored1, rest) = first_field(rest)?;
    let (server1, rest) = first_field(rest)?;
    let (stored256, server256) = first_field(rest)?;
    if first_field(server256).is_some() {
        return None;
    }
    Some(Fields {
        name,
        rounds,
        salt,
        stored1,
        server1,
        stored256,
        server256,
    })
}

/// The fields of a line, which ends with LF.
pub(crate) fn fields_of_line(line: &[u8]) -> Option<Fields<'_>>
    ensures { Splits (fields_of line.now) result }
{
    let (text, end) = cut_at(b'\n', line);
    end?;
    split(text)
}

/// How many rounds an account has at least (RFC 7677, 4).
const LEAST_ROUNDS: u64 = 4096;

/// How many it may have: with a million a login costs its client about a second.
const MOST_ROUNDS: u64 = 1_000_000;

/// A decimal from 4096 to 1000000 without leading zeros.
pub(crate) fn read_rounds(text: &[u8]) -> Option<u32>
    ensures { result ≡ rounds_in text.now }
{
    let rounds = read_number(text)?;
    if LEAST_ROUNDS <= rounds && rounds <= MOST_ROUNDS {
        Some(rounds as u32)
    } else {
        None
    }
}
