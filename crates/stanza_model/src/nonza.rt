//! The elements of stream management that a client sends (XEP-0198).
ghost use Rattle.std.specs.Prelude.{◌≡◌, IfOk};
ghost use Rattle.std.specs.Char.{is_ascii_digit};
ghost use Rattle.std.specs.List.{list_all};
ghost use Rattle.std.specs.Option.{option_copied};
ghost use Rattle.stanza_model.specs.Nonzas.{count_in, count_of, counted, is_true, nonza_named, nonza_of, resumption};

use stanza_tree::{Element, NoMemory, Text};
use std::alloc::Global;
use std::str;

/// The namespace of stream management (XEP-0198, 2).
const MANAGEMENT_SPACE: &[u8] = b"urn:xmpp:sm:3";

/// An element of stream management that a client sends (XEP-0198).
#[derive(Drop)]
pub enum Nonza {
    /// `<enable/>`: both sides are to count stanzas (XEP-0198, 3). With `resume` the session is to be kept for resumption.
    Enable { resume: bool },
    /// `<resume/>`: the session of the id `previd` is to go on, of whose stanzas the client handled `h`, modulo 2^32 (XEP-0198, 5).
    Resume { previd: Text, h: u32 },
    /// `<r/>`: the client asks for the count of handled stanzas (XEP-0198, 4).
    Ask,
    /// `<a/>`: the client handled `h` stanzas, modulo 2^32 (XEP-0198, 4).
    Counted { h: u32 },
    /// A `<resume/>` without a `previd`, or a `<resume/>` or `<a/>` whose `h` is absent or no number of 32 bits.
    Garbled,
}

impl Nonza {
    /// The nonza that an element is. None exactly where it is not `enable`, `resume`, `r` or `a` of `urn:xmpp:sm:3` (XEP-0198, 3 to 5);
    /// its children and its other attributes don't matter. A `resume` is true where it is `true` or `1` (XML Schema Part 2, 3.2.2), and
    /// an `h` is one or more digits, zeros in front allowed (3.3.22). Only the copy of a `previd` takes memory.
    pub fn of(alloc: Global, e: &Element) -> Result<Option<Nonza>, NoMemory>
        ensures { IfOk result (λ n. n ≡ nonza_of e.now) }
    {
        if e.name.space.bytes() == MANAGEMENT_SPACE {
            named(alloc, e)
        } else {
            Ok(None)
        }
    }
}

/// Which nonza an element of that namespace is.
fn named(alloc: Global, e: &Element) -> Result<Option<Nonza>, NoMemory>
    ensures { IfOk result (λ n. n ≡ nonza_named e.now.name.local e.now.attrs) }
{
    let local = e.name.local.bytes();
    if local == b"enable".as_slice() {
        let resume = is_true(e.attr(b"resume"));
        return Ok(Some(Nonza::Enable { resume }));
    }
    if local == b"resume".as_slice() {
        return Ok(Some(resumption(alloc, e.attr(b"previd"), count_in(e))?));
    }
    if local == b"r".as_slice() {
        return Ok(Some(Nonza::Ask));
    }
    if local == b"a".as_slice() {
        return Ok(Some(counted(count_in(e))));
    }
    Ok(None)
}

/// Whether a value is a true boolean: `true` or `1`.
fn is_true(value: Option<&Text>) -> bool
    ensures { result ≡ is_true (option_copied value.entry) }
{
    match value {
        Some(text) => text.bytes() == b"true".as_slice() || text.bytes() == b"1".as_slice(),
        None => false,
    }
}

fn resumption(alloc: Global, previd: Option<&Text>, h: Option<u32>) -> Result<Nonza, NoMemory>
    ensures { IfOk result (λ n. n ≡ resumption (option_copied previd.entry) h) }
{
    match (previd, h) {
        (Some(previd), Some(h)) => Ok(Nonza::Resume {
            previd: previd.copy(alloc)?,
            h,
        }),
        _ => Ok(Nonza::Garbled),
    }
}

fn counted(h: Option<u32>) -> Nonza
    ensures { result ≡ counted h }
{
    match h {
        Some(h) => Nonza::Counted { h },
        None => Nonza::Garbled,
    }
}

/// What the attribute `h` counts, where there is one and it is such a number.
fn count_in(e: &Element) -> Option<u32>
    ensures { result ≡ count_in e.now.attrs }
{
    read_count(e.attr(b"h")?)
}

/// The number of 32 bits that one or more decimal digits write (XML Schema Part 2, 3.3.22).
#[tactic(auto, using(crate::proofs::Counts::count_parsed))]
pub fn read_count(text: &Text) -> Option<u32>
    ensures { result ≡ count_of text.now }
{
    if !are_digits(text.bytes()) {
        return None;
    }
    match str::from_utf8(text.bytes()) {
        Ok(digits) => digits.parse().ok(),
        Err(_) => None,
    }
}

fn are_digits(text: &[u8]) -> bool
    ensures { result ≡ list_all is_ascii_digit text.now }
{
    text.iter().all(|b| b.is_ascii_digit())
}
