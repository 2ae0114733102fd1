//! Which page a query asks for (XEP-0313, 4.3, with XEP-0059, 2).
ghost use Rattle.std.specs.Prelude.{◌≡◌, Ok, IfOk, IfErr};
ghost use Rattle.std.specs.Option.{option_copied};
ghost use Rattle.mam_wire.specs.Asks.{ask_by, ask_in, ask_of, has_index, max_of, page_ask, words_at};
ghost use Rattle.mam_wire.specs.Faults.{IsCause};

use crate::fault::QueryFault;
use crate::make::{RSM_SPACE, are_digits};
use rsm_paging::PageAsk;
use stanza_tree::{Element, NoMemory, Text};
use std::alloc::Global;
use std::str;

/// The most rows of a page, and how many it has where `max` is absent.
const MOST_ROWS: u32 = 50;

/// The words of the first child of that name.
fn words_at(alloc: Global, local: &[u8], set: &Element) -> Result<Option<Text>, NoMemory>
    ensures { IfOk result (λ words. words ≡ words_at local.now set.now) }
{
    match set.child(RSM_SPACE.as_bytes(), local) {
        Some(child) => Ok(Some(child.words(alloc)?)),
        None => Ok(None),
    }
}

fn has_index(set: &Element) -> bool
    ensures { result ≡ has_index set.now }
{
    set.child(RSM_SPACE.as_bytes(), b"index").is_some()
}

/// The number that these digits write, or the most; None where they are none.
#[tactic(auto, using(crate::proofs::AskLemmas::most_parsed))]
fn max_in(words: &Text) -> Option<u32>
    ensures { result ≡ max_of (Some words.now) }
{
    if words.bytes().is_empty() || !are_digits(words.bytes()) {
        return None;
    }
    match str::from_utf8(words.bytes()) {
        Ok(digits) => Some(digits.parse().unwrap_or(MOST_ROWS).min(MOST_ROWS)),
        Err(_) => None,
    }
}

fn max_of(words: Option<&Text>) -> Option<u32>
    ensures { result ≡ max_of (option_copied words.entry) }
{
    match words {
        Some(words) => max_in(words),
        None => Some(MOST_ROWS),
    }
}

/// The page after a row, or that before one; not both.
fn page_ask(max: u32, after: Option<Text>, before: Option<Text>) -> Result<PageAsk, QueryFault>
    ensures { result ≡ page_ask max after before }
{
    if after.is_some() && before.is_some() {
        return Err(QueryFault::BadRequest);
    }
    Ok(PageAsk { max, after, before })
}

fn ask_by(
    max: Option<u32>,
    is_by_index: bool,
    after: Option<Text>,
    before: Option<Text>,
) -> Result<PageAsk, QueryFault>
    ensures { result ≡ ask_by max is_by_index after before }
{
    let Some(max) = max else {
        return Err(QueryFault::BadRequest);
    };
    if is_by_index {
        return Err(QueryFault::NotImplemented);
    }
    page_ask(max, after, before)
}

fn ask_in(alloc: Global, set: &Element) -> Result<PageAsk, QueryFault>
    ensures ok { IfOk result (λ ask. ask_in set.now ≡ Ok ask) }
    ensures fault { IfErr result (IsCause (ask_in set.now)) }
{
    let max = words_at(alloc, b"max", set)?;
    let after = words_at(alloc, b"after", set)?;
    let before = words_at(alloc, b"before", set)?;
    ask_by(max_of(max.as_ref()), has_index(set), after, before)
}

/// The page that a query asks for, by the result set that it has.
pub(crate) fn ask_of(alloc: Global, set: Option<&Element>) -> Result<PageAsk, QueryFault>
    ensures ok { IfOk result (λ ask. ask_of (option_copied set.entry) ≡ Ok ask) }
    ensures fault { IfErr result (IsCause (ask_of (option_copied set.entry))) }
{
    match set {
        Some(set) => ask_in(alloc, set),
        None => Ok(PageAsk {
            max: MOST_ROWS,
            after: None,
            before: None,
        }),
    }
}
