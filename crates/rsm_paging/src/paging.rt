//! Pages of rows (XEP-0313, 4, with XEP-0059, 2).
ghost use Rattle.std.specs.Prelude.{◌≡◌, ◌==◌, map, is_some, IfOk, IfErr, OnOk, true, Some, None};
ghost use Rattle.std.specs.List.{list_any};
ghost use Rattle.std.specs.Option.{option_copied, option_map};
ghost use Rattle.rsm_paging.specs.Matches.{IsFirstAfter, IsLastBefore, IsMatched, match_of};
ghost use Rattle.rsm_paging.specs.Pages.{IsOneWay, IsPage, IsUnknown, IsUnknownId, Rises, asked_id, id_of, is_known, matching, row_named, row_numbered};

use crate::ask::{Filter, Page, PageAsk, PageFault, Row};
use crate::matching::{Match, below, first_page, last_page, matches, up_to};
use sm_resume::read_number;
use stanza_tree::{NoMemory, Text};
use std::alloc::Global;

/// The most rows of a page.
pub(crate) const MOST_ROWS: u32 = 50;

/// The id that a text is of one of these rows.
fn id_named(rows: &[Row], id: &[u8]) -> Option<u64>
    ensures { result ≡ option_map id_of (row_named id.now rows.now) }
{
    match read_number(id) {
        Some(number) => id_among(rows, number),
        None => None,
    }
}

/// This number, where a row has it.
fn id_among(rows: &[Row], number: u64) -> Option<u64>
    ensures { result ≡ option_map id_of (row_numbered (Some number) rows.now) }
{
    if has_row(rows, number) {
        Some(number)
    } else {
        None
    }
}

/// Whether a row has this number.
fn has_row(rows: &[Row], number: u64) -> bool
    ensures { result ≡ list_any (λ row. row.id == number) rows.now }
{
    rows.iter().any(|row| row.id == number)
}

/// The page after the row of an id.
fn page_after(
    alloc: Global,
    rows: &[Row],
    asked: &[Match],
    after: &Text,
    max: usize,
) -> Result<Page, PageFault>
    ensures known { OnOk result (is_some (row_named after.now rows.now) ≡ true) }
    ensures unknown { IfErr result (IsUnknownId rows.now after.now) }
    ensures page { IfOk result (λ page. IsFirstAfter (row_named after.now rows.now) asked.now max page) }
{
    match id_named(rows, after.bytes()) {
        Some(id) => Ok(first_page(alloc, asked, up_to(asked, id), max)?),
        None => Err(PageFault::UnknownId(after.copy(alloc)?)),
    }
}

/// The page before the row of an id.
fn page_before(
    alloc: Global,
    rows: &[Row],
    asked: Vec<Match>,
    before: &Text,
    max: usize,
) -> Result<Page, PageFault>
    ensures known { OnOk result (is_some (row_named before.now rows.now) ≡ true) }
    ensures unknown { IfErr result (IsUnknownId rows.now before.now) }
    ensures page { IfOk result (λ page. IsLastBefore (row_named before.now rows.now) asked.items max page) }
{
    match id_named(rows, before.bytes()) {
        Some(id) => {
            let to = below(asked.as_slice(), id);
            Ok(last_page(alloc, asked, to, max)?)
        }
        None => Err(PageFault::UnknownId(before.copy(alloc)?)),
    }
}

/// The last page, where no row is named, or else that before it.
fn page_to(
    alloc: Global,
    rows: &[Row],
    asked: Vec<Match>,
    before: &Text,
    max: usize,
) -> Result<Page, PageFault>
    ensures known { OnOk result (is_known rows.now (asked_id None (Some before.now)) ≡ true) }
    ensures unknown { IfErr result (IsUnknown rows.now None (Some before.now)) }
    ensures page { IfOk result (λ page. IsMatched rows.now asked.items max None (Some before.now) page) }
{
    if before.bytes().is_empty() {
        let to = asked.len();
        return Ok(last_page(alloc, asked, to, max)?);
    }
    page_before(alloc, rows, asked, before, max)
}

/// The page of these, which are the rows that are asked for.
fn page_by(
    alloc: Global,
    rows: &[Row],
    asked: Vec<Match>,
    ask: &PageAsk,
    max: usize,
) -> Result<Page, PageFault>
    ensures known { OnOk result (is_known rows.now (asked_id ask.now.after ask.now.before) ≡ true) }
    ensures unknown { IfErr result (IsUnknown rows.now ask.now.after ask.now.before) }
    ensures page { IfOk result (λ page. IsMatched rows.now asked.items max ask.now.after ask.now.before page) }
{
    match (&ask.after, &ask.before) {
        (Some(after), _) => page_after(alloc, rows, asked.as_slice(), after, max),
        (None, Some(before)) => page_to(alloc, rows, asked, before, max),
        (None, None) => Ok(first_page(alloc, asked.as_slice(), 0, max)?),
    }
}

/// The page that is asked for (XEP-0313, 4.1 and 4.3, with XEP-0059, 2): of the rows that the filter fits, those after the row of the id
/// `after`, or the last of those before the row of `before`, at most 50, and as many as fit 262,144 bytes, but one at least. The ids of the rows must
/// rise, and an ask has not both `after` and `before`. Costs a look at each row.
pub fn page(alloc: Global, rows: &[Row], filter: &Filter, ask: &PageAsk) -> Result<Page, PageFault>
    requires rises { Rises rows.now }
    requires one_way { IsOneWay ask.now.after ask.now.before }
    ensures known { OnOk result (is_known rows.now (asked_id ask.now.after ask.now.before) ≡ true) }
    ensures unknown { IfErr result (IsUnknown rows.now ask.now.after ask.now.before) }
    ensures page { IfOk result (IsPage rows.now filter.now ask.now) }
{
    let asked = matches(alloc, rows, filter)?;
    let max = ask.max.min(MOST_ROWS) as usize;
    page_by(alloc, rows, asked, ask, max)
}
