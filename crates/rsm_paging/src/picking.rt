//! Pages of rows that are found by their places, without a look at each (XEP-0313, 4.1 and 4.3, with XEP-0059, 2).
ghost use Rattle.std.specs.Prelude.{◌≡◌, ℕ, length, map, is_some, IfErr, IfOk, OnOk, true, None, Some};
ghost use Rattle.std.specs.Option.{option_copied};
ghost use Rattle.rsm_paging.specs.Matches.{IsFirstAfter, IsLastBefore, IsMatched, match_of};
ghost use Rattle.rsm_paging.specs.Pages.{Follow, IsOneWay, IsPage, IsPageBy, IsPicked, IsUnknown, IsUnknownId, Rises, StampsRise, asked_id, is_known, row_named};
ghost use Rattle.rsm_paging.specs.Places.{IsSpan, between, listed, many_of, rows_at};

use crate::ask::{Filter, Page, PageAsk, PageFault, Row};
use crate::paging::MOST_ROWS;
use crate::placing::{Bound, Span, count_before, row_of};
use crate::spans::{asked_span, page_from, page_to};
use sm_resume::read_number;
use stanza_tree::Text;
use std::alloc::Global;

/// The row of an id, which is its number in decimal digits.
fn row_named<'a>(rows: &'a [Row], id: &[u8]) -> Option<&'a Row>
    requires { (n : ℕ) × Follow n rows.now }
    ensures { option_copied result ≡ row_named id.now rows.now }
{
    match read_number(id) {
        Some(number) => row_of(rows, number),
        None => None,
    }
}

/// The page after the row of an id.
#[tactic(auto, using(crate::proofs::SpanLemmas::parted_past_id, crate::proofs::SpanLemmas::parted_id))]
fn page_after(
    alloc: Global,
    rows: &[Row],
    picked: Option<&[u64]>,
    span: Span,
    after: &Text,
    max: usize,
) -> Result<Page, PageFault>
    requires span { IsSpan rows.now (option_copied picked) span.from span.many }
    requires rises { Rises (rows_at rows.now (option_copied picked) span.from span.many) }
    ensures known { OnOk result (is_some (row_named after.now rows.now) ≡ true) }
    ensures unknown { IfErr result (IsUnknownId rows.now after.now) }
    ensures page { IfOk result (λ page. IsFirstAfter (row_named after.now rows.now)
        (map match_of (rows_at rows.now (option_copied picked.entry) span.from span.many)) max page) }
{
    let Some(row) = row_named(rows, after.bytes()) else {
        return Err(PageFault::UnknownId(after.copy(alloc)?));
    };
    let from = count_before(rows, picked, span, Bound::PastId(row.id));
    Ok(page_from(alloc, rows, picked, span, from, max)?)
}

/// The page before the row of an id.
#[tactic(auto, using(crate::proofs::SpanLemmas::parted_id))]
fn page_before(
    alloc: Global,
    rows: &[Row],
    picked: Option<&[u64]>,
    span: Span,
    before: &Text,
    max: usize,
) -> Result<Page, PageFault>
    requires span { IsSpan rows.now (option_copied picked) span.from span.many }
    requires rises { Rises (rows_at rows.now (option_copied picked) span.from span.many) }
    ensures known { OnOk result (is_some (row_named before.now rows.now) ≡ true) }
    ensures unknown { IfErr result (IsUnknownId rows.now before.now) }
    ensures page { IfOk result (λ page. IsLastBefore (row_named before.now rows.now)
        (map match_of (rows_at rows.now (option_copied picked.entry) span.from span.many)) max page) }
{
    let Some(row) = row_named(rows, before.bytes()) else {
        return Err(PageFault::UnknownId(before.copy(alloc)?));
    };
    let to = count_before(rows, picked, span, Bound::Id(row.id));
    Ok(page_to(alloc, rows, picked, span, to, max)?)
}

/// The last page, where no row is named, or else that before it.
fn page_up_to(
    alloc: Global,
    rows: &[Row],
    picked: Option<&[u64]>,
    span: Span,
    before: &Text,
    max: usize,
) -> Result<Page, PageFault>
    requires span { IsSpan rows.now (option_copied picked) span.from span.many }
    requires rises { Rises (rows_at rows.now (option_copied picked) span.from span.many) }
    ensures known { OnOk result (is_known rows.now (asked_id None (Some before.now)) ≡ true) }
    ensures unknown { IfErr result (IsUnknown rows.now None (Some before.now)) }
    ensures page { IfOk result (λ page. IsMatched rows.now
        (map match_of (rows_at rows.now (option_copied picked.entry) span.from span.many)) max None (Some before.now) page) }
{
    if before.bytes().is_empty() {
        return Ok(page_to(alloc, rows, picked, span, span.many, max)?);
    }
    page_before(alloc, rows, picked, span, before, max)
}

/// The page that is asked for of the rows of a span.
fn page_by(
    alloc: Global,
    rows: &[Row],
    picked: Option<&[u64]>,
    span: Span,
    ask: &PageAsk,
    max: usize,
) -> Result<Page, PageFault>
    requires span { IsSpan rows.now (option_copied picked) span.from span.many }
    requires rises { Rises (rows_at rows.now (option_copied picked) span.from span.many) }
    ensures known { OnOk result (is_known rows.now (asked_id ask.now.after ask.now.before) ≡ true) }
    ensures unknown { IfErr result (IsUnknown rows.now ask.now.after ask.now.before) }
    ensures page { IfOk result (λ page. IsMatched rows.now
        (map match_of (rows_at rows.now (option_copied picked.entry) span.from span.many)) max ask.now.after ask.now.before page) }
{
    match (&ask.after, &ask.before) {
        (Some(after), _) => page_after(alloc, rows, picked, span, after, max),
        (None, Some(before)) => page_up_to(alloc, rows, picked, span, before, max),
        (None, None) => Ok(page_from(alloc, rows, picked, span, 0, max)?),
    }
}

/// The page that is asked for, where the rows at all places are those of the peer that is asked for.
fn page_among(
    alloc: Global,
    rows: &[Row],
    picked: Option<&[u64]>,
    filter: &Filter,
    ask: &PageAsk,
) -> Result<Page, PageFault>
    requires ids { (n : ℕ) × Follow n rows.now }
    requires there { length (listed rows.now (option_copied picked)) ≡ many_of rows.now (option_copied picked) }
    requires stamps { StampsRise 0 (listed rows.now (option_copied picked)) }
    requires rises { Rises (listed rows.now (option_copied picked)) }
    ensures known { OnOk result (is_known rows.now (asked_id ask.now.after ask.now.before) ≡ true) }
    ensures unknown { IfErr result (IsUnknown rows.now ask.now.after ask.now.before) }
    ensures page { IfOk result (IsPageBy rows.now (between filter.now (listed rows.now (option_copied picked.entry)))
        ask.now.max ask.now.after ask.now.before) }
{
    let span = asked_span(rows, picked, filter);
    let max = ask.max.min(MOST_ROWS) as usize;
    page_by(alloc, rows, picked, span, ask, max)
}

/// The page that is asked for, as `page` has it, of rows whose ids follow each other and whose stamps never fall, and of which those of the peer that is
/// asked for are picked, by their ids in their order. Costs a look at each row of the page, and some binary searches.
pub fn page_of(
    alloc: Global,
    rows: &[Row],
    picked: &[u64],
    filter: &Filter,
    ask: &PageAsk,
) -> Result<Page, PageFault>
    requires ids { (n : ℕ) × Follow n rows.now }
    requires stamps { StampsRise 0 rows.now }
    requires picked { IsPicked picked.now filter.now rows.now }
    requires one_way { IsOneWay ask.now.after ask.now.before }
    ensures known { OnOk result (is_known rows.now (asked_id ask.now.after ask.now.before) ≡ true) }
    ensures unknown { IfErr result (IsUnknown rows.now ask.now.after ask.now.before) }
    ensures page { IfOk result (IsPage rows.now filter.now ask.now) }
{
    page_among(alloc, rows, Some(picked), filter, ask)
}

/// The page that is asked for, as `page` has it, of rows whose ids follow each other and whose stamps never fall, where no peer is asked for. Costs a look
/// at each row of the page, and some binary searches.
pub fn page_of_all(
    alloc: Global,
    rows: &[Row],
    filter: &Filter,
    ask: &PageAsk,
) -> Result<Page, PageFault>
    requires ids { (n : ℕ) × Follow n rows.now }
    requires stamps { StampsRise 0 rows.now }
    requires peer { filter.now.peer ≡ None }
    requires one_way { IsOneWay ask.now.after ask.now.before }
    ensures known { OnOk result (is_known rows.now (asked_id ask.now.after ask.now.before) ≡ true) }
    ensures unknown { IfErr result (IsUnknown rows.now ask.now.after ask.now.before) }
    ensures page { IfOk result (IsPage rows.now filter.now ask.now) }
{
    page_among(alloc, rows, None, filter, ask)
}
