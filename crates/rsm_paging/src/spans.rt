//! The rows of the moments that are asked for, and pages of them, by their places (XEP-0313, 4.1.2, with XEP-0059, 2).
ghost use Rattle.std.specs.Prelude.{◌≡◌, ◌≤◌, ℕ, length, map, reverse, IfOk};
ghost use Rattle.std.specs.Option.{option_copied};
ghost use Rattle.rsm_paging.specs.Matches.{IsFirst, IsLast, match_of};
ghost use Rattle.rsm_paging.specs.Pages.{Follow, StampsRise};
ghost use Rattle.rsm_paging.specs.Places.{IsBackOf, IsFrontOf, IsSpan, before_start, between, listed, many_of, rows_at, until_end};

use crate::ask::{Filter, Page, Row};
use crate::matching::{Match, first_of, how_many, ids, index_if};
use crate::placing::{Bound, Span, count_before, many_of, matches_at};
use stanza_tree::{NoMemory, Several};
use std::alloc::Global;

/// How many of all rows come before the moment that is asked for.
#[tactic(auto, using(crate::proofs::SpanLemmas::parted_start))]
fn before_start(rows: &[Row], picked: Option<&[u64]>, all: Span, start: Option<u64>) -> usize
    requires span { IsSpan rows.now (option_copied picked) all.from all.many }
    requires stamps { StampsRise 0 (rows_at rows.now (option_copied picked) all.from all.many) }
    ensures within { result ≤ all.many }
    ensures count { result ≡ before_start start (rows_at rows.now (option_copied picked.entry) all.from all.many) }
{
    match start {
        Some(start) => count_before(rows, picked, all, Bound::Stamp(start)),
        None => 0,
    }
}

/// How many of all rows come up to the moment that is asked for.
#[tactic(auto, using(crate::proofs::SpanLemmas::parted_end))]
fn until_end(rows: &[Row], picked: Option<&[u64]>, all: Span, end: Option<u64>) -> usize
    requires span { IsSpan rows.now (option_copied picked) all.from all.many }
    requires stamps { StampsRise 0 (rows_at rows.now (option_copied picked) all.from all.many) }
    ensures within { result ≤ all.many }
    ensures count { result ≡ until_end end (rows_at rows.now (option_copied picked.entry) all.from all.many) }
{
    match end {
        Some(end) => count_before(rows, picked, all, Bound::PastStamp(end)),
        None => all.many,
    }
}

/// Where the rows stand that are asked for.
pub(crate) fn asked_span(rows: &[Row], picked: Option<&[u64]>, filter: &Filter) -> Span
    requires ids { (n : ℕ) × Follow n rows.now }
    requires there { length (listed rows.now (option_copied picked)) ≡ many_of rows.now (option_copied picked) }
    requires stamps { StampsRise 0 (listed rows.now (option_copied picked)) }
    ensures span { IsSpan rows.now (option_copied picked.entry) result.from result.many }
    ensures asked { rows_at rows.now (option_copied picked.entry) result.from result.many
        ≡ between filter.now (listed rows.now (option_copied picked.entry)) }
{
    let all = Span {
        from: 0,
        many: many_of(rows, picked),
    };
    let from = before_start(rows, picked, all, filter.start);
    let until = until_end(rows, picked, all, filter.end);
    Span {
        from,
        many: until.saturating_sub(from),
    }
}

/// The page that begins with the first of these, where so many are wanted.
fn front_page(
    alloc: Global,
    front: &[Match],
    from: usize,
    wanted: usize,
    count: usize,
) -> Result<Page, NoMemory>
    ensures { IfOk result (λ page. IsFrontOf front.now from wanted count page) }
{
    let many = how_many(front);
    Ok(Page {
        rows: Several::of(ids(alloc, first_of(front, many))?),
        first_index: index_if(many, from),
        count: count as u64,
        complete: many == wanted,
    })
}

/// The page that ends with the first of these, which stand in the order from the last one, where so many are wanted.
fn back_page(alloc: Global, back: &[Match], wanted: usize, count: usize) -> Result<Page, NoMemory>
    ensures { IfOk result (λ page. IsBackOf back.now wanted count page) }
{
    let many = how_many(back);
    let mut rows = ids(alloc, first_of(back, many))?;
    rows.as_mut_slice().reverse();
    Ok(Page {
        rows: Several::of(rows),
        first_index: index_if(many, wanted.saturating_sub(many)),
        count: count as u64,
        complete: many == wanted,
    })
}

/// What a page needs of the rows of a span, in the order from the last one.
fn matches_back(
    alloc: Global,
    rows: &[Row],
    picked: Option<&[u64]>,
    span: Span,
) -> Result<Vec<Match>, NoMemory>
    requires { IsSpan rows.now (option_copied picked) span.from span.many }
    ensures { IfOk result (λ ms. ms.items ≡ reverse (map match_of (rows_at rows.now (option_copied picked.entry) span.from span.many))) }
{
    let mut back = matches_at(alloc, rows, picked, span)?;
    back.as_mut_slice().reverse();
    Ok(back)
}

/// The page of the rows of a span from one on.
pub(crate) fn page_from(
    alloc: Global,
    rows: &[Row],
    picked: Option<&[u64]>,
    span: Span,
    from: usize,
    max: usize,
) -> Result<Page, NoMemory>
    requires span { IsSpan rows.now (option_copied picked) span.from span.many }
    requires within { from ≤ span.many }
    ensures { IfOk result (λ page. IsFirst (map match_of (rows_at rows.now (option_copied picked.entry) span.from span.many)) from max page) }
{
    let wanted = span.many - from;
    let front = Span {
        from: span.from + from,
        many: wanted.min(max),
    };
    let front = matches_at(alloc, rows, picked, front)?;
    front_page(alloc, front.as_slice(), from, wanted, span.many)
}

/// The page of the last of the rows of a span before one.
pub(crate) fn page_to(
    alloc: Global,
    rows: &[Row],
    picked: Option<&[u64]>,
    span: Span,
    to: usize,
    max: usize,
) -> Result<Page, NoMemory>
    requires span { IsSpan rows.now (option_copied picked) span.from span.many }
    requires within { to ≤ span.many }
    ensures { IfOk result (λ page. IsLast (map match_of (rows_at rows.now (option_copied picked.entry) span.from span.many)) to max page) }
{
    let many = to.min(max);
    let back = Span {
        from: span.from + (to - many),
        many,
    };
    let back = matches_back(alloc, rows, picked, back)?;
    back_page(alloc, back.as_slice(), to, span.many)
}
