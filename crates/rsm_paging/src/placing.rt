//! Rows by their places: among all rows of an archive, or among those of some ids. Ids follow each other and stamps never fall,
//! so that rows are found without a look at each.
ghost use Rattle.std.specs.Prelude.{◌≡◌, ◌+◌, ◌<◌, ◌≤◌, ◌^◌, ℕ, Some, length, slice_get, map, IfOk, OnOk, ◌++◌};
ghost use Rattle.std.specs.List.{filter};
ghost use Rattle.std.specs.Option.{option_copied, option_to_list};
ghost use Rattle.rsm_paging.specs.Matches.{match_of};
ghost use Rattle.rsm_paging.specs.Pages.{Follow, row_numbered};
ghost use Rattle.rsm_paging.specs.Places.{IsParted, IsSpan, before_at, comes_before, many_of, row_at, rows_at};

use crate::ask::Row;
use crate::matching::{Match, match_of};
use stanza_tree::NoMemory;
use std::alloc::Global;

/// What rows come before.
#[derive(Clone, Copy)]
pub(crate) enum Bound {
    /// The rows of this moment and later.
    Stamp(u64),
    /// The rows later than this moment.
    PastStamp(u64),
    /// The rows from this id on.
    Id(u64),
    /// The rows past this id.
    PastId(u64),
}

/// Rows that follow each other: so many, from a place on.
#[derive(Clone, Copy)]
pub(crate) struct Span {
    pub(crate) from: usize,
    pub(crate) many: usize,
}

fn nth(rows: &[Row], place: usize) -> Option<&Row>
    ensures { option_copied result ≡ slice_get rows.now place }
{
    rows.get(place)
}

/// The row of an id, where ids follow each other. Costs the same however many rows there are.
pub fn row_of(rows: &[Row], id: u64) -> Option<&Row>
    requires { (n : ℕ) × Follow n rows.now }
    ensures { option_copied result ≡ row_numbered (Some id) rows.now }
{
    let Some(first) = rows.first() else {
        return None;
    };
    if id < first.id {
        return None;
    }
    nth(rows, (id - first.id) as usize)
}

/// How many places there are.
pub(crate) fn many_of(rows: &[Row], picked: Option<&[u64]>) -> usize
    ensures { result ≡ many_of rows.now (option_copied picked.entry) }
{
    match picked {
        Some(ids) => ids.len(),
        None => rows.len(),
    }
}

/// The row at a place.
fn row_at<'a>(rows: &'a [Row], picked: Option<&[u64]>, place: usize) -> Option<&'a Row>
    requires { (n : ℕ) × Follow n rows.now }
    ensures { option_copied result ≡ row_at rows.now (option_copied picked.entry) place }
{
    let Some(ids) = picked else {
        return nth(rows, place);
    };
    match ids.get(place) {
        Some(id) => row_of(rows, *id),
        None => None,
    }
}

fn comes_before(bound: Bound, row: &Row) -> bool
    ensures { result ≡ comes_before bound row.now }
{
    match bound {
        Bound::Stamp(stamp) => row.stamp < stamp,
        Bound::PastStamp(stamp) => row.stamp <= stamp,
        Bound::Id(id) => row.id < id,
        Bound::PastId(id) => row.id <= id,
    }
}

fn is_before_at(rows: &[Row], picked: Option<&[u64]>, place: usize, bound: Bound) -> bool
    requires { (n : ℕ) × Follow n rows.now }
    ensures { result ≡ before_at bound (row_at rows.now (option_copied picked.entry) place) }
{
    match row_at(rows, picked, place) {
        Some(row) => comes_before(bound, row),
        None => false,
    }
}

/// How many rows of a span come before a bound, where all others stand behind them: a binary search.
pub(crate) fn count_before(rows: &[Row], picked: Option<&[u64]>, span: Span, bound: Bound) -> usize
    requires span { IsSpan rows.now (option_copied picked) span.from span.many }
    requires parted { IsParted (comes_before bound) (rows_at rows.now (option_copied picked) span.from span.many) }
    ensures within { result ≤ span.many }
    ensures count { result ≡ length (filter (comes_before bound) (rows_at rows.now (option_copied picked.entry) span.from span.many)) }
{
    let mut low = 0;
    let mut high = span.many;
    while low < high {
        let middle = low + (high - low) / 2;
        if is_before_at(rows, picked, span.from + middle, bound) {
            low = middle + 1;
        } else {
            high = middle;
        }
    }
    low
}

fn push_match(all: &mut Vec<Match>, row: Option<&Row>) -> Result<(), NoMemory>
    ensures { OnOk result (all.new.items ≡ all.old.items ++ map match_of (option_to_list (option_copied row.entry))) }
{
    if let Some(row) = row {
        all.push(match_of(row))?;
    }
    Ok(())
}

/// What a page needs of the rows of a span.
pub(crate) fn matches_at(
    alloc: Global,
    rows: &[Row],
    picked: Option<&[u64]>,
    span: Span,
) -> Result<Vec<Match>, NoMemory>
    requires { IsSpan rows.now (option_copied picked) span.from span.many }
    ensures { IfOk result (λ ms. ms.items ≡ map match_of (rows_at rows.now (option_copied picked.entry) span.from span.many)) }
{
    let mut all = Vec::with_capacity(alloc, span.many)?;
    for i in 0..span.many {
        push_match(&mut all, row_at(rows, picked, span.from + i))?;
    }
    Ok(all)
}
