//! The page of a request (XEP-0059, 2).
ghost use Rattle.std.specs.Prelude.{◌≡◌, ◌+◌, ◌<◌, ◌≤◌, ◌^◌, map, min, nat_le, take, length, IfOk, IfErr, OnOk, true};
ghost use Rattle.std.specs.Option.{option_copied};
ghost use Rattle.rsm_paging.specs.Matches.{IsFirst, IsLast, below, fit_beside, how_many, ids, index_if, match_of, up_to};
ghost use Rattle.rsm_paging.specs.Pages.{fits, fits_peer, is_from, is_of, is_until, matching};

use crate::ask::{Filter, Page, Row};
use jid_core::Jid;
use stanza_tree::{NoMemory, Several};
use std::alloc::Global;

/// The most bytes of the texts of a page.
const MOST_BYTES: u64 = 262_144;

/// What a page needs of a row.
#[derive(Clone, Copy)]
pub struct Match {
    pub id: u64,
    pub bytes: u64,
}

/// Whether a peer is the one that is asked for.
fn is_of(asked: &Jid, peer: &Jid) -> bool
    ensures { result ≡ is_of asked.now peer.now }
{
    if asked.resource.is_some() {
        asked.is_same(peer)
    } else {
        asked.is_same_bare(peer)
    }
}

fn fits_peer(asked: Option<&Jid>, peer: &Jid) -> bool
    ensures { result ≡ fits_peer (option_copied asked.entry) peer.now }
{
    match asked {
        Some(asked) => is_of(asked, peer),
        None => true,
    }
}

fn is_from(start: Option<u64>, stamp: u64) -> bool
    ensures { result ≡ is_from start stamp }
{
    match start {
        Some(start) => start <= stamp,
        None => true,
    }
}

fn is_until(end: Option<u64>, stamp: u64) -> bool
    ensures { result ≡ is_until end stamp }
{
    match end {
        Some(end) => stamp <= end,
        None => true,
    }
}

/// Whether a row is asked for (XEP-0313, 4.1).
pub fn fits(filter: &Filter, row: &Row) -> bool
    ensures { result ≡ fits filter.now row.now }
{
    fits_peer(filter.peer.as_ref(), &row.peer)
        && is_from(filter.start, row.stamp)
        && is_until(filter.end, row.stamp)
}

pub(crate) fn match_of(row: &Row) -> Match
    ensures { result ≡ match_of row.now }
{
    Match {
        id: row.id,
        bytes: row.text.bytes().len() as u64,
    }
}

/// What a page needs of the rows that are asked for.
pub(crate) fn matches(alloc: Global, rows: &[Row], filter: &Filter) -> Result<Vec<Match>, NoMemory>
    ensures { IfOk result (λ ms. ms.items ≡ map match_of (matching filter.now rows.now)) }
{
    let mut all = Vec::new(alloc);
    for row in rows {
        if fits(filter, row) {
            all.push(match_of(row))?;
        }
    }
    Ok(all)
}

fn fits_beside(bytes: u64, more: u64) -> bool
    ensures { result ≡ nat_le (bytes + more) 262144 }
{
    bytes <= MOST_BYTES && more <= MOST_BYTES - bytes
}

/// How many of the first of these fit beside so many bytes.
fn fit_beside(mut bytes: u64, matches: &[Match]) -> usize
    ensures count { result ≡ fit_beside bytes matches.now }
    ensures bound { result ≤ length matches.now }
{
    let mut many = 0usize;
    for one in matches {
        if !fits_beside(bytes, one.bytes) {
            break;
        }
        bytes += one.bytes;
        many += 1;
    }
    many
}

/// How many of the first of these are on a page, which has one at least.
pub(crate) fn how_many(matches: &[Match]) -> usize
    ensures count { result ≡ how_many matches.now }
    ensures bound { result ≤ length matches.now }
{
    match matches.split_first() {
        Some((first, more)) => 1 + fit_beside(first.bytes, more),
        None => 0,
    }
}

/// The first of these, at most so many.
pub(crate) fn first_of(matches: &[Match], max: usize) -> &[Match]
    ensures { result.now ≡ take max matches.now }
{
    matches.get(..max).unwrap_or(matches)
}

/// How many have an id up to this one.
pub(crate) fn up_to(matches: &[Match], id: u64) -> usize
    ensures { result ≡ up_to id matches.now }
{
    let mut many = 0usize;
    for one in matches {
        if one.id <= id {
            many += 1;
        }
    }
    many
}

/// How many have an id below this one.
pub(crate) fn below(matches: &[Match], id: u64) -> usize
    ensures { result ≡ below id matches.now }
{
    let mut many = 0usize;
    for one in matches {
        if one.id < id {
            many += 1;
        }
    }
    many
}

pub(crate) fn ids(alloc: Global, matches: &[Match]) -> Result<Vec<u64>, NoMemory>
    ensures { IfOk result (λ all. all.items ≡ ids matches.now) }
{
    let mut all = Vec::with_capacity(alloc, matches.len())?;
    for one in matches {
        all.push(one.id)?;
    }
    Ok(all)
}

pub(crate) fn index_if(many: usize, place: usize) -> u64
    ensures { result ≡ index_if many place }
{
    if many == 0 { 0 } else { place as u64 }
}

/// The page of those from a place on.
pub(crate) fn first_page(
    alloc: Global,
    asked: &[Match],
    from: usize,
    max: usize,
) -> Result<Page, NoMemory>
    ensures { IfOk result (λ page. IsFirst asked.now from max page) }
{
    let wanted = asked.get(from..).unwrap_or(&[]);
    let many = how_many(first_of(wanted, max));
    Ok(Page {
        rows: Several::of(ids(alloc, first_of(wanted, many))?),
        first_index: index_if(many, from),
        count: asked.len() as u64,
        complete: many == wanted.len(),
    })
}

/// The page of the last of those before a place.
pub(crate) fn last_page(
    alloc: Global,
    asked: Vec<Match>,
    to: usize,
    max: usize,
) -> Result<Page, NoMemory>
    ensures { IfOk result (λ page. IsLast asked.items to max page) }
{
    let count = asked.len();
    let mut wanted = asked;
    wanted.truncate(to);
    wanted.as_mut_slice().reverse();
    let many = how_many(first_of(wanted.as_slice(), max));
    let mut rows = ids(alloc, first_of(wanted.as_slice(), many))?;
    rows.as_mut_slice().reverse();
    Ok(Page {
        rows: Several::of(rows),
        first_index: index_if(many, wanted.len() - many),
        count: count as u64,
        complete: many == wanted.len(),
    })
}
