//! Queries of archives as they are read (XEP-0313, 4.1 and 4.3, with XEP-0004 and XEP-0059).
ghost use Rattle.std.specs.Prelude.{◌≡◌, Ok, IfOk, IfErr};
ghost use Rattle.std.specs.Option.{option_copied};
ghost use Rattle.rsm_paging.specs.Pages.{IsOneWay};
ghost use Rattle.mam_wire.specs.Faults.{IsCause};
ghost use Rattle.mam_wire.specs.Queries.{form_in, is_long, query_of, queryid_of, set_in};

use crate::asking::ask_of;
use crate::fault::QueryFault;
use crate::filter::filter_of;
use crate::make::{FORM_SPACE, RSM_SPACE};
use rsm_paging::{Filter, PageAsk};
use stanza_tree::{Element, Text};
use std::alloc::Global;

/// The most bytes of a query's id.
const MOST_ID_BYTES: usize = 1024;

/// A query of an archive (XEP-0313, 4.1).
#[derive(Drop)]
pub struct Query {
    /// Its id, which each row that it is answered with has.
    pub queryid: Option<Text>,
    /// Which rows are asked for.
    pub filter: Filter,
    /// Which of them are wanted now.
    pub ask: PageAsk,
}

fn is_long(id: Option<&Text>) -> bool
    ensures { result ≡ is_long (option_copied id.entry) }
{
    match id {
        Some(id) => id.bytes().len() > MOST_ID_BYTES,
        None => false,
    }
}

fn queryid_of(alloc: Global, id: Option<&Text>) -> Result<Option<Text>, QueryFault>
    ensures ok { IfOk result (λ id_read. queryid_of (option_copied id.entry) ≡ Ok id_read) }
    ensures fault { IfErr result (IsCause (queryid_of (option_copied id.entry))) }
{
    if is_long(id) {
        return Err(QueryFault::BadRequest);
    }
    match id {
        Some(id) => Ok(Some(id.copy(alloc)?)),
        None => Ok(None),
    }
}

fn form_in(query: &Element) -> Option<&Element>
    ensures { option_copied result ≡ form_in query.now }
{
    query.child(FORM_SPACE.as_bytes(), b"x")
}

fn set_in(query: &Element) -> Option<&Element>
    ensures { option_copied result ≡ set_in query.now }
{
    query.child(RSM_SPACE.as_bytes(), b"set")
}

/// What an element `query` in `urn:xmpp:mam:2` asks for: by its form which rows (XEP-0313, 4.1), and by its result set which of them now (XEP-0059, 2).
/// The first of these is its fault: a form that isn't submitted, or is of another type; a field of another name, which isn't implemented; a value that
/// can't be read; an id of more than 1,024 bytes; a `max` that is no number; an `index`, which isn't implemented; both `after` and `before`. Costs a copy
/// of its texts.
pub fn read_query(alloc: Global, query: &Element) -> Result<Query, QueryFault>
    ensures ok { IfOk result (λ q. query_of query.now ≡ Ok q) }
    ensures fault { IfErr result (IsCause (query_of query.now)) }
    ensures one_way { IfOk result (λ q. IsOneWay q.ask.after q.ask.before) }
{
    let filter = filter_of(alloc, form_in(query))?;
    let queryid = queryid_of(alloc, query.attr(b"queryid"))?;
    let ask = ask_of(alloc, set_in(query))?;
    Ok(Query {
        queryid,
        filter,
        ask,
    })
}
