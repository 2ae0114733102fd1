//! Which rows a query asks for (XEP-0313, 4.1), by the form that it submits (XEP-0004).
ghost use Rattle.std.specs.Prelude.{◌≡◌, Ok, IfOk, IfErr};
ghost use Rattle.std.specs.List.{list_any};
ghost use Rattle.std.specs.Option.{option_copied};
ghost use Rattle.jid_core.specs.Addresses.{address_of};
ghost use Rattle.stanza_model.specs.Forms.{form_of};
ghost use Rattle.mam_wire.specs.Faults.{IsCause};
ghost use Rattle.mam_wire.specs.Filters.{asked_named, filter_by, filter_in, filter_of, is_foreign, is_mam, is_typed, is_unknown, names_type, no_filter};
ghost use Rattle.mam_wire.specs.Filters.{only_value, put, put_all, put_by, put_only, with_end, with_peer, with_start};

use crate::fault::QueryFault;
use crate::make::MAM_SPACE;
use crate::moment::read_stamp;
use jid_core::{Jid, JidFault};
use rsm_paging::Filter;
use stanza_model::{DataForm, Field, FormFault};
use stanza_tree::{Element, Text};
use std::alloc::Global;

/// What a field of a query's form says (XEP-0313, 4.1).
#[derive(Clone, Copy, Debug, PartialEq, Eq)]
pub enum Asked {
    /// Of which type the form is (XEP-0068, 3.1).
    FormType,
    /// With whom the messages were exchanged.
    With,
    /// From which moment on.
    Start,
    /// Up to which moment.
    End,
}

/// What a field of this name says.
fn asked_named(name: &[u8]) -> Option<Asked>
    ensures { result ≡ asked_named name.now }
{
    if name == b"FORM_TYPE".as_slice() {
        Some(Asked::FormType)
    } else if name == b"with".as_slice() {
        Some(Asked::With)
    } else if name == b"start".as_slice() {
        Some(Asked::Start)
    } else if name == b"end".as_slice() {
        Some(Asked::End)
    } else {
        None
    }
}

/// The value of a field that has one, and no more (XEP-0004, 3.2).
fn only_value(values: &[Text]) -> Option<&Text>
    ensures { option_copied result ≡ only_value values.now }
{
    match values {
        [value] => Some(value),
        _ => None,
    }
}

/// Whether a form of this type is one for queries.
fn is_mam(value: Option<&Text>) -> bool
    ensures { result ≡ is_mam (option_copied value.entry) }
{
    match value {
        Some(value) => value.bytes() == MAM_SPACE.as_bytes(),
        None => false,
    }
}

fn names_type(field: &Field) -> bool
    ensures { result ≡ names_type field.now }
{
    field.name.bytes() == b"FORM_TYPE".as_slice()
}

/// Whether a field says that the form is of another type.
fn is_foreign(field: &Field) -> bool
    ensures { result ≡ is_foreign field.now }
{
    names_type(field) && !is_mam(only_value(field.values.slice()))
}

fn has_type(fields: &[Field]) -> bool
    ensures { result ≡ list_any names_type fields.now }
{
    fields.iter().any(|field| names_type(field))
}

fn has_foreign(fields: &[Field]) -> bool
    ensures { result ≡ list_any is_foreign fields.now }
{
    fields.iter().any(|field| is_foreign(field))
}

/// Whether the fields say of which type the form is, and it is the one for queries.
fn is_typed(fields: &[Field]) -> bool
    ensures { result ≡ is_typed fields.now }
{
    has_type(fields) && !has_foreign(fields)
}

fn is_unknown(field: &Field) -> bool
    ensures { result ≡ is_unknown field.now }
{
    asked_named(field.name.bytes()).is_none()
}

fn has_unknown(fields: &[Field]) -> bool
    ensures { result ≡ list_any is_unknown fields.now }
{
    fields.iter().any(|field| is_unknown(field))
}

fn put_peer(alloc: Global, value: &[u8], filter: Filter) -> Result<Filter, QueryFault>
    ensures ok { IfOk result (λ f. with_peer (address_of value.now) filter ≡ Ok f) }
    ensures fault { IfErr result (IsCause (with_peer (address_of value.now) filter)) }
{
    match Jid::read(alloc, value) {
        Ok(peer) => Ok(Filter {
            peer: Some(peer),
            start: filter.start,
            end: filter.end,
        }),
        Err(JidFault::NoMemory) => Err(QueryFault::NoMemory),
        Err(JidFault::Empty(_)) => Err(QueryFault::BadRequest),
        Err(JidFault::Long(_)) => Err(QueryFault::BadRequest),
        Err(JidFault::Bad(_, _)) => Err(QueryFault::BadRequest),
    }
}

fn put_start(start: Option<u64>, filter: Filter) -> Result<Filter, QueryFault>
    ensures { result ≡ with_start start filter }
{
    match start {
        Some(start) => Ok(Filter {
            peer: filter.peer,
            start: Some(start),
            end: filter.end,
        }),
        None => Err(QueryFault::BadRequest),
    }
}

fn put_end(end: Option<u64>, filter: Filter) -> Result<Filter, QueryFault>
    ensures { result ≡ with_end end filter }
{
    match end {
        Some(end) => Ok(Filter {
            peer: filter.peer,
            start: filter.start,
            end: Some(end),
        }),
        None => Err(QueryFault::BadRequest),
    }
}

/// A filter with what a field of one value says.
fn put(alloc: Global, asked: Asked, value: &[u8], filter: Filter) -> Result<Filter, QueryFault>
    ensures ok { IfOk result (λ f. put asked value.now filter ≡ Ok f) }
    ensures fault { IfErr result (IsCause (put asked value.now filter)) }
{
    match asked {
        Asked::FormType => Ok(filter),
        Asked::With => put_peer(alloc, value, filter),
        Asked::Start => put_start(read_stamp(value), filter),
        Asked::End => put_end(read_stamp(value), filter),
    }
}

fn put_only(
    alloc: Global,
    asked: Asked,
    value: Option<&Text>,
    filter: Filter,
) -> Result<Filter, QueryFault>
    ensures ok { IfOk result (λ f. put_only asked (option_copied value.entry) filter ≡ Ok f) }
    ensures fault { IfErr result (IsCause (put_only asked (option_copied value.entry) filter)) }
{
    match value {
        Some(value) => put(alloc, asked, value.bytes(), filter),
        None => Err(QueryFault::BadRequest),
    }
}

fn put_field(alloc: Global, field: &Field, filter: Filter) -> Result<Filter, QueryFault>
    ensures ok { IfOk result (λ f. put_by (asked_named field.now.name) field.now.values filter ≡ Ok f) }
    ensures fault { IfErr result (IsCause (put_by (asked_named field.now.name) field.now.values filter)) }
{
    match asked_named(field.name.bytes()) {
        Some(asked) => put_only(alloc, asked, only_value(field.values.slice()), filter),
        None => Ok(filter),
    }
}

/// All rows.
fn no_filter() -> Filter
    ensures { result ≡ no_filter }
{
    Filter {
        peer: None,
        start: None,
        end: None,
    }
}

/// What the fields ask for, one after another.
fn put_all(alloc: Global, fields: &[Field]) -> Result<Filter, QueryFault>
    ensures ok { IfOk result (λ f. put_all fields.now (Ok no_filter) ≡ Ok f) }
    ensures fault { IfErr result (IsCause (put_all fields.now (Ok no_filter))) }
{
    let mut filter = no_filter();
    for field in fields {
        filter = put_field(alloc, field, filter)?;
    }
    Ok(filter)
}

fn filter_by(alloc: Global, fields: &[Field]) -> Result<Filter, QueryFault>
    ensures ok { IfOk result (λ f. filter_by fields.now ≡ Ok f) }
    ensures fault { IfErr result (IsCause (filter_by fields.now)) }
{
    if !is_typed(fields) {
        return Err(QueryFault::BadRequest);
    }
    if has_unknown(fields) {
        return Err(QueryFault::NotImplemented);
    }
    put_all(alloc, fields)
}

fn filter_in(alloc: Global, x: &Element) -> Result<Filter, QueryFault>
    ensures ok { IfOk result (λ f. filter_in (form_of x.now) ≡ Ok f) }
    ensures fault { IfErr result (IsCause (filter_in (form_of x.now))) }
{
    match DataForm::read(alloc, x) {
        Ok(form) => filter_by(alloc, form.fields.slice()),
        Err(FormFault::NoMemory) => Err(QueryFault::NoMemory),
        Err(FormFault::NotSubmit) => Err(QueryFault::BadRequest),
    }
}

/// The rows that a query asks for, by the form that it has.
pub(crate) fn filter_of(alloc: Global, x: Option<&Element>) -> Result<Filter, QueryFault>
    ensures ok { IfOk result (λ f. filter_of (option_copied x.entry) ≡ Ok f) }
    ensures fault { IfErr result (IsCause (filter_of (option_copied x.entry))) }
{
    match x {
        Some(x) => filter_in(alloc, x),
        None => Ok(no_filter()),
    }
}
