//! Requests for archives (XEP-0313, 4 and 5).
ghost use Rattle.std.specs.Prelude.{◌≡◌, ◌∷◌, ◌++◌, [], ℕ, map, Ok, IfOk, OnOk};
ghost use Rattle.std.specs.Option.{option_copied};
ghost use Rattle.stanza_model.specs.Replies.{one_child, result_of, said_to};
ghost use Rattle.rsm_paging.specs.Pages.{Follow, IsOneWay, Rises};
ghost use Rattle.archive_table.specs.Pages.{page_of, shown};
ghost use Rattle.archive_table.specs.Tables.{archives_of, rows_of};
ghost use Rattle.mam_wire.specs.Queries.{query_of};
ghost use Rattle.house_model.specs.Archives.{answered, archived, archived_of, asked, is_trusted, may_read, paged, queried, query_in, shown_to};

use crate::requests::{gets, one};
use crate::rooms::is_in;
use archive_table::{kept, page};
use house_model::Stanza;
use house_world::World;
use jid_core::{Jid, Part};
use mam_archive::Archive;
use mam_wire::{Query, QueryFault, fin, query_form, read_query, result_message};
use muc_room::affiliation_of;
use muc_service::Hosted;
use rsm_paging::{Page, PageFault, Row, row_of};
use stanza_model::make::written;
use stanza_model::{Affiliation, Condition, Effect, Here, IqForm, refuse, result_of, say_to};
use stanza_tree::{Element, NoMemory, Node, Origin, Text};
use std::alloc::Global;

/// The namespace of queries (XEP-0313, 4.1).
pub(crate) const ARCHIVE_SPACE: &str = "urn:xmpp:mam:2";

fn is_trusted(affiliation: Affiliation) -> bool
    ensures { result ≡ is_trusted affiliation }
{
    match affiliation {
        Affiliation::Owner | Affiliation::Admin | Affiliation::Member => true,
        Affiliation::Neither | Affiliation::Outcast => false,
    }
}

/// Whether a session may read a room's archive: one that is in it, or whose user is something to it (XEP-0313, 5.1.2).
fn may_read(h: &Hosted, who: &Here) -> bool
    ensures { result ≡ may_read h.now who.now }
{
    is_in(who.session, h) || is_trusted(affiliation_of(&who.address, h.room().affiliations.slice()))
}

/// The result with this child.
fn replied(
    alloc: Global,
    who: &Here,
    stanza: &Stanza,
    content: Element,
) -> Result<Vec<Effect>, NoMemory>
    ensures { IfOk result (λ effects. effects.items ≡ said_to who.now (result_of stanza.now (one_child content)) ∷ []) }
{
    let mut nodes = Vec::new(alloc);
    nodes.push(Node::Child(content))?;
    let reply = result_of(alloc, stanza, nodes)?;
    one(alloc, say_to(alloc, who, &reply)?)
}

/// A row of the page, in a message from the room, or, of one's own archive, from nobody (XEP-0313, 4.2).
fn shown_to(
    alloc: Global,
    who: &Here,
    from: Option<&Jid>,
    queryid: Option<&Text>,
    row: &Row,
) -> Result<Effect, NoMemory>
    ensures { IfOk result (λ effect. effect ≡ shown_to who.now (option_copied from.entry) (option_copied queryid.entry) row.now) }
{
    Ok(Effect::Queue {
        session: who.session,
        to: written(alloc, &who.address)?,
        rest: result_message(alloc, from, queryid, row)?,
        origin: Origin::Direct,
    })
}

/// The rows of the page.
fn push_shown(
    alloc: Global,
    who: &Here,
    from: Option<&Jid>,
    query: &Query,
    rows: &[Row],
    page: &Page,
    effects: &mut Vec<Effect>,
) -> Result<(), NoMemory>
    requires follow { (n : ℕ) × Follow n rows.now }
    requires rises { Rises rows.now }
    requires page { page.now ≡ page_of rows.now query.now.filter query.now.ask }
    ensures { OnOk result (effects.new.items ≡ effects.old.items
        ++ map (shown_to who.now (option_copied from.entry) query.now.queryid) (shown rows.now query.now.filter query.now.ask)) }
{
    for id in page.rows.slice() {
        if let Some(row) = row_of(rows, *id) {
            effects.push(shown_to(alloc, who, from, query.queryid.as_ref(), row)?)?;
        }
    }
    Ok(())
}

/// The rows of the page, and then what it is.
fn answered(
    alloc: Global,
    who: &Here,
    stanza: &Stanza,
    from: Option<&Jid>,
    rows: &[Row],
    query: &Query,
    page: &Page,
) -> Result<Vec<Effect>, NoMemory>
    requires follow { (n : ℕ) × Follow n rows.now }
    requires rises { Rises rows.now }
    requires page { page.now ≡ page_of rows.now query.now.filter query.now.ask }
    ensures { IfOk result (λ effects. effects.items ≡ answered who.now stanza.now (option_copied from.entry) rows.now query.now) }
{
    let mut effects = Vec::new(alloc);
    push_shown(alloc, who, from, query, rows, page, &mut effects)?;
    let mut last = replied(alloc, who, stanza, fin(alloc, page)?)?;
    effects.append(&mut last)?;
    Ok(effects)
}

/// The page that is asked for, or that its row isn't known.
fn page_asked(
    alloc: Global,
    who: &Here,
    stanza: &Stanza,
    from: Option<&Jid>,
    archive: Option<&Archive>,
    query: &Query,
) -> Result<Vec<Effect>, NoMemory>
    requires { IsOneWay query.now.ask.after query.now.ask.before }
    ensures { IfOk result (λ effects. effects.items
        ≡ paged who.now stanza.now (option_copied from.entry) (rows_of (option_copied archive.entry)).kept (Ok query.now)) }
{
    match page(alloc, archive, &query.filter, &query.ask) {
        Ok(page) => answered(alloc, who, stanza, from, kept(archive), query, &page),
        Err(PageFault::UnknownId(_)) => refuse(alloc, who, stanza, Condition::ItemNotFound),
        Err(PageFault::NoMemory) => Err(NoMemory),
    }
}

/// The page that a query asks for.
fn paged(
    alloc: Global,
    who: &Here,
    stanza: &Stanza,
    from: Option<&Jid>,
    archive: Option<&Archive>,
    query: &Element,
) -> Result<Vec<Effect>, NoMemory>
    ensures { IfOk result (λ effects. effects.items
        ≡ paged who.now stanza.now (option_copied from.entry) (rows_of (option_copied archive.entry)).kept (query_of query.now)) }
{
    match read_query(alloc, query) {
        Ok(query) => page_asked(alloc, who, stanza, from, archive, &query),
        Err(QueryFault::NotImplemented) => {
            refuse(alloc, who, stanza, Condition::FeatureNotImplemented)
        }
        Err(QueryFault::BadRequest) => refuse(alloc, who, stanza, Condition::BadRequest),
        Err(QueryFault::NoMemory) => Err(NoMemory),
    }
}

/// The query in a request.
fn query_in(stanza: &Stanza) -> Option<&Element>
    ensures { option_copied result ≡ query_in stanza.now }
{
    match stanza {
        Stanza::Iq {
            form: IqForm::Set,
            element,
            ..
        } => element.child(ARCHIVE_SPACE.as_bytes(), b"query"),
        _ => None,
    }
}

fn queried(
    alloc: Global,
    who: &Here,
    stanza: &Stanza,
    from: Option<&Jid>,
    archive: Option<&Archive>,
    query: Option<&Element>,
) -> Result<Vec<Effect>, NoMemory>
    ensures { IfOk result (λ effects. effects.items
        ≡ queried who.now stanza.now (option_copied from.entry) (rows_of (option_copied archive.entry)).kept (option_copied query.entry)) }
{
    match query {
        Some(query) => paged(alloc, who, stanza, from, archive, query),
        None => refuse(alloc, who, stanza, Condition::BadRequest),
    }
}

/// What an archive answers: the form of a query, or the page that one asks for, to one who may read it.
fn asked(
    alloc: Global,
    may_read: bool,
    who: &Here,
    stanza: &Stanza,
    from: Option<&Jid>,
    archive: Option<&Archive>,
) -> Result<Vec<Effect>, NoMemory>
    ensures { IfOk result (λ effects. effects.items
        ≡ asked may_read who.now stanza.now (option_copied from.entry) (rows_of (option_copied archive.entry)).kept) }
{
    if gets(ARCHIVE_SPACE, "query", stanza) {
        replied(alloc, who, stanza, query_form(alloc)?)
    } else if may_read {
        queried(alloc, who, stanza, from, archive, query_in(stanza))
    } else {
        refuse(alloc, who, stanza, Condition::Forbidden)
    }
}

/// A request of a user for the own archive.
pub(crate) fn archived_of(
    world: &World,
    alloc: Global,
    own: &Part,
    who: &Here,
    stanza: &Stanza,
) -> Result<Vec<Effect>, NoMemory>
    ensures { IfOk result (λ effects. effects.items ≡ archived_of (archives_of world.now.archives) own.now who.now stanza.now) }
{
    let archive = world.archives.of_user(own);
    asked(alloc, true, who, stanza, None, archive)
}

/// A request for the archive of a room.
pub(crate) fn archived(
    world: &World,
    alloc: Global,
    who: &Here,
    stanza: &Stanza,
    found: Option<&Hosted>,
) -> Result<Vec<Effect>, NoMemory>
    ensures { IfOk result (λ effects. effects.items ≡ archived (archives_of world.now.archives) who.now stanza.now (option_copied found.entry)) }
{
    let Some(h) = found else {
        return refuse(alloc, who, stanza, Condition::ItemNotFound);
    };
    let archive = world.archives.of_room(h.room().number);
    asked(
        alloc,
        may_read(h, who),
        who,
        stanza,
        Some(&h.room().address),
        archive,
    )
}
