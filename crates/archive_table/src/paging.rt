//! What an archive tells, also one that a user or a room doesn't have: it has no rows.
ghost use Rattle.std.specs.Prelude.{◌≡◌, ◌≤◌, length, true, ℕ, IfErr, IfOk, OnOk};
ghost use Rattle.std.specs.Option.{option_copied};
ghost use Rattle.rsm_paging.specs.Pages.{Follow, IsOneWay, IsUnknown, Rises, asked_id, is_known};
ghost use Rattle.archive_table.specs.Archives.{displaced};
ghost use Rattle.archive_table.specs.Pages.{page_of};
ghost use Rattle.archive_table.specs.Tables.{rows_of};

use mam_archive::Archive;
use rsm_paging::{Filter, Page, PageAsk, PageFault, Row};
use std::alloc::Global;

/// The rows that are kept, the oldest first.
pub fn kept<'a>(archive: Option<&'a Archive>) -> &'a [Row]
    ensures kept { result.now ≡ (rows_of (option_copied archive.entry)).kept }
    ensures few { length result.now ≤ 10000 }
    ensures follow { (n : ℕ) × Follow n result.now }
    ensures rises { Rises result.now }
{
    match archive {
        Some(archive) => archive.rows(),
        None => &[],
    }
}

/// How many rows there ever were.
pub fn made(archive: Option<&Archive>) -> u64
    ensures { result ≡ (rows_of (option_copied archive.entry)).made }
{
    match archive {
        Some(archive) => archive.made(),
        None => 0,
    }
}

/// How long the text is that the next row displaces.
pub fn displaced(archive: Option<&Archive>) -> u64
    ensures { result ≡ displaced (rows_of (option_copied archive.entry)) }
{
    match archive {
        Some(archive) => archive.freed(),
        None => 0,
    }
}

/// The page that is asked for (XEP-0313, 4.1 and 4.3, with XEP-0059, 2). Costs a look at each row of the page and some binary searches.
pub fn page(
    alloc: Global,
    archive: Option<&Archive>,
    filter: &Filter,
    ask: &PageAsk,
) -> Result<Page, PageFault>
    requires { IsOneWay ask.now.after ask.now.before }
    ensures known { OnOk result (is_known (rows_of (option_copied archive.entry)).kept (asked_id ask.now.after ask.now.before) ≡ true) }
    ensures unknown { IfErr result (IsUnknown (rows_of (option_copied archive.entry)).kept ask.now.after ask.now.before) }
    ensures page { IfOk result (λ p. p ≡ page_of (rows_of (option_copied archive.entry)).kept filter.now ask.now) }
{
    match archive {
        Some(archive) => archive.page(alloc, filter, ask),
        None => rsm_paging::page(alloc, &[], filter, ask),
    }
}
