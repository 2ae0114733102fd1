//! What the rules on messages read of the archives (XEP-0313, 2).
ghost use Rattle.std.specs.Prelude.{◌≡◌, ◌+◌, ◌-◌, ◌<◌, ◌^◌, map, IfOk};
ghost use Rattle.std.specs.Option.{option_copied};
ghost use Rattle.archive_table.specs.Archives.{displaced};
ghost use Rattle.archive_table.specs.Tables.{archives_of, rows_of};
ghost use Rattle.house_model.specs.ArchiveLookups.{delayed, displaced_by, keeping_for, keeping_in, keeping_of, past_in, past_of, rows_by};
ghost use Rattle.stanza_router.specs.Messages.{addressed};
ghost use Rattle.house_world.specs.Hosting.{AreArchived};

use archive_table::{displaced, kept, made};
use house_world::World;
use jid_core::{Jid, Part};
use mam_archive::Archive;
use mam_wire::stamp_text;
use muc_service::Hosted;
use rsm_paging::Row;
use stanza_model::{Delayed, Here, Keeping};
use stanza_router::is_to_oneself;
use stanza_tree::NoMemory;
use std::alloc::Global;

/// How many messages a newcomer is told, at most (XEP-0045, 7.2.13).
const MOST_PAST: usize = 20;

fn keeping_of(world: &World, archive: Option<&Archive>, gone: u64, moment: u64) -> Keeping
    requires archived { AreArchived (2 ^ 63 + 2 ^ 62) (archives_of world.now.archives) }
    requires few { (rows_of (option_copied archive)).made < 2 ^ 64 - 1 }
    requires gone { gone < 2 ^ 62 }
    ensures { result ≡ keeping_of (rows_of (option_copied archive.entry)) gone (archives_of world.now.archives) moment }
{
    Keeping {
        row: made(archive) + 1,
        free: world.archives.free_beside(gone),
        moment,
    }
}

/// The archive of a user, where it has one.
fn archive_by<'a>(world: &'a World, user: Option<&Part>) -> Option<&'a Archive>
    ensures { rows_of (option_copied result) ≡ rows_by (archives_of world.now.archives) (option_copied user.entry) }
{
    world.archives.of_user(user?)
}

/// The local part of the address of a message, or of the sender's.
fn receiver<'a>(who: &'a Here, to: Option<&'a Jid>) -> Option<&'a Part>
    ensures { option_copied result ≡ (addressed who.now (option_copied to.entry)).local }
{
    match to {
        Some(to) => to.local.as_ref(),
        None => who.address.local.as_ref(),
    }
}

/// How long the texts are that the rows of a message displace.
fn displaced_by(world: &World, who: &Here, to: Option<&Jid>) -> u64
    requires archived { AreArchived (2 ^ 63 + 2 ^ 62) (archives_of world.now.archives) }
    ensures gone { result ≡ displaced_by (archives_of world.now.archives) who.now (option_copied to.entry) }
    ensures small { result < 2 ^ 62 }
{
    let gone = displaced(archive_by(world, who.address.local.as_ref()));
    if is_to_oneself(who, to) {
        return gone;
    }
    gone + displaced(archive_by(world, receiver(who, to)))
}

/// Where a message between users is kept.
pub(crate) fn keeping_for(world: &World, who: &Here, to: Option<&Jid>, moment: u64) -> Keeping
    requires archived { AreArchived (2 ^ 63 + 2 ^ 62) (archives_of world.now.archives) }
    ensures { result ≡ keeping_for (archives_of world.now.archives) who.now (option_copied to.entry) moment }
{
    let gone = displaced_by(world, who, to);
    keeping_of(world, archive_by(world, receiver(who, to)), gone, moment)
}

/// Where a message to a room is kept.
pub(crate) fn keeping_in(world: &World, h: &Hosted, moment: u64) -> Keeping
    requires archived { AreArchived (2 ^ 63 + 2 ^ 62) (archives_of world.now.archives) }
    ensures { result ≡ keeping_in (archives_of world.now.archives) h.now moment }
{
    let archive = world.archives.of_room(h.room().number);
    keeping_of(world, archive, displaced(archive), moment)
}

fn delayed(alloc: Global, row: &Row) -> Result<Delayed, NoMemory>
    ensures { IfOk result (λ d. d ≡ delayed row.now) }
{
    Ok(Delayed {
        text: row.text.copy(alloc)?,
        stamp: stamp_text(alloc, row.stamp)?,
    })
}

fn all_delayed(alloc: Global, rows: &[Row]) -> Result<Vec<Delayed>, NoMemory>
    ensures { IfOk result (λ past. past.items ≡ map delayed rows.now) }
{
    let mut past = Vec::new(alloc);
    for row in rows {
        past.push(delayed(alloc, row)?)?;
    }
    Ok(past)
}

/// What was said last in a room. Costs a stamp for each message; the texts are shared.
pub(crate) fn past_in(world: &World, alloc: Global, h: &Hosted) -> Result<Vec<Delayed>, NoMemory>
    ensures { IfOk result (λ past. past.items ≡ past_in (archives_of world.now.archives) h.now) }
{
    let rows = kept(world.archives.of_room(h.room().number));
    let last = &rows[rows.len().saturating_sub(MOST_PAST)..];
    all_delayed(alloc, last)
}
