//! A row is added to an archive.
ghost use Rattle.std.specs.Prelude.{◌≡◌, ◌+◌, ◌-◌, ◌<◌, ◌≤◌, ◌^◌, length, Some};
ghost use Rattle.jid_core.specs.Addresses.{Address};
ghost use Rattle.mam_archive.specs.Archives.{freed, most_kept, texts_length};
ghost use Rattle.archive_table.specs.Archives.{bytes_with, displaced, with_row};
ghost use Rattle.archive_table.specs.Tables.{rows_of, spare_in};

use jid_core::Jid;
use mam_archive::Archive;
use stanza_tree::Text;

/// An archive keeps no more than 10,000 rows.
fn know_few(archive: &Archive)
    ensures { length archive.now.kept ≤ most_kept }
{
    let _ = archive.rows();
}

/// How long a text is that is kept.
fn length_of(text: &Text) -> u64
    ensures { result ≡ length text.now }
{
    text.bytes().len() as u64
}

/// Adds a row, where so many bytes are kept in all, and answers how many are kept then.
pub(crate) fn add_to(archive: &mut Archive, bytes: u64, peer: Jid, text: Text, moment: u64) -> u64
    requires spare { 0 < spare_in (Some archive.old) peer }
    requires numbers { archive.old.made < 2 ^ 64 - 1 }
    requires kept { freed archive.old ≤ bytes }
    requires bytes { bytes + length text < 2 ^ 64 }
    ensures bytes { result ≡ bytes_with text (rows_of (Some archive.old)) bytes }
    ensures rows { rows_of (Some archive.new) ≡ with_row peer text moment (rows_of (Some archive.old)) }
    ensures texts { texts_length archive.new.kept + displaced (rows_of (Some archive.old)) ≡ texts_length archive.old.kept + length text }
    ensures room { (p : Address) → spare_in (Some archive.old) p ≤ spare_in (Some archive.new) p + 1 }
{
    know_few(archive);
    let kept = bytes + length_of(&text) - archive.freed();
    archive.add(peer, text, moment);
    kept
}
