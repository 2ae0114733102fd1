//! The archives of users.
ghost use Rattle.std.specs.Prelude.{◌≡◌, ◌+◌, ◌-◌, ◌<◌, ◌≤◌, ◌^◌, ℕ, List, bytes_eq, if◌then◌else◌, length, OnOk};
ghost use Rattle.std.specs.Option.{option_copied};
ghost use Rattle.jid_core.specs.Addresses.{Address};
ghost use Rattle.archive_table.specs.Archives.{bytes_with, displaced, with_row};
ghost use Rattle.archive_table.specs.Entries.{users_of};
ghost use Rattle.archive_table.specs.Tables.{rows_of, spare_in, user_archive, user_texts};

use crate::adding::add_to;
use hash_keys::HashKey;
use indexmap::IndexMap;
use jid_core::{Jid, Part};
use mam_archive::Archive;
use stanza_tree::{NoMemory, Text};
use std::alloc::Global;

/// The archives of users, by the local parts of their addresses.
pub(crate) type Users = IndexMap<Vec<u8>, Archive, HashKey>;

/// The archive of a user, where it has one.
pub(crate) fn find<'a>(users: &'a Users, user: &Part) -> Option<&'a Archive>
    ensures { option_copied result ≡ user_archive user.now (users_of users.now.entries) }
{
    users.get(user.bytes())
}

/// Makes the archive of a user, where there is none.
fn open(alloc: Global, users: &mut Users, user: &Part) -> Result<(), NoMemory>
    ensures rows { (u : List ℕ) → rows_of (user_archive u (users_of users.new.entries)) ≡ rows_of (user_archive u (users_of users.old.entries)) }
    ensures spare { (u : List ℕ) (p : Address)
        → spare_in (user_archive u (users_of users.old.entries)) p ≤ spare_in (user_archive u (users_of users.new.entries)) p }
    ensures texts { user_texts (users_of users.new.entries) ≡ user_texts (users_of users.old.entries) }
{
    if users.contains_key(user.bytes()) {
        return Ok(());
    }
    let archive = Archive::new(alloc, *users.hasher());
    users.insert(user.bytes().to_vec(alloc)?, archive)?;
    Ok(())
}

/// Takes the memory for so many rows more of a user that has an archive.
fn reserve_in(users: &mut Users, user: &Part, peer: &Jid, many: usize) -> Result<(), NoMemory>
    ensures room { OnOk result (many ≤ spare_in (user_archive user.now (users_of users.new.entries)) peer.now) }
    ensures rows { (u : List ℕ) → rows_of (user_archive u (users_of users.new.entries)) ≡ rows_of (user_archive u (users_of users.old.entries)) }
    ensures spare { (u : List ℕ) (p : Address)
        → spare_in (user_archive u (users_of users.old.entries)) p ≤ spare_in (user_archive u (users_of users.new.entries)) p }
    ensures texts { user_texts (users_of users.new.entries) ≡ user_texts (users_of users.old.entries) }
{
    match users.get_mut(user.bytes()) {
        Some(archive) => archive.reserve(peer, many),
        None => Err(NoMemory),
    }
}

/// Takes the memory for so many rows more of a user, all of this peer.
pub(crate) fn reserve(
    alloc: Global,
    users: &mut Users,
    user: &Part,
    peer: &Jid,
    many: usize,
) -> Result<(), NoMemory>
    ensures room { OnOk result (many ≤ spare_in (user_archive user.now (users_of users.new.entries)) peer.now) }
    ensures rows { (u : List ℕ) → rows_of (user_archive u (users_of users.new.entries)) ≡ rows_of (user_archive u (users_of users.old.entries)) }
    ensures spare { (u : List ℕ) (p : Address)
        → spare_in (user_archive u (users_of users.old.entries)) p ≤ spare_in (user_archive u (users_of users.new.entries)) p }
    ensures texts { user_texts (users_of users.new.entries) ≡ user_texts (users_of users.old.entries) }
{
    open(alloc, users, user)?;
    reserve_in(users, user, peer, many)
}

/// Adds a row of a user, where so many bytes are kept in all, and answers how many are kept then.
pub(crate) fn add(
    users: &mut Users,
    bytes: u64,
    user: &Part,
    peer: Jid,
    text: Text,
    moment: u64,
) -> u64
    requires spare { 0 < spare_in (user_archive user.now (users_of users.old.entries)) peer }
    requires numbers { (rows_of (user_archive user.now (users_of users.old.entries))).made < 2 ^ 64 - 1 }
    requires kept { user_texts (users_of users.old.entries) ≤ bytes }
    requires bytes { bytes + length text < 2 ^ 64 }
    ensures bytes { result ≡ bytes_with text (rows_of (user_archive user.now (users_of users.old.entries))) bytes }
    ensures rows { (u : List ℕ) → rows_of (user_archive u (users_of users.new.entries)) ≡ (if bytes_eq u user.now
        then with_row peer text moment (rows_of (user_archive user.now (users_of users.old.entries)))
        else rows_of (user_archive u (users_of users.old.entries))) }
    ensures spare { (u : List ℕ) (p : Address) → spare_in (user_archive u (users_of users.old.entries)) p
        ≤ spare_in (user_archive u (users_of users.new.entries)) p + (if bytes_eq u user.now then 1 else 0) }
    ensures texts { user_texts (users_of users.new.entries) + displaced (rows_of (user_archive user.now (users_of users.old.entries)))
        ≡ user_texts (users_of users.old.entries) + length text }
{
    match users.get_mut(user.bytes()) {
        Some(archive) => add_to(archive, bytes, peer, text, moment),
        None => unreachable!(),
    }
}
