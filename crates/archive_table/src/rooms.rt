//! The archives of rooms.
ghost use Rattle.std.specs.Prelude.{◌≡◌, ◌+◌, ◌-◌, ◌<◌, ◌≤◌, ◌^◌, ℕ, ◌==◌, nat_eq, false, if◌then◌else◌, length, min, None, OnOk};
ghost use Rattle.std.specs.Map.{lookup};
ghost use Rattle.std.specs.Option.{option_copied};
ghost use Rattle.jid_core.specs.Addresses.{Address};
ghost use Rattle.mam_archive.specs.Archives.{texts_length};
ghost use Rattle.archive_table.specs.Archives.{bytes_with, displaced, no_rows, with_row};
ghost use Rattle.archive_table.specs.Entries.{rooms_of};
ghost use Rattle.archive_table.specs.Tables.{rows_of, spare_in, room_archive, room_texts};

use crate::adding::add_to;
use hash_keys::HashKey;
use indexmap::IndexMap;
use jid_core::Jid;
use mam_archive::Archive;
use stanza_tree::{NoMemory, Text};
use std::alloc::Global;

/// The archives of rooms, by their numbers.
pub(crate) type Rooms = IndexMap<u64, Archive>;

/// The archive of a room, where it has one.
pub(crate) fn find<'a>(rooms: &'a Rooms, room: u64) -> Option<&'a Archive>
    ensures { option_copied result ≡ room_archive room (rooms_of rooms.now.entries) }
{
    rooms.get(&room)
}

/// Makes the archive of a room, where there is none.
fn open(alloc: Global, hash_key: HashKey, rooms: &mut Rooms, room: u64) -> Result<(), NoMemory>
    ensures rows { (n : ℕ) → rows_of (room_archive n (rooms_of rooms.new.entries)) ≡ rows_of (room_archive n (rooms_of rooms.old.entries)) }
    ensures spare { (n : ℕ) (p : Address)
        → spare_in (room_archive n (rooms_of rooms.old.entries)) p ≤ spare_in (room_archive n (rooms_of rooms.new.entries)) p }
    ensures texts { room_texts (rooms_of rooms.new.entries) ≡ room_texts (rooms_of rooms.old.entries) }
{
    if rooms.contains_key(&room) {
        return Ok(());
    }
    rooms.insert(room, Archive::new(alloc, hash_key))?;
    Ok(())
}

/// Takes the memory for so many rows more of a room that has an archive.
fn reserve_in(rooms: &mut Rooms, room: u64, peer: &Jid, many: usize) -> Result<(), NoMemory>
    ensures room { OnOk result (many ≤ spare_in (room_archive room (rooms_of rooms.new.entries)) peer.now) }
    ensures rows { (n : ℕ) → rows_of (room_archive n (rooms_of rooms.new.entries)) ≡ rows_of (room_archive n (rooms_of rooms.old.entries)) }
    ensures spare { (n : ℕ) (p : Address)
        → spare_in (room_archive n (rooms_of rooms.old.entries)) p ≤ spare_in (room_archive n (rooms_of rooms.new.entries)) p }
    ensures texts { room_texts (rooms_of rooms.new.entries) ≡ room_texts (rooms_of rooms.old.entries) }
{
    match rooms.get_mut(&room) {
        Some(archive) => archive.reserve(peer, many),
        None => Err(NoMemory),
    }
}

/// Takes the memory for so many rows more of a room, all of this peer.
pub(crate) fn reserve(
    alloc: Global,
    hash_key: HashKey,
    rooms: &mut Rooms,
    room: u64,
    peer: &Jid,
    many: usize,
) -> Result<(), NoMemory>
    ensures room { OnOk result (many ≤ spare_in (room_archive room (rooms_of rooms.new.entries)) peer.now) }
    ensures rows { (n : ℕ) → rows_of (room_archive n (rooms_of rooms.new.entries)) ≡ rows_of (room_archive n (rooms_of rooms.old.entries)) }
    ensures spare { (n : ℕ) (p : Address)
        → spare_in (room_archive n (rooms_of rooms.old.entries)) p ≤ spare_in (room_archive n (rooms_of rooms.new.entries)) p }
    ensures texts { room_texts (rooms_of rooms.new.entries) ≡ room_texts (rooms_of rooms.old.entries) }
{
    open(alloc, hash_key, rooms, room)?;
    reserve_in(rooms, room, peer, many)
}

/// Adds a row of a room, where so many bytes are kept in all, and answers how many are kept then.
pub(crate) fn add(
    rooms: &mut Rooms,
    bytes: u64,
    room: u64,
    peer: Jid,
    text: Text,
    moment: u64,
) -> u64
    requires spare { 0 < spare_in (room_archive room (rooms_of rooms.old.entries)) peer }
    requires numbers { (rows_of (room_archive room (rooms_of rooms.old.entries))).made < 2 ^ 64 - 1 }
    requires kept { room_texts (rooms_of rooms.old.entries) ≤ bytes }
    requires bytes { bytes + length text < 2 ^ 64 }
    ensures bytes { result ≡ bytes_with text (rows_of (room_archive room (rooms_of rooms.old.entries))) bytes }
    ensures rows { (n : ℕ) → rows_of (room_archive n (rooms_of rooms.new.entries)) ≡ (if n == room
        then with_row peer text moment (rows_of (room_archive room (rooms_of rooms.old.entries)))
        else rows_of (room_archive n (rooms_of rooms.old.entries))) }
    ensures spare { (n : ℕ) (p : Address) → spare_in (room_archive n (rooms_of rooms.old.entries)) p
        ≤ spare_in (room_archive n (rooms_of rooms.new.entries)) p + (if n == room then 1 else 0) }
    ensures texts { room_texts (rooms_of rooms.new.entries) + displaced (rows_of (room_archive room (rooms_of rooms.old.entries)))
        ≡ room_texts (rooms_of rooms.old.entries) + length text }
{
    match rooms.get_mut(&room) {
        Some(archive) => add_to(archive, bytes, peer, text, moment),
        None => unreachable!(),
    }
}

fn take_out(rooms: &mut Rooms, room: u64) -> Option<Archive>
    ensures value { result ≡ room_archive room (rooms_of rooms.old.entries) }
    ensures here { lookup (nat_eq room) rooms.new.entries ≡ None }
    ensures others { (n : ℕ) → nat_eq room n ≡ false → lookup (nat_eq n) rooms.new.entries ≡ lookup (nat_eq n) rooms.old.entries }
    ensures texts { room_texts (rooms_of rooms.new.entries) + texts_length (rows_of result).kept ≡ room_texts (rooms_of rooms.old.entries) }
{
    rooms.swap_remove(&room)
}

fn bytes_of(archive: &Option<Archive>) -> u64
    ensures { result ≡ min (texts_length (rows_of archive.now).kept) (2 ^ 64 - 1) }
{
    match archive {
        Some(archive) => archive.bytes(),
        None => 0,
    }
}

/// Takes the archive of a room out, and answers how long its texts are.
pub(crate) fn remove(rooms: &mut Rooms, room: u64) -> u64
    requires { room_texts (rooms_of rooms.old.entries) < 2 ^ 64 }
    ensures length { result ≡ texts_length (rows_of (room_archive room (rooms_of rooms.old.entries))).kept }
    ensures rows { (n : ℕ) → rows_of (room_archive n (rooms_of rooms.new.entries))
        ≡ (if n == room then no_rows else rows_of (room_archive n (rooms_of rooms.old.entries))) }
    ensures spare { (n : ℕ) (p : Address) → nat_eq n room ≡ false
        → spare_in (room_archive n (rooms_of rooms.old.entries)) p ≤ spare_in (room_archive n (rooms_of rooms.new.entries)) p }
    ensures texts { room_texts (rooms_of rooms.new.entries) + result ≡ room_texts (rooms_of rooms.old.entries) }
{
    bytes_of(&take_out(rooms, room))
}
