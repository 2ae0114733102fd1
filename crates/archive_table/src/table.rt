//! The table of archives.
ghost use Rattle.std.specs.Prelude.{◌≡◌, ◌+◌, ◌-◌, ◌<◌, ◌≤◌, ◌^◌, ℕ, List, length, false, OnOk};
ghost use Rattle.std.specs.Option.{option_copied};
ghost use Rattle.jid_core.specs.Addresses.{Address};
ghost use Rattle.archive_table.specs.Archives.{filed, free_beside, most_bytes, no_archives};
ghost use Rattle.archive_table.specs.declared.filing.Filing.{Filing};
ghost use Rattle.archive_table.specs.Tables.{IsReady, archives_of, ends, made_before, room_archive};
ghost use Rattle.archive_table.specs.Tables.{room_rows, room_spare, text_length, user_archive, user_rows, user_spare};

use crate::filing::Filing;
use crate::rooms::{self, Rooms};
use crate::users::{self, Users};
use hash_keys::HashKey;
use indexmap::IndexMap;
use jid_core::{Jid, Part};
use mam_archive::Archive;
use stanza_tree::{NoMemory, Text};
use std::alloc::Global;
use std::marker::Model;

/// So many bytes of text are kept in all, at most.
pub const MOST_BYTES: u64 = 1_073_741_824;

/// The archives of users, by the local parts of their addresses, and of rooms, by their numbers; and how long all texts are that they keep.
#[derive(Drop)]
pub struct Archives {
    users: Users,
    rooms: Rooms,
    bytes: u64,
    hash_key: HashKey,
    alloc: Global,
}

impl Model for Archives {
    ghost use Rattle.std.specs.Prelude.{◌≡◌, ◌+◌};
    ghost use Rattle.archive_table.specs.Entries.{rooms_of, users_of};
    ghost use Rattle.archive_table.specs.Tables.{TableRecord, room_texts, user_texts};

    ghost Value = { TableRecord };

    ghost view = { λ t. record { users = users_of t.users.entries; rooms = rooms_of t.rooms.entries; bytes = t.bytes } };

    ghost invariant = { λ t. t.bytes ≡ user_texts (users_of t.users.entries) + room_texts (rooms_of t.rooms.entries) };
}

impl Archives {
    /// No archive has a row. Users and peers are found by this key. Takes no memory.
    pub fn new(alloc: Global, hash_key: HashKey) -> Archives
        ensures { archives_of result ≡ no_archives }
    {
        Archives {
            users: IndexMap::with_hasher(alloc, hash_key),
            rooms: IndexMap::new(alloc),
            bytes: 0,
            hash_key,
            alloc,
        }
    }

    /// The archive of a user, where it has one.
    pub fn of_user(&self, user: &Part) -> Option<&Archive>
        ensures { option_copied result ≡ user_archive user.now self.now.users }
    {
        users::find(&self.users, user)
    }

    /// The archive of a room, where it has one.
    pub fn of_room(&self, room: u64) -> Option<&Archive>
        ensures { option_copied result ≡ room_archive room self.now.rooms }
    {
        rooms::find(&self.rooms, room)
    }

    /// How long all texts are that are kept.
    pub fn bytes(&self) -> u64
        ensures { result ≡ self.now.bytes }
    {
        self.bytes
    }

    /// How many bytes more there is room for, once so many are gone.
    pub fn free_beside(&self, gone: u64) -> u64
        requires few { self.now.bytes ≤ most_bytes }
        requires gone { gone < 2 ^ 62 }
        ensures { result ≡ free_beside gone (archives_of self.now) }
    {
        MOST_BYTES + gone - self.bytes
    }

    /// Takes the memory for so many rows more of a user, all of this peer. Nothing that the archives tell changes, whatever the answer is.
    pub fn reserve_user(&mut self, user: &Part, peer: &Jid, many: usize) -> Result<(), NoMemory>
        ensures room { OnOk result (many ≤ user_spare user.now peer.now self.new) }
        ensures same { archives_of self.new ≡ archives_of self.old }
        ensures users { (u : List ℕ) (p : Address) → user_spare u p self.old ≤ user_spare u p self.new }
        ensures rooms { self.new.rooms ≡ self.old.rooms }
    {
        users::reserve(self.alloc, &mut self.users, user, peer, many)
    }

    /// Takes the memory for so many rows more of a room, all of this peer. Nothing that the archives tell changes, whatever the answer is.
    pub fn reserve_room(&mut self, room: u64, peer: &Jid, many: usize) -> Result<(), NoMemory>
        ensures room { OnOk result (many ≤ room_spare room peer.now self.new) }
        ensures same { archives_of self.new ≡ archives_of self.old }
        ensures rooms { (n : ℕ) (p : Address) → room_spare n p self.old ≤ room_spare n p self.new }
        ensures users { self.new.users ≡ self.old.users }
    {
        rooms::reserve(self.alloc, self.hash_key, &mut self.rooms, room, peer, many)
    }

    fn add_user(&mut self, user: &Part, peer: Jid, text: Text, moment: u64)
        requires ready { 0 < user_spare user.now peer self.old }
        requires numbers { ((archives_of self.old).users user.now).made < 2 ^ 64 - 1 }
        requires bytes { self.old.bytes + length text < 2 ^ 64 }
        ensures archives { archives_of self.new ≡ filed (Filing.OfUser user.now peer text moment) (archives_of self.old) }
        ensures users { (u : List ℕ) (p : Address) → user_spare u p self.old
            ≤ user_spare u p self.new + user_rows u (Filing.OfUser user.now peer text moment) }
        ensures rooms { self.new.rooms ≡ self.old.rooms }
    {
        self.bytes = users::add(&mut self.users, self.bytes, user, peer, text, moment);
    }

    fn add_room(&mut self, room: u64, peer: Jid, text: Text, moment: u64)
        requires ready { 0 < room_spare room peer self.old }
        requires numbers { ((archives_of self.old).rooms room).made < 2 ^ 64 - 1 }
        requires bytes { self.old.bytes + length text < 2 ^ 64 }
        ensures archives { archives_of self.new ≡ filed (Filing.OfRoom room peer text moment) (archives_of self.old) }
        ensures rooms { (n : ℕ) (p : Address) → room_spare n p self.old
            ≤ room_spare n p self.new + room_rows n (Filing.OfRoom room peer text moment) }
        ensures users { self.new.users ≡ self.old.users }
    {
        self.bytes = rooms::add(&mut self.rooms, self.bytes, room, peer, text, moment);
    }

    fn remove_room(&mut self, room: u64)
        ensures archives { archives_of self.new ≡ filed (Filing.NoRoom room) (archives_of self.old) }
        ensures rooms { (n : ℕ) (p : Address) → ends n (Filing.NoRoom room) ≡ false → room_spare n p self.old ≤ room_spare n p self.new }
        ensures users { self.new.users ≡ self.old.users }
    {
        self.bytes -= rooms::remove(&mut self.rooms, room);
    }

    /// Adds a row in memory that was reserved, or takes the archive of a room away. Takes no memory.
    pub fn file(&mut self, filing: Filing)
        requires ready { IsReady filing self.old }
        requires numbers { made_before filing (archives_of self.old) < 2 ^ 64 - 1 }
        requires bytes { self.old.bytes + text_length filing < 2 ^ 64 }
        ensures archives { archives_of self.new ≡ filed filing (archives_of self.old) }
        ensures users { (u : List ℕ) (p : Address) → user_spare u p self.old ≤ user_spare u p self.new + user_rows u filing }
        ensures rooms { (n : ℕ) (p : Address) → ends n filing ≡ false → room_spare n p self.old ≤ room_spare n p self.new + room_rows n filing }
    {
        match filing {
            Filing::OfUser {
                user,
                peer,
                text,
                moment,
            } => self.add_user(&user, peer, text, moment),
            Filing::OfRoom {
                room,
                peer,
                text,
                moment,
            } => self.add_room(room, peer, text, moment),
            Filing::NoRoom { room } => self.remove_room(room),
        }
    }
}
