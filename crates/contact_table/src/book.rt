//! The book.
ghost use Rattle.std.specs.Prelude.{◌≡◌, ◌≤◌, ◌+◌, ℕ, List, map, IfOk, IfSome, OnOk};
ghost use Rattle.std.specs.Option.{option_copied};
ghost use Rattle.contact_table.specs.Books.{bare_of, contacts_of, empty_book, noted, who_asked, who_sees, whom_sees};
ghost use Rattle.contact_table.specs.Tables.{contacts_in, needed, spare, users_in};

use crate::changes::note;
use crate::folders::{Folders, addresses, open, reserve};
use crate::order::Order;
use ghost_log::{GhostLog, Tells};
use hash_keys::HashKey;
use indexmap::IndexMap;
use jid_core::{Jid, Part};
use stanza_model::{Change, Roster};
use stanza_tree::NoMemory;
use std::alloc::Global;
use std::marker::Model;
use std::snapshot::Snapshot;

/// The contacts of all users, who sees whose presence, and who has asked to. Each user's are found by hash, as lists that
/// are kept up to date with each change.
#[derive(Drop)]
pub struct Book {
    domain: Part,
    folders: Folders,
    // The changes so far, in proofs alone: they tell how the users' lists stand to each other.
    log: GhostLog<Change>,
}

impl Model for Book {
    ghost use Rattle.contact_table.specs.Tables.{BookRecord, book_after};
    ghost use Rattle.contact_table.specs.Folders.{Keeps, rooms};

    ghost Value = { BookRecord };

    ghost view = { λ b. record { domain = b.domain; book = book_after b.log.entries; rooms = rooms b.folders.entries } };

    ghost invariant = { λ b. Keeps b.domain (book_after b.log.entries) b.folders.entries };
}

/// A change that is noted.
#[derive(Drop)]
struct Told {
    change: Snapshot<Change>,
}

impl Tells<Change> for Told {
    ghost entry = { λ t. t.change.value };
}

impl Book {
    /// The book of a domain in which nothing is noted. Users are found by this key.
    pub fn new(alloc: Global, domain: Part, key: HashKey) -> Book
        ensures domain { result.domain ≡ domain }
        ensures book { result.book ≡ empty_book }
    {
        Book {
            domain,
            folders: IndexMap::with_hasher(alloc, key),
            log: GhostLog::empty(),
        }
    }

    /// The roster of a user, by the local part of its address. None where nothing was ever kept of it.
    pub fn roster(&self, user: &Part) -> Option<&Roster>
        ensures contacts { contacts_in (option_copied result) ≡ contacts_of self.now.domain self.now.book user.now }
        ensures owner { IfSome result (λ r. r.now.owner ≡ bare_of self.now.domain user.now) }
    {
        match self.folders.get(user.bytes()) {
            Some(folder) => Some(&folder.roster),
            None => None,
        }
    }

    /// Who sees the presence of a user. None where nothing was ever kept of it.
    pub fn who_sees(&self, user: &Part) -> Option<&Order>
        ensures { users_in (option_copied result) ≡ who_sees self.now.book user.now }
    {
        match self.folders.get(user.bytes()) {
            Some(folder) => Some(&folder.who_sees),
            None => None,
        }
    }

    /// Whose presence a user sees. None where nothing was ever kept of it.
    pub fn whom_sees(&self, user: &Part) -> Option<&Order>
        ensures { users_in (option_copied result) ≡ whom_sees self.now.book user.now }
    {
        match self.folders.get(user.bytes()) {
            Some(folder) => Some(&folder.whom_sees),
            None => None,
        }
    }

    /// The bare addresses of those that have asked to see the presence of a user.
    pub fn asking(&self, alloc: Global, user: &Part) -> Result<Vec<Jid>, NoMemory>
        ensures { IfOk result (λ v. v.items ≡ map (bare_of self.now.domain) (who_asked self.now.book user.now)) }
    {
        match self.folders.get(user.bytes()) {
            Some(folder) => addresses(alloc, &self.folders, &folder.who_asked),
            None => Ok(Vec::new(alloc)),
        }
    }

    /// Takes the memory for so many changes more of a user, whatever they are. A name that is no local part of an address of the
    /// domain has none, which is told as want of memory. Nothing that the book tells changes, whatever the answer is.
    pub fn reserve(&mut self, alloc: Global, user: &Part, changes: usize) -> Result<(), NoMemory>
        ensures room { OnOk result (changes ≤ spare user.now self.new) }
        ensures keeps_room { (u : List ℕ) → spare u self.old ≤ spare u self.new }
        ensures book { self.new.book ≡ self.old.book }
        ensures domain { self.new.domain ≡ self.old.domain }
    {
        open(alloc, &mut self.folders, &self.domain, user)?;
        reserve(alloc, &mut self.folders, user, changes)
    }

    /// Notes a change, for which there is room. Takes no memory. What is said of sessions is kept elsewhere.
    pub fn apply(&mut self, change: Change)
        requires { (u : List ℕ) → needed u change ≤ spare u self.old }
        ensures book { self.new.book ≡ noted change self.old.book }
        ensures domain { self.new.domain ≡ self.old.domain }
        ensures room { (u : List ℕ) → spare u self.old ≤ spare u self.new + needed u change }
    {
        let told = Told {
            change: Snapshot::of(&change),
        };
        self.log = self.log.with(&told);
        note(&mut self.folders, &self.domain, change);
    }
}
