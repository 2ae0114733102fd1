//! The index of an archive: for each bare and each full peer the ids of its rows.
ghost use Rattle.std.specs.Prelude.{◌≡◌, ◌+◌, ◌<◌, ◌≤◌, ◌++◌, ◌∷◌, [], ℕ, List, drop, max, OnOk};
ghost use Rattle.hash_keys.specs.declared.key.HashKey.{HashKey};
ghost use Rattle.rsm_paging.specs.Pages.{Follow};
ghost use Rattle.rsm_paging.specs.declared.ask.Row.{Row};
ghost use Rattle.mam_archive.specs.Lists.{list_at};
ghost use Rattle.mam_archive.specs.Peers.{key};
ghost use Rattle.mam_archive.specs.declared.peers.Extent.TheVariants.{Bare, Full};

use crate::lists::{Lists, add, drop_first, reserve, sweep};
use crate::peers::{Extent, key_of};
use hash_keys::HashKey;
use indexmap::IndexMap;
use jid_core::Jid;
use rsm_paging::Row;
use stanza_tree::NoMemory;
use std::alloc::Global;

/// The ids of the rows of each bare and of each full peer.
#[derive(Drop)]
pub struct Index {
    pub(crate) bare: Lists,
    pub(crate) full: Lists,
}

impl Index {
    ghost use Rattle.mam_archive.specs.Lists.{IsListed};
    ghost use Rattle.mam_archive.specs.Sounds.{IsIndexed};

    /// The index of no rows. Takes no memory.
    pub(crate) fn new(alloc: Global) -> Index
        ensures bare { result.bare.entries ≡ [] }
        ensures full { result.full.entries ≡ [] }
    {
        Index {
            bare: IndexMap::new(alloc),
            full: IndexMap::new(alloc),
        }
    }

    /// Takes the memory for so many rows more of a peer, those up to this number.
    pub(crate) fn reserve(
        &mut self,
        alloc: Global,
        hash_key: HashKey,
        peer: &Jid,
        many: usize,
        until: u64,
    ) -> Result<(), NoMemory>
        ensures ok_bare { OnOk result (until ≤ (list_at (key hash_key Bare peer.now) self.new.bare.entries).until) }
        ensures ok_full { OnOk result (until ≤ (list_at (key hash_key Full peer.now) self.new.full.entries).until) }
        ensures bare { (k : ℕ) → (list_at k self.old.bare.entries).until ≤ (list_at k self.new.bare.entries).until }
        ensures full { (k : ℕ) → (list_at k self.old.full.entries).until ≤ (list_at k self.new.full.entries).until }
        ensures indexed { (rows : List Row) (made : ℕ) → until ≤ made + many → IsIndexed hash_key rows made self.old → IsIndexed hash_key rows made self.new }
    {
        reserve(
            &mut self.bare,
            alloc,
            key_of(hash_key, Extent::Bare, peer),
            many,
            until,
        )?;
        reserve(
            &mut self.full,
            alloc,
            key_of(hash_key, Extent::Full, peer),
            many,
            until,
        )
    }

    /// Notes a row that comes behind these, in room that was reserved.
    pub(crate) fn add(&mut self, rows: &[Row], hash_key: HashKey, peer: &Jid, id: u64)
        requires ids { (n : ℕ) × Follow n rows.now }
        requires bare { 0 < (list_at (key hash_key Bare peer.now) self.old.bare.entries).free }
        requires full { 0 < (list_at (key hash_key Full peer.now) self.old.full.entries).free }
        ensures bare { (k : ℕ) → (list_at k self.new.bare.entries).until ≡ (list_at k self.old.bare.entries).until }
        ensures full { (k : ℕ) → (list_at k self.new.full.entries).until ≡ (list_at k self.old.full.entries).until }
        ensures indexed { (made : ℕ) (row : Row) → IsIndexed hash_key rows.now made self.old → row.peer ≡ peer.now → row.id ≡ id
            → IsIndexed hash_key (rows.now ++ row ∷ []) (made + 1) self.new }
    {
        add(&mut self.bare, rows, hash_key, Extent::Bare, peer, id);
        add(&mut self.full, rows, hash_key, Extent::Full, peer, id);
    }

    /// The first of the rows is there no more.
    pub(crate) fn drop_first(&mut self, rows: &[Row], hash_key: HashKey, made: u64)
        requires { IsIndexed hash_key rows.now made self.old }
        ensures bare { (k : ℕ) → (list_at k self.old.bare.entries).until ≤ max made (list_at k self.new.bare.entries).until }
        ensures full { (k : ℕ) → (list_at k self.old.full.entries).until ≤ max made (list_at k self.new.full.entries).until }
        ensures indexed { IsIndexed hash_key (drop 1 rows.now) made self.new }
    {
        if let Some(first) = rows.first() {
            drop_first(&mut self.bare, hash_key, Extent::Bare, &first.peer, made);
            drop_first(&mut self.full, hash_key, Extent::Full, &first.peer, made);
        }
    }

    /// Looks at one list of each kind, another with each row that is made: one without ids, for which nothing is reserved any more, leaves.
    pub(crate) fn sweep(&mut self, made: u64)
        ensures bare { (k : ℕ) → (list_at k self.old.bare.entries).until ≤ max made (list_at k self.new.bare.entries).until }
        ensures full { (k : ℕ) → (list_at k self.old.full.entries).until ≤ max made (list_at k self.new.full.entries).until }
        ensures indexed { (hash_key : HashKey) (rows : List Row) → IsIndexed hash_key rows made self.old → IsIndexed hash_key rows made self.new }
    {
        sweep(&mut self.bare, made);
        sweep(&mut self.full, made);
    }

    pub(crate) fn lists(&self, extent: Extent) -> &Lists
        ensures { (hash_key : HashKey) (rows : List Row) (made : ℕ) → IsIndexed hash_key rows made self.now
            → IsListed hash_key extent rows made result.now.entries }
    {
        match extent {
            Extent::Bare => &self.bare,
            Extent::Full => &self.full,
        }
    }
}
