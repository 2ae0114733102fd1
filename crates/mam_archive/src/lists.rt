//! The ids of the rows of each peer, by the hash of its address.
ghost use Rattle.std.specs.Prelude.{◌≡◌, ◌+◌, ◌-◌, ◌<◌, ◌≤◌, ◌++◌, ◌∷◌, [], ℕ, List, None, drop, length, max, nat_eq, not, true, false, IfOk, IfSome, OnOk};
ghost use Rattle.std.specs.Map.{lookup};
ghost use Rattle.std.specs.Option.{option_copied};
ghost use Rattle.hash_keys.specs.declared.key.HashKey.{HashKey};
ghost use Rattle.rsm_paging.specs.Pages.{Follow};
ghost use Rattle.rsm_paging.specs.declared.ask.Row.{Row};
ghost use Rattle.mam_archive.specs.Lists.{AreOf, IsBlank, IsListed, KeepsOthers, held, list_at, rows_with};
ghost use Rattle.mam_archive.specs.Peers.{face, key};
ghost use Rattle.mam_archive.specs.declared.peers.Extent.{Extent};

use crate::ids::Ids;
use crate::peers::{Extent, is_alike, key_of};
use hash_keys::HashKey;
use indexmap::IndexMap;
use jid_core::Jid;
use rsm_paging::{Row, row_of};
use stanza_tree::NoMemory;
use std::alloc::Global;

pub(crate) type Lists = IndexMap<u64, Ids>;

/// A list without ids, with the memory for so many, those of rows up to this number.
fn new_list(alloc: Global, many: usize, until: u64) -> Result<Ids, NoMemory>
    ensures { IfOk result (λ l. (l ≡ record { ids = []; free = l.free; until = until; mixed = false }) × (many ≤ l.free)) }
{
    let mut list = Ids::new(alloc);
    list.reserve(many, until)?;
    Ok(list)
}

/// Takes the memory for so many ids more at a key, those of rows up to this number.
fn reserve_at(
    lists: &mut Lists,
    alloc: Global,
    key: u64,
    many: usize,
    until: u64,
) -> Result<(), NoMemory>
    ensures ok { OnOk result (until ≤ (list_at key lists.new.entries).until) }
    ensures others { KeepsOthers key lists.old.entries lists.new.entries }
    ensures same { list_at key lists.new.entries ≡ record (list_at key lists.old.entries) {
      free = (list_at key lists.new.entries).free;
      until = (list_at key lists.new.entries).until;
    } }
    ensures keeps { (list_at key lists.old.entries).until ≤ (list_at key lists.new.entries).until }
    ensures room { (made : ℕ) → until ≤ made + many → (list_at key lists.old.entries).until ≤ made + (list_at key lists.old.entries).free
        → (list_at key lists.new.entries).until ≤ made + (list_at key lists.new.entries).free }
{
    if let Some(list) = lists.get_mut(&key) {
        return list.reserve(many, until);
    }
    lists.insert(key, new_list(alloc, many, until)?)?;
    Ok(())
}

/// Adds an id at a key, in room that was reserved.
fn push_at(lists: &mut Lists, key: u64, id: u64, mixed: bool)
    requires { 0 < (list_at key lists.old.entries).free }
    ensures others { KeepsOthers key lists.old.entries lists.new.entries }
    ensures here { list_at key lists.new.entries ≡ record {
      ids = (list_at key lists.old.entries).ids ++ id ∷ [];
      free = (list_at key lists.old.entries).free - 1;
      until = (list_at key lists.old.entries).until;
      mixed = mixed;
    } }
{
    if let Some(list) = lists.get_mut(&key) {
        list.push(id, mixed);
    }
}

/// The first id at a key is there no more. Answers whether the list is blank now.
fn drop_at(lists: &mut Lists, key: u64, made: u64) -> bool
    requires { 0 < length (list_at key lists.old.entries).ids }
    ensures blank { result ≡ true → IsBlank made (list_at key lists.new.entries) }
    ensures others { KeepsOthers key lists.old.entries lists.new.entries }
    ensures ids { (list_at key lists.new.entries).ids ≡ drop 1 (list_at key lists.old.entries).ids }
    ensures same { list_at key lists.new.entries ≡ record (list_at key lists.old.entries) {
      ids = (list_at key lists.new.entries).ids;
      free = (list_at key lists.new.entries).free;
    } }
    ensures room { (list_at key lists.old.entries).until ≤ made + (list_at key lists.old.entries).free
        → (list_at key lists.new.entries).until ≤ made + (list_at key lists.new.entries).free }
{
    let Some(list) = lists.get_mut(&key) else {
        return false;
    };
    list.drop_first(made);
    list.is_blank(made)
}

/// A list that is blank leaves.
fn take_out(lists: &mut Lists, key: u64, made: u64)
    requires { IsBlank made (list_at key lists.old.entries) }
    ensures until { (k : ℕ) → (list_at k lists.old.entries).until ≤ max made (list_at k lists.new.entries).until }
    ensures listed { (hash_key : HashKey) (e : Extent) (rows : List Row) → IsListed hash_key e rows made lists.old.entries
        → IsListed hash_key e rows made lists.new.entries }
{
    remove_at(lists, key);
}

fn remove_at(lists: &mut Lists, key: u64)
    ensures others { KeepsOthers key lists.old.entries lists.new.entries }
    ensures here { list_at key lists.new.entries ≡ held None }
{
    lists.swap_remove(&key);
}

/// Whether all rows of the key of a peer are of this peer.
pub(crate) fn holds_only(rows: &[Row], lists: &Lists, at: u64, extent: Extent, peer: &Jid) -> bool
    requires ids { (n : ℕ) × Follow n rows.now }
    ensures { (hash_key : HashKey) (made : ℕ) → at ≡ key hash_key extent peer.now → IsListed hash_key extent rows.now made lists.now.entries
        → result ≡ true → AreOf extent (face extent peer.now) (rows_with hash_key extent at rows.now) }
{
    let Some(list) = lists.get(&at) else {
        return true;
    };
    let Some(first) = list.slice().first() else {
        return true;
    };
    let Some(row) = row_of(rows, *first) else {
        return false;
    };
    !list.is_mixed() && is_alike(extent, &row.peer, peer)
}

/// Takes the memory for so many rows more of a peer, those up to this number.
pub(crate) fn reserve(
    lists: &mut Lists,
    alloc: Global,
    key: u64,
    many: usize,
    until: u64,
) -> Result<(), NoMemory>
    ensures ok { OnOk result (until ≤ (list_at key lists.new.entries).until) }
    ensures keeps { (k : ℕ) → (list_at k lists.old.entries).until ≤ (list_at k lists.new.entries).until }
    ensures listed { (hash_key : HashKey) (e : Extent) (rows : List Row) (made : ℕ) → until ≤ made + many
        → IsListed hash_key e rows made lists.old.entries → IsListed hash_key e rows made lists.new.entries }
{
    reserve_at(lists, alloc, key, many, until)
}

/// Notes a row that comes behind these, in room that was reserved.
pub(crate) fn add(
    lists: &mut Lists,
    rows: &[Row],
    hash_key: HashKey,
    extent: Extent,
    peer: &Jid,
    id: u64,
)
    requires ids { (n : ℕ) × Follow n rows.now }
    requires room { 0 < (list_at (key hash_key extent peer.now) lists.old.entries).free }
    ensures until { (k : ℕ) → (list_at k lists.new.entries).until ≡ (list_at k lists.old.entries).until }
    ensures listed { (made : ℕ) (row : Row) → IsListed hash_key extent rows.now made lists.old.entries → row.peer ≡ peer.now → row.id ≡ id
        → IsListed hash_key extent (rows.now ++ row ∷ []) (made + 1) lists.new.entries }
{
    let key = key_of(hash_key, extent, peer);
    let only = holds_only(rows, lists, key, extent, peer);
    push_at(lists, key, id, !only);
}

/// The first of the rows is there no more, which is of this peer.
pub(crate) fn drop_first(
    lists: &mut Lists,
    hash_key: HashKey,
    extent: Extent,
    peer: &Jid,
    made: u64,
)
    requires { 0 < length (list_at (key hash_key extent peer.now) lists.old.entries).ids }
    ensures until { (k : ℕ) → (list_at k lists.old.entries).until ≤ max made (list_at k lists.new.entries).until }
    ensures listed { (first : Row) (more : List Row) → IsListed hash_key extent (first ∷ more) made lists.old.entries
        → first.peer ≡ peer.now → IsListed hash_key extent more made lists.new.entries }
{
    let key = key_of(hash_key, extent, peer);
    if drop_at(lists, key, made) {
        take_out(lists, key, made);
    }
}

/// The key at a place, counted round and round, where the list there is blank.
fn blank_key(lists: &Lists, place: u64, made: u64) -> Option<u64>
    ensures { IfSome result (λ k. IsBlank made (list_at k lists.now.entries)) }
{
    let many = lists.len() as u64;
    if many == 0 {
        return None;
    }
    match lists.get_index((place % many) as usize) {
        Some((key, list)) if list.is_blank(made) => Some(*key),
        _ => None,
    }
}

/// Looks at one list, another with each row that is made: one that is blank leaves.
pub(crate) fn sweep(lists: &mut Lists, made: u64)
    ensures until { (k : ℕ) → (list_at k lists.old.entries).until ≤ max made (list_at k lists.new.entries).until }
    ensures listed { (hash_key : HashKey) (e : Extent) (rows : List Row) → IsListed hash_key e rows made lists.old.entries
        → IsListed hash_key e rows made lists.new.entries }
{
    if let Some(key) = blank_key(lists, made, made) {
        take_out(lists, key, made);
    }
}

/// The ids at a key.
pub(crate) fn ids_at(lists: &Lists, key: u64) -> &[u64]
    ensures { result.now ≡ (list_at key lists.now.entries).ids }
{
    match lists.get(&key) {
        Some(list) => list.slice(),
        None => &[],
    }
}
