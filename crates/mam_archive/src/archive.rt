//! The rows of an archive, and what is added to them.
ghost use Rattle.std.specs.Prelude.{◌≡◌, ◌+◌, ◌-◌, ◌<◌, ◌≤◌, ◌^◌, [], ℕ, drop, take, length, map, min, true, IfErr, IfOk, IfSome, OnOk};
ghost use Rattle.std.specs.Vec.{vec_capacity};
ghost use Rattle.std.specs.List.{filter};
ghost use Rattle.jid_core.specs.Addresses.{Address};
ghost use Rattle.rsm_paging.specs.Pages.{Follow, IsOneWay, IsPage, IsUnknown, Rises, StampsRise, asked_id, id_of, is_known, is_of};
ghost use Rattle.mam_archive.specs.Archives.{freed, kept_with, last_stamp, new_row, room, stamp_after, texts_length};

use crate::ids::{forget, make_room};
use crate::index::Index;
use crate::lists::{holds_only, ids_at};
use crate::peers::{extent_of, key_of};
use hash_keys::HashKey;
use jid_core::Jid;
use rsm_paging::{Filter, Page, PageAsk, PageFault, Row, page, page_of, page_of_all};
use stanza_tree::{NoMemory, Text};
use std::alloc::Global;
use std::marker::Model;

/// How many rows an archive keeps.
pub const MOST_KEPT: usize = 10_000;

/// So many rows that are kept no more still have their places, at most.
const MOST_GONE: usize = 1_250;

/// The end of the year 9999, in milliseconds since 1970.
const LAST_MOMENT: u64 = 253_402_300_799_999;

/// An archive: the last 10,000 of the rows that were added to it (XEP-0313, 2).
#[derive(Drop)]
pub struct Archive {
    // Those at the front are gone, and have no text any more.
    rows: Vec<Row>,
    gone: usize,
    made: u64,
    bytes: u128,
    hash_key: HashKey,
    index: Index,
    alloc: Global,
}

/// The stamp of the last row.
fn last_stamp(rows: &[Row]) -> u64
    ensures { result ≡ last_stamp rows.now }
{
    match rows.last() {
        Some(row) => row.stamp,
        None => 0,
    }
}

/// The stamp of a row that is added to these at a moment: it never falls.
fn stamp_after(rows: &[Row], moment: u64) -> u64
    ensures { result ≡ stamp_after rows.now moment }
{
    moment.min(LAST_MOMENT).max(last_stamp(rows))
}

/// Those from a place on.
fn later(rows: &[Row], from: usize) -> &[Row]
    ensures { result.now ≡ drop from rows.now }
{
    rows.get(from..).unwrap_or(&[])
}

fn length_of(text: &Text) -> u64
    ensures length { result ≡ length text.now }
    ensures bound { result < 2 ^ 64 }
{
    text.bytes().len() as u64
}

/// The row at a place loses its text, which was so long.
fn lose_text(alloc: Global, rows: &mut Vec<Row>, at: usize) -> usize
    requires there { at < length rows.old.items }
    ensures length { result ≡ texts_length (take 1 (drop at rows.old.items)) }
    ensures later { drop (at + 1) rows.new.items ≡ drop (at + 1) rows.old.items }
    ensures as_many { length rows.new.items ≡ length rows.old.items }
    ensures room { vec_capacity rows.new ≡ vec_capacity rows.old }
{
    let length = rows[at].text.bytes().len();
    rows[at].text = Text::empty(alloc);
    length
}

impl Model for Archive {
    ghost use Rattle.std.specs.Prelude.{◌-◌, drop, length};
    ghost use Rattle.std.specs.Vec.{vec_capacity};
    ghost use Rattle.mam_archive.specs.Archives.{Archive};
    ghost use Rattle.mam_archive.specs.Lists.{places};
    ghost use Rattle.mam_archive.specs.Sounds.{IsWhole};

    ghost Value = { Archive };

    ghost view = { λ a. record {
      kept = drop a.gone a.rows.items;
      made = a.made;
      spare = vec_capacity a.rows - length a.rows.items;
      hash_key = a.hash_key;
      bare = places a.index.bare.entries;
      full = places a.index.full.entries;
    } };

    ghost invariant = { λ a. IsWhole a.hash_key a.rows.items a.gone a.made a.bytes a.index };
}

impl Archive {
    /// An empty archive, whose peers are found by this key. Takes no memory.
    pub fn new(alloc: Global, hash_key: HashKey) -> Archive
        ensures { result ≡ record { kept = []; made = 0; spare = 0; hash_key = hash_key; bare = []; full = [] } }
    {
        Archive {
            rows: Vec::new(alloc),
            gone: 0,
            made: 0,
            bytes: 0,
            hash_key,
            index: Index::new(alloc),
            alloc,
        }
    }

    /// The rows that are kept, the oldest first.
    pub fn rows(&self) -> &[Row]
        ensures kept { result.now ≡ self.now.kept }
        ensures few { length result.now ≤ 10000 }
        ensures follow { (n : ℕ) × Follow n result.now }
        ensures stamps { StampsRise 0 result.now }
        ensures rises { Rises result.now }
    {
        later(self.rows.as_slice(), self.gone)
    }

    /// How many rows were ever added, which is the id of the last one.
    pub fn made(&self) -> u64
        ensures { result ≡ self.now.made }
    {
        self.made
    }

    /// The ids of the rows of the peer that is asked for (XEP-0313, 4.1.1), where its list has no others.
    fn picked(&self, asked: &Jid) -> Option<&[u64]>
        ensures { IfSome result (λ ids. ids.now ≡ map id_of (filter (λ row. is_of asked.now row.peer) self.now.kept)) }
    {
        let extent = extent_of(asked);
        let lists = self.index.lists(extent);
        let key = key_of(self.hash_key, extent, asked);
        if holds_only(self.rows(), lists, key, extent, asked) {
            Some(ids_at(lists, key))
        } else {
            None
        }
    }

    /// The page that is asked for of the rows that are kept (XEP-0313, 4.1 and 4.3, with XEP-0059, 2), as `rsm_paging::page` has it. Costs a look at
    /// each row of the page and some binary searches; where another peer's address has the hash of the one that is asked for, a look at each row that is kept.
    pub fn page(&self, alloc: Global, filter: &Filter, ask: &PageAsk) -> Result<Page, PageFault>
        requires { IsOneWay ask.now.after ask.now.before }
        ensures known { OnOk result (is_known self.now.kept (asked_id ask.now.after ask.now.before) ≡ true) }
        ensures unknown { IfErr result (IsUnknown self.now.kept ask.now.after ask.now.before) }
        ensures page { IfOk result (IsPage self.now.kept filter.now ask.now) }
    {
        let Some(asked) = &filter.peer else {
            return page_of_all(alloc, self.rows(), filter, ask);
        };
        match self.picked(asked) {
            Some(ids) => page_of(alloc, self.rows(), ids, filter, ask),
            None => page(alloc, self.rows(), filter, ask),
        }
    }

    /// How long the texts are that are kept; 2^64 - 1 stands for more.
    pub fn bytes(&self) -> u64
        ensures { result ≡ min (texts_length self.now.kept) (2 ^ 64 - 1) }
    {
        self.bytes.min(u64::MAX as u128) as u64
    }

    /// How long the text is that the next row displaces: that of the oldest row where 10,000 are kept, and else 0.
    pub fn freed(&self) -> u64
        ensures { result ≡ freed self.now }
    {
        let rows = self.rows();
        match rows.first() {
            Some(oldest) if rows.len() >= MOST_KEPT => length_of(&oldest.text),
            _ => 0,
        }
    }

    /// Takes the memory for so many rows more, all of them of this peer, where it isn't there. Nothing else changes, whatever the answer is.
    pub fn reserve(&mut self, peer: &Jid, many: usize) -> Result<(), NoMemory>
        ensures spare { OnOk result (many ≤ self.new.spare) }
        ensures room { OnOk result (many ≤ room peer.now self.new) }
        ensures same { self.new ≡ record self.old { spare = self.new.spare; bare = self.new.bare; full = self.new.full } }
        ensures keeps_spare { self.old.spare ≤ self.new.spare }
        ensures keeps_room { (p : Address) → room p self.old ≤ room p self.new }
    {
        let Some(until) = self.made.checked_add(many as u64) else {
            return Err(NoMemory);
        };
        make_room(&mut self.rows, many)?;
        self.index
            .reserve(self.alloc, self.hash_key, peer, many, until)
    }

    /// The oldest row isn't kept any more, and gives up its text.
    fn drop_oldest(&mut self)
        requires { 0 < length self.old.kept }
        ensures kept { self.new.kept ≡ drop 1 self.old.kept }
        ensures made { self.new.made ≡ self.old.made }
        ensures spare { self.old.spare ≤ self.new.spare }
        ensures room { (p : Address) → room p self.old ≤ room p self.new }
    {
        self.index.drop_first(
            later(self.rows.as_slice(), self.gone),
            self.hash_key,
            self.made,
        );
        let length = lose_text(self.alloc, &mut self.rows, self.gone);
        self.bytes -= length as u128;
        self.gone += 1;
        if self.gone >= MOST_GONE {
            forget(&mut self.rows, self.gone);
            self.gone = 0;
        }
    }

    /// A list of the index that is empty, and for which nothing is reserved, may leave.
    fn sweep(&mut self)
        ensures same { self.new ≡ record self.old { bare = self.new.bare; full = self.new.full } }
        ensures room { (p : Address) → room p self.old ≤ room p self.new }
    {
        self.index.sweep(self.made);
    }

    /// One row more may be kept.
    fn make_place(&mut self)
        ensures kept { self.new.kept ≡ drop (length self.old.kept + 1 - 10000) self.old.kept }
        ensures few { length self.new.kept < 10000 }
        ensures made { self.new.made ≡ self.old.made }
        ensures spare { self.old.spare ≤ self.new.spare }
        ensures room { (p : Address) → room p self.old ≤ room p self.new }
    {
        self.sweep();
        if self.rows().len() >= MOST_KEPT {
            self.drop_oldest();
        }
    }

    /// Adds a row in room that was reserved for its peer, and answers its id. Where 10,000 rows are kept, the oldest is kept no more. The row has the later of
    /// the moment and the last row's stamp.
    pub fn add(&mut self, peer: Jid, text: Text, moment: u64) -> u64
        requires spare { 0 < self.old.spare }
        requires room { 0 < room peer self.old }
        requires numbers { self.old.made < 2 ^ 64 - 1 }
        ensures id { result ≡ self.old.made + 1 }
        ensures kept { self.new.kept ≡ kept_with self.old (new_row self.old peer text moment) }
        ensures made { self.new.made ≡ self.old.made + 1 }
        ensures spare { self.old.spare ≤ self.new.spare + 1 }
        ensures room { (p : Address) → room p self.old ≤ room p self.new + 1 }
    {
        let stamp = stamp_after(self.rows(), moment);
        let length = length_of(&text);
        self.make_place();
        let id = self.made + 1;
        self.index.add(
            later(self.rows.as_slice(), self.gone),
            self.hash_key,
            &peer,
            id,
        );
        self.made = id;
        self.bytes += length as u128;
        self.rows.push_reserved(Row {
            id,
            stamp,
            peer,
            text,
        });
        id
    }
}
