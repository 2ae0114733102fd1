//! The ids of the rows of one peer.
ghost use Rattle.std.specs.Prelude.{◌≡◌, ◌+◌, ◌-◌, ◌<◌, ◌≤◌, ◌++◌, ◌∷◌, [], ℕ, drop, length, max, true, false, OnOk};
ghost use Rattle.std.specs.Vec.{vec_capacity};
ghost use Rattle.mam_archive.specs.Lists.{IsBlank};

use stanza_tree::NoMemory;
use std::alloc::Global;
use std::marker::Model;

/// Ids, the oldest first.
#[derive(Drop)]
pub struct Ids {
    // Those at the front are gone.
    ids: Vec<u64>,
    gone: usize,
    // There is room for one id of each row up to this number.
    until: u64,
    // Whether rows of several peers may stand here.
    mixed: bool,
}

impl Model for Ids {
    ghost use Rattle.std.specs.Prelude.{◌-◌, ◌≤◌, drop, length};
    ghost use Rattle.std.specs.Vec.{vec_capacity};
    ghost use Rattle.mam_archive.specs.Lists.{IdList};

    ghost Value = { IdList };

    ghost view = { λ l. record { ids = drop l.gone l.ids.items; free = vec_capacity l.ids - length l.ids.items; until = l.until; mixed = l.mixed } };

    ghost invariant = { λ l. l.gone ≤ length l.ids.items };
}

/// The first items are there no more.
pub(crate) fn forget<T: Drop>(items: &mut Vec<T>, many: usize)
    requires there { many ≤ length items.old.items }
    ensures items { items.new.items ≡ drop many items.old.items }
    ensures room { vec_capacity items.new ≡ vec_capacity items.old }
{
    items.as_mut_slice().rotate_left(many);
    let left = items.len() - many;
    items.truncate(left);
}

/// Takes the memory for so many items more, where it isn't there; then for an eighth more than there are at least, so that to add one costs
/// the same however many there are.
pub(crate) fn make_room<T>(items: &mut Vec<T>, many: usize) -> Result<(), NoMemory>
    ensures ok { OnOk result (length items.new.items + many ≤ vec_capacity items.new) }
    ensures items { items.new.items ≡ items.old.items }
    ensures room { vec_capacity items.old ≤ vec_capacity items.new }
{
    if items.capacity() - items.len() >= many {
        return Ok(());
    }
    Ok(items.reserve_exact(many.max(items.len() / 8))?)
}

/// Gives back the memory of items that are gone, but for so many more, where it is more than twice what is needed.
fn give_back<T>(items: &mut Vec<T>, spare: usize)
    ensures items { items.new.items ≡ items.old.items }
    ensures room { length items.old.items + spare ≤ vec_capacity items.old → length items.new.items + spare ≤ vec_capacity items.new }
{
    let needed = items.len().saturating_add(spare);
    if needed < items.capacity() / 2 {
        items.shrink_to(needed);
    }
}

impl Ids {
    /// No ids. Takes no memory.
    pub(crate) fn new(alloc: Global) -> Ids
        ensures { result ≡ record { ids = []; free = result.free; until = 0; mixed = false } }
    {
        Ids {
            ids: Vec::new(alloc),
            gone: 0,
            until: 0,
            mixed: false,
        }
    }

    pub(crate) fn slice(&self) -> &[u64]
        ensures { result.now ≡ self.now.ids }
    {
        self.ids.get(self.gone..).unwrap_or(&[])
    }

    /// Whether rows of several peers may stand here.
    pub(crate) fn is_mixed(&self) -> bool
        ensures { result ≡ self.now.mixed }
    {
        self.mixed
    }

    /// Whether there is no id, and no room for a row past this number.
    pub(crate) fn is_blank(&self, made: u64) -> bool
        ensures { result ≡ true → IsBlank made self.now }
    {
        self.slice().is_empty() && self.until <= made
    }

    /// Takes the memory for so many ids more, those of rows up to this number.
    pub(crate) fn reserve(&mut self, many: usize, until: u64) -> Result<(), NoMemory>
        ensures until { OnOk result (self.new.until ≡ max self.old.until until) }
        ensures free { OnOk result (many ≤ self.new.free) }
        ensures same { self.new ≡ record self.old { free = self.new.free; until = self.new.until } }
        ensures keeps { self.old.until ≤ self.new.until }
        ensures room { (made : ℕ) → until ≤ made + many → self.old.until ≤ made + self.old.free → self.new.until ≤ made + self.new.free }
    {
        make_room(&mut self.ids, many)?;
        self.until = self.until.max(until);
        Ok(())
    }

    /// Adds an id in room that was reserved.
    pub(crate) fn push(&mut self, id: u64, mixed: bool)
        requires { 0 < self.old.free }
        ensures { self.new ≡ record { ids = self.old.ids ++ id ∷ []; free = self.old.free - 1; until = self.old.until; mixed = mixed } }
    {
        self.ids.push_reserved(id);
        self.mixed = mixed;
    }

    /// The first id is there no more, where so many rows were made. Those that are gone are let go before they are more than a quarter of the others.
    pub(crate) fn drop_first(&mut self, made: u64)
        requires { 0 < length self.old.ids }
        ensures ids { self.new.ids ≡ drop 1 self.old.ids }
        ensures same { self.new ≡ record self.old { ids = self.new.ids; free = self.new.free } }
        ensures room { self.old.until ≤ made + self.old.free → self.new.until ≤ made + self.new.free }
    {
        self.gone += 1;
        if self.gone > (self.ids.len() - self.gone) / 4 {
            forget(&mut self.ids, self.gone);
            self.gone = 0;
            give_back(&mut self.ids, self.until.saturating_sub(made) as usize);
        }
    }
}
