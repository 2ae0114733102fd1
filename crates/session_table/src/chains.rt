//! The sessions of a user, of which each leads to the next.

ghost use Rattle.std.specs.Prelude.{◌≡◌, ℕ, ◌<◌, ◌≤◌, ◌+◌, ◌++◌, ◌∷◌, [], true, cond, nat_eq, is_some, Some, None};
ghost use Rattle.std.specs.Map.{lookup};
ghost use Rattle.std.specs.Option.{option_copied};
ghost use Rattle.indexmap.specs.IndexMap.{spare, set_value_at};
ghost use Rattle.session_table.specs.Indexes.{AreChained, AreRelinked, EndsAt, IsAt, IsLinkOrNone, emptied, has_hash};
ghost use Rattle.session_table.specs.Hashes.{user_hash};
ghost use Rattle.session_table.specs.declared.slots.Slot.{Slot};

use crate::slots::{Slots, lead, visit};
use hash_keys::HashKey;
use indexmap::IndexMap;

/// The first session of each hash of a user.
#[derive(Drop)]
pub(crate) struct Heads {
    /// The key of the hashes.
    pub(crate) key: HashKey,
    pub(crate) firsts: IndexMap<u64, u64>,
}

impl Heads {
    /// The hash of a user, by the bytes of the local part of an address.
    pub(crate) fn hash_of(&self, local: Option<&[u8]>) -> u64
        ensures { result ≡ user_hash self.now.key (option_copied local.entry) }
    {
        self.key.hash_bytes(local.unwrap_or(&[]))
    }
}

// The place of the session of a hash that leads to this one.
fn find_link(slots: &Slots, heads: &Heads, hash: u64, until: Option<u64>) -> Option<usize>
    requires chained { (made : ℕ) × AreChained heads.now.key slots.now.entries heads.now.firsts.entries made }
    requires ends { EndsAt heads.now.key hash until slots.now.entries }
    ensures { IsLinkOrNone heads.now.key hash until slots.now.entries result }
{
    let mut next = heads.firsts.get(&hash).copied();
    while let Some(number) = next {
        let Some((place, slot)) = visit(slots, number) else {
            return None;
        };
        if slot.next == until {
            return Some(place);
        }
        next = slot.next;
    }
    None
}

// This is now the first session of a hash that there was one of.
fn point(firsts: &mut IndexMap<u64, u64>, hash: u64, first: Option<u64>)
    ensures firsts { is_some (lookup (nat_eq hash) firsts.old.entries) ≡ true → (q : ℕ)
        → lookup (nat_eq q) firsts.new.entries ≡ cond (nat_eq hash q) first (lookup (nat_eq q) firsts.old.entries) }
    ensures room { spare firsts.old ≤ spare firsts.new }
{
    match first {
        Some(number) => {
            if let Some(first) = firsts.get_mut(&hash) {
                *first = number;
            }
        }
        None => {
            firsts.swap_remove(&hash);
        }
    }
}

/// Makes the last session of a hash lead to a session of this number, which will be above all others.
pub(crate) fn join(slots: &mut Slots, heads: &mut Heads, hash: u64, number: u64)
    requires chained { (made : ℕ) × AreChained heads.old.key slots.old.entries heads.old.firsts.entries made × (made < number) }
    requires room { 0 < spare heads.old.firsts }
    ensures chained { (slot : Slot) → has_hash heads.old.key hash slot.session ≡ true → slot.next ≡ None
        → AreChained heads.new.key (slots.new.entries ++ (number, slot) ∷ []) heads.new.firsts.entries number }
    ensures same { AreRelinked slots.old.entries slots.new.entries }
    ensures places { spare slots.new ≡ spare slots.old }
    ensures room { spare heads.old.firsts ≤ spare heads.new.firsts + 1 }
{
    match find_link(slots, heads, hash, None) {
        Some(place) => lead(slots, place, Some(number)),
        None => match heads.firsts.insert(hash, number) {
            Ok(_) => {}
            Err(_) => unreachable!(),
        },
    }
}

/// Makes what leads to a session of a hash lead to the next one, so that it can be taken away.
pub(crate) fn bridge(
    slots: &mut Slots,
    heads: &mut Heads,
    hash: u64,
    number: u64,
    next: Option<u64>,
)
    requires chained { (made : ℕ) × AreChained heads.old.key slots.old.entries heads.old.firsts.entries made }
    requires there { (place : ℕ) × (slot : Slot) × IsAt place number slot slots.old.entries
        × (has_hash heads.old.key hash slot.session ≡ true) × (slot.next ≡ next) }
    ensures chained { (made place : ℕ) (slot : Slot) → AreChained heads.old.key slots.old.entries heads.old.firsts.entries made
        → IsAt place number slot slots.old.entries
        → AreChained heads.new.key (set_value_at slots.new.entries place (emptied slot)) heads.new.firsts.entries made }
    ensures there { (place : ℕ) (slot : Slot) → IsAt place number slot slots.old.entries → IsAt place number slot slots.new.entries }
    ensures same { AreRelinked slots.old.entries slots.new.entries }
    ensures places { spare slots.new ≡ spare slots.old }
    ensures room { spare heads.old.firsts ≤ spare heads.new.firsts }
{
    if heads.firsts.get(&hash).copied() == Some(number) {
        point(&mut heads.firsts, hash, next);
        return;
    }
    if let Some(place) = find_link(slots, heads, hash, Some(number)) {
        lead(slots, place, next);
    }
}
