//! Places for sessions, in the order of their numbers.

ghost use Rattle.std.specs.Prelude.{◌≡◌, ℕ, ◌<◌, ◌≤◌, ◌+◌, ◌++◌, ◌∷◌, [], nat_eq, Some, None, IfSome, IfNone};
ghost use Rattle.std.specs.Map.{lookup};
ghost use Rattle.std.specs.Option.{option_copied};
ghost use Rattle.indexmap.specs.IndexMap.{spare, set_value_at};
ghost use Rattle.session_table.specs.Changes.{change_of};
ghost use Rattle.session_table.specs.Indexes.{IsAt, IsPlaceOf, emptied, leading_to, session_in, wake_in, with_change};

use crate::session::{Change, Session};
use indexmap::IndexMap;

/// A place for a session under its number, which stays empty once the session was taken away.
#[derive(Drop)]
pub(crate) struct Slot {
    pub(crate) session: Option<Session>,
    /// The number of the next session whose user has the same hash.
    pub(crate) next: Option<u64>,
}

/// The places by number.
pub(crate) type Slots = IndexMap<u64, Slot>;

impl Slot {
    /// The moment from which its session is due.
    pub(crate) fn wake(&self) -> Option<u64>
        ensures { result ≡ wake_in self.now.session }
    {
        match &self.session {
            Some(session) => session.wake(),
            None => None,
        }
    }

    fn change(&mut self, change: Change)
        ensures { self.new ≡ with_change (change_of change) self.old }
    {
        if let Some(session) = &mut self.session {
            session.change(change);
        }
    }
}

/// The session of a number.
pub(crate) fn session_at(slots: &Slots, number: u64) -> Option<&Session>
    ensures { option_copied result ≡ session_in (lookup (nat_eq number) slots.now.entries) }
{
    match slots.get(&number) {
        Some(slot) => slot.session.as_ref(),
        None => None,
    }
}

/// The number at a place.
pub(crate) fn number_at(slots: &Slots, place: usize) -> Option<u64>
    ensures { (number : ℕ) (slot : Slot) → IsAt place number slot slots.now.entries → result ≡ Some number }
{
    match slots.get_index(place) {
        Some((number, _slot)) => Some(*number),
        None => None,
    }
}

/// Adds a session of a number that is above all others, in room that is there.
pub(crate) fn add(slots: &mut Slots, number: u64, session: Session)
    requires new { lookup (nat_eq number) slots.old.entries ≡ None }
    requires room { 0 < spare slots.old }
    ensures entries { slots.new.entries ≡ slots.old.entries ++ (number, record { session = Some session; next = None }) ∷ [] }
    ensures room { spare slots.old ≤ spare slots.new + 1 }
{
    let slot = Slot {
        session: Some(session),
        next: None,
    };
    match slots.insert(number, slot) {
        Ok(_) => {}
        Err(_) => unreachable!(),
    }
}

/// The place of a number.
pub(crate) fn find(slots: &Slots, number: u64) -> Option<usize>
    ensures { IsPlaceOf number slots.now.entries result }
{
    slots.get_index_of(&number)
}

/// The place of a number, and what is there.
pub(crate) fn visit(slots: &Slots, number: u64) -> Option<(usize, &Slot)>
    ensures none { IfNone result (lookup (nat_eq number) slots.now.entries ≡ None) }
    ensures found { IfSome result (λ x. IsAt x.0 number x.1.now slots.now.entries) }
{
    match slots.get_full(&number) {
        Some((place, _number, slot)) => Some((place, slot)),
        None => None,
    }
}

/// Changes the session at a place. Answers the moment from which it is due.
pub(crate) fn change(slots: &mut Slots, place: usize, change: Change) -> Option<u64>
    ensures entries { (number : ℕ) (slot : Slot) → IsAt place number slot slots.old.entries
        → slots.new.entries ≡ set_value_at slots.old.entries place (with_change (change_of change) slot) }
    ensures wake { (number : ℕ) (slot : Slot) → IsAt place number slot slots.old.entries
        → result ≡ wake_in (with_change (change_of change) slot).session }
    ensures room { spare slots.new ≡ spare slots.old }
{
    match slots.get_index_mut(place) {
        Some(slot) => {
            slot.change(change);
            slot.wake()
        }
        None => None,
    }
}

/// Makes the session at a place lead to this one.
pub(crate) fn lead(slots: &mut Slots, place: usize, next: Option<u64>)
    ensures entries { (number : ℕ) (slot : Slot) → IsAt place number slot slots.old.entries
        → slots.new.entries ≡ set_value_at slots.old.entries place (leading_to next slot) }
    ensures room { spare slots.new ≡ spare slots.old }
{
    if let Some(slot) = slots.get_index_mut(place) {
        slot.next = next;
    }
}

/// Leaves a place empty.
pub(crate) fn empty(slots: &mut Slots, place: usize)
    ensures entries { (number : ℕ) (slot : Slot) → IsAt place number slot slots.old.entries
        → slots.new.entries ≡ set_value_at slots.old.entries place (emptied slot) }
    ensures room { spare slots.new ≡ spare slots.old }
{
    if let Some(slot) = slots.get_index_mut(place) {
        slot.session = None;
        slot.next = None;
    }
}

/// The slot of a number, with the number as it is kept.
pub(crate) fn stand(slots: &Slots, number: u64) -> Option<(&u64, &Slot)>
    ensures none { IfNone result (lookup (nat_eq number) slots.now.entries ≡ None) }
    ensures number { IfSome result (λ x. x.0.now ≡ number) }
    ensures found { IfSome result (λ x. (place : ℕ) × IsAt place number x.1.now slots.now.entries) }
{
    match slots.get_full(&number) {
        Some((_place, number, slot)) => Some((number, slot)),
        None => None,
    }
}
