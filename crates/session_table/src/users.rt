//! The sessions of a user, one after another.

ghost use Rattle.std.specs.Prelude.{◌≡◌, ℕ, length};
ghost use Rattle.std.specs.Iterator.{at_most};
ghost use Rattle.std.specs.Map.Iter.{TakesFirst, deref_pair};
ghost use Rattle.std.specs.Option.{option_copied};
ghost use Rattle.session_table.specs.Indexes.{AreChained, IsOnWay, from, present};
ghost use Rattle.session_table.specs.Tables.{number_at, of_user};

use crate::chains::Heads;
use crate::session::{Session, local_of};
use crate::slots::{Slots, stand};
use jid_core::Jid;
use std::marker::Model;

/// The sessions of a user with their numbers, in the order of these.
#[derive(Drop)]
pub struct OfUser<'a> {
    slots: &'a Slots,
    local: Option<&'a [u8]>,
    next: Option<u64>,
}

impl<'a> Model for OfUser<'a> {
    ghost use Rattle.std.specs.Prelude.{ℕ, List};
    ghost use Rattle.std.specs.Option.{option_copied};
    ghost use Rattle.session_table.specs.Indexes.{IsOnWay, from, present};
    ghost use Rattle.session_table.specs.Sessions.{SessionRecord};
    ghost use Rattle.session_table.specs.Tables.{of_user};

    ghost Value = { List (ℕ × SessionRecord) };

    ghost view = { λ u. of_user (option_copied u.local) (present (from u.next u.slots.now.entries)) };

    ghost invariant = { λ u. IsOnWay (option_copied u.local) u.slots.now.entries u.next };
}

// The next session of a user.
fn advance<'a>(
    slots: &'a Slots,
    local: Option<&[u8]>,
    next: &mut Option<u64>,
) -> Option<(&'a u64, &'a Session)>
    requires { IsOnWay (option_copied local) slots.now.entries next.old }
    ensures way { IsOnWay (option_copied local.entry) slots.now.entries next.new }
    ensures items { TakesFirst deref_pair (of_user (option_copied local.entry) (present (from next.old slots.now.entries))) result
        (of_user (option_copied local.entry) (present (from next.new slots.now.entries))) }
{
    while let Some(number) = *next {
        let Some((number, slot)) = stand(slots, number) else {
            return None;
        };
        *next = slot.next;
        if let Some(session) = &slot.session {
            if session.is_of(local) {
                return Some((number, session));
            }
        }
    }
    None
}

impl<'a> OfUser<'a> {
    pub(crate) fn new(slots: &'a Slots, heads: &Heads, local: Option<&'a [u8]>) -> OfUser<'a>
        requires { (made : ℕ) × AreChained heads.now.key slots.now.entries heads.now.firsts.entries made }
        ensures { result ≡ of_user (option_copied local.entry) (present slots.now.entries) }
    {
        let next = heads.firsts.get(&heads.hash_of(local)).copied();
        OfUser { slots, local, next }
    }
}

impl<'a> Iterator for OfUser<'a> {
    type Item = (&'a u64, &'a Session);

    ghost next_gives = { TakesFirst deref_pair };

    ghost remaining = { λ s. at_most (length s) };

    fn next(&mut self) -> Option<(&'a u64, &'a Session)> {
        advance(self.slots, self.local, &mut self.next)
    }
}

/// The first session at an address.
pub(crate) fn find_at(slots: &Slots, heads: &Heads, address: &Jid) -> Option<u64>
    requires { (made : ℕ) × AreChained heads.now.key slots.now.entries heads.now.firsts.entries made }
    ensures { result ≡ number_at address.now (present slots.now.entries) }
{
    for (number, session) in OfUser::new(slots, heads, local_of(address)) {
        if session.is_at(address) {
            return Some(*number);
        }
    }
    None
}
