//! What is kept of one user.
ghost use Rattle.std.specs.Prelude.{◌≡◌, ◌<◌, ◌≤◌, ◌+◌, [], length, is_some, IfSome, OnOk};
ghost use Rattle.contact_table.specs.Orders.{with_user};
ghost use Rattle.contact_table.specs.Marks.{asked_by, asking, empty_sheet, putting, seeing, seen_by, taking_out};
ghost use Rattle.contact_table.specs.Folders.{IsNamed, places, sheet};

use crate::contacts::{put, take_out};
use crate::flag::{Flag, mark};
use crate::order::Order;
use hash_keys::HashKey;
use jid_core::{Jid, Part};
use stanza_model::{Contact, Roster};
use stanza_tree::NoMemory;
use std::alloc::Global;

/// What is kept of one user.
#[derive(Drop)]
pub(crate) struct Folder {
    pub(crate) roster: Roster,
    pub(crate) who_sees: Order,
    pub(crate) whom_sees: Order,
    pub(crate) who_asked: Order,
    // Copies of the user's name, which the orders of others take without a copy of their own.
    pub(crate) names: Vec<Vec<u8>>,
}

// A name comes into an order, or goes.
fn set_user(order: &mut Order, user: &Part, name: Option<Vec<u8>>)
    requires named { IfSome name (λ n. n.items ≡ user.now) }
    requires room { 0 < order.old.spare }
    ensures users { order.new.users ≡ with_user user.now (is_some name) order.old.users }
    ensures room { order.old.spare ≤ order.new.spare + 1 }
{
    match name {
        Some(name) => order.add(name),
        None => order.take_out(user),
    }
}

fn fill(alloc: Global, names: &mut Vec<Vec<u8>>, user: &Part, count: usize) -> Result<(), NoMemory>
    ensures full { OnOk result (count ≤ length names.new.items) }
    ensures kept { length names.old.items ≤ length names.new.items }
    ensures named { IsNamed user.now names.old.items → IsNamed user.now names.new.items }
{
    for _number in names.len()..count {
        names.push(user.bytes().to_vec(alloc)?)?;
    }
    Ok(())
}

impl Folder {
    pub(crate) fn new(alloc: Global, key: HashKey, owner: Jid) -> Folder
        ensures owner { result.roster.owner ≡ owner }
        ensures sheet { sheet result ≡ empty_sheet }
        ensures names { result.names.items ≡ [] }
    {
        Folder {
            roster: Roster {
                owner,
                contacts: Vec::new(alloc),
            },
            who_sees: Order::new(alloc, key),
            whom_sees: Order::new(alloc, key),
            who_asked: Order::new(alloc, key),
            names: Vec::new(alloc),
        }
    }

    /// Takes the memory for so many places more in each list, and so many copies of the user's name.
    pub(crate) fn reserve(
        &mut self,
        alloc: Global,
        user: &Part,
        count: usize,
    ) -> Result<(), NoMemory>
        ensures places { OnOk result (count ≤ places self.new) }
        ensures names { OnOk result (count ≤ length self.new.names.items) }
        ensures keeps_places { places self.old ≤ places self.new }
        ensures keeps_names { length self.old.names.items ≤ length self.new.names.items }
        ensures named { IsNamed user.now self.old.names.items → IsNamed user.now self.new.names.items }
        ensures sheet { sheet self.new ≡ sheet self.old }
        ensures owner { self.new.roster.owner ≡ self.old.roster.owner }
    {
        self.roster.contacts.reserve(count)?;
        self.who_sees.reserve(count)?;
        self.whom_sees.reserve(count)?;
        self.who_asked.reserve(count)?;
        fill(alloc, &mut self.names, user, count)
    }

    /// A contact as the user has set it.
    pub(crate) fn put(&mut self, contact: Contact)
        requires { 0 < places self.old }
        ensures sheet { sheet self.new ≡ putting contact (sheet self.old) }
        ensures places { places self.old ≤ places self.new + 1 }
        ensures names { self.new.names ≡ self.old.names }
        ensures owner { self.new.roster.owner ≡ self.old.roster.owner }
    {
        put(&mut self.roster.contacts, contact);
    }

    /// A contact that the user has no more.
    pub(crate) fn take_out(&mut self, address: &Jid)
        ensures sheet { sheet self.new ≡ taking_out address.now (sheet self.old) }
        ensures places { places self.old ≤ places self.new }
        ensures names { self.new.names ≡ self.old.names }
        ensures owner { self.new.roster.owner ≡ self.old.roster.owner }
    {
        take_out(&mut self.roster.contacts, address);
    }

    /// The user sees the presence of another, by its name, or no more where there is none.
    pub(crate) fn see(&mut self, domain: &Part, other: &Part, name: Option<Vec<u8>>)
        requires named { IfSome name (λ n. n.items ≡ other.now) }
        requires room { 0 < places self.old }
        ensures sheet { sheet self.new ≡ seeing domain.now other.now (is_some name) (sheet self.old) }
        ensures places { places self.old ≤ places self.new + 1 }
        ensures names { self.new.names ≡ self.old.names }
        ensures owner { self.new.roster.owner ≡ self.old.roster.owner }
    {
        mark(
            self.roster.contacts.as_mut_slice(),
            domain,
            other,
            Flag::Sees,
            name.is_some(),
        );
        set_user(&mut self.whom_sees, other, name);
    }

    /// Another sees the presence of the user, by its name, or no more where there is none.
    pub(crate) fn be_seen(&mut self, domain: &Part, other: &Part, name: Option<Vec<u8>>)
        requires named { IfSome name (λ n. n.items ≡ other.now) }
        requires room { 0 < places self.old }
        ensures sheet { sheet self.new ≡ seen_by domain.now other.now (is_some name) (sheet self.old) }
        ensures places { places self.old ≤ places self.new + 1 }
        ensures names { self.new.names ≡ self.old.names }
        ensures owner { self.new.roster.owner ≡ self.old.roster.owner }
    {
        mark(
            self.roster.contacts.as_mut_slice(),
            domain,
            other,
            Flag::Seen,
            name.is_some(),
        );
        set_user(&mut self.who_sees, other, name);
    }

    /// Whether the user has asked another.
    pub(crate) fn ask(&mut self, domain: &Part, other: &Part, yes: bool)
        ensures sheet { sheet self.new ≡ asking domain.now other.now yes (sheet self.old) }
        ensures places { places self.old ≤ places self.new }
        ensures names { self.new.names ≡ self.old.names }
        ensures owner { self.new.roster.owner ≡ self.old.roster.owner }
    {
        mark(
            self.roster.contacts.as_mut_slice(),
            domain,
            other,
            Flag::Asked,
            yes,
        );
    }

    /// Another has asked the user, by its name, or has not where there is none.
    pub(crate) fn be_asked(&mut self, other: &Part, name: Option<Vec<u8>>)
        requires named { IfSome name (λ n. n.items ≡ other.now) }
        requires room { 0 < places self.old }
        ensures sheet { sheet self.new ≡ asked_by other.now (is_some name) (sheet self.old) }
        ensures places { places self.old ≤ places self.new + 1 }
        ensures names { self.new.names ≡ self.old.names }
        ensures owner { self.new.roster.owner ≡ self.old.roster.owner }
    {
        set_user(&mut self.who_asked, other, name);
    }
}
