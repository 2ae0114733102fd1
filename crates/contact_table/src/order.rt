//! Users in the order in which they came.
ghost use Rattle.std.specs.Prelude.{◌≡◌, ◌<◌, ◌≤◌, ◌+◌, [], true, false, bytes_eq, map, OnOk};
ghost use Rattle.std.specs.List.{list_any};
ghost use Rattle.contact_table.specs.Orders.{with_user};

use hash_keys::HashKey;
use indexmap::IndexSet;
use jid_core::Part;
use stanza_tree::NoMemory;
use std::alloc::Global;
use std::marker::Model;

/// The users in one of the lists of a user, by the local parts of their addresses. None is there twice.
#[derive(Drop)]
pub struct Order {
    users: IndexSet<Vec<u8>, HashKey>,
}

impl Model for Order {
    ghost use Rattle.std.specs.Prelude.{map, IsTrue};
    ghost use Rattle.indexmap.specs.IndexSet.{spare};
    ghost use Rattle.jid_core.specs.Names.{are_distinct};
    ghost use Rattle.contact_table.specs.Orders.{OrderRecord};

    ghost Value = { OrderRecord };

    ghost view = { λ o. record { users = map (λ k. k.items) o.users.keys; spare = spare o.users } };

    ghost invariant = { λ o. IsTrue (are_distinct (map (λ k. k.items) o.users.keys)) };
}

impl Order {
    /// Takes no memory. Names are found by this key.
    pub(crate) fn new(alloc: Global, key: HashKey) -> Order
        ensures { result.users ≡ [] }
    {
        Order {
            users: IndexSet::with_hasher(alloc, key),
        }
    }

    /// Whether a user is among them. Costs one look in a hash table.
    pub fn has(&self, user: &Part) -> bool
        ensures { result ≡ list_any (λ x. bytes_eq x user.now) self.now.users }
    {
        self.users.contains(user.bytes())
    }

    /// The users' names, in their order.
    pub fn names(&self) -> &[Vec<u8>]
        ensures { map (λ k. k.items) result.now ≡ self.now.users }
    {
        self.users.as_slice()
    }

    /// Takes the memory for so many users more.
    pub(crate) fn reserve(&mut self, places: usize) -> Result<(), NoMemory>
        ensures room { OnOk result (places ≤ self.new.spare) }
        ensures keeps_room { self.old.spare ≤ self.new.spare }
        ensures users { self.new.users ≡ self.old.users }
    {
        self.users.reserve(places)
    }

    /// A user that is not there comes last. Takes no memory.
    pub(crate) fn add(&mut self, name: Vec<u8>)
        requires { 0 < self.old.spare }
        ensures users { self.new.users ≡ with_user name.items true self.old.users }
        ensures room { self.old.spare ≤ self.new.spare + 1 }
    {
        match self.users.insert(name) {
            Ok(_) => {}
            Err(_) => unreachable!(),
        }
    }

    /// Takes a user out.
    pub(crate) fn take_out(&mut self, user: &Part)
        ensures users { self.new.users ≡ with_user user.now false self.old.users }
        ensures room { self.old.spare ≤ self.new.spare }
    {
        self.users.shift_remove(user.bytes());
    }
}
