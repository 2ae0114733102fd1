//! The users of a house.
ghost use Rattle.std.specs.Prelude.{◌≡◌, ◌++◌, ◌∷◌, [], true, false, bytes_eq, IfOk};
ghost use Rattle.std.specs.List.{list_any};
ghost use Rattle.jid_core.specs.Names.{are_distinct};
ghost use Rattle.house_model.specs.Lookups.{user_place};

use hash_keys::HashKey;
use indexmap::IndexSet;
use jid_core::Part;
use stanza_tree::NoMemory;
use std::alloc::Global;
use std::marker::Model;

/// Users by the local parts of their addresses, in the order in which they were given. No two are the same.
#[derive(Drop)]
pub struct Users {
    parts: Vec<Part>,
    // Their names, in the same order.
    names: IndexSet<Vec<u8>, HashKey>,
}

impl Model for Users {
    ghost use Rattle.std.specs.Prelude.{◌≡◌, List, ℕ, map};

    ghost Value = { List (List ℕ) };

    ghost view = { λ u. u.parts.items };

    ghost invariant = { λ u. map (λ k. k.items) u.names.keys ≡ u.parts.items };
}

impl Users {
    /// These users, whose names are hashed by a key. Costs their names twice.
    pub fn of(alloc: Global, parts: &[Part], key: HashKey) -> Result<Users, NoMemory>
        requires { are_distinct parts.now ≡ true }
        ensures { IfOk result (λ users. users ≡ parts.now) }
    {
        let mut users = Users {
            parts: Vec::new(alloc),
            names: IndexSet::with_hasher(alloc, key),
        };
        for part in parts {
            users.add(alloc, part)?;
        }
        Ok(users)
    }

    // One user more, who is not among them.
    fn add(&mut self, alloc: Global, part: &Part) -> Result<(), NoMemory>
        requires { list_any (bytes_eq part.now) self.old ≡ false }
        ensures { IfOk result (λ _. self.new ≡ self.old ++ part.now ∷ []) }
    {
        let name = part.bytes().to_vec(alloc)?;
        let part = part.copy(alloc)?;
        self.parts.reserve(1)?;
        self.names.reserve(1)?;
        match self.names.insert(name) {
            Ok(_) => {}
            Err(_) => unreachable!(),
        }
        self.parts.push_reserved(part);
        Ok(())
    }

    /// Where they are kept.
    pub fn allocator(&self) -> &Global {
        self.parts.allocator()
    }

    /// The users.
    pub fn parts(&self) -> &[Part]
        ensures { result.now ≡ self.now }
    {
        self.parts.as_slice()
    }

    /// The place of a user among the users. Costs one look in a hash table.
    pub fn place_of(&self, user: &Part) -> Option<usize>
        ensures { result ≡ user_place user.now self.now }
    {
        self.names.get_index_of(user.bytes())
    }
}
