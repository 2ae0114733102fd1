//! What the changes of a table mean for the session of each number: each function's contract is a law, and its
//! body is empty.

ghost use Rattle.std.specs.Prelude.{◌≡◌, ℕ, ◌+◌, nat_eq, Some, None, if◌then◌else◌};
ghost use Rattle.std.specs.Option.{option_map};
ghost use Rattle.jid_core.specs.Addresses.{Address};
ghost use Rattle.session_table.specs.Sessions.{SessionRecord, begun};
ghost use Rattle.session_table.specs.Tables.{Rises, TableRecord, bound, changed, session_of, without};

/// A session that changes is seen to change under its number, and under no other.
pub fn changes_by_number()
    ensures { (s n : ℕ) (change : SessionRecord → SessionRecord) (t : TableRecord)
        → session_of n (changed s change t) ≡ (if nat_eq s n then option_map change (session_of n t) else session_of n t) }
{}

/// A session that is bound has a number that none had, and those that are there stay as they are.
pub fn bindings_by_number()
    ensures { (w n : ℕ) (address : Address) (t : TableRecord) → Rises 0 t.sessions t.made
        → session_of n (bound w address t)
        ≡ (if nat_eq (t.made + 1) n then Some (begun (t.made + 1) address w) else session_of n t) }
{}

/// A session that is removed is there no more, and the others stay as they are.
pub fn removals_by_number()
    ensures { (s n : ℕ) (t : TableRecord) → Rises 0 t.sessions t.made
        → session_of n (without s t) ≡ (if nat_eq s n then None else session_of n t) }
{}
