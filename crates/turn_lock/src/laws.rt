//! What follows from the contracts of several calls: the contract is the law, and the body is empty.

ghost use Rattle.std.specs.Prelude.{◌≡◌, ◌<◌, ℕ, List, length, Bool, IsTrue, All, Contains};
ghost use Rattle.turn_lock.specs.declared.lock.Turnstile.{Turnstile};
ghost use Rattle.turn_lock.specs.declared.tokens.Pass.{Pass};
ghost use Rattle.turn_lock.specs.Histories.{StartsWith};
ghost use Rattle.turn_lock.specs.Passes.{number_of, seen, mine, root_of, SeesStory};
ghost use Rattle.turn_lock.specs.Calls.{HasPlacesIn, HasEntriesIn, SeeOneHistory};
ghost use Rattle.turn_lock.specs.Calls.{Enters, Leaves, OneTurn, Closes};

/// A pass's own places are those, in what it has seen, of all entries whose line is its number.
pub fn own_places_are_of_the_number<T, E, R>()
    ensures places { (line : E → ℕ) (p : Pass T E R) → HasPlacesIn line (seen p) p }
    ensures entries { (line : E → ℕ) (p : Pass T E R) → HasEntriesIn line (seen p) p }
{}

/// In the list that `close` gives, the entries of a number are those that stand at its pass's own places. Each entry
/// stands at a place of one of the passes, and of no pass with another number.
pub fn closed_entries_stand_at_own_places<T, E, R>()
    ensures places { (line : E → ℕ) (passes : List (Pass T E R)) (log : List E) → Closes line passes log
        → All (HasPlacesIn line log) passes }
    ensures entries { (line : E → ℕ) (passes : List (Pass T E R)) (log : List E) → Closes line passes log
        → All (HasEntriesIn line log) passes }
    ensures whose { (line : E → ℕ) (passes : List (Pass T E R)) (log : List E) → Closes line passes log
        → (i : ℕ) → i < length log → (p : Pass T E R) × Contains passes p × Contains (mine line p) i }
    ensures alone { (line : E → ℕ) (passes : List (Pass T E R)) (log : List E) → Closes line passes log
        → (p q : Pass T E R) (i : ℕ) → Contains passes p → Contains passes q
        → Contains (mine line p) i → Contains (mine line q) i → number_of p ≡ number_of q }
{}

/// There is one history: of what two passes have seen, one is a beginning of the other.
pub fn passes_have_seen_one_history<T, E, R>()
    ensures { (line : E → ℕ) (passes : List (Pass T E R)) (log : List E) → Closes line passes log
        → All (λ p. All (SeeOneHistory p) passes) passes }
{}

/// What holds of the story of every value holds of what a pass has seen, from the lock's root. Each call leaves its
/// pass so (`told`), also an `enter` that is refused.
pub fn what_holds_of_stories_holds_of_what_was_seen<T, E, R>()
    ensures { (story : T → List E) (root : T → R) (test : R → List E → Bool)
        → ((x : T) → IsTrue (test (root x) (story x))) → (lock : Turnstile T E R) (p : Pass T E R)
        → SeesStory story root lock p → IsTrue (test (root_of root lock) (seen p)) }
{}

/// A turn, from `enter` to `leave`, is of a value that stands for a list that begins with what the pass had seen. It
/// adds one entry of the pass at its end, and that place to the pass's own. Only a pass without the mark has one.
pub fn a_turn_adds_one_entry<T, E, R>()
    ensures { (line : E → ℕ) (old held new : Pass T E R) (before after : List E) → Enters line old held before
        → Leaves line held new after → OneTurn line old new before after }
{}

/// After a meeting, the next turn of `into` stands behind all that `from` had seen, and so behind all of its entries.
pub fn turns_after_a_meeting_stand_later<T, E, R>()
    ensures { (line : E → ℕ) (from into new : Pass T E R) (before after : List E) → StartsWith (seen into) (seen from)
        → OneTurn line into new before after
        → StartsWith before (seen from) × All (λ i. i < length before) (mine line from) }
{}
