//! What holds of true numbers and their counts, whatever code counts them: each function's contract
//! is a law, and its body is empty.

ghost use Rattle.std.specs.Prelude.{◌≡◌, ℕ, ◌+◌, ◌*◌, ◌^◌, ◌<◌, ◌≤◌, ◌↔◌, Some, None};
ghost use Rattle.std.specs.Option.{option_map};
ghost use Rattle.sm_counters.specs.Numbers.{IsNumber, count_of, distance, number};

/// In a window of at most 2^32 numbers `number` finds the one that lies there and has the count; there
/// is no second one, and it finds none where there is none.
pub fn number_is_the_one()
    ensures found { (a q h n : ℕ) → q < a + 2 ^ 32 → (number a q h ≡ Some n) ↔ IsNumber a q h n }
    ensures absent { (a q h n : ℕ) → number a q h ≡ None → IsNumber a q h n → ⊥ }
    ensures unique { (a q h m n : ℕ) → q < a + 2 ^ 32 → IsNumber a q h m → IsNumber a q h n → m ≡ n }
{}

/// Fewer than 2^32 numbers from `a` on are never mistaken for those of another wrap: each is found by
/// its own count.
pub fn no_wrap_is_mistaken()
    ensures { (a n q : ℕ) → a ≤ n → n ≤ q → q < a + 2 ^ 32 → number a q (count_of n) ≡ Some n }
{}

/// Where a window and a count move together, the number that is found moves with them. Moved by whole
/// wraps, the window has the same count at the same place.
pub fn numbers_move_together()
    ensures moved { (a q h k : ℕ) → q < a + 2 ^ 32 → h < 2 ^ 32
        → number (a + k) (q + k) (count_of (h + k)) ≡ option_map (λ n. n + k) (number a q h) }
    ensures wrapped { (a q h wraps : ℕ) → q < a + 2 ^ 32 → h < 2 ^ 32
        → number (a + wraps * 2 ^ 32) (q + wraps * 2 ^ 32) h
        ≡ option_map (λ n. n + wraps * 2 ^ 32) (number a q h) }
{}

/// No count is ahead of itself, and one stanza more puts a count one further ahead.
pub fn distance_counts()
    ensures itself { (c : ℕ) → c < 2 ^ 32 → distance c c ≡ 0 }
    ensures one_more { (from to : ℕ) → from < 2 ^ 32 → to < 2 ^ 32
        → distance from (count_of (to + 1)) ≡ count_of (distance from to + 1) }
{}
