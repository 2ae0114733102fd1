//! Characters from 128 on that words and values may have (XML 1.0 [2]), whole ones.

ghost use Rattle.std.specs.Prelude.{◌≡◌, ◌≤◌, [], ◌∷◌, take, length, true};
ghost use Rattle.stream_frames.specs.Runs.{Spells, is_wide};

/// Whether two bytes are such a character (RFC 3629, 4).
#[tactic(auto, using(crate::proofs::WideBytes::two_spell))]
fn are_two(a: u8, b: u8) -> bool
    ensures { result ≡ true → Spells is_wide (a ∷ b ∷ []) }
{
    (194 <= a && a <= 223) && (128 <= b && b <= 191)
}

/// Whether three bytes are such a character: no overlong form, no surrogate, and neither U+FFFE nor U+FFFF.
fn are_three(a: u8, b: u8, c: u8) -> bool
    ensures { result ≡ true → Spells is_wide (a ∷ b ∷ c ∷ []) }
{
    let low = if a == 224 { 160 } else { 128 };
    let high = if a == 237 { 159 } else { 191 };
    let is_one = (224 <= a && a <= 239) && ((low <= b && b <= high) && (128 <= c && c <= 191));
    is_one && !(a == 239 && (b == 191 && 190 <= c))
}

/// Whether four bytes are such a character: no overlong form, and none past U+10FFFF.
fn are_four(a: u8, b: u8, c: u8, d: u8) -> bool
    ensures { result ≡ true → Spells is_wide (a ∷ b ∷ c ∷ d ∷ []) }
{
    let low = if a == 240 { 144 } else { 128 };
    let high = if a == 244 { 143 } else { 191 };
    (240 <= a && a <= 244)
        && ((low <= b && b <= high) && ((128 <= c && c <= 191) && (128 <= d && d <= 191)))
}

/// The length of the one that comes first, or 0.
#[tactic(auto, using(crate::proofs::PlainLemmas::none_spelt))]
pub(crate) fn wide_length(bytes: &[u8]) -> usize
    ensures fits { result ≤ length bytes.now }
    ensures wide { Spells is_wide (take result bytes.now) }
{
    match bytes {
        [a, b, ..] if are_two(*a, *b) => 2,
        [a, b, c, ..] if are_three(*a, *b, *c) => 3,
        [a, b, c, d, ..] if are_four(*a, *b, *c, *d) => 4,
        _ => 0,
    }
}
