//! The id by which a client resumes its session (XEP-0198, 3 and 5).

ghost use Rattle.std.specs.Prelude.{◌≡◌, ◌^◌, ◌<◌, ◌≤◌, ◌++◌, ℕ, List, length, slice_index, Some, IfSome, IsTrue, ◌↔◌, OnOk, OnErr};
ghost use Rattle.std.specs.Char.{digit_char};
ghost use Rattle.std.specs.Fmt.{decimal};
ghost use Rattle.sm_resume.specs.Spelling.{AreDigits, IsPlain, IsResumeId, hexadecimal, number_of, spelling};

use std::alloc::AllocError;
use std::str;

/// The refusal of a call that found no memory.
pub type NoMemory = AllocError;

// The bytes of the dash and the 32 digits that end an id.
const TAIL_LEN: usize = 33;

/// The id of a session that can be resumed: its number, and sixteen random bytes that no one guesses.
#[derive(Clone, Copy, Debug, PartialEq, Eq)]
pub struct ResumeId {
    pub session: u64,
    pub digits: [u8; 16],
}

impl ResumeId {
    /// The id that a text spells. None exactly where it spells none: the number has no leading zero
    /// and fits 64 bits, and the 32 digits are lower-case.
    pub fn read(bytes: &[u8]) -> Option<ResumeId>
        ensures spelt { IfSome result (λ id. IsResumeId id × (spelling id ≡ bytes.now)) }
        ensures found { (id : ResumeId) → IsResumeId id → spelling id ≡ bytes.now
            → result ≡ Some id }
    {
        let start = bytes.len().checked_sub(TAIL_LEN)?;
        let (number, tail) = bytes.split_at(start);
        if tail[0] != b'-' {
            return None;
        }
        let session = read_number(number)?;
        let digits = read_digits(&tail[1..])?;
        Some(ResumeId { session, digits })
    }

    /// Appends the spelling of the id, whole or not at all.
    #[tactic(auto, unfolding(crate::specs::Spelling::spelling))]
    pub fn write(&self, out: &mut Vec<u8>) -> Result<(), NoMemory>
        ensures ok { OnOk result (out.new.items ≡ out.old.items ++ spelling self.now) }
        ensures err { OnErr result (out.new.items ≡ out.old.items) }
    {
        let alloc = *out.allocator();
        let mut text = format!(in alloc; "{}-", self.session)?.into_bytes();
        let digits = digits_of(&self.digits);
        text.extend_from_slice(&digits)?;
        out.extend_from_slice(text.as_slice())
    }
}

/// The number that a text spells in decimal without leading zeros. None exactly where it spells none of 64 bits.
pub fn read_number(text: &[u8]) -> Option<u64>
    ensures number { result ≡ number_of text.now }
    ensures spelt { IfSome result (λ n. decimal n ≡ text.now) }
    ensures found { (n : ℕ) → n < 2 ^ 64 → decimal n ≡ text.now → result ≡ Some n }
{
    if !is_plain(text) {
        return None;
    }
    match str::from_utf8(text) {
        Ok(written) => written.parse().ok(),
        Err(_) => None,
    }
}

// Whether a text has no leading plus, which `parse` would take, and no leading zero.
fn is_plain(text: &[u8]) -> bool
    ensures { IsTrue result ↔ IsPlain text.now }
{
    match text.first() {
        Some(b'0') => text.len() == 1,
        Some(b'+') => false,
        _ => true,
    }
}

/// The sixteen bytes that a text spells in lower-case hexadecimal. None exactly where it spells none.
pub fn read_digits(text: &[u8]) -> Option<[u8; 16]>
    ensures spelt { IfSome result (λ digits. AreDigits digits × (hexadecimal digits ≡ text.now)) }
    ensures found { (digits : List ℕ) → AreDigits digits → hexadecimal digits ≡ text.now
        → result ≡ Some digits }
{
    if text.len() != 32 {
        return None;
    }
    let mut digits = [0u8; 16];
    for i in 0..16 {
        let high = half(text[2 * i])?;
        let low = half(text[2 * i + 1])?;
        digits[i] = high * 16 + low;
    }
    Some(digits)
}

// The half of a byte that a lower-case hexadecimal digit stands for.
fn half(digit: u8) -> Option<u8>
    ensures spelt { IfSome result (λ d. (d < 16) × (digit_char d ≡ digit)) }
    ensures found { (d : ℕ) → d < 16 → digit_char d ≡ digit → result ≡ Some d }
{
    match digit {
        b'0'..=b'9' => Some(digit - b'0'),
        b'a'..=b'f' => Some(digit - b'a' + 10),
        _ => None,
    }
}

/// The 32 lower-case hexadecimal digits of sixteen bytes.
pub fn digits_of(bytes: &[u8; 16]) -> [u8; 32]
    ensures { result ≡ hexadecimal bytes.now }
{
    let mut text = [0u8; 32];
    // There is room for two digits a byte, so it can't fail.
    let _ = hex::encode_to_slice(bytes, &mut text);
    text
}
