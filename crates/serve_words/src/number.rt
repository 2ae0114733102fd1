//! Numbers of ASCII digits.

ghost use Rattle.std.specs.Prelude.{◌≡◌, ◌≤◌, IfSome};
ghost use Rattle.std.specs.Char.{is_ascii_digit};
ghost use Rattle.std.specs.List.{list_all};
ghost use Rattle.serve_words.specs.Options.{number};

/// Whether each byte is an ASCII digit.
fn are_digits(text: &[u8]) -> bool
    ensures { result ≡ list_all is_ascii_digit text.now }
{
    text.iter().all(|byte| byte.is_ascii_digit())
}

#[tactic(auto, using(crate::proofs::NumberLemmas::number_in, crate::proofs::NumberLemmas::number_low, crate::proofs::NumberLemmas::number_high, crate::proofs::NumberLemmas::number_err))]
/// A number of ASCII digits, leading zeros allowed, from the least to the most.
pub fn number(text: &str, least: u64, most: u64) -> Option<u64>
    ensures number { result ≡ number least most text.now }
    ensures least { IfSome result (λ n. least ≤ n) }
    ensures most { IfSome result (λ n. n ≤ most) }
{
    if !are_digits(text.as_bytes()) {
        return None;
    }
    match text.parse::<u64>() {
        Ok(value) => {
            if value < least {
                None
            } else if value > most {
                None
            } else {
                Some(value)
            }
        }
        Err(_) => None,
    }
}
