//! Cuts bytes at the first of a kind.
ghost use Rattle.std.specs.Prelude.{◌≡◌};
ghost use Rattle.std.specs.Option.{option_copied};
ghost use Rattle.jid_core.specs.Cuts.{before, after};

/// What stands before the first such byte, and what stands after it where there is one. Without one all stands before.
pub fn cut_at(byte: u8, bytes: &[u8]) -> (&[u8], Option<&[u8]>)
    ensures before { result.0.now ≡ before byte bytes.now }
    ensures after { option_copied result.1 ≡ after byte bytes.now }
{
    for (i, b) in bytes.iter().enumerate() {
        if *b == byte {
            return (&bytes[..i], Some(&bytes[i + 1..]));
        }
    }
    (bytes, None)
}
