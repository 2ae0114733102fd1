//! What follows from the contract of [`replay`].
ghost use Rattle.std.specs.Prelude.{◌≡◌, ◌⊎◌, ℕ, List, Option, Some, None};
ghost use Rattle.replay_script.specs.Valid.{IsValid};
ghost use Rattle.script_play.specs.Runs.{Replayed};

use crate::replay::replay;
use crate::status::Status;
use outside::{CleanSink, CleanSource};
use std::alloc::Global;

/// The valid scripts are those that can be played: one whose play came to its end is valid, and one that was refused at a line is not.
pub fn played_scripts_are_valid()
    ensures done { (bytes : List ℕ) (left_now took took_now : Option (List ℕ))
        → Replayed (Some bytes) left_now took took_now Status.Done → IsValid bytes }
    ensures refused { (bytes : List ℕ) (left_now took took_now : Option (List ℕ)) (n : ℕ)
        → Replayed (Some bytes) left_now took took_now (Status.Script n) → IsValid bytes → ⊥ }
{}

/// Over a source and a sink that never fail, a valid script is played to its end, but for want of memory.
pub fn valid_scripts_are_played(
    alloc: Global,
    source: &mut CleanSource,
    sink: &mut CleanSink,
) -> Status
    requires valid { IsValid source.old }
    ensures ends { (result ≡ Status.Done) ⊎ (result ≡ Status.NoMemory) }
    ensures replayed { Replayed (Some source.old) (Some source.new) None None result }
{
    replay(alloc, source, sink)
}
