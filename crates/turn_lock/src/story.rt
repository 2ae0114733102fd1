//! What the lock knows of the value that it guards.
ghost use Rattle.std.specs.Prelude.{ℕ, List};

/// A value with a root, which no turn changes, that stands for a list of entries from that root.
/// Each entry names its line, the number of a pass.
pub trait Storied {
    /// One turn's entry.
    type Entry;

    /// Plain data that no turn changes.
    type Root;

    ghost root: { Self → Self.Root };

    ghost story: { Self → List Self.Entry };

    ghost line: { Self.Entry → ℕ };
}
