//! What the rules on messages have to know of the archives (XEP-0313, 2).

/// Where a message is kept, if it is.
#[derive(Clone, Copy, Debug, PartialEq, Eq)]
pub struct Keeping {
    /// The id that it gets in the archive of whom it is for.
    pub row: u64,
    /// How many bytes of text there is room for, once what it displaces is gone.
    pub free: u64,
    /// When, in milliseconds since 1970.
    pub moment: u64,
}
