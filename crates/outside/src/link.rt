//! A connection. Each link counts its faults, its Ends and its Laters.
ghost use Rattle.std.specs.Prelude.{◌≡◌, ℕ, ◌<◌, ◌≤◌, [], ◌∷◌, List, length, Option};
ghost use Rattle.outside.specs.Devices.{Rose};
ghost use Rattle.outside.specs.Links.{HeardFits, SentFits, laters_after, mark_heard, marks_sent};
ghost use Rattle.outside.specs.Tapes.{Mark, Tells};

/// What came of a reading.
#[derive(Clone, Copy, Debug, PartialEq, Eq)]
pub enum Heard {
    /// So many bytes stand at the front of the buffer, at least one.
    Bytes(usize),
    /// Nothing came for a while.
    Quiet,
    /// No more bytes will come.
    End,
    Failed,
}

/// What came of a sending.
#[derive(Clone, Copy, Debug, PartialEq, Eq)]
pub enum Sent {
    /// So many bytes of the front were taken, at least one.
    Taken(usize),
    /// No byte can be taken now.
    Later,
    Failed,
}

/// A connection to a client. A link may tell its tape, to which each reading adds one mark, and each sending but one that is
/// answered `Later`.
pub trait Link {
    ghost tape: { Self → Option (List Mark) };

    ghost faults: { Self → ℕ };

    ghost ends: { Self → ℕ };

    /// How often a sending was answered `Later`.
    ghost laters: { Self → ℕ };

    /// Reads into the buffer, which isn't empty.
    fn recv(&mut self, into: &mut [u8]) -> Heard
        requires { 0 < length into.old }
        ensures fits { HeardFits result into.new }
        ensures tape { Tells Mark (tape self.old) (tape self.new) (mark_heard result into.new ∷ []) }
        ensures kept { faults self.old ≤ faults self.new }
        ensures cause { result ≡ Heard.Failed → Rose (faults self.old) (faults self.new) }
        ensures ends_kept { ends self.old ≤ ends self.new }
        ensures ended { result ≡ Heard.End → Rose (ends self.old) (ends self.new) }
        ensures laters { laters self.new ≡ laters self.old };

    /// Sends some of the bytes, of which there is at least one. A link that waits until it can take some never answers `Later`.
    fn send(&mut self, from: &[u8]) -> Sent
        requires { 0 < length from.now }
        ensures fits { SentFits result from.now }
        ensures tape { Tells Mark (tape self.old) (tape self.new) (marks_sent result from.now) }
        ensures kept { faults self.old ≤ faults self.new }
        ensures cause { result ≡ Sent.Failed → Rose (faults self.old) (faults self.new) }
        ensures ends_kept { ends self.old ≤ ends self.new }
        ensures laters { laters self.new ≡ laters_after result (laters self.old) };

    /// Says that something may wait for the connection at that line. Takes no memory.
    fn ring(&mut self, line: u32)
        ensures tape { tape self.new ≡ tape self.old }
        ensures faults { faults self.new ≡ faults self.old }
        ensures ends { ends self.new ≡ ends self.old }
        ensures laters { laters self.new ≡ laters self.old };
}
