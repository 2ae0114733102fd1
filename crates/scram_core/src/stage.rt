//! Where in a client's text a reader stands. The grammar is RFC 5802, section 7.

/// Which of a client's two texts.
#[derive(Clone, Copy)]
pub enum Message {
    /// client-first-message.
    First,
    /// client-final-message.
    Last,
}

/// A run of characters, and what ends it.
#[derive(Clone, Copy)]
pub enum Run {
    /// `authzid` up to an `@` that a character stands before.
    Local,
    /// `authzid` after that `@`, up to a comma.
    Host,
    /// `username`, up to a comma.
    Name,
    /// The value of a further attribute, up to a comma or, in the first text, its end.
    Value(Message),
}

/// What is still missing of a character of several bytes (RFC 3629, 4) or of an escape.
#[derive(Clone, Copy)]
pub enum Missing {
    OneTail,
    TwoTails,
    ThreeTails,
    /// After %xE0, which a byte from %xA0 follows.
    AfterE0,
    /// After %xED, which a byte to %x9F follows.
    AfterEd,
    /// After %xF0, which a byte from %x90 follows.
    AfterF0,
    /// After %xF4, which a byte to %x8F follows.
    AfterF4,
    /// `2C` or `3D`.
    Escape,
    /// `C`.
    EscapeC,
    /// `D`.
    EscapeD,
}

/// How far base64 has come in its group of four (RFC 4648, 4). A group may end by `=` where the bits after
/// its last whole byte are zero.
#[derive(Clone, Copy)]
pub enum Quad {
    Start,
    One,
    Two,
    /// Two characters, which `==` may follow.
    TwoEndable,
    Three,
    /// Three characters, which `=` may follow.
    ThreeEndable,
    /// The second `=` is missing.
    Padding,
    Padded,
}

/// Which attribute base64 stands in.
#[derive(Clone, Copy)]
pub enum Coded {
    /// `c=`.
    Binding,
    /// `p=`.
    Proof,
}

/// What may come next.
#[derive(Clone, Copy)]
pub enum Stage {
    /// `gs2-cbind-flag`.
    Flag,
    /// The comma after it.
    FlagEnds,
    /// `a`, or the comma that ends `gs2-header`.
    Authzid,
    AuthzidEquals,
    NameKey,
    NameEquals,
    /// The first character of a run.
    Begins(Run),
    /// A further character of a run, or its end.
    Goes(Run),
    /// The rest of a character of a run.
    Within(Run, Missing),
    NonceKey(Message),
    NonceEquals(Message),
    /// The first byte of a nonce.
    NonceBegins(Message),
    /// So many further bytes of a nonce, or fewer, and its end.
    Nonce(Message, u16),
    /// The letter of a further attribute, or of the proof.
    Letter(Message),
    LetterEquals(Message),
    BindingKey,
    BindingEquals,
    ProofEquals,
    Base64(Coded, Quad),
}
