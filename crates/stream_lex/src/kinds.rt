//! The kinds of characters that the grammar tells apart.

ghost use Rattle.std.specs.Prelude.{◌≡◌};
ghost use Rattle.stream_lex.specs.grammar.Kinds.{ascii_kind};

/// What a character is, for the grammar. A letter that some fixed word or reference waits for has its own
/// kind; the other characters below 128 come after it, and then those from 128 on.
#[derive(Clone, Copy)]
pub enum Kind {
    Space,
    Bang,
    Quotation,
    Number,
    Ampersand,
    Apostrophe,
    Slash,
    Colon,
    Semicolon,
    Less,
    Equals,
    Greater,
    Question,
    LeftBracket,
    RightBracket,
    SmallA,
    SmallE,
    SmallG,
    SmallL,
    SmallM,
    SmallN,
    SmallO,
    SmallP,
    SmallQ,
    SmallS,
    SmallT,
    SmallU,
    SmallV,
    SmallX,
    SmallY,
    /// Another letter that is a hexadecimal digit.
    HexLetter,
    /// Another letter, or `_`.
    Letter,
    Digit,
    /// `-` or `.`
    Mark,
    /// Another character below 128 that XML allows.
    Plain,
    /// One that XML does not allow.
    Control,
    /// From 128 on: one that may begin a name.
    WideStart,
    /// One that may stand in a name, but not begin it.
    WideName,
    /// Another that XML allows.
    WideOther,
    /// One that XML does not allow.
    WideRefused,
}

/// What a byte below 128 is.
#[tactic(auto, unfolding(crate::specs::grammar::Kinds::ascii_kind))]
pub fn ascii_kind_of(byte: u8) -> Kind
    ensures { result ≡ ascii_kind byte }
{
    match byte {
        b' ' | b'\t' | b'\n' | b'\r' => Kind::Space,
        b'!' => Kind::Bang,
        b'"' => Kind::Quotation,
        b'#' => Kind::Number,
        b'&' => Kind::Ampersand,
        b'\'' => Kind::Apostrophe,
        b'/' => Kind::Slash,
        b':' => Kind::Colon,
        b';' => Kind::Semicolon,
        b'<' => Kind::Less,
        b'=' => Kind::Equals,
        b'>' => Kind::Greater,
        b'?' => Kind::Question,
        b'[' => Kind::LeftBracket,
        b']' => Kind::RightBracket,
        b'a' => Kind::SmallA,
        b'e' => Kind::SmallE,
        b'g' => Kind::SmallG,
        b'l' => Kind::SmallL,
        b'm' => Kind::SmallM,
        b'n' => Kind::SmallN,
        b'o' => Kind::SmallO,
        b'p' => Kind::SmallP,
        b'q' => Kind::SmallQ,
        b's' => Kind::SmallS,
        b't' => Kind::SmallT,
        b'u' => Kind::SmallU,
        b'v' => Kind::SmallV,
        b'x' => Kind::SmallX,
        b'y' => Kind::SmallY,
        b'A'..=b'F' | b'b'..=b'f' => Kind::HexLetter,
        b'G'..=b'Z' | b'h'..=b'z' | b'_' => Kind::Letter,
        b'0'..=b'9' => Kind::Digit,
        b'-' | b'.' => Kind::Mark,
        0..=31 => Kind::Control,
        _ => Kind::Plain,
    }
}
