//! Where in the grammar the bytes so far lead.

ghost use Rattle.std.specs.Prelude.{◌≡◌, false};
ghost use Rattle.stream_lex.specs.declared.stages.Stage.TheVariants.{Start};
ghost use Rattle.stream_lex.specs.declared.characters.Pending.TheVariants as pending;

use crate::characters::Pending;

/// Which quote a value stands between.
#[derive(Clone, Copy)]
pub enum Quote {
    Double,
    Single,
}

/// Where characters and references stand: in words, or in an attribute's value.
#[derive(Clone, Copy)]
pub enum Context {
    Words,
    Value(Quote),
}

/// Whose name it is: of a start tag, of an end tag, of an attribute.
#[derive(Clone, Copy)]
pub enum NameOwner {
    StartTag,
    EndTag,
    Attribute,
}

/// Which part of a qualified name: up to the colon (or all of it), or after the colon.
#[derive(Clone, Copy)]
pub enum Half {
    Prefix,
    Local,
}

/// How many brackets `]` have just been read: one, or two and more.
#[derive(Clone, Copy)]
pub enum Brackets {
    One,
    Many,
}

/// The base of a character reference.
#[derive(Clone, Copy)]
pub enum Base {
    Decimal,
    Hexadecimal,
}

/// What has come of the name of a reference.
#[derive(Clone, Copy)]
pub enum EntityName {
    Empty,
    A,
    Am,
    Amp,
    Ap,
    Apo,
    Apos,
    L,
    Lt,
    G,
    Gt,
    Q,
    Qu,
    Quo,
    Quot,
}

/// A part of the XML declaration.
#[derive(Clone, Copy)]
pub enum Info {
    Version,
    Encoding,
    Standalone,
}

/// A fixed word, or the rest of one whose first letter chose it.
#[derive(Clone, Copy)]
pub enum Literal {
    /// `xml`
    Xml,
    /// `version`, `encoding` or `standalone` after its first letter
    Name(Info),
    /// `1.`
    Major(Quote),
    /// `utf-8`, in any case
    Charset(Quote),
    /// `yes` after the `y`
    Yes(Quote),
    /// `no` after the `n`
    No(Quote),
    /// `CDATA[`
    Cdata,
}

/// Where in the grammar a text stands, between two characters.
#[derive(Clone, Copy)]
pub enum Stage {
    /// At offset 0.
    Start,
    /// After a `<` at offset 0.
    StartLess,
    /// Before the first tag.
    Prolog,
    /// After a `<` before the first tag.
    PrologLess,
    /// In a fixed word, of which so many bytes have come.
    Fixed(Literal, u8),
    /// After `<?xml`.
    XmlSeen,
    /// After `<?xml` and white space.
    XmlSpace,
    /// After the name of a part of the declaration.
    InfoName(Info),
    /// After its `=`.
    InfoEquals(Info),
    /// Before the first digit of the minor version.
    MinorFirst(Quote),
    /// After a digit of the minor version.
    Minor(Quote),
    /// After the name of the encoding.
    CharsetSeen(Quote),
    /// Before `yes` or `no`.
    Choice(Quote),
    /// After `yes` or `no`.
    Chosen(Quote),
    /// After the value of a part of the declaration.
    InfoEnds(Info),
    /// After such a value and white space.
    InfoSpace(Info),
    /// After the `?` that ends the declaration.
    DeclarationMark,
    /// In words or in a value.
    Text(Context),
    /// In words, after brackets.
    Bracketed(Brackets),
    /// After a `<` in content.
    Less,
    /// After `<!` in content.
    Bang,
    /// In a CDATA section.
    Cdata,
    /// In a CDATA section, after brackets.
    CdataBracketed(Brackets),
    /// After `&` and so much of a name.
    Reference(Context, EntityName),
    /// After `&#`.
    Hash(Context),
    /// After `&#x`.
    HashX(Context),
    /// After the digits of a number in this base that stand for this value.
    Number(Context, Base, u32),
    /// After `</`.
    EndTagMark,
    /// In a name.
    Name(NameOwner, Half),
    /// After the colon of a name.
    Colon(NameOwner),
    /// In a tag, after white space.
    InTag,
    /// In a tag, after a value.
    ValueEnded,
    /// After the `/` of a tag.
    EmptyTagMark,
    /// After the name of an attribute and white space.
    AttrNamed,
    /// After the `=` of an attribute.
    ValueAwaited,
    /// After the name of an end tag and white space.
    EndTagNamed,
}

/// Where in the grammar the bytes so far lead.
#[derive(Clone, Copy)]
pub struct State {
    /// Where the whole characters lead.
    pub stage: Stage,
    /// The bytes of a character that is not whole yet.
    pub pending: Pending,
    /// Whether the last character was a carriage return, so that a line feed now belongs to it.
    pub returned: bool,
}

impl State {
    /// Before the first byte.
    pub fn start() -> State
        ensures { result ≡ record { stage = Start; pending = pending.Nothing; returned = false } }
    {
        State::between(Stage::Start, false)
    }

    /// At a stage, between two characters.
    pub fn between(stage: Stage, returned: bool) -> State
        ensures { result ≡ record { stage = stage; pending = pending.Nothing; returned = returned } }
    {
        State {
            stage,
            pending: Pending::Nothing,
            returned,
        }
    }
}
