//! The lexical layer of XMPP streams (RFC 6120, section 11): bytes, one at a time, become tokens.
//!
//! The grammar is that of XML 1.0 (fifth edition) with the names of Namespaces in XML 1.0, without what
//! RFC 6120, 11.1 takes out of it. Whether tags match, how deep they nest and what prefixes mean is left to
//! the layer above.
#![tactic(auto)]

ghost use Rattle.std.specs.Prelude.{◌≡◌, ℕ, List, [], ◌∷◌, ◌++◌, true, None, IfNone, IfSome};
ghost use Rattle.stream_lex.specs.machine.Live.{is_live};
ghost use Rattle.stream_lex.specs.machine.Turns.{turn};
ghost use Rattle.stream_lex.specs.grammar.Reading.{IsTold};
ghost use Rattle.stream_lex.specs.machine.Leading.{tokens_of, Stands, IsTurned};

mod characters;
mod kinds;
mod laws;
mod literals;
mod names;
mod references;
mod stages;
mod steps;
mod turning;

pub use characters::Pending;
pub use stages::{
    Base, Brackets, Context, EntityName, Half, Info, Literal, NameOwner, Quote, Stage, State,
};
use turning::advance;

/// What the bytes of a stream say, one token after another.
///
/// A name is told byte by byte, as it comes; a character of words or of a value is told once it is whole.
#[derive(Clone, Copy, Debug, PartialEq, Eq)]
pub enum Token {
    /// The first byte of the name of a start tag or of an empty-element tag (XML 1.0, 3.1).
    TagOpens(u8),
    /// A further byte of the name of a tag or of an end tag.
    NameByte(u8),
    /// The first byte of the name of an end tag (XML 1.0, 3.1).
    CloseOpens(u8),
    /// The first byte of the name of an attribute.
    AttrOpens(u8),
    /// A further byte of the name of an attribute.
    AttrByte(u8),
    /// The quote before an attribute's value.
    ValueOpens,
    /// A character of an attribute's value, normalized (XML 1.0, 3.3.3).
    Value(char),
    /// The quote after an attribute's value.
    ValueEnds,
    /// A character of words: of character data, of a CDATA section or of a reference.
    Word(char),
    /// The `>` of a start tag, or of an empty-element tag.
    TagEnds { empty: bool },
    /// The `>` of an end tag.
    CloseEnds,
    /// The `?>` of the XML declaration.
    Declaration,
}

/// Why no reading goes on with a byte.
#[derive(Clone, Copy, Debug, PartialEq, Eq)]
pub enum LexFault {
    /// `not-well-formed` (RFC 6120, 4.9.3.13).
    NotWellFormed,
    /// `restricted-xml` (RFC 6120, 4.9.3.18).
    Restricted,
    /// `unsupported-encoding` (RFC 6120, 4.9.3.22), or bytes that are not UTF-8.
    BadEncoding,
}

/// What one byte gave: the first `count` of the tokens, or a fault.
#[derive(Clone, Copy)]
pub struct Lexed {
    /// The tokens; those from `count` on mean nothing.
    pub tokens: [Token; 4],
    /// How many tokens the byte gave, up to three.
    pub count: u8,
    /// The fault, from the byte on with which no reading goes on.
    pub fault: Option<LexFault>,
}

impl Lexed {
    /// The tokens.
    pub fn told(&self) -> &[Token]
        ensures { result.now ≡ tokens_of self.now }
    {
        let count = (self.count as usize).min(4);
        &self.tokens[..count]
    }
}

/// A reader of the bytes of one stream. It takes no memory.
#[derive(Drop)]
pub struct Lex {
    /// Where in the grammar the bytes so far lead.
    pub state: State,
    /// The fault of the bytes so far, if they have one.
    pub fault: Option<LexFault>,
    pub ghost live: { is_live state ≡ true },
}

impl Lex {
    /// A reader that has read nothing.
    pub fn new() -> Lex
        ensures { Stands [] [] result.state result.fault }
    {
        Lex {
            state: State::start(),
            fault: None,
        }
    }

    /// A reader at a state that was reached.
    pub fn at(state: State) -> Lex
        requires { is_live state ≡ true }
        ensures state { result.state ≡ state }
        ensures fault { result.fault ≡ None }
    {
        Lex { state, fault: None }
    }

    /// Reads one byte.
    ///
    /// `told`: where the bytes before led here and gave the tokens `ts`, these and the byte's own are the beginning of every reading
    /// of all bytes; and a fault comes with the byte with which no reading goes on, and is of its kind. `reads`: all bytes then lead to
    /// where the reader stands. So the reading of a list is the fold of `step`, and it is the same however the list is cut.
    pub fn step(&mut self, byte: u8) -> Lexed
        ensures told { (bytes : List ℕ) (ts : List Token)
            → Stands bytes ts self.old.state self.old.fault
            → IsTold (bytes ++ byte ∷ []) (ts ++ tokens_of result) self.new.fault }
        ensures reads { (bytes : List ℕ) (ts : List Token)
            → Stands bytes ts self.old.state self.old.fault
            → Stands (bytes ++ byte ∷ []) (ts ++ tokens_of result) self.new.state self.new.fault }
        ensures fault { result.fault ≡ self.new.fault }
        ensures ever { IfSome self.old.fault
            (λ f. (self.new.fault ≡ Some f) × (tokens_of result ≡ [])) }
        // What the layer above may rest on beside the grammar: the state moves as `turn` says.
        ensures moves { IfNone self.old.fault
            (IsTurned self.old.state (turn self.old.state byte) self.new.state result) }
    {
        match self.fault {
            Some(fault) => Lexed::refused(fault),
            None => {
                let (state, lexed) = advance(self.state, byte);
                self.state = state;
                self.fault = lexed.fault;
                lexed
            }
        }
    }
}
