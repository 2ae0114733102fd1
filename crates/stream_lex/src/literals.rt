//! Fixed words, and the XML declaration that they make (XML 1.0, 2.8).

ghost use Rattle.std.specs.Prelude.{◌≡◌, ◌<◌, cond, length};
ghost use Rattle.stream_lex.specs.declared.stages.Stage.TheVariants as stage;
ghost use Rattle.stream_lex.specs.grammar.Kinds.{is_kind, quote};
ghost use Rattle.stream_lex.specs.machine.Machine.{goes, stops, letters, fixed_end, fixed_fault, is_fixed, in_fixed, after_declared, info_value};
ghost use Rattle.stream_lex.specs.machine.Machine.{quote_seen, in_declaration};
ghost use Rattle.stream_lex.specs.machine.Moves.{turn_of};

use crate::kinds::Kind;
use crate::stages::{Info, Literal, Quote, Stage};
use crate::steps::{FAULT, Move, is_quoted};
use crate::{LexFault, Token};

/// The bytes of a fixed word.
fn letters_of(word: Literal) -> &'static [u8]
    ensures { result.now ≡ letters word }
{
    match word {
        Literal::Xml => b"xml",
        Literal::Name(Info::Version) => b"ersion",
        Literal::Name(Info::Encoding) => b"ncoding",
        Literal::Name(Info::Standalone) => b"tandalone",
        Literal::Major(_) => b"1.",
        Literal::Charset(_) => b"utf-8",
        Literal::Yes(_) => b"es",
        Literal::No(_) => b"o",
        Literal::Cdata => b"CDATA[",
    }
}

/// The stage after a fixed word.
fn end_of_word(word: Literal) -> Stage
    ensures { result ≡ fixed_end word }
{
    match word {
        Literal::Xml => Stage::XmlSeen,
        Literal::Name(info) => Stage::InfoName(info),
        Literal::Major(quote) => Stage::MinorFirst(quote),
        Literal::Charset(quote) => Stage::CharsetSeen(quote),
        Literal::Yes(quote) | Literal::No(quote) => Stage::Chosen(quote),
        Literal::Cdata => Stage::Cdata,
    }
}

/// The fault of a character that departs from a fixed word.
pub(crate) fn fault_of_word(word: Literal) -> LexFault
    ensures { result ≡ fixed_fault word }
{
    match word {
        Literal::Charset(_) => LexFault::BadEncoding,
        _ => LexFault::NotWellFormed,
    }
}

/// Whether the byte is the letter that a fixed word waits for: of the encoding's name in any case.
fn is_letter_of(word: Literal, letter: u8, byte: u8) -> bool
    ensures { result ≡ is_fixed word letter byte }
{
    match word {
        Literal::Charset(_) if byte >= b'A' && byte <= b'Z' => byte + 32 == letter,
        _ => byte == letter,
    }
}

#[tactic(auto, unfolding(crate::specs::machine::Machine::in_fixed))]
pub(crate) fn move_fixed(word: Literal, at: u8, byte: u8) -> Move
    requires { at < length (letters word) }
    ensures { turn_of result ≡ in_fixed word at byte }
{
    let letters = letters_of(word);
    let place = at as usize;
    if !is_letter_of(word, letters[place], byte) {
        Move::Stops(fault_of_word(word))
    } else if place + 1 < letters.len() {
        Move::Goes(Stage::Fixed(word, at + 1))
    } else {
        Move::Goes(end_of_word(word))
    }
}

fn move_declared(info: Info, kind: Kind) -> Move
    ensures { turn_of result ≡ after_declared info kind }
{
    match (info, kind) {
        (Info::Version, Kind::SmallE) => {
            Move::Goes(Stage::Fixed(Literal::Name(Info::Encoding), 0))
        }
        (Info::Version | Info::Encoding, Kind::SmallS) => {
            Move::Goes(Stage::Fixed(Literal::Name(Info::Standalone), 0))
        }
        (_, Kind::Space) => Move::Goes(Stage::InfoSpace(info)),
        (_, Kind::Question) => Move::Goes(Stage::DeclarationMark),
        _ => FAULT,
    }
}

/// The stage after the quote before the value of a part of the declaration.
fn value_of_info(info: Info, quote: Quote) -> Stage
    ensures { result ≡ info_value info quote }
{
    match info {
        Info::Version => Stage::Fixed(Literal::Major(quote), 0),
        Info::Encoding => Stage::Fixed(Literal::Charset(quote), 0),
        Info::Standalone => Stage::Choice(quote),
    }
}

fn move_quote(info: Info, kind: Kind) -> Move
    ensures { turn_of result ≡ quote_seen info kind }
{
    match kind {
        Kind::Quotation => Move::Goes(value_of_info(info, Quote::Double)),
        Kind::Apostrophe => Move::Goes(value_of_info(info, Quote::Single)),
        Kind::Space => Move::Goes(Stage::InfoEquals(info)),
        _ => FAULT,
    }
}

/// The quote after a value of the declaration, or a fault.
fn end_info(info: Info, mark: Quote, kind: Kind, fault: LexFault) -> Move
    ensures { turn_of result
        ≡ cond (is_kind (quote mark) kind) (goes (stage.InfoEnds info)) (stops fault) }
{
    if is_quoted(mark, kind) {
        Move::Goes(Stage::InfoEnds(info))
    } else {
        Move::Stops(fault)
    }
}

#[tactic(auto, unfolding(crate::specs::machine::Machine::in_declaration))]
pub(crate) fn move_declaration(stage: Stage, kind: Kind) -> Move
    ensures { turn_of result ≡ in_declaration stage kind }
{
    match (stage, kind) {
        (Stage::XmlSeen | Stage::XmlSpace, Kind::Space) => Move::Goes(Stage::XmlSpace),
        (Stage::XmlSpace, Kind::SmallV) => {
            Move::Goes(Stage::Fixed(Literal::Name(Info::Version), 0))
        }
        (Stage::InfoName(info), Kind::Space) => Move::Goes(Stage::InfoName(info)),
        (Stage::InfoName(info), Kind::Equals) => Move::Goes(Stage::InfoEquals(info)),
        (Stage::InfoEquals(info), _) => move_quote(info, kind),
        (Stage::MinorFirst(quote), Kind::Digit) => Move::Goes(Stage::Minor(quote)),
        (Stage::Minor(quote), Kind::Digit) => Move::Goes(Stage::Minor(quote)),
        (Stage::Minor(mark), _) => { end_info(Info::Version, mark, kind, LexFault::NotWellFormed) }
        (Stage::CharsetSeen(mark), _) => {
            end_info(Info::Encoding, mark, kind, LexFault::BadEncoding)
        }
        (Stage::Choice(quote), Kind::SmallY) => Move::Goes(Stage::Fixed(Literal::Yes(quote), 0)),
        (Stage::Choice(quote), Kind::SmallN) => Move::Goes(Stage::Fixed(Literal::No(quote), 0)),
        (Stage::Chosen(mark), _) => {
            end_info(Info::Standalone, mark, kind, LexFault::NotWellFormed)
        }
        (Stage::InfoEnds(_), Kind::SmallE | Kind::SmallS) => FAULT,
        (Stage::InfoEnds(info) | Stage::InfoSpace(info), _) => move_declared(info, kind),
        (Stage::DeclarationMark, Kind::Greater) => Move::Gives(Stage::Prolog, Token::Declaration),
        _ => FAULT,
    }
}
