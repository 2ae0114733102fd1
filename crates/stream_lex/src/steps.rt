//! What a character does at a stage.

ghost use Rattle.std.specs.Prelude.{◌≡◌, true};
ghost use Rattle.stream_lex.specs.grammar.Kinds.{ascii_kind, is_kind, quote};
ghost use Rattle.stream_lex.specs.grammar.Grammar.{text_token};
ghost use Rattle.stream_lex.specs.machine.Machine.{goes};
ghost use Rattle.stream_lex.specs.machine.Machine.{in_words, in_brackets, in_value, in_cdata, in_cdata_brackets};
ghost use Rattle.stream_lex.specs.machine.Machine.{in_tag_end, after_start_less, after_prolog_less, after_less, after_equals, in_tag, in_bang, ascii};
ghost use Rattle.stream_lex.specs.machine.Moves.{turn_of};
ghost use Rattle.stream_lex.specs.machine.Live.{is_live_stage};

use crate::kinds::{Kind, ascii_kind_of};
use crate::literals::{move_declaration, move_fixed};
use crate::names::{move_colon, move_name, move_start};
use crate::references::{move_hash, move_hash_x, move_number, move_reference};
use crate::stages::{Brackets, Context, EntityName, Literal, NameOwner, Quote, Stage};
use crate::{LexFault, Token};

/// What a character does: it leads to a stage and tells up to three tokens, or no text goes on with it.
#[derive(Clone, Copy)]
pub enum Move {
    Goes(Stage),
    Gives(Stage, Token),
    GivesTwo(Stage, Token, Token),
    GivesThree(Stage, Token, Token, Token),
    Stops(LexFault),
}

pub(crate) const FAULT: Move = Move::Stops(LexFault::NotWellFormed);

const BRACKET: Token = Token::Word(']');

pub(crate) const WORDS: Stage = Stage::Text(Context::Words);

pub(crate) fn text_token_of(place: Context, c: char) -> Token
    ensures { result ≡ text_token place c }
{
    match place {
        Context::Words => Token::Word(c),
        Context::Value(_) => Token::Value(c),
    }
}

/// Whether the character is this quote.
pub(crate) fn is_quoted(mark: Quote, kind: Kind) -> bool
    ensures { result ≡ is_kind (quote mark) kind }
{
    match mark {
        Quote::Double => matches!(kind, Kind::Quotation),
        Quote::Single => matches!(kind, Kind::Apostrophe),
    }
}

fn move_words(kind: Kind, byte: u8) -> Move
    ensures { turn_of result ≡ in_words kind byte }
{
    match kind {
        Kind::Less => Move::Goes(Stage::Less),
        Kind::Ampersand => Move::Goes(Stage::Reference(Context::Words, EntityName::Empty)),
        Kind::RightBracket => Move::Gives(Stage::Bracketed(Brackets::One), BRACKET),
        Kind::Control => FAULT,
        _ => Move::Gives(WORDS, Token::Word(byte as char)),
    }
}

fn move_brackets(brackets: Brackets, kind: Kind, byte: u8) -> Move
    ensures { turn_of result ≡ in_brackets brackets kind byte }
{
    match (brackets, kind) {
        (_, Kind::RightBracket) => Move::Gives(Stage::Bracketed(Brackets::Many), BRACKET),
        (Brackets::Many, Kind::Greater) => FAULT,
        _ => move_words(kind, byte),
    }
}

fn move_value(quote: Quote, kind: Kind, byte: u8) -> Move
    ensures { turn_of result ≡ in_value quote kind byte }
{
    match (quote, kind) {
        (_, Kind::Less | Kind::Control) => FAULT,
        (_, Kind::Ampersand) => {
            Move::Goes(Stage::Reference(Context::Value(quote), EntityName::Empty))
        }
        (_, Kind::Space) => Move::Gives(Stage::Text(Context::Value(quote)), Token::Value(' ')),
        (Quote::Double, Kind::Quotation) | (Quote::Single, Kind::Apostrophe) => {
            Move::Gives(Stage::ValueEnded, Token::ValueEnds)
        }
        _ => Move::Gives(
            Stage::Text(Context::Value(quote)),
            Token::Value(byte as char),
        ),
    }
}

fn move_cdata(kind: Kind, byte: u8) -> Move
    ensures { turn_of result ≡ in_cdata kind byte }
{
    match kind {
        Kind::RightBracket => Move::Goes(Stage::CdataBracketed(Brackets::One)),
        Kind::Control => FAULT,
        _ => Move::Gives(Stage::Cdata, Token::Word(byte as char)),
    }
}

fn move_cdata_brackets(brackets: Brackets, kind: Kind, byte: u8) -> Move
    ensures { turn_of result ≡ in_cdata_brackets brackets kind byte }
{
    let many = Stage::CdataBracketed(Brackets::Many);
    let word = Token::Word(byte as char);
    match (brackets, kind) {
        (_, Kind::Control) => FAULT,
        (Brackets::One, Kind::RightBracket) => Move::Goes(many),
        (Brackets::Many, Kind::RightBracket) => Move::Gives(many, BRACKET),
        (Brackets::Many, Kind::Greater) => Move::Goes(WORDS),
        (Brackets::One, _) => Move::GivesTwo(Stage::Cdata, BRACKET, word),
        (Brackets::Many, _) => Move::GivesThree(Stage::Cdata, BRACKET, BRACKET, word),
    }
}

fn tag_end_move(kind: Kind) -> Move
    ensures { turn_of result ≡ in_tag_end kind }
{
    match kind {
        Kind::Greater => Move::Gives(WORDS, Token::TagEnds { empty: false }),
        Kind::Slash => Move::Goes(Stage::EmptyTagMark),
        Kind::Space => Move::Goes(Stage::InTag),
        _ => FAULT,
    }
}

/// After a `<` at offset 0, where no name begins.
fn move_start_less(kind: Kind) -> Move
    ensures { turn_of result ≡ after_start_less kind }
{
    match kind {
        Kind::Question => Move::Goes(Stage::Fixed(Literal::Xml, 0)),
        Kind::Bang => Move::Stops(LexFault::Restricted),
        _ => FAULT,
    }
}

/// After another `<` before the first tag, where no name begins.
fn move_prolog_less(kind: Kind) -> Move
    ensures { turn_of result ≡ after_prolog_less kind }
{
    match kind {
        Kind::Question | Kind::Bang => Move::Stops(LexFault::Restricted),
        _ => FAULT,
    }
}

/// After a `<` in content, where no name begins.
fn move_less(kind: Kind) -> Move
    ensures { turn_of result ≡ after_less kind }
{
    match kind {
        Kind::Slash => Move::Goes(Stage::EndTagMark),
        Kind::Bang => Move::Goes(Stage::Bang),
        Kind::Question => Move::Stops(LexFault::Restricted),
        _ => FAULT,
    }
}

#[tactic(auto, unfolding(crate::specs::machine::Machine::in_tag))]
fn move_tag(stage: Stage, kind: Kind, byte: u8) -> Move
    ensures { turn_of result ≡ in_tag stage kind byte }
{
    match (stage, kind) {
        (Stage::Start, Kind::Less) => Move::Goes(Stage::StartLess),
        (Stage::Prolog, Kind::Less) => Move::Goes(Stage::PrologLess),
        (Stage::Start | Stage::Prolog, Kind::Space) => Move::Goes(Stage::Prolog),
        (Stage::StartLess, _) => move_start(NameOwner::StartTag, kind, byte, move_start_less(kind)),
        (Stage::PrologLess, _) => move_start(
            NameOwner::StartTag,
            kind,
            byte,
            move_prolog_less(kind),
        ),
        (Stage::Less, _) => move_start(NameOwner::StartTag, kind, byte, move_less(kind)),
        (Stage::EndTagMark, _) => move_start(NameOwner::EndTag, kind, byte, FAULT),
        (Stage::InTag, _) => move_start(NameOwner::Attribute, kind, byte, tag_end_move(kind)),
        (Stage::ValueEnded, _) => tag_end_move(kind),
        (Stage::EmptyTagMark, Kind::Greater) => Move::Gives(WORDS, Token::TagEnds { empty: true }),
        (Stage::AttrNamed, Kind::Space) => Move::Goes(Stage::AttrNamed),
        (Stage::AttrNamed, Kind::Equals) => Move::Goes(Stage::ValueAwaited),
        (Stage::ValueAwaited, _) => move_equals(kind),
        (Stage::EndTagNamed, Kind::Space) => Move::Goes(Stage::EndTagNamed),
        (Stage::EndTagNamed, Kind::Greater) => Move::Gives(WORDS, Token::CloseEnds),
        _ => FAULT,
    }
}

/// Before the value of an attribute.
fn move_equals(kind: Kind) -> Move
    ensures { turn_of result ≡ after_equals kind }
{
    match kind {
        Kind::Space => Move::Goes(Stage::ValueAwaited),
        Kind::Quotation => {
            Move::Gives(
                Stage::Text(Context::Value(Quote::Double)),
                Token::ValueOpens,
            )
        }
        Kind::Apostrophe => {
            Move::Gives(
                Stage::Text(Context::Value(Quote::Single)),
                Token::ValueOpens,
            )
        }
        _ => FAULT,
    }
}

/// After `<!` in content.
fn move_bang(kind: Kind) -> Move
    ensures { turn_of result ≡ in_bang kind }
{
    match kind {
        Kind::LeftBracket => Move::Goes(Stage::Fixed(Literal::Cdata, 0)),
        _ => Move::Stops(LexFault::Restricted),
    }
}

/// What a character below 128 does.
#[tactic(auto, unfolding(crate::specs::machine::Machine::ascii))]
pub(crate) fn move_ascii(stage: Stage, byte: u8) -> Move
    requires { is_live_stage stage ≡ true }
    ensures { turn_of result ≡ ascii stage (ascii_kind byte) byte }
{
    let kind = ascii_kind_of(byte);
    match stage {
        Stage::Text(Context::Words) => move_words(kind, byte),
        Stage::Text(Context::Value(quote)) => move_value(quote, kind, byte),
        Stage::Name(owner, half) => move_name(owner, half, kind, byte),
        Stage::Bracketed(brackets) => move_brackets(brackets, kind, byte),
        Stage::Fixed(word, at) => move_fixed(word, at, byte),
        Stage::XmlSeen
        | Stage::XmlSpace
        | Stage::InfoName(_)
        | Stage::InfoEquals(_)
        | Stage::MinorFirst(_)
        | Stage::Minor(_)
        | Stage::CharsetSeen(_)
        | Stage::Choice(_)
        | Stage::Chosen(_)
        | Stage::InfoEnds(_)
        | Stage::InfoSpace(_)
        | Stage::DeclarationMark => move_declaration(stage, kind),
        Stage::Bang => move_bang(kind),
        Stage::Cdata => move_cdata(kind, byte),
        Stage::CdataBracketed(brackets) => move_cdata_brackets(brackets, kind, byte),
        Stage::Reference(place, entity_name) => move_reference(place, entity_name, kind),
        Stage::Hash(place) => move_hash(place, kind, byte),
        Stage::HashX(place) => move_hash_x(place, kind, byte),
        Stage::Number(place, base, value) => move_number(place, base, value, kind, byte),
        Stage::Colon(owner) => move_colon(owner, kind, byte),
        Stage::Start
        | Stage::StartLess
        | Stage::Prolog
        | Stage::PrologLess
        | Stage::Less
        | Stage::EndTagMark
        | Stage::InTag
        | Stage::ValueEnded
        | Stage::EmptyTagMark
        | Stage::AttrNamed
        | Stage::ValueAwaited
        | Stage::EndTagNamed => move_tag(stage, kind, byte),
    }
}
