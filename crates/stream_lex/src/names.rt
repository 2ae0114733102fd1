//! Names, at a character of one (Namespaces in XML 1.0, 4).

ghost use Rattle.std.specs.Prelude.{◌≡◌};
ghost use Rattle.stream_lex.specs.grammar.Kinds.{is_name_start, is_name_further, is_refusable};
ghost use Rattle.stream_lex.specs.grammar.Grammar.{first_name_token, next_name_token};
ghost use Rattle.stream_lex.specs.machine.Machine.{after_name, in_name, in_colon, name_or};
ghost use Rattle.stream_lex.specs.machine.Moves.{turn_of};

use crate::Token;
use crate::kinds::Kind;
use crate::stages::{Half, NameOwner, Stage};
use crate::steps::{FAULT, Move, WORDS};

pub(crate) fn first_name_token_of(owner: NameOwner, byte: u8) -> Token
    ensures { result ≡ first_name_token owner byte }
{
    match owner {
        NameOwner::StartTag => Token::TagOpens(byte),
        NameOwner::EndTag => Token::CloseOpens(byte),
        NameOwner::Attribute => Token::AttrOpens(byte),
    }
}

pub(crate) fn next_name_token_of(owner: NameOwner, byte: u8) -> Token
    ensures { result ≡ next_name_token owner byte }
{
    match owner {
        NameOwner::Attribute => Token::AttrByte(byte),
        _ => Token::NameByte(byte),
    }
}

/// Whether the character may begin a name, of those below 128.
fn starts_name(kind: Kind) -> bool
    ensures { result ≡ is_name_start kind }
{
    matches!(
        kind,
        Kind::Letter
            | Kind::HexLetter
            | Kind::SmallA
            | Kind::SmallE
            | Kind::SmallG
            | Kind::SmallL
            | Kind::SmallM
            | Kind::SmallN
            | Kind::SmallO
            | Kind::SmallP
            | Kind::SmallQ
            | Kind::SmallS
            | Kind::SmallT
            | Kind::SmallU
            | Kind::SmallV
            | Kind::SmallX
            | Kind::SmallY
    )
}

/// Whether the character may stand in a name, of those below 128.
fn continues_name(kind: Kind) -> bool
    ensures { result ≡ is_name_further kind }
{
    matches!(kind, Kind::Digit | Kind::Mark) || starts_name(kind)
}

/// Whether the character makes a reference one that is refused.
pub(crate) fn is_refused_in_name(kind: Kind) -> bool
    ensures { result ≡ is_refusable kind }
{
    matches!(
        kind,
        Kind::Semicolon
            | Kind::Colon
            | Kind::WideStart
            | Kind::WideName
            | Kind::WideOther
            | Kind::WideRefused
    ) || continues_name(kind)
}

fn move_after_name(owner: NameOwner, kind: Kind) -> Move
    ensures { turn_of result ≡ after_name owner kind }
{
    match (owner, kind) {
        (NameOwner::StartTag, Kind::Space) => Move::Goes(Stage::InTag),
        (NameOwner::StartTag, Kind::Greater) => Move::Gives(WORDS, Token::TagEnds { empty: false }),
        (NameOwner::StartTag, Kind::Slash) => Move::Goes(Stage::EmptyTagMark),
        (NameOwner::EndTag, Kind::Space) => Move::Goes(Stage::EndTagNamed),
        (NameOwner::EndTag, Kind::Greater) => Move::Gives(WORDS, Token::CloseEnds),
        (NameOwner::Attribute, Kind::Space) => Move::Goes(Stage::AttrNamed),
        (NameOwner::Attribute, Kind::Equals) => Move::Goes(Stage::ValueAwaited),
        _ => FAULT,
    }
}

#[tactic(auto, unfolding(crate::specs::machine::Machine::in_name))]
pub(crate) fn move_name(owner: NameOwner, half: Half, kind: Kind, byte: u8) -> Move
    ensures { turn_of result ≡ in_name owner half kind byte }
{
    if continues_name(kind) {
        return Move::Gives(Stage::Name(owner, half), next_name_token_of(owner, byte));
    }
    match (half, kind) {
        (Half::Prefix, Kind::Colon) => Move::Gives(
            Stage::Colon(owner),
            next_name_token_of(owner, byte),
        ),
        _ => move_after_name(owner, kind),
    }
}

pub(crate) fn move_colon(owner: NameOwner, kind: Kind, byte: u8) -> Move
    ensures { turn_of result ≡ in_colon owner kind byte }
{
    if starts_name(kind) {
        Move::Gives(
            Stage::Name(owner, Half::Local),
            next_name_token_of(owner, byte),
        )
    } else {
        FAULT
    }
}

/// A first character of a name, or else `otherwise`.
pub(crate) fn move_start(owner: NameOwner, kind: Kind, byte: u8, otherwise: Move) -> Move
    ensures { turn_of result ≡ name_or owner kind byte (turn_of otherwise) }
{
    if starts_name(kind) {
        Move::Gives(
            Stage::Name(owner, Half::Prefix),
            first_name_token_of(owner, byte),
        )
    } else {
        otherwise
    }
}
