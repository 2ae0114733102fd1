//! What a byte does: line ends, and characters of several bytes.

ghost use Rattle.std.specs.Prelude.{◌≡◌, [], ◌∷◌, ◌++◌, true, None, Some};
ghost use Rattle.std.specs.Char.{IsScalar};
ghost use Rattle.stream_lex.specs.grammar.Classes.{has_between, class_of};
ghost use Rattle.stream_lex.specs.machine.Characters.{reach, is_begun};
ghost use Rattle.stream_lex.specs.grammar.Grammar.{first_name_token, next_name_token};
ghost use Rattle.stream_lex.specs.machine.Machine.{ascii, allowed_at, by_byte, voice, through, wide_fault};
ghost use Rattle.stream_lex.specs.grammar.Kinds.{ascii_kind};
ghost use Rattle.stream_lex.specs.machine.Moves.{turn_of};
ghost use Rattle.stream_lex.specs.machine.Turns.{settled, byte_told, end_told, fault_of, turn_ascii, turn_wide, turn};
ghost use Rattle.stream_lex.specs.machine.Live.{is_live, is_live_stage};
ghost use Rattle.stream_lex.specs.machine.Leading.{tokens_of, IsTurned};

use crate::characters::{Allowed, Pending, Reach, is_encoded, may_come, reach_of};
use crate::literals::fault_of_word;
use crate::names::{first_name_token_of, next_name_token_of};
use crate::stages::{Brackets, Context, Half, NameOwner, Stage, State};
use crate::steps::{Move, move_ascii, text_token_of};
use crate::{LexFault, Lexed, Token};

impl Lexed {
    /// No token.
    pub(crate) fn nothing() -> Lexed
        ensures told { tokens_of result ≡ [] }
        ensures fault { result.fault ≡ None }
    {
        Lexed {
            tokens: [Token::ValueOpens; 4],
            count: 0,
            fault: None,
        }
    }

    /// One token.
    pub(crate) fn one(token: Token) -> Lexed
        ensures told { tokens_of result ≡ token ∷ [] }
        ensures fault { result.fault ≡ None }
    {
        Lexed {
            tokens: [token; 4],
            count: 1,
            fault: None,
        }
    }

    /// Two tokens.
    fn two(first: Token, second: Token) -> Lexed
        ensures told { tokens_of result ≡ first ∷ second ∷ [] }
        ensures fault { result.fault ≡ None }
    {
        Lexed {
            tokens: [first, second, second, second],
            count: 2,
            fault: None,
        }
    }

    /// Three tokens.
    fn three(first: Token, second: Token, third: Token) -> Lexed
        ensures told { tokens_of result ≡ first ∷ second ∷ third ∷ [] }
        ensures fault { result.fault ≡ None }
    {
        Lexed {
            tokens: [first, second, third, third],
            count: 3,
            fault: None,
        }
    }

    /// A fault.
    pub(crate) fn refused(fault: LexFault) -> Lexed
        ensures told { tokens_of result ≡ [] }
        ensures fault { result.fault ≡ Some fault }
    {
        Lexed {
            tokens: [Token::ValueOpens; 4],
            count: 0,
            fault: Some(fault),
        }
    }
}

/// Which characters from 128 on may come at a stage.
#[tactic(auto, unfolding(crate::specs::machine::Machine::allowed_at))]
fn allowed_of(stage: Stage) -> Allowed
    ensures { result ≡ allowed_at stage }
{
    match stage {
        Stage::Text(_) | Stage::Bracketed(_) | Stage::Cdata | Stage::CdataBracketed(_) => {
            Allowed::Any
        }
        Stage::Name(_, _) => Allowed::NameFurther,
        Stage::Colon(_)
        | Stage::StartLess
        | Stage::PrologLess
        | Stage::Less
        | Stage::EndTagMark
        | Stage::InTag => Allowed::NameStart,
        _ => Allowed::None,
    }
}

/// The stage after a character from 128 on.
#[tactic(auto, unfolding(crate::specs::machine::Machine::through))]
fn after_wide(stage: Stage) -> Stage
    ensures { result ≡ through stage }
{
    match stage {
        Stage::Bracketed(_) => Stage::Text(Context::Words),
        Stage::CdataBracketed(_) => Stage::Cdata,
        Stage::Colon(owner) => Stage::Name(owner, Half::Local),
        Stage::StartLess | Stage::PrologLess | Stage::Less => {
            Stage::Name(NameOwner::StartTag, Half::Prefix)
        }
        Stage::EndTagMark => Stage::Name(NameOwner::EndTag, Half::Prefix),
        Stage::InTag => Stage::Name(NameOwner::Attribute, Half::Prefix),
        _ => stage,
    }
}

/// The fault of a character from 128 on that may not come.
#[tactic(auto, unfolding(crate::specs::machine::Machine::wide_fault))]
fn fault_at(stage: Stage) -> LexFault
    ensures { result ≡ wide_fault stage }
{
    match stage {
        Stage::Reference(_, _) | Stage::Bang => LexFault::Restricted,
        Stage::Fixed(word, _) => fault_of_word(word),
        Stage::CharsetSeen(_) => LexFault::BadEncoding,
        _ => LexFault::NotWellFormed,
    }
}

/// The fault of bytes that begin the characters from `low` to `high`, none of which may come.
fn fault_between(stage: Stage, low: u32, high: u32) -> LexFault
    ensures { result ≡ fault_of stage low high }
{
    if is_encoded(low, high) {
        fault_at(stage)
    } else {
        LexFault::BadEncoding
    }
}

/// The token of a byte of the first character of a name.
fn head_token(owner: NameOwner, pending: Pending, byte: u8) -> Token
    ensures { result ∷ []
        ≡ byte_told (by_byte (first_name_token owner) (next_name_token owner)) pending byte }
{
    match pending {
        Pending::Nothing => first_name_token_of(owner, byte),
        _ => next_name_token_of(owner, byte),
    }
}

/// What a byte of a character tells that is not whole yet.
#[tactic(auto, unfolding(crate::specs::machine::Machine::voice))]
fn byte_lexed(stage: Stage, pending: Pending, byte: u8) -> Lexed
    ensures told { tokens_of result ≡ byte_told (voice stage) pending byte }
    ensures fault { result.fault ≡ None }
{
    match stage {
        Stage::Name(owner, _) | Stage::Colon(owner) => Lexed::one(next_name_token_of(owner, byte)),
        Stage::StartLess | Stage::PrologLess | Stage::Less => {
            Lexed::one(head_token(NameOwner::StartTag, pending, byte))
        }
        Stage::EndTagMark => Lexed::one(head_token(NameOwner::EndTag, pending, byte)),
        Stage::InTag => Lexed::one(head_token(NameOwner::Attribute, pending, byte)),
        _ => Lexed::nothing(),
    }
}

/// What a whole character of words, of a value or of CDATA tells.
#[tactic(auto, unfolding(crate::specs::machine::Machine::voice))]
fn end_lexed(stage: Stage, c: char) -> Lexed
    ensures told { tokens_of result ≡ end_told (voice stage) c }
    ensures fault { result.fault ≡ None }
{
    let bracket = Token::Word(']');
    match stage {
        Stage::Name(_, _)
        | Stage::Colon(_)
        | Stage::StartLess
        | Stage::PrologLess
        | Stage::Less
        | Stage::EndTagMark
        | Stage::InTag => Lexed::nothing(),
        Stage::Text(place) => Lexed::one(text_token_of(place, c)),
        Stage::CdataBracketed(Brackets::One) => Lexed::two(bracket, Token::Word(c)),
        Stage::CdataBracketed(Brackets::Many) => { Lexed::three(bracket, bracket, Token::Word(c)) }
        _ => Lexed::one(Token::Word(c)),
    }
}

/// What the last byte of a character tells.
#[tactic(auto, unfolding(crate::specs::machine::Machine::voice))]
fn whole_lexed(stage: Stage, pending: Pending, byte: u8, c: char) -> Lexed
    ensures told { tokens_of result
        ≡ byte_told (voice stage) pending byte ++ end_told (voice stage) c }
    ensures fault { result.fault ≡ None }
{
    match stage {
        Stage::Name(_, _)
        | Stage::Colon(_)
        | Stage::StartLess
        | Stage::PrologLess
        | Stage::Less
        | Stage::EndTagMark
        | Stage::InTag => byte_lexed(stage, pending, byte),
        _ => end_lexed(stage, c),
    }
}

/// The character of that number.
fn char_of(number: u32) -> char
    requires { IsScalar number }
    ensures { result ≡ number }
{
    match char::from_u32(number) {
        Some(c) => c,
        None => unreachable!(),
    }
}

/// What a move makes of the state.
fn settle(state: State, returned: bool, made: Move) -> (State, Lexed)
    ensures { IsTurned state (settled returned (turn_of made)) result.0 result.1 }
{
    let (stage, lexed) = match made {
        Move::Goes(stage) => (stage, Lexed::nothing()),
        Move::Gives(stage, token) => (stage, Lexed::one(token)),
        Move::GivesTwo(stage, first, second) => (stage, Lexed::two(first, second)),
        Move::GivesThree(stage, first, second, third) => {
            (stage, Lexed::three(first, second, third))
        }
        Move::Stops(fault) => return (state, Lexed::refused(fault)),
    };
    (State::between(stage, returned), lexed)
}

/// What a byte below 128 does between two characters.
#[tactic(auto, unfolding(crate::specs::machine::Turns::turn_ascii))]
fn turn_on_ascii(state: State, byte: u8) -> (State, Lexed)
    requires { is_live_stage state.stage ≡ true }
    ensures { IsTurned state (turn_ascii state byte) result.0 result.1 }
{
    if state.returned && byte == b'\n' {
        return (State::between(state.stage, false), Lexed::nothing());
    }
    if byte == b'\r' {
        settle(state, true, move_ascii(state.stage, b'\n'))
    } else {
        settle(state, false, move_ascii(state.stage, byte))
    }
}

/// What a byte of a character from 128 on does.
#[tactic(auto, unfolding(crate::specs::machine::Turns::turn_wide))]
fn turn_on_wide(state: State, byte: u8) -> (State, Lexed)
    requires { is_begun state.pending ≡ true }
    ensures { IsTurned state (turn_wide state byte (reach state.pending byte)) result.0 result.1 }
{
    let stage = state.stage;
    let allowed = allowed_of(stage);
    match reach_of(state.pending, byte) {
        Reach::Begun(pending, low, high) => {
            if may_come(allowed, low, high) {
                let lexed = byte_lexed(stage, state.pending, byte);
                (State { pending, ..state }, lexed)
            } else {
                (state, Lexed::refused(fault_between(stage, low, high)))
            }
        }
        Reach::Whole(number) => {
            if may_come(allowed, number, number) {
                let lexed = whole_lexed(stage, state.pending, byte, char_of(number));
                (State::between(after_wide(stage), false), lexed)
            } else {
                (state, Lexed::refused(fault_between(stage, number, number)))
            }
        }
        Reach::Broken => (state, Lexed::refused(LexFault::BadEncoding)),
    }
}

/// The effect of a byte.
pub fn advance(state: State, byte: u8) -> (State, Lexed)
    requires { is_live state ≡ true }
    ensures turns { IsTurned state (turn state byte) result.0 result.1 }
    ensures live { is_live result.0 ≡ true }
{
    match state.pending {
        Pending::Nothing if byte < 128 => turn_on_ascii(state, byte),
        _ => turn_on_wide(state, byte),
    }
}
