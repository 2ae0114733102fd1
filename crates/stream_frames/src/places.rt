//! How tags nest, token by token.

ghost use Rattle.std.specs.Prelude.{◌≡◌};
ghost use Rattle.stream_lex.specs.machine.Characters.{is_nothing};
ghost use Rattle.stream_grammar.specs.grammar.Trees.{is_space};
ghost use Rattle.stream_grammar.specs.machine.Framing.{stage_to_space, begins_space};
ghost use Rattle.stream_frames.specs.Moves.{stands, root_move, start_move, content_move, name_move, naming_move};
ghost use Rattle.stream_frames.specs.Moves.{attribute_move, value_move, closing_move, place_move, words_move, many_move};
ghost use Rattle.stream_frames.specs.Moves.{tokens_move, gap_breaks, tag_breaks, place_breaks, breaks};

use crate::names::Names;
use stream_grammar::Rules;
use stream_lex::{Base, Context, EntityName, Pending, Stage, State, Token};

/// Where the tokens stand.
#[derive(Clone, Copy)]
pub(crate) enum Place {
    /// Before anything.
    Start,
    /// After the declaration.
    Declared,
    /// Between tags.
    Inside,
    /// In the name of a tag.
    Naming,
    /// In a tag, after so many attributes.
    InTag(u64),
    /// In the name of the last of so many attributes.
    NamingAttribute(u64),
    /// In its value.
    InValue(u64),
    /// In the name of an end tag, after so many bytes that follow the first.
    Closing(usize),
}

/// What tokens do.
#[derive(Clone, Copy)]
pub(crate) enum Move {
    /// They lead to a place.
    To(Place),
    /// The name of the first tag begins with this byte.
    Roots(u8),
    /// The name of another tag begins with this byte.
    Begins(u8),
    /// The name of a tag goes on with this byte.
    Adds(u8),
    /// The element is entered.
    Enters,
    /// The innermost element ends.
    Leaves,
    /// No stream goes on so.
    Lost,
}

/// White space (XML 1.0 [3]).
pub(crate) fn is_white(c: u32) -> bool
    ensures { result ≡ is_space c }
{
    c == 32 || c == 10 || c == 9 || c == 13
}

/// Whether the character may stand in the innermost element.
fn may_stand(rules: Rules, open: &Names, c: char) -> bool
    ensures { result ≡ stands rules open.now c }
{
    if open.is_none() {
        false
    } else if open.is_one() {
        is_white(c as u32) || rules.loose
    } else {
        true
    }
}

fn move_of_root(token: Token) -> Move
    ensures { result ≡ root_move token }
{
    match token {
        Token::TagOpens(byte) => Move::Roots(byte),
        _ => Move::Lost,
    }
}

fn move_at_start(token: Token) -> Move
    ensures { result ≡ start_move token }
{
    match token {
        Token::Declaration => Move::To(Place::Declared),
        _ => move_of_root(token),
    }
}

fn move_in_content(rules: Rules, open: &Names, token: Token) -> Move
    ensures { result ≡ content_move rules open.now token }
{
    match token {
        Token::Word(c) => {
            if may_stand(rules, open, c) {
                Move::To(Place::Inside)
            } else {
                Move::Lost
            }
        }
        Token::TagOpens(byte) => {
            if open.is_none() {
                Move::Lost
            } else if open.count() as u64 <= rules.depth {
                Move::Begins(byte)
            } else {
                Move::Lost
            }
        }
        Token::CloseOpens(byte) => {
            if open.begins_with(byte) {
                Move::To(Place::Closing(0))
            } else {
                Move::Lost
            }
        }
        _ => Move::Lost,
    }
}

fn move_after_name(rules: Rules, open: &Names, attributes: u64, token: Token) -> Move
    ensures { result ≡ name_move rules open.now attributes token }
{
    match token {
        Token::AttrOpens(_) => {
            if attributes < rules.attributes {
                Move::To(Place::NamingAttribute(attributes + 1))
            } else {
                Move::Lost
            }
        }
        Token::TagEnds { empty: true } => {
            if open.is_none() {
                Move::Lost
            } else {
                Move::To(Place::Inside)
            }
        }
        Token::TagEnds { empty: false } => Move::Enters,
        _ => Move::Lost,
    }
}

fn move_in_name(rules: Rules, open: &Names, token: Token) -> Move
    ensures { result ≡ naming_move rules open.now token }
{
    match token {
        Token::NameByte(byte) => Move::Adds(byte),
        _ => move_after_name(rules, open, 0, token),
    }
}

fn move_in_attribute(attributes: u64, token: Token) -> Move
    ensures { result ≡ attribute_move attributes token }
{
    match token {
        Token::AttrByte(_) => Move::To(Place::NamingAttribute(attributes)),
        Token::ValueOpens => Move::To(Place::InValue(attributes)),
        _ => Move::Lost,
    }
}

fn move_in_value(attributes: u64, token: Token) -> Move
    ensures { result ≡ value_move attributes token }
{
    match token {
        Token::Value(_) => Move::To(Place::InValue(attributes)),
        Token::ValueEnds => Move::To(Place::InTag(attributes)),
        _ => Move::Lost,
    }
}

fn move_in_end_tag(open: &Names, at: usize, token: Token) -> Move
    ensures { result ≡ closing_move open.now at token }
{
    match token {
        Token::NameByte(byte) => match open.goes_on(at, byte) {
            Some(next) => Move::To(Place::Closing(next)),
            None => Move::Lost,
        },
        Token::CloseEnds => {
            if open.is_whole(at) {
                Move::Leaves
            } else {
                Move::Lost
            }
        }
        _ => Move::Lost,
    }
}

/// What a token does.
fn move_at(rules: Rules, place: Place, open: &Names, token: Token) -> Move
    ensures { result ≡ place_move rules place open.now token }
{
    match place {
        Place::Start => move_at_start(token),
        Place::Declared => move_of_root(token),
        Place::Inside => move_in_content(rules, open, token),
        Place::Naming => move_in_name(rules, open, token),
        Place::InTag(attributes) => move_after_name(rules, open, attributes, token),
        Place::NamingAttribute(attributes) => move_in_attribute(attributes, token),
        Place::InValue(attributes) => move_in_value(attributes, token),
        Place::Closing(at) => move_in_end_tag(open, at, token),
    }
}

/// What words do between tags.
fn move_of_words(rules: Rules, open: &Names, tokens: &[Token]) -> Move
    ensures { result ≡ words_move rules open.now tokens.now }
{
    let [token, rest @ ..] = tokens else {
        return Move::To(Place::Inside);
    };
    match *token {
        Token::Word(c) => {
            if may_stand(rules, open, c) {
                move_of_words(rules, open, rest)
            } else {
                Move::Lost
            }
        }
        _ => Move::Lost,
    }
}

fn move_of_many(rules: Rules, place: Place, open: &Names, tokens: &[Token]) -> Move
    ensures { result ≡ many_move rules place open.now tokens.now }
{
    match place {
        Place::Inside => move_of_words(rules, open, tokens),
        _ => Move::Lost,
    }
}

/// What the tokens of a byte do.
pub(crate) fn move_of(rules: Rules, place: Place, open: &Names, tokens: &[Token]) -> Move
    ensures { result ≡ tokens_move rules place open.now tokens.now }
{
    match tokens {
        [] => Move::To(place),
        [token] => move_at(rules, place, open, *token),
        [_, _, ..] => move_of_many(rules, place, open, tokens),
    }
}

fn is_to_space(base: Base, value: u32) -> bool
    ensures { result ≡ begins_space base value }
{
    match base {
        Base::Decimal => value == 0 || value == 1 || value == 3 || is_white(value),
        Base::Hexadecimal => value == 0 || value == 2 || is_white(value),
    }
}

fn stage_comes_to_space(stage: Stage) -> bool
    ensures { result ≡ stage_to_space stage }
{
    match stage {
        Stage::Reference(Context::Words, EntityName::Empty) => true,
        Stage::Reference(Context::Words, _) => false,
        Stage::Number(Context::Words, base, value) => is_to_space(base, value),
        _ => true,
    }
}

fn is_between(pending: Pending) -> bool
    ensures { result ≡ is_nothing pending }
{
    matches!(pending, Pending::Nothing)
}

/// Whether the state between top elements comes to no white space, where only that may stand.
fn breaks_gap(rules: Rules, state: State) -> bool
    ensures { result ≡ gap_breaks rules state }
{
    !((is_between(state.pending) && stage_comes_to_space(state.stage)) || rules.loose)
}

/// Whether the stream's own tag would be an empty-element tag.
fn breaks_tag(state: State, open: &Names) -> bool
    ensures { result ≡ tag_breaks state open.now }
{
    open.is_none() && matches!(state.stage, Stage::EmptyTagMark)
}

fn breaks_place(rules: Rules, state: State, place: Place, open: &Names) -> bool
    ensures { result ≡ place_breaks rules state place open.now }
{
    match place {
        Place::Inside => open.is_one() && breaks_gap(rules, state),
        Place::Naming | Place::InTag(_) => breaks_tag(state, open),
        Place::Closing(at) => !open.is_whole(at) && matches!(state.stage, Stage::EndTagNamed),
        _ => false,
    }
}

/// Whether no stream goes on from the lexical state after the move.
pub(crate) fn is_breaking(rules: Rules, state: State, made: Move, open: &Names) -> bool
    ensures { result ≡ breaks rules state made open.now }
{
    match made {
        Move::To(place) => breaks_place(rules, state, place, open),
        Move::Roots(_) => matches!(state.stage, Stage::EmptyTagMark),
        Move::Begins(_) | Move::Adds(_) => breaks_tag(state, open),
        Move::Enters => open.is_none() && breaks_gap(rules, state),
        Move::Leaves => open.is_two() && breaks_gap(rules, state),
        Move::Lost => true,
    }
}
