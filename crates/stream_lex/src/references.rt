//! References to characters and entities (XML 1.0, 4.1).

ghost use Rattle.std.specs.Prelude.{◌≡◌, ◌<◌, true, if◌then◌else◌};
ghost use Rattle.stream_lex.specs.grammar.Kinds.{is_digit, digit, base_of};
ghost use Rattle.stream_lex.specs.grammar.Classes.{is_xml};
ghost use Rattle.stream_lex.specs.machine.Machine.{unnamed, named_by};
ghost use Rattle.stream_lex.specs.machine.Machine.{in_reference, in_number, in_hash, in_hash_x};
ghost use Rattle.stream_lex.specs.machine.Moves.{turn_of};

use crate::LexFault;
use crate::kinds::Kind;
use crate::names::is_refused_in_name;
use crate::stages::{Base, Context, EntityName, Stage};
use crate::steps::{FAULT, Move, text_token_of};

/// A character that no reference has there.
fn refuse_name(kind: Kind) -> Move
    ensures { turn_of result ≡ unnamed kind }
{
    if is_refused_in_name(kind) {
        Move::Stops(LexFault::Restricted)
    } else {
        FAULT
    }
}

/// The semicolon after the name of the character `c`.
fn end_name(place: Context, c: char, kind: Kind) -> Move
    ensures { turn_of result ≡ named_by place c kind }
{
    match kind {
        Kind::Semicolon => Move::Gives(Stage::Text(place), text_token_of(place, c)),
        _ => refuse_name(kind),
    }
}

#[tactic(auto, unfolding(crate::specs::machine::Machine::in_reference))]
pub(crate) fn move_reference(place: Context, entity_name: EntityName, kind: Kind) -> Move
    ensures { turn_of result ≡ in_reference place entity_name kind }
{
    let longer = match (entity_name, kind) {
        (EntityName::Empty, Kind::Number) => return Move::Goes(Stage::Hash(place)),
        (EntityName::Empty, Kind::SmallA) => EntityName::A,
        (EntityName::Empty, Kind::SmallL) => EntityName::L,
        (EntityName::Empty, Kind::SmallG) => EntityName::G,
        (EntityName::Empty, Kind::SmallQ) => EntityName::Q,
        (EntityName::A, Kind::SmallM) => EntityName::Am,
        (EntityName::A, Kind::SmallP) => EntityName::Ap,
        (EntityName::Am, Kind::SmallP) => EntityName::Amp,
        (EntityName::Ap, Kind::SmallO) => EntityName::Apo,
        (EntityName::Apo, Kind::SmallS) => EntityName::Apos,
        (EntityName::L, Kind::SmallT) => EntityName::Lt,
        (EntityName::G, Kind::SmallT) => EntityName::Gt,
        (EntityName::Q, Kind::SmallU) => EntityName::Qu,
        (EntityName::Qu, Kind::SmallO) => EntityName::Quo,
        (EntityName::Quo, Kind::SmallT) => EntityName::Quot,
        (EntityName::Amp, _) => return end_name(place, '&', kind),
        (EntityName::Apos, _) => return end_name(place, '\'', kind),
        (EntityName::Lt, _) => return end_name(place, '<', kind),
        (EntityName::Gt, _) => return end_name(place, '>', kind),
        (EntityName::Quot, _) => return end_name(place, '"', kind),
        _ => return refuse_name(kind),
    };
    Move::Goes(Stage::Reference(place, longer))
}

/// Whether the character is a digit of the base.
fn is_digit_of(base: Base, kind: Kind) -> bool
    ensures { result ≡ is_digit base kind }
{
    match (base, kind) {
        (_, Kind::Digit) => true,
        (Base::Hexadecimal, Kind::SmallA | Kind::SmallE | Kind::HexLetter) => true,
        _ => false,
    }
}

/// What a digit stands for.
fn digit_of(byte: u8) -> u32
    ensures value { result ≡ digit byte }
    ensures small { result < 256 }
{
    let value = if byte < 58 {
        byte.saturating_sub(48)
    } else if byte < 71 {
        byte - 55
    } else {
        byte.saturating_sub(87)
    };
    value as u32
}

fn number_of_base(base: Base) -> u32
    ensures { result ≡ base_of base }
{
    match base {
        Base::Decimal => 10,
        Base::Hexadecimal => 16,
    }
}

/// The character of that number, if XML allows it.
fn character_of(number: u32) -> Option<char>
    ensures { result ≡ (if is_xml number then Some number else None) }
{
    match number {
        0x9 | 0xA | 0xD | 0x20..=0xD7FF | 0xE000..=0xFFFD | 0x10000..=0x10FFFF => {
            char::from_u32(number)
        }
        _ => None,
    }
}

#[tactic(auto, unfolding(crate::specs::machine::Machine::in_number))]
pub(crate) fn move_number(place: Context, base: Base, value: u32, kind: Kind, byte: u8) -> Move
    requires { value < 0x110000 }
    ensures { turn_of result ≡ in_number place base value kind byte }
{
    if let Kind::Semicolon = kind {
        return match character_of(value) {
            Some(c) => Move::Gives(Stage::Text(place), text_token_of(place, c)),
            None => FAULT,
        };
    }
    let grown = number_of_base(base) * value + digit_of(byte);
    if is_digit_of(base, kind) && grown < 0x110000 {
        Move::Goes(Stage::Number(place, base, grown))
    } else {
        FAULT
    }
}

pub(crate) fn move_hash(place: Context, kind: Kind, byte: u8) -> Move
    ensures { turn_of result ≡ in_hash place kind byte }
{
    match kind {
        Kind::Digit => Move::Goes(Stage::Number(place, Base::Decimal, digit_of(byte))),
        Kind::SmallX => Move::Goes(Stage::HashX(place)),
        _ => FAULT,
    }
}

pub(crate) fn move_hash_x(place: Context, kind: Kind, byte: u8) -> Move
    ensures { turn_of result ≡ in_hash_x place kind byte }
{
    if is_digit_of(Base::Hexadecimal, kind) {
        Move::Goes(Stage::Number(place, Base::Hexadecimal, digit_of(byte)))
    } else {
        FAULT
    }
}
