//! Characters from 128 on, byte by byte (RFC 3629, 3), and the classes of XML.

ghost use Rattle.std.specs.Prelude.{◌≡◌, true};
ghost use Rattle.stream_lex.specs.grammar.Classes.{has_between, class_of, scalar_values};
ghost use Rattle.stream_lex.specs.machine.Characters.{reach, reach_first, reach_second, reach_third, reach_fourth, is_second, is_begun};
ghost use Rattle.stream_lex.specs.declared.characters.Pending.TheVariants as pending;

/// The first bytes of a character that is not whole yet.
#[derive(Clone, Copy)]
pub enum Pending {
    Nothing,
    One(u8),
    Two(u8, u8),
    Three(u8, u8, u8),
}

/// Which characters from 128 on may come.
#[derive(Clone, Copy)]
pub enum Allowed {
    None,
    NameStart,
    NameFurther,
    Any,
}

/// What the bytes of a character say, with one more.
#[derive(Clone, Copy)]
pub enum Reach {
    /// They are this character.
    Whole(u32),
    /// They begin the characters from the first number to the second, and no others.
    Begun(Pending, u32, u32),
    /// They begin no character.
    Broken,
}

/// XML 1.0 [2] Char, from 128 on.
static CHARACTERS: [(u32, u32); 3] = [(0x80, 0xD7FF), (0xE000, 0xFFFD), (0x10000, 0x10FFFF)];

/// XML 1.0 [4] NameStartChar, from 128 on.
static NAME_STARTS: [(u32, u32); 12] = [
    (0xC0, 0xD6),
    (0xD8, 0xF6),
    (0xF8, 0x2FF),
    (0x370, 0x37D),
    (0x37F, 0x1FFF),
    (0x200C, 0x200D),
    (0x2070, 0x218F),
    (0x2C00, 0x2FEF),
    (0x3001, 0xD7FF),
    (0xF900, 0xFDCF),
    (0xFDF0, 0xFFFD),
    (0x10000, 0xEFFFF),
];

/// XML 1.0 [4a] NameChar, from 128 on.
static NAME_CHARACTERS: [(u32, u32); 15] = [
    (0xB7, 0xB7),
    (0x300, 0x36F),
    (0x203F, 0x2040),
    (0xC0, 0xD6),
    (0xD8, 0xF6),
    (0xF8, 0x2FF),
    (0x370, 0x37D),
    (0x37F, 0x1FFF),
    (0x200C, 0x200D),
    (0x2070, 0x218F),
    (0x2C00, 0x2FEF),
    (0x3001, 0xD7FF),
    (0xF900, 0xFDCF),
    (0xFDF0, 0xFFFD),
    (0x10000, 0xEFFFF),
];

/// What UTF-8 encodes, from 128 on: all but surrogates.
static SCALARS: [(u32, u32); 2] = [(0x80, 0xD7FF), (0xE000, 0x10FFFF)];

/// Whether one of the runs has a number from `low` to `high`.
fn any_between(runs: &[(u32, u32)], low: u32, high: u32) -> bool
    ensures { result ≡ has_between runs.now low high }
{
    for run in runs {
        let (first, last) = *run;
        if first <= high && low <= last {
            return true;
        }
    }
    false
}

/// The runs of a class.
#[tactic(auto, unfolding(crate::specs::grammar::Classes::characters, crate::specs::grammar::Classes::name_starts, crate::specs::grammar::Classes::name_characters))]
fn runs_of(allowed: Allowed) -> &'static [(u32, u32)]
    ensures { result.now ≡ class_of allowed }
{
    match allowed {
        Allowed::None => &[],
        Allowed::NameStart => &NAME_STARTS,
        Allowed::NameFurther => &NAME_CHARACTERS,
        Allowed::Any => &CHARACTERS,
    }
}

/// Whether some character from `low` to `high` may come.
pub fn may_come(allowed: Allowed, low: u32, high: u32) -> bool
    ensures { result ≡ has_between (class_of allowed) low high }
{
    any_between(runs_of(allowed), low, high)
}

/// Whether some number from `low` to `high` is encoded by UTF-8.
#[tactic(auto, unfolding(crate::specs::grammar::Classes::scalar_values))]
pub fn is_encoded(low: u32, high: u32) -> bool
    ensures { result ≡ has_between scalar_values low high }
{
    any_between(&SCALARS, low, high)
}

/// What a first byte says.
#[tactic(auto, unfolding(crate::specs::machine::Characters::reach_first))]
fn first_reach(first: u8) -> Reach
    ensures { result ≡ reach_first first }
{
    let a = first as u32;
    match first {
        194..=223 => Reach::Begun(Pending::One(first), 64 * (a - 192), 64 * (a - 192) + 63),
        224..=239 => Reach::Begun(
            Pending::One(first),
            (4096 * (a - 224)).max(2048),
            4096 * (a - 224) + 4095,
        ),
        240..=244 => Reach::Begun(
            Pending::One(first),
            (262144 * (a - 240)).max(65536),
            (262144 * (a - 240) + 262143).min(1114111),
        ),
        _ => Reach::Broken,
    }
}

/// Whether the second byte goes with the first (RFC 3629, 4).
fn is_second_byte(first: u8, second: u8) -> bool
    ensures { result ≡ is_second first second }
{
    let low = if first == 224 {
        160
    } else if first == 240 {
        144
    } else {
        128
    };
    let high = if first == 244 { 143 } else { 191 };
    low <= second && second <= high
}

/// What a second byte says.
#[tactic(auto, unfolding(crate::specs::machine::Characters::reach_second))]
fn second_reach(first: u8, second: u8) -> Reach
    requires { is_begun (pending.One first) ≡ true }
    ensures { result ≡ reach_second first second }
{
    if !is_second_byte(first, second) {
        return Reach::Broken;
    }
    let a = first as u32;
    let b = (second - 128) as u32;
    if first < 224 {
        Reach::Whole(64 * (a - 192) + b)
    } else if first < 240 {
        let low = 4096 * (a - 224) + 64 * b;
        Reach::Begun(Pending::Two(first, second), low, low + 63)
    } else {
        let low = 262144 * (a - 240) + 4096 * b;
        Reach::Begun(Pending::Two(first, second), low, low + 4095)
    }
}

/// What a third byte says.
#[tactic(auto, unfolding(crate::specs::machine::Characters::reach_third))]
fn third_reach(first: u8, second: u8, third: u8) -> Reach
    requires { is_begun (pending.Two first second) ≡ true }
    ensures { result ≡ reach_third first second third }
{
    if third < 128 || third > 191 {
        return Reach::Broken;
    }
    let a = first as u32;
    let b = (second - 128) as u32;
    let c = (third - 128) as u32;
    if first < 240 {
        Reach::Whole(4096 * (a - 224) + 64 * b + c)
    } else {
        let low = 262144 * (a - 240) + 4096 * b + 64 * c;
        Reach::Begun(Pending::Three(first, second, third), low, low + 63)
    }
}

/// What a fourth byte says.
#[tactic(auto, unfolding(crate::specs::machine::Characters::reach_fourth))]
fn fourth_reach(first: u8, second: u8, third: u8, fourth: u8) -> Reach
    requires { is_begun (pending.Three first second third) ≡ true }
    ensures { result ≡ reach_fourth first second third fourth }
{
    if fourth < 128 || fourth > 191 {
        return Reach::Broken;
    }
    let a = first as u32;
    let b = (second - 128) as u32;
    let c = (third - 128) as u32;
    let d = (fourth - 128) as u32;
    Reach::Whole(262144 * (a - 240) + 4096 * b + 64 * c + d)
}

/// What a byte says after the bytes of a character so far.
pub fn reach_of(pending: Pending, byte: u8) -> Reach
    requires { is_begun pending ≡ true }
    ensures { result ≡ reach pending byte }
{
    match pending {
        Pending::Nothing => first_reach(byte),
        Pending::One(a) => second_reach(a, byte),
        Pending::Two(a, b) => third_reach(a, b, byte),
        Pending::Three(a, b, c) => fourth_reach(a, b, c, byte),
    }
}
