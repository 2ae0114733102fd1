//! Markup that ends no tag, read a byte at a time without the lexical layer. Each function answers whether it read the byte; where
//! it didn't, or there was no memory, nothing changes.

ghost use Rattle.std.specs.Prelude.{◌≡◌, [], ◌∷◌, true, false};
ghost use Rattle.stream_grammar.specs.machine.Building.{Building};
ghost use Rattle.stream_grammar.specs.machine.Texts.{HasTexts};
ghost use Rattle.stream_frames.specs.Builds.{tag_of, building};
ghost use Rattle.stream_frames.specs.Markup.{LeadsBy};

use crate::builder::one_byte;
use crate::built::Builder;
use crate::tracker::Tracker;
use crate::tracker_markup::{quote_byte, quote_of};

/// What markup a byte may be, by the stage alone: whoever reads it looks closer.
#[derive(Clone, Copy)]
pub(crate) enum MarkOf {
    Silent,
    StartName,
    EndName,
    AttributeName,
    ValueOpen,
    ValueEnd,
    StartEnd,
    HollowEnd,
    End,
    Nothing,
}

/// A byte that tells nothing.
#[tactic(auto, using(crate::proofs::MarkupLemmas::silent_led))]
fn silent_mark(tracker: &mut Tracker, byte: u8) -> bool
    ensures rules { tracker.new.rules ≡ tracker.old.rules }
    ensures read { result ≡ true → (b : Building) → LeadsBy tracker.old.rules tracker.old.frame b (byte ∷ []) tracker.new.frame b }
    ensures kept { result ≡ false → tracker.new ≡ tracker.old }
{
    tracker.skip_silent(byte)
}

/// The first byte of the name of an end tag.
#[tactic(auto, using(crate::proofs::MarkupLemmas::closing_led))]
fn end_name_mark(tracker: &mut Tracker, byte: u8) -> bool
    ensures rules { tracker.new.rules ≡ tracker.old.rules }
    ensures read { result ≡ true → (b : Building) → LeadsBy tracker.old.rules tracker.old.frame b (byte ∷ []) tracker.new.frame b }
    ensures kept { result ≡ false → tracker.new ≡ tracker.old }
{
    tracker.begin_end_name(byte)
}

/// The quote before a value.
#[tactic(auto, using(crate::proofs::MarkupLemmas::value_opened_led))]
fn value_open_mark(tracker: &mut Tracker, byte: u8) -> bool
    ensures rules { tracker.new.rules ≡ tracker.old.rules }
    ensures read { result ≡ true → (b : Building) → LeadsBy tracker.old.rules tracker.old.frame b (byte ∷ []) tracker.new.frame b }
    ensures kept { result ≡ false → tracker.new ≡ tracker.old }
{
    match quote_of(byte) {
        Some(quote) => tracker.begin_value(quote),
        None => false,
    }
}

/// The quote after a value.
#[tactic(auto, using(crate::proofs::MarkupLemmas::value_ended_led))]
fn value_end_mark(tracker: &mut Tracker, builder: &mut Builder, byte: u8) -> bool
    ensures rules { tracker.new.rules ≡ tracker.old.rules }
    ensures read { result ≡ true → LeadsBy tracker.old.rules tracker.old.frame (building builder.old) (byte ∷ []) tracker.new.frame (building builder.new) }
    ensures kept { result ≡ false → (tracker.new ≡ tracker.old) × (building builder.new ≡ building builder.old) }
{
    let Some(quote) = tracker.open_quote() else {
        return false;
    };
    if byte != quote_byte(quote) || !builder.reserve_attribute() {
        return false;
    }
    tracker.end_value();
    builder.end_value();
    true
}

/// The first byte of the name of a start tag.
#[tactic(auto, using(crate::proofs::MarkupLemmas::tag_begun_led))]
fn start_name_mark(tracker: &mut Tracker, builder: &mut Builder, byte: u8) -> bool
    ensures rules { tracker.new.rules ≡ tracker.old.rules }
    ensures read { result ≡ true → LeadsBy tracker.old.rules tracker.old.frame (building builder.old) (byte ∷ []) tracker.new.frame (building builder.new) }
    ensures kept { result ≡ false → (tracker.new ≡ tracker.old) × (building builder.new ≡ building builder.old) }
{
    if !builder.reserve_name() || !tracker.begin_start_name(byte) {
        return false;
    }
    builder.open_tag(byte);
    true
}

/// The first byte of the name of an attribute.
#[tactic(auto, using(crate::proofs::MarkupLemmas::attribute_begun_led))]
fn attribute_name_mark(tracker: &mut Tracker, builder: &mut Builder, byte: u8) -> bool
    ensures rules { tracker.new.rules ≡ tracker.old.rules }
    ensures read { result ≡ true → LeadsBy tracker.old.rules tracker.old.frame (building builder.old) (byte ∷ []) tracker.new.frame (building builder.new) }
    ensures kept { result ≡ false → (tracker.new ≡ tracker.old) × (building builder.new ≡ building builder.old) }
{
    let Ok(name) = one_byte(builder.alloc, byte) else {
        return false;
    };
    if !tracker.begin_attribute_name(byte) {
        return false;
    }
    builder.open_attribute(name);
    true
}

/// The end of a start tag.
#[tactic(auto, using(crate::proofs::EndLemmas::entered_led, crate::proofs::EndLemmas::entered_named))]
#[inline(never)]
fn start_end_mark(tracker: &mut Tracker, builder: &mut Builder, byte: u8) -> bool
    requires { HasTexts tracker.old.frame (tag_of builder.old) }
    ensures rules { tracker.new.rules ≡ tracker.old.rules }
    ensures read { result ≡ true → LeadsBy tracker.old.rules tracker.old.frame (building builder.old) (byte ∷ []) tracker.new.frame (building builder.new) }
    ensures kept { result ≡ false → (tracker.new ≡ tracker.old) × (building builder.new ≡ building builder.old) }
{
    if !tracker.may_enter(byte) || !builder.has_header() {
        return false;
    }
    let Ok(beginning) = builder.beginning() else {
        return false;
    };
    if !tracker.enter() {
        return false;
    }
    builder.end_start(beginning);
    true
}

/// The end of an empty-element tag.
#[tactic(auto, using(crate::proofs::EndLemmas::hollow_led, crate::proofs::EndLemmas::hollow_named))]
#[inline(never)]
fn hollow_end_mark(tracker: &mut Tracker, builder: &mut Builder, byte: u8) -> bool
    requires { HasTexts tracker.old.frame (tag_of builder.old) }
    ensures rules { tracker.new.rules ≡ tracker.old.rules }
    ensures read { result ≡ true → LeadsBy tracker.old.rules tracker.old.frame (building builder.old) (byte ∷ []) tracker.new.frame (building builder.new) }
    ensures kept { result ≡ false → (tracker.new ≡ tracker.old) × (building builder.new ≡ building builder.old) }
{
    if !tracker.is_hollow_end(byte) || !builder.has_open() {
        return false;
    }
    let Ok(resolved) = builder.hollow() else {
        return false;
    };
    tracker.end_hollow();
    builder.end_hollow(resolved);
    true
}

/// The end of an end tag.
#[tactic(auto, using(crate::proofs::EndLemmas::left_led))]
#[inline(never)]
fn end_mark(tracker: &mut Tracker, builder: &mut Builder, byte: u8) -> bool
    ensures rules { tracker.new.rules ≡ tracker.old.rules }
    ensures read { result ≡ true → LeadsBy tracker.old.rules tracker.old.frame (building builder.old) (byte ∷ []) tracker.new.frame (building builder.new) }
    ensures kept { result ≡ false → (tracker.new ≡ tracker.old) × (building builder.new ≡ building builder.old) }
{
    if !tracker.is_end(byte) || !builder.has_parent() || !builder.reserve_words() {
        return false;
    }
    tracker.leave();
    builder.end_element();
    true
}

/// Any of these.
pub(crate) fn mark(tracker: &mut Tracker, builder: &mut Builder, byte: u8) -> bool
    requires { HasTexts tracker.old.frame (tag_of builder.old) }
    ensures rules { tracker.new.rules ≡ tracker.old.rules }
    ensures read { result ≡ true → LeadsBy tracker.old.rules tracker.old.frame (building builder.old) (byte ∷ []) tracker.new.frame (building builder.new) }
    ensures kept { result ≡ false → (tracker.new ≡ tracker.old) × (building builder.new ≡ building builder.old) }
{
    match tracker.mark_of(byte) {
        MarkOf::Silent => silent_mark(tracker, byte),
        MarkOf::StartName => start_name_mark(tracker, builder, byte),
        MarkOf::EndName => end_name_mark(tracker, byte),
        MarkOf::AttributeName => attribute_name_mark(tracker, builder, byte),
        MarkOf::ValueOpen => value_open_mark(tracker, byte),
        MarkOf::ValueEnd => value_end_mark(tracker, builder, byte),
        MarkOf::StartEnd => start_end_mark(tracker, builder, byte),
        MarkOf::HollowEnd => hollow_end_mark(tracker, builder, byte),
        MarkOf::End => end_mark(tracker, builder, byte),
        MarkOf::Nothing => false,
    }
}
