//! Runs: bytes that end nothing and have no fault, read at once. Each function reads those that come first, as far as there is
//! memory, and answers how many; where none do, nothing changes.

ghost use Rattle.std.specs.Prelude.{◌≡◌, ◌≤◌, take, length, false};
ghost use Rattle.stream_grammar.specs.machine.Texts.{HasTexts};
ghost use Rattle.stream_frames.specs.Builds.{tag_of, building};
ghost use Rattle.stream_frames.specs.Markup.{LeadsBy};
ghost use Rattle.stream_frames.specs.Runs.{Leads};
ghost use Rattle.stream_frames.specs.Works.{work_of};

use crate::built::Builder;
use crate::markup::mark;
use crate::plain::{plain_name, plain_value, plain_words};
use crate::tracker::Tracker;
use crate::work::Work;

/// What the bytes that come next may be a run of, by the place alone: whoever reads the run looks closer.
#[derive(Clone, Copy)]
pub(crate) enum RunOf {
    Words,
    Value,
    AttributeName,
    StartName,
    EndName,
    Nothing,
}

/// Words in an element.
#[tactic(auto, using(crate::proofs::RunWords::words_led, crate::proofs::PlainLemmas::word_utf8, crate::proofs::RunLemmas::none_led))]
fn words_run(tracker: &Tracker, builder: &mut Builder, bytes: &[u8]) -> usize
    ensures fits { result ≤ length bytes.now }
    ensures run { Leads tracker.now.frame (building builder.old) (take result bytes.now) tracker.now.frame (building builder.new) }
{
    if !tracker.is_in_words() {
        return 0;
    }
    let count = plain_words(bytes);
    if !builder.add_plain_words(&bytes[..count]) {
        return 0;
    }
    count
}

/// The value of an attribute.
#[tactic(auto, using(crate::proofs::RunValues::value_led, crate::proofs::PlainLemmas::value_utf8, crate::proofs::RunLemmas::none_led))]
fn value_run(tracker: &Tracker, builder: &mut Builder, bytes: &[u8]) -> usize
    ensures fits { result ≤ length bytes.now }
    ensures run { Leads tracker.now.frame (building builder.old) (take result bytes.now) tracker.now.frame (building builder.new) }
{
    let Some(quote) = tracker.open_quote() else {
        return 0;
    };
    let count = plain_value(quote, bytes);
    if !builder.add_plain_value(&bytes[..count]) {
        return 0;
    }
    count
}

/// The name of an attribute.
#[tactic(auto, using(crate::proofs::RunNames::attribute_led, crate::proofs::RunLemmas::none_led))]
fn attribute_name_run(tracker: &Tracker, builder: &mut Builder, bytes: &[u8]) -> usize
    ensures fits { result ≤ length bytes.now }
    ensures run { Leads tracker.now.frame (building builder.old) (take result bytes.now) tracker.now.frame (building builder.new) }
{
    if !tracker.is_in_attribute_name() {
        return 0;
    }
    let count = plain_name(bytes);
    if !builder.add_attribute_name(&bytes[..count]) {
        return 0;
    }
    count
}

/// The name of a start tag.
#[tactic(auto, using(crate::proofs::RunNames::start_led, crate::proofs::RunLemmas::none_led))]
fn start_name_run(tracker: &mut Tracker, builder: &mut Builder, bytes: &[u8]) -> usize
    ensures fits { result ≤ length bytes.now }
    ensures rules { tracker.new.rules ≡ tracker.old.rules }
    ensures run { Leads tracker.old.frame (building builder.old) (take result bytes.now) tracker.new.frame (building builder.new) }
{
    if !tracker.is_in_start_name() {
        return 0;
    }
    let count = plain_name(bytes);
    if !builder.add_start_name(tracker, &bytes[..count]) {
        return 0;
    }
    count
}

/// The name of an end tag, as far as it is that of its start tag.
#[tactic(auto, using(crate::proofs::RunEnds::end_led, crate::proofs::RunLemmas::none_led))]
fn end_name_run(tracker: &mut Tracker, builder: &mut Builder, bytes: &[u8]) -> usize
    ensures fits { result ≤ length bytes.now }
    ensures rules { tracker.new.rules ≡ tracker.old.rules }
    ensures run { Leads tracker.old.frame (building builder.old) (take result bytes.now) tracker.new.frame (building builder.new) }
{
    if !tracker.is_in_end_name() {
        return 0;
    }
    let count = plain_name(bytes);
    builder.add_end_name(tracker, &bytes[..count])
}

/// Any of these.
#[tactic(auto, using(crate::proofs::RunLemmas::none_led))]
fn run(tracker: &mut Tracker, builder: &mut Builder, bytes: &[u8]) -> usize
    ensures fits { result ≤ length bytes.now }
    ensures rules { tracker.new.rules ≡ tracker.old.rules }
    ensures run { Leads tracker.old.frame (building builder.old) (take result bytes.now) tracker.new.frame (building builder.new) }
{
    match tracker.run_of() {
        RunOf::Words => words_run(tracker, builder, bytes),
        RunOf::Value => value_run(tracker, builder, bytes),
        RunOf::AttributeName => attribute_name_run(tracker, builder, bytes),
        RunOf::StartName => start_name_run(tracker, builder, bytes),
        RunOf::EndName => end_name_run(tracker, builder, bytes),
        RunOf::Nothing => 0,
    }
}

/// Runs and markup that ends no tag, as long as they come.
#[tactic(auto, using(crate::proofs::MarkupLemmas::nothing_led_by, crate::proofs::MarkupLemmas::mark_then, crate::proofs::MarkupLemmas::run_then, crate::proofs::RunLemmas::texts_led))]
fn runs(tracker: &mut Tracker, builder: &mut Builder, bytes: &[u8]) -> usize
    requires strict { tracker.old.rules.loose ≡ false }
    requires texts { HasTexts tracker.old.frame (tag_of builder.old) }
    ensures fits { result ≤ length bytes.now }
    ensures rules { tracker.new.rules ≡ tracker.old.rules }
    ensures run { LeadsBy tracker.old.rules tracker.old.frame (building builder.old) (take result bytes.now) tracker.new.frame (building builder.new) }
{
    let mut at = 0;
    while at < bytes.len() {
        if mark(tracker, builder, bytes[at]) {
            at += 1;
        } else {
            let count = run(tracker, builder, &bytes[at..]);
            at += count;
            if count == 0 {
                return at;
            }
        }
    }
    at
}

/// The same with what is being made of a stream.
#[tactic(auto, using(crate::proofs::MarkupLemmas::nothing_led_by))]
pub(crate) fn work_run(tracker: &mut Tracker, work: &mut Work, bytes: &[u8]) -> usize
    requires strict { tracker.old.rules.loose ≡ false }
    requires texts { HasTexts tracker.old.frame (work_of work.old).tag }
    ensures fits { result ≤ length bytes.now }
    ensures rules { tracker.new.rules ≡ tracker.old.rules }
    ensures run { LeadsBy tracker.old.rules tracker.old.frame (work_of work.old) (take result bytes.now) tracker.new.frame (work_of work.new) }
{
    match &mut work.builder {
        Some(builder) => runs(tracker, builder, bytes),
        None => 0,
    }
}
