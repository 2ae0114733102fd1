//! What a byte of markup that ends no tag does to the place, without the lexical layer.

ghost use Rattle.std.specs.Prelude.{◌≡◌, true, false, IfSome};
ghost use Rattle.stream_lex.specs.declared.characters.Pending.TheVariants as pending;
ghost use Rattle.stream_lex.specs.machine.Live.{is_live, is_live_stage};
ghost use Rattle.stream_lex.specs.machine.Turns.{at};
ghost use Rattle.stream_grammar.specs.machine.Framing.{is_empty_mark};
ghost use Rattle.stream_grammar.specs.grammar.Trees.{RawName};
ghost use Rattle.stream_frames.specs.Tracking.{nest_at};
ghost use Rattle.stream_frames.specs.Markup.{only_at, after_part, silent_stage, may_be_silent, is_silent, silenced, is_name_head, is_less};
ghost use Rattle.stream_frames.specs.Markup.{is_end_mark, is_in_tag, is_value_awaited, quote_byte, quote_of, closes_by, now_closing, awaits_value};
ghost use Rattle.stream_frames.specs.Markup.{now_in_value, now_in_tag, begins_by, now_naming, attributed_by, now_attributed, ends_start};
ghost use Rattle.stream_frames.specs.Markup.{begins_item, now_begun, enters_by, now_entered, hollows_by, now_hollow, leaves_by, now_left};
ghost use Rattle.stream_frames.specs.Stacks.{outer};

use crate::markup::MarkOf;
use crate::names::{Names, OpenName};
use crate::places::Place;
use crate::tracker::{Standing, Tracker};
use crate::tracker_runs::{is_at_end, is_at_words, is_between};
use stream_lex::{Context, Half, NameOwner, Quote, Stage, State};

/// A stage between two characters.
#[tactic(auto, unfolding(stream_lex::specs::machine::Live::is_live))]
fn between(stage: Stage) -> State
    requires { is_live_stage stage ≡ true }
    ensures state { result ≡ at stage pending.Nothing false }
    ensures live { is_live result ≡ true }
{
    State::between(stage, false)
}

fn only_at(wanted: u8, stage: Stage, byte: u8) -> Option<Stage>
    ensures { result ≡ only_at wanted stage byte }
{
    if byte == wanted { Some(stage) } else { None }
}

fn after_part(byte: u8) -> Option<Stage>
    ensures { result ≡ after_part byte }
{
    if byte == b' ' {
        Some(Stage::InTag)
    } else if byte == b'/' {
        Some(Stage::EmptyTagMark)
    } else {
        None
    }
}

/// The stage after a byte that tells nothing (XML 1.0, 3.1).
fn stage_after(stage: Stage, byte: u8) -> Option<Stage>
    ensures to { result ≡ silent_stage stage byte }
    ensures live { IfSome result (λ s. is_live_stage s ≡ true) }
{
    match stage {
        Stage::Text(Context::Words) => only_at(b'<', Stage::Less, byte),
        Stage::Less => only_at(b'/', Stage::EndTagMark, byte),
        Stage::Name(NameOwner::StartTag, _) => after_part(byte),
        Stage::Name(NameOwner::Attribute, _) => only_at(b'=', Stage::ValueAwaited, byte),
        Stage::ValueEnded => after_part(byte),
        Stage::InTag => only_at(b'/', Stage::EmptyTagMark, byte),
        _ => None,
    }
}

/// Whether a byte that tells nothing may stand at the place.
fn may_be_silent(place: Place, open: &Names) -> bool
    ensures { (n : RawName) → result ≡ may_be_silent (nest_at place open.now n) }
{
    match place {
        Place::Inside => open.count() > 1,
        Place::Naming | Place::InTag(_) => !open.is_none(),
        Place::NamingAttribute(_) => true,
        _ => false,
    }
}

/// Whether a byte is a first character of a name (Namespaces in XML 1.0, 3).
fn is_name_head(byte: u8) -> bool
    ensures { result ≡ is_name_head byte }
{
    (97 <= byte && byte <= 122) || ((65 <= byte && byte <= 90) || byte == 95)
}

fn is_less(stage: Stage) -> bool
    ensures { result ≡ is_less stage }
{
    matches!(stage, Stage::Less)
}

fn is_end_mark(stage: Stage) -> bool
    ensures { result ≡ is_end_mark stage }
{
    matches!(stage, Stage::EndTagMark)
}

fn is_in_tag(stage: Stage) -> bool
    ensures { result ≡ is_in_tag stage }
{
    matches!(stage, Stage::InTag)
}

fn is_value_awaited(stage: Stage) -> bool
    ensures { result ≡ is_value_awaited stage }
{
    matches!(stage, Stage::ValueAwaited)
}

/// The quotes that a byte opens.
pub(crate) fn quote_of(byte: u8) -> Option<Quote>
    ensures { result ≡ quote_of byte }
{
    if byte == b'\'' {
        Some(Quote::Single)
    } else if byte == b'"' {
        Some(Quote::Double)
    } else {
        None
    }
}

/// The byte of a quote.
pub(crate) fn quote_byte(quote: Quote) -> u8
    ensures { result ≡ quote_byte quote }
{
    match quote {
        Quote::Double => b'"',
        Quote::Single => b'\'',
    }
}

/// Whether a start tag ends at a `>` from the stage.
fn ends_start(stage: Stage) -> bool
    ensures { result ≡ ends_start stage }
{
    matches!(
        stage,
        Stage::Name(NameOwner::StartTag, _) | Stage::InTag | Stage::ValueEnded
    )
}

fn is_empty_mark(stage: Stage) -> bool
    ensures { result ≡ is_empty_mark stage }
{
    matches!(stage, Stage::EmptyTagMark)
}

impl Tracker {
    /// What markup the byte may be, by the stage alone: whoever reads it looks closer.
    pub(crate) fn mark_of(&self, byte: u8) -> MarkOf {
        match self.state.stage {
            Stage::Text(Context::Value(quote)) if byte == quote_byte(quote) => MarkOf::ValueEnd,
            Stage::Text(Context::Words) if byte == b'<' => MarkOf::Silent,
            Stage::Name(NameOwner::EndTag, _) if byte == b'>' => MarkOf::End,
            Stage::Name(NameOwner::StartTag, _) | Stage::InTag | Stage::ValueEnded
                if byte == b'>' => { MarkOf::StartEnd }
            Stage::EmptyTagMark => MarkOf::HollowEnd,
            Stage::Name(_, _) if byte < b'a' => MarkOf::Silent,
            Stage::Less if byte != b'/' => MarkOf::StartName,
            Stage::InTag if byte != b'/' => MarkOf::AttributeName,
            Stage::Less | Stage::InTag | Stage::ValueEnded => MarkOf::Silent,
            Stage::EndTagMark => MarkOf::EndName,
            Stage::ValueAwaited => MarkOf::ValueOpen,
            _ => MarkOf::Nothing,
        }
    }

    /// Reads a byte that tells nothing. Answers whether it was one.
    pub(crate) fn skip_silent(&mut self, byte: u8) -> bool
        ensures silent { result ≡ is_silent self.old.frame byte }
        ensures read { result ≡ true → self.new ≡ record self.old { frame = silenced self.old.frame byte } }
        ensures kept { result ≡ false → self.new ≡ self.old }
    {
        let Standing::Open(place) = self.standing else {
            return false;
        };
        if !(may_be_silent(place, &self.open) && is_between(self.state)) {
            return false;
        }
        match stage_after(self.state.stage, byte) {
            Some(stage) => {
                self.state = between(stage);
                true
            }
            None => false,
        }
    }

    /// Reads the `<` of a tag between top elements. Answers whether it was one.
    pub(crate) fn begin_item(&mut self, byte: u8) -> bool
        ensures begins { result ≡ begins_item self.old.frame byte }
        ensures read { result ≡ true → self.new ≡ record self.old { frame = now_begun self.old.frame } }
        ensures kept { result ≡ false → self.new ≡ self.old }
    {
        let Standing::Open(Place::Inside) = self.standing else {
            return false;
        };
        let is_less = byte == b'<' && (is_at_words(self.state.stage) && is_between(self.state));
        if self.open.is_one() && is_less {
            self.state = between(Stage::Less);
            true
        } else {
            false
        }
    }

    /// Reads the first byte of the name of an end tag, but for the stream's. Answers whether it was one.
    pub(crate) fn begin_end_name(&mut self, byte: u8) -> bool
        ensures closes { result ≡ closes_by self.old.frame byte }
        ensures read { result ≡ true → self.new ≡ record self.old { frame = now_closing self.old.frame } }
        ensures kept { result ≡ false → self.new ≡ self.old }
    {
        let Standing::Open(Place::Inside) = self.standing else {
            return false;
        };
        let is_mark = is_end_mark(self.state.stage) && is_between(self.state);
        if is_mark
            && (self.open.count() > 1 && (self.open.begins_with(byte) && is_name_head(byte)))
        {
            self.state = between(Stage::Name(NameOwner::EndTag, Half::Prefix));
            self.standing = Standing::Open(Place::Closing(0));
            true
        } else {
            false
        }
    }

    /// Reads the quote before a value, where one must come. Answers whether one must.
    pub(crate) fn begin_value(&mut self, quote: Quote) -> bool
        ensures awaits { result ≡ awaits_value self.old.frame }
        ensures read { result ≡ true → self.new ≡ record self.old { frame = now_in_value self.old.frame quote } }
        ensures kept { result ≡ false → self.new ≡ self.old }
    {
        let Standing::Open(Place::NamingAttribute(attributes)) = self.standing else {
            return false;
        };
        if is_value_awaited(self.state.stage) && is_between(self.state) {
            self.state = between(Stage::Text(Context::Value(quote)));
            self.standing = Standing::Open(Place::InValue(attributes));
            true
        } else {
            false
        }
    }

    /// Reads the quote after a value, where it stands in one.
    pub(crate) fn end_value(&mut self)
        ensures { self.new ≡ record self.old { frame = now_in_tag self.old.frame } }
    {
        if let Standing::Open(Place::InValue(attributes)) = self.standing {
            self.state = between(Stage::ValueEnded);
            self.standing = Standing::Open(Place::InTag(attributes));
        }
    }

    /// Reads the first byte of the name of a start tag, but for the stream's. Answers whether it was one.
    pub(crate) fn begin_start_name(&mut self, byte: u8) -> bool
        ensures begins { result ≡ begins_by self.old.rules self.old.frame byte }
        ensures read { result ≡ true → self.new ≡ record self.old { frame = now_naming self.old.frame byte } }
        ensures kept { result ≡ false → self.new ≡ self.old }
    {
        let Standing::Open(Place::Inside) = self.standing else {
            return false;
        };
        let is_mark = is_less(self.state.stage) && is_between(self.state);
        let may_open = !self.open.is_none() && self.open.count() as u64 <= self.rules.depth;
        if is_mark && (may_open && is_name_head(byte)) {
            self.state = between(Stage::Name(NameOwner::StartTag, Half::Prefix));
            self.standing = Standing::Open(Place::Naming);
            self.name = OpenName::beginning(self.alloc, byte);
            true
        } else {
            false
        }
    }

    /// Reads the first byte of the name of an attribute. Answers whether it was one.
    pub(crate) fn begin_attribute_name(&mut self, byte: u8) -> bool
        ensures attributed { result ≡ attributed_by self.old.rules self.old.frame byte }
        ensures read { result ≡ true → self.new ≡ record self.old { frame = now_attributed self.old.frame } }
        ensures kept { result ≡ false → self.new ≡ self.old }
    {
        let attributes = match self.standing {
            Standing::Open(Place::Naming) => 0,
            Standing::Open(Place::InTag(attributes)) => attributes,
            _ => return false,
        };
        let is_mark = is_in_tag(self.state.stage) && is_between(self.state);
        if is_mark && (attributes < self.rules.attributes && is_name_head(byte)) {
            self.state = between(Stage::Name(NameOwner::Attribute, Half::Prefix));
            self.standing = Standing::Open(Place::NamingAttribute(attributes + 1));
            true
        } else {
            false
        }
    }

    /// Whether the byte ends a start tag, but for the stream's.
    pub(crate) fn may_enter(&self, byte: u8) -> bool
        ensures { result ≡ enters_by self.now.frame byte }
    {
        match self.standing {
            Standing::Open(Place::Naming | Place::InTag(_)) => {
                (ends_start(self.state.stage) && is_between(self.state))
                    && (!self.open.is_none() && byte == b'>')
            }
            _ => false,
        }
    }

    /// Reads the end of a start tag. Answers whether there was memory.
    pub(crate) fn enter(&mut self) -> bool
        ensures read { result ≡ true → self.new ≡ record self.old { frame = now_entered self.old.frame } }
        ensures kept { result ≡ false → self.new ≡ self.old }
    {
        match self.standing {
            Standing::Open(Place::Naming | Place::InTag(_)) => {
                if self.open.push(&mut self.name).is_err() {
                    return false;
                }
                self.state = between(Stage::Text(Context::Words));
                self.standing = Standing::Open(Place::Inside);
                true
            }
            _ => false,
        }
    }

    /// Whether the byte ends an empty-element tag in an element of the stream's.
    pub(crate) fn is_hollow_end(&self, byte: u8) -> bool
        ensures { result ≡ hollows_by self.now.frame byte }
    {
        match self.standing {
            Standing::Open(Place::Naming | Place::InTag(_)) => {
                (is_empty_mark(self.state.stage) && is_between(self.state))
                    && (self.open.count() > 1 && byte == b'>')
            }
            _ => false,
        }
    }

    /// Reads the end of an empty-element tag.
    pub(crate) fn end_hollow(&mut self)
        ensures { self.new ≡ record self.old { frame = now_hollow self.old.frame } }
    {
        if let Standing::Open(Place::Naming | Place::InTag(_)) = self.standing {
            self.state = between(Stage::Text(Context::Words));
            self.standing = Standing::Open(Place::Inside);
        }
    }

    /// Whether the byte ends an end tag in an element of the stream's.
    pub(crate) fn is_end(&self, byte: u8) -> bool
        ensures { result ≡ leaves_by self.now.frame byte }
    {
        match self.standing {
            Standing::Open(Place::Closing(at)) => {
                (is_at_end(self.state.stage) && is_between(self.state))
                    && (self.open.has_outer_two() && (self.open.is_whole(at) && byte == b'>'))
            }
            _ => false,
        }
    }

    /// Reads the end of an end tag.
    pub(crate) fn leave(&mut self)
        ensures { self.new ≡ record self.old { frame = now_left self.old.frame } }
    {
        if let Standing::Open(Place::Closing(_)) = self.standing {
            self.open.pop();
            self.state = between(Stage::Text(Context::Words));
            self.standing = Standing::Open(Place::Inside);
        }
    }
}
