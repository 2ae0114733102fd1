//! Where a run may stand, and what it adds to the names that are being read.

ghost use Rattle.std.specs.Prelude.{◌≡◌, ◌≤◌, ◌++◌, take, length, true, false};
ghost use Rattle.stream_frames.specs.Runs.{is_words_stage, value_quote, is_attribute_stage, is_start_stage, is_end_stage};
ghost use Rattle.stream_frames.specs.Runs.{is_between_characters, is_in_words, open_quote, is_in_attribute_name};
ghost use Rattle.stream_frames.specs.Runs.{is_in_start_name, is_in_end_name, named_on, closing_left, closing_on};

use crate::places::Place;
use crate::runs::RunOf;
use crate::tracker::{Standing, Tracker};
use stream_lex::{Context, NameOwner, Pending, Quote, Stage, State};

/// Whether a stage is in words.
pub(crate) fn is_at_words(stage: Stage) -> bool
    ensures { result ≡ is_words_stage stage }
{
    matches!(stage, Stage::Text(Context::Words))
}

fn quote_at(stage: Stage) -> Option<Quote>
    ensures { result ≡ value_quote stage }
{
    match stage {
        Stage::Text(Context::Value(quote)) => Some(quote),
        _ => None,
    }
}

fn is_at_attribute(stage: Stage) -> bool
    ensures { result ≡ is_attribute_stage stage }
{
    matches!(stage, Stage::Name(NameOwner::Attribute, _))
}

fn is_at_start(stage: Stage) -> bool
    ensures { result ≡ is_start_stage stage }
{
    matches!(stage, Stage::Name(NameOwner::StartTag, _))
}

/// Whether a stage is in the name of an end tag.
pub(crate) fn is_at_end(stage: Stage) -> bool
    ensures { result ≡ is_end_stage stage }
{
    matches!(stage, Stage::Name(NameOwner::EndTag, _))
}

/// Whether no character and no line end has come in part.
pub(crate) fn is_between(state: State) -> bool
    ensures { result ≡ is_between_characters state }
{
    matches!(state.pending, Pending::Nothing) && !state.returned
}

impl Tracker {
    /// What the bytes that come next may be a run of.
    pub(crate) fn run_of(&self) -> RunOf {
        match self.standing {
            Standing::Open(Place::Inside) => RunOf::Words,
            Standing::Open(Place::InValue(_)) => RunOf::Value,
            Standing::Open(Place::NamingAttribute(_)) => RunOf::AttributeName,
            Standing::Open(Place::Naming) => RunOf::StartName,
            Standing::Open(Place::Closing(_)) => RunOf::EndName,
            _ => RunOf::Nothing,
        }
    }

    /// Whether it stands between two characters of words of an element in the stream's.
    pub(crate) fn is_in_words(&self) -> bool
        ensures { result ≡ is_in_words self.now.frame }
    {
        match self.standing {
            Standing::Open(Place::Inside) => {
                self.open.count() > 1 && (is_at_words(self.state.stage) && is_between(self.state))
            }
            _ => false,
        }
    }

    /// The quotes of the value between two characters of which it stands.
    pub(crate) fn open_quote(&self) -> Option<Quote>
        ensures { result ≡ open_quote self.now.frame }
    {
        match self.standing {
            Standing::Open(Place::InValue(_)) => {
                if is_between(self.state) {
                    quote_at(self.state.stage)
                } else {
                    None
                }
            }
            _ => None,
        }
    }

    /// Whether it stands between two characters of the name of an attribute.
    pub(crate) fn is_in_attribute_name(&self) -> bool
        ensures { result ≡ is_in_attribute_name self.now.frame }
    {
        match self.standing {
            Standing::Open(Place::NamingAttribute(_)) => {
                is_at_attribute(self.state.stage) && is_between(self.state)
            }
            _ => false,
        }
    }

    /// Whether it stands between two characters of the name of a start tag.
    pub(crate) fn is_in_start_name(&self) -> bool
        ensures { result ≡ is_in_start_name self.now.frame }
    {
        match self.standing {
            Standing::Open(Place::Naming) => {
                is_at_start(self.state.stage) && is_between(self.state)
            }
            _ => false,
        }
    }

    /// Whether it stands between two characters of the name of an end tag, but for the stream's.
    pub(crate) fn is_in_end_name(&self) -> bool
        ensures { result ≡ is_in_end_name self.now.frame }
    {
        match self.standing {
            Standing::Open(Place::Closing(_)) => {
                self.open.count() > 1 && (is_at_end(self.state.stage) && is_between(self.state))
            }
            _ => false,
        }
    }

    /// Adds to the name of a start tag. Answers whether there was memory.
    pub(crate) fn add_start_name(&mut self, run: &[u8]) -> bool
        ensures added { result ≡ true → self.new ≡ record self.old { frame = named_on self.old.frame run.now } }
        ensures kept { result ≡ false → self.new ≡ self.old }
    {
        match self.standing {
            Standing::Open(Place::Naming) => self.name.rest.extend_from_slice(run).is_ok(),
            _ => false,
        }
    }

    /// Goes on in the name of an end tag by as many of the bytes as are its next: how many. Takes no memory.
    pub(crate) fn add_end_name(&mut self, bytes: &[u8]) -> usize
        ensures fits { result ≤ length bytes.now }
        ensures same { closing_left self.old.frame ≡ take result bytes.now ++ closing_left self.new.frame }
        ensures tracked { self.new ≡ record self.old { frame = closing_on self.old.frame (closing_left self.new.frame) } }
    {
        match self.standing {
            Standing::Open(Place::Closing(at)) => {
                let (count, next) = self.open.goes_on_by(at, bytes);
                self.standing = Standing::Open(Place::Closing(next));
                count
            }
            _ => 0,
        }
    }
}
