//! Where the bytes of a stream stand: its syntax alone, without namespaces and without limits on bytes.

ghost use Rattle.std.specs.Prelude.{◌≡◌, ℕ, ◌<◌, ◌^◌, [], true, false, None, Some, IfOk, IfErr, OnOk, OnErr};
ghost use Rattle.stream_lex.specs.declared.stages.State.{State};
ghost use Rattle.stream_lex.specs.machine.Leading.{tokens_of, IsTurned};
ghost use Rattle.stream_grammar.specs.machine.Framing.{open_at, ended, first_frame, frame_next, is_broken, lexical_fault, fault_at};
ghost use Rattle.stream_lex.specs.machine.Live.{is_live};
ghost use Rattle.stream_lex.specs.machine.Turns.{turn};
ghost use Rattle.stream_grammar.specs.machine.Ends.{told_at};
ghost use Rattle.stream_frames.specs.Stacks.{raw};
ghost use Rattle.stream_frames.specs.Moves.{tokens_move, breaks};
ghost use Rattle.stream_grammar.specs.grammar.Trees.{RawName, is_space};
ghost use Rattle.stream_grammar.specs.declared.rules.Rules.{Rules};
ghost use Rattle.stream_frames.specs.Turned.{Lexes};
ghost use Rattle.stream_grammar.specs.machine.Ends.{in_item, in_item_nest};
ghost use Rattle.stream_grammar.specs.machine.Telling.{is_few, fault_told};
ghost use Rattle.stream_frames.specs.Tracking.{nest_at, moved, framed, frame_of, tried, judged};

use crate::names::{Names, OpenName};
use crate::places::{Move, Place, is_breaking, is_white, move_of};
use stanza_tree::NoMemory;
use std::alloc::Global;
use std::marker::Model;
use stream_grammar::{FrameFault, Rules};
use stream_lex::{Context, Lex, LexFault, Lexed, Stage, State, Token};

/// Whether a stream is open, ended or broken.
#[derive(Clone, Copy)]
pub(crate) enum Standing {
    /// In a stream.
    Open(Place),
    /// After the end tag of the stream.
    Ended,
    /// No stream begins so.
    Broken,
}

fn fault_of_lex(fault: LexFault) -> FrameFault
    ensures { result ≡ lexical_fault fault }
{
    match fault {
        LexFault::NotWellFormed => FrameFault::NotWellFormed,
        LexFault::Restricted => FrameFault::Restricted,
        LexFault::BadEncoding => FrameFault::BadEncoding,
    }
}

/// Whether the tokens break under the rules.
fn breaks_under(rules: Rules, place: Place, state: State, open: &Names, tokens: &[Token]) -> bool
    ensures { result ≡ breaks rules state (tokens_move rules place open.now tokens.now) open.now }
{
    let made = move_of(rules, place, open, tokens);
    is_breaking(rules, state, made, open)
}

/// The fault of tokens that break, by rules that allow more.
fn tried_fault(
    rules: Rules,
    place: Place,
    state: State,
    open: &Names,
    tokens: &[Token],
) -> FrameFault
    requires deep { rules.depth < 2 ^ 63 }
    requires wide { rules.attributes < 2 ^ 63 }
    ensures { result ≡ tried rules place open.now state tokens.now }
{
    if !breaks_under(rules.deepened(), place, state, open, tokens) {
        FrameFault::TooDeep
    } else if !breaks_under(rules.widened(), place, state, open, tokens) {
        FrameFault::TooManyAttrs
    } else if !breaks_under(rules.loosened(), place, state, open, tokens) {
        FrameFault::BadFormat
    } else {
        FrameFault::NotWellFormed
    }
}

/// What the tokens of a byte do, or their fault.
fn judge_tokens(
    rules: Rules,
    place: Place,
    state: State,
    open: &Names,
    tokens: &[Token],
) -> Result<Move, FrameFault>
    requires deep { rules.depth < 2 ^ 63 }
    requires wide { rules.attributes < 2 ^ 63 }
    ensures made { IfOk result (λ m. m ≡ tokens_move rules place open.now tokens.now) }
    ensures ok { OnOk result (breaks rules state (tokens_move rules place open.now tokens.now) open.now ≡ false) }
    ensures err { OnErr result (breaks rules state (tokens_move rules place open.now tokens.now) open.now ≡ true) }
    ensures fault { IfErr result (λ f. f ≡ tried rules place open.now state tokens.now) }
{
    let made = move_of(rules, place, open, tokens);
    if is_breaking(rules, state, made, open) {
        Err(tried_fault(rules, place, state, open, tokens))
    } else {
        Ok(made)
    }
}

/// What a byte's reading does, or its fault.
fn judge(
    rules: Rules,
    place: Place,
    state: State,
    open: &Names,
    lexed: &Lexed,
) -> Result<Move, FrameFault>
    requires deep { rules.depth < 2 ^ 63 }
    requires wide { rules.attributes < 2 ^ 63 }
    ensures made { IfOk result (λ m. m ≡ tokens_move rules place open.now (tokens_of lexed.now)) }
    ensures ok { OnOk result (judged rules place open.now state lexed.now.fault (tokens_of lexed.now) ≡ None) }
    ensures err { IfErr result (λ f. judged rules place open.now state lexed.now.fault (tokens_of lexed.now) ≡ Some f) }
{
    match lexed.fault {
        Some(fault) => Err(fault_of_lex(fault)),
        None => judge_tokens(rules, place, state, open, lexed.told()),
    }
}

/// Where a place stands: between tags with nothing open is the end.
fn standing_of(place: Place, open: &Names) -> Standing
    ensures { (s : State) (n : RawName) → framed result s open.now n ≡ frame_of s (nest_at place open.now n) }
{
    match place {
        Place::Inside if open.is_none() => Standing::Ended,
        _ => Standing::Open(place),
    }
}

/// Makes a move: changes where the stream stands, the open names, and the name that is being read.
fn make(
    alloc: Global,
    made: Move,
    standing: &mut Standing,
    open: &mut Names,
    name: &mut OpenName,
) -> Result<(), NoMemory>
    ensures ok { OnOk result ((s : State) → framed standing.new s open.new (raw name.new) ≡ frame_of s (moved made open.old (raw name.old))) }
    ensures err { OnErr result ((standing.new ≡ standing.old) × (open.new ≡ open.old) × (raw name.new ≡ raw name.old)) }
{
    match made {
        Move::To(Place::Inside) => {
            *name = OpenName::beginning(alloc, 0);
            *standing = standing_of(Place::Inside, open);
        }
        Move::To(place) => *standing = standing_of(place, open),
        Move::Roots(byte) => {
            *open = Names::new(alloc);
            *name = OpenName::beginning(alloc, byte);
            *standing = Standing::Open(Place::Naming);
        }
        Move::Begins(byte) => {
            *name = OpenName::beginning(alloc, byte);
            *standing = Standing::Open(Place::Naming);
        }
        Move::Adds(byte) => {
            name.add(byte)?;
            *standing = Standing::Open(Place::Naming);
        }
        Move::Enters => {
            open.push(name)?;
            *standing = Standing::Open(Place::Inside);
        }
        Move::Leaves => {
            open.pop();
            *standing = standing_of(Place::Inside, open);
        }
        Move::Lost => *standing = Standing::Broken,
    }
    Ok(())
}

/// The fault of a byte after the end tag of the stream that is no white space (RFC 6120, 4.9.3.13 and 4.9.3.22).
fn fault_after_end(byte: u8) -> FrameFault
    requires { is_space byte ≡ false }
    ensures { (r : Rules) → result ≡ fault_at r ended byte }
{
    let mut lex = Lex::at(State::between(Stage::Text(Context::Words), false));
    match lex.step(byte).fault {
        Some(fault) => fault_of_lex(fault),
        None => FrameFault::NotWellFormed,
    }
}

/// What a byte tells that tells nothing.
fn untold() -> Lexed
    ensures { tokens_of result ≡ [] }
{
    Lexed {
        tokens: [Token::CloseEnds; 4],
        count: 0,
        fault: None,
    }
}

/// Whether a place is in a header or in a top element.
fn is_place_in_item(place: Place, open: &Names) -> bool
    ensures { (n : RawName) → result ≡ in_item_nest (nest_at place open.now n) }
{
    match place {
        Place::Start | Place::Declared => false,
        Place::Inside => open.count() > 1,
        Place::Naming | Place::InTag(_) | Place::NamingAttribute(_) | Place::InValue(_) => true,
        Place::Closing(_) => open.count() > 1,
    }
}

/// What the lexical layer makes of a byte, and where it is then.
#[derive(Clone, Copy)]
pub(crate) struct Turned {
    pub(crate) lexed: Lexed,
    pub(crate) state: State,
}

/// What a byte does in an open stream, or its fault.
fn read(rules: Rules, place: Place, open: &Names, turned: &Turned) -> Result<Move, FrameFault>
    requires deep { rules.depth < 2 ^ 63 }
    requires wide { rules.attributes < 2 ^ 63 }
    ensures ok { IfOk result (λ m. (s : State) (b : ℕ) (n : RawName) → IsTurned s (turn s b) turned.now.state turned.now.lexed
        → (frame_next rules (open_at s (nest_at place open.now n)) b ≡ frame_of turned.now.state (moved m open.now n))
        × (is_broken (frame_next rules (open_at s (nest_at place open.now n)) b) ≡ false)) }
    ensures err { IfErr result (λ f. (s : State) (b : ℕ) (n : RawName) → IsTurned s (turn s b) turned.now.state turned.now.lexed
        → (is_broken (frame_next rules (open_at s (nest_at place open.now n)) b) ≡ true)
        × (f ≡ fault_at rules (open_at s (nest_at place open.now n)) b)) }
{
    judge(rules, place, turned.state, open, &turned.lexed)
}

/// A reader of the syntax of one stream, byte by byte: of its names, how its tags nest, and what stands between top elements.
/// It keeps the names of the elements that are open.
#[derive(Drop)]
pub(crate) struct Tracker {
    pub(crate) alloc: Global,
    pub(crate) rules: Rules,
    pub(crate) state: State,
    pub(crate) standing: Standing,
    pub(crate) open: Names,
    pub(crate) name: OpenName,
}

impl Model for Tracker {
    ghost use Rattle.std.specs.Prelude.{◌≡◌, ℕ, ◌<◌, ◌^◌, true};
    ghost use Rattle.stream_lex.specs.machine.Live.{is_live};
    ghost use Rattle.stream_frames.specs.Stacks.{raw};
    ghost use Rattle.stream_frames.specs.Tracking.{Tracked, framed};

    ghost Value = { Tracked };

    ghost view = { λ t. record { rules = t.rules; frame = framed t.standing t.state t.open (raw t.name) } };

    ghost invariant = { λ t. (is_live t.state ≡ true) × (t.rules.depth < 2 ^ 63) × (t.rules.attributes < 2 ^ 63) };
}

impl Tracker {
    /// A tracker that has read nothing. Takes no memory.
    pub(crate) fn new(alloc: Global, rules: Rules) -> Tracker
        requires deep { rules.depth < 2 ^ 63 }
        requires wide { rules.attributes < 2 ^ 63 }
        ensures { result ≡ record { rules = rules; frame = first_frame } }
    {
        Tracker {
            alloc,
            rules,
            state: State::start(),
            standing: Standing::Open(Place::Start),
            open: Names::new(alloc),
            name: OpenName::beginning(alloc, 0),
        }
    }

    /// What the lexical layer makes of a byte.
    pub(crate) fn lex(&self, byte: u8) -> Turned
        ensures turned { Lexes self.now.frame byte result }
        ensures told { tokens_of result.lexed ≡ told_at self.now.frame byte }
        ensures few { is_few (tokens_of result.lexed) ≡ true }
    {
        match self.standing {
            Standing::Open(_) => {
                let mut lex = Lex::at(self.state);
                let lexed = lex.step(byte);
                Turned {
                    lexed,
                    state: lex.state,
                }
            }
            Standing::Ended | Standing::Broken => Turned {
                lexed: untold(),
                state: self.state,
            },
        }
    }

    /// Reads a byte of which the lexical layer makes this. Answers its fault where it is the first with which no stream goes
    /// on. Where there was no memory the tracker is as before.
    pub(crate) fn step_lexed(
        &mut self,
        byte: u8,
        turned: &Turned,
    ) -> Result<Option<FrameFault>, NoMemory>
        requires { Lexes self.old.frame byte turned.now }
        ensures frame { OnOk result (self.new ≡ record self.old { frame = frame_next self.old.rules self.old.frame byte }) }
        ensures fault { IfOk result (λ f. f ≡ fault_told self.old.rules self.old.frame byte) }
        ensures err { OnErr result (self.new ≡ self.old) }
    {
        match self.standing {
            Standing::Open(place) => match read(self.rules, place, &self.open, turned) {
                Ok(made) => {
                    make(
                        self.alloc,
                        made,
                        &mut self.standing,
                        &mut self.open,
                        &mut self.name,
                    )?;
                    self.state = turned.state;
                    Ok(None)
                }
                Err(fault) => {
                    self.standing = Standing::Broken;
                    Ok(Some(fault))
                }
            },
            Standing::Ended => {
                if is_white(byte as u32) {
                    return Ok(None);
                }
                self.standing = Standing::Broken;
                Ok(Some(fault_after_end(byte)))
            }
            Standing::Broken => Ok(None),
        }
    }

    /// Keeps no room for names where none is open but the stream's.
    pub(crate) fn release(&mut self)
        ensures { self.new ≡ self.old }
    {
        self.open.release();
    }

    /// Whether a header or a top element is open, as far as its start tag has come beyond its `<`.
    pub(crate) fn is_in_item(&self) -> bool
        ensures { result ≡ in_item self.now.frame }
    {
        match self.standing {
            Standing::Open(place) => is_place_in_item(place, &self.open),
            Standing::Ended | Standing::Broken => false,
        }
    }
}
