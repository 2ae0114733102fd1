//! The bytes of a stream become items, however they are cut.

ghost use Rattle.std.specs.Prelude.{◌≡◌, ◌≤◌, ◌<◌, ◌+◌, List, [], ◌∷◌, ◌++◌, ℕ, take, drop, length, true, false};
ghost use Rattle.std.specs.Prelude.{IfOk, IfErr, OnOk, OnErr, Some, None, option_to_list};
ghost use Rattle.std.specs.Option.{option_copied};
ghost use Rattle.stream_grammar.specs.machine.Reading.{Reading, reads, stopped, first_reading, reading_next, reading_after};
ghost use Rattle.stream_grammar.specs.machine.Reading.{byte_judged, waiting, handed, is_ready, is_done, is_stopped, taken};
ghost use Rattle.stream_grammar.specs.grammar.Bounds.{is_large_item, rules_of};
ghost use Rattle.stream_grammar.specs.grammar.ItemLists.{AreItems, to_fault};
ghost use Rattle.stream_grammar.specs.grammar.Takes.{AreTaken};
ghost use Rattle.stream_grammar.specs.machine.Calls.{Called, feeds, falls_short, hands};
ghost use Rattle.stream_frames.specs.Fed.{Fed, IsPrepared};
ghost use Rattle.stream_grammar.specs.machine.Framing.{frame_next};
ghost use Rattle.stream_grammar.specs.machine.Ends.{told_at, in_item};
ghost use Rattle.stream_grammar.specs.machine.Telling.{is_few};
ghost use Rattle.stream_grammar.specs.machine.Building.{build_all};
ghost use Rattle.stream_grammar.specs.machine.Texts.{HasTexts, AreNamed};
ghost use Rattle.stream_frames.specs.Builds.{building, tag_of};
ghost use Rattle.stream_frames.specs.Runs.{IsRun};
ghost use Rattle.stream_frames.specs.Stands.{Stands};
ghost use Rattle.stream_frames.specs.Works.{work_of};

use crate::built::{Builder, Ready};
use crate::runs::work_run;
use crate::tags::TagFault;
use crate::tracker::Tracker;
use crate::work::Work;
use stanza_tree::{NoMemory, is_longer};
use std::alloc::Global;
use std::marker::Model;
use stream_grammar::{FrameFault, Item, Limits, NameFault};
use stream_lex::Token;

/// What every stream of a client is held to. A header or a top element has at most 65,536 bytes as it is read, 32 levels, 64
/// attributes on a tag, and 196,608 bytes as it is spelt, which is what a queue has to hold of it (RFC 6120, 4.9.3.14 and 13.12).
pub const LIMITS: Limits = Limits {
    bytes: 65_536,
    depth: 32,
    attrs: 64,
    canonical: 196_608,
};

/// What the tokens of a byte will do, or the fault by its names of a tag that they end.
fn prepared(builder: &mut Builder, told: &[Token]) -> Result<Result<Ready, FrameFault>, NoMemory>
    requires few { is_few told.now ≡ true }
    requires short { length told.now ≤ 4 }
    requires named { AreNamed (tag_of builder.old) told.now }
    ensures kept { building builder.new ≡ building builder.old }
    ensures prepared { IfOk result (λ p. IsPrepared builder.new told.now p) }
{
    match builder.prepare(told) {
        Ok(ready) => Ok(Ok(ready)),
        Err(TagFault::NoMemory) => Err(NoMemory),
        Err(TagFault::Names(NameFault::BadPrefix)) => Ok(Err(FrameFault::BadPrefix)),
        Err(TagFault::Names(NameFault::NotWellFormed)) => Ok(Err(FrameFault::NotWellFormed)),
    }
}

/// Whether the canonical spelling of an item is past its limit.
fn is_large(limits: Limits, item: &Option<Item>) -> bool
    ensures { result ≡ is_large_item limits item.now }
{
    match item {
        Some(Item::Header { root, .. }) => is_longer(root, limits.canonical),
        Some(Item::Top(element)) => is_longer(element, limits.canonical),
        _ => false,
    }
}

/// Reads a byte of a stream that has no fault so far, or answers its fault.
#[tactic(auto, using(stream_grammar::proofs::NameTexts::told_named))]
fn advance(
    limits: Limits,
    tracker: &mut Tracker,
    builder: &mut Builder,
    extent: u64,
    byte: u8,
) -> Result<Option<FrameFault>, NoMemory>
    requires rules { tracker.old.rules ≡ rules_of limits }
    requires texts { HasTexts tracker.old.frame (tag_of builder.old) }
    ensures rules { tracker.new.rules ≡ tracker.old.rules }
    ensures fault { IfOk result (λ f. f ≡ byte_judged limits tracker.old.frame (building builder.old) extent byte) }
    ensures reads { IfOk result (λ f. f ≡ None → (tracker.new.frame ≡ frame_next (rules_of limits) tracker.old.frame byte)
        × (building builder.new ≡ build_all (building builder.old) (told_at tracker.old.frame byte))) }
    ensures extent { IfOk result (λ f. f ≡ None → in_item tracker.new.frame ≡ true → extent < limits.bytes) }
    ensures err { OnErr result ((tracker.new ≡ tracker.old) × (building builder.new ≡ building builder.old)) }
{
    let is_full = extent >= limits.bytes as u64;
    if is_full && tracker.is_in_item() {
        return Ok(Some(FrameFault::TooLong));
    }
    let turned = tracker.lex(byte);
    let told = turned.lexed.told();
    let prepared = prepared(builder, told)?;
    let fault = tracker.step_lexed(byte, &turned)?;
    if is_full && tracker.is_in_item() {
        return Ok(Some(FrameFault::TooLong));
    }
    if fault.is_some() {
        return Ok(fault);
    }
    match prepared {
        Ok(ready) => builder.apply(ready, told),
        Err(fault) => return Ok(Some(fault)),
    }
    if is_large(limits, &builder.item) {
        return Ok(Some(FrameFault::TooLong));
    }
    Ok(None)
}

/// The same with what is being made of a stream.
#[tactic(auto, using(stream_grammar::proofs::NameTexts::read_texts))]
fn advance_work(
    limits: Limits,
    tracker: &mut Tracker,
    work: &mut Work,
    extent: u64,
    byte: u8,
) -> Result<Option<FrameFault>, NoMemory>
    requires rules { tracker.old.rules ≡ rules_of limits }
    requires texts { HasTexts tracker.old.frame (work_of work.old).tag }
    ensures rules { tracker.new.rules ≡ tracker.old.rules }
    ensures fault { IfOk result (λ f. f ≡ byte_judged limits tracker.old.frame (work_of work.old) extent byte) }
    ensures reads { IfOk result (λ f. f ≡ None → (tracker.new.frame ≡ frame_next (rules_of limits) tracker.old.frame byte)
        × (work_of work.new ≡ build_all (work_of work.old) (told_at tracker.old.frame byte))) }
    ensures texts { IfOk result (λ f. f ≡ None → HasTexts tracker.new.frame (work_of work.new).tag) }
    ensures extent { IfOk result (λ f. f ≡ None → in_item tracker.new.frame ≡ true → extent < limits.bytes) }
    ensures err { OnErr result ((tracker.new ≡ tracker.old) × (work_of work.new ≡ work_of work.old)) }
{
    work.open()?;
    match &mut work.builder {
        Some(builder) => advance(limits, tracker, builder, extent, byte),
        None => unreachable!(),
    }
}

/// There was no memory to read on. The first `taken` bytes of the piece were read, and the framer is as after these.
#[derive(Clone, Copy, Debug, PartialEq, Eq)]
pub struct Short {
    pub taken: usize,
}

/// Whether some bytes of a piece were not taken, since an item ended before them.
fn is_cut(taken: Result<usize, Short>, length: usize) -> bool {
    match taken {
        Ok(count) => count < length,
        Err(_) => false,
    }
}

/// A reader of the bytes of a stream (RFC 6120, 4.2): a header, top elements and a close tag, or the first fault.
///
/// The pieces that it is fed are the bytes of one stream, cut anywhere. It keeps the item that is being read and the names and
/// bindings of what is open; after a fault it keeps nothing.
///
/// What its calls do is said by the grammar in the clause `grammar` of each. From [`Framer::new`] or [`Framer::restart`] on it
/// `Stands` after the bytes that [`Framer::feed`] took and the items that [`Framer::next`] answered, however the bytes were cut
/// and the calls alternate, and after each `next` these are just the items of those bytes. The other clauses say the same of the
/// fold over the bytes that the code computes.
#[derive(Drop)]
pub struct Framer {
    alloc: Global,
    limits: Limits,
    tracker: Tracker,
    work: Work,
    extent: u64,
    offset: u64,
    fault: Option<FrameFault>,
    // Whether the piece that was fed last has bytes that are yet to come.
    is_amid: bool,
}

impl Model for Framer {
    ghost use Rattle.std.specs.Prelude.{◌≡◌, ◌≤◌, ◌^◌};
    ghost use Rattle.stream_frames.specs.Works.{work_of};
    ghost use Rattle.stream_grammar.specs.grammar.Bounds.{rules_of};
    ghost use Rattle.stream_frames.specs.Fed.{Fed, reading_of};
    ghost use Rattle.stream_grammar.specs.machine.Texts.{HasTexts};
    ghost use Rattle.std.specs.Coded.{codes};
    ghost use Rattle.stanza_tree.specs.contracts.node.Node as node;

    ghost Value = { Fed };

    ghost coded = { Prim.hlevel (codes, node.the_row.coded) };

    ghost view = { λ f. record { limits = f.limits; reading = reading_of f.fault f.tracker.frame (work_of f.work) f.extent f.offset } };

    ghost invariant = { λ f. (f.tracker.rules ≡ rules_of f.limits) × (f.extent ≤ 2 ^ 32) × HasTexts f.tracker.frame (work_of f.work).tag };
}

impl Framer {
    /// A framer that has read nothing.
    pub fn new(alloc: Global, limits: Limits) -> Result<Framer, NoMemory>
        ensures begun { IfOk result (λ f. f ≡ record { limits = limits; reading = first_reading }) }
        ensures grammar { IfOk result (λ f. Stands [] [] f) }
    {
        Ok(Framer {
            alloc,
            limits,
            tracker: Tracker::new(alloc, limits.rules()),
            work: Work::new(alloc),
            extent: 0,
            offset: 0,
            fault: None,
            is_amid: false,
        })
    }

    /// Reads the `<` of a tag between top elements. Answers whether it was one.
    #[tactic(auto, using(crate::proofs::ItemLemmas::item_begun, crate::proofs::ItemLemmas::begun_texts))]
    fn begin_item(&mut self, byte: u8) -> bool
        requires { is_stopped self.old.reading ≡ false }
        ensures read { result ≡ true → self.new ≡ record self.old { reading = reading_next self.old.limits self.old.reading byte } }
        ensures kept { result ≡ false → self.new ≡ self.old }
    {
        if self.is_done() || !self.tracker.begin_item(byte) {
            return false;
        }
        let read = 1;
        self.extent = read;
        self.offset = self.offset.saturating_add(read);
        true
    }

    /// Reads a byte, or has its fault.
    #[inline(never)]
    fn step(&mut self, byte: u8) -> Result<(), NoMemory>
        requires { is_stopped self.old.reading ≡ false }
        ensures ok { OnOk result (self.new ≡ record self.old { reading = reading_next self.old.limits self.old.reading byte }) }
        ensures err { OnErr result (self.new ≡ self.old) }
    {
        if self.begin_item(byte) {
            return Ok(());
        }
        let fault = advance_work(
            self.limits,
            &mut self.tracker,
            &mut self.work,
            self.extent,
            byte,
        )?;
        self.offset = self.offset.saturating_add(1);
        if fault.is_some() {
            self.fault = fault;
            self.tracker = Tracker::new(self.alloc, self.limits.rules());
            self.work = Work::new(self.alloc);
        } else if self.tracker.is_in_item() {
            self.extent += 1;
        } else {
            self.extent = 1;
        }
        Ok(())
    }

    /// Gives the room up that isn't needed between elements, unless more of a piece is to come.
    fn rest(&mut self)
        ensures { self.new ≡ self.old }
    {
        if !self.is_amid && self.work.is_idle() {
            self.release();
        }
    }

    /// Gives that room up, whether or not more of a piece is to come.
    #[inline(never)]
    fn release(&mut self)
        ensures { self.new ≡ self.old }
    {
        self.work.release();
        self.tracker.release();
    }

    /// Whether an item or a fault waits.
    fn is_done(&self) -> bool
        ensures { result ≡ is_done self.now.reading }
    {
        self.fault.is_some() || self.work.has_item()
    }

    /// Reads the bytes that come first and are a run, as far as the item may have them and there is memory: how many.
    #[tactic(auto, using(crate::proofs::RunLemmas::run_skipped, crate::proofs::RunLemmas::texts_led))]
    fn skip_run(&mut self, rest: &[u8]) -> usize
        requires { is_done self.old.reading ≡ false }
        ensures limits { self.new.limits ≡ self.old.limits }
        ensures fits { result ≤ length rest.now }
        ensures run { IsRun self.old.limits self.old.reading (take result rest.now) (drop result rest.now) self.new.reading }
    {
        let bytes = self.limits.bytes as u64;
        if self.fault.is_some() || self.extent >= bytes {
            return 0;
        }
        let room = (bytes - self.extent) as usize;
        let within = &rest[..rest.len().min(room)];
        let count = work_run(&mut self.tracker, &mut self.work, within);
        self.extent += count as u64;
        self.offset = self.offset.saturating_add(count as u64);
        count
    }

    /// Reads a piece as `feed` does: a run at once, and else a byte.
    #[tactic(auto, using(stream_grammar::proofs::FeedLemmas::stays, stream_grammar::proofs::FeedLemmas::after_one, stream_grammar::proofs::FeedLemmas::rest_going, crate::proofs::RunLemmas::run_after, crate::proofs::RunLemmas::run_taken))]
    fn read(&mut self, piece: &[u8]) -> Result<usize, Short>
        requires { is_ready self.old.reading ≡ true }
        ensures limits { self.new.limits ≡ self.old.limits }
        ensures taken { IfOk result (λ n. n ≡ taken self.old.limits self.old.reading piece.now) }
        ensures read { IfOk result (λ n. self.new.reading ≡ reading_after self.old.limits self.old.reading (take n piece.now)) }
        ensures short { IfErr result (λ s. s.taken < taken self.old.limits self.old.reading piece.now) }
        ensures kept { IfErr result (λ s. self.new.reading ≡ reading_after self.old.limits self.old.reading (take s.taken piece.now)) }
    {
        if self.fault.is_some() {
            return Ok(piece.len());
        }
        let mut at = 0;
        while at < piece.len() {
            at += self.skip_run(&piece[at..]);
            if at < piece.len() {
                if self.step(piece[at]).is_err() {
                    return Err(Short { taken: at });
                }
                at += 1;
                if self.is_done() {
                    return Ok(at);
                }
            }
        }
        Ok(piece.len())
    }

    /// Reads a piece up to the byte that ends an item or has a fault, and else to its end: how many bytes were taken. After a
    /// fault every piece is taken whole. Costs the piece's length; at the end of an item its size too, and at the end of a tag the
    /// square of its attributes.
    ///
    /// By the grammar (`grammar`, `short_grammar`): the bytes that were taken come after those that were taken before. They go as
    /// far as the first that ends an item or has a fault; where there was no memory, less far.
    ///
    /// The clauses `call` and `short_call` say what the call does in the words of the laws in `stream_laws::calls`, which speak of
    /// whole lists of calls.
    pub fn feed(&mut self, piece: &[u8]) -> Result<usize, Short>
        requires { is_ready self.old.reading ≡ true }
        ensures limits { self.new.limits ≡ self.old.limits }
        ensures taken { IfOk result (λ n. n ≡ taken self.old.limits self.old.reading piece.now) }
        ensures read { IfOk result (λ n. self.new.reading ≡ reading_after self.old.limits self.old.reading (take n piece.now)) }
        ensures short { IfErr result (λ s. s.taken < taken self.old.limits self.old.reading piece.now) }
        ensures kept { IfErr result (λ s. self.new.reading ≡ reading_after self.old.limits self.old.reading (take s.taken piece.now)) }
        ensures call { IfOk result (λ n. Called self.old.limits self.old.reading (feeds piece.now n ∷ []) [] self.new.reading) }
        ensures short_call { IfErr result (λ s. Called self.old.limits self.old.reading (falls_short piece.now s.taken ∷ []) [] self.new.reading) }
        ensures grammar { IfOk result (λ n. (bytes : List ℕ) (answers : List Item) → Stands bytes answers self.old
            → Stands (bytes ++ take n piece.now) answers self.new × AreTaken self.old.limits bytes piece.now n) }
        ensures short_grammar { IfErr result (λ s. (bytes : List ℕ) (answers : List Item) → Stands bytes answers self.old
            → Stands (bytes ++ take s.taken piece.now) answers self.new
            × ((n : ℕ) × AreTaken self.old.limits bytes piece.now n × (s.taken < n))) }
    {
        let taken = self.read(piece);
        self.is_amid = is_cut(taken, piece.len());
        self.rest();
        taken
    }

    /// The item that waits. A fault is answered at every call.
    ///
    /// By the grammar (`grammar`): with this answer, all that was answered are the items of the bytes that were taken, up to the
    /// first fault. The clause `call` says it in the words of `stream_laws::calls`.
    #[tactic(auto, using(crate::proofs::WaitLemmas::none_waits, crate::proofs::WaitLemmas::none_handed, crate::proofs::WaitLemmas::one_called))]
    pub fn next(&mut self) -> Option<Item>
        ensures item { result ≡ waiting self.old.reading }
        ensures handed { self.new ≡ record self.old { reading = handed self.old.reading } }
        ensures call { Called self.old.limits self.old.reading (hands result ∷ []) (option_to_list result) self.new.reading }
        ensures grammar { (bytes : List ℕ) (answers : List Item) → Stands bytes answers self.old
            → Stands bytes (answers ++ option_to_list result) self.new
            × AreItems self.old.limits bytes (to_fault (answers ++ option_to_list result)) }
    {
        if !self.is_done() {
            return None;
        }
        match self.fault {
            Some(fault) => Some(Item::Broken(fault, self.offset)),
            None => {
                let item = self.work.take_item();
                self.rest();
                item
            }
        }
    }

    /// A new stream begins, and its offsets from 0. What was half read is dropped. Takes no memory.
    pub fn restart(&mut self)
        ensures begun { self.new ≡ record self.old { reading = first_reading } }
        ensures grammar { Stands [] [] self.new }
    {
        self.tracker = Tracker::new(self.alloc, self.limits.rules());
        self.work = Work::new(self.alloc);
        self.extent = 0;
        self.offset = 0;
        self.fault = None;
        self.is_amid = false;
    }
}
