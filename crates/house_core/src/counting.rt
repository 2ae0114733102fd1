//! Stream management (XEP-0198): stanzas are counted, acknowledged and asked for.
ghost use Rattle.std.specs.Prelude.{◌≡◌, ◌<◌, ◌≤◌, ◌+◌, ◌-◌, ◌^◌, ◌++◌, ◌∷◌, [], ℕ, List, length, slice_index_or};
ghost use Rattle.house_model.specs.declared.event.Event.{Event};
ghost use Rattle.house_model.specs.States.{Kept, State};
ghost use Rattle.house_model.specs.Steps.{asks, enables, id_if, last_moment, verdict};
ghost use Rattle.house_model.specs.Histories.{Turn, StandsFor, kept_step, made};
ghost use Rattle.house_core.specs.Houses.{held};
ghost use Rattle.house_world.specs.Wholes.{IsFew, IsHeldBy, IsTied};
ghost use Rattle.house_world.specs.Worlds.{Did, Ends, IsHeld, seen};

use crate::acking::acknowledge;
use crate::gate::{Needs, Pass, check};
use crate::house::House;
use house_model::{Answer, Reply};
use house_world::{World, inward};
use sm_resume::ResumeId;

pub(crate) const TO_MANAGE: Needs = Needs {
    fresh: false,
    logged: true,
    bound: true,
    answers: true,
};

const TO_ASK: Needs = Needs {
    fresh: false,
    logged: false,
    bound: true,
    answers: true,
};

fn id_if(wants: bool, session: u64, digits: [u8; 16]) -> Option<ResumeId>
    ensures { result ≡ id_if wants session digits }
{
    if wants {
        Some(ResumeId { session, digits })
    } else {
        None
    }
}

impl House {
    fn apply_enable(&mut self, w: u32, resume: bool, dice: [u8; 16]) -> Reply
        requires line { w < length self.old.table.lines }
        requires turns { self.old.turns < 2 ^ 63 + 2 ^ 62 }
        ensures state { held self.new ≡ (kept_step (held self.old) (Event.Enable w resume dice)).state }
        ensures reply { result ≡ (kept_step (held self.old) (Event.Enable w resume dice)).reply }
    {
        self.turns += 1;
        manage(&mut self.world, w, resume, dice, self.moment)
    }

    /// The connection asks that its stanzas be counted (XEP-0198, 3). Takes no memory.
    pub fn enable(&mut self, w: u32, resume: bool, dice: [u8; 16]) -> Reply
        requires line { w < length self.old.table.lines }
        requires turns { self.old.turns < 2 ^ 63 + 2 ^ 62 }
        ensures state { held self.new ≡ (kept_step (held self.old) (Event.Enable w resume dice)).state }
        ensures reply { result ≡ (kept_step (held self.old) (Event.Enable w resume dice)).reply }
        ensures history { (o : State) (h : List Turn) → StandsFor o h (held self.old)
            → StandsFor o (h ++ made (Event.Enable w resume dice) result [] ∷ []) (held self.new) }
    {
        self.apply_enable(w, resume, dice)
    }

    fn apply_ack(&mut self, w: u32, h: u32) -> Reply
        requires line { w < length self.old.table.lines }
        requires turns { self.old.turns < 2 ^ 63 + 2 ^ 62 }
        ensures state { held self.new ≡ (kept_step (held self.old) (Event.Ack w h)).state }
        ensures reply { result ≡ (kept_step (held self.old) (Event.Ack w h)).reply }
    {
        self.turns += 1;
        acknowledge(&mut self.world, w, h, self.moment)
    }

    /// The client says how many stanzas it handled (XEP-0198, 4). Takes no memory.
    pub fn ack(&mut self, w: u32, h: u32) -> Reply
        requires line { w < length self.old.table.lines }
        requires turns { self.old.turns < 2 ^ 63 + 2 ^ 62 }
        ensures state { held self.new ≡ (kept_step (held self.old) (Event.Ack w h)).state }
        ensures reply { result ≡ (kept_step (held self.old) (Event.Ack w h)).reply }
        ensures history { (o : State) (h' : List Turn) → StandsFor o h' (held self.old)
            → StandsFor o (h' ++ made (Event.Ack w h) result [] ∷ []) (held self.new) }
    {
        self.apply_ack(w, h)
    }

    fn apply_ask(&mut self, w: u32) -> Reply
        requires line { w < length self.old.table.lines }
        requires turns { self.old.turns < 2 ^ 63 + 2 ^ 62 }
        ensures state { held self.new ≡ (kept_step (held self.old) (Event.Ask w)).state }
        ensures reply { result ≡ (kept_step (held self.old) (Event.Ask w)).reply }
    {
        self.turns += 1;
        ask(&mut self.world, w, self.moment)
    }

    /// The client asks how many of its stanzas were handled (XEP-0198, 4). Takes no memory.
    pub fn ask(&mut self, w: u32) -> Reply
        requires line { w < length self.old.table.lines }
        requires turns { self.old.turns < 2 ^ 63 + 2 ^ 62 }
        ensures state { held self.new ≡ (kept_step (held self.old) (Event.Ask w)).state }
        ensures reply { result ≡ (kept_step (held self.old) (Event.Ask w)).reply }
        ensures history { (o : State) (h : List Turn) → StandsFor o h (held self.old) → StandsFor o (h ++ made (Event.Ask w) result [] ∷ []) (held self.new) }
    {
        self.apply_ask(w)
    }
}

// What the client asks for, once it is checked.
fn ask(world: &mut World, w: u32, moment: u64) -> Reply
    requires line { w < length world.old.table.lines }
    requires answered { length world.old.answers.items ≡ length world.old.table.lines }
    requires moment { moment ≤ last_moment }
    requires tied { IsTied world.old.table }
    ensures { (k : Kept) → k.world ≡ seen world.old → k.head.moment ≡ moment → Ends (verdict k (Event.Ask w)) 0 result world.old world.new }
{
    match check(world, &TO_ASK, w, moment) {
        Pass::Stop(reply) => reply,
        Pass::Holds { session, .. } => {
            tell(world, w, session);
            Reply::Done
        }
        _ => Reply::Unready,
    }
}

/// The session's client is told the inward count, where it counts.
fn tell(world: &mut World, w: u32, s: u64)
    requires line { w < length world.old.answers.items }
    requires room { length (slice_index_or world.old.answers.items w []) < 8 }
    requires tied { IsTied world.old.table }
    requires held { IsHeldBy w s world.old.table }
    ensures { Did (asks ((seen world.old).sessions s).counts w s ((seen world.old).sessions s).traffic).effects 0 world.old world.new }
{
    let Some(session) = world.table.session(s) else {
        return;
    };
    if session.own.counts {
        let h = inward(&session.own);
        world.say(w, Answer::Counted { h });
    }
}

// Whether the session counts already.
pub(crate) fn counts(world: &World, s: u64) -> bool
    requires { IsHeld s world.now.table }
    ensures { result ≡ ((seen world.now).sessions s).counts }
{
    match world.table.session(s) {
        Some(session) => session.own.counts,
        None => false,
    }
}

// The counts of a session begin, where they have not yet.
fn start(world: &mut World, w: u32, s: u64, resume: bool, dice: [u8; 16])
    requires line { w < length world.old.answers.items }
    requires room { length (slice_index_or world.old.answers.items w []) < 8 }
    requires tied { IsTied world.old.table }
    requires small { IsFew (2 ^ 64 - 2) world.old.table }
    requires held { IsHeldBy w s world.old.table }
    ensures { Did (enables ((seen world.old).sessions s).counts w s (id_if resume s dice)).effects 0 world.old world.new }
{
    if counts(world, s) {
        world.say(w, Answer::Unexpected);
    } else {
        let id = id_if(resume, s, dice);
        world.enable(s, id);
        world.say(w, Answer::Enabled { id });
    }
}

// The client's request that its stanzas be counted.
fn manage(world: &mut World, w: u32, resume: bool, dice: [u8; 16], moment: u64) -> Reply
    requires line { w < length world.old.table.lines }
    requires answered { length world.old.answers.items ≡ length world.old.table.lines }
    requires moment { moment ≤ last_moment }
    requires tied { IsTied world.old.table }
    requires small { IsFew (2 ^ 64 - 2) world.old.table }
    ensures { (k : Kept) → k.world ≡ seen world.old → k.head.moment ≡ moment → Ends (verdict k (Event.Enable w resume dice)) 0 result world.old world.new }
{
    match check(world, &TO_MANAGE, w, moment) {
        Pass::Stop(reply) => reply,
        Pass::Holds { session, .. } => {
            start(world, w, session, resume, dice);
            Reply::Done
        }
        Pass::Knows { .. } => {
            world.say(w, Answer::Unexpected);
            Reply::Done
        }
        Pass::Waits => Reply::Unready,
    }
}
