//! The binding of a resource (RFC 6120, section 7).
ghost use Rattle.std.specs.Prelude.{◌≡◌, ℕ, ◌+◌, ◌-◌, ◌^◌, ◌<◌, ◌≤◌, ◌++◌, ◌∷◌, [], List, length, true, slice_index_or, unwrap_or, IfOk, OnErr, OnOk};
ghost use Rattle.std.specs.Option.{option_copied};
ghost use Rattle.archive_table.specs.Tables.{archives_of};
ghost use Rattle.session_table.specs.Tables.{Rises, conn_of, is_logged, line_of};
ghost use Rattle.jid_core.specs.Addresses.{address_text};
ghost use Rattle.house_model.specs.Answers.{answer_text};
ghost use Rattle.house_model.specs.declared.answer.Answer.{Answer};
ghost use Rattle.house_model.specs.Fitting.{AreSmall};
ghost use Rattle.house_model.specs.Histories.{IdFits, Turn, StandsFor, ended, kept_step, passed};
ghost use Rattle.house_model.specs.States.{Kept, State};
ghost use Rattle.house_model.specs.Steps.{binds, has_place};
ghost use Rattle.house_model.specs.declared.event.Event.{Event};
ghost use Rattle.house_core.specs.Bindings.{begun_in, replaced_in, told_in};
ghost use Rattle.house_core.specs.Houses.{held};
ghost use Rattle.house_world.specs.Hosting.{Archived, AreHosted, Hosts, IsCast};
ghost use Rattle.house_world.specs.Readiness.{AreNotable, AreReady};
ghost use Rattle.house_world.specs.Wholes.{IsFew, IsTied};
ghost use Rattle.house_world.specs.Worlds.{Did, Ends, KeepsLogged, seen};

use crate::gate::{Needs, Pass, check};
use crate::house::House;
use crate::make::{make_address, make_bound};
use house_model::{Answer, Limits, Reply};
use house_routing::departure;
use house_world::{Cast, World};
use jid_core::{Jid, Part};
use sm_resume::Cause;
use stanza_model::Effect;
use stanza_tree::{NoMemory, Text};
use std::alloc::Global;

const TO_BIND: Needs = Needs {
    fresh: false,
    logged: true,
    bound: false,
    answers: true,
};

// Whether neither limit is passed by one session more at an address. The one there is not counted, since it departs.
fn has_place(world: &World, limits: Limits, address: &Jid) -> bool
    requires tied { IsTied world.now.table }
    requires small { IsFew (2 ^ 64 - 5001) world.now.table }
    ensures place { (k : Kept) → k.world ≡ seen world.now → k.head.limits ≡ limits → result ≡ has_place k address.now }
    ensures rises { Rises 0 world.now.table.sessions world.now.table.made }
{
    let _ = world.table.session(0);
    let mut same = 0usize;
    let mut others = 0usize;
    for (_number, session) in world.table.of_user_at(address) {
        if session.address().is_same(address) {
            same += 1;
        } else if session.address().is_same_bare(address) {
            others += 1;
        }
    }
    let all = world.table.count() - same;
    all < limits.sessions as usize && others < limits.of_user as usize
}

// What others are told of the session of an address, where there is one: the next one replaces it.
fn replaced(world: &World, alloc: Global, address: &Jid) -> Result<Cast, NoMemory>
    requires tied { IsTied world.now.table }
    requires hosted { AreHosted (2 ^ 63 + 2 ^ 62) world.now.rooms }
    ensures told { IfOk result (λ told. IsCast (told_in (seen world.now) address.now) world.now.rooms told) }
    ensures short { IfOk result (λ told. AreSmall told.effects.items) }
    ensures hosts { IfOk result (λ told. Hosts world.now.rooms (unwrap_or told.rooms world.now.rooms)) }
{
    let _ = world.table.session(0);
    match world.table.at(address) {
        Some(s) => departure(world, alloc, s),
        None => Ok(Cast {
            effects: Vec::new(alloc),
            rooms: None,
        }),
    }
}

// The session of an address departs, where there is one.
fn replace(world: &mut World, address: &Jid, told: Cast)
    requires answered { length world.old.answers.items ≡ length world.old.table.lines }
    requires tied { IsTied world.old.table }
    requires small { IsFew (2 ^ 64 - 5001) world.old.table }
    requires told { IsCast (told_in (seen world.old) address.now) world.old.rooms told }
    requires ready { AreReady told.effects.items world.old.table }
    requires short { AreSmall told.effects.items }
    requires places { AreNotable told.effects.items world.old.book }
    ensures did { Did (replaced_in (seen world.old) address.now) 0 world.old world.new }
    ensures rooms { world.new.rooms ≡ unwrap_or told.rooms world.old.rooms }
    ensures archives { Archived (archives_of world.old.archives) (archives_of world.new.archives) }
    ensures others { KeepsLogged world.old world.new }
    ensures room { world.old.table.spare ≤ world.new.table.spare }
{
    let _ = world.table.session(0);
    if let Some(s) = world.table.at(address) {
        let next = world.table.made() + 1;
        world.depart(s, Cause::Replaced(next), told);
    }
}

// A session of an address begins at a line, and the client is told.
fn settle(world: &mut World, w: u32, address: Jid, answer: Answer, told: Cast)
    requires line { w < length world.old.table.lines }
    requires answered { length world.old.answers.items ≡ length world.old.table.lines }
    requires tied { IsTied world.old.table }
    requires small { IsFew (2 ^ 64 - 5001) world.old.table }
    requires logged { is_logged (line_of w world.old.table) ≡ true }
    requires few { length (slice_index_or world.old.answers.items w []) < 8 }
    requires room { 0 < world.old.table.spare }
    requires answer { length (answer_text answer) ≤ 524288 }
    requires told { IsCast (told_in (seen world.old) address) world.old.rooms told }
    requires ready { AreReady told.effects.items world.old.table }
    requires short { AreSmall told.effects.items }
    requires places { AreNotable told.effects.items world.old.book }
    ensures did { Did (begun_in (seen world.old) w (conn_of (line_of w world.old.table)) address answer) 1 world.old world.new }
    ensures rooms { world.new.rooms ≡ unwrap_or told.rooms world.old.rooms }
    ensures archives { Archived (archives_of world.old.archives) (archives_of world.new.archives) }
{
    replace(world, &address, told);
    world.begin(w, address);
    world.say(w, answer);
}

// Takes the memory for one session more, and for what others are told of the one that it replaces.
fn make_room(world: &mut World, told: &[Effect]) -> Result<(), NoMemory>
    requires tied { IsTied world.old.table }
    ensures room { OnOk result (0 < world.new.table.spare) }
    ensures ready { OnOk result (AreReady told.now world.new.table) }
    ensures places { OnOk result (AreNotable told.now world.new.book) }
    ensures same { Did [] 0 world.old world.new }
{
    world.prepare(told)?;
    world.table.reserve()
}

// The connection's user has a session of this address. All memory is taken first.
fn bind_at(world: &mut World, w: u32, address: Jid, id: &Text) -> Result<(), NoMemory>
    requires line { w < length world.old.table.lines }
    requires answered { length world.old.answers.items ≡ length world.old.table.lines }
    requires tied { IsTied world.old.table }
    requires small { IsFew (2 ^ 64 - 5001) world.old.table }
    requires logged { is_logged (line_of w world.old.table) ≡ true }
    requires few { length (slice_index_or world.old.answers.items w []) < 8 }
    requires id { IdFits id.now }
    requires hosted { AreHosted (2 ^ 63 + 2 ^ 62) world.old.rooms }
    ensures done { OnOk result (Did (begun_in (seen world.old) w (conn_of (line_of w world.old.table)) address
        (Answer.Bound id.now (address_text address))) 1 world.old world.new) }
    ensures hosts { OnOk result (Hosts world.old.rooms world.new.rooms) }
    ensures archives { OnOk result (Archived (archives_of world.old.archives) (archives_of world.new.archives)) }
    ensures refused { OnErr result (Did [] 0 world.old world.new) }
{
    let alloc = *world.answers.allocator();
    let answer = make_bound(alloc, &address, id)?;
    let told = replaced(world, alloc, &address)?;
    make_room(world, told.effects.as_slice())?;
    settle(world, w, address, answer, told);
    Ok(())
}

// The same, unless there are too many sessions.
fn bind(
    world: &mut World,
    limits: Limits,
    w: u32,
    address: Jid,
    id: &Text,
) -> Result<Reply, NoMemory>
    requires line { w < length world.old.table.lines }
    requires answered { length world.old.answers.items ≡ length world.old.table.lines }
    requires tied { IsTied world.old.table }
    requires small { IsFew (2 ^ 64 - 5001) world.old.table }
    requires logged { is_logged (line_of w world.old.table) ≡ true }
    requires few { length (slice_index_or world.old.answers.items w []) < 8 }
    requires id { IdFits id.now }
    requires hosted { AreHosted (2 ^ 63 + 2 ^ 62) world.old.rooms }
    ensures done { (k : Kept) → k.world ≡ seen world.old → k.head.limits ≡ limits
        → IfOk result (λ r. Ends (binds (has_place k address) k w (conn_of (line_of w world.old.table)) address id.now) 1 r world.old world.new) }
    ensures hosts { OnOk result (Hosts world.old.rooms world.new.rooms) }
    ensures archives { OnOk result (Archived (archives_of world.old.archives) (archives_of world.new.archives)) }
    ensures refused { OnErr result (Did [] 0 world.old world.new) }
{
    if has_place(world, limits, &address) {
        bind_at(world, w, address, id)?;
        return Ok(Reply::Bound);
    }
    let id = id.copy(*world.answers.allocator())?;
    world.say(w, Answer::Refused { id });
    Ok(Reply::Done)
}

impl House {
    fn apply_bind(
        &mut self,
        w: u32,
        id: &Text,
        resource: Option<&Part>,
        t: u64,
        dice: [u8; 16],
    ) -> Result<Reply, NoMemory>
        requires line { w < length self.old.table.lines }
        requires turns { self.old.turns < 2 ^ 63 + 2 ^ 62 }
        requires id { IdFits id.now }
        ensures state { OnOk result (held self.new ≡ (kept_step (held self.old) (Event.Bind w id.now (option_copied resource.entry) t dice)).state) }
        ensures reply { IfOk result (λ r. r ≡ (kept_step (held self.old) (Event.Bind w id.now (option_copied resource.entry) t dice)).reply) }
        ensures refused { OnErr result (held self.new ≡ passed (held self.old)) }
    {
        self.turns += 1;
        let moment = self.later(t);
        match check(&mut self.world, &TO_BIND, w, moment) {
            Pass::Knows { user, .. } => {
                let alloc = *self.users.allocator();
                let address = make_address(
                    alloc,
                    &self.users.parts()[user as usize],
                    &self.domain,
                    resource,
                    &dice,
                )?;
                let reply = bind(&mut self.world, self.limits, w, address, id)?;
                self.moment = moment;
                Ok(reply)
            }
            Pass::Stop(reply) => {
                self.moment = moment;
                Ok(reply)
            }
            _ => {
                self.moment = moment;
                Ok(Reply::Unready)
            }
        }
    }

    /// The connection asks for a session. Costs the number of the user's sessions, and time logarithmic in all.
    pub fn bind(
        &mut self,
        w: u32,
        id: &Text,
        resource: Option<&Part>,
        t: u64,
        dice: [u8; 16],
    ) -> Result<Reply, NoMemory>
        requires line { w < length self.old.table.lines }
        requires turns { self.old.turns < 2 ^ 63 + 2 ^ 62 }
        requires id { IdFits id.now }
        ensures state { OnOk result (held self.new ≡ (kept_step (held self.old) (Event.Bind w id.now (option_copied resource.entry) t dice)).state) }
        ensures reply { IfOk result (λ r. r ≡ (kept_step (held self.old) (Event.Bind w id.now (option_copied resource.entry) t dice)).reply) }
        ensures refused { OnErr result (held self.new ≡ passed (held self.old)) }
        ensures history { (o : State) (h : List Turn) → StandsFor o h (held self.old)
            → StandsFor o (h ++ ended (Event.Bind w id.now (option_copied resource.entry) t dice) result ∷ []) (held self.new) }
    {
        self.apply_bind(w, id, resource, t, dice)
    }
}
