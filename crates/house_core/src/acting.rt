//! Stanzas are acted on.
ghost use Rattle.std.specs.Prelude.{◌≡◌, ◌<◌, ◌≤◌, ◌+◌, ◌-◌, ◌^◌, ◌++◌, ◌∷◌, [], ℕ, List, IfOk, OnOk, OnErr, length};
ghost use Rattle.house_model.specs.declared.event.Event.{Event};
ghost use Rattle.house_model.specs.States.{Kept, State};
ghost use Rattle.house_model.specs.Steps.{last_moment, verdict};
ghost use Rattle.house_model.specs.Histories.{StandsFor, StanzaFits, Turn, ended, kept_step, passed};
ghost use Rattle.roster_laws.specs.Keeping.{AreKept};
ghost use Rattle.house_core.specs.Houses.{held};
ghost use Rattle.archive_table.specs.Tables.{archives_of};
ghost use Rattle.house_world.specs.Hosting.{Archived, AreArchived, AreHosted, Hosts};
ghost use Rattle.house_world.specs.Keeping.{AreShortNames};
ghost use Rattle.house_world.specs.Wholes.{IsFew, IsTied};
ghost use Rattle.house_world.specs.Worlds.{Did, Ends, seen};

use crate::gate::{Needs, Pass, check};
use crate::house::House;
use house_model::{Reply, Stanza};
use house_routing::{Users, effects_of};
use house_world::World;
use jid_core::Jid;
use stanza_tree::NoMemory;
use std::alloc::Global;

const TO_ACT: Needs = Needs {
    fresh: false,
    logged: false,
    bound: true,
    answers: false,
};

/// The stanza of a connection, once it is checked: its effects are made and cast, the memory is taken that they need, and they are carried out.
fn act_at(
    world: &mut World,
    alloc: Global,
    domain: &Jid,
    users: &Users,
    w: u32,
    stanza: &Stanza,
    moment: u64,
) -> Result<Reply, NoMemory>
    requires line { w < length world.old.table.lines }
    requires answered { length world.old.answers.items ≡ length world.old.table.lines }
    requires moment { moment ≤ last_moment }
    requires tied { IsTied world.old.table }
    requires small { IsFew (2 ^ 64 - 5002) world.old.table }
    requires domain { world.old.book.domain ≡ domain.now.domain }
    requires names { AreShortNames world.old.book.book.asked }
    requires rosters { AreKept domain.now.domain world.old.book.book }
    requires hosted { AreHosted (2 ^ 63 + 2 ^ 62) world.old.rooms }
    requires archived { AreArchived (2 ^ 63 + 2 ^ 62) (archives_of world.old.archives) }
    requires fits { StanzaFits stanza.now }
    ensures done { IfOk result (λ reply. (k : Kept) → k.world ≡ seen world.old → k.head.moment ≡ moment
        → k.head.domain ≡ domain.now → k.head.users ≡ users.now → (t : ℕ)
        → Ends (verdict k (Event.Act w stanza.now t)) 1 reply world.old world.new) }
    ensures hosts { OnOk result (Hosts world.old.rooms world.new.rooms) }
    ensures archives { OnOk result (Archived (archives_of world.old.archives) (archives_of world.new.archives)) }
    ensures refused { OnErr result (Did [] 0 world.old world.new) }
{
    match check(world, &TO_ACT, w, moment) {
        Pass::Stop(reply) => Ok(reply),
        Pass::Holds { session, .. } => {
            let cast = effects_of(world, alloc, &domain.domain, users, session, stanza, moment)?;
            world.prepare(cast.effects.as_slice())?;
            world.carry_out(session, cast);
            Ok(Reply::Done)
        }
        _ => Ok(Reply::Unready),
    }
}

impl House {
    fn apply_act(&mut self, w: u32, stanza: &Stanza, t: u64) -> Result<Reply, NoMemory>
        requires line { w < length self.old.table.lines }
        requires turns { self.old.turns < 2 ^ 63 + 2 ^ 62 }
        requires fits { StanzaFits stanza.now }
        ensures state { OnOk result (held self.new ≡ (kept_step (held self.old) (Event.Act w stanza.now t)).state) }
        ensures reply { IfOk result (λ reply. reply ≡ (kept_step (held self.old) (Event.Act w stanza.now t)).reply) }
        ensures refused { OnErr result (held self.new ≡ passed (held self.old)) }
    {
        self.turns += 1;
        let moment = self.later(t);
        let alloc = *self.users.allocator();
        let users = &self.users;
        let reply = act_at(
            &mut self.world,
            alloc,
            &self.domain,
            users,
            w,
            stanza,
            moment,
        )?;
        self.moment = moment;
        Ok(reply)
    }

    /// The connection sends a stanza, which goes where its address says (RFC 6120, 10; RFC 6121, 8.5). Costs the size of the stanza and of
    /// what it queues; a message for a user's bare address looks at each of that user's sessions, and what changes a room copies it. Where
    /// memory is wanting only the count of turns changes.
    pub fn act(&mut self, w: u32, stanza: &Stanza, t: u64) -> Result<Reply, NoMemory>
        requires line { w < length self.old.table.lines }
        requires turns { self.old.turns < 2 ^ 63 + 2 ^ 62 }
        requires fits { StanzaFits stanza.now }
        ensures state { OnOk result (held self.new ≡ (kept_step (held self.old) (Event.Act w stanza.now t)).state) }
        ensures reply { IfOk result (λ reply. reply ≡ (kept_step (held self.old) (Event.Act w stanza.now t)).reply) }
        ensures refused { OnErr result (held self.new ≡ passed (held self.old)) }
        ensures history { (o : State) (h : List Turn) → StandsFor o h (held self.old)
            → StandsFor o (h ++ ended (Event.Act w stanza.now t) result ∷ []) (held self.new) }
    {
        self.apply_act(w, stanza, t)
    }
}
