//! Sessions that are over or past their deadline are taken away.
ghost use Rattle.std.specs.Prelude.{◌≡◌, ℕ, ◌+◌, ◌-◌, ◌^◌, ◌<◌, ◌++◌, ◌∷◌, [], List, length, true, IfOk, OnErr, OnOk};
ghost use Rattle.house_model.specs.declared.event.Event.{Event};
ghost use Rattle.house_model.specs.Histories.{Turn, StandsFor, ended, kept_step, passed};
ghost use Rattle.house_model.specs.States.{Kept, State};
ghost use Rattle.house_model.specs.Steps.{departs, verdict};
ghost use Rattle.archive_table.specs.Tables.{archives_of};
ghost use Rattle.session_table.specs.Tables.{Rises, is_there};
ghost use Rattle.sm_resume.specs.declared.decision.Cause.TheVariants.{Lost};
ghost use Rattle.house_core.specs.Houses.{held};
ghost use Rattle.house_world.specs.Hosting.{Archived, AreHosted, Hosts};
ghost use Rattle.house_world.specs.Wholes.{IsFew, IsTied};
ghost use Rattle.house_world.specs.Worlds.{Did, Ends, seen};

use crate::house::House;
use house_model::Reply;
use house_routing::departure;
use house_world::World;
use sm_resume::Cause;
use stanza_tree::NoMemory;

// The session of least number that is over or past its deadline departs. All memory is taken first.
fn sweep(world: &mut World, moment: u64) -> Result<Reply, NoMemory>
    requires answered { length world.old.answers.items ≡ length world.old.table.lines }
    requires tied { IsTied world.old.table }
    requires small { IsFew (2 ^ 64 - 5001) world.old.table }
    requires hosted { AreHosted (2 ^ 63 + 2 ^ 62) world.old.rooms }
    ensures done { (k : Kept) (w t : ℕ) → k.world ≡ seen world.old → k.head.moment ≡ moment
        → IfOk result (λ r. Ends (verdict k (Event.Sweep w t)) 0 r world.old world.new) }
    ensures hosts { OnOk result (Hosts world.old.rooms world.new.rooms) }
    ensures archives { OnOk result (Archived (archives_of world.old.archives) (archives_of world.new.archives)) }
    ensures refused { OnErr result (Did [] 0 world.old world.new) }
{
    let Some(s) = world.table.due(moment) else {
        return Ok(Reply::Nothing { due: false });
    };
    sweep_away(world, s)?;
    Ok(Reply::Swept(s))
}

// The session departs.
fn sweep_away(world: &mut World, s: u64) -> Result<(), NoMemory>
    requires answered { length world.old.answers.items ≡ length world.old.table.lines }
    requires tied { IsTied world.old.table }
    requires small { IsFew (2 ^ 64 - 5001) world.old.table }
    requires there { is_there s world.old.table ≡ true }
    requires hosted { AreHosted (2 ^ 63 + 2 ^ 62) world.old.rooms }
    ensures rises { Rises 0 world.old.table.sessions world.old.table.made }
    ensures did { OnOk result (Did (departs (seen world.old) s Lost) 0 world.old world.new) }
    ensures hosts { OnOk result (Hosts world.old.rooms world.new.rooms) }
    ensures archives { OnOk result (Archived (archives_of world.old.archives) (archives_of world.new.archives)) }
    ensures refused { OnErr result (Did [] 0 world.old world.new) }
{
    let _ = world.table.session(s);
    let told = departure(world, *world.answers.allocator(), s)?;
    world.prepare(told.effects.as_slice())?;
    world.depart(s, Cause::Lost, told);
    Ok(())
}

impl House {
    fn apply_sweep(&mut self, _w: u32, t: u64) -> Result<Reply, NoMemory>
        requires line { _w < length self.old.table.lines }
        requires turns { self.old.turns < 2 ^ 63 + 2 ^ 62 }
        ensures state { OnOk result (held self.new ≡ (kept_step (held self.old) (Event.Sweep _w t)).state) }
        ensures reply { IfOk result (λ r. r ≡ (kept_step (held self.old) (Event.Sweep _w t)).reply) }
        ensures refused { OnErr result (held self.new ≡ passed (held self.old)) }
    {
        self.turns += 1;
        let moment = self.later(t);
        let reply = sweep(&mut self.world, moment)?;
        self.moment = moment;
        Ok(reply)
    }

    /// The session of least number that is over or past its deadline departs, and others are told. It needs no connection.
    pub fn sweep(&mut self, w: u32, t: u64) -> Result<Reply, NoMemory>
        requires line { w < length self.old.table.lines }
        requires turns { self.old.turns < 2 ^ 63 + 2 ^ 62 }
        ensures state { OnOk result (held self.new ≡ (kept_step (held self.old) (Event.Sweep w t)).state) }
        ensures reply { IfOk result (λ r. r ≡ (kept_step (held self.old) (Event.Sweep w t)).reply) }
        ensures refused { OnErr result (held self.new ≡ passed (held self.old)) }
        ensures history { (o : State) (h : List Turn) → StandsFor o h (held self.old) → StandsFor o (h ++ ended (Event.Sweep w t) result ∷ []) (held self.new) }
    {
        self.apply_sweep(w, t)
    }
}
