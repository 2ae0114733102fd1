//! The effects of a stanza are carried out one after another, and the rooms are put last, without taking any memory.
ghost use Rattle.std.specs.Prelude.{◌≡◌, ◌≤◌, ◌+◌, ◌-◌, ◌^◌, ◌∷◌, [], ℕ, List, length, map, unwrap_or};
ghost use Rattle.archive_table.specs.Tables.{archives_of};
ghost use Rattle.contact_table.specs.Tables.{spare};
ghost use Rattle.stanza_model.specs.declared.effect.Effect as stanza;
ghost use Rattle.muc_service.specs.Casting.{after};
ghost use Rattle.stanza_model.specs.declared.stanza.Stanza.{Stanza};
ghost use Rattle.house_model.specs.Effects.{On};
ghost use Rattle.house_model.specs.Fitting.{AreSmall, IsSmall};
ghost use Rattle.house_model.specs.Sessions.{Act};
ghost use Rattle.house_model.specs.Steps.{effect_of};
ghost use Rattle.house_world.specs.Hosting.{but_rooms, but_rooms_of, filed_all};
ghost use Rattle.house_world.specs.Readiness.{AreFilable, AreNotable, AreReady, needed_by, notes_by};
ghost use Rattle.house_world.specs.Wholes.{HasSpare, IsFew, IsTied};
ghost use Rattle.house_world.specs.Worlds.{Did, IsHeld, Stays};

use crate::casting::Cast;
use crate::world::World;
use archive_table::Filing;
use muc_service::Rooms;
use stanza_model::Effect;
use stanza_tree::Entry;

impl World {
    /// Applies an effect, but for what it does to the rooms. There is room for what it queues.
    fn apply(&mut self, effect: Effect)
        requires answered { length self.old.answers.items ≡ length self.old.table.lines }
        requires tied { IsTied self.old.table }
        requires small { IsFew (2 ^ 64 - 5001) self.old.table }
        requires ready { (s : ℕ) → HasSpare (needed_by s effect) s self.old.table }
        requires short { IsSmall effect }
        requires places { (user : List ℕ) → notes_by user effect ≤ spare user self.old.book }
        requires filable { AreFilable (effect ∷ []) self.old.archives }
        ensures did { Did (but_rooms_of effect) 0 self.old self.new }
        ensures stays { Stays self.old self.new }
        ensures room { (n s : ℕ) → HasSpare n s self.old.table → HasSpare (n - needed_by s effect) s self.new.table }
        ensures places { (user : List ℕ) → spare user self.old.book ≤ spare user self.new.book + notes_by user effect }
        ensures archives { (more : List stanza.Effect) → AreFilable (effect ∷ more) self.old.archives → AreFilable more self.new.archives }
    {
        match effect {
            Effect::Queue {
                session,
                to,
                rest,
                origin,
            } => self.push(session, Entry { to, rest, origin }),
            Effect::Keep {
                user,
                peer,
                text,
                moment,
            } => self.archives.file(Filing::OfUser {
                user,
                peer,
                text,
                moment,
            }),
            Effect::Set(change) => self.set(change),
            _ => {}
        }
    }

    /// Applies effects, one after another, but for what they do to the rooms. There is room for all that they queue.
    fn apply_all(&mut self, effects: Vec<Effect>)
        requires answered { length self.old.answers.items ≡ length self.old.table.lines }
        requires tied { IsTied self.old.table }
        requires small { IsFew (2 ^ 64 - 5001) self.old.table }
        requires ready { AreReady effects.items self.old.table }
        requires short { AreSmall effects.items }
        requires places { AreNotable effects.items self.old.book }
        requires filable { AreFilable effects.items self.old.archives }
        ensures did { Did (but_rooms effects.items) 0 self.old self.new }
        ensures stays { Stays self.old self.new }
    {
        for effect in effects {
            self.apply(effect);
        }
    }

    // The rooms are these, where any are given.
    fn put_rooms(&mut self, rooms: Option<Rooms>)
        ensures { self.new ≡ record self.old { rooms = unwrap_or rooms self.old.rooms } }
    {
        if let Some(rooms) = rooms {
            self.rooms = rooms;
        }
    }

    /// Carries out effects as they are cast, one after another, and puts the rooms after them last. There is room for all that they queue.
    pub(crate) fn run(&mut self, cast: Cast)
        requires answered { length self.old.answers.items ≡ length self.old.table.lines }
        requires tied { IsTied self.old.table }
        requires small { IsFew (2 ^ 64 - 5001) self.old.table }
        requires ready { AreReady cast.effects.items self.old.table }
        requires short { AreSmall cast.effects.items }
        requires places { AreNotable cast.effects.items self.old.book }
        requires filable { AreFilable cast.effects.items self.old.archives }
        requires rooms { unwrap_or cast.rooms self.old.rooms ≡ after self.old.rooms cast.effects.items }
        ensures did { Did (map effect_of cast.effects.items) 0 self.old self.new }
        ensures stays { Stays self.old self.new }
        ensures rooms { self.new.rooms ≡ unwrap_or cast.rooms self.old.rooms }
        ensures archives { archives_of self.new.archives ≡ filed_all cast.effects.items (archives_of self.old.archives) }
    {
        let Cast { effects, rooms } = cast;
        self.apply_all(effects);
        self.put_rooms(rooms);
    }

    /// The stanza of a session is acted on, and its effects are carried out. Costs their number and size. Takes no memory.
    pub fn carry_out(&mut self, s: u64, cast: Cast)
        requires answered { length self.old.answers.items ≡ length self.old.table.lines }
        requires tied { IsTied self.old.table }
        requires held { IsHeld s self.old.table }
        requires small { IsFew (2 ^ 64 - 5002) self.old.table }
        requires ready { AreReady cast.effects.items self.old.table }
        requires short { AreSmall cast.effects.items }
        requires places { AreNotable cast.effects.items self.old.book }
        requires filable { AreFilable cast.effects.items self.old.archives }
        requires rooms { unwrap_or cast.rooms self.old.rooms ≡ after self.old.rooms cast.effects.items }
        ensures did { (stanza : Stanza) → Did (On s (Act stanza) ∷ map effect_of cast.effects.items) 1 self.old self.new }
        ensures rooms { self.new.rooms ≡ unwrap_or cast.rooms self.old.rooms }
        ensures archives { archives_of self.new.archives ≡ filed_all cast.effects.items (archives_of self.old.archives) }
    {
        self.act(s);
        self.run(cast);
    }
}
