//! An event is handed to its call.
ghost use Rattle.std.specs.Prelude.{◌≡◌, ◌<◌, ◌≤◌, ◌+◌, ◌^◌, ◌++◌, ◌∷◌, [], ℕ, List, length, vec_len, vec_capacity};
ghost use Rattle.house_model.specs.Histories.{Meets, StandsFor, Turn, line_of, turn_of};
ghost use Rattle.house_model.specs.States.{State};
ghost use Rattle.house_core.specs.Houses.{held};

use crate::house::House;
use house_model::{Event, Reply};
use stanza_tree::NoMemory;

impl House {
    /// Hands an event to its call. What a Pull gives is appended to `out`, which has room for it.
    pub fn submit(&mut self, event: &Event, out: &mut Vec<u8>) -> Result<Reply, NoMemory>
        requires line { line_of event.now < length self.old.table.lines }
        requires turns { self.old.turns < 2 ^ 63 + 2 ^ 62 }
        requires meets { Meets event.now }
        requires room { vec_len out.old + 524288 ≤ vec_capacity out.old }
        ensures history { (text : List ℕ) × ((out.new.items ≡ out.old.items ++ text) × ((o : State) (h : List Turn)
            → StandsFor o h (held self.old) → StandsFor o (h ++ turn_of event.now result text ∷ []) (held self.new))) }
    {
        match event {
            Event::OpenLine { w } => Ok(self.open_line(*w)),
            Event::Login { w, user } => Ok(self.login(*w, user)),
            Event::Bind {
                w,
                id,
                resource,
                t,
                dice,
            } => self.bind(*w, id, resource.as_ref(), *t, *dice),
            Event::Enable { w, resume, dice } => Ok(self.enable(*w, *resume, *dice)),
            Event::Resume { w, id, h, t } => Ok(self.resume(*w, id.as_ref(), *h, *t)),
            Event::Act { w, stanza, t } => self.act(*w, stanza, *t),
            Event::Ack { w, h } => Ok(self.ack(*w, *h)),
            Event::Ask { w } => Ok(self.ask(*w)),
            Event::Pull { w, t } => Ok(self.pull(*w, *t, out)),
            Event::DropLine { w, t } => Ok(self.drop_line(*w, *t)),
            Event::CloseLine { w, t } => Ok(self.close_line(*w, *t)),
            Event::Sweep { w, t } => self.sweep(*w, *t),
        }
    }
}
