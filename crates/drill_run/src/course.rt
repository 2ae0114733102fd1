//! A drill on its way.
ghost use Rattle.std.specs.Prelude.{◌≡◌, ◌<◌, ◌^◌, ◌++◌, ◌∷◌, [], ℕ, List, IfOk, OnOk, length};
ghost use Rattle.house_core.specs.Houses.{held};
ghost use Rattle.house_model.specs.Histories.{Meets, StandsFor, Turn, line_of, made};
ghost use Rattle.replay_script.specs.Drills.{house};
ghost use Rattle.replay_script.specs.DrillStands.{stand_of};
ghost use Rattle.drill_run.specs.Courses.{Going, HaveRoom, Turning, line_of_counts, with_turn};
ghost use Rattle.drill_run.specs.Endings.{Drilled};

use crate::counts::Counts;
use crate::opening::open_house;
use house_core::{House, MOST_FRAME};
use house_model::{Event, Reply};
use replay_script::Drill;
use stanza_tree::NoMemory;
use std::alloc::Global;

/// How many turns a drill may take. None comes near it, and a house has numbers for no more than twice as many.
const MOST_TURNS: u64 = 1 << 62;

/// The house of a drill and the events that are left, the answer to the last of them, and what was counted.
#[derive(Drop)]
pub(crate) struct Course {
    house: House,
    drill: Drill,
    last: Reply,
    frame: Vec<u8>,
    counts: Counts,
}

impl Course {
    /// Before the first event.
    pub(crate) fn new(alloc: Global, n: u32, key: u64) -> Result<Course, NoMemory>
        ensures { IfOk result (λ c. Going n key (held c.house) (stand_of c.drill) c.last c.frame.items c.counts 0) }
    {
        let drill = Drill::new(alloc, n, key)?;
        Ok(Course {
            house: open_house(alloc)?,
            drill,
            last: Reply::Done,
            frame: Vec::new(alloc),
            counts: Counts::new(),
        })
    }

    /// Runs the drill of `n` rounds to its end, and makes its line. One that takes too many turns ends as for want of memory.
    pub(crate) fn run(&mut self, alloc: Global, n: u32) -> Result<Vec<u8>, NoMemory>
        requires going { (key : ℕ) × Going n key (held self.old.house) (stand_of self.old.drill) self.old.last self.old.frame.items self.old.counts 0 }
        ensures drilled { (key : ℕ) → Going n key (held self.old.house) (stand_of self.old.drill) self.old.last self.old.frame.items self.old.counts 0
            → IfOk result (λ line. Drilled n key line.items) }
    {
        for _number in 0..MOST_TURNS {
            if !self.turn()? {
                return self.line(alloc, n);
            }
        }
        Err(NoMemory)
    }

    /// Takes the next event. False where none is left.
    fn turn(&mut self) -> Result<bool, NoMemory>
        requires lines { length self.old.house.table.lines ≡ 8 }
        requires turns { self.old.house.turns < 2 ^ 63 }
        requires few { HaveRoom self.old.counts }
        ensures { (n key number : ℕ) → Going n key (held self.old.house) (stand_of self.old.drill) self.old.last self.old.frame.items self.old.counts number
            → Turning n key (held self.new.house) (stand_of self.new.drill) self.new.last self.new.frame.items self.new.counts number result }
    {
        match self.drill.next(&self.last, self.frame.as_slice())? {
            Some(event) => {
                self.take(&event)?;
                Ok(true)
            }
            None => Ok(false),
        }
    }

    /// The house takes an event.
    fn take(&mut self, event: &Event) -> Result<(), NoMemory>
        requires line { line_of event.now < length self.old.house.table.lines }
        requires turns { self.old.house.turns < 2 ^ 63 }
        requires meets { Meets event.now }
        requires few { HaveRoom self.old.counts }
        ensures drill { self.new.drill ≡ self.old.drill }
        ensures history { OnOk result ((h : List Turn) → StandsFor house h (held self.old.house)
            → StandsFor house (h ++ made event.now self.new.last self.new.frame.items ∷ []) (held self.new.house)) }
        ensures counted { OnOk result (self.new.counts ≡ with_turn (made event.now self.new.last self.new.frame.items) self.old.counts) }
    {
        self.frame.clear();
        self.frame.reserve(MOST_FRAME)?;
        self.last = self.house.submit(event, &mut self.frame)?;
        self.counts.add(event, &self.last);
        Ok(())
    }

    /// How many rounds, stanzas that were acted on, frames, resumptions and turns there were.
    fn line(&self, alloc: Global, n: u32) -> Result<Vec<u8>, NoMemory>
        ensures { IfOk result (λ line. line.items ≡ line_of_counts n self.now.counts self.now.house.turns) }
    {
        let line = format!(in alloc;
            "rounds {} stanzas {} frames {} resumed {} turns {}\n",
            n,
            self.counts.stanzas,
            self.counts.frames,
            self.counts.resumed,
            self.house.turns()
        )?;
        Ok(line.into_bytes())
    }
}
