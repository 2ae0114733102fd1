//! A drill: the events of eight clients in one room, each as a key draws it. What a drill holds doesn't grow with its rounds.
ghost use Rattle.std.specs.Prelude.{◌≡◌, true, false, IfOk, OnOk};
ghost use Rattle.replay_script.specs.Drills.{plan};
ghost use Rattle.replay_script.specs.DrillSections.{IsReady, is_again, to_come};
ghost use Rattle.replay_script.specs.DrillStands.{IsNext, concluded, concluded_by, plan_of, stand_of};

use crate::drill_events::first_event;
use crate::drill_schedule::Schedule;
use crate::drill_section::{Section, Task};
use crate::drill_tallies::Tallies;
use house_model::{Event, Reply};
use stanza_tree::NoMemory;
use std::alloc::Global;

/// The events of a drill, one after the other, by what each was answered.
#[derive(Drop)]
pub struct Drill {
    alloc: Global,
    asked: bool,
    tallies: Tallies,
    section: Option<Section>,
    schedule: Schedule,
}

/// Whether the first task of a section is to be done again after this answer.
fn is_again(section: &Section, last: &Reply) -> bool
    ensures { result ≡ is_again section.now.task last.now }
{
    matches!(section.task, Task::PullAll) && matches!(last, Reply::Frame)
}

impl Drill {
    /// A drill of `n` rounds by a key.
    #[tactic(auto, unfolding(crate::specs::DrillStands::stand_of))]
    pub fn new(alloc: Global, n: u32, key: u64) -> Result<Drill, NoMemory>
        ensures { IfOk result (λ d. stand_of d ≡ record { asked = false; plan = plan n key }) }
    {
        Ok(Drill {
            alloc,
            asked: false,
            tallies: Tallies::none(),
            section: None,
            schedule: Schedule::new(n, key),
        })
    }

    /// The next event, by the reply to the one before and the frame that came with it; before the first event they count for nothing. None exactly at the end.
    /// After want of memory the drill is of no more use. A tally that has no number in 64 bits is told as that, too.
    #[tactic(auto, unfolding(crate::specs::DrillStands::stand_of))]
    pub fn next(&mut self, last: &Reply, frame: &[u8]) -> Result<Option<Event>, NoMemory>
        ensures next { IfOk result (IsNext (concluded (stand_of self.old) last.now frame.now)) }
        ensures stands { OnOk result (stand_of self.new ≡ record { asked = true; plan = concluded (stand_of self.old) last.now frame.now }) }
    {
        if self.asked {
            self.conclude(last, frame)?;
        }
        self.asked = true;
        self.prepare();
        self.event()
    }

    /// Takes the next section where none is at hand.
    fn prepare(&mut self)
        ensures plan { plan_of self.new ≡ plan_of self.old }
        ensures asked { self.new.asked ≡ self.old.asked }
        ensures ready { IsReady self.new.section (to_come self.new.schedule) }
    {
        if self.section.is_none() {
            self.section = self.schedule.next();
        }
    }

    /// The first order got this answer.
    fn conclude(&mut self, last: &Reply, frame: &[u8]) -> Result<(), NoMemory>
        ensures { OnOk result (plan_of self.new ≡ concluded_by (plan_of self.old).tallies (plan_of self.old).left last.now frame.now) }
    {
        self.prepare();
        let Some(section) = self.section else {
            return Ok(());
        };
        self.tallies.conclude(&section, last, frame)?;
        if !is_again(&section, last) {
            self.section = section.rest();
        }
        Ok(())
    }

    /// The event of the first order.
    fn event(&self) -> Result<Option<Event>, NoMemory>
        requires { IsReady self.now.section (to_come self.now.schedule) }
        ensures { IfOk result (IsNext (plan_of self.now)) }
    {
        let Some(section) = self.section else {
            return Ok(None);
        };
        let event = first_event(self.alloc, &section, &self.tallies)?;
        Ok(Some(event))
    }
}
