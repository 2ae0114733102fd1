//! How many stanzas the clients of a drill were given, and how many they said that they handled.
ghost use Rattle.std.specs.Prelude.{◌≡◌, OnOk, true};
ghost use Rattle.replay_script.specs.Drills.{all_said, begins, from, is_stanza, one_more, tallied, with_tally};
ghost use Rattle.replay_script.specs.DrillSections.{first_order, tallies_in};

use crate::drill_schedule::drawn;
use crate::drill_section::{Client, Section, Task};
use house_model::Reply;
use stanza_tree::NoMemory;

/// Whether bytes begin with these.
#[tactic(auto, using(crate::proofs::DrillTallies::begins_is))]
fn begins(front: &[u8], bytes: &[u8]) -> bool
    ensures { result ≡ begins front.now bytes.now }
{
    bytes.starts_with(front)
}

/// Whether a frame is a stanza, which counts (XEP-0198, 4).
fn is_stanza(frame: &[u8]) -> bool
    ensures { result ≡ is_stanza frame.now }
{
    begins(b"<message", frame) || begins(b"<presence", frame) || begins(b"<iq", frame)
}

/// For each client, the stanzas that it was given since it counts, and those that it said.
#[derive(Clone, Copy)]
pub struct Tallies {
    pub pulled: [u64; 8],
    pub said: [u64; 8],
}

impl Tallies {
    /// Nothing was given yet.
    pub(crate) fn none() -> Tallies
        ensures { tallies_in result ≡ (λ i. record { pulled = 0; said = 0 }) }
    {
        Tallies {
            pulled: [0; 8],
            said: [0; 8],
        }
    }

    /// How many stanzas a client was given.
    pub(crate) fn pulled(&self, client: Client) -> u64
        ensures { result ≡ (tallies_in self.now client).pulled }
    {
        self.pulled[client.number() as usize]
    }

    /// From where a client resumes, if it tells of `fewer` stanzas fewer, but of all that it said.
    pub(crate) fn from(&self, client: Client, fewer: u64) -> u64
        ensures { result ≡ from fewer (tallies_in self.now client) }
    {
        let i = client.number() as usize;
        self.said[i].max(self.pulled[i].saturating_sub(fewer))
    }

    /// A client was given one stanza more.
    fn count(&mut self, client: Client) -> Result<(), NoMemory>
        ensures { OnOk result (tallies_in self.new ≡ with_tally client (one_more true (tallies_in self.old client)) (tallies_in self.old)) }
    {
        let i = client.number() as usize;
        let Some(more) = self.pulled[i].checked_add(1) else {
            return Err(NoMemory);
        };
        self.pulled[i] = more;
        Ok(())
    }

    /// A client said so many, which are then those that it was given.
    fn say(&mut self, client: Client, n: u64)
        ensures { tallies_in self.new ≡ with_tally client (all_said n) (tallies_in self.old) }
    {
        let i = client.number() as usize;
        self.pulled[i] = n;
        self.said[i] = n;
    }

    /// A client pulled a frame.
    fn take(&mut self, client: Client, frame: &[u8]) -> Result<(), NoMemory>
        ensures { OnOk result (tallies_in self.new ≡ with_tally client (one_more (is_stanza frame.now) (tallies_in self.old client)) (tallies_in self.old)) }
    {
        if is_stanza(frame) {
            self.count(client)?;
        }
        Ok(())
    }

    /// The first order of a section got this answer.
    pub(crate) fn conclude(
        &mut self,
        section: &Section,
        last: &Reply,
        frame: &[u8],
    ) -> Result<(), NoMemory>
        ensures { OnOk result (tallies_in self.new ≡ tallied (first_order section.now) last.now frame.now (tallies_in self.old)) }
    {
        let client = section.client;
        match section.task {
            Task::PullAll => {
                if let Reply::Frame = last {
                    self.take(client, frame)?;
                }
            }
            Task::AckAll => self.say(client, self.pulled(client)),
            Task::Resume => self.say(client, self.from(client, drawn(4, section.drawn))),
            _ => {}
        }
        Ok(())
    }
}
