//! The twelve calls. Each takes one turn, and its line is the pass's number.
ghost use Rattle.std.specs.Prelude.{◌≡◌, ◌≤◌, ◌+◌, ◌++◌, ℕ, List, vec_len, vec_capacity};
ghost use Rattle.std.specs.Option.{option_copied};
ghost use Rattle.turn_lock.specs.Passes.{number_of};
ghost use Rattle.house_model.specs.declared.event.Event.{Event};
ghost use Rattle.house_model.specs.Histories.{IdFits, StanzaFits};
ghost use Rattle.hall.specs.Halls.{CameFrom, Answered, AnsweredOrShort, AnsweredBy, joined};

use crate::calls::{
    Ack, Act, Ask, Bind, CloseLine, DropLine, Enable, Login, OpenLine, Pull, Resume, Sweep,
};
use crate::hall::{Hall, HallFault, Pass};
use house_model::{Reply, Stanza};
use jid_core::Part;
use sm_resume::ResumeId;
use stanza_tree::{NoMemory, Text};
use std::alloc::AllocError;
use std::sync::Wait;
use turn_lock::Spent;

impl Hall {
    /// A connection came to the line. What is there is left.
    #[tactic(auto, using(crate::proofs::AnswerLaws::answered))]
    pub fn open_line<W: Wait>(&self, rt: &W, pass: &mut Pass) -> Result<Reply, Spent>
        requires pass { CameFrom self.now pass.old }
        ensures pass { CameFrom self.now pass.new }
        ensures number { number_of pass.new ≡ number_of pass.old }
        ensures answered { Answered (Event.OpenLine (number_of pass.old)) result pass.old pass.new }
    {
        self.turn(rt, pass, &OpenLine, &mut Vec::new(self.alloc))
    }

    /// The connection proved that it is this user's. Costs one look in a hash table.
    #[tactic(auto, using(crate::proofs::AnswerLaws::answered))]
    pub fn login<W: Wait>(&self, rt: &W, pass: &mut Pass, user: &Part) -> Result<Reply, Spent>
        requires pass { CameFrom self.now pass.old }
        ensures pass { CameFrom self.now pass.new }
        ensures number { number_of pass.new ≡ number_of pass.old }
        ensures answered { Answered (Event.Login (number_of pass.old) user.now) result pass.old pass.new }
    {
        self.turn(rt, pass, &Login { user }, &mut Vec::new(self.alloc))
    }

    /// The connection asks for a session (RFC 6120, section 7). Costs the number of the user's sessions, and time logarithmic in all.
    #[tactic(auto, using(crate::proofs::AnswerLaws::answered_or_short))]
    pub fn bind<W: Wait>(
        &self,
        rt: &W,
        pass: &mut Pass,
        id: &Text,
        resource: Option<&Part>,
        t: u64,
        dice: [u8; 16],
    ) -> Result<Reply, HallFault>
        requires pass { CameFrom self.now pass.old }
        requires id { IdFits id.now }
        ensures pass { CameFrom self.now pass.new }
        ensures number { number_of pass.new ≡ number_of pass.old }
        ensures answered { AnsweredOrShort (Event.Bind (number_of pass.old) id.now (option_copied resource.entry) t dice) result pass.old pass.new }
    {
        answer_of(self.turn(
            rt,
            pass,
            &Bind {
                id,
                resource,
                t,
                dice,
            },
            &mut Vec::new(self.alloc),
        ))
    }

    /// The connection asks that its stanzas be counted (XEP-0198, 3).
    #[tactic(auto, using(crate::proofs::AnswerLaws::answered))]
    pub fn enable<W: Wait>(
        &self,
        rt: &W,
        pass: &mut Pass,
        resume: bool,
        dice: [u8; 16],
    ) -> Result<Reply, Spent>
        requires pass { CameFrom self.now pass.old }
        ensures pass { CameFrom self.now pass.new }
        ensures number { number_of pass.new ≡ number_of pass.old }
        ensures answered { Answered (Event.Enable (number_of pass.old) resume dice) result pass.old pass.new }
    {
        self.turn(
            rt,
            pass,
            &Enable { resume, dice },
            &mut Vec::new(self.alloc),
        )
    }

    /// The connection asks for the session of this id, of which it handled `h` stanzas (XEP-0198, 5).
    #[tactic(auto, using(crate::proofs::AnswerLaws::answered))]
    pub fn resume<W: Wait>(
        &self,
        rt: &W,
        pass: &mut Pass,
        id: Option<&ResumeId>,
        h: u32,
        t: u64,
    ) -> Result<Reply, Spent>
        requires pass { CameFrom self.now pass.old }
        ensures pass { CameFrom self.now pass.new }
        ensures number { number_of pass.new ≡ number_of pass.old }
        ensures answered { Answered (Event.Resume (number_of pass.old) (option_copied id.entry) h t) result pass.old pass.new }
    {
        self.turn(rt, pass, &Resume { id, h, t }, &mut Vec::new(self.alloc))
    }

    /// The connection sends a stanza. Costs the size of the stanza.
    #[tactic(auto, using(crate::proofs::AnswerLaws::answered_or_short))]
    pub fn act<W: Wait>(
        &self,
        rt: &W,
        pass: &mut Pass,
        stanza: &Stanza,
        t: u64,
    ) -> Result<Reply, HallFault>
        requires pass { CameFrom self.now pass.old }
        requires fits { StanzaFits stanza.now }
        ensures pass { CameFrom self.now pass.new }
        ensures number { number_of pass.new ≡ number_of pass.old }
        ensures answered { AnsweredOrShort (Event.Act (number_of pass.old) stanza.now t) result pass.old pass.new }
    {
        answer_of(self.turn(rt, pass, &Act { stanza, t }, &mut Vec::new(self.alloc)))
    }

    /// The client says how many stanzas it handled (XEP-0198, 4).
    #[tactic(auto, using(crate::proofs::AnswerLaws::answered))]
    pub fn ack<W: Wait>(&self, rt: &W, pass: &mut Pass, h: u32) -> Result<Reply, Spent>
        requires pass { CameFrom self.now pass.old }
        ensures pass { CameFrom self.now pass.new }
        ensures number { number_of pass.new ≡ number_of pass.old }
        ensures answered { Answered (Event.Ack (number_of pass.old) h) result pass.old pass.new }
    {
        self.turn(rt, pass, &Ack { h }, &mut Vec::new(self.alloc))
    }

    /// The client asks how many of its stanzas were handled (XEP-0198, 4).
    #[tactic(auto, using(crate::proofs::AnswerLaws::answered))]
    pub fn ask<W: Wait>(&self, rt: &W, pass: &mut Pass) -> Result<Reply, Spent>
        requires pass { CameFrom self.now pass.old }
        ensures pass { CameFrom self.now pass.new }
        ensures number { number_of pass.new ≡ number_of pass.old }
        ensures answered { Answered (Event.Ask (number_of pass.old)) result pass.old pass.new }
    {
        self.turn(rt, pass, &Ask, &mut Vec::new(self.alloc))
    }

    /// The connection takes its next frame, which is appended. Takes no memory.
    #[tactic(auto, using(crate::proofs::AnswerLaws::answered_by))]
    pub fn pull<W: Wait>(
        &self,
        rt: &W,
        pass: &mut Pass,
        t: u64,
        out: &mut Vec<u8>,
    ) -> Result<Reply, Spent>
        requires pass { CameFrom self.now pass.old }
        requires room { vec_len out.old + 524288 ≤ vec_capacity out.old }
        ensures pass { CameFrom self.now pass.new }
        ensures number { number_of pass.new ≡ number_of pass.old }
        ensures answered { (text : List ℕ) × (out.new.items ≡ out.old.items ++ text)
            × AnsweredBy text (Event.Pull (number_of pass.old) t) result pass.old pass.new }
        ensures capacity { vec_capacity out.old ≤ vec_capacity out.new }
    {
        self.turn(rt, pass, &Pull { t }, out)
    }

    /// The connection was lost.
    #[tactic(auto, using(crate::proofs::AnswerLaws::answered))]
    pub fn drop_line<W: Wait>(&self, rt: &W, pass: &mut Pass, t: u64) -> Result<Reply, Spent>
        requires pass { CameFrom self.now pass.old }
        ensures pass { CameFrom self.now pass.new }
        ensures number { number_of pass.new ≡ number_of pass.old }
        ensures answered { Answered (Event.DropLine (number_of pass.old) t) result pass.old pass.new }
    {
        self.turn(rt, pass, &DropLine { t }, &mut Vec::new(self.alloc))
    }

    /// The client closed its stream (RFC 6120, 4.4).
    #[tactic(auto, using(crate::proofs::AnswerLaws::answered))]
    pub fn close_line<W: Wait>(&self, rt: &W, pass: &mut Pass, t: u64) -> Result<Reply, Spent>
        requires pass { CameFrom self.now pass.old }
        ensures pass { CameFrom self.now pass.new }
        ensures number { number_of pass.new ≡ number_of pass.old }
        ensures answered { Answered (Event.CloseLine (number_of pass.old) t) result pass.old pass.new }
    {
        self.turn(rt, pass, &CloseLine { t }, &mut Vec::new(self.alloc))
    }

    /// The session of least number that is over or past its deadline is taken away.
    #[tactic(auto, using(crate::proofs::AnswerLaws::answered_or_short))]
    pub fn sweep<W: Wait>(&self, rt: &W, pass: &mut Pass, t: u64) -> Result<Reply, HallFault>
        requires pass { CameFrom self.now pass.old }
        ensures pass { CameFrom self.now pass.new }
        ensures number { number_of pass.new ≡ number_of pass.old }
        ensures answered { AnsweredOrShort (Event.Sweep (number_of pass.old) t) result pass.old pass.new }
    {
        answer_of(self.turn(rt, pass, &Sweep { t }, &mut Vec::new(self.alloc)))
    }
}

// The answer of a call for which memory may be wanting.
fn answer_of(answer: Result<Result<Reply, NoMemory>, Spent>) -> Result<Reply, HallFault>
    ensures { result ≡ joined answer }
{
    match answer {
        Ok(Ok(reply)) => Ok(reply),
        Ok(Err(AllocError)) => Err(HallFault::NoMemory),
        Err(Spent) => Err(HallFault::Spent),
    }
}
