//! A hall is a desk.
ghost use Rattle.std.specs.Prelude.{◌≡◌};
ghost use Rattle.hall.specs.Desks.{unless_refused, unless_spent};

use crate::desk::{Desk, DeskFault};
use crate::hall::{Hall, HallFault, Pass};
use house_model::{Reply, Stanza};
use jid_core::{Jid, Part};
use sm_resume::ResumeId;
use stanza_tree::Text;
use std::sync::Wait;
use turn_lock::Spent;

// The answer of a call that takes no memory.
fn unless_spent(answer: Result<Reply, Spent>) -> Result<Reply, DeskFault>
    ensures { result ≡ unless_spent answer }
{
    match answer {
        Ok(reply) => Ok(reply),
        Err(Spent) => Err(DeskFault::Spent),
    }
}

fn unless_refused(answer: Result<Reply, HallFault>) -> Result<Reply, DeskFault>
    ensures { result ≡ unless_refused answer }
{
    match answer {
        Ok(reply) => Ok(reply),
        Err(HallFault::NoMemory) => Err(DeskFault::NoMemory),
        Err(HallFault::Spent) => Err(DeskFault::Spent),
    }
}

impl Desk for Hall {
    type Pass = Pass;

    ghost use Rattle.std.specs.Prelude.{[], refl};
    ghost use Rattle.turn_lock.specs.Passes.{number_of, seen, refused};
    ghost use Rattle.hall.specs.Halls.{opened, opening_state, CameFrom};

    ghost opening = { opening_state };

    ghost earlier = { λ _. [] };

    ghost line = { number_of };

    ghost seen = { seen };

    ghost marked = { refused };

    ghost came_from = { CameFrom };

    fn domain(&self) -> &Jid {
        Hall::domain(self)
    }

    fn number(pass: &Pass) -> u32 {
        pass.number()
    }

    fn next_stirred(&self) -> Option<u32> {
        Hall::next_stirred(self)
    }

    #[tactic(auto, using(crate::proofs::DeskLaws::served, crate::proofs::DeskLaws::begins, crate::proofs::DeskLaws::marked))]
    fn open_line<W: Wait>(&self, rt: &W, pass: &mut Pass) -> Result<Reply, DeskFault> {
        unless_spent(Hall::open_line(self, rt, pass))
    }

    #[tactic(auto, using(crate::proofs::DeskLaws::served, crate::proofs::DeskLaws::begins, crate::proofs::DeskLaws::marked))]
    fn login<W: Wait>(&self, rt: &W, pass: &mut Pass, user: &Part) -> Result<Reply, DeskFault> {
        unless_spent(Hall::login(self, rt, pass, user))
    }

    #[tactic(auto, using(crate::proofs::DeskLaws::served_or_short, crate::proofs::DeskLaws::begins_or_short, crate::proofs::DeskLaws::marked_or_short))]
    fn bind<W: Wait>(
        &self,
        rt: &W,
        pass: &mut Pass,
        id: &Text,
        resource: Option<&Part>,
        t: u64,
        dice: [u8; 16],
    ) -> Result<Reply, DeskFault> {
        unless_refused(Hall::bind(self, rt, pass, id, resource, t, dice))
    }

    #[tactic(auto, using(crate::proofs::DeskLaws::served, crate::proofs::DeskLaws::begins, crate::proofs::DeskLaws::marked))]
    fn enable<W: Wait>(
        &self,
        rt: &W,
        pass: &mut Pass,
        resume: bool,
        dice: [u8; 16],
    ) -> Result<Reply, DeskFault> {
        unless_spent(Hall::enable(self, rt, pass, resume, dice))
    }

    #[tactic(auto, using(crate::proofs::DeskLaws::served, crate::proofs::DeskLaws::begins, crate::proofs::DeskLaws::marked))]
    fn resume<W: Wait>(
        &self,
        rt: &W,
        pass: &mut Pass,
        id: Option<&ResumeId>,
        h: u32,
        t: u64,
    ) -> Result<Reply, DeskFault> {
        unless_spent(Hall::resume(self, rt, pass, id, h, t))
    }

    #[tactic(auto, using(crate::proofs::DeskLaws::served_or_short, crate::proofs::DeskLaws::begins_or_short, crate::proofs::DeskLaws::marked_or_short))]
    fn act<W: Wait>(
        &self,
        rt: &W,
        pass: &mut Pass,
        stanza: &Stanza,
        t: u64,
    ) -> Result<Reply, DeskFault> {
        unless_refused(Hall::act(self, rt, pass, stanza, t))
    }

    #[tactic(auto, using(crate::proofs::DeskLaws::served, crate::proofs::DeskLaws::begins, crate::proofs::DeskLaws::marked))]
    fn ack<W: Wait>(&self, rt: &W, pass: &mut Pass, h: u32) -> Result<Reply, DeskFault> {
        unless_spent(Hall::ack(self, rt, pass, h))
    }

    #[tactic(auto, using(crate::proofs::DeskLaws::served, crate::proofs::DeskLaws::begins, crate::proofs::DeskLaws::marked))]
    fn ask<W: Wait>(&self, rt: &W, pass: &mut Pass) -> Result<Reply, DeskFault> {
        unless_spent(Hall::ask(self, rt, pass))
    }

    #[tactic(auto, using(crate::proofs::DeskLaws::served_by, crate::proofs::DeskLaws::begins_by, crate::proofs::DeskLaws::marked_when))]
    fn pull<W: Wait>(
        &self,
        rt: &W,
        pass: &mut Pass,
        t: u64,
        out: &mut Vec<u8>,
    ) -> Result<Reply, DeskFault> {
        unless_spent(Hall::pull(self, rt, pass, t, out))
    }

    #[tactic(auto, using(crate::proofs::DeskLaws::served, crate::proofs::DeskLaws::begins, crate::proofs::DeskLaws::marked))]
    fn drop_line<W: Wait>(&self, rt: &W, pass: &mut Pass, t: u64) -> Result<Reply, DeskFault> {
        unless_spent(Hall::drop_line(self, rt, pass, t))
    }

    #[tactic(auto, using(crate::proofs::DeskLaws::served, crate::proofs::DeskLaws::begins, crate::proofs::DeskLaws::marked))]
    fn close_line<W: Wait>(&self, rt: &W, pass: &mut Pass, t: u64) -> Result<Reply, DeskFault> {
        unless_spent(Hall::close_line(self, rt, pass, t))
    }

    #[tactic(auto, using(crate::proofs::DeskLaws::served_or_short, crate::proofs::DeskLaws::begins_or_short, crate::proofs::DeskLaws::marked_or_short))]
    fn sweep<W: Wait>(&self, rt: &W, pass: &mut Pass, t: u64) -> Result<Reply, DeskFault> {
        unless_refused(Hall::sweep(self, rt, pass, t))
    }

    ghost opens = { λ desk. ((opened desk).limits, (opened desk).domain, (opened desk).users, (opened desk).workers, refl) };

    ghost legal = { λ desk pass from. from.2 };
}
