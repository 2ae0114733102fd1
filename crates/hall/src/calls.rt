//! The twelve calls of the house.
ghost use Rattle.std.specs.Prelude.{ℕ, List, [], ⊤};
ghost use Rattle.std.specs.Option.{option_copied};
ghost use Rattle.house_model.specs.declared.event.Event.{Event};
ghost use Rattle.house_model.specs.Histories.{IdFits, StanzaFits, ended, kept_step, made};
ghost use Rattle.house_core.specs.Houses.{held};

use crate::call::Call;
use house_core::House;
use house_model::{Reply, Stanza};
use jid_core::Part;
use sm_resume::ResumeId;
use stanza_tree::{NoMemory, Text};

#[derive(Drop)]
pub(crate) struct OpenLine;

impl Call for OpenLine {
    type Answer = Reply;

    ghost turn = { λ c w k answer. made (Event.OpenLine w) answer [] };

    ghost fits = { λ c. ⊤ };

    ghost room = { λ c. 0 };

    fn make(&self, house: &mut House, w: u32, _out: &mut Vec<u8>) -> Reply {
        house.open_line(w)
    }
}

#[derive(Drop)]
pub(crate) struct Login<'a> {
    pub(crate) user: &'a Part,
}

impl<'a> Call for Login<'a> {
    type Answer = Reply;

    ghost turn = { λ c w k answer. made (Event.Login w c.user.now) answer [] };

    ghost fits = { λ c. ⊤ };

    ghost room = { λ c. 0 };

    fn make(&self, house: &mut House, w: u32, _out: &mut Vec<u8>) -> Reply {
        house.login(w, self.user)
    }
}

#[derive(Drop)]
pub(crate) struct Bind<'a> {
    pub(crate) id: &'a Text,
    pub(crate) resource: Option<&'a Part>,
    pub(crate) t: u64,
    pub(crate) dice: [u8; 16],
}

impl<'a> Call for Bind<'a> {
    type Answer = Result<Reply, NoMemory>;

    ghost turn = { λ c w k answer. ended (Event.Bind w c.id.now (option_copied c.resource) c.t c.dice) answer };

    ghost fits = { λ c. IdFits c.id.now };

    ghost room = { λ c. 0 };

    fn make(&self, house: &mut House, w: u32, _out: &mut Vec<u8>) -> Result<Reply, NoMemory> {
        house.bind(w, self.id, self.resource, self.t, self.dice)
    }
}

#[derive(Drop)]
pub(crate) struct Enable {
    pub(crate) resume: bool,
    pub(crate) dice: [u8; 16],
}

impl Call for Enable {
    type Answer = Reply;

    ghost turn = { λ c w k answer. made (Event.Enable w c.resume c.dice) answer [] };

    ghost fits = { λ c. ⊤ };

    ghost room = { λ c. 0 };

    fn make(&self, house: &mut House, w: u32, _out: &mut Vec<u8>) -> Reply {
        house.enable(w, self.resume, self.dice)
    }
}

#[derive(Drop)]
pub(crate) struct Resume<'a> {
    pub(crate) id: Option<&'a ResumeId>,
    pub(crate) h: u32,
    pub(crate) t: u64,
}

impl<'a> Call for Resume<'a> {
    type Answer = Reply;

    ghost turn = { λ c w k answer. made (Event.Resume w (option_copied c.id) c.h c.t) answer [] };

    ghost fits = { λ c. ⊤ };

    ghost room = { λ c. 0 };

    fn make(&self, house: &mut House, w: u32, _out: &mut Vec<u8>) -> Reply {
        house.resume(w, self.id, self.h, self.t)
    }
}

#[derive(Drop)]
pub(crate) struct Act<'a> {
    pub(crate) stanza: &'a Stanza,
    pub(crate) t: u64,
}

impl<'a> Call for Act<'a> {
    type Answer = Result<Reply, NoMemory>;

    ghost turn = { λ c w k answer. ended (Event.Act w c.stanza.now c.t) answer };

    ghost fits = { λ c. StanzaFits c.stanza.now };

    ghost room = { λ c. 0 };

    fn make(&self, house: &mut House, w: u32, _out: &mut Vec<u8>) -> Result<Reply, NoMemory> {
        house.act(w, self.stanza, self.t)
    }
}

#[derive(Drop)]
pub(crate) struct Ack {
    pub(crate) h: u32,
}

impl Call for Ack {
    type Answer = Reply;

    ghost turn = { λ c w k answer. made (Event.Ack w c.h) answer [] };

    ghost fits = { λ c. ⊤ };

    ghost room = { λ c. 0 };

    fn make(&self, house: &mut House, w: u32, _out: &mut Vec<u8>) -> Reply {
        house.ack(w, self.h)
    }
}

#[derive(Drop)]
pub(crate) struct Ask;

impl Call for Ask {
    type Answer = Reply;

    ghost turn = { λ c w k answer. made (Event.Ask w) answer [] };

    ghost fits = { λ c. ⊤ };

    ghost room = { λ c. 0 };

    fn make(&self, house: &mut House, w: u32, _out: &mut Vec<u8>) -> Reply {
        house.ask(w)
    }
}

/// Its turn has the text of the frame, which is that of the house before it.
#[derive(Drop)]
pub(crate) struct Pull {
    pub(crate) t: u64,
}

impl Call for Pull {
    type Answer = Reply;

    ghost turn = { λ c w k answer. made (Event.Pull w c.t) answer (kept_step (held k) (Event.Pull w c.t)).text };

    ghost fits = { λ c. ⊤ };

    ghost room = { λ c. 524288 };

    fn make(&self, house: &mut House, w: u32, out: &mut Vec<u8>) -> Reply {
        house.pull(w, self.t, out)
    }
}

#[derive(Drop)]
pub(crate) struct DropLine {
    pub(crate) t: u64,
}

impl Call for DropLine {
    type Answer = Reply;

    ghost turn = { λ c w k answer. made (Event.DropLine w c.t) answer [] };

    ghost fits = { λ c. ⊤ };

    ghost room = { λ c. 0 };

    fn make(&self, house: &mut House, w: u32, _out: &mut Vec<u8>) -> Reply {
        house.drop_line(w, self.t)
    }
}

#[derive(Drop)]
pub(crate) struct CloseLine {
    pub(crate) t: u64,
}

impl Call for CloseLine {
    type Answer = Reply;

    ghost turn = { λ c w k answer. made (Event.CloseLine w c.t) answer [] };

    ghost fits = { λ c. ⊤ };

    ghost room = { λ c. 0 };

    fn make(&self, house: &mut House, w: u32, _out: &mut Vec<u8>) -> Reply {
        house.close_line(w, self.t)
    }
}

#[derive(Drop)]
pub(crate) struct Sweep {
    pub(crate) t: u64,
}

impl Call for Sweep {
    type Answer = Result<Reply, NoMemory>;

    ghost turn = { λ c w k answer. ended (Event.Sweep w c.t) answer };

    ghost fits = { λ c. ⊤ };

    ghost room = { λ c. 0 };

    fn make(&self, house: &mut House, w: u32, _out: &mut Vec<u8>) -> Result<Reply, NoMemory> {
        house.sweep(w, self.t)
    }
}
