//! Each call on a flow does what the laws say of it.

ghost use Rattle.std.specs.Prelude.{◌≡◌, IfOk, OnErr, OnOk};
ghost use Rattle.conn_flow.specs.declared.phase.Phase.TheVariants as phase;
ghost use Rattle.conn_flow.specs.Flows.{IsTold};
ghost use Rattle.conn_flow.specs.Calls.{Does, Gave, Hear, HearShort, Hung, Late, Next, NextShort, Quiet, Told, ToldShort};

use crate::flow::Flow;
use crate::want::Want;
use account_book::Accounts;
use conn_asks::DRAW;
use house_model::Reply;
use stanza_tree::NoMemory;
use stream_frames::Short;

pub(crate) fn hear(flow: &mut Flow, piece: &[u8], moment: u64) -> Result<usize, Short>
    requires { flow.old.talk.phase ≡ phase.Resting }
    ensures heard { OnOk result (Does flow.old (Hear moment piece.now) flow.new) }
    ensures short { OnErr result (Does flow.old (HearShort moment) flow.new) }
{
    flow.hear(piece, moment)
}

pub(crate) fn late(flow: &mut Flow, moment: u64)
    requires { flow.old.talk.phase ≡ phase.Resting }
    ensures { Does flow.old (Late moment) flow.new }
{
    flow.late(moment);
}

pub(crate) fn quiet(flow: &mut Flow, moment: u64)
    requires { flow.old.talk.phase ≡ phase.Resting }
    ensures { Does flow.old (Quiet moment) flow.new }
{
    flow.quiet(moment);
}

pub(crate) fn hung(flow: &mut Flow, moment: u64)
    requires { flow.old.talk.phase ≡ phase.Resting }
    ensures { Does flow.old (Hung moment) flow.new }
{
    flow.hung(moment);
}

pub(crate) fn next(flow: &mut Flow, accounts: &Accounts) -> Result<Want, NoMemory>
    ensures next { IfOk result (λ want. Does flow.old (Next want) flow.new) }
    ensures short { OnErr result (Does flow.old NextShort flow.new) }
{
    flow.next(accounts)
}

pub(crate) fn told(flow: &mut Flow, reply: Reply)
    requires { IsTold flow.old.talk.phase }
    ensures { Does flow.old (Told reply) flow.new }
{
    flow.told(reply);
}

pub(crate) fn short(flow: &mut Flow)
    requires { IsTold flow.old.talk.phase }
    ensures { Does flow.old ToldShort flow.new }
{
    flow.short();
}

pub(crate) fn gave(flow: &mut Flow, dice: [u8; DRAW])
    requires { flow.old.talk.phase ≡ phase.Drawing }
    ensures { Does flow.old (Gave dice) flow.new }
{
    flow.gave(dice);
}
