//! A connection without its socket.

ghost use Rattle.std.specs.Prelude.{◌≡◌, ◌↔◌, true, IfOk, OnErr, OnOk};
ghost use Rattle.std.specs.Option.{option_copied};
ghost use Rattle.stream_grammar.specs.machine.Reading.{handed, is_ready, waiting};
ghost use Rattle.conn_asks.specs.declared.ended.Ended.TheVariants as ended;
ghost use Rattle.conn_asks.specs.Texts.{stream_id};
ghost use Rattle.conn_flow.specs.declared.phase.Phase.TheVariants as phase;
ghost use Rattle.conn_flow.specs.Flows.{IsAfter, IsGoing, IsLoaded, IsReadyAt, IsTold, IsToldAll, Prepares, State, Takes, Wants};
ghost use Rattle.conn_flow.specs.declared.want.Want.TheVariants as wants;
ghost use Rattle.conn_flow.specs.Flows.{fresh, gave_at, hears, hung_at, is_late, late_at, short_at, taken_of, logged_user, told, waited};
ghost use Rattle.conn_flow.specs.Reasons.{EndsBy, Finishes, FinishesOwn, IsIdle, IsOwnIf, LeavesNothing, NeedsDice, RestsBy, end_at, end_by};

use crate::phase::Phase;
use crate::talk::Talk;
use crate::want::Want;
use account_book::Accounts;
use conn_asks::{DRAW, Ended, Stage, stream_id};
use house_model::Reply;
use jid_core::Part;
use stanza_tree::{NoMemory, Several};
use std::alloc::Global;
use std::marker::Model;
use stream_frames::{Framer, LIMITS, Short};

/// A connection without its socket (RFC 6120): pieces of its bytes go in, and what is wanted comes out, one after the other: a text to be
/// said, an event for the house, random bytes, more to be heard, and at last its end. It knows streams, logins, bindings, stream
/// management and stanzas; nothing of threads, and of time the moments that it is handed.
pub struct Flow {
    alloc: Global,
    framer: Framer,
    talk: Talk,
}

impl Model for Flow {
    ghost use Rattle.std.specs.Coded.{codes};
    ghost use Rattle.stanza_tree.specs.contracts.node.Node as node;
    ghost use Rattle.conn_flow.specs.Flows.{IsLoaded, IsReadyAt, State};
    ghost use Rattle.conn_flow.specs.Reasons.{IsOwnIf, end_at};

    ghost Value = { State };

    ghost coded = { Prim.hlevel (codes, node.the_row.coded) };

    ghost view = { λ f. record { fed = f.framer; talk = f.talk } };

    ghost invariant = { λ f. IsReadyAt f.talk.phase f.framer.reading × IsLoaded f.talk f.talk.phase × IsOwnIf (end_at f.talk.phase) };
}

impl Drop for Flow {
    fn drop(self) {
        let Flow {
            alloc: _,
            framer,
            talk,
        } = self;
        drop(framer);
        drop(talk);
    }
}

/// An item that waits is handled, and what random bytes were needed for.
fn prepare(
    alloc: Global,
    accounts: &Accounts,
    framer: &mut Framer,
    talk: &mut Talk,
) -> Result<(), NoMemory>
    requires ready { IsReadyAt talk.old.phase framer.old.reading }
    requires loaded { IsLoaded talk.old talk.old.phase }
    ensures prepared { OnOk result (Prepares accounts.now (record { fed = framer.old; talk = talk.old }) talk.old.phase
        (record { fed = framer.new; talk = talk.new })) }
    ensures ready { OnOk result (is_ready framer.new.reading ≡ true) }
    ensures loaded { OnOk result (IsLoaded talk.new talk.new.phase) }
    ensures going { OnErr result (IsGoing talk.old talk.old.phase) }
{
    match talk.phase {
        Phase::Heard => take(alloc, framer, talk),
        Phase::Drawn(dice) => talk.use_dice(alloc, accounts, dice),
        _ => Ok(()),
    }
}

/// The item that waits is handled.
fn take(alloc: Global, framer: &mut Framer, talk: &mut Talk) -> Result<(), NoMemory>
    ensures handed { framer.new ≡ record framer.old { reading = handed framer.old.reading } }
    ensures taken { OnOk result (Takes talk.old (waiting framer.old.reading) talk.new) }
{
    match framer.next() {
        Some(item) => talk.take(alloc, item),
        None => {
            talk.phase = Phase::Pulling;
            Ok(())
        }
    }
}

fn next_want(
    alloc: Global,
    accounts: &Accounts,
    framer: &mut Framer,
    talk: &mut Talk,
) -> Result<Want, NoMemory>
    requires ready { IsReadyAt talk.old.phase framer.old.reading }
    requires loaded { IsLoaded talk.old talk.old.phase }
    ensures wants { IfOk result (λ want. Wants accounts.now (record { fed = framer.old; talk = talk.old }) want
        (record { fed = framer.new; talk = talk.new })) }
    ensures ready { OnOk result (is_ready framer.new.reading ≡ true) }
    ensures loaded { OnOk result (IsLoaded talk.new talk.new.phase) }
    ensures going { OnErr result (IsGoing talk.old talk.old.phase) }
{
    prepare(alloc, accounts, framer, talk)?;
    talk.want(alloc)
}

impl Flow {
    /// A connection at a line of the house for a domain, which came at this moment. The id of its first stream is made of the random bytes.
    pub fn new(
        alloc: Global,
        line: u32,
        domain: &Part,
        dice: [u8; 16],
        moment: u64,
    ) -> Result<Flow, NoMemory>
        ensures { IfOk result (λ flow. flow ≡ fresh line domain.now dice moment) }
    {
        let domain = domain.copy(alloc)?;
        let id = Several::of(stream_id(alloc, dice)?);
        Ok(Flow {
            alloc,
            framer: Framer::new(alloc, LIMITS)?,
            talk: Talk::new(alloc, line, domain, id, moment),
        })
    }

    /// The moment of the last reading, or of opening.
    pub fn moment(&self) -> u64
        ensures { result ≡ self.now.talk.moment }
    {
        self.talk.moment
    }

    /// Who logged in, if anybody did.
    pub fn user(&self) -> Option<&Part>
        ensures { option_copied result ≡ logged_user self.now.talk.stage }
    {
        match &self.talk.stage {
            Stage::Login(_) => None,
            Stage::Logged(user) => Some(user),
            Stage::Bound(user) => Some(user),
        }
    }

    /// Takes a piece up to the end of its first item, or all of it: how many bytes were taken. What is left is to be handed in again, at the
    /// same moment, when more is wanted. Want of memory leaves the flow able to finish only.
    pub fn hear(&mut self, piece: &[u8], moment: u64) -> Result<usize, Short>
        requires { self.old.talk.phase ≡ phase.Resting }
        ensures taken { IfOk result (λ n. n ≡ taken_of self.old piece.now) }
        ensures state { OnOk result (self.new ≡ hears self.old moment piece.now) }
        ensures err { OnErr result (self.new.talk ≡ record self.old.talk { moment = moment; phase = phase.Left ended.NoMemory }) }
    {
        match self.framer.feed(piece) {
            Ok(taken) => {
                self.talk.hear(moment, taken, piece.len());
                Ok(taken)
            }
            Err(short) => {
                self.framer.restart();
                self.talk.leave_short(moment);
                Err(short)
            }
        }
    }

    /// Whether bytes that come at this moment come too late: nobody logged in within a minute of opening.
    pub fn is_late(&self, moment: u64) -> bool
        ensures { result ≡ is_late self.now.talk moment }
    {
        self.talk.is_late(moment)
    }

    /// Bytes came too late at this moment; they are not to be handled.
    pub fn late(&mut self, moment: u64)
        requires { self.old.talk.phase ≡ phase.Resting }
        ensures { self.new ≡ record self.old { talk = late_at self.old.talk moment } }
    {
        self.talk.overstay(moment);
    }

    /// Nothing was heard up to this moment.
    pub fn quiet(&mut self, moment: u64)
        requires { self.old.talk.phase ≡ phase.Resting }
        ensures { self.new ≡ record self.old { talk = waited self.old.talk moment } }
    {
        self.talk.wait(moment);
    }

    /// The link was at its end at this moment.
    pub fn hung(&mut self, moment: u64)
        requires { self.old.talk.phase ≡ phase.Resting }
        ensures { self.new ≡ record self.old { talk = hung_at self.old.talk moment } }
    {
        self.talk.hang(moment);
    }

    /// What is wanted next. Want of memory leaves the flow able to finish only. It waits exactly where all that it heard is handled and nothing is
    /// left to be done, needs random bytes exactly where they were asked for, and finishes exactly where an end stands and its last text was said.
    /// Which calls leave nothing to be done, and which make each end, is told by the laws `a_flow_rests_after_its_last_reply` and
    /// `each_end_was_made`.
    pub fn next(&mut self, accounts: &Accounts) -> Result<Want, NoMemory>
        ensures wants { IfOk result (λ want. Wants accounts.now self.old want self.new) }
        ensures err { OnErr result (self.new.talk.phase ≡ phase.Left ended.NoMemory) }
        ensures going { OnErr result (IsGoing self.old.talk self.old.talk.phase) }
        ensures after { IfOk result (λ want. IsAfter self.old.talk.phase want self.new.talk.phase) }
        ensures awaits { IfOk result (λ want. IsToldAll self.old.talk.phase → (want ≡ wants.Await) ↔ IsIdle self.old) }
        ensures rests { IfOk result (λ want. (self.new.talk.phase ≡ phase.Resting) ↔ RestsBy self.old.talk.phase self.new.talk want) }
        ensures dice { IfOk result (λ want. (want ≡ wants.NeedDice) ↔ NeedsDice self.old self.new) }
        ensures finishes { IfOk result (λ want. Finishes self.old.talk.phase want (end_at self.new.talk.phase)) }
        ensures ends { IfOk result (λ want. EndsBy (end_at self.old.talk.phase) (end_at self.new.talk.phase)) }
        ensures own { IfOk result (λ want. FinishesOwn want) }
    {
        match next_want(self.alloc, accounts, &mut self.framer, &mut self.talk) {
            Ok(want) => Ok(want),
            Err(error) => {
                self.framer.restart();
                self.talk.phase = Phase::Left(Ended::NoMemory);
                Err(error)
            }
        }
    }

    /// The reply of the house to the event that was wanted.
    pub fn told(&mut self, reply: Reply)
        requires { IsTold self.old.talk.phase }
        ensures state { self.new ≡ told self.old reply }
        ensures told { IsToldAll self.new.talk.phase }
        ensures ends { end_at self.new.talk.phase ≡ end_by self.old.talk.phase reply }
        ensures rests { (self.new.talk.phase ≡ phase.Resting) ↔ LeavesNothing self.old.talk.more self.old.talk.phase reply }
    {
        if self.talk.told(reply) {
            self.framer.restart();
        }
    }

    /// The house found no memory for the event that was wanted.
    pub fn short(&mut self)
        requires { IsTold self.old.talk.phase }
        ensures { self.new ≡ record self.old { talk = short_at self.old.talk self.old.talk.phase } }
    {
        self.talk.short();
    }

    /// The random bytes that were wanted.
    pub fn gave(&mut self, dice: [u8; DRAW])
        requires { self.old.talk.phase ≡ phase.Drawing }
        ensures { self.new ≡ record self.old { talk = gave_at self.old.talk dice } }
    {
        self.talk.give(dice);
    }
}
