//! What readings, and the replies of the house, make of what a flow knows; and what it wants.

ghost use Rattle.std.specs.Prelude.{◌≡◌, if◌then◌else◌, IfOk, OnErr, Some};
ghost use Rattle.conn_asks.specs.declared.ended.Ended.TheVariants as ended;
ghost use Rattle.conn_asks.specs.Texts.{failure_text};
ghost use Rattle.conn_flow.specs.declared.phase.Phase.TheVariants as phase;
ghost use Rattle.conn_flow.specs.Duties.{bound, follows};
ghost use Rattle.conn_flow.specs.Flows.{IsGoing, IsLoaded, IsThere, IsWish, gave_at, handled, handled_phase, heard_at};
ghost use Rattle.conn_flow.specs.Flows.{hung_at, is_late, last_text, late_at, logged_by, ousts, restarts, short_at, told_at, told_entered};
ghost use Rattle.conn_flow.specs.Flows.{told_login, told_once, told_pull, waited, wish, wished};

use crate::phase::Phase;
use crate::talk::{MOST_FAILURES, Talk};
use crate::want::Want;
use conn_asks::{DRAW, Ended, Exchanging, Failure, Stage, push_failure};
use house_model::{Event, Reply};
use jid_core::Part;
use stanza_tree::{NoMemory, Several};
use std::alloc::Global;
use std::mem;

/// How long a client may say nothing, in milliseconds: an hour, after which its link is taken for dead (RFC 6120, 4.6).
const IDLE: u64 = 3_600_000;

/// How long a client may take to log in, in milliseconds: a minute, so that silent connections hold no place for an hour.
const LOGIN: u64 = 60_000;

fn bound(stage: Stage) -> Stage
    ensures { result ≡ bound stage }
{
    match stage {
        Stage::Logged(user) => Stage::Bound(user),
        Stage::Login(exchanging) => Stage::Login(exchanging),
        Stage::Bound(user) => Stage::Bound(user),
    }
}

impl Talk {
    /// So many bytes were taken of a piece.
    pub(crate) fn hear(&mut self, moment: u64, taken: usize, most: usize)
        ensures { self.new ≡ heard_at self.old moment taken most }
    {
        self.more = taken < most;
        self.heard = moment;
        self.moment = moment;
        self.phase = Phase::Heard;
    }

    /// There was no memory to hear a piece.
    pub(crate) fn leave_short(&mut self, moment: u64)
        ensures { self.new ≡ record self.old { moment = moment; phase = phase.Left ended.NoMemory } }
    {
        self.moment = moment;
        self.phase = Phase::Left(Ended::NoMemory);
    }

    /// Whether nobody logged in so long after opening.
    pub(crate) fn is_late(&self, moment: u64) -> bool
        ensures { result ≡ is_late self.now moment }
    {
        match &self.stage {
            Stage::Login(_) => moment.saturating_sub(self.opened) >= LOGIN,
            Stage::Logged(_) => false,
            Stage::Bound(_) => false,
        }
    }

    pub(crate) fn overstay(&mut self, moment: u64)
        ensures { self.new ≡ late_at self.old moment }
    {
        self.moment = moment;
        self.phase = Phase::Parting(Ended::Idle(moment));
    }

    pub(crate) fn wait(&mut self, moment: u64)
        ensures { self.new ≡ waited self.old moment }
    {
        let is_late = self.is_late(moment);
        self.moment = moment;
        self.phase = if is_late || moment.saturating_sub(self.heard) >= IDLE {
            Phase::Parting(Ended::Idle(moment))
        } else {
            Phase::Pulling
        };
    }

    pub(crate) fn hang(&mut self, moment: u64)
        ensures { self.new ≡ hung_at self.old moment }
    {
        self.moment = moment;
        self.phase = Phase::Parting(Ended::Hung);
    }

    /// Where it goes on after an item: the next one comes, or where there is none the pulls.
    fn handled_phase(&self) -> Phase
        ensures { result ≡ handled_phase self.now.more }
    {
        if self.more {
            Phase::Resting
        } else {
            Phase::Pulling
        }
    }

    fn handle(&mut self)
        ensures { self.new ≡ handled self.old }
    {
        self.phase = self.handled_phase();
    }

    /// The reply to the event that was submitted. Answers whether a new stream begins.
    pub(crate) fn told(&mut self, reply: Reply) -> bool
        requires { IsLoaded self.old self.old.phase }
        ensures state { self.new ≡ told_at self.old self.old.phase reply }
        ensures restarts { result ≡ restarts self.old.phase reply }
    {
        match self.phase {
            Phase::Entered { pulls } => self.told_entered(pulls, reply),
            Phase::LoggedIn => return self.told_login(reply),
            Phase::PullingOnce => self.told_once(reply),
            Phase::Pulling => self.told_pull(reply),
            Phase::Sweeping => self.phase = Phase::Pulling,
            _ => {}
        }
        false
    }

    fn told_entered(&mut self, pulls: bool, reply: Reply)
        ensures { self.new ≡ told_entered self.old pulls reply }
    {
        match reply {
            Reply::Over(cause) => self.phase = Phase::Parting(Ended::Over(cause)),
            Reply::Bound | Reply::Resumed => {
                self.bind();
                self.go_on(pulls);
            }
            _ => self.go_on(pulls),
        }
    }

    fn bind(&mut self)
        ensures { self.new ≡ record self.old { stage = bound self.old.stage } }
    {
        let stage = mem::replace(&mut self.stage, Stage::Login(Exchanging::Outside));
        self.put_stage(bound(stage));
    }

    fn go_on(&mut self, pulls: bool)
        ensures { self.new ≡ record self.old { phase = if pulls then phase.PullingOnce else handled_phase self.old.more } }
    {
        self.phase = if pulls {
            Phase::PullingOnce
        } else {
            self.handled_phase()
        };
    }

    /// The reply to a login. Answers whether a new stream begins.
    fn told_login(&mut self, reply: Reply) -> bool
        requires { IsThere self.old.user }
        ensures state { self.new ≡ told_login self.old reply }
        ensures restarts { result ≡ restarts phase.LoggedIn reply }
    {
        match reply {
            Reply::Done => {
                self.log();
                true
            }
            Reply::Over(cause) => {
                self.phase = Phase::Parting(Ended::Over(cause));
                false
            }
            _ => {
                self.refuse(Failure::NotAuthorized);
                false
            }
        }
    }

    /// The user is logged in, and the text that says so is next.
    fn log(&mut self)
        requires { IsThere self.old.user }
        ensures { self.new ≡ logged_by self.old self.old.user }
    {
        match mem::replace(&mut self.user, None) {
            Some(user) => self.put_stage(Stage::Logged(user)),
            None => unreachable!(),
        }
        self.again = true;
        self.headed = false;
        self.phase = Phase::Saying;
    }

    fn told_once(&mut self, reply: Reply)
        ensures { self.new ≡ told_once self.old reply }
    {
        match reply {
            Reply::Over(cause) => self.phase = Phase::Parting(Ended::Over(cause)),
            _ => self.handle(),
        }
    }

    fn told_pull(&mut self, reply: Reply)
        ensures { self.new ≡ told_pull self.old reply }
    {
        self.phase = match reply {
            Reply::Frame => Phase::Pulling,
            Reply::Nothing { due } => { if due { Phase::Sweeping } else { Phase::Resting } }
            Reply::Over(cause) => Phase::Parting(Ended::Over(cause)),
            _ => Phase::Resting,
        };
    }

    /// The house found no memory for the event that was submitted.
    pub(crate) fn short(&mut self)
        ensures { self.new ≡ short_at self.old self.old.phase }
    {
        match self.phase {
            Phase::Entered { .. } => self.phase = Phase::Left(Ended::NoMemory),
            Phase::LoggedIn => self.phase = Phase::Left(Ended::NoMemory),
            Phase::Sweeping => self.phase = Phase::Resting,
            _ => {}
        }
    }

    /// Random bytes were drawn.
    pub(crate) fn give(&mut self, dice: [u8; DRAW])
        ensures { self.new ≡ gave_at self.old dice }
    {
        self.phase = Phase::Drawn(dice);
    }

    /// What is wanted next.
    pub(crate) fn want(&mut self, alloc: Global) -> Result<Want, NoMemory>
        requires { IsLoaded self.old self.old.phase }
        ensures want { IfOk result (λ want. IsWish want (wish self.old self.old.phase)) }
        ensures state { IfOk result (λ want. self.new ≡ wished self.old self.old.phase) }
        ensures err { OnErr result (IsGoing self.old self.old.phase) }
    {
        match self.phase {
            Phase::Resting
            | Phase::Heard
            | Phase::Drawn(_)
            | Phase::Entered { .. }
            | Phase::LoggedIn => Ok(Want::Await),
            Phase::Saying => Ok(Want::Say(self.take_text(alloc))),
            Phase::Refusing(failure) => self.say_failure(alloc, failure),
            Phase::Drawing => Ok(Want::NeedDice),
            Phase::Entering => Ok(Want::Submit(self.take_event())),
            Phase::LoggingIn => self.login_event(alloc),
            Phase::PullingOnce | Phase::Pulling => Ok(Want::Submit(Event::Pull {
                w: self.line,
                t: self.moment,
            })),
            Phase::Sweeping => Ok(Want::Submit(Event::Sweep {
                w: self.line,
                t: self.moment,
            })),
            Phase::Parting(ended) => self.part(alloc, ended),
            Phase::Left(ended) => Ok(Want::Finish(ended)),
        }
    }

    fn take_text(&mut self, alloc: Global) -> Vec<u8>
        ensures text { result.items ≡ self.old.text }
        ensures state { self.new ≡ wished self.old phase.Saying }
    {
        let text = mem::replace(&mut self.text, Several::of(Vec::new(alloc)));
        self.handle();
        text.into_vec()
    }

    fn say_failure(&mut self, alloc: Global, failure: Failure) -> Result<Want, NoMemory>
        ensures want { IfOk result (λ want. IsWish want (wish self.old (phase.Refusing failure))) }
        ensures state { IfOk result (λ want. self.new ≡ wished self.old (phase.Refusing failure)) }
    {
        let mut text = Vec::new(alloc);
        push_failure(failure, &mut text)?;
        self.phase = if self.failures < MOST_FAILURES {
            self.handled_phase()
        } else {
            Phase::Parting(Ended::ThirdFailure)
        };
        Ok(Want::Say(text))
    }

    fn take_event(&mut self) -> Event
        requires { IsThere self.old.event }
        ensures event { Some result ≡ self.old.event }
        ensures state { self.new ≡ wished self.old phase.Entering }
    {
        match mem::replace(&mut self.event, None) {
            Some(event) => {
                self.phase = Phase::Entered {
                    pulls: follows(&event),
                };
                event
            }
            None => unreachable!(),
        }
    }

    fn login_event(&mut self, alloc: Global) -> Result<Want, NoMemory>
        requires { IsThere self.old.user }
        ensures want { IfOk result (λ want. IsWish want (wish self.old phase.LoggingIn)) }
        ensures state { IfOk result (λ want. self.new ≡ wished self.old phase.LoggingIn) }
    {
        let user = match &self.user {
            Some(user) => user.copy(alloc)?,
            None => unreachable!(),
        };
        self.phase = Phase::LoggedIn;
        Ok(Want::Submit(Event::Login { w: self.line, user }))
    }

    /// The last text, where there is one, and else the end.
    fn part(&mut self, alloc: Global, ended: Ended) -> Result<Want, NoMemory>
        ensures err { OnErr result (IsThere (last_text self.old ended)) }
        ensures want { IfOk result (λ want. IsWish want (wish self.old (phase.Parting ended))) }
        ensures state { IfOk result (λ want. self.new ≡ wished self.old (phase.Parting ended)) }
    {
        let text = self.last_text(alloc, ended)?;
        self.phase = Phase::Left(ended);
        match text {
            Some(text) => Ok(Want::Say(text.into_vec())),
            None => Ok(Want::Finish(ended)),
        }
    }
}

/// Whether a pull follows an event: after one that may have an answer, so that answers never gather.
fn follows(event: &Event) -> bool
    ensures { result ≡ follows event.now }
{
    match event {
        Event::Bind { .. } | Event::Enable { .. } | Event::Resume { .. } | Event::Ask { .. } =>
            true,
        Event::OpenLine { .. }
        | Event::Login { .. }
        | Event::Act { .. }
        | Event::Ack { .. }
        | Event::Pull { .. }
        | Event::DropLine { .. }
        | Event::CloseLine { .. }
        | Event::Sweep { .. } => false,
    }
}
