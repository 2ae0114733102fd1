//! What a flow knows beside its bytes, and what an item or random bytes make of it.

ghost use Rattle.std.specs.Prelude.{◌≡◌, take, IfOk, OnOk, Some, None};
ghost use Rattle.conn_asks.specs.Texts.{invitation_text, refused_resource_text};
ghost use Rattle.conn_asks.specs.Logins.{exchange_of};
ghost use Rattle.conn_asks.specs.declared.asked.Asked.TheVariants as asked;
ghost use Rattle.conn_asks.specs.Asking.{Asks, AsksTop, KeepsStage};
ghost use Rattle.conn_asks.specs.declared.login.Exchanging.TheVariants as exchanging;
ghost use Rattle.conn_asks.specs.declared.stage.Stage.TheVariants as stage;
ghost use Rattle.conn_flow.specs.declared.phase.Phase.TheVariants as phase;
ghost use Rattle.conn_flow.specs.Flows.{IsThere, Takes, asked_by, challenged_by, drawn_if, fresh_talk, refused, says};

use crate::phase::Phase;
use account_book::Accounts;
use conn_asks::{
    Asked, DRAW, Ended, Exchanging, Failure, Purpose, Stage, ask_header, ask_login, ask_session,
    ask_stanza, challenge, push_challenge, push_invitation, push_refused_resource, push_success,
};
use house_model::Event;
use jid_core::Part;
use scram_core::{Hello, Mechanism, Success};
use stanza_tree::{Element, NoMemory, Several, Text};
use std::alloc::Global;
use std::mem;
use stream_grammar::Item;

/// How many logins may fail on a connection: between 2 and 5 by RFC 6120, 6.4.5, so that a mistyped password costs no connection and guessing does.
pub(crate) const MOST_FAILURES: u8 = 3;

/// What a flow knows beside its bytes.
pub struct Talk {
    pub line: u32,
    pub domain: Part,
    pub stage: Stage,
    /// The id of the first stream, and whether there is another now.
    pub id: Several<u8>,
    pub again: bool,
    /// Whether the header of the present stream was said.
    pub headed: bool,
    /// The items so far, and the logins that failed.
    pub number: u64,
    pub failures: u8,
    /// The moment of opening, that of the last reading that heard something, or of opening, and that of the last reading.
    pub opened: u64,
    pub heard: u64,
    pub moment: u64,
    /// Whether more was read than was heard.
    pub more: bool,
    pub phase: Phase,
    /// What is to be said, what the house is to be told, what random bytes are for, and who is to be logged in, where the phase says so.
    pub text: Several<u8>,
    pub event: Option<Event>,
    pub purpose: Option<Purpose>,
    pub user: Option<Part>,
}

impl Drop for Talk {
    fn drop(self) {
        let Talk {
            line: _,
            domain,
            stage,
            id,
            again: _,
            headed: _,
            number: _,
            failures: _,
            opened: _,
            heard: _,
            moment: _,
            more: _,
            phase: _,
            text,
            event,
            purpose,
            user,
        } = self;
        drop(domain);
        drop(stage);
        drop(id);
        drop(text);
        drop(event);
        drop(purpose);
        drop(user);
    }
}

impl Talk {
    /// A connection that came at a moment, on a stream that has its id of these random bytes.
    pub(crate) fn new(alloc: Global, line: u32, domain: Part, id: Several<u8>, moment: u64) -> Talk
        ensures { result ≡ fresh_talk line domain id moment }
    {
        Talk {
            line,
            domain,
            stage: Stage::Login(Exchanging::Outside),
            id,
            again: false,
            headed: false,
            number: 0,
            failures: 0,
            opened: moment,
            heard: moment,
            moment,
            more: false,
            phase: Phase::Resting,
            text: Several::of(Vec::new(alloc)),
            event: None,
            purpose: None,
            user: None,
        }
    }

    pub(crate) fn put_stage(&mut self, stage: Stage)
        ensures { self.new ≡ record self.old { stage = stage } }
    {
        self.stage = stage;
    }

    fn put_event(&mut self, event: Event)
        ensures { self.new ≡ record self.old { event = Some event; phase = phase.Entering } }
    {
        self.event = Some(event);
        self.phase = Phase::Entering;
    }

    fn put_purpose(&mut self, purpose: Purpose)
        ensures { self.new ≡ record self.old { purpose = Some purpose; phase = phase.Drawing } }
    {
        self.purpose = Some(purpose);
        self.phase = Phase::Drawing;
    }

    fn put_user(&mut self, user: Part)
        ensures { self.new ≡ record self.old { user = Some user; phase = phase.LoggingIn } }
    {
        self.user = Some(user);
        self.phase = Phase::LoggingIn;
    }

    fn put_text(&mut self, text: Vec<u8>)
        ensures { self.new ≡ record self.old { text = text.items } }
    {
        self.text = Several::of(text);
    }

    fn say(&mut self, text: Vec<u8>)
        ensures { self.new ≡ says self.old text.items }
    {
        self.put_text(text);
        self.phase = Phase::Saying;
    }

    /// A login failed.
    pub(crate) fn refuse(&mut self, failure: Failure)
        ensures { self.new ≡ refused self.old failure }
    {
        let outside = Stage::Login(Exchanging::Outside);
        self.put_stage(outside);
        self.failures = self.failures.saturating_add(1).min(MOST_FAILURES);
        self.phase = Phase::Refusing(failure);
    }

    fn ask_top(&mut self, alloc: Global, e: Element) -> Result<Asked, NoMemory>
        ensures asks { IfOk result (AsksTop self.old.line self.old.domain self.old.number self.old.moment self.old.stage e) }
        ensures kept { IfOk result (λ asked. KeepsStage asked self.old.stage self.new.stage) }
        ensures rest { self.new ≡ record self.old { stage = self.new.stage } }
    {
        match &mut self.stage {
            Stage::Login(exchanging) => {
                ask_login(alloc, self.domain.bytes(), self.number, exchanging, &e)
            }
            Stage::Logged(_) => ask_session(alloc, self.line, self.number, self.moment, &e),
            Stage::Bound(user) => ask_stanza(
                alloc,
                self.line,
                &self.domain,
                user,
                self.number,
                self.moment,
                e,
            ),
        }
    }

    /// What an item asks for. The exchange of a login is used up by its next text.
    fn ask(&mut self, alloc: Global, item: Item) -> Result<Asked, NoMemory>
        ensures asks { IfOk result (Asks self.old.line self.old.domain self.old.number self.old.moment self.old.stage item) }
        ensures kept { IfOk result (λ asked. KeepsStage asked self.old.stage self.new.stage) }
        ensures rest { self.new ≡ record self.old { stage = self.new.stage } }
    {
        match item {
            Item::Header {
                root,
                default_space,
            } => ask_header(alloc, &self.domain, &root, &default_space),
            Item::Top(e) => self.ask_top(alloc, e),
            Item::CloseTag => Ok(Asked::End(Ended::Closed)),
            Item::Broken(fault, offset) => Ok(Asked::End(Ended::Broken(fault, offset))),
        }
    }

    fn invite(&mut self, alloc: Global, mechanism: Mechanism) -> Result<(), NoMemory>
        ensures { OnOk result (self.new ≡ says (record self.old { stage = stage.Login (exchanging.Invited mechanism) }) invitation_text) }
    {
        let mut text = Vec::new(alloc);
        push_invitation(&mut text)?;
        self.put_stage(Stage::Login(Exchanging::Invited(mechanism)));
        self.say(text);
        Ok(())
    }

    fn log_in(&mut self, alloc: Global, user: Part, success: &Success) -> Result<(), NoMemory>
        ensures { OnOk result (self.new ≡ asked_by self.old (asked.LogIn user success.now)) }
    {
        let mut text = Vec::new(alloc);
        push_success(alloc, success.bytes(), &mut text)?;
        self.put_stage(Stage::Login(Exchanging::Outside));
        self.put_text(text);
        self.put_user(user);
        Ok(())
    }

    fn draw(&mut self, purpose: Purpose)
        ensures { self.new ≡ asked_by self.old (asked.Draw purpose) }
    {
        if let Purpose::Challenge(_, _) = &purpose {
            self.put_stage(Stage::Login(Exchanging::Outside));
        }
        self.put_purpose(purpose);
    }

    fn refuse_resource(&mut self, alloc: Global, id: &Text) -> Result<(), NoMemory>
        ensures { OnOk result (self.new ≡ says self.old (refused_resource_text id.now)) }
    {
        let mut text = Vec::new(alloc);
        push_refused_resource(id.bytes(), &mut text)?;
        self.say(text);
        Ok(())
    }

    fn greet(&mut self, alloc: Global) -> Result<(), NoMemory>
        ensures { OnOk result (self.new ≡ asked_by self.old asked.Header) }
    {
        let text = self.greeting(alloc)?;
        self.headed = true;
        self.say(text);
        Ok(())
    }

    /// What an item asked for is next.
    fn set(&mut self, alloc: Global, asked: Asked) -> Result<(), NoMemory>
        ensures { OnOk result (self.new ≡ asked_by self.old asked) }
    {
        match asked {
            Asked::Header => self.greet(alloc)?,
            Asked::Invite(mechanism) => self.invite(alloc, mechanism)?,
            Asked::Fail(failure) => self.refuse(failure),
            Asked::LogIn(user, success) => self.log_in(alloc, user, &success)?,
            Asked::Draw(purpose) => self.draw(purpose),
            Asked::RefuseResource(id) => self.refuse_resource(alloc, &id)?,
            Asked::Submit(event) => self.put_event(event),
            Asked::End(ended) => self.phase = Phase::Parting(ended),
        }
        Ok(())
    }

    /// An item comes.
    pub(crate) fn take(&mut self, alloc: Global, item: Item) -> Result<(), NoMemory>
        ensures { OnOk result (Takes self.old (Some item) self.new) }
    {
        self.number = self.number.saturating_add(1);
        let asked = self.ask(alloc, item)?;
        self.set(alloc, asked)
    }

    fn answer(
        &mut self,
        alloc: Global,
        accounts: &Accounts,
        mechanism: Mechanism,
        first: Hello,
        dice: [u8; DRAW],
    ) -> Result<(), NoMemory>
        ensures { OnOk result (self.new ≡ record (challenged_by self.old (exchange_of accounts.now mechanism first dice)) { purpose = self.old.purpose }) }
    {
        let (challenged, challenge) = challenge(alloc, accounts, mechanism, first, dice)?;
        let mut text = Vec::new(alloc);
        push_challenge(alloc, challenge.bytes(), &mut text)?;
        self.put_stage(Stage::Login(Exchanging::Challenged(challenged)));
        self.say(text);
        Ok(())
    }

    /// Random bytes are there.
    pub(crate) fn use_dice(
        &mut self,
        alloc: Global,
        accounts: &Accounts,
        dice: [u8; DRAW],
    ) -> Result<(), NoMemory>
        requires { IsThere self.old.purpose }
        ensures { OnOk result (self.new ≡ drawn_if accounts.now self.old dice self.old.purpose) }
    {
        match mem::replace(&mut self.purpose, None) {
            Some(Purpose::Challenge(mechanism, first)) => {
                self.answer(alloc, accounts, mechanism, first, dice)?;
            }
            Some(Purpose::Bind { id, resource }) => {
                self.put_event(Event::Bind {
                    w: self.line,
                    id,
                    resource,
                    t: self.moment,
                    dice: first_of(&dice),
                });
            }
            Some(Purpose::Enable { resume }) => {
                self.put_event(Event::Enable {
                    w: self.line,
                    resume,
                    dice: first_of(&dice),
                });
            }
            None => unreachable!(),
        }
        Ok(())
    }
}

/// The first sixteen of the bytes.
fn first_of(dice: &[u8; DRAW]) -> [u8; 16]
    ensures { result ≡ take 16 dice.now }
{
    let mut first = [0u8; 16];
    first.copy_from_slice(&dice[..16]);
    first
}
