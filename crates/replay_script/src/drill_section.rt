//! What one client of a drill does without a break: a section of its orders.
ghost use Rattle.std.specs.Prelude.{◌≡◌, ◌<◌, ◌∷◌};
ghost use Rattle.replay_script.specs.DrillTasks.{tasks_from, tasks_if};
ghost use Rattle.replay_script.specs.DrillSections.{first_order, orders_if, orders_in};

use std::marker::Model;

/// How many clients a drill has.
pub(crate) const CLIENTS: u32 = 8;

/// A client of a drill, which is also its line, by its number.
#[derive(Clone, Copy)]
pub struct Client {
    number: u32,
}

impl Model for Client {
    ghost use Rattle.std.specs.Prelude.{ℕ, ◌<◌};

    ghost Value = { ℕ };

    ghost view = { λ c. c.number };

    ghost inverse = { λ n. record { number = n } };

    ghost invariant = { λ c. c.number < 8 };
}

impl Client {
    /// The client of this number.
    pub(crate) fn of(number: u32) -> Client
        requires { number < 8 }
        ensures { result ≡ number }
    {
        Client { number }
    }

    /// Its number, below eight.
    pub(crate) fn number(self) -> u32
        ensures number { result ≡ self }
        ensures small { result < 8 }
    {
        self.number
    }
}

/// What a client does next.
#[derive(Clone, Copy)]
pub enum Task {
    /// Its connection comes.
    Open,
    Login,
    Bind,
    Enable,
    /// It takes the result of the binding.
    PullBound,
    /// It takes the answer to `Enable`.
    PullEnabled,
    /// It enters the room.
    Enter,
    /// It unlocks the room that it made, as the first to enter it.
    Unlock,
    SayInRoom,
    /// It says something to the client that is drawn.
    SayToClient,
    /// It pulls until no frame comes.
    PullAll,
    AckAll,
    /// Its connection is lost.
    DropLine,
    /// Another connection comes.
    OpenAgain,
    LoginAgain,
    Resume,
    /// It closes its stream.
    CloseLine,
}

impl Task {
    /// The one after it in its section, which may be that of the first client.
    pub(crate) fn following(self, first: bool) -> Option<Task>
        ensures { tasks_from first self ≡ self ∷ tasks_if first result }
    {
        match self {
            Task::Open => Some(Task::Login),
            Task::Login => Some(Task::Bind),
            Task::Bind => Some(Task::Enable),
            Task::Enable => Some(Task::PullBound),
            Task::PullBound => Some(Task::PullEnabled),
            Task::PullEnabled => Some(Task::Enter),
            Task::Enter => { if first { Some(Task::Unlock) } else { None } }
            Task::DropLine => Some(Task::OpenAgain),
            Task::OpenAgain => Some(Task::LoginAgain),
            Task::LoginAgain => Some(Task::Resume),
            _ => None,
        }
    }
}

/// A section: whose it is, in which round, at which moment, what was drawn for it, and its next task.
#[derive(Clone, Copy)]
pub struct Section {
    pub client: Client,
    /// The number that is said in messages; 0 outside of rounds.
    pub round: u32,
    /// In milliseconds.
    pub moment: u64,
    pub drawn: u64,
    pub task: Task,
}

impl Section {
    /// The number that is said in its messages.
    pub(crate) fn round(&self) -> u32
        ensures { result ≡ self.now.round }
    {
        self.round
    }

    /// The section without its next task, if others are left.
    pub(crate) fn rest(self) -> Option<Section>
        ensures { orders_in self ≡ first_order self ∷ orders_if result }
    {
        let task = self.task.following(self.client.number() == 0)?;
        Some(Section { task, ..self })
    }
}
