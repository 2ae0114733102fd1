//! The event of a section's next task.
ghost use Rattle.std.specs.Prelude.{◌≡◌, ◌<◌, IfOk, Some, codes, true};
ghost use Rattle.sm_counters.specs.Numbers.{count_of};
ghost use Rattle.house_model.specs.declared.event.Event.TheVariants as event;
ghost use Rattle.replay_script.specs.DrillStanzas.{to_client, user};
ghost use Rattle.replay_script.specs.Drills.{dice, drawn, event_of, from, session_of};
ghost use Rattle.replay_script.specs.DrillSections.{first_order, tallies_in};
ghost use Rattle.replay_script.specs.DrillStands.{IsFirst};

use crate::drill_names::{resource, user};
use crate::drill_schedule::drawn;
use crate::drill_section::{Section, Task};
use crate::drill_stanzas::{enter, to_client, to_room, unlock};
use crate::drill_tallies::Tallies;
use house_model::Event;
use sm_resume::ResumeId;
use stanza_model::Stanza;
use stanza_model::make::text_of;
use stanza_tree::NoMemory;
use std::alloc::Global;

/// The dice of client i.
fn dice(i: u32) -> [u8; 16]
    requires { i < 8 }
    ensures { result ≡ dice i }
{
    [0, 0, 0, 0, 0, 0, 0, 0, 0, 0, 0, 0, 0, 0, 0, i as u8]
}

/// The session of client i.
fn session_of(i: u32) -> ResumeId
    requires { i < 8 }
    ensures { result ≡ session_of i }
{
    ResumeId {
        session: u64::from(i) + 1,
        digits: dice(i),
    }
}

/// A count of stanzas as it is said (XEP-0198, 4).
fn count_of(n: u64) -> u32
    ensures { result ≡ count_of n }
{
    (n % (1 << 32)) as u32
}

fn login(alloc: Global, w: u32) -> Result<Event, NoMemory>
    requires { w < 8 }
    ensures { IfOk result (λ e. e ≡ event.Login w (user w)) }
{
    Ok(Event::Login {
        w,
        user: user(alloc, w)?,
    })
}

fn bind(alloc: Global, w: u32, t: u64) -> Result<Event, NoMemory>
    requires { w < 8 }
    ensures { IfOk result (λ e. e ≡ event.Bind w (codes "b") (Some (codes "r")) t (dice w)) }
{
    Ok(Event::Bind {
        w,
        id: text_of(alloc, "b")?,
        resource: Some(resource(alloc)?),
        t,
        dice: dice(w),
    })
}

/// A client says all that it was given.
fn ack(w: u32, section: &Section, tallies: &Tallies) -> Event
    ensures { result ≡ event.Ack w (count_of (tallies_in tallies.now section.now.client).pulled) }
{
    Event::Ack {
        w,
        h: count_of(tallies.pulled(section.client)),
    }
}

/// A client resumes its session, and tells of as few stanzas as are drawn.
fn resume(w: u32, section: &Section, tallies: &Tallies) -> Event
    requires { w < 8 }
    ensures { result ≡ event.Resume w (Some (session_of w)) (count_of (from (drawn 4 section.now.drawn) (tallies_in tallies.now section.now.client))) section.now.moment }
{
    let fewer = drawn(4, section.drawn);
    Event::Resume {
        w,
        id: Some(session_of(w)),
        h: count_of(tallies.from(section.client, fewer)),
        t: section.moment,
    }
}

/// A number is said to the client that is drawn.
fn say_to_client(alloc: Global, section: &Section) -> Result<Stanza, NoMemory>
    ensures { IfOk result (λ st. st ≡ to_client (drawn 8 section.now.drawn) section.now.round) }
{
    to_client(alloc, drawn(8, section.drawn) as u32, section.round())
}

fn enable(w: u32) -> Event
    requires { w < 8 }
    ensures { result ≡ event.Enable w true (dice w) }
{
    Event::Enable {
        w,
        resume: true,
        dice: dice(w),
    }
}

fn act(w: u32, t: u64, stanza: Stanza) -> Event
    ensures { result ≡ event.Act w stanza t }
{
    Event::Act { w, stanza, t }
}

/// The event of a section's next task, by the tallies.
fn event_of(alloc: Global, section: &Section, tallies: &Tallies) -> Result<Event, NoMemory>
    ensures { IfOk result (λ e. e ≡ event_of (tallies_in tallies.now) (first_order section.now)) }
{
    let w = section.client.number();
    let t = section.moment;
    match section.task {
        Task::Open => Ok(Event::OpenLine { w }),
        Task::Login => login(alloc, w),
        Task::Bind => bind(alloc, w, t),
        Task::Enable => Ok(enable(w)),
        Task::PullBound => Ok(Event::Pull { w, t }),
        Task::PullEnabled => Ok(Event::Pull { w, t }),
        Task::Enter => Ok(act(w, t, enter(alloc, w)?)),
        Task::Unlock => Ok(act(w, t, unlock(alloc)?)),
        Task::SayInRoom => Ok(act(w, t, to_room(alloc, section.round())?)),
        Task::SayToClient => Ok(act(w, t, say_to_client(alloc, section)?)),
        Task::PullAll => Ok(Event::Pull { w, t }),
        Task::AckAll => Ok(ack(w, section, tallies)),
        Task::DropLine => Ok(Event::DropLine { w, t }),
        Task::OpenAgain => Ok(Event::OpenLine { w }),
        Task::LoginAgain => login(alloc, w),
        Task::Resume => Ok(resume(w, section, tallies)),
        Task::CloseLine => Ok(Event::CloseLine { w, t }),
    }
}

/// The same, which can come in a house of eight lines.
pub(crate) fn first_event(
    alloc: Global,
    section: &Section,
    tallies: &Tallies,
) -> Result<Event, NoMemory>
    ensures { IfOk result (IsFirst (tallies_in tallies.now) (first_order section.now)) }
{
    let _ = section.client.number();
    let _ = section.round();
    event_of(alloc, section, tallies)
}
