//! Who sees whose presence, and what is shown of it (RFC 6121, 4.2 and 4.3).
ghost use Rattle.std.specs.Prelude.{◌≡◌, [], IfOk, map, unwrap_or};
ghost use Rattle.std.specs.List.{filter};
ghost use Rattle.house_model.specs.Presences.{in_sight, is_another, is_told, shown, shown_of, watchers};
ghost use Rattle.house_world.specs.Wholes.{IsTied};
ghost use Rattle.house_world.specs.Worlds.{seen};

use crate::listing::{available_of, sessions_of};
use house_world::World;
use jid_core::Part;
use stanza_model::make::written;
use stanza_model::{Here, Shown};
use stanza_tree::{NoMemory, Text};
use std::alloc::Global;

fn is_told(who: &Here, other: &Here) -> bool
    ensures { result ≡ is_told who.now other.now }
{
    other.available || other.session == who.session
}

fn is_another(who: &Here, other: &Here) -> bool
    ensures { result ≡ is_another who.now other.now }
{
    other.available && other.session != who.session
}

/// Keeps the available sessions, and the one that sends.
fn keep_told(who: &Here, sessions: &mut Vec<Here>)
    ensures { sessions.new.items ≡ filter (is_told who.now) sessions.old.items }
{
    sessions.retain(|h| is_told(who, h));
}

/// Keeps the available sessions but for the one that sends.
fn keep_others(who: &Here, sessions: &mut Vec<Here>)
    ensures { sessions.new.items ≡ filter (is_another who.now) sessions.old.items }
{
    sessions.retain(|h| is_another(who, h));
}

/// Those who see the presence of a session of this user.
pub(crate) fn watchers(
    world: &World,
    alloc: Global,
    own: &Part,
    who: &Here,
) -> Result<Vec<Here>, NoMemory>
    requires { IsTied world.now.table }
    ensures { IfOk result (λ found. found.items ≡ watchers (seen world.now) own.now who.now) }
{
    let mut found = available_of(world, alloc, world.book.who_sees(own))?;
    let mut sessions = sessions_of(world, alloc, own)?;
    keep_told(who, &mut sessions);
    found.append(&mut sessions)?;
    Ok(found)
}

/// Those whose presence it sees.
fn in_sight(world: &World, alloc: Global, own: &Part, who: &Here) -> Result<Vec<Here>, NoMemory>
    requires { IsTied world.now.table }
    ensures { IfOk result (λ found. found.items ≡ in_sight (seen world.now) own.now who.now) }
{
    let mut found = available_of(world, alloc, world.book.whom_sees(own))?;
    let mut sessions = sessions_of(world, alloc, own)?;
    keep_others(who, &mut sessions);
    found.append(&mut sessions)?;
    Ok(found)
}

/// The presence that is kept of a session; empty where there is none.
pub(crate) fn presence_of(world: &World, alloc: Global, s: u64) -> Result<Text, NoMemory>
    ensures { IfOk result (λ t. t ≡ unwrap_or ((seen world.now).sessions s).rest.manner.presence []) }
{
    match world.table.session(s) {
        Some(session) => match &session.own.presence {
            Some(presence) => presence.copy(alloc),
            None => Ok(Text::empty(alloc)),
        },
        None => Ok(Text::empty(alloc)),
    }
}

fn shown_of(world: &World, alloc: Global, who: &Here, other: &Here) -> Result<Shown, NoMemory>
    ensures { IfOk result (λ x. x ≡ shown_of (seen world.now) who.now other.now) }
{
    Ok(Shown {
        to: written(alloc, &who.address)?,
        rest: presence_of(world, alloc, other.session)?,
    })
}

fn shown_among(
    world: &World,
    alloc: Global,
    who: &Here,
    others: &[Here],
) -> Result<Vec<Shown>, NoMemory>
    ensures { IfOk result (λ found. found.items ≡ map (shown_of (seen world.now) who.now) others.now) }
{
    let mut presences = Vec::new(alloc);
    for other in others {
        presences.push(shown_of(world, alloc, who, other)?)?;
    }
    Ok(presences)
}

/// The presences that a session sees.
pub(crate) fn shown(
    world: &World,
    alloc: Global,
    own: &Part,
    who: &Here,
) -> Result<Vec<Shown>, NoMemory>
    requires { IsTied world.now.table }
    ensures { IfOk result (λ found. found.items ≡ shown (seen world.now) own.now who.now) }
{
    let others = in_sight(world, alloc, own, who)?;
    shown_among(world, alloc, who, others.as_slice())
}
