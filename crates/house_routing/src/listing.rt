//! The sessions that the rules on stanzas see, and how they see them.
ghost use Rattle.std.specs.Prelude.{◌≡◌, ◌++◌, flat_map, map, true, IfOk, IfSome, OnOk, Some};
ghost use Rattle.std.specs.Option.{option_copied};
ghost use Rattle.house_model.specs.Lookups.{goes_on, here, live_at, sessions_of};
ghost use Rattle.contact_table.specs.Tables.{users_in};
ghost use Rattle.house_model.specs.Presences.{available_of, directed_by, named, names};
ghost use Rattle.house_model.specs.Routing.{live_for};
ghost use Rattle.session_table.specs.Tables.{is_there, session_of};
ghost use Rattle.house_routing.specs.Listings.{here_from, here_in, is_named, is_named_by, numbers_by};
ghost use Rattle.house_world.specs.Wholes.{IsTied};
ghost use Rattle.house_world.specs.Worlds.{seen};

use contact_table::Order;
use house_world::World;
use jid_core::{Jid, Part};
use session_table::{Life, Session};
use stanza_model::Here;
use stanza_router::Place;
use stanza_tree::NoMemory;
use std::alloc::Global;

/// A session as the rules on stanzas see it.
fn here_of(alloc: Global, number: u64, session: &Session) -> Result<Here, NoMemory>
    ensures { IfOk result (λ h. h ≡ here_from number session.now) }
{
    Ok(Here {
        session: number,
        address: session.address().copy(alloc)?,
        available: session.own.presence.is_some(),
        priority: session.own.priority,
        wants_roster: session.own.wants_roster,
        pushes: session.own.pushes,
    })
}

/// Whether an address names a session (RFC 6121, 4.6.4).
fn names(session: &Session, address: &Jid) -> bool
    ensures { result ≡ names (here_from 0 session.now) address.now }
{
    if address.resource.is_some() {
        session.address().is_same(address)
    } else {
        session.own.presence.is_some() && session.address().is_same_bare(address)
    }
}

/// Whether a session that is there goes on.
fn is_live(world: &World, s: u64) -> bool
    requires there { is_there s world.now.table ≡ true }
    ensures { result ≡ goes_on ((seen world.now).sessions s).hold }
{
    match world.table.session(s) {
        Some(session) => session.state() == Life::Live,
        None => false,
    }
}

/// The session at an address, where it goes on.
fn live_at(world: &World, address: &Jid) -> Option<u64>
    requires tied { IsTied world.now.table }
    ensures live { result ≡ live_at (seen world.now) address.now }
    ensures there { IfSome result (λ s. is_there s world.now.table ≡ true) }
{
    let _ = world.table.session(0);
    match world.table.at(address) {
        Some(s) if is_live(world, s) => Some(s),
        _ => None,
    }
}

/// The session that goes on at the address of a session.
pub(crate) fn live_for(world: &World, place: &Place, to: Option<&Jid>) -> Option<u64>
    requires tied { IsTied world.now.table }
    ensures live { result ≡ live_for (seen world.now) place.now (option_copied to.entry) }
    ensures there { IfSome result (λ s. is_there s world.now.table ≡ true) }
{
    match (place, to) {
        (Place::UserAt(_, _), Some(to)) => live_at(world, to),
        _ => None,
    }
}

/// A session that is there, as the rules on stanzas see it.
pub(crate) fn here(world: &World, alloc: Global, s: u64) -> Result<Option<Here>, NoMemory>
    requires { is_there s world.now.table ≡ true }
    ensures { IfOk result (λ h. h ≡ Some (here (seen world.now) s)) }
{
    match world.table.session(s) {
        Some(session) => Ok(Some(here_of(alloc, s, session)?)),
        None => Ok(None),
    }
}

/// The sessions of a user. One that is over is among them until it departs.
pub(crate) fn sessions_of(world: &World, alloc: Global, user: &Part) -> Result<Vec<Here>, NoMemory>
    requires { IsTied world.now.table }
    ensures { IfOk result (λ found. found.items ≡ sessions_of (seen world.now) user.now) }
{
    let _ = world.table.session(0);
    let mut found = Vec::new(alloc);
    for (number, session) in world.table.of_user(user) {
        found.push(here_of(alloc, *number, session)?)?;
    }
    Ok(found)
}

// Lists the available sessions of the user of a name.
fn push_available(world: &World, name: &[u8], found: &mut Vec<Here>) -> Result<(), NoMemory>
    requires { IsTied world.now.table }
    ensures { OnOk result (found.new.items ≡ found.old.items ++ available_of (seen world.now) name.now) }
{
    let _ = world.table.session(0);
    let alloc = *found.allocator();
    for (number, session) in world.table.of_name(name) {
        if session.own.presence.is_some() {
            found.push(here_of(alloc, *number, session)?)?;
        }
    }
    Ok(())
}

// The available sessions of the users of these names, user by user.
fn available_by(world: &World, alloc: Global, names: &[Vec<u8>]) -> Result<Vec<Here>, NoMemory>
    requires { IsTied world.now.table }
    ensures { IfOk result (λ found. found.items ≡ flat_map (available_of (seen world.now)) (map (λ k. k.items) names.now)) }
{
    let mut found = Vec::new(alloc);
    for name in names {
        push_available(world, name.as_slice(), &mut found)?;
    }
    Ok(found)
}

/// The available sessions of users, user by user. Looks at no others' sessions.
pub(crate) fn available_of(
    world: &World,
    alloc: Global,
    users: Option<&Order>,
) -> Result<Vec<Here>, NoMemory>
    requires { IsTied world.now.table }
    ensures { IfOk result (λ found. found.items ≡ flat_map (available_of (seen world.now)) (users_in (option_copied users.entry))) }
{
    match users {
        Some(users) => available_by(world, alloc, users.names()),
        None => Ok(Vec::new(alloc)),
    }
}

// Lists the numbers of the sessions that an address names.
fn push_named(world: &World, address: &Jid, numbers: &mut Vec<u64>) -> Result<(), NoMemory>
    ensures { OnOk result (numbers.new.items ≡ numbers.old.items ++ numbers_by (is_named_by address.now) world.now.table.sessions) }
{
    for (number, session) in world.table.of_user_at(address) {
        if names(session, address) {
            numbers.push(*number)?;
        }
    }
    Ok(())
}

// The numbers of the sessions that these addresses name, rising.
fn numbers_named(world: &World, alloc: Global, addresses: &[Jid]) -> Result<Vec<u64>, NoMemory>
    ensures { IfOk result (λ numbers. numbers.items ≡ numbers_by (is_named addresses.now) world.now.table.sessions) }
{
    let _ = world.table.session(0);
    let mut numbers = Vec::new(alloc);
    for address in addresses {
        push_named(world, address, &mut numbers)?;
    }
    numbers.sort_unstable();
    numbers.dedup();
    Ok(numbers)
}

// Lists the session of a number, where it is there.
fn push_here(world: &World, s: u64, found: &mut Vec<Here>) -> Result<(), NoMemory>
    ensures { OnOk result (found.new.items ≡ found.old.items ++ here_in s (session_of s world.now.table)) }
{
    if let Some(session) = world.table.session(s) {
        let alloc = *found.allocator();
        found.push(here_of(alloc, s, session)?)?;
    }
    Ok(())
}

// Those of the sessions of these numbers that are there.
fn all_here(world: &World, alloc: Global, numbers: &[u64]) -> Result<Vec<Here>, NoMemory>
    ensures { IfOk result (λ found. found.items ≡ flat_map (λ s. here_in s (session_of s world.now.table)) numbers.now) }
{
    let mut found = Vec::new(alloc);
    for number in numbers {
        push_here(world, *number, &mut found)?;
    }
    Ok(found)
}

/// The sessions that these addresses name. Costs a look at the sessions of the addresses' users, and a sort of the numbers of
/// those that are named.
pub(crate) fn named(world: &World, alloc: Global, addresses: &[Jid]) -> Result<Vec<Here>, NoMemory>
    requires { IsTied world.now.table }
    ensures { IfOk result (λ found. found.items ≡ named (seen world.now) addresses.now) }
{
    let _ = world.table.session(0);
    let numbers = numbers_named(world, alloc, addresses)?;
    all_here(world, alloc, numbers.as_slice())
}

/// To whom a session sent presence alone.
pub(crate) fn directed_by<'a>(world: &'a World, who: &Here) -> &'a [Jid]
    ensures { result.now ≡ directed_by (seen world.now) who.now }
{
    match world.table.session(who.session) {
        Some(session) => session.own.directed.slice(),
        None => &[],
    }
}
