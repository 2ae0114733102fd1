//! Rosters and subscriptions (RFC 6121, 2 and 3): what comes of requests about them.
ghost use Rattle.std.specs.Prelude.{◌≡◌, ◌<◌, ◌-◌, ◌^◌, ℕ, List, map, All, IfOk, OnOk};
ghost use Rattle.std.specs.List.{filter};
ghost use Rattle.std.specs.Option.{option_and_then, option_copied, option_map};
ghost use Rattle.contact_table.specs.Books.{bare_of, contacts_of, local_user};
ghost use Rattle.roster_book.specs.Requests.{removed_by};
ghost use Rattle.house_model.specs.Lookups.{sessions_of};
ghost use Rattle.house_model.specs.Presences.{available_of, party, presence_of};
ghost use Rattle.house_model.specs.Routing.{between, parted, roster_changed, subscribed, to_account, unless_full, user_removed};
ghost use Rattle.house_world.specs.Wholes.{IsTied};
ghost use Rattle.house_world.specs.Worlds.{seen};

use crate::archives::{ARCHIVE_SPACE, archived_of};
use crate::listing::sessions_of;
use crate::requests::{gets, queries, sets, to_server};
use crate::sight::presence_of;
use crate::users::Users;
use contact_table::{bare_of, local_user};
use house_model::Stanza;
use house_world::World;
use jid_core::{Jid, Part};
use roster_book::{removed_by, roster_get, roster_set};
use stanza_model::{Condition, Contact, Effect, Here, PresenceForm, refuse};
use stanza_router::Place;
use stanza_tree::{NoMemory, Text};
use std::alloc::Global;
use subscription_pairs::{Party, removal, subscription};

/// A user with what it has.
#[derive(Drop)]
struct Member {
    bare: Jid,
    sessions: Vec<Here>,
    presences: Vec<Text>,
}

/// Refuses a push whose number would be too great, as for want of memory.
fn count(sessions: &[Here]) -> Result<(), NoMemory>
    ensures { OnOk result (All (λ h. h.pushes < 2 ^ 64 - 2) sessions.now) }
{
    for h in sessions {
        if h.pushes >= u64::MAX - 1 {
            return Err(NoMemory);
        }
    }
    Ok(())
}

/// The user of this server whose bare address it is.
fn user_at(alloc: Global, domain: &Part, address: Option<&Jid>) -> Result<Option<Part>, NoMemory>
    ensures { IfOk result (λ user. user ≡ option_and_then (local_user domain.now) (option_copied address.entry)) }
{
    let Some(address) = address else {
        return Ok(None);
    };
    match local_user(domain, address) {
        Some(user) => Ok(Some(user.copy(alloc)?)),
        None => Ok(None),
    }
}

/// These effects, or a refusal where the roster of the sender has no room.
fn unless_full(
    alloc: Global,
    who: &Here,
    stanza: &Stanza,
    effects: Option<Vec<Effect>>,
) -> Result<Vec<Effect>, NoMemory>
    ensures { IfOk result (λ all. all.items ≡ unless_full who.now stanza.now (option_map (λ v. v.items) effects)) }
{
    match effects {
        Some(effects) => Ok(effects),
        None => refuse(alloc, who, stanza, Condition::ResourceConstraint),
    }
}

/// The contacts of a user.
fn contacts<'a>(world: &'a World, user: &Part) -> &'a [Contact]
    ensures { result.now ≡ contacts_of world.now.book.domain world.now.book.book user.now }
{
    match world.book.roster(user) {
        Some(roster) => roster.contacts.as_slice(),
        None => &[],
    }
}

/// The presence of each of these sessions that is available.
fn presences(world: &World, alloc: Global, sessions: &[Here]) -> Result<Vec<Text>, NoMemory>
    ensures { IfOk result (λ found. found.items ≡ map (presence_of (seen world.now)) (filter (λ h. h.available) sessions.now)) }
{
    let mut found = Vec::new(alloc);
    for h in sessions {
        if h.available {
            found.push(presence_of(world, alloc, h.session)?)?;
        }
    }
    Ok(found)
}

/// A user with its sessions that go on and what is shown of them. Refuses where a push's number would be too great.
fn member_of(world: &World, alloc: Global, domain: &Part, user: &Part) -> Result<Member, NoMemory>
    requires { IsTied world.now.table }
    ensures bare { IfOk result (λ m. m.bare ≡ bare_of domain.now user.now) }
    ensures sessions { IfOk result (λ m. m.sessions.items ≡ sessions_of (seen world.now) user.now) }
    ensures presences { IfOk result (λ m. m.presences.items ≡ map (presence_of (seen world.now)) (available_of (seen world.now) user.now)) }
    ensures few { IfOk result (λ m. All (λ h. h.pushes < 2 ^ 64 - 2) m.sessions.items) }
{
    let sessions = sessions_of(world, alloc, user)?;
    count(sessions.as_slice())?;
    Ok(Member {
        bare: bare_of(alloc, domain, user)?,
        presences: presences(world, alloc, sessions.as_slice())?,
        sessions,
    })
}

/// A user as the rules on subscriptions take it.
fn party<'a>(world: &'a World, user: &Part, member: &'a Member) -> Party<'a>
    ensures { result ≡ record {
      bare = member.entry.now.bare;
      contacts = contacts_of world.entry.now.book.domain world.entry.now.book.book user.now;
      sessions = member.entry.now.sessions.items;
      presences = member.entry.now.presences.items;
    } }
{
    Party {
        bare: &member.bare,
        contacts: contacts(world, user),
        sessions: member.sessions.as_slice(),
        presences: member.presences.as_slice(),
    }
}

/// What comes of a subscription's stanza from a user to another. None where the roster of the first has no room.
fn between(
    world: &World,
    alloc: Global,
    domain: &Part,
    own: &Part,
    user: &Part,
    form: PresenceForm,
) -> Result<Option<Vec<Effect>>, NoMemory>
    requires tied { IsTied world.now.table }
    requires domain { world.now.book.domain ≡ domain.now }
    ensures { (users : List (List ℕ)) (moment : ℕ) → IfOk result (λ effects. option_map (λ v. v.items) effects
        ≡ between (record { domain = domain.now; users = users; world = seen world.now; moment = moment }) own.now user.now form) }
{
    let mine = member_of(world, alloc, domain, own)?;
    let theirs = member_of(world, alloc, domain, user)?;
    subscription(
        alloc,
        &party(world, own, &mine),
        &party(world, user, &theirs),
        form,
    )
}

/// What comes of a subscription's stanza to a user, where it has an account.
pub(crate) fn subscribed(
    world: &World,
    alloc: Global,
    domain: &Part,
    users: &Users,
    own: &Part,
    who: &Here,
    stanza: &Stanza,
    form: PresenceForm,
    user: Option<&Part>,
) -> Result<Vec<Effect>, NoMemory>
    requires tied { IsTied world.now.table }
    requires domain { world.now.book.domain ≡ domain.now }
    ensures { (moment : ℕ) → IfOk result (λ effects. effects.items
        ≡ subscribed (record { domain = domain.now; users = users.now; world = seen world.now; moment = moment })
        own.now who.now stanza.now form (option_copied user.entry)) }
{
    let Some(user) = user else {
        return Ok(Vec::new(alloc));
    };
    if users.place_of(user).is_none() {
        return Ok(Vec::new(alloc));
    }
    let effects = between(world, alloc, domain, own, user, form)?;
    unless_full(alloc, who, stanza, effects)
}

/// The contact that a roster set removes.
fn address_removed(
    world: &World,
    alloc: Global,
    domain: &Part,
    own: &Part,
    stanza: &Stanza,
) -> Result<Option<Jid>, NoMemory>
    ensures { IfOk result (λ address. address
        ≡ removed_by (bare_of domain.now own.now) (contacts_of world.now.book.domain world.now.book.book own.now) stanza.now) }
{
    let owner = bare_of(alloc, domain, own)?;
    removed_by(alloc, &owner, contacts(world, own), stanza)
}

/// The user whom a roster set removes.
fn user_removed(
    world: &World,
    alloc: Global,
    domain: &Part,
    own: &Part,
    stanza: &Stanza,
) -> Result<Option<Part>, NoMemory>
    requires domain { world.now.book.domain ≡ domain.now }
    ensures { (users : List (List ℕ)) (moment : ℕ) → IfOk result (λ user. user
        ≡ user_removed (record { domain = domain.now; users = users; world = seen world.now; moment = moment }) own.now stanza.now) }
{
    let address = address_removed(world, alloc, domain, own, stanza)?;
    user_at(alloc, domain, address.as_ref())
}

/// Neither of two users sees the other any more.
fn parted(
    world: &World,
    alloc: Global,
    domain: &Part,
    own: &Part,
    user: Option<&Part>,
) -> Result<Vec<Effect>, NoMemory>
    requires tied { IsTied world.now.table }
    requires domain { world.now.book.domain ≡ domain.now }
    ensures { (users : List (List ℕ)) (moment : ℕ) → IfOk result (λ effects. effects.items
        ≡ parted (record { domain = domain.now; users = users; world = seen world.now; moment = moment }) own.now (option_copied user.entry)) }
{
    let Some(user) = user else {
        return Ok(Vec::new(alloc));
    };
    let mine = member_of(world, alloc, domain, own)?;
    let theirs = member_of(world, alloc, domain, user)?;
    removal(
        alloc,
        &party(world, own, &mine),
        &party(world, user, &theirs),
    )
}

/// What comes of a roster set.
fn roster_changed(
    world: &World,
    alloc: Global,
    domain: &Part,
    own: &Part,
    who: &Here,
    stanza: &Stanza,
) -> Result<Vec<Effect>, NoMemory>
    requires tied { IsTied world.now.table }
    requires domain { world.now.book.domain ≡ domain.now }
    ensures { (users : List (List ℕ)) (moment : ℕ) → IfOk result (λ effects. effects.items
        ≡ roster_changed (record { domain = domain.now; users = users; world = seen world.now; moment = moment }) own.now who.now stanza.now) }
{
    let removed = user_removed(world, alloc, domain, own, stanza)?;
    let mut effects = parted(world, alloc, domain, own, removed.as_ref())?;
    let member = member_of(world, alloc, domain, own)?;
    let mut more = roster_set(
        alloc,
        &member.bare,
        contacts(world, own),
        who,
        member.sessions.as_slice(),
        stanza,
    )?;
    effects.append(&mut more)?;
    Ok(effects)
}

/// What comes of a request to the sender's account.
pub(crate) fn to_account(
    world: &World,
    alloc: Global,
    domain: &Part,
    own: &Part,
    who: &Here,
    stanza: &Stanza,
) -> Result<Vec<Effect>, NoMemory>
    requires tied { IsTied world.now.table }
    requires domain { world.now.book.domain ≡ domain.now }
    ensures { (users : List (List ℕ)) (moment : ℕ) → IfOk result (λ effects. effects.items
        ≡ to_account (record { domain = domain.now; users = users; world = seen world.now; moment = moment }) own.now who.now stanza.now) }
{
    if gets("jabber:iq:roster", "query", stanza) {
        roster_get(alloc, contacts(world, own), who, stanza)
    } else if sets("jabber:iq:roster", "query", stanza) {
        roster_changed(world, alloc, domain, own, who, stanza)
    } else if queries(ARCHIVE_SPACE, stanza) {
        archived_of(world, alloc, own, who, stanza)
    } else {
        to_server(alloc, who, stanza, &Place::Account)
    }
}
