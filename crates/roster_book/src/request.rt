//! What comes of a request about one's own roster (RFC 6121, 2.1 to 2.5).
ghost use Rattle.std.specs.Prelude.{◌≡◌, ◌<◌, ◌-◌, ◌^◌, All, IfOk, map};
ghost use Rattle.stanza_model.specs.Rosters.{item, item_node};
ghost use Rattle.roster_book.specs.Requests.{change_of, changed_item, done, listing, removed_by, roster_get, roster_set, user_of};

use crate::item::{Wanted, wanted_in};
use crate::refusal::{contact_at, refusal};
use jid_core::{Jid, Part};
use stanza_model::make::one_child;
use stanza_model::{
    Change, Condition, Contact, Effect, Here, Stanza, item, item_as, push_all, query_of, refuse,
    removed_item, result_of, say_to,
};
use stanza_tree::{Element, NoMemory, Node};
use std::alloc::Global;

/// What comes of a roster get of `who`, whose contacts these are: the session wants pushes from then on, and gets all contacts.
pub fn roster_get(
    alloc: Global,
    contacts: &[Contact],
    who: &Here,
    request: &Stanza,
) -> Result<Vec<Effect>, NoMemory>
    ensures { IfOk result (λ effects. effects.items ≡ roster_get contacts.now who.now request.now) }
{
    let result = result_of(alloc, request, one_child(alloc, listing(alloc, contacts)?)?)?;
    let mut effects = Vec::new(alloc);
    effects.push(Effect::Set(Change::WantsRoster {
        session: who.session,
    }))?;
    effects.push(say_to(alloc, who, &result)?)?;
    Ok(effects)
}

fn listing(alloc: Global, contacts: &[Contact]) -> Result<Element, NoMemory>
    ensures { IfOk result (λ e. e ≡ listing contacts.now) }
{
    let items = items_of(alloc, contacts)?;
    query_of(alloc, items)
}

fn items_of(alloc: Global, contacts: &[Contact]) -> Result<Vec<Node>, NoMemory>
    ensures { IfOk result (λ nodes. nodes.items ≡ map item_node (map item contacts.now)) }
{
    let mut nodes = Vec::new(alloc);
    for contact in contacts {
        nodes.push(Node::Child(item(alloc, contact)?))?;
    }
    Ok(nodes)
}

/// What comes of a roster set of `who`, the owner of these contacts: an error alone, or the change of one contact, a push of it to each
/// session that wants pushes, and the empty result. `own` are the user's sessions that go on.
pub fn roster_set(
    alloc: Global,
    owner: &Jid,
    contacts: &[Contact],
    who: &Here,
    own: &[Here],
    request: &Stanza,
) -> Result<Vec<Effect>, NoMemory>
    requires { All (λ h. h.pushes < 2 ^ 64 - 1) own.now }
    ensures { IfOk result (λ effects. effects.items ≡ roster_set owner.now contacts.now who.now own.now request.now) }
{
    let Some(wanted) = wanted_in(alloc, owner, request)? else {
        return refuse(alloc, who, request, Condition::BadRequest);
    };
    match refusal(alloc, contacts, &wanted)? {
        Some(condition) => refuse(alloc, who, request, condition),
        None => done(alloc, owner, contacts, who, own, request, wanted),
    }
}

/// The contact that a roster set of the owner of these contacts removes, where it is not refused (RFC 6121, 2.5).
pub fn removed_by(
    alloc: Global,
    owner: &Jid,
    contacts: &[Contact],
    request: &Stanza,
) -> Result<Option<Jid>, NoMemory>
    ensures { IfOk result (λ address. address ≡ removed_by owner.now contacts.now request.now) }
{
    let Some(wanted) = wanted_in(alloc, owner, request)? else {
        return Ok(None);
    };
    if !wanted.remove || refusal(alloc, contacts, &wanted)?.is_some() {
        return Ok(None);
    }
    Ok(Some(wanted.contact.address))
}

fn done(
    alloc: Global,
    owner: &Jid,
    contacts: &[Contact],
    who: &Here,
    own: &[Here],
    request: &Stanza,
    wanted: Wanted,
) -> Result<Vec<Effect>, NoMemory>
    requires { All (λ h. h.pushes < 2 ^ 64 - 1) own.now }
    ensures { IfOk result (λ effects. effects.items ≡ done owner.now contacts.now who.now own.now request.now wanted) }
{
    let result = result_of(alloc, request, Vec::new(alloc))?;
    let item = changed_item(alloc, contacts, &wanted)?;
    let change = change_of(alloc, owner, wanted)?;
    let mut effects = Vec::new(alloc);
    effects.push(Effect::Set(change))?;
    push_all(alloc, &mut effects, own, &item)?;
    effects.push(say_to(alloc, who, &result)?)?;
    Ok(effects)
}

/// The item that is pushed.
fn changed_item(alloc: Global, contacts: &[Contact], wanted: &Wanted) -> Result<Element, NoMemory>
    ensures { IfOk result (λ e. e ≡ changed_item wanted.now.remove contacts.now wanted.now.contact) }
{
    let contact = &wanted.contact;
    if wanted.remove {
        return removed_item(alloc, &contact.address);
    }
    match contact_at(contacts, &contact.address) {
        Some(old) => item_as(alloc, contact, old.subscription, old.asked),
        None => item(alloc, contact),
    }
}

fn change_of(alloc: Global, owner: &Jid, wanted: Wanted) -> Result<Change, NoMemory>
    ensures { IfOk result (λ change. change ≡ change_of wanted.remove (user_of owner.now) wanted.contact) }
{
    let user = user_of(owner).copy(alloc)?;
    let Wanted { contact, remove } = wanted;
    let Contact {
        address,
        name,
        groups,
        ..
    } = contact;
    if remove {
        Ok(Change::NoContact { user, address })
    } else {
        Ok(Change::Contact {
            user,
            address,
            name,
            groups,
        })
    }
}

/// The local part of the owner's address, which every account's has.
fn user_of(owner: &Jid) -> &Part
    ensures { result.now ≡ user_of owner.now }
{
    match &owner.local {
        Some(local) => local,
        None => &owner.domain,
    }
}
