//! Requests about roles and affiliations (XEP-0045, 8 to 10).
ghost use Rattle.std.specs.Prelude.{◌≡◌, [], ◌∷◌, codes, IfOk};
ghost use Rattle.std.specs.List.{list_any};
ghost use Rattle.std.specs.Option.{option_copied};
ghost use Rattle.stanza_model.specs.Errors.{element_of};
ghost use Rattle.stanza_model.specs.Replies.{one_child, result_of, said_to};
ghost use Rattle.muc_admin.specs.Administration.{admin, admin_as, is_wrong_count, list_affiliation, list_as, list_by, list_role, query_in, set_by, set_wanted};
ghost use Rattle.muc_admin.specs.Items.{admin_space, is_garbled};

use crate::item::{ADMIN_SPACE, Wanted, is_garbled, item_count, only_item, wanted_in};
use crate::listing::{affiliation_nodes, query_of, role_nodes};
use crate::refusal::is_moderating;
use crate::sets::{done, first_refusal};
use muc_roles::governs;
use muc_room::{affiliation_of, occupant_of};
use stanza_model::make::one_child;
use stanza_model::{
    Affiliation, Condition, Effect, Here, IqForm, Role, Room, Stanza, refuse, result_of, say_to,
};
use stanza_tree::{Element, NoMemory, Node, Text};
use std::alloc::Global;

/// The most items of a set.
const MOST_ITEMS: usize = 16;

/// The answer with these items.
fn answered(
    alloc: Global,
    who: &Here,
    request: &Stanza,
    nodes: Vec<Node>,
) -> Result<Vec<Effect>, NoMemory>
    ensures { IfOk result (λ effects. effects.items
        ≡ said_to who.now (result_of request.now (one_child (element_of admin_space (codes "query") [] nodes.items))) ∷ []) }
{
    let query = query_of(alloc, nodes)?;
    let result = result_of(alloc, request, one_child(alloc, query)?)?;
    let mut effects = Vec::new(alloc);
    effects.push(say_to(alloc, who, &result)?)?;
    Ok(effects)
}

fn list_affiliation(
    alloc: Global,
    room: &Room,
    who: &Here,
    request: &Stanza,
    affiliation: Option<Affiliation>,
) -> Result<Vec<Effect>, NoMemory>
    ensures { IfOk result (λ effects. effects.items ≡ list_affiliation room.now who.now request.now affiliation) }
{
    let Some(affiliation) = affiliation else {
        return refuse(alloc, who, request, Condition::BadRequest);
    };
    if governs(affiliation_of(&who.address, room.affiliations.slice())) {
        let nodes = affiliation_nodes(alloc, affiliation, room.affiliations.slice())?;
        answered(alloc, who, request, nodes)
    } else {
        refuse(alloc, who, request, Condition::Forbidden)
    }
}

fn list_role(
    alloc: Global,
    room: &Room,
    who: &Here,
    request: &Stanza,
    role: Option<Role>,
) -> Result<Vec<Effect>, NoMemory>
    ensures { IfOk result (λ effects. effects.items ≡ list_role room.now who.now request.now role) }
{
    let Some(role) = role else {
        return refuse(alloc, who, request, Condition::BadRequest);
    };
    if is_moderating(occupant_of(who.session, room.occupants.slice())) {
        let nodes = role_nodes(alloc, room, role, room.occupants.slice())?;
        answered(alloc, who, request, nodes)
    } else {
        refuse(alloc, who, request, Condition::Forbidden)
    }
}

fn list_as(
    alloc: Global,
    room: &Room,
    who: &Here,
    request: &Stanza,
    affiliation: Option<&Text>,
    role: Option<&Text>,
) -> Result<Vec<Effect>, NoMemory>
    ensures { IfOk result (λ effects. effects.items
        ≡ list_as room.now who.now request.now (option_copied affiliation.entry) (option_copied role.entry)) }
{
    match (affiliation, role) {
        (Some(name), None) => {
            list_affiliation(alloc, room, who, request, Affiliation::named(name.bytes()))
        }
        (None, Some(name)) => list_role(alloc, room, who, request, Role::named(name.bytes())),
        _ => refuse(alloc, who, request, Condition::BadRequest),
    }
}

/// What comes of a get with this one item.
fn list_by(
    alloc: Global,
    room: &Room,
    who: &Here,
    request: &Stanza,
    item: Option<&Element>,
) -> Result<Vec<Effect>, NoMemory>
    ensures { IfOk result (λ effects. effects.items ≡ list_by room.now who.now request.now (option_copied item.entry)) }
{
    let Some(item) = item else {
        return refuse(alloc, who, request, Condition::BadRequest);
    };
    let affiliation = item.attr(b"affiliation");
    list_as(alloc, room, who, request, affiliation, item.attr(b"role"))
}

fn is_wrong_count(count: usize) -> bool
    ensures { result ≡ is_wrong_count count }
{
    count == 0 || count > MOST_ITEMS
}

fn has_garbled(wanted: &[Wanted]) -> bool
    ensures { result ≡ list_any is_garbled wanted.now }
{
    wanted.iter().any(|w| is_garbled(w))
}

fn set_wanted(
    alloc: Global,
    room: &Room,
    who: &Here,
    request: &Stanza,
    wanted: &[Wanted],
) -> Result<Vec<Effect>, NoMemory>
    ensures { IfOk result (λ effects. effects.items ≡ set_wanted room.now who.now request.now wanted.now) }
{
    if has_garbled(wanted) {
        return refuse(alloc, who, request, Condition::BadRequest);
    }
    match first_refusal(alloc, room, who, wanted)? {
        Some(condition) => refuse(alloc, who, request, condition),
        None => done(alloc, room, who, request, wanted),
    }
}

/// What comes of a set with this query.
fn set_by(
    alloc: Global,
    room: &Room,
    who: &Here,
    request: &Stanza,
    query: &Element,
) -> Result<Vec<Effect>, NoMemory>
    ensures { IfOk result (λ effects. effects.items ≡ set_by room.now who.now request.now query.now) }
{
    if is_wrong_count(item_count(query.children.slice())) {
        return refuse(alloc, who, request, Condition::BadRequest);
    }
    let wanted = wanted_in(alloc, query.children.slice())?;
    set_wanted(alloc, room, who, request, wanted.as_slice())
}

fn admin_as(
    alloc: Global,
    room: &Room,
    who: &Here,
    request: &Stanza,
    form: IqForm,
    query: &Element,
) -> Result<Vec<Effect>, NoMemory>
    ensures { IfOk result (λ effects. effects.items ≡ admin_as room.now who.now request.now form query.now) }
{
    match form {
        IqForm::Get => list_by(alloc, room, who, request, only_item(query)),
        IqForm::Set => set_by(alloc, room, who, request, query),
        IqForm::Result | IqForm::Error => Ok(Vec::new(alloc)),
    }
}

fn query_in(request: &Element) -> Option<&Element>
    ensures { option_copied result ≡ query_in request.now }
{
    request.child(ADMIN_SPACE.as_bytes(), b"query")
}

/// What comes of a request to a room about roles and affiliations. A get lists who has an affiliation, for owners and admins, or a role, for
/// moderators (XEP-0045, 9.5 and 9.8). A set gives roles by nick and affiliations by address (XEP-0045, 8 to 10), each in the room as it is
/// after those before it: where one is refused, the error is all that comes of the set; else what comes of each, and then the empty
/// result. `who` need not be in the room but for roles.
pub fn admin(
    alloc: Global,
    room: &Room,
    who: &Here,
    request: &Stanza,
) -> Result<Vec<Effect>, NoMemory>
    ensures { IfOk result (λ effects. effects.items ≡ admin room.now who.now request.now) }
{
    let Stanza::Iq { form, element, .. } = request else {
        return Ok(Vec::new(alloc));
    };
    match query_in(element) {
        Some(query) => admin_as(alloc, room, who, request, *form, query),
        None => Ok(Vec::new(alloc)),
    }
}
