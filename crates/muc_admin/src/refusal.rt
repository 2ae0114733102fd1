//! Why an item is refused (XEP-0045, 5.2 and 8 to 10).
ghost use Rattle.std.specs.Prelude.{◌≡◌, IfOk};
ghost use Rattle.std.specs.Option.{option_copied};
ghost use Rattle.muc_room.specs.States.{with_affiliation};
ghost use Rattle.muc_admin.specs.Refusals.{affiliation_refusal, has_other_owner, is_last_owner, is_moderating, is_other_owner, refusal, refused_by};
ghost use Rattle.muc_admin.specs.Refusals.{role_refusal, target_refusal, too_large, verdict_on};

use crate::item::Wanted;
use crate::listing::is_too_large;
use crate::telling::holder_of;
use jid_core::Jid;
use muc_roles::{is_moderator, is_owner, may_set_affiliation, may_set_role};
use muc_room::{affiliation_of, occupant_of, with_affiliation};
use stanza_model::{Affiliated, Affiliation, Condition, Here, Occupant, Role, Room, Verdict};
use stanza_tree::NoMemory;
use std::alloc::Global;

fn refused_by(verdict: Verdict) -> Option<Condition>
    ensures { result ≡ refused_by verdict }
{
    match verdict {
        Verdict::Allowed => None,
        Verdict::Refused(condition) => Some(condition),
    }
}

/// Whether who asks is a moderator in the room.
pub(crate) fn is_moderating(actor: Option<&Occupant>) -> bool
    ensures { result ≡ is_moderating (option_copied actor.entry) }
{
    match actor {
        Some(o) => is_moderator(o.role),
        None => false,
    }
}

fn target_refusal(
    affiliation: Affiliation,
    actor: Role,
    given: Role,
    target: Option<&Occupant>,
) -> Option<Condition>
    ensures { result ≡ target_refusal affiliation actor given (option_copied target.entry) }
{
    match target {
        Some(o) => refused_by(may_set_role(affiliation, actor, o.affiliation, o.role, given)),
        None => Some(Condition::ItemNotFound),
    }
}

/// Why one of this affiliation, which is this occupant if any, may not give the other one this role.
fn role_refusal(
    affiliation: Affiliation,
    actor: Option<&Occupant>,
    given: Role,
    target: Option<&Occupant>,
) -> Option<Condition>
    ensures { result ≡ role_refusal affiliation (option_copied actor.entry) given (option_copied target.entry) }
{
    let Some(actor) = actor else {
        return Some(Condition::Forbidden);
    };
    if is_moderator(actor.role) {
        target_refusal(affiliation, actor.role, given, target)
    } else {
        Some(Condition::Forbidden)
    }
}

fn is_other_owner(address: &Jid, known: &Affiliated) -> bool
    ensures { result ≡ is_other_owner address.now known.now }
{
    is_owner(known.affiliation) && !known.address.is_same_bare(address)
}

fn has_other_owner(address: &Jid, known: &[Affiliated]) -> bool
    ensures { result ≡ has_other_owner address.now known.now }
{
    known.iter().any(|x| is_other_owner(address, x))
}

/// Whether the user of an address is an owner, and nobody else is.
fn is_last_owner(address: &Jid, known: &[Affiliated]) -> bool
    ensures { result ≡ is_last_owner address.now known.now }
{
    is_owner(affiliation_of(address, known)) && !has_other_owner(address, known)
}

fn verdict_on(room: &Room, who: &Here, address: &Jid, affiliation: Affiliation) -> Verdict
    ensures { result ≡ verdict_on room.now who.now address.now affiliation }
{
    let known = room.affiliations.slice();
    may_set_affiliation(
        affiliation_of(&who.address, known),
        affiliation_of(address, known),
        affiliation,
        is_last_owner(address, known),
        address.is_same_bare(&who.address),
    )
}

/// Whether there is no room for the affiliation of one more.
pub fn too_large(
    alloc: Global,
    address: &Jid,
    affiliation: Affiliation,
    known: &[Affiliated],
) -> Result<Option<Condition>, NoMemory>
    ensures { IfOk result (λ c. c ≡ too_large (with_affiliation address.now affiliation known.now)) }
{
    let after = with_affiliation(alloc, address, affiliation, known)?;
    if is_too_large(alloc, after.as_slice())? {
        Ok(Some(Condition::ResourceConstraint))
    } else {
        Ok(None)
    }
}

fn affiliation_refusal(
    alloc: Global,
    room: &Room,
    who: &Here,
    address: &Jid,
    affiliation: Affiliation,
) -> Result<Option<Condition>, NoMemory>
    ensures { IfOk result (λ c. c ≡ affiliation_refusal room.now who.now address.now affiliation) }
{
    match refused_by(verdict_on(room, who, address, affiliation)) {
        Some(condition) => Ok(Some(condition)),
        None => too_large(alloc, address, affiliation, room.affiliations.slice()),
    }
}

/// Why an item is refused, in the room as it is.
pub(crate) fn refusal(
    alloc: Global,
    room: &Room,
    who: &Here,
    wanted: &Wanted,
) -> Result<Option<Condition>, NoMemory>
    ensures { IfOk result (λ c. c ≡ refusal room.now who.now wanted.now) }
{
    match wanted {
        Wanted::Role { nick, role } => {
            let affiliation = affiliation_of(&who.address, room.affiliations.slice());
            let actor = occupant_of(who.session, room.occupants.slice());
            let target = holder_of(nick.bytes(), room.occupants.slice());
            Ok(role_refusal(affiliation, actor, *role, target))
        }
        Wanted::Affiliation {
            address,
            affiliation,
        } => affiliation_refusal(alloc, room, who, address, *affiliation),
        Wanted::Garbled => Ok(Some(Condition::BadRequest)),
    }
}
