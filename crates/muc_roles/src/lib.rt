//! What affiliations and roles allow in a room (XEP-0045, 5).
#![tactic(auto)]

ghost use Rattle.std.specs.Prelude.{◌≡◌};
ghost use Rattle.muc_roles.specs.Roles.{governs, initial_role, is_above, is_last, is_moderator, is_outcast, is_owner, may_give};
ghost use Rattle.muc_roles.specs.Roles.{may_kick, may_lower, may_raise, may_set_affiliation, may_set_role, rank, sees_addresses, unless};

use stanza_model::Condition;
pub use stanza_model::{Affiliation, Config, Occupant, Role, Room, Verdict};

/// Whether it is an owner.
pub fn is_owner(affiliation: Affiliation) -> bool
    ensures { result ≡ is_owner affiliation }
{
    matches!(affiliation, Affiliation::Owner)
}

/// Whether it is an owner or an admin.
pub fn governs(affiliation: Affiliation) -> bool
    ensures { result ≡ governs affiliation }
{
    matches!(affiliation, Affiliation::Owner | Affiliation::Admin)
}

pub fn is_outcast(affiliation: Affiliation) -> bool
    ensures { result ≡ is_outcast affiliation }
{
    matches!(affiliation, Affiliation::Outcast)
}

pub fn is_moderator(role: Role) -> bool
    ensures { result ≡ is_moderator role }
{
    matches!(role, Role::Moderator)
}

/// The role with which one of this affiliation enters a room (XEP-0045, 5.1.2).
pub fn initial_role(affiliation: Affiliation, moderated: bool) -> Role
    ensures { result ≡ initial_role affiliation moderated }
{
    match affiliation {
        Affiliation::Owner | Affiliation::Admin => Role::Moderator,
        Affiliation::Member => Role::Participant,
        Affiliation::Neither if moderated => Role::Visitor,
        Affiliation::Neither => Role::Participant,
        Affiliation::Outcast => Role::Nobody,
    }
}

/// Of two affiliations the higher has the greater rank.
fn rank(affiliation: Affiliation) -> u8
    ensures { result ≡ rank affiliation }
{
    match affiliation {
        Affiliation::Owner => 3,
        Affiliation::Admin => 2,
        Affiliation::Member => 1,
        Affiliation::Neither | Affiliation::Outcast => 0,
    }
}

fn unless(is_refused: bool) -> Verdict
    ensures { result ≡ unless is_refused }
{
    if is_refused {
        Verdict::Refused(Condition::NotAllowed)
    } else {
        Verdict::Allowed
    }
}

fn may_kick(actor: Affiliation, target: Affiliation) -> Verdict
    ensures { result ≡ may_kick actor target }
{
    unless(governs(target) && rank(actor) <= rank(target))
}

fn may_raise(actor: Affiliation) -> Verdict
    ensures { result ≡ may_raise actor }
{
    unless(!governs(actor))
}

fn may_lower(actor: Affiliation, target: Affiliation, role: Role) -> Verdict
    ensures { result ≡ may_lower actor target role }
{
    unless(governs(target) || is_moderator(role) && !governs(actor))
}

fn may_give(actor: Affiliation, target: Affiliation, role: Role, new: Role) -> Verdict
    ensures { result ≡ may_give actor target role new }
{
    match new {
        Role::Nobody => may_kick(actor, target),
        Role::Moderator => may_raise(actor),
        Role::Participant | Role::Visitor => may_lower(actor, target, role),
    }
}

/// Whether an occupant of this affiliation and role may give another this new role; `Nobody` is a kick (XEP-0045, 8 and 9). Refused as
/// `Forbidden` where the actor is no moderator, and else as `NotAllowed`.
pub fn may_set_role(
    actor_affiliation: Affiliation,
    actor: Role,
    target_affiliation: Affiliation,
    target: Role,
    new: Role,
) -> Verdict
    ensures { result ≡ may_set_role actor_affiliation actor target_affiliation target new }
{
    if is_moderator(actor) {
        may_give(actor_affiliation, target_affiliation, target, new)
    } else {
        Verdict::Refused(Condition::Forbidden)
    }
}

fn is_above(actor: Affiliation, old: Affiliation, new: Affiliation) -> bool
    ensures { result ≡ is_above actor old new }
{
    !is_owner(actor) && (governs(old) || governs(new))
}

fn is_last(last_owner: bool, new: Affiliation) -> bool
    ensures { result ≡ is_last last_owner new }
{
    last_owner && !is_owner(new)
}

/// Whether one of this affiliation may give an address of the affiliation `old` the affiliation `new` (XEP-0045, 9 and 10). `last_owner` says
/// that the address is the room's only owner, and `oneself` that it is the actor's. Refused as `Forbidden` where the actor is neither
/// owner nor admin, as `NotAllowed` where only an owner may, and as `Conflict` where the room would lose its last owner or the actor
/// would ban itself.
pub fn may_set_affiliation(
    actor: Affiliation,
    old: Affiliation,
    new: Affiliation,
    last_owner: bool,
    oneself: bool,
) -> Verdict
    ensures { result ≡ may_set_affiliation actor old new last_owner oneself }
{
    if !governs(actor) {
        Verdict::Refused(Condition::Forbidden)
    } else if is_above(actor, old, new) {
        Verdict::Refused(Condition::NotAllowed)
    } else if is_last(last_owner, new) || oneself && is_outcast(new) {
        Verdict::Refused(Condition::Conflict)
    } else {
        Verdict::Allowed
    }
}

/// Whether an occupant of this role is shown the addresses of the others (XEP-0045, 7.2.2).
pub fn sees_addresses(role: Role, anyone: bool) -> bool
    ensures { result ≡ sees_addresses role anyone }
{
    is_moderator(role) || anyone
}
