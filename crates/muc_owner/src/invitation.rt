//! What an invitation to a room says, and a message by which one is declined (XEP-0045, 7.8.2).
ghost use Rattle.std.specs.Prelude.{◌≡◌, length, IfOk};
ghost use Rattle.std.specs.Option.{option_copied};
ghost use Rattle.muc_owner.specs.Invitations.{calls_of, declined_in, has_call, has_one_call, invitation_as, invitation_by, invitation_to};
ghost use Rattle.muc_owner.specs.Invitations.{invitation_of, invited_in, is_call, is_decline};

use crate::reason::copy_reason;
use jid_core::Jid;
use muc_admin::address_at;
use stanza_tree::{Element, NoMemory, Node};
use std::alloc::Global;

/// The namespace of what is said of a room's users (XEP-0045, 15.1).
pub(crate) const USER_SPACE: &str = "http://jabber.org/protocol/muc#user";

/// An invitation, or that it is declined.
#[derive(Drop)]
pub struct Invitation {
    pub declined: bool,
    /// The bare address of the user whom it is for.
    pub address: Jid,
    /// Its child `reason`.
    pub reason: Option<Element>,
}

fn is_call(e: &Element) -> bool
    ensures { result ≡ is_call e.now }
{
    let local = e.name.local.bytes();
    e.name.space.bytes() == USER_SPACE.as_bytes()
        && (local == b"invite".as_slice() || local == b"decline".as_slice())
}

fn call_count(nodes: &[Node]) -> usize
    ensures { result ≡ length (calls_of nodes.now) }
{
    let mut count = 0usize;
    for node in nodes {
        if let Node::Child(e) = node {
            if is_call(e) {
                count += 1;
            }
        }
    }
    count
}

/// Whether an `x` has an `invite` or a `decline`.
pub(crate) fn has_call(x: &Element) -> bool
    ensures { result ≡ has_call x.now }
{
    call_count(x.children.slice()) != 0
}

fn has_one_call(x: &Element) -> bool
    ensures { result ≡ has_one_call x.now }
{
    call_count(x.children.slice()) == 1
}

/// Whether an `x` has a `decline` and nothing else of that kind.
pub(crate) fn is_decline(x: &Element) -> bool
    ensures { result ≡ is_decline x.now }
{
    has_one_call(x) && x.child(USER_SPACE.as_bytes(), b"decline").is_some()
}

fn invitation_to(
    alloc: Global,
    declined: bool,
    e: &Element,
    to: &Jid,
) -> Result<Invitation, NoMemory>
    ensures { IfOk result (λ i. i ≡ invitation_to declined e.now to.now) }
{
    Ok(Invitation {
        declined,
        address: to.bare(alloc)?,
        reason: copy_reason(alloc, e.child(USER_SPACE.as_bytes(), b"reason"))?,
    })
}

fn invitation_by(alloc: Global, declined: bool, e: &Element) -> Result<Option<Invitation>, NoMemory>
    ensures { IfOk result (λ i. i ≡ invitation_by declined e.now) }
{
    match address_at(alloc, e, b"to")? {
        Some(to) => Ok(Some(invitation_to(alloc, declined, e, &to)?)),
        None => Ok(None),
    }
}

fn invitation_as(
    alloc: Global,
    invited: Option<&Element>,
    declined: Option<&Element>,
) -> Result<Option<Invitation>, NoMemory>
    ensures { IfOk result (λ i. i ≡ invitation_as (option_copied invited.entry) (option_copied declined.entry)) }
{
    match (invited, declined) {
        (Some(e), _) => invitation_by(alloc, false, e),
        (None, Some(e)) => invitation_by(alloc, true, e),
        (None, None) => Ok(None),
    }
}

fn invited_in(x: &Element) -> Option<&Element>
    ensures { option_copied result ≡ invited_in x.now }
{
    x.child(USER_SPACE.as_bytes(), b"invite")
}

fn declined_in(x: &Element) -> Option<&Element>
    ensures { option_copied result ≡ declined_in x.now }
{
    x.child(USER_SPACE.as_bytes(), b"decline")
}

/// What an `x` says, where it has one `invite` or one `decline`, and its `to` can be read.
pub fn invitation_of(alloc: Global, x: &Element) -> Result<Option<Invitation>, NoMemory>
    ensures { IfOk result (λ i. i ≡ invitation_of x.now) }
{
    if has_one_call(x) {
        invitation_as(alloc, invited_in(x), declined_in(x))
    } else {
        Ok(None)
    }
}
