//! How much a roster holds.
ghost use Rattle.std.specs.Prelude.{◌≡◌, ◌^◌, length as list_length, min, IfOk};
ghost use Rattle.stanza_tree.specs.Spelling.{text_under};
ghost use Rattle.stanza_model.specs.RosterLimits.{counted};
ghost use Rattle.stanza_model.specs.Rosters.{roster_space};

use crate::roster::item_as;
use crate::shared::{Contact, Subscription};
use stanza_tree::{Element, NoMemory, length};
use std::alloc::Global;

/// The most contacts of a roster: each change of it looks at all of them.
pub const MOST_CONTACTS: usize = 1000;

/// The most bytes of the items of a roster, each as `counted` counts it: so its answer fits a frame.
pub const MOST_ROSTER_BYTES: u64 = 196_608;

/// The bytes by which an item is longer where it stands alone: ` xmlns='jabber:iq:roster'`.
const DECLARATION: u64 = 25;

/// The bytes of an item within its query; a number of 2^63 or more stands for any such number.
#[tactic(auto, using(crate::proofs::ItemLemmas::length_item))]
fn item_length(item: &Element) -> u64
    requires { item.now.name.space ≡ roster_space }
    ensures { min result (2 ^ 63) ≡ min (list_length (text_under roster_space item.now)) (2 ^ 63) }
{
    length(item).saturating_sub(DECLARATION)
}

/// The bytes of a contact's item in a roster, as it is without a subscription and with `ask`; a number of 2^63 or more stands for any
/// such number.
pub fn counted(alloc: Global, contact: &Contact) -> Result<u64, NoMemory>
    ensures { IfOk result (λ bytes. min bytes (2 ^ 63) ≡ min (counted contact.now) (2 ^ 63)) }
{
    let item = item_as(alloc, contact, Subscription::Neither, true)?;
    Ok(item_length(&item))
}
