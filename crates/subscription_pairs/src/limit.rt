//! How many contacts a roster has room for.
ghost use Rattle.std.specs.Prelude.{◌≡◌, ◌∷◌, ◌++◌, [], IfOk};
ghost use Rattle.subscription_pairs.specs.Limits.{fits};

use stanza_model::{Contact, MOST_CONTACTS, MOST_ROSTER_BYTES, counted};
use stanza_tree::NoMemory;
use std::alloc::Global;

/// Whether a roster of these contacts has room for another.
pub(crate) fn fits(alloc: Global, contacts: &[Contact], another: &Contact) -> Result<bool, NoMemory>
    ensures { IfOk result (λ has. has ≡ fits (contacts.now ++ another.now ∷ [])) }
{
    if contacts.len() >= MOST_CONTACTS {
        return Ok(false);
    }
    let mut left = MOST_ROSTER_BYTES;
    for contact in contacts {
        let bytes = counted(alloc, contact)?;
        if bytes > left {
            return Ok(false);
        }
        left -= bytes;
    }
    Ok(counted(alloc, another)? <= left)
}
