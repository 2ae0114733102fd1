//! Whose address it is.
ghost use Rattle.std.specs.Prelude.{◌≡◌, IfOk};
ghost use Rattle.std.specs.Option.{option_copied};
ghost use Rattle.contact_table.specs.Books.{bare_of, local_user, user_of};
ghost use Rattle.contact_table.specs.Marks.{is_user};

use jid_core::{Jid, Part};
use stanza_tree::NoMemory;
use std::alloc::Global;

/// The name of the account that has this address.
pub fn user_of(address: &Jid) -> &Part
    ensures { result.now ≡ user_of address.now }
{
    match &address.local {
        Some(local) => local,
        None => &address.domain,
    }
}

/// The user of this server whose bare address it is.
pub fn local_user<'a>(domain: &Part, address: &'a Jid) -> Option<&'a Part>
    ensures { option_copied result ≡ local_user domain.now address.now }
{
    if address.domain.bytes() == domain.bytes() && address.resource.is_none() {
        address.local.as_ref()
    } else {
        None
    }
}

/// Whether it is the bare address of this user.
pub(crate) fn is_user(domain: &Part, user: &Part, address: &Jid) -> bool
    ensures { result ≡ is_user domain.now user.now address.now }
{
    match local_user(domain, address) {
        Some(local) => local.bytes() == user.bytes(),
        None => false,
    }
}

/// The bare address of a user. A name that is no local part has none, which is told as want of memory.
pub fn bare_of(alloc: Global, domain: &Part, user: &Part) -> Result<Jid, NoMemory>
    ensures { IfOk result (λ j. j ≡ bare_of domain.now user.now) }
{
    let mut text = Vec::new(alloc);
    text.extend_from_slice(user.bytes())?;
    text.extend_from_slice(b"@")?;
    text.extend_from_slice(domain.bytes())?;
    match Jid::read(alloc, text.as_slice()) {
        Ok(address) if is_user(domain, user, &address) => Ok(address),
        _ => Err(NoMemory),
    }
}
