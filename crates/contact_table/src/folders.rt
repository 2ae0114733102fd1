//! The folders of all users.
ghost use Rattle.std.specs.Prelude.{◌≡◌, ◌<◌, ◌≤◌, ℕ, List, is_some, true, map, IfOk, IfSome, OnOk};
ghost use Rattle.std.specs.List.{list_all};
ghost use Rattle.contact_table.specs.Books.{Book, bare_of, local_user};
ghost use Rattle.contact_table.specs.Marks.{asked_by, asking, putting, seeing, seen_by, taking_out};
ghost use Rattle.contact_table.specs.Folders.{Edits, IsNamed, IsOwn, Keeps, asked_in, folder_at, names_in, places_in, room_in, sheet_in, subscription_in};

use crate::address::{bare_of, local_user};
use crate::flag::state_by;
use crate::folder::Folder;
use crate::order::Order;
use hash_keys::HashKey;
use indexmap::IndexMap;
use jid_core::{Jid, Part};
use stanza_model::{Contact, Subscription};
use stanza_tree::NoMemory;
use std::alloc::Global;

/// What is kept of each user, by its name. What was made of a user stays.
pub(crate) type Folders = IndexMap<Vec<u8>, Folder, HashKey>;

/// Makes the folder of a user, where there is none.
pub(crate) fn open(
    alloc: Global,
    folders: &mut Folders,
    domain: &Part,
    user: &Part,
) -> Result<(), NoMemory>
    ensures there { OnOk result (is_some (folder_at user.now folders.new.entries) ≡ true) }
    ensures kept { (k : Book) → Keeps domain.now k folders.old.entries → Keeps domain.now k folders.new.entries }
    ensures room { (u : List ℕ) → room_in (folder_at u folders.old.entries) ≤ room_in (folder_at u folders.new.entries) }
{
    if folders.contains_key(user.bytes()) {
        return Ok(());
    }
    let owner = bare_of(alloc, domain, user)?;
    let folder = Folder::new(alloc, *folders.hasher(), owner);
    folders.insert(user.bytes().to_vec(alloc)?, folder)?;
    Ok(())
}

/// Takes the memory for so many changes more of a user.
pub(crate) fn reserve(
    alloc: Global,
    folders: &mut Folders,
    user: &Part,
    changes: usize,
) -> Result<(), NoMemory>
    requires { is_some (folder_at user.now folders.old.entries) ≡ true }
    ensures room { OnOk result (changes ≤ room_in (folder_at user.now folders.new.entries)) }
    ensures edits { Edits user.now (λ s. s) 0 0 folders.old.entries folders.new.entries }
{
    let Some(count) = changes.checked_mul(2) else {
        return Err(NoMemory);
    };
    match folders.get_mut(user.bytes()) {
        Some(folder) => folder.reserve(alloc, user, count),
        None => Ok(()),
    }
}

/// A copy of a user's name, if it is asked for.
pub(crate) fn take_name(folders: &mut Folders, user: &Part, wanted: bool) -> Option<Vec<u8>>
    requires named { IfSome (folder_at user.now folders.old.entries) (λ f. IsNamed user.now f.names.items) }
    requires room { 0 < names_in (folder_at user.now folders.old.entries) }
    ensures name { IfSome result (λ n. n.items ≡ user.now) }
    ensures wanted { is_some result ≡ wanted }
    ensures edits { Edits user.now (λ s. s) 0 1 folders.old.entries folders.new.entries }
{
    if !wanted {
        return None;
    }
    match folders.get_mut(user.bytes()) {
        Some(folder) => folder.names.pop(),
        None => None,
    }
}

/// Puts a contact into the folder of a user. Each call here that changes what a user has wants a place in its folder.
pub(crate) fn put(folders: &mut Folders, user: &Part, contact: Contact)
    requires { 0 < places_in (folder_at user.now folders.old.entries) }
    ensures { Edits user.now (putting contact) 1 0 folders.old.entries folders.new.entries }
{
    if let Some(folder) = folders.get_mut(user.bytes()) {
        folder.put(contact);
    }
}

/// Takes the contact at an address out.
pub(crate) fn take_out(folders: &mut Folders, user: &Part, address: &Jid)
    requires { 0 < places_in (folder_at user.now folders.old.entries) }
    ensures { Edits user.now (taking_out address.now) 0 0 folders.old.entries folders.new.entries }
{
    if let Some(folder) = folders.get_mut(user.bytes()) {
        folder.take_out(address);
    }
}

/// A user sees the presence of another, by its name, or no more where there is none.
pub(crate) fn see(
    folders: &mut Folders,
    domain: &Part,
    user: &Part,
    other: &Part,
    name: Option<Vec<u8>>,
)
    requires named { IfSome name (λ n. n.items ≡ other.now) }
    requires room { 0 < places_in (folder_at user.now folders.old.entries) }
    ensures { Edits user.now (seeing domain.now other.now (is_some name)) 1 0 folders.old.entries folders.new.entries }
{
    if let Some(folder) = folders.get_mut(user.bytes()) {
        folder.see(domain, other, name);
    }
}

/// Another sees the presence of a user, by its name, or no more where there is none.
pub(crate) fn be_seen(
    folders: &mut Folders,
    domain: &Part,
    user: &Part,
    other: &Part,
    name: Option<Vec<u8>>,
)
    requires named { IfSome name (λ n. n.items ≡ other.now) }
    requires room { 0 < places_in (folder_at user.now folders.old.entries) }
    ensures { Edits user.now (seen_by domain.now other.now (is_some name)) 1 0 folders.old.entries folders.new.entries }
{
    if let Some(folder) = folders.get_mut(user.bytes()) {
        folder.be_seen(domain, other, name);
    }
}

/// Whether a user has asked another.
pub(crate) fn ask(folders: &mut Folders, domain: &Part, user: &Part, other: &Part, yes: bool)
    requires { 0 < places_in (folder_at user.now folders.old.entries) }
    ensures { Edits user.now (asking domain.now other.now yes) 0 0 folders.old.entries folders.new.entries }
{
    if let Some(folder) = folders.get_mut(user.bytes()) {
        folder.ask(domain, other, yes);
    }
}

/// Another has asked a user, by its name, or has not where there is none.
pub(crate) fn be_asked(folders: &mut Folders, user: &Part, other: &Part, name: Option<Vec<u8>>)
    requires named { IfSome name (λ n. n.items ≡ other.now) }
    requires room { 0 < places_in (folder_at user.now folders.old.entries) }
    ensures { Edits user.now (asked_by other.now (is_some name)) 1 0 folders.old.entries folders.new.entries }
{
    if let Some(folder) = folders.get_mut(user.bytes()) {
        folder.be_asked(other, name);
    }
}

/// The state of a contact at an address (RFC 6121, 2.1.2.5).
pub(crate) fn subscription_of(
    folders: &Folders,
    domain: &Part,
    user: &Part,
    address: &Jid,
) -> Subscription
    ensures { result ≡ subscription_in (sheet_in (folder_at user.now folders.now.entries)) (local_user domain.now address.now) }
{
    match (folders.get(user.bytes()), local_user(domain, address)) {
        (Some(folder), Some(other)) => state_by(
            folder.whom_sees.has(other),
            folder.who_sees.has(other),
        ),
        _ => Subscription::Neither,
    }
}

/// Whether a user has asked the one that has an address (RFC 6121, 2.1.2.2).
pub(crate) fn has_asked(folders: &Folders, domain: &Part, user: &Part, address: &Jid) -> bool
    ensures { result ≡ asked_in folders.now.entries user.now (local_user domain.now address.now) }
{
    match local_user(domain, address) {
        Some(other) => match folders.get(other.bytes()) {
            Some(folder) => folder.who_asked.has(user),
            None => false,
        },
        None => false,
    }
}

/// The bare addresses of users that have folders.
pub(crate) fn addresses(
    alloc: Global,
    folders: &Folders,
    order: &Order,
) -> Result<Vec<Jid>, NoMemory>
    requires there { list_all (λ u. is_some (folder_at u folders.now.entries)) order.now.users ≡ true }
    ensures { (domain : List ℕ) → ((u : List ℕ) → IsOwn domain u (folder_at u folders.now.entries))
        → IfOk result (λ v. v.items ≡ map (bare_of domain) order.now.users) }
{
    let mut found = Vec::new(alloc);
    for name in order.names() {
        match folders.get(name.as_slice()) {
            Some(folder) => found.push(folder.roster.owner.copy(alloc)?)?,
            None => unreachable!(),
        }
    }
    Ok(found)
}
