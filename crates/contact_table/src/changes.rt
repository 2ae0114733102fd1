//! What a change does to the folders. Each takes no memory.
ghost use Rattle.std.specs.Prelude.{◌<◌, ◌≤◌, ◌+◌, ◌||◌, ℕ, List, bytes_eq, cond};
ghost use Rattle.contact_table.specs.Books.{Book, noted, with_contact, with_pair, without_contact};
ghost use Rattle.contact_table.specs.Folders.{Keeps, folder_at, room_in};
ghost use Rattle.contact_table.specs.Tables.{needed};

use crate::address::user_of;
use crate::folders::{
    Folders, ask, be_asked, be_seen, has_asked, put, see, subscription_of, take_name, take_out,
};
use jid_core::{Jid, Part};
use stanza_model::{Change, Contact};
use stanza_tree::{Several, Text};

fn set_contact(
    folders: &mut Folders,
    domain: &Part,
    user: &Part,
    address: Jid,
    name: Text,
    groups: Several<Text>,
)
    requires room { 0 < room_in (folder_at user.now folders.old.entries) }
    ensures kept { (k : Book) → Keeps domain.now k folders.old.entries
        → Keeps domain.now (record k {
          records = with_contact
              (record { user = user.now; address = address; name = name; groups = groups }) k.records;
        }) folders.new.entries }
    ensures room { (u : List ℕ) → room_in (folder_at u folders.old.entries) ≤ room_in (folder_at u folders.new.entries) + cond (bytes_eq user.now u) 1 0 }
{
    let subscription = subscription_of(folders, domain, user, &address);
    let asked = has_asked(folders, domain, user, &address);
    let contact = Contact {
        address,
        name,
        groups,
        subscription,
        asked,
    };
    put(folders, user, contact);
}

fn drop_contact(folders: &mut Folders, user: &Part, address: &Jid)
    requires room { 0 < room_in (folder_at user.now folders.old.entries) }
    ensures kept { (domain : List ℕ) (k : Book) → Keeps domain k folders.old.entries
        → Keeps domain (record k { records = without_contact user.now address.now k.records }) folders.new.entries }
    ensures room { (u : List ℕ) → room_in (folder_at u folders.old.entries) ≤ room_in (folder_at u folders.new.entries) }
{
    take_out(folders, user, address);
}

fn set_sees(folders: &mut Folders, domain: &Part, a: &Part, b: &Part, yes: bool)
    requires kept { (k : Book) × Keeps domain.now k folders.old.entries }
    requires room_a { 0 < room_in (folder_at a.now folders.old.entries) }
    requires room_b { 0 < room_in (folder_at b.now folders.old.entries) }
    ensures kept { (k : Book) → Keeps domain.now k folders.old.entries
        → Keeps domain.now (record k { sees = with_pair (record { a = a.now; b = b.now }) yes k.sees }) folders.new.entries }
    ensures room { (u : List ℕ) → room_in (folder_at u folders.old.entries)
        ≤ room_in (folder_at u folders.new.entries) + cond (bytes_eq a.now u || bytes_eq b.now u) 1 0 }
{
    let name_a = take_name(folders, a, yes);
    let name_b = take_name(folders, b, yes);
    see(folders, domain, a, b, name_b);
    be_seen(folders, domain, b, a, name_a);
}

fn set_asked(folders: &mut Folders, domain: &Part, a: &Part, b: &Part, yes: bool)
    requires kept { (k : Book) × Keeps domain.now k folders.old.entries }
    requires room_a { 0 < room_in (folder_at a.now folders.old.entries) }
    requires room_b { 0 < room_in (folder_at b.now folders.old.entries) }
    ensures kept { (k : Book) → Keeps domain.now k folders.old.entries
        → Keeps domain.now (record k { asked = with_pair (record { a = a.now; b = b.now }) yes k.asked }) folders.new.entries }
    ensures room { (u : List ℕ) → room_in (folder_at u folders.old.entries)
        ≤ room_in (folder_at u folders.new.entries) + cond (bytes_eq a.now u || bytes_eq b.now u) 1 0 }
{
    let name_a = take_name(folders, a, yes);
    ask(folders, domain, a, b, yes);
    be_asked(folders, b, a, name_a);
}

/// Does what a change says.
pub(crate) fn note(folders: &mut Folders, domain: &Part, change: Change)
    requires kept { (k : Book) × Keeps domain.now k folders.old.entries }
    requires room { (u : List ℕ) → needed u change ≤ room_in (folder_at u folders.old.entries) }
    ensures kept { (k : Book) → Keeps domain.now k folders.old.entries → Keeps domain.now (noted change k) folders.new.entries }
    ensures room { (u : List ℕ) → room_in (folder_at u folders.old.entries) ≤ room_in (folder_at u folders.new.entries) + needed u change }
{
    match change {
        Change::Contact {
            user,
            address,
            name,
            groups,
        } => set_contact(folders, domain, &user, address, name, groups),
        Change::NoContact { user, address } => drop_contact(folders, &user, &address),
        Change::Sees { a, b, yes } => set_sees(folders, domain, user_of(&a), user_of(&b), yes),
        Change::Asked { a, b, yes } => set_asked(folders, domain, user_of(&a), user_of(&b), yes),
        _ => {}
    }
}
