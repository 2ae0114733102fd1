//! What is kept of what a session's client told of itself, and was told of its roster (RFC 6121, 2.1.6, 4.2 and 4.6), and of users.
ghost use Rattle.std.specs.Prelude.{◌≡◌, ◌<◌, ◌+◌, ◌^◌, ◌≤◌, ℕ, List, [], ◌∷◌, pos, true, false, Some, None};
ghost use Rattle.stanza_model.specs.declared.effect.Effect.{Effect};
ghost use Rattle.contact_table.specs.Tables.{needed, spare};
ghost use Rattle.house_world.specs.Keeping.{IsShortChange};
ghost use Rattle.house_model.specs.Fitting.{IsSmall};
ghost use Rattle.house_model.specs.Steps.{set};
ghost use Rattle.house_world.specs.Hosting.{but_rooms_of};
ghost use Rattle.house_world.specs.Marks.{is_of_archives, is_of_rooms, is_of_users, named_by, set_by};
ghost use Rattle.house_world.specs.Readiness.{AreFilable};
ghost use Rattle.house_world.specs.Wholes.{HasSpare, IsTied};
ghost use Rattle.house_world.specs.Worlds.{Did, Stays};

use crate::lengths::know_part;
use crate::world::World;
use archive_table::Filing;
use contact_table::user_of;
use jid_core::Jid;
use session_table::Own;
use stanza_model::Change;
use stanza_tree::{Several, Text};

/// Its client is available, with this presence and this priority.
fn show(own: &mut Own, stanza: Text, priority: i16)
    ensures { own.new ≡ record own.old { presence = Some stanza; priority = priority } }
{
    own.presence = Some(stanza);
    own.priority = priority;
}

/// Its client is unavailable.
fn hide(own: &mut Own)
    ensures { own.new ≡ record own.old { presence = None; priority = pos 0 } }
{
    own.presence = None;
    own.priority = 0;
}

/// Its client sent presence to these addresses alone.
fn direct(own: &mut Own, addresses: Several<Jid>)
    ensures { own.new ≡ record own.old { directed = addresses } }
{
    own.directed = addresses;
}

/// Its client asked for its roster.
fn want_roster(own: &mut Own)
    ensures { own.new ≡ record own.old { wants_roster = true } }
{
    own.wants_roster = true;
}

/// So many pushes of its roster were queued for it.
fn count_pushes(own: &mut Own, pushes: u64)
    ensures { own.new ≡ record own.old { pushes = pushes } }
{
    own.pushes = pushes;
}

/// The number of the session that a change is of.
pub(crate) fn named_by(change: &Change) -> Option<u64>
    ensures { result ≡ named_by change.now }
{
    match change {
        Change::WantsRoster { session }
        | Change::Pushed { session, .. }
        | Change::Available { session, .. }
        | Change::Unavailable { session }
        | Change::Directed { session, .. } => Some(*session),
        _ => None,
    }
}

/// Whether a change is of what is kept of users.
pub(crate) fn is_of_users(change: &Change) -> bool
    ensures { result ≡ is_of_users change.now }
{
    match change {
        Change::Contact { .. }
        | Change::NoContact { .. }
        | Change::Sees { .. }
        | Change::Asked { .. } => true,
        _ => false,
    }
}

/// Whether a change is a message that is kept for a room.
fn is_of_archives(change: &Change) -> bool
    ensures { result ≡ is_of_archives change.now }
{
    matches!(change, Change::RoomRow { .. })
}

/// Whether a change is of rooms.
pub(crate) fn is_of_rooms(change: &Change) -> bool
    ensures { result ≡ is_of_rooms change.now }
{
    !(named_by(change).is_some() || is_of_users(change) || is_of_archives(change))
}

/// A change is made of its session.
fn mark(own: &mut Own, change: Change)
    ensures { own.new ≡ set_by change own.old }
{
    match change {
        Change::WantsRoster { .. } => want_roster(own),
        Change::Pushed { pushes, .. } => count_pushes(own, pushes),
        Change::Available {
            stanza,
            priority,
            ..
        } => show(own, stanza, priority),
        Change::Unavailable { .. } => hide(own),
        Change::Directed { addresses, .. } => direct(own, addresses),
        _ => {}
    }
}

fn know_count(_pushes: u64)
    ensures { _pushes < 2 ^ 64 }
{}

// The names in a change are short, and so is a count.
fn know_change(change: &Change)
    ensures { IsShortChange change.now }
{
    match change {
        Change::Asked { a, .. } => know_part(user_of(a)),
        Change::Pushed { pushes, .. } => know_count(*pushes),
        _ => {}
    }
}

impl World {
    /// A change is made of its session, where that is there.
    fn set_session(&mut self, s: u64, change: Change)
        requires tied { IsTied self.old.table }
        requires short { IsSmall (Effect.Set change) }
        requires named { named_by change ≡ Some s }
        ensures did { Did (set change ∷ []) 0 self.old self.new }
        ensures stays { Stays self.old self.new }
        ensures book { self.new.book ≡ self.old.book }
        ensures archives { self.new.archives ≡ self.old.archives }
        ensures room { (n s : ℕ) → HasSpare n s self.old.table → HasSpare n s self.new.table }
    {
        know_change(&change);
        match self.table.own_mut(s) {
            Some(own) => mark(own, change),
            None => {}
        }
    }

    /// A change of contacts, or of who sees whom, is noted. There is room for it.
    fn note(&mut self, change: Change)
        requires tied { IsTied self.old.table }
        requires users { is_of_users change ≡ true }
        requires places { (user : List ℕ) → needed user change ≤ spare user self.old.book }
        ensures did { Did (set change ∷ []) 0 self.old self.new }
        ensures stays { Stays self.old self.new }
        ensures table { self.new.table ≡ self.old.table }
        ensures archives { self.new.archives ≡ self.old.archives }
        ensures places { (user : List ℕ) → spare user self.old.book ≤ spare user self.new.book + needed user change }
    {
        know_change(&change);
        self.book.apply(change);
    }

    /// A message is kept for a room. There is memory for the row.
    fn file_of_room(&mut self, change: Change)
        requires tied { IsTied self.old.table }
        requires short { IsSmall (Effect.Set change) }
        requires filable { AreFilable (Effect.Set change ∷ []) self.old.archives }
        requires room { is_of_archives change ≡ true }
        ensures did { Did (set change ∷ []) 0 self.old self.new }
        ensures stays { Stays self.old self.new }
        ensures table { self.new.table ≡ self.old.table }
        ensures book { self.new.book ≡ self.old.book }
        ensures archives { (more : List Effect) → AreFilable (Effect.Set change ∷ more) self.old.archives → AreFilable more self.new.archives }
    {
        if let Change::RoomRow {
            room,
            peer,
            text,
            moment,
        } = change
        {
            self.archives.file(Filing::OfRoom {
                room,
                peer,
                text,
                moment,
            });
        }
    }

    /// Of a room that is there no more the archive goes, where it is such a change; another change of rooms does nothing here.
    fn drop_archive(&mut self, change: &Change)
        requires tied { IsTied self.old.table }
        requires users { is_of_users change.now ≡ false }
        requires session { named_by change.now ≡ None }
        requires room { is_of_archives change.now ≡ false }
        ensures did { Did (but_rooms_of (Effect.Set change.now)) 0 self.old self.new }
        ensures stays { Stays self.old self.new }
        ensures table { self.new.table ≡ self.old.table }
        ensures book { self.new.book ≡ self.old.book }
        ensures archives { (more : List Effect) → AreFilable (Effect.Set change.now ∷ more) self.old.archives → AreFilable more self.new.archives }
    {
        if let Change::RoomGone { room } = change {
            let _ = self.archives.bytes();
            self.archives.file(Filing::NoRoom { room: *room });
        }
    }

    /// A change is made of a session, noted, or kept for a room. Of a room that is there no more the archive goes; another change of rooms does
    /// nothing here.
    pub(crate) fn set(&mut self, change: Change)
        requires tied { IsTied self.old.table }
        requires short { IsSmall (Effect.Set change) }
        requires places { (user : List ℕ) → needed user change ≤ spare user self.old.book }
        requires filable { AreFilable (Effect.Set change ∷ []) self.old.archives }
        ensures did { Did (but_rooms_of (Effect.Set change)) 0 self.old self.new }
        ensures stays { Stays self.old self.new }
        ensures room { (n s : ℕ) → HasSpare n s self.old.table → HasSpare n s self.new.table }
        ensures places { (user : List ℕ) → spare user self.old.book ≤ spare user self.new.book + needed user change }
        ensures archives { (more : List Effect) → AreFilable (Effect.Set change ∷ more) self.old.archives → AreFilable more self.new.archives }
    {
        if is_of_users(&change) {
            self.note(change);
            return;
        }
        if let Some(s) = named_by(&change) {
            self.set_session(s, change);
            return;
        }
        if is_of_archives(&change) {
            self.file_of_room(change);
            return;
        }
        self.drop_archive(&change);
    }
}
