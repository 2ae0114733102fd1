//! All the memory that the effects of a stanza need is taken before the first is applied.
ghost use Rattle.std.specs.Prelude.{◌≡◌, ◌<◌, ◌≤◌, [], ℕ, List, length, if◌then◌else◌, IfOk, OnOk};
ghost use Rattle.std.specs.List.Sorted.{IsNonDecreasing};
ghost use Rattle.contact_table.specs.Tables as book;
ghost use Rattle.sm_queue.specs.Queues.{spare};
ghost use Rattle.archive_table.specs.Tables.{archives_of};
ghost use Rattle.stanza_model.specs.declared.effect.Effect as stanza;
ghost use Rattle.house_model.specs.Archiving.{rows_of_room, rows_of_user};
ghost use Rattle.house_world.specs.Readiness.{AreNotable, AreReady, HasPlaces, HavePlaces, changes_in, needed, needed_by, queued_for, times};
ghost use Rattle.house_world.specs.Wholes.{HasSpare, IsHeldBy, IsTied};
ghost use Rattle.house_world.specs.Worlds.{Did};

use crate::marking::is_of_users;
use crate::world::World;
use contact_table::user_of;
use jid_core::Part;
use session_table::Own;
use stanza_model::{Change, Effect};
use stanza_tree::NoMemory;
use std::alloc::Global;

/// A list of so many effects is looked through for each of them, which costs less than sorting so few; of a longer one the sessions are sorted.
const FEW: usize = 16;

fn reserve(own: &mut Own, entries: usize) -> Result<(), NoMemory>
    ensures spare { OnOk result (entries ≤ spare own.new.queue) }
    ensures keeps { own.old.queue.room ≤ own.new.queue.room }
    ensures same { own.new ≡ record own.old {
      queue = record own.old.queue { room = own.new.queue.room };
    } }
{
    own.queue.reserve(entries)
}

/// Whether an effect queues a stanza for a session.
fn is_for(s: u64, effect: &Effect) -> bool
    ensures { needed_by s effect.now ≡ (if result then 1 else 0) }
{
    match effect {
        Effect::Queue { session, .. } => *session == s,
        _ => false,
    }
}

/// How many stanzas effects queue for a session.
fn needed(s: u64, effects: &[Effect]) -> usize
    ensures { result ≡ needed s effects.now }
{
    let mut count = 0;
    for effect in effects {
        if is_for(s, effect) {
            count += 1;
        }
    }
    count
}

/// The session of each stanza that effects queue.
fn queued_for(alloc: Global, effects: &[Effect]) -> Result<Vec<u64>, NoMemory>
    ensures { IfOk result (λ numbers. numbers.items ≡ queued_for effects.now) }
{
    let mut numbers = Vec::new(alloc);
    for effect in effects {
        if let Effect::Queue { session, .. } = effect {
            numbers.push(*session)?;
        }
    }
    Ok(numbers)
}

/// How many changes effects note.
fn changes_in(effects: &[Effect]) -> usize
    ensures { result ≡ changes_in effects.now }
{
    let mut count = 0;
    for effect in effects {
        if let Effect::Set(change) = effect {
            if is_of_users(change) {
                count += 1;
            }
        }
    }
    count
}

/// How many rows effects keep for a user.
fn rows_of_user(user: &Part, effects: &[Effect]) -> usize
    ensures { result ≡ length (rows_of_user user.now effects.now) }
{
    let mut count = 0;
    for effect in effects {
        if let Effect::Keep { user: other, .. } = effect {
            if other.bytes() == user.bytes() {
                count += 1;
            }
        }
    }
    count
}

/// How many they keep for a room.
fn rows_of_room(room: u64, effects: &[Effect]) -> usize
    ensures { result ≡ length (rows_of_room room effects.now) }
{
    let mut count = 0;
    for effect in effects {
        if let Effect::Set(Change::RoomRow { room: other, .. }) = effect {
            if *other == room {
                count += 1;
            }
        }
    }
    count
}

impl World {
    /// Takes the room for so many entries more of a session.
    fn take_room(&mut self, s: u64, entries: usize) -> Result<(), NoMemory>
        requires tied { IsTied self.old.table }
        ensures room { OnOk result (HasSpare entries s self.new.table) }
        ensures keeps { (n r : ℕ) → HasSpare n r self.old.table → HasSpare n r self.new.table }
        ensures same { Did [] 0 self.old self.new }
        ensures held { (w r : ℕ) → IsHeldBy w r self.old.table → IsHeldBy w r self.new.table }
    {
        match self.table.own_mut(s) {
            Some(own) => reserve(own, entries),
            None => Ok(()),
        }
    }

    /// Takes all the room that effects need for the session of one of them.
    fn take_for(&mut self, effect: &Effect, effects: &[Effect]) -> Result<(), NoMemory>
        requires tied { IsTied self.old.table }
        ensures room { OnOk result ((s : ℕ) → 0 < needed_by s effect.now
            → HasSpare (needed s effects.now) s self.new.table) }
        ensures keeps { (n r : ℕ) → HasSpare n r self.old.table → HasSpare n r self.new.table }
        ensures same { Did [] 0 self.old self.new }
        ensures held { (w r : ℕ) → IsHeldBy w r self.old.table → IsHeldBy w r self.new.table }
    {
        match effect {
            Effect::Queue { session, .. } => self.take_room(*session, needed(*session, effects)),
            _ => Ok(()),
        }
    }

    /// Takes all the room that a few effects need.
    fn take_few(&mut self, effects: &[Effect]) -> Result<(), NoMemory>
        requires tied { IsTied self.old.table }
        ensures ready { OnOk result (AreReady effects.now self.new.table) }
        ensures same { Did [] 0 self.old self.new }
        ensures held { (w r : ℕ) → IsHeldBy w r self.old.table → IsHeldBy w r self.new.table }
    {
        for effect in effects {
            self.take_for(effect, effects)?;
        }
        Ok(())
    }

    /// Takes room for an entry of each session in a sorted list, as often as the session is in it.
    fn take_runs(&mut self, numbers: &[u64]) -> Result<(), NoMemory>
        requires tied { IsTied self.old.table }
        requires sorted { IsNonDecreasing numbers.now }
        ensures room { OnOk result ((s : ℕ) → HasSpare (times s numbers.now) s self.new.table) }
        ensures same { Did [] 0 self.old self.new }
        ensures held { (w r : ℕ) → IsHeldBy w r self.old.table → IsHeldBy w r self.new.table }
    {
        let mut last = 0;
        let mut run = 0;
        for number in numbers {
            if *number != last {
                self.take_room(last, run)?;
                last = *number;
                run = 0;
            }
            run += 1;
        }
        self.take_room(last, run)
    }

    /// Takes all the room that many effects need.
    fn take_many(&mut self, effects: &[Effect]) -> Result<(), NoMemory>
        requires tied { IsTied self.old.table }
        ensures ready { OnOk result (AreReady effects.now self.new.table) }
        ensures same { Did [] 0 self.old self.new }
        ensures held { (w r : ℕ) → IsHeldBy w r self.old.table → IsHeldBy w r self.new.table }
    {
        let mut numbers = queued_for(*self.answers.allocator(), effects)?;
        numbers.sort_unstable();
        self.take_runs(numbers.as_slice())
    }

    /// Takes all the room that effects need in queues. Of n effects it costs n log n.
    fn take_rooms(&mut self, effects: &[Effect]) -> Result<(), NoMemory>
        requires tied { IsTied self.old.table }
        ensures ready { OnOk result (AreReady effects.now self.new.table) }
        ensures same { Did [] 0 self.old self.new }
        ensures held { (w r : ℕ) → IsHeldBy w r self.old.table → IsHeldBy w r self.new.table }
    {
        if effects.len() <= FEW {
            self.take_few(effects)
        } else {
            self.take_many(effects)
        }
    }

    /// Takes places for so many changes of a user.
    fn take_place_of(&mut self, user: &Part, many: usize) -> Result<(), NoMemory>
        requires tied { IsTied self.old.table }
        ensures places { OnOk result (many ≤ book.spare user.now self.new.book) }
        ensures keeps { (u : List ℕ) → book.spare u self.old.book ≤ book.spare u self.new.book }
        ensures same { Did [] 0 self.old self.new }
        ensures table { self.new.table ≡ self.old.table }
    {
        self.book.reserve(*self.answers.allocator(), user, many)
    }

    /// Takes places for so many changes of each user that one of them names.
    fn take_place(&mut self, change: &Change, many: usize) -> Result<(), NoMemory>
        requires tied { IsTied self.old.table }
        ensures places { OnOk result ((u : List ℕ) → 0 < book.needed u change.now → many ≤ book.spare u self.new.book) }
        ensures keeps { (u : List ℕ) → book.spare u self.old.book ≤ book.spare u self.new.book }
        ensures same { Did [] 0 self.old self.new }
        ensures table { self.new.table ≡ self.old.table }
    {
        match change {
            Change::Contact { user, .. } | Change::NoContact { user, .. } => {
                self.take_place_of(user, many)
            }
            Change::Sees { a, b, .. } | Change::Asked { a, b, .. } => {
                self.take_place_of(user_of(a), many)?;
                self.take_place_of(user_of(b), many)
            }
            _ => Ok(()),
        }
    }

    /// Takes the places that effects need in what is kept of users.
    fn take_places(&mut self, effects: &[Effect]) -> Result<(), NoMemory>
        requires tied { IsTied self.old.table }
        ensures places { OnOk result (AreNotable effects.now self.new.book) }
        ensures same { Did [] 0 self.old self.new }
        ensures table { self.new.table ≡ self.old.table }
    {
        let many = changes_in(effects);
        for effect in effects {
            if let Effect::Set(change) = effect {
                self.take_place(change, many)?;
            }
        }
        Ok(())
    }

    /// Takes the memory for a row of one of these effects, and for as many as all of them add to its archive.
    fn take_row(&mut self, effect: &Effect, effects: &[Effect]) -> Result<(), NoMemory>
        requires tied { IsTied self.old.table }
        ensures row { OnOk result (HasPlaces effects.now self.new.archives effect.now) }
        ensures keeps { (e : stanza.Effect) → HasPlaces effects.now self.old.archives e → HasPlaces effects.now self.new.archives e }
        ensures same { Did [] 0 self.old self.new }
        ensures table { self.new.table ≡ self.old.table }
        ensures book { self.new.book ≡ self.old.book }
        ensures archives { archives_of self.new.archives ≡ archives_of self.old.archives }
    {
        match effect {
            Effect::Keep { user, peer, .. } => {
                let many = rows_of_user(user, effects);
                self.archives.reserve_user(user, peer, many)
            }
            Effect::Set(Change::RoomRow { room, peer, .. }) => {
                let many = rows_of_room(*room, effects);
                self.archives.reserve_room(*room, peer, many)
            }
            _ => Ok(()),
        }
    }

    /// Takes the memory for the rows that effects add to archives.
    fn take_rows(&mut self, effects: &[Effect]) -> Result<(), NoMemory>
        requires tied { IsTied self.old.table }
        ensures rows { OnOk result (HavePlaces effects.now self.new.archives) }
        ensures same { Did [] 0 self.old self.new }
        ensures table { self.new.table ≡ self.old.table }
        ensures book { self.new.book ≡ self.old.book }
        ensures archives { archives_of self.new.archives ≡ archives_of self.old.archives }
    {
        for effect in effects {
            self.take_row(effect, effects)?;
        }
        Ok(())
    }

    /// Takes all the memory that effects need. Of n effects it costs n log n.
    pub fn prepare(&mut self, effects: &[Effect]) -> Result<(), NoMemory>
        requires tied { IsTied self.old.table }
        ensures ready { OnOk result (AreReady effects.now self.new.table) }
        ensures places { OnOk result (AreNotable effects.now self.new.book) }
        ensures rows { OnOk result (HavePlaces effects.now self.new.archives) }
        ensures same { Did [] 0 self.old self.new }
        ensures held { (w r : ℕ) → IsHeldBy w r self.old.table → IsHeldBy w r self.new.table }
        ensures archives { archives_of self.new.archives ≡ archives_of self.old.archives }
    {
        self.take_rooms(effects)?;
        self.take_places(effects)?;
        self.take_rows(effects)
    }
}
