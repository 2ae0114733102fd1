//! The rooms that the service hosts.
ghost use Rattle.std.specs.Prelude.{◌≡◌, length, IfOk, OnOk};
ghost use Rattle.std.specs.Option.{option_copied};
ghost use Rattle.muc_service.specs.Changing.{HasRoomFor, set_in};
ghost use Rattle.muc_service.specs.Rooms as spec;

use crate::changing::{self, made_room};
use crate::hosted::Hosted;
use jid_core::{Jid, Part};
use muc_room::occupant_of;
use stanza_model::{Change, Effect, Role, Seat};
use stanza_tree::NoMemory;
use std::alloc::Global;
use std::marker::Model;

/// How many rooms there were, and how many stays in them; and the rooms that are there, in the order of making.
#[derive(Drop)]
pub struct Rooms {
    made: u64,
    stays: u64,
    hosted: Vec<Hosted>,
}

impl Model for Rooms {
    ghost use Rattle.muc_service.specs.Rooms as spec;

    ghost Value = { spec.Rooms };

    ghost view = { λ r. record { made = r.made; stays = r.stays; hosted = r.hosted.items } };
}

/// Others that are the same, and share the rooms.
fn copy_hosted(alloc: Global, hosted: &[Hosted]) -> Result<Vec<Hosted>, NoMemory>
    ensures { IfOk result (λ v. v.items ≡ hosted.now) }
{
    let mut copies = Vec::new(alloc);
    for h in hosted {
        copies.push(h.copy()?)?;
    }
    Ok(copies)
}

/// Whether a session is in a room.
fn is_in(session: u64, h: &Hosted) -> bool
    ensures { result ≡ spec.is_in session h.now }
{
    occupant_of(session, h.room().occupants.slice()).is_some()
}

impl Rooms {
    /// Before any room is made. Takes no memory.
    pub fn new(alloc: Global) -> Rooms
        ensures { result ≡ spec.no_rooms }
    {
        Rooms {
            made: 0,
            stays: 0,
            hosted: Vec::new(alloc),
        }
    }

    /// Another that is the same. Costs a vector of as many rooms, which both share.
    pub fn copy(&self, alloc: Global) -> Result<Rooms, NoMemory>
        ensures { IfOk result (λ r. r ≡ self.now) }
    {
        Ok(Rooms {
            made: self.made,
            stays: self.stays,
            hosted: copy_hosted(alloc, self.hosted.as_slice())?,
        })
    }

    /// How many rooms were made, which is the number of the next.
    pub fn made(&self) -> u64
        ensures { result ≡ self.now.made }
    {
        self.made
    }

    /// How many stays there were.
    pub fn stays(&self) -> u64
        ensures { result ≡ self.now.stays }
    {
        self.stays
    }

    /// How many rooms are there.
    pub fn count(&self) -> usize
        ensures { result ≡ length self.now.hosted }
    {
        self.hosted.len()
    }

    /// The rooms that are there, in the order of making.
    pub fn hosted(&self) -> &[Hosted]
        ensures { result.now ≡ self.now.hosted }
    {
        self.hosted.as_slice()
    }

    /// The room at a bare address.
    pub fn hosted_at(&self, address: &Jid) -> Option<&Hosted>
        ensures { option_copied result ≡ spec.hosted_at address.now self.now }
    {
        self.hosted
            .iter()
            .find(|h| h.room().address.is_same_bare(address))
    }

    /// The room of a number.
    pub fn hosted_as(&self, n: u64) -> Option<&Hosted>
        ensures { option_copied result ≡ spec.hosted_as n self.now }
    {
        self.hosted.iter().find(|h| h.room().number == n)
    }

    /// In how many rooms a session is.
    pub fn entered_by(&self, session: u64) -> usize
        ensures { result ≡ spec.entered_by session self.now }
    {
        self.hosted.iter().filter(|h| is_in(session, h)).count()
    }

    /// The next room is made (XEP-0045, 10.1).
    fn make(
        &mut self,
        alloc: Global,
        number: u64,
        address: &Jid,
        owner: &Jid,
    ) -> Result<(), NoMemory>
        requires { HasRoomFor 1 self.old }
        ensures { OnOk result (self.new ≡ spec.with_room number address.now owner.now self.old) }
    {
        let room = made_room(alloc, number, address, owner)?;
        self.hosted.push(Hosted::new(alloc, room)?)?;
        self.made += 1;
        Ok(())
    }

    /// The next stay begins (XEP-0045, 7.2).
    fn enter(
        &mut self,
        alloc: Global,
        n: u64,
        session: u64,
        address: &Jid,
        nick: &Part,
        role: Role,
    ) -> Result<(), NoMemory>
        requires { HasRoomFor 1 self.old }
        ensures { OnOk result (self.new ≡ spec.entered n session address.now nick.now role self.old) }
    {
        let address = address.copy(alloc)?;
        let stay = self.stays + 1;
        let seat = Seat {
            session,
            address,
            stay,
        };
        self.stays = stay;
        changing::enter(alloc, n, &seat, nick, role, &mut self.hosted)
    }

    /// What is set in the room of this number, if it is one of these.
    fn set_in(&mut self, alloc: Global, n: u64, change: &Change) -> Result<(), NoMemory>
        ensures { OnOk result (self.new ≡ spec.changed n (set_in change.now) self.old) }
    {
        changing::set(alloc, n, change, &mut self.hosted)
    }

    /// What is set, and what it makes of the rooms. A change of anything else is none of theirs.
    fn set(&mut self, alloc: Global, change: &Change) -> Result<(), NoMemory>
        requires { HasRoomFor 1 self.old }
        ensures { OnOk result (self.new ≡ spec.set change.now self.old) }
    {
        match change {
            Change::RoomMade {
                room,
                address,
                owner,
            } => self.make(alloc, *room, address, owner),
            Change::RoomGone { room } => {
                changing::remove(*room, &mut self.hosted);
                Ok(())
            }
            Change::Unlocked { room } => self.set_in(alloc, *room, change),
            Change::Configured { room, .. } => self.set_in(alloc, *room, change),
            Change::Affiliated { room, .. } => self.set_in(alloc, *room, change),
            Change::RoleSet { room, .. } => self.set_in(alloc, *room, change),
            Change::Renamed { room, .. } => self.set_in(alloc, *room, change),
            Change::OccupantShown { room, .. } => self.set_in(alloc, *room, change),
            Change::Subject { room, .. } => self.set_in(alloc, *room, change),
            _ => Ok(()),
        }
    }

    /// What an effect makes of the rooms (XEP-0045, 5 to 10). Costs a copy of the room that it changes, where it changes one. Where there
    /// was no memory, what is left is of no use.
    pub fn step(&mut self, alloc: Global, effect: &Effect) -> Result<(), NoMemory>
        requires { HasRoomFor 1 self.old }
        ensures { OnOk result (self.new ≡ spec.step effect.now self.old) }
    {
        match effect {
            Effect::Broadcast { room, .. } => {
                changing::count(*room, &mut self.hosted);
                Ok(())
            }
            Effect::Enter {
                room,
                session,
                address,
                nick,
                role,
            } => self.enter(alloc, *room, *session, address, nick, *role),
            Effect::Leave { room, session } => {
                changing::leave(alloc, *room, *session, &mut self.hosted)
            }
            Effect::Set(change) => self.set(alloc, change),
            Effect::Queue { .. } | Effect::Keep { .. } => Ok(()),
        }
    }
}
