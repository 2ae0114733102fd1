//! A room that the service hosts.
ghost use Rattle.std.specs.Prelude.{◌≡◌, ◌<◌, ◌+◌, ◌^◌, IfOk, OnOk};

use stanza_model::Room;
use stanza_tree::NoMemory;
use std::alloc::Global;
use std::marker::Model;
use std::sync::Arc;

/// A room, which its copies share, and how many items it has broadcast.
#[derive(Drop)]
pub struct Hosted {
    room: Arc<Room, Global>,
    items: u128,
}

impl Model for Hosted {
    ghost use Rattle.std.specs.Arc.{arc_value};
    ghost use Rattle.muc_service.specs.Rooms as spec;

    ghost Value = { spec.Hosted };

    ghost view = { λ h. record { room = arc_value h.room; items = h.items } };
}

impl Hosted {
    /// A room that has broadcast nothing. Takes a block for it.
    pub(crate) fn new(alloc: Global, room: Room) -> Result<Hosted, NoMemory>
        ensures { IfOk result (λ h. h ≡ record { room = room; items = 0 }) }
    {
        match Arc::new(alloc, room) {
            Ok(room) => Ok(Hosted { room, items: 0 }),
            Err(_) => Err(NoMemory),
        }
    }

    /// The room.
    pub fn room(&self) -> &Room
        ensures { result.now ≡ self.now.room }
    {
        &self.room
    }

    /// How many items it has broadcast, which is the number of the next.
    pub fn items(&self) -> u128
        ensures { result ≡ self.now.items }
    {
        self.items
    }

    /// Another that is the same, and shares the room. Takes no memory.
    pub fn copy(&self) -> Result<Hosted, NoMemory>
        ensures { IfOk result (λ h. h ≡ self.now) }
    {
        Ok(Hosted {
            room: Arc::try_clone(&self.room)?,
            items: self.items,
        })
    }

    /// Another room takes its place. Takes a block for it; other copies keep what they have.
    pub(crate) fn set_room(&mut self, alloc: Global, room: Room) -> Result<(), NoMemory>
        ensures { OnOk result (self.new ≡ record self.old { room = room }) }
    {
        match Arc::new(alloc, room) {
            Ok(room) => {
                self.room = room;
                Ok(())
            }
            Err(_) => Err(NoMemory),
        }
    }

    /// One item more was broadcast.
    pub(crate) fn count(&mut self)
        requires { self.old.items + 1 < 2 ^ 128 }
        ensures { self.new ≡ record self.old { items = self.old.items + 1 } }
    {
        self.items += 1;
    }
}
