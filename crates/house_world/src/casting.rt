//! Effects as they are queued, with the rooms after them.
ghost use Rattle.std.specs.Prelude.{◌≡◌, IfOk};
ghost use Rattle.std.specs.List.{list_any};
ghost use Rattle.muc_service.specs.Changing.{HasRoomForAll};
ghost use Rattle.house_world.specs.Hosting.{IsCast, touches};

use crate::marking::is_of_rooms;
use crate::world::World;
use muc_service::{Rooms, cast};
use stanza_model::Effect;
use stanza_tree::NoMemory;

/// Effects, with the views of each broadcast before it, and the rooms after them, where they become others.
#[derive(Drop)]
pub struct Cast {
    pub effects: Vec<Effect>,
    pub rooms: Option<Rooms>,
}

/// Whether an effect is one of rooms.
fn touches(effect: &Effect) -> bool
    ensures { result ≡ touches effect.now }
{
    match effect {
        Effect::Queue { .. } | Effect::Keep { .. } => false,
        Effect::Broadcast { .. } | Effect::Enter { .. } | Effect::Leave { .. } => true,
        Effect::Set(change) => is_of_rooms(change),
    }
}

/// Whether one of these is.
fn touch_rooms(effects: &[Effect]) -> bool
    ensures { result ≡ list_any touches effects.now }
{
    effects.iter().any(|effect| touches(effect))
}

impl World {
    /// Effects as they are queued, and the rooms after them. Where one is of rooms it costs a copy of the rooms, and what the cast costs.
    pub fn cast(&self, effects: Vec<Effect>) -> Result<Cast, NoMemory>
        requires { HasRoomForAll effects.items self.now.rooms }
        ensures { IfOk result (λ c. IsCast effects.items self.now.rooms c) }
    {
        if touch_rooms(effects.as_slice()) {
            let alloc = *self.answers.allocator();
            let mut rooms = self.rooms.copy(alloc)?;
            let effects = cast(alloc, &mut rooms, effects)?;
            return Ok(Cast {
                effects,
                rooms: Some(rooms),
            });
        }
        Ok(Cast {
            effects,
            rooms: None,
        })
    }
}
