//! What the house makes of stanzas and departures: the world is read, and effects come of it, as they are to be queued. Nothing here changes
//! the world.
#![tactic(auto)]

mod archives;
mod attending;
mod keeping;
mod listing;
mod messages;
mod presence;
mod requests;
mod rooms;
mod rosters;
mod routing;
mod sight;
mod users;

pub use routing::{departure, effects_of};
pub use users::Users;
