//! The house under a counted lock: every call of any thread stands once in one legal history.
#![tactic(auto)]

mod call;
mod calls;
mod desk;
mod entry;
mod events;
mod hall;
mod hall_desk;
mod recorded;

pub use desk::{Desk, DeskFault};
pub use entry::{HouseTurn, Opening};
pub use hall::{Hall, HallFault, Pass};
pub use recorded::Recorded;
