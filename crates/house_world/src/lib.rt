//! The world of the house: lines, sessions and their queues, the answers that wait, what is kept of users, and rooms; and how each effect changes it.
#![tactic(auto)]

mod answers;
mod applying;
mod casting;
mod deeds;
mod free;
mod leaving;
mod lengths;
mod marking;
mod parting;
mod reserving;
mod world;

pub use answers::{Answers, MOST_ANSWERS, MOST_FRAME, push_request};
pub use casting::Cast;
pub use deeds::{given, inward};
pub use lengths::{know_part, know_to};
pub use world::World;
