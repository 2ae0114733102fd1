//! The house: lines, sessions and their queues, users and rooms in memory. Each call is one step of the machine of `house_model`.
#![tactic(auto)]

mod acking;
mod acting;
mod binding;
mod counting;
mod ending;
mod gate;
pub mod house;
mod lines;
mod make;
mod pulling;
mod resuming;
mod submit;

pub use house::House;
pub use house_world::MOST_FRAME;
