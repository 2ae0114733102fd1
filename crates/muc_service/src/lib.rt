//! The rooms that the service hosts, and what effects make of them (XEP-0045).
#![tactic(auto)]

pub mod casting;
mod changing;
pub mod hosted;
pub mod rooms;
mod seating;

pub use casting::cast;
pub use hosted::Hosted;
pub use rooms::Rooms;
