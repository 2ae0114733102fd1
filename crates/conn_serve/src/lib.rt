//! Serves a connection: what is read of its link goes to its flow, and what that wants is done, until the connection ends.
#![tactic(auto)]

mod converse;
mod ears;
mod enter;
mod flush;
mod listen;
mod owed;
mod round;
mod service;
mod submit;
mod turn;
mod worker;

pub use ears::Ears;
pub use owed::Owed;
pub use round::Conn;
pub use service::{conclude, serve};
pub use turn::{End, Round};
pub use worker::{Worked, work};
