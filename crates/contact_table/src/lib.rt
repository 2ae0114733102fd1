//! What a server keeps of its users: their rosters, who sees whose presence, and who has asked to (RFC 6121, 2 and 3).
#![tactic(auto)]

pub mod address;
pub mod book;
mod changes;
mod contacts;
mod flag;
mod folder;
mod folders;
pub mod order;

pub use address::{bare_of, local_user, user_of};
pub use book::Book;
pub use order::Order;
