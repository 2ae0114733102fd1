//! The archives of all users and rooms (XEP-0313, 2).
#![tactic(auto)]

mod adding;
pub mod filing;
pub mod laws;
pub mod paging;
mod rooms;
pub mod table;
mod users;

pub use filing::Filing;
pub use paging::{displaced, kept, made, page};
pub use table::{Archives, MOST_BYTES};
