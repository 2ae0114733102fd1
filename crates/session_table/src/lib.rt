//! The table of a server's connections and sessions: lines and sessions by number, sessions by address,
//! and the sessions that are to be taken away.
//!
//! Only `Table::new` and `Table::reserve` take memory.
#![tactic(auto)]

mod chains;
pub mod laws;
mod life;
mod line;
mod room;
mod session;
mod slots;
mod table;
mod users;
mod wakes;

pub use life::Life;
pub use line::Line;
pub use session::{Own, Session};
pub use table::Table;
pub use users::OfUser;
