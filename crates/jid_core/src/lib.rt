//! XMPP addresses (RFC 7622): read, prepared, compared and written.
#![tactic(auto)]

pub mod address;
mod ascii;
pub mod cut;
pub mod fault;
mod held;
pub mod laws;
pub mod part;
mod prepare;
mod refuse;

pub use address::Jid;
pub use cut::cut_at;
pub use fault::{JidFault, Which};
pub use part::Part;
