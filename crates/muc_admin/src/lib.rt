//! What comes of requests about a room's roles and affiliations (XEP-0045, 8 and 9), each as a list of effects.
#![tactic(auto)]

pub mod administration;
mod afterwards;
pub mod item;
mod listing;
mod refusal;
mod sets;
mod telling;

pub use administration::admin;
pub use item::address_at;
pub use refusal::too_large;
