//! What comes of a room's owner's requests (XEP-0045, 10), and of invitations (7.8), each as a list of effects.
#![tactic(auto)]

pub mod invitation;
pub mod inviting;
pub mod owning;
mod reason;

pub use invitation::invitation_of;
pub use inviting::{invite, x_in};
pub use owning::owner;
