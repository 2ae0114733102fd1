//! What comes of presence and messages to rooms (XEP-0045, 7), each as a list of effects.
#![tactic(auto)]

pub mod entering;
mod entry;
mod histories;
pub mod leaving;
pub mod renaming;
pub mod saying;
mod seats;
pub mod sharing;
pub mod state;
pub mod views;

pub use entering::{Numbers, default_config, enter};
pub use leaving::leave;
pub use renaming::rename;
pub use saying::{direct, say};
pub use seats::{affiliation_of, has_nick, has_seat, occupant_of, sessions_of, spoken_from};
pub use sharing::{SharedViews, shared_views, view};
pub use state::{
    copy_config, copy_room, copy_seat, is_listed, is_of, set_affiliation, set_role,
    with_affiliation, without_occupant,
};
