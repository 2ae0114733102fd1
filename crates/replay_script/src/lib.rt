//! Lines of a script as steps, and what is printed of replies and of items.
#![tactic(auto)]

mod drill;
mod drill_events;
mod drill_names;
mod drill_schedule;
mod drill_section;
mod drill_stanzas;
mod drill_tallies;
mod event;
pub mod fault;
mod fields;
pub mod laws;
mod notice;
mod numbers;
mod opening;
mod print;
mod read;
mod stanza;
pub mod step;

pub use drill::Drill;
pub use fault::LineFault;
pub use print::{print_item, print_reply};
pub use read::read_line;
pub use step::Step;
