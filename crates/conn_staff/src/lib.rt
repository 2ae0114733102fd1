//! The workers of a server: each serves the links of its post in a thread of its own, each link at a place, and all share one house.
#![tactic(auto)]

mod bench;
mod roster;
mod staff;
mod worker;

pub use roster::Worked;
pub use staff::serve_posts;
