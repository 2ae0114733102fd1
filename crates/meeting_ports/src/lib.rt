//! Ports for tests, whose two links meet: a server that serves one link after the other, or keeps others waiting while it reads, doesn't let them.
#![tactic(auto)]

mod link;
mod poller;
mod ports;

pub use link::MeetLink;
pub use poller::MeetPoller;
pub use ports::{MeetPorts, MeetPost};
