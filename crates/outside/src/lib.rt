//! All that the server sees of the world: sources, sinks, links, clocks and dice, each with a count of its faults, and
//! the forms of them that live in memory.
#![tactic(auto)]

pub mod bytes;
pub mod clean;
pub mod clean_poller;
pub mod clean_ports;
pub mod clock;
pub mod dice;
pub mod door;
pub mod link;
pub mod mem_door;
pub mod mem_link;
pub mod mem_poller;
pub mod mem_ports;
pub mod memory;
mod plan;
pub mod poller;
pub mod ports;
mod script;
mod seat;
pub mod tape;

pub use bytes::{Got, Put, Sink, Source};
pub use clean::{CleanSink, CleanSource};
pub use clean_poller::CleanPoller;
pub use clean_ports::CleanPorts;
pub use clock::{Clock, MemClock};
pub use dice::{CleanDice, Dice, Filled, MemDice};
pub use door::{Came, Door, Post};
pub use link::{Heard, Link, Sent};
pub use mem_door::{CleanDoor, MemDoor};
pub use mem_link::{CleanLink, MemLink};
pub use mem_poller::MemPoller;
pub use mem_ports::MemPorts;
pub use memory::{MemSink, MemSource};
pub use poller::{PollPost, Poller, Ring, Rung, Sources};
pub use ports::{ListenFault, Ports};
pub use tape::{Kind, Tape};
