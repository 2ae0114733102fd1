//! The outside as it is: standard input and output, TCP sockets, the system's clock and its random bytes. Each form
//! counts its faults, and a link its Ends. What is read, sent or drawn none of them tells.
#![tactic(auto)]

mod beat;
mod bell;
mod gauge;
mod net_ports;
mod open_fault;
mod places;
mod standard;
mod system;
mod tcp_link;
mod tcp_poller;
mod watch;

pub use net_ports::{NetPorts, TcpPost};
pub use standard::{ReaderSource, WriterSink};
pub use system::{SystemClock, SystemDice};
pub use tcp_link::TcpLink;
pub use tcp_poller::TcpPoller;
