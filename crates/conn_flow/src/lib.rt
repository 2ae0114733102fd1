//! A connection without its socket (RFC 6120): bytes go in, texts and events come out.
#![tactic(auto)]

mod calls;
mod flow;
pub mod laws;
mod phase;
mod saying;
mod talk;
mod telling;
mod want;

pub use flow::Flow;
pub use phase::Phase;
pub use talk::Talk;
pub use want::Want;
