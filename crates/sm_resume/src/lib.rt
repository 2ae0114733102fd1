//! The resumption of a stream (XEP-0198, 5): how its id is spelt, why a connection ends, and what a
//! client that asks to resume is answered.
//!
//! Only `ResumeId::write` takes memory.
#![tactic(auto)]

mod decision;
mod id;
pub mod laws;

pub use decision::{Cause, Decision, Facts, decide};
pub use id::{NoMemory, ResumeId, digits_of, read_digits, read_number};
