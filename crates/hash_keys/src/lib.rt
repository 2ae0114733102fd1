//! The keys by which names are hashed that others choose.
#![tactic(auto)]

mod key;
mod words;

pub use key::HashKey;
pub use words::WordHasher;
