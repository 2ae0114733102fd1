//! Sets of small numbers that tell where to look: which lines were stirred, which places are ready. Nothing is promised of what is in one, and nothing
//! but when something is looked at depends on it.
//!
//! A set has a bit for each number, and one for each word of these that has some, so that few words are looked at where few numbers are in it.
#![tactic(auto)]

mod marks;
mod shared;

pub use marks::{MarkedWord, Marks};
pub use shared::SharedMarks;
