//! The words of `serve`: options anywhere, each at most once, as `--x=V` or as `--x` and then V.
#![tactic(auto)]

mod grammar;
mod limits;
pub mod number;
mod option;
mod words;

pub use words::read_serve;
