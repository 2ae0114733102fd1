//! The machine that the server is, in definitions: what happens at each event, over whole lists and true numbers.
#![tactic(auto)]

pub mod answer;
pub mod event;
pub mod laws;
pub mod limits;
pub mod reply;

pub use answer::Answer;
pub use event::Event;
pub use limits::Limits;
pub use reply::Reply;
pub use stanza_model::{MessageForm, Stanza};
