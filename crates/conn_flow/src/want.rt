//! What a flow wants.

use conn_asks::Ended;
use house_model::Event;

/// What a flow wants next.
#[derive(Drop)]
pub enum Want {
    /// That this be sent.
    Say(Vec<u8>),
    /// That the house be told, and the flow its reply.
    Submit(Event),
    /// Eighteen random bytes.
    NeedDice,
    /// That the link be read.
    Await,
    /// Nothing more.
    Finish(Ended),
}
