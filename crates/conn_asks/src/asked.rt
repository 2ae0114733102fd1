//! What an item of a client's stream asks for.

use crate::ended::Ended;
use crate::failure::Failure;
use crate::stage::Purpose;
use house_model::Event;
use jid_core::Part;
use scram_core::{Mechanism, Success};
use stanza_tree::Text;

/// What an item asks for.
#[derive(Drop)]
pub enum Asked {
    /// The server's header and the features.
    Header,
    /// The empty challenge that asks for the first text of a mechanism.
    Invite(Mechanism),
    /// The failure of a login.
    Fail(Failure),
    /// That the user be logged in; this goes with the success.
    LogIn(Part, Success),
    /// What random bytes are needed for.
    Draw(Purpose),
    /// The refusal of a binding with this id, whose resource can't be read.
    RefuseResource(Text),
    /// What the house is to be told.
    Submit(Event),
    /// The end of the connection.
    End(Ended),
}
