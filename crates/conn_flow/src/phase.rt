//! Where a flow stands.

use conn_asks::{DRAW, Ended, Failure};

/// What is next in a flow.
#[derive(Clone, Copy, Debug, PartialEq, Eq)]
pub enum Phase {
    /// More is to be heard.
    Resting,
    /// Something was heard and is to be handled.
    Heard,
    /// The text is to be said.
    Saying,
    /// This failure is to be said.
    Refusing(Failure),
    /// Random bytes are needed for the purpose.
    Drawing,
    /// Random bytes are there for it.
    Drawn([u8; DRAW]),
    /// The house is to be told the event.
    Entering,
    /// It was told, and is to answer. `pulls` says whether a pull follows.
    Entered { pulls: bool },
    /// The house is to be told of a login by the user, and then was told; where it agrees the text is to be said.
    LoggingIn,
    LoggedIn,
    /// A pull after an event, those after the items of a reading, and a sweep.
    PullingOnce,
    Pulling,
    Sweeping,
    /// The last text is to be said, and then was said.
    Parting(Ended),
    Left(Ended),
}
