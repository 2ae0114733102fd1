//! What a want of the flow, and a round, come to.

use conn_asks::Ended;

/// What a want of the flow came to.
#[derive(Clone, Copy, Debug, PartialEq, Eq)]
pub enum Next {
    Goes,
    /// The flow waits for bytes, and none is left of those that were read.
    Rests,
    /// The flow is over with this end, and what is owed is still to be sent.
    Over(Ended),
    /// The connection ends so at this moment, and what is owed stays unsaid.
    Finishes(Ended, u64),
    /// The house takes no more turns.
    Exhausts,
}

/// Where a round left a connection.
#[derive(Clone, Copy, Debug, PartialEq, Eq)]
pub enum Round {
    /// At rest: the link was read once, all that came is handled, and all is sent.
    Goes,
    /// The link can take no byte now; the rest of what is owed is kept.
    Later,
    /// All is sent, and there is more to handle.
    More,
    /// With this end, at this moment.
    Ends(Ended, u64),
    /// The house takes no more turns.
    Exhausts,
}

/// How a connection was over before it left its line: with this end, at this moment, or with no turn left.
#[derive(Clone, Copy, Debug, PartialEq, Eq)]
pub enum End {
    Over(Ended, u64),
    NoTurn,
}
