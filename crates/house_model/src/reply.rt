//! What the house answers.

use sm_resume::Cause;

/// The answer to an event.
#[derive(Clone, Copy, Debug, PartialEq, Eq)]
pub enum Reply {
    /// The connection has this number.
    Opened(u64),
    Done,
    /// The connection holds a session now.
    Bound,
    /// The connection holds the session that it asked for.
    Resumed,
    /// A frame was given.
    Frame,
    /// No frame waits. `due` says whether a session is to be swept.
    Nothing { due: bool },
    /// The session of this number was taken away.
    Swept(u64),
    /// The connection is over, for this cause.
    Over(Cause),
    /// No connection is there.
    Absent,
    /// The connection is not at the stage for this.
    Unready,
    /// The house has no such user.
    NoUser,
}
