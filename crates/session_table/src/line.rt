//! A place for a connection.

ghost use Rattle.std.specs.Prelude.{◌≡◌};

use sm_resume::Cause;

/// What is at a line, one of the numbered places for connections.
#[derive(Clone, Copy, Debug, PartialEq, Eq)]
pub enum Line {
    /// No connection.
    Empty,
    /// A connection that has not logged in.
    Fresh { conn: u64 },
    /// A connection of the user at this place in the list of users (RFC 6120, 6).
    Logged { conn: u64, user: u32 },
    /// A connection that a session was bound on (RFC 6120, 7).
    Bound { conn: u64, session: u64 },
    /// A connection that has ended and was not closed yet.
    Over { conn: u64, cause: Cause },
}

impl Line {
    ghost use Rattle.session_table.specs.Tables.{conn_of};

    /// The number of its connection, 0 where there is none.
    pub(crate) fn conn(&self) -> u64
        ensures { result ≡ conn_of self.now }
    {
        match *self {
            Line::Empty => 0,
            Line::Fresh { conn } => conn,
            Line::Logged { conn, .. } => conn,
            Line::Bound { conn, .. } => conn,
            Line::Over { conn, .. } => conn,
        }
    }
}
