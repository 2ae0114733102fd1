//! Whether a session has ended.

use sm_resume::Cause;

/// Whether a session goes on. One that is over waits to be taken away.
#[derive(Clone, Copy, Debug, PartialEq, Eq)]
pub enum Life {
    Live,
    Over(Cause),
}
