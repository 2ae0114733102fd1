//! What a client that asks to resume is answered (XEP-0198, 5).

ghost use Rattle.std.specs.Prelude.{◌≡◌};
ghost use Rattle.std.specs.Option.{option_copied};
ghost use Rattle.sm_resume.specs.Resumption.{decision};

use crate::id::ResumeId;
use sm_counters::{Count, ahead, within};

/// Why a connection or a session ended.
#[derive(Clone, Copy, Debug, PartialEq, Eq)]
pub enum Cause {
    /// The session went on at the connection of this number.
    Moved(u64),
    /// The session of this number took the address.
    Replaced(u64),
    /// Too much waited to be sent. The places in the list of all entries of the session: of the first
    /// that was not acknowledged, and of its end.
    Overfull { kept: u64, queued: u64 },
    /// The client's count `h` was none of those from `kept` to `sent` (XEP-0198, 4).
    TooHigh { h: u32, kept: u32, sent: u32 },
    /// So many answers waited to be read.
    Flood(u32),
    /// The client closed its stream.
    Closed,
    /// The connection was lost.
    Lost,
}

/// What the server knows of the session that a resumption id names.
#[derive(Clone, Copy, Debug, PartialEq, Eq)]
pub struct Facts {
    /// The digits of its id.
    pub digits: [u8; 16],
    /// Whether the client that asks is the session's user.
    pub yours: bool,
    /// Whether the session has ended.
    pub ended: bool,
    /// The count of the entries that the client acknowledged.
    pub kept: Count,
    /// The count of the entries that were sent.
    pub sent: Count,
}

/// What a client that asks to resume is answered.
#[derive(Clone, Copy, Debug, PartialEq, Eq)]
pub enum Decision {
    /// The session goes on. Its count acknowledges so many entries after those that were kept.
    Take(u32),
    /// No session that can be resumed has this id.
    Unknown,
    /// It is another user's.
    NotYours,
    /// It has ended.
    Ended,
    /// The count is none of those from `kept` to `sent` (XEP-0198, 4).
    TooHigh { h: u32, kept: u32, sent: u32 },
}

/// Decides on a resumption by what is known of the session of the id's number, which is None where no
/// session that can be resumed has that number. The first that fits of Unknown, NotYours, Ended,
/// TooHigh and Take is the answer.
pub fn decide(id: &ResumeId, facts: Option<&Facts>, h: Count) -> Decision
    ensures { result ≡ decision id.now (option_copied facts.entry) h }
{
    let Some(facts) = facts else {
        return Decision::Unknown;
    };
    if facts.digits != id.digits {
        return Decision::Unknown;
    }
    if !facts.yours {
        return Decision::NotYours;
    }
    if facts.ended {
        return Decision::Ended;
    }
    match within(facts.kept, ahead(facts.kept, facts.sent), h) {
        Some(place) => Decision::Take(place),
        None => Decision::TooHigh {
            h: h.0,
            kept: facts.kept.0,
            sent: facts.sent.0,
        },
    }
}
