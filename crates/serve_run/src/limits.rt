//! What the number of sessions decides.

ghost use Rattle.std.specs.Prelude.{◌≡◌, ◌≤◌};
ghost use Rattle.serve_run.specs.Limits.{limits, most_lines, most_list};

use house_model::Limits;

/// Up to so many sessions a list of accounts has the smaller limits.
const FEW_SESSIONS: u32 = 512;

/// How many accounts a list has at most, where there are few sessions.
const FEW_LINES: usize = 4_096;

/// And where there are more.
const MOST_LINES: usize = 65_536;

/// How many bytes a list has at most, where there are few sessions.
const SHORT_LIST: usize = 8_388_608;

/// And where there are more: 512 bytes for each line, which are enough for a name of 256.
const LONG_LIST: usize = 33_554_432;

/// How many accounts a list may have.
pub(crate) fn most_lines(sessions: u32) -> usize
    ensures lines { result ≡ most_lines sessions }
    ensures few { result ≤ 65536 }
{
    if sessions <= FEW_SESSIONS {
        FEW_LINES
    } else {
        MOST_LINES
    }
}

/// How many bytes a list may have.
pub(crate) fn most_list(sessions: u32) -> usize
    ensures { result ≡ most_list sessions }
{
    if sessions <= FEW_SESSIONS {
        SHORT_LIST
    } else {
        LONG_LIST
    }
}

/// So many sessions in all, and of one user as many as usual.
pub(crate) fn limits_of(sessions: u32) -> Limits
    ensures { result ≡ limits sessions }
{
    Limits {
        sessions,
        of_user: Limits::usual().of_user,
    }
}
