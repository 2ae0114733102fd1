//! How many connections are served at once, by the number of sessions.

ghost use Rattle.std.specs.Prelude.{◌≡◌, ◌<◌, ◌≤◌, IfOk, string_bytes};
ghost use Rattle.serve_words.specs.Limits.{most_links, most_places, usual_links, usual_places};
ghost use Rattle.serve_words.specs.Options.{links_by};

use crate::number::number;
use crate::option::{Name, default};
use std::alloc::{AllocError, Global};

/// How many workers there may be: each has a thread.
pub(crate) const MOST_WORKERS: u64 = 64;

/// How many sessions there may be.
pub(crate) const MOST_SESSIONS: u64 = 16_384;

/// Up to so many sessions the number of connections has the smaller limits.
const FEW_SESSIONS: u64 = 512;

/// How many connections a worker may serve at once, where there are few sessions.
const FEW_LINKS: u64 = 256;

/// How many all workers may serve at once, where there are few sessions.
const FEW_PLACES: u64 = 1_024;

/// How many connections may be served at once where there are more, by one worker and by all.
const MOST_PLACES: u64 = 16_384;

/// How many connections a worker may serve at once.
pub(crate) fn most_links(sessions: u64) -> u64
    ensures links { result ≡ most_links sessions }
    ensures few { result ≤ 16384 }
{
    if sessions <= FEW_SESSIONS {
        FEW_LINKS
    } else {
        MOST_PLACES
    }
}

/// How many all workers may serve at once.
pub(crate) fn most_places(sessions: u64) -> u64
    ensures places { result ≡ most_places sessions }
    ensures few { result ≤ 16384 }
{
    if sessions <= FEW_SESSIONS {
        FEW_PLACES
    } else {
        MOST_PLACES
    }
}

/// How many all workers serve at once where that isn't said.
fn usual_places(sessions: u64) -> u64
    requires { sessions ≤ 16384 }
    ensures { result ≡ usual_places sessions }
{
    if sessions <= FEW_SESSIONS {
        FEW_PLACES
    } else {
        (2 * sessions).min(MOST_PLACES)
    }
}

/// And how many a worker.
fn usual_links(sessions: u64, workers: u64) -> u64
    requires few { sessions ≤ 16384 }
    requires some { 0 < workers }
    ensures { result ≡ usual_links sessions workers }
{
    most_links(sessions).min(usual_places(sessions) / workers)
}

/// What stands for `--links` beside these texts for the workers and the sessions.
pub(crate) fn links_by(alloc: Global, workers: &str, sessions: &str) -> Result<String, AllocError>
    ensures { IfOk result (λ text. string_bytes text ≡ links_by workers.now sessions.now) }
{
    let Some(workers) = number(workers, 1, MOST_WORKERS) else {
        return String::from_str(alloc, default(Name::Links));
    };
    let Some(sessions) = number(sessions, 1, MOST_SESSIONS) else {
        return String::from_str(alloc, default(Name::Links));
    };
    format!(in alloc; "{}", usual_links(sessions, workers))
}
