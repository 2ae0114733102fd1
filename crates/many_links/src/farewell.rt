//! What is told of a connection that ended.

use conn_asks::Ended;
use jid_core::Part;
use sm_resume::Cause;
use std::alloc::{AllocError, Global};

/// A line of text on how a connection ended: nothing where it isn't to be told, and where there was no memory for it.
#[derive(Drop)]
pub(crate) struct Farewell {
    alloc: Global,
    is_quiet: bool,
    text: String,
}

impl Farewell {
    /// Nothing yet. Takes no memory.
    pub(crate) fn new(alloc: Global, is_quiet: bool) -> Farewell {
        Farewell {
            alloc,
            is_quiet,
            text: String::new(alloc),
        }
    }

    pub(crate) fn text(&self) -> &str {
        self.text.as_str()
    }

    /// The connection of a line ended so, on which this user had logged in.
    pub(crate) fn write(&mut self, line: u32, user: Option<&Part>, ended: Ended) {
        self.text.clear();
        if self.is_quiet {
            return;
        }
        if let Ok(text) = told(self.alloc, line, user, ended) {
            self.text = text;
        }
    }
}

/// How a connection ended, as a line with its line feed: its number in the house, who was logged in there, and why in words. One on which nobody logged in
/// says so.
fn told(alloc: Global, line: u32, user: Option<&Part>, ended: Ended) -> Result<String, AllocError> {
    let reason = reason_of(ended);
    match user {
        Some(user) => {
            let name = str::from_utf8(user.bytes()).unwrap_or("");
            format!(in alloc; "xmppd: line {line}: {name}: {reason}\n")
        }
        None => format!(in alloc; "xmppd: line {line}: never logged in: {reason}\n"),
    }
}

fn reason_of(ended: Ended) -> &'static str {
    match ended {
        Ended::Closed => "the client closed its stream",
        Ended::Hung => "the client hung up",
        Ended::LinkFault => "the link failed",
        Ended::DiceFault => "no random bytes were to be had",
        Ended::Broken(_, _) => "the stream was broken",
        Ended::BadHeader(_) => "the stream's header was refused",
        Ended::BadItem(_, _) => "an element was refused",
        Ended::ThirdFailure => "three logins failed",
        Ended::Idle(_) => "nothing was heard for too long",
        Ended::Over(cause) => cause_of(cause),
        Ended::Spent => "the house takes no more turns",
        Ended::NoMemory => "there was no memory",
    }
}

fn cause_of(cause: Cause) -> &'static str {
    match cause {
        Cause::Moved(_) => "the session went on at another connection",
        Cause::Replaced(_) => "another session took the address",
        Cause::Overfull { kept: _, queued: _ } => "too much waited to be sent",
        Cause::TooHigh {
            h: _,
            kept: _,
            sent: _,
        } => "the client's count was too high",
        Cause::Flood(_) => "too many answers waited to be read",
        Cause::Closed => "the session was closed",
        Cause::Lost => "the session was lost",
    }
}
