//! What can happen to the house. `w` is the place for a connection, `t` the moment in milliseconds since 1970.
ghost use Rattle.std.specs.Prelude.{◌≡◌};
ghost use Rattle.house_model.specs.Histories.{line_of};

use jid_core::Part;
use sm_resume::ResumeId;
use stanza_model::Stanza;
use stanza_tree::Text;

/// One event. Each names the line at which it happens.
#[derive(Drop)]
pub enum Event {
    /// A connection came.
    OpenLine {
        w: u32,
    },
    /// The connection proved that it is this user's.
    Login {
        w: u32,
        user: Part,
    },
    /// The connection asks for a session (RFC 6120, section 7). Without a resource the dice make one.
    Bind {
        w: u32,
        id: Text,
        resource: Option<Part>,
        t: u64,
        dice: [u8; 16],
    },
    /// The connection asks that its stanzas be counted, and whether its session can be resumed (XEP-0198, 3).
    Enable {
        w: u32,
        resume: bool,
        dice: [u8; 16],
    },
    /// The connection asks for the session of this id, of which it handled `h` stanzas (XEP-0198, 5). None for an id that is none.
    Resume {
        w: u32,
        id: Option<ResumeId>,
        h: u32,
        t: u64,
    },
    /// The connection sends a stanza.
    Act {
        w: u32,
        stanza: Stanza,
        t: u64,
    },
    /// The connection says how many stanzas it handled (XEP-0198, 4).
    Ack {
        w: u32,
        h: u32,
    },
    /// The connection asks how many stanzas the server handled (XEP-0198, 4).
    Ask {
        w: u32,
    },
    /// The connection can take a frame.
    Pull {
        w: u32,
        t: u64,
    },
    /// The connection was lost.
    DropLine {
        w: u32,
        t: u64,
    },
    /// The client closed its stream (RFC 6120, 4.4).
    CloseLine {
        w: u32,
        t: u64,
    },
    /// A session that is over or past its deadline is taken away.
    Sweep {
        w: u32,
        t: u64,
    },
}

impl Event {
    /// The line at which the event happens.
    pub fn line(&self) -> u32
        ensures { result ≡ line_of self.now }
    {
        match self {
            Event::OpenLine { w } => *w,
            Event::Login { w, .. } => *w,
            Event::Bind { w, .. } => *w,
            Event::Enable { w, .. } => *w,
            Event::Resume { w, .. } => *w,
            Event::Act { w, .. } => *w,
            Event::Ack { w, .. } => *w,
            Event::Ask { w } => *w,
            Event::Pull { w, .. } => *w,
            Event::DropLine { w, .. } => *w,
            Event::CloseLine { w, .. } => *w,
            Event::Sweep { w, .. } => *w,
        }
    }
}
