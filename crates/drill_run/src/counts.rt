//! What is counted of a drill.
ghost use Rattle.std.specs.Prelude.{◌≡◌, [], ℕ, List};
ghost use Rattle.house_model.specs.Histories.{made};
ghost use Rattle.replay_script.specs.Drills.{is_act};
ghost use Rattle.drill_run.specs.Courses.{HaveRoom, counts_of, with_turn};

use house_model::{Event, Reply};

/// How many stanzas were acted on, how many frames were given, and how many sessions were resumed.
#[derive(Clone, Copy, Debug)]
pub struct Counts {
    pub stanzas: u64,
    pub frames: u64,
    pub resumed: u64,
}

impl Counts {
    /// Before the first turn.
    pub(crate) fn new() -> Counts
        ensures { result ≡ counts_of [] }
    {
        Counts {
            stanzas: 0,
            frames: 0,
            resumed: 0,
        }
    }

    /// Counts a turn.
    pub(crate) fn add(&mut self, event: &Event, reply: &Reply)
        requires { HaveRoom self.old }
        ensures { (text : List ℕ) → self.new ≡ with_turn (made event.now reply.now text) self.old }
    {
        match reply {
            Reply::Done => {
                if is_act(event) {
                    self.stanzas += 1;
                }
            }
            Reply::Frame => self.frames += 1,
            Reply::Resumed => self.resumed += 1,
            _ => {}
        }
    }
}

/// Whether a client sends a stanza.
fn is_act(event: &Event) -> bool
    ensures { result ≡ is_act event.now }
{
    matches!(event, Event::Act { .. })
}
