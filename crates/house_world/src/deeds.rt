//! What happens to a session that a line holds, and that leaves it there.
ghost use Rattle.std.specs.Prelude.{◌≡◌, ℕ, ◌+◌, ◌-◌, ◌^◌, ◌<◌, ◌≤◌, [], ◌∷◌, length, true, false, Some, Option};
ghost use Rattle.session_table.specs.Sessions.{SessionRecord};
ghost use Rattle.session_table.specs.Tables.{session_of};
ghost use Rattle.sm_counters.specs.Numbers.{count_of};
ghost use Rattle.sm_queue.specs.Queues.{acknowledged, counted_anew, without};
ghost use Rattle.stanza_model.specs.declared.stanza.Stanza.{Stanza};
ghost use Rattle.house_model.specs.Effects.{On};
ghost use Rattle.house_model.specs.Sessions.{Ack, Act, Enable, Pull, Request};
ghost use Rattle.house_world.specs.Wholes.{HasSpare, IsFew, IsSession, IsTied};
ghost use Rattle.house_world.specs.Worlds.{Counts, Did, Handles, HasNext, IsHeld, given_next};

use crate::world::World;
use session_table::Own;
use sm_counters::{Count, ahead};
use sm_resume::ResumeId;

/// How many counts there are: a count has 32 bits (XEP-0198, 4).
const COUNTS: u64 = 1 << 32;

/// How many of the waiting stanzas were given. Costs a few steps.
pub fn given(own: &Own) -> u32
    requires { own.now.queue.given ≤ length own.now.queue.waiting }
    ensures { result ≡ own.now.queue.given }
{
    let _ = own.queue.len();
    ahead(own.queue.kept(), own.queue.sent())
}

/// The count of the client's stanzas that were acted on. Costs a few steps.
pub fn inward(own: &Own) -> u32
    requires { own.now.base_in ≤ own.now.acted }
    ensures { result ≡ count_of (own.now.acted - own.now.base_in) }
{
    ((own.acted - own.base_in) % COUNTS) as u32
}

fn act(own: &mut Own)
    requires { own.old.acted < 2 ^ 64 - 1 }
    ensures { own.new ≡ record own.old { acted = own.old.acted + 1 } }
{
    own.acted += 1;
}

fn ask(own: &mut Own)
    requires given { own.old.queue.given ≤ length own.old.queue.waiting }
    requires small { own.old.given_up + own.old.queue.given < 2 ^ 64 }
    ensures { own.new ≡ record own.old { asked_at = own.old.given_up + own.old.queue.given } }
{
    own.asked_at = own.given_up + given(own) as u64;
}

/// Both counts begin.
fn begin(own: &mut Own, id: Option<ResumeId>)
    requires given { own.old.queue.given ≤ length own.old.queue.waiting }
    requires small { own.old.given_up + own.old.queue.given < 2 ^ 64 }
    ensures { own.new ≡ record own.old {
      given_up = own.old.given_up + own.old.queue.given;
      queue = counted_anew own.old.queue;
      asked_at = own.old.given_up + own.old.queue.given;
      base_in = own.old.acted;
      counts = true;
      resume_id = id;
    } }
{
    own.given_up += given(own) as u64;
    own.queue.begin_count();
    own.asked_at = own.given_up;
    own.base_in = own.acted;
    own.counts = true;
    own.resume_id = id;
}

// The first n stanzas that were given are done with.
fn handle(own: &mut Own, h: u32, n: u32)
    requires handled { acknowledged h own.old.queue ≡ Some n }
    requires within { n ≤ own.old.queue.given }
    requires small { own.old.given_up + own.old.queue.given < 2 ^ 64 }
    ensures { own.new ≡ record own.old { queue = without n own.old.queue; given_up = own.old.given_up + n } }
{
    match own.queue.ack(Count(h)) {
        Ok(()) => own.given_up += n as u64,
        Err(_) => {}
    }
}

// The next stanza was given; where the session doesn't count, it is done with.
fn mark(own: &mut Own)
    requires next { own.old.queue.given < length own.old.queue.waiting }
    requires small { own.old.given_up + own.old.queue.given + 1 < 2 ^ 64 }
    ensures { own.new ≡ given_next own.old.counts own.old }
{
    own.queue.mark_sent();
    if !own.counts {
        own.given_up += given(own) as u64;
        own.queue.forget_sent();
    }
}

impl World {
    /// A stanza of the session's client is acted on. Takes no memory.
    pub fn act(&mut self, s: u64)
        requires held { IsHeld s self.old.table }
        requires tied { IsTied self.old.table }
        requires small { IsFew (2 ^ 64 - 2) self.old.table }
        ensures did { (stanza : Stanza) → Did (On s (Act stanza) ∷ []) 1 self.old self.new }
        ensures book { self.new.book ≡ self.old.book }
        ensures rooms { self.new.rooms ≡ self.old.rooms }
        ensures archives { self.new.archives ≡ self.old.archives }
        ensures room { (n r : ℕ) → HasSpare n r self.old.table → HasSpare n r self.new.table }
    {
        if let Some(own) = self.table.own_mut(s) {
            act(own);
        }
    }

    /// The session's client is asked for its count. The session counts. Takes no memory.
    pub fn request(&mut self, s: u64)
        requires held { IsHeld s self.old.table }
        requires counts { Counts true s self.old.table }
        requires tied { IsTied self.old.table }
        requires small { IsFew (2 ^ 64 - 2) self.old.table }
        ensures { Did (On s Request ∷ []) 0 self.old self.new }
    {
        if let Some(own) = self.table.own_mut(s) {
            ask(own);
        }
    }

    /// Both counts of the session begin. It doesn't count yet. Takes no memory.
    pub fn enable(&mut self, s: u64, id: Option<ResumeId>)
        requires held { IsHeld s self.old.table }
        requires counts { Counts false s self.old.table }
        requires tied { IsTied self.old.table }
        requires small { IsFew (2 ^ 64 - 2) self.old.table }
        ensures did { Did (On s (Enable id) ∷ []) 0 self.old self.new }
        ensures answers { self.new.answers ≡ self.old.answers }
    {
        if let Some(own) = self.table.own_mut(s) {
            begin(own, id);
        }
    }

    /// The client handled so many more of what was given, which makes this count. The session counts. Costs their number.
    pub fn ack(&mut self, s: u64, h: u32, n: u32)
        requires held { IsHeld s self.old.table }
        requires counts { Counts true s self.old.table }
        requires tied { IsTied self.old.table }
        requires small { IsFew (2 ^ 64 - 2) self.old.table }
        requires handled { Handles h n s self.old.table }
        ensures { Did (On s (Ack h) ∷ []) 0 self.old self.new }
    {
        if let Some(own) = self.table.own_mut(s) {
            handle(own, h, n);
        }
    }

    /// The next entry of the session was given. There is one. Takes no memory.
    pub fn mark(&mut self, s: u64)
        requires held { IsHeld s self.old.table }
        requires next { HasNext s self.old.table }
        requires tied { IsTied self.old.table }
        requires small { IsFew (2 ^ 64 - 2) self.old.table }
        ensures { Did (On s Pull ∷ []) 1 self.old self.new }
    {
        if let Some(own) = self.table.own_mut(s) {
            mark(own);
        }
    }
}
