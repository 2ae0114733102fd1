//! What serves events: a hall, or whatever stands on one.
ghost use Rattle.std.specs.Prelude.{◌≡◌, ◌≤◌, ◌+◌, ◌++◌, [], ℕ, List, Bool, vec_len, vec_capacity};
ghost use Rattle.std.specs.Option.{option_copied};
ghost use Rattle.house_model.specs.States.{State};
ghost use Rattle.house_model.specs.declared.event.Event.{Event};
ghost use Rattle.house_model.specs.Histories.{IdFits, IsOpening, StanzaFits, Turn};
ghost use Rattle.turn_lock.specs.Histories.{StartsWith};

use house_model::{Reply, Stanza};
use jid_core::{Jid, Part};
use sm_resume::ResumeId;
use stanza_tree::Text;
use std::sync::Wait;

/// Why a call has no reply.
#[derive(Clone, Copy, Debug, PartialEq, Eq)]
pub enum DeskFault {
    /// Memory was wanting. The turn is counted, and nothing else happened.
    NoMemory,
    /// No turn is left.
    Spent,
}

/// A house that many serve, each with a pass. What a pass has seen is a list of turns, which is legal after those that the
/// house had when the desk was made.
pub trait Desk {
    type Pass;

    ghost use Rattle.hall.specs.Desks.{Served, marked_by};
    ghost use Rattle.hall.specs.Stories.{IsLegal};

    /// The state of the house before its first event.
    ghost opening: { Self → State };

    /// The turns that the house had when the desk was made.
    ghost earlier: { Self → List Turn };

    /// The number of a pass, which is the line of its calls.
    ghost line: { Self.Pass → ℕ };

    /// The turns since then that a pass has seen.
    ghost seen: { Self.Pass → List Turn };

    /// A turn was refused to the pass, since none was left.
    ghost marked: { Self.Pass → Bool };

    /// The pass came from this desk, and no call is made with it.
    ghost came_from: { Self → Self.Pass → Type 0 };

    /// The domain that the house serves.
    fn domain(&self) -> &Jid
        ensures { result.now ≡ (opening self.now).head.domain };

    fn number(pass: &Self::Pass) -> u32
        ensures { result ≡ line pass.now };

    /// A connection came to the line. What is there is left.
    fn open_line<W: Wait>(&self, rt: &W, pass: &mut Self::Pass) -> Result<Reply, DeskFault>
        requires pass { came_from self.now pass.old }
        ensures pass { came_from self.now pass.new }
        ensures line { line pass.new ≡ line pass.old }
        ensures history { StartsWith (seen pass.new) (seen pass.old) }
        ensures served { Served (line pass.old) (Event.OpenLine (line pass.old)) [] result (seen pass.old) (seen pass.new) }
        ensures mark { marked pass.new ≡ marked_by result (marked pass.old) };

    /// The connection proved that it is this user's.
    fn login<W: Wait>(&self, rt: &W, pass: &mut Self::Pass, user: &Part) -> Result<Reply, DeskFault>
        requires pass { came_from self.now pass.old }
        ensures pass { came_from self.now pass.new }
        ensures line { line pass.new ≡ line pass.old }
        ensures history { StartsWith (seen pass.new) (seen pass.old) }
        ensures served { Served (line pass.old) (Event.Login (line pass.old) user.now) [] result (seen pass.old) (seen pass.new) }
        ensures mark { marked pass.new ≡ marked_by result (marked pass.old) };

    /// The connection asks for a session (RFC 6120, section 7).
    fn bind<W: Wait>(
        &self,
        rt: &W,
        pass: &mut Self::Pass,
        id: &Text,
        resource: Option<&Part>,
        t: u64,
        dice: [u8; 16],
    ) -> Result<Reply, DeskFault>
        requires pass { came_from self.now pass.old }
        requires id { IdFits id.now }
        ensures pass { came_from self.now pass.new }
        ensures line { line pass.new ≡ line pass.old }
        ensures history { StartsWith (seen pass.new) (seen pass.old) }
        ensures served { Served (line pass.old) (Event.Bind (line pass.old) id.now (option_copied resource.entry) t dice) [] result (seen pass.old)
            (seen pass.new) }
        ensures mark { marked pass.new ≡ marked_by result (marked pass.old) };

    /// The connection asks that its stanzas be counted (XEP-0198, 3).
    fn enable<W: Wait>(
        &self,
        rt: &W,
        pass: &mut Self::Pass,
        resume: bool,
        dice: [u8; 16],
    ) -> Result<Reply, DeskFault>
        requires pass { came_from self.now pass.old }
        ensures pass { came_from self.now pass.new }
        ensures line { line pass.new ≡ line pass.old }
        ensures history { StartsWith (seen pass.new) (seen pass.old) }
        ensures served { Served (line pass.old) (Event.Enable (line pass.old) resume dice) [] result (seen pass.old) (seen pass.new) }
        ensures mark { marked pass.new ≡ marked_by result (marked pass.old) };

    /// The connection asks for the session of this id, of which it handled `h` stanzas (XEP-0198, 5).
    fn resume<W: Wait>(
        &self,
        rt: &W,
        pass: &mut Self::Pass,
        id: Option<&ResumeId>,
        h: u32,
        t: u64,
    ) -> Result<Reply, DeskFault>
        requires pass { came_from self.now pass.old }
        ensures pass { came_from self.now pass.new }
        ensures line { line pass.new ≡ line pass.old }
        ensures history { StartsWith (seen pass.new) (seen pass.old) }
        ensures served { Served (line pass.old) (Event.Resume (line pass.old) (option_copied id.entry) h t) [] result (seen pass.old) (seen pass.new) }
        ensures mark { marked pass.new ≡ marked_by result (marked pass.old) };

    /// The connection sends a stanza.
    fn act<W: Wait>(
        &self,
        rt: &W,
        pass: &mut Self::Pass,
        stanza: &Stanza,
        t: u64,
    ) -> Result<Reply, DeskFault>
        requires pass { came_from self.now pass.old }
        requires fits { StanzaFits stanza.now }
        ensures pass { came_from self.now pass.new }
        ensures line { line pass.new ≡ line pass.old }
        ensures history { StartsWith (seen pass.new) (seen pass.old) }
        ensures served { Served (line pass.old) (Event.Act (line pass.old) stanza.now t) [] result (seen pass.old) (seen pass.new) }
        ensures mark { marked pass.new ≡ marked_by result (marked pass.old) };

    /// The client says how many stanzas it handled (XEP-0198, 4).
    fn ack<W: Wait>(&self, rt: &W, pass: &mut Self::Pass, h: u32) -> Result<Reply, DeskFault>
        requires pass { came_from self.now pass.old }
        ensures pass { came_from self.now pass.new }
        ensures line { line pass.new ≡ line pass.old }
        ensures history { StartsWith (seen pass.new) (seen pass.old) }
        ensures served { Served (line pass.old) (Event.Ack (line pass.old) h) [] result (seen pass.old) (seen pass.new) }
        ensures mark { marked pass.new ≡ marked_by result (marked pass.old) };

    /// The client asks how many of its stanzas were handled (XEP-0198, 4).
    fn ask<W: Wait>(&self, rt: &W, pass: &mut Self::Pass) -> Result<Reply, DeskFault>
        requires pass { came_from self.now pass.old }
        ensures pass { came_from self.now pass.new }
        ensures line { line pass.new ≡ line pass.old }
        ensures history { StartsWith (seen pass.new) (seen pass.old) }
        ensures served { Served (line pass.old) (Event.Ask (line pass.old)) [] result (seen pass.old) (seen pass.new) }
        ensures mark { marked pass.new ≡ marked_by result (marked pass.old) };

    /// The connection takes its next frame, which is appended.
    fn pull<W: Wait>(
        &self,
        rt: &W,
        pass: &mut Self::Pass,
        t: u64,
        out: &mut Vec<u8>,
    ) -> Result<Reply, DeskFault>
        requires pass { came_from self.now pass.old }
        requires room { vec_len out.old + 524288 ≤ vec_capacity out.old }
        ensures pass { came_from self.now pass.new }
        ensures line { line pass.new ≡ line pass.old }
        ensures history { StartsWith (seen pass.new) (seen pass.old) }
        ensures served { (text : List ℕ) × (out.new.items ≡ out.old.items ++ text)
            × Served (line pass.old) (Event.Pull (line pass.old) t) text result (seen pass.old) (seen pass.new) }
        ensures capacity { vec_capacity out.old ≤ vec_capacity out.new }
        ensures mark { marked pass.new ≡ marked_by result (marked pass.old) };

    /// The connection was lost.
    fn drop_line<W: Wait>(&self, rt: &W, pass: &mut Self::Pass, t: u64) -> Result<Reply, DeskFault>
        requires pass { came_from self.now pass.old }
        ensures pass { came_from self.now pass.new }
        ensures line { line pass.new ≡ line pass.old }
        ensures history { StartsWith (seen pass.new) (seen pass.old) }
        ensures served { Served (line pass.old) (Event.DropLine (line pass.old) t) [] result (seen pass.old) (seen pass.new) }
        ensures mark { marked pass.new ≡ marked_by result (marked pass.old) };

    /// The client closed its stream (RFC 6120, 4.4).
    fn close_line<W: Wait>(&self, rt: &W, pass: &mut Self::Pass, t: u64) -> Result<Reply, DeskFault>
        requires pass { came_from self.now pass.old }
        ensures pass { came_from self.now pass.new }
        ensures line { line pass.new ≡ line pass.old }
        ensures history { StartsWith (seen pass.new) (seen pass.old) }
        ensures served { Served (line pass.old) (Event.CloseLine (line pass.old) t) [] result (seen pass.old) (seen pass.new) }
        ensures mark { marked pass.new ≡ marked_by result (marked pass.old) };

    /// The session of least number that is over or past its deadline is taken away.
    fn sweep<W: Wait>(&self, rt: &W, pass: &mut Self::Pass, t: u64) -> Result<Reply, DeskFault>
        requires pass { came_from self.now pass.old }
        ensures pass { came_from self.now pass.new }
        ensures line { line pass.new ≡ line pass.old }
        ensures history { StartsWith (seen pass.new) (seen pass.old) }
        ensures served { Served (line pass.old) (Event.Sweep (line pass.old) t) [] result (seen pass.old) (seen pass.new) }
        ensures mark { marked pass.new ≡ marked_by result (marked pass.old) };

    /// A line that may have something to pull, because of an event of another line, and of which that was not told since. Nothing is promised
    /// of it.
    fn next_stirred(&self) -> Option<u32>;

    /// The desk's house was opened.
    ghost opens: { (desk : Self) → IsOpening (opening desk) };

    /// What a pass of this desk has seen is legal.
    ghost legal: { (desk : Self) (pass : Self.Pass) → came_from desk pass → IsLegal (opening desk) (earlier desk ++ seen pass) };
}
