//! What led a flow to what it wants: laws of its calls. Each function's contract is a law, and its body is empty.

ghost use Rattle.std.specs.Prelude.{◌≡◌, ◌↔◌, List, Some};
ghost use Rattle.conn_asks.specs.declared.ended.Ended.{Ended};
ghost use Rattle.conn_asks.specs.declared.ended.Ended.TheVariants as ended;
ghost use Rattle.conn_flow.specs.declared.phase.Phase.TheVariants as phase;
ghost use Rattle.conn_flow.specs.Flows.{State};
ghost use Rattle.conn_flow.specs.Reasons.{end_at};
ghost use Rattle.conn_flow.specs.Calls.{Call, Does, IsFresh, IsMade, Led, Rests, Stays};

/// An end stands only where one of the calls on a flow made it, and then stays: `Hung` where the link was at its end, `Over` where a reply told of
/// it, `NoMemory` where memory was wanting, and never a fault of the link or of the dice, or want of turns.
pub fn each_end_was_made()
    ensures made { (a s : State) (calls : List Call) (x : Ended) → IsFresh a → Led a calls s → end_at s.talk.phase ≡ Some x → IsMade calls x }
    ensures stays { (a s : State) (calls : List Call) (x : Ended) → end_at a.talk.phase ≡ Some x → Led a calls s → Stays x s }
    ensures hung { (a s : State) (calls : List Call) → Led a calls s → IsMade calls ended.Hung → end_at s.talk.phase ≡ Some ended.Hung }
{}

/// Nothing is left to be done exactly after some wants, or after a reply that leaves nothing, or after a sweep that found no memory.
pub fn a_flow_rests_after_its_last_reply()
    ensures { (s s' : State) (call : Call) → Does s call s' → (s'.talk.phase ≡ phase.Resting) ↔ Rests s call s' }
{}
