//! A flow goes by what is due: each of its calls, and what answers each of its wants, is the next move.

ghost use Rattle.std.specs.Prelude.{◌≡◌, ◌≢◌, ℕ, List, [], ◌∷◌, ◌++◌, length, false, true, Some};
ghost use Rattle.stream_grammar.specs.declared.item.Item.{Item};
ghost use Rattle.house_model.specs.Histories.{MayBeShort, Meets, line_of, made, short};
ghost use Rattle.house_model.specs.declared.event.Event.{Event};
ghost use Rattle.house_model.specs.declared.event.Event.TheVariants as event;
ghost use Rattle.house_model.specs.declared.reply.Reply.{Reply};
ghost use Rattle.conn_asks.specs.declared.ended.Ended.{Ended};
ghost use Rattle.conn_flow.specs.declared.phase.Phase.TheVariants as phase;
ghost use Rattle.conn_flow.specs.Streams.{cut};
ghost use Rattle.conn_flow.specs.Moves.{Hears, Waits, Hangs, Takes, Says, Enters, Draws};
ghost use Rattle.conn_flow.specs.Duties.{Leaves, Site};
ghost use Rattle.conn_flow.specs.Following.{GoesOn, GoesThrough, draws_next, enters_next, goes_on, opening};
ghost use Rattle.conn_flow.specs.Flows.{IsGoing, Prepares, State, is_late, ToAwait, ToDraw, ToFinish, ToSay, ToSubmit, wish_of};
ghost use Rattle.flow_laws.specs.Items.{IsOfGrammar};
ghost use Rattle.flow_laws.specs.Standing.{IsServed, Place, duty};
ghost use Rattle.flow_laws.specs.Steps.{Comes, ends_at, enters_at, gives_at, hangs_at, hears_at, lates_at, says_at, shorts_at, start, waits_at};

/// A connection opens, and its first stream gets an id of sixteen random bytes; then the flow that was made of them waits for bytes.
pub fn a_flow_begins_as_a_connection_opens()
    ensures through { (o : Site) (t : ℕ) (r : Reply) (dice : List ℕ) → length dice ≡ 16
        → GoesThrough o (opening o t) (Enters (made (event.OpenLine o.line) r []) ∷ Draws dice ∷ []) (duty o (start o dice t)) }
    ensures served { (o : Site) (t : ℕ) (dice : List ℕ) → IsServed o (start o dice t) }
{}

/// Where a flow waits and all that was said was sent: bytes that come are heard, or come too late for a login; nothing comes; or the link is at
/// its end. What was read before is heard on at the same moment.
pub fn what_is_read_may_follow()
    ensures hears { (o : Site) (p : Place) (t : ℕ) (bytes : List ℕ) → IsServed o p → p.flow.talk.phase ≡ phase.Resting → p.ahead ≡ [] → p.owed ≡ []
        → bytes ≢ [] → is_late p.flow.talk t ≡ false
        → GoesOn o (duty o p) (Hears bytes t) (duty o (hears_at p t bytes)) × IsServed o (hears_at p t bytes) }
    ensures lates { (o : Site) (p : Place) (t : ℕ) (bytes : List ℕ) → IsServed o p → p.flow.talk.phase ≡ phase.Resting → p.ahead ≡ [] → p.owed ≡ []
        → bytes ≢ [] → is_late p.flow.talk t ≡ true → GoesOn o (duty o p) (Hears bytes t) (duty o (lates_at p t)) × IsServed o (lates_at p t) }
    ensures goes_on { (o : Site) (p : Place) → IsServed o p → p.flow.talk.phase ≡ phase.Resting → p.ahead ≢ []
        → (duty o (hears_at p p.flow.talk.moment p.ahead) ≡ duty o p) × IsServed o (hears_at p p.flow.talk.moment p.ahead) }
    ensures waits { (o : Site) (p : Place) (t : ℕ) → IsServed o p → p.flow.talk.phase ≡ phase.Resting → p.ahead ≡ [] → p.owed ≡ []
        → GoesOn o (duty o p) (Waits t) (duty o (waits_at p t)) × IsServed o (waits_at p t) }
    ensures hangs { (o : Site) (p : Place) (t : ℕ) → IsServed o p → p.flow.talk.phase ≡ phase.Resting → p.ahead ≡ [] → p.owed ≡ []
        → GoesOn o (duty o p) (Hangs t) (duty o (hangs_at p t)) × IsServed o (hangs_at p t) }
{}

/// What a flow handles before it wants something is the first item that ends in what was read, or what random bytes were drawn for. However
/// the bytes were cut, it is the item of the stream.
pub fn what_is_handled_was_due()
    ensures { (o : Site) (p : Place) (s : State) → IsServed o p → Prepares o.accounts p.flow p.flow.talk.phase s → Comes o p s }
{}

/// The item that a connection handles next is the first that ends in the bytes heard since its stream began: the item of the grammar that ends
/// there, or the first fault of those bytes. What is left is heard for the items after it.
pub fn items_are_of_the_grammar()
    ensures item { (stream bytes : List ℕ) (i : Item) → (cut stream bytes).item ≡ Some i → IsOfGrammar (cut stream bytes).stream i }
    ensures bytes { (stream bytes : List ℕ) → (cut stream bytes).stream ++ (cut stream bytes).rest ≡ stream ++ bytes }
{}

/// A flow waits for more only where all that it heard was handled.
pub fn a_flow_that_waits_has_handled_all()
    ensures { (o : Site) (p : Place) (s : State) → IsServed o p → Prepares o.accounts p.flow p.flow.talk.phase s → wish_of s ≡ ToAwait
        → s.talk.phase ≡ phase.Resting }
{}

/// What a flow would say is due; it is sent after what is owed.
pub fn what_is_said_was_due()
    ensures { (o : Site) (p : Place) (text : List ℕ) → IsServed o p → wish_of p.flow ≡ ToSay text
        → GoesOn o (duty o p) (Says text) (duty o (says_at p text)) × IsServed o (says_at p text) }
{}

/// What a flow submits is due, is of its line and meets the conditions of the house, whatever that answers.
pub fn what_is_submitted_was_due()
    ensures enters { (o : Site) (p : Place) (e : Event) (r : Reply) (text : List ℕ) → IsServed o p → wish_of p.flow ≡ ToSubmit e
        → GoesOn o (duty o p) (Enters (made e r text)) (duty o (enters_at p r text)) × IsServed o (enters_at p r text) }
    ensures shorts { (o : Site) (p : Place) (e : Event) → IsServed o p → MayBeShort e → wish_of p.flow ≡ ToSubmit e
        → GoesOn o (duty o p) (Enters (short e)) (duty o (shorts_at p)) × IsServed o (shorts_at p) }
    ensures meets { (o : Site) (p : Place) (e : Event) → IsServed o p → wish_of p.flow ≡ ToSubmit e → Meets e }
    ensures line { (o : Site) (p : Place) (e : Event) → IsServed o p → wish_of p.flow ≡ ToSubmit e → line_of e ≡ o.line }
    ensures next { (o : Site) (p : Place) (e : Event) → IsServed o p → wish_of p.flow ≡ ToSubmit e → enters_next (duty o p).due ≡ true }
{}

/// The random bytes that a flow needs are due.
pub fn what_is_drawn_was_due()
    ensures draws { (o : Site) (p : Place) (dice : List ℕ) → IsServed o p → length dice ≡ 18 → wish_of p.flow ≡ ToDraw
        → GoesOn o (duty o p) (Draws dice) (duty o (gives_at p dice)) × IsServed o (gives_at p dice) }
    ensures next { (o : Site) (p : Place) → IsServed o p → wish_of p.flow ≡ ToDraw → draws_next (duty o p).due ≡ true }
{}

/// A flow ends where leaving is due, and stays so; it goes on where it wants anything else. Where memory may be wanting for what it wants next,
/// the connection goes on.
pub fn an_end_was_due()
    ensures ends { (o : Site) (p : Place) (x : Ended) → IsServed o p → wish_of p.flow ≡ ToFinish x → (duty o p).due ≡ Leaves x ∷ [] }
    ensures over { (o : Site) (p : Place) (x : Ended) → IsServed o p → wish_of p.flow ≡ ToFinish x
        → (duty o (ends_at p) ≡ duty o p) × IsServed o (ends_at p) × (wish_of (ends_at p).flow ≡ ToFinish x) }
    ensures going { (o : Site) (p : Place) → ((x : Ended) → wish_of p.flow ≡ ToFinish x → ⊥) → IsGoing p.flow.talk p.flow.talk.phase }
    ensures goes_on { (o : Site) (p : Place) → IsServed o p → IsGoing p.flow.talk p.flow.talk.phase → goes_on (duty o p).due ≡ true }
{}
