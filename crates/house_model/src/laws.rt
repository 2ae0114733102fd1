//! What holds of every history of a house, whatever code keeps it: each function's contract is a law, and its body is
//! empty.
ghost use Rattle.std.specs.Prelude.{◌≡◌, ℕ, ◌-◌, ◌^◌, ◌<◌, ◌≤◌, List, [], ◌∷◌, ◌++◌, length, slice_get, Some, IfSome, Bool, true};
ghost use Rattle.stanza_tree.specs.Entries.{frame};
ghost use Rattle.stanza_tree.specs.Spelling.{text};
ghost use Rattle.stanza_tree.specs.declared.frame.Entry.{Entry};
ghost use Rattle.stanza_tree.specs.declared.node.Element.{Element};
ghost use Rattle.jid_core.specs.Addresses.{Address};
ghost use Rattle.stanza_model.specs.Stanzas.{to_in};
ghost use Rattle.stanza_model.specs.declared.condition.Condition.{Condition};
ghost use Rattle.stanza_model.specs.declared.kinds.Kind.{Kind};
ghost use Rattle.stanza_model.specs.declared.stanza.Stanza.{Stanza};
ghost use Rattle.sm_resume.specs.declared.decision.Cause.{Cause};
ghost use Rattle.session_table.specs.declared.line.Line.TheVariants.{Bound};
ghost use Rattle.roster_laws.specs.Keeping.{AreKept};
ghost use Rattle.muc_service.specs.Casting.{cast};
ghost use Rattle.house_model.specs.declared.event.Event.{Event};
ghost use Rattle.house_model.specs.declared.event.Event.TheVariants as event;
ghost use Rattle.house_model.specs.Traffic.{KeptTraffic, Traffic, whole, brief};
ghost use Rattle.house_model.specs.States.{World, State, Kept, keep, keep_world};
ghost use Rattle.house_model.specs.Effects.{Effect, On, apply, apply_all};
ghost use Rattle.house_model.specs.Sessions.{Act, End};
ghost use Rattle.house_model.specs.Casts.{AllSuit, addresses_in};
ghost use Rattle.house_model.specs.RoomFits.{AreOf};
ghost use Rattle.house_model.specs.Archiving.{AddsFew, AreArchives, HaveFewRows, KeepsNothing, KeepsWhatIsSaid, keeps_from};
ghost use Rattle.house_model.specs.Routing.{Scene, departure, effects, effects_in, scene_of};
ghost use Rattle.house_model.specs.Fitting.{AreSmall, AllFit, AreNumbered, AreShortAddresses, AreShortArchives, AreShortRooms};
ghost use Rattle.house_model.specs.Fitting.{IsInHouse, IsShortAddress, IsShortScene};
ghost use Rattle.house_model.specs.Names.{AreShortThroughout, HasShortNames, NamesFit};
ghost use Rattle.house_model.specs.Steps.{verdict, turn};
ghost use Rattle.house_model.specs.Histories.{Turn, step, kept_step, StanzaFits, GivesNoText, after, kept_next_by};
ghost use Rattle.house_model.specs.Histories.{openings, Allowed, Legal, IsOpening, StandsFor};
ghost use Rattle.house_model.specs.Sound.{Sound, Back, Fits};
ghost use Rattle.house_model.specs.Bridge.{core_of, ops_of, alone_of};
ghost use Rattle.house_model.specs.Lines.{lines, carried, arrivals, acted, asks};
ghost use Rattle.house_model.specs.Accounts.{IsAccountOf, handled};
ghost use Rattle.house_model.specs.Closings.{Closings};
ghost use Rattle.house_model.specs.Endings.{Endings};
ghost use Rattle.house_model.specs.Promises.{session_in, counted, Resumption, Safe};
ghost use Rattle.house_model.specs.Stays.{Gapless, IsWithin, logs_of};
ghost use Rattle.house_model.specs.Paging.{PagesTellAll};
ghost use Rattle.house_model.specs.Queueing.{queued_for};
ghost use Rattle.house_model.specs.Deliveries.{Deliveries};
ghost use Rattle.house_model.specs.Uncounted.{FramesAreTheQueue};
ghost use Rattle.house_model.specs.Story.{small_house, faulty, whole_story, her_account};
ghost use Rattle.sm_account.specs.Prefixes.{IsPrefixOf};
ghost use Rattle.sm_account.specs.Sessions as alone;
ghost use Rattle.sm_account.specs.Connections.{connections};
ghost use Rattle.sm_account.specs.Accounts.{Account, IsAccount};
ghost use Rattle.sm_account.specs.Logs.{AllAre, AreDistinct, latest_first, numbers};

/// What the code keeps is enough to go on: it follows by itself what any list of effects does, and what one event does, with
/// its reply and the text of its frame. Where it stands for a history, it then stands for that history and one turn more.
pub fn kept_is_enough()
    ensures effects { (world : World Traffic) (es : List Effect) → Sound world
        → keep_world (apply_all whole world es) ≡ apply_all brief (keep_world world) es }
    ensures step { (st : State) (e : Event) → Sound st.world → keep (step st e).state ≡ (kept_step (keep st) e).state }
    ensures reply { (st : State) (e : Event) → (step st e).reply ≡ (kept_step (keep st) e).reply }
    ensures text { (st : State) (e : Event) → (step st e).text ≡ (kept_step (keep st) e).text }
    ensures history { (o : State) (h : List Turn) (k : Kept) (x : Turn) → StandsFor o h k → Allowed (after o h) x
        → StandsFor o (h ++ x ∷ []) (kept_next_by k x.event x.outcome) }
{}

/// After any history a bound line holds its session, and a session that a line holds is bound there; sessions to come are
/// unmade, and the places of each session's traffic are in order. What each event does fits the lines that it writes.
pub fn always_sound()
    ensures sound { (o : State) (h : List Turn) → IsOpening o → Sound (after o h).world }
    ensures back { (o : State) (h : List Turn) → IsOpening o → Back (after o h).world }
    ensures fits { (o : State) (h : List Turn) (e : Event) → IsOpening o
        → Fits (after o h).world (verdict (keep (turn e (after o h))) e).effects }
{}

/// The house has counted as many events as there were, and as many connections as came. How many lines there are never
/// changes.
pub fn numbers_are_the_history()
    ensures turns { (o : State) (h : List Turn) → IsOpening o → (after o h).head.turns ≡ length h }
    ensures opened { (o : State) (h : List Turn) → IsOpening o → Legal o h → (after o h).world.opened ≡ openings h }
    ensures workers { (o : State) (h : List Turn) → (after o h).head.workers ≡ o.head.workers }
{}

/// No event but a Pull gives the text of a frame.
pub fn pulls_alone_give_texts()
    ensures { (st : State) (e : Event) → GivesNoText e → (step st e).text ≡ [] }
{}

/// What comes of a stanza that a stream can bring, and of a departure, has at most 524,288 bytes as frames, each, and so has each view that
/// is queued of what a room broadcasts; a presence that is kept has 16,384, and a message that is kept 300,000, where addresses have at most
/// 3,071, presences that were kept 16,384, what is kept of the rooms and of messages is short, and the numbers of rows have 64 bits.
pub fn effects_are_small()
    ensures stanza { (o : Scene) (s : ℕ) (stanza : Stanza) → StanzaFits stanza → IsShortScene o → IfSome (to_in stanza) IsShortAddress
        → AreSmall (cast o.world.rooms (effects_in o s stanza)) }
    ensures departure { (world : World KeptTraffic) (s : ℕ) → AreShortAddresses world → AreShortRooms world.rooms
        → AreSmall (cast world.rooms (departure world s)) }
{}

/// After every legal history of fewer than 2^64 turns what is kept of messages is short, where the names that came in are those of addresses:
/// each text, and all of them together have at most 1 GiB. One turn more keeps it so, where the addresses are short before it, and the numbers
/// of rows have 64 bits; and no archive has more rows than there were turns.
pub fn archives_stay_short()
    ensures history { (o : State) (h : List Turn) → IsOpening o → Legal o h → HasShortNames o.head → NamesFit h → length h < 2 ^ 64
        → AreShortArchives (after o h).world.archives }
    ensures turn { (o : State) (h : List Turn) (x : Turn) → IsOpening o → Allowed (after o h) x
        → AreShortAddresses (keep_world (after o h).world) → AreShortRooms (after o h).world.rooms
        → HaveFewRows (2 ^ 64 - 2) (after o h).world.archives → AreShortArchives (after o h).world.archives
        → AreShortArchives (after o (h ++ x ∷ [])).world.archives }
    ensures few { (o : State) (h : List Turn) → IsOpening o → HaveFewRows (length h) (after o h).world.archives }
{}

/// After any history each row of an archive has one of the numbers that the archive gave, and there are no more rows than numbers.
pub fn archives_are_numbered()
    ensures { (o : State) (h : List Turn) → IsOpening o → AreNumbered (after o h).world.archives }
{}

/// After every legal history what is kept of the rooms is short, where the names that came in are those of addresses, and the addresses of all
/// sessions are then short throughout: so what the rules on stanzas read of the rooms always is. And one turn more keeps it so, where the
/// addresses are short before it.
pub fn rooms_stay_short()
    ensures history { (o : State) (h : List Turn) → IsOpening o → Legal o h → HasShortNames o.head → NamesFit h
        → AreShortRooms (after o h).world.rooms }
    ensures addresses { (o : State) (h : List Turn) → IsOpening o → HasShortNames o.head → NamesFit h → AreShortThroughout o h }
    ensures turn { (o : State) (h : List Turn) (x : Turn) → IsOpening o → Allowed (after o h) x
        → AreShortAddresses (keep_world (after o h).world) → AreShortRooms (after o h).world.rooms
        → AreShortRooms (after o (h ++ x ∷ [])).world.rooms }
{}

/// Each session that the effects of a stanza, or of a departure, name is in the house when their turn comes, and so is each that is in a
/// room and is queued a view of what the room broadcasts. Each room that they name is there then, but for one that is made, which has the next
/// number; who enters it, by the address of the session, isn't in it yet, and who leaves it, gets another role or another nick, or is shown
/// there, is in it. None of them is queued an item of a stay: those are the views of what a room broadcasts alone. What is kept is what is said:
/// the messages with a body that rooms broadcast, and those between users that are delivered, for both; a departure keeps nothing.
pub fn effects_fit()
    ensures stanza { (o : State) (h : List Turn) (w c s t : ℕ) (x : Stanza) → IsOpening o → ((after o h).world.lines w).stage ≡ Bound c s
        → AllFit (apply whole (after o h).world (On s (Act x)))
        (cast (after o h).world.rooms (effects (keep (turn (event.Act w x t) (after o h))) s x)) }
    ensures departure { (o : State) (h : List Turn) (s : ℕ) (cause : Cause) → IsOpening o → IsInHouse s (after o h).world
        → AllFit (apply whole (after o h).world (On s (End cause)))
        (cast (after o h).world.rooms (departure (keep_world (after o h).world) s)) }
    ensures rooms { (o : State) (h : List Turn) (w s t : ℕ) (x : Stanza) → IsOpening o
        → AreOf (after o h).world.rooms (effects (keep (turn (event.Act w x t) (after o h))) s x) }
    ensures left { (o : State) (h : List Turn) (s : ℕ) → IsOpening o
        → AreOf (after o h).world.rooms (departure (keep_world (after o h).world) s) }
    ensures keeps { (o : State) (h : List Turn) (w s t : ℕ) (x : Stanza) → IsOpening o
        → KeepsWhatIsSaid (scene_of (keep (turn (event.Act w x t) (after o h)))) s x }
    ensures few { (o : State) (h : List Turn) (w s t : ℕ) (x : Stanza) → IsOpening o
        → AddsFew (effects (keep (turn (event.Act w x t) (after o h))) s x) }
    ensures quiet { (world : World KeptTraffic) (s : ℕ) → KeepsNothing (departure world s) }
    ensures suit { (o : State) (h : List Turn) (w c s t : ℕ) (x : Stanza) → IsOpening o → ((after o h).world.lines w).stage ≡ Bound c s
        → AllSuit (after o h).world.made (addresses_in (after o h).world) (after o h).world.rooms
        (effects (keep (turn (event.Act w x t) (after o h))) s x) }
{}

/// Each user's roster keeps to its limits, and no two of its contacts have one address.
pub fn rosters_are_kept()
    ensures { (o : State) (h : List Turn) → IsOpening o → AreKept (after o h).head.domain.domain (after o h).world.book }
{}

/// What a client that counts has handled, over all connections of its session, is a prefix of what was queued for it since
/// stanzas are counted: whatever is sent, cut or resumed, nothing is lost, nothing comes twice, and nothing out of order.
pub fn handled_is_a_prefix()
    ensures { (o : State) (h : List Turn) (s : ℕ) (a : Account Stanza) → IsOpening o → Legal o h → IsAccountOf a o h s
        → IsPrefixOf (handled a o h s) (counted o h s) }
{}

/// What the house acted on for a session since stanzas are counted is a prefix of what its client has to send: each stanza
/// is acted on once, in order, and none is left out.
pub fn acted_once()
    ensures { (o : State) (h : List Turn) (s : ℕ) (a : Account Stanza) → IsOpening o → Legal o h → IsAccountOf a o h s
        → IsPrefixOf (acted o h s) a.stanzas }
{}

/// A session of the house is what its own operations make of it. Its connections are those that the history says held it,
/// and they differ. Each carried what Pull gave there while stanzas were counted, and had the stanzas arrive whose Act was
/// Done, or found no memory. Where no answer waits, Pull gives the text of the next entry. What was acted on, and what its
/// client was told at each Ask, is what the history says. What a client that counts tells of the history, it tells of the
/// session alone.
pub fn lines_are_the_history()
    ensures session { (o : State) (h : List Turn) (s : ℕ) → IsOpening o
        → core_of (session_in o h s) ≡ (alone_of s o h).core }
    ensures connections { (o : State) (h : List Turn) (s : ℕ) → IsOpening o → Legal o h → (session_in o h s).counts ≡ true
        → numbers (connections (alone_of s o h).trace) ≡ latest_first (lines o h s) [] }
    ensures distinct { (o : State) (h : List Turn) (s : ℕ) → IsOpening o → Legal o h
        → AreDistinct (latest_first (lines o h s) []) }
    ensures shares { (o : State) (h : List Turn) (s : ℕ) → IsOpening o → Legal o h
        → AllAre (carried o h s) (arrivals o h s) (connections (alone_of s o h).trace) }
    ensures frames { (o : State) (h : List Turn) (w t c s : ℕ) (e : Entry) → IsOpening o
        → ((after o h).world.lines w).stage ≡ Bound c s → ((after o h).world.lines w).answers ≡ []
        → slice_get (session_in o h s).traffic.queued (session_in o h s).traffic.sent ≡ Some e
        → (step (after o h) (event.Pull w t)).text ≡ frame e }
    ensures asks { (o : State) (h : List Turn) (s : ℕ) → IsOpening o → Legal o h
        → (alone_of s o h).trace.told ≡ latest_first (asks o h s) [] }
    ensures acted { (o : State) (h : List Turn) (s : ℕ) → IsOpening o → Legal o h
        → alone.acted (core_of (session_in o h s)) ≡ acted o h s }
    ensures account { (o : State) (h : List Turn) (s : ℕ) (a : Account Stanza) → IsOpening o → Legal o h
        → (session_in o h s).counts ≡ true → IsAccountOf a o h s → IsAccount a (ops_of s o h) }
{}

/// Of a session that doesn't count (XEP-0198 is not enabled), the frames that its connection pulled, but for answers, are those of its queue up to what
/// was sent: each once, in order, none is missing, and nothing else comes between them. So a client that never enables acknowledgements gets what was
/// queued for it from the first entry on. The frames are the very texts that the history has of the Pulls.
pub fn uncounted_frames_are_the_queue()
    ensures { (o : State) (h : List Turn) → IsOpening o → Legal o h → FramesAreTheQueue o h }
{}

/// A Resume in turn is one on a connection that logged in, where fewer than 8 answers wait. It fails with `item-not-found`
/// exactly where its id can't be read or was given to no session, or that session departed, is another user's, or is over.
/// Otherwise its count is too high exactly where it stands for no number, and the answer has the server's counts. In every
/// other case the session is resumed: the new connection holds it, and the one that held it before is over; what the new one
/// carries begins at the client's number. A client that counts, and says how much it handled, is resumed. A session departs by
/// a Sweep where it is over or past its deadline, or by a Bind of its address, and not otherwise.
pub fn resumption()
    ensures { (o : State) (h : List Turn) → IsOpening o → Legal o h → Resumption o h }
{}

/// While a session is in a room, what is queued for it of what the room broadcasts is a run of the room's order: from its entering on, each
/// item once, in order, as the session sees it, and none is missing. Nothing is queued of a stay to another session.
pub fn stays_are_gapless()
    ensures gapless { (o : State) (h : List Turn) → IsOpening o → Gapless (after o h).world (logs_of o h) }
    ensures within { (o : State) (h : List Turn) (i : ℕ) → IsOpening o → IsWithin (logs_of o h).order ((logs_of o h).stays i) }
{}

/// A session that goes on ends where its client closes its stream, where its connection is lost and it can't be resumed, where
/// an entry for it has no room in its queue, and where its client acknowledges by a count that stands for no entry; it departs
/// at a Sweep past its deadline, and where its address is bound; and not otherwise. One that can be resumed and whose connection
/// is lost waits for 300 seconds: its queue, its counts and its stays are as they were, but for what comes to its queue, until it
/// is resumed, ends or departs. As long as none of this happens, the connection that holds a session holds it on.
pub fn endings()
    ensures { (o : State) (h : List Turn) → IsOpening o → Legal o h → Endings o h }
{}

/// A connection is over where a session that it holds ends, for this cause; where the session's address is bound; where another
/// connection resumes the session; where it asks for a session by a count that stands for no entry; and where it asks for a
/// ninth answer; and not otherwise. It stays so until it is gone. None is over since its session was closed or lost.
pub fn closings()
    ensures { (o : State) (h : List Turn) → IsOpening o → Legal o h → Closings o h }
{}

/// Each user's archive has the last 10,000 messages with a body that were kept for the user, and that of each room the last 10,000 of the room's
/// order: numbered from 1, each with its peer, its text and the greatest moment up to it.
pub fn archives_are_the_history()
    ensures { (o : State) (h : List Turn) → IsOpening o → AreArchives (after o h).world (logs_of o h).order (keeps_from o h) }
{}

/// Pages of an archive that are asked for one after the other while a history goes on (XEP-0059, 2.2), the first from the beginning, each next after the last
/// row of the one before, and the last of them complete: their rows are, each once and in order, those that were asked for of all that were kept when the first
/// was asked for and that came until the last was, also where rows came and went between.
pub fn pages_tell_all()
    ensures { (o : State) (h : List Turn) → IsOpening o → PagesTellAll o h }
{}

/// Every legal history is safe.
pub fn safe()
    ensures { (o : State) (h : List Turn) → IsOpening o → Legal o h → Safe o h }
{}

/// A client whose connection is lost after the first of its two stanzas was acted on, and that resumes: its history is
/// legal, and it counts. So what the promises ask for can be met.
pub fn a_cut_client_counts()
    ensures starts { IsOpening small_house }
    ensures legal { (kind : Kind) (condition : Condition)
        → Legal small_house (whole_story (faulty kind condition)) }
    ensures account { (kind : Kind) (condition : Condition) (next : Stanza)
        → IsAccountOf (her_account (faulty kind condition) next) small_house
        (whole_story (faulty kind condition)) 1 }
    ensures acted { (kind : Kind) (condition : Condition)
        → acted small_house (whole_story (faulty kind condition)) 1 ≡ faulty kind condition ∷ [] }
{}

/// What was ever queued for a session is what the history queued for it: turn by turn, the entries that the turn's effects have for the session while it
/// goes on, in their order. A session that is over keeps what it had, and one that isn't made has nothing.
pub fn queueing()
    ensures { (o : State) (h : List Turn) (s : ℕ) → IsOpening o → (session_in o h s).traffic.queued ≡ queued_for o h s }
{}

/// Where a session's stanza is acted on, each session that takes entries gets exactly those that the tables of routing have for it, as the next of its
/// queue, or it is over, since there was no room for one of them. So a message that is delivered is queued once for each session that it finds: for the
/// one of its full address, or for each of the user that is available; and a stanza that is refused leaves one error for its sender.
pub fn deliveries()
    ensures { (o : State) (h : List Turn) → IsOpening o → Deliveries (after o h) }
{}
