//! What holds of every session, whatever happens to it: each function's contract is a law, and its body is empty. The
//! stanzas of a client are of any type.

ghost use Rattle.std.specs.Prelude.{◌≡◌, ◌≢◌, ℕ, ◌+◌, List, [], ◌∷◌, ◌++◌, Some, true};
ghost use Rattle.sm_counters.specs.Numbers.{count_of};
ghost use Rattle.sm_account.specs.Prefixes.{IsPrefixOf};
ghost use Rattle.sm_account.specs.Sessions.{Hold, Op, acted, core_run, core_step, counted_entries, named, unmade};
ghost use Rattle.sm_account.specs.Connections.{CarriesFrom, after, connections};
ghost use Rattle.sm_account.specs.Places.{IsInOrder};
ghost use Rattle.sm_account.specs.Accounts.{Account, IsAccount, handled, total_handled};
ghost use Rattle.sm_account.specs.Logs as log;
ghost use Rattle.sm_account.specs.Logs.{AllAre, AreDistinct, all_arrived, all_carried, latest_first, log_of, numbers};

/// What a client that counts has handled, over all connections of its session, is a prefix of what is counted for it:
/// nothing is lost, nothing comes twice, and nothing out of order. Counts go round at 2^32 as often as they like.
pub fn handled_prefix<S>()
    ensures { (a : Account S) (ops : List (Op S)) → IsAccount a ops
        → IsPrefixOf (handled a (after ops)) (counted_entries (after ops).core) }
{}

/// What the server acted on since the session counts is a prefix of what the client has to send: each stanza is acted
/// on once, in order, and none is left out.
pub fn acted_once<S>()
    ensures { (a : Account S) (ops : List (Op S)) → IsAccount a ops
        → IsPrefixOf (acted (after ops).core) a.stanzas }
{}

/// A client that says how many entries it handled is never told that its count is too high: the count names that very
/// number. Where its resumption goes on, the entry at that number is sent next. Whatever count a resumption names, what
/// the new connection carries is the queue from there on, whatever happens later.
pub fn resumption<S>()
    ensures counted { (a : Account S) (ops : List (Op S)) → IsAccount a ops → (after ops).core.counts ≡ true
        → named (after ops).core (count_of (total_handled a (after ops))) ≡ Some (total_handled a (after ops)) }
    ensures handled { (a : Account S) (ops : List (Op S)) (c : ℕ) → IsAccount a ops
        → (after ops).core.counts ≡ true → (after ops).core.hold ≢ Hold.Ended
        → (core_step (after ops).core (Op.Resume c (count_of (total_handled a (after ops))))).sent
        ≡ (after ops).core.base_out + total_handled a (after ops) }
    ensures carries { (ops more : List (Op S)) (c h n : ℕ) → (after ops).core.counts ≡ true
        → (after ops).core.hold ≢ Hold.Ended → named (after ops).core h ≡ Some n
        → CarriesFrom ((after ops).core.base_out + n) c (connections (after ops).trace)
        (after (ops ++ Op.Resume c h ∷ more)) }
{}

/// What is done with was sent, what was sent was queued, and what waits never passes its limits.
pub fn places_stay_in_order<S>()
    ensures { (ops : List (Op S)) → IsInOrder (after ops).core }
{}

/// What went over a session's connections, one after the other, is what its operations gave and took while it counted.
/// What was acted on, and what Asks were told, is what they told. Where no connection comes twice, each has its share.
pub fn logs_agree<S>()
    ensures core { (ops : List (Op S)) → (after ops).core ≡ core_run unmade ops }
    ensures given { (ops : List (Op S)) → all_carried (connections (after ops).trace) ≡ log_of log.gives unmade ops }
    ensures taken { (ops : List (Op S)) → all_arrived (connections (after ops).trace) ≡ log_of log.takes unmade ops }
    ensures acted { (ops : List (Op S)) → acted (after ops).core ≡ log_of log.does unmade ops }
    ensures told { (ops : List (Op S)) → (after ops).trace.told ≡ latest_first (log_of log.answers unmade ops) [] }
    ensures each { (ops : List (Op S)) → AreDistinct (numbers (connections (after ops).trace))
        → AllAre (λ c. log.entries_of c (log_of log.gives unmade ops))
        (λ c. log.stanzas_of c (log_of log.takes unmade ops)) (connections (after ops).trace) }
{}
