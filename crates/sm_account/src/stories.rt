//! Two sessions that are cut and resumed, and the accounts of their clients: what the laws ask of a client can be met.
//! Connections are of any number, and entries and stanzas of any content.

ghost use Rattle.std.specs.Prelude.{◌≡◌, ℕ, ◌≤◌, List, [], ◌∷◌};
ghost use Rattle.stanza_tree.specs.declared.frame.Entry.{Entry};
ghost use Rattle.sm_queue.specs.Queues.{frames_length, most_bytes};
ghost use Rattle.sm_account.specs.Sessions.{acted, inward_count};
ghost use Rattle.sm_account.specs.Connections.{after, connections};
ghost use Rattle.sm_account.specs.Accounts.{IsAccount, handled};
ghost use Rattle.sm_account.specs.Stories.{notes, notes_sent, reader};
ghost use Rattle.sm_account.specs.Stories.{stanzas, stanzas_came, stanzas_until_drop, writer};

/// Three notes are sent, the client handles two, and the connection is lost. The resumption says 2, the third note
/// alone is sent again, and all three are handled.
pub fn resumes_after_a_drop<S>()
    ensures account { (c d : ℕ) (early one two three : Entry)
        → frames_length (early ∷ one ∷ two ∷ three ∷ []) ≤ most_bytes
        → IsAccount {S = S} reader (notes c d early one two three) }
    ensures sent { (c d : ℕ) (early one two three : Entry)
        → frames_length (early ∷ one ∷ two ∷ three ∷ []) ≤ most_bytes
        → connections {S = S} (after (notes c d early one two three)).trace ≡ notes_sent c d one two three }
    ensures handled { (c d : ℕ) (early one two three : Entry)
        → frames_length (early ∷ one ∷ two ∷ three ∷ []) ≤ most_bytes
        → handled {S = S} reader (after (notes c d early one two three)) ≡ one ∷ two ∷ three ∷ [] }
{}

/// The client sends five stanzas, three are acted on, and the connection is lost. The answer to the resumption says 3,
/// the client sends the last two again, and each of the five was acted on once.
pub fn counts_inward<S>()
    ensures account { (c d : ℕ) (early one two three four five : S)
        → IsAccount (writer one two three four five) (stanzas c d early one two three four five) }
    ensures told { (c : ℕ) (early one two three : S)
        → inward_count (after (stanzas_until_drop c early one two three)).core ≡ 3 }
    ensures came { (c d : ℕ) (early one two three four five : S)
        → connections (after (stanzas c d early one two three four five)).trace
        ≡ stanzas_came c d one two three four five }
    ensures acted { (c d : ℕ) (early one two three four five : S)
        → acted (after (stanzas c d early one two three four five)).core
        ≡ one ∷ two ∷ three ∷ four ∷ five ∷ [] }
{}
