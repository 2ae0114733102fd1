//! What becomes of the rosters that a server keeps, when what comes of the tables is noted: each contract is a law, and its body is empty.
ghost use Rattle.std.specs.Prelude.{◌≡◌, ℕ, List, ◌++◌, false, bytes_eq, Some};
ghost use Rattle.jid_core.specs.Addresses.{Address};
ghost use Rattle.stanza_model.specs.declared.effect.Effect.{Effect};
ghost use Rattle.stanza_model.specs.declared.here.Here.{Here};
ghost use Rattle.stanza_model.specs.declared.kinds.PresenceForm.{PresenceForm};
ghost use Rattle.stanza_model.specs.declared.shared.Contact.{Contact};
ghost use Rattle.stanza_model.specs.declared.stanza.Stanza.{Stanza};
ghost use Rattle.contact_table.specs.Books.{Book, bare_of, contacts_of, empty_book};
ghost use Rattle.roster_book.specs.Items.{wanted_in};
ghost use Rattle.roster_book.specs.Requests.{roster_set};
ghost use Rattle.roster_book.specs.declared.item.Wanted.{Wanted};
ghost use Rattle.subscription_pairs.specs.Changes.{removal, subscription};
ghost use Rattle.subscription_pairs.specs.Users.{User, side_of};
ghost use Rattle.roster_laws.specs.Keeping.{AreKept, noted_all};
ghost use Rattle.roster_laws.specs.Telling.{AreListed, IsUser, RemovesStrangers, kept_side};

/// All rosters keep to their limits: at first, and then whatever comes of a roster set (RFC 6121, 2.3 to 2.5), of a subscription's
/// stanza (3), of a removal, or of a removal and the set that asked for it.
pub fn rosters_are_kept()
    ensures empty { (domain : List ℕ) → AreKept domain empty_book }
    ensures set { (domain own : List ℕ) (k : Book) (who : Here) (sessions : List Here) (st : Stanza)
        → AreKept domain k → AreKept domain (noted_all (roster_set (bare_of domain own) (contacts_of domain k own) who sessions st) k) }
    ensures subscription { (domain a : List ℕ) (ua ub : User) (k : Book) (form : PresenceForm) (effects : List Effect)
        → IsUser domain k a ua → subscription ua ub form ≡ Some effects → AreKept domain k → AreKept domain (noted_all effects k) }
    ensures removal { (domain : List ℕ) (ua ub : User) (k : Book) → AreKept domain k → AreKept domain (noted_all (removal ua ub) k) }
    ensures removed { (domain own : List ℕ) (ua ub : User) (k : Book) (who : Here) (sessions : List Here) (st : Stanza)
        → AreKept domain k
        → AreKept domain (noted_all (removal ua ub ++ roster_set (bare_of domain own) (contacts_of domain k own) who sessions st) k) }
{}

/// Where those who see and have asked are listed, two rosters tell just what the server keeps of the two users (RFC 6121, 2.1.2).
pub fn rosters_tell_the_pairs()
    ensures { (domain a b : List ℕ) (ua ub : User) (k : Book) → IsUser domain k a ua → IsUser domain k b ub → AreListed domain k
        → side_of ua ub ≡ kept_side domain k a b }
{}

/// Those who see and have asked are listed: at first, and then whatever comes of a subscription's stanza (RFC 6121, 3), of a removal, and of a
/// roster set (2.3 to 2.5) that removes a stranger alone, or that follows the removal of its contact.
pub fn pairs_stay_listed()
    ensures empty { (domain : List ℕ) → AreListed domain empty_book }
    ensures subscription { (domain a b : List ℕ) (ua ub : User) (k : Book) (form : PresenceForm) (effects : List Effect)
        → IsUser domain k a ua → IsUser domain k b ub → subscription ua ub form ≡ Some effects
        → AreListed domain k → AreListed domain (noted_all effects k) }
    ensures removal { (domain : List ℕ) (ua ub : User) (k : Book) → AreListed domain k → AreListed domain (noted_all (removal ua ub) k) }
    ensures set { (domain own : List ℕ) (contacts : List Contact) (k : Book) (who : Here) (sessions : List Here) (st : Stanza)
        → RemovesStrangers domain k own contacts st
        → AreListed domain k → AreListed domain (noted_all (roster_set (bare_of domain own) contacts who sessions st) k) }
    ensures removed { (domain a b : List ℕ) (ua ub : User) (contacts : List Contact) (k : Book) (who : Here) (sessions : List Here) (st : Stanza) (w : Wanted)
        → IsUser domain k a ua → IsUser domain k b ub
        → wanted_in (bare_of domain a) st ≡ Some w → w.contact.address ≡ bare_of domain b
        → AreListed domain k → AreListed domain (noted_all (removal ua ub ++ roster_set (bare_of domain a) contacts who sessions st) k) }
{}

/// After a removal neither of two users sees the other, and neither has asked; who is listed is the same (RFC 6121, 2.5.2).
pub fn removals_end_all()
    ensures { (domain a b : List ℕ) (ua ub : User) (k : Book) → bytes_eq a b ≡ false
        → IsUser domain k a ua → IsUser domain k b ub → AreListed domain k
        → kept_side domain (noted_all (removal ua ub) k) a b
        ≡ record (kept_side domain k a b) { sees = false; seen = false; asked = false; asked_by = false } }
{}

/// A removal and the set that asked for it can be noted in either order.
pub fn removals_and_sets_commute()
    ensures { (ua ub : User) (owner : Address) (contacts : List Contact) (k : Book) (who : Here) (sessions : List Here) (st : Stanza)
        → noted_all (removal ua ub ++ roster_set owner contacts who sessions st) k
        ≡ noted_all (roster_set owner contacts who sessions st ++ removal ua ub) k }
{}
