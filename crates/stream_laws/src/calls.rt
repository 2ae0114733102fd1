//! What the public calls of a framer do, one after the other, in the words of the grammar.
//!
//! A framer that was made or begun again stands at `first_reading`. The contract of each call says in its clause `call` that it is `Called`
//! from the reading before it to the reading after it. Calls that follow one another are `Called` together, by the first of these laws; the
//! others say what a list of calls comes to, so that nobody has to follow the fold over the bytes.

ghost use Rattle.std.specs.Prelude.{◌≡◌, ℕ, ◌<◌, List, Option, [], ◌∷◌, ◌++◌, length, map, All, Some, None, true, option_to_list};
ghost use Rattle.stanza_tree.specs.declared.node.Element.{Element};
ghost use Rattle.stanza_tree.specs.Spelling.{text, client_space};
ghost use Rattle.stream_grammar.specs.declared.FrameFault.{FrameFault};
ghost use Rattle.stream_grammar.specs.declared.item.Item.{Item};
ghost use Rattle.stream_grammar.specs.declared.item.Item.TheVariants as item;
ghost use Rattle.stream_grammar.specs.declared.item.Limits.{Limits};
ghost use Rattle.stream_grammar.specs.grammar.Elements.{default_of, IsNamed};
ghost use Rattle.stream_grammar.specs.grammar.Items.{HasCome};
ghost use Rattle.stream_grammar.specs.grammar.Parts.{AreFaultless, IsFault, IsItem};
ghost use Rattle.stream_grammar.specs.machine.Reading.{Reading, first_reading, handed, is_ready, reading_after, taken, waiting, went};
ghost use Rattle.stream_grammar.specs.grammar.Bounds.{rules_of};
ghost use Rattle.stream_grammar.specs.grammar.RoundTrips.{texts_of};
ghost use Rattle.stream_grammar.specs.grammar.Trees.{RawTag, Content};
ghost use Rattle.stream_grammar.specs.grammar.ItemLists.{AreItems, AreNext, to_fault};
ghost use Rattle.stream_grammar.specs.grammar.Takes.{IsTaken};
ghost use Rattle.stream_laws.specs.ItemLists.{items_from};
ghost use Rattle.stream_grammar.specs.machine.Calls.{Call, feeds, hands, Called, bytes_taken};
ghost use Rattle.stream_laws.specs.CallLists.{IsFedBy, joined, AreFed};
ghost use Rattle.stream_laws.specs.Written.{IsWithin};

/// Where calls lead from a reading to another, and further calls from there, all of them lead from the first to the last. `next` hands out
/// what it handed out in the ones and then in the others, and they take the bytes of both.
pub fn calls_follow_one_another()
    ensures called { (l : Limits) (first second : List Call) (items later : List Item) (s t u : Reading)
        → Called l s first items t → Called l t second later u → Called l s (first ++ second) (items ++ later) u }
    ensures taken { (first second : List Call) → bytes_taken (first ++ second) ≡ bytes_taken first ++ bytes_taken second }
{}

/// Given bytes have one list of items: those of the grammar that end with them, in their order, and the fault last where a byte has one.
/// The fold over the bytes brings just this list, where each item is handed out before the next byte and a fault once.
pub fn items_come_in_order()
    ensures brought { (l : Limits) (bytes : List ℕ) → AreItems l bytes (items_from l first_reading bytes) }
    ensures only { (l : Limits) (bytes : List ℕ) (items : List Item) → AreItems l bytes items → items ≡ items_from l first_reading bytes }
    ensures one { (l : Limits) (bytes : List ℕ) (xs ys : List Item) → AreItems l bytes xs → AreItems l bytes ys → xs ≡ ys }
{}

/// After given bytes, further bytes have one list of items: with the items of the bytes before they are those of all. The fold over the
/// further bytes brings just this list.
pub fn items_of_further_bytes()
    ensures brought { (l : Limits) (before bytes : List ℕ) → AreNext l before bytes (items_from l (went l first_reading before) bytes) }
    ensures one { (l : Limits) (before bytes : List ℕ) (xs ys : List Item)
        → AreNext l before bytes xs → AreNext l before bytes ys → xs ≡ ys }
{}

/// After given bytes, whose items were handed out, a piece is taken whole with a top element waiting after it exactly where by the grammar
/// this is the only item that ends in the piece, and it ends with its last byte.
pub fn a_piece_of_one_element_is_taken_whole()
    ensures read { (l : Limits) (before : List ℕ) (b : ℕ) (bs : List ℕ) (e : Element)
        → taken l (handed (went l first_reading before)) (b ∷ bs) ≡ length (b ∷ bs)
        → waiting (reading_after l (handed (went l first_reading before)) (b ∷ bs)) ≡ Some (item.Top e)
        → AreNext l before (b ∷ bs) (item.Top e ∷ []) × IsItem (rules_of l) (before ++ (b ∷ bs)) (item.Top e) }
    ensures all { (l : Limits) (before : List ℕ) (b : ℕ) (bs : List ℕ) (e : Element)
        → AreNext l before (b ∷ bs) (item.Top e ∷ []) → IsItem (rules_of l) (before ++ (b ∷ bs)) (item.Top e)
        → (taken l (handed (went l first_reading before)) (b ∷ bs) ≡ length (b ∷ bs))
        × (waiting (reading_after l (handed (went l first_reading before)) (b ∷ bs)) ≡ Some (item.Top e)) }
{}

/// What `feed` takes of a piece, where the bytes before it have no fault and their items were handed out: all of it where none of its bytes
/// ends an item or has a fault, and else as far as the first that does, and that byte too. Of a piece that has bytes it takes one at least.
/// After a fault it takes all.
pub fn pieces_are_taken_up_to_an_item()
    ensures taken { (l : Limits) (before piece : List ℕ)
        → AreFaultless l before → IsTaken l before piece (taken l (handed (went l first_reading before)) piece) }
    ensures one { (l : Limits) (before piece : List ℕ) (n m : ℕ) → IsTaken l before piece n → IsTaken l before piece m → n ≡ m }
    ensures some { (l : Limits) (before piece : List ℕ) (n : ℕ) → IsTaken l before piece n → 0 < length piece → 0 < n }
    ensures after_fault { (l : Limits) (before piece : List ℕ) (k : ℕ) (f : FrameFault)
        → IsFault l before k f → taken l (handed (went l first_reading before)) piece ≡ length piece }
{}

/// Whatever the pieces in which the bytes of a stream are fed, the rest of a piece being fed again, and however many calls had no memory:
/// what `next` handed out in all, and what still waits, are the items of the bytes that were taken. Where `next` was the last call, it handed
/// all of them out. A fault, which `next` answers at every call, counts once. The framer stands where the bytes lead.
pub fn cut_anywhere_all_items_are_handed_out()
    ensures all { (l : Limits) (calls : List Call) (items : List Item) (t : Reading)
        → Called l first_reading calls items t → AreItems l (bytes_taken calls) (to_fault (items ++ option_to_list (waiting t))) }
    ensures asked { (l : Limits) (calls : List Call) (next : Option Item) (items : List Item) (t : Reading)
        → Called l first_reading (calls ++ hands next ∷ []) items t → AreItems l (bytes_taken calls) (to_fault items) }
    ensures none_left { (l : Limits) (calls : List Call) (items : List Item) (t : Reading)
        → Called l first_reading calls items t → waiting t ≡ None → AreItems l (bytes_taken calls) items }
    ensures joined { (l : Limits) (calls : List Call) (items : List Item) (t : Reading) (bytes rest : List ℕ)
        → Called l first_reading calls items t → IsFedBy bytes calls rest → bytes ≡ bytes_taken calls ++ rest }
    ensures whole { (l : Limits) (calls : List Call) (items : List Item) (t : Reading) (bytes : List ℕ)
        → Called l first_reading calls items t → IsFedBy bytes calls []
        → AreItems l bytes (to_fault (items ++ option_to_list (waiting t))) }
    ensures stands { (l : Limits) (calls : List Call) (items : List Item) (t : Reading)
        → Called l first_reading calls items t → handed t ≡ handed (went l first_reading (bytes_taken calls)) }
{}

/// Any pieces can be fed to the end, one after the other, what is left of a piece being fed again. What `next` handed out in all, and what
/// still waits, are then the items of the joined bytes.
pub fn pieces_hand_out_the_items_of_the_joined_bytes()
    ensures items { (l : Limits) (pieces : List (List ℕ)) (calls : List Call) (items : List Item) (t : Reading)
        → Called l first_reading calls items t → AreFed pieces calls
        → AreItems l (joined pieces) (to_fault (items ++ option_to_list (waiting t))) }
    ensures can { (l : Limits) (pieces : List (List ℕ))
        → (calls : List Call) × (items : List Item) × (t : Reading)
        × Called l first_reading calls items t × AreFed pieces calls × (is_ready t ≡ true) }
{}

/// After the start of a stream whose default namespace is `jabber:client`, in which no byte has a fault, a framer that reads the text of a
/// proper element within its limits has that element waiting after the last byte, and nothing waits after an earlier one. No byte of the
/// text has a fault, and `feed` takes the text, whatever comes after it. The items of several texts, one after another, are their elements.
pub fn what_is_written_is_handed_out()
    ensures waits { (l : Limits) (bytes : List ℕ) (root : RawTag) (f : Content) (e : Element)
        → HasCome (rules_of l) bytes root f → IsNamed root f → default_of root ≡ client_space → AreFaultless l bytes → IsWithin l e
        → waiting (went l first_reading (bytes ++ text e)) ≡ Some (item.Top e) }
    ensures none_before { (l : Limits) (bytes : List ℕ) (root : RawTag) (f : Content) (e : Element) (xs ys : List ℕ)
        → HasCome (rules_of l) bytes root f → IsNamed root f → default_of root ≡ client_space → AreFaultless l bytes → IsWithin l e
        → text e ≡ xs ++ ys → (xs ≡ [] → ⊥) → (ys ≡ [] → ⊥) → waiting (went l first_reading (bytes ++ xs)) ≡ None }
    ensures faultless { (l : Limits) (bytes : List ℕ) (root : RawTag) (f : Content) (e : Element)
        → HasCome (rules_of l) bytes root f → IsNamed root f → default_of root ≡ client_space → AreFaultless l bytes → IsWithin l e
        → AreFaultless l (bytes ++ text e) }
    ensures taken { (l : Limits) (bytes : List ℕ) (root : RawTag) (f : Content) (e : Element) (more : List ℕ)
        → HasCome (rules_of l) bytes root f → IsNamed root f → default_of root ≡ client_space → AreFaultless l bytes → IsWithin l e
        → taken l (handed (went l first_reading bytes)) (text e ++ more) ≡ length (text e) }
    ensures items { (l : Limits) (bytes : List ℕ) (root : RawTag) (f : Content) (es : List Element) (before : List Item)
        → HasCome (rules_of l) bytes root f → IsNamed root f → default_of root ≡ client_space → AreFaultless l bytes → All (IsWithin l) es
        → AreItems l bytes before → AreItems l (bytes ++ texts_of es) (before ++ map item.Top es) }
{}

/// Where calls took bytes that have no fault, and their items were handed out, the next `feed` takes of its piece as far as the first byte that
/// ends an item or has a fault, and else all of it. Where these bytes are the start of a stream whose default namespace is `jabber:client`, and
/// the text of a proper element within the limits comes next, it takes that text, and `next` then hands the element out.
pub fn the_next_call_goes_on_from_the_bytes()
    ensures taken { (l : Limits) (calls : List Call) (items later : List Item) (t u : Reading) (piece : List ℕ) (n : ℕ)
        → Called l first_reading calls items t → AreFaultless l (bytes_taken calls)
        → Called l t (feeds piece n ∷ []) later u → IsTaken l (bytes_taken calls) piece n }
    ensures text { (l : Limits) (calls : List Call) (items later : List Item) (t u : Reading)
        (root : RawTag) (f : Content) (e : Element) (more : List ℕ) (n : ℕ) (next : Option Item)
        → Called l first_reading calls items t → AreFaultless l (bytes_taken calls)
        → HasCome (rules_of l) (bytes_taken calls) root f → IsNamed root f → default_of root ≡ client_space → IsWithin l e
        → Called l t (feeds (text e ++ more) n ∷ hands next ∷ []) later u → (n ≡ length (text e)) × (next ≡ Some (item.Top e)) }
{}
