//! What the definitions say.

ghost use Rattle.std.specs.Prelude.{◌≡◌, ℕ, List, [], ◌∷◌, ◌++◌, Bool, true, false};
ghost use Rattle.stream_grammar.specs.declared.rules.Rules.{Rules};
ghost use Rattle.stream_grammar.specs.grammar.Streams.{Spells, Begins};
ghost use Rattle.stream_grammar.specs.grammar.Trees.{RawTag, Stream, tag_tokens};
ghost use Rattle.stream_grammar.specs.grammar.Tags.{Gathered, whole_tag};
ghost use Rattle.stream_grammar.specs.machine.Gathering.{gather_all};
ghost use Rattle.stream_grammar.specs.grammar.Faults.{IsSyntaxKind};
ghost use Rattle.stream_grammar.specs.grammar.Items.{EndsHeader, EndsTop};
ghost use Rattle.stream_grammar.specs.machine.Ends.{is_header_end, is_top_end, is_open};
ghost use Rattle.std.specs.Prelude.{◌+◌, ◌^◌, ◌<◌, ◌⊎◌, length, take, Some, None};
ghost use Rattle.stream_grammar.specs.declared.FrameFault.{FrameFault};
ghost use Rattle.stream_grammar.specs.declared.FrameFault.TheVariants as fault;
ghost use Rattle.stream_grammar.specs.declared.namespaces.NameFault.{NameFault};
ghost use Rattle.stream_grammar.specs.declared.item.Item.{Item};
ghost use Rattle.stream_grammar.specs.declared.item.Item.TheVariants as item;
ghost use Rattle.stream_grammar.specs.declared.item.Limits.{Limits};
ghost use Rattle.stream_grammar.specs.machine.Reading.{Reading, reading_after, taken, is_ready, handed, first_reading, stopped, went, waiting, is_stopped};
ghost use Rattle.stream_grammar.specs.grammar.Bounds.{told_number, rules_of};
ghost use Rattle.stream_grammar.specs.grammar.Elements.{fault_of_tag};
ghost use Rattle.stream_grammar.specs.grammar.Extents.{HasOpenItem, IsSince, IsPastLimit};
ghost use Rattle.stream_grammar.specs.grammar.Paths.{Step, scope_of, EndsTag, name_kind};
ghost use Rattle.stream_grammar.specs.grammar.Parts.{IsItem, IsLargeEnd, AreFaultless, IsFirstFault, IsFault};
ghost use Rattle.stream_grammar.specs.machine.Framing.{frame_next, frame_after, first_frame, is_broken, has_ended, fault_at};

/// Bytes begin a stream exactly where the frame that they lead to is not broken, so the first byte that breaks
/// it is the first with which no stream goes on. The frame is a fold over the bytes, however they are cut.
pub fn frames_are_exact()
    ensures open { (r : Rules) (bytes : List ℕ)
        → is_broken (frame_after r first_frame bytes) ≡ false → Begins r bytes }
    ensures broken { (r : Rules) (bytes : List ℕ)
        → is_broken (frame_after r first_frame bytes) ≡ true → Begins r bytes → ⊥ }
{}

/// The kind of the fault of the first byte with which no stream goes on is `fault_at` of the frame before it.
pub fn faults_have_kinds()
    ensures { (r : Rules) (bytes : List ℕ) (b : ℕ)
        → is_broken (frame_after r first_frame bytes) ≡ false
        → is_broken (frame_next r (frame_after r first_frame bytes) b) ≡ true
        → IsSyntaxKind r (fault_at r (frame_after r first_frame bytes) b) (bytes ++ b ∷ []) }
{}

/// The frame that bytes lead to has ended exactly where they are a stream, from the first byte to the `>` of its end tag, and
/// white space after it.
pub fn streams_end()
    ensures whole { (r : Rules) (bytes : List ℕ)
        → has_ended (frame_after r first_frame bytes) ≡ true → (s : Stream) × Spells r bytes s }
    ensures ended { (r : Rules) (bytes : List ℕ) (s : Stream)
        → Spells r bytes s → has_ended (frame_after r first_frame bytes) ≡ true }
{}

/// A byte after which only the stream is open, and that tells the end of a start tag, ends the header; one that tells the end of
/// an element ends a top element.
pub fn items_end()
    ensures header { (r : Rules) (bytes : List ℕ) (b : ℕ)
        → is_header_end r (frame_after r first_frame bytes) b ≡ true → EndsHeader r (bytes ++ b ∷ []) }
    ensures top { (r : Rules) (bytes : List ℕ) (b : ℕ)
        → is_top_end r (frame_after r first_frame bytes) b ≡ true → EndsTop r (bytes ++ b ∷ []) }
{}

/// A header or a top element is open from the byte after its `<` up to the byte that ends it: what is open began with a `<`; where a stream
/// goes on, the first byte with which none is open any more ends one; and one that ends was open before.
pub fn items_are_open_until_they_end()
    ensures since { (r : Rules) (bytes : List ℕ) → HasOpenItem r bytes
        → (xs : List ℕ) × (ys : List ℕ) × (bytes ≡ xs ++ (60 ∷ ys)) × IsSince r xs ys }
    ensures ends { (r : Rules) (bytes : List ℕ) (b : ℕ)
        → HasOpenItem r bytes → (HasOpenItem r (bytes ++ b ∷ []) → ⊥) → Begins r (bytes ++ b ∷ [])
        → EndsHeader r (bytes ++ b ∷ []) ⊎ EndsTop r (bytes ++ b ∷ []) }
    ensures ended { (r : Rules) (bytes : List ℕ) (b : ℕ)
        → EndsHeader r (bytes ++ b ∷ []) ⊎ EndsTop r (bytes ++ b ∷ []) → HasOpenItem r bytes × (HasOpenItem r (bytes ++ b ∷ []) → ⊥) }
{}

/// A header or a top element is open by the grammar exactly where it is by frames.
pub fn open_items_are_those_of_frames()
    ensures grammar { (r : Rules) (bytes : List ℕ) → is_open r bytes ≡ true → HasOpenItem r bytes }
    ensures frames { (r : Rules) (bytes : List ℕ) → HasOpenItem r bytes → is_open r bytes ≡ true }
{}

/// The tokens of a tag give its name and its attributes, whatever came before.
pub fn tags_are_gathered()
    ensures { (g : Gathered) (t : RawTag) (empty : Bool)
        → gather_all g (tag_tokens t empty) ≡ whole_tag t }
{}

/// What a framer hands out after a byte, where each item was handed out before the next byte, is the item of the grammar that ends
/// with that byte: the header; a top element, with its names in their namespaces and its words joined; or the close tag. Each such item
/// is handed out, unless a byte up to there has a fault.
pub fn items_are_those_of_the_grammar()
    ensures found { (l : Limits) (bytes : List ℕ) (b : ℕ) (i : Item)
        → AreFaultless l (bytes ++ b ∷ [])
        → waiting (went l first_reading (bytes ++ b ∷ [])) ≡ Some i → IsItem (rules_of l) (bytes ++ b ∷ []) i }
    ensures all { (l : Limits) (bytes : List ℕ) (b : ℕ) (i : Item)
        → AreFaultless l (bytes ++ b ∷ [])
        → IsItem (rules_of l) (bytes ++ b ∷ []) i → waiting (went l first_reading (bytes ++ b ∷ [])) ≡ Some i }
{}

/// A framer stops at the first byte that has a fault, with this fault and the byte's number, and at no other: it has stopped exactly where
/// some byte had one. What has a fault is a byte past the limit of its header or top element; or one with which no stream goes on, and then
/// the fault is of its kind; or the `>` of a tag whose names are refused in the scope of the elements round it; or the end of what has a
/// canonical spelling past the limit.
pub fn faults_are_exact()
    ensures stops { (l : Limits) (bytes : List ℕ) (b : ℕ) (f : FrameFault) (k : ℕ)
        → AreFaultless l bytes → went l first_reading (bytes ++ b ∷ []) ≡ stopped f k
        → IsFirstFault l bytes b f × (k ≡ told_number (length bytes + 1)) }
    ensures refused { (l : Limits) (bytes : List ℕ) (b : ℕ) (f : FrameFault)
        → IsFirstFault l bytes b f → went l first_reading (bytes ++ b ∷ []) ≡ stopped f (told_number (length bytes + 1)) }
    ensures faultless { (l : Limits) (bytes : List ℕ) → AreFaultless l bytes → is_stopped (went l first_reading bytes) ≡ false }
    ensures goes_on { (l : Limits) (bytes : List ℕ) → is_stopped (went l first_reading bytes) ≡ false → AreFaultless l bytes }
{}

/// Given bytes have one fault or none. A framer that takes them stops with this fault and the number of its byte, and else goes on; what waits
/// after them is the item of the grammar that ends there, or the fault. Numbers are told in 64 bits: one past 2^64 - 1 is told as that.
pub fn bytes_have_one_fault_or_none()
    ensures either { (l : Limits) (bytes : List ℕ) → AreFaultless l bytes ⊎ ((k : ℕ) × (f : FrameFault) × IsFault l bytes k f) }
    ensures one { (l : Limits) (bytes : List ℕ) (j k : ℕ) (f g : FrameFault)
        → IsFault l bytes j f → IsFault l bytes k g → (j ≡ k) × (f ≡ g) }
    ensures never_both { (l : Limits) (bytes : List ℕ) (k : ℕ) (f : FrameFault) → IsFault l bytes k f → AreFaultless l bytes → ⊥ }
    ensures stops { (l : Limits) (bytes : List ℕ) (k : ℕ) (f : FrameFault)
        → IsFault l bytes k f → went l first_reading bytes ≡ stopped f (told_number k) }
    ensures told { (l : Limits) (bytes : List ℕ) (n : ℕ) (f : FrameFault)
        → went l first_reading bytes ≡ stopped f n → (k : ℕ) × (n ≡ told_number k) × IsFault l bytes k f }
    ensures exact { (l : Limits) (bytes : List ℕ) (k : ℕ) (f : FrameFault)
        → length bytes < 2 ^ 64 → went l first_reading bytes ≡ stopped f k → IsFault l bytes k f }
    ensures waits { (l : Limits) (bytes : List ℕ) (b : ℕ) (i : Item)
        → waiting (went l first_reading (bytes ++ b ∷ [])) ≡ Some i
        → IsItem (rules_of l) (bytes ++ b ∷ []) i ⊎ ((k : ℕ) × (f : FrameFault) × (i ≡ item.Broken f (told_number k)) × IsFault l (bytes ++ b ∷ []) k f) }
{}

/// Where a stream goes on with a byte that is not past its limit, and the byte ends a tag, the framer stops there with the fault that the
/// tag's names have in the scope of the elements that are open round it, and it goes on where they have none and no item ends that is too
/// large. A fault of encoding is one of the syntax: no name and no value that is read is anything but text.
pub fn name_faults_are_those_of_the_scope()
    ensures refused { (l : Limits) (bytes : List ℕ) (b : ℕ) (path : List Step) (t : RawTag) (x : NameFault)
        → AreFaultless l bytes → (IsPastLimit l bytes b → ⊥) → Begins (rules_of l) (bytes ++ b ∷ [])
        → EndsTag (bytes ++ b ∷ []) path t → fault_of_tag (scope_of path) (whole_tag t) ≡ Some x
        → went l first_reading (bytes ++ b ∷ []) ≡ stopped (name_kind x) (told_number (length bytes + 1)) }
    ensures kept { (l : Limits) (bytes : List ℕ) (b : ℕ) (path : List Step) (t : RawTag)
        → AreFaultless l bytes → (IsPastLimit l bytes b → ⊥) → Begins (rules_of l) (bytes ++ b ∷ [])
        → EndsTag (bytes ++ b ∷ []) path t → fault_of_tag (scope_of path) (whole_tag t) ≡ None → (IsLargeEnd l (bytes ++ b ∷ []) → ⊥)
        → is_stopped (went l first_reading (bytes ++ b ∷ [])) ≡ false }
    ensures encodings { (l : Limits) (bytes : List ℕ) (b : ℕ) (k : ℕ)
        → AreFaultless l bytes → went l first_reading (bytes ++ b ∷ []) ≡ stopped fault.BadEncoding k
        → Begins (rules_of l) (bytes ++ b ∷ []) → ⊥ }
{}

/// However a stream is cut into pieces, the framer that takes them, and hands out each item as it comes, stands where their bytes
/// lead.
pub fn cuts_make_no_difference()
    ensures piece { (l : Limits) (s : Reading) (piece : List ℕ) → is_ready s ≡ true
        → reading_after l s (take (taken l s piece) piece) ≡ went l s (take (taken l s piece) piece) }
    ensures pieces { (l : Limits) (s : Reading) (xs ys : List ℕ) → went l s (xs ++ ys) ≡ went l (went l s xs) ys }
    ensures handed { (l : Limits) (s : Reading) (b : ℕ) (bs : List ℕ) → went l (handed s) (b ∷ bs) ≡ went l s (b ∷ bs) }
{}
