//! What is written is read.

ghost use Rattle.std.specs.Prelude.{◌≡◌, ℕ, ◌^◌, ◌<◌, ◌≤◌, List, [], ◌∷◌, ◌++◌, length, All, Some, true, false, codes, bytes_eq};
ghost use Rattle.stanza_tree.specs.declared.node.Element.{Element};
ghost use Rattle.stanza_tree.specs.Attributes.{with_attr, without_attr};
ghost use Rattle.stanza_tree.specs.Spelling.{text, client_space};
ghost use Rattle.stanza_tree.specs.Stamps.{sent_by};
ghost use Rattle.stream_grammar.specs.declared.rules.Rules.{Rules};
ghost use Rattle.stream_grammar.specs.grammar.Trees.{RawTag, Content, nothing, Stream};
ghost use Rattle.stream_grammar.specs.grammar.Streams.{Spells};
ghost use Rattle.stream_grammar.specs.grammar.Items.{HasCome};
ghost use Rattle.stream_grammar.specs.grammar.Elements.{default_of, header_of, tops_of, IsNamed};
ghost use Rattle.stream_grammar.specs.grammar.Proper.{IsNcName, IsXmlText, IsProper, IsProperInParts, is_ascii_name, is_ascii_text};
ghost use Rattle.stream_grammar.specs.machine.Reading.{first_reading, waiting, went};
ghost use Rattle.stream_grammar.specs.declared.item.Item.TheVariants as item;
ghost use Rattle.stream_grammar.specs.declared.item.Limits.{Limits};
ghost use Rattle.stream_grammar.specs.grammar.RoundTrips.{HasMore, IsReadBack, IsWritable, IsTop, texts_of, end_tag_of, bare_header, bare_root};

/// The canonical text of a proper element is read back as that element. It follows the start of a stream whose default
/// namespace is `jabber:client`, and is one top element more there; with the end tag after it all is a stream. The rules
/// allow the levels and the attributes that the text has.
pub fn what_is_written_is_read()
    ensures goes_on { (r : Rules) (bytes : List ℕ) (root : RawTag) (f : Content) (e : Element)
        → HasCome r bytes root f → IsNamed root f → default_of root ≡ client_space → IsWritable r e
        → HasMore r (bytes ++ text e) root f (e ∷ []) }
    ensures whole { (r : Rules) (bytes : List ℕ) (root : RawTag) (f : Content) (e : Element)
        → HasCome r bytes root f → IsNamed root f → default_of root ≡ client_space → IsWritable r e
        → IsReadBack r (bytes ++ text e ++ end_tag_of root) root f (e ∷ []) }
{}

/// The texts of several elements, one after another, are read back as these elements, in their order.
pub fn all_that_is_written_is_read()
    ensures goes_on { (r : Rules) (bytes : List ℕ) (root : RawTag) (f : Content) (es : List Element)
        → HasCome r bytes root f → IsNamed root f → default_of root ≡ client_space → All (IsWritable r) es
        → HasMore r (bytes ++ texts_of es) root f es }
    ensures whole { (r : Rules) (bytes : List ℕ) (root : RawTag) (f : Content) (es : List Element)
        → HasCome r bytes root f → IsNamed root f → default_of root ≡ client_space → All (IsWritable r) es
        → IsReadBack r (bytes ++ texts_of es ++ end_tag_of root) root f es }
{}

/// A proper element is writable where its text has no more bytes than the rules allow levels, and attributes of a tag.
pub fn short_texts_are_writable()
    ensures { (r : Rules) (e : Element) → IsProper e
        → length (text e) < 2 ^ 64 → length (text e) ≤ r.depth → length (text e) ≤ r.attributes → IsWritable r e }
{}

/// The end tag ends a stream after its header or any of its content.
pub fn an_end_tag_ends_a_stream()
    ensures { (r : Rules) (bytes : List ℕ) (root : RawTag) (f : Content) → HasCome r bytes root f
        → (s : Stream) × (Spells r (bytes ++ end_tag_of root) s) × (s.root ≡ root) × (s.content ≡ f) }
{}

/// A header with no more than its namespaces is the start of a stream whose default namespace is `jabber:client`.
pub fn a_bare_header_begins_a_stream()
    ensures comes { (r : Rules) → 2 ≤ r.attributes → HasCome r bare_header bare_root nothing }
    ensures named { IsNamed bare_root nothing }
    ensures default { default_of bare_root ≡ client_space }
{}

/// The top elements of streams are proper, and a proper element with a text that is no longer than memory is a top element
/// of some stream.
pub fn proper_elements_are_those_of_streams()
    ensures read { (e : Element) → IsTop e → IsProper e }
    ensures written { (e : Element) → IsProper e → length (text e) < 2 ^ 64 → IsTop e }
{}

/// The header of a stream and the top elements that have come are proper.
pub fn what_has_come_is_proper()
    ensures header { (r : Rules) (bytes : List ℕ) (root : RawTag) (f : Content)
        → HasCome r bytes root f → IsNamed root f → IsProper (header_of root) }
    ensures tops { (r : Rules) (bytes : List ℕ) (root : RawTag) (f : Content)
        → HasCome r bytes root f → IsNamed root f → All IsProper (tops_of root f) }
{}

/// The elements that a framer hands out are proper.
pub fn items_are_proper()
    ensures top { (l : Limits) (bytes : List ℕ) (e : Element)
        → waiting (went l first_reading bytes) ≡ Some (item.Top e) → IsProper e }
    ensures header { (l : Limits) (bytes : List ℕ) (e : Element) (space : List ℕ)
        → waiting (went l first_reading bytes) ≡ Some (item.Header e space) → IsProper e }
{}

/// An element is proper exactly where its name, its attributes and its children are.
pub fn proper_is_structural()
    ensures parts { (e : Element) → IsProper e → IsProperInParts e }
    ensures whole { (e : Element) → IsProperInParts e → IsProper e }
{}

/// A proper element stays proper where an attribute in no namespace is set or taken away, and where it is sent on.
pub fn attributes_keep_elements_proper()
    ensures set { (local value : List ℕ) (e : Element)
        → IsNcName local → bytes_eq local (codes "xmlns") ≡ false → IsXmlText value → IsProper e
        → IsProper (record e { attrs = with_attr local value e.attrs }) }
    ensures taken { (local : List ℕ) (e : Element)
        → IsProper e → IsProper (record e { attrs = without_attr local e.attrs }) }
    ensures sent { (from : List ℕ) (e : Element) → IsXmlText from → IsProper e → IsProper (sent_by from e) }
{}

/// Names and texts of ASCII, by a test.
pub fn ascii_is_proper()
    ensures name { (bytes : List ℕ) → is_ascii_name bytes ≡ true → IsNcName bytes }
    ensures text { (bytes : List ℕ) → is_ascii_text bytes ≡ true → IsXmlText bytes }
{}
