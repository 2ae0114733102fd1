//! What the definitions of lines and of prints say in the words of the grammar of streams.
ghost use Rattle.std.specs.Prelude.{◌≡◌, ℕ, List, Some};
ghost use Rattle.stanza_tree.specs.declared.node.Element.{Element};
ghost use Rattle.replay_script.specs.Deeds.{Deed, no_streams, ArePrints, prints};
ghost use Rattle.replay_script.specs.Stanzas.{element_of, IsStanzaText};

/// The text of a `stanza` line is taken exactly where it has at most 65,536 bytes, begins with a tag, and is one top element by the
/// grammar, in a stream whose default namespace is `jabber:client`: no other item ends in it, none of its bytes has a fault, and the
/// element ends with its last byte. The line's element is then this one.
pub fn stanza_texts_are_elements_of_the_grammar()
    ensures read { (xml : List ℕ) (e : Element) → element_of xml ≡ Some e → IsStanzaText xml e }
    ensures all { (xml : List ℕ) (e : Element) → IsStanzaText xml e → element_of xml ≡ Some e }
{}

/// What is printed of deeds are the replies of their turns, and for bytes that were fed the items of the grammar that end in them: with
/// those that end in the bytes before, they are the items of all bytes that were fed to that place since its framer was begun. Deeds have
/// no other prints.
pub fn prints_are_those_of_the_grammar()
    ensures printed { (deeds : List Deed) → ArePrints no_streams deeds (prints deeds) }
    ensures only { (deeds : List Deed) (out : List ℕ) → ArePrints no_streams deeds out → out ≡ prints deeds }
{}
