//! What the definitions say, in the standards' own words.

ghost use Rattle.std.specs.Prelude.{◌≡◌, ℕ, List};
ghost use Rattle.stream_lex.specs.grammar.Expressions.{Sign, IsText};
ghost use Rattle.stream_lex.specs.grammar.Grammar.{char_data};
ghost use Rattle.stream_lex.specs.grammar.Words.{AreWords, HasSectionEnd, worded};

/// Character data is that of XML 1.0 [14]: characters other than `<` and `&`, in which `]]>` does not stand.
/// Each is a word for itself.
pub fn words_are_character_data()
    ensures only { (cs : List ℕ) (ms : List Sign) → IsText char_data cs ms
        → AreWords cs × (HasSectionEnd cs → ⊥) × (ms ≡ worded cs) }
    ensures all { (cs : List ℕ) → AreWords cs → (HasSectionEnd cs → ⊥)
        → IsText char_data cs (worded cs) }
{}
