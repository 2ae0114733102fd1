//! What the definitions say: the lines that are read as accounts are those that accounts are written as.

ghost use Rattle.std.specs.Prelude.{◌≡◌, ℕ, List, ◌++◌, codes, None, Ok};
ghost use Rattle.base64.specs.GeneralPurpose.{IsBytes};
ghost use Rattle.jid_core.specs.Cuts.{after};
ghost use Rattle.account_book.specs.Entries.{Entry, line_text, IsEntry};
ghost use Rattle.account_book.specs.Lines.{line_of};

/// A line that says what an account line may say is read as that, and a line that is read is written in this one way.
pub fn lines_are_those_of_accounts()
    ensures written { (e : Entry) → IsEntry e → line_of (line_text e) ≡ Ok e }
    ensures spelt { (text : List ℕ) (e : Entry) → IsBytes text → after 10 text ≡ None → line_of (text ++ codes "\n") ≡ Ok e
        → text ++ codes "\n" ≡ line_text e }
{}
