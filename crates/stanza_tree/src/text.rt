//! UTF-8 text.
ghost use Rattle.std.specs.Prelude.{◌≡◌, [], IfOk, IfErr, OnOk, IsUtf8, string_bytes};
ghost use Rattle.stanza_tree.specs.Faults.{IsTextFault};
ghost use Rattle.stanza_tree.specs.Texts.{bytes_of};

use crate::held::Held;
pub use std::alloc::AllocError as NoMemory;
use std::alloc::{AllocError, Global};
use std::marker::Model;
use std::mem;

/// Why bytes were not read as text.
#[derive(Clone, Copy, Debug, PartialEq, Eq)]
pub enum TextFault {
    /// There was no memory for the text.
    NoMemory,
    /// The bytes are not UTF-8 (RFC 3629). The number is the length of their longest front that is.
    NotUtf8(usize),
}

impl From<AllocError> for TextFault {
    ghost use Rattle.stanza_tree.specs.declared.text.TextFault.TheVariants as fault;

    ghost from_gives = { λ _ f. f ≡ fault.NoMemory };

    fn from(_error: AllocError) -> TextFault {
        TextFault::NoMemory
    }
}

/// UTF-8 text, seen as its bytes.
pub struct Text {
    held: Held,
}

// One call wherever a text is dropped, whatever holds its bytes.
impl Drop for Text {
    fn drop(self) {
        let Text { held } = self;
        drop(held);
    }
}

impl Model for Text {
    ghost use Rattle.std.specs.Prelude.{List, ℕ};
    ghost use Rattle.stanza_tree.specs.Texts.{bytes_of};

    ghost Value = { List ℕ };

    ghost view = { λ t. bytes_of t.held };
}

impl Text {
    /// The text that the bytes are. Costs one copy.
    pub fn of(alloc: Global, bytes: &[u8]) -> Result<Text, TextFault>
        ensures ok { IfOk result (λ t. t ≡ bytes.now) }
        ensures utf8 { OnOk result (IsUtf8 bytes.now) }
        ensures fault { IfErr result (IsTextFault bytes.now) }
    {
        match std::str::from_utf8(bytes) {
            Ok(text) => Ok(Text::of_str(alloc, text)?),
            Err(error) => Err(TextFault::NotUtf8(error.valid_up_to())),
        }
    }

    /// A text of the same bytes. Costs one copy; takes no memory where they are few.
    pub fn of_str(alloc: Global, text: &str) -> Result<Text, NoMemory>
        ensures { IfOk result (λ t. t ≡ text.now) }
    {
        Ok(Text {
            held: Held::of_str(alloc, text)?,
        })
    }

    /// The text without bytes. Takes no memory.
    pub fn empty(alloc: Global) -> Text
        ensures { result ≡ [] }
    {
        Text::of_string(String::new(alloc))
    }

    /// The text of bytes that are known to be UTF-8.
    pub(crate) fn of_utf8(alloc: Global, bytes: &[u8]) -> Result<Text, NoMemory>
        requires { IsUtf8 bytes.now }
        ensures { IfOk result (λ t. t ≡ bytes.now) }
    {
        Text::of_str(alloc, unsafe { std::str::from_utf8_unchecked(bytes) })
    }

    /// The text of bytes that are known to be UTF-8. Takes no memory: the vector's bytes become the text's, or, where they are few, are copied.
    pub fn of_vec(bytes: Vec<u8>) -> Text
        requires { IsUtf8 bytes.items }
        ensures { result ≡ bytes.items }
    {
        Text::of_string(unsafe { String::from_utf8_unchecked(bytes) })
    }

    /// The string as a text. Takes no memory.
    pub fn of_string(text: String) -> Text
        ensures { result ≡ string_bytes text }
    {
        Text {
            held: Held::of(text),
        }
    }

    /// The text's bytes.
    pub fn bytes(&self) -> &[u8]
        ensures bytes { result.now ≡ self.now }
        ensures utf8 { IsUtf8 self.now }
    {
        self.held.bytes()
    }

    /// Another text of the same bytes. Costs one copy of them; takes no memory where they are few or shared.
    pub fn copy(&self, alloc: Global) -> Result<Text, NoMemory>
        ensures copy { IfOk result (λ t. t ≡ self.now) }
        ensures utf8 { IsUtf8 self.now }
    {
        let _ = self.held.bytes();
        Ok(Text {
            held: self.held.copy(alloc)?,
        })
    }

    /// From now on the text shares its bytes with its copies. Moves them, and takes a block of a few bytes; few bytes stay where they are.
    pub fn share(&mut self, alloc: Global) -> Result<(), NoMemory>
        ensures { self.new ≡ self.old }
    {
        let held = mem::replace(&mut self.held, Held::empty());
        let (held, done) = held.shared(alloc);
        self.held = held;
        done
    }
}
