//! What a stream consists of, and the limits on it.

ghost use Rattle.std.specs.Prelude.{◌≡◌};
ghost use Rattle.stream_grammar.specs.grammar.Bounds.{rules_of};

use crate::FrameFault;
use crate::rules::Rules;
use stanza_tree::{Element, Text};

/// What a stream is held to.
#[derive(Clone, Copy, Debug, PartialEq, Eq)]
pub struct Limits {
    /// The bytes of a header or of a top element as they are read, from its `<` to its last `>`.
    pub bytes: u32,
    /// The levels of a top element, itself the first.
    pub depth: u32,
    /// The attributes on one tag, declarations of namespaces among them.
    pub attrs: u32,
    /// The bytes of the canonical spelling of a header or of a top element.
    pub canonical: u64,
}

impl Limits {
    /// The rules of the syntax that these limits make.
    pub fn rules(self) -> Rules
        ensures { result ≡ rules_of self }
    {
        Rules {
            depth: self.depth as u64,
            attributes: self.attrs as u64,
            loose: false,
        }
    }
}

/// A part of a stream (RFC 6120, 4.2).
#[derive(Drop)]
pub enum Item {
    /// The start tag of the stream, and the default namespace inside it.
    Header { root: Element, default_space: Text },
    /// A top element: a child of the stream.
    Top(Element),
    /// The end tag of the stream.
    CloseTag,
    /// The fault, and the number of the byte that has it: the least number of bytes that begin no stream, or pass a limit.
    Broken(FrameFault, u64),
}
