//! Names and what they are bound to, as they stand on tags (Namespaces in XML 1.0).

use stanza_tree::{Several, Text};

/// A prefix, or the default namespace where it is empty, and what it is bound to.
#[derive(Drop)]
pub struct Binding {
    pub prefix: Several<u8>,
    pub space: Text,
}

/// An attribute as it stands in a tag: its name, and its value without the quotes and escapes.
#[derive(Drop)]
pub struct Written {
    pub name: Several<u8>,
    pub value: Text,
}

/// Why the names on a tag are refused.
#[derive(Clone, Copy, Debug, PartialEq, Eq)]
pub enum NameFault {
    /// A prefix that is not declared.
    BadPrefix,
    /// Two attributes of one name, or an element or a declaration that Namespaces in XML 1.0 forbids.
    NotWellFormed,
}
