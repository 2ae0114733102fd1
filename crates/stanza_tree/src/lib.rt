//! The XML element tree that stanzas are made of, and its one canonical spelling (RFC 6120, section 11; XML 1.0, fifth edition).
#![tactic(auto)]

pub mod children;
pub mod frame;
mod held;
pub mod measure;
pub mod node;
pub mod several;
pub mod spell;
pub mod stamp;
pub mod text;

pub use frame::{Entry, Origin, append, append_value, append_words, frame_length, push_frame};
pub use held::FEW;
pub use measure::{is_longer, length};
pub use node::{Attr, Element, Name, Node};
pub use several::Several;
pub use spell::{write, write_nodes, write_with};
pub use stamp::{sent_length, sent_text, write_sent};
pub use text::{NoMemory, Text, TextFault};
