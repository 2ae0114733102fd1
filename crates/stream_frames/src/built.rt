//! What is kept of the elements that are being made.

ghost use Rattle.std.specs.Prelude.{◌≡◌, ◌<◌, None, vec_len, vec_capacity};

use crate::tags::Resolved;
use stanza_tree::{Attr, Name, Node, Several, Text};
use std::alloc::Global;
use stream_grammar::{Binding, Item, Written};

/// An element that is open.
#[derive(Drop)]
pub(crate) struct OpenElement {
    pub(crate) name: Name,
    pub(crate) attrs: Several<Attr>,
    pub(crate) children: Vec<Node>,
}

/// An open element in which a child is open. There is room for the child.
#[derive(Drop)]
pub(crate) struct Parent {
    pub(crate) name: Name,
    pub(crate) attrs: Several<Attr>,
    pub(crate) children: Vec<Node>,
    pub(crate) ghost room: { vec_len children < vec_capacity children },
}

/// What is made of a stream: the tag that was begun last, and the elements that are open.
#[derive(Drop)]
pub(crate) struct Builder {
    pub(crate) alloc: Global,
    pub(crate) name: Vec<u8>,
    pub(crate) attributes: Vec<Written>,
    pub(crate) attribute: Vec<u8>,
    pub(crate) value: String,
    pub(crate) layers: Vec<Several<Binding>>,
    pub(crate) innermost: Option<OpenElement>,
    pub(crate) others: Vec<Parent>,
    pub(crate) words: String,
    pub(crate) item: Option<Item>,
    pub(crate) ghost alone: { innermost ≡ None → vec_len others ≡ 0 },
}

/// What makes a start tag the header of a stream, besides its names and values.
#[derive(Drop)]
pub(crate) struct Heading {
    pub(crate) resolved: Resolved,
    pub(crate) own: Several<Binding>,
    pub(crate) default_space: Text,
}

/// What makes a start tag an open element, besides its names and values.
#[derive(Drop)]
pub(crate) struct Beginning {
    pub(crate) resolved: Resolved,
    pub(crate) own: Several<Binding>,
}

/// What a byte's tokens will do, with the memory for it taken. It is made for each byte, so what is large stands in a block.
#[derive(Drop)]
pub(crate) enum Ready {
    Nothing,
    Tag(u8),
    NameByte(u8),
    Attribute(Vec<u8>),
    AttributeByte(u8),
    ValueChar(char),
    ValueEnd,
    Words,
    Header(Box<Heading>),
    Begins(Box<Beginning>),
    Hollow(Box<Resolved>),
    Closes,
}
