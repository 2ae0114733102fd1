//! What an element holds: its first child of a name, and its own words.
ghost use Rattle.std.specs.Prelude.{◌≡◌, ◌++◌, IfOk, OnOk, IsUtf8};
ghost use Rattle.std.specs.Option.{option_copied};
ghost use Rattle.stanza_tree.specs.Children.{child_of, words_in, words_of};
ghost use Rattle.stanza_tree.specs.declared.node.Node.TheViews.{out-Node};

use crate::node::{Element, Node};
use crate::text::{NoMemory, Text};
use std::alloc::Global;

/// Appends the words that a child is.
fn push_words_of(node: &Node, joined: &mut Vec<u8>) -> Result<(), NoMemory>
    ensures joined { OnOk result (joined.new.items ≡ joined.old.items ++ words_in (out-Node node.now)) }
    ensures utf8 { OnOk result (IsUtf8 joined.old.items → IsUtf8 joined.new.items) }
{
    match node {
        Node::Child(_) => {}
        Node::Words(words) => joined.extend_from_slice(words.bytes())?,
    }
    Ok(())
}

impl Element {
    /// The first child element of that name.
    pub fn child(&self, space: &[u8], local: &[u8]) -> Option<&Element>
        ensures { option_copied result ≡ child_of space.now local.now self.now.children }
    {
        for node in self.children.slice() {
            if let Node::Child(child) = node {
                if child.name.space.bytes() == space && child.name.local.bytes() == local {
                    return Some(child);
                }
            }
        }
        None
    }

    /// Its own words, joined: those among its children, without those of its child elements.
    pub fn words(&self, alloc: Global) -> Result<Text, NoMemory>
        ensures { IfOk result (λ t. t ≡ words_of self.now.children) }
    {
        let mut joined = Vec::new(alloc);
        for node in self.children.slice() {
            push_words_of(node, &mut joined)?;
        }
        Text::of_utf8(alloc, joined.as_slice())
    }
}
