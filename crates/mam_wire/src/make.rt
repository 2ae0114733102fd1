//! Numbers as text, and the namespaces of archives.
ghost use Rattle.std.specs.Prelude.{◌≡◌, ◌∷◌, [], IfOk};
ghost use Rattle.std.specs.Char.{is_ascii_digit};
ghost use Rattle.std.specs.Fmt.{decimal};
ghost use Rattle.std.specs.List.{list_all};
ghost use Rattle.stanza_tree.specs.declared.node.Node.TheOpen.{Words};
ghost use Rattle.stanza_tree.specs.declared.node.Node.TheViews.{roll-Node};
ghost use Rattle.mam_wire.specs.Answers.{number_node};

use stanza_tree::{NoMemory, Node, Text};
use std::alloc::Global;

/// The namespace of archives (XEP-0313, 12).
pub(crate) const MAM_SPACE: &str = "urn:xmpp:mam:2";

/// The namespace of result sets (XEP-0059, 2).
pub(crate) const RSM_SPACE: &str = "http://jabber.org/protocol/rsm";

/// The namespace of data forms (XEP-0004, 3).
pub(crate) const FORM_SPACE: &str = "jabber:x:data";

pub(crate) fn are_digits(text: &[u8]) -> bool
    ensures { result ≡ list_all is_ascii_digit text.now }
{
    text.iter().all(|byte| byte.is_ascii_digit())
}

pub(crate) fn decimal_text(alloc: Global, number: u64) -> Result<Text, NoMemory>
    ensures { IfOk result (λ t. t ≡ decimal number) }
{
    Ok(Text::of_string(format!(in alloc; "{}", number)?))
}

/// These words alone.
pub(crate) fn words(alloc: Global, text: Text) -> Result<Vec<Node>, NoMemory>
    ensures { IfOk result (λ nodes. nodes.items ≡ roll-Node (Words text) ∷ []) }
{
    let mut nodes = Vec::new(alloc);
    nodes.push(Node::Words(text))?;
    Ok(nodes)
}

pub(crate) fn number_nodes(alloc: Global, number: u64) -> Result<Vec<Node>, NoMemory>
    ensures { IfOk result (λ nodes. nodes.items ≡ number_node number ∷ []) }
{
    words(alloc, decimal_text(alloc, number)?)
}
