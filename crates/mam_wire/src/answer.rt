//! The end of an answer (XEP-0313, 4.3).
ghost use Rattle.std.specs.Prelude.{◌≡◌, ◌++◌, ◌∷◌, [], IfOk, OnOk};
ghost use Rattle.std.specs.Fmt.{decimal};
ghost use Rattle.stanza_model.specs.Errors.{plain_attr};
ghost use Rattle.mam_wire.specs.Answers.{bounds, complete_attrs, fin, last_or, result_set, told};

use crate::make::{MAM_SPACE, RSM_SPACE, decimal_text, number_nodes};
use rsm_paging::Page;
use stanza_model::make::{element_of, one_child, push_attr, text_of};
use stanza_tree::{Attr, Element, NoMemory, Node};
use std::alloc::Global;

/// `<local>N</local>`, with attributes.
fn told(alloc: Global, local: &str, attrs: Vec<Attr>, number: u64) -> Result<Node, NoMemory>
    ensures { IfOk result (λ n. n ≡ told local.now attrs.items number) }
{
    let nodes = number_nodes(alloc, number)?;
    Ok(Node::Child(element_of(alloc, RSM_SPACE, local, attrs, nodes)?))
}

/// The last of these, or else this one.
fn last_or(id: u64, more: &[u64]) -> u64
    ensures { result ≡ last_or id more.now }
{
    let mut last = id;
    for id in more {
        last = *id;
    }
    last
}

/// Adds the ids of the first and the last row, where there are any (XEP-0059, 2.1).
fn push_bounds(
    alloc: Global,
    index: u64,
    rows: &[u64],
    nodes: &mut Vec<Node>,
) -> Result<(), NoMemory>
    ensures { OnOk result (nodes.new.items ≡ nodes.old.items ++ bounds index rows.now) }
{
    let Some((id, more)) = rows.split_first() else {
        return Ok(());
    };
    let mut attrs = Vec::new(alloc);
    push_attr(&mut attrs, alloc, "index", decimal_text(alloc, index)?)?;
    nodes.push(told(alloc, "first", attrs, *id)?)?;
    nodes.push(told(alloc, "last", Vec::new(alloc), last_or(*id, more))?)?;
    Ok(())
}

fn result_set(alloc: Global, page: &Page) -> Result<Element, NoMemory>
    ensures { IfOk result (λ e. e ≡ result_set page.now) }
{
    let mut nodes = Vec::new(alloc);
    push_bounds(alloc, page.first_index, page.rows.slice(), &mut nodes)?;
    nodes.push(told(alloc, "count", Vec::new(alloc), page.count)?)?;
    element_of(alloc, RSM_SPACE, "set", Vec::new(alloc), nodes)
}

fn complete_attrs(alloc: Global, complete: bool) -> Result<Vec<Attr>, NoMemory>
    ensures { IfOk result (λ attrs. attrs.items ≡ complete_attrs complete) }
{
    let mut attrs = Vec::new(alloc);
    if complete {
        push_attr(&mut attrs, alloc, "complete", text_of(alloc, "true")?)?;
    }
    Ok(attrs)
}

/// What ends the answer to a query: which rows were shown, how many there are, and whether none that was wanted is left out (XEP-0313, 4.3, with
/// XEP-0059, 2.1).
pub fn fin(alloc: Global, page: &Page) -> Result<Element, NoMemory>
    ensures { IfOk result (λ e. e ≡ fin page.now) }
{
    let nodes = one_child(alloc, result_set(alloc, page)?)?;
    let attrs = complete_attrs(alloc, page.complete)?;
    element_of(alloc, MAM_SPACE, "fin", attrs, nodes)
}
