//! The form of a query (XEP-0313, 4.1.5).
ghost use Rattle.std.specs.Prelude.{◌≡◌, ◌++◌, ◌∷◌, [], IfOk, OnOk};
ghost use Rattle.mam_wire.specs.Forms.{field, field_element, query_fields, query_form, value_nodes};

use crate::make::{FORM_SPACE, MAM_SPACE, words};
use stanza_model::make::{element_of, one_child, push_attr, text_of};
use stanza_tree::{Element, NoMemory, Node};
use std::alloc::Global;

fn value_nodes(alloc: Global, value: &str) -> Result<Vec<Node>, NoMemory>
    ensures { IfOk result (λ nodes. nodes.items ≡ value_nodes value.now) }
{
    let words = words(alloc, text_of(alloc, value)?)?;
    let value = element_of(alloc, FORM_SPACE, "value", Vec::new(alloc), words)?;
    one_child(alloc, value)
}

/// `<field type='T' var='V'>` with these children.
fn field_element(
    alloc: Global,
    kind: &str,
    name: &str,
    content: Vec<Node>,
) -> Result<Element, NoMemory>
    ensures { IfOk result (λ e. e ≡ field_element kind.now name.now content.items) }
{
    let mut attrs = Vec::new(alloc);
    push_attr(&mut attrs, alloc, "type", text_of(alloc, kind)?)?;
    push_attr(&mut attrs, alloc, "var", text_of(alloc, name)?)?;
    element_of(alloc, FORM_SPACE, "field", attrs, content)
}

fn push_field(
    alloc: Global,
    kind: &str,
    name: &str,
    content: Vec<Node>,
    nodes: &mut Vec<Node>,
) -> Result<(), NoMemory>
    ensures { OnOk result (nodes.new.items ≡ nodes.old.items ++ field kind.now name.now content.items ∷ []) }
{
    nodes.push(Node::Child(field_element(alloc, kind, name, content)?))?;
    Ok(())
}

fn query_fields(alloc: Global) -> Result<Vec<Node>, NoMemory>
    ensures { IfOk result (λ nodes. nodes.items ≡ query_fields) }
{
    let mut nodes = Vec::new(alloc);
    let kind = value_nodes(alloc, MAM_SPACE)?;
    push_field(alloc, "hidden", "FORM_TYPE", kind, &mut nodes)?;
    push_field(alloc, "jid-single", "with", Vec::new(alloc), &mut nodes)?;
    push_field(alloc, "text-single", "start", Vec::new(alloc), &mut nodes)?;
    push_field(alloc, "text-single", "end", Vec::new(alloc), &mut nodes)?;
    Ok(nodes)
}

/// The form that a query may have, as a get shows it (XEP-0313, 4.1.5).
pub fn query_form(alloc: Global) -> Result<Element, NoMemory>
    ensures { IfOk result (λ e. e ≡ query_form) }
{
    let mut attrs = Vec::new(alloc);
    push_attr(&mut attrs, alloc, "type", text_of(alloc, "form")?)?;
    let x = element_of(alloc, FORM_SPACE, "x", attrs, query_fields(alloc)?)?;
    element_of(
        alloc,
        MAM_SPACE,
        "query",
        Vec::new(alloc),
        one_child(alloc, x)?,
    )
}
