//! The expanded names of a tag's attributes (Namespaces in XML 1.0, 2.1).

ghost use Rattle.std.specs.Prelude.{◌≡◌, map, IfOk};
ghost use Rattle.stream_frames.specs.Spaces.{bound_space};
ghost use Rattle.stream_grammar.specs.grammar.Namespaces.{same_space};
ghost use Rattle.stream_frames.specs.Expanded.{full_name, expanded, has_unbound_name, is_same, is_among, has_repeat};

use crate::namespaces::{Space, attribute_bound, local};
use stanza_tree::{NoMemory, Several};
use std::alloc::Global;
use stream_grammar::{Binding, Written};

/// The namespace of an attribute, unless its prefix is not bound, and its local part; and the attribute as it stands in
/// its tag.
#[derive(Clone, Copy)]
pub(crate) struct Expanded<'a> {
    pub space: Option<Space<'a>>,
    pub local: &'a [u8],
    pub written: &'a Written,
}

fn expand<'a>(bindings: &'a [Several<Binding>], attribute: &'a Written) -> Expanded<'a>
    ensures { full_name result ≡ expanded bindings.entry.now attribute.entry.now }
{
    let name = attribute.name.slice();
    Expanded {
        space: attribute_bound(bindings, name),
        local: local(name),
        written: attribute,
    }
}

/// The expanded names of the attributes, in their order. Each prefix is looked up in the bindings, innermost first.
pub(crate) fn expanded_names<'a>(
    alloc: Global,
    bindings: &'a [Several<Binding>],
    attributes: &'a [Written],
) -> Result<Vec<Expanded<'a>>, NoMemory>
    ensures { IfOk result (λ v. map full_name v.items ≡ map (expanded bindings.entry.now) attributes.entry.now) }
{
    let mut names = Vec::with_capacity(alloc, attributes.len())?;
    for attribute in attributes {
        names.push(expand(bindings, attribute))?;
    }
    Ok(names)
}

/// Whether a prefix is not bound.
pub(crate) fn any_unbound(names: &[Expanded<'_>]) -> bool
    ensures { result ≡ has_unbound_name (map full_name names.now) }
{
    for name in names {
        if name.space.is_none() {
            return true;
        }
    }
    false
}

fn are_one_space(one: Option<Space<'_>>, other: Option<Space<'_>>) -> bool
    ensures { result ≡ same_space (bound_space one.entry) (bound_space other.entry) }
{
    match (one, other) {
        (Some(a), Some(b)) => b.bytes() == a.bytes(),
        _ => false,
    }
}

fn are_same(one: &Expanded<'_>, other: &Expanded<'_>) -> bool
    ensures { result ≡ is_same (full_name one.now) (full_name other.now) }
{
    one.local == other.local && are_one_space(one.space, other.space)
}

fn is_one_of(name: &Expanded<'_>, others: &[Expanded<'_>]) -> bool
    ensures { result ≡ is_among (full_name name.now) (map full_name others.now) }
{
    for other in others {
        if are_same(name, other) {
            return true;
        }
    }
    false
}

/// Whether two names are the same (Namespaces in XML 1.0, 6.3).
pub(crate) fn any_repeat(names: &[Expanded<'_>]) -> bool
    ensures { result ≡ has_repeat (map full_name names.now) }
{
    for (i, name) in names.iter().enumerate() {
        if is_one_of(name, &names[i + 1..]) {
            return true;
        }
    }
    false
}
