//! Tags whose attributes have no prefix: these are in no namespace, and their names are told apart as they are written (Namespaces in XML 1.0, 6.2 and 6.3).

ghost use Rattle.std.specs.Prelude.{◌≡◌};
ghost use Rattle.stream_frames.specs.Spaces.{bound_space};
ghost use Rattle.stream_frames.specs.Unprefixed.{are_unprefixed, has_name, has_names_twice, unprefixed_fault};

use crate::namespaces::{Space, any_forbidden, has_a_prefix, is_xml};
use stream_grammar::{NameFault, Written};

/// Whether no attribute has a prefix.
pub(crate) fn are_unprefixed(attributes: &[Written]) -> bool
    ensures { result ≡ are_unprefixed attributes.now }
{
    for attribute in attributes {
        if has_a_prefix(attribute.name.slice()) {
            return false;
        }
    }
    true
}

fn has_name(attribute: &Written, others: &[Written]) -> bool
    ensures { result ≡ has_name attribute.now others.now }
{
    for other in others {
        if attribute.name.slice() == other.name.slice() {
            return true;
        }
    }
    false
}

fn has_names_twice(attributes: &[Written]) -> bool
    ensures { result ≡ has_names_twice attributes.now }
{
    for (i, attribute) in attributes.iter().enumerate() {
        if has_name(attribute, &attributes[i + 1..]) {
            return true;
        }
    }
    false
}

/// The fault of such a tag by the namespace of its element. Each two names are compared, so the time grows with the attributes times the bytes of their names.
pub(crate) fn unprefixed_fault(
    space: Option<Space<'_>>,
    attributes: &[Written],
) -> Option<NameFault>
    ensures { result ≡ unprefixed_fault (bound_space space.entry) attributes.now }
{
    if space.is_none() {
        return Some(NameFault::BadPrefix);
    }
    if is_xml(space) || any_forbidden(attributes) || has_names_twice(attributes) {
        return Some(NameFault::NotWellFormed);
    }
    None
}
