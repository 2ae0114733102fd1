//! Parts in ASCII, which need no look at Unicode's tables.
ghost use Rattle.std.specs.Prelude.{◌≡◌, ◌<◌, length, IfOk};
ghost use Rattle.std.specs.List.{list_all};
ghost use Rattle.std.specs.Str.{str_to_ascii_lowercase};
ghost use Rattle.jid_core.specs.AsciiParts.{is_local_byte, is_resource_byte, is_label_byte, has_stray_hyphen, is_label, are_labels};

use crate::fault::NoMemory;
use crate::prepare::MOST_LABEL;
use std::alloc::Global;

/// Whether all are characters of ASCII that a local part may have.
pub(crate) fn is_plain_local(bytes: &[u8]) -> bool
    ensures { result ≡ list_all is_local_byte bytes.now }
{
    bytes.iter().all(
        |byte| !matches!(*byte, 0..=32 | b'"' | b'&' | b'\'' | b'/' | b':' | b'<' | b'>' | b'@' | 127..=255),
    )
}

/// Whether all are characters of ASCII that a resource may have.
pub(crate) fn is_plain_resource(bytes: &[u8]) -> bool
    ensures { result ≡ list_all is_resource_byte bytes.now }
{
    bytes.iter().all(|byte| matches!(*byte, 32..=126))
}

/// The bytes with their letters lowered.
pub(crate) fn lowered(alloc: Global, bytes: &[u8]) -> Result<Vec<u8>, NoMemory>
    ensures { IfOk result (λ v. v.items ≡ str_to_ascii_lowercase bytes.now) }
{
    let mut copy = bytes.to_vec(alloc)?;
    copy.make_ascii_lowercase();
    Ok(copy)
}

fn has_stray_hyphen(label: &[u8]) -> bool
    requires { 0 < length label.now }
    ensures { result ≡ has_stray_hyphen label.now }
{
    label[0] == b'-'
        || label[label.len() - 1] == b'-'
        || (label.len() > 3 && label[2] == b'-' && label[3] == b'-')
}

fn has_label_bytes(label: &[u8]) -> bool
    ensures { result ≡ list_all is_label_byte label.now }
{
    label
        .iter()
        .all(|byte| byte.is_ascii_alphanumeric() || *byte == b'-')
}

fn is_label(label: &[u8]) -> bool
    ensures { result ≡ is_label label.now }
{
    !label.is_empty()
        && label.len() <= MOST_LABEL
        && has_label_bytes(label)
        && !has_stray_hyphen(label)
}

/// Whether they are labels of letters, digits and hyphens, joined by dots.
pub(crate) fn are_labels(bytes: &[u8]) -> bool
    ensures { result ≡ are_labels bytes.now }
{
    bytes
        .split(|byte| *byte == b'.')
        .all(|label| is_label(label))
}
