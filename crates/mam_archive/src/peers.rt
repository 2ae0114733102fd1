//! By what of their addresses peers are told apart.
ghost use Rattle.std.specs.Prelude.{◌≡◌, ◌↔◌, [], IsTrue, unwrap_or, is_some};
ghost use Rattle.mam_archive.specs.Peers.{address_hash, extent_of, face, key};

use hash_keys::HashKey;
use jid_core::{Jid, Part};
use std::hash::Hasher;

/// What of an address counts.
#[derive(Clone, Copy)]
pub enum Extent {
    /// The address without its resource.
    Bare,
    /// The whole address.
    Full,
}

/// What of an address counts where it is asked for (XEP-0313, 4.1.1).
pub(crate) fn extent_of(asked: &Jid) -> Extent
    ensures { result ≡ extent_of asked.now }
{
    if asked.resource.is_some() {
        Extent::Full
    } else {
        Extent::Bare
    }
}

/// Whether two addresses are the same in what counts.
pub(crate) fn is_alike(extent: Extent, one: &Jid, other: &Jid) -> bool
    ensures { IsTrue result ↔ (face extent one.now ≡ face extent other.now) }
{
    match extent {
        Extent::Bare => one.is_same_bare(other),
        Extent::Full => one.is_same(other),
    }
}

// The bytes of a part that may be absent.
fn bytes_of(part: &Option<Part>) -> &[u8]
    ensures { result.now ≡ unwrap_or part.now [] }
{
    match part {
        Some(part) => part.bytes(),
        None => &[],
    }
}

#[tactic(auto, unfolding(crate::specs::Peers::address_hash))]
fn hash_of(hash_key: HashKey, peer: &Jid, resource: &[u8]) -> u64
    ensures { result ≡ address_hash hash_key peer.now.local peer.now.domain resource.now }
{
    let mut hasher = hash_key.hasher();
    hasher.write(bytes_of(&peer.local));
    hasher.write(b"/");
    hasher.write(peer.domain.bytes());
    hasher.write(b"/");
    hasher.write(resource);
    hasher.finish()
}

/// The hash of what counts of an address.
pub(crate) fn key_of(hash_key: HashKey, extent: Extent, peer: &Jid) -> u64
    ensures { result ≡ key hash_key extent peer.now }
{
    match extent {
        Extent::Bare => hash_of(hash_key, peer, &[]),
        Extent::Full => hash_of(hash_key, peer, bytes_of(&peer.resource)),
    }
}
