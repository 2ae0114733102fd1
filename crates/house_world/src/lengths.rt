//! How long addresses and their parts are at most.
ghost use Rattle.std.specs.Prelude.{◌≤◌, length, IfSome};
ghost use Rattle.jid_core.specs.Addresses.{address_text};
ghost use Rattle.stanza_model.specs.Stanzas.{to_in};

use jid_core::{Jid, Part};
use stanza_model::Stanza;

/// An address has at most 3,071 bytes.
#[tactic(auto, using(jid_core::proofs::AddressLemmas::address_text_short))]
pub(crate) fn know_short(address: &Jid)
    ensures { length (address_text address.now) ≤ 3071 }
{
    let _ = &address.domain;
}

/// A part of an address has at most 1,023 bytes. Does nothing.
pub fn know_part(part: &Part)
    ensures { length part.now ≤ 1023 }
{
    let _ = part.bytes();
}

/// The address of a stanza, where it has one, has at most 3,071 bytes. Does nothing.
pub fn know_to(stanza: &Stanza)
    ensures { IfSome (to_in stanza.now) (λ a. length (address_text a) ≤ 3071) }
{
    if let Some(to) = stanza.to() {
        know_short(to);
    }
}
