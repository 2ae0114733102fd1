//! Addresses of an optional local part, a domain and an optional resource (RFC 7622, 3.1).
ghost use Rattle.std.specs.Prelude.{◌≡◌, ◌++◌, ◌↔◌, ◌≤◌, length, take, Ok, IfOk, IfErr, IsTrue, IsUtf8, OnOk, OnErr};
ghost use Rattle.jid_core.specs.Addresses.{bare, is_prepared, same_part, same_bare, same_address, address_text, address_of};
ghost use Rattle.jid_core.specs.Preparation.{IsCause};

use crate::cut::cut_at;
use crate::fault::{JidFault, NoMemory};
use crate::part::Part;
use std::alloc::Global;
use std::marker::Model;

/// An address. Each part is prepared for its place.
#[derive(Drop)]
pub struct Jid {
    pub local: Option<Part>,
    pub domain: Part,
    pub resource: Option<Part>,
}

impl Model for Jid {
    ghost use Rattle.std.specs.Prelude.{IsTrue};
    ghost use Rattle.jid_core.specs.Addresses.{Address, is_prepared};

    ghost Value = { Address };

    ghost view = { λ j. record { local = j.local; domain = j.domain; resource = j.resource } };

    ghost invariant = { λ j. IsTrue (is_prepared (record { local = j.local; domain = j.domain; resource = j.resource })) };
}

fn copy_part(alloc: Global, part: &Option<Part>) -> Result<Option<Part>, NoMemory>
    ensures { IfOk result (λ p. p ≡ part.now) }
{
    match part {
        Some(part) => Ok(Some(part.copy(alloc)?)),
        None => Ok(None),
    }
}

fn is_same_part(one: &Option<Part>, other: &Option<Part>) -> bool
    ensures { result ≡ same_part one.now other.now }
{
    match (one, other) {
        (None, None) => true,
        (Some(one), Some(other)) => one.bytes() == other.bytes(),
        _ => false,
    }
}

impl Jid {
    /// The address that the bytes spell. Costs one copy of its parts.
    pub fn read(alloc: Global, bytes: &[u8]) -> Result<Jid, JidFault>
        ensures ok { IfOk result (λ j. address_of bytes.now ≡ Ok j) }
        ensures fault { IfErr result (IsCause (address_of bytes.now)) }
    {
        let (rest, resource) = cut_at(b'/', bytes);
        let (front, after) = cut_at(b'@', rest);
        let (local, domain) = match after {
            Some(domain) => (Some(Part::local(alloc, front)?), domain),
            None => (None, rest),
        };
        let domain = Part::domain(alloc, domain)?;
        let resource = match resource {
            Some(bytes) => Some(Part::resource(alloc, bytes)?),
            None => None,
        };
        Ok(Jid {
            local,
            domain,
            resource,
        })
    }

    /// Another address of the same parts.
    pub fn copy(&self, alloc: Global) -> Result<Jid, NoMemory>
        ensures { IfOk result (λ j. j ≡ self.now) }
    {
        Ok(Jid {
            local: copy_part(alloc, &self.local)?,
            domain: self.domain.copy(alloc)?,
            resource: copy_part(alloc, &self.resource)?,
        })
    }

    /// The same address without its resource (RFC 6120, 1.4).
    pub fn bare(&self, alloc: Global) -> Result<Jid, NoMemory>
        ensures { IfOk result (λ j. j ≡ bare self.now) }
    {
        Ok(Jid {
            local: copy_part(alloc, &self.local)?,
            domain: self.domain.copy(alloc)?,
            resource: None,
        })
    }

    /// Whether both have the same parts.
    pub fn is_same(&self, other: &Jid) -> bool
        ensures test { result ≡ same_address self.now other.now }
        ensures same { IsTrue result ↔ (self.now ≡ other.now) }
    {
        self.is_same_bare(other) && is_same_part(&self.resource, &other.resource)
    }

    /// Whether both have the same local part and domain.
    pub fn is_same_bare(&self, other: &Jid) -> bool
        ensures test { result ≡ same_bare self.now other.now }
        ensures same { IsTrue result ↔ (bare self.now ≡ bare other.now) }
    {
        is_same_part(&self.local, &other.local) && self.domain.bytes() == other.domain.bytes()
    }

    /// Appends `local@domain/resource`, whole or not at all (RFC 7622, 3.1).
    #[tactic(auto, using(crate::proofs::AddressLemmas::address_text_short, crate::proofs::AddressLemmas::address_text_utf8))]
    pub fn write(&self, out: &mut Vec<u8>) -> Result<(), NoMemory>
        ensures ok { OnOk result (out.new.items ≡ out.old.items ++ address_text self.now) }
        ensures err { OnErr result (out.new.items ≡ out.old.items) }
        ensures short { length (address_text self.now) ≤ 3071 }
        ensures utf8 { IsUtf8 (address_text self.now) }
    {
        let _ = &self.domain;
        let len = out.len();
        let written = self.push(out);
        if written.is_err() {
            out.truncate(len);
        }
        written
    }

    // Where memory is wanting, a part of the text may stand behind what was there.
    fn push(&self, out: &mut Vec<u8>) -> Result<(), NoMemory>
        ensures ok { OnOk result (out.new.items ≡ out.old.items ++ address_text self.now) }
        ensures kept { take (length out.old.items) out.new.items ≡ out.old.items }
    {
        if let Some(local) = &self.local {
            out.extend_from_slice(local.bytes())?;
            out.extend_from_slice(b"@")?;
        }
        out.extend_from_slice(self.domain.bytes())?;
        if let Some(resource) = &self.resource {
            out.extend_from_slice(b"/")?;
            out.extend_from_slice(resource.bytes())?;
        }
        Ok(())
    }
}
