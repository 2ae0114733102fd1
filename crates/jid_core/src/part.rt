//! Prepared parts of addresses.
ghost use Rattle.std.specs.Prelude.{◌≡◌, Ok, IfOk, IfErr, IsTrue, IsUtf8};
ghost use Rattle.jid_core.specs.Preparation.{is_local, is_resource, is_domain, local_of, resource_of, domain_of, IsCause};

use crate::fault::{JidFault, NoMemory};
use crate::held::Held;
use crate::prepare::{prepared_domain, prepared_local, prepared_resource};
use std::alloc::Global;
use std::marker::Model;

/// A prepared part of an address, seen as its bytes. Each is fit to be a resource.
pub struct Part {
    held: Held,
}

// One call wherever a part is dropped, whatever holds its bytes.
impl Drop for Part {
    fn drop(self) {
        let Part { held } = self;
        drop(held);
    }
}

impl Model for Part {
    ghost use Rattle.std.specs.Prelude.{List, ℕ, IsTrue};
    ghost use Rattle.jid_core.specs.Held.{bytes_of};
    ghost use Rattle.jid_core.specs.Preparation.{is_resource};

    ghost Value = { List ℕ };

    ghost view = { λ p. bytes_of p.held };

    ghost invariant = { λ p. IsTrue (is_resource (bytes_of p.held)) };
}

impl Part {
    /// A local part (RFC 7622, 3.3): its letters of ASCII are lowered, and what comes of that is in Normalization Form C.
    pub fn local(alloc: Global, bytes: &[u8]) -> Result<Part, JidFault>
        ensures ok { IfOk result (λ p. local_of bytes.now ≡ Ok p) }
        ensures prepared { IfOk result (λ p. IsTrue (is_local p)) }
        ensures fault { IfErr result (IsCause (local_of bytes.now)) }
    {
        Ok(Part {
            held: Held::of(prepared_local(alloc, bytes)?),
        })
    }

    /// A resource (RFC 7622, 3.4): it is brought to Normalization Form C.
    pub fn resource(alloc: Global, bytes: &[u8]) -> Result<Part, JidFault>
        ensures ok { IfOk result (λ p. resource_of bytes.now ≡ Ok p) }
        ensures fault { IfErr result (IsCause (resource_of bytes.now)) }
    {
        Ok(Part {
            held: Held::of(prepared_resource(alloc, bytes)?),
        })
    }

    /// A domain (RFC 7622, 3.2): it loses one final dot, and is given UTS 46 ToASCII.
    pub(crate) fn domain(alloc: Global, bytes: &[u8]) -> Result<Part, JidFault>
        ensures ok { IfOk result (λ p. domain_of bytes.now ≡ Ok p) }
        ensures prepared { IfOk result (λ p. IsTrue (is_domain p)) }
        ensures fault { IfErr result (IsCause (domain_of bytes.now)) }
    {
        Ok(Part {
            held: Held::of(prepared_domain(alloc, bytes)?),
        })
    }

    /// The part's bytes.
    pub fn bytes(&self) -> &[u8]
        ensures bytes { result.now ≡ self.now }
        ensures prepared { IsTrue (is_resource self.now) }
        ensures utf8 { IsUtf8 self.now }
    {
        self.held.slice()
    }

    /// Another part of the same bytes. Takes no memory where they are few.
    pub fn copy(&self, alloc: Global) -> Result<Part, NoMemory>
        ensures { IfOk result (λ p. p ≡ self.now) }
    {
        Ok(Part {
            held: self.held.copy(alloc)?,
        })
    }
}
