//! The names and addresses of a drill's clients, and of their room.
ghost use Rattle.std.specs.Prelude.{◌≡◌, ◌<◌, IfOk, IsOk, Ok, codes};
ghost use Rattle.jid_core.specs.Addresses.{address_of};
ghost use Rattle.jid_core.specs.Preparation.{local_of, resource_of};
ghost use Rattle.replay_script.specs.DrillStanzas.{client, room, seat, user};

use jid_core::{Jid, JidFault, Part};
use stanza_tree::NoMemory;
use std::alloc::Global;

/// The local part that a text is known to be.
fn read_local(alloc: Global, text: &[u8]) -> Result<Part, NoMemory>
    requires { IsOk (local_of text.now) }
    ensures { IfOk result (λ p. local_of text.now ≡ Ok p) }
{
    match Part::local(alloc, text) {
        Ok(part) => Ok(part),
        Err(JidFault::NoMemory) => Err(NoMemory),
        Err(_) => unreachable!(),
    }
}

/// The resource that a text is known to be.
fn read_resource(alloc: Global, text: &[u8]) -> Result<Part, NoMemory>
    requires { IsOk (resource_of text.now) }
    ensures { IfOk result (λ p. resource_of text.now ≡ Ok p) }
{
    match Part::resource(alloc, text) {
        Ok(part) => Ok(part),
        Err(JidFault::NoMemory) => Err(NoMemory),
        Err(_) => unreachable!(),
    }
}

/// `uI`.
pub(crate) fn user(alloc: Global, i: u32) -> Result<Part, NoMemory>
    requires { i < 8 }
    ensures { IfOk result (λ p. p ≡ user i) }
{
    let text = format!(in alloc; "u{}", i)?;
    read_local(alloc, text.as_bytes())
}

/// `r`.
pub(crate) fn resource(alloc: Global) -> Result<Part, NoMemory>
    ensures { IfOk result (λ p. p ≡ codes "r") }
{
    read_resource(alloc, b"r")
}

/// The address that a text is known to spell.
fn read_address(alloc: Global, text: &[u8]) -> Result<Jid, NoMemory>
    requires { IsOk (address_of text.now) }
    ensures { IfOk result (λ j. address_of text.now ≡ Ok j) }
{
    match Jid::read(alloc, text) {
        Ok(address) => Ok(address),
        Err(JidFault::NoMemory) => Err(NoMemory),
        Err(_) => unreachable!(),
    }
}

/// `drill@rooms.example.org`.
pub(crate) fn room(alloc: Global) -> Result<Jid, NoMemory>
    ensures { IfOk result (λ j. j ≡ room) }
{
    read_address(alloc, b"drill@rooms.example.org")
}

/// `drill@rooms.example.org/uI`.
pub(crate) fn seat(alloc: Global, i: u32) -> Result<Jid, NoMemory>
    requires { i < 8 }
    ensures { IfOk result (λ j. j ≡ seat i) }
{
    let text = format!(in alloc; "drill@rooms.example.org/u{}", i)?;
    read_address(alloc, text.as_bytes())
}

/// `uI@example.org/r`.
pub(crate) fn client(alloc: Global, i: u32) -> Result<Jid, NoMemory>
    requires { i < 8 }
    ensures { IfOk result (λ j. j ≡ client i) }
{
    let text = format!(in alloc; "u{}@example.org/r", i)?;
    read_address(alloc, text.as_bytes())
}
