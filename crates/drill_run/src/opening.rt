//! The house of the drills, before its first event.
ghost use Rattle.std.specs.Prelude.{◌≡◌, ◌<◌, [], IfOk, map};
ghost use Rattle.house_core.specs.Houses.{held};
ghost use Rattle.house_model.specs.Histories.{StandsFor};
ghost use Rattle.replay_script.specs.DrillStanzas.{domain, user};
ghost use Rattle.replay_script.specs.Drills.{clients, house};

use house_core::House;
use jid_core::{Jid, JidFault, Part};
use stanza_tree::NoMemory;
use std::alloc::Global;

/// How many clients there are. Each has a line of its own.
const CLIENTS: u32 = 8;

/// The house, with a user and a line for each client.
pub(crate) fn open_house(alloc: Global) -> Result<House, NoMemory>
    ensures { IfOk result (λ h. StandsFor house [] (held h)) }
{
    let domain = domain(alloc)?;
    let users = users(alloc)?;
    House::new(alloc, &domain, users.as_slice(), CLIENTS)
}

fn domain(alloc: Global) -> Result<Jid, NoMemory>
    ensures { IfOk result (λ jid. jid ≡ domain) }
{
    match Jid::read(alloc, b"example.org") {
        Ok(jid) => Ok(jid),
        Err(fault) => Err(no_memory(fault)),
    }
}

/// `u0` to `u7`.
fn users(alloc: Global) -> Result<Vec<Part>, NoMemory>
    ensures { IfOk result (λ users. users.items ≡ map user clients) }
{
    let mut users = Vec::new(alloc);
    for i in 0..CLIENTS {
        users.push(user(alloc, i)?)?;
    }
    Ok(users)
}

fn user(alloc: Global, i: u32) -> Result<Part, NoMemory>
    requires { i < 8 }
    ensures { IfOk result (λ name. name ≡ user i) }
{
    let name = format!(in alloc; "u{}", i)?;
    match Part::local(alloc, name.as_bytes()) {
        Ok(name) => Ok(name),
        Err(fault) => Err(no_memory(fault)),
    }
}

/// The one fault of a name that is read as it stands.
fn no_memory(fault: JidFault) -> NoMemory
    requires { fault ≡ JidFault.NoMemory }
{
    match fault {
        JidFault::NoMemory => NoMemory,
        JidFault::Empty(_) | JidFault::Long(_) | JidFault::Bad(_, _) => unreachable!(),
    }
}
