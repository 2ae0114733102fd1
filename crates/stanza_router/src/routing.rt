//! Which place an address is.
ghost use Rattle.std.specs.Prelude.{◌≡◌, IfOk, Some, bytes_eq};
ghost use Rattle.std.specs.Option.{option_copied};
ghost use Rattle.stanza_router.specs.Places.{at_server, at_service, place_of, service_domain};

use crate::places::Place;
use jid_core::{Jid, Part};
use stanza_tree::NoMemory;
use std::alloc::Global;

/// What stands before the server's domain in that of the service of rooms.
pub(crate) const SERVICE_PREFIX: &str = "rooms.";

/// The place that an address is for a user of the server of this domain. Costs a copy of its parts.
pub fn place(alloc: Global, to: Option<&Jid>, user: &Part, domain: &Part) -> Result<Place, NoMemory>
    ensures { IfOk result (λ p. p ≡ place_of user.now domain.now (option_copied to.entry)) }
{
    let Some(to) = to else {
        return Ok(Place::Account);
    };
    if to.domain.bytes() == domain.bytes() {
        at_server(alloc, to, user)
    } else if is_service(to.domain.bytes(), domain.bytes()) {
        at_service(alloc, to)
    } else {
        Ok(Place::Foreign)
    }
}

/// Whether it is the domain of the service of rooms.
fn is_service(domain: &[u8], server: &[u8]) -> bool
    ensures { result ≡ bytes_eq domain.now (service_domain server.now) }
{
    domain.strip_prefix(SERVICE_PREFIX.as_bytes()) == Some(server)
}

fn at_server(alloc: Global, to: &Jid, user: &Part) -> Result<Place, NoMemory>
    ensures { IfOk result (λ p. p ≡ at_server user.now to.now.local to.now.resource) }
{
    match (&to.local, &to.resource) {
        (None, _) => Ok(Place::Server),
        (Some(local), None) if local.bytes() == user.bytes() => Ok(Place::Account),
        (Some(local), None) => Ok(Place::User(local.copy(alloc)?)),
        (Some(local), Some(resource)) => {
            Ok(Place::UserAt(local.copy(alloc)?, resource.copy(alloc)?))
        }
    }
}

fn at_service(alloc: Global, to: &Jid) -> Result<Place, NoMemory>
    ensures { IfOk result (λ p. p ≡ at_service to.now.local to.now.resource) }
{
    match (&to.local, &to.resource) {
        (None, _) => Ok(Place::Service),
        (Some(room), None) => Ok(Place::Room(room.copy(alloc)?)),
        (Some(room), Some(nick)) => Ok(Place::RoomAt(room.copy(alloc)?, nick.copy(alloc)?)),
    }
}
