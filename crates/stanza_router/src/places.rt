//! Where stanzas go.
use jid_core::Part;

/// Where a stanza goes, by its address (RFC 6120, 10.3 to 10.5).
#[derive(Drop)]
pub enum Place {
    /// The sender's own account: it has no address, or the sender's bare address.
    Account,
    /// The server itself.
    Server,
    /// Another user of the server, by the local part.
    User(Part),
    /// A session of a user, by the local part and the resource.
    UserAt(Part, Part),
    /// The service that has the rooms (XEP-0045, 6.1).
    Service,
    /// A room, by the local part.
    Room(Part),
    /// An occupant of a room, by the local part and the nick.
    RoomAt(Part, Part),
    /// Another domain.
    Foreign,
}
