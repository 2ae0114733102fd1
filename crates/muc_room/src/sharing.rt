//! Views of an item that several sessions share (XEP-0045, 7.2.2).
ghost use Rattle.std.specs.Prelude.{◌≡◌, IfOk};
ghost use Rattle.muc_room.specs.Views.{seen, seen_by_others, shared_views, view};

use crate::views::{is_among, presence_as, seen};
use jid_core::Jid;
use stanza_model::make::written;
use stanza_model::{RoomItem, Shown};
use stanza_tree::{NoMemory, Text};
use std::alloc::Global;

/// The texts of those views of an item that are nobody's own, each spelt once. Their copies share their bytes.
#[derive(Drop)]
pub struct SharedViews {
    /// For those who see the addresses of others.
    pub full: Text,
    /// For the rest.
    pub plain: Text,
}

/// How an item looks to a session that it isn't about. Who is in a room that is destroyed sees that of itself alone.
fn seen_by_others(alloc: Global, item: &RoomItem, sees: bool, room: &Jid) -> Result<Text, NoMemory>
    ensures { IfOk result (λ t. t ≡ seen_by_others item.now sees room.now) }
{
    let mut text = match item {
        RoomItem::Presence { address, .. } => {
            presence_as(alloc, item, false, sees.then_some(address), room)?
        }
        RoomItem::Message { text, .. } => text.copy(alloc)?,
        RoomItem::Destroyed { .. } => Text::empty(alloc),
    };
    text.share(alloc)?;
    Ok(text)
}

/// The views of an item that the room of this bare address broadcasts, for the sessions that it isn't about.
pub fn shared_views(alloc: Global, item: &RoomItem, room: &Jid) -> Result<SharedViews, NoMemory>
    ensures { IfOk result (λ shared. shared ≡ shared_views item.now room.now) }
{
    Ok(SharedViews {
        full: seen_by_others(alloc, item, true, room)?,
        plain: seen_by_others(alloc, item, false, room)?,
    })
}

/// The text of a view without its `to`: spelt anew where it is the session's own, and else a shared one.
fn seen_sharing(
    alloc: Global,
    item: &RoomItem,
    shared: &SharedViews,
    sees: bool,
    room: &Jid,
    session: u64,
    to: &Jid,
) -> Result<Text, NoMemory>
    requires { shared.now ≡ shared_views item.now room.now }
    ensures { IfOk result (λ t. t ≡ seen item.now sees room.now session to.now) }
{
    match item {
        RoomItem::Presence { sessions, .. } => {
            match (is_among(session, sessions.slice()), sees) {
                (true, _) => seen(alloc, item, sees, room, session, to),
                (false, true) => shared.full.copy(alloc),
                (false, false) => shared.plain.copy(alloc),
            }
        }
        RoomItem::Message { text, .. } => text.copy(alloc),
        RoomItem::Destroyed { .. } => seen(alloc, item, sees, room, session, to),
    }
}

/// The view of an item that the room of this bare address broadcasts, for the session of this number and this full address (XEP-0045,
/// 7.2.2). `sees` says whether it sees the addresses of others. Costs a spelling where it is the session's own view of itself, and else
/// shares one of the item's `shared_views`.
pub fn view(
    alloc: Global,
    item: &RoomItem,
    shared: &SharedViews,
    sees: bool,
    room: &Jid,
    session: u64,
    address: &Jid,
) -> Result<Shown, NoMemory>
    requires { shared.now ≡ shared_views item.now room.now }
    ensures { IfOk result (λ shown. shown ≡ view item.now sees room.now session address.now) }
{
    Ok(Shown {
        to: written(alloc, address)?,
        rest: seen_sharing(alloc, item, shared, sees, room, session, address)?,
    })
}
