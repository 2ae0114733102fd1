//! What a room says of itself (XEP-0045, 6.4).
ghost use Rattle.std.specs.Prelude.{◌≡◌, map, IfOk};
ghost use Rattle.std.specs.Option.{option_copied};
ghost use Rattle.stanza_router.specs.Discovery.{address_feature, entry_feature, info_if, room_features, room_identity, room_info, secret_feature};
ghost use Rattle.stanza_router.specs.Discovery.{stay_feature, voice_feature};

use crate::discovery::{ARCHIVE_SPACE, Found, IDS_SPACE, INFO_SPACE, ROOMS_SPACE, described_as};
use crate::listed::Listed;
use stanza_model::make::{element_of, push_attr, text_of};
use stanza_model::{Condition, Config};
use stanza_tree::{Element, NoMemory, Text};
use std::alloc::Global;

/// A room that isn't listed isn't known.
pub(crate) fn info_if(alloc: Global, room: Option<&Listed>) -> Result<Found, NoMemory>
    ensures { IfOk result (λ answer. answer ≡ info_if (option_copied room.entry)) }
{
    match room {
        Some(room) => Ok(Ok(room_info(alloc, room)?)),
        None => Ok(Err(Condition::ItemNotFound)),
    }
}

fn room_info(alloc: Global, room: &Listed) -> Result<Element, NoMemory>
    ensures { IfOk result (λ e. e ≡ room_info room.now) }
{
    let identity = room_identity(alloc, &room.title)?;
    let features = room_features(&room.config);
    described_as(alloc, identity, &features)
}

/// A room, with its title.
fn room_identity(alloc: Global, title: &Text) -> Result<Element, NoMemory>
    ensures { IfOk result (λ e. e ≡ room_identity title.now) }
{
    let mut attrs = Vec::new(alloc);
    push_attr(&mut attrs, alloc, "category", text_of(alloc, "conference")?)?;
    push_attr(&mut attrs, alloc, "name", title.copy(alloc)?)?;
    push_attr(&mut attrs, alloc, "type", text_of(alloc, "text")?)?;
    element_of(alloc, INFO_SPACE, "identity", attrs, Vec::new(alloc))
}

/// What a room supports: an archive (XEP-0313, 6) whose ids are those of stanzas (XEP-0359, 4), and one feature of each pair, by how it is
/// configured (XEP-0045, 15.3).
fn room_features(c: &Config) -> [&'static str; 10]
    ensures { map (λ f. f.now) result ≡ room_features c.now }
{
    [
        INFO_SPACE,
        ROOMS_SPACE,
        ARCHIVE_SPACE,
        IDS_SPACE,
        entry_feature(c.members_only),
        voice_feature(c.moderated),
        address_feature(c.anyone),
        secret_feature(c.secret.bytes().is_empty()),
        stay_feature(c.persistent),
        "muc_public",
    ]
}

fn entry_feature(members_only: bool) -> &'static str
    ensures { result.now ≡ entry_feature members_only }
{
    if members_only {
        "muc_membersonly"
    } else {
        "muc_open"
    }
}

fn voice_feature(moderated: bool) -> &'static str
    ensures { result.now ≡ voice_feature moderated }
{
    if moderated {
        "muc_moderated"
    } else {
        "muc_unmoderated"
    }
}

fn address_feature(anyone: bool) -> &'static str
    ensures { result.now ≡ address_feature anyone }
{
    if anyone {
        "muc_nonanonymous"
    } else {
        "muc_semianonymous"
    }
}

fn secret_feature(unguarded: bool) -> &'static str
    ensures { result.now ≡ secret_feature unguarded }
{
    if unguarded {
        "muc_unsecured"
    } else {
        "muc_passwordprotected"
    }
}

fn stay_feature(persistent: bool) -> &'static str
    ensures { result.now ≡ stay_feature persistent }
{
    if persistent {
        "muc_persistent"
    } else {
        "muc_temporary"
    }
}
