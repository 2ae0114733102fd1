//! Rooms, as the service lists them.
use jid_core::Jid;
use stanza_model::Config;
use stanza_tree::Text;

/// A room that the service lists: one that is not locked.
#[derive(Drop)]
pub struct Listed {
    pub address: Jid,
    pub title: Text,
    pub config: Config,
}
