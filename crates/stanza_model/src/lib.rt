//! Stanzas and nonzas as values (RFC 6120, 8; XEP-0198; XEP-0004).
#![tactic(auto)]

pub mod condition;
pub mod effect;
pub mod error;
pub mod form;
pub mod here;
pub mod ids;
pub mod keeping;
pub mod kinds;
pub mod limits;
pub mod make;
pub mod nonza;
pub mod reply;
pub mod room;
pub mod roster;
pub mod shared;
pub mod stanza;

pub use condition::Condition;
pub use effect::{Change, Effect};
pub use error::error_reply;
pub use form::{DataForm, Field, FormFault};
pub use here::Here;
pub use ids::{has_body, sent_with_id, sent_without_ids, spelt_with_id};
pub use keeping::Keeping;
pub use kinds::{IqForm, Kind, MessageForm, PresenceForm};
pub use limits::{MOST_CONTACTS, MOST_ROSTER_BYTES, counted};
pub use nonza::Nonza;
pub use reply::{error_of, may_be_answered, refuse, result_of, say_to};
pub use room::{
    Affiliated, Affiliation, Delayed, Nicked, Occupant, Role, Room, RoomItem, Seat, Verdict,
};
pub use roster::{item, item_as, push_all, query_of, removed_item, roster_push};
pub use shared::{Config, Contact, Outcome, Roster, Show, Shown, Side, Subscription};
pub use stanza::{Stanza, StanzaFault};
