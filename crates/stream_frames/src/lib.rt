//! XMPP streams (RFC 6120): the bytes of a client become a header, top elements and a close tag.
#![tactic(auto)]

mod builder;
mod builder_apply;
mod builder_runs;
mod built;
mod expanded;
mod framer;
mod markup;
mod names;
mod namespaces;
mod places;
mod plain;
mod runs;
mod tags;
mod tracker;
mod tracker_markup;
mod tracker_runs;
mod unprefixed;
mod wide;
mod work;

pub use framer::{Framer, LIMITS, Short};
pub use stream_grammar::{FrameFault, Item, Limits};
