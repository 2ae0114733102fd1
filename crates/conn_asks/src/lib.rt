//! What the items of a client's stream ask for (RFC 6120), and the texts of the server's own on it.
#![tactic(auto)]

mod asked;
mod asking;
mod binding;
mod challenged;
mod ended;
mod failure;
mod login;
mod requests;
mod stage;
mod stream_error;
mod texts;

pub use asked::Asked;
pub use asking::{ask_header, ask_login, ask_session, ask_stanza};
pub use binding::{Binding, binding_of, prepared};
pub use challenged::Challenged;
pub use ended::{Ended, HeaderFault, ItemFault};
pub use failure::Failure;
pub use login::{DRAW, Exchanging, Sasl, Verdict, challenge, judge, sasl_of};
pub use requests::{header_fault, is_from};
pub use stage::{Purpose, Stage};
pub use stream_error::StreamError;
pub use texts::{
    push_challenge, push_close_tag, push_error, push_failure, push_features, push_header,
    push_invitation, push_login_features, push_refused_resource, push_success, stream_id,
};
