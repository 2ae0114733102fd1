//! How a room is configured: its settings as a form, and what a submitted form asks for (XEP-0045, 10.1 and 10.2, with XEP-0004).
#![tactic(auto)]

pub mod draft;
pub mod setting;

pub use draft::{Draft, config_of, has_wrong, lacks_password, lacks_type, put_all};
pub use setting::{FORM_SPACE, config_form};
