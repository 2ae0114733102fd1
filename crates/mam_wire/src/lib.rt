//! Queries of archives and what they are answered with, as elements (XEP-0313).
#![tactic(auto)]

mod answer;
mod asking;
mod fault;
mod filter;
mod form;
mod make;
mod moment;
mod query;
mod shown;
mod stamp;

pub use answer::fin;
pub use fault::QueryFault;
pub use form::query_form;
pub use moment::read_stamp;
pub use query::{Query, read_query};
pub use shown::{result, result_message, stamp_text};
pub use stamp::write_stamp;
