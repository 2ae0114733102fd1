//! Pages of an archive: which of its rows a request is answered with (XEP-0313, 4, with XEP-0059).
#![tactic(auto)]

pub mod ask;
pub mod laws;
pub mod matching;
mod paging;
mod picking;
pub mod placing;
mod spans;

pub use ask::{Filter, Page, PageAsk, PageFault, Row};
pub use paging::page;
pub use picking::{page_of, page_of_all};
pub use placing::row_of;
