//! The constant texts of a page to look at: its HTML, style and script. Made from page/page.html by page/make_text.
//!
//! Crates above rest on this: `push_head` and `push_tail` append `head` and `tail` of the definitions here, between which the
//! data of a page stands; `head` begins with `mark`.
#![tactic(auto)]

mod head0;
mod tail0;
mod tail1;
mod tail2;
mod texts;

pub use texts::{mark, push_head, push_tail};
