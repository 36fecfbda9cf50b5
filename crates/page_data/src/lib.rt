//! The page of a query: its definition, and its text.
//!
//! The definitions stand in specs/: the rows as a page has them, where a row that goes on as the one before it is one byte
//! (Rows.antt); the data of a page, rows and run and query (Data.antt); and the page, its data between two constant texts
//! (Page.antt). Proved (`laws`): pages of runs that are the same are of the same report, so a page tells the whole report; and
//! queries that are alike have the same data.
//!
//! Crates above rest on this: `page` is `page_report` of the definitions, a function of the query, the state that the run
//! begins in, and its log; `sources_of` is the source bytes that the run received and a query chooses.
#![tactic(auto)]

mod calls;
mod channels;
mod data;
pub mod laws;
mod pages;
mod rows;
mod sources;

pub use pages::page;
pub use sources::sources_of;
