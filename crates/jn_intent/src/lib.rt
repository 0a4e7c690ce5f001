//! The storage of a server over any store of stable pages: files, prepared works and commit flags. Each change of them is one
//! put of one page, but for two: a cut that falls inside of a map page puts that page and then the head, and so does a put
//! that comes with a new map page.
//!
//! A work is prepared by an intentions list (Lampson and Sturgis 1979): its data pages and intention records are put
//! first and count for nothing, and then its ready record is put, by which it is prepared whole. A new map page is held from
//! then on, and put once its intention is carried out. What is kept in memory is what stands on the pages; it comes from a
//! recovery (`jn_recovery`).
#![tactic(auto)]

mod carry;
mod files;
mod flags;
mod intents;
mod load;
mod prepare;
mod store;
mod works;

pub use intents::Intents;
pub use jn_recovery::{DownCause, Found, PageCounts};
pub use load::Down;
