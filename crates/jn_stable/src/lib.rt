//! Stable pages (Lampson and Sturgis 1979): each is kept as an ordered pair of careful pages.
//!
//! A put writes the first half and, once that has succeeded, the second, so that a stop leaves at
//! least one of them whole. Of each pair at least one half is always good.
#![tactic(auto)]

mod one_call;
mod pairs;
mod power;

pub use one_call::a_good_first_half_is_got_by_one_call;
pub use pairs::Pairs;
