//! What clients call, of both kinds as one: calls on the bytes of a file, and calls on the names of a directory. So no
//! crate above tells the kinds apart.
#![tactic(auto)]

mod laws;
mod order;
mod reply;
mod state;

pub use laws::{a_turn_leaves_fewer, an_exchange_is_its_call, operations_of_calls_are_in_range};
pub use order::Order;
pub use reply::{CallNext, Reply, Wish};
pub use state::{CallState, first_op};
