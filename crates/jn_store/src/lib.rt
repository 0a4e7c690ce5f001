//! A store of stable pages, as the layers above see it, and a plain one without faults.
//!
//! Stable storage is that of Lampson and Sturgis (1979): a put that is answered Ok is there, and one
//! that is stopped leaves the old page or the new. `specs/Store.antt` says what each call does,
//! `specs/Answers.antt` when it is answered Ok whatever faults wait,
//! `specs/Choices.antt` has the words in which the layers above speak of what a stop may leave, and
//! `proofs/Laws.antt` and `proofs/Choices.antt` have the lemmas.
#![tactic(auto)]

mod array;
mod ok_laws;
mod powered;
mod store;

pub use array::ArrayStore;
pub use ok_laws::{
    a_cleanup_is_ok_unless_a_stop_strikes, a_get_is_ok_unless_a_stop_strikes,
    a_put_is_ok_unless_a_stop_strikes, a_stopped_run_has_met_a_stop,
    a_store_without_stops_stays_so,
};
pub use powered::Powered;
pub use store::StableStore;
