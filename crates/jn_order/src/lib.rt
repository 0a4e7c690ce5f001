//! What files are, and what operations do to them and are answered. Definitions alone.
#![tactic(auto)]
