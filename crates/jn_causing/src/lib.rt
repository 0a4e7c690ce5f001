//! Whether what needs a cause in a report has it before.
#![tactic(auto)]

mod causes;

pub use causes::caused;
