//! A server over any store of stable pages: a worker and a coordinator on one storage, which come up together, take messages, do
//! background steps, and go down with all that isn't on the pages.
//!
//! `specs/Seen.antt` says what is seen of a server, and when its parts fit. Each call does one row of both its tables
//! (`specs/Handling.antt`): all of its changes, or, where it is stopped, by each pick of halves some of them, from the first on,
//! and of a cut that comes next perhaps a part.
//! `specs/Restarting.antt` says what a restart finds, and that any number of stopped restarts lose and add nothing.
//! `specs/Showing.antt` says what a show reports of the files.
#![tactic(auto)]

mod closing;
mod device;
mod fault;
mod handle;
mod restarting;
mod server;
mod show;
mod step;

pub use fault::ServerFault;
pub use restarting::restart;
pub use server::Server;
pub use show::Shown;
