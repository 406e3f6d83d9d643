//! Moves records between workers: to which worker, in which parcels, and where they wait.
//!
//! The contract for the layers above: `route` and `home` are the definition's; `split` divides a batch by the workers to which its records go, and
//! loses, doubles and reorders nothing; `Cuts` does the same, and divides a batch that comes again only once; a `Mailbox` is a list in order of arrival, from which any place may be taken.
//!
//! Built on `rows`, `record_core` and `semantics`. The crate `events` splits batches with it, and the board's mailboxes are its mailboxes.
#![tactic(auto)]

mod cuts;
mod mailbox;
mod routing;
mod splitting;

pub use cuts::Cuts;
pub use mailbox::Mailbox;
pub use routing::{MAX_WORKERS, Routing, route};
pub use splitting::{Parcel, Parcels, split};
