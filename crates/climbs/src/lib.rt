// All climbs by one path at once: one pass over the tree, from the leaves to the root, makes each node's value once.
#![tactic(auto)]

mod all;
mod clients;
mod count;
mod lookup;
mod order;
mod pass;
mod prove;
mod reach;
mod rise;
mod row;
mod want;

pub use clients::check_clients;
pub use prove::{ROWS, prove_all, proved_at};
pub use reach::both_reach;
