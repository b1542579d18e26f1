// Two BUMPs of one block merged: the bytes of the merged path and the list of its leaves (paper 02, Item 14).
#![tactic(auto)]

mod joining;
mod merging;
mod uniting;

pub use merging::{Merged, merge};
