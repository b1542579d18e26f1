// Two BUMPs side by side: the list of their differences, and the shorter of two that prove an id to one root (paper 02, Item 7).
#![tactic(auto)]

mod listing;
mod shorter;

pub use listing::list_differences;
pub use shorter::shorter_proof;
