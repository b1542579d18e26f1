// A raw transaction that arrives in parts (02, Item 10).
#![tactic(auto)]

mod digits;
mod hashing;
mod progress;
mod state;
mod walk;

pub use state::{Answer, State, end, part, start};
