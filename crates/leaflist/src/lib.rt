// A list of a BUMP's leaves beside its bytes, by level and offset: built, and searched alone (paper 02, Item 14).
#![tactic(auto)]

mod building;
mod searching;

pub use building::build;
pub use searching::search;
