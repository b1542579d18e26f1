// The BUMP of chosen positions of a block's ids.
#![tactic(auto)]

mod block;
mod ids;
mod level;
mod marks;
mod tree;

pub use block::write_bump;
