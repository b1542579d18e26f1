// A level of a BUMP that was read before: its leaves in the order of their offsets, and two such levels side by side.
#![tactic(auto)]

mod level;
mod order;

pub use level::{flags_of, front, lesser, next_offset, past, place_of};
pub use order::{Gathered, offset_at, order_level};
