// Judging a BEEF against a list of trusted roots, into a table that the caller lends.
#![tactic(auto)]

mod anchored;
mod ids;
mod judge;
mod marks;
mod outputs;
mod parents;
mod pass;
mod sums;
mod table;
mod work;

pub use judge::{Judged, Verdict};
pub use table::{Record, Row, blank, judge_beef, judge_row};
