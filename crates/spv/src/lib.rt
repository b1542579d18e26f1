// Merkle root computation over the published forms of Merkle proof: proving an id and comparing two proofs, of one number of layers or of two.
#![tactic(auto)]

mod climb;
mod compare;
mod depth;
mod marks;
mod node;
mod prove;
mod rejection;
mod spans;
mod trace;
mod values;

pub use climb::{Halves, climb_from, fold, parent_of, sibling_position};
pub use compare::{Pair, compare_proofs};
pub use depth::{DepthPair, compare_depths};
pub use node::{Node, written_node};
pub use prove::{Proved, hits_target, prove_bump, prove_cmp, prove_in, prove_tsc};
pub use rejection::{Rejection, reject, reject_for, reject_reading};
pub use spans::{Span, set_four, span_hashes};
pub use trace::{Traced, trace_bump};
pub use values::{has_value, join_both};
