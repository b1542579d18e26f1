// Readers of the published layouts of Merkle proofs over lent bytes.
#![tactic(auto)]

mod beef;
mod bump;
mod bumps;
mod bytes;
mod cmp;
mod field;
mod id;
mod input;
mod leaf;
mod level;
mod node;
mod refusal;
mod transaction;
mod tsc;

pub use beef::{Beef, BeefHead, Bundle, EntryHead, read_beef, read_bundle, read_entry};
pub use bump::{Bump, BumpHead, read_bump};
pub use bytes::{hash_at, same_bytes, set_hash};
pub use cmp::{Cmp, CmpHead, read_cmp};
pub use field::{Cursor, Read, one_byte, read_four, read_run, read_varint};
pub use id::span_hash;
pub use leaf::{Kind, Leaf, read_kind};
pub use level::{Layout, level_in_turn};
pub use node::read_node;
pub use refusal::{ReadRefusal, Refusal};
pub use transaction::{
    Input, Items, MAX_TOTAL, TxHead, read_input, read_output, read_transaction, tx_at,
};
pub use tsc::{Subject, Tsc, TscHead, index_fits, read_tsc};
