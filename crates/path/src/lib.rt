// Searching in what was read: the leaf at a layer and position, the offset of an id.
#![tactic(auto)]

mod path;
mod subject;
mod walk;

pub use path::{Form, LAYERS, Path, bump_path, cmp_path, find, find_id, find_in_level, tsc_path};
pub use subject::{subject_id, target_root};
pub use walk::leaf_at;
