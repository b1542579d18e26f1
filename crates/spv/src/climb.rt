// The climb of 01, the same for every form (specs/Climb.antt).
ghost use Rattle.std.specs.Prelude.{◌≡◌, ◌<◌, ◌++◌};
ghost use Rattle.hash.specs.Sha256.{sha256d};
ghost use Rattle.spv.specs.Climb.{joined, step, odd, sibling_position, ascend, end_of};
ghost use Rattle.spv.specs.Siblings.{path_siblings};
ghost use Rattle.spv.specs.PositionFits.{PositionFits};
ghost use Rattle.spv.specs.Shapes.{sibling_of, step_of, climbed_of};

use super::node::{Node, written_node};
use super::rejection::Rejection;
use super::values::join_in;
use format::Refusal;
use path::Path;

// The two halves of what a layer hashes.
#[derive(Clone, Copy)]
pub struct Halves {
    pub left: [u8; 32],
    pub right: [u8; 32],
}

// The hash that a layer makes.
pub fn parent_of(halves: Halves) -> [u8; 32]
    ensures { result ≡ sha256d (halves.left ++ halves.right) }
{
    let left = halves.left;
    let right = halves.right;
    hash::join(left, right)
}

// What a path has at a layer and position, or what can be worked out.
pub(crate) fn sibling_at(s: &[u8], path: Path, layer: usize, position: u64) -> Node
    requires { layer < 64 → PositionFits layer position }
    ensures { sibling_of result ≡ path_siblings s.now path layer position }
{
    match path::find(s, path, layer, position) {
        Some(kind) => written_node(s, kind),
        None => join_in(s, path, layer, position),
    }
}

// The working hash c and its sibling p, in their order.
#[tactic(auto, unfolding(crate::specs::Climb::joined))]
fn placed(odd: bool, c: [u8; 32], p: [u8; 32]) -> Result<Halves, Refusal>
    ensures { step_of result ≡ joined odd c p }
{
    if !odd {
        return Ok(Halves { left: c, right: p });
    }
    if format::same_bytes(p, c) {
        return Err(Refusal::Twin);
    }
    Ok(Halves { left: p, right: c })
}

// One layer: the two halves of what is hashed, or the refusal.
#[tactic(auto, unfolding(crate::specs::Climb::step))]
pub fn fold(node: Node, odd: bool, c: [u8; 32]) -> Result<Halves, Refusal>
    ensures { step_of result ≡ step (sibling_of node) odd c }
{
    match node {
        Node::Value(p) => placed(odd, c, p),
        Node::Copied => placed(odd, c, c),
        Node::Absent => Err(Refusal::Missing),
    }
}

// The position of the sibling of j.
pub fn sibling_position(j: u64) -> u64
    ensures { result ≡ sibling_position j }
{
    if j % 2 == 1 { j - 1 } else { j + 1 }
}

// One layer of a climb in a path, from c at position j.
pub(crate) fn layer_of(
    s: &[u8],
    path: Path,
    layer: usize,
    j: u64,
    c: [u8; 32],
) -> Result<Halves, Refusal>
    requires { PositionFits layer j }
    ensures { step_of result ≡ step (path_siblings s.now path layer (sibling_position j)) (odd j) c }
{
    fold(
        sibling_at(s, path, layer, sibling_position(j)),
        j % 2 == 1,
        c,
    )
}

// The climb from id at position i of a path, over its lowest h layers: the root, or the refusal at a layer, with the sibling's position there.
pub(crate) fn climb_layers(
    s: &[u8],
    path: Path,
    h: usize,
    i: u64,
    id: [u8; 32],
) -> Result<[u8; 32], Rejection>
    ensures { result ≡ climbed_of (end_of id (ascend (path_siblings s.now path) 0 h i id)) }
{
    let mut j = i;
    let mut c = id;
    for k in 0..h {
        match layer_of(s, path, k, j, c) {
            Ok(halves) => {
                c = parent_of(halves);
                j = j / 2;
            }
            Err(refusal) => {
                return Err(Rejection {
                    number: refusal.number(),
                    carried: 0,
                    layer: k,
                    sibling: sibling_position(j),
                });
            }
        }
    }
    Ok(c)
}

// The climb from id at position i of a path.
pub fn climb_from(s: &[u8], path: Path, i: u64, id: [u8; 32]) -> Result<[u8; 32], Rejection>
    ensures { result ≡ climbed_of (end_of id (ascend (path_siblings s.now path) 0 path.layers i id)) }
{
    climb_layers(s, path, path.layers, i, id)
}
