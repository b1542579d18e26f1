// What is written at a layer and position of a path, or of two paths of one block between them (specs/LookUp.antt).
ghost use Rattle.std.specs.Prelude.{◌≡◌, ◌<◌, length};
ghost use Rattle.format.specs.declared.level.Layout.{Layout};
ghost use Rattle.path.specs.Search.{leaf_of_level};
ghost use Rattle.spv.specs.Siblings.{sibling};
ghost use Rattle.spv.specs.Shapes.{sibling_of};
ghost use Rattle.climbs.specs.LookUp.{prefer, looked_up};
ghost use Rattle.climbs.specs.Pass.{is_written};

use format::{Cursor, Layout};
use path::LAYERS;
use spv::{Node, has_value, written_node};

// What is written at a position of the level at a place.
fn node_at(s: &[u8], at: usize, position: u64) -> Node
    ensures { sibling_of result ≡ sibling s.now (leaf_of_level Layout.Bump s.now at position) }
{
    match path::find_in_level(s, Cursor { at }, Layout::Bump, position) {
        Some(kind) => written_node(s, kind),
        None => Node::Absent,
    }
}

// A hash over a copy, either over nothing.
fn prefer(a: Node, b: Node) -> Node
    ensures { sibling_of result ≡ prefer (sibling_of a) (sibling_of b) }
{
    match a {
        Node::Value(_) => a,
        Node::Copied => {
            if has_value(b) {
                return b;
            }
            a
        }
        Node::Absent => b,
    }
}

#[tactic(auto, unfolding(crate::specs::Pass::is_written))]
pub(crate) fn is_written(node: Node) -> bool
    ensures { result ≡ is_written (sibling_of node) }
{
    match node {
        Node::Value(_) => true,
        Node::Copied => true,
        Node::Absent => false,
    }
}

// By the places of the levels of one path, and of another one if there are any.
pub(crate) fn look_up(
    s: &[u8],
    places: &[usize; LAYERS],
    t: &[u8],
    others: &[usize],
    layer: usize,
    position: u64,
) -> Node
    requires { layer < 64 }
    ensures { sibling_of result ≡ looked_up s.now places.now t.now others.now layer position }
{
    let first = node_at(s, places[layer], position);
    if others.len() <= layer {
        return first;
    }
    if has_value(first) {
        return first;
    }
    let second = node_at(t, others[layer], position);
    prefer(first, second)
}
