// Values that can be worked out (specs/Values.antt): a node's value and the join of its two children call each other, one level lower at each turn.
ghost use Rattle.std.specs.Prelude.{◌≡◌, ◌≤◌, ◌<◌, length};
ghost use Rattle.spv.specs.Climb.{absent};
ghost use Rattle.spv.specs.Values.{has_value, value_by, join_both, join_of, value_of};
ghost use Rattle.spv.specs.Siblings.{written, written_by, find_at, path_join};
ghost use Rattle.spv.specs.Marks.{Marked};
ghost use Rattle.spv.specs.PositionFits.{PositionFits};
ghost use Rattle.spv.specs.Shapes.{sibling_of};

use super::marks::{MARKS, find_marked, mark_at};
use super::node::{Node, value_at};
use format::{Kind, Layout};
use path::{Form, LAYERS, Path};

#[tactic(auto, unfolding(crate::specs::Values::has_value))]
pub fn has_value(node: Node) -> bool
    ensures { result ≡ has_value (sibling_of node) }
{
    matches!(node, Node::Value(_))
}

// The join of two children that both have a value.
#[tactic(auto, unfolding(crate::specs::Values::join_both))]
pub fn join_both(l: Node, r: Node) -> Node
    ensures { sibling_of result ≡ join_both (sibling_of l) (sibling_of r) }
{
    match (l, r) {
        (Node::Value(a), Node::Value(b)) => Node::Value(hash::join(a, b)),
        _ => Node::Absent,
    }
}

// The value of a leaf that is written, by the value that a copy there has.
#[tactic(auto, unfolding(crate::specs::Values::value_by, crate::specs::Siblings::written))]
fn value_here(s: &[u8], kind: Kind, copy: Node) -> Node
    ensures { sibling_of result ≡ value_by (written s.now kind) (sibling_of copy) absent }
{
    match kind {
        Kind::Plain(place) | Kind::Client(place) => value_at(s, place),
        Kind::Copy => copy,
    }
}

// The join of a node's children: nothing more is looked up once the left one has no value, and a copy on the right takes that value as it is at hand.
#[cycle(join_of_value_of)]
fn join_of(
    s: &[u8],
    places: &[usize; LAYERS],
    marks: &[u32; MARKS],
    layout: Layout,
    layer: usize,
    position: u64,
) -> Node
    requires { (Marked layout s.now places.now marks.now) × (layer ≤ 64) × (PositionFits layer position) }
    ensures { sibling_of result ≡ join_of (written_by s.now (find_at layout s.now places.now)) layer position }
{
    if layer == 0 {
        return Node::Absent;
    }
    let l = value_of(
        s,
        places,
        marks,
        layout,
        layer - 1,
        2 * position,
        Node::Absent,
    );
    if !has_value(l) {
        return Node::Absent;
    }
    let r = value_of(s, places, marks, layout, layer - 1, 2 * position + 1, l);
    join_both(l, r)
}

// A node's value, by the value that a copy there has.
#[cycle(join_of_value_of)]
fn value_of(
    s: &[u8],
    places: &[usize; LAYERS],
    marks: &[u32; MARKS],
    layout: Layout,
    layer: usize,
    position: u64,
    copy: Node,
) -> Node
    requires { (Marked layout s.now places.now marks.now) × (layer < 64) × (PositionFits layer position) }
    ensures { sibling_of result ≡ value_of (written_by s.now (find_at layout s.now places.now)) (sibling_of copy) layer position }
{
    match find_marked(s, places, marks, layout, layer, position) {
        Some(kind) => value_here(s, kind, copy),
        None => join_of(s, places, marks, layout, layer, position),
    }
}

// The join of a node's children in levels at these places, by the marks of those below the layer. (The marks are made where they lie, so that they are
// on the stack once.)
fn join_at(s: &[u8], places: [usize; LAYERS], layout: Layout, layer: usize, position: u64) -> Node
    requires { (layer ≤ 64) × (PositionFits layer position) }
    ensures { sibling_of result ≡ join_of (written_by s.now (find_at layout s.now places)) layer position }
{
    let mut marks = [0u32; MARKS];
    let mut before: u32 = 0;
    for y in 0..16 * layer {
        before = mark_at(s, &places, layout, before, y);
        marks[y] = before;
    }
    join_of(s, &places, &marks, layout, layer, position)
}

// The join of a node's children in a path, below its layers; a TSC proof has none.
pub(crate) fn join_in(s: &[u8], path: Path, layer: usize, position: u64) -> Node
    requires { layer < 64 → PositionFits layer position }
    ensures { sibling_of result ≡ path_join s.now path layer position }
{
    if path.layers <= layer {
        return Node::Absent;
    }
    if LAYERS <= layer {
        return Node::Absent;
    }
    let places = path.at;
    match path.form {
        Form::Bump => join_at(s, places, Layout::Bump, layer, position),
        Form::Cmp => join_at(s, places, Layout::Cmp, layer, position),
        Form::Tsc => Node::Absent,
    }
}
