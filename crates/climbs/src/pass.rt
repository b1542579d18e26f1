// One pass over the tree (specs/Pass.antt): a node's children first, then each climb under them takes one step, then the node's own value.
ghost use Rattle.std.specs.Prelude.{◌≡◌, ◌+◌, ◌*◌, ◌/◌, ◌^◌, ◌<◌, ◌≤◌, true, false, length, ◌≢◌, slice_index};
ghost use Rattle.climbs.specs.LookUp.{looked_up};
ghost use Rattle.spv.specs.Shapes.{sibling_of};
ghost use Rattle.spv.specs.Values.{has_value};
ghost use Rattle.climbs.specs.Row.{Rows, NotAt, Reached, Under};
ghost use Rattle.climbs.specs.Pass.{join_children, known_sibling, beside_of, Made, Seen, Needed, Stepped, AllStepped, Charged, Setting, Spot, Visited, VisitedCost};

use super::count::{charge, join_cost};
use super::lookup::{is_written, look_up};
use super::row::{above, advance, join_halves, state_at, turn};
use path::LAYERS;
use spv::{Node, has_value, join_both};

// A node's value, and the joins that it cost.
#[derive(Clone, Copy)]
pub struct Known {
    pub node: Node,
    pub joins: u64,
}

// What is written at a layer and position, if it is asked for and something is.
pub(crate) fn written_at(
    s: &[u8],
    places: &[usize; LAYERS],
    t: &[u8],
    others: &[usize],
    layer: usize,
    position: u64,
    want: bool,
) -> Option<Known>
    requires { want ≡ true → layer < 64 }
    ensures { Seen (looked_up s.now places.now t.now others.now) layer position want result }
{
    if !want {
        return None;
    }
    let node = look_up(s, places, t, others, layer, position);
    if !is_written(node) {
        return None;
    }
    Some(Known { node, joins: 0 })
}

// The join of two children as the climb takes them: a copy on the right has the value of the left one.
fn join_children(l: Node, r: Node) -> Node
    ensures { sibling_of result ≡ join_children (sibling_of l) (sibling_of r) }
{
    match r {
        Node::Value(_) => join_both(l, r),
        Node::Copied => join_both(l, l),
        Node::Absent => Node::Absent,
    }
}

// The same with what it cost; without one of the two there is nothing to join.
fn join_known(l: Option<Known>, r: Option<Known>) -> Known
    ensures { Made l r (Some result) }
{
    let (Some(l), Some(r)) = (l, r) else {
        return Known {
            node: Node::Absent,
            joins: 0,
        };
    };
    let node = join_children(l.node, r.node);
    Known {
        node,
        joins: join_cost(has_value(node), l.joins, r.joins),
    }
}

// The first of the rows from lo to hi in order that is not under a position at a layer.
pub(crate) fn split(
    starts: &[u64],
    order: &[u16],
    layer: usize,
    position: u64,
    lo: usize,
    hi: usize,
) -> usize
    requires { (layer ≤ 64) × (lo ≤ hi) × (hi ≤ length order.now) × Rows order.now (length starts.now) }
    ensures { (lo ≤ result) × (result ≤ hi) × (Under starts.now order.now layer position lo result) × (result < hi → slice_index starts.now (slice_index order.now result) / 2 ^ layer ≢ position) }
{
    for m in lo..hi {
        let row = order[m] as usize;
        if above(starts[row], layer) != position {
            return m;
        }
    }
    hi
}

// Whether one of the rows from lo to hi in order stands at a layer.
fn waiting(order: &[u16], states: &[u16], layer: usize, lo: usize, hi: usize) -> bool
    requires { (lo ≤ hi) × (hi ≤ length order.now) × Rows order.now (length states.now) }
    ensures { result ≡ false → NotAt order.now states.now layer lo hi }
{
    order[lo..hi]
        .iter()
        .any(|row| state_at(states, *row as usize) == layer)
}

// Whether one of them has not come up to a layer.
fn behind(order: &[u16], states: &[u16], layer: usize, lo: usize, hi: usize) -> bool
    requires { (lo ≤ hi) × (hi ≤ length order.now) × Rows order.now (length states.now) }
    ensures { result ≡ false → Reached order.now states.now layer lo hi }
{
    order[lo..hi]
        .iter()
        .any(|row| state_at(states, *row as usize) < layer)
}

// What stands beside position j, of two children, the first at an even position.
fn beside(j: u64, left: u64, l: Option<Known>, r: Option<Known>) -> Option<Known>
    ensures { result ≡ beside_of j left l r }
{
    if j == left {
        return r;
    }
    if j > 0 && j - 1 == left {
        return l;
    }
    None
}

// A row takes one step at a layer, if it stands there, beside one of the two children, and pays for it.
fn step_row(
    starts: &[u64],
    states: &mut [u16],
    hashes: &mut [u8],
    row: usize,
    layer: usize,
    left: u64,
    l: Option<Known>,
    r: Option<Known>,
    costs: &mut [u64],
)
    requires { (row < length starts.now) × (length starts.now ≤ length states.old) × (32 * length starts.now ≤ length hashes.old) × (layer < 64) }
    ensures { Stepped starts.now states.old hashes.old states.new hashes.new row layer left l r
        × Charged starts.now states.old hashes.old costs.old states.new hashes.new costs.new layer left l r }
{
    let state = states[row] as usize;
    if state != layer {
        return;
    }
    let j = above(starts[row], layer);
    let Some(x) = beside(j, left, l, r) else {
        return;
    };
    let made = join_halves(turn(hashes, row, j % 2 == 1, x.node));
    charge(states, row, layer, made, x.joins, costs);
    advance(states, hashes, row, layer, made);
}

// The rows from lo to hi in order take one step at a layer.
fn step_rows(
    starts: &[u64],
    order: &[u16],
    states: &mut [u16],
    hashes: &mut [u8],
    layer: usize,
    left: u64,
    lo: usize,
    hi: usize,
    l: Option<Known>,
    r: Option<Known>,
    costs: &mut [u64],
)
    requires { (lo ≤ hi) × (hi ≤ length order.now) × Rows order.now (length starts.now) × (length starts.now ≤ length states.old) × (32 * length starts.now ≤ length hashes.old) × (layer < 64) }
    ensures { AllStepped starts.now order.now states.old hashes.old states.new hashes.new layer left lo hi l r
        × Charged starts.now states.old hashes.old costs.old states.new hashes.new costs.new layer left l r }
{
    for i in lo..hi {
        let row = order[i] as usize;
        step_row(starts, states, hashes, row, layer, left, l, r, costs);
    }
}

// The rows under two children take their step; and the join of the two, if it is needed.
// It is called from two places so that it has a frame of its own, and `visit`, which calls itself, a small one.
fn step_children(
    starts: &[u64],
    order: &[u16],
    states: &mut [u16],
    hashes: &mut [u8],
    layer: usize,
    left: u64,
    lo: usize,
    hi: usize,
    l: Option<Known>,
    r: Option<Known>,
    need: bool,
    costs: &mut [u64],
) -> Option<Known>
    requires { (lo ≤ hi) × (hi ≤ length order.now) × Rows order.now (length starts.now) × (length starts.now ≤ length states.old) × (32 * length starts.now ≤ length hashes.old) × (layer < 64) }
    ensures { AllStepped starts.now order.now states.old hashes.old states.new hashes.new layer left lo hi l r
        × Charged starts.now states.old hashes.old costs.old states.new hashes.new costs.new layer left l r
        × (need ≡ true → Made l r result) }
{
    step_rows(
        starts, order, states, hashes, layer, left, lo, hi, l, r, costs,
    );
    if need { Some(join_known(l, r)) } else { None }
}

// Whether a value is to be worked out: it is wanted, and nothing is written there.
fn needs_join(want: bool, here: Option<Known>) -> bool
    ensures { Needed want here result }
{
    want && here.is_none()
}

// Whether a node is known to have a value.
fn is_valued(node: Option<Known>) -> bool
    ensures { result ≡ has_value (known_sibling node) }
{
    match node {
        Some(known) => has_value(known.node),
        None => false,
    }
}

// The climbs of the rows from lo to hi in order, which lie under a layer and position, up to that layer; and the value there, if it is wanted.
pub(crate) fn visit(
    s: &[u8],
    places: &[usize; LAYERS],
    starts: &[u64],
    order: &[u16],
    states: &mut [u16],
    hashes: &mut [u8],
    t: &[u8],
    others: &[usize],
    layer: usize,
    position: u64,
    lo: usize,
    hi: usize,
    want: bool,
    costs: &mut [u64],
) -> Option<Known>
    requires setting { Setting starts.now order.now states.old hashes.old }
    requires spot { Spot starts.now order.now layer position lo hi want }
    ensures { Visited (looked_up s.now places.now t.now others.now) starts.now order.now states.old hashes.old states.new hashes.new layer position lo hi want result
        × VisitedCost (looked_up s.now places.now t.now others.now) starts.now states.old hashes.old costs.old states.new hashes.new costs.new layer position want result }
{
    let here = written_at(s, places, t, others, layer, position, want);
    let need = needs_join(want, here);
    if layer == 0 {
        if need {
            return Some(Known {
                node: Node::Absent,
                joins: 0,
            });
        }
        return here;
    }
    if need || behind(order, states, layer, lo, hi) {
        let below = layer - 1;
        let left = 2 * position;
        let m = split(starts, order, below, left, lo, hi);
        let want_l = need || behind(order, states, layer, m, hi);
        let l = visit(
            s, places, starts, order, states, hashes, t, others, below, left, lo, m, want_l, costs,
        );
        let want_r = need && is_valued(l) || waiting(order, states, below, lo, m);
        let r = visit(
            s,
            places,
            starts,
            order,
            states,
            hashes,
            t,
            others,
            below,
            left + 1,
            m,
            hi,
            want_r,
            costs,
        );
        if need {
            return step_children(
                starts, order, states, hashes, below, left, lo, hi, l, r, true, costs,
            );
        }
        step_children(
            starts, order, states, hashes, below, left, lo, hi, l, r, false, costs,
        );
    }
    here
}
