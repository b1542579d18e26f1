// Rows four at a time, as long as their siblings are written (specs/Rise.antt): most layers of most climbs, as four joins at once take as long as two.
ghost use Rattle.std.specs.Prelude.{◌≡◌, IfSome, ℕ, ◌+◌, ◌<◌, ◌≤◌, ◌++◌, length};
ghost use Rattle.hash.specs.Sha256.{sha256d};
ghost use Rattle.lanes.specs.Lanes as L;
ghost use Rattle.climbs.specs.LookUp.{looked_up};
ghost use Rattle.spv.specs.Values.{worked_out};
ghost use Rattle.climbs.specs.Row.{Moved};
ghost use Rattle.climbs.specs.Spent.{Spent};
ghost use Rattle.climbs.specs.Rise.{Held, TurnRight, move_of, states_moved, hashes_moved, costs_moved};

use super::count::charge;
use super::pass::written_at;
use super::row::{above, advance, join_halves, turn};
use format::Refusal;
use lanes::Nodes;
use path::LAYERS;
use spv::{Halves, sibling_position};

// What a row hashes at a layer, if it moves; and what it makes.
type Turn = Option<Result<Halves, Refusal>>;

type Move = Option<Result<[u8; 32], Refusal>>;

// It moves if it stands at the layer and its sibling is written.
fn written_turn(
    s: &[u8],
    places: &[usize; LAYERS],
    starts: &[u64],
    states: &[u16],
    hashes: &[u8],
    t: &[u8],
    others: &[usize],
    row: usize,
    layer: usize,
) -> Turn
    requires { (row < length starts.now) × (layer < 64) × Held starts.now states.now hashes.now }
    ensures { TurnRight (looked_up s.now places.now t.now others.now) starts.now states.now hashes.now row layer result }
{
    let state = states[row] as usize;
    if state != layer {
        return None;
    }
    let j = above(starts[row], layer);
    let q = sibling_position(j);
    let x = written_at(s, places, t, others, layer, q, true)?;
    Some(turn(hashes, row, j % 2 == 1, x.node))
}

// The same of a row beside another one: it stays if it is that one.
fn other_turn(
    s: &[u8],
    places: &[usize; LAYERS],
    starts: &[u64],
    states: &[u16],
    hashes: &[u8],
    t: &[u8],
    others: &[usize],
    beside: usize,
    row: usize,
    layer: usize,
) -> Turn
    requires { (row < length starts.now) × (layer < 64) × Held starts.now states.now hashes.now }
    ensures { TurnRight (looked_up s.now places.now t.now others.now) starts.now states.now hashes.now row layer result }
{
    if row == beside {
        return None;
    }
    written_turn(s, places, starts, states, hashes, t, others, row, layer)
}

// A row that moves goes one layer on, and pays for its own join: what is written costs none.
fn advance_if(
    states: &mut [u16],
    hashes: &mut [u8],
    row: usize,
    layer: usize,
    moved: Move,
    costs: &mut [u64],
)
    requires { (row < length states.old) × (layer < 64) }
    ensures { (states.new ≡ states_moved states.old row layer moved)
        × (hashes.new ≡ hashes_moved states.old hashes.old row layer moved)
        × (costs.new ≡ costs_moved states.old costs.old row layer moved) }
{
    if let Some(made) = moved {
        charge(states, row, layer, made, 0, costs);
        advance(states, hashes, row, layer, made);
    }
}

// The parents of what four rows hash, in lanes.
fn lane_parents(a: Halves, b: Halves, c: Halves, d: Halves) -> Nodes
    ensures { (i : ℕ) → L.node i result ≡ sha256d (L.in_lane i a.left b.left c.left d.left ++ L.in_lane i a.right b.right c.right d.right) }
{
    let la = a.left;
    let lb = b.left;
    let lc = c.left;
    let ld = d.left;
    let ra = a.right;
    let rb = b.right;
    let rc = c.right;
    let rd = d.right;
    lanes::join4(
        Nodes {
            a: la,
            b: lb,
            c: lc,
            d: ld,
        },
        Nodes {
            a: ra,
            b: rb,
            c: rc,
            d: rd,
        },
    )
}

// What a row makes, if it moves.
fn move_of(turn: Turn) -> Move
    ensures { result ≡ move_of turn }
{
    Some(join_halves(turn?))
}

// What a row joins, if it moves and joins something.
fn joining(turn: Turn) -> Option<Halves>
    ensures { IfSome result (λ halves. turn ≡ Some (Ok halves)) }
{
    match turn {
        Some(Ok(halves)) => Some(halves),
        _ => None,
    }
}

// What four rows make: in lanes if all of them join something, so that none is joined in vain, and else one by one. The last of three rows, which is named
// twice and stays in the last lane, takes two lanes.
fn four_moves(a: Turn, b: Turn, c: Turn, d: Turn, twice: bool) -> (Move, Move, Move, Move)
    ensures { (result.0 ≡ move_of a) × (result.1 ≡ move_of b) × (result.2 ≡ move_of c) × (result.3 ≡ move_of d) }
{
    let (Some(ha), Some(hb), Some(hc)) = (joining(a), joining(b), joining(c)) else {
        return (move_of(a), move_of(b), move_of(c), move_of(d));
    };
    if twice {
        let parents = lane_parents(ha, hb, hc, hc);
        return (
            Some(Ok(parents.a)),
            Some(Ok(parents.b)),
            Some(Ok(parents.c)),
            move_of(d),
        );
    }
    let Some(hd) = joining(d) else {
        return (move_of(a), move_of(b), move_of(c), move_of(d));
    };
    let parents = lane_parents(ha, hb, hc, hd);
    (
        Some(Ok(parents.a)),
        Some(Ok(parents.b)),
        Some(Ok(parents.c)),
        Some(Ok(parents.d)),
    )
}

// Four rows, one layer on; whether one of them moved.
fn layer4(
    s: &[u8],
    places: &[usize; LAYERS],
    starts: &[u64],
    states: &mut [u16],
    hashes: &mut [u8],
    t: &[u8],
    others: &[usize],
    a: usize,
    b: usize,
    c: usize,
    d: usize,
    layer: usize,
    costs: &mut [u64],
) -> bool
    requires { (a < length starts.now) × (b < length starts.now) × (c < length starts.now) × (d < length starts.now) × (layer < 64) × Held starts.now states.old hashes.old }
    ensures { Moved (worked_out (looked_up s.now places.now t.now others.now)) (layer + 1) starts.now states.old hashes.old states.new hashes.new
        × Spent (looked_up s.now places.now t.now others.now) (layer + 1) starts.now states.old hashes.old costs.old states.new hashes.new costs.new }
{
    let ta = written_turn(s, places, starts, states, hashes, t, others, a, layer);
    let tb = written_turn(s, places, starts, states, hashes, t, others, b, layer);
    let tc = written_turn(s, places, starts, states, hashes, t, others, c, layer);
    let td = other_turn(s, places, starts, states, hashes, t, others, c, d, layer);
    let moves = ta.is_some() || tb.is_some() || tc.is_some() || td.is_some();
    let (ma, mb, mc, md) = four_moves(ta, tb, tc, td, c == d);
    advance_if(states, hashes, a, layer, ma, costs);
    advance_if(states, hashes, b, layer, mb, costs);
    advance_if(states, hashes, c, layer, mc, costs);
    advance_if(states, hashes, d, layer, md, costs);
    moves
}

// One row by itself, one layer on; whether it moved.
fn layer1(
    s: &[u8],
    places: &[usize; LAYERS],
    starts: &[u64],
    states: &mut [u16],
    hashes: &mut [u8],
    t: &[u8],
    others: &[usize],
    row: usize,
    layer: usize,
    costs: &mut [u64],
) -> bool
    requires { (row < length starts.now) × (layer < 64) × Held starts.now states.old hashes.old }
    ensures { Moved (worked_out (looked_up s.now places.now t.now others.now)) (layer + 1) starts.now states.old hashes.old states.new hashes.new
        × Spent (looked_up s.now places.now t.now others.now) (layer + 1) starts.now states.old hashes.old costs.old states.new hashes.new costs.new }
{
    let turn = written_turn(s, places, starts, states, hashes, t, others, row, layer);
    let moved = move_of(turn);
    advance_if(states, hashes, row, layer, moved, costs);
    moved.is_some()
}

// Four rows, or one that is named four times.
fn layer_rows(
    s: &[u8],
    places: &[usize; LAYERS],
    starts: &[u64],
    states: &mut [u16],
    hashes: &mut [u8],
    t: &[u8],
    others: &[usize],
    a: usize,
    b: usize,
    c: usize,
    d: usize,
    layer: usize,
    costs: &mut [u64],
) -> bool
    requires { (a < length starts.now) × (b < length starts.now) × (c < length starts.now) × (d < length starts.now) × (layer < 64) × Held starts.now states.old hashes.old }
    ensures { Moved (worked_out (looked_up s.now places.now t.now others.now)) (layer + 1) starts.now states.old hashes.old states.new hashes.new
        × Spent (looked_up s.now places.now t.now others.now) (layer + 1) starts.now states.old hashes.old costs.old states.new hashes.new costs.new }
{
    if a == d {
        return layer1(
            s, places, starts, states, hashes, t, others, a, layer, costs,
        );
    }
    layer4(
        s, places, starts, states, hashes, t, others, a, b, c, d, layer, costs,
    )
}

// The same layer by layer, as long as one of them moves.
fn rise4(
    s: &[u8],
    places: &[usize; LAYERS],
    starts: &[u64],
    states: &mut [u16],
    hashes: &mut [u8],
    t: &[u8],
    others: &[usize],
    a: usize,
    b: usize,
    c: usize,
    d: usize,
    layers: usize,
    costs: &mut [u64],
)
    requires { (a < length starts.now) × (b < length starts.now) × (c < length starts.now) × (d < length starts.now) × (layers ≤ 64) × Held starts.now states.old hashes.old }
    ensures { Moved (worked_out (looked_up s.now places.now t.now others.now)) layers starts.now states.old hashes.old states.new hashes.new
        × Spent (looked_up s.now places.now t.now others.now) layers starts.now states.old hashes.old costs.old states.new hashes.new costs.new }
{
    for k in 0..layers {
        if !layer_rows(
            s, places, starts, states, hashes, t, others, a, b, c, d, k, costs,
        ) {
            return;
        }
    }
}

// The row in lane i beside one of n: one or two that are left over go up each by itself, and of three the last is named twice.
fn lane(row: usize, i: usize, n: usize) -> usize
    requires { (row < n) × (n ≤ 65536) }
    ensures { result < n }
{
    let left = n - row;
    if left < 3 {
        return row;
    }
    if left <= i {
        return n - 1;
    }
    row + i
}

// How many rows go up together from one of n on.
fn together(row: usize, n: usize) -> usize
    requires { row < n }
    ensures { (1 ≤ result) × (result ≤ 4) }
{
    if n - row < 3 {
        return 1;
    }
    4
}

// All rows, as long as their siblings are written.
pub(crate) fn rise_rows(
    s: &[u8],
    places: &[usize; LAYERS],
    starts: &[u64],
    states: &mut [u16],
    hashes: &mut [u8],
    t: &[u8],
    others: &[usize],
    layers: usize,
    costs: &mut [u64],
)
    requires { (layers ≤ 64) × Held starts.now states.old hashes.old }
    ensures { Moved (worked_out (looked_up s.now places.now t.now others.now)) layers starts.now states.old hashes.old states.new hashes.new
        × Spent (looked_up s.now places.now t.now others.now) layers starts.now states.old hashes.old costs.old states.new hashes.new costs.new }
{
    let n = starts.len();
    // Each turn passes four rows, or one of the last.
    let mut row: usize = 0;
    while row < n {
        let b = lane(row, 1, n);
        let c = lane(row, 2, n);
        let d = lane(row, 3, n);
        rise4(
            s, places, starts, states, hashes, t, others, row, b, c, d, layers, costs,
        );
        row += together(row, n);
    }
}
