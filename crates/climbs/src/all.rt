// All rows climbed by one path (specs/Together.antt).
ghost use Rattle.std.specs.Prelude.{◌≡◌, ◌≤◌, length};
ghost use Rattle.format.specs.declared.level.Layout.{Layout};
ghost use Rattle.spv.specs.Siblings.{written_by, find_at};
ghost use Rattle.climbs.specs.LookUp.{looked_up};
ghost use Rattle.spv.specs.Values.{worked_out};
ghost use Rattle.climbs.specs.Row.{Moved, Reached};
ghost use Rattle.climbs.specs.Spent.{Spent, Settled};
ghost use Rattle.climbs.specs.Pass.{Setting};
ghost use Rattle.climbs.specs.Together.{Roomy, Climbed};

use super::order::order_rows;
use super::pass::{split, visit};
use super::rise::rise_rows;
use super::row::above;
use path::LAYERS;

// Every tree that rows lie in: in a path that was read there is one.
fn visit_trees(
    s: &[u8],
    places: &[usize; LAYERS],
    starts: &[u64],
    order: &[u16],
    states: &mut [u16],
    hashes: &mut [u8],
    t: &[u8],
    others: &[usize],
    layers: usize,
    costs: &mut [u64],
)
    requires { (layers ≤ 64) × Setting starts.now order.now states.old hashes.old }
    ensures { (Moved (worked_out (looked_up s.now places.now t.now others.now)) layers starts.now states.old hashes.old states.new hashes.new)
        × (Reached order.now states.new layers 0 (length order.now))
        × Spent (looked_up s.now places.now t.now others.now) layers starts.now states.old hashes.old costs.old states.new hashes.new costs.new }
{
    // Each turn passes as many rows as lie in one tree.
    let mut lo = 0;
    while lo < order.len() {
        let row = order[lo] as usize;
        let position = above(starts[row], layers);
        let hi = split(starts, order, layers, position, lo, order.len());
        visit(
            s, places, starts, order, states, hashes, t, others, layers, position, lo, hi, false,
            costs,
        );
        lo = hi;
    }
}

// All rows to their ends, each from where it stands, by what one path has written, or two between them; each pays what it owes.
pub(crate) fn climb_both(
    s: &[u8],
    places: &[usize; LAYERS],
    t: &[u8],
    others: &[usize],
    layers: usize,
    starts: &[u64],
    order: &mut [u16],
    states: &mut [u16],
    hashes: &mut [u8],
    costs: &mut [u64],
)
    requires { (layers ≤ 64) × Roomy starts.now order.old states.old hashes.old }
    ensures { Climbed (worked_out (looked_up s.now places.now t.now others.now)) layers starts.now states.old hashes.old states.new hashes.new
        × Settled (looked_up s.now places.now t.now others.now) layers starts.now states.old hashes.old costs.old costs.new }
{
    rise_rows(s, places, starts, states, hashes, t, others, layers, costs);
    order_rows(starts, order);
    visit_trees(
        s, places, starts, order, states, hashes, t, others, layers, costs,
    );
}

// The same by one path.
pub(crate) fn climb_rows(
    s: &[u8],
    places: &[usize; LAYERS],
    layers: usize,
    starts: &[u64],
    order: &mut [u16],
    states: &mut [u16],
    hashes: &mut [u8],
    costs: &mut [u64],
)
    requires { (layers ≤ 64) × Roomy starts.now order.old states.old hashes.old }
    ensures { Climbed (worked_out (written_by s.now (find_at Layout.Bump s.now places.now))) layers starts.now states.old hashes.old states.new hashes.new
        × Settled (written_by s.now (find_at Layout.Bump s.now places.now)) layers starts.now states.old hashes.old costs.old costs.new }
{
    let none = [0usize; 0];
    climb_both(
        s, places, s, &none, layers, starts, order, states, hashes, costs,
    );
}
