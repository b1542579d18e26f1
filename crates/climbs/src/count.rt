// Hash work, counted (02, Item 11; specs/Spent.antt): what a row pays for one layer, and what a node's join costs. A row without a cost pays nothing.
ghost use Rattle.std.specs.Prelude.{◌≡◌, ◌<◌, length};
ghost use Rattle.climbs.specs.Spent.{costs_after, joined_cost};

use format::Refusal;

// A row that stands at a layer pays for it: the joins that its sibling there cost, and its own join if it is made.
pub(crate) fn charge(
    states: &[u16],
    row: usize,
    layer: usize,
    made: Result<[u8; 32], Refusal>,
    joins: u64,
    costs: &mut [u64],
)
    requires { row < length states.now }
    ensures { costs.new ≡ costs_after states.now costs.old row layer made joins }
{
    if costs.len() <= row {
        return;
    }
    let state = states[row] as usize;
    if state != layer {
        return;
    }
    let spent = costs[row];
    match made {
        Ok(_) => {
            costs[row] = spent.wrapping_add(joins.wrapping_add(1));
        }
        Err(_) => {
            costs[row] = spent.wrapping_add(joins);
        }
    }
}

// What a node's join costs by what its children cost; one that can't be had costs none.
pub(crate) fn join_cost(has: bool, l: u64, r: u64) -> u64
    ensures { result ≡ joined_cost has l r }
{
    if has {
        return 1u64.wrapping_add(l.wrapping_add(r));
    }
    0
}
