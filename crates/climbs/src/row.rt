// Climbs in rows (specs/Row.antt): row i has a start, a state and a hash. The state is the number of layers made while the climb goes on; of one that was refused
// it is 64 times the refusal's number, and its layer: 13 of one that was never begun, 14 or 15.
ghost use Rattle.std.specs.Prelude.{◌≡◌, ◌+◌, ◌*◌, ◌/◌, ◌^◌, ◌<◌, ◌≤◌, true, false, length, slice_index};
ghost use Rattle.format.specs.Bytes.{hash_at};
ghost use Rattle.spv.specs.Climb.{step};
ghost use Rattle.spv.specs.Shapes.{sibling_of, step_of, climbed_of};
ghost use Rattle.climbs.specs.Row.{number_of, sibling_at, refusal_of, came_at, made_of, states_after, hashes_after};
ghost use Rattle.climbs.specs.Begun.{closed_state};

use format::Refusal;
use spv::{Halves, Node, Rejection, fold, parent_of, sibling_position};

// States from here on say 14, and from there on 15.
const MISSING_STATES: usize = 896;

const TWIN_STATES: usize = 960;

// The position of x so many layers up.
pub(crate) fn above(x: u64, layers: usize) -> u64
    requires { layers ≤ 64 }
    ensures { result ≡ x / 2 ^ layers }
{
    if layers == 64 {
        return 0;
    }
    x >> layers
}

// The two halves of what the climb of a row hashes beside a sibling.
pub(crate) fn turn(hashes: &[u8], row: usize, odd: bool, node: Node) -> Result<Halves, Refusal>
    requires { 32 * row < length hashes.now }
    ensures { step_of result ≡ step (sibling_of node) odd (hash_at hashes.now (32 * row)) }
{
    fold(node, odd, format::hash_at(hashes, 32 * row))
}

// The parent of what is hashed, or the refusal.
pub(crate) fn join_halves(turned: Result<Halves, Refusal>) -> Result<[u8; 32], Refusal>
    ensures { result ≡ made_of turned }
{
    Ok(parent_of(turned?))
}

// A row one layer on, by the parent of what it hashed or the refusal, if it stands at that layer.
pub(crate) fn advance(
    states: &mut [u16],
    hashes: &mut [u8],
    row: usize,
    layer: usize,
    made: Result<[u8; 32], Refusal>,
)
    requires { (row < length states.old) × (layer < 64) }
    ensures { (states.new ≡ states_after states.old row layer made) × (hashes.new ≡ hashes_after states.old hashes.old row layer made) }
{
    let state = states[row] as usize;
    if state != layer {
        return;
    }
    match made {
        Ok(parent) => {
            states[row] = (layer + 1) as u16;
            format::set_hash(hashes, row, parent);
        }
        Err(refusal) => {
            states[row] = 64 * u16::from(refusal.number()) + layer as u16;
        }
    }
}

fn number_of(state: usize) -> u8
    ensures { result ≡ number_of state }
{
    if state < MISSING_STATES {
        return Refusal::NotListed.number();
    }
    if state < TWIN_STATES {
        return Refusal::Missing.number();
    }
    Refusal::Twin.number()
}

fn sibling_at(start: u64, state: usize) -> u64
    ensures { result ≡ sibling_at start state }
{
    if state < MISSING_STATES {
        return 0;
    }
    sibling_position(above(start, state % 64))
}

// The refusal that a row's state says.
pub(crate) fn rejection_of(start: u64, state: usize) -> Rejection
    ensures { result ≡ refusal_of start state }
{
    Rejection {
        number: number_of(state),
        carried: 0,
        layer: state % 64,
        sibling: sibling_at(start, state),
    }
}

// A row's state once all have climbed: 0 of one that came to a root.
pub(crate) fn closed_state(state: usize) -> u16
    ensures { result ≡ closed_state state }
{
    if state < 128 {
        return 0;
    }
    64 * (number_of(state) as u16) + (state % 64) as u16
}

pub(crate) fn start_at(starts: &[u64], row: usize) -> u64
    ensures { result ≡ slice_index starts.now row }
{
    starts.get(row).copied().unwrap_or(0)
}

pub(crate) fn state_at(states: &[u16], row: usize) -> usize
    ensures { result ≡ slice_index states.now row }
{
    states.get(row).copied().unwrap_or(0) as usize
}

pub(crate) fn root_at(hashes: &[u8], row: usize) -> [u8; 32]
    ensures { result ≡ hash_at hashes.now (32 * row) }
{
    if row < hashes.len() / 32 {
        return format::hash_at(hashes, 32 * row);
    }
    [0u8; 32]
}

// Where a row has come to.
pub(crate) fn row_end(
    starts: &[u64],
    states: &[u16],
    hashes: &[u8],
    row: usize,
) -> Result<[u8; 32], Rejection>
    ensures { result ≡ climbed_of (came_at starts.now states.now hashes.now row) }
{
    let state = state_at(states, row);
    if state < 128 {
        return Ok(root_at(hashes, row));
    }
    Err(rejection_of(start_at(starts, row), state))
}
