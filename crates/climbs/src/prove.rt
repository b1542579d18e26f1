// Proofs of many ids by one path (specs/Proofs.antt): each row of a list of hashes holds an id, and gets what the id's own proof comes to.
ghost use Rattle.std.specs.Prelude.{◌≡◌, ◌*◌, ◌<◌, ◌≤◌, length, slice_index, slice_set};
ghost use Rattle.path.specs.Path.{start_in};
ghost use Rattle.spv.specs.Rows.{rows};
ghost use Rattle.climbs.specs.Together.{Levels};
ghost use Rattle.climbs.specs.Begun.{begun_row, First, closed_state, closed_hashes, Closed, counted_of};
ghost use Rattle.climbs.specs.Proofs.{has_room, fits, root_in, start_row, state_row, root_row, end_to_end, id_at, joins_in, starts_of, states_of, roots_of, costs_of, proved_at};

use super::all::climb_rows;
use super::row::{closed_state, rejection_of, root_at, start_at, state_at};
use path::{Form, LAYERS, Path};
use spv::{Proved, Rejection};

// Rows that are proved at once.
pub const ROWS: usize = 256;

// 64 times 13: the state of a row that is not begun.
const NOWHERE: u16 = 832;

fn has_room(layers: usize, count: usize, states: usize, hashes: usize) -> bool
    ensures { result ≡ has_room layers count states hashes }
{
    layers <= LAYERS && count <= ROWS && count <= states && 32 * count <= hashes
}

// Whether there are levels, and room for so many rows.
fn rows_fit(path: Path, count: usize, states: usize, hashes: usize) -> bool
    ensures { result ≡ fits path count states hashes }
{
    matches!(path.form, Form::Bump) && has_room(path.layers, count, states, hashes)
}

fn begun_row(start: Option<u64>) -> u16
    ensures { result ≡ begun_row start }
{
    match start {
        Some(_) => 0,
        None => NOWHERE,
    }
}

// The rows of ids begin where these stand.
fn begin_rows(s: &[u8], path: Path, starts: &mut [u64], states: &mut [u16], hashes: &[u8])
    requires { (length starts.old ≤ 256) × (length states.old ≡ length starts.old) }
    ensures { First (λ i. start_row (start_in s.now path (id_at hashes.now i))) (length starts.old) starts.new
        × First (λ i. begun_row (start_in s.now path (id_at hashes.now i))) (length starts.old) states.new }
{
    for i in 0..starts.len() {
        let id = format::hash_at(hashes, 32 * i);
        let start = path::find_id(s, path, id);
        starts[i] = start.unwrap_or(0);
        states[i] = begun_row(start);
    }
}

// A row that came to a root has state 0; one that was refused has no hash.
fn close_row(states: &mut [u16], hashes: &mut [u8], row: usize)
    requires { row < length states.old }
    ensures { (states.new ≡ slice_set states.old row (closed_state (slice_index states.old row))) × (hashes.new ≡ closed_hashes (slice_index states.old row) hashes.old row) }
{
    let state = states[row] as usize;
    states[row] = closed_state(state);
    if 128 <= state {
        format::set_hash(hashes, row, [0u8; 32]);
    }
}

fn close_rows(states: &mut [u16], hashes: &mut [u8])
    requires { 32 * length states.old ≤ length hashes.old }
    ensures { Closed (length states.old) states.old hashes.old states.new hashes.new }
{
    for i in 0..states.len() {
        close_row(states, hashes, i);
    }
}

// All rows, with room for their order.
fn prove_rows(
    s: &[u8],
    path: Path,
    starts: &mut [u64],
    states: &mut [u16],
    hashes: &mut [u8],
    order: &mut [u16],
    costs: &mut [u64],
)
    requires { Levels path × (length starts.old ≤ 256) × (length states.old ≡ length starts.old) × (length hashes.old ≡ 32 * length starts.old) × (length order.old ≡ 256) × (length costs.old ≤ length starts.old) }
    ensures { (starts.new ≡ rows (λ i. start_row (start_in s.now path (id_at hashes.old i))) (length starts.old))
        × (states.new ≡ rows (λ i. state_row (root_in s.now path (id_at hashes.old i))) (length starts.old))
        × (hashes.new ≡ end_to_end (λ i. root_row (root_in s.now path (id_at hashes.old i))) (length starts.old))
        × (costs.new ≡ rows (λ i. joins_in s.now path (id_at hashes.old i)) (length costs.old)) }
{
    begin_rows(s, path, starts, states, hashes);
    costs.fill(0);
    let places = path.at;
    let count = starts.len();
    climb_rows(
        s,
        &places,
        path.layers,
        starts,
        &mut order[..count],
        states,
        hashes,
        costs,
    );
    close_rows(states, hashes);
}

fn prove_ordered(
    s: &[u8],
    path: Path,
    starts: &mut [u64],
    states: &mut [u16],
    hashes: &mut [u8],
    costs: &mut [u64],
)
    requires { Levels path × (length starts.old ≤ 256) × (length states.old ≡ length starts.old) × (length hashes.old ≡ 32 * length starts.old) × (length costs.old ≤ length starts.old) }
    ensures { (starts.new ≡ rows (λ i. start_row (start_in s.now path (id_at hashes.old i))) (length starts.old))
        × (states.new ≡ rows (λ i. state_row (root_in s.now path (id_at hashes.old i))) (length starts.old))
        × (hashes.new ≡ end_to_end (λ i. root_row (root_in s.now path (id_at hashes.old i))) (length starts.old))
        × (costs.new ≡ rows (λ i. joins_in s.now path (id_at hashes.old i)) (length costs.old)) }
{
    let mut order = [0u16; ROWS];
    prove_rows(s, path, starts, states, hashes, &mut order, costs);
}

// The rows that are counted: all, or none if there is not a cost for each.
fn counted(count: usize, costs: usize) -> usize
    ensures { result ≡ counted_of count costs }
{
    if count <= costs { count } else { 0 }
}

// Prove the ids in the rows of `hashes` by one path, as many as there are starts: each gets the start, the state and the root of its own proof, and
// if there is a cost for each, the joins that it makes. Nothing is done if there is no room for them.
pub fn prove_all(
    s: &[u8],
    path: Path,
    starts: &mut [u64],
    states: &mut [u16],
    hashes: &mut [u8],
    costs: &mut [u64],
)
    ensures { (starts.new ≡ starts_of s.now path starts.old states.old hashes.old)
        × (states.new ≡ states_of s.now path starts.old states.old hashes.old)
        × (hashes.new ≡ roots_of s.now path starts.old states.old hashes.old)
        × (costs.new ≡ costs_of s.now path starts.old states.old hashes.old costs.old) }
{
    let count = starts.len();
    if rows_fit(path, count, states.len(), hashes.len()) {
        let end = 32 * count;
        let some = counted(count, costs.len());
        prove_ordered(
            s,
            path,
            starts,
            &mut states[..count],
            &mut hashes[..end],
            &mut costs[..some],
        );
    }
}

// What a row says of an id.
pub fn proved_at(
    layers: usize,
    id: [u8; 32],
    starts: &[u64],
    states: &[u16],
    hashes: &[u8],
    row: usize,
) -> Result<Proved, Rejection>
    ensures { result ≡ proved_at layers id starts.now states.now hashes.now row }
{
    let start = start_at(starts, row);
    let state = state_at(states, row);
    if state == 0 {
        let root = root_at(hashes, row);
        return Ok(Proved {
            position: start,
            layers,
            id,
            root,
        });
    }
    Err(rejection_of(start, state))
}
