// A BUMP's all-clients check (01, "The climb"; specs/ClientsShapes.antt): the clients climb together, as many as there is room for.
ghost use Rattle.std.specs.Prelude.{◌≡◌, ℕ, ◌+◌, ◌*◌, ◌<◌, ◌≤◌, length, MatchResult};
ghost use Rattle.spv.specs.Result.{Result, accepted, refused, follow};
ghost use Rattle.spv.specs.Climb.{Siblings};
ghost use Rattle.spv.specs.Siblings.{path_siblings};
ghost use Rattle.spv.specs.Values.{worked_out};
ghost use Rattle.climbs.specs.LookUp.{looked_up};
ghost use Rattle.spv.specs.Clients.{after_leaf, bump_clients};
ghost use Rattle.climbs.specs.ClientsShapes.{pending, clients_in, clients_of_level, want_says, checked_of};
ghost use Rattle.climbs.specs.Row.{came_at};
ghost use Rattle.climbs.specs.Waiting.{rows_say, Lent};
ghost use Rattle.climbs.specs.Together.{Levels};
ghost use Rattle.climbs.specs.Begun.{First};
ghost use Rattle.spv.specs.Prove.{Target, any};
ghost use Rattle.spv.specs.Shapes.{bound_to};

use super::all::climb_both;
use super::prove::ROWS;
use super::row::row_end;
use super::want::{Want, close, want_by};
use format::{Cursor, Kind, Layout, Leaf, Refusal};
use path::Path;
use spv::{Rejection, climb_from, reject_for};

// The bytes of the hashes of so many rows.
const ROWS_ROOM: usize = 8192;

// What is wanted so far, and how many clients have not climbed yet.
#[derive(Clone, Copy)]
struct Waiting {
    wanted: Option<[u8; 32]>,
    count: usize,
}

// What is wanted after the ends of the first rows, in their order.
fn want_rows(
    mut wanted: Option<[u8; 32]>,
    count: usize,
    starts: &[u64],
    states: &[u16],
    hashes: &[u8],
) -> Want
    ensures { want_says result ≡ pending (came_at starts.now states.now hashes.now) count (accepted (bound_to wanted)) }
{
    for i in 0..count {
        wanted = want_by(wanted, row_end(starts, states, hashes, i))?;
    }
    Ok(wanted)
}

// The first rows climb.
fn settle_rows(
    s: &[u8],
    path: Path,
    t: &[u8],
    others: &[usize],
    wanted: Option<[u8; 32]>,
    count: usize,
    starts: &[u64],
    order: &mut [u16],
    states: &mut [u16],
    hashes: &mut [u8],
) -> Want
    requires { (count ≤ length starts.now) × Lent starts.now order.old states.old hashes.old × Levels path }
    ensures { want_says result ≡ rows_say (worked_out (looked_up s.now path.at t.now others.now)) path.layers starts.now hashes.old count (accepted (bound_to wanted)) }
{
    states.fill(0);
    let places = path.at;
    let mut uncounted = [0u64; 0];
    climb_both(
        s,
        &places,
        t,
        others,
        path.layers,
        &starts[..count],
        &mut order[..count],
        states,
        hashes,
        &mut uncounted,
    );
    want_rows(wanted, count, starts, states, hashes)
}

// A client takes the next row; other leaves change nothing.
fn take_row(s: &[u8], leaf: Leaf, count: usize, starts: &mut [u64], hashes: &mut [u8]) -> usize
    requires { (count < length starts.old) × (32 * length starts.old ≤ length hashes.old) }
    ensures { (result ≤ count + 1) × ((σ : Siblings) (h : ℕ) (x : Result Target) → rows_say σ h starts.new hashes.new result x ≡ follow (rows_say σ h starts.old hashes.old count x) (λ w. after_leaf σ h s.now w leaf)) }
{
    match leaf.kind {
        Kind::Client(place) => {
            let hash = format::hash_at(s, place);
            starts[count] = leaf.offset;
            format::set_hash(hashes, count, hash);
            count + 1
        }
        Kind::Plain(_) => count,
        Kind::Copy => count,
    }
}

// The rows climb as soon as there is no more room.
fn make_room(
    s: &[u8],
    path: Path,
    t: &[u8],
    others: &[usize],
    wanted: Option<[u8; 32]>,
    count: usize,
    starts: &[u64],
    order: &mut [u16],
    states: &mut [u16],
    hashes: &mut [u8],
) -> Result<Waiting, Rejection>
    requires { (count ≤ length starts.now) × Lent starts.now order.old states.old hashes.old × Levels path }
    ensures { MatchResult result
        (λ waiting. (waiting.count < length starts.now)
        × (rows_say (worked_out (looked_up s.now path.at t.now others.now)) path.layers starts.now hashes.new waiting.count (accepted (bound_to waiting.wanted))
        ≡ rows_say (worked_out (looked_up s.now path.at t.now others.now)) path.layers starts.now hashes.old count (accepted (bound_to wanted))))
        (λ why. refused why ≡ rows_say (worked_out (looked_up s.now path.at t.now others.now)) path.layers starts.now hashes.old count (accepted (bound_to wanted))) }
{
    if count < starts.len() {
        return Ok(Waiting { wanted, count });
    }
    let wanted = settle_rows(
        s, path, t, others, wanted, count, starts, order, states, hashes,
    )?;
    Ok(Waiting { wanted, count: 0 })
}

// The clients among count leaves of u from c, in written order, with a root wanted of the first one or not.
fn check_each(
    u: &[u8],
    s: &[u8],
    path: Path,
    t: &[u8],
    others: &[usize],
    mut wanted: Option<[u8; 32]>,
    c: Cursor,
    count: u64,
    starts: &mut [u64],
    order: &mut [u16],
    states: &mut [u16],
    hashes: &mut [u8],
) -> Result<[u8; 32], Rejection>
    requires { Lent starts.old order.old states.old hashes.old × Levels path }
    ensures { result ≡ checked_of (clients_in (worked_out (looked_up s.now path.at t.now others.now)) path.layers u.now count c.at (bound_to wanted)) }
{
    let mut rows: usize = 0;
    let mut next = c;
    for _ in 0..count {
        let Ok((leaf, after)) = path::leaf_at(u, next, Layout::Bump) else {
            settle_rows(
                s, path, t, others, wanted, rows, starts, order, states, hashes,
            )?;
            return Err(reject_for(Refusal::NotListed));
        };
        let taken = take_row(u, leaf, rows, starts, hashes);
        let waiting = make_room(
            s, path, t, others, wanted, taken, starts, order, states, hashes,
        )?;
        wanted = waiting.wanted;
        rows = waiting.count;
        next = after;
    }
    close(settle_rows(
        s, path, t, others, wanted, rows, starts, order, states, hashes,
    )?)
}

// The same, with room for the rows.
pub(crate) fn check_many(
    u: &[u8],
    s: &[u8],
    path: Path,
    t: &[u8],
    others: &[usize],
    wanted: Option<[u8; 32]>,
    c: Cursor,
    count: u64,
) -> Result<[u8; 32], Rejection>
    requires { Levels path }
    ensures { result ≡ checked_of (clients_in (worked_out (looked_up s.now path.at t.now others.now)) path.layers u.now count c.at (bound_to wanted)) }
{
    let mut starts = [0u64; ROWS];
    let mut order = [0u16; ROWS];
    let mut states = [0u16; ROWS];
    let mut hashes = [0u8; ROWS_ROOM];
    check_each(
        u,
        s,
        path,
        t,
        others,
        wanted,
        c,
        count,
        &mut starts,
        &mut order,
        &mut states,
        &mut hashes,
    )
}

// The clients of a path by itself.
fn check_own(s: &[u8], path: Path, c: Cursor, count: u64) -> Result<[u8; 32], Rejection>
    requires { Levels path }
    ensures { result ≡ checked_of (clients_in (path_siblings s.now path) path.layers s.now count c.at any) }
{
    let none = [0usize; 0];
    check_many(s, s, path, s, &none, None, c, count)
}

// A client climbs at once.
fn take_alone(s: &[u8], path: Path, wanted: Option<[u8; 32]>, leaf: Leaf) -> Want
    ensures { want_says result ≡ after_leaf (path_siblings s.now path) path.layers s.now (bound_to wanted) leaf }
{
    match leaf.kind {
        Kind::Client(place) => {
            let hash = format::hash_at(s, place);
            want_by(wanted, climb_from(s, path, leaf.offset, hash))
        }
        Kind::Plain(_) => Ok(wanted),
        Kind::Copy => Ok(wanted),
    }
}

// The same of so few leaves that a pass over the tree would take longer than it saves.
fn check_few(s: &[u8], path: Path, c: Cursor, count: u64) -> Result<[u8; 32], Rejection>
    ensures { result ≡ checked_of (clients_in (path_siblings s.now path) path.layers s.now count c.at any) }
{
    let mut wanted = None;
    let mut next = c;
    for _ in 0..count {
        let Ok((leaf, after)) = path::leaf_at(s, next, Layout::Bump) else {
            return Err(reject_for(Refusal::NotListed));
        };
        wanted = take_alone(s, path, wanted, leaf)?;
        next = after;
    }
    close(wanted)
}

fn check_leaves(s: &[u8], path: Path, c: Cursor, count: u64) -> Result<[u8; 32], Rejection>
    requires { Levels path }
    ensures { result ≡ checked_of (clients_in (path_siblings s.now path) path.layers s.now count c.at any) }
{
    if count <= 4 {
        return check_few(s, path, c, count);
    }
    check_own(s, path, c, count)
}

fn check_level(s: &[u8], path: Path, c: Cursor) -> Result<[u8; 32], Rejection>
    requires { Levels path }
    ensures { result ≡ checked_of (clients_of_level (path_siblings s.now path) path.layers s.now c.at) }
{
    let Ok((count, next)) = format::read_varint(s, c) else {
        return Err(reject_for(Refusal::NotListed));
    };
    check_leaves(s, path, next, count)
}

// The root that all client leaves of a BUMP come to.
pub fn check_clients(s: &[u8]) -> Result<[u8; 32], Rejection>
    ensures { result ≡ checked_of (bump_clients s.now) }
{
    let (head, _) = format::read_bump(s)?;
    check_level(s, path::bump_path(s, head), head.levels)
}
