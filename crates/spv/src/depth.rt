// Comparing two proofs of different numbers of layers, the shorter one with its raw transaction (02, Item 13; specs/Depth.antt).
ghost use Rattle.std.specs.Prelude.{◌≡◌, ◌&&◌, suc, ◌-◌, ◌+◌, ◌/◌, ◌≤◌, ◌<◌, drop, eqb, ltb};
ghost use Rattle.hash.specs.Sha256.{sha256d};
ghost use Rattle.format.specs.Bytes.{same};
ghost use Rattle.format.specs.Transaction.{tx_whole};
ghost use Rattle.spv.specs.Climb.{ascend, preimages_of};
ghost use Rattle.spv.specs.Result.{after_reading};
ghost use Rattle.spv.specs.Compare.{meet};
ghost use Rattle.spv.specs.Siblings.{path_siblings};
ghost use Rattle.spv.specs.PositionFits.{PositionFits};
ghost use Rattle.spv.specs.Readings.{reading};
ghost use Rattle.spv.specs.Shapes.{claim_proof};
ghost use Rattle.spv.specs.Depth.{halved, pair_of, lowest, against_deeper, uneven, depth, depth_of};
ghost use Rattle.spv.specs.Prove.{prove};

use super::climb::{climb_layers, layer_of, parent_of};
use super::compare::{Pair, meet, string_of};
use super::prove::{Accepted, accept};
use super::rejection::{Rejection, reject_for};
use format::Refusal;
use path::{Form, Path};

// Two strings of one hash: the raw transaction, which the caller has, and another one, or one of each proof, the shorter one's first.
#[derive(Clone, Copy)]
pub enum DepthPair {
    Transaction([u8; 64]),
    Strings(Pair),
}

// A position halved n times: a loop, since no shift is by 64 or more.
fn halve(position: u64, n: usize) -> u64
    ensures { result ≡ halved n position }
{
    let mut j = position;
    for _ in 0..n {
        j = j / 2;
    }
    j
}

// Whether the second of two proofs is deeper: one root, more layers, and a position that halved once for each is the first's.
fn is_deeper(x: Accepted, y: Accepted) -> bool
    ensures { result ≡ (same x.root y.root && (ltb x.claim.path.layers y.claim.path.layers && eqb x.claim.position (halved (y.claim.path.layers - x.claim.path.layers) y.claim.position))) }
{
    let first = x.root;
    let second = y.root;
    format::same_bytes(first, second)
        && x.claim.path.layers < y.claim.path.layers
        && x.claim.position == halve(y.claim.position, y.claim.path.layers - x.claim.path.layers)
}

// Where the climbs meet above the transaction's layer, the second from layer e of y up.
fn meet_above(
    a: &[u8],
    x: Path,
    b: &[u8],
    y: Path,
    e: usize,
    i: u64,
    a_id: [u8; 32],
    b_id: [u8; 32],
) -> Result<DepthPair, Rejection>
    requires { (x.layers + e ≤ y.layers) × (PositionFits e i) }
    ensures { result ≡ depth_of (pair_of (meet (preimages_of (ascend (path_siblings a.now x) 0 x.layers i a_id)) (preimages_of (ascend (path_siblings b.now y) e x.layers i b_id)))) }
{
    match meet(a, x, b, y, e, i, a_id, b_id) {
        Some(pair) => Ok(DepthPair::Strings(pair)),
        None => Err(reject_for(Refusal::Unlike)),
    }
}

// The transaction's layer, which is layer e of y, then those above it.
fn meet_beside(
    a: &[u8],
    x: Path,
    b: &[u8],
    y: Path,
    e: usize,
    i: u64,
    a_id: [u8; 32],
    c: [u8; 32],
    id: [u8; 32],
) -> Result<DepthPair, Rejection>
    requires { (x.layers + suc e ≡ y.layers) × (PositionFits e i) }
    ensures { result ≡ depth_of (lowest id (preimages_of (ascend (path_siblings a.now x) 0 x.layers (i / 2) a_id)) (preimages_of (ascend (path_siblings b.now y) e (suc x.layers) i c))) }
{
    let Ok(u) = layer_of(b, y, e, i, c) else {
        return Err(reject_for(Refusal::Unlike));
    };
    let d = parent_of(u);
    if format::same_bytes(id, d) {
        return Ok(DepthPair::Transaction(string_of(u)));
    }
    meet_above(a, x, b, y, e + 1, i / 2, a_id, d)
}

// The second climb alone up to the transaction's layer, then both.
fn meet_deeper(
    a: &[u8],
    x: Path,
    b: &[u8],
    y: Path,
    j: u64,
    a_id: [u8; 32],
    b_id: [u8; 32],
    id: [u8; 32],
) -> Result<DepthPair, Rejection>
    requires { x.layers < y.layers }
    ensures { result ≡ depth_of (lowest id (preimages_of (ascend (path_siblings a.now x) 0 x.layers (halved (y.layers - x.layers) j) a_id)) (drop (y.layers - x.layers - 1) (preimages_of (ascend (path_siblings b.now y) 0 y.layers j b_id)))) }
{
    let e = y.layers - x.layers - 1;
    let Ok(c) = climb_layers(b, y, e, j, b_id) else {
        return Err(reject_for(Refusal::Unlike));
    };
    meet_beside(a, x, b, y, e, halve(j, e), a_id, c, id)
}

// The first of two accepted proofs, with its raw transaction's id, against a deeper one.
fn settle_deeper(
    a: &[u8],
    x: Accepted,
    b: &[u8],
    y: Accepted,
    id: [u8; 32],
) -> Result<DepthPair, Rejection>
    ensures { result ≡ depth_of (against_deeper id (claim_proof a.now x.claim x.root) (claim_proof b.now y.claim y.root)) }
{
    let xid = x.claim.id;
    let yid = y.claim.id;
    if !is_deeper(x, y) {
        return Err(reject_for(Refusal::Unlike));
    }
    if !format::same_bytes(id, xid) {
        return Err(reject_for(Refusal::Unlike));
    }
    meet_deeper(
        a,
        x.claim.path,
        b,
        y.claim.path,
        y.claim.position,
        xid,
        yid,
        id,
    )
}

// Two accepted proofs in either order.
fn settle_uneven(
    a: &[u8],
    x: Accepted,
    b: &[u8],
    y: Accepted,
    id: [u8; 32],
) -> Result<DepthPair, Rejection>
    ensures { result ≡ depth_of (uneven id (claim_proof a.now x.claim x.root) (claim_proof b.now y.claim y.root)) }
{
    if y.claim.path.layers < x.claim.path.layers {
        return settle_deeper(b, y, a, x, id);
    }
    settle_deeper(a, x, b, y, id)
}

// Two accepted proofs, then the raw transaction.
fn settle_transaction(
    a: &[u8],
    x: Accepted,
    b: &[u8],
    y: Accepted,
    m: &[u8],
) -> Result<DepthPair, Rejection>
    ensures { result ≡ depth_of (after_reading (tx_whole m.now) (λ _. uneven (sha256d m.now) (claim_proof a.now x.claim x.root) (claim_proof b.now y.claim y.root))) }
{
    format::read_transaction(m)?;
    let id = hash::sha256d(m).unwrap_or([0; 32]);
    settle_uneven(a, x, b, y, id)
}

// Compare two proofs of any forms, one with fewer layers, and its raw transaction; a TSC proof has its own id. The first's refusal comes first, then the
// second's, then the transaction's.
pub fn compare_depths(
    a: &[u8],
    a_form: Form,
    a_id: [u8; 32],
    b: &[u8],
    b_form: Form,
    b_id: [u8; 32],
    m: &[u8],
) -> Result<DepthPair, Rejection>
    ensures { result ≡ depth_of (depth (prove (reading a_form a.now a_id)) (prove (reading b_form b.now b_id)) m.now) }
{
    let x = accept(a, a_form, a_id)?;
    let y = accept(b, b_form, b_id)?;
    settle_transaction(a, x, b, y, m)
}
