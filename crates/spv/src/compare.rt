// Comparing two proofs, their forms mixed or not (01, "Two climbs"; specs/Compare.antt).
ghost use Rattle.std.specs.Prelude.{◌≡◌, ◌&&◌, ◌++◌, ◌+◌, ◌≤◌, eqb};
ghost use Rattle.format.specs.Bytes.{same};
ghost use Rattle.spv.specs.Climb.{ascend, preimages_of};
ghost use Rattle.spv.specs.Compare.{against, compare, meet};
ghost use Rattle.spv.specs.Siblings.{path_siblings};
ghost use Rattle.spv.specs.PositionFits.{PositionFits};
ghost use Rattle.spv.specs.Readings.{reading};
ghost use Rattle.spv.specs.Shapes.{meeting_of, paired, claim_proof, compared_of};
ghost use Rattle.spv.specs.Prove.{prove};

use super::climb::{Halves, layer_of, parent_of};
use super::prove::{Accepted, accept};
use super::rejection::{Rejection, reject_for};
use format::Refusal;
use path::{Form, Path};

// Two different strings of one hash.
#[derive(Clone, Copy)]
pub struct Pair {
    pub first: [u8; 64],
    pub second: [u8; 64],
}

// The string that a layer hashes.
pub(crate) fn string_of(halves: Halves) -> [u8; 64]
    ensures { result ≡ halves.left ++ halves.right }
{
    let left = halves.left;
    let right = halves.right;
    let mut out = [0u8; 64];
    out[..32].copy_from_slice(&left);
    out[32..].copy_from_slice(&right);
    out
}

// The meeting of two layers.
fn met(t: Halves, u: Halves) -> Pair
    ensures { result ≡ paired (t.left ++ t.right) (u.left ++ u.right) }
{
    let first = string_of(t);
    let second = string_of(u);
    Pair { first, second }
}

// The strings of two climbs at the lowest layer where they meet: from position i over the layers of x, the second from layer e of y up.
pub(crate) fn meet(
    a: &[u8],
    x: Path,
    b: &[u8],
    y: Path,
    e: usize,
    i: u64,
    a_id: [u8; 32],
    b_id: [u8; 32],
) -> Option<Pair>
    requires { (x.layers + e ≤ y.layers) × (PositionFits e i) }
    ensures { result ≡ meeting_of (meet (preimages_of (ascend (path_siblings a.now x) 0 x.layers i a_id)) (preimages_of (ascend (path_siblings b.now y) e x.layers i b_id))) }
{
    let mut j = i;
    let mut c = a_id;
    let mut d = b_id;
    for k in 0..x.layers {
        let Ok(t) = layer_of(a, x, k, j, c) else {
            return None;
        };
        let Ok(u) = layer_of(b, y, k + e, j, d) else {
            return None;
        };
        c = parent_of(t);
        d = parent_of(u);
        if format::same_bytes(c, d) {
            return Some(met(t, u));
        }
        j = j / 2;
    }
    None
}

// Whether two proofs agree in root, position and layers.
fn alike(x: Accepted, y: Accepted) -> bool
    ensures { result ≡ (same x.root y.root && (eqb x.claim.position y.claim.position && eqb x.claim.path.layers y.claim.path.layers)) }
{
    let first = x.root;
    let second = y.root;
    format::same_bytes(first, second)
        && x.claim.position == y.claim.position
        && x.claim.path.layers == y.claim.path.layers
}

// Two accepted proofs.
fn settle_pair(a: &[u8], x: Accepted, b: &[u8], y: Accepted) -> Result<Pair, Rejection>
    ensures { result ≡ compared_of (against (claim_proof a.now x.claim x.root) (claim_proof b.now y.claim y.root)) }
{
    let xid = x.claim.id;
    let yid = y.claim.id;
    if !alike(x, y) {
        return Err(reject_for(Refusal::Unlike));
    }
    if format::same_bytes(xid, yid) {
        return Err(reject_for(Refusal::SameId));
    }
    match meet(
        a,
        x.claim.path,
        b,
        y.claim.path,
        0,
        x.claim.position,
        xid,
        yid,
    ) {
        Some(pair) => Ok(pair),
        None => Err(reject_for(Refusal::SameId)),
    }
}

// Compare two proofs of any forms; a TSC proof has its own id. The first's refusal comes first, then the second's.
pub fn compare_proofs(
    a: &[u8],
    a_form: Form,
    a_id: [u8; 32],
    b: &[u8],
    b_form: Form,
    b_id: [u8; 32],
) -> Result<Pair, Rejection>
    ensures { result ≡ compared_of (compare (prove (reading a_form a.now a_id)) (prove (reading b_form b.now b_id))) }
{
    let x = accept(a, a_form, a_id)?;
    let y = accept(b, b_form, b_id)?;
    settle_pair(a, x, b, y)
}
