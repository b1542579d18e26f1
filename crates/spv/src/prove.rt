// Proving an id by one proof (01, "The climb"; specs/Prove.antt).
ghost use Rattle.std.specs.Prelude.{◌≡◌, MatchResult};
ghost use Rattle.format.specs.Tsc.{tells_root, target_root};
ghost use Rattle.spv.specs.Prove.{target_of, prove, hits};
ghost use Rattle.spv.specs.Readings.{path_reading, bump_reading, cmp_reading, tsc_reading, reading};
ghost use Rattle.spv.specs.Result.{accepted, refused};
ghost use Rattle.spv.specs.Shapes.{bound_to, opened, claimed, claim_proof, proved_of};

use super::climb::climb_from;
use super::rejection::{Rejection, reject_for};
use format::{Refusal, TscHead};
use path::{Form, Path};

// A proof as it was read: where its siblings stand, its position and id, and the root that its target names if it is bound to one.
#[derive(Clone, Copy)]
pub struct Claim {
    pub path: Path,
    pub position: u64,
    pub id: [u8; 32],
    pub target: Option<[u8; 32]>,
}

// What a proof proves.
#[derive(Clone, Copy)]
pub struct Proved {
    pub position: u64,
    pub layers: usize,
    pub id: [u8; 32],
    pub root: [u8; 32],
}

#[tactic(auto, unfolding(crate::specs::Prove::hits))]
pub fn hits_target(target: Option<[u8; 32]>, root: [u8; 32]) -> bool
    ensures { result ≡ hits (bound_to target) root }
{
    match target {
        Some(wanted) => format::same_bytes(wanted, root),
        None => true,
    }
}

// A proof that was read, judged: its climb, and its target.
pub(crate) fn prove_claim(s: &[u8], x: Claim) -> Result<Proved, Rejection>
    ensures { result ≡ proved_of (prove (opened s.now x)) }
{
    let id = x.id;
    let root = climb_from(s, x.path, x.position, id)?;
    if !hits_target(x.target, root) {
        return Err(reject_for(Refusal::RootsDiffer));
    }
    Ok(Proved {
        position: x.position,
        layers: x.path.layers,
        id,
        root,
    })
}

// An id by a path, from the least offset that carries it.
#[tactic(auto, unfolding(crate::specs::Readings::path_reading, crate::specs::Readings::starting, crate::specs::Shapes::opened))]
fn claim_in(s: &[u8], path: Path, id: [u8; 32]) -> Result<Claim, Rejection>
    ensures { claimed s.now result ≡ path_reading s.now path id }
{
    match path::find_id(s, path, id) {
        Some(position) => Ok(Claim {
            path,
            position,
            id,
            target: None,
        }),
        None => Err(reject_for(Refusal::NotListed)),
    }
}

pub(crate) fn claim_bump(s: &[u8], id: [u8; 32]) -> Result<Claim, Rejection>
    ensures { prove (claimed s.now result) ≡ prove (bump_reading s.now id) }
{
    let (head, _) = format::read_bump(s)?;
    claim_in(s, path::bump_path(s, head), id)
}

fn claim_cmp(s: &[u8], id: [u8; 32]) -> Result<Claim, Rejection>
    ensures { prove (claimed s.now result) ≡ prove (cmp_reading s.now id) }
{
    let (head, _) = format::read_cmp(s)?;
    claim_in(s, path::cmp_path(s, head), id)
}

// The root that the target of a TSC proof names, if it names one.
#[tactic(auto, unfolding(crate::specs::Prove::target_of))]
fn tsc_target(s: &[u8], head: TscHead) -> Option<[u8; 32]>
    ensures { bound_to result ≡ target_of (tells_root head.flags) (target_root s.now head.flags head.target) }
{
    if head.tells_root() {
        return Some(path::target_root(s, head));
    }
    None
}

fn claim_tsc(s: &[u8]) -> Result<Claim, Rejection>
    ensures { prove (claimed s.now result) ≡ prove (tsc_reading s.now) }
{
    let (head, _) = format::read_tsc(s)?;
    Ok(Claim {
        path: path::tsc_path(s, head),
        position: head.index,
        id: path::subject_id(s, head.subject),
        target: tsc_target(s, head),
    })
}

// Prove a lent id by a path: for the parts of a bundle.
pub fn prove_in(s: &[u8], path: Path, id: [u8; 32]) -> Result<Proved, Rejection>
    ensures { result ≡ proved_of (prove (path_reading s.now path id)) }
{
    let claim = claim_in(s, path, id)?;
    prove_claim(s, claim)
}

// Prove a lent id by a BUMP.
pub fn prove_bump(s: &[u8], id: [u8; 32]) -> Result<Proved, Rejection>
    ensures { result ≡ proved_of (prove (bump_reading s.now id)) }
{
    let claim = claim_bump(s, id)?;
    prove_claim(s, claim)
}

// Prove a lent id by a CMP. (One function over the form would take an id for TSC proofs too, and not look at it.)
pub fn prove_cmp(s: &[u8], id: [u8; 32]) -> Result<Proved, Rejection>
    ensures { result ≡ proved_of (prove (cmp_reading s.now id)) }
{
    let claim = claim_cmp(s, id)?;
    prove_claim(s, claim)
}

// Prove a TSC proof's own id.
pub fn prove_tsc(s: &[u8]) -> Result<Proved, Rejection>
    ensures { result ≡ proved_of (prove (tsc_reading s.now)) }
{
    let claim = claim_tsc(s)?;
    prove_claim(s, claim)
}

// A proof of any form as it is read. A TSC proof has its own id: the lent one is not looked at.
#[tactic(auto, unfolding(crate::specs::Readings::reading_up_to))]
fn claim_of(s: &[u8], form: Form, id: [u8; 32]) -> Result<Claim, Rejection>
    ensures { prove (claimed s.now result) ≡ prove (reading form s.now id) }
{
    match form {
        Form::Bump => claim_bump(s, id),
        Form::Cmp => claim_cmp(s, id),
        Form::Tsc => claim_tsc(s),
    }
}

// An accepted proof as it was read, with its root.
#[derive(Clone, Copy)]
pub struct Accepted {
    pub claim: Claim,
    pub root: [u8; 32],
}

// A proof of any form, read and judged, to be compared with another one.
pub(crate) fn accept(s: &[u8], form: Form, id: [u8; 32]) -> Result<Accepted, Rejection>
    ensures { MatchResult result (λ x. prove (reading form s.now id) ≡ accepted (claim_proof s.now x.claim x.root)) (λ why. prove (reading form s.now id) ≡ refused why) }
{
    let claim = claim_of(s, form, id)?;
    let proved = prove_claim(s, claim)?;
    let root = proved.root;
    Ok(Accepted { claim, root })
}
