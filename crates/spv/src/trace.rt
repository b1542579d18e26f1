// A proof with the siblings that its climb took (specs/Trace.antt): what a writer needs to say it in another form.
ghost use Rattle.std.specs.Prelude.{◌≡◌, IfOk};
ghost use Rattle.encoding.specs.Buffer.{buffer, write_on};
ghost use Rattle.encoding.specs.BumpBytes.{carried_bytes};
ghost use Rattle.spv.specs.Climb.{ascend, end_of, siblings_of};
ghost use Rattle.spv.specs.Prove.{prove};
ghost use Rattle.spv.specs.Siblings.{path_siblings};
ghost use Rattle.spv.specs.Readings.{bump_reading};
ghost use Rattle.spv.specs.Shapes.{sibling_of, climbed_of, opened};
ghost use Rattle.spv.specs.Trace.{as_carried, nodes_text, root_of, traced_of};

use super::climb::{fold, parent_of, sibling_at, sibling_position};
use super::node::Node;
use super::prove::{Claim, Proved, claim_bump, hits_target};
use super::rejection::{Rejection, reject_for};
use encoding::buffer::{put, write};
use format::Refusal;
use path::Path;

// The room for 64 nodes of 33 bytes.
const TRACE_ROOM: usize = 2112;

// The nodes stand end to end, each a type byte, 0 followed by 32 bytes or 1 for a copy.
#[derive(Clone, Copy)]
pub struct Traced {
    pub proved: Proved,
    pub nodes: [u8; TRACE_ROOM],
    pub size: usize,
}

// The root of a climb, and where the node after its last one goes.
#[derive(Clone, Copy)]
pub struct Trail {
    pub root: [u8; 32],
    pub next: usize,
}

fn write_sibling(out: &mut [u8], at: usize, node: Node) -> usize
    ensures { buffer out.new result ≡ write_on (buffer out.old at) (carried_bytes (as_carried (sibling_of node))) }
{
    match node {
        Node::Value(hash) => {
            let next = put(out, at, 0);
            write(out, next, &hash)
        }
        // Two arms: the edit copy_as_hash changes what is written for a copy alone.
        Node::Copied => put(out, at, 1),
        Node::Absent => put(out, at, 1),
    }
}

// The climb from id at position i of a path; each sibling that it takes is written.
fn climb_writing(
    s: &[u8],
    path: Path,
    i: u64,
    id: [u8; 32],
    out: &mut [u8],
) -> Result<Trail, Rejection>
    ensures end { root_of result ≡ climbed_of (end_of id (ascend (path_siblings s.now path) 0 path.layers i id)) }
    ensures text { IfOk result (λ t. buffer out.new t.next ≡ write_on (buffer out.old 0) (nodes_text (siblings_of (ascend (path_siblings s.now path) 0 path.layers i id)))) }
{
    let mut j = i;
    let mut c = id;
    let mut next: usize = 0;
    for k in 0..path.layers {
        let q = sibling_position(j);
        let node = sibling_at(s, path, k, q);
        match fold(node, j % 2 == 1, c) {
            Ok(halves) => {
                next = write_sibling(out, next, node);
                c = parent_of(halves);
                j = j / 2;
            }
            Err(refusal) => {
                return Err(Rejection {
                    number: refusal.number(),
                    carried: 0,
                    layer: k,
                    sibling: q,
                });
            }
        }
    }
    Ok(Trail { root: c, next })
}

// The climb of a proof that was read, and its target.
fn trace_claim(s: &[u8], x: Claim) -> Result<Traced, Rejection>
    ensures { result ≡ traced_of (prove (opened s.now x)) }
{
    let id = x.id;
    let mut nodes = [0u8; TRACE_ROOM];
    let trail = climb_writing(s, x.path, x.position, id, &mut nodes)?;
    let root = trail.root;
    if !hits_target(x.target, root) {
        return Err(reject_for(Refusal::RootsDiffer));
    }
    let proved = Proved {
        position: x.position,
        layers: x.path.layers,
        id,
        root,
    };
    Ok(Traced {
        proved,
        nodes,
        size: trail.next,
    })
}

// Prove a lent id by a BUMP, with the siblings that its climb takes.
pub fn trace_bump(s: &[u8], id: [u8; 32]) -> Result<Traced, Rejection>
    ensures { result ≡ traced_of (prove (bump_reading s.now id)) }
{
    let claim = claim_bump(s, id)?;
    trace_claim(s, claim)
}
