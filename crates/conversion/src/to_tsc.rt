// One id's climb in a BUMP as a TSC proof with id and root target (specs/Convert.antt).
ghost use Rattle.std.specs.Prelude.{◌≡◌, List, ◌∷◌, ◌++◌, ◌≤◌, length, take};
ghost use Rattle.encoding.specs.Buffer.{buffer, write_on};
ghost use Rattle.encoding.specs.Digits.{varint_bytes};
ghost use Rattle.encoding.specs.TscBytes.{ID_AND_ROOT};
ghost use Rattle.block.specs.Output.{output_after, written_of};
ghost use Rattle.conversion.specs.Convert.{bump_to_tsc};

use encoding::buffer::{put, varint_size, write, write_varint};
use format::Refusal;
use spv::{Proved, Rejection, Traced};

// Flags of a TSC proof that holds an id, and a root for its target.
const ID_AND_ROOT: u8 = 4;

// Flags, index, id, target, node count, and the nodes: the first `size` bytes of the text.
fn write_parts(
    position: u64,
    layers: u64,
    id: [u8; 32],
    root: [u8; 32],
    nodes: &[u8],
    size: usize,
    out: &mut [u8],
) -> usize
    requires { size ≤ length nodes.now }
    ensures { buffer out.new result ≡ write_on (buffer out.old 0) (ID_AND_ROOT ∷ (varint_bytes position ++ (id ++ (root ++ (varint_bytes layers ++ take size nodes.now))))) }
{
    let mut next = put(out, 0, ID_AND_ROOT);
    next = write_varint(out, next, position);
    next = write(out, next, &id);
    next = write(out, next, &root);
    next = write_varint(out, next, layers);
    write(out, next, &nodes[..size])
}

// A TSC proof with id and root target from one id's climb in a BUMP.
pub fn bump_to_tsc(s: &[u8], id: [u8; 32], out: &mut [u8]) -> Result<usize, Rejection>
    ensures { (result ≡ written_of (bump_to_tsc s.now id (length out.old)))
        × (out.new ≡ output_after (bump_to_tsc s.now id (length out.old)) out.old) }
{
    let Traced {
        proved,
        nodes,
        size,
    } = spv::trace_bump(s, id)?;
    let Proved {
        position,
        layers,
        root,
        ..
    } = proved;
    let layers = layers as u64;
    let needed = varint_size(position) + varint_size(layers) + 65 + size;
    if out.len() < needed {
        return Err(spv::reject_for(Refusal::NoRoom));
    }
    Ok(write_parts(position, layers, id, root, &nodes, size, out))
}
