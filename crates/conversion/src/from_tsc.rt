// A TSC proof as a BUMP with one client leaf (specs/Convert.antt).
ghost use Rattle.std.specs.Prelude.{◌≡◌, List, [], ◌∷◌, ℕ, ◌≤◌, ◌<◌, length};
ghost use Rattle.format.specs.Bytes.{hash_at};
ghost use Rattle.format.specs.Tsc.{Tsc, tsc_head_of};
ghost use Rattle.encoding.specs.Buffer.{buffer, write_on};
ghost use Rattle.encoding.specs.Encode.{encode_all};
ghost use Rattle.encoding.specs.BumpBytes.{carried_bytes, entry_bytes, level_bytes};
ghost use Rattle.spv.specs.Siblings.{written};
ghost use Rattle.spv.specs.Trace.{as_carried};
ghost use Rattle.block.specs.Output.{output_after, written_of};
ghost use Rattle.conversion.specs.Convert.{client_entry, client_level, node_count_at, sibling_entry, tsc_to_bump};
ghost use Rattle.conversion.specs.ConvertText.{client_levels_at, levels_at, Proved};

use encoding::buffer::{put, varint_size, write, write_varint};
use format::{Cursor, Kind, ReadRefusal, Refusal, TscHead, read_node};
use spv::Rejection;

// A flags byte with the 32 bytes at a place.
fn write_hash(s: &[u8], place: usize, out: &mut [u8], at: usize) -> usize
    ensures { buffer out.new result ≡ write_on (buffer out.old at) (0 ∷ hash_at s.now place) }
{
    let hash = format::hash_at(s, place);
    let next = put(out, at, 0);
    write(out, next, &hash)
}

// What a node carries as a leaf: a copy stays a copy.
fn write_node(s: &[u8], kind: Kind, out: &mut [u8], at: usize) -> usize
    ensures { buffer out.new result ≡ write_on (buffer out.old at) (carried_bytes (as_carried (written s.now kind))) }
{
    match kind {
        Kind::Plain(place) | Kind::Client(place) => write_hash(s, place, out, at),
        Kind::Copy => put(out, at, 1),
    }
}

fn node_size(kind: Kind) -> usize
    ensures { ((s : List ℕ) → result ≡ length (carried_bytes (as_carried (written s kind)))) × (result ≤ 33) }
{
    match kind {
        Kind::Plain(_) | Kind::Client(_) => 33,
        Kind::Copy => 1,
    }
}

// The leaf beside position j.
fn write_sibling(s: &[u8], kind: Kind, j: u64, out: &mut [u8], at: usize) -> usize
    ensures { buffer out.new result ≡ write_on (buffer out.old at) (entry_bytes (sibling_entry j (written s.now kind))) }
{
    let next = write_varint(out, at, spv::sibling_position(j));
    write_node(s, kind, out, next)
}

fn write_client(i: u64, id: [u8; 32], out: &mut [u8], at: usize) -> usize
    ensures { buffer out.new result ≡ write_on (buffer out.old at) (entry_bytes (client_entry i id)) }
{
    let mut next = write_varint(out, at, i);
    next = put(out, next, 2);
    write(out, next, &id)
}

// Level 0: the client's leaf and its sibling, offsets rising.
fn write_client_level(
    s: &[u8],
    kind: Kind,
    i: u64,
    id: [u8; 32],
    out: &mut [u8],
    at: usize,
) -> usize
    ensures { buffer out.new result ≡ write_on (buffer out.old at) (level_bytes (client_level i id (written s.now kind))) }
{
    let mut next = put(out, at, 2);
    if i % 2 == 1 {
        next = write_sibling(s, kind, i, out, next);
        return write_client(i, id, out, next);
    }
    next = write_client(i, id, out, next);
    write_sibling(s, kind, i, out, next)
}

// The levels of n nodes, from position i on.
fn write_levels(s: &[u8], c: Cursor, n: u64, i: u64, out: &mut [u8], at: usize) -> usize
    ensures { buffer out.new result ≡ write_on (buffer out.old at) (encode_all level_bytes (levels_at s.now n c.at i)) }
{
    let mut next = at;
    let mut place = c;
    let mut j = i;
    for _ in 0..n {
        let Ok((kind, after)) = read_node(s, place) else {
            return next;
        };
        next = put(out, next, 1);
        next = write_sibling(s, kind, j, out, next);
        place = after;
        j /= 2;
    }
    next
}

// The bytes that they take.
fn levels_size(s: &[u8], c: Cursor, n: u64, i: u64) -> usize
    requires { n ≤ 64 }
    ensures { (result ≡ length (encode_all level_bytes (levels_at s.now n c.at i))) × (result ≤ 2752) }
{
    let mut size: usize = 0;
    let mut place = c;
    let mut j = i;
    for _ in 0..n {
        let Ok((kind, after)) = read_node(s, place) else {
            return size;
        };
        size += 1 + varint_size(spv::sibling_position(j)) + node_size(kind);
        place = after;
        j /= 2;
    }
    size
}

// All levels of n nodes, the client's leaf at position i.
fn write_client_levels(
    s: &[u8],
    c: Cursor,
    n: u64,
    i: u64,
    id: [u8; 32],
    out: &mut [u8],
    at: usize,
) -> usize
    requires { 0 < n }
    ensures { buffer out.new result ≡ write_on (buffer out.old at) (encode_all level_bytes (client_levels_at s.now n c.at i id)) }
{
    let Ok((kind, after)) = read_node(s, c) else {
        return at;
    };
    let next = write_client_level(s, kind, i, id, out, at);
    write_levels(s, after, n - 1, i / 2, out, next)
}

fn client_levels_size(s: &[u8], c: Cursor, n: u64, i: u64) -> usize
    requires { (0 < n) × (n ≤ 64) }
    ensures { ((id : List ℕ) → length id ≡ 32 → result ≡ length (encode_all level_bytes (client_levels_at s.now n c.at i id))) × (result ≤ 2838) }
{
    let Ok((kind, after)) = read_node(s, c) else {
        return 0;
    };
    let client = varint_size(i) + 33;
    let sibling = varint_size(spv::sibling_position(i)) + node_size(kind);
    1 + client + sibling + levels_size(s, after, n - 1, i / 2)
}

// Where the node count stands: after the target.
fn node_count_at(head: TscHead) -> usize
    requires { head.target ≤ 16777216 }
    ensures { (t : Tsc) → tsc_head_of t ≡ head → result ≡ node_count_at t }
{
    if head.flags & 6 == 2 {
        head.target + 80
    } else {
        head.target + 32
    }
}

// The BUMP of a TSC proof that was read and proved.
fn write_proved(
    s: &[u8],
    head: TscHead,
    id: [u8; 32],
    block: u32,
    out: &mut [u8],
) -> Result<usize, Rejection>
    requires { Proved s.now head id }
    ensures { (result ≡ written_of (tsc_to_bump s.now block (length out.old)))
        × (out.new ≡ output_after (tsc_to_bump s.now block (length out.old)) out.old) }
{
    let n = head.nodes;
    let at = head.nodes_at;
    let i = head.index;
    if n == 0 {
        return Err(spv::reject_reading(ReadRefusal {
            refusal: Refusal::BadHeight,
            place: node_count_at(head),
        }));
    }
    let size = varint_size(block as u64) + 1 + client_levels_size(s, at, n, i);
    if out.len() < size {
        return Err(spv::reject_for(Refusal::NoRoom));
    }
    let mut next = write_varint(out, 0, block as u64);
    next = put(out, next, n as u8);
    next = write_client_levels(s, at, n, i, id, out, next);
    Ok(next)
}

// A BUMP with one client leaf from a TSC proof, at a block height.
pub fn tsc_to_bump(s: &[u8], block: u32, out: &mut [u8]) -> Result<usize, Rejection>
    ensures { (result ≡ written_of (tsc_to_bump s.now block (length out.old)))
        × (out.new ≡ output_after (tsc_to_bump s.now block (length out.old)) out.old) }
{
    let (head, _) = format::read_tsc(s)?;
    let spv::Proved { id, .. } = spv::prove_tsc(s)?;
    write_proved(s, head, id, block, out)
}
