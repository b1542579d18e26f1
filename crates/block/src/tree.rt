// The tree of a block's ids (specs/Heap.antt). The node at position j of a level of `width` places stands at index width + j of the heap, 32 bytes an
// index; level 0 is the lent list itself.
ghost use Rattle.std.specs.Prelude.{◌≡◌, false, List, ℕ, ◌+◌, ◌*◌, ◌/◌, ◌%◌, ◌^◌, ◌<◌, ◌≤◌, length};
ghost use Rattle.lanes.specs.Lanes as L;
ghost use Rattle.format.specs.Bytes.{hash_at};
ghost use Rattle.spv.specs.Hashes.{hashes_of};
ghost use Rattle.block.specs.Tree.{above, height_for, tree_climb};
ghost use Rattle.block.specs.BlockBump.{climbs_from};
ghost use Rattle.block.specs.Heap.{node_in, right_in, pair_in, set_four, Stored, Heap, Grown, twin_in, climb_of};
ghost use Rattle.block.specs.Marks.{Marked};

use super::marks::{MARKS, is_marked};
use format::Refusal;
use lanes::Nodes;
use spv::Rejection;

// The least height of a tree that holds a list, and the places of its level 0.
#[derive(Clone, Copy)]
pub struct Shape {
    pub height: usize,
    pub width: usize,
}

pub(crate) fn shape_for(n: usize) -> Shape
    requires { n ≤ 1024 }
    ensures { (result.height ≡ height_for n) × (result.width ≡ 2 ^ height_for n) }
{
    let mut height: usize = 0;
    let mut width: usize = 1;
    // Not a for: how often it is doubled is what is asked.
    while width < n {
        width = 2 * width;
        height += 1;
    }
    Shape { height, width }
}

// The bytes of every level above 0 of a tree of up to 1,024 places.
pub(crate) const HEAP: usize = 32768;

// The node at position j of a level of `width` places.
pub(crate) fn node_at(ids: &[u8], heap: &[u8], base: bool, width: usize, j: usize) -> [u8; 32]
    requires { (width ≤ 2048) × (j ≤ 2048) }
    ensures { result ≡ node_in ids.now heap.now base width j }
{
    if base {
        return format::hash_at(ids, 32 * j);
    }
    format::hash_at(heap, 32 * (width + j))
}

// The right-hand one of a pair: the next node, or where there is none a copy.
fn right_of(ids: &[u8], heap: &[u8], base: bool, width: usize, count: usize, j: usize) -> [u8; 32]
    requires { (width ≤ 2048) × (j < 2048) }
    ensures { result ≡ right_in ids.now heap.now base width count j }
{
    if j + 1 < count {
        return node_at(ids, heap, base, width, j + 1);
    }
    node_at(ids, heap, base, width, j)
}

// Four left-hand nodes, of the pairs j to j + 3.
fn lefts(ids: &[u8], heap: &[u8], base: bool, width: usize, j: usize) -> Nodes
    requires { (width ≤ 2048) × (j + 4 ≤ 1024) }
    ensures { (i : ℕ) → i < 4 → L.node i result ≡ node_in ids.now heap.now base width (2 * (j + i)) }
{
    let a = node_at(ids, heap, base, width, 2 * j);
    let b = node_at(ids, heap, base, width, 2 * (j + 1));
    let c = node_at(ids, heap, base, width, 2 * (j + 2));
    let d = node_at(ids, heap, base, width, 2 * (j + 3));
    Nodes { a, b, c, d }
}

// The right-hand ones.
fn rights(ids: &[u8], heap: &[u8], base: bool, width: usize, count: usize, j: usize) -> Nodes
    requires { (width ≤ 2048) × (j + 4 ≤ 1024) }
    ensures { (i : ℕ) → i < 4 → L.node i result ≡ right_in ids.now heap.now base width count (2 * (j + i)) }
{
    let a = right_of(ids, heap, base, width, count, 2 * j);
    let b = right_of(ids, heap, base, width, count, 2 * (j + 1));
    let c = right_of(ids, heap, base, width, count, 2 * (j + 2));
    let d = right_of(ids, heap, base, width, count, 2 * (j + 3));
    Nodes { a, b, c, d }
}

// Four nodes of the level above, from j on: no pair waits for another.
fn parents(ids: &[u8], heap: &[u8], base: bool, width: usize, count: usize, j: usize) -> Nodes
    requires { (width ≤ 2048) × (j + 4 ≤ 1024) }
    ensures { (i : ℕ) → i < 4 → L.node i result ≡ pair_in ids.now heap.now base width count (j + i) }
{
    lanes::join4(
        lefts(ids, heap, base, width, j),
        rights(ids, heap, base, width, count, j),
    )
}

// Four hashes stored, one after the other.
fn set_four(heap: &mut [u8; HEAP], i: usize, four: Nodes)
    requires { i ≤ 2048 }
    ensures { heap.new ≡ set_four heap.old i four }
{
    let Nodes { a, b, c, d } = four;
    format::set_hash(heap, i, a);
    format::set_hash(heap, i + 1, b);
    format::set_hash(heap, i + 2, c);
    format::set_hash(heap, i + 3, d);
}

// The level above one of `width` places and `count` nodes.
fn raise(ids: &[u8], heap: &mut [u8; HEAP], base: bool, width: usize, count: usize)
    requires { (width % 2 ≡ 0) × (width ≤ 1024) × (count ≤ width) }
    ensures rises { (l : List (List ℕ)) → length l ≡ count → Stored ids.now heap.old base width l → Stored ids.now heap.new false (width / 2) (above l) }
    ensures keeps { (p : ℕ) → width ≤ p → hash_at heap.new (32 * p) ≡ hash_at heap.old (32 * p) }
{
    let half = width / 2;
    let above = (count + 1) / 2;
    let fours = above / 4;
    for k in 0..fours {
        let four = parents(ids, heap, base, width, count, 4 * k);
        set_four(heap, half + 4 * k, four);
    }
    for j in 4 * fours..above {
        let left = node_at(ids, heap, base, width, 2 * j);
        let right = right_of(ids, heap, base, width, count, 2 * j);
        format::set_hash(heap, half + j, hash::join(left, right));
    }
}

// Every level above 0.
pub(crate) fn build(ids: &[u8], heap: &mut [u8; HEAP], height: usize, n: usize, top: usize)
    requires { (height ≤ 10) × (top ≡ 2 ^ height) × (n ≤ top) × (n ≡ length ids.now / 32) }
    ensures { Heap ids.now heap.new height height }
{
    let mut width = top;
    let mut count = n;
    for k in 0..height {
        raise(ids, heap, k == 0, width, count);
        width /= 2;
        count = (count + 1) / 2;
    }
}

// Whether the climb meets a twin at position j: the node on its left is the same.
fn has_twin(ids: &[u8], heap: &[u8], base: bool, width: usize, j: usize) -> bool
    requires { (width ≤ 2048) × (j ≤ 2048) }
    ensures { result ≡ twin_in ids.now heap.now base width j }
{
    if j % 2 == 0 {
        return false;
    }
    format::same_bytes(
        node_at(ids, heap, base, width, j - 1),
        node_at(ids, heap, base, width, j),
    )
}

// The climb from a position, up to the root, or refused at the first twin.
fn climb_from(ids: &[u8], heap: &[u8], height: usize, top: usize, i: usize) -> Result<(), Rejection>
    requires { (height ≤ 10) × (top ≡ 2 ^ height) × (i ≤ 1024) }
    ensures { Grown ids.now heap.now height → i < length ids.now / 32 → result ≡ climb_of (tree_climb (hashes_of ids.now) i) }
{
    let mut j = i;
    let mut width = top;
    for k in 0..height {
        if has_twin(ids, heap, k == 0, width, j) {
            return Err(Rejection {
                number: Refusal::Twin.number(),
                carried: 0,
                layer: k,
                sibling: spv::sibling_position(j as u64),
            });
        }
        j /= 2;
        width /= 2;
    }
    Ok(())
}

// The climb from a position if it is chosen.
fn climb_if_chosen(
    ids: &[u8],
    heap: &[u8],
    marks: &[u8; MARKS],
    height: usize,
    top: usize,
    i: usize,
) -> Result<(), Rejection>
    requires { (1 ≤ height) × (height ≤ 10) × (top ≡ 2 ^ height) × (i < top) × (i < length ids.now / 32) }
    ensures { (chosen : List ℕ) → Grown ids.now heap.now height → Marked marks.now chosen height
        → result ≡ climb_of (climbs_from (hashes_of ids.now) chosen i 1) }
{
    if !is_marked(marks, top + i) {
        return Ok(());
    }
    climb_from(ids, heap, height, top, i)
}

// The climbs from the chosen positions, least first, up to the first twin.
pub(crate) fn climb_chosen(
    ids: &[u8],
    heap: &[u8],
    marks: &[u8; MARKS],
    height: usize,
    n: usize,
    top: usize,
) -> Result<(), Rejection>
    requires { (1 ≤ height) × (height ≤ 10) × (top ≡ 2 ^ height) × (n ≤ top) × (n ≡ length ids.now / 32) }
    ensures { (chosen : List ℕ) → Grown ids.now heap.now height → Marked marks.now chosen height
        → result ≡ climb_of (climbs_from (hashes_of ids.now) chosen 0 n) }
{
    for i in 0..n {
        climb_if_chosen(ids, heap, marks, height, top, i)?;
    }
    Ok(())
}
