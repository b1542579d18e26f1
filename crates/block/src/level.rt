// The levels of a BUMP of chosen positions (specs/Leaves.antt): what they ask for at each offset, how many bytes that takes, and the bytes.
ghost use Rattle.std.specs.Prelude.{◌≡◌, List, ◌∷◌, ◌++◌, ℕ, ◌+◌, ◌%◌, ◌^◌, ◌<◌, ◌≤◌, length};
ghost use Rattle.encoding.specs.Buffer.{buffer, write_on};
ghost use Rattle.encoding.specs.Digits.{varint_bytes};
ghost use Rattle.encoding.specs.Encode.{encode_all};
ghost use Rattle.encoding.specs.BumpBytes.{level_bytes};
ghost use Rattle.spv.specs.Hashes.{hashes_of};
ghost use Rattle.block.specs.BlockBump.{levels_for};
ghost use Rattle.block.specs.Heap.{node_in};
ghost use Rattle.block.specs.Leaves.{passed_at, form_at, leaf_bytes, leaf_text, level_leaves, level_size, leaves_text, level_text, Ready};

use super::marks::{MARKS, is_marked};
use super::tree::node_at;
use encoding::buffer::{put, varint_size, write, write_varint};

// A leaf that is asked for.
#[derive(Clone, Copy)]
pub enum Asked {
    Plain,
    Copy,
    Client,
}

// A node that a chosen climb passes: a client's id at level 0, left out above it.
fn passed_at(base: bool) -> Option<Asked>
    ensures { result ≡ passed_at base }
{
    if base { Some(Asked::Client) } else { None }
}

// What a level asks for at an offset.
fn asked_at(marks: &[u8; MARKS], base: bool, width: usize, count: usize, o: usize) -> Option<Asked>
    requires { (o < width) × (width % 2 ≡ 0) × (width ≤ 1024) }
    ensures { result ≡ form_at marks.now base width count o }
{
    if is_marked(marks, width + o) {
        return passed_at(base);
    }
    let sibling = spv::sibling_position(o as u64) as usize;
    if !is_marked(marks, width + sibling) {
        return None;
    }
    Some(if o < count { Asked::Plain } else { Asked::Copy })
}

fn leaf_bytes(o: u64, a: Asked) -> usize
    ensures { result ≡ leaf_bytes o a }
{
    match a {
        Asked::Plain | Asked::Client => varint_size(o) + 33,
        Asked::Copy => varint_size(o) + 1,
    }
}

#[derive(Clone, Copy)]
pub struct Tally {
    pub leaves: u64,
    pub bytes: usize,
}

// The leaves of a level, and their bytes.
fn level_tally(marks: &[u8; MARKS], base: bool, width: usize, count: usize) -> Tally
    requires { (width % 2 ≡ 0) × (width ≤ 1024) }
    ensures { (result.leaves ≡ level_leaves marks.now base width count) × (result.bytes ≡ level_size marks.now base width count) × (result.leaves ≤ 1024) × (result.bytes ≤ 43008) }
{
    let mut leaves: u64 = 0;
    let mut bytes: usize = 0;
    for o in 0..width {
        if let Some(leaf) = asked_at(marks, base, width, count, o) {
            leaves += 1;
            bytes += leaf_bytes(o as u64, leaf);
        }
    }
    Tally { leaves, bytes }
}

fn write_hashed(
    ids: &[u8],
    heap: &[u8],
    base: bool,
    width: usize,
    out: &mut [u8],
    at: usize,
    o: usize,
    flags: u8,
) -> usize
    requires { (width ≤ 1024) × (o ≤ 1024) }
    ensures { buffer out.new result ≡ write_on (buffer out.old at) (varint_bytes o ++ (flags ∷ node_in ids.now heap.now base width o)) }
{
    let hash = node_at(ids, heap, base, width, o);
    let mut next = write_varint(out, at, o as u64);
    next = put(out, next, flags);
    write(out, next, &hash)
}

fn write_leaf(
    ids: &[u8],
    heap: &[u8],
    base: bool,
    width: usize,
    out: &mut [u8],
    at: usize,
    o: usize,
    a: Asked,
) -> usize
    requires { (width ≤ 1024) × (o ≤ 1024) }
    ensures { buffer out.new result ≡ write_on (buffer out.old at) (leaf_text ids.now heap.now base width o a) }
{
    match a {
        Asked::Plain => write_hashed(ids, heap, base, width, out, at, o, 0),
        Asked::Copy => {
            let next = write_varint(out, at, o as u64);
            put(out, next, 1)
        }
        Asked::Client => write_hashed(ids, heap, base, width, out, at, o, 2),
    }
}

// The leaves of a level.
fn write_leaves(
    ids: &[u8],
    heap: &[u8],
    marks: &[u8; MARKS],
    out: &mut [u8],
    at: usize,
    base: bool,
    width: usize,
    count: usize,
) -> usize
    requires { (width % 2 ≡ 0) × (width ≤ 1024) }
    ensures { buffer out.new result ≡ write_on (buffer out.old at) (leaves_text ids.now heap.now marks.now base width count) }
{
    let mut next = at;
    for o in 0..width {
        if let Some(leaf) = asked_at(marks, base, width, count, o) {
            next = write_leaf(ids, heap, base, width, out, next, o, leaf);
        }
    }
    next
}

// A level: its leaf count, then its leaves.
fn write_level(
    ids: &[u8],
    heap: &[u8],
    marks: &[u8; MARKS],
    out: &mut [u8],
    at: usize,
    base: bool,
    width: usize,
    count: usize,
) -> usize
    requires { (width % 2 ≡ 0) × (width ≤ 1024) }
    ensures { buffer out.new result ≡ write_on (buffer out.old at) (level_text ids.now heap.now marks.now base width count) }
{
    let tally = level_tally(marks, base, width, count);
    let next = write_varint(out, at, tally.leaves);
    write_leaves(ids, heap, marks, out, next, base, width, count)
}

// All levels, going up.
pub(crate) fn write_levels(
    ids: &[u8],
    heap: &[u8],
    marks: &[u8; MARKS],
    out: &mut [u8],
    at: usize,
    height: usize,
    n: usize,
    top: usize,
) -> usize
    requires { (height ≤ 10) × (top ≡ 2 ^ height) × (n ≤ 1024) }
    ensures { (chosen : List ℕ) → Ready ids.now heap.now marks.now chosen height n
        → buffer out.new result ≡ write_on (buffer out.old at) (encode_all level_bytes (levels_for (hashes_of ids.now) chosen height 0 height)) }
{
    let mut next = at;
    let mut width = top;
    let mut count = n;
    for k in 0..height {
        next = write_level(ids, heap, marks, out, next, k == 0, width, count);
        width /= 2;
        count = (count + 1) / 2;
    }
    next
}

// The bytes of all levels.
pub(crate) fn levels_size(marks: &[u8; MARKS], height: usize, n: usize, top: usize) -> usize
    requires { (height ≤ 10) × (top ≡ 2 ^ height) × (n ≤ 1024) }
    ensures { (result ≤ 430170) × ((list heap chosen : List ℕ) → Ready list heap marks.now chosen height n
        → result ≡ length (encode_all level_bytes (levels_for (hashes_of list) chosen height 0 height))) }
{
    let mut size: usize = 0;
    let mut width = top;
    let mut count = n;
    for k in 0..height {
        let tally = level_tally(marks, k == 0, width, count);
        size += varint_size(tally.leaves) + tally.bytes;
        width /= 2;
        count = (count + 1) / 2;
    }
    size
}
