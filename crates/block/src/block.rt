// BUMPs from a block's ids (specs/BlockBump.antt).
ghost use Rattle.std.specs.Prelude.{◌≡◌, true, ◌/◌, length};
ghost use Rattle.spv.specs.Hashes.{hashes_of};
ghost use Rattle.block.specs.BlockBump.{all_below, distinct, sized, writing};
ghost use Rattle.block.specs.Output.{output_after, written_of};

use super::ids::{all_below, all_differ};
use super::level::{levels_size, write_levels};
use super::marks::marks_of;
use super::tree::{HEAP, Shape, build, climb_chosen, shape_for};
use encoding::buffer::{put, varint_size, write_varint};
use format::{Bump, Refusal};
use spv::Rejection;

// The most ids that a list has.
const MAX_IDS: usize = 1024;

// Whether the block height and the list are within the sizes, and the list is whole ids.
fn within_sizes(block: u64, ids: &[u8]) -> bool
    ensures { result ≡ sized block ids.now }
{
    if Bump::MAX_BLOCK < block {
        return false;
    }
    if ids.len() % 32 != 0 {
        return false;
    }
    let n = ids.len() / 32;
    if n < 2 {
        return false;
    }
    n <= MAX_IDS
}

// The BUMP of ids and positions that are not refused for themselves: the tree is made, then the bytes.
fn write_tree(block: u64, ids: &[u8], chosen: &[u64], out: &mut [u8]) -> Result<usize, Rejection>
    requires { (sized block ids.now ≡ true) × (length chosen.now ≡ 0 → ⊥) × (all_below (length ids.now / 32) chosen.now ≡ true) × (distinct (hashes_of ids.now) ≡ true) }
    ensures { (result ≡ written_of (writing block ids.now chosen.now (length out.old)))
        × (out.new ≡ output_after (writing block ids.now chosen.now (length out.old)) out.old) }
{
    let n = ids.len() / 32;
    let Shape { height, width: top } = shape_for(n);
    let mut heap = [0u8; HEAP];
    build(ids, &mut heap, height, n, top);
    let marks = marks_of(chosen, height, top);
    climb_chosen(ids, &heap, &marks, height, n, top)?;
    let size = varint_size(block) + 1 + levels_size(&marks, height, n, top);
    if out.len() < size {
        return Err(spv::reject_for(Refusal::NoRoom));
    }
    let mut next = write_varint(out, 0, block);
    next = put(out, next, height as u8);
    next = write_levels(ids, &heap, &marks, out, next, height, n, top);
    Ok(next)
}

// The BUMP of the chosen positions of a list of ids: how many bytes were written, or a refusal.
pub fn write_bump(
    block: u64,
    ids: &[u8],
    chosen: &[u64],
    out: &mut [u8],
) -> Result<usize, Rejection>
    ensures { (result ≡ written_of (writing block ids.now chosen.now (length out.old)))
        × (out.new ≡ output_after (writing block ids.now chosen.now (length out.old)) out.old) }
{
    if !within_sizes(block, ids) {
        return Err(spv::reject_for(Refusal::OverLimit));
    }
    if chosen.is_empty() {
        return Err(spv::reject_for(Refusal::NotListed));
    }
    let n = ids.len() / 32;
    if !all_below(n as u64, chosen) {
        return Err(spv::reject_for(Refusal::BadOffset));
    }
    if !all_differ(ids) {
        return Err(spv::reject_for(Refusal::SameTx));
    }
    write_tree(block, ids, chosen, out)
}
