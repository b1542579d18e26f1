// Merging two BUMPs of one block (specs/Merging.antt): the merged path's bytes and its list (paper 02, Item 14).
ghost use Rattle.std.specs.Prelude.{◌≡◌, ◌∷◌, ◌++◌, true, false, ◌&&◌, ◌≤◌, ◌/◌, length, eqb};
ghost use Rattle.format.specs.Bytes.{same};
ghost use Rattle.encoding.specs.Digits.{varint_bytes};
ghost use Rattle.encoding.specs.Encode.{encode_all};
ghost use Rattle.encoding.specs.Buffer.{buffer, write_on};
ghost use Rattle.path.specs.Path.{bump_path_of};
ghost use Rattle.spv.specs.Result.{accepted};
ghost use Rattle.spv.specs.Clients.{bump_clients};
ghost use Rattle.leaflist.specs.LeafList.{room_in};
ghost use Rattle.merging.specs.Merging.{merging, merged_of, bytes_in, list_in};
ghost use Rattle.climbs.specs.Reach.{level_reaches};
ghost use Rattle.merging.specs.Both.{both_siblings};
ghost use Rattle.merging.specs.Levels.{walk_levels, level_text, tally_all};
ghost use Rattle.merging.specs.Agreed.{Agreed, Taken};

use super::joining::{PLACES, Tally, put_levels, tally_levels};
use format::{BumpHead, Refusal};
use leaflist::build;
use spv::Rejection;

// How many bytes the merged path has, and how many leaves its list.
#[derive(Clone, Copy)]
pub struct Merged {
    pub bytes: usize,
    pub leaves: usize,
}

// Whether block height, tree height and root are the same.
fn alike(x: BumpHead, root: [u8; 32], y: BumpHead, other: [u8; 32]) -> bool
    ensures { result ≡ (eqb x.block y.block && eqb x.height y.height && same root other) }
{
    x.block == y.block && x.height == y.height && format::same_bytes(root, other)
}

// The merged levels before they are written. Its frame is its own: the room for a level's places is not there while clients climb.
#[inline(never)]
fn tally_paths(s: &[u8], x: BumpHead, t: &[u8], y: BumpHead) -> Tally
    requires { x.height ≤ 64 }
    ensures { (result ≡ tally_all (walk_levels s.now t.now x.height x.levels.at y.levels.at)) × (result.bytes ≤ 8388608) }
{
    let mut first = [0; PLACES];
    let mut second = [0; PLACES];
    let mut room = [0; PLACES];
    tally_levels(
        s,
        x.levels,
        t,
        y.levels,
        x.height,
        &mut first,
        &mut second,
        &mut room,
    )
}

// Whether every client of either path comes to the root by what the two have written between them.
fn both_reach(s: &[u8], x: BumpHead, t: &[u8], y: BumpHead, root: [u8; 32]) -> bool
    requires { x.height ≤ 64 }
    ensures { result ≡ (level_reaches (both_siblings s.now (bump_path_of s.now x).at t.now (bump_path_of t.now y).at) x.height s.now root x.levels.at
        && level_reaches (both_siblings s.now (bump_path_of s.now x).at t.now (bump_path_of t.now y).at) x.height t.now root y.levels.at) }
{
    let first = path::bump_path(s, x);
    let second = path::bump_path(t, y);
    climbs::both_reach(s, x.levels, s, first, t, second, root)
        && climbs::both_reach(t, y.levels, s, first, t, second, root)
}

// What two paths whose clients agree come to, with room for so many bytes and so many leaves.
fn weigh(
    s: &[u8],
    x: BumpHead,
    root: [u8; 32],
    t: &[u8],
    y: BumpHead,
    other: [u8; 32],
    bytes: usize,
    rows: usize,
) -> Result<Merged, Rejection>
    requires { (Agreed s.now x root) × (Agreed t.now y other) }
    ensures { result ≡ merged_of (merging s.now t.now bytes rows) }
{
    if !alike(x, root, y, other) {
        return Err(spv::reject_for(Refusal::Unlike));
    }
    let tally = tally_paths(s, x, t, y);
    if tally.over {
        return Err(spv::reject_for(Refusal::OverLimit));
    }
    if tally.clash || !both_reach(s, x, t, y, root) {
        return Err(spv::reject_for(Refusal::RootsDiffer));
    }
    let size = encoding::buffer::varint_size(x.block) + 1 + tally.bytes;
    if bytes < size || rows < tally.leaves {
        return Err(spv::reject_for(Refusal::NoRoom));
    }
    Ok(Merged {
        bytes: size,
        leaves: tally.leaves,
    })
}

// The merged path's bytes: block height, tree height, levels.
#[inline(never)]
fn put_path(s: &[u8], x: BumpHead, t: &[u8], y: BumpHead, out: &mut [u8]) -> usize
    requires { x.height ≤ 64 }
    ensures { buffer out.new result ≡ write_on (buffer out.old 0) (varint_bytes x.block ++ (x.height ∷ encode_all level_text (walk_levels s.now t.now x.height x.levels.at y.levels.at))) }
{
    let block = encoding::buffer::write_varint(out, 0, x.block);
    let height = encoding::buffer::put(out, block, x.height as u8);
    let mut first = [0; PLACES];
    let mut second = [0; PLACES];
    let mut room = [0; PLACES];
    put_levels(
        s,
        x.levels,
        t,
        y.levels,
        x.height,
        &mut first,
        &mut second,
        &mut room,
        out,
        height,
    )
}

// Writes the merged path, of n bytes, and its list.
fn put_merged(
    s: &[u8],
    x: BumpHead,
    t: &[u8],
    y: BumpHead,
    n: usize,
    bytes: &mut [u8],
    list: &mut [u64],
)
    requires { Taken s.now x t.now y n (length bytes.old) (length list.old / 3) }
    ensures bytes_after { bytes.new ≡ bytes_in (merging s.now t.now (length bytes.old) (room_in list.old)) bytes.old }
    ensures list_after { list.new ≡ list_in (merging s.now t.now (length bytes.old) (room_in list.old)) list.old }
{
    put_path(s, x, t, y, bytes);
    let _ = build(&bytes[..n], list);
}

// Two paths whose clients agree.
fn merge_agreed(
    s: &[u8],
    x: BumpHead,
    root: [u8; 32],
    t: &[u8],
    y: BumpHead,
    other: [u8; 32],
    bytes: &mut [u8],
    list: &mut [u64],
) -> Result<Merged, Rejection>
    requires { (Agreed s.now x root) × (Agreed t.now y other) }
    ensures value { result ≡ merged_of (merging s.now t.now (length bytes.old) (room_in list.old)) }
    ensures bytes_after { bytes.new ≡ bytes_in (merging s.now t.now (length bytes.old) (room_in list.old)) bytes.old }
    ensures list_after { list.new ≡ list_in (merging s.now t.now (length bytes.old) (room_in list.old)) list.old }
{
    let merged = weigh(s, x, root, t, y, other, bytes.len(), list.len() / 3)?;
    put_merged(s, x, t, y, merged.bytes, bytes, list);
    Ok(merged)
}

// Two paths whose clients agree, and so can be read.
fn merge_checked(
    s: &[u8],
    root: [u8; 32],
    t: &[u8],
    other: [u8; 32],
    bytes: &mut [u8],
    list: &mut [u64],
) -> Result<Merged, Rejection>
    requires { (bump_clients s.now ≡ accepted root) × (bump_clients t.now ≡ accepted other) }
    ensures value { result ≡ merged_of (merging s.now t.now (length bytes.old) (room_in list.old)) }
    ensures bytes_after { bytes.new ≡ bytes_in (merging s.now t.now (length bytes.old) (room_in list.old)) bytes.old }
    ensures list_after { list.new ≡ list_in (merging s.now t.now (length bytes.old) (room_in list.old)) list.old }
{
    let (x, _) = format::read_bump(s)?;
    let (y, _) = format::read_bump(t)?;
    merge_agreed(s, x, root, t, y, other, bytes, list)
}

// Merges two BUMPs of one block: the merged path's bytes and the list of its leaves, three words a leaf. If refused, nothing is written.
pub fn merge(
    first: &[u8],
    second: &[u8],
    bytes: &mut [u8],
    list: &mut [u64],
) -> Result<Merged, Rejection>
    ensures value { result ≡ merged_of (merging first.now second.now (length bytes.old) (room_in list.old)) }
    ensures bytes_after { bytes.new ≡ bytes_in (merging first.now second.now (length bytes.old) (room_in list.old)) bytes.old }
    ensures list_after { list.new ≡ list_in (merging first.now second.now (length bytes.old) (room_in list.old)) list.old }
{
    let root = climbs::check_clients(first)?;
    let other = climbs::check_clients(second)?;
    merge_checked(first, root, second, other, bytes, list)
}
