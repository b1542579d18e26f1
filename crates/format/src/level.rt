// Levels as BUMP (document 003) and CMP (document 001) write them (specs/Level.antt).
ghost use Rattle.std.specs.Prelude.{◌≡◌, [], ◌+◌, ◌≤◌, ◌<◌, ◌^◌, length};
ghost use Rattle.format.specs.Parse.{each};
ghost use Rattle.format.specs.Answer.{parse_of};
ghost use Rattle.format.specs.Refusals.{MAX_HEIGHT, MAX_LEAVES};
ghost use Rattle.format.specs.Level.{leaf_field, leaf_fields, level_field, level_of_turn, level_in_turn, level_fields, total};
ghost use Rattle.format.specs.Seen.{offset_of, Above};

use super::field::{Cursor, Read, read_varint};
use super::leaf::{read_bounded, read_carried, read_leaf};
use super::refusal::{ReadRefusal, Refusal};

// Which of the two layouts.
#[derive(Clone, Copy)]
pub enum Layout {
    Bump,
    Cmp,
}

impl Layout {
    // Leaves of a level (01, "Sizes").
    pub const MAX_LEAVES: usize = 1024;
}

// The slots in which offsets seen are marked, each by its remainder.
pub(crate) const SLOTS: usize = 4096;

// Leaves in any order: each offset is kept, and its slot marked.
fn read_leaves(
    s: &[u8],
    c: Cursor,
    layout: Layout,
    level: u64,
    greatest: u64,
    count: usize,
) -> Read<u64>
    requires { count ≤ MAX_LEAVES }
    ensures { parse_of result ≡ each length (leaf_fields layout (greatest + 1) level count s.now c.at) }
{
    let mut seen = [0u64; Layout::MAX_LEAVES];
    let mut slots = [0u8; SLOTS];
    let mut next = c;
    for i in 0..count {
        let (offset, after) = read_leaf(s, next, layout, level, greatest, &seen[..i], &slots)?;
        seen[i] = offset;
        slots[offset as usize % SLOTS] = 1;
        next = after;
    }
    Ok((count as u64, next))
}

// A leaf, by its offset, which is to be `least` or above; a refusal says only that it isn't such a leaf.
fn read_above(
    s: &[u8],
    c: Cursor,
    layout: Layout,
    level: u64,
    greatest: u64,
    least: u64,
) -> Read<u64>
    ensures { Above least result (each offset_of (leaf_field layout (greatest + 1) level [] s.now c.at)) }
{
    let (offset, second_at) = read_bounded(s, c, greatest)?;
    if offset < least {
        return Err(ReadRefusal {
            refusal: Refusal::Repeated,
            place: c.at,
        });
    }
    read_carried(s, second_at, layout, level, offset)
}

// Where offsets rise, none can be a repeated one and none is kept. Other leaves are read again from the first; so are those with the greatest number of
// 64 bits among them, which no other is above.
fn read_rising(
    s: &[u8],
    c: Cursor,
    layout: Layout,
    level: u64,
    greatest: u64,
    count: usize,
) -> Read<u64>
    requires { count ≤ MAX_LEAVES }
    ensures { parse_of result ≡ each length (leaf_fields layout (greatest + 1) level count s.now c.at) }
{
    let mut least: u64 = 0;
    let mut next = c;
    for _ in 0..count {
        let Ok((offset, after)) = read_above(s, next, layout, level, greatest, least) else {
            return read_leaves(s, c, layout, level, greatest, count);
        };
        if offset == 18446744073709551615 {
            return read_leaves(s, c, layout, level, greatest, count);
        }
        least = offset + 1;
        next = after;
    }
    Ok((count as u64, next))
}

// A level: the answer is how many leaves it has.
fn read_level(s: &[u8], c: Cursor, layout: Layout, level: u64, greatest: u64) -> Read<u64>
    ensures { parse_of result ≡ each length (level_field layout (greatest + 1) level s.now c.at) }
{
    let (count, next) = read_varint(s, c)?;
    if (Layout::MAX_LEAVES as u64) < count {
        return Err(ReadRefusal {
            refusal: Refusal::OverLimit,
            place: c.at,
        });
    }
    read_rising(s, next, layout, level, greatest, count as usize)
}

fn power(n: u64) -> u64
    requires { n < 64 }
    ensures { result ≡ 2 ^ n }
{
    1 << n
}

// The greatest number of n bits; 2^64 itself is never computed.
fn greatest_of(n: u64) -> u64
    requires { (1 ≤ n) × (n ≤ 64) }
    ensures { result + 1 ≡ 2 ^ n }
{
    let half = power(n - 1);
    half - 1 + half
}

// The level that is written in turn i; past a CMP's last turn it is 0.
pub fn level_in_turn(layout: Layout, height: u64, i: u64) -> u64
    ensures { result ≡ level_of_turn layout height i }
{
    match layout {
        Layout::Bump => i,
        Layout::Cmp => {
            if height <= i {
                return 0;
            }
            height - (i + 1)
        }
    }
}

fn read_in_turn(s: &[u8], c: Cursor, layout: Layout, height: u64, i: u64) -> Read<u64>
    requires { (i < height) × (height ≤ MAX_HEIGHT) }
    ensures { parse_of result ≡ each length (level_in_turn layout height i s.now c.at) }
{
    let level = level_in_turn(layout, height, i);
    read_level(s, c, layout, level, greatest_of(height - level))
}

// The levels of a tree: the answer is how many leaves they have.
pub(crate) fn read_levels(s: &[u8], c: Cursor, layout: Layout, height: u64) -> Read<u64>
    requires { height ≤ MAX_HEIGHT }
    ensures { parse_of result ≡ each total (level_fields layout height s.now c.at) }
{
    let mut leaves: u64 = 0;
    let mut next = c;
    for i in 0..height {
        let (count, after) = read_in_turn(s, next, layout, height, i)?;
        leaves += count;
        next = after;
    }
    Ok((leaves, next))
}
