// Marks at every 64th leaf of the levels whose offsets rise, so that a search need not read a level from its start (specs/Marks.antt).
ghost use Rattle.std.specs.Prelude.{◌≡◌, true, ◌+◌, ◌-◌, ◌%◌, ◌<◌, ◌≤◌, length, get_or};
ghost use Rattle.path.specs.Search.{seek};
ghost use Rattle.spv.specs.Siblings.{find_at};
ghost use Rattle.spv.specs.Marks.{rises, after, narrowed, IsMark, Marked, MayStart};

use format::{Cursor, Kind, Layout};
use path::LAYERS;

// Sixteen marks for each level of a path.
pub(crate) const MARKS: usize = 16 * LAYERS;

// The place after so many leaves.
fn place_after(s: &[u8], c: Cursor, layout: Layout, count: u64) -> Cursor
    ensures { result.at ≡ after layout s.now count c.at }
{
    let mut next = c;
    for _ in 0..count {
        let Ok((_, then)) = path::leaf_at(s, next, layout) else {
            return next;
        };
        next = then;
    }
    next
}

// Whether the offsets of so many leaves rise (the greatest number is not taken as one that does).
fn rises_from(s: &[u8], c: Cursor, layout: Layout, count: u64) -> bool
    ensures { result ≡ true → rises layout s.now count c.at 0 ≡ true }
{
    let mut next = c;
    let mut low: u64 = 0;
    for _ in 0..count {
        let Ok((leaf, then)) = path::leaf_at(s, next, layout) else {
            return true;
        };
        if leaf.offset < low || leaf.offset == u64::MAX {
            return false;
        }
        low = leaf.offset + 1;
        next = then;
    }
    true
}

// The leaf at a position among so many whose offsets rise.
fn seek_rising(s: &[u8], c: Cursor, layout: Layout, count: u64, position: u64) -> Option<Kind>
    requires { rises layout s.now count c.at 0 ≡ true }
    ensures { result ≡ seek layout position count s.now c.at }
{
    let mut next = c;
    for _ in 0..count {
        let Ok((leaf, then)) = path::leaf_at(s, next, layout) else {
            return None;
        };
        if leaf.offset == position {
            return Some(leaf.kind);
        }
        if position < leaf.offset {
            return None;
        }
        next = then;
    }
    None
}

fn narrow(c: Cursor) -> u32
    ensures { result ≡ narrowed c.at }
{
    u32::try_from(c.at).unwrap_or(0)
}

// Entry y of the marks, by the entry before it.
#[tactic(auto, unfolding(crate::specs::Marks::IsMark))]
pub(crate) fn mark_at(
    s: &[u8],
    places: &[usize; LAYERS],
    layout: Layout,
    before: u32,
    y: usize,
) -> u32
    requires { (y < 1024) × ((y % 16 ≡ 0 → ⊥) → IsMark layout s.now places.now (y - 1) before) }
    ensures { IsMark layout s.now places.now y result }
{
    let i = (y % 16) as u64;
    let at = places[y / 16];
    let Ok((count, first)) = format::read_varint(s, Cursor { at }) else {
        return 0;
    };
    if i == 0 {
        if rises_from(s, first, layout, count) {
            return narrow(first);
        }
        return 0;
    }
    if before == 0 {
        return 0;
    }
    if count <= 64 * i {
        return 0;
    }
    let last = before as usize;
    narrow(place_after(s, Cursor { at: last }, layout, 64))
}

// The last mark of a level from which a position may be searched.
fn last_mark(s: &[u8], marks: &[u32; MARKS], layout: Layout, base: usize, position: u64) -> usize
    requires { (base + 16 ≤ 1024) × (get_or marks.now base 0 ≡ 0 → ⊥) }
    ensures { (result < 16) × (get_or marks.now (base + result) 0 ≡ 0 → ⊥) × MayStart layout s.now position result (get_or marks.now (base + result) 0) }
{
    for i in 0..15 {
        let at = marks[base + i + 1] as usize;
        if at == 0 {
            return i;
        }
        let Ok((leaf, _)) = path::leaf_at(s, Cursor { at }, layout) else {
            return i;
        };
        if position < leaf.offset {
            return i;
        }
    }
    15
}

// What is written at a layer and position, by the marks if the level has any.
pub(crate) fn find_marked(
    s: &[u8],
    places: &[usize; LAYERS],
    marks: &[u32; MARKS],
    layout: Layout,
    layer: usize,
    position: u64,
) -> Option<Kind>
    requires { (Marked layout s.now places.now marks.now) × (layer < 64) }
    ensures { result ≡ find_at layout s.now places.now layer position }
{
    let at = places[layer];
    let base = 16 * layer;
    if marks[base] == 0 {
        return path::find_in_level(s, Cursor { at }, layout, position);
    }
    let Ok((count, _)) = format::read_varint(s, Cursor { at }) else {
        return path::find_in_level(s, Cursor { at }, layout, position);
    };
    let i = last_mark(s, marks, layout, base, position);
    let start = marks[base + i] as usize;
    let left = count - 64 * i as u64;
    seek_rising(s, Cursor { at: start }, layout, left, position)
}
