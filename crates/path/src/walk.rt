// Leaves and levels that were read before, without their tests (specs/Unchecked.antt).
ghost use Rattle.std.specs.Prelude.{◌≡◌, length};
ghost use Rattle.format.specs.Parse.{each, times};
ghost use Rattle.format.specs.Answer.{parse_of};
ghost use Rattle.format.specs.Level.{kind_field};
ghost use Rattle.path.specs.Steps.{leaf_with, Tells};
ghost use Rattle.path.specs.Unchecked.{unchecked_carried, unchecked_leaf, unchecked_level};

use format::{Cursor, Kind, Layout, Leaf, Read, one_byte, read_kind, read_run, read_varint};

fn unchecked_flagged(s: &[u8], c: Cursor) -> Read<Kind>
    ensures { parse_of result ≡ unchecked_carried Layout.Bump s.now c.at }
{
    let (flag, next) = one_byte(s, c)?;
    read_kind(s, next, flag)
}

fn unchecked_carried(s: &[u8], c: Cursor, layout: Layout) -> Read<Kind>
    ensures { parse_of result ≡ unchecked_carried layout s.now c.at }
{
    match layout {
        Layout::Bump => unchecked_flagged(s, c),
        Layout::Cmp => read_kind(s, c, 0),
    }
}

// A leaf of a level that was read before: no test of its offset or flags.
pub fn leaf_at(s: &[u8], c: Cursor, layout: Layout) -> Read<Leaf>
    ensures { parse_of result ≡ unchecked_leaf layout s.now c.at }
{
    let (offset, second_at) = read_varint(s, c)?;
    let (kind, next) = unchecked_carried(s, second_at, layout)?;
    Ok((Leaf { offset, kind }, next))
}

// What a search looks at in a leaf: its offset, and the place of its 32 bytes if it isn't a copy.
#[derive(Clone, Copy)]
pub(crate) struct Passed {
    pub offset: u64,
    pub place: Option<usize>,
}

fn step_kind(s: &[u8], c: Cursor, flags: u64, offset: u64) -> Read<Passed>
    ensures { Tells result (leaf_with offset (kind_field flags s.now c.at)) }
{
    if flags == 1 {
        return Ok((
            Passed {
                offset,
                place: None,
            },
            c,
        ));
    }
    let (place, next) = read_run(s, c, 32)?;
    Ok((
        Passed {
            offset,
            place: Some(place),
        },
        next,
    ))
}

fn step_flagged(s: &[u8], c: Cursor, offset: u64) -> Read<Passed>
    ensures { Tells result (leaf_with offset (unchecked_carried Layout.Bump s.now c.at)) }
{
    let (flags, next) = one_byte(s, c)?;
    step_kind(s, next, flags, offset)
}

fn step_carried(s: &[u8], c: Cursor, layout: Layout, offset: u64) -> Read<Passed>
    ensures { Tells result (leaf_with offset (unchecked_carried layout s.now c.at)) }
{
    match layout {
        Layout::Bump => step_flagged(s, c, offset),
        Layout::Cmp => step_kind(s, c, 0, offset),
    }
}

// A leaf of a level that was read before, as a search passes it.
pub(crate) fn pass_leaf(s: &[u8], c: Cursor, layout: Layout) -> Read<Passed>
    ensures { Tells result (unchecked_leaf layout s.now c.at) }
{
    let (offset, next) = read_varint(s, c)?;
    step_carried(s, next, layout, offset)
}

fn skip_leaves(s: &[u8], c: Cursor, layout: Layout, count: u64) -> Read<u64>
    ensures { parse_of result ≡ each length (times (unchecked_leaf layout) count s.now c.at) }
{
    let mut next = c;
    for _ in 0..count {
        let (_, after) = pass_leaf(s, next, layout)?;
        next = after;
    }
    Ok((count, next))
}

// A level that was read before: how many leaves it has, and the cursor after it.
pub fn skip_level(s: &[u8], c: Cursor, layout: Layout) -> Read<u64>
    ensures { parse_of result ≡ each length (unchecked_level layout s.now c.at) }
{
    let (count, next) = read_varint(s, c)?;
    skip_leaves(s, next, layout, count)
}
