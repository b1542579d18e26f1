// A leaf of a level (specs/Level.antt): its offset, its flags, and the hash that it carries or copies.
ghost use Rattle.std.specs.Prelude.{◌≡◌, [], ◌+◌, ◌<◌};
ghost use Rattle.format.specs.Parse.{each};
ghost use Rattle.format.specs.Answer.{parse_of};
ghost use Rattle.format.specs.Level.{holds, offset_field, flag_field, flag_allowed, kind_field, carried_field, leaf_field};
ghost use Rattle.format.specs.Seen.{offset_of, keep_offset, Slotted};

use super::field::{Cursor, Read, one_byte, read_run, read_varint};
use super::level::{Layout, SLOTS};
use super::refusal::{ReadRefusal, Refusal};

// What a leaf carries: the place of its 32 bytes, or nothing.
#[derive(Clone, Copy)]
pub enum Kind {
    Plain(usize),
    Copy,
    Client(usize),
}

#[derive(Clone, Copy)]
pub struct Leaf {
    pub offset: u64,
    pub kind: Kind,
}

// The scan goes to the end whatever it meets, so that several numbers are compared at once.
fn contains(l: &[u64], x: u64) -> bool
    ensures { result ≡ holds x l.now }
{
    let mut found = false;
    for y in l {
        if *y == x {
            found = true;
        }
    }
    found
}

// An offset of at most `greatest`, where none was seen.
pub(crate) fn read_bounded(s: &[u8], c: Cursor, greatest: u64) -> Read<u64>
    ensures { parse_of result ≡ offset_field (greatest + 1) [] s.now c.at }
{
    let (offset, next) = read_varint(s, c)?;
    if greatest < offset {
        return Err(ReadRefusal {
            refusal: Refusal::BadOffset,
            place: c.at,
        });
    }
    Ok((offset, next))
}

// Only an offset whose slot is marked is looked for among those seen.
fn read_offset(s: &[u8], c: Cursor, greatest: u64, seen: &[u64], slots: &[u8]) -> Read<u64>
    requires { Slotted slots.now seen.now }
    ensures { parse_of result ≡ offset_field (greatest + 1) seen.now s.now c.at }
{
    let (offset, next) = read_bounded(s, c, greatest)?;
    if slots[offset as usize % SLOTS] != 0 {
        if contains(seen, offset) {
            return Err(ReadRefusal {
                refusal: Refusal::Repeated,
                place: c.at,
            });
        }
    }
    Ok((offset, next))
}

fn flag_allowed(level: u64, offset: u64, flag: u64) -> bool
    ensures { result ≡ flag_allowed level offset flag }
{
    if flag == 0 {
        return true;
    }
    if flag == 1 {
        return offset % 2 == 1;
    }
    if flag == 2 {
        return level == 0;
    }
    false
}

fn read_flag(s: &[u8], c: Cursor, level: u64, offset: u64) -> Read<u64>
    ensures { parse_of result ≡ flag_field level offset s.now c.at }
{
    let (flag, next) = one_byte(s, c)?;
    if flag_allowed(level, offset, flag) {
        return Ok((flag, next));
    }
    Err(ReadRefusal {
        refusal: Refusal::BadFlag,
        place: c.at,
    })
}

pub fn read_kind(s: &[u8], c: Cursor, flag: u64) -> Read<Kind>
    ensures { parse_of result ≡ kind_field flag s.now c.at }
{
    if flag == 1 {
        return Ok((Kind::Copy, c));
    }
    let (place, next) = read_run(s, c, 32)?;
    if flag == 0 {
        return Ok((Kind::Plain(place), next));
    }
    Ok((Kind::Client(place), next))
}

// Where what a leaf carries ends, beside its offset.
fn skip_kind(s: &[u8], c: Cursor, flag: u64, offset: u64) -> Read<u64>
    ensures { parse_of result ≡ each (keep_offset offset) (kind_field flag s.now c.at) }
{
    if flag == 1 {
        return Ok((offset, c));
    }
    let (_, next) = read_run(s, c, 32)?;
    Ok((offset, next))
}

fn read_flagged(s: &[u8], c: Cursor, level: u64, offset: u64) -> Read<u64>
    ensures { parse_of result ≡ each (keep_offset offset) (carried_field Layout.Bump level offset s.now c.at) }
{
    let (flag, next) = read_flag(s, c, level, offset)?;
    skip_kind(s, next, flag, offset)
}

// What follows an offset.
pub(crate) fn read_carried(
    s: &[u8],
    c: Cursor,
    layout: Layout,
    level: u64,
    offset: u64,
) -> Read<u64>
    ensures { parse_of result ≡ each (keep_offset offset) (carried_field layout level offset s.now c.at) }
{
    match layout {
        Layout::Bump => read_flagged(s, c, level, offset),
        Layout::Cmp => skip_kind(s, c, 0, offset),
    }
}

// A leaf, by its offset.
pub(crate) fn read_leaf(
    s: &[u8],
    c: Cursor,
    layout: Layout,
    level: u64,
    greatest: u64,
    seen: &[u64],
    slots: &[u8],
) -> Read<u64>
    requires { Slotted slots.now seen.now }
    ensures { parse_of result ≡ each offset_of (leaf_field layout (greatest + 1) level seen.now s.now c.at) }
{
    let (offset, second_at) = read_offset(s, c, greatest, seen, slots)?;
    read_carried(s, second_at, layout, level, offset)
}
