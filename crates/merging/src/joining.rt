// All levels of two paths side by side (specs/Levels.antt): the merged path's sizes before it is written, and its levels.
ghost use Rattle.std.specs.Prelude.{◌≡◌, ◌||◌, ◌+◌, ◌≤◌, length, List};
ghost use Rattle.encoding.specs.Encode.{encode_all};
ghost use Rattle.encoding.specs.Buffer.{buffer, write_on};
ghost use Rattle.merging.specs.Merging.{Spot};
ghost use Rattle.levels.specs.Standing.{nothing};
ghost use Rattle.levels.specs.Places.{entries};
ghost use Rattle.merging.specs.Walk.{tally_of, walk_spots};
ghost use Rattle.merging.specs.Levels.{walk_levels, level_text, tally_all, Added};

use super::uniting::{LevelTally, put_leaves, tally_level};
use format::{Cursor, Layout};
use levels::order_level;

// The most places that a level has.
pub(crate) const PLACES: usize = Layout::MAX_LEAVES;

// Whether a level is over its limit, whether two leaves clash, and how many bytes and leaves the levels take.
#[derive(Clone, Copy)]
pub(crate) struct Tally {
    pub over: bool,
    pub clash: bool,
    pub bytes: usize,
    pub leaves: usize,
}

// One level more.
fn add_level(tally: Tally, l: LevelTally) -> Tally
    requires { (tally.bytes ≤ 8388608) × (tally.leaves ≤ 8388608) × (l.count ≤ 2048) × (l.bytes ≤ 86016) }
    ensures { ((v : List Spot) → l ≡ tally_of v → Added tally v result) × (result.bytes ≤ tally.bytes + 86025) × (result.leaves ≤ tally.leaves + 2048) }
{
    Tally {
        over: tally.over || 1024 < l.count,
        clash: tally.clash || l.clash,
        bytes: tally.bytes + encoding::buffer::varint_size(l.count as u64) + l.bytes,
        leaves: tally.leaves + l.count,
    }
}

// All levels before they are written.
pub(crate) fn tally_levels(
    s: &[u8],
    c: Cursor,
    t: &[u8],
    d: Cursor,
    height: u64,
    x: &mut [usize; PLACES],
    y: &mut [usize; PLACES],
    room: &mut [usize; PLACES],
) -> Tally
    requires { height ≤ 64 }
    ensures { (result ≡ tally_all (walk_levels s.now t.now height c.at d.at)) × (result.bytes ≤ 8388608) }
{
    let mut tally = Tally {
        over: false,
        clash: false,
        bytes: 0,
        leaves: 0,
    };
    let mut p = c;
    let mut q = d;
    for _ in 0..height {
        let a = order_level(s, p, x, room);
        let b = order_level(t, q, y, room);
        tally = add_level(tally, tally_level(s, &x[..a.count], t, &y[..b.count]));
        p = a.next;
        q = b.next;
    }
    tally
}

// One level: its count, then its leaves.
fn put_level(s: &[u8], x: &[usize], t: &[u8], y: &[usize], out: &mut [u8], at: usize) -> usize
    ensures { buffer out.new result ≡ write_on (buffer out.old at) (level_text (walk_spots 2048 0 nothing nothing (entries s.now x.now) (entries t.now y.now))) }
{
    let l = tally_level(s, x, t, y);
    let next = encoding::buffer::write_varint(out, at, l.count as u64);
    put_leaves(s, x, t, y, out, next)
}

// All levels of the merged path.
pub(crate) fn put_levels(
    s: &[u8],
    c: Cursor,
    t: &[u8],
    d: Cursor,
    height: u64,
    x: &mut [usize; PLACES],
    y: &mut [usize; PLACES],
    room: &mut [usize; PLACES],
    out: &mut [u8],
    at: usize,
) -> usize
    ensures { buffer out.new result ≡ write_on (buffer out.old at) (encode_all level_text (walk_levels s.now t.now height c.at d.at)) }
{
    let mut at = at;
    let mut p = c;
    let mut q = d;
    for _ in 0..height {
        let a = order_level(s, p, x, room);
        let b = order_level(t, q, y, room);
        at = put_level(s, &x[..a.count], t, &y[..b.count], out, at);
        p = a.next;
        q = b.next;
    }
    at
}
