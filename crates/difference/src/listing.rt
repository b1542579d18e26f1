// The list of the differences of two BUMPs, three words an entry (specs/Listing.antt).
ghost use Rattle.std.specs.Prelude.{◌≡◌, ◌≤◌, length, take};
ghost use Rattle.encoding.specs.BumpBytes.{carried_of};
ghost use Rattle.difference.specs.Differences.{equal, told, higher};
ghost use Rattle.difference.specs.Listing.{list_differences, listed_of, words_in, room_in};
ghost use Rattle.difference.specs.Filling.{filling, put_on, put_all, word_of, told_of, put_place, put_unless};
ghost use Rattle.levels.specs.Places.{entries};
ghost use Rattle.difference.specs.Merge.{gathering, gather_level, merged, walk, walk_all};
ghost use Rattle.levels.specs.Fronts.{standing_of};

use format::{BumpHead, Cursor, Kind, Layout, Refusal};
use levels::{Gathered, front, lesser, next_offset, order_level, past};
use spv::Rejection;

// What an entry says first, by its number; its level and offset follow, 0 of a height.
#[derive(Clone, Copy)]
enum Differs {
    Block = 1,
    Height,
    InFirst,
    InSecond,
    InBoth,
}

impl Differs {
    fn word(self) -> u64
        ensures { result ≡ word_of self }
    {
        self as u64
    }
}

// One entry more: written where there is room and `write` says so. The answer is the count of entries, or room and one if there are more.
fn put(out: &mut [u64], at: usize, write: bool, what: Differs, level: u64, offset: u64) -> usize
    ensures { filling out.new result ≡ put_on write (filling out.old at) (word_of what) level offset }
{
    let room = out.len() / 3;
    if room <= at {
        return room + 1;
    }
    if !write {
        return at + 1;
    }
    out[at * 3] = what.word();
    out[at * 3 + 1] = level;
    out[at * 3 + 2] = offset;
    at + 1
}

// Whether flags and hash are equal.
#[tactic(auto, unfolding(crate::specs::Differences::equal, encoding::specs::BumpBytes::carried_of))]
fn equal(s: &[u8], x: Kind, t: &[u8], y: Kind) -> bool
    ensures { result ≡ equal (carried_of s.now x) (carried_of t.now y) }
{
    match (x, y) {
        (Kind::Plain(a), Kind::Plain(b)) | (Kind::Client(a), Kind::Client(b)) => {
            format::same_bytes(format::hash_at(s, a), format::hash_at(t, b))
        }
        (Kind::Copy, Kind::Copy) => true,
        _ => false,
    }
}

// What is told of a place, if anything.
#[tactic(auto, unfolding(crate::specs::Differences::told, levels::specs::Fronts::standing_of))]
fn told(s: &[u8], x: Option<Kind>, t: &[u8], y: Option<Kind>) -> Option<Differs>
    ensures { result ≡ told_of (told (standing_of s.now x) (standing_of t.now y)) }
{
    match (x, y) {
        (None, None) => None,
        (Some(_), None) => Some(Differs::InFirst),
        (None, Some(_)) => Some(Differs::InSecond),
        (Some(a), Some(b)) => {
            if equal(s, a, t, b) {
                None
            } else {
                Some(Differs::InBoth)
            }
        }
    }
}

fn put_place(
    out: &mut [u64],
    at: usize,
    write: bool,
    what: Option<Differs>,
    level: u64,
    offset: u64,
) -> usize
    ensures { filling out.new result ≡ put_place write (filling out.old at) what level offset }
{
    match what {
        Some(what) => put(out, at, write, what, level, offset),
        None => at,
    }
}

// What two levels have at most (01, "Sizes").
const OFFSETS: usize = 2048;

// The differences of a level, from the least offset up.
fn tell_level(
    s: &[u8],
    x: &[usize],
    t: &[u8],
    y: &[usize],
    out: &mut [u64],
    at: usize,
    write: bool,
    level: u64,
) -> usize
    ensures { filling out.new result ≡ put_all write (filling out.old at) (merged 2048 level (entries s.now x.now) (entries t.now y.now)) }
{
    let mut at = at;
    let mut i: usize = 0;
    let mut j: usize = 0;
    for _ in 0..OFFSETS {
        let Some(offset) = lesser(next_offset(s, x, i), next_offset(t, y, j)) else {
            return at;
        };
        let what = told(s, front(s, x, i, offset), t, front(t, y, j, offset));
        at = put_place(out, at, write, what, level, offset);
        i = past(s, x, i, offset);
        j = past(t, y, j, offset);
    }
    at
}

// The most places that a level has.
const PLACES: usize = Layout::MAX_LEAVES;

// The level at c, if the tree is that high.
fn gather_level(
    s: &[u8],
    c: Cursor,
    height: u64,
    level: u64,
    places: &mut [usize; PLACES],
    room: &mut [usize; PLACES],
) -> Gathered
    ensures { (gathering (take result.count places.new) result.next.at ≡ gather_level 1024 s.now height level c.at) × (result.count ≤ 1024) }
{
    if height <= level {
        return Gathered { count: 0, next: c };
    }
    order_level(s, c, places, room)
}

// The differences of all levels. The third array is to sort in.
fn tell_levels(
    s: &[u8],
    x: BumpHead,
    t: &[u8],
    y: BumpHead,
    out: &mut [u64],
    at: usize,
    write: bool,
    first: &mut [usize; PLACES],
    second: &mut [usize; PLACES],
    room: &mut [usize; PLACES],
) -> usize
    ensures { filling out.new result
        ≡ walk write s.now x.height 1024 t.now y.height 1024 (higher x.height y.height) 0 x.levels.at y.levels.at (filling out.old at) }
{
    let mut c = x.levels;
    let mut d = y.levels;
    let mut at = at;
    for level in 0..x.height.max(y.height) {
        let a = gather_level(s, c, x.height, level, first, room);
        let b = gather_level(t, d, y.height, level, second, room);
        at = tell_level(
            s,
            &first[..a.count],
            t,
            &second[..b.count],
            out,
            at,
            write,
            level,
        );
        c = a.next;
        d = b.next;
    }
    at
}

fn put_unless(same: bool, out: &mut [u64], at: usize, write: bool, what: Differs) -> usize
    ensures { filling out.new result ≡ put_unless same write (filling out.old at) (word_of what) }
{
    if same {
        return at;
    }
    put(out, at, write, what, 0, 0)
}

// All differences: the two heights, then the levels.
fn tell_all(s: &[u8], x: BumpHead, t: &[u8], y: BumpHead, out: &mut [u64], write: bool) -> usize
    ensures { filling out.new result ≡ walk_all write s.now x t.now y (filling out.old 0) }
{
    let mut first = [0; PLACES];
    let mut second = [0; PLACES];
    let mut room = [0; PLACES];
    let block = put_unless(x.block == y.block, out, 0, write, Differs::Block);
    let height = put_unless(x.height == y.height, out, block, write, Differs::Height);
    tell_levels(
        s,
        x,
        t,
        y,
        out,
        height,
        write,
        &mut first,
        &mut second,
        &mut room,
    )
}

// Lists the differences of two BUMPs, three words an entry. If they do not all fit, or an input can't be read, nothing is written.
pub fn list_differences(first: &[u8], second: &[u8], out: &mut [u64]) -> Result<usize, Rejection>
    ensures value { result ≡ listed_of (list_differences first.now second.now (room_in out.old)) }
    ensures out_after { out.new ≡ words_in (list_differences first.now second.now (room_in out.old)) out.old }
{
    let (x, _) = format::read_bump(first)?;
    let (y, _) = format::read_bump(second)?;
    let count = tell_all(first, x, second, y, out, false);
    if out.len() / 3 < count {
        return Err(spv::reject_for(Refusal::NoRoom));
    }
    Ok(tell_all(first, x, second, y, out, true))
}
