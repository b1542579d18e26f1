// Building the list of a BUMP's leaves, three words a leaf (specs/LeafList.antt).
ghost use Rattle.std.specs.Prelude.{◌≡◌, map};
ghost use Rattle.leaflist.specs.Rows.{filling, put_row, put_rows, listed_in};
ghost use Rattle.leaflist.specs.LeafList.{row, row_at, building, built_of, words_in, room_in};

use format::{BumpHead, Layout, Refusal};
use levels::{offset_at, order_level};
use spv::Rejection;

// One row more, if there is room; the answer is the count of rows.
fn put_row(out: &mut [u64], at: usize, level: u64, offset: u64, place: usize) -> usize
    ensures { filling out.new result ≡ put_row (filling out.old at) (row level offset place) }
{
    if out.len() / 3 <= at {
        return at;
    }
    out[at * 3] = level;
    out[at * 3 + 1] = offset;
    out[at * 3 + 2] = place as u64;
    at + 1
}

fn put_rows(s: &[u8], level: u64, places: &[usize], out: &mut [u64], at: usize) -> usize
    ensures { filling out.new result ≡ put_rows (filling out.old at) (map (row_at s.now level) places.now) }
{
    let mut at = at;
    for place in places {
        at = put_row(out, at, level, offset_at(s, *place), *place);
    }
    at
}

// The most places that a level has.
const PLACES: usize = Layout::MAX_LEAVES;

// The rows of all levels. The second array is to sort in.
fn put_levels(
    s: &[u8],
    head: BumpHead,
    out: &mut [u64],
    places: &mut [usize; PLACES],
    room: &mut [usize; PLACES],
) -> usize
    ensures { filling out.new result ≡ put_rows (filling out.old 0) (listed_in 1024 s.now head.height 0 head.levels.at) }
{
    let mut next = head.levels;
    let mut at: usize = 0;
    for level in 0..head.height {
        let g = order_level(s, next, places, room);
        at = put_rows(s, level, &places[..g.count], out, at);
        next = g.next;
    }
    at
}

// The list of a BUMP that was read.
pub(crate) fn list_leaves(s: &[u8], head: BumpHead, out: &mut [u64]) -> usize
    ensures { filling out.new result ≡ put_rows (filling out.old 0) (listed_in 1024 s.now head.height 0 head.levels.at) }
{
    let mut places = [0; PLACES];
    let mut room = [0; PLACES];
    put_levels(s, head, out, &mut places, &mut room)
}

// Lists the leaves of a BUMP by level and offset, three words a leaf: level, offset, place of its first byte. If they do not all fit, or the
// input can't be read, nothing is written.
pub fn build(s: &[u8], out: &mut [u64]) -> Result<usize, Rejection>
    ensures value { result ≡ built_of (building s.now (room_in out.old)) }
    ensures out_after { out.new ≡ words_in (building s.now (room_in out.old)) out.old }
{
    let (head, _) = format::read_bump(s)?;
    if ((out.len() / 3) as u64) < head.leaves {
        return Err(spv::reject_for(Refusal::NoRoom));
    }
    Ok(list_leaves(s, head, out))
}
