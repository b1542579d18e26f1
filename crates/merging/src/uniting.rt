// Two levels side by side, both in order (specs/Walk.antt): which leaf is kept where either has one.
ghost use Rattle.std.specs.Prelude.{◌≡◌, ◌||◌, List, ℕ, ◌≤◌, Some, None, length};
ghost use Rattle.format.specs.Parse.{pick};
ghost use Rattle.encoding.specs.BumpBytes.{carried_bytes, entry_bytes, carried_of};
ghost use Rattle.levels.specs.Fronts.{standing_of};
ghost use Rattle.merging.specs.Merging.{has_hash, agree, kept_of};
ghost use Rattle.encoding.specs.Encode.{encode_all};
ghost use Rattle.encoding.specs.Buffer.{buffer, write_on};
ghost use Rattle.levels.specs.Standing.{nothing};
ghost use Rattle.levels.specs.Places.{entries};
ghost use Rattle.merging.specs.Walk.{left_spot, kind_in, kept_by, kept_at, kept_text, tally_of, walk_spots};

use format::Kind;
use levels::{flags_of, front, lesser, next_offset, past, place_of};

// The leaf that is kept is that of the first or of the second path. Where two can't both be, there is none.
#[derive(Clone, Copy)]
pub(crate) enum Choice {
    First(Kind),
    Second(Kind),
}

impl Choice {
    fn kind(self) -> Kind
        ensures { result ≡ kind_in self }
    {
        match self {
            Choice::First(kind) | Choice::Second(kind) => kind,
        }
    }
}

// What stands on the left of an offset, by what stood at the last one.
fn left_spot(last: u64, offset: u64, spot: Option<Kind>) -> Option<Kind>
    ensures { result ≡ left_spot last offset spot }
{
    if offset == 0 || last != offset - 1 {
        return None;
    }
    spot
}

// Whether a leaf is written there with this hash.
#[tactic(auto, unfolding(crate::specs::Merging::has_hash, levels::specs::Fronts::standing_of, encoding::specs::BumpBytes::carried_of))]
fn has_hash(s: &[u8], spot: Option<Kind>, hash: [u8; 32]) -> bool
    ensures { result ≡ has_hash hash (standing_of s.now spot) }
{
    match spot {
        Some(Kind::Plain(place) | Kind::Client(place)) => {
            format::same_bytes(format::hash_at(s, place), hash)
        }
        _ => false,
    }
}

// Two leaves at one place, and what stands on the left of it in either path.
fn agree(s: &[u8], x: Kind, l: Option<Kind>, t: &[u8], y: Kind, m: Option<Kind>) -> Option<Choice>
    ensures { kept_by s.now t.now result ≡ agree (standing_of s.now l) (standing_of t.now m) (carried_of s.now x) (carried_of t.now y) }
{
    match (place_of(x), place_of(y)) {
        (None, None) => Some(Choice::First(x)),
        (None, Some(place)) => {
            against_copy(s, l, t, m, format::hash_at(t, place), Choice::Second(y))
        }
        (Some(place), None) => {
            against_copy(s, l, t, m, format::hash_at(s, place), Choice::First(x))
        }
        (Some(first), Some(second)) => {
            if !format::same_bytes(format::hash_at(s, first), format::hash_at(t, second)) {
                return None;
            }
            if flags_of(x) < flags_of(y) {
                return Some(Choice::Second(y));
            }
            Some(Choice::First(x))
        }
    }
}

// A hash against a copy is kept if the left neighbour is written with it in either path.
fn against_copy(
    s: &[u8],
    l: Option<Kind>,
    t: &[u8],
    m: Option<Kind>,
    hash: [u8; 32],
    kept: Choice,
) -> Option<Choice>
    ensures { result ≡ pick (has_hash hash (standing_of s.now l) || has_hash hash (standing_of t.now m)) (Some kept) None }
{
    if has_hash(s, l, hash) || has_hash(t, m, hash) {
        Some(kept)
    } else {
        None
    }
}

// What is kept at a place where either path has a leaf.
#[tactic(auto, unfolding(crate::specs::Walk::kept_at, levels::specs::Fronts::standing_of))]
pub(crate) fn choose(
    s: &[u8],
    v: Option<Kind>,
    l: Option<Kind>,
    t: &[u8],
    w: Option<Kind>,
    m: Option<Kind>,
) -> Option<Choice>
    ensures { kept_by s.now t.now result ≡ kept_at (standing_of s.now l) (standing_of t.now m) (standing_of s.now v) (standing_of t.now w) }
{
    match (v, w) {
        (None, None) => None,
        (None, Some(y)) => Some(Choice::Second(y)),
        (Some(x), None) => Some(Choice::First(x)),
        (Some(x), Some(y)) => agree(s, x, l, t, y, m),
    }
}

// How many bytes a leaf takes behind its offset.
fn kind_size(kind: Kind) -> usize
    ensures { ((s : List ℕ) → result ≡ length (carried_bytes (carried_of s kind))) × (result ≤ 33) }
{
    match place_of(kind) {
        Some(_) => 33,
        None => 1,
    }
}

// How many bytes what is kept at an offset takes.
fn kept_size(offset: u64, choice: Option<Choice>) -> usize
    ensures { ((s t : List ℕ) → result ≡ length (kept_text offset (kept_by s t choice))) × (result ≤ 42) }
{
    match choice {
        Some(kept) => encoding::buffer::varint_size(offset) + kind_size(kept.kind()),
        None => 0,
    }
}

// How many leaves a merged level has, how many bytes they take, and whether two clash.
#[derive(Clone, Copy)]
pub(crate) struct LevelTally {
    pub count: usize,
    pub bytes: usize,
    pub clash: bool,
}

// What two levels have at most (01, "Sizes").
const OFFSETS: usize = 2048;

// A merged level before it is written, of two levels in order.
pub(crate) fn tally_level(s: &[u8], x: &[usize], t: &[u8], y: &[usize]) -> LevelTally
    ensures { (result ≡ tally_of (walk_spots 2048 0 nothing nothing (entries s.now x.now) (entries t.now y.now))) × (result.count ≤ 2048) × (result.bytes ≤ 86016) }
{
    let mut tally = LevelTally {
        count: 0,
        bytes: 0,
        clash: false,
    };
    let mut last: u64 = 0;
    let mut first = None;
    let mut second = None;
    let mut i: usize = 0;
    let mut j: usize = 0;
    for _ in 0..OFFSETS {
        let Some(offset) = lesser(next_offset(s, x, i), next_offset(t, y, j)) else {
            return tally;
        };
        let v = front(s, x, i, offset);
        let w = front(t, y, j, offset);
        let l = left_spot(last, offset, first);
        let m = left_spot(last, offset, second);
        let choice = choose(s, v, l, t, w, m);
        tally = LevelTally {
            count: tally.count + 1,
            bytes: tally.bytes + kept_size(offset, choice),
            clash: tally.clash || choice.is_none(),
        };
        last = offset;
        first = v;
        second = w;
        i = past(s, x, i, offset);
        j = past(t, y, j, offset);
    }
    tally
}

// The bytes of a leaf behind its offset.
fn put_kind(s: &[u8], kind: Kind, out: &mut [u8], at: usize) -> usize
    ensures { buffer out.new result ≡ write_on (buffer out.old at) (carried_bytes (carried_of s.now kind)) }
{
    let next = encoding::buffer::put(out, at, flags_of(kind) as u8);
    match place_of(kind) {
        Some(place) => encoding::buffer::write(out, next, &format::hash_at(s, place)),
        None => next,
    }
}

// The bytes of what is kept at an offset.
fn put_kept(
    s: &[u8],
    t: &[u8],
    offset: u64,
    choice: Option<Choice>,
    out: &mut [u8],
    at: usize,
) -> usize
    ensures { buffer out.new result ≡ write_on (buffer out.old at) (kept_text offset (kept_by s.now t.now choice)) }
{
    let Some(kept) = choice else {
        return at;
    };
    let next = encoding::buffer::write_varint(out, at, offset);
    match kept {
        Choice::First(kind) => put_kind(s, kind, out, next),
        Choice::Second(kind) => put_kind(t, kind, out, next),
    }
}

// The leaves of a merged level, of two levels in order. It goes as `tally_level` does, and writes where that counts.
pub(crate) fn put_leaves(
    s: &[u8],
    x: &[usize],
    t: &[u8],
    y: &[usize],
    out: &mut [u8],
    at: usize,
) -> usize
    ensures { buffer out.new result ≡ write_on (buffer out.old at) (encode_all entry_bytes (kept_of (walk_spots 2048 0 nothing nothing (entries s.now x.now) (entries t.now y.now)))) }
{
    let mut at = at;
    let mut last: u64 = 0;
    let mut first = None;
    let mut second = None;
    let mut i: usize = 0;
    let mut j: usize = 0;
    for _ in 0..OFFSETS {
        let Some(offset) = lesser(next_offset(s, x, i), next_offset(t, y, j)) else {
            return at;
        };
        let v = front(s, x, i, offset);
        let w = front(t, y, j, offset);
        let l = left_spot(last, offset, first);
        let m = left_spot(last, offset, second);
        let choice = choose(s, v, l, t, w, m);
        at = put_kept(s, t, offset, choice, out, at);
        last = offset;
        first = v;
        second = w;
        i = past(s, x, i, offset);
        j = past(t, y, j, offset);
    }
    at
}
