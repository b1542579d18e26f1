// Two levels in the order of their offsets, side by side (specs/Fronts.antt): what stands at the front of each. Arrays hold the places of their leaves' first bytes.
ghost use Rattle.std.specs.Prelude.{◌≡◌, drop};
ghost use Rattle.levels.specs.Places.{entries};
ghost use Rattle.levels.specs.Fronts.{next_of, lesser, flags_of, place_of, spot_of, index_past};

use super::order::offset_at;
use format::{Cursor, Kind, Layout};

pub fn flags_of(kind: Kind) -> u64
    ensures { result ≡ flags_of kind }
{
    match kind {
        Kind::Plain(_) => 0,
        Kind::Copy => 1,
        Kind::Client(_) => 2,
    }
}

// The place of the hash; a copy has none.
pub fn place_of(kind: Kind) -> Option<usize>
    ensures { result ≡ place_of kind }
{
    match kind {
        Kind::Plain(place) | Kind::Client(place) => Some(place),
        Kind::Copy => None,
    }
}

// The offset of the leaf at an index.
pub fn next_offset(s: &[u8], places: &[usize], i: usize) -> Option<u64>
    ensures { result ≡ next_of (entries s.now (drop i places.now)) }
{
    let place = *places.get(i)?;
    Some(offset_at(s, place))
}

pub fn lesser(a: Option<u64>, b: Option<u64>) -> Option<u64>
    ensures { result ≡ lesser a b }
{
    match (a, b) {
        (None, _) => b,
        (_, None) => a,
        (Some(x), Some(y)) => Some(x.min(y)),
    }
}

// What stands at the offset, if the leaf at the index has it.
pub fn front(s: &[u8], places: &[usize], i: usize, offset: u64) -> Option<Kind>
    ensures { result ≡ spot_of s.now places.now i offset }
{
    let place = *places.get(i)?;
    if offset_at(s, place) != offset {
        return None;
    }
    match path::leaf_at(s, Cursor { at: place }, Layout::Bump) {
        Ok((leaf, _)) => Some(leaf.kind),
        Err(_) => Some(Kind::Copy),
    }
}

// The index behind the offset.
pub fn past(s: &[u8], places: &[usize], i: usize, offset: u64) -> usize
    ensures { result ≡ index_past s.now places.now i offset }
{
    if next_offset(s, places, i) == Some(offset) {
        i + 1
    } else {
        i
    }
}
