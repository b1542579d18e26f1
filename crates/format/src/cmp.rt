// CMP, the compound path (document 001; specs/Cmp.antt).
ghost use Rattle.std.specs.Prelude.{◌≡◌};
ghost use Rattle.format.specs.Parse.{each};
ghost use Rattle.format.specs.Answer.{parse_of};
ghost use Rattle.format.specs.Cmp.{top_field, cmp_field, cmp_whole, cmp_head_of};

use super::bump::Bump;
use super::field::{Cursor, Read, one_byte};
use super::input::{check_end, check_size};
use super::level::{Layout, read_levels};
use super::refusal::{ReadRefusal, Refusal};

// The format: its limit (02, Item 8).
#[derive(Clone, Copy)]
pub struct Cmp;

impl Cmp {
    // The byte m.
    pub const MAX_TOP: u64 = Bump::MAX_HEIGHT - 1;
}

// A CMP's layers, how many leaves its levels have, and where they start.
#[derive(Clone, Copy)]
pub struct CmpHead {
    pub height: u64,
    pub leaves: u64,
    pub levels: Cursor,
}

fn read_top(s: &[u8], c: Cursor) -> Read<u64>
    ensures { parse_of result ≡ top_field s.now c.at }
{
    let (top, next) = one_byte(s, c)?;
    if Cmp::MAX_TOP < top {
        return Err(ReadRefusal {
            refusal: Refusal::BadHeight,
            place: c.at,
        });
    }
    Ok((top, next))
}

pub fn cmp_at(s: &[u8], c: Cursor) -> Read<CmpHead>
    ensures { parse_of result ≡ each cmp_head_of (cmp_field s.now c.at) }
{
    let (top, levels) = read_top(s, c)?;
    let height = top + 1;
    let (leaves, next) = read_levels(s, levels, Layout::Cmp, height)?;
    Ok((
        CmpHead {
            height,
            leaves,
            levels,
        },
        next,
    ))
}

pub fn read_cmp(s: &[u8]) -> Read<CmpHead>
    ensures { parse_of result ≡ each cmp_head_of (cmp_whole s.now) }
{
    check_size(s)?;
    let (head, next) = cmp_at(s, Cursor::START)?;
    check_end(s, next)?;
    Ok((head, next))
}
