// BUMP (document 003; specs/Bump.antt).
ghost use Rattle.std.specs.Prelude.{◌≡◌};
ghost use Rattle.format.specs.Parse.{each};
ghost use Rattle.format.specs.Answer.{parse_of};
ghost use Rattle.format.specs.Bump.{block_field, height_field, bump_field, bump_whole, head_of};

use super::field::{Cursor, Read, one_byte, read_varint};
use super::input::{check_end, check_size};
use super::level::{Layout, read_levels};
use super::refusal::{ReadRefusal, Refusal};

// The format: its limits (01, "Sizes"; 02, Item 8).
#[derive(Clone, Copy)]
pub struct Bump;

impl Bump {
    pub const MAX_BLOCK: u64 = 4294967295;

    pub const MAX_HEIGHT: u64 = 64;
}

// A BUMP's block height and tree height, how many leaves its levels have, and where they start.
#[derive(Clone, Copy)]
pub struct BumpHead {
    pub block: u64,
    pub height: u64,
    pub leaves: u64,
    pub levels: Cursor,
}

fn read_block(s: &[u8], c: Cursor) -> Read<u64>
    ensures { parse_of result ≡ block_field s.now c.at }
{
    let (block, next) = read_varint(s, c)?;
    if Bump::MAX_BLOCK < block {
        return Err(ReadRefusal {
            refusal: Refusal::OverLimit,
            place: c.at,
        });
    }
    Ok((block, next))
}

fn read_height(s: &[u8], c: Cursor) -> Read<u64>
    ensures { parse_of result ≡ height_field s.now c.at }
{
    let (height, next) = one_byte(s, c)?;
    if height < 1 {
        return Err(ReadRefusal {
            refusal: Refusal::BadHeight,
            place: c.at,
        });
    }
    if Bump::MAX_HEIGHT < height {
        return Err(ReadRefusal {
            refusal: Refusal::BadHeight,
            place: c.at,
        });
    }
    Ok((height, next))
}

pub fn bump_at(s: &[u8], c: Cursor) -> Read<BumpHead>
    ensures { parse_of result ≡ each head_of (bump_field s.now c.at) }
{
    let (block, second_at) = read_block(s, c)?;
    let (height, levels) = read_height(s, second_at)?;
    let (leaves, next) = read_levels(s, levels, Layout::Bump, height)?;
    Ok((
        BumpHead {
            block,
            height,
            leaves,
            levels,
        },
        next,
    ))
}

pub fn read_bump(s: &[u8]) -> Read<BumpHead>
    ensures { parse_of result ≡ each head_of (bump_whole s.now) }
{
    check_size(s)?;
    let (head, next) = bump_at(s, Cursor::START)?;
    check_end(s, next)?;
    Ok((head, next))
}
