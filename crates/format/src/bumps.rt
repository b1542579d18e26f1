// The BUMPs of a BEEF bundle, one after the other (specs/Beef.antt); where they lie is kept.
ghost use Rattle.std.specs.Prelude.{◌≡◌, ◌≤◌, length};
ghost use Rattle.format.specs.Parse.{each, times};
ghost use Rattle.format.specs.Answer.{parse_of};
ghost use Rattle.format.specs.Bump.{bump_field};
ghost use Rattle.format.specs.Beef.{bump_count_field, bumps_field};
ghost use Rattle.format.specs.BeefAnswer.{no_bump, no_bumps};
ghost use Rattle.format.specs.Kept.{bumps_of};
ghost use Rattle.format.specs.Refusals.{MAX_BUMPS};

use super::beef::Beef;
use super::bump::{BumpHead, bump_at};
use super::field::{Cursor, Read, read_varint};
use super::refusal::{ReadRefusal, Refusal};

// How many BUMPs there are, and their heads.
#[derive(Clone, Copy)]
pub(crate) struct Bumps {
    pub count: u64,
    pub heads: [BumpHead; Beef::MAX_BUMPS],
}

fn no_bump() -> BumpHead
    ensures { result ≡ no_bump }
{
    BumpHead {
        block: 0,
        height: 0,
        leaves: 0,
        levels: Cursor { at: 0 },
    }
}

fn no_bumps() -> [BumpHead; Beef::MAX_BUMPS]
    ensures { result ≡ no_bumps }
{
    let none = no_bump();
    [none; Beef::MAX_BUMPS]
}

fn read_bump_count(s: &[u8], c: Cursor) -> Read<u64>
    ensures { parse_of result ≡ bump_count_field s.now c.at }
{
    let (count, next) = read_varint(s, c)?;
    if Beef::MAX_BUMPS < count as usize {
        return Err(ReadRefusal {
            refusal: Refusal::OverLimit,
            place: c.at,
        });
    }
    Ok((count, next))
}

fn all_bumps(s: &[u8], c: Cursor, count: u64) -> Read<u64>
    ensures { parse_of result ≡ each length (times bump_field count s.now c.at) }
{
    let mut next = c;
    for _ in 0..count {
        let (_, after) = bump_at(s, next)?;
        next = after;
    }
    Ok((count, next))
}

pub(crate) fn read_bumps(s: &[u8], c: Cursor) -> Read<u64>
    ensures { parse_of result ≡ each length (bumps_field s.now c.at) }
{
    let (count, next) = read_bump_count(s, c)?;
    all_bumps(s, next, count)
}

// The same with the heads kept, for a caller who needs them: 2 KB that the other doesn't spend.
fn gather_bumps(s: &[u8], c: Cursor, count: usize) -> Read<Bumps>
    requires { count ≤ MAX_BUMPS }
    ensures { parse_of result ≡ each bumps_of (times bump_field count s.now c.at) }
{
    let mut heads = no_bumps();
    let mut next = c;
    for i in 0..count {
        let (head, after) = bump_at(s, next)?;
        heads[i] = head;
        next = after;
    }
    Ok((
        Bumps {
            count: count as u64,
            heads,
        },
        next,
    ))
}

pub(crate) fn keep_bumps(s: &[u8], c: Cursor) -> Read<Bumps>
    ensures { parse_of result ≡ each bumps_of (bumps_field s.now c.at) }
{
    let (count, next) = read_bump_count(s, c)?;
    gather_bumps(s, next, count as usize)
}
