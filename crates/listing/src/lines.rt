// The lines of a listing (specs/Walk.antt).
ghost use Rattle.std.specs.Prelude.{◌≡◌, ◌++◌};
ghost use Rattle.format.specs.Refusals.{refusal_number};
ghost use Rattle.listing.specs.Text.{decimal, line};
ghost use Rattle.listing.specs.Listing.{kind_text, leaf_line, refused_line};
ghost use Rattle.encoding.specs.Buffer.{buffer, write_on};
ghost use Rattle.listing.specs.Walk.{walk, walk_leaves, walk_level, walk_levels};

use super::text::{write_decimal, write_hash};
use encoding::buffer::write;
use format::{Cursor, Kind, Layout, Leaf, ReadRefusal, hash_at, read_varint};
use path::leaf_at;

// Where the next byte goes, and where reading goes on.
#[derive(Clone, Copy)]
pub struct Step {
    pub at: usize,
    pub next: Cursor,
}

// A word and a number.
pub fn number_line(out: &mut [u8], at: usize, word: &[u8], n: u64) -> usize
    ensures { buffer out.new result ≡ write_on (buffer out.old at) (line (word.now ++ decimal n)) }
{
    let mut next = write(out, at, word);
    next = write_decimal(out, next, n);
    write(out, next, b"\n")
}

// Two words, each with a number after it.
fn pair_line(out: &mut [u8], at: usize, first: &[u8], a: u64, second: &[u8], b: u64) -> usize
    ensures { buffer out.new result ≡ write_on (buffer out.old at) (line (first.now ++ decimal a ++ second.now ++ decimal b)) }
{
    let mut next = write(out, at, first);
    next = write_decimal(out, next, a);
    next = write(out, next, second);
    next = write_decimal(out, next, b);
    write(out, next, b"\n")
}

pub fn write_refusal(out: &mut [u8], refusal: ReadRefusal) -> usize
    ensures { buffer out.new result ≡ write_on (buffer out.old 0) (refused_line (refusal_number refusal.refusal) refusal.place) }
{
    let number = u64::from(refusal.refusal.number());
    pair_line(out, 0, b"refused ", number, b" at ", refusal.place as u64)
}

fn write_kind(s: &[u8], out: &mut [u8], at: usize, kind: Kind) -> usize
    ensures { buffer out.new result ≡ write_on (buffer out.old at) (kind_text s.now kind) }
{
    match kind {
        Kind::Plain(place) => {
            let next = write(out, at, b" plain ");
            write_hash(out, next, hash_at(s, place))
        }
        Kind::Copy => write(out, at, b" copy"),
        Kind::Client(place) => {
            let next = write(out, at, b" client ");
            write_hash(out, next, hash_at(s, place))
        }
    }
}

fn write_leaf(s: &[u8], out: &mut [u8], at: usize, leaf: Leaf) -> usize
    ensures { buffer out.new result ≡ write_on (buffer out.old at) (leaf_line s.now leaf) }
{
    let mut next = write(out, at, b"leaf ");
    next = write_decimal(out, next, leaf.offset);
    next = write_kind(s, out, next, leaf.kind);
    write(out, next, b"\n")
}

fn write_leaves(s: &[u8], out: &mut [u8], at: usize, c: Cursor, count: u64) -> Step
    ensures { walk (buffer out.new result.at) result.next.at ≡ walk_leaves s.now count c.at (buffer out.old at) }
{
    let mut at = at;
    let mut next = c;
    for _ in 0..count {
        let Ok((leaf, after)) = leaf_at(s, next, Layout::Bump) else {
            break;
        };
        at = write_leaf(s, out, at, leaf);
        next = after;
    }
    Step { at, next }
}

fn write_level(s: &[u8], out: &mut [u8], at: usize, c: Cursor, level: u64) -> Step
    ensures { walk (buffer out.new result.at) result.next.at ≡ walk_level s.now level c.at (buffer out.old at) }
{
    let Ok((count, next)) = read_varint(s, c) else {
        return Step { at, next: c };
    };
    let after = pair_line(out, at, b"level ", level, b" leaves ", count);
    write_leaves(s, out, after, next, count)
}

pub fn write_levels(s: &[u8], out: &mut [u8], at: usize, c: Cursor, height: u64) -> usize
    ensures { buffer out.new result ≡ (walk_levels s.now height 0 c.at (buffer out.old at)).buffer }
{
    let mut at = at;
    let mut next = c;
    for level in 0..height {
        let step = write_level(s, out, at, next, level);
        at = step.at;
        next = step.next;
    }
    at
}
