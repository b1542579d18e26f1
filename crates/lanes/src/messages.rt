// The double hashes of four messages at once, each in a lane of its own (specs/Lanes.antt).
ghost use Rattle.std.specs.Prelude.{◌≡◌, ℕ, ◌+◌, ◌≤◌, length};
ghost use Rattle.hash.specs.Sha256 as F;
ghost use Rattle.hash.specs.Parts as P;
ghost use Rattle.lanes.specs.Lanes as L;

use super::compress::{Four, State4, all, compress4};
use super::{Nodes, apart, digest_block, digests, initial, side_by_side, word_at};
use hash::{MAX_INPUT, State, block_of, compressed, sha256d};

// How many blocks the message of each lane has.
#[derive(Clone, Copy)]
struct Counts {
    a: usize,
    b: usize,
    c: usize,
    d: usize,
}

fn count(s: &[u8]) -> usize
    requires { length s.now ≤ F.MAX_INPUT }
    ensures { result ≡ P.blocks s.now }
{
    (s.len() + 72) / 64
}

fn count4(a: &[u8], b: &[u8], c: &[u8], d: &[u8]) -> Counts
    requires { L.Fit a.now b.now c.now d.now }
    ensures { (l : ℕ) → L.count l result ≡ P.blocks (L.in_lane l a.now b.now c.now d.now) }
{
    Counts {
        a: count(a),
        b: count(b),
        c: count(c),
        d: count(d),
    }
}

// The third largest: in lanes two messages take as long as one by one.
fn shared(n: Counts) -> usize {
    let (low, high) = (n.a.min(n.b), n.a.max(n.b));
    let (lower, higher) = (n.c.min(n.d), n.c.max(n.d));
    low.max(lower).min(high.min(higher))
}

// Four blocks, side by side.
fn columns(a: [u32; 16], b: [u32; 16], c: [u32; 16], d: [u32; 16]) -> [Four; 16]
    ensures { (l : ℕ) → L.lanes l result ≡ L.in_lane l a b c d }
{
    let none = all(0);
    let mut w = [none; 16];
    for t in 0..16 {
        w[t] = Four {
            a: a[t],
            b: b[t],
            c: c[t],
            d: d[t],
        };
    }
    w
}

// The words at a byte of four messages.
fn words_in(a: &[u8], b: &[u8], c: &[u8], d: &[u8], at: usize) -> Four
    requires { (at + 4 ≤ length a.now) × (at + 4 ≤ length b.now) × (at + 4 ≤ length c.now) × (at + 4 ≤ length d.now) }
    ensures { (l : ℕ) → L.word_in l result ≡ F.word (L.in_lane l a.now b.now c.now d.now) at }
{
    Four {
        a: word_at(a, at),
        b: word_at(b, at),
        c: word_at(c, at),
        d: word_at(d, at),
    }
}

fn blocks_in(a: &[u8], b: &[u8], c: &[u8], d: &[u8], at: usize) -> [Four; 16]
    requires { (at + 64 ≤ length a.now) × (at + 64 ≤ length b.now) × (at + 64 ≤ length c.now) × (at + 64 ≤ length d.now) }
    ensures { (l : ℕ) → L.lanes l result ≡ F.words (L.in_lane l a.now b.now c.now d.now) at 16 }
{
    let none = all(0);
    let mut w = [none; 16];
    for t in 0..16 {
        w[t] = words_in(a, b, c, d, at + 4 * t);
    }
    w
}

// Block i of each message: zeros past the blocks. Blocks that lie within all messages are read where they lie.
fn blocks(a: &[u8], b: &[u8], c: &[u8], d: &[u8], i: usize) -> [Four; 16]
    requires { L.Fit a.now b.now c.now d.now }
    ensures { (l : ℕ) → L.lanes l result ≡ P.block_of (L.in_lane l a.now b.now c.now d.now) i }
{
    if i < a.len() / 64 && i < b.len() / 64 && i < c.len() / 64 && i < d.len() / 64 {
        return blocks_in(a, b, c, d, 64 * i);
    }
    columns(
        block_of(a, i),
        block_of(b, i),
        block_of(c, i),
        block_of(d, i),
    )
}

// The new word, or the old one where the n blocks are done.
fn chosen(new: u32, old: u32, n: usize, i: usize) -> u32
    ensures { result ≡ L.before_end n i new old }
{
    if i < n { new } else { old }
}

fn chosen4(new: Four, old: Four, n: Counts, i: usize) -> Four
    ensures { (l : ℕ) → L.word_in l result ≡ L.before_end (L.count l n) i (L.word_in l new) (L.word_in l old) }
{
    Four {
        a: chosen(new.a, old.a, n.a, i),
        b: chosen(new.b, old.b, n.b, i),
        c: chosen(new.c, old.c, n.c, i),
        d: chosen(new.d, old.d, n.d, i),
    }
}

// In each lane the new hash value, or the old one where the blocks are done.
fn before_end(new: State4, old: State4, n: Counts, i: usize) -> State4
    ensures { (l : ℕ) → L.lane l result ≡ L.before_end (L.count l n) i (L.lane l new) (L.lane l old) }
{
    State4 {
        a: chosen4(new.a, old.a, n, i),
        b: chosen4(new.b, old.b, n, i),
        c: chosen4(new.c, old.c, n, i),
        d: chosen4(new.d, old.d, n, i),
        e: chosen4(new.e, old.e, n, i),
        f: chosen4(new.f, old.f, n, i),
        g: chosen4(new.g, old.g, n, i),
        h: chosen4(new.h, old.h, n, i),
    }
}

// The same at once where all lanes go on, as they mostly do.
fn kept_where_done(new: State4, old: State4, n: Counts, i: usize) -> State4
    ensures { (l : ℕ) → L.lane l result ≡ L.before_end (L.count l n) i (L.lane l new) (L.lane l old) }
{
    if i < n.a && i < n.b && i < n.c && i < n.d {
        return new;
    }
    before_end(new, old, n, i)
}

// The hash values after so many blocks of each message, or after all where it has fewer.
fn together(a: &[u8], b: &[u8], c: &[u8], d: &[u8], common: usize) -> State4
    requires { L.Fit a.now b.now c.now d.now }
    ensures { (l : ℕ) → L.lane l result ≡ L.after (L.in_lane l a.now b.now c.now d.now) common }
{
    let n = count4(a, b, c, d);
    let mut h = initial();
    for i in 0..common {
        let new = compress4(h, blocks(a, b, c, d, i));
        h = kept_where_done(new, h, n, i);
    }
    h
}

// The hash value of a message, from that after some of its blocks.
fn finish(m: &[u8], from: usize, s: State) -> State
    requires { (length m.now ≤ F.MAX_INPUT) × (s ≡ L.after m.now from) }
    ensures { result ≡ F.hash_value m.now }
{
    let n = count(m);
    let mut h = s;
    for i in from..n {
        h = compressed(h, block_of(m, i));
    }
    h
}

fn row(p: u32, q: u32, x: u32, y: u32) -> Four
    ensures { result ≡ L.four p q x y }
{
    Four {
        a: p,
        b: q,
        c: x,
        d: y,
    }
}

// Four hash values, side by side.
fn values(p: State, q: State, x: State, y: State) -> State4
    ensures { (l : ℕ) → L.lane l result ≡ L.in_lane l p q x y }
{
    State4 {
        a: row(p.a, q.a, x.a, y.a),
        b: row(p.b, q.b, x.b, y.b),
        c: row(p.c, q.c, x.c, y.c),
        d: row(p.d, q.d, x.d, y.d),
        e: row(p.e, q.e, x.e, y.e),
        f: row(p.f, q.f, x.f, y.f),
        g: row(p.g, q.g, x.g, y.g),
        h: row(p.h, q.h, x.h, y.h),
    }
}

// The same in each lane.
fn finish4(a: &[u8], b: &[u8], c: &[u8], d: &[u8], from: usize, h: State4) -> State4
    requires { L.Fit a.now b.now c.now d.now × ((l : ℕ) → L.lane l h ≡ L.after (L.in_lane l a.now b.now c.now d.now) from) }
    ensures { (l : ℕ) → L.lane l result ≡ F.hash_value (L.in_lane l a.now b.now c.now d.now) }
{
    let (p, q, x, y) = apart(h);
    values(
        finish(a, from, p),
        finish(b, from, q),
        finish(c, from, x),
        finish(d, from, y),
    )
}

// The double hashes of messages, none over the input size.
fn hashes(a: &[u8], b: &[u8], c: &[u8], d: &[u8]) -> Nodes
    requires { L.Fit a.now b.now c.now d.now }
    ensures { (l : ℕ) → L.node l result ≡ F.sha256d (L.in_lane l a.now b.now c.now d.now) }
{
    let common = shared(count4(a, b, c, d));
    let inner = finish4(a, b, c, d, common, together(a, b, c, d, common));
    digests(compress4(initial(), digest_block(inner)))
}

// Of any size, without lanes.
fn one_by_one(a: &[u8], b: &[u8], c: &[u8], d: &[u8]) -> Nodes
    ensures { (l : ℕ) → L.node l result ≡ F.digest_or_zeros (L.in_lane l a.now b.now c.now d.now) }
{
    let zeros = [0; 32];
    side_by_side(
        sha256d(a).unwrap_or(zeros),
        sha256d(b).unwrap_or(zeros),
        sha256d(c).unwrap_or(zeros),
        sha256d(d).unwrap_or(zeros),
    )
}

// The double hashes of four messages; zeros for one over the input size.
pub fn sha256d4(a: &[u8], b: &[u8], c: &[u8], d: &[u8]) -> Nodes
    ensures { (l : ℕ) → L.node l result ≡ F.digest_or_zeros (L.in_lane l a.now b.now c.now d.now) }
{
    if a.len() <= MAX_INPUT
        && b.len() <= MAX_INPUT
        && c.len() <= MAX_INPUT
        && d.len() <= MAX_INPUT
    {
        hashes(a, b, c, d)
    } else {
        one_by_one(a, b, c, d)
    }
}
