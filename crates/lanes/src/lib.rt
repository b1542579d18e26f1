// Four joins at once, each in a lane of its own (specs/Lanes.antt); and four double hashes.
#![tactic(auto)]

ghost use Rattle.std.specs.Prelude.{◌≡◌, ℕ, ◌+◌, ◌*◌, ◌<◌, ◌≤◌, ◌++◌, length};
ghost use Rattle.hash.specs.Sha256 as F;
ghost use Rattle.lanes.specs.Lanes as L;

mod compress;
mod messages;

use compress::{Four, State4, all, compress_padding4, compress4};
use hash::{State, digest_bytes};
pub use messages::sha256d4;

// Four nodes, one for each lane.
#[derive(Clone, Copy)]
pub struct Nodes {
    pub a: [u8; 32],
    pub b: [u8; 32],
    pub c: [u8; 32],
    pub d: [u8; 32],
}

// The word of the four bytes at a place of a slice, the most significant first.
fn word_at(s: &[u8], at: usize) -> u32
    requires { at + 4 ≤ length s.now }
    ensures { result ≡ F.word s.now at }
{
    u32::from_be_bytes([s[at], s[at + 1], s[at + 2], s[at + 3]])
}

// Four nodes' words, side by side.
fn words(n: Nodes, i: usize) -> Four
    requires { i + 4 ≤ 32 }
    ensures { (j : ℕ) → L.word_in j result ≡ F.word (L.node j n) i }
{
    Four {
        a: word_at(&n.a, i),
        b: word_at(&n.b, i),
        c: word_at(&n.c, i),
        d: word_at(&n.d, i),
    }
}

// The blocks of four pairs of nodes.
fn children(left: Nodes, right: Nodes) -> [Four; 16]
    ensures { (i : ℕ) → L.lanes i result ≡ F.words (L.node i left) 0 8 ++ F.words (L.node i right) 0 8 }
{
    let none = all(0);
    let mut w = [none; 16];
    for t in 0..8 {
        w[t] = words(left, 4 * t);
    }
    for t in 8..16 {
        w[t] = words(right, 4 * t - 32);
    }
    w
}

// The initial hash value in each lane.
fn initial() -> State4
    ensures { (i : ℕ) → L.lane i result ≡ F.H0 }
{
    let h = hash::initial();
    State4 {
        a: all(h.a),
        b: all(h.b),
        c: all(h.c),
        d: all(h.d),
        e: all(h.e),
        f: all(h.f),
        g: all(h.g),
        h: all(h.h),
    }
}

// The one block of a padded digest, in each lane.
fn digest_block(s: State4) -> [Four; 16]
    ensures { (i : ℕ) → L.lanes i result ≡ L.digest_words (L.lane i s) }
{
    let one = all(0x8000_0000);
    let none = all(0);
    let bits = all(256);
    [
        s.a, s.b, s.c, s.d, s.e, s.f, s.g, s.h, one, none, none, none, none, none, none, bits,
    ]
}

fn value(a: u32, b: u32, c: u32, d: u32, e: u32, f: u32, g: u32, h: u32) -> State
    ensures { result ≡ L.value a b c d e f g h }
{
    State {
        a,
        b,
        c,
        d,
        e,
        f,
        g,
        h,
    }
}

// The hash value of each lane.
fn apart(s: State4) -> (State, State, State, State)
    ensures { (result.0 ≡ L.lane 0 s) × (result.1 ≡ L.lane 1 s) × (result.2 ≡ L.lane 2 s) × (result.3 ≡ L.lane 3 s) }
{
    (
        value(s.a.a, s.b.a, s.c.a, s.d.a, s.e.a, s.f.a, s.g.a, s.h.a),
        value(s.a.b, s.b.b, s.c.b, s.d.b, s.e.b, s.f.b, s.g.b, s.h.b),
        value(s.a.c, s.b.c, s.c.c, s.d.c, s.e.c, s.f.c, s.g.c, s.h.c),
        value(s.a.d, s.b.d, s.c.d, s.d.d, s.e.d, s.f.d, s.g.d, s.h.d),
    )
}

fn side_by_side(a: [u8; 32], b: [u8; 32], c: [u8; 32], d: [u8; 32]) -> Nodes
    ensures { result ≡ L.nodes a b c d }
{
    Nodes { a, b, c, d }
}

// The digests of four hash values.
fn digests(s: State4) -> Nodes
    ensures { (i : ℕ) → L.node i result ≡ F.digest (L.lane i s) }
{
    let (a, b, c, d) = apart(s);
    side_by_side(
        digest_bytes(a),
        digest_bytes(b),
        digest_bytes(c),
        digest_bytes(d),
    )
}

// Four Merkle parents, in each lane that of its two children.
pub fn join4(left: Nodes, right: Nodes) -> Nodes
    ensures { (i : ℕ) → L.node i result ≡ F.sha256d (L.node i left ++ L.node i right) }
{
    let first = compress4(initial(), children(left, right));
    let inner = compress_padding4(first);
    digests(compress4(initial(), digest_block(inner)))
}
