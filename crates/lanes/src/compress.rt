// Four compressions at once (FIPS 180-4, section 6.2.2; specs/Lanes.antt): each word is four, one for each lane, and each operation is done in each lane.
ghost use Rattle.std.specs.Prelude.{◌≡◌, ℕ, drop};
ghost use Rattle.hash.specs.Sha256 as F;
ghost use Rattle.hash.specs.Sha256.{◌⊞◌};
ghost use Rattle.hash.specs.Parts as P;
ghost use Rattle.lanes.specs.Lanes as L;

use hash::{K0, K1, K2, K3, PADDING0, PADDING1, PADDING2, PADDING3};

// Four words side by side. Fields, not an array, which compiles to the same: an operation in each lane then needs no loop with an invariant.
#[derive(Clone, Copy)]
pub struct Four {
    pub a: u32,
    pub b: u32,
    pub c: u32,
    pub d: u32,
}

// Four hash values side by side.
#[derive(Clone, Copy)]
pub struct State4 {
    pub a: Four,
    pub b: Four,
    pub c: Four,
    pub d: Four,
    pub e: Four,
    pub f: Four,
    pub g: Four,
    pub h: Four,
}

pub(crate) fn all(k: u32) -> Four
    ensures { result ≡ L.all k }
{
    Four {
        a: k,
        b: k,
        c: k,
        d: k,
    }
}

fn plus(x: Four, y: Four) -> Four
    ensures { result ≡ L.lanewise2 ◌⊞◌ x y }
{
    Four {
        a: x.a.wrapping_add(y.a),
        b: x.b.wrapping_add(y.b),
        c: x.c.wrapping_add(y.c),
        d: x.d.wrapping_add(y.d),
    }
}

// The functions of section 4.1.2, with no two shifts side by side that make a rotation: the compiler would take each rotation for one
// instruction on one word, of which there is none on four.
fn big_sigma0(x: u32) -> u32
    ensures { result ≡ F.Σ0 x }
{
    ((x >> 2) ^ (x << 19)) ^ ((x >> 13) ^ (x << 10)) ^ ((x >> 22) ^ (x << 30))
}

fn big_sigma1(x: u32) -> u32
    ensures { result ≡ F.Σ1 x }
{
    ((x >> 6) ^ (x << 21)) ^ ((x >> 11) ^ (x << 7)) ^ ((x >> 25) ^ (x << 26))
}

fn small_sigma0(x: u32) -> u32
    ensures { result ≡ F.σ0 x }
{
    ((x >> 7) ^ (x << 14)) ^ ((x >> 18) ^ (x << 25)) ^ (x >> 3)
}

fn small_sigma1(x: u32) -> u32
    ensures { result ≡ F.σ1 x }
{
    ((x >> 17) ^ (x << 13)) ^ ((x >> 19) ^ (x << 15)) ^ (x >> 10)
}

fn ch(x: u32, y: u32, z: u32) -> u32
    ensures { result ≡ F.Ch x y z }
{
    (x & y) ^ (!x & z)
}

fn maj(x: u32, y: u32, z: u32) -> u32
    ensures { result ≡ F.Maj x y z }
{
    (x & y) ^ (x & z) ^ (y & z)
}

fn big_sigma0s(x: Four) -> Four
    ensures { result ≡ L.lanewise F.Σ0 x }
{
    Four {
        a: big_sigma0(x.a),
        b: big_sigma0(x.b),
        c: big_sigma0(x.c),
        d: big_sigma0(x.d),
    }
}

fn big_sigma1s(x: Four) -> Four
    ensures { result ≡ L.lanewise F.Σ1 x }
{
    Four {
        a: big_sigma1(x.a),
        b: big_sigma1(x.b),
        c: big_sigma1(x.c),
        d: big_sigma1(x.d),
    }
}

fn small_sigma0s(x: Four) -> Four
    ensures { result ≡ L.lanewise F.σ0 x }
{
    Four {
        a: small_sigma0(x.a),
        b: small_sigma0(x.b),
        c: small_sigma0(x.c),
        d: small_sigma0(x.d),
    }
}

fn small_sigma1s(x: Four) -> Four
    ensures { result ≡ L.lanewise F.σ1 x }
{
    Four {
        a: small_sigma1(x.a),
        b: small_sigma1(x.b),
        c: small_sigma1(x.c),
        d: small_sigma1(x.d),
    }
}

fn chs(x: Four, y: Four, z: Four) -> Four
    ensures { result ≡ L.lanewise3 F.Ch x y z }
{
    Four {
        a: ch(x.a, y.a, z.a),
        b: ch(x.b, y.b, z.b),
        c: ch(x.c, y.c, z.c),
        d: ch(x.d, y.d, z.d),
    }
}

fn majs(x: Four, y: Four, z: Four) -> Four
    ensures { result ≡ L.lanewise3 F.Maj x y z }
{
    Four {
        a: maj(x.a, y.a, z.a),
        b: maj(x.b, y.b, z.b),
        c: maj(x.c, y.c, z.c),
        d: maj(x.d, y.d, z.d),
    }
}

// The schedule's words from those that stand 2, 7, 15 and 16 places before them.
fn next_words(w2: Four, w7: Four, w15: Four, w16: Four) -> Four
    ensures { (i : ℕ) → L.word_in i result ≡ F.σ1 (L.word_in i w2) ⊞ L.word_in i w7 ⊞ F.σ0 (L.word_in i w15) ⊞ L.word_in i w16 }
{
    plus(plus(plus(small_sigma1s(w2), w7), small_sigma0s(w15)), w16)
}

// The sixteen words of the schedule after sixteen words of it: each takes the place of the one sixteen before it. In ranges, so that no
// index is taken modulo 16, which the compiler would not do to four words at once.
fn next_sixteen(m: [Four; 16]) -> [Four; 16]
    ensures { (i : ℕ) → L.lanes i result ≡ drop 16 (F.schedule (L.lanes i m) 16) }
{
    let mut w = m;
    for t in 0..2 {
        w[t] = next_words(w[t + 14], w[t + 9], w[t + 1], w[t]);
    }
    for t in 2..7 {
        w[t] = next_words(w[t - 2], w[t + 9], w[t + 1], w[t]);
    }
    for t in 7..15 {
        w[t] = next_words(w[t - 2], w[t - 7], w[t + 1], w[t]);
    }
    w[15] = next_words(w[13], w[8], w[0], w[15]);
    w
}

// One turn of step 3, by the sums of the constant and the words.
fn round(s: State4, x: Four) -> State4
    ensures { (i : ℕ) → L.lane i result ≡ F.round (L.lane i s) (L.word_in i x) 0 }
{
    let t1 = plus(plus(plus(s.h, big_sigma1s(s.e)), chs(s.e, s.f, s.g)), x);
    let t2 = plus(big_sigma0s(s.a), majs(s.a, s.b, s.c));
    State4 {
        a: plus(t1, t2),
        b: s.a,
        c: s.b,
        d: s.c,
        e: plus(s.d, t1),
        f: s.e,
        g: s.f,
        h: s.g,
    }
}

// Sixteen rounds.
fn rounds(s: State4, k: [u32; 16], w: [Four; 16]) -> State4
    ensures { (i : ℕ) → L.lane i result ≡ P.rounds_by (L.lane i s) (P.sums k (L.lanes i w)) 16 }
{
    let mut r = s;
    for t in 0..16 {
        r = round(r, plus(all(k[t]), w[t]));
    }
    r
}

// Step 4.
fn sum(s: State4, t: State4) -> State4
    ensures { (i : ℕ) → L.lane i result ≡ F.plus (L.lane i s) (L.lane i t) }
{
    State4 {
        a: plus(s.a, t.a),
        b: plus(s.b, t.b),
        c: plus(s.c, t.c),
        d: plus(s.d, t.d),
        e: plus(s.e, t.e),
        f: plus(s.f, t.f),
        g: plus(s.g, t.g),
        h: plus(s.h, t.h),
    }
}

// In each lane, the hash value after s and the block m.
pub(crate) fn compress4(s: State4, m: [Four; 16]) -> State4
    ensures { (i : ℕ) → L.lane i result ≡ F.compress (L.lane i s) (L.lanes i m) }
{
    let r0 = rounds(s, K0, m);
    let w1 = next_sixteen(m);
    let r1 = rounds(r0, K1, w1);
    let w2 = next_sixteen(w1);
    let r2 = rounds(r1, K2, w2);
    let w3 = next_sixteen(w2);
    let r3 = rounds(r2, K3, w3);
    sum(r3, s)
}

// The same for the padding block of a message of 64 bytes, whose schedule is known.
pub(crate) fn compress_padding4(s: State4) -> State4
    ensures { (i : ℕ) → L.lane i result ≡ F.compress (L.lane i s) (F.words (F.padding 64) 0 16) }
{
    let none = all(0);
    let w = [none; 16];
    let r0 = rounds(s, PADDING0, w);
    let r1 = rounds(r0, PADDING1, w);
    let r2 = rounds(r1, PADDING2, w);
    let r3 = rounds(r2, PADDING3, w);
    sum(r3, s)
}
