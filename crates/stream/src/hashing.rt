// The hash of bytes as they come (specs/HashState.antt).
ghost use Rattle.std.specs.Prelude.{◌≡◌, [], ◌+◌, ◌-◌, ◌*◌, ◌/◌, ◌%◌, ◌≤◌, ◌<◌, length, replicate};
ghost use Rattle.std.proofs.Math.Seq.{paste};
ghost use Rattle.hash.specs.Sha256 as F;
ghost use Rattle.stream.specs.HashState as S;

// The hash value after the whole blocks that came, and the bytes after them, with zeros up to a block.
#[derive(Clone, Copy)]
pub struct Hashing {
    pub words: [u32; 8],
    pub tail: [u8; 64],
}

fn unpacked(w: [u32; 8]) -> hash::State
    ensures { result ≡ S.from_words w }
{
    let [a, b, c, d, e, f, g, h] = w;
    hash::State {
        a,
        b,
        c,
        d,
        e,
        f,
        g,
        h,
    }
}

fn packed(s: hash::State) -> [u32; 8]
    ensures { result ≡ S.words_of s }
{
    [s.a, s.b, s.c, s.d, s.e, s.f, s.g, s.h]
}

// Before the first byte.
pub(crate) fn fresh() -> Hashing
    ensures { result ≡ S.hashing_of [] }
{
    Hashing {
        words: packed(hash::initial()),
        tail: [0; 64],
    }
}

// A part laid into a block from a place on.
fn laid(tail: [u8; 64], at: usize, part: &[u8]) -> [u8; 64]
    requires { at + length part.now ≤ 64 }
    ensures { result ≡ paste tail at part.now (length part.now) }
{
    let mut t = tail;
    t[at..at + part.len()].copy_from_slice(part);
    t
}

// The block of 64 bytes.
fn block(s: &[u8]) -> [u32; 16]
    requires { length s.now ≡ 64 }
    ensures { result ≡ F.words s.now 0 16 }
{
    hash::block_of(s, 0)
}

// All whole blocks of s, read where they lie.
fn whole_blocks(h: hash::State, s: &[u8]) -> hash::State
    ensures { result ≡ S.blocks_from h s.now (length s.now / 64) }
{
    let n = s.len() / 64;
    let mut r = h;
    for i in 0..n {
        r = hash::compressed(r, block(&s[64 * i..64 * i + 64]));
    }
    r
}

// With a part more; n bytes came before it.
pub(crate) fn absorb(h: Hashing, n: u64, part: &[u8]) -> Hashing
    ensures { S.Absorbs h n part.now result }
{
    let t = (n % 64) as usize;
    let words = h.words;
    let tail = h.tail;
    let room = 64 - t;
    if part.len() < room {
        let tail = laid(tail, t, part);
        return Hashing { words, tail };
    }
    let done = room + (part.len() - room) / 64 * 64;
    let full = laid(tail, t, &part[..room]);
    let first = hash::compressed(unpacked(words), block(&full));
    let last = whole_blocks(first, &part[room..]);
    Hashing {
        words: packed(last),
        tail: laid([0; 64], 0, &part[done..]),
    }
}

// A last block: its first fourteen words, and the length in bits.
fn with_length(m: [u32; 16], n: u64) -> [u32; 16]
    ensures { result ≡ S.with_length m n }
{
    let bits = n % 4294967296 * 8;
    let mut w = m;
    w[14] = (bits / 4294967296) as u32;
    w[15] = (bits % 4294967296) as u32;
    w
}

// The hash value after the padding of the n bytes that came.
fn closed_value(h: Hashing, n: u64) -> hash::State
    ensures { S.Closes h n result }
{
    let t = (n % 64) as usize;
    let words = h.words;
    let mut tail = h.tail;
    tail[t] = 128;
    let before = unpacked(words);
    if t < 56 {
        return hash::compressed(before, with_length(block(&tail), n));
    }
    let middle = hash::compressed(before, block(&tail));
    hash::compressed(middle, with_length([0; 16], n))
}

// The id of the n bytes that came.
pub(crate) fn finish(h: Hashing, n: u64) -> [u8; 32]
    ensures { S.Finishes h n result }
{
    hash::hash_digest(closed_value(h, n))
}
