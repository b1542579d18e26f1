// Double SHA-256 (FIPS 180-4) of a lent message, and of two Merkle nodes joined (specs/Sha256.antt).
#![tactic(auto)]

ghost use Rattle.std.specs.Prelude.{◌≡◌, ◌+◌, ◌*◌, ◌/◌, ◌%◌, ◌^◌, ◌<◌, ◌≤◌, ◌++◌, length, slice_index};
ghost use Rattle.hash.specs.Sha256 as F;
ghost use Rattle.hash.specs.Parts as P;

mod compress;

pub use compress::State;
use compress::{compress, compress_padding};

// The tables of constants, for hashes side by side.
pub use compress::{K0, K1, K2, K3, PADDING0, PADDING1, PADDING2, PADDING3};

// The most bytes that an input may have.
pub const MAX_INPUT: usize = 16_777_216;

// The word of the four bytes at a place of a slice, the most significant first.
fn word_at(s: &[u8], at: usize) -> u32
    requires { at + 4 ≤ length s.now }
    ensures { result ≡ F.word s.now at }
{
    u32::from_be_bytes([s[at], s[at + 1], s[at + 2], s[at + 3]])
}

// The N words of the bytes at a place of a slice.
fn words_at<const N: usize>(s: &[u8], at: usize) -> [u32; N]
    requires { at + 4 * N ≤ length s.now }
    ensures { result ≡ F.words s.now at N }
{
    let mut w = [0u32; N];
    for t in 0..N {
        w[t] = word_at(s, at + 4 * t);
    }
    w
}

// A byte of the padded message (section 5.1.1), which is nowhere stored.
fn padded_byte(s: &[u8], i: usize) -> u8
    requires { (length s.now ≤ F.MAX_INPUT) × (i < (length s.now + 72) / 64 * 64) }
    ensures { result ≡ slice_index (F.pad s.now) i }
{
    let n = s.len();
    if i < n {
        return s[i];
    }
    if i == n {
        return 0x80;
    }
    let end = (n + 72) / 64 * 64;
    if i < end - 8 {
        return 0;
    }
    let bits = ((n * 8) as u64).to_be_bytes();
    bits[i - (end - 8)]
}

// A word of the padded message. Most are bytes of the message or zeros, and are then made at once.
fn padded_word(s: &[u8], at: usize) -> u32
    requires { (length s.now ≤ F.MAX_INPUT) × (at + 4 ≤ (length s.now + 72) / 64 * 64) }
    ensures { result ≡ F.word (F.pad s.now) at }
{
    let n = s.len();
    if at + 4 <= n {
        return word_at(s, at);
    }
    let end = (n + 72) / 64 * 64;
    if n < at && at + 12 <= end {
        return 0;
    }
    u32::from_be_bytes([
        padded_byte(s, at),
        padded_byte(s, at + 1),
        padded_byte(s, at + 2),
        padded_byte(s, at + 3),
    ])
}

// A block in which the padding begins or goes on.
fn padded_block(s: &[u8], i: usize) -> [u32; 16]
    requires { (length s.now ≤ F.MAX_INPUT) × (i < (length s.now + 72) / 64) }
    ensures { result ≡ F.words (F.pad s.now) (64 * i) 16 }
{
    let mut w = [0u32; 16];
    for t in 0..16 {
        w[t] = padded_word(s, 64 * i + 4 * t);
    }
    w
}

// Block i of the padded message (section 5.2.1). One that lies within the message is read where it lies.
fn block(s: &[u8], i: usize) -> [u32; 16]
    requires { (length s.now ≤ F.MAX_INPUT) × (i < (length s.now + 72) / 64) }
    ensures { result ≡ F.words (F.pad s.now) (64 * i) 16 }
{
    let at = 64 * i;
    if at + 64 <= s.len() {
        words_at(s, at)
    } else {
        padded_block(s, i)
    }
}

// The same for every number i, for hashes side by side: zeros past the blocks.
pub fn block_of(s: &[u8], i: usize) -> [u32; 16]
    ensures { result ≡ P.block_of s.now i }
{
    let n = s.len();
    if n <= MAX_INPUT && i < (n + 72) / 64 {
        block(s, i)
    } else {
        [0; 16]
    }
}

// The hash value after s and the block m.
pub fn compressed(s: State, m: [u32; 16]) -> State
    ensures { result ≡ F.compress s m }
{
    compress(s, m)
}

// Section 5.3.3.
pub fn initial() -> State
    ensures { result ≡ F.H0 }
{
    State {
        a: 0x6a09_e667,
        b: 0xbb67_ae85,
        c: 0x3c6e_f372,
        d: 0xa54f_f53a,
        e: 0x510e_527f,
        f: 0x9b05_688c,
        g: 0x1f83_d9ab,
        h: 0x5be0_cd19,
    }
}

// The hash value after all blocks of the padded message (section 6.2.2).
fn hash_value(s: &[u8]) -> State
    requires { length s.now ≤ F.MAX_INPUT }
    ensures { result ≡ F.hash_value s.now }
{
    let blocks = (s.len() + 72) / 64;
    let mut h = initial();
    for i in 0..blocks {
        h = compress(h, block(s, i));
    }
    h
}

// The message digest of a hash value.
pub fn digest_bytes(s: State) -> [u8; 32]
    ensures { result ≡ F.digest s }
{
    let words = [s.a, s.b, s.c, s.d, s.e, s.f, s.g, s.h];
    let mut bytes = [0u8; 32];
    for t in 0..8 {
        bytes[4 * t..4 * t + 4].copy_from_slice(&words[t].to_be_bytes());
    }
    bytes
}

// The one block of a padded digest: its eight words, the bit 1, and its length of 256 bits.
fn digest_block(s: State) -> [u32; 16]
    ensures { result ≡ F.words (F.pad (F.digest s)) 0 16 }
{
    [
        s.a,
        s.b,
        s.c,
        s.d,
        s.e,
        s.f,
        s.g,
        s.h,
        0x8000_0000,
        0,
        0,
        0,
        0,
        0,
        0,
        256,
    ]
}

// The digest of a digest, from its hash value.
pub fn hash_digest(s: State) -> [u8; 32]
    ensures { result ≡ F.sha256 (F.digest s) }
{
    digest_bytes(compress(initial(), digest_block(s)))
}

// The double hash of a message that is not over the input size.
pub fn sha256d(s: &[u8]) -> Option<[u8; 32]>
    ensures { result ≡ F.hashed s.now }
{
    if s.len() <= MAX_INPUT {
        Some(hash_digest(hash_value(s)))
    } else {
        None
    }
}

// Two nodes, one after the other.
fn both(left: [u8; 32], right: [u8; 32]) -> [u8; 64]
    ensures { result ≡ left ++ right }
{
    let mut children = [0u8; 64];
    children[..32].copy_from_slice(&left);
    children[32..].copy_from_slice(&right);
    children
}

// The Merkle parent: the double hash of the left child followed by the right one.
pub fn join(left: [u8; 32], right: [u8; 32]) -> [u8; 32]
    ensures { result ≡ F.sha256d (left ++ right) }
{
    let children = both(left, right);
    hash_digest(compress_padding(compress(initial(), words_at(&children, 0))))
}
