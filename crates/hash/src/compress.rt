// The compression function (FIPS 180-4, section 6.2.2; specs/Sha256.antt): a hash value and a block of sixteen words give the next hash value.
// The message schedule stays in this file.
ghost use Rattle.std.specs.Prelude.{◌≡◌};
ghost use Rattle.hash.specs.Sha256 as F;
ghost use Rattle.hash.specs.Sha256.{◌⊞◌};
ghost use Rattle.hash.specs.Parts as P;

// The eight words of a hash value, or the eight working variables.
#[derive(Clone, Copy)]
pub struct State {
    pub a: u32,
    pub b: u32,
    pub c: u32,
    pub d: u32,
    pub e: u32,
    pub f: u32,
    pub g: u32,
    pub h: u32,
}

// The constants (section 4.2.2), sixteen at a time.
pub const K0: [u32; 16] = [
    0x428a_2f98,
    0x7137_4491,
    0xb5c0_fbcf,
    0xe9b5_dba5,
    0x3956_c25b,
    0x59f1_11f1,
    0x923f_82a4,
    0xab1c_5ed5,
    0xd807_aa98,
    0x1283_5b01,
    0x2431_85be,
    0x550c_7dc3,
    0x72be_5d74,
    0x80de_b1fe,
    0x9bdc_06a7,
    0xc19b_f174,
];

pub const K1: [u32; 16] = [
    0xe49b_69c1,
    0xefbe_4786,
    0x0fc1_9dc6,
    0x240c_a1cc,
    0x2de9_2c6f,
    0x4a74_84aa,
    0x5cb0_a9dc,
    0x76f9_88da,
    0x983e_5152,
    0xa831_c66d,
    0xb003_27c8,
    0xbf59_7fc7,
    0xc6e0_0bf3,
    0xd5a7_9147,
    0x06ca_6351,
    0x1429_2967,
];

pub const K2: [u32; 16] = [
    0x27b7_0a85,
    0x2e1b_2138,
    0x4d2c_6dfc,
    0x5338_0d13,
    0x650a_7354,
    0x766a_0abb,
    0x81c2_c92e,
    0x9272_2c85,
    0xa2bf_e8a1,
    0xa81a_664b,
    0xc24b_8b70,
    0xc76c_51a3,
    0xd192_e819,
    0xd699_0624,
    0xf40e_3585,
    0x106a_a070,
];

pub const K3: [u32; 16] = [
    0x19a4_c116,
    0x1e37_6c08,
    0x2748_774c,
    0x34b0_bcb5,
    0x391c_0cb3,
    0x4ed8_aa4a,
    0x5b9c_ca4f,
    0x682e_6ff3,
    0x748f_82ee,
    0x78a5_636f,
    0x84c8_7814,
    0x8cc7_0208,
    0x90be_fffa,
    0xa450_6ceb,
    0xbef9_a3f7,
    0xc671_78f2,
];

// The sums of the constants and of the words of a known schedule: that of the padding block of a 64-byte message.
pub const PADDING0: [u32; 16] = [
    0xc28a_2f98,
    0x7137_4491,
    0xb5c0_fbcf,
    0xe9b5_dba5,
    0x3956_c25b,
    0x59f1_11f1,
    0x923f_82a4,
    0xab1c_5ed5,
    0xd807_aa98,
    0x1283_5b01,
    0x2431_85be,
    0x550c_7dc3,
    0x72be_5d74,
    0x80de_b1fe,
    0x9bdc_06a7,
    0xc19b_f374,
];

pub const PADDING1: [u32; 16] = [
    0x649b_69c1,
    0xf0fe_4786,
    0x0fe1_edc6,
    0x240c_f254,
    0x4fe9_346f,
    0x6cc9_84be,
    0x61b9_411e,
    0x16f9_88fa,
    0xf2c6_5152,
    0xa88e_5a6d,
    0xb019_fc65,
    0xb9d9_9ec7,
    0x9a12_31c3,
    0xe70e_eaa0,
    0xfdb1_232b,
    0xc735_3eb0,
];

pub const PADDING2: [u32; 16] = [
    0x3069_bad5,
    0xcb97_6d5f,
    0x5a0f_118f,
    0xdc1e_eefd,
    0x0a35_b689,
    0xde0b_7a04,
    0x58f4_ca9d,
    0xe15d_5b16,
    0x007f_3e86,
    0x3708_8980,
    0xa507_ea32,
    0x6fab_9537,
    0x1740_6110,
    0x0d8c_d6f1,
    0xcdaa_3b6d,
    0xc0bb_be37,
];

pub const PADDING3: [u32; 16] = [
    0x8361_3bda,
    0xdb48_a363,
    0x0b02_e931,
    0x6fd1_5ca7,
    0x521a_faca,
    0x3133_8431,
    0x6ed4_1a95,
    0x6d43_7890,
    0xc39c_91f2,
    0x9ecc_abbd,
    0xb5c9_a0e6,
    0x532f_b63c,
    0xd2c7_41c6,
    0x0723_7ea3,
    0xa495_4b68,
    0x4c19_1d76,
];

fn big_sigma0(x: u32) -> u32
    ensures { result ≡ F.Σ0 x }
{
    x.rotate_right(2) ^ x.rotate_right(13) ^ x.rotate_right(22)
}

fn big_sigma1(x: u32) -> u32
    ensures { result ≡ F.Σ1 x }
{
    x.rotate_right(6) ^ x.rotate_right(11) ^ x.rotate_right(25)
}

// Without rotations: the compiler then makes several words at once.
fn small_sigma0(x: u32) -> u32
    ensures { result ≡ F.σ0 x }
{
    ((x >> 7) ^ (x << 14)) ^ ((x >> 18) ^ (x << 25)) ^ (x >> 3)
}

fn small_sigma1(x: u32) -> u32
    ensures { result ≡ F.σ1 x }
{
    ((x >> 17) ^ (x << 13)) ^ ((x >> 19) ^ (x << 15)) ^ (x >> 10)
}

fn ch(x: u32, y: u32, z: u32) -> u32
    ensures { result ≡ F.Ch x y z }
{
    z ^ (x & (y ^ z))
}

fn maj(x: u32, y: u32, z: u32) -> u32
    ensures { result ≡ F.Maj x y z }
{
    y ^ ((x ^ y) & (y ^ z))
}

// The schedule's word from those that stand 2, 7, 15 and 16 places before it.
fn next_word(w2: u32, w7: u32, w15: u32, w16: u32) -> u32
    ensures { result ≡ F.σ1 w2 ⊞ w7 ⊞ F.σ0 w15 ⊞ w16 }
{
    small_sigma1(w2)
        .wrapping_add(w7)
        .wrapping_add(small_sigma0(w15))
        .wrapping_add(w16)
}

// One turn of step 3.
fn round(s: State, k: u32, w: u32) -> State
    ensures { result ≡ F.round s k w }
{
    let t1 = s
        .h
        .wrapping_add(big_sigma1(s.e))
        .wrapping_add(ch(s.e, s.f, s.g))
        .wrapping_add(k)
        .wrapping_add(w);
    let t2 = big_sigma0(s.a).wrapping_add(maj(s.a, s.b, s.c));
    State {
        a: t1.wrapping_add(t2),
        b: s.a,
        c: s.b,
        d: s.c,
        e: s.d.wrapping_add(t1),
        f: s.e,
        g: s.f,
        h: s.g,
    }
}

// Step 4.
fn plus(s: State, t: State) -> State
    ensures { result ≡ F.plus s t }
{
    State {
        a: s.a.wrapping_add(t.a),
        b: s.b.wrapping_add(t.b),
        c: s.c.wrapping_add(t.c),
        d: s.d.wrapping_add(t.d),
        e: s.e.wrapping_add(t.e),
        f: s.f.wrapping_add(t.f),
        g: s.g.wrapping_add(t.g),
        h: s.h.wrapping_add(t.h),
    }
}

// After a number of rounds: the working variables, the words of the next sixteen rounds, and the sum of each with its constant.
#[derive(Clone, Copy)]
struct Stage {
    s: State,
    w: [u32; 16],
    x: [u32; 16],
}

// The sums of sixteen constants and words.
fn sums(k: [u32; 16], w: [u32; 16]) -> [u32; 16]
    ensures { result ≡ P.sums k w }
{
    let mut x = w;
    for t in 0..16 {
        x[t] = k[t].wrapping_add(w[t]);
    }
    x
}

fn stage_of(s: State, w: [u32; 16], k: [u32; 16]) -> Stage
    ensures { result ≡ P.stage s w k }
{
    let x = sums(k, w);
    Stage { s, w, x }
}

// The stage sixteen rounds on, where k are the constants of its words. A word takes the place of the one sixteen before it.
// Rounds and words by turns: neither waits for the other.
fn next_stage(t: Stage, k: [u32; 16]) -> Stage
    ensures { result ≡ P.next_stage t k }
{
    let mut w = t.w;
    let x = t.x;
    let r0 = round(t.s, x[0], 0);
    w[0] = next_word(w[14], w[9], w[1], w[0]);
    let r1 = round(r0, x[1], 0);
    w[1] = next_word(w[15], w[10], w[2], w[1]);
    let r2 = round(r1, x[2], 0);
    w[2] = next_word(w[0], w[11], w[3], w[2]);
    let r3 = round(r2, x[3], 0);
    w[3] = next_word(w[1], w[12], w[4], w[3]);
    let r4 = round(r3, x[4], 0);
    w[4] = next_word(w[2], w[13], w[5], w[4]);
    let r5 = round(r4, x[5], 0);
    w[5] = next_word(w[3], w[14], w[6], w[5]);
    let r6 = round(r5, x[6], 0);
    w[6] = next_word(w[4], w[15], w[7], w[6]);
    let r7 = round(r6, x[7], 0);
    w[7] = next_word(w[5], w[0], w[8], w[7]);
    let r8 = round(r7, x[8], 0);
    w[8] = next_word(w[6], w[1], w[9], w[8]);
    let r9 = round(r8, x[9], 0);
    w[9] = next_word(w[7], w[2], w[10], w[9]);
    let r10 = round(r9, x[10], 0);
    w[10] = next_word(w[8], w[3], w[11], w[10]);
    let r11 = round(r10, x[11], 0);
    w[11] = next_word(w[9], w[4], w[12], w[11]);
    let r12 = round(r11, x[12], 0);
    w[12] = next_word(w[10], w[5], w[13], w[12]);
    let r13 = round(r12, x[13], 0);
    w[13] = next_word(w[11], w[6], w[14], w[13]);
    let r14 = round(r13, x[14], 0);
    w[14] = next_word(w[12], w[7], w[15], w[14]);
    let r15 = round(r14, x[15], 0);
    w[15] = next_word(w[13], w[8], w[0], w[15]);
    stage_of(r15, w, k)
}

// Sixteen rounds, by the sums of their constants and words.
fn rounds(s: State, x: [u32; 16]) -> State
    ensures { result ≡ P.rounds_by s x 16 }
{
    let mut r = s;
    for t in 0..16 {
        r = round(r, x[t], 0);
    }
    r
}

// The same written out, so that the working variables stay in registers.
fn last_rounds(s: State, x: [u32; 16]) -> State
    ensures { result ≡ P.rounds_by s x 16 }
{
    let r0 = round(s, x[0], 0);
    let r1 = round(r0, x[1], 0);
    let r2 = round(r1, x[2], 0);
    let r3 = round(r2, x[3], 0);
    let r4 = round(r3, x[4], 0);
    let r5 = round(r4, x[5], 0);
    let r6 = round(r5, x[6], 0);
    let r7 = round(r6, x[7], 0);
    let r8 = round(r7, x[8], 0);
    let r9 = round(r8, x[9], 0);
    let r10 = round(r9, x[10], 0);
    let r11 = round(r10, x[11], 0);
    let r12 = round(r11, x[12], 0);
    let r13 = round(r12, x[13], 0);
    let r14 = round(r13, x[14], 0);
    let r15 = round(r14, x[15], 0);
    r15
}

// The hash value after s and the block m.
pub fn compress(s: State, m: [u32; 16]) -> State
    ensures { result ≡ F.compress s m }
{
    let mut t = stage_of(s, m, K0);
    t = next_stage(t, K1);
    t = next_stage(t, K2);
    t = next_stage(t, K3);
    let x = t.x;
    plus(last_rounds(t.s, x), s)
}

// The same for the padding block of a message of 64 bytes, whose schedule is known.
pub fn compress_padding(s: State) -> State
    ensures { result ≡ F.compress s (F.words (F.padding 64) 0 16) }
{
    let mut r = rounds(s, PADDING0);
    r = rounds(r, PADDING1);
    r = rounds(r, PADDING2);
    r = rounds(r, PADDING3);
    plus(r, s)
}
