// The hashes of parts of an input, four at a time (specs/Spans.antt).
ghost use Rattle.std.specs.Prelude.{◌≡◌, true, ℕ};
ghost use Rattle.lanes.specs.Lanes as L;
ghost use Rattle.spv.specs.Spans.{span_id, Inside, set_four};

use format::span_hash;
use lanes::Nodes;

// Where a part starts and ends.
#[derive(Clone, Copy)]
pub struct Span {
    pub start: usize,
    pub end: usize,
}

fn fits(s: &[u8], x: Span) -> bool
    ensures { result ≡ true → Inside s.now x }
{
    x.start <= x.end && x.end <= s.len()
}

fn one_by_one(s: &[u8], a: Span, b: Span, c: Span, d: Span) -> Nodes
    ensures { (l : ℕ) → L.node l result ≡ span_id s.now (L.in_lane l a b c d) }
{
    let a = span_hash(s, a.start, a.end);
    let b = span_hash(s, b.start, b.end);
    let c = span_hash(s, c.start, c.end);
    let d = span_hash(s, d.start, d.end);
    Nodes { a, b, c, d }
}

fn four_at_once(s: &[u8], a: Span, b: Span, c: Span, d: Span) -> Nodes
    requires inside { Inside s.now a }
    requires inside_2 { Inside s.now b }
    requires inside_3 { Inside s.now c }
    requires inside_4 { Inside s.now d }
    ensures { (l : ℕ) → L.node l result ≡ span_id s.now (L.in_lane l a b c d) }
{
    lanes::sha256d4(
        &s[a.start..a.end],
        &s[b.start..b.end],
        &s[c.start..c.end],
        &s[d.start..d.end],
    )
}

// The hashes of four parts, at once if all lie in the input; zeros for one that does not.
pub fn span_hashes(s: &[u8], a: Span, b: Span, c: Span, d: Span) -> Nodes
    ensures { (l : ℕ) → L.node l result ≡ span_id s.now (L.in_lane l a b c d) }
{
    if fits(s, a) && fits(s, b) && fits(s, c) && fits(s, d) {
        return four_at_once(s, a, b, c, d);
    }
    one_by_one(s, a, b, c, d)
}

// Four hashes end to end, from the i-th on, as far as there is room.
pub fn set_four(list: &mut [u8], i: usize, four: Nodes)
    ensures { list.new ≡ set_four list.old i four }
{
    if list.len() / 32 <= i {
        return;
    }
    let a = four.a;
    let b = four.b;
    let c = four.c;
    let d = four.d;
    format::set_hash(list, i, a);
    format::set_hash(list, i + 1, b);
    format::set_hash(list, i + 2, c);
    format::set_hash(list, i + 3, d);
}
