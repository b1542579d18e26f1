// The ids of a bundle's transactions, four at a time, and the BUMPs that these name (specs/Ahead.antt).
ghost use Rattle.std.specs.Prelude.{◌≡◌, Some, None, ℕ, ◌≤◌, set};
ghost use Rattle.format.specs.Refusals.{MAX_TXS};
ghost use Rattle.lanes.specs.Lanes as L;
ghost use Rattle.bundle.specs.Ahead.{no_span, anchor_of, plain_span, span, span_id, Reaches, ReachesFour, set_anchors, IdsFrom, AnchorsFrom};
ghost use Rattle.bundle.specs.WorkMade.{span_work, work_below, group_work, ids_made};

use super::judge::IDS_ROOM;
use super::work::id_work;
use format::{Beef, Cursor};
use lanes::Nodes;
use spv::Span;

// Where a transaction starts and ends, and the number of its BUMP.
#[derive(Clone, Copy)]
pub(crate) struct NamedSpan {
    start: usize,
    end: usize,
    anchor: u64,
}

#[derive(Clone, Copy)]
pub(crate) struct Spans {
    a: NamedSpan,
    b: NamedSpan,
    c: NamedSpan,
    d: NamedSpan,
}

// A transaction's place, and where the next one is read, if there can be one.
#[derive(Clone, Copy)]
struct Reached {
    span: NamedSpan,
    next: Option<Cursor>,
}

// The same of four transactions.
#[derive(Clone, Copy)]
struct Group {
    spans: Spans,
    next: Option<Cursor>,
}

// The number of the BUMP that an anchor names; past the BUMPs if it names none.
pub(crate) fn anchor_number(anchor: Option<u64>) -> u64
    ensures { result ≡ anchor_of anchor }
{
    match anchor {
        Some(n) => n,
        None => Beef::MAX_BUMPS as u64,
    }
}

// Where no transaction can be read; it lies in no input.
fn no_span() -> NamedSpan
    ensures { result ≡ no_span }
{
    NamedSpan {
        start: 1,
        end: 0,
        anchor: Beef::MAX_BUMPS as u64,
    }
}

fn none_reached() -> Reached
    ensures { (result.span ≡ no_span) × (result.next ≡ None) }
{
    Reached {
        span: no_span(),
        next: None,
    }
}

// The transaction at a place, if it can be read.
fn reach(s: &[u8], count: u64, c: Cursor) -> Reached
    ensures { Reaches count s.now (Some c) result.span result.next }
{
    let Ok((e, after)) = format::read_entry(s, c, count) else {
        return none_reached();
    };
    Reached {
        span: NamedSpan {
            start: e.transaction.start,
            end: e.transaction.end,
            anchor: anchor_number(e.anchor),
        },
        next: Some(after),
    }
}

// The same, if there can be one.
fn span_at(s: &[u8], count: u64, from: Option<Cursor>) -> Reached
    ensures { Reaches count s.now from result.span result.next }
{
    match from {
        Some(c) => reach(s, count, c),
        None => none_reached(),
    }
}

// The next four transactions from a place on, as far as they can be read.
fn spans_from(s: &[u8], count: u64, from: Option<Cursor>) -> Group
    ensures { ReachesFour count s.now from result.spans result.next }
{
    let a = span_at(s, count, from);
    let b = span_at(s, count, a.next);
    let c = span_at(s, count, b.next);
    let d = span_at(s, count, c.next);
    Group {
        spans: Spans {
            a: a.span,
            b: b.span,
            c: c.span,
            d: d.span,
        },
        next: d.next,
    }
}

// Where it starts and ends, alone.
fn plain(x: NamedSpan) -> Span
    ensures { result ≡ plain_span x }
{
    Span {
        start: x.start,
        end: x.end,
    }
}

// The ids of transactions at these places; at once if there are four.
fn ids_of(s: &[u8], x: Spans) -> Nodes
    ensures { (l : ℕ) → L.node l result ≡ span_id s.now (span l x) }
{
    spv::span_hashes(s, plain(x.a), plain(x.b), plain(x.c), plain(x.d))
}

// The i-th number, if there is room for it.
fn set_number(list: &mut [u64], i: usize, x: u64)
    ensures { list.new ≡ set list.old i x }
{
    if list.len() <= i {
        return;
    }
    list[i] = x;
}

// The BUMPs' numbers of four from the i-th on, as far as there is room.
fn set_anchors(anchors: &mut [u64; Beef::MAX_TRANSACTIONS], i: usize, x: Spans)
    requires { i ≤ MAX_TXS }
    ensures { anchors.new ≡ set_anchors anchors.old i x }
{
    set_number(anchors, i, x.a.anchor);
    set_number(anchors, i + 1, x.b.anchor);
    set_number(anchors, i + 2, x.c.anchor);
    set_number(anchors, i + 3, x.d.anchor);
}

// The compressions of the id of a transaction at a place.
fn span_work(x: NamedSpan) -> u64
    ensures { (result ≡ span_work x) × (result ≤ 262146) }
{
    if x.end < x.start {
        return 0;
    }
    let length = x.end - x.start;
    if hash::MAX_INPUT < length {
        return 0;
    }
    id_work(length)
}

// The same of the k-th, if it is one of n.
fn work_below(n: usize, k: usize, x: NamedSpan) -> u64
    ensures { (result ≡ work_below n k x) × (result ≤ 262146) }
{
    if n <= k {
        return 0;
    }
    span_work(x)
}

// The same of four from the i-th on.
fn group_work(n: usize, i: usize, x: Spans) -> u64
    requires { i ≤ MAX_TXS }
    ensures { (result ≡ group_work n i x) × (result ≤ 1048584) }
{
    let a = work_below(n, i, x.a);
    let b = work_below(n, i + 1, x.b);
    let c = work_below(n, i + 2, x.c);
    let d = work_below(n, i + 3, x.d);
    a + b + c + d
}

// The ids of n transactions from a place on, end to end, and the numbers of their BUMPs, as far as there is room. What the ids cost is answered.
pub(crate) fn write_ids(
    s: &[u8],
    count: u64,
    start: Cursor,
    n: usize,
    ids: &mut [u8; IDS_ROOM],
    anchors: &mut [u64; Beef::MAX_TRANSACTIONS],
) -> u64
    requires { n ≤ MAX_TXS }
    ensures { IdsFrom count s.now start.at n ids.new × AnchorsFrom count s.now start.at n anchors.new × (result ≡ ids_made count s.now start.at n) }
{
    let mut next = Some(start);
    let mut work: u64 = 0;
    for i in (0..n).step_by(4) {
        let group = spans_from(s, count, next);
        spv::set_four(ids, i, ids_of(s, group.spans));
        set_anchors(anchors, i, group.spans);
        work += group_work(n, i, group.spans);
        next = group.next;
    }
    work
}
