// Marks in a window of outputs (specs/Windows.antt): which transaction spends each.
ghost use Rattle.format.specs.Refusals.{MAX_TXS};
ghost use Rattle.std.specs.Prelude.{◌≡◌, ◌||◌, ◌+◌, ◌-◌, ◌<◌, ◌≤◌, ◌*◌, length};
ghost use Rattle.spv.specs.Hashes.{hashes_of, Distinct};
ghost use Rattle.bundle.specs.Windows.{mark_one, marked, mark_all, twice, lesser_if, marks_in, first_in};
ghost use Rattle.bundle.specs.FlatForm.{four_at, through, spent_from, inputs_of, lists_from};

use super::judge::NUMBERS_ROOM;
use super::parents::{ORDER_ROOM, place_among};
use super::pass::FIRSTS_ROOM;
use format::{Cursor, Items};

const U32: u64 = 4294967296;

pub(crate) fn four_at(s: &[u8], at: usize) -> u64
    ensures { result ≡ four_at s.now at }
{
    let Ok((v, _)) = format::read_four(s, Cursor { at }) else {
        return 0;
    };
    v
}

// An output's number through the bundle, by the number of its transaction's first output.
fn through_bundle(firsts: &[u64; FIRSTS_ROOM], p: usize, v: u64) -> u64
    ensures { result ≡ through firsts.now p v }
{
    if FIRSTS_ROOM <= p {
        return v % U32;
    }
    firsts[p] % U32 + v % U32
}

// Marks a number with k if it lies in the window and has no mark, and tells whether it had one.
fn mark_one(marks: &mut [u8], base: u64, x: u64, k: u8) -> bool
    ensures { (marks.new ≡ mark_one base (length marks.old) k marks.old x) × (result ≡ marked base (length marks.old) marks.old x) }
{
    if x < base {
        return false;
    }
    let at = (x - base) as usize;
    if marks.len() <= at {
        return false;
    }
    if marks[at] != 0 {
        return true;
    }
    marks[at] = k;
    false
}

// Marks what the inputs spend in a window, and tells whether one was marked before.
fn mark_inputs(
    s: &[u8],
    count: u64,
    start: Cursor,
    ids: &[u8],
    order: &[u64; ORDER_ROOM],
    firsts: &[u64; FIRSTS_ROOM],
    k: u8,
    base: u64,
    marks: &mut [u8],
) -> bool
    ensures { Distinct (hashes_of ids.now) → (marks.new ≡ mark_all base (length marks.old) k marks.old (spent_from s.now (hashes_of ids.now) firsts.now count start.at))
        × (result ≡ twice base (length marks.old) k marks.old (spent_from s.now (hashes_of ids.now) firsts.now count start.at)) }
{
    let mut next = start;
    let mut parent: usize = 0;
    let mut again = false;
    for _ in 0..count {
        let Ok((input, after)) = format::read_input(s, next) else {
            return again;
        };
        let x = format::hash_at(s, input.parent);
        parent = place_among(x, ids, order, parent);
        let v = four_at(s, input.output);
        let marked = mark_one(marks, base, through_bundle(firsts, parent, v), k);
        again |= marked;
        next = after;
    }
    again
}

// The inputs of the k-th transaction that count: none if it is anchored.
pub(crate) fn inputs_of(numbers: &[u64; NUMBERS_ROOM], k: usize) -> Items
    requires k_bound { k < MAX_TXS }
    ensures { result ≡ inputs_of numbers.now k }
{
    let at = 10 * k;
    let place = numbers[at + 8] as usize;
    if numbers[at + 3] != 0 {
        return Items {
            count: 0,
            at: Cursor { at: place },
        };
    }
    Items {
        count: numbers[at + 7],
        at: Cursor { at: place },
    }
}

// The lesser of a number and k, if k is meant.
fn earlier(first: usize, k: usize, meant: bool) -> usize
    ensures { result ≡ lesser_if meant k first }
{
    if !meant {
        return first;
    }
    if first <= k {
        return first;
    }
    k
}

// Marks what the transactions but the first spend in a window, and answers the first of them, before the one given, that spends an output again.
pub(crate) fn mark_entries(
    s: &[u8],
    ids: &[u8],
    order: &[u64; ORDER_ROOM],
    numbers: &[u64; NUMBERS_ROOM],
    firsts: &[u64; FIRSTS_ROOM],
    n: usize,
    base: u64,
    marks: &mut [u8],
    first: usize,
) -> usize
    requires n_bound { n ≤ 256 }
    ensures { Distinct (hashes_of ids.now)
        → (marks.new ≡ marks_in base (length marks.old) 1 marks.old (lists_from s.now (hashes_of ids.now) numbers.now firsts.now 1 (n - 1)))
        × (result ≡ first_in base (length marks.old) 1 marks.old first (lists_from s.now (hashes_of ids.now) numbers.now firsts.now 1 (n - 1))) }
{
    let mut first = first;
    for k in 1..n {
        let inputs = inputs_of(numbers, k);
        let again = mark_inputs(
            s,
            inputs.count,
            inputs.at,
            ids,
            order,
            firsts,
            k as u8,
            base,
            marks,
        );
        first = earlier(first, k, again);
    }
    first
}
