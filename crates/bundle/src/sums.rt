// What the inputs of each transaction come to, by the marks of windows (specs/Walks.antt): all outputs are passed once, and each is added to the sum of its spender.
ghost use Rattle.format.specs.Refusals.{MAX_TXS};
ghost use Rattle.std.specs.Prelude.{◌≡◌, List, ℕ, ◌+◌, ◌<◌, ◌≤◌, ◌*◌, length, get_or, set};
ghost use Rattle.bundle.specs.Amounts.{Payment};
ghost use Rattle.bundle.specs.Walks.{walk_at, onward_of, Counted, Here, Says, Sums};
ghost use Rattle.bundle.specs.Numbers.{output_count};
ghost use Rattle.bundle.specs.BundleHeads.{total_from};

use super::judge::NUMBERS_ROOM;
use format::{Beef, Cursor};

// The total of so many outputs that were read before.
pub(crate) fn outputs_total(s: &[u8], count: u64, start: Cursor) -> u64
    ensures { result ≡ total_from s.now count 0 start.at }
{
    let mut next = start;
    let mut total: u64 = 0;
    for _ in 0..count {
        let Ok((amount, after)) = format::read_output(s, next, true, total) else {
            return total;
        };
        total += amount;
        next = after;
    }
    total
}

// A place among the outputs of a bundle: the transaction, how many of its outputs are left, and where the next one is.
#[derive(Clone, Copy)]
pub(crate) struct Walk {
    pub entry: usize,
    pub left: u64,
    pub next: Cursor,
}

// The first output of the k-th transaction.
pub(crate) fn walk_at(numbers: &[u64; NUMBERS_ROOM], k: usize) -> Walk
    requires k_bound { k < MAX_TXS }
    ensures { result ≡ walk_at numbers.now k }
{
    let at = 10 * k;
    Walk {
        entry: k,
        left: numbers[at + 5],
        next: Cursor {
            at: numbers[at + 9] as usize,
        },
    }
}

// The next output there is: if none is left of a transaction, the first of the next one.
fn onward(numbers: &[u64; NUMBERS_ROOM], walk: Walk) -> Walk
    ensures { result ≡ onward_of numbers.now walk }
{
    if walk.left != 0 {
        return walk;
    }
    let entry = walk.entry;
    if 256 <= entry {
        return walk;
    }
    if NUMBERS_ROOM < 10 * entry + 20 {
        return walk;
    }
    walk_at(numbers, entry + 1)
}

// Adds to the k-th sum.
fn add_to(sums: &mut [u64; Beef::MAX_TRANSACTIONS], k: usize, amount: u64)
    ensures { k < length sums.old → get_or sums.old k 0 + amount < 9223372036854775808 → sums.new ≡ set sums.old k (get_or sums.old k 0 + amount) }
{
    if k < sums.len() {
        sums[k] = sums[k].wrapping_add(amount);
    }
}

fn mark_at(marks: &[u8], j: usize) -> usize
    ensures { result ≡ get_or marks.now j 0 }
{
    if marks.len() <= j {
        return 0;
    }
    marks[j] as usize
}

// Adds so many outputs from a place on, each to the sum that its mark names.
pub(crate) fn add_outputs(
    s: &[u8],
    numbers: &[u64; NUMBERS_ROOM],
    marks: &[u8],
    count: usize,
    walk: Walk,
    sums: &mut [u64; Beef::MAX_TRANSACTIONS],
) -> Walk
    ensures { (l : List Payment)
        → (spender : ℕ → ℕ)
        → (m : ℕ)
        → Counted s.now numbers.now l
        → Here s.now l walk m
        → m + count ≤ output_count l
        → Says marks.now count spender m
        → Sums l spender m sums.old
        → Sums l spender (m + count) sums.new
        × Here s.now l result (m + count) }
{
    let mut walk = walk;
    for j in 0..count {
        let here = onward(numbers, walk);
        let Ok((amount, after)) = format::read_output(s, here.next, false, 0) else {
            return walk;
        };
        if here.left < 1 {
            return walk;
        }
        add_to(sums, mark_at(marks, j), amount);
        walk = Walk {
            entry: here.entry,
            left: here.left - 1,
            next: after,
        };
    }
    walk
}
