// 27 and 28 for the transactions of a bundle that passed everything before them, in passes over windows of the bundle's outputs (specs/Pass.antt).
ghost use Rattle.std.specs.Prelude.{◌≡◌, ◌&&◌, List, [], ltb, ℕ, ◌+◌, ◌-◌, ◌<◌, ◌≤◌, ◌*◌, length, get_or};
ghost use Rattle.bundle.specs.Amounts.{Payment};
ghost use Rattle.bundle.specs.FlatForm.{column};
ghost use Rattle.bundle.specs.Pictured.{Pictured};
ghost use Rattle.bundle.specs.Pass.{is_enough, amounts_of, Counts, Firsts, Reached, Ends, Settles, Judged, WINDOW, Blank};
ghost use Rattle.bundle.specs.Numbers.{output_count};
ghost use Rattle.format.specs.Refusals.{U32, MAX_TXS};
ghost use Rattle.bundle.specs.Second.{second, fault_in};

use super::judge::{NUMBERS_ROOM, blame};
use super::marks::mark_entries;
use super::parents::ORDER_ROOM;
use super::sums::{Walk, add_outputs, walk_at};
use format::{Beef, Refusal};
use spv::{Rejection, reject_for};

// The outputs of a window, for each of which a byte names its spender.
const WINDOW: usize = 65536;

// Where the outputs of each transaction start, and where those of all end.
pub(crate) const FIRSTS_ROOM: usize = 257;

// Nothing, or the first refusal.
pub(crate) type Checked = Result<(), Rejection>;

fn no_marks() -> [u8; WINDOW]
    ensures { Blank WINDOW result }
{
    [0u8; WINDOW]
}

// Whether the k-th transaction is anchored, or its inputs come to more than its outputs and the fee. Nothing is added to the fee, which may be any number.
fn is_enough(
    numbers: &[u64; NUMBERS_ROOM],
    sums: &[u64; Beef::MAX_TRANSACTIONS],
    fee: u64,
    k: usize,
) -> bool
    requires k_bound { k < MAX_TXS }
    ensures { result ≡ is_enough fee (column numbers.now 3 k) (column numbers.now 6 k) (get_or sums.now k 0) }
{
    let at = 10 * k;
    if numbers[at + 3] != 0 {
        return true;
    }
    let total = numbers[at + 6];
    let sum = sums[k];
    if sum <= total {
        return false;
    }
    fee < sum - total
}

fn no_firsts() -> [u64; FIRSTS_ROOM]
    ensures { Blank 257 result }
{
    [0u64; FIRSTS_ROOM]
}

fn no_sums() -> [u64; Beef::MAX_TRANSACTIONS]
    ensures { Blank 256 result }
{
    [0u64; Beef::MAX_TRANSACTIONS]
}

fn add_count(a: u64, b: u64) -> u64
    ensures { a + b < U32 → result ≡ a + b }
{
    a.wrapping_add(b)
}

// Where the outputs of each transaction start, counted through the bundle; after them how many there are.
fn first_outputs(numbers: &[u64; NUMBERS_ROOM], n: usize) -> [u64; FIRSTS_ROOM]
    requires n_bound { n ≤ 256 }
    ensures { (l : List Payment) → length l ≡ n → Counts numbers.now l → Firsts result l }
{
    let mut firsts = no_firsts();
    for k in 0..n {
        firsts[k + 1] = add_count(firsts[k], numbers[10 * k + 5]);
    }
    firsts
}

// What is reached after a window: the first transaction so far that spends an output again, and the next output.
#[derive(Clone, Copy)]
struct Reach {
    first: usize,
    walk: Walk,
}

fn one_window(
    s: &[u8],
    ids: &[u8],
    order: &[u64; ORDER_ROOM],
    numbers: &[u64; NUMBERS_ROOM],
    firsts: &[u64; FIRSTS_ROOM],
    n: usize,
    base: u64,
    count: usize,
    first: usize,
    walk: Walk,
    sums: &mut [u64; Beef::MAX_TRANSACTIONS],
) -> Reach
    requires n_bound { n ≤ 256 }
    requires count_bound { count ≤ WINDOW }
    ensures { (l : List Payment)
        → length l ≡ n
        → Pictured s.now ids.now numbers.now l
        → Firsts firsts.now l
        → base + count ≤ output_count l
        → Reached s.now l base first walk sums.old
        → Reached s.now l (base + count) result.first result.walk sums.new }
{
    let mut marks = no_marks();
    let first = mark_entries(s, ids, order, numbers, firsts, n, base, &mut marks, first);
    let walk = add_outputs(s, numbers, &marks, count, walk, sums);
    Reach { first, walk }
}

fn all_windows(
    s: &[u8],
    ids: &[u8],
    order: &[u64; ORDER_ROOM],
    numbers: &[u64; NUMBERS_ROOM],
    firsts: &[u64; FIRSTS_ROOM],
    n: usize,
    total: u64,
    sums: &mut [u64; Beef::MAX_TRANSACTIONS],
) -> usize
    requires le_n { 1 ≤ n }
    requires n_bound { n ≤ 256 }
    ensures { (l : List Payment) → length l ≡ n → Pictured s.now ids.now numbers.now l → Firsts firsts.now l → total ≡ output_count l → Blank 256 sums.old → Ends l result sums.new }
{
    // Past the last for none, and no Option: it is a bound, before which none spends an output again.
    let mut first = n;
    let mut walk = walk_at(numbers, 0);
    for base in (0..total).step_by(WINDOW) {
        let count = (total - base).min(WINDOW as u64) as usize;
        let reach = one_window(
            s, ids, order, numbers, firsts, n, base, count, first, walk, sums,
        );
        first = reach.first;
        walk = reach.walk;
    }
    first
}

// The first refusal by 27 or 28 among so many transactions in their flat form, which passed everything before these; a fee is asked of each.
pub(crate) fn judge_sums(
    s: &[u8],
    ids: &[u8],
    order: &[u64; ORDER_ROOM],
    numbers: &[u64; NUMBERS_ROOM],
    n: usize,
    fee: u64,
) -> Checked
    ensures { Judged s.now ids.now numbers.now fee n result }
{
    if n < 1 {
        return Ok(());
    }
    if 256 < n {
        return Ok(());
    }
    let firsts = first_outputs(numbers, n);
    let total = firsts[n];
    let mut sums = no_sums();
    let first = all_windows(s, ids, order, numbers, &firsts, n, total, &mut sums);
    first_fault(numbers, &sums, fee, n, first)
}

// The first refusal among so many transactions, by their sums and by the first of them that spends an output again.
fn first_fault(
    numbers: &[u64; NUMBERS_ROOM],
    sums: &[u64; Beef::MAX_TRANSACTIONS],
    fee: u64,
    n: usize,
    first: usize,
) -> Checked
    requires n_bound { n ≤ 256 }
    ensures { (l : List Payment) → Settles numbers.now sums.now fee n first l → amounts_of result ≡ fault_in (second fee) n [] l }
{
    for k in 0..n {
        if k == first {
            return Err(blame(reject_for(Refusal::SpentTwice), k));
        }
        if !is_enough(numbers, sums, fee, k) {
            return Err(blame(reject_for(Refusal::TooLittle), k));
        }
    }
    Ok(())
}
