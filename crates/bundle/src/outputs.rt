// Whether the outputs that inputs name are there (26), then 27 and 28 (specs/Shown.antt).
ghost use Rattle.format.specs.Refusals.{MAX_TXS};
ghost use Rattle.std.specs.Prelude.{◌≡◌, IfSome, List, ℕ, ◌+◌, ◌*◌, ◌<◌, ◌≤◌, length, take, get_or};
ghost use Rattle.spv.specs.Hashes.{hashes_of, Distinct};
ghost use Rattle.bundle.specs.Amounts.{Payment};
ghost use Rattle.bundle.specs.FlatForm.{inputs_of, outputs_at, exist_from};
ghost use Rattle.bundle.specs.Shown.{Shown, Missing, Answers};

use super::judge::{IDS_ROOM, NUMBERS_ROOM, blame};
use super::marks::{four_at, inputs_of};
use super::parents::{ORDER_ROOM, place_among};
use super::pass::{Checked, judge_sums};
use format::{Cursor, Refusal};
use spv::reject_for;

// How many outputs the p-th transaction has; none past the ids.
fn outputs_at(ids: &[u8], numbers: &[u64; NUMBERS_ROOM], p: usize) -> u64
    ensures { result ≡ outputs_at (hashes_of ids.now) numbers.now p }
{
    if ids.len() / 32 <= p {
        return 0;
    }
    if NUMBERS_ROOM <= 10 * p + 5 {
        return 0;
    }
    numbers[10 * p + 5]
}

// Whether each input names an output that its parent has, by the ids of earlier transactions and what the flat form says of them. It is asked after 20.
fn outputs_there(
    s: &[u8],
    count: u64,
    start: Cursor,
    ids: &[u8],
    order: &[u64; ORDER_ROOM],
    numbers: &[u64; NUMBERS_ROOM],
) -> bool
    ensures { Distinct (hashes_of ids.now) → result ≡ exist_from s.now (hashes_of ids.now) numbers.now count start.at }
{
    let mut next = start;
    let mut parent: usize = 0;
    for _ in 0..count {
        let Ok((input, after)) = format::read_input(s, next) else {
            return false;
        };
        let x = format::hash_at(s, input.parent);
        parent = place_among(x, ids, order, parent);
        let v = four_at(s, input.output);
        let there = outputs_at(ids, numbers, parent);
        if there <= v {
            return false;
        }
        next = after;
    }
    true
}

// The same for the k-th transaction, by those before it; nothing is asked of one that is anchored.
fn is_there(
    s: &[u8],
    ids: &[u8; IDS_ROOM],
    order: &[u64; ORDER_ROOM],
    numbers: &[u64; NUMBERS_ROOM],
    k: usize,
) -> bool
    requires k_bound { k < MAX_TXS }
    ensures { Distinct (hashes_of (take (32 * k) ids.now)) → result ≡ exist_from s.now (hashes_of (take (32 * k) ids.now)) numbers.now (inputs_of numbers.now k).count (inputs_of numbers.now k).at.at }
{
    let inputs = inputs_of(numbers, k);
    outputs_there(s, inputs.count, inputs.at, &ids[..32 * k], order, numbers)
}

// The first of so many transactions that names an output that is not there.
fn first_missing(
    s: &[u8],
    ids: &[u8; IDS_ROOM],
    order: &[u64; ORDER_ROOM],
    numbers: &[u64; NUMBERS_ROOM],
    n: usize,
) -> Option<usize>
    requires { n ≤ MAX_TXS }
    ensures { IfSome result (λ m. m < n) × ((l : List Payment) → length l ≡ n → Shown s.now ids.now numbers.now l → Missing l n result) }
{
    for k in 0..n {
        if !is_there(s, ids, order, numbers, k) {
            return Some(k);
        }
    }
    None
}

// The first refusal by 26, 27 or 28 among so many transactions in their flat form, which passed everything before these; a fee is asked of each.
pub(crate) fn judge_amounts(
    s: &[u8],
    ids: &[u8; IDS_ROOM],
    order: &[u64; ORDER_ROOM],
    numbers: &[u64; NUMBERS_ROOM],
    n: usize,
    fee: u64,
) -> Checked
    ensures { Answers s.now ids.now numbers.now fee n result }
{
    if 256 < n {
        return Ok(());
    }
    // Called from two places, `judge_sums` keeps a frame of its own: its marks take no room while climbs are made.
    let Some(missing) = first_missing(s, ids, order, numbers, n) else {
        return judge_sums(s, &ids[..32 * n], order, numbers, n, fee);
    };
    judge_sums(s, &ids[..32 * missing], order, numbers, missing, fee)?;
    Err(blame(reject_for(Refusal::NoOutput), missing))
}
