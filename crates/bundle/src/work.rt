// Hash work, counted (paper 02, Item 11; specs/Work.antt): the ids of all transactions, and the climbs that were made before the verdict.
ghost use Rattle.std.specs.Prelude.{◌≡◌, ◌+◌, ◌*◌, ◌<◌, ◌≤◌, length};
ghost use Rattle.format.specs.Refusals.{MAX_TXS};
ghost use Rattle.bundle.specs.Windows.{sum_to};
ghost use Rattle.bundle.specs.Work.{id_work, JOIN};
ghost use Rattle.bundle.specs.WorkMade.{kept_joins, climbs_before, climbs_made};

use super::anchored::ENDS_ROOM;
use super::judge::Verdict;
use format::{Beef, Refusal};
use spv::Rejection;

// No climb takes as many joins.
const U32: u64 = 4294967296;

// The compressions of a transaction's id.
pub(crate) fn id_work(n: usize) -> u64
    ensures { result ≡ id_work n }
{
    let whole = n / 64;
    let rest = (n % 64 + 72) / 64;
    (whole + rest + 1) as u64
}

// The joins of the k-th transaction's climb, as they were kept; none if it names no BUMP.
fn kept_joins(anchors: &[u64; Beef::MAX_TRANSACTIONS], ends: &[u64; ENDS_ROOM], k: usize) -> u64
    requires k_bound { k < MAX_TXS }
    ensures { (result ≡ kept_joins anchors.now ends.now k) × (result < 4294967296) }
{
    if Beef::MAX_BUMPS as u64 <= anchors[k] {
        return 0;
    }
    ends[4 * k + 3] % U32
}

// The joins of the first n climbs.
fn joins_made(anchors: &[u64; Beef::MAX_TRANSACTIONS], ends: &[u64; ENDS_ROOM], n: usize) -> u64
    requires n_bound { n ≤ MAX_TXS }
    ensures { (result ≡ sum_to (kept_joins anchors.now ends.now) n) × (result ≤ 4294967296 * n) }
{
    let mut joins: u64 = 0;
    for k in 0..n {
        joins += kept_joins(anchors, ends, k);
    }
    joins
}

// The climbs of n transactions that were made before a refusal: that of the refused one too, but for 19, which comes before it.
fn climbs_before(rejection: Rejection, n: usize) -> usize
    ensures { (result ≡ climbs_before rejection n) × (result ≤ n) }
{
    if n <= rejection.carried {
        return n;
    }
    if rejection.number == Refusal::SameTx.number() {
        return rejection.carried;
    }
    rejection.carried + 1
}

// The same before a verdict.
fn climbs_made(verdict: Verdict, n: usize) -> usize
    ensures { (result ≡ climbs_made verdict n) × (result ≤ n) }
{
    match verdict {
        Ok(_) => n,
        Err(rejection) => climbs_before(rejection, n),
    }
}

// The work of judging n transactions to a verdict, after that of their ids.
pub(crate) fn work_made(
    verdict: Verdict,
    ids: u64,
    anchors: &[u64; Beef::MAX_TRANSACTIONS],
    ends: &[u64; ENDS_ROOM],
    n: usize,
) -> u64
    requires ids_bound { ids ≤ 67109376 }
    requires n_bound { n ≤ MAX_TXS }
    ensures { result ≡ ids + JOIN * sum_to (kept_joins anchors.now ends.now) (climbs_made verdict n) }
{
    let climbs = climbs_made(verdict, n);
    let joins = joins_made(anchors, ends, climbs);
    ids + 3 * joins
}
