// Judging a BEEF against a list of trusted roots (paper 01, "The bundle rule"; specs/Bundle.antt).
ghost use Rattle.std.specs.Prelude.{◌≡◌, Err, ℕ, ◌+◌, ◌*◌, ◌<◌, ◌≤◌, length, List, []};
ghost use Rattle.std.proofs.Math.Seq.{paste};
ghost use Rattle.format.specs.Refusals.{MAX_TXS, refusal_number};
ghost use Rattle.spv.specs.Result.{carrying, blaming};
ghost use Rattle.spv.specs.Hashes.{hashes_of, among};
ghost use Rattle.bundle.specs.Ahead.{IdsFrom};
ghost use Rattle.bundle.specs.Anchored.{EndsFrom, Mined};
ghost use Rattle.bundle.specs.Bundle.{judge_from, judge_beef};
ghost use Rattle.bundle.specs.BundleHeads.{numbers_of, rests_from, head_ruling, head_id, head_stands, head_row, heads_from, Written};
ghost use Rattle.format.specs.declared.bump.BumpHead.{BumpHead};
ghost use Rattle.bundle.specs.BundleAnswer.{judgement_of, reached_by};
ghost use Rattle.bundle.specs.Work.{judge_work};
ghost use Rattle.bundle.specs.Pass.{amounts_of, settled};
ghost use Rattle.bundle.specs.Table.{IDS_ROOM, NUMBERS_ROOM};

use super::anchored::{ENDS_ROOM, climb_bumps, end_at};
use super::ids::{anchor_number, write_ids};
use super::outputs::judge_amounts;
use super::parents::{ORDER_ROOM, in_order, is_among, place_among};
use super::pass::Checked;
use super::sums::outputs_total;
use super::work::work_made;
use format::{Beef, Cursor, EntryHead, Items, Refusal, TxHead};
use spv::{Rejection, reject_for, reject_reading};

// The room of the flat form: an id of 32 bytes and ten numbers for each of the most transactions that a bundle has.
pub(crate) const IDS_ROOM: usize = 8192;

pub(crate) const NUMBERS_ROOM: usize = 2560;

// What judging answers: the number of transactions, or a refusal.
pub type Verdict = Result<usize, Rejection>;

// A verdict, and the SHA-256 block compressions of judging by the definition.
#[derive(Clone, Copy)]
pub struct Judged {
    pub verdict: Verdict,
    pub work: u64,
}

// What the record of a transaction that passes says of its anchor: 1, the number of its BUMP and its position in the block, or 0, 0, 0.
#[derive(Clone, Copy)]
pub struct Standing {
    pub anchored: u64,
    pub bump: u64,
    pub position: u64,
}

// How a transaction stands after the earlier ones.
pub(crate) type Ruling = Result<Standing, Rejection>;

// The numbers of the i-th record, ten for each.
fn put_numbers(numbers: &mut [u64; NUMBERS_ROOM], i: usize, row: [u64; 10])
    requires i_bound { i < MAX_TXS }
    ensures { numbers.new ≡ paste numbers.old (10 * i) row 10 }
{
    let at = 10 * i;
    numbers[at..at + 10].copy_from_slice(&row);
}

// What the flat form says of a transaction that passes, but for its id: its record's numbers, then where its inputs and outputs are read again.
fn numbers_of(tx: TxHead, total: u64, standing: Standing) -> [u64; 10]
    ensures { result ≡ numbers_of tx total standing }
{
    [
        tx.start as u64,
        tx.end.saturating_sub(tx.start) as u64,
        standing.bump,
        standing.anchored,
        standing.position,
        tx.outputs.count,
        total,
        tx.inputs.count,
        tx.inputs.at.at as u64,
        tx.outputs.at.at as u64,
    ]
}

// Whether each input has its parent among the ids.
fn rests_on(s: &[u8], inputs: Items, ids: &[u8], order: &[u64; ORDER_ROOM]) -> bool
    ensures { result ≡ rests_from s.now (hashes_of ids.now) inputs.count inputs.at.at }
{
    let mut next = inputs.at;
    let mut parent: usize = 0;
    for _ in 0..inputs.count {
        let Ok((input, after)) = format::read_input(s, next) else {
            return false;
        };
        let x = format::hash_at(s, input.parent);
        parent = place_among(x, ids, order, parent);
        if ids.len() / 32 <= parent {
            return false;
        }
        next = after;
    }
    true
}

// A transaction after those with the ids, by what it came to in the BUMP that it names.
fn judge_entry(
    s: &[u8],
    mined: Ruling,
    ids: &[u8],
    order: &[u64; ORDER_ROOM],
    id: [u8; 32],
    e: EntryHead,
) -> Ruling
    ensures { (roots : List ℕ) (bumps : List BumpHead) → Mined s.now roots bumps id e.anchor mined → result ≡ head_ruling s.now roots bumps (hashes_of ids.now) id e }
{
    if is_among(id, ids) {
        return Err(reject_for(Refusal::SameTx));
    }
    match e.anchor {
        Some(n) => {
            if Beef::MAX_BUMPS as u64 <= n {
                return Err(reject_for(Refusal::BadIndex));
            }
            mined
        }
        None => {
            if !rests_on(s, e.transaction.inputs, ids, order) {
                return Err(reject_for(Refusal::NoParent));
            }
            Ok(Standing {
                anchored: 0,
                bump: 0,
                position: 0,
            })
        }
    }
}

fn refused(refusal: Refusal) -> Judged
    ensures { (result.verdict ≡ Err (carrying (refusal_number refusal) 0)) × (result.work ≡ 0) }
{
    Judged {
        verdict: Err(reject_for(refusal)),
        work: 0,
    }
}

// The refusal of the n-th transaction.
pub(crate) fn blame(rejection: Rejection, n: usize) -> Rejection
    ensures { result ≡ blaming n rejection }
{
    Rejection {
        carried: n,
        ..rejection
    }
}

// So many transactions, each read again at its place and judged up to 20, from the first. Their ids and what they came to in their BUMPs are there; the
// numbers of those that pass are written.
fn judge_entries(
    s: &[u8],
    count: u64,
    start: Cursor,
    n: usize,
    order: &[u64; ORDER_ROOM],
    ends: &[u64; ENDS_ROOM],
    ids: &[u8; IDS_ROOM],
    numbers: &mut [u64; NUMBERS_ROOM],
) -> Verdict
    requires n_bound { n ≤ MAX_TXS }
    requires ids_from { IdsFrom count s.now start.at n ids.now }
    requires at_len { length (heads_from count s.now n start.at) ≡ n }
    ensures { (roots : List ℕ) (bumps : List BumpHead)
        → EndsFrom count s.now roots bumps start.at n ends.now
        → (judgement_of result ids.now numbers.new ≡ judge_from (head_id s.now) (head_stands s.now roots bumps) (head_row s.now) [] (heads_from count s.now n start.at))
        × Written s.now ids.now numbers.new (heads_from count s.now n start.at) (reached_by result) }
{
    let mut next = start;
    for i in 0..n {
        let Ok((e, after)) = format::read_entry(s, next, count) else {
            // Each was read before: this is not reached.
            return Err(blame(reject_for(Refusal::Short), i));
        };
        let tx = e.transaction;
        let id = format::hash_at(ids, 32 * i);
        let mined = end_at(ends, anchor_number(e.anchor), i);
        match judge_entry(s, mined, &ids[..32 * i], order, id, e) {
            Ok(standing) => {
                let total = outputs_total(s, tx.outputs.count, tx.outputs.at);
                put_numbers(numbers, i, numbers_of(tx, total, standing));
                next = after;
            }
            Err(rejection) => return Err(blame(rejection, i)),
        }
    }
    Ok(n)
}

// How many transactions passed before a verdict on them.
fn reached(verdict: Verdict) -> usize
    ensures { result ≡ reached_by verdict }
{
    match verdict {
        Ok(n) => n,
        Err(rejection) => rejection.carried,
    }
}

// A refusal by 26, 27 or 28 comes before the verdict: it is asked only of transactions that passed before.
fn settle(verdict: Verdict, amounts: Checked) -> Verdict
    ensures { (ids numbers : List ℕ) → judgement_of result ids numbers ≡ settled (amounts_of amounts) (judgement_of verdict ids numbers) }
{
    amounts?;
    verdict
}

// The bundle rule, for the bytes of a BEEF, a list of trusted roots end to end, a fee that is asked of each transaction, and a table of so many rows.
// What the records say is written in a flat form with room for 256: their ids end to end, and ten numbers for each.
pub(crate) fn judge_flat(
    s: &[u8],
    roots: &[u8],
    fee: u64,
    room: usize,
    ids: &mut [u8; IDS_ROOM],
    numbers: &mut [u64; NUMBERS_ROOM],
) -> Judged
    ensures { (judgement_of result.verdict ids.new numbers.new ≡ judge_beef s.now roots.now fee room)
        × (result.work ≡ judge_work s.now roots.now fee room) }
{
    if hash::MAX_INPUT < s.len() {
        return refused(Refusal::TooLong);
    }
    if roots.len() % 32 != 0 {
        return refused(Refusal::BadRoots);
    }
    match format::read_bundle(s, room) {
        Err(refusal) => Judged {
            verdict: Err(reject_reading(refusal)),
            work: 0,
        },
        Ok((bundle, _)) => {
            let bumps = bundle.bumps;
            let count = bundle.head.bumps;
            let start = bundle.head.entries;
            let n = bundle.head.transactions;
            let mut anchors = [0u64; Beef::MAX_TRANSACTIONS];
            let made = write_ids(s, count as u64, start, n, ids, &mut anchors);
            let mut ends = [0u64; ENDS_ROOM];
            climb_bumps(s, roots, bumps, count, n, &anchors, ids, &mut ends);
            let order = in_order(ids, n);
            let verdict = judge_entries(s, count as u64, start, n, &order, &ends, ids, numbers);
            let amounts = judge_amounts(s, ids, &order, numbers, reached(verdict), fee);
            let verdict = settle(verdict, amounts);
            let work = work_made(verdict, made, &anchors, &ends, n);
            Judged { verdict, work }
        }
    }
}
