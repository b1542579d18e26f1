// The transactions that name one BUMP climb in it together, before any is judged (specs/Anchored.antt). What each comes to is kept in four numbers: the number of its
// refusal, the layer and the sibling, or 0, 0 and its position; then the joins of its climb.
ghost use Rattle.std.specs.Prelude.{◌≡◌, false, ℕ, ◌*◌, ◌<◌, ◌≤◌, length, get_or};
ghost use Rattle.format.specs.Refusals.{MAX_TXS, MAX_BUMPS};
ghost use Rattle.path.specs.Path.{bump_path_of};
ghost use Rattle.spv.specs.Result as spv;
ghost use Rattle.spv.specs.Prove.{Proof};
ghost use Rattle.spv.specs.Shapes.{proved_of};
ghost use Rattle.bundle.specs.Bundle.{trusted};
ghost use Rattle.bundle.specs.Anchored.{ruling_at, put_four, put_end, Unnamed, Gathered, Right, HoldIds, Settled, SettlesRows, Risen};

use super::judge::{IDS_ROOM, Ruling, Standing};
use super::parents::is_among;
use format::{Beef, BumpHead, Refusal};
use spv::{Proved, Rejection, reject_for};

// Room for what the most transactions that a bundle has come to.
pub(crate) const ENDS_ROOM: usize = 1024;

// The four numbers of the i-th transaction.
fn put_four(ends: &mut [u64; ENDS_ROOM], i: usize, number: u64, layer: u64, place: u64, joins: u64)
    requires i_bound { i < MAX_TXS }
    ensures { ends.new ≡ put_four ends.old i number layer place joins }
{
    let at = 4 * i;
    ends[at] = number;
    ends[at + 1] = layer;
    ends[at + 2] = place;
    ends[at + 3] = joins;
}

// What the i-th transaction comes to by its BUMP is kept, and the joins of its climb.
fn put_end(ends: &mut [u64; ENDS_ROOM], i: usize, ruling: Ruling, joins: u64)
    requires i_bound { i < MAX_TXS }
    ensures { ends.new ≡ put_end ends.old i ruling joins }
{
    match ruling {
        Err(rejection) => {
            put_four(
                ends,
                i,
                rejection.number as u64,
                rejection.layer as u64,
                rejection.sibling,
                joins,
            );
        }
        Ok(standing) => {
            put_four(ends, i, 0, 0, standing.position, joins);
        }
    }
}

// What the i-th transaction came to by the BUMP that it names.
pub(crate) fn end_at(ends: &[u64; ENDS_ROOM], bump: u64, i: usize) -> Ruling
    requires i_bound { i < MAX_TXS }
    ensures { result ≡ ruling_at ends.now bump i }
{
    let at = 4 * i;
    let number = (ends[at] % 256) as u8;
    if number == 0 {
        return Ok(Standing {
            anchored: 1,
            bump,
            position: ends[at + 2],
        });
    }
    Err(Rejection {
        number,
        carried: 0,
        layer: ends[at + 1] as usize,
        sibling: ends[at + 2],
    })
}

// An anchored transaction, by what proving it answers: its root must be one of the list.
fn trust(roots: &[u8], bump: u64, proved: Result<Proved, Rejection>) -> Ruling
    ensures { (v : spv.Result Proof) → proved ≡ proved_of v → result ≡ trusted roots.now bump v }
{
    let proved = proved?;
    if !is_among(proved.root, roots) {
        return Err(reject_for(Refusal::Untrusted));
    }
    Ok(Standing {
        anchored: 1,
        bump,
        position: proved.position,
    })
}

// Whether one of n transactions names a BUMP.
fn is_named(anchors: &[u64; Beef::MAX_TRANSACTIONS], n: usize, bump: u64) -> bool
    requires { n ≤ MAX_TXS }
    ensures { result ≡ false → Unnamed anchors.now bump n }
{
    anchors[..n].contains(&bump)
}

// The transactions that name a BUMP, in order, each with its id.
fn gather(
    anchors: &[u64; Beef::MAX_TRANSACTIONS],
    n: usize,
    bump: u64,
    ids: &[u8],
    slots: &mut [u8; Beef::MAX_TRANSACTIONS],
    hashes: &mut [u8; IDS_ROOM],
) -> usize
    requires n_bound { n ≤ MAX_TXS }
    ensures { Gathered anchors.now ids.now bump n slots.new hashes.new result }
{
    let mut count = 0;
    for i in 0..n {
        if anchors[i] != bump {
            continue;
        }
        slots[count] = i as u8;
        let id = format::hash_at(ids, 32 * i);
        format::set_hash(hashes, count, id);
        count += 1;
    }
    count
}

// What the rows say of the transactions in their slots is kept.
fn settle_rows(
    roots: &[u8],
    layers: usize,
    bump: u64,
    ids: &[u8],
    slots: &[u8; Beef::MAX_TRANSACTIONS],
    starts: &[u64],
    states: &[u16; Beef::MAX_TRANSACTIONS],
    hashes: &[u8; IDS_ROOM],
    costs: &[u64; Beef::MAX_TRANSACTIONS],
    ends: &mut [u64; ENDS_ROOM],
)
    requires starts_len_bound { length starts.now ≤ MAX_TXS }
    ensures { SettlesRows roots.now layers bump ids.now slots.now starts.now states.now hashes.now costs.now ends.old ends.new (length starts.now) }
{
    for r in 0..starts.len() {
        let i = slots[r] as usize;
        let id = format::hash_at(ids, 32 * i);
        let proved = climbs::proved_at(layers, id, starts, states, hashes, r);
        let ruling = trust(roots, bump, proved);
        put_end(ends, i, ruling, costs[r]);
    }
}

// The transactions in the slots climb, by a BUMP and its number; the rows hold their ids.
fn climb_rows(
    s: &[u8],
    roots: &[u8],
    head: BumpHead,
    bump: u64,
    ids: &[u8],
    slots: &[u8; Beef::MAX_TRANSACTIONS],
    starts: &mut [u64],
    states: &mut [u16; Beef::MAX_TRANSACTIONS],
    hashes: &mut [u8; IDS_ROOM],
    costs: &mut [u64; Beef::MAX_TRANSACTIONS],
    ends: &mut [u64; ENDS_ROOM],
)
    requires starts_len_bound { length starts.old ≤ MAX_TXS }
    requires hold_ids { HoldIds ids.now slots.now hashes.old (length starts.old) }
    ensures { Settled s.now roots.now (bump_path_of s.now head) bump ids.now slots.now ends.old ends.new (length starts.old) }
{
    let path = path::bump_path(s, head);
    climbs::prove_all(s, path, starts, states, hashes, costs);
    settle_rows(
        roots,
        path.layers,
        bump,
        ids,
        slots,
        starts,
        states,
        hashes,
        costs,
        ends,
    );
}

// The transactions that name a BUMP together, in rows that are lent.
fn climb_named(
    s: &[u8],
    roots: &[u8],
    head: BumpHead,
    bump: u64,
    n: usize,
    anchors: &[u64; Beef::MAX_TRANSACTIONS],
    ids: &[u8],
    slots: &mut [u8; Beef::MAX_TRANSACTIONS],
    starts: &mut [u64; Beef::MAX_TRANSACTIONS],
    states: &mut [u16; Beef::MAX_TRANSACTIONS],
    hashes: &mut [u8; IDS_ROOM],
    costs: &mut [u64; Beef::MAX_TRANSACTIONS],
    ends: &mut [u64; ENDS_ROOM],
)
    requires n_bound { n ≤ MAX_TXS }
    ensures { Risen s.now roots.now head bump n anchors.now ids.now ends.old ends.new }
{
    let count = gather(anchors, n, bump, ids, slots, hashes);
    climb_rows(
        s,
        roots,
        head,
        bump,
        ids,
        slots,
        &mut starts[..count],
        states,
        hashes,
        costs,
        ends,
    );
}

// The same, with room for the rows of all transactions that a bundle can have.
fn climb_together(
    s: &[u8],
    roots: &[u8],
    head: BumpHead,
    bump: u64,
    n: usize,
    anchors: &[u64; Beef::MAX_TRANSACTIONS],
    ids: &[u8],
    ends: &mut [u64; ENDS_ROOM],
)
    requires n_bound { n ≤ MAX_TXS }
    ensures { Risen s.now roots.now head bump n anchors.now ids.now ends.old ends.new }
{
    let mut slots = [0u8; Beef::MAX_TRANSACTIONS];
    let mut starts = [0u64; Beef::MAX_TRANSACTIONS];
    let mut states = [0u16; Beef::MAX_TRANSACTIONS];
    let mut hashes = [0u8; IDS_ROOM];
    let mut costs = [0u64; Beef::MAX_TRANSACTIONS];
    climb_named(
        s,
        roots,
        head,
        bump,
        n,
        anchors,
        ids,
        &mut slots,
        &mut starts,
        &mut states,
        &mut hashes,
        &mut costs,
        ends,
    );
}

// The same, if any names it.
fn climb_bump(
    s: &[u8],
    roots: &[u8],
    head: BumpHead,
    bump: u64,
    n: usize,
    anchors: &[u64; Beef::MAX_TRANSACTIONS],
    ids: &[u8],
    ends: &mut [u64; ENDS_ROOM],
)
    requires n_bound { n ≤ MAX_TXS }
    ensures { Risen s.now roots.now head bump n anchors.now ids.now ends.old ends.new }
{
    if !is_named(anchors, n, bump) {
        return;
    }
    climb_together(s, roots, head, bump, n, anchors, ids, ends);
}

// What the transactions that name BUMPs come to by these, BUMP by BUMP. The last one has a call of its own: a function that is called once becomes part
// of its caller's frame, and the rows' room should not stay there.
pub(crate) fn climb_bumps(
    s: &[u8],
    roots: &[u8],
    bumps: [BumpHead; Beef::MAX_BUMPS],
    count: usize,
    n: usize,
    anchors: &[u64; Beef::MAX_TRANSACTIONS],
    ids: &[u8],
    ends: &mut [u64; ENDS_ROOM],
)
    requires count_bound { count ≤ MAX_BUMPS }
    requires n_bound { n ≤ MAX_TXS }
    ensures { (i : ℕ) → i < n → get_or anchors.now i 0 < count → Right s.now roots.now bumps anchors.now ids.now ends.new i }
{
    if count == 0 {
        return;
    }
    let last = count - 1;
    for b in 0..last {
        climb_bump(s, roots, bumps[b], b as u64, n, anchors, ids, ends);
    }
    climb_bump(s, roots, bumps[last], last as u64, n, anchors, ids, ends);
}
