// Searching among the ids of a set, which stand end to end (specs/Ids.antt). The first eight bytes of each are kept as a number beside them: nearly every id that is not
// the one looked for is told by one comparison.
ghost use Rattle.std.specs.Prelude.{◌≡◌, [], ◌+◌, ◌*◌, ◌<◌, ◌≤◌, length, replicate};
ghost use Rattle.format.specs.Bytes.{same, hash_at};
ghost use Rattle.spv.specs.Hashes.{hashes, index_of};
ghost use Rattle.order.specs.Set.{new_from};
ghost use Rattle.order.specs.Ids.{key_of, Keys};
ghost use Rattle.order.specs.Code.{found};

use super::ROOM;

// The most transactions of a set.
pub(crate) const MOST: usize = 256;

// An id's first eight bytes as a number.
fn key_of(x: [u8; 32]) -> u64
    ensures { result ≡ key_of x }
{
    u64::from_le_bytes([x[0], x[1], x[2], x[3], x[4], x[5], x[6], x[7]])
}

fn no_keys() -> [u64; MOST]
    ensures { result ≡ replicate 256 0 }
{
    [0; MOST]
}

// The keys of n ids.
pub(crate) fn keys_of(ids: &[u8; ROOM], n: usize) -> [u64; MOST]
    requires { n ≤ 256 }
    ensures { Keys ids.now result n }
{
    let mut keys = no_keys();
    for k in 0..n {
        keys[k] = key_of(format::hash_at(ids, 32 * k));
    }
    keys
}

// Whether the i-th id is x, by the keys of both.
fn is_id(ids: &[u8; ROOM], i: usize, own: u64, x: [u8; 32], key: u64) -> bool
    requires i_bound { i < 256 }
    requires own_value { own ≡ key_of (hash_at ids.now (32 * i)) }
    requires key_value { key ≡ key_of x }
    ensures { result ≡ same (hash_at ids.now (32 * i)) x }
{
    if own != key {
        return false;
    }
    format::same_bytes(format::hash_at(ids, 32 * i), x)
}

// The number of the first of n ids that is x.
pub(crate) fn find(x: [u8; 32], ids: &[u8; ROOM], keys: &[u64; MOST], n: usize) -> Option<usize>
    requires n_bound { n ≤ 256 }
    requires keys { Keys ids.now keys.now n }
    ensures { result ≡ found n (index_of x (hashes n ids.now)) }
{
    let key = key_of(x);
    for i in 0..n {
        if is_id(ids, i, keys[i], x, key) {
            return Some(i);
        }
    }
    None
}

// Whether no id is equal to an earlier one.
pub(crate) fn all_new(ids: &[u8; ROOM], n: usize) -> bool
    requires { n ≤ 256 }
    ensures { result ≡ new_from [] (hashes n ids.now) }
{
    let keys = keys_of(ids, n);
    for i in 0..n {
        if find(format::hash_at(ids, 32 * i), ids, &keys, i).is_some() {
            return false;
        }
    }
    true
}
