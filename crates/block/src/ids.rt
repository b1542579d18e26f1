// What is asked of a list of ids and of chosen positions before a tree is made of them (specs/Ids.antt).
ghost use Rattle.std.specs.Prelude.{◌≡◌, false, ◌+◌, ◌/◌, ◌<◌, ◌≤◌, length};
ghost use Rattle.spv.specs.Hashes.{hashes_of, searching};
ghost use Rattle.block.specs.BlockBump.{all_below, distinct};
ghost use Rattle.block.specs.Ids.{id_at, slot_at};

pub(crate) fn all_below(n: u64, chosen: &[u64]) -> bool
    ensures { result ≡ all_below n chosen.now }
{
    chosen.iter().all(|position| *position < n)
}

// A number below 16,384 that equal ids have in common.
fn slot(ids: &[u8], at: usize) -> usize
    requires { at + 32 ≤ length ids.now }
    ensures { (result ≡ slot_at ids.now at) × (result < 16384) }
{
    (usize::from(ids[at])
        + 256 * usize::from(ids[at + 1])
        + 256 * usize::from(ids[at + 30])
        + usize::from(ids[at + 31]))
        % 16384
}

// Whether the id is among those of the list from a position on.
fn among_from(ids: &[u8], id: [u8; 32], from: usize) -> bool
    ensures { result ≡ searching id ids.now from }
{
    for i in from..ids.len() / 32 {
        if format::same_bytes(format::hash_at(ids, 32 * i), id) {
            return true;
        }
    }
    false
}

// Whether the id at a position stands at a later one too. Where its slot is not taken, none of those has it.
fn repeated(ids: &[u8], taken: u8, i: usize) -> bool
    requires { i < length ids.now / 32 }
    ensures { (taken ≡ 0 → searching (id_at ids.now i) ids.now (i + 1) ≡ false) → result ≡ searching (id_at ids.now i) ids.now (i + 1) }
{
    if taken == 0 {
        return false;
    }
    among_from(ids, format::hash_at(ids, 32 * i), i + 1)
}

// Whether the ids are all different, from the last to the first.
pub(crate) fn all_differ(ids: &[u8]) -> bool
    ensures { result ≡ distinct (hashes_of ids.now) }
{
    let mut taken = [0u8; 16384];
    for i in (0..ids.len() / 32).rev() {
        let s = slot(ids, 32 * i);
        if repeated(ids, taken[s], i) {
            return false;
        }
        taken[s] = 1;
    }
    true
}
