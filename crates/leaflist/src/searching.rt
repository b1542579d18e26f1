// The search over a list of leaves, which is lent alone (specs/LeafList.antt).
ghost use Rattle.std.specs.Prelude.{◌≡◌, List, ℕ};
ghost use Rattle.format.specs.Parse.{ok};
ghost use Rattle.format.specs.Bump.{Bump, bump_whole};
ghost use Rattle.leaflist.specs.LeafList.{leaf_list, words_of, place_in};
ghost use Rattle.leaflist.specs.Rows.{side_of};

use std::cmp::Ordering;

// Where a row of level k and offset o stands to what is looked for. Test by test: with a comparison of pairs the search takes a quarter longer or more.
fn compare(k: u64, o: u64, level: u64, offset: u64) -> Ordering
    ensures { result ≡ side_of k o level offset }
{
    if k < level {
        return Ordering::Less;
    }
    if level < k {
        return Ordering::Greater;
    }
    if o < offset {
        return Ordering::Less;
    }
    if offset < o {
        return Ordering::Greater;
    }
    Ordering::Equal
}

// The place of the leaf at a level and offset. If the list is not that of a BUMP, the answer is free.
pub fn search(list: &[u64], level: u64, offset: u64) -> Option<usize>
    ensures { (s : List ℕ) (b : Bump) (q : ℕ) → bump_whole s ≡ ok b q → list.now ≡ words_of (leaf_list s b) → result ≡ place_in s b level offset }
{
    let mut low: usize = 0;
    let mut high: usize = list.len() / 3;
    // Not the library's binary search: a row is three numbers of the list.
    // A while: the two ends draw together.
    while low < high {
        let middle = low + (high - low) / 2;
        match compare(list[middle * 3], list[middle * 3 + 1], level, offset) {
            Ordering::Less => low = middle + 1,
            Ordering::Greater => high = middle,
            Ordering::Equal => return Some(list[middle * 3 + 2] as usize),
        }
    }
    None
}
