// A list of a BUMP's leaves, and two BUMPs merged (leaflist/specs/LeafList.antt, merging/specs/Merging.antt).
ghost use Rattle.std.specs.Prelude.{◌≡◌, List, ℕ, length};
ghost use Rattle.format.specs.Parse.{ok};
ghost use Rattle.format.specs.Bump.{Bump, bump_whole};
ghost use Rattle.leaflist.specs.LeafList.{leaf_list, words_of, building, words_in, room_in, place_in};
ghost use Rattle.merging.specs.Merging.{merging, bytes_in, list_in};
ghost use Rattle.barrowtide.specs.Interface as I;
ghost use Rattle.barrowtide.specs.Leaves.{found_of, place_after, bytes_of, leaves_of};

use super::blame::{refuse, tell_count};
use merging::Merged;
use spv::Rejection;

#[unsafe(no_mangle)]
pub extern "C" fn barrowtide_list_leaves(
    input: &[u8],
    list: &mut [u64],
    blame: &mut [u64; 3],
    leaves: &mut u64,
) -> u32
    ensures { let v = building input.now (room_in list.old) in
        (result ≡ I.refusal v)
        × (list.new ≡ words_in v list.old)
        × (blame.new ≡ I.blame v blame.old)
        × (leaves.new ≡ I.taken length v leaves.old) }
{
    let answer = leaflist::build(input, list);
    tell_count(answer, blame, leaves)
}

fn tell_place(found: Option<usize>, place: &mut u64) -> u32
    ensures { (result ≡ found_of found) × (place.new ≡ place_after found place.old) }
{
    match found {
        Some(at) => {
            *place = at as u64;
            1
        }
        None => 0,
    }
}

#[unsafe(no_mangle)]
pub extern "C" fn barrowtide_search_leaves(
    list: &[u64],
    level: u64,
    offset: u64,
    place: &mut u64,
) -> u32
    ensures { (s : List ℕ) (b : Bump) (q : ℕ) → bump_whole s ≡ ok b q → list.now ≡ words_of (leaf_list s b) →
        (result ≡ found_of (place_in s b level offset)) × (place.new ≡ place_after (place_in s b level offset) place.old) }
{
    let found = leaflist::search(list, level, offset);
    tell_place(found, place)
}

// The number of an answer; what a refusal blames, or how many bytes and leaves there are, is written.
fn tell_merged(
    answer: Result<Merged, Rejection>,
    blame: &mut [u64; 3],
    written: &mut u64,
    leaves: &mut u64,
) -> u32
    ensures { (result ≡ I.number_told answer)
        × (blame.new ≡ I.blame_told answer blame.old)
        × (written.new ≡ I.told (λ m. m.bytes) answer written.old)
        × (leaves.new ≡ I.told (λ m. m.leaves) answer leaves.old) }
{
    match answer {
        Ok(merged) => {
            *written = merged.bytes as u64;
            *leaves = merged.leaves as u64;
            0
        }
        Err(rejection) => refuse(rejection, blame),
    }
}

#[unsafe(no_mangle)]
pub extern "C" fn barrowtide_merge(
    first: &[u8],
    second: &[u8],
    bytes: &mut [u8],
    list: &mut [u64],
    blame: &mut [u64; 3],
    written: &mut u64,
    leaves: &mut u64,
) -> u32
    ensures { let v = merging first.now second.now (length bytes.old) (room_in list.old) in
        (result ≡ I.refusal v)
        × (bytes.new ≡ bytes_in v bytes.old)
        × (list.new ≡ list_in v list.old)
        × (blame.new ≡ I.blame v blame.old)
        × (written.new ≡ I.taken bytes_of v written.old)
        × (leaves.new ≡ I.taken leaves_of v leaves.old) }
{
    let answer = merging::merge(first, second, bytes, list);
    tell_merged(answer, blame, written, leaves)
}
