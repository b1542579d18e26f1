// Two BUMPs side by side (difference/specs/Listing.antt, Shorter.antt).
ghost use Rattle.std.specs.Prelude.{◌≡◌, length};
ghost use Rattle.difference.specs.Listing.{list_differences, words_in, room_in};
ghost use Rattle.difference.specs.Shorter.{shorter, handed};
ghost use Rattle.barrowtide.specs.Interface as I;
ghost use Rattle.barrowtide.specs.Choices.{which_of, which_by};

use super::blame::tell_count;

#[unsafe(no_mangle)]
pub extern "C" fn barrowtide_differences(
    first: &[u8],
    second: &[u8],
    list: &mut [u64],
    blame: &mut [u64; 3],
    entries: &mut u64,
) -> u32
    ensures { let v = list_differences first.now second.now (room_in list.old) in
        (result ≡ I.refusal v)
        × (list.new ≡ words_in v list.old)
        × (blame.new ≡ I.blame v blame.old)
        × (entries.new ≡ I.taken length v entries.old) }
{
    let answer = difference::list_differences(first, second, list);
    tell_count(answer, blame, entries)
}

// Which of two is handed back, by the part's length and the first one's: a refusal hands back nothing, and the second is handed back where it is shorter.
fn which(part: usize, first: usize) -> u64
    ensures { result ≡ which_by part first }
{
    if part == 0 {
        return 0;
    }
    if part == first {
        return 0;
    }
    1
}

#[unsafe(no_mangle)]
pub extern "C" fn barrowtide_shorter<'a>(
    first: &'a [u8],
    second: &'a [u8],
    id: &[u8; 32],
    blame: &mut [u64; 3],
    chosen: &mut u64,
    part: &mut u64,
) -> u32
    ensures { let v = shorter first.now second.now id.now in
        (result ≡ I.refusal v)
        × (blame.new ≡ I.blame v blame.old)
        × (chosen.new ≡ which_of v)
        × (part.new ≡ length (handed v first.entry second.entry).1) }
{
    let mut why = [0u64; 4];
    let handed = difference::shorter_proof(first, second, *id, &mut why);
    let size = handed.len();
    *chosen = which(size, first.len());
    *part = size as u64;
    if size != 0 {
        return 0;
    }
    *blame = [why[1], why[2], why[3]];
    why[0] as u32
}
