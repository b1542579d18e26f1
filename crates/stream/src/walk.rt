// A part, byte by byte, and by leaps where no byte is a number's (specs/Progress.antt).
ghost use Rattle.std.specs.Prelude.{◌≡◌, true, ◌+◌, ◌-◌, ◌≤◌, ◌<◌, length, IfSome};
ghost use Rattle.stream.specs.Parts.{MAX_PARTS};
ghost use Rattle.stream.specs.Progress as P;
ghost use Rattle.stream.specs.Progress.{Leaps, Sized, Outputs, Skips};

use super::digits::taken;
use super::progress::{MAX_PARTS, Progress, Stage, Step, is_amount, is_end, is_number};

// How many bytes are taken at once, of so many that are there.
fn chunk(f: Progress, room: u64) -> u64
    requires { 1 ≤ room }
    ensures { (1 ≤ result) × (result ≤ room) × (result ≤ MAX_PARTS) × Leaps MAX_PARTS f result }
{
    if MAX_PARTS <= f.at || is_end(f.stage) || is_number(f.stage) || f.need <= 1 {
        return 1;
    }
    f.need.min(MAX_PARTS - f.at).min(room)
}

// Whether an output starts here, with nothing of it yet.
fn at_start(f: Progress) -> bool
    ensures { result ≡ true → (f ≡ P.at_output f f.left f.at) × (f.at ≤ MAX_PARTS) }
{
    is_amount(f.stage)
        && f.need == 8
        && f.start == f.at
        && f.width == 0
        && f.value == 0
        && f.at <= MAX_PARTS
}

// The start of an output, with so many left and after so many bytes.
fn at_output(f: Progress, left: u64, at: u64) -> Progress
    ensures { result ≡ P.at_output f left at }
{
    Progress {
        stage: Stage::Amount,
        start: at,
        need: 8,
        width: 0,
        value: 0,
        left,
        at,
        ..f
    }
}

// The bytes of the output at a place, if it ends before another and its length is one byte.
fn output_size(part: &[u8], place: usize, end: usize) -> Option<usize>
    requires place_le_end { place ≤ end }
    requires end_in_bounds { end ≤ length part.now }
    ensures { IfSome result (λ size. Sized part.now place end size) }
{
    if end - place < 9 {
        return None;
    }
    let length = usize::from(part[place + 8]);
    if 253 <= length || end - place < 9 + length {
        return None;
    }
    Some(9 + length)
}

// What is passed of a list of outputs: up to a place, with so many left.
#[derive(Clone, Copy)]
struct Skipped {
    place: usize,
    left: u64,
}

// The outputs that lie whole between two places, but for the last of the list, at once: nothing of their fields has to be kept.
fn whole_outputs(part: &[u8], from: usize, end: usize, count: u64) -> Skipped
    requires from_le_end { from ≤ end }
    requires end_in_bounds { end ≤ length part.now }
    ensures { (from ≤ result.place) × (result.place ≤ end) × Outputs MAX_PARTS part.now end from count result.place result.left }
{
    let mut place = from;
    let mut left = count;
    // Not a for: how many are left where it stops is answered.
    while 1 < left {
        let Some(size) = output_size(part, place, end) else {
            break;
        };
        place += size;
        left -= 1;
    }
    Skipped { place, left }
}

// Whole outputs of a part from a place on, if one starts there.
fn pass_outputs(f: Progress, part: &[u8], i: usize) -> Skipped
    requires { i ≤ length part.now }
    ensures { (result.place ≤ length part.now) × (i < result.place → Skips MAX_PARTS f part.now i result.place result.left) }
{
    if !at_start(f) {
        return Skipped {
            place: i,
            left: f.left,
        };
    }
    let room = ((part.len() - i) as u64).min(MAX_PARTS - f.at);
    whole_outputs(part, i, i + room as usize, f.left)
}

// The bytes of a part one after the other.
pub(crate) fn walk(f: Progress, part: &[u8]) -> Step
    ensures { result ≡ P.run MAX_PARTS (Ok f) part.now }
{
    let mut field = f;
    let mut i: usize = 0;
    // Not a for: a step takes one byte or a run of them.
    while i < part.len() {
        let passed = pass_outputs(field, part, i);
        if i < passed.place {
            field = at_output(field, passed.left, field.at + (passed.place - i) as u64);
            i = passed.place;
            continue;
        }
        let k = chunk(field, (part.len() - i) as u64);
        field = taken(field, u64::from(part[i]), k)?;
        i += k as usize;
    }
    Ok(field)
}
