// A page of ids against one BUMP (specs/Page.antt): the answers that asking for each id alone would give, from one reading (paper 02, Item 2).
#![tactic(auto)]

ghost use Rattle.std.specs.Prelude.{◌≡◌, length, ◌+◌, ◌/◌, ◌≤◌, ◌<◌};
ghost use Rattle.spv.specs.Rows.{rows};
ghost use Rattle.format.specs.Bump.{bump_whole};
ghost use Rattle.page.specs.Page.{MAX_PAGE, blank_answer, answer_of, bump_for, page, paged_of, row_of};
ghost use Rattle.page.specs.Opening.{opening_of, count_of};
ghost use Rattle.page.specs.Flat.{flat_answer, Copied, Noted, Levelled, AllRight};

use format::Refusal;
use path::Path;
use spv::{Proved, Rejection, reject_for};

// The most ids that a page has.
pub const MAX_PAGE: usize = 256;

// The room of the flat form: a root, a start and a state for each id, and the layers of all.
const ROOTS_ROOM: usize = 8192;

const NUMBERS_ROOM: usize = 513;

// What asking for one id answers: the number of its refusal, what that carries and the layer and sibling that it names, or the id's position, the number
// of layers and the root. What is not said is zero. Any bytes are a value of each field, so that a caller may lend any memory, and no byte lies between the fields.
#[repr(C)]
#[derive(Clone, Copy)]
pub struct Answer {
    pub refusal: u64,
    pub carried: u64,
    pub layer: u64,
    pub sibling: u64,
    pub position: u64,
    pub layers: u64,
    pub root: [u8; 32],
}

// The answer for no id.
fn blank() -> Answer
    ensures { result ≡ blank_answer }
{
    Answer {
        refusal: 0,
        carried: 0,
        layer: 0,
        sibling: 0,
        position: 0,
        layers: 0,
        root: [0u8; 32],
    }
}

// What proving an id found, as a row has it.
fn answer_of(proved: Result<Proved, Rejection>) -> Answer
    ensures { result ≡ answer_of proved }
{
    match proved {
        Ok(found) => {
            let root = found.root;
            Answer {
                refusal: 0,
                carried: 0,
                layer: 0,
                sibling: 0,
                position: found.position,
                layers: found.layers as u64,
                root,
            }
        }
        Err(rejection) => Answer {
            refusal: rejection.number as u64,
            carried: rejection.carried as u64,
            layer: rejection.layer as u64,
            sibling: rejection.sibling,
            position: 0,
            layers: 0,
            root: [0u8; 32],
        },
    }
}

// The levels of the BUMP, read once for all ids.
fn read_page(s: &[u8]) -> Result<Path, Rejection>
    ensures { result ≡ opening_of s.now (bump_whole s.now) }
{
    let (head, _) = format::read_bump(s)?;
    Ok(path::bump_path(s, head))
}

// A page as it is asked for: ids end to end, and a row of so many answers.
fn open_page(s: &[u8], ids: &[u8], room: usize) -> Result<Path, Rejection>
    ensures { result ≡ opening_of s.now (bump_for s.now ids.now room) }
{
    let count = ids.len() / 32;
    if ids.len() % 32 != 0 {
        return Err(reject_for(Refusal::OverLimit));
    }
    if MAX_PAGE < count {
        return Err(reject_for(Refusal::OverLimit));
    }
    if room < count {
        return Err(reject_for(Refusal::NoRoom));
    }
    read_page(s)
}

// The ids, where their roots are going to be.
fn copy_ids(ids: &[u8], roots: &mut [u8; ROOTS_ROOM])
    requires { length ids.now / 32 ≤ MAX_PAGE }
    ensures { Copied ids.now (length ids.now / 32) roots.new }
{
    for row in 0..ids.len() / 32 {
        format::set_hash(roots, row, format::hash_at(ids, 32 * row));
    }
}

// The states of the rows that were proved, and the layers, behind their starts.
fn note_rows(
    states: &[u16; MAX_PAGE],
    layers: usize,
    count: usize,
    numbers: &mut [u64; NUMBERS_ROOM],
)
    requires { count ≤ MAX_PAGE }
    ensures { Noted states.now layers count numbers.old numbers.new }
{
    numbers[2 * MAX_PAGE] = layers as u64;
    for row in 0..count {
        numbers[MAX_PAGE + row] = u64::from(states[row]);
    }
}

// All ids' answers in flat form, by climbs that are made together.
fn answer_all(
    s: &[u8],
    ids: &[u8],
    path: Path,
    numbers: &mut [u64; NUMBERS_ROOM],
    roots: &mut [u8; ROOTS_ROOM],
)
    requires few { length ids.now / 32 ≤ MAX_PAGE }
    requires levelled { Levelled path }
    ensures { AllRight s.now ids.now path (length ids.now / 32) roots.new numbers.new }
{
    copy_ids(ids, roots);
    let count = ids.len() / 32;
    let mut states = [0u16; MAX_PAGE];
    let mut uncounted = [0u64; 0];
    climbs::prove_all(
        s,
        path,
        &mut numbers[..count],
        &mut states,
        roots,
        &mut uncounted,
    );
    note_rows(&states, path.layers, count, numbers);
}

// A page as it is asked for, with its answers in flat form.
fn answer_flat(
    s: &[u8],
    ids: &[u8],
    room: usize,
    roots: &mut [u8; ROOTS_ROOM],
    numbers: &mut [u64; NUMBERS_ROOM],
) -> Result<usize, Rejection>
    ensures { (result ≡ paged_of (page s.now ids.now room))
        × (rows (flat_answer roots.new numbers.new (count_of result)) room ≡ row_of (page s.now ids.now room) room) }
{
    let path = open_page(s, ids, room)?;
    answer_all(s, ids, path, numbers, roots);
    Ok(ids.len() / 32)
}

// The answer for a row, by the flat form of so many.
fn flat_answer(
    roots: &[u8; ROOTS_ROOM],
    numbers: &[u64; NUMBERS_ROOM],
    count: usize,
    row: usize,
) -> Answer
    ensures { result ≡ flat_answer roots.now numbers.now count row }
{
    if count <= row {
        return blank();
    }
    if MAX_PAGE <= row {
        return blank();
    }
    let state = numbers[MAX_PAGE + row] % 65536;
    let starts = [numbers[row]; 1];
    let states = [state as u16; 1];
    let layers = numbers[2 * MAX_PAGE] as usize;
    let root = format::hash_at(roots, 32 * row);
    let proved = climbs::proved_at(layers, [0u8; 32], &starts, &states, &root, 0);
    answer_of(proved)
}

// The row gets the answers, and past them it is blank.
fn fill(row: &mut [Answer], roots: &[u8; ROOTS_ROOM], numbers: &[u64; NUMBERS_ROOM], count: usize)
    ensures { row.new ≡ rows (flat_answer roots.now numbers.now count) (length row.old) }
{
    for i in 0..row.len() {
        row[i] = flat_answer(roots, numbers, count, i);
    }
}

// Prove a page of lent ids, end to end, by a BUMP: for how many ids there are answers. The row gets an answer for each id, past the ids it is zero, and on a refusal it is zero throughout.
pub fn prove_page(s: &[u8], ids: &[u8], row: &mut [Answer]) -> Result<usize, Rejection>
    ensures { (result ≡ paged_of (page s.now ids.now (length row.old))) × (row.new ≡ row_of (page s.now ids.now (length row.old)) (length row.old)) }
{
    let mut roots = [0u8; ROOTS_ROOM];
    let mut numbers = [0u64; NUMBERS_ROOM];
    let paged = answer_flat(s, ids, row.len(), &mut roots, &mut numbers);
    fill(row, &roots, &numbers, paged.unwrap_or(0));
    paged
}
