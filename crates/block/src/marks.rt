// Which nodes the climbs of chosen positions pass (specs/Marks.antt). The node at position j of a level of `width` places has the index width + j.
ghost use Rattle.std.specs.Prelude.{◌≡◌, ℕ, ◌^◌, ◌<◌, ◌≤◌, length, get_or};
ghost use Rattle.block.specs.Marks.{marked, Marks, Marked};

// One for each node of a tree of up to 1,024 places.
pub(crate) const MARKS: usize = 2048;

pub(crate) fn is_marked(marks: &[u8; MARKS], index: usize) -> bool
    requires { index < 2048 }
    ensures { result ≡ marked marks.now index }
{
    marks[index] == 1
}

// The nodes that the climb from a position passes.
fn mark(marks: &mut [u8; MARKS], height: usize, top: usize, i: usize)
    requires { (height ≤ 10) × (top ≡ 2 ^ height) × (i < 2 ^ height) }
    ensures { Marks height i marks.old marks.new }
{
    let mut width = top;
    let mut j = i;
    for _ in 0..height {
        marks[width + j] = 1;
        width /= 2;
        j /= 2;
    }
}

pub(crate) fn marks_of(chosen: &[u64], height: usize, top: usize) -> [u8; MARKS]
    requires { (height ≤ 10) × (top ≡ 2 ^ height) × ((i : ℕ) → i < length chosen.now → get_or chosen.now i 0 < top) }
    ensures { Marked result chosen.now height }
{
    let mut marks = [0u8; MARKS];
    for position in chosen {
        mark(&mut marks, height, top, *position as usize);
    }
    marks
}
