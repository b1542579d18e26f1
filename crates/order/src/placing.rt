// The checker, and our own order, over a matrix of parents (specs/Order.antt).
ghost use Rattle.std.specs.Prelude.{IfSome, ◌≡◌, ◌||◌, not, ◌<◌, ◌≤◌, eqb, length, replicate};
ghost use Rattle.std.specs.Option.{is_some};
ghost use Rattle.order.specs.Order.{check, ours};
ghost use Rattle.order.specs.Set.{proposed, row_after};
ghost use Rattle.order.specs.Code.{depends_in, TellsRests, TellsReady, TellsFirst};

use super::ROOM;
use super::ids::MOST;
use super::parents::is_parent;

// A parent, where there is one, is placed.
fn held(parent: bool, mark: u8) -> bool
    ensures { result ≡ (not parent || eqb mark 1) }
{
    !parent || mark == 1
}

fn rests(matrix: &[u8; ROOM], marks: &[u8; MOST], n: usize, i: usize) -> bool
    requires { (n ≤ 256) × (i < 256) }
    ensures { TellsRests matrix.now marks.now n i result }
{
    for j in 0..n {
        if !held(is_parent(matrix, i, j), marks[j]) {
            return false;
        }
    }
    true
}

fn is_ready(matrix: &[u8; ROOM], marks: &[u8; MOST], n: usize, i: usize) -> bool
    requires { n ≤ 256 }
    ensures { TellsReady matrix.now marks.now n i result }
{
    if i >= n {
        return false;
    }
    if marks[i] == 1 {
        return false;
    }
    rests(matrix, marks, n, i)
}

// A large array is made in a function of its own: at a call its list stays shut.
fn no_marks() -> [u8; MOST]
    ensures { result ≡ replicate 256 0 }
{
    [0; MOST]
}

// The checker.
pub(crate) fn check_order(matrix: &[u8; ROOM], n: usize, order: &[u64]) -> bool
    requires { n ≤ 256 }
    ensures { result ≡ check n (depends_in matrix.now) order.now }
{
    let mut marks = no_marks();
    for number in order {
        let i = *number as usize;
        if !is_ready(matrix, &marks, n, i) {
            return false;
        }
        marks[i] = 1;
    }
    order.len() == n
}

// The first that is ready.
fn first_ready(matrix: &[u8; ROOM], marks: &[u8; MOST], n: usize) -> Option<usize>
    requires { n ≤ 256 }
    ensures { TellsFirst matrix.now marks.now n result × IfSome result (λ i. i < n) }
{
    for i in 0..n {
        if is_ready(matrix, marks, n, i) {
            return Some(i);
        }
    }
    None
}

// A row of zeros.
pub(crate) fn zero_row(row: &mut [u64])
    ensures { row.new ≡ replicate (length row.old) 0 }
{
    row.fill(0);
}

// Ours: whether there is an order, which then stands in the row.
pub(crate) fn our_order(matrix: &[u8; ROOM], n: usize, row: &mut [u64]) -> bool
    requires { (n ≤ 256) × (n ≤ length row.old) }
    ensures { (result ≡ is_some (ours n (depends_in matrix.now))) × (row.new ≡ row_after (proposed (ours n (depends_in matrix.now))) row.old) }
{
    let mut marks = no_marks();
    for k in 0..n {
        let Some(i) = first_ready(matrix, &marks, n) else {
            zero_row(row);
            return false;
        };
        row[k] = i as u64;
        marks[i] = 1;
    }
    true
}
