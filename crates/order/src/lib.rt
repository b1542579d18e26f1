// Putting transactions in order (02, Item 12; specs/Set.antt): a set of raw transactions, handed in end to end in no order.
#![tactic(auto)]

mod answer;
mod bits;
mod ids;
mod parents;
mod placing;
mod set;

ghost use Rattle.std.specs.Prelude.{◌≡◌, length, replicate};
ghost use Rattle.order.specs.Set.{order_set, check_set, ordered_of, row_after};

pub use answer::SetRefusal;
use answer::refuse;
use format::Refusal;
use parents::fill_parents;
use placing::{check_order, our_order, zero_row};
use set::open_set;

// Bytes of the ids of a set, and of the matrix of its parents: 32 for each of 256 transactions.
const ROOM: usize = 8192;

fn no_bytes() -> [u8; ROOM]
    ensures { result ≡ replicate 8192 0 }
{
    [0; ROOM]
}

// Our order of so many raw transactions: the numbers of the set, counted from 0, each after its parents. Each time the first that can be placed is.
pub fn order_set(s: &[u8], count: usize, row: &mut [u64]) -> Result<(), SetRefusal>
    ensures { (result ≡ ordered_of (order_set s.now count (length row.old))) × (row.new ≡ row_after (order_set s.now count (length row.old)) row.old) }
{
    let mut ids = no_bytes();
    if let Err(refusal) = open_set(s, count, &mut ids) {
        zero_row(row);
        return Err(refusal);
    }
    if row.len() < count {
        zero_row(row);
        return Err(refuse(Refusal::NoRoom));
    }
    let mut matrix = no_bytes();
    fill_parents(s, count, &ids, &mut matrix);
    if !our_order(&matrix, count, row) {
        return Err(refuse(Refusal::NoOrder));
    }
    Ok(())
}

// Whether a proposal holds each of so many raw transactions once, after its parents in the set.
pub fn check_set(s: &[u8], count: usize, order: &[u64]) -> Result<(), SetRefusal>
    ensures { result ≡ ordered_of (check_set s.now count order.now) }
{
    let mut ids = no_bytes();
    open_set(s, count, &mut ids)?;
    let mut matrix = no_bytes();
    fill_parents(s, count, &ids, &mut matrix);
    if !check_order(&matrix, count, order) {
        return Err(refuse(Refusal::BadOrder));
    }
    Ok(())
}
