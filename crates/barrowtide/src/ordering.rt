// Putting transactions in order (order/specs/Order.antt).
ghost use Rattle.std.specs.Prelude.{◌≡◌, List, ℕ, length};
ghost use Rattle.order.specs.Set.{SetResult, order_set, check_set, ordered_of, result_of, transaction_of, row_after};
ghost use Rattle.barrowtide.specs.Interface as I;

use super::blame::refuse;
use order::SetRefusal;

// The number of an answer; what a refusal blames is written, and the transaction's number beside it.
fn tell(answer: Result<(), SetRefusal>, blame: &mut [u64; 3], transaction: &mut u64) -> u32
    ensures { (v : SetResult (List ℕ)) → answer ≡ ordered_of v →
        (result ≡ I.refusal (result_of v))
        × (blame.new ≡ I.blame (result_of v) blame.old)
        × (transaction.new ≡ transaction_of v transaction.old) }
{
    match answer {
        Ok(()) => 0,
        Err(refusal) => {
            *transaction = refusal.transaction as u64;
            refuse(refusal.rejection, blame)
        }
    }
}

#[unsafe(no_mangle)]
pub extern "C" fn barrowtide_order(
    transactions: &[u8],
    count: u64,
    row: &mut [u64],
    blame: &mut [u64; 3],
    transaction: &mut u64,
) -> u32
    ensures { let v = order_set transactions.now count (length row.old) in
        (result ≡ I.refusal (result_of v))
        × (row.new ≡ row_after v row.old)
        × (blame.new ≡ I.blame (result_of v) blame.old)
        × (transaction.new ≡ transaction_of v transaction.old) }
{
    let answer = order::order_set(transactions, count as usize, row);
    tell(answer, blame, transaction)
}

#[unsafe(no_mangle)]
pub extern "C" fn barrowtide_check_order(
    transactions: &[u8],
    count: u64,
    proposal: &[u64],
    blame: &mut [u64; 3],
    transaction: &mut u64,
) -> u32
    ensures { let v = check_set transactions.now count proposal.now in
        (result ≡ I.refusal (result_of v))
        × (blame.new ≡ I.blame (result_of v) blame.old)
        × (transaction.new ≡ transaction_of v transaction.old) }
{
    let answer = order::check_set(transactions, count as usize, proposal);
    tell(answer, blame, transaction)
}
