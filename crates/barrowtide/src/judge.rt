// Judging a BEEF bundle (bundle/specs/Bundle.antt).
ghost use Rattle.std.specs.Prelude.{◌≡◌, length};
ghost use Rattle.bundle.specs.Bundle.{judge_beef, table_of};
ghost use Rattle.bundle.specs.Work.{judge_work};
ghost use Rattle.barrowtide.specs.Interface as I;

use super::blame::tell_count;
use bundle::{Judged, Record};

// The number of a verdict; what a refusal blames, or how many transactions were accepted, is written, and the hash work in any case.
fn tell(judged: Judged, blame: &mut [u64; 3], transactions: &mut u64, work: &mut u64) -> u32
    ensures { (work.new ≡ judged.work)
        × (result ≡ I.number_told judged.verdict)
        × (blame.new ≡ I.blame_told judged.verdict blame.old)
        × (transactions.new ≡ I.told (λ n. n) judged.verdict transactions.old) }
{
    *work = judged.work;
    tell_count(judged.verdict, blame, transactions)
}

#[unsafe(no_mangle)]
pub extern "C" fn barrowtide_judge_beef(
    message: &[u8],
    roots: &[u8],
    fee: u64,
    table: &mut [Record],
    blame: &mut [u64; 3],
    transactions: &mut u64,
    work: &mut u64,
) -> u32
    ensures { let v = judge_beef message.now roots.now fee (length table.old) in
        (result ≡ I.refusal v)
        × (table.new ≡ table_of v (length table.old))
        × (blame.new ≡ I.blame v blame.old)
        × (transactions.new ≡ I.taken length v transactions.old)
        × (work.new ≡ judge_work message.now roots.now fee (length table.old)) }
{
    let judged = bundle::judge_beef(message, roots, fee, table);
    tell(judged, blame, transactions, work)
}
