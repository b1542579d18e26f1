// Proving a page of ids by one BUMP (page/specs/Page.antt).
ghost use Rattle.std.specs.Prelude.{◌≡◌, length};
ghost use Rattle.page.specs.Page as P;
ghost use Rattle.barrowtide.specs.Interface as I;

use super::blame::refuse;
use page::Answer;

#[unsafe(no_mangle)]
pub extern "C" fn barrowtide_prove_page(
    message: &[u8],
    ids: &[u8],
    row: &mut [Answer],
    blame: &mut [u64; 3],
) -> u32
    ensures { let v = P.page message.now ids.now (length row.old) in
        (result ≡ I.refusal v)
        × (row.new ≡ P.row_of v (length row.old))
        × (blame.new ≡ I.blame v blame.old) }
{
    match page::prove_page(message, ids, row) {
        Ok(_) => 0,
        Err(rejection) => refuse(rejection, blame),
    }
}
