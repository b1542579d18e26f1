// The C interface; include/barrowtide.h has its prototypes. A call returns the number of its refusal, or 0; memory that it gives nothing for keeps its
// content. What a refusal blames is a C struct of three 64-bit numbers, lent as an array of them.
#![tactic(auto)]

mod blame;
pub mod convert;
pub mod differences;
pub mod judge;
pub mod leaves;
pub mod ordering;
pub mod pages;
pub mod parts;
pub mod prove;
pub mod read;
pub mod write;

ghost use Rattle.std.specs.Prelude.{◌≡◌, ◌++◌};
ghost use Rattle.hash.specs.Sha256 as S;
ghost use Rattle.barrowtide.specs.Interface as I;
ghost use Rattle.barrowtide.specs.Answers.{of_hashed};

use blame::refuse;
use format::Refusal;

// The header has the same three numbers.
#[unsafe(no_mangle)]
pub extern "C" fn barrowtide_version() -> u32
    ensures { result ≡ I.VERSION }
{
    0 * 65536 + 8 * 256 + 0
}

#[unsafe(no_mangle)]
pub extern "C" fn barrowtide_sha256d(
    message: &[u8],
    blame: &mut [u64; 3],
    digest: &mut [u8; 32],
) -> u32
    ensures { let v = of_hashed (S.hashed message.now) in
        (result ≡ I.refusal v)
        × (blame.new ≡ I.blame v blame.old)
        × (digest.new ≡ I.taken (λ d. d) v digest.old) }
{
    match hash::sha256d(message) {
        Some(bytes) => {
            *digest = bytes;
            0
        }
        None => refuse(spv::reject_for(Refusal::TooLong), blame),
    }
}

#[unsafe(no_mangle)]
pub extern "C" fn barrowtide_join(left: &[u8; 32], right: &[u8; 32], parent: &mut [u8; 32])
    ensures { parent.new ≡ S.sha256d (left.now ++ right.now) }
{
    *parent = hash::join(*left, *right);
}
