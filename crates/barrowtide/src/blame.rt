// What a refusal tells C: its number, and what it blames (specs/Interface.antt).
ghost use Rattle.std.specs.Prelude.{◌≡◌};
ghost use Rattle.spv.specs.Result.{refused_reading};
ghost use Rattle.barrowtide.specs.Interface.{blamed, number_told, blame_told, told};

use format::ReadRefusal;
use spv::Rejection;

pub(crate) fn blame_of(rejection: Rejection) -> [u64; 3]
    ensures { result ≡ blamed rejection }
{
    [
        rejection.carried as u64,
        rejection.layer as u64,
        rejection.sibling,
    ]
}

pub(crate) fn refuse(rejection: Rejection, blame: &mut [u64; 3]) -> u32
    ensures { (result ≡ rejection.number) × (blame.new ≡ blamed rejection) }
{
    *blame = blame_of(rejection);
    rejection.number as u32
}

pub(crate) fn refuse_reading(refusal: ReadRefusal, blame: &mut [u64; 3]) -> u32
    ensures { (result ≡ (refused_reading refusal).number) × (blame.new ≡ blamed (refused_reading refusal)) }
{
    refuse(spv::reject_reading(refusal), blame)
}

// The number of an answer that is a count; what a refusal blames, or the count, is written.
pub(crate) fn tell_count(
    answer: Result<usize, Rejection>,
    blame: &mut [u64; 3],
    count: &mut u64,
) -> u32
    ensures { (result ≡ number_told answer) × (blame.new ≡ blame_told answer blame.old) × (count.new ≡ told (λ n. n) answer count.old) }
{
    match answer {
        Ok(n) => {
            *count = n as u64;
            0
        }
        Err(rejection) => refuse(rejection, blame),
    }
}
