// What is asked of a whole input (specs/Answer.antt): it has its size, and nothing is left after its item.
ghost use Rattle.std.specs.Prelude.{◌≡◌, ◌<◌, ◌≤◌, length, MatchResult};
ghost use Rattle.format.specs.Answer.{too_long, extra_at};
ghost use Rattle.format.specs.Refusals.{MAX_INPUT};

use super::field::Cursor;
use super::refusal::{ReadRefusal, Refusal};
use hash::MAX_INPUT;

pub(crate) fn check_size(s: &[u8]) -> Result<(), ReadRefusal>
    ensures { MatchResult result (λ _. length s.now ≤ MAX_INPUT) (λ e. (MAX_INPUT < length s.now) × (e ≡ too_long)) }
{
    if MAX_INPUT < s.len() {
        return Err(ReadRefusal {
            refusal: Refusal::TooLong,
            place: 0,
        });
    }
    Ok(())
}

pub(crate) fn check_end(s: &[u8], c: Cursor) -> Result<(), ReadRefusal>
    ensures { MatchResult result (λ _. length s.now ≤ c.at) (λ e. (c.at < length s.now) × (e ≡ extra_at c.at)) }
{
    if c.at < s.len() {
        return Err(ReadRefusal {
            refusal: Refusal::Extra,
            place: c.at,
        });
    }
    Ok(())
}
