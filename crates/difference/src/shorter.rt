// The shorter of two BUMPs that prove an id to one root (specs/Shorter.antt).
ghost use Rattle.std.specs.Prelude.{◌≡◌, ◌≤◌, get_or};
ghost use Rattle.difference.specs.Shorter.{shorter, chosen, choice_of, handed, part, shorter_of, why_of};

use format::Refusal;
use spv::Rejection;

#[derive(Clone, Copy)]
enum Shorter {
    First,
    Second,
}

#[tactic(auto, unfolding(crate::specs::Shorter::shorter_of))]
fn shorter_of(first: &[u8], second: &[u8]) -> Shorter
    ensures { chosen result ≡ shorter_of first.now second.now }
{
    if first.len() <= second.len() {
        return Shorter::First;
    }
    Shorter::Second
}

// Which of two BUMPs is the shorter, where both prove the id to one root.
fn weigh(first: &[u8], second: &[u8], id: [u8; 32]) -> Result<Shorter, Rejection>
    ensures { choice_of result ≡ shorter first.now second.now id }
{
    let x = spv::prove_bump(first, id)?;
    let y = spv::prove_bump(second, id)?;
    let x_root = x.root;
    let y_root = y.root;
    if !format::same_bytes(x_root, y_root) {
        return Err(spv::reject_for(Refusal::Unlike));
    }
    Ok(shorter_of(first, second))
}

// The part of the caller's own bytes that is handed back.
#[tactic(auto, unfolding(crate::specs::Shorter::handed))]
fn part_of<'a>(weighed: Result<Shorter, Rejection>, first: &'a [u8], second: &'a [u8]) -> &'a [u8]
    ensures { part result ≡ handed (choice_of weighed) first.entry second.entry }
{
    match weighed {
        Ok(Shorter::First) => first,
        Ok(Shorter::Second) => second,
        Err(_) => &first[..0],
    }
}

// A refusal in four numbers, 0 where there is none. Its number is a byte.
#[tactic(auto, unfolding(crate::specs::Shorter::why_of))]
fn why_of(weighed: Result<Shorter, Rejection>) -> [u64; 4]
    ensures { (result ≡ why_of (choice_of weighed)) × (get_or result 0 0 ≤ 255) }
{
    match weighed {
        Ok(_) => [0; 4],
        Err(rejection) => [
            u64::from(rejection.number),
            rejection.carried as u64,
            rejection.layer as u64,
            rejection.sibling,
        ],
    }
}

// The shorter of two BUMPs that prove the id to one root, the first if they are equally long; an empty part of the first if refused. Why it was refused is
// written to `why`: the number, what it carries, the layer and the sibling's position there; all 0 if it was not. (No Result: the contract says which part
// is handed back of a refusal too.)
pub fn shorter_proof<'a>(
    first: &'a [u8],
    second: &'a [u8],
    id: [u8; 32],
    why: &mut [u64; 4],
) -> &'a [u8]
    ensures result_value { part result ≡ handed (shorter first.now second.now id) first.entry second.entry }
    ensures why_after { why.new ≡ why_of (shorter first.now second.now id) }
    ensures why_bound { get_or why.new 0 0 ≤ 255 }
{
    let weighed = weigh(first, second, id);
    *why = why_of(weighed);
    part_of(weighed, first, second)
}
