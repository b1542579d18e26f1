// Refusals as calls answer them (specs/Result.antt).
ghost use Rattle.std.specs.Prelude.{◌≡◌};
ghost use Rattle.format.specs.Refusals.{refusal_number};
ghost use Rattle.spv.specs.Result.{carrying, refused_reading};

use format::{ReadRefusal, Refusal};

// A call's refusal: the number; what it carries, a place, a transaction's number or 0; for 14 and 15 the layer and the position there of the sibling that is
// missing or a twin, 0 in both for all others. It holds the number and not a `Refusal`: rows and ends that are kept in fixed memory are numbers, and so are
// the refusals of the definitions.
#[derive(Clone, Copy)]
pub struct Rejection {
    pub number: u8,
    pub carried: usize,
    pub layer: usize,
    pub sibling: u64,
}

// A refusal, by its number, that blames no byte and no sibling.
pub fn reject(number: u8) -> Rejection
    ensures { result ≡ carrying number 0 }
{
    Rejection {
        number,
        carried: 0,
        layer: 0,
        sibling: 0,
    }
}

// The same, by what is refused.
pub fn reject_for(refusal: Refusal) -> Rejection
    ensures { result ≡ carrying (refusal_number refusal) 0 }
{
    reject(refusal.number())
}

// A refusal of reading.
pub fn reject_reading(read: ReadRefusal) -> Rejection
    ensures { result ≡ refused_reading read }
{
    Rejection {
        number: read.refusal.number(),
        carried: read.place,
        layer: 0,
        sibling: 0,
    }
}

impl From<ReadRefusal> for Rejection {
    ghost from_gives = { λ read rejection. rejection ≡ refused_reading read };

    fn from(read: ReadRefusal) -> Rejection {
        reject_reading(read)
    }
}
