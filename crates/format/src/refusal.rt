// Refusals by the numbers of 01, "Numbers of refusal" (specs/Refusals.antt).
ghost use Rattle.std.specs.Prelude.{◌≡◌};
ghost use Rattle.format.specs.Refusals.{refusal_number};

// What is refused, by the number that callers see.
#[derive(Clone, Copy, PartialEq, Eq, Debug)]
pub enum Refusal {
    // input over its size
    TooLong = 1,
    // bytes end inside a field
    Short = 2,
    // not the shortest form
    LongVarint = 3,
    // tree height outside its limits
    BadHeight = 4,
    // count or block height over its limit
    OverLimit = 5,
    // offset or TSC index outside the layer
    BadOffset = 6,
    // flags, node type or BEEF byte not allowed
    BadFlag = 7,
    // offset again in its level
    Repeated = 8,
    // bytes left after the end
    Extra = 9,
    // four bytes present, not BEEF's
    BadVersion = 10,
    // no inputs or no outputs; a transaction of 64 bytes; TSC transaction not exactly its stated length
    BadTx = 11,
    // BEEF with no transaction
    Empty = 12,
    // id not at level 0
    NotListed = 13,
    // sibling not written and not to be worked out
    Missing = 14,
    // sibling equal to the working hash at an odd position
    Twin = 15,
    // client roots differ, or the TSC target is another root
    RootsDiffer = 16,
    // root not in the list
    Untrusted = 17,
    // BUMP number not below the count
    BadIndex = 18,
    // id equal to an earlier one
    SameTx = 19,
    // an input without earlier parent
    NoParent = 20,
    // list of roots not a multiple of 32 bytes
    BadRoots = 21,
    // table has fewer records than the count read
    NoRoom = 22,
    // two proofs differ in root, position or layers
    Unlike = 23,
    // two proofs agree and prove one id
    SameId = 24,
    // an amount above its limit, or one that takes its transaction's running total above it (02, Item 9)
    BadAmount = 25,
    // output number not there
    NoOutput = 26,
    // output spent twice
    SpentTwice = 27,
    // inputs come to too little
    TooLittle = 28,
    // no order with parents first (02, Item 12)
    NoOrder = 29,
    // proposed order not one
    BadOrder = 30,
}

impl Refusal {
    pub fn number(self) -> u8
        ensures { result ≡ refusal_number self }
    {
        self as u8
    }
}

// A reading's refusal, and what it carries, most often a place in the input. What a call answers is a `Rejection` (`spv`).
#[derive(Clone, Copy)]
pub struct ReadRefusal {
    pub refusal: Refusal,
    pub place: usize,
}
