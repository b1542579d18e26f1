// The fields of a raw transaction, byte by byte (specs/Progress.antt): which field the next byte belongs to, and what is known by then.
ghost use Rattle.std.specs.Prelude.{◌≡◌, true, ◌-◌, ◌≤◌, ◌<◌};
ghost use Rattle.stream.specs.Progress as P;

use format::{ReadRefusal, Refusal};

// The most bytes of a transaction.
pub const MAX_PARTS: u64 = 4_294_967_295;

// The size of two nodes.
const NODE_PAIR: u64 = 64;

// The fields in their order, with their numbers in the state that the caller lends.
#[derive(Clone, Copy)]
pub enum Stage {
    Version = 0,
    InputCount = 1,
    Parent = 2,
    OutputNumber = 3,
    InputLength = 4,
    InputScript = 5,
    Sequence = 6,
    OutputCount = 7,
    Amount = 8,
    OutputLength = 9,
    OutputScript = 10,
    LockTime = 11,
    End = 12,
}

// The field that the next byte belongs to: where it starts, and how many of its bytes are still to come. Of a VarInt: how many bytes
// it announced, 0 before its first byte, and these as far as they came. Of the transaction: the items of the list still to come with
// this one, the counts, and the bytes so far.
#[derive(Clone, Copy)]
pub struct Progress {
    pub stage: Stage,
    pub start: u64,
    pub need: u64,
    pub width: u64,
    pub value: u64,
    pub left: u64,
    pub inputs: u64,
    pub outputs: u64,
    pub at: u64,
}

// After a byte: the field that the next one belongs to, or a refusal.
pub type Step = Result<Progress, ReadRefusal>;

pub(crate) fn refused(refusal: Refusal, place: u64) -> Step
    ensures { result ≡ P.refused_at refusal place }
{
    Err(ReadRefusal {
        refusal,
        place: place as usize,
    })
}

// Whether a field is a VarInt.
pub(crate) fn is_number(s: Stage) -> bool
    ensures { result ≡ P.is_number s }
{
    match s {
        Stage::InputCount | Stage::InputLength | Stage::OutputCount | Stage::OutputLength => true,
        _ => false,
    }
}

// Whether a field is an output's amount.
pub(crate) fn is_amount(s: Stage) -> bool
    ensures { result ≡ P.is_amount s }
{
    match s {
        Stage::Amount => true,
        _ => false,
    }
}

// Whether all fields came.
pub(crate) fn is_end(s: Stage) -> bool
    ensures { result ≡ P.is_end s }
{
    match s {
        Stage::End => true,
        _ => false,
    }
}

// A field of so many bytes starts here.
fn begin(stage: Stage, need: u64, f: Progress) -> Progress
    ensures { result ≡ P.begin stage need f }
{
    Progress {
        stage,
        start: f.at,
        need,
        width: 0,
        value: 0,
        ..f
    }
}

// An item of a list is passed.
fn one_passed(f: Progress) -> Progress
    requires { 1 ≤ f.left }
    ensures { result ≡ P.one_passed f }
{
    Progress {
        left: f.left - 1,
        ..f
    }
}

fn count_inputs(n: u64, f: Progress) -> Progress
    ensures { result ≡ P.count_inputs n f }
{
    Progress {
        left: n,
        inputs: n,
        ..f
    }
}

fn count_outputs(n: u64, f: Progress) -> Progress
    ensures { result ≡ P.count_outputs n f }
{
    Progress {
        left: n,
        outputs: n,
        ..f
    }
}

fn after_input(f: Progress) -> Step
    ensures { result ≡ P.after_input f }
{
    if f.left <= 1 {
        return Ok(begin(Stage::OutputCount, 1, f));
    }
    Ok(begin(Stage::Parent, 32, one_passed(f)))
}

fn after_output(f: Progress) -> Step
    ensures { result ≡ P.after_output f }
{
    if f.left <= 1 {
        return Ok(begin(Stage::LockTime, 4, f));
    }
    Ok(begin(Stage::Amount, 8, one_passed(f)))
}

// A transaction of 64 bytes can be read as a pair of nodes, and is refused.
fn after_lock_time(f: Progress) -> Step
    ensures { result ≡ P.after_lock_time f }
{
    if f.at == NODE_PAIR {
        return refused(Refusal::BadTx, 0);
    }
    Ok(begin(Stage::End, 0, f))
}

fn after_input_count(f: Progress, v: u64) -> Step
    ensures { result ≡ P.next_at Stage.InputCount f v }
{
    if v < 1 {
        return refused(Refusal::BadTx, f.start);
    }
    Ok(begin(Stage::Parent, 32, count_inputs(v, f)))
}

fn after_input_length(f: Progress, v: u64) -> Step
    ensures { result ≡ P.next_at Stage.InputLength f v }
{
    if v < 1 {
        return Ok(begin(Stage::Sequence, 4, f));
    }
    Ok(begin(Stage::InputScript, v, f))
}

fn after_output_count(f: Progress, v: u64) -> Step
    ensures { result ≡ P.next_at Stage.OutputCount f v }
{
    if v < 1 {
        return refused(Refusal::BadTx, f.start);
    }
    Ok(begin(Stage::Amount, 8, count_outputs(v, f)))
}

fn after_output_length(f: Progress, v: u64) -> Step
    ensures { result ≡ P.next_at Stage.OutputLength f v }
{
    if v < 1 {
        return after_output(f);
    }
    Ok(begin(Stage::OutputScript, v, f))
}

// The field after a whole one, whose value is v if it is a VarInt.
pub(crate) fn next(f: Progress, v: u64) -> Step
    ensures { result ≡ P.next f v }
{
    match f.stage {
        Stage::Version => Ok(begin(Stage::InputCount, 1, f)),
        Stage::InputCount => after_input_count(f, v),
        Stage::Parent => Ok(begin(Stage::OutputNumber, 4, f)),
        Stage::OutputNumber => Ok(begin(Stage::InputLength, 1, f)),
        Stage::InputLength => after_input_length(f, v),
        Stage::InputScript => Ok(begin(Stage::Sequence, 4, f)),
        Stage::Sequence => after_input(f),
        Stage::OutputCount => after_output_count(f, v),
        Stage::Amount => Ok(begin(Stage::OutputLength, 1, f)),
        Stage::OutputLength => after_output_length(f, v),
        Stage::OutputScript => after_output(f),
        Stage::LockTime => after_lock_time(f),
        Stage::End => Ok(begin(Stage::End, 0, f)),
    }
}
