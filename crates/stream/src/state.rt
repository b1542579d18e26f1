// The state that the caller lends (specs/Lent.antt).
ghost use Rattle.std.specs.Prelude.{◌≡◌};
ghost use Rattle.format.specs.Refusals.{refusal_number};
ghost use Rattle.stream.specs.Parts.{more, refused, received, started, with_part, with_end};
ghost use Rattle.stream.specs.Progress.{first, stage_of, stage_number};
ghost use Rattle.stream.specs.Lent.{answer_of, resting, open_state, progress_of, hashing_in, state_of, Keeps};

use super::hashing::{Hashing, absorb, finish, fresh};
use super::progress::{Progress, Stage, is_end};
use super::walk::walk;
use format::Refusal;

// What a call answers: 0 as long as nothing is answered, 1 a refusal and 2 a transaction that was received; the number of a refusal and
// its place, or zeros; length, counts and id of what was received, or zeros.
#[repr(C)]
#[derive(Clone, Copy)]
pub struct Answer {
    pub answered: u32,
    pub number: u32,
    pub place: u64,
    pub length: u64,
    pub inputs: u64,
    pub outputs: u64,
    pub id: [u8; 32],
}

// The hash value after the whole blocks that came and the bytes after them; the field that the next byte belongs to, by its number,
// with what is known of it; the counts; the bytes so far; and the answer, once it is given.
#[repr(C)]
#[derive(Clone, Copy)]
pub struct State {
    pub words: [u32; 8],
    pub tail: [u8; 64],
    pub stage: u64,
    pub start: u64,
    pub need: u64,
    pub width: u64,
    pub value: u64,
    pub left: u64,
    pub inputs: u64,
    pub outputs: u64,
    pub length: u64,
    pub answer: Answer,
}

// Nothing is answered yet.
fn no_answer() -> Answer
    ensures { result ≡ answer_of more }
{
    Answer {
        answered: 0,
        number: 0,
        place: 0,
        length: 0,
        inputs: 0,
        outputs: 0,
        id: [0u8; 32],
    }
}

fn refusal(refusal: Refusal, place: u64) -> Answer
    ensures { result ≡ answer_of (refused (refusal_number refusal) place) }
{
    Answer {
        answered: 1,
        number: u32::from(refusal.number()),
        place,
        ..no_answer()
    }
}

fn receipt(length: u64, inputs: u64, outputs: u64, id: [u8; 32]) -> Answer
    ensures { result ≡ answer_of (received length inputs outputs id) }
{
    Answer {
        answered: 2,
        length,
        inputs,
        outputs,
        id,
        ..no_answer()
    }
}

// The state once an answer was given.
fn rested(answer: Answer) -> State
    ensures { result ≡ resting answer }
{
    State {
        words: [0u32; 8],
        tail: [0u8; 64],
        stage: 0,
        start: 0,
        need: 0,
        width: 0,
        value: 0,
        left: 0,
        inputs: 0,
        outputs: 0,
        length: 0,
        answer,
    }
}

#[tactic(auto, unfolding(crate::specs::Progress::stage_of))]
fn stage_of(n: u64) -> Stage
    ensures { result ≡ stage_of n }
{
    match n {
        0 => Stage::Version,
        1 => Stage::InputCount,
        2 => Stage::Parent,
        3 => Stage::OutputNumber,
        4 => Stage::InputLength,
        5 => Stage::InputScript,
        6 => Stage::Sequence,
        7 => Stage::OutputCount,
        8 => Stage::Amount,
        9 => Stage::OutputLength,
        10 => Stage::OutputScript,
        11 => Stage::LockTime,
        _ => Stage::End,
    }
}

#[tactic(auto, unfolding(crate::specs::Progress::stage_number))]
fn stage_number(s: Stage) -> u64
    ensures { result ≡ stage_number s }
{
    s as u64
}

// The field that the next byte belongs to.
fn progress_of(st: State) -> Progress
    ensures { result ≡ progress_of st }
{
    Progress {
        stage: stage_of(st.stage),
        start: st.start,
        need: st.need,
        width: st.width,
        value: st.value,
        left: st.left,
        inputs: st.inputs,
        outputs: st.outputs,
        at: st.length,
    }
}

fn hashing_in(st: State) -> Hashing
    ensures { result ≡ hashing_in st }
{
    let words = st.words;
    let tail = st.tail;
    Hashing { words, tail }
}

fn open_state(h: Hashing, f: Progress) -> State
    ensures { result ≡ open_state h f }
{
    let words = h.words;
    let tail = h.tail;
    State {
        words,
        tail,
        stage: stage_number(f.stage),
        start: f.start,
        need: f.need,
        width: f.width,
        value: f.value,
        left: f.left,
        inputs: f.inputs,
        outputs: f.outputs,
        length: f.at,
        answer: no_answer(),
    }
}

fn first_field() -> Progress
    ensures { result ≡ first }
{
    Progress {
        stage: Stage::Version,
        start: 0,
        need: 4,
        width: 0,
        value: 0,
        left: 0,
        inputs: 0,
        outputs: 0,
        at: 0,
    }
}

// Afresh: the state before the first byte.
pub fn start() -> State
    ensures { result ≡ state_of started }
{
    open_state(fresh(), first_field())
}

// One part more; the answer is in the state. Over a state that no start and calls made it is free.
pub fn part(st: State, bytes: &[u8]) -> State
    ensures { Keeps (with_part bytes.now) st result }
{
    if st.answer.answered != 0 {
        return st;
    }
    match walk(progress_of(st), bytes) {
        Ok(f) => open_state(absorb(hashing_in(st), st.length, bytes), f),
        Err(r) => rested(refusal(r.refusal, r.place as u64)),
    }
}

// The end.
pub fn end(st: State) -> State
    ensures { Keeps with_end st result }
{
    if st.answer.answered != 0 {
        return rested(st.answer);
    }
    if is_end(stage_of(st.stage)) {
        let id = finish(hashing_in(st), st.length);
        return rested(receipt(st.length, st.inputs, st.outputs, id));
    }
    rested(refusal(Refusal::Short, st.start))
}
