// A raw transaction that arrives in parts, with a state that the caller lends (stream/specs/Parts.antt): it is loaded, changed by value and stored back. What a call does over a
// state that no start and calls made is left free.
ghost use Rattle.std.specs.Prelude.{◌≡◌};
ghost use Rattle.stream.specs.Parts.{MAX_PARTS, Said, Calls, started, with_part, with_end, says};
ghost use Rattle.stream.specs.Lent.{answer_of, state_of};
ghost use Rattle.barrowtide.specs.Parts as P;

use stream::{Answer, State};

// What is returned while there is no answer yet.
pub const MORE: u32 = 4_294_967_295;

// The number of an answer; what a refusal blames, or what was received, is written.
fn tell(
    answer: Answer,
    blame: &mut [u64; 3],
    length: &mut u64,
    inputs: &mut u64,
    outputs: &mut u64,
    id: &mut [u8; 32],
) -> u32
    ensures { (v : Said) → answer ≡ answer_of v →
        (result ≡ P.number v)
        × (blame.new ≡ P.blame v blame.old)
        × (length.new ≡ P.given (λ l i o x. l) v length.old)
        × (inputs.new ≡ P.given (λ l i o x. i) v inputs.old)
        × (outputs.new ≡ P.given (λ l i o x. o) v outputs.old)
        × (id.new ≡ P.given (λ l i o x. x) v id.old) }
{
    if answer.answered == 0 {
        return MORE;
    }
    if answer.answered == 1 {
        *blame = [answer.place, 0, 0];
        return answer.number;
    }
    let bytes = answer.id;
    *length = answer.length;
    *inputs = answer.inputs;
    *outputs = answer.outputs;
    *id = bytes;
    0
}

#[unsafe(no_mangle)]
pub extern "C" fn barrowtide_parts_start(state: &mut State)
    ensures { state.new ≡ state_of started }
{
    *state = stream::start();
}

#[unsafe(no_mangle)]
pub extern "C" fn barrowtide_parts_part(
    state: &mut State,
    part: &[u8],
    blame: &mut [u64; 3],
    length: &mut u64,
    inputs: &mut u64,
    outputs: &mut u64,
    id: &mut [u8; 32],
) -> u32
    ensures { (c : Calls) → state.old ≡ state_of c → (let v = says MAX_PARTS (with_part part.now c) in
        (state.new ≡ state_of (with_part part.now c))
        × (result ≡ P.number v)
        × (blame.new ≡ P.blame v blame.old)
        × (length.new ≡ P.given (λ l i o x. l) v length.old)
        × (inputs.new ≡ P.given (λ l i o x. i) v inputs.old)
        × (outputs.new ≡ P.given (λ l i o x. o) v outputs.old)
        × (id.new ≡ P.given (λ l i o x. x) v id.old)) }
{
    let next = stream::part(*state, part);
    *state = next;
    tell(next.answer, blame, length, inputs, outputs, id)
}

#[unsafe(no_mangle)]
pub extern "C" fn barrowtide_parts_end(
    state: &mut State,
    blame: &mut [u64; 3],
    length: &mut u64,
    inputs: &mut u64,
    outputs: &mut u64,
    id: &mut [u8; 32],
) -> u32
    ensures { (c : Calls) → state.old ≡ state_of c → (let v = says MAX_PARTS (with_end c) in
        (state.new ≡ state_of (with_end c))
        × (result ≡ P.number v)
        × (blame.new ≡ P.blame v blame.old)
        × (length.new ≡ P.given (λ l i o x. l) v length.old)
        × (inputs.new ≡ P.given (λ l i o x. i) v inputs.old)
        × (outputs.new ≡ P.given (λ l i o x. o) v outputs.old)
        × (id.new ≡ P.given (λ l i o x. x) v id.old)) }
{
    let next = stream::end(*state);
    *state = next;
    tell(next.answer, blame, length, inputs, outputs, id)
}
