// The readers: each takes one whole input, but a VarInt is read at the input's start and bytes may follow it.
ghost use Rattle.std.specs.Prelude.{◌≡◌, length};
ghost use Rattle.hash.specs.Sha256.{sha256d};
ghost use Rattle.format.specs.Refusals.{MAX_TXS};
ghost use Rattle.format.specs.Level.{total};
ghost use Rattle.format.specs.Bump.{bump_whole};
ghost use Rattle.format.specs.Cmp.{cmp_whole};
ghost use Rattle.format.specs.Transaction.{tx_whole};
ghost use Rattle.format.specs.Tsc.{tsc_whole};
ghost use Rattle.format.specs.Beef.{beef_whole};
ghost use Rattle.barrowtide.specs.Interface as I;

use super::blame::refuse_reading;
use format::{Cursor, Refusal};
use hash::MAX_INPUT;

#[unsafe(no_mangle)]
pub extern "C" fn barrowtide_read_varint(
    message: &[u8],
    blame: &mut [u64; 3],
    value: &mut u64,
    width: &mut u64,
) -> u32
    ensures { let v = I.first_varint message.now in
        (result ≡ I.refusal v)
        × (blame.new ≡ I.blame v blame.old)
        × (value.new ≡ I.taken (λ x. x.0) v value.old)
        × (width.new ≡ I.taken (λ x. x.1) v width.old) }
{
    if MAX_INPUT < message.len() {
        *blame = [0, 0, 0];
        return Refusal::TooLong.number() as u32;
    }
    match format::read_varint(message, Cursor::START) {
        Ok((v, c)) => {
            *value = v;
            *width = c.at as u64;
            0
        }
        Err(refusal) => refuse_reading(refusal, blame),
    }
}

#[unsafe(no_mangle)]
pub extern "C" fn barrowtide_read_bump(
    message: &[u8],
    blame: &mut [u64; 3],
    block: &mut u64,
    height: &mut u64,
    leaves: &mut u64,
) -> u32
    ensures { let v = I.of_reading (bump_whole message.now) in
        (result ≡ I.refusal v)
        × (blame.new ≡ I.blame v blame.old)
        × (block.new ≡ I.taken (λ b. b.block) v block.old)
        × (height.new ≡ I.taken (λ b. b.height) v height.old)
        × (leaves.new ≡ I.taken (λ b. total b.levels) v leaves.old) }
{
    match format::read_bump(message) {
        Ok((head, _)) => {
            *block = head.block;
            *height = head.height;
            *leaves = head.leaves;
            0
        }
        Err(refusal) => refuse_reading(refusal, blame),
    }
}

#[unsafe(no_mangle)]
pub extern "C" fn barrowtide_read_cmp(
    message: &[u8],
    blame: &mut [u64; 3],
    height: &mut u64,
    leaves: &mut u64,
) -> u32
    ensures { let v = I.of_reading (cmp_whole message.now) in
        (result ≡ I.refusal v)
        × (blame.new ≡ I.blame v blame.old)
        × (height.new ≡ I.taken (λ p. p.height) v height.old)
        × (leaves.new ≡ I.taken (λ p. total p.levels) v leaves.old) }
{
    match format::read_cmp(message) {
        Ok((head, _)) => {
            *height = head.height;
            *leaves = head.leaves;
            0
        }
        Err(refusal) => refuse_reading(refusal, blame),
    }
}

#[unsafe(no_mangle)]
pub extern "C" fn barrowtide_read_transaction(
    message: &[u8],
    blame: &mut [u64; 3],
    inputs: &mut u64,
    outputs: &mut u64,
    id: &mut [u8; 32],
) -> u32
    ensures { let v = I.of_reading (tx_whole message.now) in
        (result ≡ I.refusal v)
        × (blame.new ≡ I.blame v blame.old)
        × (inputs.new ≡ I.taken (λ t. length t.inputs) v inputs.old)
        × (outputs.new ≡ I.taken (λ t. length t.outputs) v outputs.old)
        × (id.new ≡ I.taken (λ _. sha256d message.now) v id.old) }
{
    match format::read_transaction(message) {
        Ok((head, _)) => {
            *inputs = head.inputs.count;
            *outputs = head.outputs.count;
            *id = hash::sha256d(message).unwrap_or([0; 32]);
            0
        }
        Err(refusal) => refuse_reading(refusal, blame),
    }
}

#[unsafe(no_mangle)]
pub extern "C" fn barrowtide_read_tsc(
    message: &[u8],
    blame: &mut [u64; 3],
    flags: &mut u64,
    index: &mut u64,
    nodes: &mut u64,
) -> u32
    ensures { let v = I.of_reading (tsc_whole message.now) in
        (result ≡ I.refusal v)
        × (blame.new ≡ I.blame v blame.old)
        × (flags.new ≡ I.taken (λ t. t.flags) v flags.old)
        × (index.new ≡ I.taken (λ t. t.index) v index.old)
        × (nodes.new ≡ I.taken (λ t. length t.nodes) v nodes.old) }
{
    match format::read_tsc(message) {
        Ok((head, _)) => {
            *flags = head.flags;
            *index = head.index;
            *nodes = head.nodes;
            0
        }
        Err(refusal) => refuse_reading(refusal, blame),
    }
}

#[unsafe(no_mangle)]
pub extern "C" fn barrowtide_read_beef(
    message: &[u8],
    blame: &mut [u64; 3],
    bumps: &mut u64,
    transactions: &mut u64,
) -> u32
    ensures { let v = I.of_reading (beef_whole MAX_TXS message.now) in
        (result ≡ I.refusal v)
        × (blame.new ≡ I.blame v blame.old)
        × (bumps.new ≡ I.taken (λ b. length b.bumps) v bumps.old)
        × (transactions.new ≡ I.taken (λ b. length b.entries) v transactions.old) }
{
    match format::read_beef(message) {
        Ok((head, _)) => {
            *bumps = head.bumps as u64;
            *transactions = head.transactions as u64;
            0
        }
        Err(refusal) => refuse_reading(refusal, blame),
    }
}
