// Proving an id, the all-clients check, and comparing two proofs, of one number of layers or of two (spv/specs/Prove.antt, Compare.antt, Clients.antt, Depth.antt).
ghost use Rattle.std.specs.Prelude.{◌≡◌};
ghost use Rattle.spv.specs.Result.{Result};
ghost use Rattle.spv.specs.Compare.{compare};
ghost use Rattle.spv.specs.Depth.{depth, second_of};
ghost use Rattle.spv.specs.Readings.{bump_reading, cmp_reading, tsc_reading, reading};
ghost use Rattle.spv.specs.Clients.{bump_clients};
ghost use Rattle.spv.specs.Shapes.{proved_of};
ghost use Rattle.barrowtide.specs.Interface as I;
ghost use Rattle.barrowtide.specs.Depths.{is_transaction, first_string_of};
ghost use Rattle.barrowtide.specs.Forms.{form_of};
ghost use Rattle.spv.specs.Prove.{Proof, prove};

use super::blame::refuse;
use path::Form;
use spv::{DepthPair, Proved, Rejection};

// Gives what a proof proves to the memory lent for it.
fn give(
    proved: Result<Proved, Rejection>,
    blame: &mut [u64; 3],
    position: &mut u64,
    layers: &mut u64,
    root: &mut [u8; 32],
) -> u32
    ensures { (v : Result Proof) → proved ≡ proved_of v →
        (result ≡ I.refusal v)
        × (blame.new ≡ I.blame v blame.old)
        × (position.new ≡ I.taken (λ p. p.position) v position.old)
        × (layers.new ≡ I.taken (λ p. p.layers) v layers.old)
        × (root.new ≡ I.taken (λ p. p.root) v root.old) }
{
    match proved {
        Ok(p) => {
            let bytes = p.root;
            *position = p.position;
            *layers = p.layers as u64;
            *root = bytes;
            0
        }
        Err(rejection) => refuse(rejection, blame),
    }
}

#[unsafe(no_mangle)]
pub extern "C" fn barrowtide_prove_bump(
    message: &[u8],
    id: &[u8; 32],
    blame: &mut [u64; 3],
    position: &mut u64,
    layers: &mut u64,
    root: &mut [u8; 32],
) -> u32
    ensures { let v = prove (bump_reading message.now id.now) in
        (result ≡ I.refusal v)
        × (blame.new ≡ I.blame v blame.old)
        × (position.new ≡ I.taken (λ p. p.position) v position.old)
        × (layers.new ≡ I.taken (λ p. p.layers) v layers.old)
        × (root.new ≡ I.taken (λ p. p.root) v root.old) }
{
    give(spv::prove_bump(message, *id), blame, position, layers, root)
}

#[unsafe(no_mangle)]
pub extern "C" fn barrowtide_prove_cmp(
    message: &[u8],
    id: &[u8; 32],
    blame: &mut [u64; 3],
    position: &mut u64,
    layers: &mut u64,
    root: &mut [u8; 32],
) -> u32
    ensures { let v = prove (cmp_reading message.now id.now) in
        (result ≡ I.refusal v)
        × (blame.new ≡ I.blame v blame.old)
        × (position.new ≡ I.taken (λ p. p.position) v position.old)
        × (layers.new ≡ I.taken (λ p. p.layers) v layers.old)
        × (root.new ≡ I.taken (λ p. p.root) v root.old) }
{
    give(spv::prove_cmp(message, *id), blame, position, layers, root)
}

#[unsafe(no_mangle)]
pub extern "C" fn barrowtide_prove_tsc(
    message: &[u8],
    blame: &mut [u64; 3],
    id: &mut [u8; 32],
    position: &mut u64,
    layers: &mut u64,
    root: &mut [u8; 32],
) -> u32
    ensures { let v = prove (tsc_reading message.now) in
        (result ≡ I.refusal v)
        × (blame.new ≡ I.blame v blame.old)
        × (id.new ≡ I.taken (λ p. p.id) v id.old)
        × (position.new ≡ I.taken (λ p. p.position) v position.old)
        × (layers.new ≡ I.taken (λ p. p.layers) v layers.old)
        × (root.new ≡ I.taken (λ p. p.root) v root.old) }
{
    match spv::prove_tsc(message) {
        Ok(p) => {
            let subject = p.id;
            let bytes = p.root;
            *id = subject;
            *position = p.position;
            *layers = p.layers as u64;
            *root = bytes;
            0
        }
        Err(rejection) => refuse(rejection, blame),
    }
}

#[unsafe(no_mangle)]
pub extern "C" fn barrowtide_check_clients(
    message: &[u8],
    blame: &mut [u64; 3],
    root: &mut [u8; 32],
) -> u32
    ensures { (let v = bump_clients message.now in
        (result ≡ I.refusal v)
        × (blame.new ≡ I.blame v blame.old)
        × (root.new ≡ I.taken (λ r. r) v root.old)) }
{
    match climbs::check_clients(message) {
        Ok(agreed) => {
            *root = agreed;
            0
        }
        Err(rejection) => refuse(rejection, blame),
    }
}

// The form that a number names: 0 BUMP, 1 CMP, any other TSC.
fn form_of(number: u32) -> Form
    ensures { result ≡ form_of number }
{
    if number == 0 {
        return Form::Bump;
    }
    if number == 1 {
        return Form::Cmp;
    }
    Form::Tsc
}

#[unsafe(no_mangle)]
pub extern "C" fn barrowtide_compare(
    first_form: u32,
    first: &[u8],
    first_id: &[u8; 32],
    second_form: u32,
    second: &[u8],
    second_id: &[u8; 32],
    blame: &mut [u64; 3],
    first_string: &mut [u8; 64],
    second_string: &mut [u8; 64],
) -> u32
    ensures { let v = compare (prove (reading (form_of first_form) first.now first_id.now)) (prove (reading (form_of second_form) second.now second_id.now)) in
        (result ≡ I.refusal v)
        × (blame.new ≡ I.blame v blame.old)
        × (first_string.new ≡ I.taken (λ x. x.first) v first_string.old)
        × (second_string.new ≡ I.taken (λ x. x.second) v second_string.old) }
{
    let compared = spv::compare_proofs(
        first,
        form_of(first_form),
        *first_id,
        second,
        form_of(second_form),
        *second_id,
    );
    match compared {
        Ok(pair) => {
            let t = pair.first;
            let u = pair.second;
            *first_string = t;
            *second_string = u;
            0
        }
        Err(rejection) => refuse(rejection, blame),
    }
}

#[unsafe(no_mangle)]
pub extern "C" fn barrowtide_compare_depths(
    first_form: u32,
    first: &[u8],
    first_id: &[u8; 32],
    second_form: u32,
    second: &[u8],
    second_id: &[u8; 32],
    transaction: &[u8],
    blame: &mut [u64; 3],
    first_is_transaction: &mut u64,
    first_string: &mut [u8; 64],
    second_string: &mut [u8; 64],
) -> u32
    ensures { let v = depth (prove (reading (form_of first_form) first.now first_id.now)) (prove (reading (form_of second_form) second.now second_id.now)) transaction.now in
        (result ≡ I.refusal v)
        × (blame.new ≡ I.blame v blame.old)
        × (first_is_transaction.new ≡ I.taken is_transaction v first_is_transaction.old)
        × (first_string.new ≡ first_string_of v first_string.old)
        × (second_string.new ≡ I.taken second_of v second_string.old) }
{
    let compared = spv::compare_depths(
        first,
        form_of(first_form),
        *first_id,
        second,
        form_of(second_form),
        *second_id,
        transaction,
    );
    match compared {
        Ok(found) => match found {
            DepthPair::Transaction(u) => {
                *first_is_transaction = 1;
                *second_string = u;
                0
            }
            DepthPair::Strings(pair) => {
                let t = pair.first;
                let u = pair.second;
                *first_is_transaction = 0;
                *first_string = t;
                *second_string = u;
                0
            }
        },
        Err(rejection) => refuse(rejection, blame),
    }
}
