// To and from TSC proofs (conversion/specs/Convert.antt).
ghost use Rattle.std.specs.Prelude.{◌≡◌, length};
ghost use Rattle.block.specs.Output.{output_after};
ghost use Rattle.conversion.specs.Convert.{tsc_to_bump, bump_to_tsc};
ghost use Rattle.barrowtide.specs.Interface as I;

use super::blame::tell_count;

#[unsafe(no_mangle)]
pub extern "C" fn barrowtide_tsc_to_bump(
    message: &[u8],
    block: u32,
    out: &mut [u8],
    blame: &mut [u64; 3],
    written: &mut u64,
) -> u32
    ensures { let v = tsc_to_bump message.now block (length out.old) in
        (result ≡ I.refusal v)
        × (out.new ≡ output_after v out.old)
        × (blame.new ≡ I.blame v blame.old)
        × (written.new ≡ I.taken length v written.old) }
{
    let answer = conversion::tsc_to_bump(message, block, out);
    tell_count(answer, blame, written)
}

#[unsafe(no_mangle)]
pub extern "C" fn barrowtide_bump_to_tsc(
    message: &[u8],
    id: &[u8; 32],
    out: &mut [u8],
    blame: &mut [u64; 3],
    written: &mut u64,
) -> u32
    ensures { let v = bump_to_tsc message.now id.now (length out.old) in
        (result ≡ I.refusal v)
        × (out.new ≡ output_after v out.old)
        × (blame.new ≡ I.blame v blame.old)
        × (written.new ≡ I.taken length v written.old) }
{
    let answer = conversion::bump_to_tsc(message, *id, out);
    tell_count(answer, blame, written)
}
