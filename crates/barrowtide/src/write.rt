// Writing the BUMP of chosen positions of a block (block/specs/BlockBump.antt).
ghost use Rattle.std.specs.Prelude.{◌≡◌, length};
ghost use Rattle.block.specs.BlockBump.{writing};
ghost use Rattle.block.specs.Output.{output_after};
ghost use Rattle.barrowtide.specs.Interface as I;

use super::blame::tell_count;

#[unsafe(no_mangle)]
pub extern "C" fn barrowtide_write_bump(
    block: u64,
    ids: &[u8],
    chosen: &[u64],
    out: &mut [u8],
    blame: &mut [u64; 3],
    written: &mut u64,
) -> u32
    ensures { let v = writing block ids.now chosen.now (length out.old) in
        (result ≡ I.refusal v)
        × (out.new ≡ output_after v out.old)
        × (blame.new ≡ I.blame v blame.old)
        × (written.new ≡ I.taken length v written.old) }
{
    let answer = block::write_bump(block, ids, chosen, out);
    tell_count(answer, blame, written)
}
