// The listing of a BUMP as text, over lent bytes (specs/Listing.antt).
#![tactic(auto)]

mod lines;
mod text;

ghost use Rattle.std.specs.Prelude.{◌≡◌, min, length};
ghost use Rattle.format.specs.Bump.{bump_whole};
ghost use Rattle.listing.specs.Listing.{listing, report};
ghost use Rattle.encoding.specs.Buffer.{buffer, write_on, filled};

use encoding::buffer::write;
use format::{ReadRefusal, Refusal, read_bump};
use lines::{number_line, write_levels, write_refusal};

// The bytes of a BUMP that are listed; more are refused.
pub const LISTED_BYTES: usize = 65536;

// The listing of a BUMP whose length is not over the limit.
fn list_whole(s: &[u8], out: &mut [u8]) -> usize
    ensures { buffer out.new result ≡ write_on (buffer out.old 0) (report s.now (bump_whole s.now)) }
{
    match read_bump(s) {
        Ok((head, _)) => {
            let mut at = number_line(out, 0, b"block ", head.block);
            at = number_line(out, at, b"height ", head.height);
            at = write_levels(s, out, at, head.levels, head.height);
            write(out, at, b"ok\n")
        }
        Err(e) => write_refusal(out, e),
    }
}

// Writes the listing of the bytes s, as far as there is room, and answers how many bytes it wrote.
pub fn list(s: &[u8], out: &mut [u8]) -> usize
    ensures value { result ≡ min (length out.old) (length (listing s.now)) }
    ensures out_after { out.new ≡ filled out.old (listing s.now) }
{
    if LISTED_BYTES < s.len() {
        return write_refusal(
            out,
            ReadRefusal {
                refusal: Refusal::TooLong,
                place: 0,
            },
        );
    }
    list_whole(s, out)
}
