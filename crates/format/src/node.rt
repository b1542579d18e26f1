// A node of a TSC proof (specs/Node.antt).
ghost use Rattle.std.specs.Prelude.{◌≡◌};
ghost use Rattle.format.specs.Answer.{parse_of};
ghost use Rattle.format.specs.Node.{node_field};

use super::field::{Cursor, Read, one_byte};
use super::leaf::{Kind, read_kind};
use super::refusal::{ReadRefusal, Refusal};

// A type byte, 0 followed by 32 bytes or 1 for a copy.
pub fn read_node(s: &[u8], c: Cursor) -> Read<Kind>
    ensures { parse_of result ≡ node_field s.now c.at }
{
    let (kind, next) = one_byte(s, c)?;
    if 1 < kind {
        return Err(ReadRefusal {
            refusal: Refusal::BadFlag,
            place: c.at,
        });
    }
    read_kind(s, next, kind)
}
