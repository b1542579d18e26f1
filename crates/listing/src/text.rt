// Text written into lent memory (specs/Text.antt): bytes, numbers in decimal, hashes in hex. Each function takes the place of the next byte and
// answers the place after its text; bytes that find no room are dropped.
ghost use Rattle.std.specs.Prelude.{◌≡◌, ◌<◌};
ghost use Rattle.listing.specs.Text.{digit as digit_of, decimal, printed};
ghost use Rattle.encoding.specs.Buffer.{buffer, write_on};

use encoding::buffer::put;

fn digit(d: u64) -> u8
    requires { d < 16 }
    ensures { result ≡ digit_of d }
{
    if d < 10 {
        b'0' + d as u8
    } else {
        b'a' - 10 + d as u8
    }
}

pub fn write_decimal(out: &mut [u8], at: usize, n: u64) -> usize
    ensures { buffer out.new result ≡ write_on (buffer out.old at) (decimal n) }
{
    if n < 10 {
        return put(out, at, digit(n));
    }
    let next = write_decimal(out, at, n / 10);
    put(out, next, digit(n % 10))
}

// In printed order, the last of the bytes stored comes first.
pub fn write_hash(out: &mut [u8], at: usize, hash: [u8; 32]) -> usize
    ensures { buffer out.new result ≡ write_on (buffer out.old at) (printed hash) }
{
    let mut next = at;
    for i in 0..32 {
        let b = u64::from(hash[31 - i]);
        next = put(out, next, digit(b / 16));
        next = put(out, next, digit(b % 16));
    }
    next
}
