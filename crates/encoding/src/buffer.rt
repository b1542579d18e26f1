// Bytes written into lent memory (specs/Buffer.antt). Each function takes the place of the next byte and answers the place after its text; bytes
// that find no room are dropped.
ghost use Rattle.std.specs.Prelude.{◌≡◌, length};
ghost use Rattle.encoding.specs.Buffer.{buffer, put_on, write_on};
ghost use Rattle.encoding.specs.Digits.{varint_bytes};

pub fn put(out: &mut [u8], at: usize, b: u8) -> usize
    ensures { buffer out.new result ≡ put_on (buffer out.old at) b }
{
    if at < out.len() {
        out[at] = b;
        return at + 1;
    }
    at
}

pub fn write(out: &mut [u8], at: usize, text: &[u8]) -> usize
    ensures { buffer out.new result ≡ write_on (buffer out.old at) text.now }
{
    let mut next = at;
    for b in text {
        next = put(out, next, *b);
    }
    next
}

// A VarInt in its shortest form.
pub fn write_varint(out: &mut [u8], at: usize, n: u64) -> usize
    ensures { buffer out.new result ≡ write_on (buffer out.old at) (varint_bytes n) }
{
    if n < 253 {
        return put(out, at, n as u8);
    }
    if n < 65536 {
        let next = put(out, at, 253);
        return write(out, next, &(n as u16).to_le_bytes());
    }
    if n < 4294967296 {
        let next = put(out, at, 254);
        return write(out, next, &(n as u32).to_le_bytes());
    }
    let next = put(out, at, 255);
    write(out, next, &n.to_le_bytes())
}

// How many bytes a VarInt takes.
pub fn varint_size(n: u64) -> usize
    ensures { result ≡ length (varint_bytes n) }
{
    if n < 253 {
        return 1;
    }
    if n < 65536 {
        return 3;
    }
    if n < 4294967296 {
        return 5;
    }
    9
}
