// Hashes as 32 bytes (specs/Bytes.antt).
ghost use Rattle.std.specs.Prelude.{◌≡◌};
ghost use Rattle.format.specs.Bytes.{same, set_hash, hash_at};

// Whether two hashes are the same 32 bytes. All are compared, whatever the first ones are, so that many are at once.
pub fn same_bytes(a: [u8; 32], b: [u8; 32]) -> bool
    ensures { result ≡ same a b }
{
    let mut same = true;
    for i in 0..32 {
        if a[i] != b[i] {
            same = false;
        }
    }
    same
}

// The 32 bytes of s from a place; zeros where they aren't all there.
pub fn hash_at(s: &[u8], place: usize) -> [u8; 32]
    ensures { result ≡ hash_at s.now place }
{
    let mut out = [0u8; 32];
    if s.len() < place {
        return out;
    }
    if s.len() - place < 32 {
        return out;
    }
    out.copy_from_slice(&s[place..place + 32]);
    out
}

// The i-th of hashes end to end becomes this one; where there is no room for it nothing changes.
pub fn set_hash(list: &mut [u8], i: usize, hash: [u8; 32])
    ensures { list.new ≡ set_hash list.old i hash }
{
    if list.len() / 32 <= i {
        return;
    }
    let at = 32 * i;
    list[at..at + 32].copy_from_slice(&hash);
}
