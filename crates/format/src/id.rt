// Ids of transactions (01, "Raw transaction"; specs/Id.antt).
ghost use Rattle.std.specs.Prelude.{◌≡◌};
ghost use Rattle.format.specs.Id.{span_hash};

// The hash of a part of the input; zero if it does not lie in it.
pub fn span_hash(s: &[u8], start: usize, end: usize) -> [u8; 32]
    ensures { result ≡ span_hash s.now start end }
{
    if end < start {
        return [0u8; 32];
    }
    if s.len() < end {
        return [0u8; 32];
    }
    hash::sha256d(&s[start..end]).unwrap_or([0; 32])
}
