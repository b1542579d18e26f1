// The transaction that a TSC proof is of, and the root that it tells (specs/Subject.antt).
ghost use Rattle.std.specs.Prelude.{◌≡◌};
ghost use Rattle.path.specs.Subject.{subject_hash};
ghost use Rattle.format.specs.Tsc.{target_root};

use format::{Subject, TscHead, hash_at, span_hash};

// A TSC proof's own id: the one written, or its transaction's.
pub fn subject_id(s: &[u8], subject: Subject) -> [u8; 32]
    ensures { result ≡ subject_hash s.now subject }
{
    match subject {
        Subject::Id(place) => hash_at(s, place),
        Subject::Transaction(start, end) => span_hash(s, start, end),
    }
}

// The root that a target tells: bytes 36 to 67 of a header, or all of another target.
pub fn target_root(s: &[u8], head: TscHead) -> [u8; 32]
    ensures { result ≡ target_root s.now head.flags head.target }
{
    let place = head.target;
    if head.flags & 6 != 2 {
        return hash_at(s, place);
    }
    if s.len() < place {
        return [0u8; 32];
    }
    if s.len() - place < 68 {
        return [0u8; 32];
    }
    hash_at(s, place + 36)
}
