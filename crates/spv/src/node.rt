// The node beside a climb's working hash (specs/Shapes.antt).
ghost use Rattle.std.specs.Prelude.{◌≡◌};
ghost use Rattle.spv.specs.Climb.{value};
ghost use Rattle.format.specs.Bytes.{hash_at};
ghost use Rattle.spv.specs.Siblings.{written};
ghost use Rattle.spv.specs.Shapes.{sibling_of};

use format::Kind;

// What stands beside the climb.
#[derive(Clone, Copy)]
pub enum Node {
    Value([u8; 32]),
    Copied,
    Absent,
}

pub(crate) fn value_at(s: &[u8], place: usize) -> Node
    ensures { sibling_of result ≡ value (hash_at s.now place) }
{
    Node::Value(format::hash_at(s, place))
}

// What a leaf or node gives, by its kind.
#[tactic(auto, unfolding(crate::specs::Siblings::written))]
pub fn written_node(s: &[u8], kind: Kind) -> Node
    ensures { sibling_of result ≡ written s.now kind }
{
    match kind {
        Kind::Plain(place) | Kind::Client(place) => value_at(s, place),
        Kind::Copy => Node::Copied,
    }
}
