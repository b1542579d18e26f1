// Whether all clients of a level climb to one root by what two paths have written between them (specs/Reach.antt).
ghost use Rattle.std.specs.Prelude.{◌≡◌, ◌&&◌, length, nat_le};
ghost use Rattle.path.specs.Path.{LAYERS};
ghost use Rattle.spv.specs.Values.{worked_out};
ghost use Rattle.climbs.specs.LookUp.{looked_up};
ghost use Rattle.climbs.specs.Proofs.{is_bump};
ghost use Rattle.climbs.specs.Reach.{level_reaches, both_reach};
ghost use Rattle.climbs.specs.Together.{Levels};

use super::clients::check_many;
use format::Cursor;
use path::{Form, LAYERS, Path};

fn has_levels(path: Path) -> bool
    ensures { result ≡ is_bump path.form && nat_le path.layers LAYERS }
{
    matches!(path.form, Form::Bump) && path.layers <= LAYERS
}

fn reach_root(
    u: &[u8],
    c: Cursor,
    s: &[u8],
    first: Path,
    t: &[u8],
    others: &[usize],
    root: [u8; 32],
) -> bool
    requires { Levels first }
    ensures { result ≡ level_reaches (worked_out (looked_up s.now first.at t.now others.now)) first.layers u.now root c.at }
{
    let Ok((count, next)) = format::read_varint(u, c) else {
        return false;
    };
    check_many(u, s, first, t, others, Some(root), next, count).is_ok()
}

// Whether all clients of the level at c of u climb to a root by the levels of two BUMPs, over the layers of the first.
pub fn both_reach(
    u: &[u8],
    c: Cursor,
    s: &[u8],
    first: Path,
    t: &[u8],
    second: Path,
    root: [u8; 32],
) -> bool
    ensures { result ≡ both_reach u.now c.at s.now first t.now second root }
{
    let others = second.at;
    has_levels(first) && reach_root(u, c, s, first, t, &others, root)
}
