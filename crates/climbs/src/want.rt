// What is wanted of the next client, and what is answered once there is none left (specs/ClientsShapes.antt).
ghost use Rattle.std.specs.Prelude.{◌≡◌};
ghost use Rattle.spv.specs.Clients.{closing};
ghost use Rattle.spv.specs.Shapes.{bound_to};
ghost use Rattle.climbs.specs.ClientsShapes.{want_says, end_says, wanted_to, checked_of};

use format::Refusal;
use spv::{Rejection, hits_target, reject_for};

// The root that is wanted of the next client, if it is bound to one; or a refusal.
pub(crate) type Want = Result<Option<[u8; 32]>, Rejection>;

// What is wanted after the end of a climb.
pub(crate) fn want_by(wanted: Option<[u8; 32]>, end: Result<[u8; 32], Rejection>) -> Want
    ensures { want_says result ≡ wanted_to (bound_to wanted) (end_says end) }
{
    let root = end?;
    if hits_target(wanted, root) {
        return Ok(Some(root));
    }
    Err(reject_for(Refusal::RootsDiffer))
}

// The root that all clients came to, if there was one.
pub(crate) fn close(wanted: Option<[u8; 32]>) -> Result<[u8; 32], Rejection>
    ensures { result ≡ checked_of (closing (bound_to wanted)) }
{
    wanted.ok_or(reject_for(Refusal::NotListed))
}
