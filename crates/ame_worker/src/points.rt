//! The points of a worker's turn.

ghost use Rattle.std.specs.Prelude.{◌≡◌};
ghost use Rattle.ame_worker.specs.Points.{point_of};

use crate::gate::Point;
use ame_shell::{Outcome, Turn};

/// Returns the point that names a turn.
pub(crate) fn point_of(turn: Turn) -> Point
    ensures { result ≡ point_of turn.outcome turn.member }
{
    let member = turn.member.unwrap_or(0);
    match turn.outcome {
        Outcome::Began => Point::Began(member),
        Outcome::Waited => Point::Idle,
        Outcome::Stopped => Point::Stopped,
        Outcome::Ended | Outcome::Left => Point::Ran(member),
        Outcome::CameHome => Point::Freed(member),
        Outcome::DeviceFailed(_) | Outcome::WentHome => Point::Home(member),
        _ => Point::Stepped,
    }
}
