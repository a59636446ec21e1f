//! Handing an answer to a caller.

ghost use Rattle.std.specs.Prelude.{◌≡◌};
ghost use Rattle.ame_c.specs.Out.{fitted, IsHandedOut, IsTold};

use crate::place::place_of;
use ame_app::Status;

/// Writes as much of a text as there is room for, and how long the text is.
pub(crate) fn hand_out(text: &[u8], room: &mut [u8], whole: &mut usize)
    ensures { IsHandedOut text.now room.old room.new whole.new }
{
    fit(text, room);
    *whole = text.len();
}

/// Writes as much of a text as there is room for.
fn fit(text: &[u8], room: &mut [u8])
    ensures { room.new ≡ fitted room.old text.now }
{
    let count = text.len().min(room.len());
    room[..count].copy_from_slice(&text[..count]);
}

/// Writes the number in the line of a status, and returns the number of the status.
pub(crate) fn tell(told: &Status, number: &mut u64) -> u8
    ensures { IsTold told.now result number.new }
{
    *number = place_of(told);
    told.number()
}
