//! The lanes of a picture by fragments.

ghost use Rattle.std.specs.Prelude.{◌≡◌, ◌≤◌, ◌<◌, ◌^◌, length};
ghost use Rattle.ame_drawing.specs.Courses as spec;

use crate::arrow::Spot;
use crate::moment::Moment;

/// The last lane, which the fragments from this number on share.
pub const LAST_LANE: u32 = 199;

/// Returns the lane of a fragment, if those from the last lane's number on share it.
pub fn lane_up_to(last: u32, fragment: u64) -> u32
    ensures value { result ≡ spec.lane_up_to last fragment }
    ensures few { result ≤ last }
{
    fragment.min(u64::from(last)) as u32
}

/// Returns how many lanes these moments have, if the fragments from the last lane's number on share it.
pub fn lanes_up_to(last: u32, moments: &[Moment]) -> u32
    requires { last < 2 ^ 20 }
    ensures { result ≡ spec.lanes_up_to last moments.now }
{
    let mut lanes = 0;
    for moment in moments {
        lanes = lanes_with(last, lanes, moment);
    }
    lanes
}

/// Returns how many lanes there are with that of a moment.
fn lanes_with(last: u32, lanes: u32, moment: &Moment) -> u32
    requires { last < 2 ^ 20 }
    ensures { result ≡ spec.lanes_with last lanes moment.now }
{
    lanes.max(lane_up_to(last, moment.fragment()) + 1)
}

/// Returns the spot that started the fragment of a lane, if it is known by which entry.
pub fn birth(starters: &[u64], moments: &[Moment], lane: u32) -> Option<Spot>
    requires { length moments.now < 2 ^ 32 }
    ensures { result ≡ spec.birth starters.now moments.now lane }
{
    if lane == LAST_LANE {
        return None;
    }
    match starters.get(lane as usize) {
        Some(number) => entry_spot(moments, *number),
        None => None,
    }
}

/// Returns the spot of an entry, its column and its lane.
fn entry_spot(moments: &[Moment], number: u64) -> Option<Spot>
    requires { length moments.now < 2 ^ 32 }
    ensures { result ≡ spec.entry_spot number 0 moments.now }
{
    for (index, moment) in moments.iter().enumerate() {
        if moment.has_number(number) {
            return Some(Spot {
                pick: index as u32,
                seat: lane_up_to(LAST_LANE, moment.fragment()),
            });
        }
    }
    None
}
