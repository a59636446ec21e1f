//! The data of a picture of a run: what each pick did in lanes of seats, what led from pick to pick, who owned which location, and the entries of the
//! journal; or, if only the journal is known, what each fragment did in a lane of its own.
#![tactic(auto)]

mod arrow;
mod cause;
mod claim;
mod course;
mod drawing;
mod lane;
mod moment;
mod pick;
mod shown;
mod span;
mod stamp;
mod timeline;

pub use arrow::{Arrow, ArrowKind, Spot};
pub use claim::Claim;
pub use course::{LAST_LANE, birth, lane_up_to, lanes_up_to};
pub use drawing::{Drawing, drawing_of};
pub use lane::{DrawnAttempt, Entered, Fate, lane_of};
pub use moment::{Done, Moment, moments_of};
pub use pick::{Did, DrawnPick};
pub use shown::{shown_picks, shown_seats};
pub use span::{LANES, Span, SpanEnd};
pub use stamp::{Stamp, are_of, stamps_of};
pub use timeline::{Timeline, timeline_of};
