//! Many seats of a speculating engine, driven on one thread by a chooser that the caller supplies. Choosers with their strategies,
//! and schedules.
#![tactic(auto)]

mod book;
mod boxed;
mod chooser;
mod crew;
mod drawn;
mod hands;
mod listed;
mod made;
mod packed;
mod picked;
mod places;
mod run;
mod schedule;
mod waits;

pub use chooser::Chooser;
pub use crew::Crew;
pub use drawn::Drawn;
pub use listed::Listed;
pub use made::Made;
pub use packed::{MadesIter, PackedMades};
pub use picked::Picked;
pub use run::{Played, run_by_chooser};
pub use schedule::{
    ScheduleFault, Scheduled, read_schedule, schedule_line, schedule_text, sign_of,
};
pub use waits::WaitFlags;
