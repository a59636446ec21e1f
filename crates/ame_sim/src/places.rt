//! The location of an outcome.

ghost use Rattle.std.specs.Prelude.{◌≡◌};
ghost use Rattle.ame_shell.specs.Work.{stage_at};
ghost use Rattle.ame_sim.specs.Places as spec;

use ame_machine::{Runner, Wants};
use ame_shell::{Outcome, Work};

/// Returns the location that a machine wants, by the number of cells.
fn place_of(cells: u32, want: Option<Wants>) -> Option<u32>
    ensures { result ≡ spec.location_wanted cells want }
{
    match want {
        Some(Wants::Read(l) | Wants::Write(l) | Wants::Peek(l)) => Some(l.0),
        Some(Wants::Alloc(_, _)) => Some(cells),
        _ => None,
    }
}

/// Returns the location that a seat's machine wants, by the number of cells.
pub(crate) fn place_wanted<M: Runner>(cells: u32, work: &Work<M>) -> Option<u32>
    ensures { (code : M.Code) → result ≡ spec.place_wanted cells (stage_at M.meaning.stage code work.now) }
{
    match work {
        Work::Running(machine) => place_of(cells, machine.want()),
        Work::Idle | Work::Undoing => None,
    }
}

/// Returns the location of an outcome, by the one that was wanted.
pub(crate) fn place_told(outcome: Outcome, wanted: Option<u32>) -> Option<u32>
    ensures { result ≡ spec.place_told outcome wanted }
{
    match outcome {
        Outcome::Read | Outcome::Wrote | Outcome::Met(_) | Outcome::Allocated | Outcome::CameHome =>
            wanted,
        Outcome::FoundInvalid(bad)
        | Outcome::Refused(bad)
        | Outcome::NotNoted(bad)
        | Outcome::NotTall(bad) => Some(bad.loc.0),
        _ => None,
    }
}
