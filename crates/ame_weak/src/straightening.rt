//! The journal that straightens a weak run.

ghost use Rattle.std.specs.Prelude.{◌≡◌, IfOk};
ghost use Rattle.ame_term.specs.View.{tree_of};
ghost use Rattle.ame_weak.specs.Tries.{AreTried};
ghost use Rattle.ame_weak.specs.Straightened.{IsStraightened, LeadsToTheEnd, MakesTheCalls};

use crate::state::WeakState;
use crate::transcript::Transcript;
use crate::tries::Try;
use ame_journal::Journal;
use ame_strong::StepFail;
use ame_term::{Accepted, Label, NoMemory, copy_term};
use std::alloc::Global;

/// The result of straightening the labels of a weak run.
#[derive(Drop)]
pub enum Straight {
    /// Nothing is active at the end: the strong run that has the same end.
    Journal(Journal),
    /// The number of the first label, from 1, that no rule has.
    Illegal(u64),
    /// This member is active at the end.
    Active(u64),
}

/// Makes the journal of the labels of a weak run, with the notes of the attempts, all in the first seat. Costs
/// what the labels' steps cost.
pub fn straighten(
    alloc: Global,
    accepted: &Accepted,
    labels: &[Label],
    tries: &[Try],
) -> Result<Straight, NoMemory>
    // Each answer says what the labels come to.
    ensures answer { IfOk result (λ answer. IsStraightened (tree_of accepted.now.program.term) labels.now tries.now answer) }

    // If the attempts hold, a journal leads to the end state of the labels, and makes their calls of devices.
    ensures replays { AreTried (tree_of accepted.now.program.term) labels.now tries.now
        → IfOk result (λ answer. LeadsToTheEnd (tree_of accepted.now.program.term) labels.now answer) }
    ensures calls { AreTried (tree_of accepted.now.program.term) labels.now tries.now
        → IfOk result (λ answer. MakesTheCalls (tree_of accepted.now.program.term) labels.now answer) }
{
    told(alloc, accepted, labels, tries)
}

/// Straightens labels, with one clause for all answers.
fn told(
    alloc: Global,
    accepted: &Accepted,
    labels: &[Label],
    tries: &[Try],
) -> Result<Straight, NoMemory>
    ensures { IfOk result (λ answer. IsStraightened (tree_of accepted.now.program.term) labels.now tries.now answer) }
{
    let mut state = WeakState::start(alloc, copy_term(alloc, &accepted.program.term)?)?;
    let mut transcript = Transcript::new(alloc);
    let mut rest = tries;
    for (n, label) in labels.iter().enumerate() {
        rest = transcript.note_all(alloc, rest, n as u64)?;
        match state.step(alloc, label) {
            Ok(()) => transcript.write(alloc, *label)?,
            Err(StepFail::Illegal) => return Ok(Straight::Illegal(n as u64 + 1)),
            Err(StepFail::NoMemory) => return Err(NoMemory),
        }
    }
    let _none = transcript.note_all(alloc, rest, labels.len() as u64)?;
    Ok(match state.active() {
        Some(number) => Straight::Active(number),
        None => Straight::Journal(transcript.journal),
    })
}
