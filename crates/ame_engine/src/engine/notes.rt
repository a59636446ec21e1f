//! The task of a seat once an entry was added for its attempt.

ghost use Rattle.std.specs.Prelude.{◌≡◌, true};
ghost use Rattle.ame_protocol.specs.Visits.Stops.{told_task as task_told};

use ame_protocol::{Attempt, Task, Tried};

/// Returns the attempt once an entry was added for it.
pub(super) fn told(attempt: Attempt) -> Attempt
    ensures { result ≡ record attempt { logged = true } }
{
    Attempt {
        tried: Tried {
            number: attempt.tried.number,
            at: attempt.tried.at,
            steps: attempt.tried.steps,
        },
        logged: true,
    }
}

/// Returns the task once an entry was added for its attempt.
pub(super) fn told_task(task: Task) -> Task
    ensures { result ≡ task_told task }
{
    match task {
        Task::Idle => Task::Idle,
        Task::Running(attempt) => Task::Running(told(attempt)),
        Task::Free(attempt) => Task::Free(told(attempt)),
        Task::Undoing(attempt, reason) => Task::Undoing(told(attempt), reason),
    }
}
