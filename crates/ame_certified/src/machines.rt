//! The machines of a run keep its steps low.

ghost use Rattle.std.specs.Prelude.{◌≡◌, ◌≢◌, ◌+◌, ◌++◌, ◌∷◌, ℕ, true, false, List, [], Some};
ghost use Rattle.ame_term.specs.Tree.{Val, Tree};
ghost use Rattle.ame_machine.specs.MachineView.{MachineView, running_side, OnRun};
ghost use Rattle.ame_machine.specs.Move.{GoesLow, AdvancesWithin, fed_stage};
ghost use Rattle.ame_machine.specs.Need.{Need, need_of};
ghost use Rattle.ame_machine.specs.Run.Local.{begun_with};
ghost use Rattle.ame_rows.specs.MemoryView.{row_at};
ghost use Rattle.ame_protocol.specs.declared.types.Attempt.{Attempt};
ghost use Rattle.ame_protocol.specs.declared.types.Task.{Task};
ghost use Rattle.ame_protocol.specs.Engine.Parts.{task_at, term_at};
ghost use Rattle.ame_protocol.specs.Engine.Simulates.{Simulates};
ghost use Rattle.ame_protocol.specs.Event.EngineState.{EngineState};
ghost use Rattle.ame_shell.specs.Low.{MachineGoesLow, WorkGoesLow};

/// Says that a machine on a run makes no step at a tall form: not as it advances, nor by the step that it makes if it needs
/// something else, nor if it is fed there.
pub fn machines_stay_low()
    ensures advances { (start : Tree) (inputs : List Val) (fuel : ℕ) (m n : MachineView) → OnRun start inputs m
        → GoesLow (running_side m) (begun_with start inputs) m.steps → AdvancesWithin fuel m n → GoesLow (running_side n) (begun_with start inputs) n.steps }
    ensures next { (start : Tree) (inputs : List Val) (m : MachineView) → OnRun start inputs m → GoesLow (running_side m) (begun_with start inputs) m.steps
        → need_of m ≢ Need.Tall → GoesLow (running_side m) (begun_with start inputs) (m.steps + 1) }
    ensures fed { (start : Tree) (inputs : List Val) (v : Val) (m n : MachineView) → OnRun start inputs m
        → GoesLow (running_side m) (begun_with start inputs) m.steps → need_of m ≢ Need.Tall → fed_stage v m ≡ Some n
        → GoesLow (running_side n) (begun_with start (inputs ++ v ∷ [])) n.steps }
{}

/// Says that the events of a seat are low if the run of its machine is: protected code in the machine's steps, and unprotected code in
/// these and in one step more.
pub fn machines_make_low_events()
    ensures running { (s : EngineState) (seat : ℕ) (attempt : Attempt) (m : MachineView) → task_at s.parts.tasks seat ≡ Task.Running attempt → m.inside ≡ false
        → MachineGoesLow s.parts seat attempt m m.steps → WorkGoesLow s.parts seat (task_at s.parts.tasks seat) m.steps }
    ensures free { (s : EngineState) (seat : ℕ) (attempt : Attempt) (m : MachineView) → Simulates s.parts → task_at s.parts.tasks seat ≡ Task.Free attempt
        → m.inside ≡ true → MachineGoesLow s.parts seat attempt m m.steps → WorkGoesLow s.parts seat (task_at s.parts.tasks seat) m.steps }
    ensures visit { (s : EngineState) (seat : ℕ) (attempt : Attempt) (m : MachineView) → Simulates s.parts → task_at s.parts.tasks seat ≡ Task.Free attempt
        → m.inside ≡ true → OnRun (term_at s.parts.pool attempt.tried.number) (row_at s.parts.memory.rows seat).inputs m
        → MachineGoesLow s.parts seat attempt m m.steps → need_of m ≢ Need.Tall → WorkGoesLow s.parts seat (task_at s.parts.tasks seat) (m.steps + 1) }
{}
