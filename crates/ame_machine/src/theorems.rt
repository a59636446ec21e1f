//! Theorems: promises of this crate that nothing above it cites, each the statement of a lemma.

ghost use Rattle.ame_term.specs.Signature.{Signature};
ghost use Rattle.std.specs.Prelude.{◌≡◌, ℕ, true, List, false, Some, None, [], ℤ, Option};
ghost use Rattle.ame_term.specs.Tree.{Typ, Val, Tree};
ghost use Rattle.ame_term.specs.Context.{focus};
ghost use Rattle.ame_term.specs.State.{at_unprotected, State, run};
ghost use Rattle.ame_laws.specs.Typed.StoreTyping.{StoreTyping};
ghost use Rattle.ame_machine.specs.Run.Fit.{IsTypedThroughout};
ghost use Rattle.ame_machine.specs.MachineView.{MachineView, running_side, OnRun};
ghost use Rattle.ame_machine.specs.Sound.{IsRunnable};
ghost use Rattle.ame_term.specs.Frame.{Side};
ghost use Rattle.ame_term.specs.Maps.{at};
ghost use Rattle.ame_journal.specs.UnderWay.{UnderWay};
ghost use Rattle.ame_machine.specs.Run.Local.{LocalState, local};
ghost use Rattle.ame_machine.specs.Run.AgreesWith.{AgreesWith, IsAfterRun};
ghost use Rattle.ame_term.specs.declared.semantics.StepKind.{StepKind};
ghost use Rattle.ame_journal.specs.Labels.{AreSteps, fragment_labels, free_labels};

/// Says that a machine on a run that is typed throughout can run, if the run began as its side may begin.
pub fn machines_on_typed_runs_can_run()
    ensures { (signature : Signature) (cells : StoreTyping) (start : Tree) (inputs : List Val) (m : MachineView)
        → IsTypedThroughout signature cells (running_side m) start inputs Typ.Unit → OnRun start inputs m
        → (m.inside ≡ true → at_unprotected (focus start) ≡ true) → IsRunnable signature cells m }
{}

/// Says that a run in protected code that agrees with the store is the member's labels: it becomes active and makes
/// as many steps, with the same new locations. What it set is in the store then, what it printed
/// follows the output, its new members have the next numbers, and the member is what the run has become.
pub fn protected_runs_are_labels()
    ensures { (s : State) (i : ℕ) (term : Tree) (inputs : List Val) (n : ℕ) (p : LocalState)
        → s.active ≡ None → at s.members i ≡ Some term → at_unprotected (focus term) ≡ false
        → local Side.Protected term inputs n ≡ Some p → AgreesWith s.store p
        → (t : State) × UnderWay s i n p.fresh t × IsAfterRun s i p t × (at t.members i ≡ Some p.term) }
{}

/// Says that labels of a member are a run of it: if it becomes active and makes n steps in a state, n steps of its
/// run lead to a place that has used all inputs. The run agrees with the store, it has the same new locations,
/// and the state is the one after it.
pub fn fragments_are_runs()
    ensures { (s : State) (i : ℕ) (term : Tree) (kinds : List StepKind) (n : ℕ) (fresh : List ℕ) (u : State)
        → at s.members i ≡ Some term → AreSteps kinds n fresh None → run s (fragment_labels i kinds) ≡ Some u
        → (inputs : List Val) × (p : LocalState) × (local Side.Protected term inputs n ≡ Some p) × (p.inputs ≡ [])
        × AgreesWith s.store p × IsAfterRun s i p u × (at u.members i ≡ Some p.term) × (p.fresh ≡ fresh) × (u.active ≡ Some i) }
{}

/// Says that its labels in unprotected code are a run of it too, also with the answer of a device.
pub fn free_labels_are_runs()
    ensures { (s : State) (i : ℕ) (term : Tree) (kinds : List StepKind) (n : ℕ) (fresh : List ℕ) (answer : Option ℤ) (u : State)
        → s.active ≡ None → at s.members i ≡ Some term → AreSteps kinds n fresh answer → run s (free_labels i kinds) ≡ Some u
        → (inputs : List Val) × (p : LocalState) × (local Side.Unprotected term inputs n ≡ Some p) × (p.inputs ≡ [])
        × AgreesWith s.store p × IsAfterRun s i p u × (at u.members i ≡ Some p.term) × (p.fresh ≡ fresh) × (p.answer ≡ answer) }
{}
