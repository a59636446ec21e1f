//! Theorems: promises of this crate that nothing above it cites, each the statement of a lemma.

ghost use Rattle.std.specs.Prelude.{◌≡◌, ◌↔◌, true, List, ◌⊎◌, ℕ, ℤ, Bool, false, ◌≢◌, Some, Option, None};
ghost use Rattle.ame_term.specs.Tree.{Val, Tree, Held, Head, Lambda, Typ};
ghost use Rattle.ame_term.specs.Frame.{Frame, Side, plug_all, side_of};
ghost use Rattle.ame_term.specs.Context.{AtValue, AtRedex, focus, fill};
ghost use Rattle.ame_term.specs.Redex.{is_redex};
ghost use Rattle.ame_laws.specs.Standing.{HasRedex, IsValue, IsReducible};
ghost use Rattle.ame_term.specs.Height.{height};
ghost use Rattle.ame_laws.specs.Holds.{Holds, IsOneOf, IsOneAbove};
ghost use Rattle.ame_term.specs.Substitute.{substitute, entered};
ghost use Rattle.ame_laws.specs.Free.{is_free, IsClosed};
ghost use Rattle.ame_term.specs.Act.{Act, act_of, makes};
ghost use Rattle.ame_term.specs.State.{State, performed_on, IsLegal, start, run, IsRun, after};
ghost use Rattle.ame_term.specs.declared.semantics.StepKind.{StepKind};
ghost use Rattle.ame_laws.specs.Rules.{Becomes, Reduces, Rule, Begins, Runs, Steps};
ghost use Rattle.ame_term.specs.declared.semantics.Label.{Label};
ghost use Rattle.ame_laws.specs.Puts.{Puts};
ghost use Rattle.ame_laws.specs.TypingLaws.{GivesOnlyHad, GivesAllHad, HasOneType};
ghost use Rattle.ame_term.specs.Scope.{Scope};
ghost use Rattle.ame_term.specs.Signature.{Signature};
ghost use Rattle.ame_laws.specs.Typed.Listed.{signature_of};
ghost use Rattle.ame_term.specs.Typing.{ref_types_in};
ghost use Rattle.ame_term.specs.HasType.{HasType};
ghost use Rattle.ame_term.specs.declared.types.Sort.{Sort};
ghost use Rattle.ame_term.specs.declared.types.Effect.{Effect};
ghost use Rattle.ame_laws.specs.Refs.{HasRefs};
ghost use Rattle.ame_laws.specs.Typed.StoreTyping.{StoreTyping};
ghost use Rattle.ame_laws.specs.Typed.LocalRun.{LocalStep, HasReduction, ClosesAtValue, LocalRun};
ghost use Rattle.ame_term.specs.Maps.{at};
ghost use Rattle.ame_laws.specs.Orderly.{IsOrderly};
ghost use Rattle.ame_laws.specs.Typed.TypedState.{IsTypedBy, IsTyped, IsTypedLater};
ghost use Rattle.ame_laws.specs.Typed.NewCell.{HasNewCellAfter, HasNewCellOf};
ghost use Rattle.ame_laws.specs.Typed.Progress.{Waits, LeadsOn, GoesOn, StateProgresses};
ghost use Rattle.ame_term.specs.View.{tree_of};

use ame_term::Accepted;

/// States that each term is a value, or a redex in frames; never both; and the frames and the redex are its own.
pub fn one_decomposition()
    ensures some { (t : Tree) → IsValue t ⊎ IsReducible t }
    ensures not_both { (t : Tree) → IsValue t → IsReducible t → ⊥ }
    ensures unique { (fs gs : List Frame) (r q : Tree) → is_redex r ≡ true → is_redex q ≡ true
        → plug_all fs r ≡ plug_all gs q → (fs ≡ gs) × (r ≡ q) }
{}

/// States that `focus` finds the redex in its frames, on their side, and `fill` puts another term into the same
/// frames.
pub fn contexts_are_focus()
    ensures value { (t : Tree) (v : Val) → (focus t ≡ AtValue v) ↔ (t ≡ Held v) }
    ensures focused { (frames : List Frame) (r : Tree) → is_redex r ≡ true
        → focus (plug_all frames r) ≡ AtRedex (side_of frames) r }
    ensures filled { (frames : List Frame) (r u : Tree) → is_redex r ≡ true
        → fill (plug_all frames r) u ≡ plug_all frames u }
    ensures found { (t r : Tree) (side : Side) → focus t ≡ AtRedex side r → HasRedex t r side }
{}

/// States that `substitute` gives the one term that the rules of substitution give.
pub fn substitution_puts()
    ensures { (x : ℕ) (w : Val) (t u : Tree) → Puts x w t u ↔ (u ≡ substitute t x w) }
{}

/// Values go in for two names in either order.
pub fn substitutions_commute()
    ensures { (x y : ℕ) (t : Tree) (v w : Val) → x ≢ y
        → substitute (substitute t x v) y w ≡ substitute (substitute t y w) x v }
{}

/// States that substitution leaves a term in which the name isn't free, as it leaves a closed one.
pub fn closed_terms_stay()
    ensures not_free { (x : ℕ) (t : Tree) (w : Val) → is_free x t ≡ false → substitute t x w ≡ t }
    ensures closed { (x : ℕ) (t : Tree) (w : Val) → IsClosed t → substitute t x w ≡ t }
{}

/// States that a function's body with a value for its parameter, and the function for its own name, has the free
/// names of the function form.
pub fn entered_names()
    ensures { (x : ℕ) (head : Head) (body : Tree) (v : Val)
        → is_free x (entered head body v) ≡ is_free x (Lambda head body) }
{}

/// Constants and locations have no height. A function is one above the values that are held in its body,
/// in whichever part, and a pair one above its two values.
pub fn heights_are_of_what_is_held()
    ensures unit { height Val.Unit ≡ 0 }
    ensures bool { (b : Bool) → height (Val.Bool b) ≡ 0 }
    ensures int { (n : ℤ) → height (Val.Int n) ≡ 0 }
    ensures location { (l : ℕ) → height (Val.Loc l) ≡ 0 }
    ensures function { (head : Head) (body : Tree)
        → IsOneAbove (λ w. Holds w body) (height (Val.Fun head body)) }
    ensures pair { (a b : Val) → IsOneAbove (IsOneOf a b) (height (Val.Pair a b)) }
{}

/// States that a label leads from one state to another exactly if a rule has it.
pub fn after_follows_the_rules()
    ensures { (s : State) (label : Label) (t : State) → IsLegal s label t ↔ Rule s label t }
{}

/// States that a redex does what its row says: the term that it becomes, if nothing else happens, and what
/// a kind of step makes of it on a side.
pub fn reductions_follow_the_rows()
    ensures becomes { (redex part : Tree)
        → (act_of redex ≡ Act.Becomes part) ↔ Becomes redex part }
    ensures reduces { (s : State) (side : Side) (kind : StepKind) (redex part : Tree) (t : State)
        → (performed_on side kind (act_of redex) s ≡ Some (part, t)) ↔ Reduces s side kind redex part t }
{}

/// States that `start` is the state in which a program begins, and `run` leads along labels, each by a rule.
pub fn runs_follow_the_rules()
    ensures begins { (program : Tree) (s : State) → (s ≡ start program) ↔ Begins program s }
    ensures runs { (s : State) (labels : List Label) (t : State)
        → (run s labels ≡ Some t) ↔ Runs s labels t }
    ensures of_programs { (program : Tree) (labels : List Label) (t : State)
        → IsRun program labels t ↔ ((s : State) × Begins program s × Runs s labels t) }
{}

/// States that a term has any type that the table gives to it.
pub fn what_the_table_gives_is_had()
    ensures { GivesOnlyHad }
{}

/// States that the table gives a type that a term has, at all places.
pub fn table_gives_what_is_had()
    ensures { GivesAllHad }
{}

/// States that a term has one type at most.
pub fn types_are_unique()
    ensures { HasOneType }
{}

/// States that the types that the table computes for the `ref` forms of a typed term are those of what they store,
/// in reading order, and there are no others.
pub fn ref_types_are_had()
    ensures had { (signature : Signature) (cells : ℕ → Option (Sort × Typ)) (places : ℕ → ℕ) (g : Scope)
        (q : Effect) (i : ℕ) (e : Tree) (t : Typ) → HasType signature cells g q e t
        → HasRefs signature cells g q e (ref_types_in signature.devices cells places g q i e) }
    ensures only { (signature : Signature) (cells : ℕ → Option (Sort × Typ)) (places : ℕ → ℕ) (g : Scope)
        (q : Effect) (i : ℕ) (e : Tree) (ts : List Typ) → HasRefs signature cells g q e ts
        → ts ≡ ref_types_in signature.devices cells places g q i e }
{}

/// States that after a legal label of any kind a typed state is typed, whatever the answer of a device and the
/// fresh location are, and the locations that had types keep them.
pub fn labels_keep_types()
    ensures { (signature : Signature) (cells : StoreTyping) (s : State) (label : Label) (t : State)
        → IsTyped signature cells s → IsLegal s label t → IsTypedLater signature cells t }
{}

/// States that the states of an accepted program are typed.
pub fn accepted_runs_are_typed(accepted: &Accepted)
    ensures { (labels : List Label) (t : State) → IsRun (tree_of accepted.now.program.term) labels t
        → (cells : StoreTyping) × IsTyped (signature_of accepted.now) cells t × IsOrderly t }
{}

/// States the same for given types of locations, also of some that the store doesn't have: a state that they
/// type stays typed by them after a legal label, if what it allocates has its sort and type there.
pub fn labels_keep_given_types()
    ensures { (signature : Signature) (cells : StoreTyping) (s : State) (label : Label) (t : State)
        → IsTypedBy signature cells s → IsLegal s label t → HasNewCellAfter signature cells s label
        → IsTypedBy signature cells t }
{}

/// States that it also does after a step of any member on one side of `unprotected`, whether it is active or not.
pub fn steps_keep_given_types()
    ensures { (signature : Signature) (cells : StoreTyping) (s : State) (side : Side) (kind : StepKind) (i : ℕ) (t : State)
        → IsTypedBy signature cells s → Steps s side kind i t → HasNewCellOf signature cells s kind i
        → IsTypedBy signature cells t }
{}

/// States that a typed state has no member left, or its active member waits at a false condition, or some label is
/// legal.
pub fn states_progress()
    ensures { (signature : Signature) (cells : StoreTyping) (s : State) → IsTyped signature cells s → StateProgresses s }
{}

/// States that while a member of a typed state is active, it waits at a false condition, or some label is legal;
/// and if it waits, none is.
pub fn active_members_progress()
    ensures goes_on { (signature : Signature) (cells : StoreTyping) (s : State) (i : ℕ) (term : Tree)
        → IsTyped signature cells s → at s.members i ≡ Some term → s.active ≡ Some i
        → Waits term ⊎ ((label : Label) × LeadsOn s label) }
    ensures stuck { (signature : Signature) (cells : StoreTyping) (s : State) (i : ℕ) (term : Tree)
        → IsTyped signature cells s → at s.members i ≡ Some term → s.active ≡ Some i
        → Waits term → (label : Label) → after s label ≡ None }
{}

/// States that while nothing is active, each member of a typed state may become active, or makes a step or closes
/// under `unprotected`.
pub fn resting_members_progress()
    ensures { (signature : Signature) (cells : StoreTyping) (s : State) (i : ℕ) (term : Tree)
        → IsTyped signature cells s → at s.members i ≡ Some term → s.active ≡ None → GoesOn s i }
{}

/// States that each local step is one of the strong semantics: of a fragment that closes, or a reduction in some
/// state, on the same side of `unprotected`.
pub fn local_steps_reduce()
    ensures { (signature : Signature) (cells : StoreTyping) (side : Side) (redex part : Tree)
        → LocalStep signature cells side redex part → ClosesAtValue side redex part ⊎ HasReduction side redex part }
{}

/// States that a legal label makes a local run of each member of a typed state: its own step, fed what
/// the store held, or nothing.
pub fn labels_run_locally()
    ensures { (signature : Signature) (cells : StoreTyping) (s : State) (label : Label) (t : State) (i : ℕ) (term last : Tree)
        → IsTypedBy signature cells s → IsOrderly s → IsLegal s label t → HasNewCellAfter signature cells s label
        → at s.members i ≡ Some term → at t.members i ≡ Some last → LocalRun signature cells term last }
{}
