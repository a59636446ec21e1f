//! Theorems: promises of this crate that nothing above it cites, each the statement of a lemma.

pub mod events;

ghost use Rattle.ame_term.specs.Signature.{Signature};
ghost use Rattle.std.specs.Prelude.{◌≡◌, ℕ, true, false, Some, List, [], ◌∷◌, ◌++◌, Contains, All, ◌+◌, ◌==◌, ℤ, Bool, None, if◌then◌else◌, ◌*◌, ◌≤◌, length};
ghost use Rattle.ame_term.specs.Frame.{Side};
ghost use Rattle.ame_term.specs.Context.{focus};
ghost use Rattle.ame_term.specs.State.{State, at_value, at_unprotected};
ghost use Rattle.ame_laws.specs.Orderly.{IsOrderly};
ghost use Rattle.ame_journal.specs.declared.entry.Entry.{Entry};
ghost use Rattle.ame_journal.specs.declared.entry.EntryKind.{EntryKind};
ghost use Rattle.ame_journal.specs.Replayed.{Replayed, is_inside, staying, entering};
ghost use Rattle.ame_journal.specs.Replay.{replay_entry, fails_after, replay};
ghost use Rattle.ame_laws.specs.Typed.StoreTyping.{StoreTyping};
ghost use Rattle.ame_machine.specs.Run.Local.{LocalState};
ghost use Rattle.ame_machine.specs.Run.Fit.{IsTypedPlace};
ghost use Rattle.ame_machine.specs.Run.Told.{TellsRun};
ghost use Rattle.ame_protocol.specs.Row.Heap.{Heap, IsCommitted, ShowsStore, cell_at, IsCell};
ghost use Rattle.ame_protocol.specs.Row.SeatRun.{SeatRun, HasUsed, AreValid, IsAtAct};
ghost use Rattle.ame_protocol.specs.Row.Owes.{Owes};
ghost use Rattle.ame_protocol.specs.Row.Changed.{ReleasesAll, BecomesAt, KeepsCommitted};
ghost use Rattle.ame_protocol.specs.Row.Scoped.{IsScoped, IsTypedNow};
ghost use Rattle.ame_protocol.specs.Row.Commits.{StandsAfterCommit};
ghost use Rattle.ame_term.specs.Tree.{Val, Typ, Tree};
ghost use Rattle.ame_store.specs.declared.cell.Cell.{Cell};
ghost use Rattle.ame_store.specs.Cells.{IsOwnedBy};
ghost use Rattle.ame_rows.specs.declared.notes.Undo.{Undo};
ghost use Rattle.ame_protocol.specs.Row.UndoLog.{undo_place, IsUndoLog};
ghost use Rattle.ame_term.specs.declared.types.Sort.{Sort};
ghost use Rattle.ame_protocol.specs.Row.Waiting.{IsWaiting};
ghost use Rattle.ame_machine.specs.Sound.{IsAccepted};
ghost use Rattle.ame_protocol.specs.declared.types.Limits.{Limits};
ghost use Rattle.ame_protocol.specs.Engine.Simulates.{Simulates};
ghost use Rattle.ame_protocol.specs.Engine.Events.{started};
ghost use Rattle.ame_pool.specs.declared.member.Member.{Member};
ghost use Rattle.ame_pool.specs.declared.oldest.Oldest.{Oldest};
ghost use Rattle.ame_pool.specs.Members.{IsRising, find};
ghost use Rattle.ame_pool.specs.Begin.{oldest};
ghost use Rattle.ame_protocol.specs.Engine.Parts.{Parts, whole_journal, task_at, member_of, term_at, run_in};
ghost use Rattle.ame_protocol.specs.Waits.Waiting.{watched_by, AreWaiting};
ghost use Rattle.ame_protocol.specs.Waits.Certificates.{HasCertificate, IsCertificate};
ghost use Rattle.ame_term.specs.Act.{Act};
ghost use Rattle.ame_journal.specs.Calls.{device_calls};
ghost use Rattle.ame_rows.specs.MemoryView.{MemoryView};
ghost use Rattle.ame_protocol.specs.declared.types.Attempt.{Attempt};
ghost use Rattle.ame_protocol.specs.declared.types.Task.{Task};
ghost use Rattle.ame_protocol.specs.Visits.Visit.{StepsTo, answered_at, has_visited, has_been_refused};
ghost use Rattle.ame_laws.specs.Typed.TypedState.{IsTyped, IsMember};
ghost use Rattle.ame_pool.specs.Roster.{Roster};
ghost use Rattle.ame_protocol.specs.Visits.Opened.{opened, AreOpened, HasMembersOf};
ghost use Rattle.ame_protocol.specs.Engine.Alone.{RunsExclusively};
ghost use Rattle.ame_pool.specs.Standings.{max_rollbacks};
ghost use Rattle.ame_protocol.specs.Bounds.Rollbacks.{IsWithinRollbacks};
ghost use Rattle.ame_protocol.specs.Bounds.Tries.{HasFewTries};
ghost use Rattle.ame_protocol.specs.Bounds.FewRollbacks.{HasFewRollbacks};
ghost use Rattle.ame_protocol.specs.Bounds.Spent.{paid, HasPaidTurns};

/// Says that a valid row whose run has ended can be committed. By its entry the member is gone. Once the seat's cells are released and show
/// the store, all facts hold that held before.
pub fn ended_rows_commit()
    ensures { (signature : Signature) (types : StoreTyping) (old new : Heap) (seat : ℕ) (run : SeatRun) (r : Replayed) (entry : Entry) (n : ℕ) (p : LocalState)
        → Owes old seat run → AreValid old seat run.reads → IsScoped signature types old seat run → HasUsed run n p
        → IsCommitted old → ShowsStore old r.state.store → IsTypedNow signature types old r.state → ReleasesAll seat old new
        → TellsRun r entry Side.Protected n p → entry.steps ≡ n → entry.kind ≡ EntryKind.Ran
        → is_inside r entry.number ≡ false → IsOrderly r.state → at_value (focus p.term) ≡ true
        → (t : State) × (replay_entry r entry ≡ Some (staying r t)) × (ShowsStore new t.store → StandsAfterCommit signature types seat old new t) }
{}

/// Says that a valid row whose run has come to `unprotected` can be committed. Then the member is inside, and all facts hold that held
/// before.
pub fn left_rows_commit()
    ensures { (signature : Signature) (types : StoreTyping) (old new : Heap) (seat : ℕ) (run : SeatRun) (r : Replayed) (entry : Entry) (n : ℕ) (p : LocalState)
        → Owes old seat run → AreValid old seat run.reads → IsScoped signature types old seat run → HasUsed run n p
        → IsCommitted old → ShowsStore old r.state.store → IsTypedNow signature types old r.state → ReleasesAll seat old new
        → TellsRun r entry Side.Protected n p → entry.steps ≡ n → entry.kind ≡ EntryKind.Ran
        → is_inside r entry.number ≡ false → at_unprotected (focus p.term) ≡ true
        → (t : State) × (replay_entry r entry ≡ Some (entering r entry.number t)) × (ShowsStore new t.store → StandsAfterCommit signature types seat old new t) }
{}

/// Says that after an undo of the last entry the other entries are an undo log.
pub fn undo_logs_stand_after_an_undo()
    ensures { (old new : Heap) (seat : ℕ) (undos : List (Undo Val)) (undo : Undo Val) (cell : Cell Val)
        → IsUndoLog old seat (undos ++ undo ∷ []) → BecomesAt old new (undo_place undo) cell → (IsOwnedBy seat cell → ⊥)
        → KeepsCommitted old new → IsUndoLog new seat undos }
{}

/// Says that no member watches a location that unprotected code writes or makes.
pub fn unprotected_code_wakes_nobody()
    ensures writes { (heap : Heap) (seat : ℕ) (watched : List ℕ) (run : SeatRun) (n : ℕ) (p : LocalState) (l : ℕ)
        → IsWaiting heap seat watched run n p → (cell_at heap l).sort ≡ Sort.Unprotected → Contains watched l → ⊥ }
    ensures births { (heap : Heap) (seat : ℕ) (watched : List ℕ) (run : SeatRun) (n : ℕ) (p : LocalState) (l : ℕ)
        → IsWaiting heap seat watched run n p → (IsCell heap l → ⊥) → Contains watched l → ⊥ }
{}

/// Says that an engine that has just started a program stands for the program's first state, if the types accept the program.
pub fn engines_start()
    ensures { (program : Tree) (signature : Signature) (limits : Limits) (room : ℕ)
        → IsAccepted signature program → Simulates (started program signature limits room) }
{}

/// Says that the last note of a waiting member is a certificate in the state for which the engine stands. If all members are parked, each
/// one has such a note, so that there is one certificate a member in order of numbers.
pub fn waiting_members_have_certificates()
    ensures waiting { (parts : Parts) (s : Simulates parts) (number : ℕ) (watched : List ℕ) → AreWaiting parts
        → watched_by number parts.pool ≡ Some watched → HasCertificate (whole_journal parts) s.r.state number }
    ensures parked { (parts : Parts) (s : Simulates parts) (number : ℕ) (member : Member Tree) → AreWaiting parts → oldest parts.pool ≡ Oldest.Parked
        → find number parts.pool.members ≡ Some member → HasCertificate (whole_journal parts) s.r.state number }
    ensures all { (parts : Parts) (s : Simulates parts) → AreWaiting parts → oldest parts.pool ≡ Oldest.Parked → IsRising parts.pool.members
        → All (λ member. HasCertificate (whole_journal parts) s.r.state member.number) parts.pool.members }
{}

/// Says that replay computes the certificate of a note.
pub fn certificates_are_computed()
    ensures { (s : State) (number steps : ℕ) (fresh : List ℕ) → IsCertificate s number steps fresh → fails_after s number steps fresh ≡ true }
{}

/// Says that an engine that is opened from a base stands for the state to which the base leads, if that state is typed, the engine's cells
/// have its store, and its pool has its members. A replayed state of an accepted program is typed.
pub fn engines_open()
    ensures { (program : Tree) (signature : Signature) (limits : Limits) (base : List Entry) (cells : List (Cell Val)) (pool : Roster Tree) (r : Replayed)
        (types : StoreTyping) → replay program base ≡ Some r → IsTyped signature types r.state → AreOpened signature types cells r.state → HasMembersOf r pool
        → Simulates (opened program signature limits base cells pool r.state.output r.state.next) }
{}

/// Says that no member of such an engine is at work. So the members that were rolled back as often as they may be run alone.
pub fn exhausted_members_open_alone()
    ensures { (program : Tree) (signature : Signature) (limits : Limits) (base : List Entry) (cells : List (Cell Val)) (pool : Roster Tree) (output : List ℤ)
        (next : ℕ) → RunsExclusively (opened program signature limits base cells pool output next) }
{}

/// Says that a visit that ends with a call adds that call to the calls of its device, with the argument and the answer. Any other visit
/// adds no call, and neither does any entry without an answer.
pub fn journals_tell_the_calls_of_visits()
    ensures call { (parts : Parts) (seat : ℕ) (attempt : Attempt) (n : ℕ) (p : LocalState) (k device : ℕ) (argument answer : ℤ) → Simulates parts
        → task_at parts.tasks seat ≡ Task.Free attempt → StepsTo parts attempt.tried.number n p
        → IsAtAct Side.Unprotected (Act.Calls device argument) p
        → device_calls k parts.program (whole_journal (has_visited seat attempt.tried.number (n + 1) (answered_at answer p) true parts.memory parts))
        ≡ device_calls k parts.program (whole_journal parts) ++ (if device == k then (argument, answer) ∷ [] else []) }
    ensures none { (parts : Parts) (seat number n : ℕ) (p : LocalState) (inside : Bool) (memory : MemoryView Val) (k : ℕ) → Simulates parts → p.answer ≡ None
        → device_calls k parts.program (whole_journal (has_visited seat number n p inside memory parts)) ≡ device_calls k parts.program (whole_journal parts) }
    ensures others { (parts : Parts) (entry : Entry) (k : ℕ) → Simulates parts → entry.answer ≡ None
        → device_calls k parts.program (whole_journal parts ++ entry ∷ []) ≡ device_calls k parts.program (whole_journal parts) }
{}

/// Says that the answers that turned members back are at most eight for each member that there ever was and for each entry. A member has at
/// most eight attempts without an entry for each of its entries, and eight more. At most one member a seat has one more than that.
pub fn few_rollbacks_are_bounded()
    ensures refused { (refused : ℕ) (parts : Parts) → Simulates parts → HasFewRollbacks refused parts → IsRising parts.pool.members
        → IsWithinRollbacks parts.pool → refused ≤ max_rollbacks * (parts.next + length parts.entries) }
    ensures tries { (refused : ℕ) (parts : Parts) → HasFewRollbacks refused parts → IsWithinRollbacks parts.pool
        → HasFewTries parts.limits.seats parts.entries parts.tried }
{}

/// Says that entries and attempts pay for all turns, once each seat is idle. If the turns are used up, they pay for the limit.
pub fn paid_turns_need_steps()
    ensures turns { (parts : Parts) → HasPaidTurns parts → ((seat : ℕ) → task_at parts.tasks seat ≡ Task.Idle)
        → parts.turns ≤ paid parts.limits.slice parts.entries parts.tried }
    ensures spent { (parts : Parts) → HasPaidTurns parts → ((seat : ℕ) → task_at parts.tasks seat ≡ Task.Idle)
        → parts.turns ≡ parts.limits.turns → parts.limits.turns ≤ paid parts.limits.slice parts.entries parts.tried }
{}

/// Says that the term from which a seat runs a member is typed, and so is each place of a running row that has used all inputs.
pub fn rows_are_typed()
    ensures member { (parts : Parts) (s : Simulates parts) (seat i : ℕ) → member_of (task_at parts.tasks seat) ≡ Some i
        → IsMember parts.signature s.types (term_at parts.pool i) }
    ensures place { (parts : Parts) (s : Simulates parts) (seat : ℕ) (attempt : Attempt) (n : ℕ) (p : LocalState)
        → task_at parts.tasks seat ≡ Task.Running attempt → HasUsed (run_in parts seat attempt.tried.number) n p
        → IsTypedPlace parts.signature s.types Typ.Unit p }
{}

/// Numbers of members rise still, after a visit and after one that a device refused.
pub fn members_rise_after_visits()
    ensures visit { (parts : Parts) (seat number n : ℕ) (p : LocalState) (inside : Bool) (memory : MemoryView Val) → Simulates parts
        → IsRising parts.pool.members → IsRising (has_visited seat number n p inside memory parts).pool.members }
    ensures refusal { (parts : Parts) (seat number : ℕ) → IsRising parts.pool.members
        → IsRising (has_been_refused seat number parts).pool.members }
{}
