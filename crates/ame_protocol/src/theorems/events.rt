//! Facts that events and their runs keep.

ghost use Rattle.ame_term.specs.Signature.{Signature};
ghost use Rattle.std.specs.Prelude.{◌≡◌, ◌≤◌, ◌+◌, ◌*◌, ◌++◌, ◌∷◌, [], ℕ, true, List, All, count_by, length, None};
ghost use Rattle.ame_term.specs.Tree.{Tree, Typ};
ghost use Rattle.ame_machine.specs.Sound.{IsAccepted};
ghost use Rattle.ame_protocol.specs.declared.types.Limits.{Limits};
ghost use Rattle.ame_protocol.specs.Event.Counting.{turns_in};
ghost use Rattle.ame_protocol.specs.Event.EngineState.{EngineState, started_state};
ghost use Rattle.ame_protocol.specs.Event.Event.{Event, Reverse};
ghost use Rattle.ame_protocol.specs.Event.After.{after};
ghost use Rattle.ame_protocol.specs.Event.May.{May};
ghost use Rattle.ame_protocol.specs.Event.Sound.{Sound};
ghost use Rattle.ame_protocol.specs.Event.Runs.{Follows, entries_along, entries_told, is_back};
ghost use Rattle.ame_protocol.specs.Event.Bounds.{refusals};
ghost use Rattle.ame_protocol.specs.Event.Causes.{is_ordinary};
ghost use Rattle.ame_protocol.specs.Bounds.Rollbacks.{rollbacks_at, MayTurnBack};
ghost use Rattle.ame_protocol.specs.declared.types.Attempt.{Attempt};
ghost use Rattle.ame_pool.specs.Standings.{max_rollbacks};

/// Says that the state that starts a program is sound, if the types accept the program.
pub fn states_start_sound()
    ensures { (program : Tree) (signature : Signature) (limits : Limits) → IsAccepted signature program
        → 1 ≤ limits.slice → Sound (started_state program signature limits) }
{}

/// Says that each event that may happen keeps a state sound.
pub fn events_keep_states_sound()
    ensures { (e : Event) (s : EngineState) → May e s → Sound s → Sound (after e s) }
{}

/// Says that each run keeps a state sound.
pub fn runs_keep_states_sound()
    ensures { (es : List Event) (s end : EngineState) → Follows s es end → Sound s → Sound end }
{}

/// Says that a run can be continued by each event that may happen in the state to which it has come.
pub fn runs_go_on()
    ensures { (es : List Event) (s end : EngineState) (e : Event) → Follows s es end → May e end → Follows s (es ++ e ∷ []) (after e end) }
{}

/// Says that the journal grows by the entries of the run's events, in order.
pub fn runs_tell_their_entries()
    ensures { (es : List Event) (s end : EngineState) → Follows s es end → end.parts.entries ≡ s.parts.entries ++ entries_along es }
{}

/// Says that no event takes more than one turn, and that each takes one until a stop is kept. The counters of all kinds add up to the
/// turns.
pub fn runs_take_turns()
    ensures few { (es : List Event) (s end : EngineState) → Follows s es end → end.parts.turns ≤ s.parts.turns + length es }
    ensures going { (es : List Event) (s end : EngineState) → Follows s es end → Sound s → end.stop ≡ None
        → end.parts.turns ≡ s.parts.turns + length es }
    ensures counted { (s : EngineState) → Sound s → turns_in s.counters ≡ s.parts.turns }
{}

/// Says that a member that turns back may be rolled back once more.
pub fn exhausted_members_never_turn_back()
    ensures { (s : EngineState) → Sound s → (seat : ℕ) (attempt : Attempt) (why : Reverse) → May (Event.TurnBack seat attempt why) s
        → MayTurnBack attempt.tried.number s.parts.pool }
{}

/// Says that the answers that turned a member back are the events in which a seat turns back, and that each is counted. There are at most
/// eight of them for each member that there ever was and for each entry.
pub fn runs_turn_back_seldom()
    ensures counted { (es : List Event) (s end : EngineState) → Follows s es end → refusals end.counters ≡ refusals s.counters + count_by is_back es }
    ensures few { (es : List Event) (s end : EngineState) → Follows s es end → Sound s
        → refusals s.counters + count_by is_back es ≤ max_rollbacks * (end.parts.next + length end.parts.entries) }
{}

/// Says that an entry resets the rollbacks of its member, unless it is the last one, which notes how the run stopped.
pub fn entries_take_rollbacks_off()
    ensures { (s : EngineState) → Sound s → (e : Event)
        → All (λ entry. is_ordinary entry.kind ≡ true → rollbacks_at entry.number (after e s).parts.pool ≡ 0) (entries_told e) }
{}
