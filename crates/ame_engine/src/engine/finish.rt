//! The end of an engine, which is taken apart.

ghost use Rattle.std.specs.Prelude.{◌≡◌, ℕ, IsSome};
ghost use Rattle.ame_protocol.specs.declared.types.Task.{Task};
ghost use Rattle.ame_protocol.specs.Engine.Parts.{task_at};
ghost use Rattle.ame_engine.specs.Ending.{end_of, IsEnd};

use super::Engine;
use super::ledger::Ledger;
use crate::ended::Ended;
use ame_machine::Runner;

impl<M: Runner> Engine<M>
where
    M::Code: Drop,
{
    /// Takes an engine apart whose seats are idle, once a stop is kept. Takes no memory.
    pub fn finish(self) -> Ended<M::Value>
        requires idle { (seat : ℕ) → task_at self.tasks seat ≡ Task.Idle }
        requires stopped { IsSome self.stop }
        ensures told { result ≡ end_of self }
        ensures ends { IsEnd (M.meaning.program self.code) (M.meaning.signature self.code) self.limits (M.meaning.value_of self.code) result }
    {
        let Engine {
            code: _,
            limits,
            base,
            ledger,
            memory,
            tasks: _,
            pool: _,
            next: _,
            turns,
            counters,
            tried,
            stop,
            certificates,
        } = self;
        let Ledger {
            journal,
            output,
            text: _,
        } = ledger;
        Ended {
            limits,
            base,
            journal,
            store: memory.into_cells(),
            output,
            turns,
            counters,
            tried,
            stop,
            certificates,
        }
    }
}
