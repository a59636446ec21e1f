//! The engine.

ghost use Rattle.std.specs.Prelude.{◌≡◌, ◌<◌, length, slice_get, option_copied, Some};
ghost use Rattle.ame_io.specs.Lines.{lines};
ghost use Rattle.ame_rows.specs.Committed.{committed as committed_at};
ghost use Rattle.ame_protocol.specs.Engine.Parts.{task_at};
ghost use Rattle.ame_protocol.specs.Event.Lone.{IsUndisturbed};

use ame_journal::{Certificate, Entry, Journal};
use ame_machine::Runner;
use ame_pool::Pool;
use ame_protocol::{Counters, Limits, Stop, Task, Tried};
use ame_rows::Memory;
use ame_store::Cell;
use ame_term::Loc;
use ledger::Ledger;
pub use resume::cells_of;
use std::marker::Model;
use std::sync::Arc;

mod alloc;
mod begin;
mod block;
mod blocked;
mod check;
mod commit;
mod finish;
mod free;
mod laws;
mod ledger;
mod notes;
mod read;
mod resume;
mod spend;
mod start;
mod stop;
mod tall;
mod turn;
mod undo;
mod write;

/// Holds the state that seats share: the cells that they write in place, with the undo log of each seat; the members and their machines;
/// and the journal of committed work. The machine that a seat runs is not in it, so that seats can run in parallel.
pub struct Engine<M: Runner>
where
    M::Code: Drop,
{
    code: Arc<M::Code>,
    limits: Limits,
    base: Journal,
    ledger: Ledger,
    memory: Memory<M::Value>,
    tasks: Vec<Task>,
    pool: Pool<M>,
    next: u64,
    turns: u32,
    counters: Counters,
    tried: Vec<Tried>,
    stop: Option<Stop>,
    certificates: Vec<Certificate>,
}

impl<M: Runner> Drop for Engine<M>
where
    M::Code: Drop,
{
    fn drop(self) {
        let Engine {
            code: _,
            limits: _,
            base: _,
            ledger: _,
            memory: _,
            tasks: _,
            pool: _,
            next: _,
            turns: _,
            counters: _,
            tried: _,
            stop: _,
            certificates: _,
        } = self;
    }
}

impl<M: Runner> Model for Engine<M>
where
    M::Code: Drop,
{
    ghost use Rattle.std.specs.Arc.{arc_value};
    ghost use Rattle.ame_engine.specs.Core.{Core};

    ghost Value = { Core M.Code M.Value M };

    ghost use Rattle.std.specs.Prelude.{vec_len, vec_capacity};
    ghost use Rattle.ame_engine.specs.Whole.{IsEngine};

    ghost view = { λ e. record {
      code = arc_value e.code;
      limits = e.limits;
      base = e.base.entries;
      entries = e.ledger.journal.entries;
      memory = e.memory;
      tasks = e.tasks.items;
      pool = e.pool;
      output = e.ledger.output.items;
      text = e.ledger.text.items;
      next = e.next;
      turns = e.turns;
      counters = e.counters;
      tried = e.tried.items;
      stop = e.stop;
      certificates = e.certificates.items;
    } };

    ghost invariant = { λ e. IsEngine M.meaning (record {
      code = arc_value e.code;
      limits = e.limits;
      base = e.base.entries;
      entries = e.ledger.journal.entries;
      memory = e.memory;
      tasks = e.tasks.items;
      pool = e.pool;
      output = e.ledger.output.items;
      text = e.ledger.text.items;
      next = e.next;
      turns = e.turns;
      counters = e.counters;
      tried = e.tried.items;
      stop = e.stop;
      certificates = e.certificates.items;
    }) (vec_len e.tried) (vec_capacity e.tried) };
}

impl<M: Runner> Engine<M>
where
    M::Code: Drop,
{
    /// Returns the limits.
    pub fn limits(&self) -> &Limits
        ensures { result.now ≡ self.now.limits }
    {
        &self.limits
    }

    /// Returns the number of events that counted.
    pub fn turns(&self) -> u32
        ensures { result ≡ self.now.turns }
    {
        self.turns
    }

    /// Returns the events that counted, by their kinds. With one seat there was no conflict, and no read that isn't valid.
    pub fn counters(&self) -> &Counters
        ensures told { result.now ≡ self.now.counters }
        ensures lone { self.now.limits.seats ≡ 1 → IsUndisturbed self.now.counters }
    {
        &self.counters
    }

    /// Returns the stop that is kept.
    pub fn stopped(&self) -> Option<Stop>
        ensures { result ≡ self.now.stop }
    {
        self.stop
    }

    /// Returns the certificates that each member is blocked, in order of their numbers, if that is the stop that is kept. Otherwise returns
    /// none.
    pub fn certificates(&self) -> &[Certificate]
        ensures { result.now ≡ self.now.certificates }
    {
        self.certificates.as_slice()
    }

    /// Returns the entries from which it was opened.
    pub fn base(&self) -> &[Entry]
        ensures { result.now ≡ self.now.base }
    {
        self.base.entries()
    }

    /// Returns the entries that it added.
    pub fn journal(&self) -> &[Entry]
        ensures { result.now ≡ self.now.entries }
    {
        self.ledger.journal.entries()
    }

    /// Returns the committed output.
    pub fn output(&self) -> &[i64]
        ensures { result.now ≡ self.now.output }
    {
        self.ledger.output.as_slice()
    }

    /// Returns the lines of the output.
    pub fn text(&self) -> &[u8]
        ensures text { result.now ≡ self.now.text }
        ensures lines { result.now ≡ lines self.now.output }
    {
        self.ledger.text.as_slice()
    }

    /// Returns the attempts that left no entry.
    pub fn tried(&self) -> &[Tried]
        ensures { result.now ≡ self.now.tried }
    {
        self.tried.as_slice()
    }

    /// Returns the task of a seat.
    pub fn task(&self, seat: u32) -> Task
        requires { seat < self.now.limits.seats }
        ensures { result ≡ task_at self.now.tasks seat }
    {
        self.tasks[seat as usize]
    }

    /// Returns the number of cells.
    pub fn cells(&self) -> u32
        ensures { result ≡ length self.now.memory.cells }
    {
        self.memory.cells().len()
    }

    /// Returns the cell at a location.
    pub fn cell(&self, l: Loc) -> &Cell<M::Value>
        requires { l.0 < length self.now.memory.cells }
        ensures { Some result.now ≡ slice_get self.now.memory.cells l.0 }
    {
        self.memory.cells().cell(l)
    }

    /// Returns the committed value of a location. If a seat owns the cell, it is the value that the seat found there.
    pub fn committed(&self, l: Loc) -> Option<&M::Value>
        ensures { option_copied result ≡ committed_at self.now.memory l.0 }
    {
        self.memory.committed(l)
    }
}
