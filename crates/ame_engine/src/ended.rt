//! The end of an engine.

ghost use Rattle.std.specs.Prelude.{◌≡◌, All};
ghost use Rattle.ame_store.specs.Cells.{IsFree};

use ame_journal::{Certificate, Entry, Journal};
use ame_protocol::{Counters, Limits, Stop, Tried};
use ame_store::Store;
use std::marker::Model;

/// Holds what an engine had at its end. Only an engine that was taken apart gives one, and no call changes it.
pub struct Ended<V> {
    pub(crate) limits: Limits,
    pub(crate) base: Journal,
    pub(crate) journal: Journal,
    pub(crate) store: Store<V>,
    pub(crate) output: Vec<i64>,
    pub(crate) turns: u32,
    pub(crate) counters: Counters,
    pub(crate) tried: Vec<Tried>,
    pub(crate) stop: Option<Stop>,
    pub(crate) certificates: Vec<Certificate>,
}

impl<V: Drop> Drop for Ended<V> {
    fn drop(self) {
        let Ended {
            limits: _,
            base: _,
            journal: _,
            store: _,
            output: _,
            turns: _,
            counters: _,
            tried: _,
            stop: _,
            certificates: _,
        } = self;
    }
}

impl<V> Model for Ended<V> {
    ghost use Rattle.ame_engine.specs.Ending.{End};

    ghost Value = { End V };

    ghost use Rattle.std.specs.Prelude.{All};
    ghost use Rattle.ame_store.specs.Cells.{IsFree};

    ghost view = { λ e. record {
      limits = e.limits;
      base = e.base.entries;
      entries = e.journal.entries;
      cells = e.store;
      output = e.output.items;
      turns = e.turns;
      counters = e.counters;
      tried = e.tried.items;
      stop = e.stop;
      certificates = e.certificates.items;
    } };

    ghost invariant = { λ e. All IsFree e.store };
}

impl<V> Ended<V> {
    /// Returns the limits with which the engine was opened.
    pub fn limits(&self) -> &Limits
        ensures { result.now ≡ self.now.limits }
    {
        &self.limits
    }

    /// Returns the entries from which the engine was opened.
    pub fn base(&self) -> &[Entry]
        ensures { result.now ≡ self.now.base }
    {
        self.base.entries()
    }

    /// Returns the entries that it added.
    pub fn journal(&self) -> &[Entry]
        ensures { result.now ≡ self.now.entries }
    {
        self.journal.entries()
    }

    /// Returns the cells that it left. None has an owner.
    pub fn store(&self) -> &Store<V>
        ensures cells { result.now ≡ self.now.cells }
        ensures free { All IsFree self.now.cells }
    {
        &self.store
    }

    /// Returns the committed output.
    pub fn output(&self) -> &[i64]
        ensures { result.now ≡ self.now.output }
    {
        self.output.as_slice()
    }

    /// Returns the number of events that counted.
    pub fn turns(&self) -> u32
        ensures { result ≡ self.now.turns }
    {
        self.turns
    }

    /// Returns the events that counted, by their kinds.
    pub fn counters(&self) -> &Counters
        ensures { result.now ≡ self.now.counters }
    {
        &self.counters
    }

    /// Returns the attempts that left no entry.
    pub fn tried(&self) -> &[Tried]
        ensures { result.now ≡ self.now.tried }
    {
        self.tried.as_slice()
    }

    /// Returns the stop that was kept.
    pub fn stopped(&self) -> Option<Stop>
        ensures { result ≡ self.now.stop }
    {
        self.stop
    }

    /// Returns the certificates that each member is blocked, in order of their numbers, if that is the stop. Otherwise returns none.
    pub fn certificates(&self) -> &[Certificate]
        ensures { result.now ≡ self.now.certificates }
    {
        self.certificates.as_slice()
    }
}
