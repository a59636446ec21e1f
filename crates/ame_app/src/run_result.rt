//! The results of a run.

ghost use Rattle.std.specs.Prelude.{◌≡◌, option_map};
ghost use Rattle.ame_app.specs.RunResult.{end_in, engine_in};

use crate::lists::Mades;
use ame_code::Code;
use ame_engine::Ended;
use ame_journal::{Certificate, Entry, Journal};
use ame_protocol::{Limits, Stop, Tried};
use ame_store::Store;
use ame_term::Label;
use ame_value::Val;
use ame_weak::Try;
use std::sync::Arc;

/// A run that is over: the code that was run, and what the run left.
#[derive(Drop)]
pub struct Ran {
    pub code: Arc<Code>,
    pub left: RunResult,
}

/// The results of a run, by the kind of run.
#[derive(Drop)]
pub enum RunResult {
    /// An engine made the run, and the command adds this.
    Engine(Ended<Val>, Extra),
    /// The run was weak.
    Weak(WeakEnd),
}

/// The part that a command adds to the engine's end.
#[derive(Drop)]
pub enum Extra {
    Nothing,
    /// The picks of a run on one thread, with what each of them did.
    Picked(Mades),
    /// The number of entries from which the run went on.
    Resumed(u64),
}

/// The end of a weak run, and the strong run with the same output and store.
#[derive(Drop)]
pub struct WeakEnd {
    pub limits: Limits,
    /// The labels of the weak run, in order.
    pub labels: Vec<Label>,
    /// The attempts that left no entry.
    pub tries: Vec<Try>,
    /// The entries of the strong run, with a note for each attempt.
    pub journal: Journal,
    /// The number of turns of the weak run.
    pub turns: u32,
    pub stop: Stop,
    /// A certificate for each member that is left, if all are blocked.
    pub certificates: Vec<Certificate>,
    pub store: Store<Val>,
    pub output: Vec<i64>,
}

impl RunResult {
    /// Returns the engine's end, if an engine made the run.
    pub fn ended(&self) -> Option<&Ended<Val>>
        ensures { option_map (λ end. end.now) result ≡ engine_in self.now }
    {
        match self {
            RunResult::Engine(ended, _) => Some(ended),
            RunResult::Weak(_) => None,
        }
    }

    /// Returns the entries from which the run went on.
    pub fn base(&self) -> &[Entry]
        ensures { result.now ≡ (end_in self.now).base }
    {
        match self {
            RunResult::Engine(ended, _) => ended.base(),
            RunResult::Weak(_) => &[],
        }
    }

    /// Returns the entries of the run after those from which it went on.
    pub fn journal(&self) -> &[Entry]
        ensures { result.now ≡ (end_in self.now).entries }
    {
        match self {
            RunResult::Engine(ended, _) => ended.journal(),
            RunResult::Weak(weak) => weak.journal.entries(),
        }
    }

    /// Returns the number of turns of the run.
    pub fn turns(&self) -> u32
        ensures { result ≡ (end_in self.now).turns }
    {
        match self {
            RunResult::Engine(ended, _) => ended.turns(),
            RunResult::Weak(weak) => weak.turns,
        }
    }

    /// Returns the attempts of an engine's run that left no entry. The journal of a weak run notes its own.
    pub fn tried(&self) -> &[Tried]
        ensures { result.now ≡ (end_in self.now).tried }
    {
        match self {
            RunResult::Engine(ended, _) => ended.tried(),
            RunResult::Weak(_) => &[],
        }
    }

    /// Returns why the run stopped.
    pub fn stopped(&self) -> Option<Stop>
        ensures { result ≡ (end_in self.now).stop }
    {
        match self {
            RunResult::Engine(ended, _) => ended.stopped(),
            RunResult::Weak(weak) => Some(weak.stop),
        }
    }

    /// Returns a certificate for each member that is left, in order of their numbers, if all are blocked.
    pub fn certificates(&self) -> &[Certificate]
        ensures { result.now ≡ (end_in self.now).certificates }
    {
        match self {
            RunResult::Engine(ended, _) => ended.certificates(),
            RunResult::Weak(weak) => weak.certificates.as_slice(),
        }
    }

    /// Returns the cells that the run left.
    pub fn store(&self) -> &Store<Val>
        ensures { result.now ≡ (end_in self.now).cells }
    {
        match self {
            RunResult::Engine(ended, _) => ended.store(),
            RunResult::Weak(weak) => &weak.store,
        }
    }

    /// Returns the integers that the run printed.
    pub fn output(&self) -> &[i64]
        ensures { result.now ≡ (end_in self.now).output }
    {
        match self {
            RunResult::Engine(ended, _) => ended.output(),
            RunResult::Weak(weak) => weak.output.as_slice(),
        }
    }
}
