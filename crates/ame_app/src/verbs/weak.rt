//! `weak`: a run of the weak semantics, and the strong run that looks like it.

mod store;

ghost use Rattle.std.specs.Prelude.{◌≡◌, ◌++◌, ◌∷◌, ◌⊎◌, [], IfOk, OnOk, List, length, ℕ};
ghost use Rattle.std.specs.Arc.{arc_value};
ghost use Rattle.ame_io.specs.Lines.{lines};
ghost use Rattle.ame_cli.specs.Ranges.{IsInRange};
ghost use Rattle.ame_cli.specs.declared.command.Command.{Command as Asked};
ghost use Rattle.ame_code.specs.Code.{program_of};
ghost use Rattle.ame_device.specs.declared.told.Told.{Told};
ghost use Rattle.ame_journal.specs.JournalView.{IsFit};
ghost use Rattle.ame_runner.specs.Ended.{IsWeakRunOf, TellsStop, notes_of_stop};
ghost use Rattle.ame_app.specs.Headline.{limits_of};
ghost use Rattle.ame_app.specs.Jobs.{certificates_told, HasLeft, IsWeakRunMade, LeadsToLeft, LeavesFit, TellsWeakly};
ghost use Rattle.ame_app.specs.Verbs.Weak.{alone_with, stop_told, IsEndOf};

use crate::limits::limits_of;
use crate::run_result::{RunResult, WeakEnd};
use crate::verbs::FinishedRun;
use crate::verbs::resume::acts_of;
use ame_check::Replay;
use ame_cli::{Item, Options};
use ame_code::Code;
use ame_device::Device;
use ame_engine::Stop;
use ame_eval::Fragment;
use ame_io::{Sink, lines_of};
use ame_journal::{Certificate, Entry, Journal};
use ame_runner::{WeakRun, WeakStop, weak_run};
use ame_shell::Io;
use ame_store::Store;
use ame_term::NoMemory;
use ame_value::Val;
use ame_weak::{
    Straight, calls_are_told_with, straighten, tries_straighten, weak_calls_are_told,
    weak_runs_are_typed,
};
use std::alloc::Global;
use std::sync::Arc;
use store::store_of;

/// Returns the options of one seat with these turns.
fn alone_with(turns: u32) -> Options
    ensures { result ≡ alone_with turns }
{
    Options {
        workers: 1,
        turns,
        slice: Item::Slice.default(),
    }
}

/// Adds the note of a member that grew too tall to a journal, and returns the stop of the run.
fn tall_of(journal: &mut Journal, entry: Entry) -> Result<Stop, NoMemory>
    requires { IsFit entry }
    ensures stop { IfOk result (λ stop. stop ≡ Stop.Tall entry.number) }
    ensures entries { OnOk result (journal.new.entries ≡ journal.old.entries ++ entry ∷ []) }
{
    let number = entry.number;
    journal.room()?;
    journal.push(entry);
    Ok(Stop::Tall(number))
}

/// Returns why a weak run stops, as a stop of an engine, and the certificates of members that are blocked. Adds the note of the
/// stop to the journal.
fn told_of(
    alloc: Global,
    journal: &mut Journal,
    stop: WeakStop,
) -> Result<(Stop, Vec<Certificate>), NoMemory>
    requires { LeavesFit stop }
    ensures stop { IfOk result (λ told. told.0 ≡ stop_told stop) }
    ensures certificates { IfOk result (λ told. told.1.items ≡ certificates_told stop) }
    ensures entries { OnOk result (journal.new.entries ≡ journal.old.entries ++ notes_of_stop stop) }
{
    match stop {
        WeakStop::Finished => Ok((Stop::Finished, Vec::new(alloc))),
        WeakStop::Blocked(certificates) => Ok((Stop::Blocked, certificates)),
        WeakStop::Spent => Ok((Stop::Spent, Vec::new(alloc))),
        WeakStop::DeviceFault(device) => Ok((Stop::DeviceFault(device), Vec::new(alloc))),
        WeakStop::Tall(entry) => Ok((tall_of(journal, entry)?, Vec::new(alloc))),
        WeakStop::NoMemory => Ok((Stop::NoMemory, Vec::new(alloc))),
    }
}

/// The store and the output of the state to which a journal leads.
struct Rest {
    store: Store<Val>,
    output: Vec<i64>,
}

/// Returns the store and the output to which a journal leads. Costs a run of its entries, with the logarithm of cells and members for each
/// access, and their greatest location.
fn rest_of(alloc: Global, code: &Arc<Code>, journal: &Journal) -> Result<Rest, NoMemory>
    ensures { IfOk result (λ rest. LeadsToLeft (arc_value code.now) journal.now.entries rest.store rest.output.items) }
{
    let acts = acts_of(alloc, journal.entries())?;
    let Ok(replay) = Replay::<Fragment>::along(alloc, code, acts.entries()) else {
        return Err(NoMemory);
    };
    let (cells, _members, output, _next) = replay.into_parts();
    Ok(Rest {
        store: store_of(alloc, cells)?,
        output,
    })
}

/// Returns the end of a weak run: the journal that straightens its labels, with the notes of its tries and of its stop, and the store and
/// the output to which that leads.
fn straightened(
    alloc: Global,
    code: &Arc<Code>,
    limit: u32,
    run: WeakRun,
) -> Result<WeakEnd, NoMemory>
    requires run { IsWeakRunOf (program_of (arc_value code.now)) limit run.labels.items run.tries.items run.stop }
    requires tells { (before : List Told) × (after : List Told)
        × TellsStop (program_of (arc_value code.now)) limit run.labels.items run.tries.items run.turns before after run.stop }
    ensures tells { IfOk result (λ weak. (before after : List Told) → length after ≡ length before
        → TellsStop (program_of (arc_value code.now)) limit run.labels.items run.tries.items run.turns before after run.stop
        → TellsWeakly (program_of (arc_value code.now)) limit weak before after) }
    ensures has_left { IfOk result (HasLeft (arc_value code.now) (limits_of (alone_with limit))) }
    ensures same { IfOk result (IsEndOf run.labels.items run.tries.items run.turns run.stop) }
{
    let accepted = code.accepted();
    tries_straighten(accepted);
    weak_calls_are_told(accepted);
    calls_are_told_with(accepted);
    weak_runs_are_typed(accepted);
    let WeakRun {
        labels,
        tries,
        turns,
        stop,
    } = run;
    let Straight::Journal(journal) = straighten(alloc, accepted, &labels, &tries)? else {
        return Err(NoMemory);
    };
    let mut journal = journal;
    let (stop, certificates) = told_of(alloc, &mut journal, stop)?;
    let Rest { store, output } = rest_of(alloc, code, &journal)?;
    Ok(WeakEnd {
        limits: limits_of(alone_with(limit)),
        labels,
        tries,
        journal,
        turns,
        stop,
        certificates,
        store,
        output,
    })
}

/// Returns the end of a weak run that ran out of memory, so that only its turns are known.
fn untold(alloc: Global, code: &Arc<Code>, limit: u32, turns: u32) -> WeakEnd
    ensures tells { (before after : List Told) → length after ≡ length before
        → TellsWeakly (program_of (arc_value code.now)) limit result before after }
    ensures has_left { HasLeft (arc_value code.now) (limits_of (alone_with limit)) result }
    ensures output { result.output.items ≡ [] }
    ensures stop { result.stop ≡ Stop.NoMemory }
{
    weak_runs_are_typed(code.accepted());
    WeakEnd {
        limits: limits_of(alone_with(limit)),
        labels: Vec::new(alloc),
        tries: Vec::new(alloc),
        journal: Journal::new(alloc),
        turns,
        stop: Stop::NoMemory,
        certificates: Vec::new(alloc),
        store: Store::new(alloc),
        output: Vec::new(alloc),
    }
}

/// The end of a weak run, and its lines.
struct Spoken {
    weak: WeakEnd,
    lines: Vec<u8>,
}

/// Returns the end of a weak run and its lines.
fn end_with_lines(
    alloc: Global,
    code: &Arc<Code>,
    limit: u32,
    run: WeakRun,
) -> Result<Spoken, NoMemory>
    requires run { IsWeakRunOf (program_of (arc_value code.now)) limit run.labels.items run.tries.items run.stop }
    requires tells { (before : List Told) × (after : List Told)
        × TellsStop (program_of (arc_value code.now)) limit run.labels.items run.tries.items run.turns before after run.stop }
    ensures tells { IfOk result (λ spoken. (before after : List Told) → length after ≡ length before
        → TellsStop (program_of (arc_value code.now)) limit run.labels.items run.tries.items run.turns before after run.stop
        → TellsWeakly (program_of (arc_value code.now)) limit spoken.weak before after) }
    ensures has_left { IfOk result (λ spoken. HasLeft (arc_value code.now) (limits_of (alone_with limit)) spoken.weak) }
    ensures lines { IfOk result (λ spoken. spoken.lines.items ≡ lines spoken.weak.output.items) }
    ensures same { IfOk result (λ spoken. IsEndOf run.labels.items run.tries.items run.turns run.stop spoken.weak) }
{
    let weak = straightened(alloc, code, limit, run)?;
    let lines = lines_of(alloc, &weak.output)?;
    Ok(Spoken { weak, lines })
}

/// Returns the same, or, when out of memory, the turns alone.
fn end_or_turns(alloc: Global, code: &Arc<Code>, limit: u32, run: WeakRun) -> Spoken
    requires run { IsWeakRunOf (program_of (arc_value code.now)) limit run.labels.items run.tries.items run.stop }
    requires tells { (before : List Told) × (after : List Told)
        × TellsStop (program_of (arc_value code.now)) limit run.labels.items run.tries.items run.turns before after run.stop }
    ensures tells { (before after : List Told) → length after ≡ length before
        → TellsStop (program_of (arc_value code.now)) limit run.labels.items run.tries.items run.turns before after run.stop
        → TellsWeakly (program_of (arc_value code.now)) limit result.weak before after }
    ensures has_left { HasLeft (arc_value code.now) (limits_of (alone_with limit)) result.weak }
    ensures lines { result.lines.items ≡ lines result.weak.output.items }
    ensures same { (result.weak.stop ≡ Stop.NoMemory) ⊎ IsEndOf run.labels.items run.tries.items run.turns run.stop result.weak }
{
    let turns = run.turns;
    match end_with_lines(alloc, code, limit, run) {
        Ok(spoken) => spoken,
        Err(NoMemory) => Spoken {
            weak: untold(alloc, code, limit, turns),
            lines: Vec::new(alloc),
        },
    }
}

/// Runs code under the weak semantics, by the choices of a seed. When out of memory after the last choice, only the turns are known, and
/// the journal is empty.
pub(crate) fn run<K, D>(
    alloc: Global,
    code: &Arc<Code>,
    seed: u32,
    turns: u32,
    io: Io<K, D>,
) -> FinishedRun<K, D>
where
    K: Sink + Drop,
    D: Device,
    requires range { IsInRange (Asked.Weak seed turns) }
    ensures { IsWeakRunMade seed turns (arc_value code.now) io.ends result.left result.ahead.items result.io.ends }
{
    let (sink, mut devices) = io.into_parts();
    let run = weak_run(alloc, code.accepted(), turns, seed, &mut devices);
    let Spoken { weak, lines } = end_or_turns(alloc, code, turns, run);
    FinishedRun {
        left: RunResult::Weak(weak),
        ahead: lines,
        io: Io::new(sink, devices),
    }
}
