//! A whole run of a program on one thread.

ghost use Rattle.std.specs.Prelude.{◌≡◌, ◌<◌, ◌≤◌, ◌⊎◌, ℕ, Bool, List, None, IsSome, IfOk, IfErr, true, false, [], OnOk, OnErr, length};
ghost use Rattle.std.specs.Arc.{arc_value};
ghost use Rattle.ame_sim.specs.Questions.{questions, seats_of, who_waits};
ghost use Rattle.ame_sim.specs.Strategy.{PicksSeats};
ghost use Rattle.ame_engine.specs.Whole.{AreLimits};
ghost use Rattle.ame_shell.specs.Over.{IsOver};
ghost use Rattle.ame_shell.specs.Shell.{Opening, ShellView, IsShell};
ghost use Rattle.ame_sim.specs.Crew.{AreResting, left_to_play};
ghost use Rattle.ame_sim.specs.Picks.{picks_of, HasAnswered};
ghost use Rattle.ame_sim.specs.Run.{IsPlaying, IsPlayed};

use crate::book::Book;
use crate::chooser::Chooser;
use crate::crew::Crew;
use crate::packed::PackedMades;
use ame_device::Device;
use ame_io::Sink;
use ame_machine::Runner;
use ame_protocol::Limits;
use ame_shell::{Io, Remains};
use ame_term::NoMemory;
use std::alloc::Global;
use std::sync::Arc;

/// The remains of a run on one thread, and its picks with their outcomes.
#[derive(Drop)]
pub struct Played<V, K: Sink, D: Device> {
    pub left: Remains<V, K, D>,
    pub mades: PackedMades,
}

/// Asks the chooser one question, and gives the seat that it picks its turn. If it runs out of memory, it has done nothing.
fn pick<M: Runner, K: Sink, D: Device, H: Chooser>(
    crew: &mut Crew<M, K, D>,
    book: &mut Book,
    chooser: &mut H,
) -> Result<(), NoMemory>
where
    M::Code: Drop,
    requires limits { AreLimits crew.old.core.limits }
    requires going { crew.old.core.stop ≡ None }
    requires waits { book.old.waits ≡ who_waits crew.old.core.limits.seats (picks_of book.old.mades.items) }
    requires rests { AreResting book.old.waits crew.old.core }
    ensures plays { (first : ShellView M.Code M.Value M) → IsPlaying M.meaning crew.old.core.limits.seats first crew.old book.old.mades.items
        → IsPlaying M.meaning crew.old.core.limits.seats first crew.new book.new.mades.items }
    ensures answers { HasAnswered crew.old.core.limits.seats (H.strategy chooser.old) book.old.mades.items (H.strategy chooser.new) book.new.mades.items }
    ensures keeps { (opening : Opening M.Code) → IsShell M.meaning opening crew.old → IsShell M.meaning opening crew.new }
    ensures limits { crew.new.core.limits ≡ crew.old.core.limits }
    ensures waits { book.new.waits ≡ who_waits crew.old.core.limits.seats (picks_of book.new.mades.items) }
    ensures rests { crew.new.core.stop ≡ None → AreResting book.new.waits crew.new.core }
    ensures less { OnOk result (left_to_play crew.new.core book.new.waits < left_to_play crew.old.core book.old.waits) }
    ensures stays { OnErr result (crew.new ≡ crew.old) }
{
    crew.who_waits_waits_for_a_seat();
    book.make_room()?;
    let seat = chooser.choose(book.waits.may_be_picked())?;
    let made = crew.turn(seat);
    book.note(made);
    Ok(())
}

/// Gives turns to the seats that the chooser picks, until a stop is kept.
fn play<M: Runner, K: Sink, D: Device, H: Chooser>(
    crew: &mut Crew<M, K, D>,
    book: &mut Book,
    chooser: &mut H,
)
where
    M::Code: Drop,
    requires limits { AreLimits crew.old.core.limits }
    requires waits { book.old.waits ≡ who_waits crew.old.core.limits.seats (picks_of book.old.mades.items) }
    requires rests { AreResting book.old.waits crew.old.core }
    ensures plays { (first : ShellView M.Code M.Value M) → IsPlaying M.meaning crew.old.core.limits.seats first crew.old book.old.mades.items
        → IsPlaying M.meaning crew.old.core.limits.seats first crew.new book.new.mades.items }
    ensures answers { HasAnswered crew.old.core.limits.seats (H.strategy chooser.old) book.old.mades.items (H.strategy chooser.new) book.new.mades.items }
    ensures keeps { (opening : Opening M.Code) → IsShell M.meaning opening crew.old → IsShell M.meaning opening crew.new }
    ensures stopped { IsSome crew.new.core.stop }
{
    while crew.goes_on() {
        let Ok(()) = pick(crew, book, chooser) else {
            crew.give_up();
            return;
        };
    }
}

/// Runs a program to its end, by as many seats as the limits have, on one thread. The chooser picks the seat of each turn. If it
/// runs out of memory before the run begins, it returns sink and devices as they were.
pub fn run_by_chooser<M, K, D, H>(
    alloc: Global,
    code: Arc<M::Code>,
    limits: Limits,
    io: Io<K, D>,
    chooser: &mut H,
) -> Result<Played<M::Value, K, D>, Io<K, D>>
where
    M: Runner,
    M::Code: Drop,
    K: Sink + Drop,
    D: Device,
    H: Chooser,
    requires limits { AreLimits limits }
    requires devices { (M.meaning.signature (arc_value code)).devices ≤ length io.ends.told }
    ensures over { IfOk result (λ played. IsOver (M.meaning.program (arc_value code)) (M.meaning.signature (arc_value code)) limits (M.meaning.value_of (arc_value code)) io.ends
        played.left.ended played.left.io.ends) }
    ensures played { IfOk result (λ played. IsPlayed M.meaning (record {
      code = arc_value code;
      limits = limits;
      base = [];
      ends = io.ends;
    }) played.mades.items played.left.ended) }
    ensures answers { IfOk result (λ played. PicksSeats (H.strategy chooser.old) (questions limits.seats (picks_of played.mades.items))
        (seats_of (picks_of played.mades.items)) (H.strategy chooser.new)) }
    ensures back { IfErr result (λ back. back ≡ io) }
{
    let Ok(book) = Book::new(alloc, limits.seats) else {
        return Err(io);
    };
    let mut book = book;
    let mut crew = match Crew::<M, K, D>::open(alloc, code, limits, io) {
        Ok(crew) => crew,
        Err(back) => return Err(back),
    };
    play(&mut crew, &mut book, chooser);
    crew.unwind_all();
    let Book { waits: _, mades } = book;
    Ok(Played {
        left: crew.finish(),
        mades,
    })
}
