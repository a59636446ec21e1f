//! A shell that workers share.

ghost use Rattle.std.specs.Prelude.{◌≡◌, ◌<◌, vec_len, slice_set};
ghost use Rattle.ame_shell.specs.Ready.{CanBePrepared};
ghost use Rattle.ame_shell.specs.Shell.{shell_view};
ghost use Rattle.ame_shell.specs.Turned.{MayTurn, LeavesInOrder};
ghost use Rattle.ame_worker.specs.Shared.{keeping};

use crate::turns::{Before, TurnRecord};
use ame_baton::Rowed;
use ame_device::Device;
use ame_io::Sink;
use ame_machine::Runner;
use ame_shell::{Shell, Turn, Work};
use ame_trace::Trace;
use std::marker::Model;
use std::snapshot::Snapshot;

/// The place of a seat that gives the turn: its work in flight, as contracts see it, and whether a stop was kept then.
#[derive(Drop)]
pub struct SeatPlace<M> {
    hand: Snapshot<Work<M>>,
    marked: bool,
}

impl<M> Model for SeatPlace<M> {
    ghost use Rattle.ame_worker.specs.Rows.{Kept};

    ghost Value = { Kept M };

    ghost view = { λ p. record { hand = p.hand.value; marked = p.marked } };
}

impl<M> SeatPlace<M> {
    /// Keeps this work in flight.
    pub(crate) fn new(hand: &Work<M>, marked: bool) -> SeatPlace<M>
        ensures hand { result.hand ≡ hand.now }
        ensures marked { result.marked ≡ marked }
    {
        SeatPlace {
            hand: Snapshot::of(hand),
            marked,
        }
    }
}

/// A shell that workers share, with a place for each seat, the turns that led to it, and the shell as it was made. It is small, so that
/// it passes from seat to seat at little cost.
#[derive(Drop)]
pub struct Shared<M: Runner, K: Sink, D: Device>
where
    M::Code: Drop,
{
    pub shell: Box<Shell<M, K, D>>,
    pub places: Vec<SeatPlace<M>>,
    pub turns: Trace<TurnRecord<M, K, D>>,
    pub made: Snapshot<Shell<M, K, D>>,
}

impl<M: Runner, K: Sink, D: Device> Shared<M, K, D>
where
    M::Code: Drop,
{
    ghost use Rattle.ame_worker.specs.Turns.{turn_by, HasJoined};

    /// Returns the shell, which no worker shares any more.
    pub fn into_shell(self) -> Shell<M, K, D>
        ensures { result ≡ self.shell.value }
    {
        let Shared {
            shell,
            places: _,
            turns: _,
            made: _,
        } = self;
        Box::into_inner(shell)
    }

    /// Makes one event of a seat that has the turn. It joins the turns.
    pub(crate) fn play(&mut self, code: &M::Code, seat: u32, work: &mut Work<M>) -> Turn
        requires may { MayTurn M.meaning code.now seat (shell_view self.old.shell.value) work.old }
        ensures joins { HasJoined M.meaning (turn_by seat work.old (shell_view self.old.shell.value) result.outcome (shell_view self.new.shell.value))
            result.member self.old.turns self.new.turns }
        ensures leaves { LeavesInOrder M.meaning code.now seat (shell_view self.old.shell.value) (shell_view self.new.shell.value) work.new }
        ensures can { CanBePrepared M.meaning.is_machine M.meaning.stage code.now self.new.shell.value.engine.limits.slice work.new }
        ensures rest { self.new ≡ record self.old { shell = self.new.shell; turns = self.new.turns } }
    {
        self.shell.engine.stands();
        let before = Before::of(work, &self.shell);
        let turn = self.shell.turn(code, seat, work);
        let record = before.to(seat, turn.outcome, &self.shell);
        self.turns.push(&record);
        turn
    }

    /// Keeps a seat's work in flight, at the end of its turns.
    pub(crate) fn keep(&mut self, seat: u32, hand: &Work<M>)
        requires there { seat < vec_len self.old.places }
        ensures places { self.new.places.items ≡ slice_set self.old.places.items seat (keeping self.old.shell.value.engine hand.now) }
        ensures rest { self.new ≡ record self.old { places = self.new.places } }
    {
        let marked = self.shell.engine.stopped().is_some();
        self.places[seat as usize] = SeatPlace::new(hand, marked);
    }
}

/// The opening of a shared shell. No value of it is made.
pub struct Opened<M: Runner, K: Sink, D: Device>
where
    M::Code: Drop,
{
    made: Snapshot<Shell<M, K, D>>,
    first: Snapshot<Shell<M, K, D>>,
}

impl<M: Runner, K: Sink, D: Device> Model for Opened<M, K, D>
where
    M::Code: Drop,
{
    ghost use Rattle.ame_shell.specs.Shell.{shell_view};
    ghost use Rattle.ame_worker.specs.Shared.{OpenedView};

    ghost Value = { OpenedView M.Code M.Value M };

    ghost view = { λ o. record {
      made = shell_view o.made.value;
      first = shell_view o.first.value;
    } };
}

/// The row of a seat: what is kept for it, and what the engine has of it. No value of it is made.
pub struct SeatRow<M> {
    hand: Snapshot<Work<M>>,
}

impl<M> Model for SeatRow<M> {
    ghost use Rattle.ame_worker.specs.Rows.{SeatRow, empty_row};

    ghost Value = { SeatRow M };

    ghost view = { λ _. empty_row };
}

impl<M: Runner, K: Sink, D: Device> Rowed for Shared<M, K, D>
where
    M::Code: Drop,
{
    type Fixed = Opened<M, K, D>;

    type Row = SeatRow<M>;

    type Entry = TurnRecord<M, K, D>;

    ghost use Rattle.ame_shell.specs.Shell.{shell_view};
    ghost use Rattle.ame_worker.specs.Rows.{empty_row};
    ghost use Rattle.ame_worker.specs.Shared.{IsShared};
    ghost use Rattle.ame_worker.specs.Turns.{maker};

    ghost stands_for = { λ s opened rows told. IsShared M.meaning opened
        (shell_view s.shell.value) s.places.items s.turns rows told };

    ghost opening = { λ s. record {
      made = shell_view s.made.value;
      first = shell_view s.shell.value;
    } };

    ghost seats_in = { λ opened. opened.made.core.limits.seats };

    ghost empty_row = { empty_row };

    ghost seat_of = { maker };
}
