//! Turns as contracts see them.

ghost use Rattle.std.specs.Prelude.{◌≡◌};
ghost use Rattle.ame_shell.specs.Shell.{shell_view};
ghost use Rattle.ame_worker.specs.Turns.{turn_by};

use ame_device::Device;
use ame_io::Sink;
use ame_machine::Runner;
use ame_shell::{Outcome, Shell, Work};
use std::marker::Model;
use std::snapshot::Snapshot;

/// A turn of a seat, as contracts see it: the seat's work in flight, the shell that it took, what came of it, and the shell then.
#[derive(Drop)]
pub struct TurnRecord<M: Runner, K: Sink, D: Device>
where
    M::Code: Drop,
{
    seat: u32,
    hand: Snapshot<Work<M>>,
    old: Snapshot<Shell<M, K, D>>,
    outcome: Outcome,
    new: Snapshot<Shell<M, K, D>>,
}

impl<M: Runner, K: Sink, D: Device> Model for TurnRecord<M, K, D>
where
    M::Code: Drop,
{
    ghost use Rattle.ame_shell.specs.Shell.{shell_view};
    ghost use Rattle.ame_worker.specs.Turns.{TurnView, turn_by};

    ghost Value = { TurnView M.Code M.Value M };

    ghost view = { λ t. turn_by t.seat t.hand.value (shell_view t.old.value) t.outcome (shell_view t.new.value) };
}

/// The begin of a seat's turn, as contracts see it.
#[derive(Drop)]
pub(crate) struct Before<M: Runner, K: Sink, D: Device>
where
    M::Code: Drop,
{
    pub hand: Snapshot<Work<M>>,
    pub shell: Snapshot<Shell<M, K, D>>,
}

impl<M: Runner, K: Sink, D: Device> Before<M, K, D>
where
    M::Code: Drop,
{
    /// Records a seat's work in flight and the shell, before its turn.
    pub fn of(hand: &Work<M>, shell: &Shell<M, K, D>) -> Before<M, K, D>
        ensures hand { result.hand.value ≡ hand.now }
        ensures shell { result.shell.value ≡ shell.now }
    {
        Before {
            hand: Snapshot::of(hand),
            shell: Snapshot::of(shell),
        }
    }

    /// Makes the turn of a seat from here to this shell.
    pub fn to(self, seat: u32, outcome: Outcome, shell: &Shell<M, K, D>) -> TurnRecord<M, K, D>
        ensures { result ≡ turn_by seat self.hand.value (shell_view self.shell.value) outcome (shell_view shell.now) }
    {
        let Before { hand, shell: old } = self;
        TurnRecord {
            seat,
            hand,
            old,
            outcome,
            new: Snapshot::of(shell),
        }
    }
}
