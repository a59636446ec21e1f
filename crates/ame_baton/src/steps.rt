//! The rule of the queue, and the four kinds of step that keep it: push, pop, split and join.
use crate::state::{Leaves, Rowed};
use crate::view::Knows;
use crossbeam_queue::protocol::{Join, Lesson, Outcome, Protocol, Split};
use std::marker::PhantomData;

/// The knowledge of the seats of a shared state.
pub(crate) type View<S> = Knows<<S as Rowed>::Fixed, <S as Rowed>::Row, <S as Rowed>::Entry>;

/// The turn is in one place: in the queue, or with one seat.
pub struct TurnRule<S> {
    of: PhantomData<S>,
}

impl<S: Rowed> Protocol<S, Knows<S::Fixed, S::Row, S::Entry>> for TurnRule<S> {
    ghost use Rattle.ame_baton.specs.Rule.{Turns, nothing_known};

    ghost holds = { Turns S.stands_for S.empty_row S.seat_of };

    ghost first = { nothing_known S.empty_row };
}

/// The first push. It makes the unopened view that of seat 0.
pub struct Opens<S> {
    of: PhantomData<S>,
}

impl<S: Rowed> Outcome<S, Knows<S::Fixed, S::Row, S::Entry>> for Opens<S> {
    ghost use Rattle.std.specs.Prelude.{◌≡◌};
    ghost use Rattle.ame_baton.specs.Seats.{first_seat};

    ghost then = { λ v x w. w ≡ first_seat (S.opening x) (S.seats_in (S.opening x)) S.empty_row };
}

impl<S: Rowed> Lesson<S, Knows<S::Fixed, S::Row, S::Entry>> for Opens<S> {
    ghost use Rattle.std.specs.Prelude.{◌≡◌, []};

    ghost fact = { λ v items. items ≡ [] };
}

/// A pop: the seat takes the turn.
pub struct Pop<S> {
    of: PhantomData<S>,
}

impl<S: Rowed> Outcome<S, Knows<S::Fixed, S::Row, S::Entry>> for Pop<S> {
    ghost use Rattle.ame_baton.specs.Rule.{Popped};

    ghost then = { Popped S.stands_for S.empty_row S.seat_of };
}

impl<S: Rowed> Lesson<S, Knows<S::Fixed, S::Row, S::Entry>> for Pop<S> {
    ghost use Rattle.std.specs.Prelude.{◌≡◌, []};
    ghost use Rattle.ame_baton.specs.Seats.{IsElsewhere};

    ghost fact = { λ v items. items ≡ [] → IsElsewhere v };
}

/// A push: the seat gives the turn, and leaves a row that `M` allows.
pub struct Push<S, M> {
    of: PhantomData<(S, M)>,
}

impl<S: Rowed, M: Leaves<S::Row>> Outcome<S, Knows<S::Fixed, S::Row, S::Entry>> for Push<S, M> {
    ghost use Rattle.ame_baton.specs.Seats.{Gives};

    ghost then = { Gives S.stands_for S.seat_of M.leaves };
}

impl<S: Rowed, M: Leaves<S::Row>> Lesson<S, Knows<S::Fixed, S::Row, S::Entry>> for Push<S, M> {
    ghost use Rattle.std.specs.Prelude.{◌≡◌, []};

    ghost fact = { λ v items. items ≡ [] };
}

/// A split: the first seat makes the next one.
pub struct Seats<S> {
    of: PhantomData<S>,
}

impl<S: Rowed> Split<Knows<S::Fixed, S::Row, S::Entry>> for Seats<S> {
    ghost use Rattle.std.specs.Prelude.{◌+◌};
    ghost use Rattle.ame_baton.specs.Seats.{next_seat};

    ghost left = { λ v. record v { made = v.made + 1 } };

    ghost right = { λ v. next_seat v S.empty_row };
}

/// A join: the first seat keeps what another one left.
pub struct Rejoin<S> {
    of: PhantomData<S>,
}

impl<S: Rowed> Join<Knows<S::Fixed, S::Row, S::Entry>> for Rejoin<S> {
    ghost use Rattle.std.specs.Prelude.{[], ◌∷◌, ◌++◌};
    ghost use Rattle.ame_baton.specs.Seats.{left_by};
    ghost use Rattle.ame_baton.specs.Rule.{nothing_known};

    ghost both = { λ v w. record v { ended = v.ended ++ left_by w ∷ [] } };

    ghost spent = { nothing_known S.empty_row };
}
