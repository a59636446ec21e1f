//! One place at the turn.
ghost use Rattle.std.specs.Prelude.{◌≡◌, ◌≤◌, IsSome, length};
ghost use Rattle.crossbeam_queue.specs.Passes.{view};
ghost use Rattle.ame_baton.specs.declared.state.TheConstants.{SEAT_LIMIT};

use crate::state::Rowed;
use crate::view::Knows;
use crossbeam_queue::Pass;

mod number;

/// A seat of a baton for the state `S`, whose fixed part, rows and entries are F, R and E.
pub struct SeatAt<S, F, R, E> {
    pub(crate) pass: Pass<S, Knows<F, R, E>>,
    pub(crate) number: u32,
    pub(crate) made: u32,
    ghost numbered: { (view pass).number ≡ number },
    ghost counted: { (view pass).made ≡ made },
    ghost few: { (view pass).seats ≤ SEAT_LIMIT },
    ghost seated: { IsSome (view pass).fixed },
    ghost joined_by_none: { length (view pass).ended ≡ 0 },
}

/// A seat of a baton for the state `S`.
pub type Seat<S> = SeatAt<S, <S as Rowed>::Fixed, <S as Rowed>::Row, <S as Rowed>::Entry>;

impl<S, F, R, E> SeatAt<S, F, R, E> {
    pub(crate) fn into_pass(self) -> Pass<S, Knows<F, R, E>>
        ensures { result ≡ self.pass }
    {
        let Self {
            pass,
            number: _,
            made: _,
        } = self;
        pass
    }
}

impl<S, F, R, E> Drop for SeatAt<S, F, R, E> {
    fn drop(self) {
        let Self {
            pass: _,
            number: _,
            made: _,
        } = self;
    }
}
