//! The calls by which a seat takes the turn and gives it back.
ghost use Rattle.std.specs.Prelude.{◌≡◌, true, false, IfOk, OnErr};
ghost use Rattle.ame_baton.specs.Seats.{Takes, IsElsewhere, MayGive, Gives};
ghost use Rattle.ame_baton.specs.Batons.{knows, IsSeatOf};

use super::Baton;
use crate::seats::Seat;
use crate::state::{Leaves, Rowed};
use crate::steps;
use std::sync::Wait;
use std::thread;

/// The answer that the turn was elsewhere. Only a try to take it makes one.
#[derive(Clone, Copy, PartialEq, Eq, Debug)]
pub struct Elsewhere {
    tried: (),
}

impl<S: Rowed> Baton<S> {
    /// Makes one pop. It takes no memory.
    pub fn try_take<R: Wait>(&self, rt: &R, seat: &mut Seat<S>) -> Result<S, Elsewhere>
        requires of { IsSeatOf self.now seat.old }
        requires free { (knows seat.old).holds ≡ false }
        ensures of { IsSeatOf self.now seat.new }
        ensures taken { let before = knows seat.old in
            IfOk result (λ state. Takes S.stands_for S.seat_of before state (knows seat.new)) }
        ensures busy { OnErr result (IsElsewhere (knows seat.old)) }
        ensures same { OnErr result (knows seat.new ≡ knows seat.old) }
    {
        let taken = self.queue.pop_as::<steps::Pop<S>, R>(rt, &mut seat.pass);
        taken.ok_or(Elsewhere { tried: () })
    }

    /// Tries until the turn is there. Between two tries it yields.
    pub fn take<R: Wait>(&self, rt: &R, seat: &mut Seat<S>) -> S
        requires of { IsSeatOf self.now seat.old }
        requires free { (knows seat.old).holds ≡ false }
        ensures of { IsSeatOf self.now seat.new }
        ensures taken { Takes S.stands_for S.seat_of (knows seat.old) result (knows seat.new) }
    {
        for _ in rt.forever() {
            if let Ok(state) = self.try_take(rt, seat) {
                return state;
            }
            thread::yield_now();
        }
        unreachable!()
    }

    /// Puts the state back. Which row the seat leaves is the state's to say, and `M`'s if the state
    /// doesn't show it. It takes no memory.
    pub fn give<M: Leaves<S::Row>, R: Wait>(&self, rt: &R, seat: &mut Seat<S>, state: S)
        requires of { IsSeatOf self.now seat.old }
        requires holds { (knows seat.old).holds ≡ true }
        requires may { MayGive S.stands_for S.seat_of M.leaves (knows seat.old) state }
        ensures of { IsSeatOf self.now seat.new }
        ensures given { Gives S.stands_for S.seat_of M.leaves (knows seat.old) state (knows seat.new) }
    {
        match self
            .queue
            .push_as::<steps::Push<S, M>, R>(rt, &mut seat.pass, state)
        {
            Ok(()) => (),
            Err(_) => unreachable!(),
        }
    }
}
