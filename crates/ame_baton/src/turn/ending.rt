//! The end of a baton: the state comes out of it.
ghost use Rattle.std.specs.Prelude.{◌≡◌, ◌+◌, [], ◌∷◌, ◌++◌, length, vec_len};
ghost use Rattle.crossbeam_queue.specs.Passes.{view, IsPassOf};
ghost use Rattle.ame_baton.specs.Seats.{left_by, HasEnded};
ghost use Rattle.ame_baton.specs.Rule.{IsFirst, with_ended};
ghost use Rattle.ame_baton.specs.Batons.{knows, left_by_each, IsReadySeat, AreReady};

use super::Baton;
use crate::seats::Seat;
use crate::state::Rowed;
use crate::steps::{Pop, Rejoin, View};
use crossbeam_queue::Pass;
use std::sync::Wait;

impl<S: Rowed> Baton<S> {
    /// Takes the state out, once every seat that was made is handed back, in the order of their numbers.
    /// It takes no memory.
    pub fn end<R: Wait>(self, rt: &R, first: Seat<S>, rest: Vec<Seat<S>>) -> S
    where
        S: Drop,
        requires first { IsReadySeat self 0 first }
        requires rest { AreReady self 1 rest.items }
        requires all { (knows first).made ≡ vec_len rest + 1 }
        ensures { HasEnded S.stands_for S.empty_row S.seat_of
            (knows first).fixed (left_by (knows first) ∷ left_by_each rest.items) result }
    {
        let mut pass = first.into_pass();
        self.join_all(&mut pass, rest);
        match self.queue.pop_as::<Pop<S>, R>(rt, &mut pass) {
            Some(state) => state,
            None => unreachable!(),
        }
    }

    // The first seat's pass keeps what each other seat left.
    fn join_all(&self, pass: &mut Pass<S, View<S>>, rest: Vec<Seat<S>>)
        requires of { IsPassOf self.now.queue pass.old }
        requires first { IsFirst (view pass.old) }
        requires none_yet { (view pass.old).ended ≡ [] }
        requires rest { AreReady self.now 1 rest.items }
        ensures of { IsPassOf self.now.queue pass.new }
        ensures kept { view pass.new ≡ with_ended (view pass.old) (left_by_each rest.items) }
    {
        for seat in rest {
            self.join(pass, seat);
        }
    }

    // It keeps what the next seat left.
    fn join(&self, pass: &mut Pass<S, View<S>>, seat: Seat<S>)
        requires of { IsPassOf self.now.queue pass.old }
        requires first { IsFirst (view pass.old) }
        requires next { IsReadySeat self.now (length (view pass.old).ended + 1) seat }
        ensures of { IsPassOf self.now.queue pass.new }
        ensures kept { let k = view pass.old in
            view pass.new ≡ with_ended k (k.ended ++ left_by (knows seat) ∷ []) }
    {
        self.queue.absorb::<Rejoin<S>>(pass, seat.into_pass());
    }
}
