//! The opening of a baton and of its seats.
ghost use Rattle.std.specs.Prelude.{◌≡◌, ◌+◌, ◌<◌, ◌≤◌, false, [], replicate, IfOk, IfErr};
ghost use Rattle.ame_baton.specs.Seats.{first_seat, next_seat};
ghost use Rattle.ame_baton.specs.declared.state.TheConstants.{SEAT_LIMIT};
ghost use Rattle.ame_baton.specs.Batons.{knows, IsSeatOf};

use super::Baton;
use crate::seats::{Seat, SeatAt};
use crate::state::Rowed;
use crate::steps::{Opens, Seats};
use crossbeam_queue::RuledArrayQueue;
use std::alloc::Global;
use std::sync::Wait;

impl<S: Rowed> Baton<S> {
    /// Puts the state under the rule, and gives seat 0. If memory runs out, it returns the state.
    pub fn new<R: Wait>(rt: &R, alloc: Global, state: S) -> Result<(Baton<S>, Seat<S>), S>
        requires some { 1 ≤ S.seats_in (S.opening state) }
        requires few { S.seats_in (S.opening state) ≤ SEAT_LIMIT }
        // The state stands for its own opening, with empty rows and no entries.
        requires opening { let fixed = S.opening state in
            S.stands_for state fixed (replicate (S.seats_in fixed) S.empty_row) [] }
        ensures made { IfOk result (λ r. IsSeatOf r.0 r.1) }
        ensures first { let fixed = S.opening state in
            IfOk result (λ r. knows r.1 ≡ first_seat fixed (S.seats_in fixed) S.empty_row) }
        ensures back { IfErr result (λ back. back ≡ state) }
    {
        let Ok((queue, mut pass)) = RuledArrayQueue::ruled(alloc, 1) else {
            return Err(state);
        };
        match queue.push_as::<Opens<S>, R>(rt, &mut pass, state) {
            Ok(()) => {
                let first = SeatAt {
                    pass,
                    number: 0,
                    made: 1,
                };
                Ok((Baton { queue }, first))
            }
            Err(_) => unreachable!(),
        }
    }

    /// Makes the next seat. Only the first seat makes others.
    pub fn seat(&self, first: &mut Seat<S>) -> Seat<S>
        requires of { IsSeatOf self.now first.old }
        requires first { (knows first.old).number ≡ 0 }
        requires free { (knows first.old).holds ≡ false }
        requires room { (knows first.old).made < (knows first.old).seats }
        ensures made { IsSeatOf self.now result }
        ensures next { knows result ≡ next_seat (knows first.old) S.empty_row }
        ensures of { IsSeatOf self.now first.new }
        ensures counted { let k = knows first.old in
            knows first.new ≡ record k { made = k.made + 1 } }
    {
        let pass = self.queue.another::<Seats<S>>(&mut first.pass);
        let number = first.made;
        first.made += 1;
        SeatAt {
            pass,
            number,
            made: 0,
        }
    }
}
