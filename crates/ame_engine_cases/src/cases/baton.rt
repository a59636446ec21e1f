//! Seats that pass the turn.

ghost use Rattle.std.specs.Prelude.{◌≡◌, ◌≤◌, IfOk};
ghost use Rattle.ame_baton.specs.declared.state.TheConstants.{SEAT_LIMIT};
ghost use Rattle.ame_baton.specs.Seats.{first_seat};
ghost use Rattle.ame_baton.specs.Batons.{knows, IsSeatOf};

use ame_baton::tally::{Tally, count, count_by_two};
use ame_baton::{Baton, Seat};
use std::alloc::{AllocError, Global};
use std::sync::Wait;
use std::test::*;

/// Makes a tally for this many seats under a baton, and the first seat.
fn opened<R: Wait>(
    rt: &R,
    alloc: Global,
    seats: usize,
) -> Result<(Baton<Tally>, Seat<Tally>), AllocError>
    requires some { 1 ≤ seats }
    requires few { seats ≤ SEAT_LIMIT }
    ensures of { IfOk result (λ r. IsSeatOf r.0 r.1) }
    ensures first { IfOk result (λ r. knows r.1 ≡ first_seat seats seats 0) }
{
    let tally = Tally::new(alloc, seats)?;
    Baton::new(rt, alloc, tally).map_err(|_| AllocError)
}

#[test]
fn three_seats_count(rt: HostRuntime) -> Result<(), Fail> {
    let (baton, mut a) = opened(&rt, rt.alloc(), 3)?;
    let mut b = baton.seat(&mut a);
    count(&rt, &baton, &mut a)?;
    let mut c = baton.seat(&mut a);
    count(&rt, &baton, &mut c)?;
    count(&rt, &baton, &mut b)?;
    count(&rt, &baton, &mut a)?;
    let rest = vec![in rt.alloc(); b, c]?;
    let tally = baton.end(&rt, a, rest);
    assert_eq!(rt; tally.last.as_slice(), [4, 3, 2].as_slice());
    assert_eq!(rt; tally.log.as_slice(), [0, 2, 1, 0].as_slice());
    Ok(())
}

#[test]
fn two_threads_hand_the_turn_on(rt: HostRuntime) -> Result<(), Fail> {
    let tally = count_by_two(&rt, rt.alloc(), 500)?;
    assert_eq!(rt; tally.log.len(), 1000);
    assert_eq!(rt; tally.log.iter().filter(|seat| **seat == 0).count(), 500);
    Ok(())
}
