//! The smallest state with rows and entries: a counter, and the list of who counted.
//! It is an example of a caller, and what the tests run.
ghost use Rattle.std.specs.Prelude.{◌≡◌, ◌<◌, ◌+◌, ◌++◌, ◌∷◌, [], false, length, replicate, vec_len, IfOk, OnOk, OnErr};
ghost use Rattle.ame_baton.specs.Batons.{knows, IsSeatOf, IsReadySeat};
ghost use Rattle.ame_baton.specs.Tallies.{CountsSeat, IsAsBefore, IsSameSeat, times_of};
ghost use Rattle.ame_baton.specs.Counted.{IsFresh, HasCounted};

use crate::seats::Seat;
use crate::state::{AnyRow, Rowed};
use crate::turn::Baton;
use std::alloc::{AllocError, Global};
use std::sync::Wait;
use std::thread;
use std::thread::Threads;

/// A counter that seats share. It counts as often as its log is long.
#[derive(Drop)]
pub struct Tally {
    /// For each seat the count at which it counted last, or 0.
    pub last: Vec<usize>,
    /// The seats that counted, from the first count on.
    pub log: Vec<u32>,
}

impl Rowed for Tally {
    type Fixed = usize;

    type Row = usize;

    type Entry = u32;

    ghost use Rattle.std.specs.Prelude.{length};
    ghost use Rattle.ame_baton.specs.Tallies.{TallyStandsFor};

    ghost stands_for = { TallyStandsFor };

    ghost opening = { λ t. length t.last.items };

    ghost seats_in = { λ seats. seats };

    ghost empty_row = { 0 };

    ghost seat_of = { λ seat. seat };
}

impl Tally {
    pub fn new(alloc: Global, seats: usize) -> Result<Tally, AllocError>
        ensures last { IfOk result (λ t. t.last.items ≡ replicate seats 0) }
        ensures log { IfOk result (λ t. t.log.items ≡ []) }
    {
        let last = Vec::from_elem(alloc, 0, seats)?;
        Ok(Tally {
            last,
            log: Vec::new(alloc),
        })
    }

    /// Counts for a seat. Without memory nothing changes.
    pub fn add(&mut self, seat: u32) -> Result<(), AllocError>
        requires { seat < vec_len self.old.last }
        ensures ok { OnOk result (CountsSeat seat self.old self.new) }
        ensures err { OnErr result (IsAsBefore self.old self.new) }
    {
        self.log.push(seat)?;
        self.last[seat as usize] = self.log.len();
        Ok(())
    }
}

/// Takes the turn, counts once and gives the turn back.
pub fn count<R: Wait>(
    rt: &R,
    baton: &Baton<Tally>,
    seat: &mut Seat<Tally>,
) -> Result<(), AllocError>
    requires of { IsSeatOf baton.now seat.old }
    requires free { (knows seat.old).holds ≡ false }
    ensures of { IsSeatOf baton.now seat.new }
    ensures free { (knows seat.new).holds ≡ false }
    ensures same { IsSameSeat (knows seat.old) (knows seat.new) }
    ensures counted { let k = knows seat.old in
        OnOk result ((knows seat.new).own ≡ k.own ++ k.number ∷ []) }
    ensures refused { OnErr result ((knows seat.new).own ≡ (knows seat.old).own) }
    ensures row { OnErr result ((knows seat.new).row ≡ (knows seat.old).row) }
{
    let mut tally = baton.take(rt, seat);
    let counted = tally.add(seat.number());
    baton.give::<AnyRow, R>(rt, seat, tally);
    counted
}

/// Counts this many times, and takes the turn anew each time.
pub fn count_all<R: Wait>(
    rt: &R,
    baton: &Baton<Tally>,
    mut seat: Seat<Tally>,
    times: u32,
) -> Result<Seat<Tally>, AllocError>
    requires of { IsSeatOf baton.now seat }
    requires free { (knows seat).holds ≡ false }
    ensures of { IfOk result (λ s. IsSeatOf baton.now s) }
    ensures free { IfOk result (λ s. (knows s).holds ≡ false) }
    ensures same { IfOk result (λ s. IsSameSeat (knows seat) (knows s)) }
    ensures counted { IfOk result (λ s. length (knows s).own ≡ length (knows seat).own + times) }
{
    for _ in 0..times {
        count(rt, baton, &mut seat)?;
    }
    Ok(seat)
}

/// Lets two seats count in two threads, each this many times. Each is in the log as often as it counted.
pub fn count_by_two<R: Threads + Wait + Sync>(
    rt: &R,
    alloc: Global,
    times: u32,
) -> Result<Tally, AllocError>
    ensures first { IfOk result (λ t. times_of 0 t ≡ times) }
    ensures second { IfOk result (λ t. times_of 1 t ≡ times) }
{
    let rest = Vec::with_capacity(alloc, 1)?;
    let tally = Tally::new(alloc, 2)?;
    let Ok((baton, mut first)) = Baton::new(rt, alloc, tally) else {
        return Err(AllocError);
    };
    let shared = &baton;
    let second = shared.seat(&mut first);
    let (first, second) = thread::join(
        rt,
        move ||
            requires { IsFresh shared.now 0 first }
            ensures { IfOk result (λ s. HasCounted shared.entry.now 0 times s × ((knows s).made ≡ (knows first).made)) }
        { count_all(rt, shared, first, times) },
        move ||
            requires { IsFresh shared.now 1 second }
            ensures { IfOk result (λ s. HasCounted shared.entry.now 1 times s) }
        { count_all(rt, shared, second, times) },
    );
    gather(rt, baton, first?, second?, rest)
}

// Ends the baton of two seats.
fn gather<R: Wait>(
    rt: &R,
    baton: Baton<Tally>,
    first: Seat<Tally>,
    second: Seat<Tally>,
    mut rest: Vec<Seat<Tally>>,
) -> Result<Tally, AllocError>
    requires first { IsReadySeat baton 0 first }
    requires second { IsReadySeat baton 1 second }
    requires all { (knows first).made ≡ 2 }
    requires none_yet { rest.items ≡ [] }
    ensures first { IfOk result (λ t. times_of 0 t ≡ length (knows first).own) }
    ensures second { IfOk result (λ t. times_of 1 t ≡ length (knows second).own) }
{
    rest.push(second)?;
    Ok(baton.end(rt, first, rest))
}
