//! The seats that may be picked.
ghost use Rattle.std.specs.Prelude.{◌≡◌, ◌<◌, ◌≤◌, ◌^◌, true, false, length, IfOk, replicate, slice_set, vec_capacity};
ghost use Rattle.ame_sim.specs.Waits as spec;

use ame_term::NoMemory;
use std::alloc::Global;
use std::marker::Model;

/// Keeps which of the seats wait. Contracts see a flag for each seat, which is true if it waits.
#[derive(Drop)]
pub struct WaitFlags {
    waits: Vec<bool>,
    may: Vec<u32>,
}

impl Model for WaitFlags {
    ghost use Rattle.std.specs.Prelude.{Bool, List};
    ghost use Rattle.ame_sim.specs.Waits.{IsListOf};

    ghost Value = { List Bool };

    ghost view = { λ w. w.waits.items };

    ghost invariant = { λ w. IsListOf w.waits w.may };
}

impl WaitFlags {
    /// Makes this number of seats. None of them waits.
    pub fn new(alloc: Global, seats: u32) -> Result<WaitFlags, NoMemory>
        ensures { IfOk result (λ waits. waits ≡ replicate seats false) }
    {
        let waits = vec![in alloc; false; seats as usize]?;
        let mut may = Vec::with_capacity(alloc, seats as usize)?;
        list_seats(&mut may, &waits);
        Ok(WaitFlags { waits, may })
    }

    /// Returns the seats that don't wait, rising.
    pub fn may_be_picked(&self) -> &[u32]
        ensures { result.now ≡ spec.may_be_picked self.now }
    {
        &self.may
    }

    /// Lets a seat wait. Its cost is linear in the number of seats.
    pub fn wait(&mut self, seat: u32)
        requires { seat < length self.old }
        ensures { self.new ≡ slice_set self.old seat true }
    {
        let seat = seat as usize;
        if !self.waits[seat] {
            let place = free_among(&self.waits[..seat]);
            self.may.remove(place);
            self.waits[seat] = true;
        }
    }

    /// Lets no seat wait any more. It costs nothing if none does.
    pub fn go_on(&mut self)
        ensures { self.new ≡ replicate (length self.old) false }
    {
        if self.may.len() < self.waits.len() {
            self.waits.fill(false);
            list_seats(&mut self.may, &self.waits);
        }
    }
}

/// Counts the seats that don't wait.
fn free_among(waits: &[bool]) -> usize
    ensures { result ≡ length (spec.may_be_picked waits.now) }
{
    let mut free = 0;
    for place in 0..waits.len() {
        if !waits[place] {
            free += 1;
        }
    }
    free
}

/// Lists the seats that don't wait, in the reserved room.
fn list_seats(may: &mut Vec<u32>, waits: &[bool])
    requires room { length waits.now ≤ vec_capacity may.old }
    requires range { length waits.now < 2 ^ 32 }
    ensures items { may.new.items ≡ spec.may_be_picked waits.now }
    ensures capacity { vec_capacity may.new ≡ vec_capacity may.old }
{
    may.clear();
    for seat in 0..waits.len() {
        if !waits[seat] {
            may.push_reserved(seat as u32);
        }
    }
}
