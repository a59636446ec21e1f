//! Reading a schedule.
ghost use Rattle.std.specs.Prelude.{◌≡◌, ◌≢◌, ◌++◌, List, ℕ, MatchOption, IfOk, IfErr};
ghost use Rattle.ame_sim.specs.Schedule.{AreSeats, IsScheduled, ExplainsSchedule, TakesSigns};

use super::fault::ScheduleFault;
use super::sign::seat_of;
use ame_term::{NoMemory, push};
use std::alloc::Global;

/// A schedule, and the text of the program that it is for.
#[derive(Drop)]
pub struct Scheduled<'a> {
    pub picks: Vec<u32>,
    pub program: &'a [u8],
}

/// Reads the schedule that a text begins with. Its cost is linear in the length of the text.
pub fn read_schedule(alloc: Global, text: &[u8]) -> Result<Scheduled<'_>, ScheduleFault>
    ensures ok { IfOk result (λ scheduled. IsScheduled text.now scheduled.picks.items scheduled.program.now) }
    ensures err { IfErr result (ExplainsSchedule text.now) }
{
    let Some(signs) = behind(text, b"schedule ") else {
        return Err(ScheduleFault::BadSchedule);
    };
    let (picks, rest) = take_signs(alloc, signs)?;
    match behind(rest, b"\nprogram\n") {
        Some(program) => Ok(Scheduled { picks, program }),
        None => Err(ScheduleFault::BadSchedule),
    }
}

/// Returns the rest of the text after this prefix, if the text begins with it.
fn behind<'a>(text: &'a [u8], front: &[u8]) -> Option<&'a [u8]>
    ensures { MatchOption result ((rest : List ℕ) → text.now ≢ front.now ++ rest) (λ rest. text.now ≡ front.now ++ rest.now) }
{
    text.strip_prefix(front)
}

/// Takes the seats of all signs that the text begins with, and returns them with the rest of the text.
fn take_signs(alloc: Global, text: &[u8]) -> Result<(Vec<u32>, &[u8]), NoMemory>
    ensures { IfOk result (λ taken. TakesSigns text.now taken.0.items taken.1.now) }
{
    let mut picks = Vec::new(alloc);
    for (place, byte) in text.iter().enumerate() {
        let Some(seat) = seat_of(*byte) else {
            return Ok((picks, &text[place..]));
        };
        push(&mut picks, seat)?;
    }
    Ok((picks, &[]))
}
