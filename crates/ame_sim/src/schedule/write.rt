//! Writing a schedule.
ghost use Rattle.std.specs.Prelude.{◌≡◌, ◌++◌, IfOk, OnOk};
ghost use Rattle.ame_sim.specs.Schedule as spec;
ghost use Rattle.ame_sim.specs.Schedule.{AreSeats, IsScheduled};

use super::sign::sign_of;
use ame_term::{NoMemory, push};
use std::alloc::Global;

/// Returns the line of a schedule, with its line feed. Its cost is linear in the number of picks.
pub fn schedule_line(alloc: Global, picks: &[u32]) -> Result<Vec<u8>, NoMemory>
    requires { AreSeats picks.now }
    ensures { IfOk result (λ line. line.items ≡ spec.schedule_line picks.now) }
{
    let mut line = Vec::new(alloc);
    write_line(&mut line, picks)?;
    Ok(line)
}

/// Returns a schedule with the program that it is for, as one text that can be run again. Its cost is linear in its length.
pub fn schedule_text(alloc: Global, picks: &[u32], program: &[u8]) -> Result<Vec<u8>, NoMemory>
    requires { AreSeats picks.now }
    ensures { IfOk result (λ text. IsScheduled text.items picks.now program.now) }
{
    let mut text = Vec::new(alloc);
    write_line(&mut text, picks)?;
    write(&mut text, b"program\n")?;
    write(&mut text, program)?;
    Ok(text)
}

/// Appends the line of a schedule.
fn write_line(text: &mut Vec<u8>, picks: &[u32]) -> Result<(), NoMemory>
    requires { AreSeats picks.now }
    ensures { OnOk result (text.new.items ≡ text.old.items ++ spec.schedule_line picks.now) }
{
    write(text, b"schedule ")?;
    write_signs(text, picks)?;
    write(text, b"\n")
}

/// Appends a sign for each pick. The room for them is taken at once.
fn write_signs(text: &mut Vec<u8>, picks: &[u32]) -> Result<(), NoMemory>
    requires { AreSeats picks.now }
    ensures { OnOk result (text.new.items ≡ text.old.items ++ spec.signs picks.now) }
{
    text.reserve(picks.len())?;
    for pick in picks {
        push(text, sign_of(*pick))?;
    }
    Ok(())
}

/// Appends bytes.
fn write(text: &mut Vec<u8>, bytes: &[u8]) -> Result<(), NoMemory>
    ensures { OnOk result (text.new.items ≡ text.old.items ++ bytes.now) }
{
    text.extend_from_slice(bytes)?;
    Ok(())
}
