//! The picks of a run, as a picture shows them.

ghost use Rattle.std.specs.Prelude.{◌≡◌, IfOk, length, map};
ghost use Rattle.std.specs.List.{fold};
ghost use Rattle.ame_drawing.specs.Shown as spec;

use crate::pick::{Did, DrawnPick};
use ame_journal::{Entry, EntryKind};
use ame_shell::Outcome;
use ame_sim::{Made, MadesIter, Picked};
use ame_term::{NoMemory, push};
use std::alloc::Global;

/// Returns the picks of a run that made these entries.
pub fn shown_picks(
    alloc: Global,
    mades: MadesIter<'_>,
    entries: &[Entry],
) -> Result<Vec<DrawnPick>, NoMemory>
    ensures shown { IfOk result (λ picks. picks.items ≡ map (spec.shown (spec.is_cut entries.now)) mades.entry) }
    ensures count { IfOk result (λ picks. length picks.items ≡ length mades.entry) }
{
    let is_cut = is_cut(entries);
    let mut picks = Vec::new(alloc);
    for made in mades {
        push(&mut picks, shown(made, is_cut))?;
    }
    Ok(picks)
}

/// Returns how many seats a run has: one more than the greatest of its picks, and one if it has no picks.
pub fn shown_seats(picks: &[Picked]) -> u32
    ensures { result ≡ fold spec.seats_with 1 picks.now }
{
    let mut seats = 1;
    for pick in picks {
        seats = seats.max(u32::from(pick.seat) + 1);
    }
    seats
}

/// Returns whether the last entry cut a member off.
fn is_cut(entries: &[Entry]) -> bool
    ensures { result ≡ spec.is_cut entries.now }
{
    match entries.last() {
        Some(entry) => entry.kind == EntryKind::Cut,
        None => false,
    }
}

fn shown(made: Made, is_cut: bool) -> DrawnPick
    ensures { result ≡ spec.shown is_cut made }
{
    DrawnPick {
        seat: made.seat,
        member: made.member.unwrap_or(0),
        did: did_of(made.outcome, is_cut),
        place: made.place,
    }
}

/// Returns what a seat did, by the outcome of its turn.
fn did_of(outcome: Outcome, is_cut: bool) -> Did
    ensures { result ≡ spec.did_of is_cut outcome }
{
    match outcome {
        Outcome::Began => Did::Began,
        Outcome::Waited | Outcome::Stopped | Outcome::Lacked => Did::Idled,
        Outcome::Read => Did::Read,
        Outcome::Wrote => Did::Wrote,
        Outcome::Met(owner) => Did::Met(owner),
        Outcome::Allocated => Did::Allocated,
        Outcome::Checked => Did::Checked,
        Outcome::FoundInvalid(_)
        | Outcome::Refused(_)
        | Outcome::NotNoted(_)
        | Outcome::NotTall(_) => Did::FoundInvalid,
        Outcome::Ended => Did::Ended,
        Outcome::Left => Did::Left,
        Outcome::Noted => Did::Noted,
        Outcome::GrewTall => Did::GrewTall,
        Outcome::CameHome => Did::CameHome,
        Outcome::DeviceFailed(device) => Did::DeviceFailed(device),
        Outcome::Spent => { if is_cut { Did::Cut } else { Did::Spent } }
        Outcome::Undid => Did::Undid,
        Outcome::WentHome => Did::WentHome,
    }
}
