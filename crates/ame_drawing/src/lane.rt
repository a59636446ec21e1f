//! The lane of a seat: a box for each attempt.

ghost use Rattle.std.specs.Prelude.{◌≡◌, ◌<◌, ◌^◌, ℕ, IfOk, All, length, slice_index_or, true};
ghost use Rattle.ame_drawing.specs.Lanes as spec;
ghost use Rattle.ame_drawing.specs.Picks as spec_picks;
ghost use Rattle.ame_drawing.specs.Lanes.{IsAttemptOn, AreOneAfterOther, LiesInOne, EndsSo, LooksAsEnded, FitsFate};

use crate::pick::{Did, DrawnPick};
use ame_journal::EntryKind;
use ame_term::NoMemory;
use std::alloc::Global;

/// The fate of an attempt.
#[derive(Clone, Copy, PartialEq, Eq, Debug)]
pub enum Fate {
    /// The run was over before it was.
    UnderWay,
    /// It was committed, and its member ended.
    Ended,
    /// It was committed, and its member came to `unprotected`.
    Left,
    /// Unprotected code was run.
    Visited,
    /// A device failed.
    Failed,
    RolledBack,
    /// It came to a false condition.
    Stuck,
    /// It came to a value nested too deeply.
    Tall,
    /// The turns were used up.
    Cut,
}

impl Fate {
    ghost use Rattle.ame_drawing.specs.Lanes as spec;

    /// Returns the fate of an attempt in which this is done next.
    fn after(self, did: Did) -> Fate
        ensures { result ≡ spec.fate_after self did }
    {
        match did {
            Did::Ended => Fate::Ended,
            Did::Left => Fate::Left,
            Did::CameHome => Fate::Visited,
            Did::DeviceFailed(_) => Fate::Failed,
            Did::Met(_) | Did::FoundInvalid => Fate::RolledBack,
            Did::Noted => Fate::Stuck,
            Did::GrewTall => Fate::Tall,
            Did::Cut | Did::Spent => Fate::Cut,
            _ => self,
        }
    }
}

/// An entry that an attempt made, counted from 1.
#[derive(Clone, Copy, PartialEq, Eq, Debug)]
pub struct Entered {
    pub number: u64,
    pub kind: EntryKind,
}

/// An attempt of a member on a seat: the numbers of its first pick and of its last, counted from 0, and the entry that it made, if it made one.
#[derive(Clone, Copy, PartialEq, Eq, Debug)]
pub struct DrawnAttempt {
    pub seat: u32,
    pub member: u64,
    pub from: u32,
    pub to: u32,
    pub fate: Fate,
    pub entry: Option<Entered>,
}

/// Returns the attempts on a seat, in order. They don't overlap, and each pick in which the seat has a member at work lies in one.
/// One that looks committed or visited ends with such a pick and made such an entry, and each such pick ends one that looks so.
pub fn lane_of(alloc: Global, picks: &[DrawnPick], seat: u32) -> Result<Vec<DrawnAttempt>, NoMemory>
    requires { length picks.now < 2 ^ 32 }
    ensures told { IfOk result (λ lane. lane.items ≡ spec.lane seat picks.now) }
    ensures within { IfOk result (λ lane. All (IsAttemptOn seat (length picks.now)) lane.items) }
    ensures apart { IfOk result (λ lane. AreOneAfterOther lane.items) }
    ensures covered { IfOk result (λ lane. (k : ℕ) (d : DrawnPick) → k < length picks.now → spec_picks.is_work_of seat (slice_index_or picks.now k d) ≡ true
        → LiesInOne lane.items k) }
    ensures ended { IfOk result (λ lane. (k : ℕ) (d : DrawnPick) (fate : Fate) → k < length picks.now
        → spec_picks.is_work_of seat (slice_index_or picks.now k d) ≡ true
        → spec.fate_made (slice_index_or picks.now k d).did ≡ Some fate → EndsSo lane.items k fate) }
    ensures looks { IfOk result (λ lane. All (LooksAsEnded picks.now) lane.items) }
    ensures fates { IfOk result (λ lane. All FitsFate lane.items) }
{
    let lane = collect(alloc, picks, seat)?;
    Ok(lane)
}

/// Collects the attempts on a seat.
fn collect(alloc: Global, picks: &[DrawnPick], seat: u32) -> Result<Vec<DrawnAttempt>, NoMemory>
    requires { length picks.now < 2 ^ 32 }
    ensures { IfOk result (λ lane. lane.items ≡ spec.lane seat picks.now) }
{
    let mut lane = Vec::new(alloc);
    let mut begun = None;
    let mut number = 1;
    for (index, pick) in picks.iter().enumerate() {
        if pick.is_work_of(seat) {
            let attempt = grown(number, index as u32, pick, begun);
            if pick.did.is_last() {
                lane.push(attempt)?;
                begun = None;
            } else {
                begun = Some(attempt);
            }
        }
        number = number_after(number, pick.did.kind_made());
    }
    if let Some(attempt) = begun {
        lane.push(attempt)?;
    }
    Ok(lane)
}

/// Returns the number of the next entry, if a pick makes this one or none.
fn number_after(number: u64, made: Option<EntryKind>) -> u64
    requires { number < 2 ^ 63 }
    ensures { result ≡ spec.number_after number made }
{
    match made {
        None => number,
        Some(_) => number + 1,
    }
}

/// Returns the attempt that has begun, if there is one, with one more pick, which makes this entry if it makes one; otherwise one that begins with
/// this pick.
fn grown(number: u64, index: u32, pick: &DrawnPick, begun: Option<DrawnAttempt>) -> DrawnAttempt
    ensures { result ≡ spec.grown number index pick.now begun }
{
    let made = pick.did.kind_made();
    match begun {
        None => DrawnAttempt {
            seat: pick.seat,
            member: pick.member,
            from: index,
            to: index,
            fate: Fate::UnderWay.after(pick.did),
            entry: entry_then(None, number, made),
        },
        Some(attempt) => DrawnAttempt {
            to: index,
            fate: attempt.fate.after(pick.did),
            entry: entry_then(attempt.entry, number, made),
            ..attempt
        },
    }
}

/// Returns the entry that an attempt has made, if its next pick makes this one or none.
fn entry_then(entry: Option<Entered>, number: u64, made: Option<EntryKind>) -> Option<Entered>
    ensures { result ≡ spec.entry_then entry number made }
{
    match made {
        None => entry,
        Some(kind) => Some(Entered { number, kind }),
    }
}

/// Returns the attempts on the first seats, lane by lane.
pub(crate) fn lanes_below(
    alloc: Global,
    seats: u32,
    picks: &[DrawnPick],
) -> Result<Vec<DrawnAttempt>, NoMemory>
    requires { length picks.now < 2 ^ 32 }
    ensures told { IfOk result (λ all. all.items ≡ spec.lanes_below seats picks.now) }
    ensures fates { IfOk result (λ all. All FitsFate all.items) }
{
    let mut all = Vec::new(alloc);
    for seat in 0..seats {
        let lane = lane_of(alloc, picks, seat)?;
        all.extend_from_slice(lane.as_slice())?;
    }
    Ok(all)
}
