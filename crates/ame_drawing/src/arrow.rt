//! Arrows from one pick to another.

ghost use Rattle.std.specs.Prelude.{◌≡◌, ◌<◌, ◌≤◌, ◌^◌, None, All, IfOk, length};
ghost use Rattle.ame_drawing.specs.Arrows as spec;
ghost use Rattle.ame_drawing.specs.Arrows.{LeadsAmong};

use crate::pick::{Did, DrawnPick};
use ame_term::NoMemory;
use std::alloc::Global;

#[derive(Clone, Copy, PartialEq, Eq, Debug)]
pub enum ArrowKind {
    /// From the pick with which a member was last at work to the one with which it begins.
    GoesOn,
    /// From a refused write to the one that was in its way.
    InTheWay,
    /// From the commit that started a member to its first pick.
    Starts,
    /// From the commit that woke a member to the pick with which it begins again.
    Wakes,
}

/// An arrow of a member, from a pick of a seat to another.
#[derive(Clone, Copy, PartialEq, Eq, Debug)]
pub struct Arrow {
    pub kind: ArrowKind,
    pub member: u64,
    pub from: u32,
    pub from_seat: u32,
    pub to: u32,
    pub to_seat: u32,
}

/// Which picks are sought.
#[derive(Clone, Copy)]
pub(crate) enum Sought {
    /// Those with this member at work.
    Member(u64),
    /// The writes of a seat to a location.
    Write(u32, u32),
}

/// The place of a pick, or of an entry: its column, and its lane.
#[derive(Clone, Copy, PartialEq, Eq, Debug)]
pub struct Spot {
    pub pick: u32,
    pub seat: u32,
}

/// Returns the arrows of a run, in the order of the picks that they belong to.
pub(crate) fn arrows_of(alloc: Global, picks: &[DrawnPick]) -> Result<Vec<Arrow>, NoMemory>
    requires { length picks.now < 2 ^ 32 }
    ensures told { IfOk result (λ arrows. arrows.items ≡ spec.arrows_from picks.now 0 picks.now) }
    ensures among { IfOk result (λ arrows. All (LeadsAmong picks.now) arrows.items) }
{
    let arrows = collect(alloc, picks)?;
    Ok(arrows)
}

/// Collects the arrows of a run.
fn collect(alloc: Global, picks: &[DrawnPick]) -> Result<Vec<Arrow>, NoMemory>
    requires { length picks.now < 2 ^ 32 }
    ensures { IfOk result (λ arrows. arrows.items ≡ spec.arrows_from picks.now 0 picks.now) }
{
    let mut arrows = Vec::new(alloc);
    for (index, pick) in picks.iter().enumerate() {
        if let Some(arrow) = arrow_of(&picks[..index], index as u32, pick) {
            arrows.push(arrow)?;
        }
    }
    Ok(arrows)
}

/// Returns the arrow of a pick, if these picks were made before it.
fn arrow_of(earlier: &[DrawnPick], index: u32, pick: &DrawnPick) -> Option<Arrow>
    requires { length earlier.now < 2 ^ 32 }
    ensures { result ≡ spec.arrow_by index pick.now earlier.now pick.now.did }
{
    let here = spot_of(index, pick);
    match pick.did {
        Did::Began => continuation(pick, last_spot(earlier, Sought::Member(pick.member)), here),
        Did::Met(owner) => match pick.place {
            None => None,
            Some(place) => obstacle(pick, last_spot(earlier, Sought::Write(owner, place)), here),
        },
        _ => None,
    }
}

/// Returns the place of a pick with this index.
pub(crate) fn spot_of(index: u32, pick: &DrawnPick) -> Spot
    ensures { result ≡ spec.spot_of index pick.now }
{
    Spot {
        pick: index,
        seat: pick.seat,
    }
}

/// Returns an arrow of a member from a spot to another.
pub(crate) fn between(kind: ArrowKind, member: u64, from: Spot, to: Spot) -> Arrow
    ensures { result ≡ spec.between kind member from to }
{
    Arrow {
        kind,
        member,
        from: from.pick,
        from_seat: from.seat,
        to: to.pick,
        to_seat: to.seat,
    }
}

/// Returns the arrow of a member that goes on, if it was at work before.
fn continuation(pick: &DrawnPick, last: Option<Spot>, here: Spot) -> Option<Arrow>
    ensures { result ≡ spec.continuation pick.now last here }
{
    Some(between(ArrowKind::GoesOn, pick.member, last?, here))
}

/// Returns the arrow to the owner's last write, which was in the way.
fn obstacle(pick: &DrawnPick, write: Option<Spot>, here: Spot) -> Option<Arrow>
    ensures { result ≡ spec.obstacle pick.now write here }
{
    Some(between(ArrowKind::InTheWay, pick.member, here, write?))
}

/// Returns the last pick that is sought.
pub(crate) fn last_spot(picks: &[DrawnPick], sought: Sought) -> Option<Spot>
    requires { length picks.now < 2 ^ 32 }
    ensures { result ≡ spec.last_spot sought 0 None picks.now }
{
    let mut last = None;
    for (index, pick) in picks.iter().enumerate() {
        if sought.is_met_by(pick) {
            last = Some(spot_of(index as u32, pick));
        }
    }
    last
}

impl Sought {
    ghost use Rattle.ame_drawing.specs.Arrows as spec;

    /// Returns whether a pick is one that is sought.
    fn is_met_by(self, pick: &DrawnPick) -> bool
        ensures { result ≡ spec.is_sought self pick.now }
    {
        match self {
            Sought::Member(member) => pick.member == member && pick.did.is_work(),
            Sought::Write(seat, place) => pick.seat == seat && pick.is_write_to(place),
        }
    }
}
