//! A member of the pool, and what it does alone.

ghost use Rattle.std.specs.Prelude.{◌≡◌, ◌==◌, map};
ghost use Rattle.std.specs.List.{list_any};
ghost use Rattle.ame_pool.specs.Waking.{has};
ghost use Rattle.ame_pool.specs.Standings.{rolled};

use ame_term::{Loc, Locs};
use std::mem;

/// A member that was rolled back this often begins alone.
pub const ROLLBACK_LIMIT: u8 = 8;

/// A fragment that isn't at its end.
#[derive(Drop)]
pub struct Member<M> {
    pub number: u64,
    /// The machine at rest; of a busy member, the start from which its seat runs.
    pub machine: M,
    /// True if it stands inside `unprotected`.
    pub inside: bool,
    /// The number of its rollbacks since its last entry, up to `ROLLBACK_LIMIT`.
    pub rollbacks: u8,
    pub standing: MemberStanding,
}

/// The standing of a member.
#[derive(Drop)]
pub enum MemberStanding {
    Ready,
    /// A seat runs it, and it may have been noted as stuck.
    Busy(Option<Watch>),
    /// It waits for a write to one of these locations.
    Parked(Locs),
}

/// The locations for which a busy member waits that was noted as stuck.
#[derive(Drop)]
pub struct Watch {
    pub locs: Locs,
    /// True if one of the locations was written since.
    pub touched: bool,
}

/// Returns the number of rollbacks after a way home.
fn rolled_on(rolled_back: bool, rollbacks: u8) -> u8
    ensures { result ≡ rolled rolled_back rollbacks }
{
    if !rolled_back {
        rollbacks
    } else if rollbacks < ROLLBACK_LIMIT {
        rollbacks + 1
    } else {
        ROLLBACK_LIMIT
    }
}

/// Returns whether the location is among these.
pub fn is_among(locs: &[Loc], l: Loc) -> bool
    ensures { result ≡ list_any (λ k. k.0 == l.0) locs.now }
{
    locs.iter().any(|k| k.0 == l.0)
}

/// Returns whether a watch list has the location.
fn is_listed(locs: &Locs, l: Loc) -> bool
    ensures { result ≡ has l.0 locs.now }
{
    is_among(locs.as_slice(), l)
}

impl MemberStanding {
    ghost use Rattle.ame_pool.specs.Standings.{settled, is_touched};
    ghost use Rattle.ame_pool.specs.Waking.{stirred, is_waiting_for};

    /// Parks the member if its watch isn't touched, and makes it ready if it is; returns whether it made it ready.
    fn settle(&mut self) -> bool
        ensures standing { self.new ≡ settled self.old }
        ensures touched { result ≡ is_touched self.old }
    {
        match mem::replace(self, MemberStanding::Ready) {
            MemberStanding::Busy(Some(Watch { locs, touched })) => {
                if !touched {
                    *self = MemberStanding::Parked(locs);
                }
                touched
            }
            other => {
                *self = other;
                false
            }
        }
    }

    /// Lets the member know that a location was written: a parked one that waits for it is ready, and the watch of a busy one is
    /// touched. Returns whether it made one ready.
    fn stir(&mut self, l: Loc) -> bool
        ensures standing { self.new ≡ stirred l.0 self.old }
        ensures woken { result ≡ is_waiting_for l.0 self.old }
    {
        match self {
            MemberStanding::Ready => false,
            MemberStanding::Busy(None) => false,
            MemberStanding::Busy(Some(watch)) => {
                if is_listed(&watch.locs, l) {
                    watch.touched = true;
                }
                false
            }
            MemberStanding::Parked(locs) => {
                let waits = is_listed(locs, l);
                if waits {
                    *self = MemberStanding::Ready;
                }
                waits
            }
        }
    }
}

impl<M: Drop> Member<M> {
    /// Returns the locations whose write changes it.
    pub fn untouched(&self) -> &[Loc]
        ensures { map (λ l. l.0) result.now ≡ untouched_of self.now.standing }
    {
        match &self.standing {
            MemberStanding::Ready => &[],
            MemberStanding::Busy(None) => &[],
            MemberStanding::Busy(Some(watch)) => {
                if watch.touched {
                    &[]
                } else {
                    watch.locs.as_slice()
                }
            }
            MemberStanding::Parked(locs) => locs.as_slice(),
        }
    }

    ghost use Rattle.ame_pool.specs.Standings.{settled, is_touched};
    ghost use Rattle.ame_pool.specs.Waking.{stirred_by, is_woken_by};
    ghost use Rattle.ame_pool.specs.Index.{untouched as untouched_of};
    ghost use Rattle.ame_pool.specs.Calls.{begun, at_home, renewed, noted_on, at_rest};

    /// Makes it busy: a seat runs it.
    pub fn begin(&mut self)
        ensures { self.new ≡ begun self.old }
    {
        self.standing = MemberStanding::Busy(None);
    }

    /// Makes it ready again.
    pub fn go_home(&mut self, rolled_back: bool)
        ensures { self.new ≡ at_home rolled_back self.old }
    {
        self.rollbacks = rolled_on(rolled_back, self.rollbacks);
        self.standing = MemberStanding::Ready;
    }

    /// Makes it ready with another machine, and returns the one that it had.
    pub fn renew(&mut self, machine: M, inside: bool) -> M
        ensures member { self.new ≡ renewed machine inside self.old }
        ensures machine { result ≡ self.old.machine }
    {
        self.inside = inside;
        self.rollbacks = 0;
        self.standing = MemberStanding::Ready;
        mem::replace(&mut self.machine, machine)
    }

    /// Notes it as stuck on these locations.
    pub fn watch(&mut self, locs: Locs)
        ensures { self.new ≡ noted_on locs self.old }
    {
        self.rollbacks = 0;
        self.standing = MemberStanding::Busy(Some(Watch {
            locs,
            touched: false,
        }));
    }

    /// Parks it, or makes it ready if its watch was touched; returns whether it was.
    pub fn settle(&mut self) -> bool
        ensures member { self.new ≡ at_rest self.old }
        ensures touched { result ≡ is_touched self.old.standing }
    {
        self.standing.settle()
    }

    /// Lets it know that a location was written, and returns whether that woke it.
    pub fn stir(&mut self, l: Loc) -> bool
        ensures member { self.new ≡ stirred_by l.0 self.old }
        ensures woken { result ≡ is_woken_by l.0 self.old }
    {
        self.standing.stir(l)
    }
}
