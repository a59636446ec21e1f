//! The counts of members that are busy or parked.

ghost use Rattle.std.specs.Prelude.{◌≡◌, ◌+◌, ◌<◌, ◌&&◌, ◌^◌, false, nat_lt, not};
ghost use Rattle.ame_pool.specs.Begin.{is_protected, is_exhausted_protected, may_begin_beside};
ghost use Rattle.ame_pool.specs.Members.{is_busy, is_parked};

use crate::member::{Member, MemberStanding, ROLLBACK_LIMIT};
use crate::oldest::Oldest;

/// Counts the busy members, the protected ones among them, those of these with 8 rollbacks, and the parked members.
#[derive(Drop)]
pub struct Counts {
    pub busy: usize,
    pub protected: usize,
    pub exhausted: usize,
    pub parked: usize,
}

impl<M> Member<M> {
    fn is_busy(&self) -> bool
        ensures { result ≡ is_busy self.now }
    {
        matches!(&self.standing, MemberStanding::Busy(_))
    }

    fn is_parked(&self) -> bool
        ensures { result ≡ is_parked self.now }
    {
        matches!(&self.standing, MemberStanding::Parked(_))
    }

    fn is_protected(&self) -> bool
        ensures { result ≡ is_protected self.now }
    {
        !self.inside
    }

    fn is_exhausted_protected(&self) -> bool
        ensures { result ≡ is_exhausted_protected self.now }
    {
        !self.inside && self.rollbacks == ROLLBACK_LIMIT
    }
}

impl Counts {
    ghost use Rattle.ame_pool.specs.Counts.{counted, CountsIn, idle};

    /// Returns the counts of no member.
    pub fn new() -> Counts
        ensures { result ≡ record { busy = 0; protected = 0; exhausted = 0; parked = 0 } }
    {
        Counts {
            busy: 0,
            protected: 0,
            exhausted: 0,
            parked: 0,
        }
    }

    /// Counts one member more.
    pub fn enter<M>(&mut self, member: &Member<M>)
        requires busy { self.old.busy < 2 ^ 63 }
        requires protected { self.old.protected < 2 ^ 63 }
        requires exhausted { self.old.exhausted < 2 ^ 63 }
        requires parked { self.old.parked < 2 ^ 63 }
        ensures { self.new ≡ counted member.now self.old }
    {
        if member.is_busy() {
            self.busy += 1;
            self.protected += member.is_protected() as usize;
            self.exhausted += member.is_exhausted_protected() as usize;
        }
        self.parked += member.is_parked() as usize;
    }

    /// Counts one member less.
    pub fn leave<M>(&mut self, member: &Member<M>)
        requires { CountsIn member.now self.old }
        ensures { self.old ≡ counted member.now self.new }
    {
        if member.is_busy() {
            self.busy -= 1;
            self.protected -= member.is_protected() as usize;
            self.exhausted -= member.is_exhausted_protected() as usize;
        }
        self.parked -= member.is_parked() as usize;
    }

    /// Returns why none begins if none is ready.
    pub fn idle(&self) -> Oldest
        ensures { result ≡ idle self.now }
    {
        if 0 < self.busy {
            Oldest::Wait
        } else if 0 < self.parked {
            Oldest::Parked
        } else {
            Oldest::Empty
        }
    }

    /// Returns whether no busy member keeps the oldest ready one from beginning, whichever member that is.
    pub fn let_all_begin(&self) -> bool
        ensures { result ≡ not (nat_lt 0 self.now.protected) && not (nat_lt 0 self.now.exhausted) }
    {
        self.protected == 0 && self.exhausted == 0
    }

    /// Returns whether the oldest ready member may begin.
    pub fn may_begin<M>(&self, member: &Member<M>) -> bool
        ensures { result ≡ may_begin_beside (nat_lt 0 self.now.protected) (nat_lt 0 self.now.exhausted) false member.now }
    {
        if member.inside {
            true
        } else if member.rollbacks == ROLLBACK_LIMIT {
            self.protected == 0
        } else {
            self.exhausted == 0
        }
    }
}
