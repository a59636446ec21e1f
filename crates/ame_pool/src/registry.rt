//! The members that are there, and those that are ready.

ghost use Rattle.std.specs.Prelude.{◌≡◌, ◌<◌, ℕ, Some, None, IsSome, OnOk, OnErr, IsTrue, false, nat_lt, option_copied};
ghost use Rattle.std.specs.List.{list_any};
ghost use Rattle.ame_pool.specs.declared.member.Member.{Member};
ghost use Rattle.ame_pool.specs.Begin.{may_begin_beside};
ghost use Rattle.ame_pool.specs.Members.{find};

use crate::counts::Counts;
use crate::member::{Member, MemberStanding};
use crate::members::Members;
use crate::oldest::Oldest;
use crate::ready::Ready;
use crate::turn::Transition;
use ame_term::NoMemory;
use std::alloc::Global;
use std::marker::Model;

/// Members by their numbers, those that are ready from the oldest on, and the counts of those that are busy or parked.
#[derive(Drop)]
pub struct Registry<M> {
    members: Members<M>,
    ready: Ready,
    counts: Counts,
}

impl<M> Model for Registry<M> {
    ghost use Rattle.ame_pool.specs.Roster.{Roster};

    ghost Value = { Roster M };

    ghost use Rattle.ame_pool.specs.Keeps.{IsKept};

    ghost view = { λ a. record { members = a.members.list; order = a.ready.order; room = a.members.room } };

    ghost invariant = { λ a. IsKept a.members a.ready a.counts };
}

/// Returns whether the oldest ready member, which has this number, may begin while those that are counted are busy. It is looked
/// at only if some of these could keep it from that.
fn may_begin<M: Drop>(members: &Members<M>, counts: &Counts, number: u64) -> bool
    requires { IsSome (find number members.now.list) }
    ensures { (m : Member M) → find number members.now.list ≡ Some m
        → result ≡ may_begin_beside (nat_lt 0 counts.now.protected) (nat_lt 0 counts.now.exhausted) false m }
{
    if counts.let_all_begin() {
        return true;
    }
    counts.may_begin(members.member(number))
}

impl<M: Drop> Registry<M> {
    ghost use Rattle.ame_pool.specs.Members.{is_ready, is_busy};
    ghost use Rattle.ame_pool.specs.Roster.{nobody};
    ghost use Rattle.ame_pool.specs.Begin.{oldest as oldest_of};
    ghost use Rattle.ame_pool.specs.Keeps.{AreInOrder};
    ghost use Rattle.ame_pool.specs.Turns.{is_away, turned_at};
    ghost use Rattle.ame_pool.specs.Calls.{IsAt, with_room, joined, newcomer, held, removed, machine_of};

    /// Makes a registry without members. It takes no memory.
    pub fn new(alloc: Global) -> Registry<M>
        ensures { result ≡ nobody }
    {
        Registry {
            members: Members::new(alloc),
            ready: Ready::new(alloc),
            counts: Counts::new(),
        }
    }

    /// Makes room for this many members more. The calls below then take no memory.
    pub fn room(&mut self, places: usize) -> Result<(), NoMemory>
        ensures ok { OnOk result (self.new ≡ with_room places self.old) }
        ensures err { OnErr result (self.new ≡ self.old) }
    {
        if places <= self.members.places() {
            return Ok(());
        }
        let others = self.counts.busy + self.counts.parked;
        let Some(more) = others.checked_add(places) else {
            return Err(NoMemory);
        };
        self.ready.room(more)?;
        self.members.room(places)
    }

    /// Adds a new member, the youngest ready one.
    pub fn add(&mut self, number: u64, machine: M, inside: bool)
        requires room { 0 < self.old.room }
        requires fresh { find number self.old.members ≡ None }
        ensures { self.new ≡ joined (newcomer number machine inside) self.old }
    {
        self.members.insert(Member {
            number,
            machine,
            inside,
            rollbacks: 0,
            standing: MemberStanding::Ready,
        });
        self.ready.push(number, self.members.slot(number), inside);
    }

    /// Returns the member with a number, if there is one.
    pub fn get(&self, number: u64) -> Option<&Member<M>>
        ensures member { option_copied result ≡ find number self.now.members }
        ensures sound { AreInOrder self.now.members self.now.order }
    {
        self.members.get(number)
    }

    /// Returns the member with a number that is there.
    pub fn member(&self, number: u64) -> &Member<M>
        requires { IsSome (find number self.now.members) }
        ensures { Some result.now ≡ find number self.now.members }
    {
        self.members.member(number)
    }

    /// Makes a ready member busy.
    pub fn begin(&mut self, number: u64)
        requires { IsAt is_ready number self.old }
        ensures { self.new ≡ held number self.old }
    {
        let turned = self
            .members
            .turn(number, Transition::Begin, &mut self.counts);
        self.ready.take(number, turned.slot, turned.inside);
    }

    /// Makes the turn of a member that is busy or parked. If it is ready then, it is the youngest ready one. Returns the machine that
    /// another one replaced, if one did.
    pub fn turn(&mut self, number: u64, to: Transition<M>) -> Option<M>
        requires { IsAt is_away number self.old }
        ensures { self.new ≡ turned_at number to self.old }
    {
        let turned = self.members.turn(number, to, &mut self.counts);
        if turned.left.is_readied {
            self.ready.push(number, turned.slot, turned.inside);
        }
        turned.left.machine
    }

    /// Takes out a member that is busy or parked, and returns its machine.
    pub fn remove(&mut self, number: u64) -> M
        requires { IsAt is_away number self.old }
        ensures registry { self.new ≡ removed number self.old }
        ensures machine { Some result ≡ machine_of number self.old }
    {
        self.counts.leave(self.members.member(number));
        let Member {
            number: _,
            machine,
            inside: _,
            rollbacks: _,
            standing: _,
        } = self.members.remove(number);
        machine
    }

    /// Returns the oldest ready member that may begin, or why there is none.
    pub fn oldest(&self) -> Oldest
        ensures oldest { result ≡ oldest_of self.now }
        ensures ready { (n : ℕ) → result ≡ Oldest.Member n → IsAt is_ready n self.now }
        ensures waits { result ≡ Oldest.Wait → IsTrue (list_any is_busy self.now.members) }
        ensures sound { AreInOrder self.now.members self.now.order }
    {
        let Some(number) = self.ready.first() else {
            return self.counts.idle();
        };
        if may_begin(&self.members, &self.counts, number) {
            return Oldest::Member(number);
        }
        match self.ready.first_inside() {
            Some(inside) => Oldest::Member(inside),
            None => Oldest::Wait,
        }
    }
}
