//! The members, found by their numbers.

ghost use Rattle.std.specs.Prelude.{◌≡◌, ◌-◌, ◌<◌, ◌≤◌, ◌^◌, max, Some, None, IsSome, OnOk, OnErr, is_some, option_copied, option_map, vec_len, vec_capacity};
ghost use Rattle.slab.specs.Slab.{get};
ghost use Rattle.ame_pool.specs.Members.{find};
ghost use Rattle.ame_pool.specs.Numbered.{AreRising, IsSlotOf, only, members_at};

use crate::counts::Counts;
use crate::member::Member;
use crate::numbers::{Numbered, enter, known_slot, slot_of};
use crate::turn::{Left, Transition};
use ame_term::NoMemory;
use slab::Slab;
use std::alloc::Global;
use std::marker::Model;

/// The result of a member's turn: its slot, what the turn left, and whether the member stands inside then.
#[derive(Drop)]
pub struct TurnedMember<M> {
    pub slot: usize,
    pub left: Left<M>,
    pub inside: bool,
}

/// Members in slots, and for each number an entry that leads to its slot. A member that leaves takes its slot alone, and
/// its entry is stale from then on.
#[derive(Drop)]
pub struct Members<M> {
    slots: Slab<Member<M>>,
    numbers: Vec<Numbered>,
    room: usize,
}

impl<M> Model for Members<M> {
    ghost use Rattle.ame_pool.specs.Register.{Register};

    ghost Value = { Register M };

    ghost use Rattle.slab.specs.Slab.{get};
    ghost use Rattle.ame_pool.specs.Numbered.{AreNumberedSlots, members_at};

    ghost view = { λ a. record { list = members_at (get a.slots) a.numbers.items; room = a.room } };

    ghost invariant = { λ a. AreNumberedSlots a.slots a.numbers a.room };
}

/// Returns the member in a slot, if it has the number.
fn member_in<M>(slots: &Slab<Member<M>>, number: u64, key: usize) -> Option<&Member<M>>
    ensures { option_copied result ≡ only number (get slots.now key) }
{
    match slots.get(key) {
        Some(member) => {
            if member.number == number {
                Some(member)
            } else {
                None
            }
        }
        None => None,
    }
}

/// Returns whether an entry leads to a member with its number.
fn is_live<M>(slots: &Slab<Member<M>>, entry: Numbered) -> bool
    ensures { result ≡ is_some (only entry.number (get slots.now entry.key)) }
{
    member_in(slots, entry.number, entry.key).is_some()
}

/// Returns the slot of the member with a number that is there.
fn slot_in<M>(slots: &Slab<Member<M>>, numbers: &Vec<Numbered>, number: u64) -> usize
    requires rising { AreRising numbers.now.items }
    requires there { IsSome (find number (members_at (get slots.now) numbers.now.items)) }
    ensures { IsSlotOf slots.now numbers.now.items number result }
{
    known_slot(numbers.as_slice(), number)
}

/// Drops the stale entries, once more than half of all are stale.
fn drop_stale<M>(numbers: &mut Vec<Numbered>, slots: &Slab<Member<M>>)
    requires { AreRising numbers.old.items }
    ensures list { members_at (get slots.now) numbers.new.items ≡ members_at (get slots.now) numbers.old.items }
    ensures rising { AreRising numbers.new.items }
    ensures len { vec_len numbers.new ≤ vec_len numbers.old }
    ensures capacity { vec_capacity numbers.new ≡ vec_capacity numbers.old }
{
    if numbers.len() / 2 > slots.len() {
        numbers.retain(|e| is_live(slots, *e));
    }
}

impl<M: Drop> Members<M> {
    ghost use Rattle.ame_pool.specs.Counts.{CountsIn, IsRecounted};
    ghost use Rattle.ame_pool.specs.Members.{find, altered, placed, except};
    ghost use Rattle.ame_pool.specs.Turns.{after_transition, is_readied};
    ghost use Rattle.ame_pool.specs.Register.{vacant};

    /// Makes a list without members. It takes no memory.
    pub fn new(alloc: Global) -> Members<M>
        ensures { result ≡ vacant }
    {
        Members {
            slots: Slab::new(alloc),
            numbers: Vec::new(alloc),
            room: 0,
        }
    }

    /// Makes room for this many members more.
    pub fn room(&mut self, places: usize) -> Result<(), NoMemory>
        ensures ok { OnOk result (self.new ≡ record self.old { room = max self.old.room places }) }
        ensures err { OnErr result (self.new ≡ self.old) }
    {
        if places <= self.room {
            return Ok(());
        }
        drop_stale(&mut self.numbers, &self.slots);
        self.slots.reserve(places)?;
        self.numbers.reserve(places)?;
        self.room = places;
        Ok(())
    }

    /// Returns how many may join without memory.
    pub fn places(&self) -> usize
        ensures { result ≡ self.now.room }
    {
        self.room
    }

    /// Returns the member with a number, if there is one.
    pub fn get(&self, number: u64) -> Option<&Member<M>>
        ensures { option_copied result ≡ find number self.now.list }
    {
        match slot_of(self.numbers.as_slice(), number) {
            Some(key) => member_in(&self.slots, number, key),
            None => None,
        }
    }

    /// Returns the member with a number that is there.
    pub fn member(&self, number: u64) -> &Member<M>
        requires { IsSome (find number self.now.list) }
        ensures { Some result.now ≡ find number self.now.list }
    {
        match self.get(number) {
            Some(member) => member,
            None => unreachable!(),
        }
    }

    /// Returns the seat of a member, which no other one has meanwhile.
    pub fn slot(&self, number: u64) -> usize {
        match slot_of(self.numbers.as_slice(), number) {
            Some(key) => key,
            None => 0,
        }
    }

    /// Adds a member.
    pub fn insert(&mut self, member: Member<M>)
        requires room { 0 < self.old.room }
        requires fresh { find member.number self.old.list ≡ None }
        ensures { self.new ≡ record { list = placed member self.old.list; room = self.old.room - 1 } }
    {
        let number = member.number;
        let key = self.slots.insert_reserved(member);
        enter(&mut self.numbers, Numbered { number, key });
        self.room -= 1;
    }

    /// Takes a member out.
    pub fn remove(&mut self, number: u64) -> Member<M>
        requires { IsSome (find number self.old.list) }
        ensures members { self.new ≡ record self.old { list = except number self.old.list } }
        ensures member { Some result ≡ find number self.old.list }
    {
        let key = slot_in(&self.slots, &self.numbers, number);
        self.slots.remove(key)
    }

    /// Makes a member's turn, after which it is counted as it is then. The member is looked for once.
    pub fn turn(&mut self, number: u64, to: Transition<M>, counts: &mut Counts) -> TurnedMember<M>
        requires there { IsSome (find number self.old.list) }
        requires counted { (m : Member M) → find number self.old.list ≡ Some m → CountsIn m counts.old }
        requires busy { counts.old.busy < 2 ^ 63 }
        requires protected { counts.old.protected < 2 ^ 63 }
        requires exhausted { counts.old.exhausted < 2 ^ 63 }
        requires parked { counts.old.parked < 2 ^ 63 }
        ensures members { self.new ≡ record self.old { list = altered number (after_transition to) self.old.list } }
        ensures readied { Some result.left.is_readied ≡ option_map (is_readied to) (find number self.old.list) }
        ensures inside { Some result.inside ≡ option_map (λ m. (after_transition to m).inside) (find number self.old.list) }
        ensures counts { (m : Member M) → find number self.old.list ≡ Some m → IsRecounted m (after_transition to m) counts.old counts.new }
    {
        let key = slot_in(&self.slots, &self.numbers, number);
        let member = &mut self.slots[key];
        counts.leave(member);
        let left = member.turn(to);
        counts.enter(member);
        TurnedMember {
            slot: key,
            left,
            inside: member.inside,
        }
    }
}
