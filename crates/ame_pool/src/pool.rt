//! The pool.

ghost use Rattle.std.specs.Prelude.{◌≡◌, ◌<◌, ℕ, Some, None, IsSome, false, IfOk, OnOk, OnErr, IsTrue, option_copied, map};
ghost use Rattle.std.specs.Option.{ForSome};
ghost use Rattle.std.specs.List.{list_any};
ghost use Rattle.ame_pool.specs.Members.{find as found_at};
ghost use Rattle.ame_pool.specs.Index.{IsListedAfter};
ghost use Rattle.ame_pool.specs.Keeps.{IsWatched};

use crate::index::{first, unwatch, watch};
use crate::member::Member;
use crate::oldest::Oldest;
use crate::registry::Registry;
use crate::turn::Transition;
use ame_term::{Copied, Loc, Locs, NoMemory};
use std::alloc::Global;
use std::collections::BTreeSet;
use std::marker::Model;

/// The members that are there and those that are ready, the index of those that watch locations, and a machine that isn't needed any
/// more, in whose memory the next copy is made.
#[derive(Drop)]
pub struct Pool<M> {
    registry: Registry<M>,
    index: BTreeSet<(u32, u64)>,
    spare: Option<M>,
}

impl<M> Model for Pool<M> {
    ghost use Rattle.ame_pool.specs.Roster.{Roster};

    ghost Value = { Roster M };

    ghost use Rattle.ame_pool.specs.Keeps.{IsWatched};

    ghost view = { λ a. a.registry };

    ghost invariant = { λ a. IsWatched a.registry a.index };
}

/// A copy of a member's machine, and whether the member stands inside `unprotected`.
#[derive(Drop)]
pub struct MachineCopy<M> {
    pub machine: M,
    pub inside: bool,
}

/// Returns a copy of a machine, in the memory of a spare one if there is one.
fn copy_in<M: Drop + Copied>(spare: Option<M>, alloc: Global, resting: &M) -> Result<M, NoMemory>
    ensures { IfOk result (λ copy. M.same resting.now copy) }
{
    match spare {
        Some(mut copy) => {
            copy.copy_from(alloc, resting)?;
            Ok(copy)
        }
        None => resting.copy(alloc),
    }
}

/// Removes a member from the index. The member is looked for only if the index names any.
fn unlist<M: Drop>(index: &mut BTreeSet<(u32, u64)>, registry: &Registry<M>, number: u64)
    requires there { IsSome (found_at number registry.now.members) }
    requires watched { IsWatched registry.now index.old }
    ensures { IsListedAfter number (λ _. false) index.old index.new }
{
    if !index.is_empty() {
        unwatch(index, number, registry.member(number).untouched(), &[]);
    }
}

impl<M: Drop> Pool<M> {
    ghost use Rattle.ame_pool.specs.Members.{find, is_ready, is_busy};
    ghost use Rattle.ame_pool.specs.Roster.{nobody};
    ghost use Rattle.ame_pool.specs.Begin.{oldest as oldest_of};
    ghost use Rattle.ame_pool.specs.Keeps.{AreInOrder, is_inside_at};
    ghost use Rattle.ame_pool.specs.Stirs.{is_watching, stirred_at};
    ghost use Rattle.ame_pool.specs.Calls.{IsAt, is_running, is_noted, with_room, joined, newcomer, held, home as homed, exchanged, removed, noted, parked, woken, machine_of, inside_of};

    /// Makes a pool without members. It takes no memory.
    pub fn new(alloc: Global) -> Pool<M>
        ensures { result ≡ nobody }
    {
        Pool {
            registry: Registry::new(alloc),
            index: BTreeSet::new(alloc),
            spare: None,
        }
    }

    /// Makes room for this many members more. The calls below, all but `note`, then take no memory.
    pub fn room(&mut self, places: usize) -> Result<(), NoMemory>
        ensures ok { OnOk result (self.new ≡ with_room places self.old) }
        ensures err { OnErr result (self.new ≡ self.old) }
    {
        self.registry.room(places)
    }

    /// Adds a new member, the youngest ready one.
    pub fn add(&mut self, number: u64, machine: M, inside: bool)
        requires room { 0 < self.old.room }
        requires fresh { find number self.old.members ≡ None }
        ensures { self.new ≡ joined (newcomer number machine inside) self.old }
    {
        self.registry.add(number, machine, inside);
    }

    /// Returns the member with a number, if the pool has one.
    pub fn member(&self, number: u64) -> Option<&Member<M>>
        ensures { option_copied result ≡ find number self.now.members }
    {
        self.registry.get(number)
    }

    /// Returns a copy of the machine of a ready member, and whether it stands inside. It takes the memory of the spare machine, if there
    /// is one.
    pub fn copy(&mut self, alloc: Global, number: u64) -> Result<MachineCopy<M>, NoMemory>
    where
        M: Copied,
        requires { IsAt is_ready number self.old }
        ensures pool { self.new ≡ self.old }
        ensures machine { IfOk result (λ copy. ForSome (machine_of number self.old) (λ resting. M.same resting copy.machine)) }
        ensures inside { IfOk result (λ copy. copy.inside ≡ is_inside_at self.old.members number) }
    {
        let spare = self.spare.take();
        let member = self.registry.member(number);
        let machine = copy_in(spare, alloc, &member.machine)?;
        Ok(MachineCopy {
            machine,
            inside: member.inside,
        })
    }

    /// Returns whether a member stands inside `unprotected`.
    pub fn inside(&self, number: u64) -> Option<bool>
        ensures { result ≡ inside_of number self.now }
    {
        match self.registry.get(number) {
            Some(member) => Some(member.inside),
            None => None,
        }
    }

    /// Makes a ready member busy.
    pub fn begin(&mut self, number: u64)
        requires { IsAt is_ready number self.old }
        ensures { self.new ≡ held number self.old }
    {
        self.registry.begin(number);
    }

    /// Makes a busy member without a watch list the youngest ready one.
    pub fn home(&mut self, number: u64, rolled_back: bool)
        requires { IsAt is_running number self.old }
        ensures { self.new ≡ homed number rolled_back self.old }
    {
        let _ = self.registry.turn(number, Transition::Home(rolled_back));
    }

    /// Makes a busy member the youngest ready one, with another machine.
    pub fn replace(&mut self, number: u64, machine: M, inside: bool)
        requires { IsAt is_busy number self.old }
        ensures { self.new ≡ exchanged number machine inside self.old }
    {
        unlist(&mut self.index, &self.registry, number);
        self.spare = self
            .registry
            .turn(number, Transition::Renew(machine, inside));
    }

    /// Takes a busy member out of the pool, and returns its machine.
    pub fn remove(&mut self, number: u64) -> M
        requires { IsAt is_busy number self.old }
        ensures pool { self.new ≡ removed number self.old }
        ensures machine { Some result ≡ machine_of number self.old }
    {
        unlist(&mut self.index, &self.registry, number);
        self.registry.remove(number)
    }

    /// Keeps a machine that isn't needed any more: the next copy is made in its memory.
    pub fn keep_spare(&mut self, machine: M)
        ensures { self.new ≡ self.old }
    {
        self.spare = Some(machine);
    }

    /// Notes a busy member as stuck: it watches these locations, and none of them was touched.
    pub fn note(&mut self, number: u64, locs: Vec<Loc>) -> Result<(), NoMemory>
        requires { IsAt is_busy number self.old }
        ensures ok { OnOk result (self.new ≡ noted number (map (λ l. l.0) locs.items) self.old) }
        ensures err { OnErr result (self.new ≡ self.old) }
    {
        let member = self.registry.member(number);
        if let Err(refusal) = watch(&mut self.index, number, locs.as_slice()) {
            unwatch(&mut self.index, number, locs.as_slice(), member.untouched());
            return Err(refusal);
        }
        unwatch(&mut self.index, number, member.untouched(), locs.as_slice());
        let _ = self
            .registry
            .turn(number, Transition::Watch(Locs::from_vec(locs)));
        Ok(())
    }

    /// Parks a noted member, or makes it the youngest ready one if a location that it watches was touched.
    pub fn park(&mut self, number: u64)
        requires { IsAt is_noted number self.old }
        ensures { self.new ≡ parked number self.old }
    {
        let _ = self.registry.turn(number, Transition::Settle);
    }

    /// Lets a member know that a location was written that it watches.
    fn stir(&mut self, number: u64, l: Loc)
        requires { IsAt (is_watching l.0) number self.old }
        ensures { self.new ≡ stirred_at l.0 number self.old }
    {
        unlist(&mut self.index, &self.registry, number);
        let _ = self.registry.turn(number, Transition::Stir(l));
    }

    /// Returns whether a member may watch a location. If none does, a write changes no member.
    pub fn is_watched(&self) -> bool
        ensures { result ≡ false → (l : ℕ) → woken l self.now ≡ self.now }
    {
        !self.index.is_empty()
    }

    /// Lets the members know that a location was written: every parked one that waits for it is ready, in order of numbers, and every
    /// busy one that watches it is touched.
    pub fn wake(&mut self, l: Loc)
        ensures { self.new ≡ woken l.0 self.old }
    {
        while let Some(number) = first(&self.index, l) {
            self.stir(number, l);
        }
    }

    /// Returns the oldest ready member that may begin, or why there is none.
    pub fn oldest(&self) -> Oldest
        ensures oldest { result ≡ oldest_of self.now }
        ensures ready { (n : ℕ) → result ≡ Oldest.Member n → IsAt is_ready n self.now }
        ensures waits { result ≡ Oldest.Wait → IsTrue (list_any is_busy self.now.members) }
        ensures sound { AreInOrder self.now.members self.now.order }
    {
        self.registry.oldest()
    }
}
