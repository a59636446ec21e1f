//! A replay on machines.

ghost use Rattle.std.specs.Prelude.{◌≡◌, ℕ, ◌+◌, ◌<◌, ◌≤◌, ◌^◌, ◌++◌, [], List, Bool, true, false, map, length, IfErr, IfOk, OnOk, Some};
ghost use Rattle.ame_term.specs.Frame.{Side};
ghost use Rattle.ame_term.specs.Tree.{Tree};
ghost use Rattle.ame_term.specs.Maps.{at};
ghost use Rattle.ame_term.specs.State.{State};
ghost use Rattle.ame_journal.specs.Replay.{or_else};
ghost use Rattle.ame_machine.specs.Run.AgreesWith.{with_members};
ghost use Rattle.ame_journal.specs.declared.entry.Entry.{Entry};
ghost use Rattle.ame_journal.specs.declared.entry.EntryKind.{EntryKind};
ghost use Rattle.ame_journal.specs.Totals.{is_note};
ghost use Rattle.ame_check.specs.Entries.{is_confirmed};
ghost use Rattle.ame_check.specs.Reasons.{is_shut};
ghost use Rattle.ame_check.specs.Shows.{ShowsMembers, Adopts};

use crate::entry_error::EntryError;
use crate::halt::Halt;
use crate::reason::Reason;
use crate::stored::Stored;
use crate::walk::Walk;
use ame_journal::{Entry, EntryKind};
use ame_machine::{Runner, Wants};
use ame_term::{Copied, NoMemory};
use std::alloc::Global;
use std::collections::BTreeMap;

/// Returns whether a note of a kind says that its member wants this next.
fn confirms(kind: EntryKind, want: Wants) -> bool
    ensures { result ≡ is_confirmed kind want }
{
    match kind {
        EntryKind::Ran | EntryKind::Free => false,
        EntryKind::Cut => true,
        EntryKind::Stuck => match want {
            Wants::Block => true,
            _ => false,
        },
        EntryKind::Tall => match want {
            Wants::Tall => true,
            _ => false,
        },
    }
}

/// Returns whether a note of a kind is shut to a member, by whether that stands at `unprotected`.
fn shuts(kind: EntryKind, standing: bool) -> bool
    ensures { result ≡ is_shut kind standing }
{
    match kind {
        EntryKind::Stuck => standing,
        EntryKind::Ran | EntryKind::Free | EntryKind::Cut | EntryKind::Tall => false,
    }
}

/// Puts what was set into the cells.
fn merge<V: Drop>(
    cells: &mut BTreeMap<u32, V>,
    mut overlay: BTreeMap<u32, V>,
) -> Result<(), NoMemory>
    ensures { OnOk result ((l : ℕ) → at cells.new.entries l ≡ or_else (at overlay.entries l) (at cells.old.entries l)) }
{
    while let Some((l, value)) = overlay.pop_first() {
        cells.insert(l, value)?;
    }
    Ok(())
}

/// Gives each new member of a machine the next number. If a number would be past the last one, the error is that memory ran out.
fn adopt<M: Runner>(
    alloc: Global,
    _code: &M::Code,
    members: &mut BTreeMap<u64, M>,
    next: u64,
    machine: &mut M,
) -> Result<u64, NoMemory>
    ensures { IfOk result (λ later. (before : List (ℕ × Tree)) (inside : ℕ → Bool)
        → M.meaning.is_machine _code.now machine.old → ShowsMembers M.meaning _code.now inside members.old.entries before
        → ((k : ℕ) → next ≤ k → inside k ≡ false)
        → Adopts M.meaning _code.now inside before next (M.meaning.stage _code.now machine.old) members.new.entries later machine.new) }
{
    let mut number = next;
    while let Some(member) = machine.take_spawn(alloc) {
        let later = number.checked_add(1).ok_or(NoMemory)?;
        members.insert(number, member)?;
        number = later;
    }
    Ok(number)
}

/// The strong state to which entries lead, on machines: the cells by location, the machines of the members by number, each at
/// its term alone, what was printed, and the number of the next new member.
pub struct Replay<M: Runner>
where
    M::Code: Drop,
{
    pub cells: BTreeMap<u32, Stored<M::Value>>,
    pub members: BTreeMap<u64, M>,
    pub output: Vec<i64>,
    pub next: u64,
}

impl<M: Runner> Drop for Replay<M>
where
    M::Code: Drop,
{
    fn drop(self) {
        let Replay {
            cells: _,
            members: _,
            output: _,
            next: _,
        } = self;
    }
}

impl<M: Runner> Replay<M>
where
    M::Code: Drop,
{
    ghost use Rattle.ame_check.specs.Shows.{StandsForEntries};
    ghost use Rattle.ame_check.specs.Entries.{HasMade, StopsAt};
    ghost use Rattle.ame_check.specs.Judge.{IsHalted, PassesTallAt};

    /// Starts before any entry.
    pub fn start(alloc: Global, code: &M::Code) -> Result<Replay<M>, NoMemory>
        ensures { IfOk result (λ replay. StandsForEntries M.meaning code.now []
            (record { cells = replay.cells.entries; members = replay.members.entries; output = replay.output.items; next = replay.next })) }
    {
        let mut members = BTreeMap::new(alloc);
        members.insert(0, M::start(alloc, code)?)?;
        Ok(Replay {
            cells: BTreeMap::new(alloc),
            members,
            output: Vec::new(alloc),
            next: 1,
        })
    }

    /// Keeps what a walk set, printed and started.
    fn keep(
        &mut self,
        alloc: Global,
        code: &M::Code,
        overlay: BTreeMap<u32, Stored<M::Value>>,
        machine: &mut M,
    ) -> Result<(), NoMemory>
        ensures cells { OnOk result ((l : ℕ) → at self.new.cells.entries l ≡ or_else (at overlay.entries l) (at self.old.cells.entries l)) }
        ensures output { OnOk result (self.new.output.items ≡ self.old.output.items ++ (M.meaning.stage code.now machine.old).prints) }
        ensures adopts { OnOk result ((before : List (ℕ × Tree)) (inside : ℕ → Bool)
            → M.meaning.is_machine code.now machine.old → ShowsMembers M.meaning code.now inside self.old.members.entries before
            → ((k : ℕ) → self.old.next ≤ k → inside k ≡ false)
            → Adopts M.meaning code.now inside before self.old.next (M.meaning.stage code.now machine.old) self.new.members.entries self.new.next machine.new) }
    {
        merge(&mut self.cells, overlay)?;
        self.output.extend_from_slice(machine.prints())?;
        self.next = adopt(alloc, code, &mut self.members, self.next, machine)?;
        Ok(())
    }

    /// Makes a `Ran` entry: the whole fragment, up to its end or its next `unprotected`. After an error the replay is over, since the
    /// member was taken out. Costs its steps, each at most the logarithm of the cells, and that of the members for each new one.
    pub fn ran(&mut self, alloc: Global, code: &M::Code, entry: &Entry) -> Result<(), EntryError>
        requires kind { entry.now.kind ≡ EntryKind.Ran }
        requires stands { (entries : List Entry) × StandsForEntries M.meaning code.now entries
            (record { cells = self.old.cells.entries; members = self.old.members.entries; output = self.old.output.items; next = self.old.next }) }
        ensures made { OnOk result ((entries : List Entry) → StandsForEntries M.meaning code.now entries
            (record { cells = self.old.cells.entries; members = self.old.members.entries; output = self.old.output.items; next = self.old.next })
            → HasMade M.meaning code.now entries entry.now
            (record { cells = self.new.cells.entries; members = self.new.members.entries; output = self.new.output.items; next = self.new.next })) }
        ensures halted { IfErr result (λ error. (entries : List Entry) → StandsForEntries M.meaning code.now entries
            (record { cells = self.old.cells.entries; members = self.old.members.entries; output = self.old.output.items; next = self.old.next })
            → StopsAt (M.meaning.program code.now) entries entry.now error) }
    {
        if entry.answer.is_some() {
            return Err(EntryError::Undefined(Reason::Answered));
        }
        let Some(mut machine) = self.members.remove(&entry.number) else {
            return Err(EntryError::Undefined(Reason::NoMember));
        };
        if machine.inside() {
            return Err(EntryError::Undefined(Reason::Inside));
        }
        let mut overlay = BTreeMap::new(alloc);
        let want = Walk {
            alloc,
            code,
            cells: &self.cells,
            entry,
        }
        .run(&mut overlay, &mut machine)?;
        match want {
            Wants::Done => {
                self.keep(alloc, code, overlay, &mut machine)?;
                Ok(())
            }
            Wants::Leave => {
                self.keep(alloc, code, overlay, &mut machine)?;
                machine.settle();
                self.members.insert(entry.number, machine)?;
                Ok(())
            }
            _ => Err(EntryError::Undefined(Reason::Stops(entry.steps, want))),
        }
    }

    /// Makes a `Free` entry: steps under `unprotected`, whose last may call a device or close. Otherwise as `ran`.
    pub fn free(&mut self, alloc: Global, code: &M::Code, entry: &Entry) -> Result<(), EntryError>
        requires kind { entry.now.kind ≡ EntryKind.Free }
        requires stands { (entries : List Entry) × StandsForEntries M.meaning code.now entries
            (record { cells = self.old.cells.entries; members = self.old.members.entries; output = self.old.output.items; next = self.old.next }) }
        ensures made { OnOk result ((entries : List Entry) → StandsForEntries M.meaning code.now entries
            (record { cells = self.old.cells.entries; members = self.old.members.entries; output = self.old.output.items; next = self.old.next })
            → HasMade M.meaning code.now entries entry.now
            (record { cells = self.new.cells.entries; members = self.new.members.entries; output = self.new.output.items; next = self.new.next })) }
        ensures halted { IfErr result (λ error. (entries : List Entry) → StandsForEntries M.meaning code.now entries
            (record { cells = self.old.cells.entries; members = self.old.members.entries; output = self.old.output.items; next = self.old.next })
            → StopsAt (M.meaning.program code.now) entries entry.now error) }
    {
        if entry.steps == 0 {
            return Err(EntryError::Undefined(Reason::NoSteps));
        }
        let Some(mut machine) = self.members.remove(&entry.number) else {
            return Err(EntryError::Undefined(Reason::NoMember));
        };
        if !machine.inside() {
            return Err(EntryError::Undefined(Reason::Outside));
        }
        let mut overlay = BTreeMap::new(alloc);
        Walk {
            alloc,
            code,
            cells: &self.cells,
            entry,
        }
        .visit(&mut overlay, &mut machine)?;
        self.keep(alloc, code, overlay, &mut machine)?;
        machine.settle();
        self.members.insert(entry.number, machine)?;
        Ok(())
    }

    /// Makes a note (`Stuck`, `Cut`, `Tall`), on a copy of its member's machine. A member at `unprotected` makes its steps there,
    /// and no `Stuck` note is of it. Nothing changes. Costs a copy of the machine, and its steps.
    pub fn note(&self, alloc: Global, code: &M::Code, entry: &Entry) -> Result<(), EntryError>
        requires note { is_note entry.now.kind ≡ true }
        requires stands { (entries : List Entry) × StandsForEntries M.meaning code.now entries
            (record { cells = self.now.cells.entries; members = self.now.members.entries; output = self.now.output.items; next = self.now.next }) }
        ensures made { OnOk result ((entries : List Entry) → StandsForEntries M.meaning code.now entries
            (record { cells = self.now.cells.entries; members = self.now.members.entries; output = self.now.output.items; next = self.now.next })
            → HasMade M.meaning code.now entries entry.now
            (record { cells = self.now.cells.entries; members = self.now.members.entries; output = self.now.output.items; next = self.now.next })) }
        ensures halted { IfErr result (λ error. (entries : List Entry) → StandsForEntries M.meaning code.now entries
            (record { cells = self.now.cells.entries; members = self.now.members.entries; output = self.now.output.items; next = self.now.next })
            → StopsAt (M.meaning.program code.now) entries entry.now error) }
    {
        if entry.answer.is_some() {
            return Err(EntryError::Undefined(Reason::Answered));
        }
        let Some(member) = self.members.get(&entry.number) else {
            return Err(EntryError::Undefined(Reason::NoMember));
        };
        let mut machine = member.copy(alloc)?;
        let _next = machine.advance(alloc, code, 0)?;
        machine.settle();
        if shuts(entry.kind, machine.inside()) {
            return Err(EntryError::Undefined(Reason::Inside));
        }
        let mut overlay = BTreeMap::new(alloc);
        let want = Walk {
            alloc,
            code,
            cells: &self.cells,
            entry,
        }
        .run(&mut overlay, &mut machine)?;
        if confirms(entry.kind, want) {
            Ok(())
        } else {
            Err(EntryError::Undefined(Reason::Stops(entry.steps, want)))
        }
    }

    /// Makes one more entry.
    pub fn make(&mut self, alloc: Global, code: &M::Code, entry: &Entry) -> Result<(), EntryError>
        requires stands { (entries : List Entry) × StandsForEntries M.meaning code.now entries
            (record { cells = self.old.cells.entries; members = self.old.members.entries; output = self.old.output.items; next = self.old.next }) }
        ensures made { OnOk result ((entries : List Entry) → StandsForEntries M.meaning code.now entries
            (record { cells = self.old.cells.entries; members = self.old.members.entries; output = self.old.output.items; next = self.old.next })
            → HasMade M.meaning code.now entries entry.now
            (record { cells = self.new.cells.entries; members = self.new.members.entries; output = self.new.output.items; next = self.new.next })) }
        ensures halted { IfErr result (λ error. (entries : List Entry) → StandsForEntries M.meaning code.now entries
            (record { cells = self.old.cells.entries; members = self.old.members.entries; output = self.old.output.items; next = self.old.next })
            → StopsAt (M.meaning.program code.now) entries entry.now error) }
    {
        match entry.kind {
            EntryKind::Ran => self.ran(alloc, code, entry),
            EntryKind::Free => self.free(alloc, code, entry),
            EntryKind::Stuck | EntryKind::Cut | EntryKind::Tall => self.note(alloc, code, entry),
        }
    }

    /// Replays all entries. Costs what their run did, with the logarithm of cells and members for each access.
    pub fn along(alloc: Global, code: &M::Code, entries: &[Entry]) -> Result<Replay<M>, Halt>
        ensures led { IfOk result (λ replay. StandsForEntries M.meaning code.now entries.now
            (record { cells = replay.cells.entries; members = replay.members.entries; output = replay.output.items; next = replay.next })) }
        ensures low { IfOk result (λ replay. (n : ℕ) → PassesTallAt (M.meaning.program code.now) entries.now n → ⊥) }
        ensures halted { IfErr result (IsHalted (M.meaning.program code.now) entries.now) }
    {
        let mut replay: Replay<M> = Replay::start(alloc, code)?;
        let mut place: u64 = 0;
        for entry in entries {
            place += 1;
            if let Err(error) = replay.make(alloc, code, entry) {
                return Err(error.at(place));
            }
        }
        Ok(replay)
    }

    /// Returns its cells, its members, what was printed, and the number of the next new member.
    pub fn into_parts(
        self,
    ) -> (
        BTreeMap<u32, Stored<M::Value>>,
        BTreeMap<u64, M>,
        Vec<i64>,
        u64,
    )
        ensures { result ≡ (self.cells, self.members, self.output, self.next) }
    {
        let Replay {
            cells,
            members,
            output,
            next,
        } = self;
        (cells, members, output, next)
    }

    /// Returns what was printed.
    pub fn into_output(self) -> Vec<i64>
        ensures { result ≡ self.output }
    {
        let Replay {
            cells: _,
            members: _,
            output,
            next: _,
        } = self;
        output
    }
}
