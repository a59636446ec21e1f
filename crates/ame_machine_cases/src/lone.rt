//! A machine that runs alone.

ghost use Rattle.std.specs.Prelude.{◌≡◌, ◌≤◌, ◌<◌, true, Some, IfOk, IfSome};
ghost use Rattle.ame_code.specs.FlatCode.{FlatCode};
ghost use Rattle.ame_eval.specs.Machines.{stage_by};

use crate::cells::Cell;
use ame_code::Code;
use ame_eval::Machine;
use ame_machine::{Runner, Wants};
use ame_term::{Copied, NoMemory};
use std::alloc::Global;

/// A number of steps that is far from the end of numbers.
const MOST_STEPS: u64 = 1_099_511_627_776;

/// A machine, what was set at its locations, the latest last, and the number of the next location.
#[derive(Drop)]
pub struct Lone {
    pub machine: Machine,
    pub cells: Vec<Cell>,
    pub next: u32,
}

impl Lone {
    ghost use Rattle.ame_machine_cases.specs.Alone.{IsAlone, far_steps};

    /// Starts at the beginning of a program.
    pub fn start(alloc: Global, code: &Code) -> Result<Lone, NoMemory>
        ensures { IfOk result (λ lone. IsAlone code.now lone) }
    {
        let machine = Machine::start(alloc, code)?;
        Ok(Lone {
            machine,
            cells: Vec::new(alloc),
            next: 0,
        })
    }

    /// Returns whether it has made few enough steps to run on.
    pub fn is_young(&self) -> bool
        ensures { (code : FlatCode) → result ≡ true → (stage_by code self.now.machine).steps ≤ far_steps }
    {
        self.machine.steps() <= MOST_STEPS
    }

    /// Runs to what is wanted next, by at most this number of steps.
    pub fn advance(&mut self, alloc: Global, code: &Code, fuel: u32) -> Result<Wants, NoMemory>
        requires alone { IsAlone code.now self.old }
        requires young { (stage_by code.now self.old.machine).steps ≤ far_steps }
        ensures alone { IsAlone code.now self.new }
        ensures told { IfOk result (λ want. (stage_by code.now self.new.machine).want ≡ Some want) }
    {
        self.machine.advance(alloc, code, fuel as u64)
    }

    /// Lets go of all but the term.
    pub fn settle(&mut self)
        ensures { (code : FlatCode) → IsAlone code self.old → IsAlone code self.new }
    {
        self.machine.settle();
    }

    /// Counts the steps since it was checked from here on.
    pub fn checked(&mut self)
        ensures { (code : FlatCode) → IsAlone code self.old → IsAlone code self.new }
    {
        self.machine.checked();
    }

    /// Copies the machine, and goes on without cells.
    pub fn copy_machine(&self, alloc: Global) -> Result<Lone, NoMemory>
        ensures { IfOk result (λ lone. (code : FlatCode) → IsAlone code self.now → IsAlone code lone) }
    {
        let machine = self.machine.copy(alloc)?;
        Ok(Lone {
            machine,
            cells: Vec::new(alloc),
            next: self.next,
        })
    }

    /// Takes the first new member, over the same cells.
    pub fn into_spawn(self, alloc: Global) -> Option<Lone>
        ensures { IfSome result (λ lone. (code : FlatCode) → IsAlone code self → IsAlone code lone) }
    {
        let Lone {
            mut machine,
            cells,
            next,
        } = self;
        match machine.take_spawn(alloc) {
            Some(member) => Some(Lone {
                machine: member,
                cells,
                next,
            }),
            None => None,
        }
    }
}
