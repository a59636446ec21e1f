//! Which calls of an end in memory fail.
ghost use Rattle.std.specs.Prelude.{◌≡◌, ◌↔◌, IsTrue};
ghost use Rattle.ame_io.specs.Counts.{next_count};
ghost use Rattle.ame_io.specs.InMemory.{FailsNext};

// The numbers of the calls that fail, from 1, and the counts of calls and of faults.
#[derive(Debug, Drop)]
pub(crate) struct Plan {
    pub(crate) fails: Vec<u64>,
    pub(crate) calls: u64,
    pub(crate) faults: u64,
}

impl Plan {
    pub(crate) fn new(fails: Vec<u64>) -> Plan
        ensures { result ≡ record { fails = fails; calls = 0; faults = 0 } }
    {
        Plan {
            fails,
            calls: 0,
            faults: 0,
        }
    }

    // Counts a call, and answers whether it is to fail.
    pub(crate) fn fails_next(&mut self) -> bool
        ensures answer { IsTrue result ↔ FailsNext self.old.fails.items self.old.calls }
        ensures after { self.new ≡ record self.old { calls = next_count self.old.calls } }
    {
        self.calls = self.calls.saturating_add(1);
        self.fails.contains(&self.calls)
    }

    pub(crate) fn count_fault(&mut self)
        ensures { self.new ≡ record self.old { faults = next_count self.old.faults } }
    {
        self.faults = self.faults.saturating_add(1);
    }
}
