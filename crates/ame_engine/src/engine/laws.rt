//! Facts of each engine.

ghost use Rattle.std.specs.Prelude.{◌≡◌, ◌≤◌, All, IsTrue};
ghost use Rattle.std.specs.List.{list_any};
ghost use Rattle.ame_pool.specs.declared.oldest.Oldest.{Oldest};
ghost use Rattle.ame_pool.specs.Begin.{oldest};
ghost use Rattle.ame_pool.specs.Members.{IsRising, is_busy};
ghost use Rattle.ame_pool.specs.Standings.{max_rollbacks};
ghost use Rattle.ame_protocol.specs.Engine.Simulates.{Simulates};
ghost use Rattle.ame_protocol.specs.Engine.Alone.{RunsExclusively};
ghost use Rattle.ame_protocol.specs.Event.Seated.{AreSeated};
ghost use Rattle.ame_engine.specs.Seen.{parts_of};

use super::Engine;
use ame_machine::Runner;

impl<M: Runner> Engine<M>
where
    M::Code: Drop,
{
    /// Says that each engine stands for the state to which its journal leads.
    pub fn stands(&self)
        ensures { Simulates (parts_of M.meaning self.now) }
    {
        let _ = &self.turns;
    }

    /// Says that no member was rolled back more often than it may be, and that a member that was rolled back that often runs alone. It
    /// meets no cell of another seat, and until a stop is kept its reads are valid. So it isn't rolled back again before its next entry.
    pub fn members_are_rolled_back_seldom(&self)
        ensures few { All (λ m. m.rollbacks ≤ max_rollbacks) self.now.pool.members }
        ensures alone { RunsExclusively (parts_of M.meaning self.now) }
        ensures rising { IsRising self.now.pool.members }
    {
        let _ = &self.turns;
    }

    /// Says that each busy member is at work on a seat.
    pub fn busy_members_are_seated(&self)
        ensures { AreSeated (parts_of M.meaning self.now) }
    {
        let _ = &self.turns;
    }

    /// Says that some member is busy if members are left that may not begin and aren't all parked.
    pub fn who_waits_waits_for_somebody(&self)
        ensures busy { oldest self.now.pool ≡ Oldest.Wait → IsTrue (list_any is_busy self.now.pool.members) }
    {
        let _ = self.pool.oldest();
    }
}
