//! The stops of an engine.

ghost use Rattle.std.specs.Prelude.{◌≡◌, false, None, Some, IsTrue};
ghost use Rattle.ame_pool.specs.declared.oldest.Oldest.{Oldest};
ghost use Rattle.ame_pool.specs.Begin.{oldest as oldest_of};
ghost use Rattle.ame_engine.specs.declared.pick.Pick.{Pick};
ghost use Rattle.ame_engine.specs.Begins.{pick_of};
ghost use Rattle.ame_protocol.specs.Event.Causes.{HasCause, is_from_outside, only_seats_keep};
ghost use Rattle.ame_protocol.specs.Event.Event.{Event};
ghost use Rattle.ame_engine.specs.Seen.{parts_of};
ghost use Rattle.ame_engine.specs.Makes.{Makes};
ghost use Rattle.ame_engine.specs.Stops.{stopped_by};
ghost use Rattle.ame_protocol.specs.Event.Bounds.{LeavesNoTry};

use super::Engine;
use ame_machine::Runner;
use ame_protocol::Stop;

impl<M: Runner> Engine<M>
where
    M::Code: Drop,
{
    /// Says that what a seat meets that begins is the cause of the stop that is kept then. A stop from outside needs no cause.
    pub(super) fn stops_have_causes(&self)
        ensures finished { pick_of self.now ≡ Pick.Finished → HasCause (Some Stop.Finished) self.now.certificates
            (parts_of M.meaning (stopped_by Stop.Finished self.now)) }
        ensures spent { pick_of self.now ≡ Pick.Spent → HasCause (Some Stop.Spent) self.now.certificates
            (parts_of M.meaning (stopped_by Stop.Spent self.now)) }
        ensures outside { (why : Stop) → IsTrue (is_from_outside why) → self.now.stop ≡ None → HasCause (Some why) self.now.certificates
            (parts_of M.meaning (stopped_by why self.now)) }
        ensures leaves { (why : Stop) → IsTrue (is_from_outside why) → LeavesNoTry why (parts_of M.meaning self.now) }
        ensures parked { pick_of self.now ≡ Pick.Blocked → oldest_of self.now.pool ≡ Oldest.Parked }
        ensures going { pick_of self.now ≡ Pick.Blocked → self.now.stop ≡ None }
    {
        let _ = &self.turns;
    }

    /// Keeps a stop, if none is kept. The stop has its cause, and isn't one that only an event of a seat keeps. With one seat no attempt
    /// is left without an entry if the turns are used up.
    pub(super) fn keep(&mut self, why: Stop)
        requires apart { only_seats_keep why ≡ false }
        requires cause { self.old.stop ≡ None → HasCause (Some why) self.old.certificates
            (parts_of M.meaning (stopped_by why self.old)) }
        requires leaves { self.old.stop ≡ None → LeavesNoTry why (parts_of M.meaning self.old) }
        ensures { self.new ≡ stopped_by why self.old }
    {
        if self.stop.is_none() {
            self.stop = Some(why);
        }
    }

    /// Keeps a stop that comes from outside, if none is kept. Takes no memory, and counts no turn.
    pub fn stop(&mut self, why: Stop)
        requires { IsTrue (is_from_outside why) }
        ensures stops { self.new ≡ stopped_by why self.old }
        ensures halts { self.old.stop ≡ None → Makes M.meaning (Event.Halt why) self.old self.new }
    {
        self.stops_have_causes();
        self.keep(why);
    }
}
