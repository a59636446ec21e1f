//! The members after a commit: some are woken, new ones join, and the committed one goes on.

ghost use Rattle.std.specs.Prelude.{◌≡◌, ◌+◌, ◌≤◌, ℕ, true, [], All, IfOk, OnOk, OnErr, None, Some, length, map};
ghost use Rattle.ame_pool.specs.Members.{find, is_busy};
ghost use Rattle.ame_pool.specs.Calls.{IsAt, exchanged, removed, with_room};
ghost use Rattle.ame_machine.specs.declared.wants.Wants.{Wants};
ghost use Rattle.ame_protocol.specs.Engine.Shown.{shown_pool};
ghost use Rattle.ame_protocol.specs.Engine.Events.{with_newcomers};
ghost use Rattle.ame_engine.specs.Seen.{term_shown};
ghost use Rattle.ame_engine.specs.Whole.{IsAtRest};
ghost use Rattle.ame_protocol.specs.Engine.Events.{woken_for};

use ame_machine::{Runner, Wants};
use ame_pool::Pool;
use ame_term::{Loc, NoMemory};
use std::alloc::Global;

/// Wakes the members that watch these locations, one location after another.
pub(crate) fn wake_all<M: Drop>(pool: &mut Pool<M>, locs: &[Loc])
    ensures { pool.new ≡ woken_for (map (λ l. l.0) locs.now) pool.old }
{
    for l in locs {
        pool.wake(*l);
    }
}

/// Makes places for new members, whose numbers begin with `first`, and returns the number after theirs. Is out of memory also if that
/// number would have more than 64 bits.
pub(crate) fn make_places<M: Drop>(
    pool: &mut Pool<M>,
    first: u64,
    count: usize,
) -> Result<u64, NoMemory>
    ensures number { IfOk result (λ end. end ≡ first + count) }
    ensures places { OnOk result (pool.new ≡ with_room count pool.old) }
    ensures err { OnErr result (pool.new ≡ pool.old) }
{
    let Some(end) = first.checked_add(count as u64) else {
        return Err(NoMemory);
    };
    pool.room(count)?;
    Ok(end)
}

/// Adds the new members of a machine, which take these numbers in order.
pub(crate) fn join_all<M: Runner>(
    pool: &mut Pool<M>,
    alloc: Global,
    first: u64,
    end: u64,
    at: &mut M,
)
    requires rising { first ≤ end }
    requires numbers { (code : M.Code) → first + length (M.meaning.stage code at.old).spawns ≡ end }
    requires room { end ≤ first + pool.old.room }
    requires fresh { (k : ℕ) → first ≤ k → find k pool.old.members ≡ None }
    ensures pool { (code : M.Code) → shown_pool (term_shown M.meaning.stage code) pool.new
        ≡ with_newcomers first (M.meaning.stage code at.old).spawns (shown_pool (term_shown M.meaning.stage code) pool.old) }
    ensures rests { (code : M.Code) → M.meaning.is_machine code at.old → All (IsAtRest M.meaning.is_machine M.meaning.stage code) pool.old.members
        → All (IsAtRest M.meaning.is_machine M.meaning.stage code) pool.new.members }
    ensures machine { (code : M.Code) → M.meaning.is_machine code at.old → M.meaning.is_machine code at.new }
    ensures stage { (code : M.Code) → M.meaning.stage code at.new ≡ record (M.meaning.stage code at.old) { spawns = [] } }
{
    for number in first..end {
        if let Some(member) = at.take_spawn(alloc) {
            pool.add(number, member, false);
        }
    }
}

/// Removes a member that has ended, and leaves its machine to the pool for a later copy. A member that has come to `unprotected` goes
/// on inside, with no more than its term.
pub(crate) fn send_on<M: Runner>(pool: &mut Pool<M>, number: u64, mut at: M)
    requires { IsAt is_busy number pool.old }
    ensures ended { (code : M.Code) → (M.meaning.stage code at).want ≡ Some Wants.Done → pool.new ≡ removed number pool.old }
    ensures left { (code : M.Code) → (M.meaning.stage code at).want ≡ Some Wants.Leave → shown_pool (term_shown M.meaning.stage code) pool.new
        ≡ exchanged number (M.meaning.stage code at).term true (shown_pool (term_shown M.meaning.stage code) pool.old) }
    ensures rests { (code : M.Code) → M.meaning.is_machine code at → All (IsAtRest M.meaning.is_machine M.meaning.stage code) pool.old.members
        → All (IsAtRest M.meaning.is_machine M.meaning.stage code) pool.new.members }
{
    if let Some(Wants::Leave) = at.want() {
        at.settle();
        pool.replace(number, at, true);
    } else {
        pool.remove(number);
        pool.keep_spare(at);
    }
}
