//! The end of a visit for the visited member.

ghost use Rattle.std.specs.Prelude.{◌≡◌, All};
ghost use Rattle.ame_pool.specs.Members.{is_busy};
ghost use Rattle.ame_pool.specs.Calls.{IsAt, exchanged};
ghost use Rattle.ame_protocol.specs.Engine.Shown.{shown_pool};
ghost use Rattle.ame_engine.specs.Seen.{term_shown};
ghost use Rattle.ame_engine.specs.Whole.{IsAtRest};
ghost use Rattle.ame_engine.specs.Visiting.{SettlesThere};

use ame_machine::Runner;
use ame_pool::Pool;

/// Sends a visited member home with no more than its term, inside or not.
pub(super) fn send_home<M: Runner>(pool: &mut Pool<M>, number: u64, mut at: M)
    requires { IsAt is_busy number pool.old }
    ensures shown { (code : M.Code) → shown_pool (term_shown M.meaning.stage code) pool.new
        ≡ exchanged number (M.meaning.stage code at).term (M.meaning.stage code at).inside (shown_pool (term_shown M.meaning.stage code) pool.old) }
    ensures rests { (code : M.Code) → M.meaning.is_machine code at → SettlesThere (M.meaning.stage code at)
        → All (IsAtRest M.meaning.is_machine M.meaning.stage code) pool.old.members → All (IsAtRest M.meaning.is_machine M.meaning.stage code) pool.new.members }
{
    let inside = at.inside();
    at.settle();
    pool.replace(number, at, inside);
}
