//! The members of an engine that goes on from a base.

ghost use Rattle.std.specs.Prelude.{◌≡◌, IfOk};
ghost use Rattle.ame_engine.specs.Resuming.{AreMembersOf};

use ame_machine::Runner;
use ame_pool::Pool;
use ame_term::NoMemory;
use std::alloc::Global;
use std::collections::BTreeMap;

/// Returns the members of a replay, all ready in order of their numbers.
pub(crate) fn pool_of<M: Runner>(
    alloc: Global,
    _code: &M::Code,
    mut members: BTreeMap<u64, M>,
) -> Result<Pool<M>, NoMemory>
    ensures { IfOk result (AreMembersOf M.meaning.stage _code.now members.entries) }
{
    let mut pool = Pool::new(alloc);
    pool.room(members.len())?;
    while let Some((number, machine)) = members.pop_first() {
        let inside = machine.inside();
        pool.add(number, machine, inside);
    }
    Ok(pool)
}
