//! The lines of a small program's entries.

use crate::cases::code::code_of;
use ame_check::Halt;
use ame_journal::Journal;
use ame_views::replayed_run_of;
use std::alloc::Global;
use std::test::Fail;

const PROGRAM: &[u8] = b"(do (async (print 2)) (unprotected (print 3)) (print 1))";

const JOURNAL: &[u8] = b"ran 0 0 2\nran 0 1 1\nfree 0 0 2\nran 0 0 2\n";

const LINES: &[&[i64]] = &[&[], &[2], &[3], &[1]];

/// Returns the lines of each entry of a journal of the program.
fn told(alloc: Global, journal: &[u8]) -> Result<Option<Vec<Vec<i64>>>, Fail> {
    if journal.len() > 10_000 {
        return Err("too long".into());
    }
    let journal = Journal::from_text(alloc, journal).map_err(|_| "a journal")?;
    let code = code_of(alloc, PROGRAM)?;
    match replayed_run_of(alloc, PROGRAM, &code, journal.entries()) {
        Ok(run) => Ok(Some(run.lines)),
        Err(Halt::Undefined(_, _) | Halt::Tall(_)) => Ok(None),
        Err(Halt::NoMemory) => Err("memory".into()),
    }
}

#[test]
fn each_entry_has_its_lines(rt: HostRuntime) -> Result<(), Fail> {
    let lines = told(rt.alloc(), JOURNAL)?.ok_or("a run")?;
    assert_eq!(rt; lines.len(), LINES.len());
    for (line, expected) in lines.iter().zip(LINES) {
        assert_eq!(rt; line.as_slice(), *expected);
    }
    assert!(rt;
        told(rt.alloc(), b"ran 0 0 9\n")?.is_none(),
        "a journal of another program"
    );
    Ok(())
}
