//! Journals that can't be made, each with its reason. Whole calls of `check` test the verdicts alone.

use crate::texts::code_of;
use ame_check::{Judged, Reason, judge};
use ame_eval::Fragment;
use ame_journal::Journal;
use ame_machine::Wants;
use ame_term::Loc;
use std::alloc::Global;
use std::test::Fail;

const WAITS: &[u8] =
    b"(let r (ref p 0) (do (async (do (blockUntil (= (get r) 1)) (print 10))) (async (set r 1))))";

const CALLS: &[u8] = b"(unprotected (print (call 0 5)))";

const TWO_CELLS: &[u8] = b"(let x (ref p 0) (let y (ref p 0) unit))";

/// A text, a journal, the entry that can't be made, and why.
const ROWS: &[(&[u8], &[u8], u64, Reason)] = &[
    (
        WAITS,
        b"ran 0 0 5 0\nstuck 0 1 2\nran 0 2 2\nran 0 1 5\n",
        3,
        Reason::Stops(1, Wants::Done),
    ),
    (
        WAITS,
        b"ran 0 0 5 0\nran 0 2 1\nstuck 0 1 2\n",
        3,
        Reason::Stops(2, Wants::OutOfFuel),
    ),
    (b"unit", b"ran 0 1 0\n", 1, Reason::NoMember),
    (CALLS, b"ran 0 0 0\nran 0 0 0\n", 2, Reason::Inside),
    (CALLS, b"free 0 0 1 = 1\n", 1, Reason::Outside),
    (CALLS, b"ran 0 0 0\nfree 0 0 0\n", 2, Reason::NoSteps),
    (CALLS, b"ran 0 0 0\nfree 0 0 1\n", 2, Reason::Unanswered(0)),
    (
        CALLS,
        b"ran 0 0 0\nfree 0 0 1 = 1\nfree 0 0 1 = 1\n",
        3,
        Reason::Answered,
    ),
    (
        CALLS,
        b"ran 0 0 0\nfree 0 0 2 = 1\n",
        2,
        Reason::Stops(0, Wants::Device(0, 5)),
    ),
    (TWO_CELLS, b"ran 0 0 4 7\n", 1, Reason::Missing(2)),
    (TWO_CELLS, b"ran 0 0 4 7 7\n", 1, Reason::Taken(2, Loc(7))),
    (
        TWO_CELLS,
        b"ran 0 0 4 7 8 9\n",
        1,
        Reason::Unused(4, Loc(9)),
    ),
];

/// Judges the text of a journal.
fn judged(alloc: Global, text: &[u8], journal: &[u8]) -> Result<Judged, Fail> {
    if journal.len() > 10_000 {
        return Err("too long".into());
    }
    let journal = Journal::from_text(alloc, journal).map_err(|_| "a journal")?;
    let code = code_of(alloc, text)?;
    Ok(judge::<Fragment>(alloc, &code, journal.entries())?)
}

#[test]
fn journals_are_judged_with_a_reason(rt: HostRuntime) -> Result<(), Fail> {
    for &(text, journal, place, why) in ROWS {
        let Judged::Invalid(found, reason) = judged(rt.alloc(), text, journal)? else {
            return Err("not invalid".into());
        };
        assert_eq!(rt; (found, reason), (place, why), "{journal:?}");
    }
    Ok(())
}
