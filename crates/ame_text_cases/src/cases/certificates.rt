//! Explanations of certificates.

use ame_check::Reason;
use ame_machine::Wants;
use ame_term::Loc;
use ame_why::{explain_entry, explain_line};
use std::test::Fail;

/// Inputs, with the line that is explained, and its explanation.
const LINES: &[(&[u8], u64, &[u8])] = &[
    (
        b"ran 0 0 05\nprogram\nunit",
        1,
        b"line 1, column 9:\n    ran 0 0 05\n            ^\nexpected the number of steps: below 18446744073709551616, without leading zeros\n",
    ),
    (
        b"ran 0 0 5\nrun 0 0 5\nprogram\nunit",
        2,
        b"line 2, column 1:\n    run 0 0 5\n    ^\nexpected `ran`, `free`, `stuck`, `cut` or `tall`\n",
    ),
    (
        b"ran 32 0 0\nprogram\nunit",
        1,
        b"line 1, column 5:\n    ran 32 0 0\n        ^\nexpected a seat: a number from 0 to 31\n",
    ),
    (
        b"ran 0  0 0\nprogram\nunit",
        1,
        b"line 1, column 7:\n    ran 0  0 0\n          ^\nexpected the number of a task: below 18446744073709551616, without leading zeros\n",
    ),
    (
        b"ran 0 0 5 = 1\nprogram\nunit",
        1,
        b"line 1, column 11:\n    ran 0 0 5 = 1\n              ^\nexpected a new location: below 4294967296, without leading zeros; only a `free` line has an answer, after `=`\n",
    ),
    (
        b"free 0 0 5 1 = -0\nprogram\nunit",
        1,
        b"line 1, column 16:\n    free 0 0 5 1 = -0\n                   ^\nexpected an answer: a signed 64-bit integer without leading zeros\n",
    ),
    (
        b"free 0 0 5 = 1 2\nprogram\nunit",
        1,
        b"line 1, column 16:\n    free 0 0 5 = 1 2\n                   ^\ntext after the answer: an answer ends its line\n",
    ),
    (
        b"ran 0 0\nprogram\nunit",
        1,
        b"line 1, column 8:\n    ran 0 0\n           ^\nincomplete line: expected kind, seat, task, steps, then new locations\n",
    ),
    (
        b"ran 0 0 0\r\nprogram\nunit",
        1,
        b"line 1, column 9:\n    ran 0 0 0 \n            ^\ncarriage return in the line: a line ends with a line feed only\n",
    ),
    (
        b"ran 0 0 0\nunit\n",
        3,
        b"line 3, column 1:\n    \n    ^\nmissing line `program` between the journal and the program text\n",
    ),
];

#[test]
fn lines_that_spell_no_entry_are_told_with_the_word(rt: HostRuntime) -> Result<(), Fail> {
    for &(input, line, page) in LINES {
        assert_eq!(rt; explain_line(rt.alloc(), input, line)?.as_slice(), page);
    }
    Ok(())
}

/// An input whose second line has every word that a reason can speak of.
const INPUT: &[u8] = b"ran 0 0 0\nfree 3 17 5 2 40 = 6\nprogram\nunit";

/// Reasons, with the columns to which they point, and their explanations.
const REASONS: &[(Reason, &[u8], &[u8])] = &[
    (
        Reason::NoMember,
        b"line 2, column 8:\n    free 3 17 5 2 40 = 6\n           ^\n",
        b"no such task here: it has ended or has not been started\n",
    ),
    (
        Reason::NoSteps,
        b"line 2, column 11:\n    free 3 17 5 2 40 = 6\n              ^\n",
        b"a `free` line makes at least one step\n",
    ),
    (
        Reason::Answered,
        b"line 2, column 18:\n    free 3 17 5 2 40 = 6\n                     ^\n",
        b"the last step calls no device: expected no answer\n",
    ),
    (
        Reason::Missing(4),
        b"line 2, column 21:\n    free 3 17 5 2 40 = 6\n                        ^\n",
        b"after 4 of 5 steps: missing location: the task creates one\n",
    ),
    (
        Reason::Taken(1, Loc(2)),
        b"line 2, column 13:\n    free 3 17 5 2 40 = 6\n                ^\n",
        b"after 1 of 5 steps: location already exists\n",
    ),
    (
        Reason::Unused(5, Loc(40)),
        b"line 2, column 15:\n    free 3 17 5 2 40 = 6\n                  ^\n",
        b"after 5 of 5 steps: unused location: the task creates no more\n",
    ),
    (
        Reason::Stops(2, Wants::Done),
        b"line 2, column 11:\n    free 3 17 5 2 40 = 6\n              ^\n",
        b"after 2 of 5 steps: the task has ended: it makes no further step\n",
    ),
    (
        Reason::Stops(5, Wants::OutOfFuel),
        b"line 2, column 11:\n    free 3 17 5 2 40 = 6\n              ^\n",
        b"after 5 of 5 steps: the line ends too early: the task has more steps to make\n",
    ),
];

#[test]
fn entries_that_cant_be_made_are_told_with_the_reason(rt: HostRuntime) -> Result<(), Fail> {
    for (why, place, words) in REASONS {
        let page = explain_entry(rt.alloc(), INPUT, 2, why)?;
        let (shown, told) = page.as_slice().split_at(place.len().min(page.len()));
        assert_eq!(rt; shown, *place);
        assert_eq!(rt; told, *words);
    }
    Ok(())
}
