//! A journal as it is shown.

use ame_journal::Journal;
use ame_protocol::Tried;
use ame_term::{Loc, TyNo};
use ame_views::{Created, Starter, forms_of, table_of};
use ame_why::Position;
use std::alloc::Global;
use std::test::Fail;

const JOURNAL: &[u8] =
    b"ran 0 0 5 0\nstuck 0 1 3\nran 0 2 3\nran 0 1 11\nran 31 12 0\nfree 0 12 2 1 2 = -6\nfree 0 12 1\nran 0 12 4\ncut 1 100000000 1234567\ntall 2 3 9\n";

/// The integers that the first entries print.
const LINES: &[&[i64]] = &[&[], &[], &[], &[2], &[], &[-1, 0]];

/// The starters of the first fragments: the form of the second isn't known.
const STARTERS: &[Starter] = &[
    Starter {
        entry: 1,
        form: Some(Position { line: 3, column: 7 }),
    },
    Starter {
        entry: 1,
        form: None,
    },
    Starter {
        entry: 3,
        form: Some(Position {
            line: 104,
            column: 17,
        }),
    },
];

/// Two tries, of a fragment whose starter is known, and of one whose starter isn't.
const TRIES: &[Tried] = &[
    Tried {
        number: 2,
        steps: 3,
        at: 1,
    },
    Tried {
        number: 12,
        steps: 40,
        at: 10,
    },
];

const TABLE: &[u8] = b"entry  seat      task  started by      steps  what it did
    1     0         0     -                5  ran, created 0
                    2     1                3  rolled back; its reads were last valid after entry 1
    2     0         1     1 at 3:7         3  rolled back: condition false
    3     0         2     1                3  ran
    4     0         1     1 at 3:7        11  ran, printed 2
    5    31        12     -                0  ran, and entered unprotected code
    6     0        12     -                2  ran unprotected code, created 1 2, answer -6, printed -1 0
    7     0        12     -                1  finished its unprotected code
    8     0        12     -                4  ran
    9     1 100000000     -           1234567  rolled back: cut off
   10     2         3     3 at 104:17      9  rolled back: value nested too deeply
                   12     -               40  rolled back; its reads were last valid after entry 10
";

/// Lines of numbers.
fn printed(alloc: Global, numbers: &[&[i64]]) -> Result<Vec<Vec<i64>>, Fail> {
    let mut lines = Vec::new(alloc);
    for &line in numbers {
        lines.push(Vec::from_slice(alloc, line)?)?;
    }
    Ok(lines)
}

#[test]
fn a_journal_is_shown_line_by_line(rt: HostRuntime) -> Result<(), Fail> {
    let journal = Journal::from_text(rt.alloc(), JOURNAL)?;
    let lines = printed(rt.alloc(), LINES)?;
    let table = table_of(rt.alloc(), journal.entries(), TRIES, STARTERS, &lines)?;
    assert_eq!(rt; table.as_slice(), TABLE);
    Ok(())
}

/// Two locations, and a third one whose form isn't there.
const MADE: &[Created] = &[
    Created {
        location: Loc(0),
        form: TyNo(0),
    },
    Created {
        location: Loc(12),
        form: TyNo(1),
    },
    Created {
        location: Loc(13),
        form: TyNo(2),
    },
];

const FORMS: &[u8] = b"location  ref form
       0  1:9
      12  2:4
      13  unknown
";

#[test]
fn a_location_is_shown_with_its_form(rt: HostRuntime) -> Result<(), Fail> {
    let text = b"(let r (ref p 1)\n  (ref p (get r)))";
    let page = forms_of(rt.alloc(), text, MADE)?;
    assert_eq!(rt; page.as_slice(), FORMS);
    Ok(())
}
