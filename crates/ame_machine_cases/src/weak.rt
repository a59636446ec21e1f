//! Labels of the weak semantics, and the journal that straightens them: unprotected code steps between the steps of an active fragment.

use crate::texts::accept;
use ame_term::{Label, Loc, StepKind};
use ame_weak::{Straight, straighten};
use std::alloc::Global;
use std::test::Fail;

/// Member 0 makes a protected cell and an unprotected one, begins member 1, and writes the unprotected cell while
/// member 1 is active.
const INTERLEAVED: &[u8] =
    b"(let n (ref p 0) (let x (ref u 0) (do (async (set n 1)) (unprotected (set x 7)))))";

const LABELS: &[Label] = &[
    Label::Activate(0),
    Label::Step(StepKind::Alloc(Loc(0))),
    Label::Step(StepKind::Local),
    Label::Step(StepKind::Alloc(Loc(1))),
    Label::Step(StepKind::Local),
    Label::Step(StepKind::Spawn),
    Label::Step(StepKind::Local),
    Label::Leave,
    Label::Activate(1),
    Label::Free(0, StepKind::Write),
    Label::Step(StepKind::Write),
    Label::Close(0),
    Label::End,
];

/// Labels, with their outcome as text.
const COME_TO: &[(&[Label], &[u8])] = &[
    (
        LABELS,
        b"ran 0 0 6 0 1\nfree 0 0 1\nfree 0 0 1\nran 0 1 1\n",
    ),
    (&[Label::Activate(1)], b"illegal 1"),
    (&[Label::Activate(0)], b"active 0"),
    (
        &[Label::Activate(0), Label::Step(StepKind::Local)],
        b"illegal 2",
    ),
    (&[Label::Close(0)], b"illegal 1"),
    (&[], b""),
];

fn with_number(alloc: Global, word: &[u8], number: u64) -> Result<Vec<u8>, Fail> {
    let mut text = Vec::from_slice(alloc, word)?;
    text.push(b'0' + (number % 10) as u8)?;
    Ok(text)
}

/// Returns the outcome of labels: the lines of the journal, or a word and a number below 10.
fn straightened(alloc: Global, labels: &[Label]) -> Result<Vec<u8>, Fail> {
    let accepted = accept(alloc, INTERLEAVED, 0)?;
    match straighten(alloc, &accepted, labels, &[])? {
        Straight::Journal(journal) => Ok(journal.to_text(alloc)?),
        Straight::Illegal(number) => with_number(alloc, b"illegal ", number),
        Straight::Active(number) => with_number(alloc, b"active ", number),
    }
}

#[test]
fn labels_come_to_a_journal(rt: HostRuntime) -> Result<(), Fail> {
    for (labels, text) in COME_TO {
        assert_eq!(rt; straightened(rt.alloc(), labels)?.as_slice(), *text);
    }
    Ok(())
}
