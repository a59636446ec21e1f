//! A text with its program: names in the order in which they appear, and the place of each term.

use crate::cases::texts::read;
use std::test::Fail;

const TEXT: &[u8] = b"(let b 1 (let a b (do yield (let b a (print b)))))";

/// The places of the terms of the text.
const PLACES: &[u32] = &[0, 7, 9, 16, 18, 22, 22, 28, 35, 37, 44];

/// Returns whether the names are `b` and `a`.
fn are_b_and_a(names: &[Vec<u8>]) -> bool {
    names.len() == 2
        && names[0].as_slice() == b"b".as_slice()
        && names[1].as_slice() == b"a".as_slice()
}

#[test]
fn names_by_first_appearance(rt: HostRuntime) -> Result<(), Fail> {
    let program = read(rt.alloc(), TEXT)?;
    assert!(rt; are_b_and_a(program.names.as_slice()));
    assert_eq!(rt; program.places.as_slice(), PLACES);
    Ok(())
}
