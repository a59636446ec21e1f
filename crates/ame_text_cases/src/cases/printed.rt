//! Texts and their canonical form, and what no text has.

use crate::cases::texts::read;
use ame_print::{print_program, print_term};
use ame_term::{Loc, Name, Term, Value};
use std::alloc::Global;
use std::test::Fail;

/// Returns the canonical text of a program's text.
fn reprinted(alloc: Global, text: &[u8]) -> Result<Vec<u8>, Fail> {
    let program = read(alloc, text)?;
    Ok(print_program(alloc, &program)?)
}

/// Returns whether this is the canonical text of a program's text.
fn is_reprinted_as(alloc: Global, text: &[u8], canonical: &[u8]) -> Result<bool, Fail> {
    Ok(reprinted(alloc, text)?.as_slice() == canonical)
}

/// Each form and each type.
const CANONICAL: &[(&[u8], &[u8])] = &[
    (b"(do yield(print  007))", b"(do yield (print 7))"),
    (b"\tunit ; nothing", b"unit"),
    (b"-0", b"0"),
    (
        b"(if true false(not(< -0009 9)))",
        b"(if true false (not (< -9 9)))",
    ),
    (b"( + 1(- 2( * 3( = 4 5))) )", b"(+ 1 (- 2 (* 3 (= 4 5))))"),
    (
        b"(let p(ref p 1)(set p(get p)))",
        b"(let p (ref p 1) (set p (get p)))",
    ),
    (
        b"(unprotected (let r (ref u(call 007 1)) (peek r)))",
        b"(unprotected (let r (ref u (call 7 1)) (peek r)))",
    ),
    (b"(unprotected unit)", b"yield"),
    (b"(unprotected(unprotected unit))", b"(unprotected yield)"),
    (
        b"(do(async unit)(blockUntil true)unit unit)",
        b"(do (async unit) (blockUntil true) unit unit)",
    ),
    (
        b"(fst(snd(pair 1(pair 2 3))))",
        b"(fst (snd (pair 1 (pair 2 3))))",
    ),
    (
        b"(app(fn u(x(Ref u(Pair Int Bool)))x)2)",
        b"(app (fn u (x (Ref u (Pair Int Bool))) x) 2)",
    ),
    (
        b"(rec a f(f(Fun p Unit(Ref p Int)))(Fun u Bool Int)f)",
        b"(rec a f (f (Fun p Unit (Ref p Int))) (Fun u Bool Int) f)",
    ),
    (
        b"(let b_1 1(let A 2(let b_1 A b_1)))",
        b"(let b_1 1 (let A 2 (let b_1 A b_1)))",
    ),
];

#[test]
fn canonical_texts(rt: HostRuntime) -> Result<(), Fail> {
    for &(text, canonical) in CANONICAL {
        assert!(rt; is_reprinted_as(rt.alloc(), text, canonical)?, "{text:?}");
        assert!(rt;
            is_reprinted_as(rt.alloc(), canonical, canonical)?,
            "{canonical:?}"
        );
    }
    Ok(())
}

#[test]
fn what_no_text_has(rt: HostRuntime) -> Result<(), Fail> {
    let location = Term::Held(Value::Loc(Loc(3)));
    let page = print_term(rt.alloc(), &[], &location)?;
    assert_eq!(rt; page.as_slice(), b"@3".as_slice());
    let unknown = Term::Var(Name(7));
    let page = print_term(rt.alloc(), &[], &unknown)?;
    assert_eq!(rt; page.as_slice(), b"?7".as_slice());
    Ok(())
}
