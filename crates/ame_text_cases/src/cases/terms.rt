//! Substitution for a name, and the redex of each form, by texts.

use crate::cases::texts::read;
use ame_print::print_term;
use ame_term::{Name, Program, Split, Term, Value, refill, split, substitute};
use std::alloc::Global;
use std::test::Fail;

/// A text that binds its first name, and its body with three put in for that name.
const PUT_IN: &[(&[u8], &[u8])] = &[
    (b"(let x 0 (+ x x))", b"(+ 3 3)"),
    (b"(let x 0 (let x x x))", b"(let x 3 x)"),
    (b"(let x 0 (fn p (x Int) x))", b"(fn p (x Int) x)"),
    (b"(let x 0 (fn p (y Int) x))", b"(fn p (y Int) 3)"),
    (
        b"(let x 0 (rec p x (y Int) Int x))",
        b"(rec p x (y Int) Int x)",
    ),
    (
        b"(let x 0 (rec p y (y Int) Int x))",
        b"(rec p y (y Int) Int 3)",
    ),
    (
        b"(let x 0 (do (async (print x)) (print x)))",
        b"(do (async (print 3)) (print 3))",
    ),
];

/// Returns the body of a text that binds its first name, with three put in for that name.
fn body_with_three(alloc: Global, text: &[u8]) -> Result<Vec<u8>, Fail> {
    let program = read(alloc, text)?;
    let Term::Let(_, _, body) = &program.term else {
        return Err("it binds no name".into());
    };
    let put = substitute(alloc, body, Name(0), &Value::Int(3))?;
    Ok(print_term(alloc, program.names.as_slice(), &put)?)
}

#[test]
fn nothing_is_put_in_for_a_name_that_a_binder_hides(rt: HostRuntime) -> Result<(), Fail> {
    for (text, body) in PUT_IN {
        assert_eq!(rt; body_with_three(rt.alloc(), text)?.as_slice(), *body);
    }
    Ok(())
}

/// A text, its redex, and the text with two in place of that.
const REDEXES: &[(&[u8], &[u8], &[u8])] = &[
    (b"(+ 1 (* 2 3))", b"(* 2 3)", b"(+ 1 2)"),
    (b"(+ (+ 1 1) (* 2 3))", b"(+ 1 1)", b"(+ 2 (* 2 3))"),
    (b"(not (< 1 1))", b"(< 1 1)", b"(not 2)"),
    (b"(ref p (+ 1 1))", b"(+ 1 1)", b"(ref p 2)"),
    (b"(get (ref p 1))", b"(ref p 1)", b"(get 2)"),
    (b"(peek (ref p 1))", b"(ref p 1)", b"(peek 2)"),
    (b"(set (ref p 1) (+ 1 1))", b"(ref p 1)", b"(set 2 (+ 1 1))"),
    (b"(set 1 (+ 1 1))", b"(+ 1 1)", b"(set 1 2)"),
    (b"(async (+ 1 1))", b"(async (+ 1 1))", b"2"),
    (b"(blockUntil (= 1 1))", b"(= 1 1)", b"(blockUntil 2)"),
    (
        b"(unprotected (do (* 2 3) unit))",
        b"(* 2 3)",
        b"(unprotected (do 2 unit))",
    ),
    (b"(print (+ 1 1))", b"(+ 1 1)", b"(print 2)"),
    (b"(call 0 (+ 1 1))", b"(+ 1 1)", b"(call 0 2)"),
    (b"(pair (+ 1 1) 3)", b"(+ 1 1)", b"(pair 2 3)"),
    (b"(pair 1 (+ 1 1))", b"(+ 1 1)", b"(pair 1 2)"),
    (b"(fst (pair 1 1))", b"(pair 1 1)", b"(fst 2)"),
    (b"(snd (pair 1 1))", b"(pair 1 1)", b"(snd 2)"),
    (b"(let x (+ 1 1) x)", b"(+ 1 1)", b"(let x 2 x)"),
    (b"(if (= 1 1) (+ 1 1) 3)", b"(= 1 1)", b"(if 2 (+ 1 1) 3)"),
    (
        b"(do (print 1) (print 2))",
        b"(print 1)",
        b"(do 2 (print 2))",
    ),
    (
        b"(app (fn p (x Int) x) (+ 1 1))",
        b"(fn p (x Int) x)",
        b"(app 2 (+ 1 1))",
    ),
    (b"(fn p (x Int) (+ 1 1))", b"(fn p (x Int) (+ 1 1))", b"2"),
];

/// Returns the redex of a text.
fn redex_of(alloc: Global, text: &[u8]) -> Result<Vec<u8>, Fail> {
    let program = read(alloc, text)?;
    match split(&program.term) {
        Split::Value(_) => Err("a value".into()),
        Split::Redex { redex, .. } => Ok(print_term(alloc, program.names.as_slice(), redex)?),
    }
}

/// Returns a text with two in place of its redex.
fn with_two(alloc: Global, text: &[u8]) -> Result<Vec<u8>, Fail> {
    let Program {
        names,
        places: _,
        mut term,
    } = read(alloc, text)?;
    refill(&mut term, Term::Held(Value::Int(2)));
    Ok(print_term(alloc, names.as_slice(), &term)?)
}

#[test]
fn each_form_has_its_redex(rt: HostRuntime) -> Result<(), Fail> {
    for (text, redex, refilled) in REDEXES {
        assert_eq!(rt; redex_of(rt.alloc(), text)?.as_slice(), *redex);
        assert_eq!(rt; with_two(rt.alloc(), text)?.as_slice(), *refilled);
    }
    Ok(())
}
