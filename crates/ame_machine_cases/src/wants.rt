//! The wants of machines, each in its turn, and what they print in protected code.

ghost use Rattle.ame_machine_cases.specs.Alone.{IsAlone};

use crate::lone::Lone;
use crate::texts::{code_of, run, serve};
use ame_code::Code;
use ame_machine::{Runner, Wants};
use ame_term::NoMemory;
use std::alloc::{AllocError, Global};
use std::process::Abort;
use std::test::Fail;

/// A text, and what is wanted, in order.
#[derive(Clone, Copy)]
struct Row(&'static [u8], &'static str);

const ROWS: &[Row] = &[
    Row(b"unit", "Done"),
    Row(b"(blockUntil false)", "Block"),
    Row(b"(do (blockUntil true) (print 1))", "Done"),
    Row(
        b"(let r (ref p 3) (do (set r (+ (get r) 4)) (print (get r))))",
        "Alloc(Protected, TyNo(0)) Read(Loc(0)) Write(Loc(0)) Read(Loc(0)) Done",
    ),
    Row(
        b"(let r (ref p (ref u 7)) (unprotected (print (get (peek r)))))",
        "Alloc(Unprotected, TyNo(1)) Alloc(Protected, TyNo(0)) Leave Peek(Loc(1)) Read(Loc(0)) Print(7) Close Done",
    ),
    Row(
        b"(unprotected (do (print (call 0 5)) (print (call 1 6))))",
        "Leave Device(0, 5) Print(6) Device(1, 6) Print(7) Close Done",
    ),
    Row(
        b"(unprotected (let x (ref u 7) (do (async (print 1)) (set x 8) (print (get x)))))",
        "Leave Alloc(Unprotected, TyNo(0)) Spawn Write(Loc(0)) Read(Loc(0)) Print(8) Close Done",
    ),
    Row(
        b"(do (unprotected (print 1)) (unprotected (print 2)))",
        "Leave Print(1) Close Leave Print(2) Close Done",
    ),
];

/// Lets a machine that leaves go on inside, and feeds any other what it wants; whether it goes on.
fn goes_on(rt: &impl Abort, code: &Code, lone: &mut Lone, want: Wants) -> Result<bool, NoMemory>
    requires { IsAlone code.now lone.old }
    ensures { IsAlone code.now lone.new }
{
    if want == Wants::Leave {
        lone.settle();
        return Ok(true);
    }
    serve(rt, code, lone)
}

/// Appends one more want, after a space.
fn add(alloc: Global, wanted: &mut String, want: Wants) -> Result<(), AllocError> {
    if wanted.len() > 0 {
        wanted.push_str(" ")?;
    }
    let name = format!(in alloc; "{want:?}")?;
    wanted.push_str(name.as_str())?;
    Ok(())
}

/// Returns all that is wanted, in order.
fn all_wants(rt: &impl Abort, alloc: Global, code: &Code) -> Result<String, Fail> {
    let mut lone = Lone::start(alloc, code)?;
    let mut wanted = String::new(alloc);
    'wants: for _ in 0..50 {
        let want = run(rt, alloc, code, &mut lone, 1000)?;
        add(alloc, &mut wanted, want)?;
        if !goes_on(rt, code, &mut lone, want)? {
            return Ok(wanted);
        }
    }
    Err("it wants no end".into())
}

#[test]
fn machines_want_in_turn(rt: HostRuntime) -> Result<(), Fail> {
    let alloc = rt.alloc();
    for &Row(text, wants) in ROWS {
        let code = code_of(alloc, text)?;
        let found = all_wants(&rt, alloc, &code)?;
        assert_eq!(rt; found.as_str(), wants);
    }
    Ok(())
}
