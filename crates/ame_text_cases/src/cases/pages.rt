//! Pages as they are printed.

ghost use Rattle.std.specs.Prelude.{◌≡◌, ◌≤◌, length, Ok};
ghost use Rattle.ame_lex.specs.Bytes.{max_text};
ghost use Rattle.ame_lex.specs.Reading.{tokens_of};

use ame_lex::{LexFault, Token, lex};
use ame_parse::{ParseFault, parse};
use ame_term::{NoMemory, Program};
use ame_types::{TypesFail, check};
use ame_why::{explain_bytes, explain_tokens, explain_types};
use std::alloc::Global;
use std::test::Fail;

/// Explains what the types refuse in a text; returns nothing if they accept it.
pub(crate) fn told(alloc: Global, text: &[u8]) -> Result<Vec<u8>, Fail> {
    if text.len() > 1_048_576 {
        return Err("too long".into());
    }
    let page = match lex(alloc, text) {
        Ok(tokens) => told_of_tokens(alloc, text, &tokens),
        Err(fault) => explain_bytes(alloc, text, fault),
    };
    Ok(page?)
}

/// Explains a text by its tokens.
fn told_of_tokens(alloc: Global, text: &[u8], tokens: &[Token]) -> Result<Vec<u8>, NoMemory>
    requires of_text { tokens_of text.now ≡ Ok tokens.now }
    requires small { length text.now ≤ max_text }
{
    match parse(alloc, text, tokens) {
        Ok(program) => told_of_program(alloc, text, program),
        Err(fault) => explain_tokens(alloc, text, fault),
    }
}

/// Explains a text by its program.
fn told_of_program(alloc: Global, text: &[u8], program: Program) -> Result<Vec<u8>, NoMemory> {
    match check(alloc, program, 2) {
        Ok(_) => Ok(Vec::new(alloc)),
        Err(TypesFail::Fault(fault)) => explain_types(alloc, text, &fault),
        Err(TypesFail::TooLarge | TypesFail::NoMemory) => Err(NoMemory),
    }
}

/// Texts, and their explanations.
const TOLD: &[(&[u8], &[u8])] = &[
    (
        b"(let x 1\n\t(print 7up))",
        b"line 2, column 10:\n    \t(print 7up))\n    \t        ^\nletter directly after a number: put a space between them\n",
    ),
    (
        b"(print 99999999999999999999)",
        b"line 1, column 8:\n    (print 99999999999999999999)\n           ^\nnumber out of range: integers go from -9223372036854775808 to 9223372036854775807\n",
    ),
    (
        b"(do unit\n (print 1",
        b"line 2, column 10:\n     (print 1\n             ^\nexpected `)`, found the end of the text\nopened here:\nline 2, column 2:\n     (print 1\n     ^\n",
    ),
    (
        b"(print x)",
        b"line 1, column 8:\n    (print x)\n           ^\nunbound name `x`\n",
    ),
    (
        b"(print true)",
        b"line 1, column 8:\n    (print true)\n           ^\nargument 1 of `print` has the wrong type\nfound: Bool\nexpected: Int\n",
    ),
    (
        b"(unprotected (print (call 9 1)))",
        b"line 1, column 21:\n    (unprotected (print (call 9 1)))\n                        ^\nno device with this number\nfound: device 9\nexpected: a device below 2\n",
    ),
    (
        b"(let r (ref p 1) (unprotected (set r 2)))",
        b"line 1, column 31:\n    (let r (ref p 1) (unprotected (set r 2)))\n                                  ^\nwrong sort: protected code may only access locations of sort `p`, unprotected code only those of sort `u`\nbound here:\nline 1, column 6:\n    (let r (ref p 1) (unprotected (set r 2)))\n         ^\nfound: sort p\nexpected: effect u\n",
    ),
    (
        b"(let x 1 (let x (set x 2) unit))",
        b"line 1, column 22:\n    (let x 1 (let x (set x 2) unit))\n                         ^\nnot a reference\nbound here:\nline 1, column 6:\n    (let x 1 (let x (set x 2) unit))\n         ^\nfound: Int\n",
    ),
    (
        b"(let x (ref u 1) (let x 1 (do (set x 2) unit)))",
        b"line 1, column 36:\n    (let x (ref u 1) (let x 1 (do (set x 2) unit)))\n                                       ^\nnot a reference\nbound here:\nline 1, column 23:\n    (let x (ref u 1) (let x 1 (do (set x 2) unit)))\n                          ^\nfound: Int\n",
    ),
    (
        b"(let f (fn u (x Int) (print x)) (app f 1))",
        b"line 1, column 33:\n    (let f (fn u (x Int) (print x)) (app f 1))\n                                    ^\nwrong effect: protected code calls functions of effect `p` or `a`, unprotected code those of `u` or `a`; `call` and `peek` are for unprotected code\nbound here:\nline 1, column 6:\n    (let f (fn u (x Int) (print x)) (app f 1))\n         ^\nfound: effect u\nexpected: effect p\n",
    ),
    (
        b"(app (fn p (r (Ref u Int)) (print (get r))) (ref u 1))",
        b"line 1, column 35:\n    (app (fn p (r (Ref u Int)) (print (get r))) (ref u 1))\n                                      ^\nwrong sort: protected code may only access locations of sort `p`, unprotected code only those of sort `u`\nbound here:\nline 1, column 13:\n    (app (fn p (r (Ref u Int)) (print (get r))) (ref ...\n                ^\nfound: sort u\nexpected: effect p\n",
    ),
    (
        b"(app (rec p r (r (Ref u Int)) Int (get r)) (ref u 1))",
        b"line 1, column 35:\n    (app (rec p r (r (Ref u Int)) Int (get r)) (ref u 1))\n                                      ^\nwrong sort: protected code may only access locations of sort `p`, unprotected code only those of sort `u`\nbound here:\nline 1, column 16:\n    (app (rec p r (r (Ref u Int)) Int (get r)) (ref u 1))\n                   ^\nfound: sort u\nexpected: effect p\n",
    ),
    (
        b"(app (rec p f (x Int) Unit (unprotected (app f x))) 1)",
        b"line 1, column 41:\n    (app (rec p f (x Int) Unit (unprotected (app f x))) 1)\n                                            ^\nwrong effect: protected code calls functions of effect `p` or `a`, unprotected code those of `u` or `a`; `call` and `peek` are for unprotected code\nbound here:\nline 1, column 13:\n    (app (rec p f (x Int) Unit (unprotected (app f x)...\n                ^\nfound: effect p\nexpected: effect u\n",
    ),
    (
        b"(set 1 2)",
        b"line 1, column 6:\n    (set 1 2)\n         ^\nnot a reference\nfound: Int\n",
    ),
];

#[test]
fn faults_are_told_with_their_place(rt: HostRuntime) -> Result<(), Fail> {
    for &(text, page) in TOLD {
        assert_eq!(rt; told(rt.alloc(), text)?.as_slice(), page);
    }
    Ok(())
}

#[test]
fn characters_and_long_lines_keep_the_caret_in_its_column(rt: HostRuntime) -> Result<(), Fail> {
    let alloc = rt.alloc();
    let page = explain_bytes(alloc, "; ä\n; ä $".as_bytes(), LexFault::BadByte(10))?;
    assert!(rt;
        page.as_slice()
            .starts_with("line 2, column 6:\n    ; ä $\n        ^\n".as_bytes())
    );
    let mut line = vec![in alloc; b'x'; 200]?;
    line.push(b'\n')?;
    let page = explain_tokens(rt.alloc(), &line, ParseFault::Trailing(100))?;
    let shown =
        b"line 1, column 101:\n    ...xxxxxxxxxxxxxxxxxxxxxxxxxxxxxxxxxxxxxxxxxxxxxxxxxxxxxxxxxxxxxxxxxxxxxxxxxxxxxxxxxxxxxxxxxxxxxx...\n                                                                ^\n";
    assert!(rt; page.as_slice().starts_with(shown));
    Ok(())
}
