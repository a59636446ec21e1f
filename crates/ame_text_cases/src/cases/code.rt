//! The flat code of texts: each node with the slots that it captures.
use crate::cases::texts::read;
use ame_code::{Code, NodeNo, compile};
use ame_types::check;
use std::alloc::Global;
use std::test::Fail;

const TEXTS: &[(&[u8], &[&str])] = &[
    (b"(print 1)", &["Held(Int(1))", "One(Print, NodeNo(0))"]),
    (
        b"(let x 5 (print (- x 2)))",
        &[
            "Held(Int(5))",
            "Slot(0)",
            "Held(Int(2))",
            "Two(Bin(Sub), NodeNo(1), NodeNo(2))",
            "One(Print, NodeNo(3))",
            "Let(NodeNo(0), NodeNo(4))",
        ],
    ),
    (
        b"(let a 1 (let b 2 (let f (fn a (x Int) (+ b x)) (print (app f a)))))",
        &[
            "Held(Int(1))",
            "Held(Int(2))",
            "Slot(0)",
            "Slot(1)",
            "Two(Bin(Add), NodeNo(2), NodeNo(3))",
            "Fun(NodeNo(4), [1])",
            "Slot(2)",
            "Slot(0)",
            "Two(App, NodeNo(6), NodeNo(7))",
            "One(Print, NodeNo(8))",
            "Let(NodeNo(5), NodeNo(9))",
            "Let(NodeNo(1), NodeNo(10))",
            "Let(NodeNo(0), NodeNo(11))",
        ],
    ),
    (
        b"(let x 1 (let x 2 (async (print x))))",
        &[
            "Held(Int(1))",
            "Held(Int(2))",
            "Slot(0)",
            "One(Print, NodeNo(2))",
            "Async(NodeNo(3), [1])",
            "Let(NodeNo(1), NodeNo(4))",
            "Let(NodeNo(0), NodeNo(5))",
        ],
    ),
    (
        b"(let k 3 (print (app (rec a go (n Int) Int (if (= n 0) k (app go (- n 1)))) 5)))",
        &[
            "Held(Int(3))",
            "Slot(2)",
            "Held(Int(0))",
            "Two(Bin(Same), NodeNo(1), NodeNo(2))",
            "Slot(0)",
            "Slot(1)",
            "Slot(2)",
            "Held(Int(1))",
            "Two(Bin(Sub), NodeNo(6), NodeNo(7))",
            "Two(App, NodeNo(5), NodeNo(8))",
            "If(NodeNo(3), NodeNo(4), NodeNo(9))",
            "Rec(NodeNo(10), [0])",
            "Held(Int(5))",
            "Two(App, NodeNo(11), NodeNo(12))",
            "One(Print, NodeNo(13))",
            "Let(NodeNo(0), NodeNo(14))",
        ],
    ),
    (
        b"(let r (ref p (ref u 7)) (unprotected (print (get (peek r)))))",
        &[
            "Held(Int(7))",
            "Ref(Unprotected, TyNo(1), NodeNo(0))",
            "Ref(Protected, TyNo(0), NodeNo(1))",
            "Slot(0)",
            "One(Peek, NodeNo(3))",
            "One(Get, NodeNo(4))",
            "One(Print, NodeNo(5))",
            "Unprotected(NodeNo(6))",
            "Let(NodeNo(2), NodeNo(7))",
        ],
    ),
    (
        b"(do (print 1) unit (print (fst (pair 2 true))))",
        &[
            "Held(Int(1))",
            "One(Print, NodeNo(0))",
            "Held(Unit)",
            "Held(Int(2))",
            "Held(Bool(true))",
            "Two(Pair, NodeNo(3), NodeNo(4))",
            "One(First, NodeNo(5))",
            "One(Print, NodeNo(6))",
            "Do([NodeNo(1), NodeNo(2), NodeNo(7)])",
        ],
    ),
];

/// Compiles a text without devices.
pub(crate) fn code_of(alloc: Global, text: &[u8]) -> Result<Code, Fail> {
    let program = read(alloc, text)?;
    match check(alloc, program, 0) {
        Ok(accepted) => Ok(compile(alloc, accepted)?),
        Err(_) => Err("not typed".into()),
    }
}

#[test]
fn texts_have_their_nodes(rt: HostRuntime) -> Result<(), Fail> {
    let alloc = rt.alloc();
    for (text, nodes) in TEXTS {
        let code = code_of(alloc, text)?;
        assert_eq!(rt; code.len() as usize, nodes.len());
        assert_eq!(rt; code.root(), NodeNo(code.len() - 1));
        assert_eq!(rt; code.accepted().devices, 0);
        for at in 0..code.len() {
            let node = code.node(NodeNo(at));
            let shown = format!(in alloc; "{:?}", node.shape)?;
            assert_eq!(rt; shown.as_str(), nodes[at as usize]);
        }
    }
    Ok(())
}
