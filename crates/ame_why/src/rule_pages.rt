//! The rules of the types, each with a text that breaks it and one that doesn't.

use ame_types::rule;

/// Returns a rule of the types in words, with a text that breaks it and one that doesn't; nothing if no rule has this number.
pub fn explain_rule(number: u8) -> Option<&'static [u8]> {
    match number {
        rule::TYPE_MISMATCH => Some(TYPE_MISMATCH),
        rule::NO_FUNCTION => Some(NO_FUNCTION),
        rule::WRONG_EFFECT => Some(WRONG_EFFECT),
        rule::WRONG_SORT => Some(WRONG_SORT),
        rule::NO_REFERENCE => Some(NO_REFERENCE),
        rule::MISPLACED_BLOCK => Some(MISPLACED_BLOCK),
        rule::MISPLACED_UNPROTECTED => Some(MISPLACED_UNPROTECTED),
        rule::NO_DEVICE => Some(NO_DEVICE),
        rule::NOT_UNIT => Some(NOT_UNIT),
        rule::NO_PAIR => Some(NO_PAIR),
        _ => None,
    }
}

const TYPE_MISMATCH: &[u8] = b"rule 1: a part has the type that its form wants
  wrong  (print true)
  right  (print 1)
";

const NO_FUNCTION: &[u8] = b"rule 2: only a function is called
  wrong  (app 1 2)
  right  (app (fn a (x Int) (print x)) 2)
";

const WRONG_EFFECT: &[u8] =
    b"rule 3: a call fits the code around it: protected code calls functions of effect p or a,
unprotected code those of effect u or a; `call` and `peek` are for unprotected code
  wrong  (app (fn u (x Int) (print x)) 1)
  right  (app (fn a (x Int) (print x)) 1)
";

const WRONG_SORT: &[u8] =
    b"rule 4: protected code reads and writes locations of sort p, unprotected code only those of sort `u`
  wrong  (let r (ref u 1) (print (get r)))
  right  (let r (ref p 1) (print (get r)))
";

const NO_REFERENCE: &[u8] = b"rule 5: only a reference is read or written
  wrong  (set 1 2)
  right  (set (ref p 1) 2)
";

const MISPLACED_BLOCK: &[u8] =
    b"rule 6: `blockUntil` is for protected code, since only a fragment is taken back
  wrong  (unprotected (blockUntil true))
  right  (do (blockUntil true) yield)
";

const MISPLACED_UNPROTECTED: &[u8] = b"rule 7: `unprotected` and `yield` are for protected code
  wrong  (unprotected yield)
  right  yield
";

const NO_DEVICE: &[u8] = b"rule 8: a call names a device that is there
  wrong  (unprotected (print (call 9 1)))
  right  (unprotected (print (call 0 1)))
";

const NOT_UNIT: &[u8] = b"rule 9: what nobody takes is Unit
  wrong  (do 7 unit)
  right  (do (print 7) unit)
";

const NO_PAIR: &[u8] = b"rule 11: only a pair is taken apart
  wrong  (print (fst 1))
  right  (print (fst (pair 1 2)))
";
