//! A generated text.

use ame_gen::generate;
use std::test::Fail;

/// The text for seed 1 and two transfers, written by hand.
const SMALL: &[u8] = b"(let a0 (ref p 18)
(let a1 (ref p 18)
(let a2 (ref p 18)
(let a3 (ref p 18)
(let a4 (ref p 18)
(let a5 (ref p 18)
(let a6 (ref p 18)
(let a7 (ref p 18)
(let done (ref p 0)
(do
(async (do (blockUntil (not (< (get a5) 3))) (set a5 (- (get a5) 3)) (set a1 (+ (get a1) 3)) (set done (+ (get done) 1))))
(async (do (blockUntil (not (< (get a4) 7))) (set a4 (- (get a4) 7)) (set a3 (+ (get a3) 7)) (set done (+ (get done) 1))))
(async (do (blockUntil (= (get done) 2)) (print (get a0)) (print (get a1)) (print (get a2)) (print (get a3)) (print (get a4)) (print (get a5)) (print (get a6)) (print (get a7))))
))))))))))
";

#[test]
fn two_transfers(rt: HostRuntime) -> Result<(), Fail> {
    let text = generate(rt.alloc(), 1, 2)?;
    assert!(rt; text.as_slice() == SMALL);
    Ok(())
}
