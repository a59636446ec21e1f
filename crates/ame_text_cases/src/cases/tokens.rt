//! Texts with their tokens, taken from the language's description.

use ame_lex::Kind::*;
use ame_lex::{Kind, Token, lex};
use std::alloc::Global;
use std::test::Fail;

/// Texts with their tokens: the beginning and the end of each, and what it is.
const TOKENS: &[(&[u8], &[(u32, u32, Kind)])] = &[
    (
        b"(do (async (print 2)) (print 1))",
        &[
            (0, 1, Open),
            (1, 3, Word),
            (4, 5, Open),
            (5, 10, Word),
            (11, 12, Open),
            (12, 17, Word),
            (18, 19, Number(2)),
            (19, 20, Close),
            (20, 21, Close),
            (22, 23, Open),
            (23, 28, Word),
            (29, 30, Number(1)),
            (30, 31, Close),
            (31, 32, Close),
        ],
    ),
    (b"5-3", &[(0, 1, Number(5)), (1, 3, Number(-3))]),
    (b"-0", &[(0, 2, Number(0))]),
    (b"007", &[(0, 3, Number(7))]),
    (b"- 5", &[(0, 1, Symbol(b'-')), (2, 3, Number(5))]),
    (b"--5", &[(0, 1, Symbol(b'-')), (1, 3, Number(-5))]),
    (b"9223372036854775807", &[(0, 19, Number(i64::MAX))]),
    (b"-9223372036854775808", &[(0, 20, Number(i64::MIN))]),
    (b"a_1Z", &[(0, 4, Word)]),
    (b"a-b", &[(0, 1, Word), (1, 2, Symbol(b'-')), (2, 3, Word)]),
    (
        b"+-*<=",
        &[
            (0, 1, Symbol(b'+')),
            (1, 2, Symbol(b'-')),
            (2, 3, Symbol(b'*')),
            (3, 4, Symbol(b'<')),
            (4, 5, Symbol(b'=')),
        ],
    ),
    (b"", &[]),
    (b" \t\r\n", &[]),
    (b"; c\n1", &[(4, 5, Number(1))]),
    (b"1;a\x00\xff;(", &[(0, 1, Number(1))]),
    (b"; c\r1", &[]),
    (b"(;\n)", &[(0, 1, Open), (3, 4, Close)]),
];

/// Returns the tokens of a text.
fn tokens_of(alloc: Global, text: &[u8]) -> Result<Vec<Token>, Fail> {
    if text.len() > 1_048_576 {
        return Err("too long".into());
    }
    Ok(lex(alloc, text)?)
}

/// Returns whether these are the tokens that are expected.
fn are_told(tokens: &[Token], told: &[(u32, u32, Kind)]) -> bool {
    if tokens.len() != told.len() {
        return false;
    }
    for (token, &(start, end, kind)) in tokens.iter().zip(told) {
        if token.start != start || token.end != end || token.kind != kind {
            return false;
        }
    }
    true
}

#[test]
fn texts_have_tokens(rt: HostRuntime) -> Result<(), Fail> {
    for &(text, tokens) in TOKENS {
        assert!(rt; are_told(tokens_of(rt.alloc(), text)?.as_slice(), tokens));
    }
    Ok(())
}
