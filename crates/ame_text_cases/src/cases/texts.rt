//! The program of a text.

use ame_lex::lex;
use ame_parse::parse;
use ame_term::Program;
use std::alloc::Global;
use std::test::Fail;

/// Reads the program of a text, without a check of types.
pub(crate) fn read(alloc: Global, text: &[u8]) -> Result<Program, Fail> {
    if text.len() > 1_048_576 {
        return Err("too long".into());
    }
    let tokens = lex(alloc, text)?;
    Ok(parse(alloc, text, &tokens)?)
}
