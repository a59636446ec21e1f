//! The verdict lines.

ghost use Rattle.std.specs.Prelude.{◌≡◌, ◌≤◌, ◌++◌, length, codes, decimal};
ghost use Rattle.ame_app.specs.Verdict.{text_line, lexical_line, syntactic_line, want_line};

use crate::fault::TextFault;
use ame_io::Line;
use ame_lex::LexFault;
use ame_parse::{ParseFault, Want};
use ame_types::TypeFault;
use itoa::Buffer;

/// Returns a text and a line feed.
pub(crate) fn plain(text: &str) -> Line
    requires { length text.now ≤ 40 }
    ensures { result.bytes ≡ text.now ++ codes "\n" }
{
    let mut line = Line::new();
    line.push_str(text);
    line.push_str("\n");
    line
}

/// Returns a text, a number and a line feed.
pub(crate) fn numbered(text: &str, number: u64) -> Line
    requires { length text.now ≤ 40 }
    ensures { result.bytes ≡ text.now ++ (decimal number ++ codes "\n") }
{
    let mut buffer = Buffer::new();
    let mut line = Line::new();
    line.push_str(text);
    line.push_str(buffer.format(number));
    line.push_str("\n");
    line
}

/// Returns a text, a place and a line feed.
fn placed(text: &str, place: u32) -> Line
    requires { length text.now ≤ 40 }
    ensures { result.bytes ≡ text.now ++ (decimal place ++ codes "\n") }
{
    numbered(text, place as u64)
}

/// Returns the line that says what was expected at a place.
fn expected(want: Want, place: u32) -> Line
    ensures { result.bytes ≡ want_line want ++ (decimal place ++ codes "\n") }
{
    match want {
        Want::Term => placed("refused: expected term at ", place),
        Want::Form => placed("refused: expected form at ", place),
        Want::Name => placed("refused: expected name at ", place),
        Want::Ty => placed("refused: expected type at ", place),
        Want::Effect => placed("refused: expected effect at ", place),
        Want::Sort => placed("refused: expected sort at ", place),
        Want::Device => placed("refused: expected device at ", place),
        Want::Opening => placed("refused: expected opening at ", place),
        Want::Closing => placed("refused: expected closing at ", place),
    }
}

/// Returns the line of an error in the bytes.
fn lexical(fault: LexFault) -> Line
    ensures { result.bytes ≡ lexical_line fault }
{
    match fault {
        LexFault::BadByte(place) => placed("refused: bad byte at ", place),
        LexFault::LongNumber(place) => placed("refused: long number at ", place),
        LexFault::NoMemory => plain("no memory"),
    }
}

/// Returns the line of an error in the tokens.
fn syntactic(fault: ParseFault) -> Line
    ensures { result.bytes ≡ syntactic_line fault }
{
    match fault {
        ParseFault::Expected(place, want) => expected(want, place),
        ParseFault::UnknownName(place) => placed("refused: unknown name at ", place),
        ParseFault::TooNested(place) => placed("refused: too nested at ", place),
        ParseFault::Trailing(place) => placed("refused: trailing at ", place),
        ParseFault::NoMemory => plain("no memory"),
    }
}

/// Returns the line of a text that is no program.
pub(crate) fn refused(fault: &TextFault) -> Line
    ensures { result.bytes ≡ text_line fault.now }
{
    match fault {
        TextFault::Lexical(fault) => lexical(*fault),
        TextFault::Syntactic(fault) => syntactic(*fault),
    }
}

/// Returns the line of a program that breaks a rule of the types.
pub(crate) fn ill_typed(fault: &TypeFault) -> Line
    ensures { result.bytes ≡ codes "types: rule " ++ (decimal fault.now.rule ++ (codes " at " ++ (decimal fault.now.place ++ codes "\n"))) }
{
    let mut buffer = Buffer::new();
    let mut line = Line::new();
    line.push_str("types: rule ");
    line.push_str(buffer.format(fault.rule));
    line.push_str(" at ");
    line.push_str(buffer.format(fault.place));
    line.push_str("\n");
    line
}

/// Returns the line of a device that failed.
pub(crate) fn device_failed(device: u8) -> Line
    ensures { result.bytes ≡ codes "device " ++ (decimal device ++ (codes " failed" ++ codes "\n")) }
{
    let mut buffer = Buffer::new();
    let mut line = Line::new();
    line.push_str("device ");
    line.push_str(buffer.format(device));
    line.push_str(" failed");
    line.push_str("\n");
    line
}
