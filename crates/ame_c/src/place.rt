//! The numbers in the line of a status.

ghost use Rattle.std.specs.Prelude.{◌≡◌};
ghost use Rattle.ame_c.specs.Out as spec;

use ame_app::{Status, TextFault};
use ame_lex::LexFault;
use ame_parse::ParseFault;

/// Returns the place of an error in a text; 0 for out of memory.
fn place_in(fault: &TextFault) -> u32
    ensures { result ≡ spec.place_in fault.now }
{
    match fault {
        TextFault::Lexical(LexFault::BadByte(place) | LexFault::LongNumber(place)) => *place,
        TextFault::Syntactic(
            ParseFault::Expected(place, _)
            | ParseFault::UnknownName(place)
            | ParseFault::TooNested(place)
            | ParseFault::Trailing(place),
        ) => *place,
        TextFault::Lexical(LexFault::NoMemory) | TextFault::Syntactic(ParseFault::NoMemory) => 0,
    }
}

/// Returns the last number in the line of a status, or of a device that failed its own; 0 if there is none. No call here resumes a run.
pub(crate) fn place_of(told: &Status) -> u64
    ensures { result ≡ spec.place_of told.now }
{
    match told {
        Status::Blocked(number)
        | Status::Tall(number)
        | Status::Valid(number)
        | Status::Invalid(number)
        | Status::LongJournal(number) => *number,
        Status::DeviceFault(device) => u64::from(*device),
        Status::BadJournal(line) => u64::from(*line),
        Status::Text(fault) => u64::from(place_in(fault)),
        Status::Types(fault) => u64::from(fault.place),
        _ => 0,
    }
}

/// Returns the rule of the types that a text breaks; 0 if there is none.
pub(crate) fn rule_of(told: &Status) -> u8
    ensures { result ≡ spec.rule_of told.now }
{
    match told {
        Status::Types(fault) => fault.rule,
        _ => 0,
    }
}
