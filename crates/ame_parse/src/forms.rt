//! The form that begins with a word or a symbol.

ghost use Rattle.std.specs.Prelude.{◌≡◌};
ghost use Rattle.ame_parse.specs.Forms as spec;

use crate::ahead::Ahead;
use crate::words::Word;
use ame_term::{Binary, Op, Unary};

/// The form that begins with a word or a symbol after an opening parenthesis.
#[derive(Clone, Copy)]
pub enum Opener {
    /// A form that is its word and one part.
    One(Unary),
    /// A sort stands before the part.
    Ref,
    /// The number of a device stands before the part.
    Call,
    Two(Binary),
    Async,
    Unprotected,
    If,
    Let,
    Do,
    Fn,
    Rec,
}

fn opener_of_word(word: Word) -> Option<Opener>
    ensures { result ≡ spec.opener_of_word word }
{
    match word {
        Word::Not => Some(Opener::One(Unary::Not)),
        Word::Get => Some(Opener::One(Unary::Get)),
        Word::Peek => Some(Opener::One(Unary::Peek)),
        Word::BlockUntil => Some(Opener::One(Unary::Block)),
        Word::Print => Some(Opener::One(Unary::Print)),
        Word::Fst => Some(Opener::One(Unary::First)),
        Word::Snd => Some(Opener::One(Unary::Second)),
        Word::Ref => Some(Opener::Ref),
        Word::Call => Some(Opener::Call),
        Word::App => Some(Opener::Two(Binary::App)),
        Word::Set => Some(Opener::Two(Binary::Set)),
        Word::Pair => Some(Opener::Two(Binary::Pair)),
        Word::Async => Some(Opener::Async),
        Word::Unprotected => Some(Opener::Unprotected),
        Word::If => Some(Opener::If),
        Word::Let => Some(Opener::Let),
        Word::Do => Some(Opener::Do),
        Word::Fn => Some(Opener::Fn),
        Word::Rec => Some(Opener::Rec),
        _ => None,
    }
}

/// Returns the form that begins with this after its parenthesis.
#[tactic(auto, unfolding(crate::specs::Forms::opener_of))]
pub fn opener_of(ahead: Ahead) -> Option<Opener>
    ensures { result ≡ spec.opener_of ahead }
{
    match ahead {
        Ahead::Reserved(word) => opener_of_word(word),
        Ahead::Symbol(symbol) => Op::of(symbol).map(|op| Opener::Two(Binary::Bin(op))),
        _ => None,
    }
}
