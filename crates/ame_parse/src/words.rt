//! The reserved words.

ghost use Rattle.std.specs.Prelude.{◌≡◌};
ghost use Rattle.ame_parse.specs.Words as spec;

#[derive(Clone, Copy)]
pub enum Word {
    Unit,
    True,
    False,
    Yield,
    Fn,
    Rec,
    App,
    Let,
    Do,
    If,
    Not,
    Ref,
    Get,
    Set,
    Async,
    BlockUntil,
    Unprotected,
    Print,
    Call,
    Peek,
    Pair,
    Fst,
    Snd,
    UnitType,
    BoolType,
    IntType,
    RefType,
    FunType,
    PairType,
}

/// Returns the reserved word with this spelling.
#[tactic(auto, using(crate::proofs::WordLemmas::other_lengths), unfolding(crate::specs::Words::word_of))]
pub fn word_of(spelling: &[u8]) -> Option<Word>
    ensures { result ≡ spec.word_of spelling.now }
{
    match spelling {
        b"unit" => Some(Word::Unit),
        b"true" => Some(Word::True),
        b"false" => Some(Word::False),
        b"yield" => Some(Word::Yield),
        b"fn" => Some(Word::Fn),
        b"rec" => Some(Word::Rec),
        b"app" => Some(Word::App),
        b"let" => Some(Word::Let),
        b"do" => Some(Word::Do),
        b"if" => Some(Word::If),
        b"not" => Some(Word::Not),
        b"ref" => Some(Word::Ref),
        b"get" => Some(Word::Get),
        b"set" => Some(Word::Set),
        b"async" => Some(Word::Async),
        b"blockUntil" => Some(Word::BlockUntil),
        b"unprotected" => Some(Word::Unprotected),
        b"print" => Some(Word::Print),
        b"call" => Some(Word::Call),
        b"peek" => Some(Word::Peek),
        b"pair" => Some(Word::Pair),
        b"fst" => Some(Word::Fst),
        b"snd" => Some(Word::Snd),
        b"Unit" => Some(Word::UnitType),
        b"Bool" => Some(Word::BoolType),
        b"Int" => Some(Word::IntType),
        b"Ref" => Some(Word::RefType),
        b"Fun" => Some(Word::FunType),
        b"Pair" => Some(Word::PairType),
        _ => None,
    }
}
