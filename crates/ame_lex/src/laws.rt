//! Facts about the grammar of tokens.

ghost use Rattle.std.specs.Prelude.{◌≡◌, ◌+◌, ◌↔◌, ◌++◌, ℕ, List, Result, Ok, Err, length, take, All};
ghost use Rattle.ame_lex.specs.declared.tokens.Token.{Token};
ghost use Rattle.ame_lex.specs.declared.tokens.LexFault.{LexFault};
ghost use Rattle.ame_lex.specs.Faults.{HasTokens, IsFaultAt};
ghost use Rattle.ame_lex.specs.Grammar.{Lexes};
ghost use Rattle.ame_lex.specs.Reading.{tokens_of};
ghost use Rattle.ame_lex.specs.Tokens.{IsWithin, InOrder, IsSpelled};

/// States that a text has by the grammar exactly the outcome that is computed, so each text has an outcome.
pub fn grammar_is_reading()
    ensures { (text : List ℕ) (outcome : Result (List Token) LexFault) → Lexes 0 text outcome ↔ (tokens_of text ≡ outcome) }
{}

/// States that a text has at most one outcome by the grammar.
pub fn one_outcome()
    ensures { (text : List ℕ) (one other : Result (List Token) LexFault) → Lexes 0 text one → Lexes 0 text other → one ≡ other }
{}

/// States that the tokens of a text stand in it, one after another.
pub fn tokens_lie_within()
    ensures within { (text : List ℕ) (tokens : List Token) → tokens_of text ≡ Ok tokens → All (IsWithin text) tokens }
    ensures in_order { (text : List ℕ) (tokens : List Token) → tokens_of text ≡ Ok tokens → InOrder 0 tokens (length text) }
    ensures spelled { (text : List ℕ) (tokens : List Token) → tokens_of text ≡ Ok tokens → All (IsSpelled text) tokens }
{}

/// States that a fault is the first: the text before it has tokens, and no text that begins with the faulty one has.
pub fn fault_is_first()
    ensures before { (text : List ℕ) (fault : LexFault) (place : ℕ) → Lexes 0 text (Err fault) → IsFaultAt fault place → HasTokens (take place text) }
    ensures bad_byte { (text : List ℕ) (place : ℕ) → Lexes 0 text (Err (LexFault.BadByte place)) → Lexes 0 (take (place + 1) text) (Err (LexFault.BadByte place)) }
    ensures stays { (text more : List ℕ) (fault : LexFault) → Lexes 0 text (Err fault) → Lexes 0 (text ++ more) (Err fault) }
{}
