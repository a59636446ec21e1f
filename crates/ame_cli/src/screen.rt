//! Lists of words that are refused before they are read.
ghost use Rattle.std.specs.Prelude.{◌≡◌, map, string_bytes};
ghost use Rattle.std.specs.List.{list_all};
ghost use Rattle.ame_cli.specs.Screen as spec;

use crate::limits::WORD_LIMIT;

/// Returns whether a word is neither empty nor `--` nor a short option.
fn may_stand(word: &str) -> bool
    ensures { result ≡ spec.may_stand word.now }
{
    match word.as_bytes() {
        [] => false,
        [b'-', b'-'] => false,
        [b'-', b'-', ..] => true,
        [b'-', ..] => false,
        _ => true,
    }
}

fn all_may_stand(words: &[String]) -> bool
    ensures { result ≡ list_all (λ word. spec.may_stand (string_bytes word)) words.now }
{
    words.iter().all(|word| may_stand(word.as_str()))
}

/// Returns whether a list is short enough, and each of its words may stand in it.
pub(crate) fn may_be_read(words: &[String]) -> bool
    ensures { result ≡ spec.may_be_read (map string_bytes words.now) }
{
    words.len() <= WORD_LIMIT && all_may_stand(words)
}
