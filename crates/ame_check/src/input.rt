//! An input of two parts.

ghost use Rattle.std.specs.Prelude.{◌≡◌, ◌≢◌, ℕ, ◌≤◌, ◌<◌, ◌++◌, List, length, codes, false, IsTrue, MatchOption};
ghost use Rattle.ame_check.specs.Input as spec;
ghost use Rattle.ame_check.specs.Input.{HasProgramLine, IsSplit};

/// Returns whether a line begins at a place.
fn begins_line(bytes: &[u8], at: usize) -> bool
    requires within { at ≤ length bytes.now }
    ensures { result ≡ spec.begins_line bytes.now at }
{
    at == 0 || bytes[at - 1] == b'\n'
}

/// Returns the text after the line `program`, if that comes first.
fn behind_line(text: &[u8]) -> Option<&[u8]>
    ensures { MatchOption result ((rest : List ℕ) → text.now ≢ codes "program\n" ++ rest) (λ rest. text.now ≡ codes "program\n" ++ rest.now) }
{
    text.strip_prefix(b"program\n")
}

/// Returns whether the line that begins at a place is `program`.
fn has_line(bytes: &[u8], at: usize) -> bool
    requires within { at ≤ length bytes.now }
    ensures yes { IsTrue result → HasProgramLine bytes.now at }
    ensures no { result ≡ false → HasProgramLine bytes.now at → ⊥ }
{
    if !begins_line(bytes, at) {
        return false;
    }
    match behind_line(&bytes[at..]) {
        Some(_) => true,
        None => false,
    }
}

/// Returns the length of the journal's text, and the start of the program's: before and after the first line that is exactly
/// `program` with its line feed, if there is one. Takes no memory, and looks once at each byte.
pub fn split_input(bytes: &[u8]) -> Option<(usize, usize)>
    ensures { MatchOption result ((k : ℕ) → HasProgramLine bytes.now k → ⊥) (λ split. IsSplit bytes.now split.0 split.1) }
{
    for at in 0..bytes.len() {
        if has_line(bytes, at) {
            return Some((at, at + 8));
        }
    }
    None
}
