//! The lines of a certificate, and the words of a line.

ghost use Rattle.std.specs.Prelude.{◌≡◌, ◌+◌, ◌==◌, ◌≤◌, drop, length};
ghost use Rattle.std.specs.List.{before_first, position_or_len};
ghost use Rattle.ame_why.specs.Words as spec;

/// Returns the place after the first `count` bytes that are `mark`, or the end if there are fewer.
fn place_after(text: &[u8], mark: u8, count: u64) -> usize
    ensures value { result ≡ spec.place_after mark count text.now }
    ensures within { result ≤ length text.now }
{
    let mut left = count;
    for (place, byte) in text.iter().enumerate() {
        if left == 0 {
            return place;
        }
        if *byte == mark {
            left -= 1;
        }
    }
    text.len()
}

/// Returns the beginning of a line, counted from 1, or the end if there are fewer lines.
pub(crate) fn line_start(text: &[u8], line: u64) -> usize
    ensures value { result ≡ spec.line_place text.now line }
    ensures within { result ≤ length text.now }
{
    place_after(text, b'\n', line.saturating_sub(1))
}

/// Returns the beginning of a word of a line, counted from 0, or the end if there are fewer words.
pub(crate) fn word_start(line: &[u8], index: u64) -> usize
    ensures value { result ≡ spec.word_place line.now index }
    ensures within { result ≤ length line.now }
{
    place_after(line, b' ', index)
}

/// Returns the bytes from a place on, up to the next `mark`.
fn part_from(text: &[u8], place: usize, mark: u8) -> &[u8]
    requires within { place ≤ length text.now }
    ensures part { result.now ≡ before_first (λ b. b == mark) (drop place text.now) }
    ensures short { length result.now + place ≤ length text.now }
{
    let rest = text.split_at(place).1;
    rest.split_at(len_before(rest, mark)).0
}

/// Returns how many bytes there are before the first `mark`.
fn len_before(text: &[u8], mark: u8) -> usize
    ensures value { result ≡ position_or_len (λ b. b == mark) text.now }
    ensures within { result ≤ length text.now }
{
    text.iter().take_while(|b| **b != mark).count()
}

/// Returns the line that begins at a place.
pub(crate) fn line_from(text: &[u8], place: usize) -> &[u8]
    requires within { place ≤ length text.now }
    ensures line { result.now ≡ spec.line_from text.now place }
    ensures short { length result.now + place ≤ length text.now }
{
    part_from(text, place, b'\n')
}

/// Returns the word of a line that begins at a place.
pub(crate) fn word_from(line: &[u8], place: usize) -> &[u8]
    requires within { place ≤ length line.now }
    ensures { result.now ≡ spec.word_from line.now place }
{
    part_from(line, place, b' ')
}

/// Returns whether a word begins at a place.
fn begins_word(line: &[u8], place: usize) -> bool
    requires within { place ≤ length line.now }
    ensures { result ≡ spec.begins_word line.now place }
{
    place == 0 || line[place - 1] == b' '
}

/// Returns whether this word begins at a place.
fn is_word(line: &[u8], sought: &[u8], place: usize) -> bool
    requires within { place ≤ length line.now }
    ensures { result ≡ spec.is_word line.now sought.now place }
{
    begins_word(line, place) && word_from(line, place) == sought
}

/// Returns the beginning of the last word that has these bytes, or the end if there is none.
pub(crate) fn start_of(line: &[u8], sought: &[u8]) -> usize
    ensures last { spec.IsLastWord line.now sought.now result }
    ensures within { result ≤ length line.now }
{
    let mut left = line.len();
    while left > 0 {
        left -= 1;
        if is_word(line, sought, left) {
            return left;
        }
    }
    line.len()
}
