//! The slots to which numbers lead.

ghost use Rattle.std.specs.Prelude.{◌≡◌, ◌+◌, ◌<◌, ◌≤◌, Some, IsSome, IfSome, IfOk, IfErr, vec_len, vec_capacity};
ghost use Rattle.ame_pool.specs.Numbered.{AreRising, IsEntryOf, IsEntryGap, key_of, filed};

/// A number that was given, and the slot of its member. The entry is stale if that slot has no member with the number.
#[derive(Clone, Copy)]
pub struct Numbered {
    pub number: u64,
    pub key: usize,
}

/// Returns the place that the entry of a number has if each number from the first on has one.
fn near_place(numbers: &[Numbered], number: u64) -> Option<usize>
    ensures { IfSome result (IsEntryOf number numbers.now) }
{
    let first = numbers.first()?;
    let place = number.checked_sub(first.number)? as usize;
    let entry = numbers.get(place)?;
    if entry.number == number {
        Some(place)
    } else {
        None
    }
}

/// Returns the place of the entry of a number, or otherwise the place at which it belongs. It takes the time of a logarithm at most, and
/// the same for all numbers if no stale entry was dropped.
fn place_of(numbers: &[Numbered], number: u64) -> Result<usize, usize>
    requires { AreRising numbers.now }
    ensures found { IfOk result (IsEntryOf number numbers.now) }
    ensures absent { IfErr result (IsEntryGap number numbers.now) }
{
    match near_place(numbers, number) {
        Some(place) => Ok(place),
        None => numbers.binary_search_by_key(&number, |e| e.number),
    }
}

/// Returns the slot that the entry of a number leads to, if there is one.
pub fn slot_of(numbers: &[Numbered], number: u64) -> Option<usize>
    requires { AreRising numbers.now }
    ensures { result ≡ key_of number numbers.now }
{
    match place_of(numbers, number) {
        Ok(place) => Some(numbers[place].key),
        Err(_) => None,
    }
}

/// Returns the slot of a number that has an entry.
pub fn known_slot(numbers: &[Numbered], number: u64) -> usize
    requires rising { AreRising numbers.now }
    requires there { IsSome (key_of number numbers.now) }
    ensures { key_of number numbers.now ≡ Some result }
{
    match slot_of(numbers, number) {
        Some(key) => key,
        None => unreachable!(),
    }
}

/// Puts an entry at its place, or in place of the one that has its number.
pub fn enter(numbers: &mut Vec<Numbered>, entry: Numbered)
    requires rising { AreRising numbers.old.items }
    requires room { vec_len numbers.old < vec_capacity numbers.old }
    ensures items { numbers.new.items ≡ filed entry numbers.old.items }
    ensures len { vec_len numbers.new ≤ vec_len numbers.old + 1 }
    ensures capacity { vec_capacity numbers.old ≤ vec_capacity numbers.new }
{
    match place_of(numbers.as_slice(), entry.number) {
        Ok(place) => numbers[place] = entry,
        Err(place) => {
            let _ = numbers.insert(place, entry);
        }
    }
}
