//! Effects, sorts and device numbers, which are recognised by their position.

ghost use Rattle.std.specs.Prelude.{◌≡◌};
ghost use Rattle.std.specs.Str.{bytes_eq};
ghost use Rattle.ame_parse.specs.Input.{Reads};
ghost use Rattle.ame_parse.specs.Letters as spec;

use crate::ahead::Ahead;
use crate::fault::{ParseFault, Want};
use crate::reader::Reader;
use ame_term::{Effect, Sort, TyNo};

fn is_spelled(spelling: &[u8], word: &[u8]) -> bool
    ensures { result ≡ bytes_eq spelling.now word.now }
{
    spelling == word
}

#[tactic(auto, unfolding(crate::specs::Letters::sort_of))]
fn sort_of(spelling: &[u8]) -> Option<Sort>
    ensures { result ≡ spec.sort_of spelling.now }
{
    if is_spelled(spelling, b"p") {
        Some(Sort::Protected)
    } else if is_spelled(spelling, b"u") {
        Some(Sort::Unprotected)
    } else {
        None
    }
}

#[tactic(auto, unfolding(crate::specs::Letters::effect_named))]
fn effect_of(spelling: &[u8]) -> Option<Effect>
    ensures { result ≡ spec.effect_named spelling.now }
{
    if is_spelled(spelling, b"p") {
        Some(Effect::Protected)
    } else if is_spelled(spelling, b"u") {
        Some(Effect::Unprotected)
    } else if is_spelled(spelling, b"a") {
        Some(Effect::Either)
    } else {
        None
    }
}

#[tactic(auto, unfolding(crate::specs::Letters::device_of))]
fn device_of(ahead: Ahead) -> Option<u8>
    ensures { result ≡ spec.device_of ahead }
{
    match ahead {
        Ahead::Number(value) => u8::try_from(value).ok(),
        _ => None,
    }
}

#[tactic(auto, unfolding(crate::specs::Letters::sort))]
pub fn sort(reader: &mut Reader<'_>) -> Result<Sort, ParseFault>
    ensures { Reads (λ x. x) (spec.sort reader.old) result reader.new }
{
    match sort_of(reader.spelling()) {
        Some(sort) => {
            reader.advance();
            Ok(sort)
        }
        None => Err(reader.expected(Want::Sort)),
    }
}

/// Reads the sort of a `ref` form, and its number.
#[tactic(auto, using(crate::proofs::ReaderLemmas::sort_is_left), unfolding(crate::specs::Letters::numbered_sort, crate::specs::Letters::sort))]
pub fn numbered_sort(reader: &mut Reader<'_>) -> Result<(Sort, TyNo), ParseFault>
    ensures { Reads (λ x. x) (spec.numbered_sort reader.old) result reader.new }
{
    match sort_of(reader.spelling()) {
        Some(sort) => Ok((sort, reader.take_ref())),
        None => Err(reader.expected(Want::Sort)),
    }
}

#[tactic(auto, unfolding(crate::specs::Letters::effect_word))]
pub fn effect(reader: &mut Reader<'_>) -> Result<Effect, ParseFault>
    ensures { Reads (λ x. x) (spec.effect_word reader.old) result reader.new }
{
    match effect_of(reader.spelling()) {
        Some(effect) => {
            reader.advance();
            Ok(effect)
        }
        None => Err(reader.expected(Want::Effect)),
    }
}

#[tactic(auto, unfolding(crate::specs::Letters::device))]
pub fn device(reader: &mut Reader<'_>) -> Result<u8, ParseFault>
    ensures { Reads (λ x. x) (spec.device reader.old) result reader.new }
{
    match device_of(reader.ahead()) {
        Some(device) => {
            reader.advance();
            Ok(device)
        }
        None => Err(reader.expected(Want::Device)),
    }
}
