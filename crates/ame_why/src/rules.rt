//! Faults of the types.

ghost use Rattle.std.specs.Prelude.{◌≡◌, ◌++◌, All, IfOk, OnOk, codes};
ghost use Rattle.ame_lex.specs.Tokens.{IsWithin};
ghost use Rattle.ame_types.specs.Fault.{fault_of, shown_of};
ghost use Rattle.ame_why.specs.Binders as binders;
ghost use Rattle.ame_why.specs.Binders.{binder_words};
ghost use Rattle.ame_why.specs.Rules as spec;
ghost use Rattle.ame_why.specs.Rules.{fault_page, fault_words, shown_line};

use crate::binders::{binder_at, word_at};
use crate::parts::part_number;
use crate::placed::explained;
use crate::spans::{open_before, tokens_of};
use ame_lex::Token;
use ame_page::Page;
use ame_print::print_ty;
use ame_term::{Effect, NoMemory, Sort};
use ame_types::{Shown, TypeFault, rule};
use std::alloc::Global;

/// The most bytes of a text that has tokens.
const MAX_TEXT: usize = 1_048_576;

/// Returns which rule a program breaks and where, and what was found and wanted there.
pub fn explain_types(alloc: Global, text: &[u8], fault: &TypeFault) -> Result<Vec<u8>, NoMemory>
    ensures { IfOk result (λ page. page.items ≡ fault_page text.now (fault_of fault.now)) }
{
    let mut message = Page::from_bytes(rule_text(alloc, text, fault)?);
    append_binder(alloc, &mut message, text, fault)?;
    append_shown(alloc, &mut message, b"found: ", b"device ", &fault.found)?;
    append_shown(
        alloc,
        &mut message,
        b"expected: ",
        b"a device below ",
        &fault.wanted,
    )?;
    explained(alloc, text, fault.place as usize, message.as_slice())
}

/// Returns the rule that is broken, in words. If it is about an argument, its form and its number are named.
#[tactic(auto, unfolding(crate::specs::Rules::fault_words))]
fn rule_text(alloc: Global, text: &[u8], fault: &TypeFault) -> Result<Vec<u8>, NoMemory>
    ensures { IfOk result (λ words. words.items ≡ fault_words text.now (fault_of fault.now)) }
{
    if fault.rule != rule::TYPE_MISMATCH {
        return Ok(Vec::from_slice(alloc, rule_words(fault.rule))?);
    }
    let tokens = tokens_known(alloc, text)?;
    let places = open_before(alloc, &tokens, fault.place)?;
    part_text(alloc, text, &tokens, places.last().copied(), fault.place)
}

/// Appends the binder of the function or location that a rule is about, if it is a name.
#[tactic(auto, unfolding(crate::specs::Binders::binder_words))]
fn append_binder(
    alloc: Global,
    message: &mut Page,
    text: &[u8],
    fault: &TypeFault,
) -> Result<(), NoMemory>
    ensures { OnOk result (message.new ≡ message.old ++ binder_words text.now (fault_of fault.now)) }
{
    let tokens = tokens_known(alloc, text)?;
    let binder = binder_at(alloc, text, &tokens, fault.rule, fault.place)?;
    append_bound(alloc, message, text, binder)
}

/// Returns the tokens of a text that is short enough, or none if the text has an error.
fn tokens_known(alloc: Global, text: &[u8]) -> Result<Vec<Token>, NoMemory>
    ensures tokens { IfOk result (λ tokens. tokens.items ≡ binders.tokens_known text.now) }
    ensures within { IfOk result (λ tokens. All (IsWithin text.now) tokens.items) }
{
    if text.len() > MAX_TEXT {
        Ok(Vec::new(alloc))
    } else {
        tokens_of(alloc, text)
    }
}

/// Appends the place of a binder, if there is one.
fn append_bound(
    alloc: Global,
    message: &mut Page,
    text: &[u8],
    binder: Option<Token>,
) -> Result<(), NoMemory>
    ensures { OnOk result (message.new ≡ message.old ++ binders.bound_words text.now binder) }
{
    let Some(binder) = binder else {
        return Ok(());
    };
    let bound = explained(alloc, text, binder.start as usize, b"")?;
    message.add(b"bound here:\n")?;
    message.add(&bound)
}

/// Returns which part of the form that opens there has another type than it wants.
fn part_text(
    alloc: Global,
    text: &[u8],
    tokens: &[Token],
    form: Option<u32>,
    place: u32,
) -> Result<Vec<u8>, NoMemory>
    requires { All (IsWithin text.now) tokens.now }
    ensures { IfOk result (λ words. words.items ≡ spec.mismatch_words text.now tokens.now place form) }
{
    let Some(open) = form else {
        return Ok(Vec::from_slice(alloc, rule_words(rule::TYPE_MISMATCH))?);
    };
    let mut words = Page::new(alloc);
    words.add(b"argument ")?;
    words.add_number(part_number(tokens, open, place) as u64)?;
    words.add(b" of `")?;
    words.add(word_at(text, tokens, open))?;
    words.add(b"` has the wrong type\n")?;
    Ok(words.into_bytes())
}

/// Returns a rule in words.
fn rule_words(number: u8) -> &'static [u8]
    ensures { result.now ≡ spec.rule_words number }
{
    match number {
        rule::TYPE_MISMATCH => b"argument with the wrong type\n",
        rule::NO_FUNCTION => b"not a function\n",
        rule::WRONG_EFFECT => {
            b"wrong effect: protected code calls functions of effect `p` or `a`, \
              unprotected code those of `u` or `a`; `call` and `peek` are for unprotected code\n"
        }
        rule::WRONG_SORT => {
            b"wrong sort: protected code may only access locations of sort `p`, \
              unprotected code only those of sort `u`\n"
        }
        rule::NO_REFERENCE => b"not a reference\n",
        rule::MISPLACED_BLOCK =>
            b"`blockUntil` in unprotected code: only protected code can be rolled back\n",
        rule::MISPLACED_UNPROTECTED => b"already in unprotected code\n",
        rule::NO_DEVICE => b"no device with this number\n",
        rule::NOT_UNIT => b"this result is discarded, so its type must be `Unit`\n",
        rule::NO_PAIR => b"not a pair\n",
        _ => b"\n",
    }
}

/// Appends a label and what an error shows, on a line. These words introduce the number of a device.
fn append_shown(
    alloc: Global,
    page: &mut Page,
    label: &[u8],
    device: &[u8],
    shown: &Shown,
) -> Result<(), NoMemory>
    ensures { OnOk result (page.new ≡ page.old ++ shown_line label.now device.now (shown_of shown.now)) }
{
    match shown {
        Shown::Nothing => Ok(()),
        Shown::Ty(ty) => append_line(page, label, &print_ty(alloc, ty)?),
        Shown::Effect(effect) => append_line(page, label, effect_words(*effect)),
        Shown::Sort(sort) => append_line(page, label, sort_words(*sort)),
        Shown::Device(number) => {
            page.add(label)?;
            page.add(device)?;
            page.add_number(u64::from(*number))?;
            page.add(b"\n")
        }
    }
}

/// Appends a label, its value, and a line feed.
fn append_line(page: &mut Page, label: &[u8], told: &[u8]) -> Result<(), NoMemory>
    ensures { OnOk result (page.new ≡ page.old ++ (label.now ++ told.now ++ codes "\n")) }
{
    page.add(label)?;
    page.add(told)?;
    page.add(b"\n")
}

fn effect_words(effect: Effect) -> &'static [u8]
    ensures { result.now ≡ spec.effect_words effect }
{
    match effect {
        Effect::Protected => b"effect p",
        Effect::Unprotected => b"effect u",
        Effect::Either => b"effect a",
    }
}

fn sort_words(sort: Sort) -> &'static [u8]
    ensures { result.now ≡ spec.sort_words sort }
{
    match sort {
        Sort::Protected => b"sort p",
        Sort::Unprotected => b"sort u",
    }
}
