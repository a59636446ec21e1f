//! The commands that matches spell.
ghost use Rattle.std.specs.Prelude.{◌≡◌, option_map, option_and_then, map};
ghost use Rattle.std.specs.List.{list_any};
ghost use Rattle.clap.specs.Words.{rows_of, found_of, subcommand_rows_of};
ghost use Rattle.ame_cli.specs.Items.{is_same, name_of};
ghost use Rattle.ame_cli.specs.Numbers.{numbers_within};
ghost use Rattle.ame_cli.specs.Settings as spec;
ghost use Rattle.ame_cli.specs.Verbs.{command_with, verb_form};
ghost use Rattle.ame_cli.specs.Rows.{texts_in, values_in, named_in};

use crate::command::{Command, Options};
use crate::item::Item;
use crate::numbers::number_within;
use crate::syntax::NUMBERS;
use crate::verb::Verb;
use clap::ArgMatches;

/// Returns whether an option is among those that may be given.
fn may_be_given(allowed: &[Item], item: Item) -> bool
    ensures { result ≡ list_any (is_same item) allowed.now }
{
    allowed.iter().any(|other| other.name() == item.name())
}

/// Returns the number of an option that was given these values, or the default if it was given none.
fn setting(allowed: &[Item], item: Item, values: Option<&[&str]>) -> Option<u32>
    ensures { result ≡ spec.setting allowed.now item (texts_in (option_map (λ vs. map (λ v. v.now) vs.now) values.entry)) }
{
    match values {
        None | Some([]) => Some(item.default()),
        Some([value]) => {
            if may_be_given(allowed, item) {
                number_within(value, item.bounds())
            } else {
                None
            }
        }
        Some(_) => None,
    }
}

/// Returns the number of an option of a command.
fn setting_of(allowed: &[Item], item: Item, matches: &ArgMatches) -> Option<u32>
    ensures { result ≡ spec.setting allowed.now item (values_in (name_of item) (rows_of (found_of matches.now))) }
{
    setting(allowed, item, matches.get_raw(item.name()))
}

/// Returns the options that a command was given.
fn options(allowed: &[Item], matches: &ArgMatches) -> Option<Options>
    ensures { result ≡ spec.options_spelled allowed.now (λ item. values_in (name_of item) (rows_of (found_of matches.now))) }
{
    Some(Options {
        workers: setting_of(allowed, Item::Workers, matches)?,
        turns: setting_of(allowed, Item::Turns, matches)?,
        slice: setting_of(allowed, Item::Slice, matches)?,
    })
}

/// Returns the command of a verb, its number words and its options.
fn command_of(verb: Verb, words: &[&str], options: Options) -> Option<Command>
    ensures { result ≡ option_map (λ numbers. command_with verb numbers options) (numbers_within (verb_form verb).numbers (map (λ w. w.now) words.now)) }
{
    match (verb.form().numbers, words) {
        ([], []) => Some(verb.command(&[], options)),
        ([a], [x]) => Some(verb.command(&[number_within(x, *a)?], options)),
        ([a, b], [x, y]) => Some(verb.command(
            &[number_within(x, *a)?, number_within(y, *b)?],
            options,
        )),
        _ => None,
    }
}

/// Returns the command that the matches spell.
pub(crate) fn command_in(matches: &ArgMatches) -> Option<Command>
    ensures { result ≡ option_and_then (λ p. named_in p.0 p.1) (subcommand_rows_of matches.now) }
{
    let (name, matches) = matches.subcommand()?;
    let verb = Verb::named(name)?;
    let options = options(verb.form().items, matches)?;
    command_of(verb, matches.get_raw(NUMBERS).unwrap_or(&[]), options)
}
