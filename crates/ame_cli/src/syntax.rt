//! The commands, as `clap` is given them.
ghost use Rattle.std.specs.Prelude.{◌≡◌, IfOk, false, true};
ghost use Rattle.ame_cli.specs.Syntax as spec;
ghost use Rattle.clap.specs.Words.{app_of, is_simple, is_simple_and_free, rule_of};
ghost use Rattle.clap.specs.declared.builder.Command.TheViews.{out-Command as fields_of};

use crate::item::Item;
use crate::verb::Verb;
use clap::{Arg, ArgAction, Command};
use std::alloc::{AllocError, Global};

/// The name under which the number words of a command are found.
pub(crate) const NUMBERS: &str = "numbers";

/// Makes an option with one value. The number of times that it is given is tested when the matches are read.
fn option<'a>(alloc: Global, name: &'a str) -> Arg<'a>
    ensures rule { rule_of result ≡ spec.option_rule name.entry.now }
    ensures local { result.global ≡ false }
{
    Arg::new(alloc, name).long(name).action(ArgAction::Append)
}

/// Makes a command with the options and any number words. A test when the matches are read says which of them it may have.
fn verb_syntax<'a>(alloc: Global, word: &'a str) -> Result<Command<'a>, AllocError>
    ensures shape { IfOk result (λ c. app_of c ≡ spec.verb_app word.entry.now) }
    ensures local { IfOk result (λ c. (fields_of c).has_globals ≡ false) }
{
    let workers: &'a str = Item::Workers.name();
    let turns: &'a str = Item::Turns.name();
    let slice: &'a str = Item::Slice.name();
    let numbers: &'a str = NUMBERS;
    Command::new(alloc, word)
        .arg(option(alloc, workers))?
        .arg(option(alloc, turns))?
        .arg(option(alloc, slice))?
        .arg(Arg::new(alloc, numbers).action(ArgAction::Append))
}

/// Makes all commands.
pub(crate) fn syntax<'a>(alloc: Global) -> Result<Command<'a>, AllocError>
    ensures app { IfOk result (λ c. app_of c ≡ spec.syntax) }
    ensures simple { IfOk result (λ c. is_simple (app_of c) ≡ true) }
    ensures free { IfOk result (λ c. is_simple_and_free (app_of c) ≡ true) }
{
    let name: &'a str = "ame";
    let mut all = Command::new(alloc, name)
        .no_binary_name(true)
        .disable_help_flag(true)
        .disable_help_subcommand(true);
    for verb in Verb::all() {
        let word: &'a str = verb.form().word;
        all = all.subcommand(verb_syntax(alloc, word)?)?;
    }
    Ok(all)
}
