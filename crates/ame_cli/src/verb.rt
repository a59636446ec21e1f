//! Command words, and the words that may follow each.
ghost use Rattle.std.specs.Prelude.{◌≡◌, length};

use crate::bounds::Bounds;
use crate::command::{Command, Options};
use crate::item::Item;
use crate::limits::{SEED_LIMIT, SIZE_LIMIT};

/// The word with which a list begins.
#[derive(Clone, Copy, Debug, PartialEq, Eq)]
pub enum Verb {
    Run,
    Bench,
    Sim,
    Replay,
    Check,
    Resume,
    Weak,
}

/// A verb's word, the bounds of its number words in their order, and the options that it may be given.
#[derive(Clone, Copy, Debug)]
pub struct VerbGrammar {
    pub word: &'static str,
    pub numbers: &'static [Bounds],
    pub items: &'static [Item],
}

const SEEDS: Bounds = Bounds {
    least: 0,
    most: SEED_LIMIT,
};

const SIZES: Bounds = Bounds {
    least: 1,
    most: SIZE_LIMIT,
};

const ALL_ITEMS: &[Item] = &[Item::Workers, Item::Turns, Item::Slice];

impl Verb {
    ghost use Rattle.ame_cli.specs.Verbs.{command_with, verb_form, verb_named, verbs};

    #[tactic(auto, unfolding(crate::specs::Verbs::verbs))]
    pub fn all() -> &'static [Verb]
        ensures { result.now ≡ verbs }
    {
        &[
            Verb::Run,
            Verb::Bench,
            Verb::Sim,
            Verb::Replay,
            Verb::Check,
            Verb::Resume,
            Verb::Weak,
        ]
    }

    /// Returns the words that may follow a verb.
    pub fn form(self) -> VerbGrammar
        ensures word { result.word.now ≡ (verb_form self).word }
        ensures numbers { result.numbers.now ≡ (verb_form self).numbers }
        ensures items { result.items.now ≡ (verb_form self).items }
    {
        match self {
            Verb::Run => VerbGrammar {
                word: "run",
                numbers: &[],
                items: ALL_ITEMS,
            },
            Verb::Bench => VerbGrammar {
                word: "bench",
                numbers: &[SEEDS, SIZES],
                items: ALL_ITEMS,
            },
            Verb::Sim => VerbGrammar {
                word: "sim",
                numbers: &[SEEDS],
                items: ALL_ITEMS,
            },
            Verb::Replay => VerbGrammar {
                word: "replay",
                numbers: &[],
                items: ALL_ITEMS,
            },
            Verb::Check => VerbGrammar {
                word: "check",
                numbers: &[],
                items: &[],
            },
            Verb::Resume => VerbGrammar {
                word: "resume",
                numbers: &[],
                items: ALL_ITEMS,
            },
            Verb::Weak => VerbGrammar {
                word: "weak",
                numbers: &[SEEDS],
                items: &[Item::Turns],
            },
        }
    }

    /// Returns the command of a verb's numbers and options.
    pub fn command(self, numbers: &[u32], options: Options) -> Command
        requires { length numbers.now ≡ length (verb_form self).numbers }
        ensures { result ≡ command_with self numbers.now options }
    {
        match self {
            Verb::Run => Command::Run(options),
            Verb::Bench => Command::Bench(numbers[0], numbers[1], options),
            Verb::Sim => Command::Sim(numbers[0], options),
            Verb::Replay => Command::Replay(options),
            Verb::Check => Command::Check,
            Verb::Resume => Command::Resume(options),
            Verb::Weak => Command::Weak(numbers[0], options.turns),
        }
    }

    /// Returns the verb of this word.
    pub fn named(word: &str) -> Option<Verb>
        ensures { result ≡ verb_named word.now }
    {
        Verb::all()
            .iter()
            .copied()
            .find(|verb| verb.form().word == word)
    }
}
