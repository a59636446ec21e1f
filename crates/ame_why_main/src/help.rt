//! The answers that need no run.

use ame_why::explain_rule;

/// The synopsis.
const SYNOPSIS: &[u8] =
    b"./why [VIEW] [FILE] [WORD ..]   runs the program that FILE has, and says why it ends as it does
./why --explain RULE            a rule of types, 1 to 9 and 11, with a right and a wrong text
./why --version                 the commit and the kit

FILE is `-` or none for the standard input. The words are those of `ame`: `run`, `bench SEED SIZE`, `sim SEED`, `replay`,
`check`, `resume` or `weak SEED`. Each but `check` takes `--workers N`, `--turns N` and `--slice N` after it (`weak` only
`--turns N`), as in `./why --trace FILE run --workers 4`.

One of these views may stand anywhere:
  --journal    the journal of the run, and the program
  --trace      the journal as a table; of a run of `weak` first its labels, in the order in which they were made
  --schedule   the schedule of a run of `sim` or `replay`, and the program
  --counts     the counts of the run, next to their bounds
  --store      the values of the locations that are left
  --steps      the labels of the run, with the terms that they reduce
  --picture    the picture of the run, as SVG: of `sim` and `replay` by what each seat did, otherwise by tasks
  --events     what the picture shows, of runs of any length, as JSON for Perfetto (ui.perfetto.dev) or chrome://tracing

`--same FILE` next to a view compares the file with it; `--then` separates two calls.
";

/// Returns the answer to words that ask for no run: the synopsis, or a rule of types.
pub fn told_alone(words: &[String]) -> Option<&'static [u8]> {
    match words {
        [word] if word.as_str() == "--help" => Some(SYNOPSIS),
        [word, rule] if word.as_str() == "--explain" => match rule.as_str().parse::<u8>() {
            Ok(number) => explain_rule(number),
            Err(_) => None,
        },
        _ => None,
    }
}
