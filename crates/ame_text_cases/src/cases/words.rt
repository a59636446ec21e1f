//! Lines of words, with the commands that they spell.

use ame_cli::{CliFail, Command, Options, read_words};
use std::alloc::Global;
use std::test::Fail;

const DEFAULTS: Options = Options {
    workers: 1,
    turns: 1_000_000,
    slice: 1_000,
};

const FOUR_WORKERS: Options = Options {
    workers: 4,
    ..DEFAULTS
};

const SHORT: Options = Options {
    workers: 1,
    turns: 2,
    slice: 3,
};

/// Words, with a space between two, and the command that they spell.
const SPELLED: &[(&str, Command)] = &[
    ("", Command::Run(DEFAULTS)),
    ("run", Command::Run(DEFAULTS)),
    (
        "run --workers 2",
        Command::Run(Options {
            workers: 2,
            ..DEFAULTS
        }),
    ),
    (
        "run --workers=2",
        Command::Run(Options {
            workers: 2,
            ..DEFAULTS
        }),
    ),
    (
        "run --turns 9",
        Command::Run(Options {
            turns: 9,
            ..DEFAULTS
        }),
    ),
    (
        "run --turns=9",
        Command::Run(Options {
            turns: 9,
            ..DEFAULTS
        }),
    ),
    (
        "run --slice 7",
        Command::Run(Options {
            slice: 7,
            ..DEFAULTS
        }),
    ),
    (
        "run --slice=7",
        Command::Run(Options {
            slice: 7,
            ..DEFAULTS
        }),
    ),
    (
        "run --slice=007 --turns 9",
        Command::Run(Options {
            turns: 9,
            slice: 7,
            ..DEFAULTS
        }),
    ),
    (
        "run --turns 9 --slice=007",
        Command::Run(Options {
            turns: 9,
            slice: 7,
            ..DEFAULTS
        }),
    ),
    (
        "run --turns=9 --workers 3",
        Command::Run(Options {
            workers: 3,
            turns: 9,
            ..DEFAULTS
        }),
    ),
    (
        "run --workers=1 --turns=1 --slice=1",
        Command::Run(Options {
            turns: 1,
            slice: 1,
            ..DEFAULTS
        }),
    ),
    (
        "run --slice 1 --turns 2 --workers 3",
        Command::Run(Options {
            workers: 3,
            turns: 2,
            slice: 1,
        }),
    ),
    (
        "run --turns 2 --slice=1 --workers 3",
        Command::Run(Options {
            workers: 3,
            turns: 2,
            slice: 1,
        }),
    ),
    (
        "run --workers 3 --slice 1 --turns=2",
        Command::Run(Options {
            workers: 3,
            turns: 2,
            slice: 1,
        }),
    ),
    (
        "run --workers=32 --turns=4000000 --slice=1000",
        Command::Run(Options {
            workers: 32,
            turns: 4_000_000,
            ..DEFAULTS
        }),
    ),
    (
        "run --workers=0000000032",
        Command::Run(Options {
            workers: 32,
            ..DEFAULTS
        }),
    ),
    ("run --workers 0000000001", Command::Run(DEFAULTS)),
    (
        "run --turns 0004000000",
        Command::Run(Options {
            turns: 4_000_000,
            ..DEFAULTS
        }),
    ),
    (
        "run --slice 01",
        Command::Run(Options {
            slice: 1,
            ..DEFAULTS
        }),
    ),
    ("bench 1 2", Command::Bench(1, 2, DEFAULTS)),
    ("bench --workers 4 1 2", Command::Bench(1, 2, FOUR_WORKERS)),
    ("bench 1 --workers 4 2", Command::Bench(1, 2, FOUR_WORKERS)),
    ("bench 1 2 --workers 4", Command::Bench(1, 2, FOUR_WORKERS)),
    ("bench --workers=4 1 2", Command::Bench(1, 2, FOUR_WORKERS)),
    ("bench 1 --workers=4 2", Command::Bench(1, 2, FOUR_WORKERS)),
    ("bench 1 2 --workers=4", Command::Bench(1, 2, FOUR_WORKERS)),
    ("bench 2 1", Command::Bench(2, 1, DEFAULTS)),
    ("bench 65536 4000", Command::Bench(65_536, 4_000, DEFAULTS)),
    ("bench 0 1", Command::Bench(0, 1, DEFAULTS)),
    ("bench 00001 0000000002", Command::Bench(1, 2, DEFAULTS)),
    ("bench --slice 3 4 --turns=2 5", Command::Bench(4, 5, SHORT)),
    (
        "bench --workers 1 --turns 2 --slice 3 4 5",
        Command::Bench(4, 5, SHORT),
    ),
    (
        "bench 4 5 --slice=3 --turns=2 --workers=1",
        Command::Bench(4, 5, SHORT),
    ),
    ("sim 1", Command::Sim(1, DEFAULTS)),
    ("sim 65536 --workers=4", Command::Sim(65_536, FOUR_WORKERS)),
    ("sim --workers 4 0", Command::Sim(0, FOUR_WORKERS)),
    ("sim --slice 3 009 --turns=2", Command::Sim(9, SHORT)),
    ("replay", Command::Replay(DEFAULTS)),
    ("replay --workers 4", Command::Replay(FOUR_WORKERS)),
    ("replay --slice=3 --turns 2", Command::Replay(SHORT)),
    ("resume", Command::Resume(DEFAULTS)),
    ("resume --workers=4", Command::Resume(FOUR_WORKERS)),
    ("resume --turns 2 --slice 3", Command::Resume(SHORT)),
    ("weak 1", Command::Weak(1, 1_000_000)),
    ("weak --turns 2 65536", Command::Weak(65_536, 2)),
    ("weak 0 --turns=4000000", Command::Weak(0, 4_000_000)),
    ("check", Command::Check),
];

/// Reads the words of a line.
fn read(alloc: Global, line: &str) -> Result<Result<Command, CliFail>, Fail> {
    let mut words = Vec::new(alloc);
    for word in line.split(' ') {
        if !word.is_empty() {
            words.push(String::from_str(alloc, word)?)?;
        }
    }
    Ok(read_words(alloc, &words))
}

#[test]
fn words_spell_commands(rt: HostRuntime) -> Result<(), Fail> {
    for &(line, command) in SPELLED {
        assert!(rt; read(rt.alloc(), line)? == Ok(command), "{line}");
    }
    Ok(())
}
