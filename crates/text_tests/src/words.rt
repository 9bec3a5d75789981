//! The words that are taken, and what they ask for.

use command_line::{Config, Input, Options, WordsError, read_words};
use std::alloc::{AllocError, Global};
use std::test::Fail;

/// What is asked for where no option is used.
const DEFAULTS: Options = Options {
    all: false,
    workers: 1,
    lanes: 1,
    depth: None,
    node_limit: 0,
    round_limit: 0,
    domains: false,
    steal: false,
};

/// The words of a line that has a blank between each two.
fn words_of(alloc: Global, line: &str) -> Result<Vec<String>, AllocError> {
    let mut words = Vec::new(alloc);
    for word in line.split(' ') {
        words.push(String::from_str(alloc, word)?)?;
    }
    Ok(words)
}

#[test]
fn options_and_what_is_solved_are_read(rt: HostRuntime) -> Result<(), Fail> {
    let all = Options {
        all: true,
        ..DEFAULTS
    };
    let every = Options {
        all: true,
        workers: 64,
        lanes: 3,
        depth: Some(0),
        node_limit: 1_000_000_000_000,
        round_limit: 7,
        domains: true,
        steal: true,
    };
    let thieves = Options {
        workers: 2,
        steal: true,
        ..DEFAULTS
    };
    let domains = Options {
        lanes: 3,
        domains: true,
        ..DEFAULTS
    };
    let table = [
        ("turbofzn f", DEFAULTS, Input::File("f")),
        ("turbofzn -", DEFAULTS, Input::File("-")),
        ("turbofzn ", DEFAULTS, Input::File("")),
        ("turbofzn -a f", all, Input::File("f")),
        ("turbofzn f -a", all, Input::File("f")),
        ("turbofzn -- -a", DEFAULTS, Input::File("-a")),
        (
            "turbofzn -ap64 --lanes=3 --depth 0 --node-limit 1000000000000 --round-limit 007 --domains --steal f",
            every,
            Input::File("f"),
        ),
        ("turbofzn --steal -p 2 f", thieves, Input::File("f")),
        ("turbofzn f --domains --lanes 3", domains, Input::File("f")),
        ("turbofzn --make 2", DEFAULTS, Input::Made(2)),
        ("turbofzn f --make +2000", DEFAULTS, Input::Made(2000)),
    ];
    for (line, options, input) in table {
        let words = words_of(rt.alloc(), line)?;
        let config = read_words(rt.alloc(), &words);
        assert_eq!(rt; config, Ok(Config { options, input }), "at {line}");
    }
    Ok(())
}

#[test]
fn other_words_are_not_taken(rt: HostRuntime) -> Result<(), Fail> {
    let table = [
        "turbofzn",
        "turbofzn -a",
        "turbofzn -h",
        "turbofzn --help f",
        "turbofzn --version",
        "turbofzn f g",
        "turbofzn -a -a f",
        "turbofzn -p 0 f",
        "turbofzn -p 65 f",
        "turbofzn -p -1 f",
        "turbofzn -p x f",
        "turbofzn -p f",
        "turbofzn --lane 2 f",
        "turbofzn --lanes 0 f",
        "turbofzn --depth 17 f",
        "turbofzn --node-limit 1000000000001 f",
        "turbofzn --round-limit 18446744073709551616 f",
        "turbofzn --steal=1 f",
        "turbofzn --steal --steal f",
        "turbofzn --domains",
        "turbofzn --domains=true f",
        "turbofzn --domains --domains f",
        "turbofzn --domains --depth 17 f",
        "turbofzn --make 1",
        "turbofzn --make 2001 f",
    ];
    for line in table {
        let words = words_of(rt.alloc(), line)?;
        let config = read_words(rt.alloc(), &words);
        assert_eq!(rt; config, Err(WordsError::NotTaken), "at {line}");
    }
    Ok(())
}
