//! What some words ask for.

use super::*;
use std::alloc::{AllocError, Global};
use std::test::Fail;

/// What these words ask for, printed.
fn asked(alloc: Global, words: &[&str]) -> Result<String, AllocError> {
    let mut owned = Vec::new(alloc);
    for word in words {
        owned.push(String::from_str(alloc, word)?)?;
    }
    match read_words(alloc, &owned) {
        Words::Run(command) => Ok(format!(in alloc; "{command:?}")?),
        Words::Usage(why) => Ok(format!(in alloc; "{why}")?),
        Words::NoMemory => Err(AllocError),
    }
}

const BAD: &str = "the command does not take these words";

const NONE: &str = "no command has this name";

/// Words, and what they ask for.
const ROWS: [(&[&str], &str); 61] = [
    (&[], NONE),
    (&[""], NONE),
    (&["Check", "t"], NONE),
    (&["--help"], NONE),
    (&["--moment", "1", "ask", "d", "t"], NONE),
    (&["nosuch", "t"], NONE),
    (&["ASK", "d", "t"], NONE),
    (&["ask ", "d", "t"], NONE),
    (&["--", "check", "t"], NONE),
    (&["checks", "t"], NONE),
    (&["check", "t"], "Check { text: \"t\" }"),
    (&["check", ""], "Check { text: \"\" }"),
    (&["check", "--", "--help"], "Check { text: \"--help\" }"),
    (&["check", "-"], "Check { text: \"-\" }"),
    (&["check"], BAD),
    (&["check", "t", "u"], BAD),
    (&["check", "--help"], BAD),
    (&["check", "-h"], BAD),
    (&["check", "--version"], BAD),
    (&["check", "t", "--moment", "1"], BAD),
    (&["check", "t", "--", "u"], BAD),
    (
        &["ask", "d", "t"],
        "Ask { dir: \"d\", text: \"t\", moment: None }",
    ),
    (&["ask", "d", "t", "--moment", "12"], ASKED),
    (&["ask", "--moment", "12", "d", "t"], ASKED),
    (&["ask", "d", "--moment=12", "t"], ASKED),
    (&["ask", "--moment=+0012", "d", "t"], ASKED),
    (
        &["ask", "--moment", "0000000000000000000012", "d", "t"],
        ASKED,
    ),
    (
        &["ask", "--moment=0", "d", "t"],
        "Ask { dir: \"d\", text: \"t\", moment: Some(0) }",
    ),
    (
        &["ask", "d", "t", "--moment", "253402300799"],
        "Ask { dir: \"d\", text: \"t\", moment: Some(253402300799) }",
    ),
    (&["ask", "d", "t", "--moment", "253402300800"], BAD),
    (&["ask", "d", "t", "--moment=253402300800"], BAD),
    (&["ask", "d", "t", "--moment", "18446744073709551616"], BAD),
    (&["ask", "d", "t", "--moment", "-1"], BAD),
    (&["ask", "d", "t", "--moment", "1x"], BAD),
    (&["ask", "d", "t", "--moment", ""], BAD),
    (&["ask", "d", "t", "--moment="], BAD),
    (&["ask", "d", "t", "--moment"], BAD),
    (&["ask", "d", "t", "--moment", "1", "--moment", "1"], BAD),
    (&["ask", "d", "t", "--mom", "1"], BAD),
    (&["ask", "d", "t", "-m", "1"], BAD),
    (&["ask", "d", "t", "--loops", "1"], BAD),
    (&["ask", "d"], BAD),
    (&["ask", "d", "t", "u"], BAD),
    (&["ask", "d", "--", "t", "--moment=1"], BAD),
    (&["drill", "0"], "Drill { number: 0 }"),
    (&["drill", "1000"], "Drill { number: 1000 }"),
    (&["drill", "1001"], BAD),
    (&["drill", "-1"], BAD),
    (&["drill"], BAD),
    (&["drill", "1", "2"], BAD),
    (&["drill", "1", "--slots", "1"], BAD),
    (&["serve", "d", "t", "127.0.0.1:80"], SERVED),
    (&["serve", "d", "t"], BAD),
    (&["serve", "d", "t", "a", "b"], BAD),
    (&["serve", "d", "t", "a", "--moment", "1"], BAD),
    (&["serve", "d", "t", "a", "--loops", "0"], BAD),
    (&["serve", "d", "t", "a", "--loops", "17"], BAD),
    (&["serve", "d", "t", "a", "--workers=65"], BAD),
    (&["serve", "d", "t", "a", "--slots", "1025"], BAD),
    (
        &["serve", "d", "t", "a", "--connections", "2147483648"],
        BAD,
    ),
    (&["serve", "d", "t", "a", "--slots=1", "--slots=1"], BAD),
];

const ASKED: &str = "Ask { dir: \"d\", text: \"t\", moment: Some(12) }";

const SERVED: &str =
    "Serve { dir: \"d\", text: \"t\", address: \"127.0.0.1:80\", options: Options { loops: 2, workers: 4, slots: 256, connections: 0 } }";

#[test]
fn words_are_read(rt: HostRuntime) -> Result<(), Fail> {
    let alloc = rt.alloc();
    for (i, (words, printed)) in ROWS.iter().enumerate() {
        assert_eq!(rt; asked(alloc, words)?.as_str(), *printed, "row {i}");
    }
    Ok(())
}

/// Options of `serve`, and what they are read as.
const OPTIONS: [(&[&str], Options); 4] = [
    (
        &[
            "serve",
            "--loops=1",
            "d",
            "--workers=1",
            "t",
            "--slots",
            "1",
            "a",
        ],
        Options {
            loops: 1,
            workers: 1,
            slots: 1,
            connections: 0,
        },
    ),
    (
        &[
            "serve",
            "d",
            "t",
            "a",
            "--loops",
            "16",
            "--workers",
            "64",
            "--slots",
            "1024",
        ],
        Options {
            loops: 16,
            workers: 64,
            slots: 1024,
            connections: 0,
        },
    ),
    (
        &["serve", "d", "t", "a", "--connections", "2147483647"],
        Options {
            loops: 2,
            workers: 4,
            slots: 256,
            connections: 2_147_483_647,
        },
    ),
    (
        &["serve", "--connections=0", "--slots=7", "d", "t", "a"],
        Options {
            loops: 2,
            workers: 4,
            slots: 7,
            connections: 0,
        },
    ),
];

#[test]
fn options_are_read(rt: HostRuntime) -> Result<(), Fail> {
    let alloc = rt.alloc();
    for (words, want) in OPTIONS {
        let mut owned = Vec::new(alloc);
        for word in words {
            owned.push(String::from_str(alloc, word)?)?;
        }
        let Words::Run(Command::Serve { options, .. }) = read_words(alloc, &owned) else {
            return Err(Fail::new("no command to serve"));
        };
        assert_eq!(rt; options, want);
    }
    Ok(())
}
