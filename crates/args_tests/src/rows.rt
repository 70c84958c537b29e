//! The lists of words, and what each asks for: the rows that `ps_args` computes by its definition.
use crate::asked::{Asked, Row};
use ps_args::{FORMAT_HELP, HELP, RUN_HELP, VERSION};

/// Words that are a run.
pub static RUNS: [Row; 30] = [
    Row {
        words: &["run", "v", "a"],
        asked: Asked::Run {
            area: 16384,
            turns: 100000000,
            input: None,
            files: &["a"],
        },
    },
    Row {
        words: &["run", "v", "--turns", "5", "a"],
        asked: Asked::Run {
            area: 16384,
            turns: 5,
            input: None,
            files: &["a"],
        },
    },
    Row {
        words: &["run", "v", "--turns=5", "a"],
        asked: Asked::Run {
            area: 16384,
            turns: 5,
            input: None,
            files: &["a"],
        },
    },
    Row {
        words: &["run", "v", "a", "--turns", "5"],
        asked: Asked::Run {
            area: 16384,
            turns: 5,
            input: None,
            files: &["a"],
        },
    },
    Row {
        words: &["run", "v", "a", "--turns=5"],
        asked: Asked::Run {
            area: 16384,
            turns: 5,
            input: None,
            files: &["a"],
        },
    },
    Row {
        words: &[
            "run", "v", "--area", "16", "--turns", "5", "--input", "in", "a",
        ],
        asked: Asked::Run {
            area: 16,
            turns: 5,
            input: Some("in"),
            files: &["a"],
        },
    },
    Row {
        words: &["run", "v", "--turns", "5", "--area", "16", "a"],
        asked: Asked::Run {
            area: 16,
            turns: 5,
            input: None,
            files: &["a"],
        },
    },
    Row {
        words: &["run", "v", "--input=in", "a", "--area=16"],
        asked: Asked::Run {
            area: 16,
            turns: 100000000,
            input: Some("in"),
            files: &["a"],
        },
    },
    Row {
        words: &["run", "v", "a", "b"],
        asked: Asked::Run {
            area: 16384,
            turns: 100000000,
            input: None,
            files: &["a", "b"],
        },
    },
    Row {
        words: &["run", "v", "a", "--turns", "5", "b"],
        asked: Asked::Run {
            area: 16384,
            turns: 5,
            input: None,
            files: &["a", "b"],
        },
    },
    Row {
        words: &["run", "v", "a", "b", "--turns=5", "c", "--input", "in"],
        asked: Asked::Run {
            area: 16384,
            turns: 5,
            input: Some("in"),
            files: &["a", "b", "c"],
        },
    },
    Row {
        words: &["run", "v", "--", "a"],
        asked: Asked::Run {
            area: 16384,
            turns: 100000000,
            input: None,
            files: &["a"],
        },
    },
    Row {
        words: &["run", "v", "--", "-"],
        asked: Asked::Run {
            area: 16384,
            turns: 100000000,
            input: None,
            files: &["-"],
        },
    },
    Row {
        words: &["run", "v", "a", "--", "b"],
        asked: Asked::Run {
            area: 16384,
            turns: 100000000,
            input: None,
            files: &["a", "b"],
        },
    },
    Row {
        words: &["run", "v", "--turns", "1000000000000", "a"],
        asked: Asked::Run {
            area: 16384,
            turns: 1000000000000,
            input: None,
            files: &["a"],
        },
    },
    Row {
        words: &["run", "v", "--turns", "0", "a"],
        asked: Asked::Run {
            area: 16384,
            turns: 0,
            input: None,
            files: &["a"],
        },
    },
    Row {
        words: &["run", "v", "--turns", "0000000000005", "a"],
        asked: Asked::Run {
            area: 16384,
            turns: 5,
            input: None,
            files: &["a"],
        },
    },
    Row {
        words: &["run", "v", "--area", "1", "a"],
        asked: Asked::Run {
            area: 1,
            turns: 100000000,
            input: None,
            files: &["a"],
        },
    },
    Row {
        words: &["run", "v", "--area", "262144", "a"],
        asked: Asked::Run {
            area: 262144,
            turns: 100000000,
            input: None,
            files: &["a"],
        },
    },
    Row {
        words: &["run", "v", "--area", "000016", "a"],
        asked: Asked::Run {
            area: 16,
            turns: 100000000,
            input: None,
            files: &["a"],
        },
    },
    Row {
        words: &["run", "v", "--input", "-", "a"],
        asked: Asked::Run {
            area: 16384,
            turns: 100000000,
            input: Some("-"),
            files: &["a"],
        },
    },
    Row {
        words: &["run", "v", "--input=", "a"],
        asked: Asked::Run {
            area: 16384,
            turns: 100000000,
            input: Some(""),
            files: &["a"],
        },
    },
    Row {
        words: &["run", "v", "--input", "", "a"],
        asked: Asked::Run {
            area: 16384,
            turns: 100000000,
            input: Some(""),
            files: &["a"],
        },
    },
    Row {
        words: &["run", "v", "--input=a=b", "c"],
        asked: Asked::Run {
            area: 16384,
            turns: 100000000,
            input: Some("a=b"),
            files: &["c"],
        },
    },
    Row {
        words: &["run", "v", "--input", "a=b", "c"],
        asked: Asked::Run {
            area: 16384,
            turns: 100000000,
            input: Some("a=b"),
            files: &["c"],
        },
    },
    Row {
        words: &["run", "v", "--input", "help", "help"],
        asked: Asked::Run {
            area: 16384,
            turns: 100000000,
            input: Some("help"),
            files: &["help"],
        },
    },
    Row {
        words: &["run", "v", "-"],
        asked: Asked::Run {
            area: 16384,
            turns: 100000000,
            input: None,
            files: &["-"],
        },
    },
    Row {
        words: &["run", "v", ""],
        asked: Asked::Run {
            area: 16384,
            turns: 100000000,
            input: None,
            files: &[""],
        },
    },
    Row {
        words: &["run", "v", "5"],
        asked: Asked::Run {
            area: 16384,
            turns: 100000000,
            input: None,
            files: &["5"],
        },
    },
    Row {
        words: &["run", "v", "é.ps"],
        asked: Asked::Run {
            area: 16384,
            turns: 100000000,
            input: None,
            files: &["é.ps"],
        },
    },
];

/// Words behind the volume that are no run.
pub static REFUSED: [Row; 43] = [
    Row {
        words: &["run", "v"],
        asked: Asked::Usage,
    },
    Row {
        words: &["run", "v", "--turns", "a"],
        asked: Asked::Usage,
    },
    Row {
        words: &["run", "v", "--turns", "5"],
        asked: Asked::Usage,
    },
    Row {
        words: &["run", "v", "a", "--turns"],
        asked: Asked::Usage,
    },
    Row {
        words: &["run", "v", "a", "--turns", "--", "5"],
        asked: Asked::Usage,
    },
    Row {
        words: &["run", "v", "--turns", "5", "--turns", "5", "a"],
        asked: Asked::Usage,
    },
    Row {
        words: &["run", "v", "--turns=5", "a", "--turns", "6"],
        asked: Asked::Usage,
    },
    Row {
        words: &["run", "v", "--input", "x", "--input=x", "a"],
        asked: Asked::Usage,
    },
    Row {
        words: &["run", "v", "--area=16", "--area=16", "a"],
        asked: Asked::Usage,
    },
    Row {
        words: &["run", "v", "--turns", "-5", "a"],
        asked: Asked::Usage,
    },
    Row {
        words: &["run", "v", "--turns=-5", "a"],
        asked: Asked::Usage,
    },
    Row {
        words: &["run", "v", "--turns=", "a"],
        asked: Asked::Usage,
    },
    Row {
        words: &["run", "v", "--turns", "", "a"],
        asked: Asked::Usage,
    },
    Row {
        words: &["run", "v", "--turns", "+5", "a"],
        asked: Asked::Usage,
    },
    Row {
        words: &["run", "v", "--turns", "5x", "a"],
        asked: Asked::Usage,
    },
    Row {
        words: &["run", "v", "--turns", "1000000000001", "a"],
        asked: Asked::Usage,
    },
    Row {
        words: &["run", "v", "--turns", "00000000000005", "a"],
        asked: Asked::Usage,
    },
    Row {
        words: &["run", "v", "--turns=5=6", "a"],
        asked: Asked::Usage,
    },
    Row {
        words: &["run", "v", "--area", "0", "a"],
        asked: Asked::Usage,
    },
    Row {
        words: &["run", "v", "--area", "262145", "a"],
        asked: Asked::Usage,
    },
    Row {
        words: &["run", "v", "--area=0000016", "a"],
        asked: Asked::Usage,
    },
    Row {
        words: &["run", "v", "--area", "--turns", "5", "a"],
        asked: Asked::Usage,
    },
    Row {
        words: &["run", "v", "--input", "-x", "a"],
        asked: Asked::Usage,
    },
    Row {
        words: &["run", "v", "--input", "--", "a"],
        asked: Asked::Usage,
    },
    Row {
        words: &["run", "v", "--input"],
        asked: Asked::Usage,
    },
    Row {
        words: &["run", "v", "--"],
        asked: Asked::Usage,
    },
    Row {
        words: &["run", "v", "-a"],
        asked: Asked::Usage,
    },
    Row {
        words: &["run", "v", "--a"],
        asked: Asked::Usage,
    },
    Row {
        words: &["run", "v", "--tur", "5", "a"],
        asked: Asked::Usage,
    },
    Row {
        words: &["run", "v", "-t", "5", "a"],
        asked: Asked::Usage,
    },
    Row {
        words: &["run", "v", "--turns5", "a"],
        asked: Asked::Usage,
    },
    Row {
        words: &["run", "v", "---turns", "5", "a"],
        asked: Asked::Usage,
    },
    Row {
        words: &["run", "v", "--=5", "a"],
        asked: Asked::Usage,
    },
    Row {
        words: &["run", "v", "--help", "a"],
        asked: Asked::Usage,
    },
    Row {
        words: &["run", "v", "-h", "a"],
        asked: Asked::Usage,
    },
    Row {
        words: &["run", "v", "a", "--help"],
        asked: Asked::Usage,
    },
    Row {
        words: &["run", "v", "--version", "a"],
        asked: Asked::Usage,
    },
    Row {
        words: &["run", "v", "a", "-5"],
        asked: Asked::Usage,
    },
    Row {
        words: &["run", "v", "--", "-a"],
        asked: Asked::Usage,
    },
    Row {
        words: &["run", "v", "--turns", "5", "--", "--area"],
        asked: Asked::Usage,
    },
    Row {
        words: &["run", "v", "--", "--"],
        asked: Asked::Usage,
    },
    Row {
        words: &["run", "v", "a", "--", "--turns", "5"],
        asked: Asked::Usage,
    },
    Row {
        words: &["run", "v", "--input=-x", "a"],
        asked: Asked::Usage,
    },
];

/// Words of the other commands, words that ask for a text, and words that are neither.
pub static OTHERS: [Row; 48] = [
    Row {
        words: &["format", "v", "32"],
        asked: Asked::Volume { pages: 32 },
    },
    Row {
        words: &["format", "v", "1048576"],
        asked: Asked::Volume { pages: 1048576 },
    },
    Row {
        words: &["format", "v", "0000064"],
        asked: Asked::Volume { pages: 64 },
    },
    Row {
        words: &["format", "v", "--", "64"],
        asked: Asked::Volume { pages: 64 },
    },
    Row {
        words: &["format", "v"],
        asked: Asked::Usage,
    },
    Row {
        words: &["format", "v", "31"],
        asked: Asked::Usage,
    },
    Row {
        words: &["format", "v", "1048577"],
        asked: Asked::Usage,
    },
    Row {
        words: &["format", "v", "00000064"],
        asked: Asked::Usage,
    },
    Row {
        words: &["format", "v", "+64"],
        asked: Asked::Usage,
    },
    Row {
        words: &["format", "v", ""],
        asked: Asked::Usage,
    },
    Row {
        words: &["format", "v", "64", "64"],
        asked: Asked::Usage,
    },
    Row {
        words: &["format", "v", "-64"],
        asked: Asked::Usage,
    },
    Row {
        words: &["format", "v", "--", "-64"],
        asked: Asked::Usage,
    },
    Row {
        words: &["format", "v", "--pages", "64"],
        asked: Asked::Usage,
    },
    Row {
        words: &["format", "v", "--area", "64", "64"],
        asked: Asked::Usage,
    },
    Row {
        words: &["format", "v", "64x"],
        asked: Asked::Usage,
    },
    Row {
        words: &["format", "-v", "64"],
        asked: Asked::Usage,
    },
    Row {
        words: &["format", "v", "--help"],
        asked: Asked::Usage,
    },
    Row {
        words: &[],
        asked: Asked::Usage,
    },
    Row {
        words: &[""],
        asked: Asked::Usage,
    },
    Row {
        words: &["run"],
        asked: Asked::Usage,
    },
    Row {
        words: &["format"],
        asked: Asked::Usage,
    },
    Row {
        words: &["run", "-v", "a"],
        asked: Asked::Usage,
    },
    Row {
        words: &["run", "--", "a"],
        asked: Asked::Usage,
    },
    Row {
        words: &["run", "-", "a"],
        asked: Asked::Usage,
    },
    Row {
        words: &["run", "", "a"],
        asked: Asked::Run {
            area: 16384,
            turns: 100000000,
            input: None,
            files: &["a"],
        },
    },
    Row {
        words: &["walk", "v", "a"],
        asked: Asked::Usage,
    },
    Row {
        words: &["Run", "v", "a"],
        asked: Asked::Usage,
    },
    Row {
        words: &["demo", "v", "3"],
        asked: Asked::Usage,
    },
    Row {
        words: &["mix", "v", "s", "a", "b"],
        asked: Asked::Usage,
    },
    Row {
        words: &["dump", "v", "f"],
        asked: Asked::Usage,
    },
    Row {
        words: &["--help"],
        asked: Asked::Text { text: HELP },
    },
    Row {
        words: &["help"],
        asked: Asked::Text { text: HELP },
    },
    Row {
        words: &["--version"],
        asked: Asked::Text { text: VERSION },
    },
    Row {
        words: &["run", "--help"],
        asked: Asked::Text { text: RUN_HELP },
    },
    Row {
        words: &["format", "--help"],
        asked: Asked::Text { text: FORMAT_HELP },
    },
    Row {
        words: &["-h"],
        asked: Asked::Usage,
    },
    Row {
        words: &["-V"],
        asked: Asked::Usage,
    },
    Row {
        words: &["version"],
        asked: Asked::Usage,
    },
    Row {
        words: &["--help", "run"],
        asked: Asked::Usage,
    },
    Row {
        words: &["help", "run"],
        asked: Asked::Usage,
    },
    Row {
        words: &["--version", "v"],
        asked: Asked::Usage,
    },
    Row {
        words: &["walk", "--help"],
        asked: Asked::Usage,
    },
    Row {
        words: &["demo", "--help"],
        asked: Asked::Usage,
    },
    Row {
        words: &["run", "--help", "a"],
        asked: Asked::Usage,
    },
    Row {
        words: &["run", "-h"],
        asked: Asked::Usage,
    },
    Row {
        words: &["run", "--version"],
        asked: Asked::Usage,
    },
    Row {
        words: &["run", "help"],
        asked: Asked::Usage,
    },
];

/// Words that are no command, though `clap` takes those behind the volume: a number isn't one, or isn't in its bounds.
pub static TAKEN: [&[&str]; 23] = [
    &["run", "v", "--turns=-5", "a"],
    &["run", "v", "--turns=", "a"],
    &["run", "v", "--turns", "", "a"],
    &["run", "v", "--turns", "+5", "a"],
    &["run", "v", "--turns", "5x", "a"],
    &["run", "v", "--turns", "1000000000001", "a"],
    &["run", "v", "--turns", "00000000000005", "a"],
    &["run", "v", "--turns=5=6", "a"],
    &["run", "v", "--area", "0", "a"],
    &["run", "v", "--area", "262145", "a"],
    &["run", "v", "--area=0000016", "a"],
    &["format", "v", "31"],
    &["format", "v", "1048577"],
    &["format", "v", "00000064"],
    &["format", "v", "+64"],
    &["format", "v", ""],
    &["format", "v", "--", "-64"],
    &["format", "v", "64x"],
    &["run", "v", "--", "-a"],
    &["run", "v", "--turns", "5", "--", "--area"],
    &["run", "v", "--", "--"],
    &["run", "v", "a", "--", "--turns", "5"],
    &["run", "v", "--input=-x", "a"],
];
