ghost use Rattle.std.specs.Prelude.{◌≡◌, ◌≤◌, ◌+◌, ◌-◌, ◌*◌, [], codes, length, min, true, unwrap_or, IfOk, IfSome, map, option_map};
ghost use Rattle.std.specs.List.{AllPass, list_all};
ghost use Rattle.std.specs.Char.{is_ascii_digit};
ghost use Rattle.ps_scan.specs.Class.{decimal};
ghost use Rattle.clap.specs.Words.{all_of, first_of};
ghost use Rattle.ps_args.specs.Words.{words_of, command_of, command_named, help_behind, pages_alone, run_of, run_with, text_named, area_given, turns_given, pages_given, is_plain, is_name, are_names, number_of};
ghost use Rattle.ps_args.specs.Simple.{pages_read, run_read};
ghost use Rattle.ps_args.specs.Reading.{IsWithin, IsArea, ReadsAs, command_in, rows_in, run_in};

use crate::help::{FORMAT_HELP, HELP, RUN_HELP, VERSION};
use crate::simple::{read_format_words, read_run_words};
use clap::ArgMatches;
use std::alloc::Global;

/// The KiB of the area of a program where the words don't say.
pub const DEFAULT_AREA: u32 = 16_384;

/// The most KiB that the words may give.
pub const MOST_AREA: u64 = 262_144;

/// The turns that a program may take where the words don't say.
pub const DEFAULT_TURNS: u64 = 100_000_000;

/// The most turns that the words may give.
pub const MOST_TURNS: u64 = 1_000_000_000_000;

/// The most texts that the words of a run may name.
pub const MOST_FILES: usize = 64;

/// The fewest pages of a volume.
pub const LEAST_PAGES: u64 = 32;

/// The most pages of a volume.
pub const MOST_PAGES: u64 = 1_048_576;

/// A run: the KiB that its area has, the turns that each program may take, the name of its input, where it has one, that of its first text, and those of
/// the texts behind it.
#[derive(Drop)]
pub struct RunWords<'a> {
    pub area_kib: u32,
    pub turns: u64,
    pub input: Option<&'a str>,
    pub file: &'a str,
    pub further: Vec<&'a str>,
}

/// What the words ask for: a run, a new volume of so many pages, or a text that tells of the program.
#[derive(Drop)]
pub enum Command<'a> {
    Run(RunWords<'a>),
    Format { pages: u32 },
    Tell { text: &'a str },
}

/// Why no command was read: the words are none, or there was no memory to read them.
#[derive(Clone, Copy, PartialEq, Eq)]
pub enum ArgsFault {
    Usage,
    Memory,
}

/// What the words ask for, or why that isn't read (`docs/language.md`).
pub fn read_words<'a>(alloc: Global, words: &'a [String]) -> Result<Command<'a>, ArgsFault>
    ensures command { ReadsAs command_in (command_of (words_of words.now)) result }
    ensures within { IfOk result (λ command. IsWithin (command_in command)) }
{
    match words {
        [name, volume, further @ ..] => {
            if is_plain_word(volume.as_str()) {
                read_command(alloc, name.as_str(), further)
            } else {
                help_of(name.as_str(), volume.as_str(), further)
            }
        }
        [word] => text_of(word.as_str()),
        [] => Err(ArgsFault::Usage),
    }
}

// The command of this name, of the words behind the volume.
fn read_command<'a>(
    alloc: Global,
    name: &str,
    words: &'a [String],
) -> Result<Command<'a>, ArgsFault>
    ensures command { ReadsAs command_in (command_named name.now (words_of words.now)) result }
    ensures within { IfOk result (λ command. IsWithin (command_in command)) }
{
    if name == "run" {
        let run = read_run(alloc, words)?;
        return Ok(Command::Run(run));
    }
    if name != "format" {
        return Err(ArgsFault::Usage);
    }
    let pages = read_pages(alloc, words)?;
    Ok(Command::Format { pages })
}

// The text that a word alone asks for.
fn text_of<'a>(word: &str) -> Result<Command<'a>, ArgsFault>
    ensures command { ReadsAs command_in (text_named word.now) result }
    ensures within { IfOk result (λ command. IsWithin (command_in command)) }
{
    if word == "--help" || word == "help" {
        return Ok(Command::Tell { text: HELP });
    }
    if word == "--version" {
        return Ok(Command::Tell { text: VERSION });
    }
    Err(ArgsFault::Usage)
}

// The text of a command that `--help` stands behind alone, in the place of the volume.
fn help_of<'a>(name: &str, word: &str, further: &[String]) -> Result<Command<'a>, ArgsFault>
    ensures command { ReadsAs command_in (help_behind name.now word.now (words_of further.now)) result }
    ensures within { IfOk result (λ command. IsWithin (command_in command)) }
{
    if !further.is_empty() || word != "--help" {
        return Err(ArgsFault::Usage);
    }
    if name == "run" {
        return Ok(Command::Tell { text: RUN_HELP });
    }
    if name == "format" {
        return Ok(Command::Tell { text: FORMAT_HELP });
    }
    Err(ArgsFault::Usage)
}

// The pages of a new volume.
fn read_pages(alloc: Global, words: &[String]) -> Result<u32, ArgsFault>
    ensures pages { ReadsAs (λ pages. pages) (pages_given (words_of words.now)) result }
    ensures bounds { IfOk result (λ pages. (32 ≤ pages) × (pages ≤ 1048576)) }
{
    match read_format_words(alloc, words) {
        Ok(matches) => pages_read(&matches),
        Err(fault) => Err(fault),
    }
}

// The pages that were read.
fn pages_read(matches: &ArgMatches) -> Result<u32, ArgsFault>
    ensures pages { ReadsAs (λ pages. pages) (pages_read (rows_in matches.now)) result }
    ensures bounds { IfOk result (λ pages. (32 ≤ pages) × (pages ≤ 1048576)) }
{
    match matches.get_strs("pages") {
        Some(words) => pages_alone(words),
        None => pages_alone(&[]),
    }
}

// The pages that one word writes.
fn pages_alone(words: &[&str]) -> Result<u32, ArgsFault>
    ensures pages { ReadsAs (λ pages. pages) (pages_alone (map (λ word. word.now) words.now)) result }
    ensures bounds { IfOk result (λ pages. (32 ≤ pages) × (pages ≤ 1048576)) }
{
    match words {
        [digits] => match read_number(digits.as_bytes(), 7, LEAST_PAGES, MOST_PAGES) {
            Some(pages) => Ok(pages as u32),
            None => Err(ArgsFault::Usage),
        },
        [] => Err(ArgsFault::Usage),
        [_, _, ..] => Err(ArgsFault::Usage),
    }
}

// The run of the words behind the volume.
fn read_run<'a>(alloc: Global, words: &'a [String]) -> Result<RunWords<'a>, ArgsFault>
    ensures run { ReadsAs run_in (run_of (words_of words.now)) result }
    ensures area { IfOk result (λ run. IsArea (run_in run)) }
{
    match read_run_words(alloc, words) {
        Ok(matches) => run_read(alloc, &matches),
        Err(fault) => Err(fault),
    }
}

// The run that was read.
fn run_read<'a>(alloc: Global, matches: &ArgMatches<'a>) -> Result<RunWords<'a>, ArgsFault>
    ensures run { ReadsAs run_in (run_read (rows_in matches.now)) result }
    ensures area { IfOk result (λ run. IsArea (run_in run)) }
{
    let area = read_area(value(matches, "area"));
    let turns = read_turns(value(matches, "turns"));
    let input = value(matches, "input");
    match matches.get_strs("file") {
        Some(files) => run_with(alloc, area, turns, input, files),
        None => run_with(alloc, area, turns, input, &[]),
    }
}

// The value that was read of this name.
fn value<'a>(matches: &ArgMatches<'a>, name: &str) -> Option<&'a str>
    ensures { option_map (λ value. value.now) result ≡ first_of name.now (rows_in matches.now) }
{
    matches.get_str(name)
}

// The run of these, where they are given, over these texts.
fn run_with<'a>(
    alloc: Global,
    area: Option<u32>,
    turns: Option<u64>,
    input: Option<&'a str>,
    files: &[&'a str],
) -> Result<RunWords<'a>, ArgsFault>
    requires { IfSome area (λ kib. (1 ≤ kib) × (kib ≤ 262144)) }
    ensures run { ReadsAs run_in (run_with area turns (option_map (λ name. name.now) input.entry) (map (λ file. file.now) files.now)) result }
    ensures area { IfOk result (λ run. IsArea (run_in run)) }
{
    let Some(area_kib) = area else {
        return Err(ArgsFault::Usage);
    };
    let Some(turns) = turns else {
        return Err(ArgsFault::Usage);
    };
    if files.len() > MOST_FILES || !are_names(input, files) {
        return Err(ArgsFault::Usage);
    }
    match files {
        [file, further @ ..] => match Vec::from_slice(alloc, further) {
            Ok(further) => Ok(RunWords {
                area_kib,
                turns,
                input,
                file,
                further,
            }),
            Err(_) => Err(ArgsFault::Memory),
        },
        [] => Err(ArgsFault::Usage),
    }
}

// Whether the input, where there is one, and the texts have names.
fn are_names(input: Option<&str>, files: &[&str]) -> bool
    requires { length files.now ≤ 64 }
    ensures { result ≡ are_names (option_map (λ name. name.now) input.entry) (map (λ file. file.now) files.now) }
{
    match input {
        Some(input) => is_name(input) && are_all_names(files),
        None => are_all_names(files),
    }
}

// Whether all these words, at most `MOST_FILES`, are names.
fn are_all_names(words: &[&str]) -> bool
    requires { length words.now ≤ 64 }
    ensures { result ≡ list_all is_name (map (λ word. word.now) words.now) }
{
    match words {
        [word, further @ ..] => is_name(word) && are_all_names(further),
        [] => true,
    }
}

// Whether a word doesn't begin with `-`, or is that alone.
fn is_name(word: &str) -> bool
    ensures { result ≡ is_name word.now }
{
    is_plain_word(word) || word == "-"
}

fn is_plain_word(word: &str) -> bool
    ensures { result ≡ is_plain word.now }
{
    match word.as_bytes() {
        [byte, ..] => *byte != b'-',
        [] => true,
    }
}

// An area, in KiB.
fn read_area(digits: Option<&str>) -> Option<u32>
    ensures area { result ≡ area_given (option_map (λ digits. digits.now) digits.entry) }
    ensures bounds { IfSome result (λ kib. (1 ≤ kib) × (kib ≤ 262144)) }
{
    let Some(digits) = digits else {
        return Some(DEFAULT_AREA);
    };
    match read_number(digits.as_bytes(), 6, 1, MOST_AREA) {
        Some(kib) => Some(kib as u32),
        None => None,
    }
}

fn read_turns(digits: Option<&str>) -> Option<u64>
    ensures { result ≡ turns_given (option_map (λ digits. digits.now) digits.entry) }
{
    let Some(digits) = digits else {
        return Some(DEFAULT_TURNS);
    };
    read_number(digits.as_bytes(), 13, 0, MOST_TURNS)
}

// A number of at most so many digits, from the least to the most.
fn read_number(digits: &[u8], longest: usize, least: u64, most: u64) -> Option<u64>
    requires { most ≤ 1000000000000 }
    ensures number { result ≡ number_of longest least most digits.now }
    ensures bounds { IfSome result (λ value. (least ≤ value) × (value ≤ most)) }
{
    if digits.is_empty()
        || digits.len() > longest
        || !digits.iter().all(|byte| byte.is_ascii_digit())
    {
        return None;
    }
    let value = value_of(digits);
    if value < least {
        return None;
    }
    if value <= most { Some(value) } else { None }
}

// The number that decimal digits write, or one more than `MOST_TURNS` where it is larger.
fn value_of(digits: &[u8]) -> u64
    requires { AllPass is_ascii_digit digits.now }
    ensures { result ≡ min (decimal digits.now) 1000000000001 }
{
    let mut value = 0u64;
    for digit in digits {
        value = with_digit(value, *digit);
    }
    value
}

fn with_digit(value: u64, digit: u8) -> u64
    requires capped { value ≤ 1000000000001 }
    requires digit { is_ascii_digit digit ≡ true }
    ensures { result ≡ min (10 * value + (digit - 48)) 1000000000001 }
{
    (10 * value + (digit - b'0') as u64).min(MOST_TURNS + 1)
}
